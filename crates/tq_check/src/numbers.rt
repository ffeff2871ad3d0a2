// Numbers of periods.

ghost use Rattle.std.specs.Prelude.{◌≡◌, ◌<◌, length};
ghost use Rattle.tq_check.specs.Numbers.{first_start, is_open, last_bound, last_change, open_periods};

use tq_base::{FOREVER, Period};

fn is_open(period: &Period) -> bool
    ensures { result ≡ is_open period.now }
{
    period.end.number() == FOREVER
}

pub(crate) fn open_periods(periods: &[Period]) -> usize
    ensures { result ≡ open_periods periods.now }
{
    periods.iter().filter(|period| is_open(*period)).count()
}

/// The least start of the periods; the number of `forever` if there are none.
pub(crate) fn first_start(periods: &[Period]) -> u64
    ensures value { result ≡ first_start periods.now }
    ensures within { 0 < length periods.now → result < 1000000000000 }
{
    let mut first = FOREVER;
    'periods: for period in periods {
        first = first.min(period.start.number());
    }
    first
}

// The end of the period, or its start if it has no end.
fn last_bound(period: &Period) -> u64
    ensures value { result ≡ last_bound period.now }
    ensures within { result < 1000000000000 }
{
    if is_open(period) {
        period.start.number()
    } else {
        period.end.number()
    }
}

/// The greatest `last_bound` of the periods; 0 if there are none.
pub(crate) fn last_change(periods: &[Period]) -> u64
    ensures value { result ≡ last_change periods.now }
    ensures within { result < 1000000000000 }
{
    let mut last = 0;
    'periods: for period in periods {
        last = last.max(last_bound(period));
    }
    last
}
