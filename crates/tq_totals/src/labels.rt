// The labels of days.

ghost use Rattle.std.specs.Prelude.{◌≡◌, ◌≤◌, [], ◌∷◌, ◌++◌, take};
ghost use Rattle.tq_totals.specs.Calendar.{label, month_in, quarter_digit};

use crate::unit::Unit;
use tq_base::{Form, Instant, put_instant};

// The month of a date.
fn month_in(date: &[u8; 12]) -> u32
    ensures { result ≡ month_in date.now }
{
    let tens = u32::from(date[5].saturating_sub(b'0'));
    10 * tens + u32::from(date[6].saturating_sub(b'0'))
}

fn quarter_digit(month: u32) -> u8
    ensures { result ≡ quarter_digit month }
{
    if month <= 3 {
        b'1'
    } else if month <= 6 {
        b'2'
    } else if month <= 9 {
        b'3'
    } else {
        b'4'
    }
}

// Replaces what follows the year of a date by its quarter.
fn put_quarter(date: &mut [u8; 12])
    ensures { take 7 date.new ≡ take 4 date.old ++ 45 ∷ 81 ∷ quarter_digit (month_in date.old) ∷ [] }
{
    let digit = quarter_digit(month_in(date));
    date[4..7].copy_from_slice(&[b'-', b'Q', digit]);
}

// Writes the label of a day to the front of the array and returns its length.
pub(crate) fn put_label(unit: Unit, day: Instant, into: &mut [u8; 12]) -> usize
    requires { day ≤ 3652058 }
    ensures text { take result into.new ≡ label unit day }
    ensures in_range { result ≤ 12 }
{
    put_instant(day, Form::Dates, into);
    match unit {
        Unit::Month => 7,
        Unit::Quarter => {
            put_quarter(into);
            7
        }
        Unit::Year => 4,
    }
}
