//! The bounds of the rows of a group, cut to the window.

ghost use Rattle.std.specs.Prelude.{◌≡◌, IsPermutation, IsSortedByKey, OnOk, map};
ghost use Rattle.std.specs.Ordering.{nat_cmp};
ghost use Rattle.tq_base.specs.declared.fragment.Fragment.{Fragment};
ghost use Rattle.tq_base.specs.SortInputs.{state_of};
ghost use Rattle.tq_base.specs.Keys.{key_row};
ghost use Rattle.tq_base.specs.declared.sort_input.SortKey.{SortKey};
ghost use Rattle.tq_agg.specs.declared.bounds.End.{End};
ghost use Rattle.tq_agg.specs.Bounds.{end_in, moved, start_in};

use std::alloc::AllocError;
use tq_base::{Bound, Period, Side, SortInput, SortKey};

// The end of a row, and the row.
#[derive(Clone, Copy)]
pub(crate) struct End {
    pub(crate) at: Bound,
    pub(crate) row: u32,
    pub(crate) side: Side,
}

// The bound with this number or, if it is outside the window, the nearer end of the window. It has no branch that the
// processor could predict wrongly.
fn moved(number: u64, window: &Period) -> Bound
    ensures { result ≡ moved window.now number }
{
    let nearest = number.min(window.end.number()).max(window.start.number());
    match Bound::new(nearest) {
        Some(bound) => bound,
        None => unreachable!(),
    }
}

// The start of the key's row, cut to the window.
pub(crate) fn start_in(key: &SortKey, window: &Period) -> Bound
    ensures { result ≡ start_in window.now key.now }
{
    moved(key.start, window)
}

// The end of the row of the key. The rows of a group are scattered in memory. So the ends are read in a loop of their own, in
// which the processor can wait for several of them concurrently.
fn end_of(sort_input: &SortInput<'_>, lefts: &[Period], key: &SortKey) -> Bound
    requires { lefts.now ≡ map (λ (row : Fragment). row.period) sort_input.now.left.now.items }
    ensures { result ≡ (key_row (state_of sort_input.now) key.now).period.end }
{
    match (key.side, lefts.get(key.row as usize)) {
        (Side::Left, Some(period)) => period.end,
        _ => sort_input.period(key).end,
    }
}

// Replaces the list by the ends of the keys' rows, cut to the window and in order of time.
pub(crate) fn fill_ends(
    sort_input: &SortInput<'_>,
    keys: &[SortKey],
    window: &Period,
    ends: &mut Vec<End>,
) -> Result<(), AllocError>
    ensures same { OnOk result (IsPermutation (map (end_in (state_of sort_input.now) window.now) keys.now) ends.new.items) }
    ensures sorted { OnOk result (IsSortedByKey (λ (e : End). e.at) nat_cmp ends.new.items) }
{
    ends.clear();
    ends.reserve(keys.len())?;
    let lefts = sort_input.left.periods();
    'keys: for key in keys {
        ends.push_reserved(End {
            at: moved(end_of(sort_input, lefts, key).number(), window),
            row: key.row,
            side: key.side,
        });
    }
    ends.sort_unstable_by_key(|end| end.at);
    Ok(())
}
