// Rows that overlap or meet an earlier row with equal values.

ghost use Rattle.std.specs.Prelude.{◌≡◌, ◌≤◌, IfOk, IsPermutation, length, map};
ghost use Rattle.std.specs.List.{range_with_len};
ghost use Rattle.tq_base.specs.SortInputs.{state_of};
ghost use Rattle.tq_base.specs.Keys.{key_row};
ghost use Rattle.tq_check.specs.EqualRows.{meeting, overlapping};
ghost use Rattle.tq_check.specs.Runs.{adjacent_count, overlap_count, adjacent_starts, overlapping_starts, AreInOrder};

use std::alloc::{AllocError, Global};
use tq_base::{Relation, Rows, Side, SortInput, SortKey, all_columns};

/// How many rows overlap an earlier equal row, and how many meet an equal row.
#[derive(Clone, Copy, Debug)]
pub(crate) struct Tally {
    pub(crate) overlapping: usize,
    pub(crate) meeting: usize,
}

// 1 if the start is before the greatest end so far, else 0.
fn overlap_count(start: u64, reach: u64) -> usize
    ensures value { result ≡ overlap_count start reach }
    ensures one { result ≤ 1 }
{
    if start < reach { 1 } else { 0 }
}

// 1 if the start equals the greatest end so far, and there is one, else 0.
fn adjacent_count(start: u64, reach: u64) -> usize
    ensures value { result ≡ adjacent_count start reach }
    ensures one { result ≤ 1 }
{
    if start == reach && 0 < reach { 1 } else { 0 }
}

// The counts of one run: rows that start before the greatest end of the rows before them, and rows that start at it.
fn tally_run(sort_input: &SortInput<'_>, run: &[SortKey]) -> Tally
    ensures overlapping { result.overlapping ≡ overlapping_starts 0 (map (key_row (state_of sort_input.now)) run.now) }
    ensures meeting { result.meeting ≡ adjacent_starts 0 (map (key_row (state_of sort_input.now)) run.now) }
    ensures few_overlap { result.overlapping ≤ length run.now }
    ensures few_meet { result.meeting ≤ length run.now }
{
    let mut overlapping = 0;
    let mut meeting = 0;
    let mut reach = 0;
    'places: for place in 0..run.len() {
        let key = run[place];
        let period = sort_input.period(&key);
        let start = period.start.number();
        overlapping += overlap_count(start, reach);
        meeting += adjacent_count(start, reach);
        reach = reach.max(period.end.number());
    }
    Tally {
        overlapping,
        meeting,
    }
}

// The counts of all keys' rows, run by run.
fn tally_keys(sort_input: &SortInput<'_>, keys: &[SortKey]) -> Tally
    requires { AreInOrder (state_of sort_input.now) keys.now }
    ensures overlapping { result.overlapping ≡ overlapping (map (key_row (state_of sort_input.now)) keys.now) }
    ensures meeting { result.meeting ≡ meeting (map (key_row (state_of sort_input.now)) keys.now) }
{
    let mut overlapping = 0;
    let mut meeting = 0;
    let mut start = 0;
    'runs: while start < keys.len() {
        let end = start + sort_input.run_len(&keys[start..]);
        let run = tally_run(sort_input, &keys[start..end]);
        overlapping += run.overlapping;
        meeting += run.meeting;
        start = end;
    }
    Tally {
        overlapping,
        meeting,
    }
}

// The keys of the rows, ordered by their values and then by their starts.
fn sorted_keys(alloc: Global, sort_input: &SortInput<'_>) -> Result<Vec<SortKey>, AllocError>
    requires same { sort_input.now.right_columns.now ≡ sort_input.now.left_columns.now }
    requires rows { sort_input.now.right.now ≡ sort_input.now.left.now }
    requires columns { sort_input.now.left_columns.now ≡ range_with_len 0 sort_input.now.left.now.width }
    ensures rows { IfOk result (λ keys. IsPermutation sort_input.now.left.now.items (map (key_row (state_of sort_input.now)) keys.items)) }
    ensures order { IfOk result (λ keys. AreInOrder (state_of sort_input.now) keys.items) }
{
    let mut keys = Vec::new(alloc);
    sort_input.add_keys(Side::Left, None, &mut keys)?;
    sort_input.sort(&mut keys)?;
    sort_input.left.width();
    Ok(keys)
}

// The counts of the rows of the relation.
fn tally_relation(alloc: Global, rows: &Relation<'_>) -> Result<Tally, AllocError>
    ensures overlapping { IfOk result (λ tally. tally.overlapping ≡ overlapping rows.now.items) }
    ensures meeting { IfOk result (λ tally. tally.meeting ≡ meeting rows.now.items) }
{
    let columns = all_columns(alloc, rows.width())?;
    let sort_input = SortInput {
        left: &*rows,
        right: &*rows,
        left_columns: &columns,
        right_columns: &columns,
    };
    let keys = sorted_keys(alloc, &sort_input)?;
    Ok(tally_keys(&sort_input, &keys))
}

/// The counts of the rows. A sort puts equal rows next to each other; no value is copied. `AllocError` if an allocation
/// failed.
pub(crate) fn tally_of(alloc: Global, rows: &Rows) -> Result<Tally, AllocError>
    ensures overlapping { IfOk result (λ tally. tally.overlapping ≡ overlapping rows.now.items) }
    ensures meeting { IfOk result (λ tally. tally.meeting ≡ meeting rows.now.items) }
{
    let relation = Relation::of(alloc, rows)?;
    tally_relation(alloc, &relation)
}
