//! Difference: a sweep counts the rows of each group of equal values up and down over time.

ghost use Rattle.std.specs.Prelude.{◌≡◌, ℕ, ◌+◌, ◌-◌, ◌<◌, ◌↔◌, [], true, false, if◌then◌else◌, length, map, All, IfOk, IfSome, IsNone, IsSome, IsTrue, List, OnOk, IsSortedByKey};
ghost use Rattle.std.specs.List.{Contains};
ghost use Rattle.std.specs.Ordering.{nat_cmp};
ghost use Rattle.tq_base.specs.declared.value.Value.{Value};
ghost use Rattle.tq_base.specs.declared.relation.RowPeriod.{RowPeriod};
ghost use Rattle.tq_base.specs.declared.sort_input.Side.TheVariants.{Left, Right};
ghost use Rattle.tq_base.specs.Fragments.{copies};
ghost use Rattle.tq_base.specs.Keys.{held as held_key, is_same_side, key_row, key_values, IsSortKey};
ghost use Rattle.tq_base.specs.SortInputs.{state_of};
ghost use Rattle.tq_base.specs.Layering.{held};
ghost use Rattle.tq_base.specs.Periods.{holds};
ghost use Rattle.tq_base.specs.Relations.{row_period_of};
ghost use Rattle.tq_ops.specs.declared.difference.Change.{Change};
ghost use Rattle.tq_ops.specs.Differences.{falls_upto, rows_at_periods, rises_upto, side_held, periods_on, AddsDifference, AreKeysOfBoth, AreRowPeriods, AreOfValues, IsEven};
ghost use Rattle.tq_condition.specs.Ordinary.{HasInside, IsEmptyOutside};

use crate::overlapping::overlapping_keys;
use crate::selection::select;
use std::alloc::{AllocError, Global};
use tq_base::{Bound, Instant, Period, Relation, RowPeriod, Side, SortInput, SortKey, all_columns};

// From the bound on there is one row more to return, or one row less.
#[derive(Clone, Copy)]
struct Change {
    at: Bound,
    rises: bool,
}

// The period between the bounds, if the first is less than the second.
fn between(start: Bound, end: Bound) -> Option<Period>
    ensures some { IsSome result ↔ (start < end) }
    ensures start { IfSome result (λ period. period.start ≡ start) }
    ensures end { IfSome result (λ period. period.end ≡ end) }
{
    let start = Instant::new(start.number())?;
    Period::new(start, end)
}

// The periods of the rows that the keys name. Sorted keys name rows that are far apart in memory. The loop does no more
// than this, so that the processor overlaps the cache misses.
fn periods_of(
    alloc: Global,
    sort_input: &SortInput<'_>,
    keys: &[SortKey],
) -> Result<Vec<Period>, AllocError>
    ensures { IfOk result (λ periods. periods.items ≡ periods_on (state_of sort_input.now) keys.now) }
{
    let mut periods = Vec::with_capacity(alloc, keys.len())?;
    'keys: for key in keys {
        periods.push_reserved(sort_input.period(key));
    }
    Ok(periods)
}

// The changes at the starts and ends of the rows, cut to the window, in order.
fn changes_of(
    alloc: Global,
    sort_input: &SortInput<'_>,
    group: &[SortKey],
    periods: &[Period],
    window: &Period,
) -> Result<Vec<Change>, AllocError>
    requires { periods.now ≡ periods_on (state_of sort_input.now) group.now }
    ensures counted { IfOk result (λ changes. (t : ℕ) →
        rises_upto changes.items t + side_held window.now Right (map (held_key (state_of sort_input.now)) group.now) t
        ≡ falls_upto changes.items t + side_held window.now Left (map (held_key (state_of sort_input.now)) group.now) t) }
    ensures even { IfOk result (λ changes. IsEven changes.items) }
    ensures sorted { IfOk result (λ changes. IsSortedByKey (λ (c : Change). c.at) nat_cmp changes.items) }
{
    let mut changes = Vec::new(alloc);
    'rows: for place in 0..group.len() {
        let Some(period) = periods[place].overlap(window) else {
            continue;
        };
        let rises = is_left(group[place].side);
        changes.push(Change {
            at: Bound::at(period.start),
            rises,
        })?;
        changes.push(Change {
            at: period.end,
            rises: !rises,
        })?;
    }
    changes.sort_unstable_by_key(|change| change.at);
    Ok(changes)
}

fn is_left(side: Side) -> bool
    ensures { result ≡ is_same_side Left side }
{
    match side {
        Side::Left => true,
        Side::Right => false,
    }
}

// The periods that remain. At each instant, the number of valid ones is the rises up to it minus the falls, or 0 if
// falls prevail.
fn swept(alloc: Global, changes: &[Change]) -> Result<Vec<Period>, AllocError>
    requires sorted { IsSortedByKey (λ (c : Change). c.at) nat_cmp changes.now }
    requires even { IsEven changes.now }
    ensures { IfOk result (λ made. (t : ℕ) → held made.items t ≡ rises_upto changes.now t - falls_upto changes.now t) }
{
    let mut opened: Vec<Bound> = Vec::new(alloc);
    let mut owed: usize = 0;
    let mut made = Vec::new(alloc);
    'changes: for change in changes {
        if change.rises {
            if owed > 0 {
                owed -= 1;
            } else {
                opened.push(change.at)?;
            }
        } else if let Some(start) = opened.pop() {
            if let Some(period) = between(start, change.at) {
                made.push(period)?;
            }
        } else {
            owed += 1;
        }
    }
    Ok(made)
}

// Whether all rows of the group are of the left.
fn are_left(group: &[SortKey]) -> bool
    ensures { IsTrue result → All (λ k. is_same_side Left k.side ≡ true) group.now }
{
    'keys: for key in group {
        if !is_left(key.side) {
            return false;
        }
    }
    true
}

// The first row of the group that is of the left, if there is one.
fn first_left(group: &[SortKey]) -> Option<SortKey>
    ensures left { IfSome result (λ key. is_same_side Left key.side ≡ true) }
    ensures stands { IfSome result (λ key. Contains group.now key) }
    ensures none { IsNone result → All (λ k. is_same_side Left k.side ≡ false) group.now }
{
    'keys: for key in group {
        if is_left(key.side) {
            return Some(*key);
        }
    }
    None
}

// Appends the rows of a group of the left, cut to the window.
fn add_cut(
    sort_input: &SortInput<'_>,
    group: &[SortKey],
    periods: &[Period],
    window: &Period,
    lines: &mut Vec<RowPeriod>,
) -> Result<(), AllocError>
    requires periods { periods.now ≡ periods_on (state_of sort_input.now) group.now }
    requires left { All (λ k. is_same_side Left k.side ≡ true) group.now }
    requires keys { All (IsSortKey (state_of sort_input.now)) group.now }
    ensures within { OnOk result (AreRowPeriods (state_of sort_input.now) lines.old.items → AreRowPeriods (state_of sort_input.now) lines.new.items) }
    ensures rows { OnOk result ((v : List Value) → AreOfValues v (map (held_key (state_of sort_input.now)) group.now)
        → AddsDifference window.now (map (held_key (state_of sort_input.now)) group.now) v (rows_at_periods (state_of sort_input.now) lines.old.items) (rows_at_periods (state_of sort_input.now) lines.new.items)) }
{
    'rows: for place in 0..group.len() {
        let Some(period) = periods[place].overlap(window) else {
            continue;
        };
        lines.push(RowPeriod {
            row: group[place].row,
            period,
        })?;
    }
    Ok(())
}

// Appends the difference of a group of equal rows: its first row of the left, once for each remaining period. A group
// of one side alone needs no sweep.
fn add_difference(
    alloc: Global,
    sort_input: &SortInput<'_>,
    group: &[SortKey],
    periods: &[Period],
    window: &Period,
    lines: &mut Vec<RowPeriod>,
) -> Result<(), AllocError>
    requires periods { periods.now ≡ periods_on (state_of sort_input.now) group.now }
    requires keys { All (IsSortKey (state_of sort_input.now)) group.now }
    ensures within { OnOk result (AreRowPeriods (state_of sort_input.now) lines.old.items → AreRowPeriods (state_of sort_input.now) lines.new.items) }
    ensures rows { OnOk result ((v : List Value) → AreOfValues v (map (held_key (state_of sort_input.now)) group.now)
        → AddsDifference window.now (map (held_key (state_of sort_input.now)) group.now) v (rows_at_periods (state_of sort_input.now) lines.old.items) (rows_at_periods (state_of sort_input.now) lines.new.items)) }
{
    let Some(first) = first_left(group) else {
        return Ok(());
    };
    if are_left(group) {
        return add_cut(sort_input, group, periods, window, lines);
    }
    let changes = changes_of(alloc, sort_input, group, periods, window)?;
    let left = swept(alloc, &changes)?;
    'periods: for period in &left {
        lines.push(RowPeriod {
            row: first.row,
            period: *period,
        })?;
    }
    Ok(())
}

// The keys of the rows of both sides that overlap the window, in the order of their values.
fn sorted_keys(
    alloc: Global,
    sort_input: &SortInput<'_>,
    window: &Period,
) -> Result<Vec<SortKey>, AllocError>
    ensures { IfOk result (λ keys. AreKeysOfBoth (state_of sort_input.now) window.now keys.items) }
{
    let mut keys = overlapping_keys(alloc, sort_input, window)?;
    sort_input.sort(&mut keys)?;
    Ok(keys)
}

// Appends the differences of all groups to the empty list.
fn add_differences(
    alloc: Global,
    sort_input: &SortInput<'_>,
    keys: &[SortKey],
    window: &Period,
    lines: &mut Vec<RowPeriod>,
) -> Result<(), AllocError>
    requires keys { AreKeysOfBoth (state_of sort_input.now) window.now keys.now }
    requires whole { All (λ k. key_values (state_of sort_input.now) k ≡ (key_row (state_of sort_input.now) k).values) keys.now }
    requires empty { lines.old.items ≡ [] }
    ensures within { OnOk result (AreRowPeriods (state_of sort_input.now) lines.new.items) }
    ensures counted { OnOk result ((t : ℕ) (v : List Value) → copies (rows_at_periods (state_of sort_input.now) lines.new.items) v t
        ≡ (if holds window.now t then copies sort_input.now.left.now.items v t - copies sort_input.now.right.now.items v t else 0)) }
{
    let periods = periods_of(alloc, sort_input, keys)?;
    let mut start = 0;
    'groups: while start < keys.len() {
        let end = start + sort_input.run_len(&keys[start..]);
        add_difference(
            alloc,
            sort_input,
            &keys[start..end],
            &periods[start..end],
            window,
            lines,
        )?;
        start = end;
    }
    Ok(())
}

// The rows of the left that remain, by number, each with a period. Both sides must have the same width.
fn remaining_periods<'a>(
    alloc: Global,
    left: &'a Relation<'a>,
    right: &'a Relation<'a>,
    window: &Period,
) -> Result<Vec<RowPeriod>, AllocError>
    requires { right.now.width ≡ left.now.width }
    ensures within { IfOk result (λ lines. All (λ (line : RowPeriod). line.row < length left.now.items) lines.items) }
    ensures inside { IfOk result (λ lines. HasInside window.now (map (row_period_of left.now.items) lines.items) (λ t v. copies left.now.items v t - copies right.now.items v t)) }
    ensures outside { IfOk result (λ lines. IsEmptyOutside window.now (map (row_period_of left.now.items) lines.items)) }
{
    let columns = all_columns(alloc, left.width())?;
    right.width();
    let sort_input = SortInput {
        left,
        right,
        left_columns: &columns,
        right_columns: &columns,
    };
    let keys = sorted_keys(alloc, &sort_input, window)?;
    let mut lines = Vec::new(alloc);
    add_differences(alloc, &sort_input, &keys, window, &mut lines)?;
    Ok(lines)
}

/// At each instant of the window, each row as often as it is valid on the left more often than on the right. No value
/// is copied. `AllocError` if an allocation failed.
pub fn except_all<'a>(
    alloc: Global,
    left: Relation<'a>,
    right: &Relation<'_>,
    window: &Period,
) -> Result<Relation<'a>, AllocError>
    ensures width { IfOk result (λ out. out.width ≡ left.entry.width) }
    ensures inside { IfOk result (λ out. HasInside window.now out.items (λ t v. copies left.entry.items v t - copies right.now.items v t)) }
    ensures outside { IfOk result (λ out. IsEmptyOutside window.now out.items) }
{
    if left.width() != right.width() {
        return select(alloc, left, window, None);
    }
    let lines = remaining_periods(alloc, &left, right, window)?;
    left.take_row_periods(alloc, &lines)
}
