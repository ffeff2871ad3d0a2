// Rows of a child that have no parent at some time.

ghost use Rattle.std.specs.Prelude.{◌≡◌, ◌<◌, ◌≤◌, ◌++◌, [], ◌∷◌, false, true, IfOk, List, OnOk, length, slice_get, slice_index_or};
ghost use Rattle.std.specs.List.{cons_option, list_any};
ghost use Rattle.std.specs.List.Sorted.{IsPartitionPoint};
ghost use Rattle.tq_base.specs.Keys.{key_values, no_row, IsSortKey};
ghost use Rattle.tq_base.specs.SortInputs.{state_of};
ghost use Rattle.tq_check.specs.Covers.{is_covering, is_passed, AreCovers};
ghost use Rattle.tq_check.specs.OrphanPasses.{missing_case, missing_until, of_values};
ghost use Rattle.tq_check.specs.Orphans.{linked_rows, missing_in, orphan_cmp, orphan_of, orphans_of, IsOrphanOrder};
ghost use Rattle.tq_check.specs.declared.orphans.Orphan.{Orphan as OneOrphan};

use crate::covers::{Cover, covers_of};
use crate::missing::Missing;
use crate::references::Reference;
use std::alloc::{AllocError, Global};
use std::cmp::Ordering;
use tq_base::{Relation, RunStart, Side, SortInput, SortKey, normalized_key};

/// A row that has no parent at some time: its place in its table, its period, and the first period in which it has none.
#[derive(Clone, Copy, Debug)]
pub(crate) struct Orphan {
    pub(crate) place: u32,
    pub(crate) start: u64,
    pub(crate) end: u64,
    pub(crate) missing: Missing,
}

// Whether the cover lies before the start of the key's row.
fn is_passed(sort_input: &SortInput<'_>, cover: &Cover, key: &SortKey) -> bool
    ensures { result ≡ is_passed (state_of sort_input.now) key.now cover.now }
{
    match sort_input.compare_values(&cover.key, key) {
        Ordering::Less => true,
        Ordering::Equal => cover.end <= key.start,
        Ordering::Greater => false,
    }
}

// How many covers lie before the start of the key's row.
fn count_passed(sort_input: &SortInput<'_>, covers: &[Cover], key: &SortKey) -> usize
    requires covers { AreCovers (state_of sort_input.now) covers.now }
    requires key { IsSortKey (state_of sort_input.now) key.now }
    ensures point { IsPartitionPoint (λ cover. is_passed (state_of sort_input.now) key.now cover ≡ true) (λ cover. is_passed (state_of sort_input.now) key.now cover ≡ false) covers.now result }
    ensures within { result ≤ length covers.now }
{
    covers.partition_point(|cover| is_passed(sort_input, cover, key))
}

// The cover at the place, if it has the values of the key.
fn cover_at(
    sort_input: &SortInput<'_>,
    covers: &[Cover],
    place: usize,
    key: &SortKey,
) -> Option<Cover>
    ensures { result ≡ of_values (state_of sort_input.now) key.now (slice_get covers.now place) }
{
    match covers.get(place) {
        Some(cover) if sort_input.compare_values(&cover.key, key).is_eq() => Some(*cover),
        _ => None,
    }
}

// The period from `from` up to the start of the next cover, or up to `end`.
fn missing_until(from: u64, end: u64, next: Option<Cover>) -> Missing
    ensures { result ≡ missing_until from end next }
{
    let to = match next {
        Some(cover) => end.min(cover.key.start),
        None => end,
    };
    Missing { from, to }
}

// What is missing first from `start` to `end`, if anything. The cover `first` contains the start or begins after it.
fn missing_case(first: Option<Cover>, next: Option<Cover>, start: u64, end: u64) -> Option<Missing>
    ensures { result ≡ missing_case first next start end }
{
    let Some(cover) = first else {
        return Some(missing_until(start, end, None));
    };
    if start < cover.key.start {
        return Some(missing_until(start, end, first));
    }
    if end <= cover.end {
        return None;
    }
    Some(missing_until(cover.end, end, next))
}

// What the row of the key, which is valid up to `end`, first misses.
fn missing_of(
    sort_input: &SortInput<'_>,
    covers: &[Cover],
    key: &SortKey,
    end: u64,
) -> Option<Missing>
    requires covers { AreCovers (state_of sort_input.now) covers.now }
    requires key { IsSortKey (state_of sort_input.now) key.now }
    requires some { key.now.start < end }
    ensures { result ≡ missing_in (λ at. list_any (is_covering (state_of sort_input.now) (key_values (state_of sort_input.now) key.now) at) covers.now) key.now.start end }
{
    let place = count_passed(sort_input, covers, key);
    let first = cover_at(sort_input, covers, place, key);
    let next = cover_at(sort_input, covers, place + 1, key);
    missing_case(first, next, key.start, end)
}

// The key of the row at the place of the left side, whose values in the column are compared.
fn child_key(sort_input: &SortInput<'_>, column: u32, place: usize) -> SortKey
    requires within { place < length sort_input.now.left.now.items }
    requires column { sort_input.now.left_columns.now ≡ column ∷ [] }
    ensures key { IsSortKey (state_of sort_input.now) result }
    ensures side { result.side ≡ Side.Left }
    ensures row { result.row ≡ place }
{
    let _few = sort_input.left.len();
    let row = sort_input.left.row(place);
    let period = sort_input.left.period(place);
    SortKey {
        prefix: normalized_key(row.value(column as usize)),
        start: period.start.number(),
        row: place as u32,
        side: Side::Left,
        run_start: RunStart::Unknown,
    }
}

// The row at the place of the left side, if it misses a parent.
fn orphan_at(
    sort_input: &SortInput<'_>,
    covers: &[Cover],
    reference: &Reference,
    place: usize,
) -> Option<Orphan>
    requires covers { AreCovers (state_of sort_input.now) covers.now }
    requires within { place < length sort_input.now.left.now.items }
    requires column { sort_input.now.left_columns.now ≡ reference.now.child.column ∷ [] }
    requires parent_column { sort_input.now.right_columns.now ≡ reference.now.parent.column ∷ [] }
    ensures { result ≡ orphan_of (linked_rows sort_input.now.left.now.items sort_input.now.right.now.items reference.now) (slice_index_or sort_input.now.left.now.items place no_row) place }
{
    let key = child_key(sort_input, reference.child.column, place);
    let end = sort_input.left.period(place).end.number();
    match missing_of(sort_input, covers, &key, end) {
        Some(missing) => Some(Orphan {
            place: key.row,
            start: key.start,
            end,
            missing,
        }),
        None => None,
    }
}

// Adds the row if there is one.
fn add_orphan(orphans: &mut Vec<Orphan>, orphan: Option<Orphan>) -> Result<(), AllocError>
    ensures { (rest : List OneOrphan) → OnOk result (orphans.new.items ++ rest ≡ orphans.old.items ++ cons_option orphan rest) }
{
    if let Some(orphan) = orphan {
        orphans.push(orphan)?;
    }
    Ok(())
}

// The rows of the left side that miss a parent, in their order.
fn orphans_in(
    alloc: Global,
    sort_input: &SortInput<'_>,
    covers: &[Cover],
    reference: &Reference,
) -> Result<Vec<Orphan>, AllocError>
    requires covers { AreCovers (state_of sort_input.now) covers.now }
    requires column { sort_input.now.left_columns.now ≡ reference.now.child.column ∷ [] }
    requires parent_column { sort_input.now.right_columns.now ≡ reference.now.parent.column ∷ [] }
    ensures { IfOk result (λ orphans. orphans.items ≡ orphans_of (linked_rows sort_input.now.left.now.items sort_input.now.right.now.items reference.now)) }
{
    let mut orphans = Vec::new(alloc);
    'places: for place in 0..sort_input.left.len() {
        let orphan = orphan_at(sort_input, covers, reference, place);
        add_orphan(&mut orphans, orphan)?;
    }
    Ok(orphans)
}

// Compares by the value in the column, then by start, then by end, then by place.
fn compare(children: &Relation<'_>, column: u32, one: &Orphan, other: &Orphan) -> Ordering
    ensures { result ≡ orphan_cmp children.now.items column one.now other.now }
{
    let row = children.row(one.place as usize);
    let other_row = children.row(other.place as usize);
    row.value(column as usize)
        .compare(other_row.value(column as usize))
        .then(one.start.cmp(&other.start))
        .then(one.end.cmp(&other.end))
        .then(one.place.cmp(&other.place))
}

// The rows of the left side that miss a parent, by value, start, end and place.
fn sorted_orphans(
    alloc: Global,
    sort_input: &SortInput<'_>,
    reference: &Reference,
) -> Result<Vec<Orphan>, AllocError>
    requires column { sort_input.now.left_columns.now ≡ reference.now.child.column ∷ [] }
    requires parent_column { sort_input.now.right_columns.now ≡ reference.now.parent.column ∷ [] }
    ensures { IfOk result (λ order. IsOrphanOrder (linked_rows sort_input.now.left.now.items sort_input.now.right.now.items reference.now) order.items) }
{
    let covers = covers_of(alloc, sort_input)?;
    let mut orphans = orphans_in(alloc, sort_input, &covers, reference)?;
    let children = sort_input.left;
    let column = reference.child.column;
    orphans.sort_unstable_by(|one, other| compare(children, column, one, other));
    Ok(orphans)
}

/// The rows of the child that miss a parent, by value, start, end and place. `AllocError` if an allocation failed.
pub(crate) fn orphans_by_value(
    alloc: Global,
    children: &Relation<'_>,
    parents: &Relation<'_>,
    reference: &Reference,
) -> Result<Vec<Orphan>, AllocError>
    ensures { IfOk result (λ order. IsOrphanOrder (linked_rows children.now.items parents.now.items reference.now) order.items) }
{
    let child_columns = [reference.child.column];
    let parent_columns = [reference.parent.column];
    let sort_input = SortInput {
        left: &*children,
        right: &*parents,
        left_columns: &child_columns,
        right_columns: &parent_columns,
    };
    sorted_orphans(alloc, &sort_input, reference)
}
