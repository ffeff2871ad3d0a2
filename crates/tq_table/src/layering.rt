// Layering of periods by a sweep over their starts and ends.

ghost use Rattle.std.specs.Prelude.{◌≡◌, ◌≢◌, ◌<◌, ◌≤◌, length, slice_index, map, IfOk, IsSorted, IsPermutation, vec_len};
ghost use Rattle.std.specs.Bool.{OnTrue, OnFalse};
ghost use Rattle.std.specs.Ordering.{nat_cmp};
ghost use Rattle.tq_base.specs.Layering.{IsLayering, period_cmp};

use std::alloc::{AllocError, Global};
use tq_base::{Bound, Instant, Period};

fn starts_of(alloc: Global, periods: &[Period]) -> Result<Vec<Instant>, AllocError>
    ensures same { IfOk result (λ v. IsPermutation (map (λ p. p.start) periods.now) v.items) }
    ensures sorted { IfOk result (λ v. IsSorted nat_cmp v.items) }
{
    let mut starts: Vec<Instant> = periods.iter().map(|p| p.start).collect(alloc)?;
    starts.sort_unstable();
    Ok(starts)
}

fn ends_of(alloc: Global, periods: &[Period]) -> Result<Vec<Bound>, AllocError>
    ensures same { IfOk result (λ v. IsPermutation (map (λ p. p.end) periods.now) v.items) }
    ensures sorted { IfOk result (λ v. IsSorted nat_cmp v.items) }
    ensures len { IfOk result (λ v. vec_len v ≡ length periods.now) }
{
    let mut ends: Vec<Bound> = periods.iter().map(|p| p.end).collect(alloc)?;
    ends.sort_unstable();
    Ok(ends)
}

// Whether there is a start at the place, and it is before the end.
fn begins_before(starts: &[Instant], next: usize, end: Bound) -> bool
    ensures yes { OnTrue result ((next < length starts.now) × (slice_index starts.now next < end)) }
    ensures no { OnFalse result (next < length starts.now → end ≤ slice_index starts.now next) }
{
    match starts.get(next) {
        Some(start) => start.number() < end.number(),
        None => false,
    }
}

// Whether there is a start at the place, and it equals the end.
fn begins_at(starts: &[Instant], next: usize, end: Bound) -> bool
    ensures yes { OnTrue result ((next < length starts.now) × (slice_index starts.now next ≡ end)) }
    ensures no { OnFalse result (next < length starts.now → slice_index starts.now next ≢ end) }
{
    match starts.get(next) {
        Some(start) => start.number() == end.number(),
        None => false,
    }
}

/// The layers of the periods: nested periods, in order, that hold each instant as often. A start and an end at the same
/// instant cancel each other; every other end closes the newest open start. `AllocError` if an allocation failed.
pub fn layered(alloc: Global, periods: &[Period]) -> Result<Vec<Period>, AllocError>
    ensures layering { IfOk result (λ made. IsLayering periods.now made.items) }
    ensures in_order { IfOk result (λ made. IsSorted period_cmp made.items) }
    ensures no_more { IfOk result (λ made. vec_len made ≤ length periods.now) }
{
    let mut made = unordered(alloc, periods)?;
    made.sort_unstable();
    Ok(made)
}

// The layers of the periods, in the order of their ends.
fn unordered(alloc: Global, periods: &[Period]) -> Result<Vec<Period>, AllocError>
    ensures layering { IfOk result (λ made. IsLayering periods.now made.items) }
    ensures no_more { IfOk result (λ made. vec_len made ≤ length periods.now) }
{
    let starts = starts_of(alloc, periods)?;
    let ends = ends_of(alloc, periods)?;
    let mut opened: Vec<Instant> = Vec::new(alloc);
    let mut made = Vec::new(alloc);
    let mut next = 0;
    'ends: for end in &ends {
        'starts: while begins_before(&starts, next, *end) {
            opened.push(starts[next])?;
            next += 1;
        }
        if begins_at(&starts, next, *end) {
            next += 1;
        } else if let Some(start) = opened.pop() {
            made.push(Period { start, end: *end })?;
        }
    }
    Ok(made)
}
