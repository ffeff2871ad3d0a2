// The keys of each table that a plan needs, and a sample of the keys that rows have there.

ghost use Rattle.std.specs.Prelude.{◌≡◌, ◌≤◌, ◌+◌, ℤ, IfOk, IfSome, None, length};
ghost use Rattle.tq_exec.specs.Reads.{AreApart, HasPlanKeys, HasQueryKeys, HasSourceKeys, is_key_in, ranges_with};

use std::alloc::{AllocError, Global};
use tq_base::KeyRange;
use tq_plan::{Plan, QueryPlan, QuerySource};
use tq_store::Events;

// Events are sampled at about this many places of the history.
const SAMPLES: usize = 1_024;

// The number of events that are sampled at each place.
const AT_EACH: u32 = 4;

/// Keys of a table whose rows are to be read.
#[derive(Clone, Copy, Debug)]
pub struct TableKeys {
    pub table: u32,
    pub keys: KeyRange,
}

// The smallest range that contains both, if they have a key in common: it has the keys of both and no others.
fn united(one: KeyRange, other: KeyRange) -> Option<KeyRange>
    ensures first { (key : ℤ) → IfSome result (λ range. is_key_in key one ≤ is_key_in key range) }
    ensures second { (key : ℤ) → IfSome result (λ range. is_key_in key other ≤ is_key_in key range) }
    ensures just { (key : ℤ) → IfSome result (λ range. is_key_in key range ≤ is_key_in key one + is_key_in key other) }
    ensures apart { (key : ℤ) → result ≡ None → is_key_in key one + is_key_in key other ≤ 1 }
{
    if one.low <= other.high && other.low <= one.high {
        Some(one.hull(other))
    } else {
        None
    }
}

// The range, united with the next one if they have a key in common. If they have none, the next one goes to the others.
fn unite(
    others: &mut Vec<KeyRange>,
    range: KeyRange,
    next: KeyRange,
) -> Result<KeyRange, AllocError>
    ensures apart { (key : ℤ) → ranges_with others.old.items key + is_key_in key range ≤ 1 → ranges_with others.old.items key + is_key_in key next ≤ 1 → IfOk result (λ all. ranges_with others.new.items key + is_key_in key all ≤ 1) }
    ensures just { (key : ℤ) → IfOk result (λ _. ranges_with others.new.items key ≤ ranges_with others.old.items key + is_key_in key next) }
    ensures keys { (key : ℤ) → 1 ≤ ranges_with others.old.items key + is_key_in key range + is_key_in key next → IfOk result (λ all. 1 ≤ ranges_with others.new.items key + is_key_in key all) }
{
    match united(range, next) {
        Some(both) => Ok(both),
        None => {
            others.push(next)?;
            Ok(range)
        }
    }
}

// The ranges with one more. Those that have a key in common with it are united with it.
fn add_range(
    alloc: Global,
    ranges: &[KeyRange],
    range: KeyRange,
) -> Result<Vec<KeyRange>, AllocError>
    requires { AreApart ranges.now }
    ensures apart { IfOk result (λ more. AreApart more.items) }
    ensures keys { (key : ℤ) → 1 ≤ is_key_in key range + ranges_with ranges.now key → IfOk result (λ more. 1 ≤ ranges_with more.items key) }
{
    let mut others = Vec::new(alloc);
    let mut all = range;
    'each: for next in ranges {
        all = unite(&mut others, all, *next)?;
    }
    others.push(all)?;
    Ok(others)
}

// The ranges, with the keys of the source's rows that are part of a row which passes the query, if it is a source of the
// table.
fn add_source(
    alloc: Global,
    ranges: Vec<KeyRange>,
    query: &QueryPlan,
    source: &QuerySource,
    table: u32,
) -> Result<Vec<KeyRange>, AllocError>
    requires { AreApart ranges.items }
    ensures apart { IfOk result (λ more. AreApart more.items) }
    ensures kept { (key : ℤ) → 1 ≤ ranges_with ranges.items key → IfOk result (λ more. 1 ≤ ranges_with more.items key) }
    ensures added { source.now.table ≡ table → IfOk result (λ more. HasSourceKeys query.now source.now more.items) }
{
    if source.table != table {
        return Ok(ranges);
    }
    match query.keys_of(source) {
        Some(keys) => add_range(alloc, &ranges, keys),
        None => Ok(ranges),
    }
}

// The ranges, with the keys of the table's rows that are part of a row which passes the query.
fn add_query(
    alloc: Global,
    ranges: Vec<KeyRange>,
    query: &QueryPlan,
    table: u32,
) -> Result<Vec<KeyRange>, AllocError>
    requires { AreApart ranges.items }
    ensures apart { IfOk result (λ more. AreApart more.items) }
    ensures kept { (key : ℤ) → 1 ≤ ranges_with ranges.items key → IfOk result (λ more. 1 ≤ ranges_with more.items key) }
    ensures added { IfOk result (λ more. HasQueryKeys table more.items query.now) }
{
    let mut more = ranges;
    'sources: for source in query.sources.get() {
        more = add_source(alloc, more, query, source, table)?;
    }
    Ok(more)
}

/// Ranges that hold the keys of the table's rows that are part of a row which passes a query of the plan. No key is in two
/// of them. `AllocError` if an allocation failed.
pub(crate) fn plan_keys(alloc: Global, plan: &Plan, table: u32) -> Result<Vec<KeyRange>, AllocError>
    ensures apart { IfOk result (λ ranges. AreApart ranges.items) }
    ensures needed { IfOk result (λ ranges. HasPlanKeys table ranges.items plan.now) }
{
    let left = add_query(alloc, Vec::new(alloc), &plan.left, table)?;
    match &plan.right {
        Some(right) => add_query(alloc, left, right, table),
        None => Ok(left),
    }
}

// Appends the keys of the rows of the table that the events from `first` up to `end` start, if they lie in the range.
fn add_keys(
    events: &Events<'_>,
    first: u32,
    end: u32,
    of: TableKeys,
    keys: &mut Vec<i64>,
) -> Result<(), AllocError>
    requires { end ≤ length events.now }
{
    'events: for number in first..end {
        if let Some(key) = events.start_key(number, of.table) {
            let key = i64::try_from(key).unwrap_or(0);
            if of.keys.low <= key && key <= of.keys.high {
                keys.push(key)?;
            }
        }
    }
    Ok(())
}

/// A sample of the keys in the range, in order, from the rows that the first n events start.
pub(crate) fn some_keys(
    alloc: Global,
    events: &Events<'_>,
    n: u32,
    of: TableKeys,
) -> Result<Vec<i64>, AllocError>
    requires { n ≤ length events.now }
{
    let mut keys = Vec::new(alloc);
    let step = n as usize / SAMPLES + 1;
    'places: for first in (0..n).step_by(step) {
        let end = first.saturating_add(AT_EACH).min(n);
        add_keys(events, first, end, of, &mut keys)?;
    }
    keys.sort_unstable();
    Ok(keys)
}
