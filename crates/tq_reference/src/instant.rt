// The rows of an answer at one instant.

ghost use Rattle.std.specs.Prelude.{◌≡◌, ◌≢◌, All, Err, ◌∷◌, ◌-◌, [], IfOk};
ghost use Rattle.tq_base.specs.Fragments.{occurrences};
ghost use Rattle.tq_base.specs.Periods.{holds};
ghost use Rattle.tq_agg.specs.Grouping.{Row};
ghost use Rattle.tq_plan.specs.Plans.{tables_of};
ghost use Rattle.tq_exec.specs.Answers.{as_of, lists_at, times_at};
ghost use Rattle.tq_exec.specs.Ordinary.{ordinary};
ghost use Rattle.tq_exec.specs.OutputPlaces.{HasNumbers};

use crate::fault::ReferenceFault;
use crate::history::lists_at;
use crate::query::ordinary;
use std::alloc::Global;
use tq_base::{Period, Values};
use tq_event::Event;
use tq_plan::{Plan, QueryPlan};

// Removes one of the rows that are equal to this one, if there is one.
fn remove_one(rows: &mut Vec<Values>, row: &Values)
    ensures { (v : Row) → occurrences rows.new.items v ≡ occurrences rows.old.items v - occurrences (row.now ∷ []) v }
{
    'rows: for place in 0..rows.len() {
        if rows[place] == *row {
            rows.remove(place);
            return;
        }
    }
}

// Removes, for each row on the right, one row that is equal to it.
fn remove_all(rows: &mut Vec<Values>, right: &[Values])
    ensures { (v : Row) → occurrences rows.new.items v ≡ occurrences rows.old.items v - occurrences right.now v }
{
    'right: for row in right {
        remove_one(rows, row);
    }
}

fn holds(window: &Period, instant: u64) -> bool
    ensures { result ≡ holds window.now instant }
{
    window.start.number() <= instant && instant < window.end.number()
}

// The rows of a query over the rows valid at the instant.
fn query_rows(
    alloc: Global,
    events: &[Event],
    n: u32,
    query: &QueryPlan,
    instant: u64,
) -> Result<Vec<Values>, ReferenceFault>
    ensures rows { IfOk result (λ rows. rows.items ≡ ordinary query.now (lists_at (as_of events.now n) instant (tables_of query.now))) }
    ensures too_large { All HasNumbers events.now → result ≢ Err ReferenceFault.TooLarge }
{
    let lists = lists_at(alloc, events, n, query.sources.get(), instant)?;
    ordinary(alloc, query, &lists)
}

/// The rows of a plan's answer at one instant as of the first `n` events, by the definition: those of the left query,
/// without those of the right one (EXCEPT ALL). None outside the window.
///
/// `TooLarge` if a sum is outside the range of `i128`; sums of the 64-bit numbers of tables never are. `OutOfMemory` if
/// an allocation failed.
pub fn rows_at(
    alloc: Global,
    events: &[Event],
    n: u32,
    plan: &Plan,
    instant: u64,
) -> Result<Vec<Values>, ReferenceFault>
    ensures rows { (v : Row) → IfOk result (λ rows. occurrences rows.items v ≡ times_at (as_of events.now n) plan.now v instant) }
    ensures too_large { All HasNumbers events.now → result ≢ Err ReferenceFault.TooLarge }
{
    if !holds(&plan.window, instant) {
        return Ok(Vec::new(alloc));
    }
    let mut rows = query_rows(alloc, events, n, &plan.left, instant)?;
    if let Some(right) = &plan.right {
        remove_all(&mut rows, &query_rows(alloc, events, n, right, instant)?);
    }
    Ok(rows)
}
