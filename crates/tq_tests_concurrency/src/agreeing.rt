//! Comparison of answers with the definition.

use std::alloc::{AllocError, Global};
use tq_base::Values;
use tq_event::Event;
use tq_plan::Plan;
use tq_reference::{ReferenceFault, rows_at};
use tq_table::Table;

// The rows of the table that are valid at the instant.
fn valid_rows(alloc: Global, table: &Table<'_>, instant: u64) -> Result<Vec<Values>, AllocError> {
    let mut rows = Vec::new(alloc);
    for line in 0..table.rows.len() {
        let period = table.rows.period(line);
        if period.start.number() <= instant && instant < period.end.number() {
            let mut values = Vec::new(alloc);
            table.rows.row(line).show_all(&mut values)?;
            rows.push(Values::of(values))?;
        }
    }
    rows.sort()?;
    Ok(rows)
}

/// Whether the table has at the instant exactly the rows of the plan's answer as of the first `n` events.
pub(crate) fn is_defined(
    alloc: Global,
    events: &[Event],
    n: u32,
    plan: &Plan,
    table: &Table<'_>,
    instant: u64,
) -> Result<bool, ReferenceFault> {
    let mut defined = rows_at(alloc, events, n, plan, instant)?;
    defined.sort()?;
    Ok(valid_rows(alloc, table, instant)? == defined)
}
