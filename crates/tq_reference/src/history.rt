// The rows of a table that are valid at an instant.

ghost use Rattle.std.specs.Prelude.{◌≡◌, IfOk};
ghost use Rattle.tq_event.specs.History.{end_of, valid_at};
ghost use Rattle.tq_plan.specs.Plans.{tables_in};
ghost use Rattle.tq_exec.specs.Answers.{as_of, lists_at};

use crate::bags::push;
use std::alloc::{AllocError, Global};
use tq_base::{FOREVER, List, Values};
use tq_event::Event;
use tq_plan::QuerySource;

// The instant at which these events end the row, or `FOREVER`.
fn end_of(events: &[Event], table: u32, row: usize) -> u64
    ensures { result ≡ end_of table row events.now }
{
    'events: for event in events {
        if let Event::End {
            table: of,
            row: number,
            at,
        } = event
        {
            if *of == table && *number as usize == row {
                return at.number();
            }
        }
    }
    FOREVER
}

// The values of the table's rows that are valid at the instant, as of the first `n` events.
fn valid_at(
    alloc: Global,
    events: &[Event],
    n: u32,
    table: u32,
    instant: u64,
) -> Result<Vec<Values>, AllocError>
    ensures { IfOk result (λ rows. rows.items ≡ valid_at events.now n table instant) }
{
    let known = &events[..(n as usize).min(events.len())];
    let mut rows = Vec::new(alloc);
    let mut number: usize = 0;
    'events: for (place, event) in known.iter().enumerate() {
        if let Event::Start {
            table: of,
            values,
            at,
        } = event
        {
            if *of == table {
                let end = end_of(&known[place + 1..], table, number);
                if at.number() <= instant && instant < end {
                    push(&mut rows, values.try_copy()?)?;
                }
                number += 1;
            }
        }
    }
    Ok(rows)
}

/// For each source, the rows valid at the instant as of the first `n` events. `AllocError` if an allocation failed.
pub fn lists_at(
    alloc: Global,
    events: &[Event],
    n: u32,
    sources: &[QuerySource],
    instant: u64,
) -> Result<Vec<List<Values>>, AllocError>
    ensures { IfOk result (λ lists. lists.items ≡ lists_at (as_of events.now n) instant (tables_in sources.now)) }
{
    let mut lists = Vec::new(alloc);
    'sources: for source in sources {
        let rows = valid_at(alloc, events, n, source.table, instant)?;
        push(&mut lists, List::of(rows))?;
    }
    Ok(lists)
}
