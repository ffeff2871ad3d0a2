//! Histories and plans that no file and no statement make.

use crate::fault::Fault;
use crate::instants::{Question, asked, lines_at, print_at};
use crate::printing::print_rows;
use std::alloc::{AllocError, Global};
use tq_base::{Instant, List, Value, Values};
use tq_event::{Event, MAX_EVENTS, TableFile};
use tq_plan::QuerySource;

// Sources of three columns for these tables, one after another.
fn sources_of(alloc: Global, tables: &str) -> Result<List<QuerySource>, AllocError> {
    let mut sources = Vec::new(alloc);
    for table in tables.split(',') {
        if let Ok(table) = table.parse() {
            sources.push(QuerySource {
                table,
                first: 0,
                width: 3,
                numbered: true,
            })?;
        }
    }
    Ok(List::of(sources))
}

/// The count of all rows of these sources, any number of them, at the instant.
pub(crate) fn print_sources(
    alloc: Global,
    files: Vec<TableFile>,
    tables: &str,
    instant: u64,
    out: &mut String,
) -> Result<(), Fault> {
    let Question { db, mut plan } = asked(alloc, files, "VALIDTIME SELECT COUNT(*) FROM emp")?;
    plan.left.sources = sources_of(alloc, tables)?;
    print_at(alloc, &Question { db, plan }, MAX_EVENTS, instant, out)
}

// The start of a row of the first table with this one number, at the first instant.
fn started(alloc: Global, number: i128, at: Instant) -> Result<Event, AllocError> {
    let mut values = Vec::new(alloc);
    values.push(Value::number(alloc, number)?)?;
    Ok(Event::Start {
        table: 0,
        values: Values::of(values),
        at,
    })
}

fn events_of(alloc: Global, numbers: &str) -> Result<Vec<Event>, AllocError> {
    let mut events = Vec::new(alloc);
    for number in numbers.split(',') {
        if let (Ok(number), Some(at)) = (number.parse(), Instant::new(0)) {
            events.push(started(alloc, number, at)?)?;
        }
    }
    Ok(events)
}

/// The statement's rows at the first instant, after rows with these numbers started in the first table.
pub(crate) fn print_large(
    alloc: Global,
    files: Vec<TableFile>,
    numbers: &str,
    statement: &str,
    out: &mut String,
) -> Result<(), Fault> {
    let question = asked(alloc, files, statement)?;
    let events = events_of(alloc, numbers)?;
    let lines = lines_at(alloc, &events, MAX_EVENTS, &question.plan, 0)?;
    Ok(print_rows(0, &lines, out)?)
}
