//! Statements over tables, executed instant by instant by the definition.

ghost use Rattle.std.specs.Prelude.{IfOk};
ghost use Rattle.tq_plan.specs.ValidPlans.{IsPlanOver};

use crate::fault::Fault;
use crate::printing::{line_of, print_rows};
use std::alloc::Global;
use std::mem;
use tq_base::{Catalogue, FOREVER, Form};
use tq_event::{Event, MAX_EVENTS, TableFile, load};
use tq_plan::{Plan, plan};
use tq_reference::rows_at;
use tq_sql::read;
use tq_store::Db;

/// A statement over tables: a `Db` with their events, and its plan.
#[derive(Drop)]
pub(crate) struct Question {
    pub(crate) db: Db,
    pub(crate) plan: Plan,
}

/// A `Db` with the events.
pub(crate) fn db_of(alloc: Global, catalogue: Catalogue, events: &[Event]) -> Result<Db, Fault> {
    let mut db = Db::new(alloc, catalogue)?;
    for event in events {
        if db.count() >= MAX_EVENTS || !db.apply(event)? {
            return Err(Fault::Refused);
        }
    }
    Ok(db)
}

/// The statement over the tables of the files.
pub(crate) fn asked(
    alloc: Global,
    files: Vec<TableFile>,
    statement: &str,
) -> Result<Question, Fault>
    ensures { IfOk result (λ question. IsPlanOver question.db.catalogue question.plan) }
{
    let loaded = load(alloc, files, MAX_EVENTS, Form::Numbers)?;
    let statement = read(alloc, statement.as_bytes())?;
    let db = db_of(alloc, loaded.catalogue, loaded.events.get())?;
    let plan = plan(alloc, db.catalogue(), &statement, Form::Numbers)?;
    Ok(Question { db, plan })
}

/// The rows of the answer at the instant as of the first `n` events, in order.
pub(crate) fn lines_at(
    alloc: Global,
    events: &[Event],
    n: u32,
    plan: &Plan,
    instant: u64,
) -> Result<Vec<String>, Fault> {
    let rows = rows_at(alloc, events, n, plan, instant)?;
    let mut lines = Vec::new(alloc);
    for row in &rows {
        lines.push(line_of(alloc, row.get())?)?;
    }
    lines.sort()?;
    Ok(lines)
}

/// The rows of the answer at the instant as of the first `n` events.
pub(crate) fn print_at(
    alloc: Global,
    question: &Question,
    n: u32,
    instant: u64,
    out: &mut String,
) -> Result<(), Fault> {
    let events = question.db.events().to_vec(alloc)?;
    let lines = lines_at(alloc, &events, n, &question.plan, instant)?;
    Ok(print_rows(instant, &lines, out)?)
}

// Prints the rows at the instant, if it is the first or they differ from those before.
fn print_change(
    alloc: Global,
    question: &Question,
    instant: u64,
    before: &mut Vec<String>,
    out: &mut String,
) -> Result<(), Fault> {
    let events = question.db.events().to_vec(alloc)?;
    let lines = lines_at(alloc, &events, MAX_EVENTS, &question.plan, instant)?;
    if instant == 0 || lines != *before {
        print_rows(instant, &lines, out)?;
    }
    let _before = mem::replace(before, lines);
    Ok(())
}

/// Prints the rows of the answer as they change below instant 40, at the last instant, and after it.
pub(crate) fn print_changes(
    alloc: Global,
    question: &Question,
    out: &mut String,
) -> Result<(), Fault> {
    let mut before = Vec::new(alloc);
    for instant in 0..40 {
        print_change(alloc, question, instant, &mut before, out)?;
    }
    print_at(alloc, question, MAX_EVENTS, FOREVER - 1, out)?;
    print_at(alloc, question, MAX_EVENTS, FOREVER, out)
}
