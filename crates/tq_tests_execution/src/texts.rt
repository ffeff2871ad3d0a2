//! A plan's answer as text, computed by one thread, and by workers in each way.

ghost use Rattle.std.specs.Prelude.{◌≤◌};
ghost use Rattle.tq_event.specs.Tables.{lists_of};
ghost use Rattle.tq_exec.specs.Fitting.{AreAllFitting};
ghost use Rattle.tq_plan.specs.ValidPlans.{IsPlanOver};

use std::alloc::{AllocError, Global};
use std::thread::Threads;
use tq_base::Form;
use tq_event::Tables;
use tq_exec::{
    Counters, RenderedAnswer, TablesOfRows, Workers, answer_among, answer_tables, answer_with,
    render, text_with,
};
use tq_plan::Plan;
use tq_run::Gate;
use tq_store::Db;
use tq_table::{Table, table_text};

/// The number of rows of an answer, and its text.
#[derive(Drop, PartialEq)]
pub(crate) struct Answer {
    pub(crate) rows: u128,
    pub(crate) text: Vec<u8>,
}

fn answer_of(alloc: Global, table: &Table<'_>) -> Result<Answer, AllocError> {
    Ok(Answer {
        rows: table.rows.len() as u128,
        text: table_text(alloc, table, Form::Numbers)?,
    })
}

// The text in one list.
fn joined(alloc: Global, answer: &RenderedAnswer) -> Result<Answer, AllocError> {
    let mut text = Vec::new(alloc);
    for part in answer.text.parts() {
        text.extend_from_slice(part)?;
    }
    Ok(Answer {
        rows: answer.rows,
        text,
    })
}

/// Executed by one thread, over the tables.
pub(crate) fn answer_here(alloc: Global, tables: &Tables, plan: &Plan) -> Result<Answer, AllocError>
    requires fit { AreAllFitting tables.now.catalogue (lists_of tables.now.rows) }
    requires plan { IsPlanOver tables.now.catalogue plan.now }
{
    let table = answer_tables(alloc, &tables.catalogue, tables.rows.get(), plan)?;
    answer_of(alloc, &table)
}

/// Executed by these workers, over the tables.
pub(crate) fn among<R: Threads + Sync, G: Gate + Sync>(
    rt: &R,
    alloc: Global,
    tables: &Tables,
    plan: &Plan,
    workers: u32,
    gate: &G,
) -> Result<Answer, AllocError>
    requires fit { AreAllFitting tables.now.catalogue (lists_of tables.now.rows) }
    requires plan { IsPlanOver tables.now.catalogue plan.now }
    requires some { 1 ≤ workers }
    requires at_most { workers ≤ 16 }
{
    let rows = tables.rows.get();
    let table = answer_among(rt, alloc, &tables.catalogue, rows, plan, workers, gate)?;
    answer_of(alloc, &table)
}

/// Executed by these workers over the tables, in partitions and ranges of values from the first row on.
pub(crate) fn in_ranges<R: Threads + Sync, G: Gate + Sync>(
    rt: &R,
    alloc: Global,
    tables: &Tables,
    plan: &Plan,
    workers: u32,
    gate: &G,
) -> Result<Answer, AllocError>
    requires fit { AreAllFitting tables.now.catalogue (lists_of tables.now.rows) }
    requires plan { IsPlanOver tables.now.catalogue plan.now }
    requires some { 1 ≤ workers }
    requires at_most { workers ≤ 16 }
{
    let workers = Workers {
        rt,
        alloc,
        count: workers,
        few: 1,
        gate,
        counters: Counters::new(),
    };
    let rows = tables.rows.get();
    let all = TablesOfRows {
        catalogue: &tables.catalogue,
        tables: rows,
    };
    let answer = render(&workers, all, plan, Form::Numbers)?;
    joined(alloc, &answer)
}

/// Executed by these workers, as of all events of the history.
pub(crate) fn as_of<R: Threads + Sync, G: Gate + Sync>(
    rt: &R,
    alloc: Global,
    db: &Db,
    plan: &Plan,
    workers: u32,
    gate: &G,
) -> Result<Answer, AllocError>
    requires plan { IsPlanOver db.now.catalogue plan.now }
    requires some { 1 ≤ workers }
    requires at_most { workers ≤ 16 }
{
    let table = answer_with(rt, alloc, db, db.count(), plan, workers, gate)?;
    answer_of(alloc, &table)
}

/// Executed by these workers as of all events of the history, who also write the text.
pub(crate) fn text_as_of<R: Threads + Sync, G: Gate + Sync>(
    rt: &R,
    alloc: Global,
    db: &Db,
    plan: &Plan,
    workers: u32,
    gate: &G,
) -> Result<Answer, AllocError>
    requires plan { IsPlanOver db.now.catalogue plan.now }
    requires some { 1 ≤ workers }
    requires at_most { workers ≤ 16 }
{
    let workers = Workers::new(rt, alloc, workers, gate);
    let answer = text_with(&workers, db, db.count(), plan, Form::Numbers)?;
    joined(alloc, &answer)
}
