//! Answers over tables of rows, and over histories with the same rows.

ghost use Rattle.tq_event.specs.Tables.{lists_of};
ghost use Rattle.tq_exec.specs.Fitting.{AreAllFitting};

use crate::fault::Fault;
use crate::instants::asked;
use crate::loaded::tables_of;
use std::alloc::Global;
use tq_base::Form;
use tq_event::{TableFile, Tables};
use tq_exec::{answer, answer_tables};
use tq_plan::plan;
use tq_sql::read;
use tq_table::table_text;

// The text of the statement's answer over the tables.
fn answered(alloc: Global, tables: &Tables, statement: &[u8]) -> Result<Vec<u8>, Fault>
    requires { AreAllFitting tables.now.catalogue (lists_of tables.now.rows) }
{
    let plan = plan(
        alloc,
        &tables.catalogue,
        &read(alloc, statement)?,
        Form::Numbers,
    )?;
    let table = answer_tables(alloc, &tables.catalogue, tables.rows.get(), &plan)?;
    Ok(table_text(alloc, &table, Form::Numbers)?)
}

/// The text of the statement's answer over the tables of the files.
pub(crate) fn answered_by_tables(
    alloc: Global,
    files: Vec<TableFile>,
    statement: &str,
) -> Result<Vec<u8>, Fault> {
    let tables = tables_of(alloc, files)?;
    answered(alloc, &tables, statement.as_bytes())
}

/// The text of the statement's answer over a `Db` with the events of the files.
pub(crate) fn answered_by_events(
    alloc: Global,
    files: Vec<TableFile>,
    statement: &str,
) -> Result<Vec<u8>, Fault> {
    let question = asked(alloc, files, statement)?;
    let table = answer(alloc, &question.db, question.db.count(), &question.plan)?;
    Ok(table_text(alloc, &table, Form::Numbers)?)
}
