//! Tables and histories of files, plans over them, and answers as of the first events of a history.

ghost use Rattle.std.specs.Prelude.{◌≤◌, IfOk, IfSome};
ghost use Rattle.tq_event.specs.Tables.{lists_of};
ghost use Rattle.tq_exec.specs.Fitting.{AreAllFitting};
ghost use Rattle.tq_plan.specs.ValidPlans.{IsPlanOver};

use std::alloc::{AllocError, Global};
use tq_base::{Catalogue, Form};
use tq_event::laws::{loaded_is_history, tables_are_loaded};
use tq_event::{Event, LoadFault, MAX_EVENTS, TableFile, Tables, load, load_tables};
use tq_exec::answer;
use tq_exec::laws::held_rows_fit;
use tq_plan::{Plan, plan};
use tq_sql::read;
use tq_store::Db;
use tq_table::table_text;

/// The tables of the files, or the first fault.
pub(crate) fn tables_of(alloc: Global, files: Vec<TableFile>) -> Result<Tables, LoadFault>
    ensures { IfOk result (λ tables. AreAllFitting tables.catalogue (lists_of tables.rows)) }
{
    let tables = load_tables(alloc, files, MAX_EVENTS, Form::Numbers)?;
    tables_are_loaded();
    loaded_is_history();
    held_rows_fit();
    Ok(tables)
}

// Applies the events; whether all were applied.
fn take_all(db: &mut Db, events: &[Event]) -> Result<bool, AllocError> {
    for event in events {
        if db.count() >= MAX_EVENTS || !db.apply(event)? {
            return Ok(false);
        }
    }
    Ok(true)
}

/// A history with the events of the files, if these are valid.
pub(crate) fn history_of(
    alloc: Global,
    files: Vec<TableFile>,
    form: Form,
) -> Result<Option<Db>, AllocError> {
    let Ok(loaded) = load(alloc, files, MAX_EVENTS, form) else {
        return Ok(None);
    };
    let mut db = Db::new(alloc, loaded.catalogue)?;
    let taken = take_all(&mut db, loaded.events.get())?;
    Ok(if taken { Some(db) } else { None })
}

/// The plan of the statement, if it has one.
pub(crate) fn planned(
    alloc: Global,
    catalogue: &Catalogue,
    statement: &str,
    form: Form,
) -> Option<Plan>
    ensures { IfSome result (IsPlanOver catalogue.now) }
{
    let Ok(statement) = read(alloc, statement.as_bytes()) else {
        return None;
    };
    match plan(alloc, catalogue, &statement, form) {
        Ok(plan) => Some(plan),
        Err(_) => None,
    }
}

/// The text of the statement's answer as of the first `n` events of the history, or of all if there are fewer.
pub(crate) fn answer_of(
    alloc: Global,
    db: &Db,
    n: u32,
    statement: &str,
    form: Form,
) -> Result<Option<Vec<u8>>, AllocError> {
    let Some(plan) = planned(alloc, db.catalogue(), statement, form) else {
        return Ok(None);
    };
    let table = answer(alloc, db, n.min(db.count()), &plan)?;
    Ok(Some(table_text(alloc, &table, form)?))
}
