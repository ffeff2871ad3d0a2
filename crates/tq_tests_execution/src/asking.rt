//! Statements for several workers.

ghost use Rattle.std.specs.Prelude.{◌≤◌};
ghost use Rattle.tq_event.specs.Tables.{lists_of};
ghost use Rattle.tq_exec.specs.Fitting.{AreAllFitting};
ghost use Rattle.tq_plan.specs.ValidPlans.{IsPlanOver};

use crate::loaded::{history_of, planned, tables_of};
use crate::seen::Seen;
use crate::texts::{Answer, among, answer_here, as_of, in_ranges, text_as_of};
use std::alloc::{AllocError, Global};
use std::thread::Threads;
use tq_base::Form;
use tq_event::Tables;
use tq_plan::Plan;
use tq_run::Gate;
use tq_store::Db;
use tq_tests_script::TableFiles;

/// A call that uses several workers.
#[derive(Clone, Copy, PartialEq, Eq)]
pub(crate) enum Way {
    Among,
    Ranges,
    With,
    Text,
}

/// A statement, the number of workers, and the call to use, or all calls.
#[derive(Clone, Copy)]
pub(crate) struct Question<'a> {
    pub(crate) only: Option<Way>,
    pub(crate) workers: u32,
    pub(crate) statement: &'a str,
}

// Whether this call is used.
fn is_asked(question: &Question<'_>, way: Way) -> bool {
    match question.only {
        Some(only) => only == way,
        None => true,
    }
}

// The answer by one of the calls.
fn answer_by<R: Threads + Sync, G: Gate + Sync>(
    rt: &R,
    alloc: Global,
    tables: &Tables,
    plan: &Plan,
    db: &Db,
    db_plan: &Plan,
    way: Way,
    workers: u32,
    gate: &G,
) -> Result<Answer, AllocError>
    requires fit { AreAllFitting tables.now.catalogue (lists_of tables.now.rows) }
    requires plan { IsPlanOver tables.now.catalogue plan.now }
    requires db_plan { IsPlanOver db.now.catalogue db_plan.now }
    requires some { 1 ≤ workers }
    requires at_most { workers ≤ 16 }
{
    match way {
        Way::Among => among(rt, alloc, tables, plan, workers, gate),
        Way::Ranges => in_ranges(rt, alloc, tables, plan, workers, gate),
        Way::With => as_of(rt, alloc, db, db_plan, workers, gate),
        Way::Text => text_as_of(rt, alloc, db, db_plan, workers, gate),
    }
}

// Compares the answers of the calls with the answer of one thread.
fn ask_each<R: Threads + Sync, G: Gate + Sync>(
    rt: &R,
    alloc: Global,
    tables: &Tables,
    plan: &Plan,
    db: &Db,
    db_plan: &Plan,
    question: &Question<'_>,
    gate: &G,
    seen: &mut Seen,
) -> Result<(), AllocError>
    requires fit { AreAllFitting tables.now.catalogue (lists_of tables.now.rows) }
    requires plan { IsPlanOver tables.now.catalogue plan.now }
    requires db_plan { IsPlanOver db.now.catalogue db_plan.now }
{
    let workers = question.workers.clamp(1, 16);
    let here = answer_here(alloc, tables, plan)?;
    for way in [Way::Among, Way::Ranges, Way::With, Way::Text] {
        if is_asked(question, way) {
            let answer = answer_by(rt, alloc, tables, plan, db, db_plan, way, workers, gate)?;
            seen.take(answer, &here);
        }
    }
    Ok(())
}

// Compares the answers with that of one thread, if the statement has a plan.
fn ask_over<R: Threads + Sync, G: Gate + Sync>(
    rt: &R,
    alloc: Global,
    tables: &Tables,
    db: &Db,
    question: &Question<'_>,
    gate: &G,
    seen: &mut Seen,
) -> Result<(), AllocError>
    requires { AreAllFitting tables.now.catalogue (lists_of tables.now.rows) }
{
    let Some(plan) = planned(alloc, &tables.catalogue, question.statement, Form::Numbers) else {
        return Ok(());
    };
    let Some(db_plan) = planned(alloc, db.catalogue(), question.statement, Form::Numbers) else {
        return Ok(());
    };
    ask_each(rt, alloc, tables, &plan, db, &db_plan, question, gate, seen)
}

/// Compares the answers with that of one thread, if the files are valid and the statement has a plan.
pub(crate) fn ask<R: Threads + Sync, G: Gate + Sync>(
    rt: &R,
    alloc: Global,
    files: &TableFiles,
    question: &Question<'_>,
    gate: &G,
    seen: &mut Seen,
) -> Result<(), AllocError> {
    let Ok(tables) = tables_of(alloc, files.copies(alloc)?) else {
        return Ok(());
    };
    let Some(db) = history_of(alloc, files.copies(alloc)?, Form::Numbers)? else {
        return Ok(());
    };
    ask_over(rt, alloc, &tables, &db, question, gate, seen)
}
