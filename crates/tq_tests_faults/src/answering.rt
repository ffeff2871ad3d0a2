//! Statements that are parsed, planned and executed.

ghost use Rattle.std.specs.Prelude.{◌≤◌, length};
ghost use Rattle.tq_plan.specs.ValidPlans.{IsPlanOver};

use crate::changing::history_of;
use std::alloc::{AllocError, Global};
use std::fmt::Write;
use std::sync::Wait;
use std::thread::Threads;
use tq_base::Form;
use tq_exec::answer;
use tq_plan::{Plan, PlanFault, plan};
use tq_sql::{SqlFault, SqlFaultKind, Statement, read};
use tq_store::Db;
use tq_table::table_text;
use tq_tests_script::{Call, Refusal, TableFiles, Tried, attempt, push_lines};

/// The result of a statement.
#[derive(Drop)]
pub(crate) enum Answer {
    None,
    Text(Vec<u8>),
    NotRead(SqlFault),
    NotPlanned(PlanFault),
}

/// Prints the text of the answer, or the fault.
pub(crate) fn print_answer(answer: &Answer, out: &mut String) -> Result<(), AllocError> {
    match answer {
        Answer::None => Ok(()),
        Answer::Text(text) => push_lines(text, out),
        Answer::NotRead(fault) => writeln!(out, "{fault}"),
        Answer::NotPlanned(fault) => writeln!(out, "{fault}"),
    }
}

// The text of the plan's answer as of the first `n` events.
fn text_of(alloc: Global, db: &Db, n: u32, plan: &Plan) -> Result<Answer, AllocError>
    requires within { n ≤ length db.now.events }
    requires plan { IsPlanOver db.now.catalogue plan.now }
{
    let table = answer(alloc, db, n, plan)?;
    let text = table_text(alloc, &table, Form::Numbers)?;
    Ok(Answer::Text(text))
}

// The statement's answer as of the first `n` events, which must exist.
fn planned(alloc: Global, db: &Db, n: u32, statement: &Statement) -> Result<Answer, AllocError>
    requires { n ≤ length db.now.events }
{
    match plan(alloc, db.catalogue(), statement, Form::Numbers) {
        Ok(plan) => text_of(alloc, db, n, &plan),
        Err(PlanFault::OutOfMemory) => Err(AllocError),
        Err(fault) => Ok(Answer::NotPlanned(fault)),
    }
}

/// The text's answer as of the first `n` events.
pub(crate) fn answered(alloc: Global, db: &Db, n: u32, text: &str) -> Result<Answer, AllocError> {
    match read(alloc, text.as_bytes()) {
        Ok(statement) => planned(alloc, db, n.min(db.count()), &statement),
        Err(fault) => match fault.kind {
            SqlFaultKind::OutOfMemory => Err(AllocError),
            _ => Ok(Answer::NotRead(fault)),
        },
    }
}

// The call for a statement's answer as of the first `n` events.
#[derive(Drop)]
struct Answering<'a> {
    db: Db,
    n: u32,
    text: &'a str,
    answer: Answer,
}

impl Call for Answering<'_> {
    fn make<R: Threads + Wait + Sync>(&mut self, _rt: &R, alloc: Global) -> Result<(), AllocError> {
        self.answer = answered(alloc, &self.db, self.n, self.text)?;
        Ok(())
    }

    fn print(&self, _alloc: Global, out: &mut String) -> Result<(), AllocError> {
        print_answer(&self.answer, out)
    }
}

/// Executes the statement as of the first `n` events, with failing allocations.
pub(crate) fn try_answer<R: Threads + Wait + Sync>(
    rt: &R,
    alloc: Global,
    files: &TableFiles,
    n: u32,
    text: &str,
    refusal: Refusal,
) -> Result<Tried, AllocError> {
    let mut answering = Answering {
        db: history_of(alloc, files, u32::MAX)?.0,
        n,
        text,
        answer: Answer::None,
    };
    attempt(rt, alloc, &mut answering, refusal)
}
