// From files and a statement, both as bytes, to the bytes of the answer.

ghost use Rattle.std.specs.Prelude.{◌≡◌, ◌≢◌, ◌≤◌, Err, IfErr, IfOk, OnOk, length};
ghost use Rattle.std.specs.Io.KnownBytes.{Appends};
ghost use Rattle.tq_event.specs.Tables.{lists_of};
ghost use Rattle.tq_engine.specs.Answers.{HasAnswer, IsFault, IsPlanned};
ghost use Rattle.tq_exec.specs.Fitting.{AreAllFitting};
ghost use Rattle.tq_plan.specs.ValidPlans.{IsPlanOver};
ghost use Rattle.tq_table.specs.Sink.{AppendsPrefix, one_more};
ghost use Rattle.tq_table.specs.Text.{text_of};
ghost use Rattle.tq_table.specs.declared.table.Table.{Table as AnyTable};

use crate::execution::{AnswerFault, RenderedQuery, load_query, render};
use crate::options::AnswerOptions;
use std::alloc::Global;
use std::io::Write;
use std::thread::Threads;
use tq_base::Form;
use tq_event::{TableFile, Tables};
use tq_exec::{Counters, RenderedAnswer};
use tq_plan::Plan;
use tq_run::{Gate, Open};
use tq_table::Sink;

/// A gate that also observes the steps of a query.
pub trait Observer: Gate {
    /// Called when the files are loaded, before the statement is executed.
    fn loaded(&self);

    /// Called when the answer is computed, before its text is written.
    fn answered(&self);
}

impl Observer for Open {
    fn loaded(&self) {}

    fn answered(&self) {}
}

/// An answered query: the tables of its files, without the values of columns that the statement does not name, and the
/// plan of the statement.
#[derive(Drop)]
pub struct ExecutedQuery {
    pub tables: Tables,
    pub plan: Plan,
    /// The number of rows of the answer.
    pub rows: u128,
    /// What the execution counted.
    pub counters: Counters,
}

/// Writes the answer of the statement over the tables of the files. Returns the tables, the plan, and what was counted.
///
/// After an error other than `Write`, nothing was written: the error is the first fault of files, statement or plan, or
/// `OutOfMemory`. After `Write` a prefix of the answer was written. The observer gets each piece of work before it
/// runs.
pub fn write_observed<R: Threads + Sync, W: Write, G: Observer + Sync>(
    rt: &R,
    alloc: Global,
    files: Vec<TableFile>,
    bytes: &[u8],
    options: AnswerOptions,
    sink: &mut Sink<W>,
    observer: &G,
) -> Result<ExecutedQuery, AnswerFault>
    requires some { 1 ≤ options.workers }
    requires few { options.workers ≤ 16 }
    ensures answer { OnOk result ((table : AnyTable) × HasAnswer options.form files.items bytes.now table × Appends (W.contents sink.old.writer) (W.contents sink.new.writer) (text_of options.form table)) }
    ensures planned { IfOk result (λ executed. IsPlanned options.form files.items bytes.now executed.tables executed.plan) }
    ensures fit { IfOk result (λ executed. AreAllFitting executed.tables.catalogue (lists_of executed.tables.rows)) }
    ensures over { IfOk result (λ executed. IsPlanOver executed.tables.catalogue executed.plan) }
    ensures rows { IfOk result (λ executed. (table : AnyTable) × HasAnswer options.form files.items bytes.now table × (executed.rows ≡ length table.rows)) }
    ensures unfailed { OnOk result (sink.new.failed ≡ sink.old.failed) }
    ensures write { result ≡ Err AnswerFault.Write → (table : AnyTable) × HasAnswer options.form files.items bytes.now table × AppendsPrefix (W.contents sink.old.writer) (W.contents sink.new.writer) (text_of options.form table) }
    ensures failed { result ≡ Err AnswerFault.Write → sink.new.failed ≡ one_more sink.old.failed }
    ensures fault { IfErr result (λ fault. fault ≢ AnswerFault.Write → IsFault options.form files.items bytes.now fault × (sink.new ≡ sink.old)) }
{
    let AnswerOptions { workers, form } = options;
    let query = load_query(rt, alloc, files, bytes, workers, observer, form)?;
    observer.loaded();
    let planned = render(rt, alloc, &query, workers, observer, form)?;
    observer.answered();
    let RenderedQuery {
        plan,
        answer: RenderedAnswer { rows, text },
        counters,
    } = planned;
    match sink.send_all(text.parts()) {
        Ok(()) => Ok(ExecutedQuery {
            tables: query.tables,
            plan,
            rows,
            counters,
        }),
        Err(_) => Err(AnswerFault::Write),
    }
}

/// Does what `write_observed` does, with 1 to 16 workers including the calling thread. `form` is how files and statement
/// write instants. Has no observer, and returns neither the tables nor the plan.
pub fn answer_bytes<R: Threads + Sync, W: Write>(
    rt: &R,
    alloc: Global,
    files: Vec<TableFile>,
    bytes: &[u8],
    workers: u32,
    sink: &mut Sink<W>,
    form: Form,
) -> Result<(), AnswerFault>
    requires some { 1 ≤ workers }
    requires few { workers ≤ 16 }
    ensures answer { OnOk result ((table : AnyTable) × HasAnswer form files.items bytes.now table × Appends (W.contents sink.old.writer) (W.contents sink.new.writer) (text_of form table)) }
    ensures unfailed { OnOk result (sink.new.failed ≡ sink.old.failed) }
    ensures write { result ≡ Err AnswerFault.Write → (table : AnyTable) × HasAnswer form files.items bytes.now table × AppendsPrefix (W.contents sink.old.writer) (W.contents sink.new.writer) (text_of form table) }
    ensures failed { result ≡ Err AnswerFault.Write → sink.new.failed ≡ one_more sink.old.failed }
    ensures fault { IfErr result (λ fault. fault ≢ AnswerFault.Write → IsFault form files.items bytes.now fault × (sink.new ≡ sink.old)) }
{
    let options = AnswerOptions { workers, form };
    match write_observed(rt, alloc, files, bytes, options, sink, &Open) {
        Ok(_) => Ok(()),
        Err(fault) => Err(fault),
    }
}
