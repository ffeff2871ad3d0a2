// Execution of a statement with progress and a profile.

ghost use Rattle.std.specs.Prelude.{◌≡◌, ◌≢◌, ◌≤◌, Err, IfErr, OnOk};
ghost use Rattle.std.specs.Io.KnownBytes.{Appends};
ghost use Rattle.tq_event.specs.Tables.{lists_of};
ghost use Rattle.tq_exec.specs.Fitting.{AreAllFitting};
ghost use Rattle.tq_table.specs.Sink.{AppendsPrefix, one_more};
ghost use Rattle.tq_table.specs.Text.{text_of};
ghost use Rattle.tq_table.specs.declared.table.Table.{Table as AnyTable};
ghost use Rattle.tq_engine.specs.Answers.{HasAnswer, IsFault};

use crate::progress::Progress;
use std::io::Write;
use std::mem;
use std::sync::Wait;
use std::sync::atomic::{AtomicU64, Ordering};
use std::thread::Threads;
use std::time::{Clock, Instant};
use tq_engine::{AnswerFault, AnswerOptions, ExecutedQuery, Observer, write_observed};
use tq_event::TableFile;
use tq_exec::Counters;
use tq_profile::{RunFigures, explain_answer};
use tq_run::Gate;
use tq_table::Sink;

// Counts the pieces of a query's work, times its steps, and updates the progress. A time is in milliseconds from the
// start, plus 1; 0 means unknown.
#[derive(Drop)]
struct RunObserver<'w, R> {
    rt: &'w R,
    progress: &'w Progress,
    begun: Option<Instant>,
    pieces: AtomicU64,
    loaded: AtomicU64,
    answered: AtomicU64,
}

impl<R: Clock> RunObserver<'_, R> {
    // The time since the start; 0 if the clock fails.
    fn since(&self) -> u64 {
        let Some(begun) = self.begun else {
            return 0;
        };
        let Ok(elapsed) = begun.elapsed(self.rt) else {
            return 0;
        };
        match u64::try_from(elapsed.as_millis()) {
            Ok(milliseconds) => milliseconds.saturating_add(1),
            Err(_) => 0,
        }
    }
}

impl<R: Clock> Gate for RunObserver<'_, R> {
    fn expect(&self, pieces: u32) {
        self.progress.expect_pieces(pieces);
    }

    fn arrive(&self, _: u32) {
        self.pieces.fetch_add(1, Ordering::SeqCst);
        self.progress.add_piece();
    }
}

impl<R: Clock + Wait> Observer for RunObserver<'_, R> {
    fn loaded(&self) {
        self.loaded.store(self.since(), Ordering::SeqCst);
        self.progress.begin_execution();
    }

    fn answered(&self) {
        self.answered.store(self.since(), Ordering::SeqCst);
        self.progress.end(self.rt);
    }
}

// The milliseconds between two times, if both are known.
fn between(from: u64, to: u64) -> Option<u64> {
    if from == 0 {
        None
    } else {
        to.checked_sub(from)
    }
}

// The counts and times of a run with `workers` workers.
fn run_of<R: Clock>(observer: &RunObserver<'_, R>, workers: u32, counters: &Counters) -> RunFigures
    ensures { result.workers ≡ workers }
{
    let loaded = observer.loaded.load(Ordering::SeqCst);
    let answered = observer.answered.load(Ordering::SeqCst);
    RunFigures {
        workers,
        division: counters.division(),
        has_ranges: counters.has_ranges(),
        pieces: observer.pieces.load(Ordering::SeqCst),
        loading: between(1, loaded),
        answering: between(loaded, answered),
        printing: between(answered, observer.since()),
    }
}

// Prints the profile of a query, unless an allocation fails.
fn report_run<R: AllocGlobal + Clock + Wait>(
    observer: &RunObserver<'_, R>,
    executed: &ExecutedQuery,
    options: AnswerOptions,
)
    requires fit { AreAllFitting executed.now.tables.catalogue (lists_of executed.now.tables.rows) }
{
    let rt = observer.rt;
    let AnswerOptions { workers, form } = options;
    let ExecutedQuery {
        tables,
        plan,
        rows,
        counters,
    } = executed;
    let run = run_of(observer, workers, counters);
    if let Ok(text) = explain_answer(rt.alloc(), tables, plan, *rows, counters, &run, form) {
        observer.progress.print(rt, &text);
    }
}

/// Writes the answer of the statement to the sink, and meanwhile updates the progress. If `is_profiled`, it then prints
/// the profile. Bytes and faults are those of `write_observed`.
pub fn ask_with_progress<R: AllocGlobal + Clock + Threads + Wait + Sync, W: Write>(
    rt: &R,
    tables: Vec<TableFile>,
    statement: &[u8],
    options: AnswerOptions,
    sink: &mut Sink<W>,
    progress: &Progress,
    is_profiled: bool,
) -> Result<(), AnswerFault>
    requires some { 1 ≤ options.workers }
    requires few { options.workers ≤ 16 }
    ensures answer { OnOk result ((table : AnyTable) × HasAnswer options.form tables.items statement.now table × Appends (W.contents sink.old.writer) (W.contents sink.new.writer) (text_of options.form table)) }
    ensures unfailed { OnOk result (sink.new.failed ≡ sink.old.failed) }
    ensures write { result ≡ Err AnswerFault.Write → (table : AnyTable) × HasAnswer options.form tables.items statement.now table × AppendsPrefix (W.contents sink.old.writer) (W.contents sink.new.writer) (text_of options.form table) }
    ensures failed { result ≡ Err AnswerFault.Write → sink.new.failed ≡ one_more sink.old.failed }
    ensures fault { IfErr result (λ fault. fault ≢ AnswerFault.Write → IsFault options.form tables.items statement.now fault × (sink.new ≡ sink.old)) }
{
    let observer = RunObserver {
        rt,
        progress,
        begun: Instant::now(rt).ok(),
        pieces: AtomicU64::new(0),
        loaded: AtomicU64::new(0),
        answered: AtomicU64::new(0),
    };
    match write_observed(rt, rt.alloc(), tables, statement, options, sink, &observer) {
        Ok(executed) => {
            if is_profiled {
                report_run(&observer, &executed, options);
            }
            // The program ends next and frees all memory; freeing each long text by itself would only take time.
            mem::forget(executed);
            Ok(())
        }
        Err(fault) => Err(fault),
    }
}
