// From files and a statement, both as bytes, to the answer.

ghost use Rattle.std.specs.Prelude.{◌≡◌, ◌≢◌, ◌≤◌, ℕ, IfErr, IfOk, List, Ok};
ghost use Rattle.tq_event.specs.declared.file.TableFile.{TableFile as AnyFile};
ghost use Rattle.tq_event.specs.Tables.{lists_of};
ghost use Rattle.tq_plan.specs.declared.plans.Plan.{Plan as AnyPlan};
ghost use Rattle.tq_plan.specs.Plans.{plan_of};
ghost use Rattle.tq_engine.specs.Answers.{HasAnswer, IsLoadedQuery, IsFault, IsStatementFault};
ghost use Rattle.tq_exec.specs.Answers.{IsTablesAnswer};
ghost use Rattle.tq_exec.specs.Fitting.{AreAllFitting};
ghost use Rattle.tq_exec.specs.Rendered.{IsRendered};

use crate::laws::query_is_answered;
use crate::required::required_columns;
use std::alloc::{AllocError, Global};
use std::thread::Threads;
use thiserror::Error;
use tq_base::Form;
use tq_event::laws::{loaded_is_history, tables_are_loaded};
use tq_event::{LoadFault, LoadFaultKind, MAX_EVENTS, TableFile, Tables};
use tq_exec::laws::{held_rows_fit, projected_rows_fit};
use tq_exec::{
    Counters, RenderedAnswer, TablesOfRows, Workers, answer_among, render as render_plan, to_owned,
};
use tq_load::{LoadOptions, load_projected_parallel};
use tq_plan::{Plan, PlanFault, plan};
use tq_run::{Gate, Open};
use tq_sql::{SqlFault, SqlFaultKind, Statement, read};
use tq_table::Table;

/// Why there is no answer: the first fault of the files, of the statement's text or of its plan; a failed write; or a
/// failed allocation.
#[derive(Clone, Copy, Debug, PartialEq, Eq, Error)]
pub enum AnswerFault {
    #[error(transparent)]
    Load(LoadFault),
    #[error(transparent)]
    Sql(SqlFault),
    #[error(transparent)]
    Plan(PlanFault),
    #[error("write failed")]
    Write,
    #[error("out of memory")]
    OutOfMemory,
}

impl From<LoadFault> for AnswerFault {
    ghost use Rattle.tq_event.specs.declared.fault.LoadFaultKind.TheVariants as kind;
    ghost use Rattle.tq_engine.specs.declared.execution.AnswerFault.TheVariants.{Load, OutOfMemory};

    ghost from_gives = { λ fault given. (fault.kind ≡ kind.OutOfMemory → given ≡ OutOfMemory) × (fault.kind ≢ kind.OutOfMemory → given ≡ Load fault) };

    fn from(fault: LoadFault) -> AnswerFault {
        if matches!(fault.kind, LoadFaultKind::OutOfMemory) {
            AnswerFault::OutOfMemory
        } else {
            AnswerFault::Load(fault)
        }
    }
}

impl From<SqlFault> for AnswerFault {
    ghost use Rattle.tq_sql.specs.declared.fault.SqlFaultKind.TheVariants as kind;
    ghost use Rattle.tq_engine.specs.declared.execution.AnswerFault.TheVariants.{Sql, OutOfMemory};

    ghost from_gives = { λ fault given. (fault.kind ≡ kind.OutOfMemory → given ≡ OutOfMemory) × (fault.kind ≢ kind.OutOfMemory → given ≡ Sql fault) };

    fn from(fault: SqlFault) -> AnswerFault {
        if matches!(fault.kind, SqlFaultKind::OutOfMemory) {
            AnswerFault::OutOfMemory
        } else {
            AnswerFault::Sql(fault)
        }
    }
}

impl From<PlanFault> for AnswerFault {
    ghost use Rattle.tq_plan.specs.declared.fault.PlanFault.TheVariants as kind;
    ghost use Rattle.tq_engine.specs.declared.execution.AnswerFault.TheVariants.{Plan, OutOfMemory};

    ghost from_gives = { λ fault given. (fault ≡ kind.OutOfMemory → given ≡ OutOfMemory) × (fault ≢ kind.OutOfMemory → given ≡ Plan fault) };

    fn from(fault: PlanFault) -> AnswerFault {
        if matches!(fault, PlanFault::OutOfMemory) {
            AnswerFault::OutOfMemory
        } else {
            AnswerFault::Plan(fault)
        }
    }
}

impl From<AllocError> for AnswerFault {
    ghost use Rattle.tq_engine.specs.declared.execution.AnswerFault.TheVariants.{OutOfMemory};

    ghost from_gives = { λ _ given. given ≡ OutOfMemory };

    fn from(_error: AllocError) -> AnswerFault {
        AnswerFault::OutOfMemory
    }
}

// The tables of the files, and the parsed statement.
#[derive(Drop)]
pub(crate) struct LoadedQuery {
    pub(crate) tables: Tables,
    pub(crate) statement: Statement,
}

// A statement's plan, the text of its answer, and what its execution counted.
#[derive(Drop)]
pub(crate) struct RenderedQuery {
    pub(crate) plan: Plan,
    pub(crate) answer: RenderedAnswer,
    pub(crate) counters: Counters,
}

// Loads the files and parses the statement. Only the values of columns that the statement names are loaded. The bytes
// of the files are dropped after loading. The gate gets each part of the files.
pub(crate) fn load_query<R: Threads + Sync, G: Gate + Sync>(
    rt: &R,
    alloc: Global,
    files: Vec<TableFile>,
    bytes: &[u8],
    workers: u32,
    gate: &G,
    form: Form,
) -> Result<LoadedQuery, AnswerFault>
    requires some { 1 ≤ workers }
    requires few { workers ≤ 16 }
    ensures is_query { IfOk result (λ query. IsLoadedQuery form files.items bytes.now query.tables query.statement) }
    ensures fit { IfOk result (λ query. AreAllFitting query.tables.catalogue (lists_of query.tables.rows)) }
    ensures fault { IfErr result (IsFault form files.items bytes.now) }
{
    let named = required_columns(alloc, &files, bytes, form);
    let options = LoadOptions {
        limit: MAX_EVENTS,
        workers,
        form,
    };
    let tables = load_projected_parallel(rt, alloc, files, &named, gate, options)?;
    tables_are_loaded();
    loaded_is_history();
    held_rows_fit();
    projected_rows_fit();
    let statement = read(alloc, bytes)?;
    Ok(LoadedQuery { tables, statement })
}

// Plans the statement and executes it over the tables.
fn execute_statement<'a, R: Threads + Sync>(
    rt: &R,
    alloc: Global,
    tables: &'a Tables,
    statement: &Statement,
    workers: u32,
    form: Form,
) -> Result<Table<'a>, AnswerFault>
    requires fit { AreAllFitting tables.now.catalogue (lists_of tables.now.rows) }
    requires some { 1 ≤ workers }
    requires few { workers ≤ 16 }
    ensures answer { IfOk result (λ table. (plan : AnyPlan) × (plan_of form tables.now.catalogue statement.now ≡ Ok plan) × IsTablesAnswer (lists_of tables.now.rows) plan table) }
    ensures fault { IfErr result (IsStatementFault form tables.now.catalogue statement.now) }
{
    let plan = plan(alloc, &tables.catalogue, statement, form)?;
    let rows = tables.rows.get();
    let table = answer_among(rt, alloc, &tables.catalogue, rows, &plan, workers, &Open)?;
    Ok(table)
}

// Plans the statement, executes it over the tables and renders the answer as text. The gate gets each piece of work.
fn render_statement<R: Threads + Sync, G: Gate + Sync>(
    rt: &R,
    alloc: Global,
    tables: &Tables,
    statement: &Statement,
    workers: u32,
    gate: &G,
    form: Form,
) -> Result<RenderedQuery, AnswerFault>
    requires fit { AreAllFitting tables.now.catalogue (lists_of tables.now.rows) }
    requires some { 1 ≤ workers }
    requires few { workers ≤ 16 }
    ensures answer { IfOk result (λ query. (plan_of form tables.now.catalogue statement.now ≡ Ok query.plan) × IsRendered form (IsTablesAnswer (lists_of tables.now.rows) query.plan) query.answer) }
    ensures fault { IfErr result (IsStatementFault form tables.now.catalogue statement.now) }
{
    let plan = plan(alloc, &tables.catalogue, statement, form)?;
    let workers = Workers::new(rt, alloc, workers, gate);
    let all = TablesOfRows {
        catalogue: &tables.catalogue,
        tables: tables.rows.get(),
    };
    let answer = render_plan(&workers, all, &plan, form)?;
    let Workers { counters, .. } = workers;
    Ok(RenderedQuery {
        plan,
        answer,
        counters,
    })
}

// Executes a loaded query.
fn execute<'a, R: Threads + Sync>(
    rt: &R,
    alloc: Global,
    query: &'a LoadedQuery,
    workers: u32,
    form: Form,
) -> Result<Table<'a>, AnswerFault>
    requires fit { AreAllFitting query.now.tables.catalogue (lists_of query.now.tables.rows) }
    requires some { 1 ≤ workers }
    requires few { workers ≤ 16 }
    ensures answer { (files : List AnyFile) (bytes : List ℕ) → IsLoadedQuery form files bytes query.now.tables query.now.statement → IfOk result (HasAnswer form files bytes) }
    ensures fault { (files : List AnyFile) (bytes : List ℕ) → IsLoadedQuery form files bytes query.now.tables query.now.statement → IfErr result (IsFault form files bytes) }
{
    query_is_answered();
    execute_statement(rt, alloc, &query.tables, &query.statement, workers, form)
}

// Plans and executes a loaded query, and renders the answer as text. The gate gets each piece of work.
pub(crate) fn render<R: Threads + Sync, G: Gate + Sync>(
    rt: &R,
    alloc: Global,
    query: &LoadedQuery,
    workers: u32,
    gate: &G,
    form: Form,
) -> Result<RenderedQuery, AnswerFault>
    requires fit { AreAllFitting query.now.tables.catalogue (lists_of query.now.tables.rows) }
    requires some { 1 ≤ workers }
    requires few { workers ≤ 16 }
    ensures plan { IfOk result (λ found. plan_of form query.now.tables.catalogue query.now.statement ≡ Ok found.plan) }
    ensures answer { (files : List AnyFile) (bytes : List ℕ) → IsLoadedQuery form files bytes query.now.tables query.now.statement → IfOk result (λ found. IsRendered form (HasAnswer form files bytes) found.answer) }
    ensures fault { (files : List AnyFile) (bytes : List ℕ) → IsLoadedQuery form files bytes query.now.tables query.now.statement → IfErr result (IsFault form files bytes) }
{
    query_is_answered();
    render_statement(
        rt,
        alloc,
        &query.tables,
        &query.statement,
        workers,
        gate,
        form,
    )
}

/// Returns the answer of the statement over the tables of the files, computed by 1 to 16 workers. `form` is how files
/// and statement write instants. After an error: the first fault of files, statement or plan, or `OutOfMemory`.
pub fn query_files<'b, R: Threads + Sync>(
    rt: &R,
    alloc: Global,
    files: Vec<TableFile>,
    bytes: &[u8],
    workers: u32,
    form: Form,
) -> Result<Table<'b>, AnswerFault>
    requires some { 1 ≤ workers }
    requires few { workers ≤ 16 }
    ensures answer { IfOk result (HasAnswer form files.items bytes.now) }
    ensures fault { IfErr result (IsFault form files.items bytes.now) }
{
    let query = load_query(rt, alloc, files, bytes, workers, &Open, form)?;
    let table = execute(rt, alloc, &query, workers, form)?;
    Ok(to_owned(alloc, table)?)
}
