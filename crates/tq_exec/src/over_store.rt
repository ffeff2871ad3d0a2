// The answer of a plan as of the first events of a `Db`, made by several workers: its rows, or its text.

ghost use Rattle.std.specs.Prelude.{◌≤◌, IfOk, length};
ghost use Rattle.tq_exec.specs.Answers.{IsPlanAnswer};
ghost use Rattle.tq_exec.specs.Rendered.{IsRendered};
ghost use Rattle.tq_plan.specs.ValidPlans.{IsPlanOver};

use crate::answer_text::{RenderedAnswer, render, render_table};
use crate::as_of::{AsOf, answer};
use crate::execution::answer_over;
use crate::over_tables::owned_answer;
use crate::reads::read_tables;
use crate::snapshot::TablesOfRows;
use crate::workers::Workers;
use std::alloc::{AllocError, Global};
use std::thread::Threads;
use tq_base::Form;
use tq_plan::Plan;
use tq_plan::laws::queries_are_valid;
use tq_run::Gate;
use tq_store::Db;
use tq_table::Table;

/// The answer of a plan as of the first `n` events of the `Db`, made by 1 to 16 workers including the calling thread. It is
/// the answer of `answer`. Several workers first read the rows that the plan needs, in parts of the keys and versions of
/// each table, and then execute the plan over these rows as `answer_among` does. The gate gets each piece of work before
/// it runs. `AllocError` if an allocation failed.
pub fn answer_with<'b, R: Threads + Sync, G: Gate + Sync>(
    rt: &R,
    alloc: Global,
    db: &Db,
    n: u32,
    plan: &Plan,
    workers: u32,
    gate: &G,
) -> Result<Table<'b>, AllocError>
    requires within { n ≤ length db.now.events }
    requires plan { IsPlanOver db.now.catalogue plan.now }
    requires some { 1 ≤ workers }
    requires at_most { workers ≤ 16 }
    ensures { IfOk result (λ table. IsPlanAnswer db.now.events n plan.now table) }
{
    if workers == 1 {
        return answer(alloc, db, n, plan);
    }
    queries_are_valid();
    let workers = Workers::new(rt, alloc, workers, gate);
    let Some(tables) = read_tables(&workers, db, n, plan)? else {
        return answer(alloc, db, n, plan);
    };
    let all = TablesOfRows {
        catalogue: db.catalogue(),
        tables: &tables,
    };
    owned_answer(&workers, all, plan)
}

/// The text, in the form, of the answer of `answer`, made by these workers: each writes the text of the rows that it makes. The
/// gate gets each piece of work before it runs. `AllocError` if an allocation failed.
pub fn text_with<R: Threads + Sync, G: Gate + Sync>(
    workers: &Workers<'_, R, G>,
    db: &Db,
    n: u32,
    plan: &Plan,
    form: Form,
) -> Result<RenderedAnswer, AllocError>
    requires within { n ≤ length db.now.events }
    requires plan { IsPlanOver db.now.catalogue plan.now }
    ensures { IfOk result (IsRendered form (IsPlanAnswer db.now.events n plan.now)) }
{
    queries_are_valid();
    if workers.count > 1 {
        if let Some(tables) = read_tables(workers, db, n, plan)? {
            let all = TablesOfRows {
                catalogue: db.catalogue(),
                tables: &tables,
            };
            return render(workers, all, plan, form);
        }
    }
    let _count = db.count();
    let alloc = workers.alloc;
    let table = answer_over(alloc, &AsOf { db, n }, plan, &workers.counters)?;
    render_table(alloc, &table, form)
}
