// The profile of an executed query.

ghost use Rattle.std.specs.Prelude.{IfOk};
ghost use Rattle.tq_event.specs.Tables.{lists_of};
ghost use Rattle.tq_exec.specs.Fitting.{AreAllFitting};
ghost use Rattle.tq_profile.specs.Profiles.{IsProfile};

use crate::figures::figures_of;
use crate::profile_text::{RunFigures, figures_text};
use std::alloc::{AllocError, Global};
use tq_base::Form;
use tq_event::Tables;
use tq_exec::{Counters, TablesOfRows};
use tq_plan::Plan;

/// The lines of the profile of a statement's plan that was executed over tables, with instants in the form: the operators with
/// the rows that the execution counted, the rows of the answer, and what the run reports of itself. Requires that each row
/// fits its table. `AllocError` if an allocation failed.
pub fn explain_answer(
    alloc: Global,
    tables: &Tables,
    plan: &Plan,
    rows: u128,
    counters: &Counters,
    run: &RunFigures,
    form: Form,
) -> Result<Vec<u8>, AllocError>
    requires fit { AreAllFitting tables.now.catalogue (lists_of tables.now.rows) }
    ensures { IfOk result (λ text. IsProfile form tables.now plan.now rows run.now text.items) }
{
    let all = TablesOfRows {
        catalogue: &tables.catalogue,
        tables: tables.rows.get(),
    };
    let figures = figures_of(alloc, &all, plan, rows, counters)?;
    figures_text(alloc, &tables.catalogue, &figures, run, form)
}
