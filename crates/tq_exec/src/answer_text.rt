// The text of the answer of a plan over tables of rows, made by several workers.

ghost use Rattle.std.specs.Prelude.{◌≡◌, ◌≤◌, ◌++◌, IfOk, length, map, sum_by};
ghost use Rattle.tq_event.specs.Tables.{lists_of};
ghost use Rattle.tq_exec.specs.Answers.{IsTablesAnswer};
ghost use Rattle.tq_exec.specs.Fitting.{AreAllFitting};
ghost use Rattle.tq_exec.specs.Rendered.{IsRendered};
ghost use Rattle.tq_exec.specs.declared.answer_parts.Made.{Made as AnyMade};
ghost use Rattle.tq_plan.specs.ValidPlans.{IsPlanOver};
ghost use Rattle.tq_table.specs.Text.{IsTextOf, text_of};
ghost use Rattle.tq_table.specs.Sink.{bytes_of};

use crate::answer_parts::{Made, Wanted, row_count, texts_of};
use crate::parallel::execute_parallel;
use crate::snapshot::TablesOfRows;
use crate::workers::Workers;
use std::alloc::{AllocError, Global};
use std::marker::Model;
use std::thread::Threads;
use tq_base::{Catalogue, Form, Rows};
use tq_plan::Plan;
use tq_plan::laws::queries_are_valid;
use tq_run::Gate;
use tq_table::{Table, header_text, table_text};

/// The text of an answer, in parts that follow one another. Contracts see its bytes.
#[derive(Drop, Debug)]
pub struct AnswerText {
    parts: Vec<Vec<u8>>,
}

impl Model for AnswerText {
    ghost use Rattle.std.specs.Prelude.{ℕ, List};
    ghost use Rattle.tq_table.specs.Sink.{bytes_of};

    ghost Value = { List ℕ };

    ghost view = { λ t. bytes_of t.parts.items };
}

impl AnswerText {
    // A text in one part.
    fn of(alloc: Global, text: Vec<u8>) -> Result<AnswerText, AllocError>
        ensures { IfOk result (λ one. one ≡ text.items) }
    {
        let mut parts = Vec::with_capacity(alloc, 1)?;
        parts.push(text)?;
        Ok(AnswerText { parts })
    }

    /// The parts.
    pub fn parts(&self) -> &[Vec<u8>]
        ensures { bytes_of result.now ≡ self.now }
    {
        self.parts.as_slice()
    }
}

/// The text of an answer, with the number of its rows, which the text alone does not show: a value may have line breaks.
#[derive(Drop, Debug)]
pub struct RenderedAnswer {
    /// The rows of all parts, counted in 128 bits so that the sum cannot overflow.
    pub rows: u128,
    pub text: AnswerText,
}

// The header, then the texts of the parts.
fn with_header(
    alloc: Global,
    header: Vec<u8>,
    made: Vec<Made>,
) -> Result<RenderedAnswer, AllocError>
    ensures { IfOk result (λ rendered. (rendered.text ≡ header.items ++ bytes_of (map (λ (one : AnyMade). one.text) made.items)) × (rendered.rows ≡ sum_by (λ (one : AnyMade). one.len) made.items)) }
{
    let rows = row_count(&made);
    let mut texts = texts_of(alloc, made)?;
    let mut parts = Vec::with_capacity(alloc, texts.len() + 1)?;
    parts.push(header)?;
    parts.append(&mut texts)?;
    Ok(RenderedAnswer {
        rows,
        text: AnswerText { parts },
    })
}

/// The text of a table, and its number of rows. `AllocError` if an allocation failed.
pub(crate) fn render_table(
    alloc: Global,
    table: &Table<'_>,
    form: Form,
) -> Result<RenderedAnswer, AllocError>
    ensures { IfOk result (λ rendered. (rendered.text ≡ text_of form table.now) × (rendered.rows ≡ length table.now.rows)) }
{
    let text = table_text(alloc, table, form)?;
    Ok(RenderedAnswer {
        rows: table.rows.len() as u128,
        text: AnswerText::of(alloc, text)?,
    })
}

/// The text of the answer of a plan over tables of rows, in the form, made by these workers. Requires that `plan` made the
/// plan over the catalogue. `AllocError` if an allocation failed.
pub fn render<R: Threads + Sync, G: Gate + Sync>(
    workers: &Workers<'_, R, G>,
    all: TablesOfRows<'_>,
    plan: &Plan,
    form: Form,
) -> Result<RenderedAnswer, AllocError>
    requires plan { IsPlanOver all.catalogue.now plan.now }
    ensures { IfOk result (IsRendered form (IsTablesAnswer (lists_of all.entry.tables.now) plan.now)) }
{
    queries_are_valid();
    let alloc = workers.alloc;
    let header = header_text(alloc, plan.columns())?;
    let made = execute_parallel(workers, all, plan, Wanted::Text(form))?;
    with_header(alloc, header, made)
}

/// The text, in the form, of the answer of a plan over tables of rows, made by 1 to 16 workers including the calling
/// thread. It is the same for every number of workers. The gate gets each piece of work before it runs. `AllocError` if an
/// allocation failed.
pub fn text_among<R: Threads + Sync, G: Gate + Sync>(
    rt: &R,
    alloc: Global,
    catalogue: &Catalogue,
    tables: &[Rows],
    plan: &Plan,
    workers: u32,
    gate: &G,
    form: Form,
) -> Result<AnswerText, AllocError>
    requires fit { AreAllFitting catalogue.now (lists_of tables.now) }
    requires plan { IsPlanOver catalogue.now plan.now }
    requires some { 1 ≤ workers }
    requires at_most { workers ≤ 16 }
    ensures { IfOk result (IsTextOf form (IsTablesAnswer (lists_of tables.now) plan.now)) }
{
    let workers = Workers::new(rt, alloc, workers, gate);
    let all = TablesOfRows { catalogue, tables };
    let rendered = render(&workers, all, plan, form)?;
    Ok(rendered.text)
}
