// Counts of the rows of one table by one column with few values: the rows of each chunk are put into buckets, one for each
// value, and then the rows of each value are counted out of the buckets of all chunks.

ghost use Rattle.std.specs.Prelude.{◌≡◌, ◌≤◌, ◌<◌, ◌+◌, ◌/◌, IfOk, IfSome, IsTrue, Some, drop, false, is_some, length, true};
ghost use Rattle.std.proofs.Props.{props};
ghost use Rattle.tq_agg.specs.Buckets.{AreRanksOf, AreTallies, IsTally, ranks_prop, tallies_prop};
ghost use Rattle.tq_event.specs.Tables.{lists_of, rows_in};
ghost use Rattle.tq_plan.specs.ValidPlans.{AreQueriesOver, are_valid_items};
ghost use Rattle.tq_exec.specs.Answers.{in_tables, times_at};
ghost use Rattle.tq_exec.specs.AggregateParts.{CountsOne};
ghost use Rattle.tq_exec.specs.Partitions.{columns_in, chunk_start, IsPartitionPart};
ghost use Rattle.tq_exec.specs.PartitioningRules.{IsByValue};
ghost use Rattle.tq_exec.specs.AnswerParts.{HaveAnswer};

use crate::aggregate_parts::{counted_column, rows_of_counts};
use crate::answer_parts::{AnswerPart, Made, Wanted, are_ascending, made_of, make_part};
use crate::laws::partitions_have_answers;
use crate::partition_columns::column_in;
use crate::partition_ids::{CHUNK_ROWS, chunk_start};
use crate::partitioning::ColumnCuts;
use crate::snapshot::{Snapshot, TablesOfRows};
use crate::workers::Workers;
use std::alloc::{AllocError, Global};
use std::thread::Threads;
use tq_agg::{Tally, are_whole, count_share, ranks_of, tally_rows};
use tq_base::{Period, Relation};
use tq_plan::Plan;
use tq_run::{Gate, Work, run_with};
use tq_table::coalesce;

// The most values; each is a piece of work.
const MOST_VALUES: usize = 64;

// Rows in the buckets of their values, a piece for each chunk.
#[derive(Drop)]
struct Chunks<'p, 'a> {
    alloc: Global,
    rows: &'p Relation<'a>,
    window: &'p Period,
    column: u32,
}

impl Work for Chunks<'_, '_> {
    type Out = Tally;

    ghost count = { λ w. length w.rows.now.items / 65536 + 1 };

    ghost relates = { λ w i tally. tally.is_whole ≡ true → IsTally w.rows.now.items w.window.now w.column (chunk_start (length w.rows.now.items) i) (chunk_start (length w.rows.now.items) (i + 1)) tally };

    fn pieces(&self) -> u32 {
        (self.rows.len() / CHUNK_ROWS) as u32 + 1
    }

    fn run(&self, i: u32) -> Result<Tally, AllocError> {
        let len = self.rows.len();
        let (start, end) = (chunk_start(len, i), chunk_start(len, i + 1));
        tally_rows(self.alloc, self.rows, self.window, self.column, start, end)
    }
}

// The answer of a plan that counts the rows of one table by one column, a piece for each value.
#[derive(Drop)]
struct Values<'p, 'a> {
    alloc: Global,
    all: TablesOfRows<'p>,
    plan: &'p Plan,
    wanted: Wanted,
    columns: &'p [Option<u32>],
    table: u32,
    column: u32,
    rows: &'p Relation<'a>,
    tallies: &'p [Tally],
    ranks: &'p [u128],
    ghost counts: { CountsOne plan.now.left table column } by { Prim.hlevel props },
    ghost alone: { is_some plan.now.right ≡ false },
    ghost stand: { are_valid_items plan.now.left ≡ true },
    ghost partitioned: { columns_in columns.now table ≡ Some column } by { Prim.hlevel props },
    ghost of: { rows.now.items ≡ rows_in (lists_of all.tables.now) table } by { Prim.hlevel props },
    ghost tallied: { AreTallies rows.now.items plan.now.window column tallies.now } by { Prim.hlevel (props, tallies_prop) },
    ghost ranked: { AreRanksOf ranks.now tallies.now } by { Prim.hlevel (props, ranks_prop) },
    ghost few: { length ranks.now ≤ 64 },
}

impl<'p> Work for Values<'p, '_> {
    type Out = AnswerPart<'p>;

    ghost count = { λ w. length w.ranks.now };

    ghost relates = { λ w i out. IsPartitionPart w.wanted (in_tables (lists_of w.all.tables.now)) w.plan.now (drop 1 w.ranks.now) w.columns.now i out };

    fn pieces(&self) -> u32 {
        self.ranks.len() as u32
    }

    fn run(&self, i: u32) -> Result<AnswerPart<'p>, AllocError> {
        let counts = count_share(
            self.alloc,
            self.rows,
            &self.plan.window,
            self.column,
            self.tallies,
            self.ranks,
            i,
        )?;
        let rows = rows_of_counts(self.alloc, counts, &self.plan.left)?;
        make_part(self.alloc, coalesce(self.alloc, rows)?, self.wanted)
    }
}

// The rows of the table in the buckets of their values, chunk by chunk, made by these workers. `None` if there are too many
// values, or a value that its normalized key does not identify.
fn tallies_of<R: Threads + Sync, G: Gate + Sync>(
    workers: &Workers<'_, R, G>,
    rows: &Relation<'_>,
    window: &Period,
    column: u32,
) -> Result<Option<Vec<Tally>>, AllocError>
    ensures { IfOk result (λ found. IfSome found (λ tallies. AreTallies rows.now.items window.now column tallies.items)) }
{
    let alloc = workers.alloc;
    let work = Chunks {
        alloc,
        rows,
        window,
        column,
    };
    let tallies = run_with(workers.rt, alloc, workers.count, &work, workers.gate)?;
    if are_whole(&tallies) {
        Ok(Some(tallies))
    } else {
        Ok(None)
    }
}

// Whether the table is partitioned by the column.
fn is_partitioned_by(columns: &[Option<u32>], table: u32, column: u32) -> bool
    ensures { IsTrue result → columns_in columns.now table ≡ Some column }
{
    match column_in(columns, table) {
        Some(partitioned) => partitioned == column,
        None => false,
    }
}

/// The parts of the plan's answer, one for each value, made by these workers. `None` if the plan does not count the rows of
/// one table by its first column, or if this column has too many values.
pub(crate) fn parts_by_bucket<'p, R: Threads + Sync, G: Gate + Sync>(
    workers: &Workers<'_, R, G>,
    all: TablesOfRows<'p>,
    plan: &'p Plan,
    by: &'p ColumnCuts,
    wanted: Wanted,
) -> Result<Option<Vec<Made>>, AllocError>
    requires over { AreQueriesOver all.catalogue.now plan.now }
    requires by { IsByValue (length all.tables.now) plan.now by.now }
    ensures { IfOk result (λ made. IfSome made (λ parts. HaveAnswer wanted (length plan.now.left.outputs) (times_at (in_tables (lists_of all.entry.tables.now)) plan.now) parts.items)) }
{
    let alloc = workers.alloc;
    partitions_have_answers();
    all.fit();
    if plan.right.is_some() {
        return Ok(None);
    }
    let Some((table, column)) = counted_column(&plan.left) else {
        return Ok(None);
    };
    if !is_partitioned_by(&by.columns, table, column) {
        return Ok(None);
    }
    let Some(table_rows) = all.tables.get(table as usize) else {
        return Ok(None);
    };
    let rows = Relation::of(alloc, table_rows)?;
    let Some(tallies) = tallies_of(workers, &rows, &plan.window, column)? else {
        return Ok(None);
    };
    let Some(ranks) = ranks_of(alloc, &tallies, MOST_VALUES)? else {
        return Ok(None);
    };
    let work = Values {
        alloc,
        all,
        plan,
        wanted,
        columns: &by.columns,
        table,
        column,
        rows: &rows,
        tallies: &tallies,
        ranks: &ranks,
    };
    let values = run_with(workers.rt, alloc, workers.count, &work, workers.gate)?;
    if !are_ascending(&values) {
        return Ok(None);
    }
    workers.counters.add_counted(&rows, &values);
    Ok(Some(made_of(alloc, values)?))
}
