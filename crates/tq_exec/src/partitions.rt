// Partitions of tables by the values of a column: the plan is executed over each, and its rows are a part of the answer.

ghost use Rattle.std.specs.Prelude.{◌≤◌, ◌+◌, IfOk, IfSome, length};
ghost use Rattle.std.proofs.Props.{props};
ghost use Rattle.tq_event.specs.Tables.{lists_of};
ghost use Rattle.tq_exec.specs.Answers.{in_tables, times_at};
ghost use Rattle.tq_exec.specs.PartitioningRules.{IsByValue};
ghost use Rattle.tq_plan.specs.ValidPlans.{AreQueriesOver, queries_prop};
ghost use Rattle.tq_exec.specs.Partitions.{ArePartitionIds, IsPartitionPart, partition_ids_prop};
ghost use Rattle.tq_exec.specs.AnswerParts.{HaveAnswer};

use crate::answer_parts::{AnswerPart, Made, Wanted, are_ascending, made_of, make_part};
use crate::counters::Counters;
use crate::execution::execute;
use crate::laws::partitions_have_answers;
use crate::partition::Partition;
use crate::partition_ids::ids_of_tables;
use crate::partitioning::{ColumnCuts, are_distinct};
use crate::snapshot::{Snapshot, TablesOfRows};
use crate::workers::Workers;
use std::alloc::{AllocError, Global};
use std::thread::Threads;
use tq_plan::Plan;
use tq_run::{Gate, Work, run_with};
use tq_table::coalesce;

// The parts of a plan's answer over tables of rows, a piece for each partition.
#[derive(Drop)]
struct PartitionParts<'p> {
    alloc: Global,
    all: TablesOfRows<'p>,
    plan: &'p Plan,
    wanted: Wanted,
    cuts: &'p [u128],
    columns: &'p [Option<u32>],
    ids: &'p [Vec<u8>],
    counters: &'p Counters,
    ghost short: { length cuts.now ≤ 63 },
    ghost are: { ArePartitionIds cuts.now columns.now (lists_of all.tables.now) ids.now } by { Prim.hlevel (props, partition_ids_prop) },
    ghost over: { AreQueriesOver all.catalogue.now plan.now } by { Prim.hlevel (props, queries_prop) },
}

impl<'p> Work for PartitionParts<'p> {
    type Out = AnswerPart<'p>;

    ghost count = { λ w. length w.cuts.now + 1 };

    ghost relates = { λ w i out. IsPartitionPart w.wanted (in_tables (lists_of w.all.tables.now)) w.plan.now w.cuts.now w.columns.now i out };

    fn pieces(&self) -> u32 {
        self.cuts.len() as u32 + 1
    }

    fn run(&self, i: u32) -> Result<AnswerPart<'p>, AllocError> {
        let partition = Partition {
            all: self.all,
            cuts: self.cuts,
            columns: self.columns,
            ids: self.ids,
            number: i as u8,
        };
        let window = &self.plan.window;
        let rows = execute(self.alloc, &partition, self.plan, window, self.counters)?;
        make_part(self.alloc, coalesce(self.alloc, rows)?, self.wanted)
    }
}

/// The parts of the plan's answer, one for each partition of the tables, made by these workers. `None` if most rows have
/// values that their normalized keys do not tell apart.
pub(crate) fn parts_by_value<'p, R: Threads + Sync, G: Gate + Sync>(
    workers: &Workers<'_, R, G>,
    all: TablesOfRows<'p>,
    plan: &'p Plan,
    by: &'p ColumnCuts,
    wanted: Wanted,
) -> Result<Option<Vec<Made>>, AllocError>
    requires over { AreQueriesOver all.catalogue.now plan.now }
    requires by { IsByValue (length all.tables.now) plan.now by.now }
    ensures { IfOk result (λ made. IfSome made (λ parts. HaveAnswer wanted (length plan.now.left.outputs) (times_at (in_tables (lists_of all.entry.tables.now)) plan.now) parts.items)) }
{
    let alloc = workers.alloc;
    partitions_have_answers();
    all.fit();
    if !are_distinct(&by.cuts) {
        return Ok(None);
    }
    let ids = ids_of_tables(workers, &by.cuts, &by.columns, all.tables)?;
    let work = PartitionParts {
        alloc,
        all,
        plan,
        wanted,
        cuts: &by.cuts,
        columns: &by.columns,
        ids: &ids,
        counters: &workers.counters,
    };
    let partitions = run_with(workers.rt, alloc, workers.count, &work, workers.gate)?;
    if !are_ascending(&partitions) {
        return Ok(None);
    }
    Ok(Some(made_of(alloc, partitions)?))
}
