// The rows of a plan in periods of its window, a piece of work for each.

ghost use Rattle.std.specs.Prelude.{◌≡◌, ◌≤◌, IfOk, length, slice_index_or};
ghost use Rattle.std.proofs.Props.{props};
ghost use Rattle.tq_base.specs.declared.period.Period.{Period as Span};
ghost use Rattle.tq_event.specs.Tables.{lists_of};
ghost use Rattle.tq_exec.specs.Answers.{in_tables};
ghost use Rattle.tq_exec.specs.PeriodPieces.{ArePieces, IsPiece};
ghost use Rattle.tq_plan.specs.ValidPlans.{AreQueriesOver, queries_prop};

use crate::counters::Counters;
use crate::execution::execute;
use crate::snapshot::TablesOfRows;
use crate::workers::Workers;
use std::alloc::{AllocError, Global};
use std::thread::Threads;
use tq_base::{Period, Rows};
use tq_plan::Plan;
use tq_run::{Gate, Work, run_with};
use tq_table::coalesce;

// Copies of the plan's rows in the period, coalesced.
fn piece_rows(
    alloc: Global,
    snapshot: &TablesOfRows<'_>,
    plan: &Plan,
    period: &Period,
    counters: &Counters,
) -> Result<Rows, AllocError>
    requires { AreQueriesOver snapshot.now.catalogue.now plan.now }
    ensures { IfOk result (IsPiece (in_tables (lists_of snapshot.now.tables.now)) plan.now period.now) }
{
    let rows = execute(alloc, snapshot, plan, period, counters)?;
    coalesce(alloc, rows)?.copied(alloc)
}

// A plan's rows over tables of rows, a piece for each period.
#[derive(Drop)]
struct PeriodRows<'p> {
    alloc: Global,
    snapshot: TablesOfRows<'p>,
    plan: &'p Plan,
    periods: &'p [Period],
    counters: &'p Counters,
    ghost few: { length periods.now ≤ 64 },
    ghost over: { AreQueriesOver snapshot.catalogue.now plan.now } by { Prim.hlevel (props, queries_prop) },
}

impl Work for PeriodRows<'_> {
    type Out = Rows;

    ghost count = { λ w. length w.periods.now };

    ghost relates = { λ w i rows. (d : Span) → IsPiece (in_tables (lists_of w.snapshot.tables.now)) w.plan.now (slice_index_or w.periods.now i d) rows };

    fn pieces(&self) -> u32 {
        self.periods.len() as u32
    }

    fn run(&self, i: u32) -> Result<Rows, AllocError> {
        piece_rows(
            self.alloc,
            &self.snapshot,
            self.plan,
            &self.periods[i as usize],
            self.counters,
        )
    }
}

/// The plan's rows in each of the periods, found by these workers.
pub(crate) fn pieces_of<'p, R: Threads + Sync, G: Gate + Sync>(
    workers: &Workers<'_, R, G>,
    snapshot: TablesOfRows<'p>,
    plan: &'p Plan,
    periods: &'p [Period],
) -> Result<Vec<Rows>, AllocError>
    requires over { AreQueriesOver snapshot.catalogue.now plan.now }
    requires few { length periods.now ≤ 64 }
    ensures many { IfOk result (λ pieces. length pieces.items ≡ length periods.now) }
    ensures pieces { IfOk result (λ pieces. ArePieces (in_tables (lists_of snapshot.entry.tables.now)) plan.now periods.now pieces.items) }
{
    let alloc = workers.alloc;
    let work = PeriodRows {
        alloc,
        snapshot,
        plan,
        periods,
        counters: &workers.counters,
    };
    run_with(workers.rt, alloc, workers.count, &work, workers.gate)
}
