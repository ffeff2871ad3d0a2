//! A reader that queries repeatedly.

ghost use Rattle.tq_plan.specs.ValidPlans.{IsPlanOver};

use crate::agreeing::is_defined;
use crate::history::History;
use crate::rounds::{Ending, Round};
use std::alloc::{AllocError, Global};
use std::sync::Wait;
use std::thread::{Threads, yield_now};
use tq_base::Form;
use tq_plan::Plan;
use tq_reference::ReferenceFault;
use tq_run::{Gate, Open};
use tq_snapshot::{AskFault, Note, Reader, StoreId};
use tq_table::{Table, table_text};
use tq_tests_script::Draws;

// The maximal number of attempts of a query as of more events than there are.
const TURNS: u32 = 1_000_000;
// The number of random instants at which an answer is compared with the definition.
const INSTANTS: u32 = 4;

// The text of an answer as of the first `n` events.
#[derive(Drop)]
struct Known {
    n: u32,
    text: Vec<u8>,
}

/// A reader, its answers, the number of events that it has seen, the number of its queries, and the number of
/// unexpected results.
#[derive(Drop)]
pub(crate) struct Asker<J: StoreId> {
    reader: Reader<J>,
    draws: Draws,
    known: Vec<Known>,
    most: u32,
    pub(crate) asks: u64,
    pub(crate) differences: u64,
}

/// The answer by `workers` workers, whose pieces arrive at the gate; 0 is the call that starts no thread.
pub(crate) fn asked<'b, J: StoreId, R: Threads + Wait + Sync, G: Gate + Sync>(
    rt: &R,
    alloc: Global,
    reader: &mut Reader<J>,
    n: u32,
    plan: &Plan,
    workers: u32,
    gate: &G,
) -> Result<Table<'b>, AskFault>
    requires { IsPlanOver J.catalogue plan.now }
{
    if workers == 0 {
        reader.ask(alloc, n, plan)
    } else {
        reader.ask_with(rt, alloc, n, plan, workers.clamp(1, 16), gate)
    }
}

impl<J: StoreId> Asker<J> {
    /// A reader of a store that was opened with `events` events.
    pub(crate) fn new(alloc: Global, reader: Reader<J>, seed: u64, events: u32) -> Asker<J> {
        Asker {
            reader,
            draws: Draws::new(seed),
            known: Vec::new(alloc),
            most: events,
            asks: 0,
            differences: 0,
        }
    }

    /// The text of the last answer as of a new count.
    pub(crate) fn last_text(&self) -> &[u8] {
        match self.known.last() {
            Some(known) => known.text.as_slice(),
            None => &[],
        }
    }

    /// The number of events found after the note is learnt; 0 if the store is closed.
    pub(crate) fn learn(&mut self, note: Note<J>) -> u32 {
        self.reader.learn(note);
        self.reader.snapshot().unwrap_or(0)
    }

    fn count(&mut self, holds: bool) {
        self.differences = self.differences.saturating_add(u64::from(!holds));
    }

    // The earlier answer as of `n` events, if there is one.
    fn earlier(&self, n: u32) -> Option<&[u8]> {
        for known in &self.known {
            if known.n == n {
                return Some(known.text.as_slice());
            }
        }
        None
    }

    fn keep(&mut self, n: u32, text: Vec<u8>) -> Result<(), AllocError> {
        self.known.push(Known { n, text })?;
        Ok(())
    }

    // Whether at random instants the table has exactly the rows of the definition.
    fn is_defined(
        &mut self,
        alloc: Global,
        history: &History,
        n: u32,
        plan: &Plan,
        table: &Table<'_>,
    ) -> Result<bool, ReferenceFault> {
        for _ in 0..INSTANTS {
            let instant = self.draws.below(history.last.saturating_add(2));
            if !is_defined(alloc, &history.events, n, plan, table, instant)? {
                return Ok(false);
            }
        }
        Ok(true)
    }

    // Whether the table is the earlier answer or, if there is none, that of the definition.
    fn is_right(
        &mut self,
        alloc: Global,
        history: &History,
        n: u32,
        plan: &Plan,
        table: &Table<'_>,
    ) -> Result<bool, ReferenceFault> {
        let text = table_text(alloc, table, Form::Numbers)?;
        if let Some(earlier) = self.earlier(n) {
            return Ok(text.as_slice() == earlier);
        }
        self.keep(n, text)?;
        self.is_defined(alloc, history, n, plan, table)
    }

    // Whether the query is finished: it is not if there were too few events.
    fn ends(
        &mut self,
        alloc: Global,
        history: &History,
        n: u32,
        plan: &Plan,
        found: Result<Table<'_>, AskFault>,
        may_close: bool,
    ) -> bool {
        match found {
            Ok(table) => {
                let right = self.is_right(alloc, history, n, plan, &table);
                self.most = self.most.max(n);
                self.count(right.unwrap_or(false));
                true
            }
            Err(AskFault::TooNew { seen }) if self.most <= seen && seen < n => {
                self.most = seen;
                false
            }
            Err(fault) => {
                self.count(may_close && fault == AskFault::Closed);
                true
            }
        }
    }

    // Queries as of `n` events until there are that many.
    fn ask<R: Threads + Wait + Sync>(
        &mut self,
        rt: &R,
        alloc: Global,
        history: &History,
        n: u32,
        plan: &Plan,
        workers: u32,
        may_close: bool,
    )
        requires { IsPlanOver J.catalogue plan.now }
    {
        self.asks = self.asks.saturating_add(1);
        for _ in 0..TURNS {
            let found = asked(rt, alloc, &mut self.reader, n, plan, workers, &Open);
            if self.ends(alloc, history, n, plan, found, may_close) {
                return;
            }
            yield_now();
        }
        self.count(false);
    }

    // The newest count of events, an earlier one, or a random one.
    fn random_count(&mut self) -> u32 {
        let newest = self.reader.snapshot().unwrap_or(0);
        self.count(self.most <= newest);
        self.most = self.most.max(newest);
        let place = self.draws.below(self.known.len() as u64) as usize;
        match (self.draws.below(3), self.known.get(place)) {
            (0, _) => newest,
            (1, Some(known)) => known.n,
            _ => self.draws.below(u64::from(newest) + 1) as u32,
        }
    }

    /// Runs the queries of the round.
    pub(crate) fn ask_all<R: Threads + Wait + Sync>(
        &mut self,
        rt: &R,
        alloc: Global,
        history: &History,
        plan: &Plan,
        round: &Round<'_>,
    )
        requires { IsPlanOver J.catalogue plan.now }
    {
        for _ in 0..round.asks {
            let (n, workers) = match round.fixed {
                Some(fixed) => fixed,
                None => (self.random_count(), self.draws.below(17) as u32),
            };
            let may_close = round.ending != Ending::Stays;
            self.ask(rt, alloc, history, n, plan, workers, may_close);
        }
    }
}
