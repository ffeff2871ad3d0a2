// Readers.

ghost use Rattle.std.specs.Prelude.{◌≡◌, ◌≤◌, length, MatchResult};
ghost use Rattle.tq_plan.specs.ValidPlans.{IsPlanOver};
ghost use Rattle.tq_snapshot.specs.Calls.{Answers, AnswersAsText, Entered, IsLearned, Refuses};

use crate::book::{Prefix, StoreId};
use crate::entering::{SharedReader, begin, enter};
use crate::faults::{AskFault, Closed};
use crate::note::Note;
use std::alloc::Global;
use std::marker::Model;
use std::sync::Wait;
use std::thread::Threads;
use tq_base::Form;
use tq_exec::{RenderedAnswer, Workers};
use tq_plan::Plan;
use tq_run::Gate;
use tq_table::Table;

/// A reader of the store, for use on any thread. Contracts see it as the longest list of events that it has observed:
/// those that the store was opened with, those that it found, and those of notes that it learnt.
#[derive(Drop)]
pub struct Reader<J: StoreId> {
    // Taken out while the reader enters, and put back afterwards. Each call does both itself: in between, the reader does
    // not satisfy its invariant and can call none of its methods.
    pub(crate) inner: Option<SharedReader<J>>,
    pub(crate) observed: Prefix,
    // The reader found the first `own` of the observed events itself; the others came with a note.
    pub(crate) own: u64,
}

impl<J: StoreId> Model for Reader<J> {
    ghost use Rattle.std.specs.Prelude.{◌≡◌, IsSomeAnd, List};
    ghost use Rattle.left_right.specs.Sides.{view as last_find};
    ghost use Rattle.tq_event.specs.declared.event.Event.{Event};
    ghost use Rattle.tq_snapshot.specs.Sound.{FindsOwn};

    ghost Value = { List Event };

    ghost view = { λ r. r.observed.list };

    ghost invariant = { λ r. (r.observed.book ≡ J.book) × IsSomeAnd r.inner (λ inner. FindsOwn r.observed.list r.own (last_find inner.place)) };
}

impl<J: StoreId> Reader<J> {
    /// Returns the number of events found, which are then observed. `Closed` if the store was not entered. Never waits.
    pub fn snapshot(&mut self) -> Result<u32, Closed>
        ensures { MatchResult result (λ n. Entered J.catalogue self.old self.new × (n ≡ length self.new)) (λ _. self.new ≡ self.old) }
    {
        let inner = self.inner.take().unwrap();
        let (inner, found) = enter(inner, &self.observed, self.own);
        self.inner = Some(inner);
        match found {
            Ok(prefix) => {
                self.own = prefix.len();
                self.observed = prefix;
                Ok(self.own as u32)
            }
            Err(_) => Err(Closed),
        }
    }

    /// Returns the answer of the plan as of the first `n` events; the table owns its rows. Requires that `plan` made
    /// the plan over the store's catalogue. `TooNew` if fewer than `n` events are found, `Closed` if the store was not
    /// entered, `OutOfMemory` if an allocation failed. Never waits.
    pub fn ask<'b>(&mut self, alloc: Global, n: u32, plan: &Plan) -> Result<Table<'b>, AskFault>
        requires { IsPlanOver J.catalogue plan.now }
        ensures { MatchResult result (λ table. Answers J.catalogue self.old n plan.now self.new table) (Refuses J.catalogue self.old n self.new) }
    {
        let inner = self.inner.take().unwrap();
        match begin(inner, &self.observed, self.own) {
            Ok((reading, prefix)) => {
                let answer = reading.get().ask(alloc, n, plan);
                self.inner = Some(reading.leave());
                self.own = prefix.len();
                self.observed = prefix;
                answer
            }
            Err((inner, _)) => {
                self.inner = Some(inner);
                Err(AskFault::Closed)
            }
        }
    }

    /// Returns the same answer as `ask`, computed by 1 to 16 workers including the calling thread. The gate gets each
    /// piece of work before it is done.
    pub fn ask_with<'b, R: Threads + Wait + Sync, G: Gate + Sync>(
        &mut self,
        rt: &R,
        alloc: Global,
        n: u32,
        plan: &Plan,
        workers: u32,
        gate: &G,
    ) -> Result<Table<'b>, AskFault>
        requires plan { IsPlanOver J.catalogue plan.now }
        requires some { 1 ≤ workers }
        requires at_most { workers ≤ 16 }
        ensures { MatchResult result (λ table. Answers J.catalogue self.old n plan.now self.new table) (Refuses J.catalogue self.old n self.new) }
    {
        let inner = self.inner.take().unwrap();
        match begin(inner, &self.observed, self.own) {
            Ok((reading, prefix)) => {
                let answer = reading.get().ask_with(rt, alloc, n, plan, workers, gate);
                self.inner = Some(reading.leave());
                self.own = prefix.len();
                self.observed = prefix;
                answer
            }
            Err((inner, _)) => {
                self.inner = Some(inner);
                Err(AskFault::Closed)
            }
        }
    }

    /// Returns the text, in the form, of the same answer as `ask`, and its number of rows, made by these workers. Each of
    /// them writes the text of the rows that it makes. The gate gets each piece of work before it is done.
    pub fn text_with<R: Threads + Wait + Sync, G: Gate + Sync>(
        &mut self,
        workers: &Workers<'_, R, G>,
        n: u32,
        plan: &Plan,
        form: Form,
    ) -> Result<RenderedAnswer, AskFault>
        requires { IsPlanOver J.catalogue plan.now }
        ensures { MatchResult result (λ rendered. AnswersAsText form J.catalogue self.old n plan.now self.new rendered) (Refuses J.catalogue self.old n self.new) }
    {
        let inner = self.inner.take().unwrap();
        match begin(inner, &self.observed, self.own) {
            Ok((reading, prefix)) => {
                let answer = reading.get().text_with(workers, n, plan, form);
                self.inner = Some(reading.leave());
                self.own = prefix.len();
                self.observed = prefix;
                answer
            }
            Err((inner, _)) => {
                self.inner = Some(inner);
                Err(AskFault::Closed)
            }
        }
    }

    /// Adds the events of the note to the observed ones. Allocates nothing.
    pub fn learn(&mut self, note: Note<J>)
        ensures { IsLearned self.old note self.new }
    {
        let Note { prefix, store: _ } = note;
        if self.observed.begins(&prefix) {
            self.observed = prefix;
        }
    }
}
