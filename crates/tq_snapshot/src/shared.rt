// The value that the threads share, and its changes.

ghost use Rattle.std.specs.Prelude.{◌≡◌, ◌≤◌, length, take, IfOk, OnOk, OnErr, MatchResult};
ghost use Rattle.tq_event.specs.History.{IsHistory};
ghost use Rattle.tq_plan.specs.ValidPlans.{IsPlanOver};
ghost use Rattle.tq_exec.specs.Answers.{IsPlanAnswer};
ghost use Rattle.tq_exec.specs.Rendered.{IsRendered};
ghost use Rattle.tq_snapshot.specs.StoreValue.{absorbed};
ghost use Rattle.tq_snapshot.specs.Calls.{FitsFault};

use crate::book::Prefix;
use crate::faults::AskFault;
use left_right::Absorb;
use std::alloc::{AllocError, Global};
use std::marker::Model;
use std::thread::Threads;
use tq_base::{Catalogue, Form};
use tq_event::{Event, MAX_EVENTS};
use tq_exec::{RenderedAnswer, Workers, answer, answer_with, text_with};
use tq_plan::Plan;
use tq_run::Gate;
use tq_store::{Db, Events};
use tq_table::Table;

/// An event, with the prefix of the history that ends with it.
#[derive(Drop)]
pub struct Entry {
    event: Event,
    prefix: Prefix,
}

impl Model for Entry {
    ghost use Rattle.tq_snapshot.specs.StoreValue.{Arrival};

    ghost Value = { Arrival };

    ghost view = { λ e. record { event = e.event; prefix = e.prefix } };
}

impl Entry {
    /// A copy of the event, with the prefix. `AllocError` if an allocation failed.
    pub fn of(event: &Event, prefix: Prefix) -> Result<Entry, AllocError>
        ensures { IfOk result (λ e. e ≡ record { event = event.now; prefix = prefix }) }
    {
        Ok(Entry {
            event: event.try_copy()?,
            prefix,
        })
    }
}

/// The tables as of any count of events, with the prefix of the history that these events are.
#[derive(Drop)]
pub struct SharedStore {
    db: Db,
    prefix: Prefix,
}

impl Model for SharedStore {
    ghost use Rattle.tq_snapshot.specs.StoreValue.{StoreValue};

    ghost Value = { StoreValue };

    ghost view = { λ s. record { catalogue = s.db.catalogue; events = s.db.events; prefix = s.prefix } };
}

impl SharedStore {
    /// A value with these events, which are a history over the catalogue and the events of the prefix. `AllocError` if
    /// an allocation failed.
    pub fn filled(
        alloc: Global,
        catalogue: Catalogue,
        events: &[Event],
        prefix: Prefix,
    ) -> Result<SharedStore, AllocError>
        requires few { length events.now ≤ 16777216 }
        requires history { IsHistory catalogue events.now }
        ensures { IfOk result (λ s. s ≡ record { catalogue = catalogue; events = events.now; prefix = prefix }) }
    {
        let mut db = Db::new(alloc, catalogue)?;
        for event in events {
            let taken = db.apply(event)?;
            prove!(taken);
        }
        Ok(SharedStore { db, prefix })
    }

    pub fn catalogue(&self) -> &Catalogue
        ensures { result.now ≡ self.now.catalogue }
    {
        self.db.catalogue()
    }

    pub fn events(&self) -> Events<'_>
        ensures { result ≡ self.now.events }
    {
        self.db.events()
    }

    /// The number of events.
    pub fn count(&self) -> u32
        ensures count { result ≡ length self.now.events }
        ensures few { result ≤ 16777216 }
        ensures history { IsHistory self.now.catalogue self.now.events }
    {
        self.db.count()
    }

    /// The prefix of the history that the events are.
    pub fn prefix(&self) -> &Prefix
        ensures { result.now ≡ self.now.prefix }
    {
        &self.prefix
    }

    /// Executes the plan as of the first `n` events.
    pub fn ask<'b>(&self, alloc: Global, n: u32, plan: &Plan) -> Result<Table<'b>, AskFault>
        requires { IsPlanOver self.now.catalogue plan.now }
        ensures { MatchResult result (λ table. (n ≤ length self.now.events) × IsPlanAnswer self.now.events n plan.now table) (λ f. FitsFault (length self.now.events) n f) }
    {
        let seen = self.db.count();
        if n > seen {
            return Err(AskFault::TooNew { seen });
        }
        match answer(alloc, &self.db, n, plan) {
            Ok(table) => Ok(table),
            Err(_) => Err(AskFault::OutOfMemory),
        }
    }

    /// Does what `ask` does, with `workers` workers.
    pub fn ask_with<'b, R: Threads + Sync, G: Gate + Sync>(
        &self,
        rt: &R,
        alloc: Global,
        n: u32,
        plan: &Plan,
        workers: u32,
        gate: &G,
    ) -> Result<Table<'b>, AskFault>
        requires plan { IsPlanOver self.now.catalogue plan.now }
        requires some { 1 ≤ workers }
        requires at_most { workers ≤ 16 }
        ensures { MatchResult result (λ table. (n ≤ length self.now.events) × IsPlanAnswer self.now.events n plan.now table) (λ f. FitsFault (length self.now.events) n f) }
    {
        let seen = self.db.count();
        if n > seen {
            return Err(AskFault::TooNew { seen });
        }
        match answer_with(rt, alloc, &self.db, n, plan, workers, gate) {
            Ok(table) => Ok(table),
            Err(_) => Err(AskFault::OutOfMemory),
        }
    }

    /// The text, in the form, of the answer of `ask`, and its number of rows, made by these workers.
    pub fn text_with<R: Threads + Sync, G: Gate + Sync>(
        &self,
        workers: &Workers<'_, R, G>,
        n: u32,
        plan: &Plan,
        form: Form,
    ) -> Result<RenderedAnswer, AskFault>
        requires { IsPlanOver self.now.catalogue plan.now }
        ensures { MatchResult result (λ rendered. (n ≤ length self.now.events) × IsRendered form (IsPlanAnswer self.now.events n plan.now) rendered) (λ f. FitsFault (length self.now.events) n f) }
    {
        let seen = self.db.count();
        if n > seen {
            return Err(AskFault::TooNew { seen });
        }
        match text_with(workers, &self.db, n, plan, form) {
            Ok(rendered) => Ok(rendered),
            Err(_) => Err(AskFault::OutOfMemory),
        }
    }

    /// Takes an event. After an `AllocError` the value is unchanged: an allocation failed, the event is not admissible,
    /// or there is no room. The writer stages no event of the last two kinds.
    pub fn take(&mut self, entry: &Entry) -> Result<(), AllocError>
        ensures ok { OnOk result (self.new ≡ absorbed self.old entry.now) }
        ensures err { OnErr result (self.new ≡ self.old) }
    {
        if self.db.count() >= MAX_EVENTS {
            return Err(AllocError);
        }
        if !self.db.apply(&entry.event)? {
            return Err(AllocError);
        }
        self.prefix = entry.prefix.copy();
        Ok(())
    }
}

impl Absorb<Entry> for SharedStore {
    type State = SharedStore;

    ghost state = { λ s. s };

    ghost applied = { absorbed };

    fn absorb_first(&mut self, operation: &Entry, _other: &SharedStore) -> Result<(), AllocError> {
        self.take(operation)
    }
}
