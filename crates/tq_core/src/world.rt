// The world: a history, its readers and the pieces of its answers.

ghost use Rattle.std.specs.Prelude.{◌≡◌, ◌↔◌, ◌<◌, ◌≤◌, IsTrue, All, Contains, IfOk, OnErr, length};
ghost use Rattle.tq_base.specs.Catalogues.{IsCatalogue};
ghost use Rattle.tq_core.specs.World.{Rise};
ghost use Rattle.tq_core.specs.Runs.{AnswersAgree, AnswersOverLast, AnswersUpToShown, ClaimsInOrder, FinishesWhole, PublishesUpToLast};
ghost use Rattle.tq_core.specs.Machine.{Appends, Asks, HasFittingQuery, Claims, Enters, Finishes, IsRun, IsRunBefore, IsStep, Learns, Publishes, first_machine};

use crate::oracle::Oracle;
use crate::pieces::Pieces;
use crate::step::{Reply, Step};
use std::alloc::{AllocError, Global};
use std::marker::Model;
use tq_base::Catalogue;
use tq_event::{Event, History, MAX_EVENTS};

// The maximal number of workers of an answer.
const MAX_WORKERS: u32 = 16;

/// One writer, its readers, and the pieces of their answers.
#[derive(Drop)]
pub struct World {
    alloc: Global,
    history: History,
    published: u32,
    lengths: Vec<u32>,
    seen: Vec<u32>,
    runs: Vec<Pieces>,
}

impl Model for World {
    ghost use Rattle.tq_core.specs.Machine.{Machine};
    ghost use Rattle.tq_core.specs.World.{IsWorld, machine_of};

    ghost Value = { Machine };

    ghost view = { λ w. machine_of w.history w.published w.lengths.items w.seen.items w.runs.items };

    ghost invariant = { λ w. IsWorld w.history w.published w.lengths.items w.seen.items };
}

// Whether the length is one of the lengths, which never decrease.
fn is_length(lengths: &[u32], at: u32) -> bool
    requires { Rise lengths.now }
    ensures { IsTrue result ↔ Contains lengths.now at }
{
    lengths.binary_search(&at).is_ok()
}

impl World {
    /// A world without events, with 1 to 8 readers. It keeps the allocator. `AllocError` if an allocation failed.
    pub fn new(alloc: Global, catalogue: Catalogue, readers: u32) -> Result<World, AllocError>
        requires some { 1 ≤ readers }
        requires few { readers ≤ 8 }
        requires catalogue { IsCatalogue catalogue }
        ensures { IfOk result (λ w. w ≡ first_machine catalogue readers) }
    {
        let history = History::new(alloc, catalogue)?;
        let lengths = vec![in alloc; 0u32; 1]?;
        let seen = vec![in alloc; 0u32; readers as usize]?;
        Ok(World {
            alloc,
            history,
            published: 0,
            lengths,
            seen,
            runs: Vec::new(alloc),
        })
    }

    fn append<A>(&mut self, event: &Event) -> Result<Reply<A>, AllocError>
        ensures step { IfOk result (λ reply. Appends event.now self.old reply self.new) }
        ensures err { OnErr result (self.new ≡ self.old) }
    {
        if self.history.events().len() >= MAX_EVENTS as usize || !self.history.append(event)? {
            return Ok(Reply::Refused);
        }
        Ok(Reply::Done)
    }

    fn publish<A>(&mut self) -> Result<Reply<A>, AllocError>
        ensures step { IfOk result (λ reply. Publishes self.old reply self.new) }
        ensures err { OnErr result (self.new ≡ self.old) }
    {
        let length = self.history.events().len() as u32;
        self.lengths.push(length)?;
        self.published = length;
        Ok(Reply::Length(length))
    }

    fn enter<A>(&mut self, reader: u32, at: u32) -> Reply<A>
        ensures { Enters reader at self.old result self.new }
    {
        let reader = reader as usize;
        if reader >= self.seen.len() || at < self.seen[reader] || !is_length(&self.lengths, at) {
            return Reply::Refused;
        }
        self.seen[reader] = at;
        Reply::Length(at)
    }

    fn learn<A>(&mut self, reader: u32, length: u32) -> Reply<A>
        ensures { Learns reader length self.old result self.new }
    {
        let reader = reader as usize;
        if reader >= self.seen.len() || !is_length(&self.lengths, length) {
            return Reply::Refused;
        }
        let seen = self.seen[reader].max(length);
        self.seen[reader] = seen;
        Reply::Length(seen)
    }

    fn ask<O: Oracle>(
        &mut self,
        oracle: &O,
        reader: u32,
        n: u32,
        query: &O::Query,
        pieces: u32,
    ) -> Result<Reply<O::Answer>, AllocError>
        requires { O.fits self.old.catalogue query.now }
        ensures step { IfOk result (λ reply. Asks (O.value oracle.now) reader n query.now pieces self.old reply self.new) }
        ensures err { OnErr result (self.new ≡ self.old) }
    {
        let reader = reader as usize;
        if reader >= self.seen.len() {
            return Ok(Reply::Refused);
        }
        let seen = self.seen[reader];
        if n > seen {
            return Ok(Reply::TooNew { seen });
        }
        self.runs.reserve(1)?;
        let catalogue = self.history.catalogue();
        let published = &self.history.events()[..self.published as usize];
        let answer = oracle.answer(self.alloc, catalogue, published, n, query)?;
        self.runs.push_reserved(Pieces::new(self.alloc, pieces));
        Ok(Reply::Answer(answer))
    }

    fn claim<A>(&mut self, work: u32, worker: u32) -> Result<Reply<A>, AllocError>
        ensures step { IfOk result (λ reply. Claims work worker self.old reply self.new) }
        ensures err { OnErr result (self.new ≡ self.old) }
    {
        let work = work as usize;
        if work >= self.runs.len() || worker >= MAX_WORKERS {
            return Ok(Reply::Refused);
        }
        let run = &mut self.runs[work];
        if run.is_closed() {
            return Ok(Reply::Refused);
        }
        Ok(Reply::Piece(run.claim(worker)?))
    }

    fn finish<A>(&mut self, work: u32) -> Result<Reply<A>, AllocError>
        ensures step { IfOk result (λ reply. Finishes work self.old reply self.new) }
        ensures err { OnErr result (self.new ≡ self.old) }
    {
        let work = work as usize;
        if work >= self.runs.len() {
            return Ok(Reply::Refused);
        }
        let run = &mut self.runs[work];
        if !run.can_close() {
            return Ok(Reply::Refused);
        }
        Ok(Reply::Order(run.close(self.alloc)?))
    }

    /// Takes the step if it is allowed, and replies. `AllocError` if an allocation failed; then nothing changes.
    pub fn step<O: Oracle>(
        &mut self,
        oracle: &O,
        step: &Step<O::Query>,
    ) -> Result<Reply<O::Answer>, AllocError>
        requires { HasFittingQuery O.fits self.old.catalogue step.now }
        ensures step { IfOk result (λ reply. IsStep (O.value oracle.now) step.now self.old reply self.new) }
        ensures err { OnErr result (self.new ≡ self.old) }
    {
        match step {
            Step::Append(event) => self.append(event),
            Step::Publish => self.publish(),
            Step::Enter { reader, at } => Ok(self.enter(*reader, *at)),
            Step::Learn { reader, length } => Ok(self.learn(*reader, *length)),
            Step::Ask {
                reader,
                n,
                query,
                pieces,
            } => self.ask(oracle, *reader, *n, query, *pieces),
            Step::Claim { work, worker } => self.claim(*work, *worker),
            Step::Finish { work } => self.finish(*work),
        }
    }

    /// Takes the steps in order and returns their replies. `AllocError` if an allocation failed: then the world is as
    /// after the steps before the failed one, and the replies are lost.
    pub fn run<O: Oracle>(
        &mut self,
        oracle: &O,
        steps: &[Step<O::Query>],
    ) -> Result<Vec<Reply<O::Answer>>, AllocError>
    where
        O::Answer: Drop,
        requires { All (HasFittingQuery O.fits self.old.catalogue) steps.now }
        ensures steps { IfOk result (λ replies. IsRun (O.value oracle.now) steps.now self.old replies.items self.new) }
        ensures published { IfOk result (λ replies. PublishesUpToLast steps.now self.old replies.items self.new) }
        ensures answers { IfOk result (λ replies. AnswersOverLast (O.value oracle.now) steps.now replies.items self.new) }
        ensures agree { IfOk result (λ replies. AnswersAgree steps.now replies.items) }
        ensures asks { IfOk result (λ replies. AnswersUpToShown steps.now self.old replies.items) }
        ensures claims { IfOk result (λ replies. ClaimsInOrder steps.now self.old replies.items self.new) }
        ensures finishes { IfOk result (λ replies. FinishesWhole steps.now replies.items self.new) }
        ensures err { OnErr result (IsRunBefore (O.value oracle.now) steps.now self.old self.new) }
    {
        let mut replies = Vec::with_capacity(self.alloc, steps.len())?;
        'steps: for step in steps {
            replies.push_reserved(self.step(oracle, step)?);
        }
        Ok(replies)
    }
}
