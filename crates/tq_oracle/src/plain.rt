// The oracle for plans over tables as of any count of events.

ghost use Rattle.std.specs.Prelude.{◌≡◌, ◌≤◌, IfOk, List, length, take};
ghost use Rattle.tq_event.specs.declared.event.Event.{Event as AnyEvent};
ghost use Rattle.tq_event.specs.History.{IsHistory};
ghost use Rattle.tq_plan.specs.declared.plans.Plan.{Plan as AnyPlan};
ghost use Rattle.tq_plan.specs.ValidPlans.{IsPlanOver};
ghost use Rattle.tq_exec.specs.Answers.{IsPlanAnswer};
ghost use Rattle.tq_oracle.specs.Plain.{one_answer_prop, plain_answer, PlansHaveOneAnswer};
ghost use Rattle.tq_oracle.specs.Runs.{RunsAnswerPlans};

use std::alloc::{AllocError, Global};
use tq_base::Catalogue;
use tq_base::laws::layers_are_unique;
use tq_core::Oracle;
use tq_event::Event;
use tq_exec::answer;
use tq_exec::laws::answers_exist;
use tq_plan::Plan;
use tq_store::Db;
use tq_table::Table;

/// The oracle that answers plans over a world's catalogue. Each answer is computed over a new `Db` with the first n
/// events. Requires that `plan` made the plan over the world's catalogue.
#[derive(Drop)]
pub struct Plain {
    ghost one_answer: { PlansHaveOneAnswer } by { one_answer_prop },
}

impl Plain {
    /// The only value of this type.
    pub fn new() -> Plain {
        layers_are_unique();
        answers_exist();
        Plain {}
    }

    /// The oracle's answer over the events of a history is that of the plan as of all of them. A law: the body is
    /// empty.
    pub fn answers(&self)
        ensures { (events : List AnyEvent) (plan : AnyPlan) → IsPlanAnswer events (length events) plan (plain_answer self.now.one_answer events plan) }
    {}

    /// Each answer of `World::run` with this oracle is that of the plan as of the requested `n` events. The events are
    /// those published after the run. A law for use with the clause `answers` of `World::run`: the body is empty.
    pub fn runs_answer_plans(&self)
        ensures { RunsAnswerPlans self.now.one_answer }
    {}
}

// A `Db` with the first n events.
fn filled(alloc: Global, catalogue: &Catalogue, events: &[Event], n: u32) -> Result<Db, AllocError>
    requires history { IsHistory catalogue.now events.now }
    requires few { length events.now ≤ 16777216 }
    requires within { n ≤ length events.now }
    ensures { IfOk result (λ db. db ≡ record { catalogue = catalogue.now; events = take n events.now }) }
{
    let mut db = Db::new(alloc, catalogue.try_copy(alloc)?)?;
    'events: for event in &events[..n as usize] {
        db.apply(event)?;
    }
    Ok(db)
}

impl Oracle for Plain {
    type Query = Plan;

    type Answer = Table<'static>;

    ghost fits = { λ catalogue plan. IsPlanOver catalogue plan };

    ghost value = { λ plain catalogue events plan. plain_answer plain.one_answer events plan };

    fn answer(
        &self,
        alloc: Global,
        catalogue: &Catalogue,
        events: &[Event],
        n: u32,
        plan: &Plan,
    ) -> Result<Table<'static>, AllocError> {
        let db = filled(alloc, catalogue, events, n)?;
        let table = answer(alloc, &db, n, plan)?;
        Ok(table)
    }
}
