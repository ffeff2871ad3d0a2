// Queries of a session.

ghost use Rattle.std.specs.Prelude.{◌≡◌, ◌≤◌, List, length, MatchResult};
ghost use mathlib.Core.List.{IsPrefix};
ghost use Rattle.tq_event.specs.declared.event.Event.{Event as AnyEvent};
ghost use Rattle.tq_session.specs.Query.{IsPlanOf, NotPlanned};
ghost use Rattle.tq_session.specs.Transcripts.{Asks};

use crate::reply::{Refusal, Reply};
use std::alloc::Global;
use std::sync::Wait;
use std::thread::Threads;
use tq_base::{Catalogue, Form};
use tq_exec::Workers;
use tq_plan::{Plan, PlanFault, plan};
use tq_run::Open;
use tq_snapshot::laws::observed_answers;
use tq_snapshot::{AskFault, Reader, StoreId};
use tq_sql::{SqlFaultKind, read};

// The plan of the statement, or the first fault of its text or its plan.
fn planned(alloc: Global, catalogue: &Catalogue, bytes: &[u8], form: Form) -> Result<Plan, Refusal>
    ensures { MatchResult result (IsPlanOf form catalogue.now bytes.now) (NotPlanned form catalogue.now bytes.now) }
{
    let statement = match read(alloc, bytes) {
        Ok(statement) => statement,
        Err(fault) if matches!(fault.kind, SqlFaultKind::OutOfMemory) => {
            return Err(Refusal::OutOfMemory);
        }
        Err(fault) => return Err(Refusal::Statement(fault)),
    };
    match plan(alloc, catalogue, &statement, form) {
        Ok(plan) => Ok(plan),
        Err(PlanFault::OutOfMemory) => Err(Refusal::OutOfMemory),
        Err(fault) => Err(Refusal::Plan(fault)),
    }
}

/// How a statement of a session is executed.
#[derive(Clone, Copy, Debug)]
pub struct AskOptions {
    /// How many of the published events it is executed over: the first `n`.
    pub n: u32,
    /// The number of workers, from 1 to 16, one of which is the calling thread.
    pub workers: u32,
    /// How the statement and the answer write instants.
    pub form: Form,
}

/// Executes a statement as of the first `n` of the `published` events. The reply is the answer or why there is none.
pub fn ask<J: StoreId, R: Threads + Wait + Sync>(
    rt: &R,
    alloc: Global,
    catalogue: &Catalogue,
    published: u32,
    reader: &mut Reader<J>,
    bytes: &[u8],
    options: AskOptions,
) -> Reply
    requires catalogue { catalogue.now ≡ J.catalogue }
    requires some { 1 ≤ options.workers }
    requires at_most { options.workers ≤ 16 }
    ensures reply { (events : List AnyEvent) → (published ≡ length events) → IsPrefix events reader.old → Asks options.form J.catalogue events options.n bytes.now result }
    ensures told { IsPrefix reader.old reader.new }
{
    let AskOptions { n, workers, form } = options;
    observed_answers();
    let plan = match planned(alloc, catalogue, bytes, form) {
        Ok(plan) => plan,
        Err(why) => return Reply::Refused(why),
    };
    if published < n {
        return Reply::Refused(Refusal::TooNew { published });
    }
    let workers = Workers::new(rt, alloc, workers, &Open);
    match reader.text_with(&workers, n, &plan, form) {
        Ok(answer) => Reply::Answer(answer),
        Err(AskFault::TooNew { seen: _ }) | Err(AskFault::Closed) => Reply::Refused(
            Refusal::Closed,
        ),
        Err(AskFault::OutOfMemory) => Reply::Refused(Refusal::OutOfMemory),
    }
}
