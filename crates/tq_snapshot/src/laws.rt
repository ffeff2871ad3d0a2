//! Laws of answers to readers.

ghost use Rattle.std.specs.Prelude.{◌≡◌, ◌≤◌, IfOk, IfSome, length};
ghost use mathlib.Core.List.{IsPrefix};
ghost use Rattle.tq_event.specs.History.{IsHistory};
ghost use Rattle.tq_plan.specs.ValidPlans.{IsPlanOver};
ghost use Rattle.tq_exec.specs.Answers.{IsPlanAnswer};
ghost use Rattle.tq_snapshot.specs.Laws.{EqualAsksAgree, ObservedAnswers};

use crate::book::{Opened, StoreId};
use crate::faults::AskFault;
use crate::opening::open;
use crate::reader::Reader;
use crate::writer::Writer;
use std::alloc::Global;
use std::marker::Brand;
use std::sync::Wait;
use tq_base::{Instant, Values};
use tq_event::laws::prefixes_agree;
use tq_event::{Loaded, MAX_EVENTS};
use tq_exec::laws::answers_are_unique;
use tq_plan::Plan;
use tq_table::Table;

/// An answer as of events that a reader has observed before is the answer over the observed events.
pub fn observed_answers()
    ensures { ObservedAnswers }
{
    prefixes_agree();
}

/// Two answers of a plan as of the same count are equal if the reader had observed that many events before each.
pub fn equal_asks_agree()
    ensures { EqualAsksAgree }
{
    observed_answers();
    answers_are_unique();
}

/// Executes the plan as of at most as many events as the reader has observed. The observed events alone determine the
/// answer.
pub fn ask_observed<'b, J: StoreId>(
    reader: &mut Reader<J>,
    alloc: Global,
    n: u32,
    plan: &Plan,
) -> Result<Table<'b>, AskFault>
    requires known { n ≤ length reader.old }
    requires plan { IsPlanOver J.catalogue plan.now }
    ensures answer { IfOk result (IsPlanAnswer reader.old n plan.now) }
    ensures observed { IsPrefix reader.old reader.new }
{
    observed_answers();
    reader.ask(alloc, n, plan)
}

// Executes the plan as of the first `n` events twice: before a row is started, and after it is published and the reader
// has learnt of it. `None` if a call failed.
fn ask_before_and_after<'b, J: StoreId, R: Wait>(
    rt: &R,
    alloc: Global,
    writer: &mut Writer<J>,
    reader: &mut Reader<J>,
    table: u32,
    values: &Values,
    at: Instant,
    n: u32,
    plan: &Plan,
) -> Option<(Table<'b>, Table<'b>)>
    requires known { n ≤ length reader.old }
    requires plan { IsPlanOver J.catalogue plan.now }
    ensures answer { IfSome result (λ answers. IsPlanAnswer reader.old n plan.now answers.0) }
    ensures same { IfSome result (λ answers. answers.0 ≡ answers.1) }
{
    equal_asks_agree();
    let Ok(before) = ask_observed(reader, alloc, n, plan) else {
        return None;
    };
    if writer.start(table, values, at).is_err() || writer.publish(rt).is_err() {
        return None;
    }
    reader.learn(writer.note());
    match ask_observed(reader, alloc, n, plan) {
        Ok(after) => Some((before, after)),
        Err(_) => None,
    }
}

fn ask_before_and_after_in<'b, J: StoreId, R: Wait>(
    rt: &R,
    alloc: Global,
    opened: Opened,
    loaded: Loaded,
    table: u32,
    values: &Values,
    at: Instant,
    n: u32,
    plan: &Plan,
) -> Option<(Table<'b>, Table<'b>)>
    requires named { (opened ≡ J.book) × (loaded.catalogue ≡ J.catalogue) }
    requires history { IsHistory loaded.catalogue loaded.events }
    requires few { length loaded.events ≤ 16777216 }
    requires known { n ≤ length loaded.events }
    requires plan { IsPlanOver loaded.catalogue plan.now }
    ensures answer { IfSome result (λ answers. IsPlanAnswer loaded.events n plan.now answers.0) }
    ensures same { IfSome result (λ answers. answers.0 ≡ answers.1) }
{
    let Loaded { catalogue, events } = loaded;
    let events = events.into_vec();
    match open::<J>(alloc, opened, catalogue, events, 1, MAX_EVENTS) {
        Ok((mut writer, mut readers)) => {
            let mut reader = readers.pop()?;
            ask_before_and_after(
                rt,
                alloc,
                &mut writer,
                &mut reader,
                table,
                values,
                at,
                n,
                plan,
            )
        }
        Err(_) => None,
    }
}

/// Opens a store over the loaded events and executes the plan as of its first `n` events twice: before a row is
/// started, and after it is published and the reader has learnt of it. Both answers are those of the loaded events.
/// `None` if a call failed.
pub fn ask_before_and_after_start<'b, R: Wait>(
    rt: &R,
    alloc: Global,
    loaded: Loaded,
    table: u32,
    values: &Values,
    at: Instant,
    n: u32,
    plan: &Plan,
) -> Option<(Table<'b>, Table<'b>)>
    requires history { IsHistory loaded.catalogue loaded.events }
    requires few { length loaded.events ≤ 16777216 }
    requires known { n ≤ length loaded.events }
    requires plan { IsPlanOver loaded.catalogue plan.now }
    ensures answer { IfSome result (λ answers. IsPlanAnswer loaded.events n plan.now answers.0) }
    ensures same { IfSome result (λ answers. answers.0 ≡ answers.1) }
{
    ask_before_and_after_in::<Brand, R>(
        rt,
        alloc,
        Opened::new(),
        loaded,
        table,
        values,
        at,
        n,
        plan,
    )
}
