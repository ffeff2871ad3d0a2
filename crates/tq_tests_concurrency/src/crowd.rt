//! A writer and its readers, concurrently.

ghost use Rattle.std.specs.Prelude.{◌≡◌, ◌≤◌, length};
ghost use Rattle.tq_event.specs.History.{IsHistory};
ghost use Rattle.tq_plan.specs.ValidPlans.{IsPlanOver};

use crate::asker::Asker;
use crate::history::History;
use crate::rounds::{Ending, Round};
use std::alloc::{AllocError, Global};
use std::sync::Wait;
use std::thread::{Threads, join, map_vec};
use tq_event::{Event, Loaded, MAX_EVENTS};
use tq_plan::Plan;
use tq_snapshot::{Opened, Reader, StoreId, Writer, open};

/// The results: queries, published events, differences, and the text of an answer. `found` is the number of events found
/// by a reader that learns of them, if the writer is still there.
#[derive(Drop)]
pub(crate) struct Seen {
    pub(crate) asks: u64,
    pub(crate) publishes: u64,
    pub(crate) differences: u64,
    pub(crate) found: Option<u32>,
    pub(crate) text: Vec<u8>,
}

// Appends the event. Whether it was appended, and whether an end is that of the expected row. May not wait.
fn append<J: StoreId>(writer: &mut Writer<J>, history: &History, event: &Event) -> bool {
    match event {
        Event::Start { values, at, .. } => writer.start(0, values, *at).is_ok(),
        Event::End { row, at, .. } => match history.values(*row) {
            Some(values) => writer.end(0, values, *at) == Ok(*row),
            None => false,
        },
    }
}

// Appends and publishes the events one by one, and returns their number; then the writer ends.
fn write_all<J: StoreId, R: Wait>(
    rt: &R,
    mut writer: Writer<J>,
    history: &History,
    ending: Ending,
) -> (Option<Writer<J>>, u64) {
    let mut publishes: u64 = 0;
    for event in history.events.iter().skip(history.first) {
        if append(&mut writer, history, event) && writer.publish(rt).is_ok() {
            publishes = publishes.saturating_add(1);
        }
    }
    (end(rt, writer, ending), publishes)
}

// The writer, if it stays.
fn end<J: StoreId, R: Wait>(rt: &R, writer: Writer<J>, ending: Ending) -> Option<Writer<J>> {
    match ending {
        Ending::Stays => Some(writer),
        Ending::Goes => None,
        Ending::Closes => {
            writer.close(rt);
            None
        }
    }
}

// Readers that query repeatedly.
fn askers_of<J: StoreId>(
    alloc: Global,
    readers: Vec<Reader<J>>,
    seed: u64,
    events: u32,
) -> Result<Vec<Asker<J>>, AllocError> {
    let mut askers = Vec::new(alloc);
    let mut seed = seed;
    for reader in readers {
        askers.push(Asker::new(alloc, reader, seed, events))?;
        seed = seed.wrapping_add(1_000_003);
    }
    Ok(askers)
}

// Runs all readers concurrently.
fn ask_at_once<J: StoreId + Send + Sync, R: Threads + Wait + Sync>(
    rt: &R,
    alloc: Global,
    askers: Vec<Asker<J>>,
    history: &History,
    plan: &Plan,
    round: &Round<'_>,
) -> Result<Vec<Asker<J>>, AllocError>
    requires { IsPlanOver J.catalogue plan.now }
{
    map_vec(
        rt,
        askers,
        &|asker: Asker<J>| -> Asker<J>
            requires { IsPlanOver J.catalogue plan.now }
        {
            let mut asker = asker;
            asker.ask_all(rt, alloc, history, plan, round);
            asker
        },
    )
}

// The results of all readers.
fn conclude<J: StoreId>(
    alloc: Global,
    writer: Option<Writer<J>>,
    mut askers: Vec<Asker<J>>,
    publishes: u64,
    steps: u64,
) -> Result<Seen, AllocError> {
    let mut seen = Seen {
        asks: 0,
        publishes,
        differences: steps.saturating_sub(publishes),
        found: None,
        text: Vec::new(alloc),
    };
    for asker in &askers {
        seen.asks = seen.asks.saturating_add(asker.asks);
        seen.differences = seen.differences.saturating_add(asker.differences);
    }
    if let Some(mut asker) = askers.pop() {
        seen.text.extend_from_slice(asker.last_text())?;
        if let Some(writer) = writer {
            seen.found = Some(asker.learn(writer.note()));
        }
    }
    Ok(seen)
}

/// Runs the writer and its readers concurrently, over a store of the loaded events, if it can be opened.
pub(crate) fn gather<J: StoreId + Send + Sync, R: Threads + Wait + Sync>(
    rt: &R,
    alloc: Global,
    opened: Opened,
    loaded: Loaded,
    history: &History,
    plan: &Plan,
    round: &Round<'_>,
) -> Result<Option<Seen>, AllocError>
    requires named { (opened ≡ J.book) × (loaded.catalogue ≡ J.catalogue) }
    requires history { IsHistory loaded.catalogue loaded.events }
    requires few { length loaded.events ≤ 16777216 }
    requires plan { IsPlanOver loaded.catalogue plan.now }
{
    let Loaded { catalogue, events } = loaded;
    let events = events.into_vec();
    let count = events.len() as u32;
    let steps = history.events.len().saturating_sub(history.first) as u64;
    let readers = round.readers.clamp(1, 8);
    let Ok((writer, readers)) = open::<J>(alloc, opened, catalogue, events, readers, MAX_EVENTS)
    else {
        return Ok(None);
    };
    let askers = askers_of(alloc, readers, round.seed, count)?;
    let ((writer, publishes), asked) = join(
        rt,
        || write_all(rt, writer, history, round.ending),
        || -> Result<Vec<Asker<J>>, AllocError>
            requires { IsPlanOver J.catalogue plan.now }
        { ask_at_once(rt, alloc, askers, history, plan, round) },
    );
    Ok(Some(conclude(alloc, writer, asked?, publishes, steps)?))
}
