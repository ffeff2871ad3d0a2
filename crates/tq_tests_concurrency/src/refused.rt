//! Calls that open, change or query a store, with failing allocations.

ghost use Rattle.std.specs.Prelude.{◌≡◌, ◌≤◌, IfOk, length};
ghost use Rattle.tq_event.specs.History.{IsHistory};

use crate::history::loaded;
use crate::steps::{Came, Stage, staged};
use std::alloc::{AllocError, Global};
use std::marker::Brand;
use std::sync::Wait;
use std::thread::Threads;
use tq_event::{Loaded, MAX_EVENTS};
use tq_snapshot::{Opened, StoreId};
use tq_tests_script::{Call, Refusal, TableFiles, Tried, attempt};

// Four rows start before the step: as many as the first allocation of the writer's list has capacity for.
const BEFORE: &str = "start 4 0 40 8,dan,food";

// The rows that are not those of the files.
const COUNTS: &str = "VALIDTIME SELECT name, COUNT(*) FROM emp WHERE emp > 3 GROUP BY name";

// The events of the files. Invalid files end the script.
fn events_of(alloc: Global, files: &TableFiles) -> Result<Loaded, AllocError>
    ensures history { IfOk result (λ l. IsHistory l.catalogue l.events) }
    ensures few { IfOk result (λ l. length l.events ≤ 16777216) }
{
    match loaded(alloc, files.copies(alloc)?) {
        Ok(loaded) => Ok(loaded),
        Err(_) => Err(AllocError),
    }
}

// What the last reader finds in a store of the loaded events.
fn found_by_last<J: StoreId>(
    alloc: Global,
    opened: Opened,
    loaded: Loaded,
    readers: u32,
) -> Result<Came, AllocError>
    requires named { (opened ≡ J.book) × (loaded.catalogue ≡ J.catalogue) }
    requires history { IsHistory loaded.catalogue loaded.events }
    requires few { length loaded.events ≤ 16777216 }
{
    match staged::<J>(alloc, opened, loaded, readers, MAX_EVENTS) {
        Ok(mut stage) => Ok(stage.snapshot(readers.saturating_sub(1) as usize)),
        Err(_) => Err(AllocError),
    }
}

// What the last reader finds in a store of the files' events.
fn found_in_files(alloc: Global, files: &TableFiles, readers: u32) -> Result<Came, AllocError> {
    let loaded = events_of(alloc, files)?;
    found_by_last::<Brand>(alloc, Opened::new(), loaded, readers)
}

// Opening of a store, and what its last reader finds.
#[derive(Drop)]
struct Opening<'a> {
    files: &'a TableFiles,
    readers: u32,
    found: Came,
}

impl Call for Opening<'_> {
    fn make<R: Threads + Wait + Sync>(&mut self, _rt: &R, alloc: Global) -> Result<(), AllocError> {
        self.found = found_in_files(alloc, self.files, self.readers)?;
        Ok(())
    }

    fn print(&self, _alloc: Global, out: &mut String) -> Result<(), AllocError> {
        self.found.print(out)
    }
}

/// Opens a store of the files' events, with `readers` readers and failing allocations.
pub(crate) fn try_open<R: Threads + Wait + Sync>(
    rt: &R,
    alloc: Global,
    files: &TableFiles,
    readers: u32,
    refusal: Refusal,
) -> Result<Tried, AllocError> {
    let mut opening = Opening {
        files,
        readers,
        found: Came::Nothing,
    };
    attempt(rt, alloc, &mut opening, refusal)
}

// A step of a store, the number of events that a reader finds before it, and its result.
#[derive(Drop)]
struct Stepping<'a, J: StoreId> {
    stage: Stage<J>,
    line: &'a str,
    found: Came,
    came: Came,
}

impl<J: StoreId> Call for Stepping<'_, J> {
    fn make<R: Threads + Wait + Sync>(&mut self, rt: &R, alloc: Global) -> Result<(), AllocError> {
        self.found = self.stage.snapshot(0);
        self.came = self.stage.try_step(rt, alloc, self.line)?;
        Ok(())
    }

    fn print(&self, _alloc: Global, out: &mut String) -> Result<(), AllocError> {
        self.found.print(out)?;
        self.came.print(out)
    }
}

// Publishes all events, and queries as of the first `n`.
fn print_all<J: StoreId, R: Threads + Wait + Sync>(
    rt: &R,
    alloc: Global,
    stage: &mut Stage<J>,
    n: u32,
    out: &mut String,
) -> Result<(), AllocError> {
    stage.try_step(rt, alloc, "publish")?.print(out)?;
    let line = format!(in alloc; "ask 1 {n} 0 {COUNTS}")?;
    stage.try_step(rt, alloc, line.as_str())?.print(out)
}

// Takes the step on a store of the loaded events.
fn step_on<J: StoreId, R: Threads + Wait + Sync>(
    rt: &R,
    alloc: Global,
    opened: Opened,
    loaded: Loaded,
    n: u32,
    line: &String,
    refusal: Refusal,
) -> Result<Tried, AllocError>
    requires named { (opened ≡ J.book) × (loaded.catalogue ≡ J.catalogue) }
    requires history { IsHistory loaded.catalogue loaded.events }
    requires few { length loaded.events ≤ 16777216 }
{
    let Ok(mut stage) = staged::<J>(alloc, opened, loaded, 2, MAX_EVENTS) else {
        return Err(AllocError);
    };
    stage.try_step(rt, alloc, BEFORE)?;
    let mut stepping = Stepping {
        found: stage.snapshot(0),
        stage,
        line: line.as_str(),
        came: Came::Nothing,
    };
    let mut tried = attempt(rt, alloc, &mut stepping, refusal)?;
    print_all(rt, alloc, &mut stepping.stage, n, &mut tried.text)?;
    Ok(tried)
}

/// Takes the step on a store of the files' events with four pending rows, with failing allocations. Then publishes all
/// events and queries as of the first `n`.
pub(crate) fn try_step<R: Threads + Wait + Sync>(
    rt: &R,
    alloc: Global,
    files: &TableFiles,
    n: u32,
    line: &str,
    refusal: Refusal,
) -> Result<Tried, AllocError> {
    let loaded = events_of(alloc, files)?;
    let line = format!(in alloc; "{line}")?;
    step_on::<Brand, R>(rt, alloc, Opened::new(), loaded, n, &line, refusal)
}
