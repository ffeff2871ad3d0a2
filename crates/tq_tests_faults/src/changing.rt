//! Histories to which events are applied.

use crate::answering::{answered, print_answer};
use crate::loading::loaded;
use std::alloc::{AllocError, Global};
use std::fmt::Write;
use std::sync::Wait;
use std::thread::Threads;
use tq_event::{Event, Loaded, MAX_EVENTS};
use tq_store::Db;
use tq_tests_script::{Call, Refusal, TableFiles, Tried, attempt};

// Applies the event if it is admissible; whether it was taken.
fn take(db: &mut Db, event: &Event) -> Result<bool, AllocError> {
    if db.count() >= MAX_EVENTS {
        return Ok(false);
    }
    db.apply(event)
}

// Applies the first `n` events; the next one, if there is one.
fn take_first(db: &mut Db, events: &[Event], n: u32) -> Result<Option<Event>, AllocError> {
    for event in events {
        if db.count() >= n {
            return Ok(Some(event.try_copy()?));
        }
        take(db, event)?;
    }
    Ok(None)
}

/// A history with the first `n` events of the files, and the next event, if there is one. Invalid files end the script.
pub(crate) fn history_of(
    alloc: Global,
    files: &TableFiles,
    n: u32,
) -> Result<(Db, Option<Event>), AllocError> {
    let Ok(loaded) = loaded(alloc, files.copies(alloc)?) else {
        return Err(AllocError);
    };
    let Loaded { catalogue, events } = loaded;
    let mut db = Db::new(alloc, catalogue)?;
    let next = take_first(&mut db, events.get(), n)?;
    Ok((db, next))
}

// The call that applies an event, and whether it was taken.
#[derive(Drop)]
struct Applying<'a> {
    db: Db,
    event: Event,
    text: &'a str,
    taken: bool,
}

impl Call for Applying<'_> {
    fn make<R: Threads + Wait + Sync>(
        &mut self,
        _rt: &R,
        _alloc: Global,
    ) -> Result<(), AllocError> {
        self.taken = take(&mut self.db, &self.event)?;
        Ok(())
    }

    fn print(&self, alloc: Global, out: &mut String) -> Result<(), AllocError> {
        let (taken, count) = (self.taken, self.db.count());
        writeln!(out, "{taken}, {count} events")?;
        print_answer(&answered(alloc, &self.db, count, self.text)?, out)
    }
}

/// Applies the event after the first `n`, with failing allocations; then executes the statement as of all events so
/// far.
pub(crate) fn try_apply<R: Threads + Wait + Sync>(
    rt: &R,
    alloc: Global,
    files: &TableFiles,
    n: u32,
    text: &str,
    refusal: Refusal,
) -> Result<Tried, AllocError> {
    let (db, next) = history_of(alloc, files, n)?;
    let Some(event) = next else {
        return Err(AllocError);
    };
    let mut applying = Applying {
        db,
        event,
        text,
        taken: false,
    };
    attempt(rt, alloc, &mut applying, refusal)
}
