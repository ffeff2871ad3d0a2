//! The events that the writer appends after those of the files.

ghost use Rattle.std.specs.Prelude.{◌≤◌, IfOk, length};
ghost use Rattle.tq_event.specs.History.{IsHistory};

use std::alloc::{AllocError, Global};
use tq_base::{Form, Instant, Value, Values};
use tq_event::laws::{loaded_is_history, loaded_is_within};
use tq_event::{Event, LoadFault, Loaded, MAX_EVENTS, TableFile, load};
use tq_tests_script::Draws;

/// The events of the files, or the first fault.
pub(crate) fn loaded(alloc: Global, files: Vec<TableFile>) -> Result<Loaded, LoadFault>
    ensures history { IfOk result (λ l. IsHistory l.catalogue l.events) }
    ensures few { IfOk result (λ l. length l.events ≤ 16777216) }
{
    loaded_is_history();
    loaded_is_within();
    let loaded = load(alloc, files, MAX_EVENTS, Form::Numbers)?;
    Ok(loaded)
}

// A row of the table, and whether it is open.
#[derive(Drop)]
struct Known {
    values: Values,
    start: Instant,
    is_open: bool,
}

/// The events of one table, the number of them that a store is opened with, the table's rows, and the instant of the
/// last event.
#[derive(Drop)]
pub(crate) struct History {
    pub(crate) events: Vec<Event>,
    pub(crate) first: usize,
    pub(crate) last: u64,
    rows: Vec<Known>,
}

// A row of the table `emp`.
fn row(alloc: Global, emp: i64, name: &str, dept: &str) -> Result<Values, AllocError> {
    let mut values = Vec::new(alloc);
    values.push(Value::int(emp))?;
    values.push(Value::text(alloc, name)?)?;
    values.push(Value::text(alloc, dept)?)?;
    Ok(Values::of(values))
}

// One of forty rows, with a name that fits into its value or one that needs a box.
fn random_row(alloc: Global, draws: &mut Draws) -> Result<Values, AllocError> {
    let name = match draws.below(3) {
        0 => "a name of many letters",
        _ => "ann",
    };
    let dept = match draws.below(2) {
        0 => "food",
        _ => "toys",
    };
    row(alloc, draws.below(10) as i64, name, dept)
}

impl History {
    /// The history of the loaded events.
    pub(crate) fn of(alloc: Global, loaded: &Loaded) -> Result<History, AllocError> {
        let mut history = History {
            events: Vec::new(alloc),
            first: loaded.events.get().len(),
            last: 0,
            rows: Vec::new(alloc),
        };
        for event in loaded.events.get() {
            history.take(event.try_copy()?)?;
        }
        Ok(history)
    }

    // Adds the event.
    fn take(&mut self, event: Event) -> Result<(), AllocError> {
        match &event {
            Event::Start { values, at, .. } => {
                let values = values.try_copy()?;
                self.last = at.number();
                self.rows.push(Known {
                    values,
                    start: *at,
                    is_open: true,
                })?;
            }
            Event::End { row, at, .. } => {
                self.last = at.number();
                if let Some(known) = self.rows.get_mut(*row as usize) {
                    known.is_open = false;
                }
            }
        }
        self.events.push(event)?;
        Ok(())
    }

    // The first open row with these values that started before the instant, if there is one.
    fn open_row(&self, values: &Values, at: Instant) -> Option<u32> {
        let mut number: u32 = 0;
        for known in &self.rows {
            if known.is_open && known.start < at && known.values == *values {
                return Some(number);
            }
            number = number.saturating_add(1);
        }
        None
    }

    // Ends a row with these values, if one is open and `may_end` is set, or else starts one.
    fn happen(&mut self, values: Values, at: Instant, may_end: bool) -> Result<(), AllocError> {
        let event = match self.open_row(&values, at) {
            Some(row) if may_end => Event::End { table: 0, row, at },
            _ => Event::Start {
                table: 0,
                values,
                at,
            },
        };
        self.take(event)
    }

    /// The values of the table's row with this number.
    pub(crate) fn values(&self, row: u32) -> Option<&Values> {
        match self.rows.get(row as usize) {
            Some(known) => Some(&known.values),
            None => None,
        }
    }

    /// Ends cat at 40, and starts zed at 50 `starts` times.
    pub(crate) fn go_on(&mut self, alloc: Global, starts: u32) -> Result<(), AllocError> {
        if let (Some(end), Some(start)) = (Instant::new(40), Instant::new(50)) {
            self.happen(row(alloc, 3, "cat", "food")?, end, true)?;
            for _ in 0..starts {
                self.happen(row(alloc, 9, "zed", "toys")?, start, false)?;
            }
        }
        Ok(())
    }

    /// Adds `events` random events.
    pub(crate) fn go_on_at_random(
        &mut self,
        alloc: Global,
        draws: &mut Draws,
        events: u32,
    ) -> Result<(), AllocError> {
        for _ in 0..events {
            let values = random_row(alloc, draws)?;
            let may_end = draws.below(5) < 4;
            if let Some(at) = Instant::new(self.last.saturating_add(draws.below(3))) {
                self.happen(values, at, may_end)?;
            }
        }
        Ok(())
    }
}
