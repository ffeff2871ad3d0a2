//! Queries of some neighbouring keys at one instant, as of random counts of events.

use crate::fill::ROWS_OF_A_KEY;
use std::alloc::{AllocError, Global};
use tq_arena::Meter;
use tq_base::{Bound, Form, Instant, KeyRange, Period, ValueRef};
use tq_exec::answer;
use tq_plan::plan;
use tq_sql::read;
use tq_store::Db;
use tq_table::Table;

/// The number of neighbouring keys of a query.
const NEIGHBOURS: u32 = 250;

/// The results of queries: rows, the sum of their numbers, and the nodes read, if these are counted.
#[derive(Drop)]
pub struct Found {
    pub rows: u64,
    pub numbers: u64,
    pub reads: u64,
}

impl Found {
    fn nothing() -> Found {
        Found {
            rows: 0,
            numbers: 0,
            reads: 0,
        }
    }

    // Adds a row with this number.
    fn add(&mut self, number: u64) {
        self.rows = self.rows.saturating_add(1);
        self.numbers = self.numbers.saturating_add(number);
    }
}

/// A linear congruential generator.
#[derive(Drop)]
struct Draws {
    state: u64,
}

impl Draws {
    // The next number below the limit.
    fn next(&mut self, limit: u32) -> u32 {
        self.state = self
            .state
            .wrapping_mul(6364136223846793005)
            .wrapping_add(1442695040888963407);
        ((self.state >> 32) % u64::from(limit.max(1))) as u32
    }
}

/// A query: the count of events, the range of keys, and the period.
#[derive(Clone, Copy)]
struct Question {
    n: u32,
    range: KeyRange,
    period: Period,
}

// The next query of a history of `events` events, each at the instant of its number.
fn draw(draws: &mut Draws, events: u32) -> Option<Question> {
    let keys = events / 2 / ROWS_OF_A_KEY;
    let n = draws.next(events);
    let at = u64::from(draws.next(events));
    let low = i64::from(draws.next(keys.saturating_sub(NEIGHBOURS)));
    let end = Bound::new(at.checked_add(1)?)?;
    Some(Question {
        n,
        range: KeyRange::new(low, low.checked_add(i64::from(NEIGHBOURS) - 1)?)?,
        period: Period::new(Instant::new(at)?, end)?,
    })
}

// Reads the rows of the first table, and counts the nodes that are read.
fn read_one(
    db: &Db,
    question: &Question,
    meter: &mut Meter,
    found: &mut Found,
) -> Result<(), AllocError> {
    let Question { n, range, period } = question;
    if *n > db.count() || db.catalogue().tables.get().is_empty() {
        return Ok(());
    }
    let window = db.window(*n, 0, range, period);
    let rows = db.rows_part(*n, 0, range, period, &window.whole(), meter)?;
    for row in &rows {
        found.add(u64::from(row.row));
    }
    Ok(())
}

/// The number of levels of the first table's tree in the middle of the history. A query of one key at one instant reads
/// one node of each level.
pub fn count_levels(db: &Db) -> anyhow::Result<u64> {
    let n = db.count();
    let at = u64::from(n / 2);
    let mut meter = Meter::new();
    if let (Some(start), Some(end)) = (Instant::new(at), Bound::new(at + 1))
        && let (Some(range), Some(period)) = (KeyRange::new(0, 0), Period::new(start, end))
    {
        let question = Question { n, range, period };
        read_one(db, &question, &mut meter, &mut Found::nothing())?;
    }
    Ok(meter.count())
}

// Adds the numbers in the table's first column.
fn add_numbers(table: &Table<'_>, found: &mut Found) {
    for line in 0..table.rows.len() {
        match table.rows.row(line).value(0).as_ref() {
            ValueRef::Int(number) => found.add(u64::try_from(number).unwrap_or(0)),
            ValueRef::Text(_) => found.add(0),
        }
    }
}

// Executes a statement for the same rows.
fn answer_one(
    alloc: Global,
    db: &Db,
    question: &Question,
    found: &mut Found,
) -> anyhow::Result<()> {
    let Question { n, range, period } = question;
    if *n > db.count() {
        return Ok(());
    }
    let (from, to) = (period.start.number(), period.end.number());
    let (low, high) = (range.low, range.high);
    let statement = format!(in alloc;
        "VALIDTIME PERIOD '[{from} - {to})' SELECT number FROM rows WHERE key >= {low} AND key <= {high}"
    )?;
    let plan = plan(
        alloc,
        db.catalogue(),
        &read(alloc, statement.as_bytes())?,
        Form::Numbers,
    )?;
    let table = answer(alloc, db, *n, &plan)?;
    add_numbers(&table, found);
    Ok(())
}

/// Runs `count` queries: as statements, or reading only their rows and counting the nodes that are read.
pub fn ask(alloc: Global, db: &Db, count: u32, answered: bool) -> anyhow::Result<Found> {
    let mut draws = Draws { state: 12345 };
    let mut meter = Meter::new();
    let mut found = Found::nothing();
    for _ in 0..count {
        if let Some(question) = draw(&mut draws, db.count()) {
            if answered {
                answer_one(alloc, db, &question, &mut found)?;
            } else {
                read_one(db, &question, &mut meter, &mut found)?;
            }
        }
    }
    found.reads = meter.count();
    Ok(found)
}
