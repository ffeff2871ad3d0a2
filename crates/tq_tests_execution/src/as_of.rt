//! Random events, and statements with one and two sources as of random counts of them. At random instants the answers
//! have exactly the rows of the definition.

ghost use Rattle.std.specs.Prelude.{IfOk};
ghost use Rattle.tq_plan.specs.ValidPlans.{IsPlanOver};

use crate::agreeing::Seen;
use crate::fault::Fault;
use crate::instants::asked;
use crate::statements::{TEXTS, random_statement};
use std::alloc::{AllocError, Global};
use std::fmt::Write;
use tq_base::{Form, Instant, List, Value, Values};
use tq_event::{Event, FileBytes, MAX_EVENTS, TableFile};
use tq_exec::answer;
use tq_plan::{Plan, plan};
use tq_sql::read;
use tq_store::Db;
use tq_tests_script::Draws;

const HEADER: &[u8] = b"k:int,v:text,w:int,from,to\n";

// A history of three tables, the number of rows of each, and the instant of the last event.
#[derive(Drop)]
struct Known {
    db: Db,
    rows: [u32; 3],
    last: u64,
}

fn headers(alloc: Global) -> Result<Vec<TableFile>, AllocError> {
    let mut files = Vec::new(alloc);
    for name in [b"a", b"b", b"c"] {
        files.push(TableFile {
            name: List::of(name.to_vec(alloc)?),
            bytes: FileBytes::of(HEADER.to_vec(alloc)?),
        })?;
    }
    Ok(files)
}

// The values of a row: a key, a text and a number.
fn random_values(alloc: Global, draws: &mut Draws) -> Result<Values, AllocError> {
    let mut values = Vec::new(alloc);
    values.push(Value::int(draws.below(4) as i64))?;
    values.push(Value::text(alloc, draws.word(&TEXTS))?)?;
    values.push(Value::int(draws.below(5) as i64 - 2))?;
    Ok(Values::of(values))
}

impl Known {
    // Tables without rows.
    fn new(alloc: Global) -> Result<Known, Fault> {
        let question = asked(alloc, headers(alloc)?, "VALIDTIME SELECT k FROM a")?;
        Ok(Known {
            db: question.db,
            rows: [0, 0, 0],
            last: 0,
        })
    }

    // A start, or the end of one of the last rows of a table, which may have ended or have started at this instant.
    fn random_event(&self, alloc: Global, draws: &mut Draws) -> Result<Option<Event>, AllocError> {
        let place = draws.below(3) as usize % 3;
        let at = self.last.saturating_add(draws.below(2));
        let Some(at) = Instant::new(at) else {
            return Ok(None);
        };
        let table = place as u32;
        match draws.below(4) {
            0 => Ok(Some(Event::Start {
                table,
                values: random_values(alloc, draws)?,
                at,
            })),
            _ => {
                let back = draws.below(12) as u32;
                let row = self.rows[place].saturating_sub(back);
                Ok(Some(Event::End { table, row, at }))
            }
        }
    }

    fn note(&mut self, event: &Event) {
        match event {
            Event::Start { table, at, .. } => {
                let table = *table as usize % 3;
                self.rows[table] = self.rows[table].saturating_add(1);
                self.last = at.number();
            }
            Event::End { at, .. } => self.last = at.number(),
        }
    }

    // Adds a random event if it is admissible.
    fn take_one(&mut self, alloc: Global, draws: &mut Draws) -> Result<(), AllocError> {
        if let Some(event) = self.random_event(alloc, draws)? {
            if self.db.count() < MAX_EVENTS && self.db.apply(&event)? {
                self.note(&event);
            }
        }
        Ok(())
    }

    fn random_plan(&self, alloc: Global, draws: &mut Draws) -> Result<Plan, Fault>
        ensures { IfOk result (IsPlanOver self.now.db.catalogue) }
    {
        let sources = draws.below(2) + 1;
        let statement = random_statement(alloc, draws, sources)?;
        let statement = read(alloc, statement.as_bytes())?;
        Ok(plan(alloc, self.db.catalogue(), &statement, Form::Numbers)?)
    }

    // Compares the answer of a random statement as of a random count of events at three random instants.
    fn see_one(&self, alloc: Global, draws: &mut Draws, seen: &mut Seen) -> Result<(), Fault> {
        let plan = self.random_plan(alloc, draws)?;
        let count = self.db.count();
        let n = count.min(draws.below(u64::from(count) + 1) as u32);
        let table = answer(alloc, &self.db, n, &plan)?;
        for _ in 0..3 {
            let instant = draws.below(self.last.saturating_add(2));
            seen.see(alloc, &self.db, n, &plan, &table, instant)?;
        }
        Ok(())
    }
}

/// Draws `rounds` random events, and compares a random statement after every twelve of them. Prints the number of
/// instants with differences, and whether there were 1,000 admissible events and more than 100 rows.
pub(crate) fn print_random_as_of(
    alloc: Global,
    seed: u64,
    rounds: u64,
    out: &mut String,
) -> Result<(), Fault> {
    let mut draws = Draws::new(seed);
    let mut known = Known::new(alloc)?;
    let mut seen = Seen::nothing();
    for round in 0..rounds {
        known.take_one(alloc, &mut draws)?;
        if round % 12 == 11 {
            known.see_one(alloc, &mut draws, &mut seen)?;
        }
    }
    let many = known.db.count() >= 1000;
    let some = seen.rows > 100;
    writeln!(
        out,
        "{} answers differ from the definition",
        seen.differences
    )?;
    writeln!(out, "a thousand events: {many}")?;
    Ok(writeln!(out, "more than 100 rows: {some}")?)
}
