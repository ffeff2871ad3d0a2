//! The history of a script, and its calls.

use crate::asking::{instant_of, question_of};
use crate::opening::{print_open, random_open};
use crate::parting::print_parts;
use crate::printing::{print_list, print_reads, print_rows, print_version};
use crate::random::random_rows;
use std::alloc::{AllocError, Global};
use std::fmt::Write;
use tq_base::{Catalogue, FOREVER, Form, Instant, List, Value, Values};
use tq_event::{Event, MAX_EVENTS, TableFile, load};
use tq_store::Db;
use tq_tests_script::print_nothing;

/// The history, and the events of its files that are not applied yet.
#[derive(Drop)]
pub(crate) struct Histories {
    db: Db,
    events: List<Event>,
    taken: usize,
}

// The output for an event that is admissible, was taken, and is one more.
const HAPPENS: &str = "it happens";

// The number of a word.
fn number_of(word: &str) -> Option<i64> {
    match word {
        "least" => Some(i64::MIN),
        "most" => Some(i64::MAX),
        "forever" => Some(FOREVER as i64),
        _ => word.parse().ok(),
    }
}

// The numbers of the words, up to the first that is not a number.
fn numbers_of(alloc: Global, words: &str) -> Result<Vec<i64>, AllocError> {
    let mut numbers = Vec::new(alloc);
    for word in words.split_whitespace() {
        match number_of(word) {
            Some(number) => numbers.push(number)?,
            None => return Ok(numbers),
        }
    }
    Ok(numbers)
}

// The number, or 0 if it is negative.
fn long(number: i64) -> u64 {
    u64::try_from(number).unwrap_or(0)
}

// The start of a row with these numbers in the table.
fn start_of(alloc: Global, table: i64, at: Instant, numbers: &[i64]) -> Result<Event, AllocError> {
    let mut values = Vec::new(alloc);
    for number in numbers {
        values.push(Value::int(*number))?;
    }
    Ok(Event::Start {
        table: u32::try_from(table).unwrap_or(u32::MAX),
        values: Values::of(values),
        at,
    })
}

// The event of these numbers: `start TABLE AT NUMBER..`, or `end TABLE ROW AT`.
fn event_of(alloc: Global, word: &str, numbers: &[i64]) -> Result<Option<Event>, AllocError> {
    match (word, numbers) {
        ("start", [table, at, values @ ..]) => match instant_of(*at) {
            Some(at) => Ok(Some(start_of(alloc, *table, at, values)?)),
            None => Ok(None),
        },
        ("end", [table, row, at]) => Ok(instant_of(*at).map(|at| Event::End {
            table: u32::try_from(*table).unwrap_or(u32::MAX),
            row: u32::try_from(*row).unwrap_or(u32::MAX),
            at,
        })),
        _ => Ok(None),
    }
}

// Applies the event if it is admissible. Whether it was taken, and whether this was predicted.
fn happens(db: &mut Db, event: &Event) -> Result<&'static str, AllocError> {
    let admitted = db.admits(event);
    let before = db.count();
    if before >= MAX_EVENTS {
        return Ok("there are too many events");
    }
    let taken = db.apply(event)?;
    let more = db.count().saturating_sub(before);
    Ok(match (admitted, taken, more) {
        (true, true, 1) => HAPPENS,
        (false, false, 0) => "it may not happen",
        _ => "it happens in part",
    })
}

impl Histories {
    /// No history.
    pub(crate) fn new(alloc: Global) -> Result<Histories, AllocError> {
        let none = List::of(Vec::new(alloc));
        Ok(Histories {
            db: Db::new(alloc, Catalogue { tables: none })?,
            events: List::of(Vec::new(alloc)),
            taken: 0,
        })
    }

    /// A new history of the files' tables.
    pub(crate) fn load(
        &mut self,
        alloc: Global,
        files: Vec<TableFile>,
        out: &mut String,
    ) -> Result<(), AllocError> {
        match load(alloc, files, MAX_EVENTS, Form::Numbers) {
            Ok(loaded) => {
                self.db = Db::new(alloc, loaded.catalogue)?;
                self.events = loaded.events;
                self.taken = 0;
                Ok(())
            }
            Err(fault) => writeln!(out, "{fault}"),
        }
    }

    // Applies the next events of the files; how many were taken.
    fn take(&mut self, count: i64, out: &mut String) -> Result<(), AllocError> {
        let count = usize::try_from(count).unwrap_or(0);
        let mut happened: u32 = 0;
        for event in self.events.get().iter().skip(self.taken).take(count) {
            if happens(&mut self.db, event)? == HAPPENS {
                happened = happened.saturating_add(1);
            }
        }
        self.taken = self.taken.saturating_add(count);
        writeln!(out, "{happened} events happen")
    }

    // Prints the rows of a query, or of all keys, as one list.
    fn list(&self, alloc: Global, numbers: &[i64], out: &mut String) -> Result<(), AllocError> {
        let question = match numbers {
            [n, table, start, end] => {
                question_of(&[*n, *table, i64::MIN, i64::MAX, *start, *end])
            }
            _ => question_of(numbers),
        };
        match question {
            Some(it) if it.n <= self.db.count() => {
                let rows = self
                    .db
                    .rows_in(alloc, it.n, it.table, &it.range, &it.period)?;
                print_list(&rows.copied(alloc)?, out)
            }
            _ => print_nothing(out),
        }
    }

    // Runs a call that queries.
    fn ask(
        &self,
        alloc: Global,
        word: &str,
        numbers: &[i64],
        out: &mut String,
    ) -> Result<(), AllocError> {
        match (word, numbers) {
            ("count", []) => writeln!(out, "{}", self.db.count()),
            ("version", [n, at]) => print_version(&self.db, *n, *at, out),
            ("reads", [n, at]) => print_reads(&self.db, *n, *at, out),
            ("list", _) => self.list(alloc, numbers, out),
            ("parts", _) => print_parts(alloc, &self.db, numbers, out),
            ("rows", _) => match question_of(numbers) {
                Some(question) => print_rows(&self.db, &question, out),
                None => print_nothing(out),
            },
            ("open", [table, key, at]) => print_open(alloc, &self.db, [*table, *key, *at], out),
            _ => Ok(()),
        }
    }

    // Runs a call that changes or queries.
    fn answer(
        &mut self,
        alloc: Global,
        word: &str,
        numbers: &[i64],
        out: &mut String,
    ) -> Result<(), AllocError> {
        match (word, numbers) {
            ("take", [count]) => self.take(*count, out),
            ("start" | "end", _) => match event_of(alloc, word, numbers)? {
                Some(event) => {
                    let said = happens(&mut self.db, &event)?;
                    writeln!(out, "{said}")
                }
                None => print_nothing(out),
            },
            ("random-rows", [seed, rounds]) => {
                random_rows(alloc, long(*seed), long(*rounds), out)
            }
            ("random-open", [seed, rounds]) => {
                random_open(alloc, long(*seed), long(*rounds), out)
            }
            _ => self.ask(alloc, word, numbers, out),
        }
    }

    /// Runs a call for the history.
    pub(crate) fn call(
        &mut self,
        alloc: Global,
        word: &str,
        rest: &str,
        out: &mut String,
    ) -> Result<(), AllocError> {
        self.answer(alloc, word, &numbers_of(alloc, rest)?, out)
    }
}
