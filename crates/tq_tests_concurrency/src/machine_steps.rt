//! Parsing of steps.

use std::alloc::{AllocError, Global};
use tq_base::{Instant, Value, Values};
use tq_core::Step;
use tq_event::Event;

/// A number, or a text.
pub(crate) fn value_of(alloc: Global, word: &str) -> Result<Value, AllocError> {
    match word.parse() {
        Ok(number) => Ok(Value::int(number)),
        Err(_) => Value::text(alloc, word),
    }
}

fn values_of(alloc: Global, words: &[&str]) -> Result<Values, AllocError> {
    let mut values = Vec::new(alloc);
    for word in words {
        values.push(value_of(alloc, word)?)?;
    }
    Ok(Values::of(values))
}

fn instant_of(word: &str) -> Option<Instant> {
    Instant::new(word.parse().ok()?)
}

/// The start of a row with the values of these words.
pub(crate) fn start_of(
    alloc: Global,
    table: u32,
    at: Instant,
    words: &[&str],
) -> Result<Step<()>, AllocError> {
    Ok(Step::Append(Event::Start {
        table,
        values: values_of(alloc, words)?,
        at,
    }))
}

// The end of a row of the table.
fn end_of(row: &str, at: &str) -> Option<Step<()>> {
    Some(Step::Append(Event::End {
        table: 0,
        row: row.parse().ok()?,
        at: instant_of(at)?,
    }))
}

// The step with these numbers, if it is not an event.
fn numbered(word: &str, numbers: &[u32]) -> Option<Step<()>> {
    match (word, numbers) {
        ("publish", []) => Some(Step::Publish),
        ("enter", [reader, at]) => Some(Step::Enter {
            reader: *reader,
            at: *at,
        }),
        ("learn", [reader, length]) => Some(Step::Learn {
            reader: *reader,
            length: *length,
        }),
        ("ask", [reader, n, pieces]) => Some(Step::Ask {
            reader: *reader,
            n: *n,
            query: (),
            pieces: *pieces,
        }),
        ("claim", [work, worker]) => Some(Step::Claim {
            work: *work,
            worker: *worker,
        }),
        ("finish", [work]) => Some(Step::Finish { work: *work }),
        _ => None,
    }
}

// The numbers of the words, up to the first word that is not a number.
fn numbers_of(alloc: Global, words: &[&str]) -> Result<Vec<u32>, AllocError> {
    let mut numbers = Vec::new(alloc);
    for word in words {
        match word.parse() {
            Ok(number) => numbers.push(number)?,
            Err(_) => return Ok(numbers),
        }
    }
    Ok(numbers)
}

// The step of the words, if they are one.
fn step_of(alloc: Global, words: &[&str]) -> Result<Option<Step<()>>, AllocError> {
    match words {
        ["start", table, at, values @ ..] => match (table.parse(), instant_of(at)) {
            (Ok(table), Some(at)) => Ok(Some(start_of(alloc, table, at, values)?)),
            _ => Ok(None),
        },
        ["end", row, at] => Ok(end_of(row, at)),
        [word, numbers @ ..] => Ok(numbered(word, &numbers_of(alloc, numbers)?)),
        [] => Ok(None),
    }
}

/// The steps of a line, separated by semicolons, if all are valid.
pub(crate) fn steps_of(alloc: Global, line: &str) -> Result<Option<Vec<Step<()>>>, AllocError> {
    let mut steps = Vec::new(alloc);
    for part in line.split(';') {
        let words: Vec<&str> = part.split_whitespace().collect(alloc)?;
        match step_of(alloc, &words)? {
            Some(step) => steps.push(step)?,
            None => return Ok(None),
        }
    }
    Ok(Some(steps))
}
