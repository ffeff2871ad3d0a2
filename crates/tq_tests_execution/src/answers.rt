//! Answers by the definition and by one worker.

use crate::as_of::print_random_as_of;
use crate::by_hand::{print_large, print_sources};
use crate::columns::print_columns;
use crate::fault::Fault;
use crate::instants::{asked, print_at, print_changes};
use crate::random::print_random;
use crate::tables::{answered_by_events, answered_by_tables};
use std::alloc::{AllocError, Global};
use std::fmt::Write;
use tq_event::MAX_EVENTS;
use tq_tests_script::{TableFiles, number_and, print_nothing, push_lines};

// The first word, and the text after it.
fn word_and(text: &str) -> (&str, &str) {
    text.split_once(' ').unwrap_or((text, ""))
}

// The rows at each of the instants, which are separated by commas.
fn print_instants(
    alloc: Global,
    files: &TableFiles,
    rest: &str,
    out: &mut String,
) -> Result<(), Fault> {
    let (instants, statement) = word_and(rest);
    let question = asked(alloc, files.copies(alloc)?, statement)?;
    for instant in instants.split(',') {
        let instant = instant.parse().unwrap_or(0);
        print_at(alloc, &question, MAX_EVENTS, instant, out)?;
    }
    Ok(())
}

fn print_as_of(
    alloc: Global,
    files: &TableFiles,
    rest: &str,
    out: &mut String,
) -> Result<(), Fault> {
    let (n, rest) = number_and(rest);
    let (instant, statement) = number_and(rest);
    let question = asked(alloc, files.copies(alloc)?, statement)?;
    print_at(alloc, &question, n, u64::from(instant), out)
}

fn print_same(
    alloc: Global,
    files: &TableFiles,
    statement: &str,
    out: &mut String,
) -> Result<(), Fault> {
    let by_events = answered_by_events(alloc, files.copies(alloc)?, statement)?;
    let by_tables = answered_by_tables(alloc, files.copies(alloc)?, statement)?;
    let same = by_events == by_tables;
    Ok(writeln!(out, "{same}")?)
}

// Runs a call by the definition.
fn ask(
    alloc: Global,
    files: &TableFiles,
    word: &str,
    rest: &str,
    out: &mut String,
) -> Result<(), Fault> {
    match word {
        "rows" => print_changes(alloc, &asked(alloc, files.copies(alloc)?, rest)?, out),
        "at" => print_instants(alloc, files, rest, out),
        "rows-as-of" => print_as_of(alloc, files, rest, out),
        "sources" => {
            let (tables, instant) = word_and(rest);
            let instant = instant.parse().unwrap_or(0);
            print_sources(alloc, files.copies(alloc)?, tables, instant, out)
        }
        "large" => {
            let (numbers, statement) = word_and(rest);
            print_large(alloc, files.copies(alloc)?, numbers, statement, out)
        }
        _ => Ok(print_nothing(out)?),
    }
}

// Runs a call by the definition or by one worker.
fn answer(
    alloc: Global,
    files: &TableFiles,
    word: &str,
    rest: &str,
    out: &mut String,
) -> Result<(), Fault> {
    match word {
        "answer" => {
            let text = answered_by_tables(alloc, files.copies(alloc)?, rest)?;
            Ok(push_lines(&text, out)?)
        }
        "columns" => print_columns(alloc, files.copies(alloc)?, rest, out),
        "same" => print_same(alloc, files, rest, out),
        "random" => {
            let (seed, rounds) = number_and(rest);
            print_random(alloc, u64::from(seed), rounds.parse().unwrap_or(0), out)
        }
        "random-as-of" => {
            let (seed, rounds) = number_and(rest);
            print_random_as_of(alloc, u64::from(seed), rounds.parse().unwrap_or(0), out)
        }
        _ => ask(alloc, files, word, rest, out),
    }
}

/// Runs a call over the files, or prints the fault.
pub(crate) fn call(
    alloc: Global,
    files: &TableFiles,
    word: &str,
    rest: &str,
    out: &mut String,
) -> Result<(), AllocError> {
    match answer(alloc, files, word, rest, out) {
        Ok(()) => Ok(()),
        Err(fault) => writeln!(out, "{fault}"),
    }
}
