//! Random statements with one to four sources over small random tables, as of random counts of events. At random
//! instants their answers have exactly the rows of the definition.

use crate::agreeing::Seen;
use crate::fault::Fault;
use crate::instants::asked;
use crate::statements::{TEXTS, random_statement};
use std::alloc::{AllocError, Global};
use std::fmt::Write;
use tq_base::{FOREVER, List};
use tq_event::{FileBytes, TableFile};
use tq_exec::answer;
use tq_tests_script::Draws;

// A row with a key, a text and a number.
fn push_row(text: &mut String, draws: &mut Draws) -> Result<(), AllocError> {
    let key = draws.below(3);
    let content = draws.word(&TEXTS);
    let number = draws.below(5) as i64 - 2;
    let from = draws.below(16);
    write!(text, "{key},{content},{number},{from},")?;
    match draws.below(5) {
        0 => text.push_str("forever\n"),
        _ => {
            let to = from + 1 + draws.below(16);
            writeln!(text, "{to}")
        }
    }
}

// A table with up to `most` rows, and at least half of that; one in ten has none.
fn random_text(alloc: Global, draws: &mut Draws, most: u64) -> Result<String, AllocError> {
    let mut text = String::from_str(alloc, "k:int,v:text,w:int,from,to\n")?;
    let rows = match draws.below(10) {
        0 => 0,
        _ => most.saturating_sub(draws.below(most / 2)),
    };
    for _ in 0..rows {
        push_row(&mut text, draws)?;
    }
    Ok(text)
}

fn random_file(
    alloc: Global,
    draws: &mut Draws,
    name: &[u8],
    most: u64,
) -> Result<TableFile, AllocError> {
    let text = random_text(alloc, draws, most)?;
    Ok(TableFile {
        name: List::of(name.to_vec(alloc)?),
        bytes: FileBytes::of(text.as_bytes().to_vec(alloc)?),
    })
}

// The files of three tables with the same columns. With more sources they have fewer rows.
fn random_files(
    alloc: Global,
    draws: &mut Draws,
    sources: u64,
) -> Result<Vec<TableFile>, AllocError> {
    let most = match sources {
        1 => 14,
        2 => 10,
        3 => 6,
        _ => 4,
    };
    let mut files = Vec::new(alloc);
    for name in [b"a", b"b", b"c"] {
        files.push(random_file(alloc, draws, name, most)?)?;
    }
    Ok(files)
}

// The count of events: of some, or of all.
fn random_most(draws: &mut Draws) -> u32 {
    match draws.below(4) {
        0 => draws.below(60) as u32,
        _ => 100,
    }
}

fn random_instant(draws: &mut Draws) -> u64 {
    match draws.below(10) {
        0 => FOREVER - 1,
        _ => draws.below(28),
    }
}

// Compares the answer of a random statement as of a random count of events at five random instants.
fn see_one(alloc: Global, draws: &mut Draws, sources: u64, seen: &mut Seen) -> Result<(), Fault> {
    let files = random_files(alloc, draws, sources)?;
    let statement = random_statement(alloc, draws, sources)?;
    let question = asked(alloc, files, statement.as_str())?;
    let n = question.db.count().min(random_most(draws));
    let table = answer(alloc, &question.db, n, &question.plan)?;
    for _ in 0..5 {
        let instant = random_instant(draws);
        seen.see(alloc, &question.db, n, &question.plan, &table, instant)?;
    }
    Ok(())
}

/// Compares `rounds` statements. Prints the number of instants with differences, and whether there were more than 5,000
/// rows.
pub(crate) fn print_random(
    alloc: Global,
    seed: u64,
    rounds: u64,
    out: &mut String,
) -> Result<(), Fault> {
    let mut draws = Draws::new(seed);
    let mut seen = Seen::nothing();
    for round in 0..rounds {
        see_one(alloc, &mut draws, round % 4 + 1, &mut seen)?;
    }
    let many = seen.rows > 5000;
    writeln!(
        out,
        "{} answers differ from the definition",
        seen.differences
    )?;
    Ok(writeln!(out, "more than 5,000 rows: {many}")?)
}
