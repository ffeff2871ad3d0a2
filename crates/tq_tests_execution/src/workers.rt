//! Answers by several workers.

use crate::asking::{Question, Way, ask};
use crate::making::random_files;
use crate::seen::Seen;
use std::alloc::{AllocError, Global};
use std::thread::Threads;
use tq_run::Open;
use tq_tests_script::{Draws, TableFiles, Turns, number_and, print_nothing};

// The number of random tables.
const TABLES: u32 = 50;

// The number of workers and the statement, for all calls.
fn question_of(text: &str) -> Question<'_> {
    let (workers, statement) = number_and(text);
    Question {
        only: None,
        workers,
        statement,
    }
}

fn print_answers<R: Threads + Sync>(
    rt: &R,
    alloc: Global,
    files: &TableFiles,
    text: &str,
    out: &mut String,
) -> Result<(), AllocError> {
    let mut seen = Seen::new(alloc);
    ask(rt, alloc, files, &question_of(text), &Open, &mut seen)?;
    seen.print(true, out)
}

fn print_random<R: Threads + Sync>(
    rt: &R,
    alloc: Global,
    text: &str,
    out: &mut String,
) -> Result<(), AllocError> {
    let (seed, text) = number_and(text);
    let question = question_of(text);
    let mut draws = Draws::new(u64::from(seed));
    let mut seen = Seen::new(alloc);
    for _ in 0..TABLES {
        let files = random_files(alloc, &mut draws)?;
        ask(rt, alloc, &files, &question, &Open, &mut seen)?;
    }
    seen.print(false, out)
}

fn print_gated<R: Threads + Sync>(
    rt: &R,
    alloc: Global,
    files: &TableFiles,
    text: &str,
    out: &mut String,
) -> Result<(), AllocError> {
    let (word, statement) = text.split_once(' ').unwrap_or((text, ""));
    let way = match word {
        "among" => Way::Among,
        "ranges" => Way::Ranges,
        "text" => Way::Text,
        _ => Way::With,
    };
    let question = Question {
        only: Some(way),
        workers: 2,
        statement,
    };
    let gate = Turns::new(true);
    let mut seen = Seen::new(alloc);
    ask(rt, alloc, files, &question, &gate, &mut seen)?;
    gate.print(out)?;
    seen.print(true, out)
}

/// Runs a call by several workers over the files.
pub(crate) fn call<R: Threads + Sync>(
    rt: &R,
    alloc: Global,
    files: &TableFiles,
    word: &str,
    text: &str,
    out: &mut String,
) -> Result<(), AllocError> {
    match word {
        "compare" => print_answers(rt, alloc, files, text, out),
        "compare-random" => print_random(rt, alloc, text, out),
        "gated" => print_gated(rt, alloc, files, text, out),
        _ => print_nothing(out),
    }
}
