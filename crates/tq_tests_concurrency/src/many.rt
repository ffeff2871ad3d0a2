//! Many rounds of steps in a world of eight readers.

use crate::machine_steps::start_of;
use crate::oracle::{Starts, world};
use crate::replies::print_replies;
use std::alloc::{AllocError, Global};
use std::fmt::Write;
use tq_base::Instant;
use tq_core::Step;
use tq_tests_script::print_nothing;

// Row `number` starts at the instant and is published; a reader enters after it and asks as of one event less.
fn push_round(
    alloc: Global,
    number: u32,
    at: Instant,
    steps: &mut Vec<Step<()>>,
) -> Result<(), AllocError> {
    let reader = number % 8;
    steps.push(start_of(alloc, 0, at, &["3", "cat", "food"])?)?;
    steps.push(Step::Publish)?;
    steps.push(Step::Enter { reader, at: number })?;
    steps.push(Step::Ask {
        reader,
        n: number.saturating_sub(1),
        query: (),
        pieces: 1,
    })?;
    Ok(())
}

fn rounds_of(alloc: Global, rounds: u32) -> Result<Vec<Step<()>>, AllocError> {
    let mut steps = Vec::new(alloc);
    for round in 0..rounds {
        let number = round.saturating_add(1);
        if let Some(at) = Instant::new(u64::from(number)) {
            push_round(alloc, number, at, &mut steps)?;
        }
    }
    Ok(steps)
}

// The replies to the rounds: a start is done, and the published length is the number of rounds so far.
fn push_wanted(rounds: u32, wanted: &mut String) -> Result<(), AllocError> {
    for round in 0..rounds {
        let number = round.saturating_add(1);
        writeln!(wanted, "done\nlength {number}")?;
        writeln!(wanted, "length {number}\nanswer {round}")?;
    }
    Ok(())
}

/// Prints the number of steps of `rounds` rounds, and whether their replies are the expected ones.
pub(crate) fn print_many(alloc: Global, rounds: u32, out: &mut String) -> Result<(), AllocError> {
    let Ok(mut world) = world(alloc, 8) else {
        return print_nothing(out);
    };
    let steps = rounds_of(alloc, rounds)?;
    let replies = world.run(&Starts, &steps)?;
    let mut printed = String::new(alloc);
    print_replies(&replies, &mut printed)?;
    let mut wanted = String::new(alloc);
    push_wanted(rounds, &mut wanted)?;
    let same = printed.as_str() == wanted.as_str();
    writeln!(out, "{} steps, replies as they follow: {same}", steps.len())
}
