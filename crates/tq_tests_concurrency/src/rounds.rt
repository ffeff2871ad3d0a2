//! The calls of a store.

ghost use Rattle.std.specs.Prelude.{IfSome};
ghost use Rattle.tq_plan.specs.ValidPlans.{IsPlanOver};

use crate::around::print_around;
use crate::crowd::{Seen, gather};
use crate::history::{History, loaded};
use crate::steps::play;
use std::alloc::{AllocError, Global};
use std::fmt::Write;
use std::marker::Brand;
use std::sync::Wait;
use std::thread::Threads;
use tq_base::{Catalogue, Form};
use tq_event::Loaded;
use tq_plan::{Plan, plan};
use tq_snapshot::Opened;
use tq_sql::read;
use tq_tests_script::{Block, Draws, TableFiles, number_and, print_nothing, push_first_lines};

/// At most this many lines of an answer are printed.
pub(crate) const MAX_SHOWN: usize = 4;

const NAMES: &str = "VALIDTIME SELECT name FROM emp";

// The statements over random events.
const STATEMENTS: [&str; 6] = [
    "VALIDTIME SELECT name, dept FROM emp",
    "VALIDTIME SELECT dept, COUNT(*) FROM emp GROUP BY dept",
    "VALIDTIME SELECT COUNT(*) FROM emp WHERE dept <> 'food'",
    "VALIDTIME SELECT dept, SUM(emp) FROM emp WHERE emp > 3 GROUP BY dept",
    "VALIDTIME SELECT x.name, y.emp FROM emp x, emp y WHERE x.emp = y.emp AND x.dept <> y.dept",
    "VALIDTIME SELECT dept FROM emp EXCEPT ALL SELECT dept FROM emp WHERE name = 'ann'",
];

/// How a writer ends after its events are published.
#[derive(Clone, Copy, PartialEq, Eq)]
pub(crate) enum Ending {
    Stays,
    Goes,
    Closes,
}

/// A concurrent round: the statement, and the numbers of readers and of queries of each. `fixed` is the count of events
/// and the number of workers of each query, which are random otherwise. The writer appends `events` events, and then ends.
#[derive(Clone, Copy)]
pub(crate) struct Round<'a> {
    pub(crate) statement: &'a str,
    pub(crate) fixed: Option<(u32, u32)>,
    pub(crate) readers: u32,
    pub(crate) asks: u32,
    pub(crate) events: u32,
    pub(crate) ending: Ending,
    pub(crate) seed: u64,
}

// The round of a call with this word and these numbers, if there is one.
fn round_of(word: &str, first: u32, second: u32, third: u32) -> Option<Round<'static>> {
    let place = first as usize % 6;
    let asked = Round {
        statement: NAMES,
        fixed: Some((first, second)),
        readers: 2,
        asks: third,
        events: 1000,
        ending: Ending::Stays,
        seed: 1,
    };
    match word {
        "ask" => Some(asked),
        "leave" => Some(Round {
            events: 100,
            ending: Ending::Goes,
            ..asked
        }),
        "close" => Some(Round {
            events: 100,
            ending: Ending::Closes,
            ..asked
        }),
        "soak" => Some(Round {
            statement: STATEMENTS[place],
            fixed: None,
            readers: 8,
            events: second,
            seed: u64::from(first),
            ..asked
        }),
        _ => None,
    }
}

/// The plan of the statement, if it has one.
pub(crate) fn planned(alloc: Global, catalogue: &Catalogue, statement: &str) -> Option<Plan>
    ensures { IfSome result (IsPlanOver catalogue.now) }
{
    let Ok(statement) = read(alloc, statement.as_bytes()) else {
        return None;
    };
    match plan(alloc, catalogue, &statement, Form::Numbers) {
        Ok(plan) => Some(plan),
        Err(_) => None,
    }
}

// A history with the events that the round's writer appends.
fn history_of(alloc: Global, loaded: &Loaded, round: &Round<'_>) -> Result<History, AllocError> {
    let mut history = History::of(alloc, loaded)?;
    match round.fixed {
        Some(_) => history.go_on(alloc, round.events)?,
        None => {
            let mut draws = Draws::new(round.seed);
            history.go_on_at_random(alloc, &mut draws, round.events)?
        }
    }
    Ok(history)
}

// Runs the round over a store of the files' events, if these and the statement are valid and a store can be opened.
fn hold<R: Threads + Wait + Sync>(
    rt: &R,
    alloc: Global,
    files: &TableFiles,
    round: &Round<'_>,
) -> Result<Option<Seen>, AllocError> {
    let Ok(loaded) = loaded(alloc, files.copies(alloc)?) else {
        return Ok(None);
    };
    let Some(plan) = planned(alloc, &loaded.catalogue, round.statement) else {
        return Ok(None);
    };
    let history = history_of(alloc, &loaded, round)?;
    gather::<Brand, R>(rt, alloc, Opened::new(), loaded, &history, &plan, round)
}

fn print_seen(seen: &Seen, round: &Round<'_>, out: &mut String) -> Result<(), AllocError> {
    let (asks, publishes, differences) = (seen.asks, seen.publishes, seen.differences);
    writeln!(
        out,
        "{asks} asks, {publishes} publishes, {differences} differences"
    )?;
    if let Some(found) = seen.found {
        writeln!(out, "{found} events")?;
    }
    match round.fixed {
        Some(_) if round.ending == Ending::Stays => push_first_lines(&seen.text, MAX_SHOWN, out),
        _ => Ok(()),
    }
}

fn print_round<R: Threads + Wait + Sync>(
    rt: &R,
    alloc: Global,
    files: &TableFiles,
    round: &Round<'_>,
    out: &mut String,
) -> Result<(), AllocError> {
    match hold(rt, alloc, files, round)? {
        Some(seen) => print_seen(&seen, round, out),
        None => out.push_str("no store\n"),
    }
}

// Prints the results of the steps of a store, which has the given numbers of readers and of events at most.
fn print_steps<R: Threads + Wait + Sync>(
    rt: &R,
    alloc: Global,
    files: &TableFiles,
    block: &Block,
    out: &mut String,
) -> Result<(), AllocError> {
    let (readers, rest) = number_and(block.arguments());
    let limit = number_and(rest).0;
    let steps = block.input.as_slice();
    match loaded(alloc, files.copies(alloc)?) {
        Ok(loaded) => play::<Brand, R>(
            rt,
            alloc,
            Opened::new(),
            loaded,
            readers,
            limit,
            steps,
            out,
        ),
        Err(_) => out.push_str("no store\n"),
    }
}

/// Runs the steps of a store, a query around a start, or a round.
pub(crate) fn call<R: Threads + Wait + Sync>(
    rt: &R,
    alloc: Global,
    files: &TableFiles,
    block: &Block,
    out: &mut String,
) -> Result<(), AllocError> {
    match block.word() {
        "open" => return print_steps(rt, alloc, files, block, out),
        "around" => return print_around(rt, alloc, files, block.arguments(), out),
        _ => {}
    }
    let (first, rest) = number_and(block.arguments());
    let (second, rest) = number_and(rest);
    match round_of(block.word(), first, second, number_and(rest).0) {
        Some(round) => print_round(rt, alloc, files, &round, out),
        None => print_nothing(out),
    }
}
