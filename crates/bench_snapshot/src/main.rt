//! Fills a store with one writer and four readers. The readers query it, each on a thread of its own, while the writer
//! rests or continues. It prints counts, and times only if there are words on the command line, so that each run
//! without words prints the same.
//!
//!     bench_snapshot                  2,000 rows and 100 queries, in each of these ways
//!     bench_snapshot db N             N rows in one `Db`
//!     bench_snapshot store N          N rows in a store, published by the thousand
//!     bench_snapshot rest N Q         the same, and Q queries of each reader while the writer rests
//!     bench_snapshot write N Q RATE   the same while the writer starts and ends rows, RATE lines a second, or
//!                                     without a limit (0), and publishes after each thousand of them
#![tactic(auto)]

ghost use Rattle.std.specs.Prelude.{◌≡◌, ◌≤◌, length};
ghost use Rattle.tq_event.specs.History.{IsHistory};

mod asking;
mod crowd;
mod rows;
mod writing;

use asking::Questions;
use crowd::{Outcome, READERS, run_session};
use rows::{fill_db, no_rows};
use std::alloc::Global;
use std::marker::Brand;
use std::sync::Wait;
use std::thread::Threads;
use std::time::Clock;
use std::{env, io};
use tq_event::{Loaded, MAX_EVENTS};
use tq_snapshot::{Opened, StoreId, open};
use writing::{Pace, fill_store};

/// Where rows are stored, and what is done with them.
#[derive(Clone, Copy, PartialEq, Eq)]
enum Way {
    Db,
    Store,
    Rest,
    Write,
}

/// The task: the ways, with the numbers of rows, of queries of each reader and of lines a second.
#[derive(Clone, Copy)]
struct Task {
    way: Option<Way>,
    questions: Questions,
    rate: u32,
}

// The way with this name.
fn way_of(word: &str) -> Option<Way> {
    match word {
        "db" => Some(Way::Db),
        "store" => Some(Way::Store),
        "rest" => Some(Way::Rest),
        "write" => Some(Way::Write),
        _ => None,
    }
}

// The task of the command line.
fn task_of(rt: &HostRuntime) -> anyhow::Result<Task> {
    let mut task = Task {
        way: None,
        questions: Questions {
            rows: 2000,
            count: 100,
        },
        rate: 0,
    };
    for (place, word) in env::args(rt)?.enumerate() {
        match place {
            1 => task.way = way_of(word.as_str()),
            2 => task.questions.rows = word.parse().unwrap_or(2000).min(8_000_000),
            3 => task.questions.count = word.parse().unwrap_or(100),
            4 => task.rate = word.parse().unwrap_or(0),
            _ => (),
        }
    }
    Ok(task)
}

// Prints what readers and writer did, with times if `timed` is set.
fn print_outcome(rt: &impl Print, outcome: &Outcome, timed: bool) -> io::Result<()> {
    println!(rt; "answers {}", outcome.asked.answers)?;
    println!(rt; "rows found {}", outcome.asked.rows)?;
    if timed {
        println!(rt; "lines written {}", outcome.lines)?;
        println!(rt; "microseconds {}", outcome.micros)?;
    }
    Ok(())
}

// Fills a store and lets the readers query it.
fn hold<J: StoreId + Send + Sync, R: Threads + Wait + Clock + Print + Sync>(
    rt: &R,
    alloc: Global,
    opened: Opened,
    loaded: Loaded,
    task: &Task,
    way: Way,
) -> anyhow::Result<()>
    requires named { (opened ≡ J.book) × (loaded.catalogue ≡ J.catalogue) }
    requires history { IsHistory loaded.catalogue loaded.events }
    requires few { length loaded.events ≤ 16777216 }
{
    let Loaded { catalogue, events } = loaded;
    let events = events.into_vec();
    let (mut writer, readers) = open::<J>(alloc, opened, catalogue, events, READERS, MAX_EVENTS)?;
    fill_store(rt, alloc, &mut writer, task.questions.rows)?;
    println!(rt; "events {}", writer.published())?;
    if way != Way::Store {
        let pace = if way == Way::Write {
            Pace::Rate(task.rate)
        } else {
            Pace::Rest
        };
        let outcome = run_session(rt, alloc, writer, readers, task.questions, pace)?;
        print_outcome(rt, &outcome, task.way.is_some())?;
    }
    Ok(())
}

// Runs the task in one way.
fn run<R: AllocGlobal + Threads + Wait + Clock + Print + Sync>(
    rt: &R,
    task: &Task,
    way: Way,
) -> anyhow::Result<()> {
    let alloc = rt.alloc();
    if way == Way::Db {
        println!(rt; "events {}", fill_db(alloc, task.questions.rows)?.count())?;
        return Ok(());
    }
    hold::<Brand, R>(rt, alloc, Opened::new(), no_rows(alloc)?, task, way)
}

fn main(rt: HostRuntime) -> anyhow::Result<()> {
    let task = task_of(&rt)?;
    match task.way {
        Some(way) => run(&rt, &task, way),
        None => {
            for way in [Way::Db, Way::Store, Way::Rest, Way::Write] {
                run(&rt, &task, way)?;
            }
            Ok(())
        }
    }
}
