//! Fills a history with rows, queries the rows of some keys at some instants as of some counts, and prints counts.
//!
//!     bench_store            2,000 rows, and 100 queries, both ways
//!     bench_store fill N     N rows: N starts, and N ends
//!     bench_store ask N Q    the same, and Q statements, parsed, planned and executed
//!     bench_store read N Q   the same, and only the rows of Q queries, with the number of nodes that are read
//!
//! Each key has four rows, one after the other.
#![tactic(auto)]

mod fill;
mod questions;

use fill::fill;
use questions::{Found, ask, count_levels};
use std::env;

/// The task, with the numbers of rows and queries.
#[derive(Clone, Copy)]
struct Task {
    rows: u32,
    questions: u32,
    asks: bool,
    reads: bool,
}

// The task of the command line.
fn task_of(rt: &HostRuntime) -> anyhow::Result<Task> {
    let mut task = Task {
        rows: 2000,
        questions: 100,
        asks: true,
        reads: true,
    };
    for (place, word) in env::args(rt)?.enumerate() {
        if place == 1 {
            task.asks = word.as_str() == "ask";
            task.reads = word.as_str() == "read";
        } else if place == 2 {
            task.rows = word.parse().unwrap_or(2000).min(8_000_000);
        } else if place == 3 {
            task.questions = word.parse().unwrap_or(100);
        }
    }
    Ok(task)
}

fn print_found(rt: &HostRuntime, found: &Found) -> anyhow::Result<()> {
    println!(rt; "rows found {}", found.rows)?;
    println!(rt; "numbers found {}", found.numbers)?;
    Ok(())
}

fn main(rt: HostRuntime) -> anyhow::Result<()> {
    let alloc = rt.alloc();
    let task = task_of(&rt)?;
    let db = fill(alloc, task.rows)?;
    println!(rt; "events {}", db.count())?;
    println!(rt; "levels {}", count_levels(&db)?)?;
    if task.asks {
        print_found(&rt, &ask(alloc, &db, task.questions, true)?)?;
    }
    if task.reads {
        let found = ask(alloc, &db, task.questions, false)?;
        print_found(&rt, &found)?;
        println!(rt; "nodes read {}", found.reads)?;
    }
    Ok(())
}
