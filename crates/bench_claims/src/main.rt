//! Runs pieces of a known cost in several ways and prints the results. It prints no times, so every run prints the
//! same; `bench/claims.py` times it from outside.
//!
//!     bench_claims loop N      N steps in a plain loop
//!     bench_claims here N      the same steps as pieces on the calling thread
//!     bench_claims with N W    the same pieces with W workers
//!     bench_claims start N W   N runs of W workers, with one piece for each worker
//!     bench_claims             a little of each
#![tactic(auto)]

ghost use Rattle.std.specs.Prelude.{◌≤◌, ◌^◌, ◌*◌};

use std::alloc::{AllocError, Global};
use std::thread::Threads;
use std::{env, io};
use tq_run::{Open, Work, run_here, run_with};

// The result of one step: a few instructions, so that the overhead of a piece is visible.
fn mixed(i: u32) -> u32 {
    (i ^ (i >> 3)).wrapping_mul(2654435761)
}

// Pieces of one step each.
#[derive(Drop)]
struct Steps {
    pieces: u32,
}

impl Work for Steps {
    type Out = u32;

    ghost count = { λ s. s.pieces };

    ghost relates = { λ _ _ _. Unit {0} };

    fn pieces(&self) -> u32 {
        self.pieces
    }

    fn run(&self, i: u32) -> Result<u32, AllocError> {
        Ok(mixed(i))
    }
}

// All results as one number, which depends on their order.
fn digest(results: &[u32]) -> u32 {
    let mut digest = 0u32;
    for x in results {
        digest = mixed(digest ^ *x);
    }
    digest
}

// The steps in a plain loop.
fn run_loop(alloc: Global, steps: u32) -> Result<Vec<u32>, AllocError> {
    let mut results = Vec::new(alloc);
    for i in 0..steps {
        results.push(mixed(i))?;
    }
    Ok(results)
}

// The number of runs that succeeded, each with as many pieces as workers.
fn started<R: Threads + Sync>(rt: &R, alloc: Global, runs: u32, workers: u32) -> u32
    requires { (1 ≤ workers) × (workers ≤ 16) }
{
    let mut given = 0u32;
    for _ in 0..runs {
        if run_with(rt, alloc, workers, &Steps { pieces: workers }, &Open).is_ok() {
            given = given.saturating_add(1);
        }
    }
    given
}

// A number of the command line, at most `most`; 0 if the word is missing or not a number.
fn number(word: Option<&String>, most: u32) -> u32
    ensures { result ≤ most }
{
    match word {
        Some(word) => word.parse().unwrap_or(0).min(most),
        None => 0,
    }
}

fn print_digest(rt: &impl Print, name: &str, results: &[u32]) -> io::Result<()> {
    println!(rt;
        "{name}: {} results, digest {}",
        results.len(),
        digest(results)
    )
}

// A little of each way. Ways with the same steps print the same digest.
fn print_all<R: Threads + Sync + Print>(rt: &R, alloc: Global) -> io::Result<()> {
    let steps = Steps { pieces: 1000 };
    print_digest(rt, "loop", run_loop(alloc, 1000)?.as_slice())?;
    print_digest(rt, "here", run_here(alloc, &steps)?.as_slice())?;
    for workers in [1, 2, 7, 16] {
        let results = run_with(rt, alloc, workers, &steps, &Open)?;
        print_digest(rt, "with", results.as_slice())?;
    }
    println!(rt; "start: {} runs", started(rt, alloc, 3, 16))
}

fn main(rt: HostRuntime) -> io::Result<()> {
    let mut words = Vec::new(rt.alloc());
    for word in env::args(&rt)? {
        words.push(word)?;
    }
    let size = number(words.get(2), 1 << 30);
    let workers = number(words.get(3), 16).max(1);
    let steps = Steps { pieces: size };
    match words.get(1).map_or("", |word| word.as_str()) {
        "loop" => print_digest(&rt, "loop", run_loop(rt.alloc(), size)?.as_slice()),
        "here" => print_digest(&rt, "here", run_here(rt.alloc(), &steps)?.as_slice()),
        "with" => {
            let results = run_with(&rt, rt.alloc(), workers, &steps, &Open)?;
            print_digest(&rt, "with", results.as_slice())
        }
        "start" => println!(rt; "start: {} runs", started(&rt, rt.alloc(), size, workers)),
        _ => print_all(&rt, rt.alloc()),
    }
}
