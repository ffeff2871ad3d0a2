//! Pieces of work, with failing allocations.

use std::alloc::{AllocError, Global};
use std::fmt::Write;
use std::sync::Wait;
use std::thread::Threads;
use tq_run::{Open, Work, run_with};
use tq_tests_script::{Call, Refusal, Tried, attempt};

// The square of each piece's number.
#[derive(Drop)]
struct Squares;

impl Work for Squares {
    ghost use Rattle.std.specs.Prelude.{◌≡◌, ◌*◌};

    type Out = u64;

    ghost count = { λ _. 5 };

    ghost relates = { λ _ i x. x ≡ i * i };

    fn pieces(&self) -> u32 {
        5
    }

    fn run(&self, i: u32) -> Result<u64, AllocError> {
        Ok(u64::from(i) * u64::from(i))
    }
}

// The squares, by `workers` workers.
#[derive(Drop)]
struct Sharing {
    workers: u32,
    squares: Vec<u64>,
}

impl Call for Sharing {
    fn make<R: Threads + Wait + Sync>(&mut self, rt: &R, alloc: Global) -> Result<(), AllocError> {
        self.squares = run_with(rt, alloc, self.workers.clamp(1, 16), &Squares, &Open)?;
        Ok(())
    }

    fn print(&self, _alloc: Global, out: &mut String) -> Result<(), AllocError> {
        let mut divider = "";
        for square in &self.squares {
            write!(out, "{divider}{square}")?;
            divider = " ";
        }
        out.push('\n')
    }
}

/// Computes the squares with `workers` workers and failing allocations.
pub(crate) fn try_pieces<R: Threads + Wait + Sync>(
    rt: &R,
    alloc: Global,
    workers: u32,
    refusal: Refusal,
) -> Result<Tried, AllocError> {
    let mut sharing = Sharing {
        workers,
        squares: Vec::new(alloc),
    };
    attempt(rt, alloc, &mut sharing, refusal)
}
