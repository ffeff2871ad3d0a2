//! A gate at which pieces wait for each other.

use std::alloc::AllocError;
use std::fmt::Write;
use std::sync::atomic::{AtomicBool, AtomicU64, Ordering};
use std::thread::yield_now;
use tq_run::Gate;

/// Holds each arrival of piece 0 until piece 1 has arrived as often, up to a limit; or holds nothing.
#[derive(Drop)]
pub struct Turns {
    holds: bool,
    firsts: AtomicU64,
    seconds: AtomicU64,
    limit_met: AtomicBool,
}

impl Turns {
    /// A gate without arrivals.
    pub fn new(holds: bool) -> Turns {
        Turns {
            holds,
            firsts: AtomicU64::new(0),
            seconds: AtomicU64::new(0),
            limit_met: AtomicBool::new(false),
        }
    }

    /// Prints how often piece 1 arrived, if pieces are held.
    pub fn print(&self, out: &mut String) -> Result<(), AllocError> {
        if !self.holds {
            return Ok(());
        }
        if self.limit_met.load(Ordering::SeqCst) {
            return out.push_str("piece 0 waited in vain\n");
        }
        let seconds = self.seconds.load(Ordering::SeqCst);
        writeln!(out, "piece 1 arrived {seconds} times")
    }
}

impl Gate for Turns {
    fn arrive(&self, i: u32) {
        if i == 1 {
            self.seconds.fetch_add(1, Ordering::SeqCst);
        }
        if i != 0 || !self.holds {
            return;
        }
        let before = self.firsts.fetch_add(1, Ordering::SeqCst);
        for _ in 0..100_000_000u32 {
            if self.seconds.load(Ordering::SeqCst) > before {
                return;
            }
            yield_now();
        }
        self.limit_met.store(true, Ordering::SeqCst);
    }
}
