//! The workers of an execution.

ghost use Rattle.std.specs.Prelude.{◌≡◌, ◌≤◌};

use crate::counters::Counters;
use std::alloc::Global;

// Tables or answers of fewer rows are not divided: several threads would not be worth their start.
const FEW_ROWS: usize = 8_192;

/// The workers that execute the pieces of a plan: 1 to 16 threads, one of which is the calling one.
#[derive(Drop)]
pub struct Workers<'w, R, G> {
    pub rt: &'w R,
    pub alloc: Global,
    pub count: u32,
    /// Tables and answers of fewer rows are not divided.
    pub few: usize,
    /// It gets each piece before the piece is executed.
    pub gate: &'w G,
    /// They count the rows that each operator makes.
    pub counters: Counters,
    ghost some: { 1 ≤ count },
    ghost at_most: { count ≤ 16 },
}

impl<'w, R, G> Workers<'w, R, G> {
    /// `count` workers, which divide tables and answers of 8,192 rows or more.
    pub fn new(rt: &'w R, alloc: Global, count: u32, gate: &'w G) -> Workers<'w, R, G>
        requires some { 1 ≤ count }
        requires at_most { count ≤ 16 }
        ensures { result.count ≡ count }
    {
        Workers {
            rt,
            alloc,
            count,
            few: FEW_ROWS,
            gate,
            counters: Counters::new(),
        }
    }
}
