//! An arena of numbers.

use crate::nodes::{print_number, print_whether};
use std::alloc::{AllocError, Global};
use tq_arena::{Arena, Meter, NodeNo};
use tq_tests_script::print_nothing;

/// An arena, and a meter of its reads.
#[derive(Drop)]
pub(crate) struct Numbers {
    arena: Arena<u32>,
    meter: Meter,
}

impl Numbers {
    /// No nodes and no reads.
    pub(crate) fn new(alloc: Global) -> Numbers {
        Numbers {
            arena: Arena::new(alloc),
            meter: Meter::new(),
        }
    }

    // Whether there is room for `count` more nodes after they are reserved.
    fn reserve(&mut self, count: u32) -> Result<bool, AllocError> {
        if count > u32::MAX - self.arena.len() {
            return Ok(false);
        }
        self.arena.reserve(count)?;
        Ok(self.arena.room() >= count)
    }

    // Adds the number as the next node. Whether there is room for it, and its node has the number of its place.
    fn push(&mut self, number: u32) -> bool {
        let place = self.arena.len();
        self.arena.room() > 0 && self.arena.push_reserved(number) == NodeNo(place)
    }

    // Changes the node to another number. Whether there is such a node.
    fn change(&mut self, node: u32, number: u32) -> bool {
        if node >= self.arena.len() {
            return false;
        }
        *self.arena.change(NodeNo(node)) = number;
        true
    }

    // Whether there is such a node, and it is the number.
    fn is_read(&mut self, node: u32, number: u32) -> bool {
        node < self.arena.len() && *self.arena.read(NodeNo(node), &mut self.meter) == number
    }

    // Adds `count` nodes with these numbers; how many are right.
    fn push_all(&mut self, [number, step, count]: [u32; 3]) -> u32 {
        let mut right: u32 = 0;
        for more in 0..count {
            if self.push(number.wrapping_add(more.wrapping_mul(step))) {
                right = right.saturating_add(1);
            }
        }
        right
    }

    // How many of the nodes from this one on are these numbers.
    fn read_all(&mut self, node: u32, [number, step, count]: [u32; 3]) -> u32 {
        let mut right: u32 = 0;
        for more in 0..count {
            let expected = number.wrapping_add(more.wrapping_mul(step));
            if self.is_read(node.wrapping_add(more), expected) {
                right = right.saturating_add(1);
            }
        }
        right
    }

    // Prints the numbers of nodes and of reads.
    fn print_nodes(&self, out: &mut String) -> Result<(), AllocError> {
        print_number("nodes", self.arena.len() as u64, out)?;
        print_number("reads", self.meter.count(), out)
    }

    // Runs a call for several nodes.
    fn run_all(&mut self, word: &str, numbers: &[u32], out: &mut String) -> Result<(), AllocError> {
        match (word, numbers) {
            ("push", [number, step, count]) => {
                let right = self.push_all([*number, *step, *count]);
                print_number("as they should be", right as u64, out)
            }
            ("read", [node, number, step, count]) => {
                let right = self.read_all(*node, [*number, *step, *count]);
                print_number("as they should be", right as u64, out)
            }
            ("nodes", []) => self.print_nodes(out),
            _ => print_nothing(out),
        }
    }

    /// Runs a call with this word and these numbers.
    pub(crate) fn run(
        &mut self,
        alloc: Global,
        word: &str,
        numbers: &[u32],
        out: &mut String,
    ) -> Result<(), AllocError> {
        match (word, numbers) {
            ("arena", []) => {
                *self = Numbers::new(alloc);
                Ok(())
            }
            ("reserve", [count]) => print_whether(self.reserve(*count)?, out),
            ("change", [node, number]) => print_whether(self.change(*node, *number), out),
            _ => self.run_all(word, numbers, out),
        }
    }
}
