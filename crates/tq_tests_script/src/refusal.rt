//! Failing allocations. A program cannot make its own allocations fail. gate/refusing.c is a `malloc` that the program
//! controls by the sizes of blocks. With any other `malloc` no allocation fails.

use std::alloc::Global;

// A block of this size ends the failures, and itself fails if an allocation failed.
const MARK: usize = 5_921_370;

/// Which of the following allocations fails: the one with the number, counted from 1, and each later one if `lasts` is
/// set. With the number 0 none fails.
#[derive(Clone, Copy)]
pub struct Refusal {
    pub number: u16,
    pub lasts: bool,
}

// Whether a block of this size is allocated.
fn is_given(alloc: Global, size: usize) -> bool {
    match Vec::<u8>::with_capacity(alloc, size) {
        Ok(mut block) => block.push(1).is_ok(),
        Err(_) => false,
    }
}

impl Refusal {
    /// No allocation fails.
    pub fn none() -> Refusal {
        Refusal {
            number: 0,
            lasts: false,
        }
    }

    /// Begins to count allocations.
    pub fn begin(self, alloc: Global) {
        if self.number > 0 {
            let _given = is_given(alloc, MARK + 2 * self.number as usize + self.lasts as usize);
        }
    }

    /// Ends the failures. Whether an allocation failed.
    pub fn end(self, alloc: Global) -> bool {
        self.number > 0 && !is_given(alloc, MARK)
    }
}
