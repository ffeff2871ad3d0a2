//! A count of reads.

ghost use Rattle.std.specs.Prelude.{◌≡◌, ◌+◌, min};

use std::marker::Model;

/// Counts the reads of nodes.
#[derive(Drop, Debug)]
pub struct Meter {
    count: u64,
}

impl Model for Meter {
    ghost use Rattle.std.specs.Prelude.{ℕ};

    ghost Value = { ℕ };

    ghost view = { λ m. m.count };
}

impl Meter {
    /// A meter that has counted no read.
    pub fn new() -> Meter
        ensures { result ≡ 0 }
    {
        Meter { count: 0 }
    }

    /// The number of reads so far; it stays at `u64::MAX` once it reaches that.
    pub fn count(&self) -> u64
        ensures { result ≡ self.now }
    {
        self.count
    }

    // Counts one more read.
    pub(crate) fn add_read(&mut self)
        ensures { self.new ≡ min (self.old + 1) u64.MAX }
    {
        let count = &mut self.count;
        *count = count.saturating_add(1);
    }
}
