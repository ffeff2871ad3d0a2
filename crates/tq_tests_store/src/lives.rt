//! A tree, compared with a plain list of lives.

use crate::growing::{come, go};
use std::alloc::{AllocError, Global};
use std::fmt::Write;
use tq_tests_script::{Draws, Grower};

/// Whether the version is before the end, if there is one.
pub(crate) fn is_before(version: u32, end: Option<u32>) -> bool {
    match end {
        Some(end) => version < end,
        None => true,
    }
}

/// The life of a key.
#[derive(Clone, Copy)]
pub(crate) struct Life {
    pub(crate) key: u128,
    pub(crate) born: u32,
    pub(crate) dead: Option<u32>,
}

impl Life {
    /// Whether the key is alive at the version.
    pub(crate) fn holds(&self, version: u32) -> bool {
        self.born <= version && is_before(version, self.dead)
    }
}

/// How many of the lives hold the version.
pub(crate) fn count_at(lives: &[Life], version: u32) -> usize {
    let mut count: usize = 0;
    for life in lives {
        if life.holds(version) {
            count = count.saturating_add(1);
        }
    }
    count
}

/// The number of comparisons, and the number that failed.
#[derive(Clone, Copy)]
pub(crate) struct Count {
    seen: u64,
    amiss: u64,
}

/// No comparisons.
pub(crate) const NONE: Count = Count { seen: 0, amiss: 0 };

impl Count {
    /// Counts one comparison.
    pub(crate) fn add(&mut self, is_right: bool) {
        self.seen = self.seen.saturating_add(1);
        self.amiss = self.amiss.saturating_add(u64::from(!is_right));
    }

    /// Prints the number of comparisons.
    pub(crate) fn print(&self, what: &str, out: &mut String) -> Result<(), AllocError> {
        let Count { seen, amiss } = self;
        writeln!(out, "{seen} {what}, {amiss} amiss")
    }
}

/// A tree, the life of each row's key, the rows with keys that are alive, and random numbers.
#[derive(Drop)]
pub(crate) struct Known {
    pub(crate) grower: Grower,
    pub(crate) lives: Vec<Life>,
    living: Vec<usize>,
    pub(crate) draws: Draws,
    came: Count,
    went: Count,
}

impl Known {
    /// No keys, and the draws of the seed.
    pub(crate) fn new(alloc: Global, seed: u64) -> Result<Known, AllocError> {
        Ok(Known {
            grower: Grower::new(alloc)?,
            lives: Vec::new(alloc),
            living: Vec::new(alloc),
            draws: Draws::new(seed),
            came: NONE,
            went: NONE,
        })
    }

    /// How many keys are alive.
    pub(crate) fn living(&self) -> usize {
        self.living.len()
    }

    /// Inserts the next key.
    pub(crate) fn come(&mut self, front: u64, version: u32) -> Result<(), AllocError> {
        let key = come(&mut self.grower, front, version)?;
        self.came.add(key.is_some());
        if let Some(key) = key {
            self.living.push(self.lives.len())?;
            self.lives.push(Life {
                key,
                born: version,
                dead: None,
            })?;
        }
        Ok(())
    }

    // Deletes the key of the row; whether it was alive until then, and is not any more.
    fn end(&mut self, row: usize, version: u32) -> Result<bool, AllocError> {
        let Some(life) = self.lives.get_mut(row) else {
            return Ok(false);
        };
        life.dead = Some(version);
        go(&mut self.grower, life.key, version)
    }

    /// Deletes the key at this place among those alive, counted from the first again after the last.
    pub(crate) fn go(&mut self, place: usize, version: u32) -> Result<(), AllocError> {
        if self.living.is_empty() {
            self.went.add(false);
            return Ok(());
        }
        let row = self.living.swap_remove(place % self.living.len());
        let is_right = self.end(row, version)?;
        self.went.add(is_right);
        Ok(())
    }

    /// Prints how many keys were inserted, and how many were deleted.
    pub(crate) fn print(&self, out: &mut String) -> Result<(), AllocError> {
        self.came.print("keys come", out)?;
        self.went.print("keys go", out)
    }
}
