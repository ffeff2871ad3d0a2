//! The parts of a window, compared with a plain list of lives.

use crate::lives::{Count, Known, Life, NONE, is_before};
use std::alloc::{AllocError, Global};
use tq_arena::Meter;
use tq_scan::{Part, Window, scan};

/// The comparisons: windows, parts, and keys that were found.
#[derive(Clone, Copy)]
pub(crate) struct Counts {
    windows: Count,
    parts: Count,
    keys: Count,
}

// Whether the key is alive in the window, and the version of its reference point there.
fn reference(life: &Life, window: &Window) -> Option<u32> {
    let inside = window.low <= life.key && life.key < window.high;
    let lives = life.born <= window.last && is_before(window.first, life.dead);
    (inside && lives).then_some(life.born.max(window.first))
}

// The keys that are alive in the window, in ascending order.
fn expected(alloc: Global, lives: &[Life], window: &Window) -> Result<Vec<u128>, AllocError> {
    let mut keys = Vec::new(alloc);
    for life in lives {
        if reference(life, window).is_some() {
            keys.push(life.key)?;
        }
    }
    keys.sort()?;
    Ok(keys)
}

// Whether the life's reference point in the window is in the part.
fn refers_to(life: &Life, window: &Window, part: &Part) -> bool {
    match reference(life, window) {
        Some(version) => {
            part.low <= life.key
                && life.key < part.high
                && part.first <= version
                && version <= part.last
        }
        None => false,
    }
}

// Whether the key is that of a life whose reference point in the window is in the part.
fn is_there(key: u128, lives: &[Life], window: &Window, part: &Part) -> bool {
    match lives.get((key % 4294967296) as usize) {
        Some(life) => life.key == key && refers_to(life, window, part),
        None => false,
    }
}

/// No comparisons.
pub(crate) const NOTHING: Counts = Counts {
    windows: NONE,
    parts: NONE,
    keys: NONE,
};

impl Counts {
    /// Counts a window that could not be scanned.
    pub(crate) fn add_missing(&mut self) {
        self.windows.add(false);
    }

    // Compares the keys that were found in the part, and appends them.
    fn check_keys(
        &mut self,
        lives: &[Life],
        window: &Window,
        part: &Part,
        found: &[u128],
        keys: &mut Vec<u128>,
    ) -> Result<(), AllocError> {
        for key in found {
            self.keys.add(is_there(*key, lives, window, part));
            keys.push(*key)?;
        }
        Ok(())
    }

    // Compares what the tree has in the part, and the reads of its leaves.
    fn check_part(
        &mut self,
        alloc: Global,
        known: &Known,
        window: &Window,
        part: &Part,
        keys: &mut Vec<u128>,
    ) -> Result<(), AllocError> {
        if !part.inside(window) {
            self.parts.add(false);
            return Ok(());
        }
        let mut meter = Meter::new();
        let found = scan(alloc, &known.grower.tree, window, part, &mut meter)?;
        self.parts
            .add(meter.count() >= found.leaves.get().len() as u64);
        self.check_keys(&known.lives, window, part, found.keys.get(), keys)
    }

    /// Compares the parts of the window, of which there are some: each key that is alive in it is found once.
    pub(crate) fn check(
        &mut self,
        alloc: Global,
        known: &Known,
        window: &Window,
        parts: &[Part],
    ) -> Result<(), AllocError> {
        let mut keys = Vec::new(alloc);
        for part in parts {
            self.check_part(alloc, known, window, part, &mut keys)?;
        }
        keys.sort()?;
        let same = keys == expected(alloc, &known.lives, window)?;
        self.windows.add(same && !parts.is_empty());
        Ok(())
    }

    /// Prints the numbers of comparisons.
    pub(crate) fn print(&self, out: &mut String) -> Result<(), AllocError> {
        self.windows.print("windows", out)?;
        self.parts.print("parts", out)?;
        self.keys.print("keys found", out)
    }
}
