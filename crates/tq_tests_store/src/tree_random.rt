//! Random changes of a tree, compared with a plain list of lives.

use crate::lives::Known;
use crate::tree_check::NOTHING;
use crate::words::{long, small};
use std::alloc::{AllocError, Global};

// A random change: `odds` of sixteen are inserts; in the last third of each 4,500 versions they are deletes.
fn step(known: &mut Known, odds: u64, spread: u64, version: u32) -> Result<(), AllocError> {
    let draw = known.draws.below(1 << 44) >> 13;
    let turned = version / 1500 % 3 == 2;
    if known.living() == 0 || (draw % 16 < odds) != turned {
        known.come(draw / 16 % spread.max(1), version)
    } else {
        known.go(draw as usize / 16, version)
    }
}

// Makes random changes at the versions below the count. Compares with the lives after each 500, and at the end.
fn compare(
    known: &mut Known,
    [count, odds, spread]: [u128; 3],
    out: &mut String,
) -> Result<(), AllocError> {
    let (count, odds, spread) = (small(count), long(odds), long(spread));
    let mut counts = NOTHING;
    for version in 1..count {
        step(known, odds, spread, version)?;
        if version % 500 == 0 {
            counts.check(known, version)?;
        }
    }
    counts.check(known, count)?;
    known.print(out)?;
    counts.print(out)
}

/// Makes random changes of a tree, and prints how many keys, entries of leaves, versions and trees were compared.
pub(crate) fn random_tree(
    alloc: Global,
    seed: u128,
    numbers: [u128; 3],
    out: &mut String,
) -> Result<(), AllocError> {
    let mut known = Known::new(alloc, long(seed))?;
    compare(&mut known, numbers, out)
}
