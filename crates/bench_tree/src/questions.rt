//! Queries of a tree at one version, and of a map.

ghost use Rattle.std.specs.Prelude.{◌<◌};

use std::alloc::{AllocError, Global};
use std::collections::BTreeMap;
use tq_arena::Meter;
use tq_mvbt::Tree;
use tq_scan::{Window, scan};

/// The number of neighbouring keys of a query.
pub const NEIGHBOURS: usize = 250;

/// The results of the queries.
#[derive(Drop)]
pub struct Answers {
    pub keys: u64,
    pub leaves: u64,
    pub reads: u64,
}

// The place of the query with this number, among `count` keys.
fn place(number: u32, count: usize) -> usize
    requires { 0 < count }
{
    (number as u128 * 104729 % count as u128) as usize
}

// The least of some neighbouring keys, and a key after the greatest of them. `sorted` is in order.
fn neighbours(sorted: &[u128], number: u32) -> Option<(u128, u128)> {
    if sorted.is_empty() {
        return None;
    }
    let at = place(number, sorted.len());
    let low = sorted.get(at)?;
    let high = sorted.get(at.saturating_add(NEIGHBOURS))?;
    Some((*low, *high))
}

/// Queries neighbouring keys at the version, `count` times.
pub fn ask_tree(
    alloc: Global,
    tree: &Tree,
    sorted: &[u128],
    version: u32,
    count: u32,
) -> Result<Answers, AllocError> {
    let mut meter = Meter::new();
    let mut keys: u64 = 0;
    let mut leaves: u64 = 0;
    for number in 0..count {
        if let Some((low, high)) = neighbours(sorted, number)
            && let Some(window) = Window::new(low, high, version, version)
        {
            let found = scan(alloc, tree, &window, &window.whole(), &mut meter)?;
            keys = keys.saturating_add(found.keys.get().len() as u64);
            leaves = leaves.saturating_add(found.leaves.get().len() as u64);
        }
    }
    Ok(Answers {
        keys,
        leaves,
        reads: meter.count(),
    })
}

/// Queries all keys at the version, `count` times.
pub fn ask_all(
    alloc: Global,
    tree: &Tree,
    version: u32,
    count: u32,
) -> Result<Answers, AllocError> {
    let mut meter = Meter::new();
    let mut keys: u64 = 0;
    let mut leaves: u64 = 0;
    for _ in 0..count {
        if let Some(window) = Window::new(0, 79228162514264337593543950336, version, version) {
            let found = scan(alloc, tree, &window, &window.whole(), &mut meter)?;
            keys = keys.saturating_add(found.keys.get().len() as u64);
            leaves = leaves.saturating_add(found.leaves.get().len() as u64);
        }
    }
    Ok(Answers {
        keys,
        leaves,
        reads: meter.count(),
    })
}

/// Reads neighbouring keys of the map, `count` times. Returns the number of keys read.
pub fn ask_map(
    alloc: Global,
    map: &BTreeMap<u128, u32>,
    sorted: &[u128],
    count: u32,
) -> Result<u64, AllocError> {
    let mut keys: u64 = 0;
    for number in 0..count {
        if let Some((low, high)) = neighbours(sorted, number)
            && low < high
        {
            let mut found: Vec<u128> = Vec::new(alloc);
            for (key, _) in map.range(low..high) {
                found.push(*key)?;
            }
            keys = keys.saturating_add(found.len() as u64);
        }
    }
    Ok(keys)
}
