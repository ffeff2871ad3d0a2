//! Inserts the same keys into a multiversion tree and into a map of the standard library, and prints counts.
//!
//!     bench_tree            2,000 keys with 1,000 deletes, in the tree
//!     bench_tree tree N     N keys with N / 2 deletes, in the tree
//!     bench_tree map N      the same in a BTreeMap, without versions
//!     bench_tree keys N     only the keys
//!     bench_tree scan N Q   the tree, and Q queries of 250 neighbouring keys at the version of the last insert
//!     bench_tree all N Q    the tree, and Q queries of all keys at that version
//!     bench_tree range N Q  the keys in a BTreeMap, and Q ranges of 250 neighbouring keys
#![tactic(auto)]

ghost use Rattle.std.specs.Prelude.{◌<◌};

mod load;
mod questions;
mod sizes;

use load::Load;
use questions::{ask_all, ask_map, ask_tree};
use sizes::Sizes;
use std::alloc::{AllocError, Global};
use std::collections::BTreeMap;
use std::env;

/// What is measured.
#[derive(Clone, Copy)]
enum Mode {
    Tree,
    Map,
    Keys,
    Scan,
    All,
    Range,
}

// The upper parts of the keys, from a linear congruential generator.
fn fronts(alloc: Global, count: u32) -> Result<Vec<u64>, AllocError> {
    let mut all = Vec::new(alloc);
    let mut state: u64 = 12345;
    for _ in 0..count {
        state = state
            .wrapping_mul(6364136223846793005)
            .wrapping_add(1442695040888963407);
        all.push(state >> 20)?;
    }
    Ok(all)
}

// The number of the key of a delete, among `count` keys. Each key is deleted once, and consecutive deletes are up to
// 7,919 keys apart.
fn place(number: usize, count: usize) -> usize
    requires { 0 < count }
{
    (number as u128 * 7919 % count as u128) as usize
}

// The tree with all keys, half of which are deleted again.
fn fill_tree(alloc: Global, fronts: &[u64]) -> Result<Load, AllocError> {
    let mut load = Load::new(alloc)?;
    let mut keys = Vec::new(alloc);
    for front in fronts {
        if let Some(key) = load.insert(*front)? {
            keys.push(key)?;
        }
    }
    for number in 0..keys.len() / 2 {
        let at = place(number, keys.len());
        if let Some(key) = keys.get(at) {
            let _gone = load.delete(*key)?;
        }
    }
    Ok(load)
}

// The map with all keys, half of which are removed again.
fn fill_map(alloc: Global, fronts: &[u64]) -> anyhow::Result<usize> {
    let mut map: BTreeMap<u128, u32> = BTreeMap::new(alloc);
    let mut keys = Vec::new(alloc);
    for (row, front) in fronts.iter().enumerate() {
        let key = *front as u128 * 4294967296 + row as u128 % 4294967296;
        map.insert(key, 1)?;
        keys.push(key)?;
    }
    for number in 0..keys.len() / 2 {
        let at = place(number, keys.len());
        if let Some(key) = keys.get(at) {
            let _removed = map.remove(key);
        }
    }
    Ok(map.len())
}

// All keys in order, as they are inserted into a tree or a map.
fn sorted_keys(alloc: Global, fronts: &[u64]) -> Result<Vec<u128>, AllocError> {
    let mut keys = Vec::new(alloc);
    for (row, front) in fronts.iter().enumerate() {
        keys.push(*front as u128 * 4294967296 + row as u128 % 4294967296)?;
    }
    keys.sort()?;
    Ok(keys)
}

// Fills a tree or a map, queries it, and prints the results.
fn ask<R: Print>(
    rt: &R,
    alloc: Global,
    mode: Mode,
    fronts: &[u64],
    count: u32,
) -> anyhow::Result<()> {
    let sorted = sorted_keys(alloc, fronts)?;
    if matches!(mode, Mode::Range) {
        let mut map: BTreeMap<u128, u32> = BTreeMap::new(alloc);
        for key in &sorted {
            map.insert(*key, 1)?;
        }
        println!(rt; "keys found {}", ask_map(alloc, &map, &sorted, count)?)?;
        return Ok(());
    }
    let load = fill_tree(alloc, fronts)?;
    let version = fronts.len().min(16777216) as u32;
    let answers = if matches!(mode, Mode::All) {
        ask_all(alloc, &load.tree, version, count)?
    } else {
        ask_tree(alloc, &load.tree, &sorted, version, count)?
    };
    println!(rt; "keys found {}", answers.keys)?;
    println!(rt; "leaves met {}", answers.leaves)?;
    println!(rt; "nodes read {}", answers.reads)?;
    println!(rt; "levels {}", load.tree.levels(version))?;
    Ok(())
}

fn main(rt: HostRuntime) -> anyhow::Result<()> {
    let alloc = rt.alloc();
    let mut count: u32 = 2000;
    let mut questions: u32 = 100;
    let mut mode = Mode::Tree;
    for (place, word) in env::args(&rt)?.enumerate() {
        if place == 1 {
            mode = match word.as_str() {
                "tree" => Mode::Tree,
                "map" => Mode::Map,
                "scan" => Mode::Scan,
                "all" => Mode::All,
                "range" => Mode::Range,
                _ => Mode::Keys,
            };
        } else if place == 2 {
            count = word.parse().unwrap_or(2000);
        } else if place == 3 {
            questions = word.parse().unwrap_or(100);
        }
    }
    let fronts = fronts(alloc, count.min(11000000))?;
    if matches!(mode, Mode::Scan | Mode::All | Mode::Range) {
        return ask(&rt, alloc, mode, &fronts, questions);
    }
    if matches!(mode, Mode::Tree) {
        let load = fill_tree(alloc, &fronts)?;
        let sizes = Sizes::of(&load.tree)?;
        println!(rt; "updates {}", load.tree.version())?;
        println!(rt; "nodes {}, {} of them leaves", sizes.nodes, sizes.leaves)?;
        println!(rt; "levels {}", load.tree.levels(load.tree.version()))?;
        println!(rt; "entries {}", sizes.entries)?;
        let updates = load.tree.version().max(1) as usize;
        println!(rt;
            "entries in 100 updates {}",
            sizes.entries.saturating_mul(100) / updates
        )?;
        println!(rt; "bytes an update {}", sizes.bytes / updates)?;
    } else if matches!(mode, Mode::Map) {
        println!(rt; "keys left {}", fill_map(alloc, &fronts)?)?;
    } else {
        println!(rt; "keys {}", fronts.len())?;
    }
    Ok(())
}
