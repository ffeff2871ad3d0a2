//! Scans of parts of a window.

use crate::nodes::{print_key, print_number, print_numbers, print_range, print_whether};
use std::alloc::{AllocError, Global};
use std::fmt::Write;
use tq_arena::Meter;
use tq_mvbt::Tree;
use tq_scan::{Found, Part, Window, cut, scan};

// How many of the keys have the distance from the first one that their place gives.
fn in_a_row(keys: &[u128], first: u128) -> u32 {
    let mut right: u32 = 0;
    for (place, key) in keys.iter().enumerate() {
        if *key == first.wrapping_add(place as u128) {
            right = right.saturating_add(1);
        }
    }
    right
}

// Prints the number of keys, how many of them are consecutive, and the first one.
fn print_keys(keys: &[u128], out: &mut String) -> Result<(), AllocError> {
    match keys.first() {
        Some(first) => {
            let right = in_a_row(keys, *first);
            write!(out, "    {} keys, {right} in a row from ", keys.len())?;
            print_key(*first, out)
        }
        None => out.push_str("    no keys"),
    }
}

// Prints what was found, and the number of reads.
fn print_found(found: &Found, reads: u64, out: &mut String) -> Result<(), AllocError> {
    print_keys(found.keys.get(), out)?;
    out.push_str(", leaves")?;
    print_numbers(found.leaves.get(), out)?;
    writeln!(out, ", {reads} reads")
}

// Prints the keys and versions of the part.
fn print_bounds(part: &Part, out: &mut String) -> Result<(), AllocError> {
    out.push_str("part")?;
    print_range(part.low, part.high, out)?;
    writeln!(out, ", versions {} to {}", part.first, part.last)
}

/// Prints what the tree has in the part.
pub(crate) fn print_part(
    alloc: Global,
    tree: &Tree,
    window: &Window,
    part: &Part,
    out: &mut String,
) -> Result<(), AllocError> {
    print_bounds(part, out)?;
    if !part.inside(window) {
        return print_whether(false, out);
    }
    let mut meter = Meter::new();
    let found = scan(alloc, tree, window, part, &mut meter)?;
    print_found(&found, meter.count(), out)
}

/// Prints whether the window can be cut at these keys and versions or, with `with_parts`, what the tree has in each
/// part.
pub(crate) fn print_cut(
    alloc: Global,
    tree: &Tree,
    window: &Window,
    (keys, versions): (&[u128], &[u32]),
    with_parts: bool,
    out: &mut String,
) -> Result<(), AllocError> {
    let admits = window.admits(keys, versions);
    if !admits || !with_parts {
        return print_whether(admits, out);
    }
    let parts = cut(alloc, window, keys, versions)?;
    for part in &parts {
        print_part(alloc, tree, window, part, out)?;
    }
    print_number("parts", parts.len() as u64, out)
}
