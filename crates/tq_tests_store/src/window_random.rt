//! Random windows, cut at random, compared with a plain list of lives.

use crate::lives::Known;
use crate::window_check::{Counts, NOTHING};
use crate::words::{TOP, long, small};
use std::alloc::{AllocError, Global};
use tq_scan::{Part, Window, cut};
use tq_tests_script::Draws;

// A random change.
fn step(known: &mut Known, version: u32) -> Result<(), AllocError> {
    let growing = version / 1500 % 3 != 2;
    if known.living() == 0 || (known.draws.below(16) < 11) == growing {
        let front = known.draws.below(1 << 44) << 20;
        known.come(front, version)
    } else {
        let living = known.living() as u64;
        let place = known.draws.below(living) as usize;
        known.go(place, version)
    }
}

// A random window of a tree; its first version is at most the count.
fn draw_window(draws: &mut Draws, count: u32) -> Option<Window> {
    let low = draws.below(1 << 48) as u128 * 281474976710656;
    let high = low + (draws.below(1 << 47) as u128 + 1) * 281474976710656;
    let first = small(draws.below(u64::from(count) + 1) as u128);
    let last = first.saturating_add(draws.below(3000) as u32);
    Window::new(low, high.min(TOP), first, last)
}

// A key at which the window can be cut.
fn draw_key(window: &Window, draws: &mut Draws) -> u128 {
    let step = (window.high - window.low) / 1024;
    let places = step.wrapping_mul(draws.below(1023) as u128 + 1);
    window.low.wrapping_add(places)
}

// A version at which the window can be cut, if it has several.
fn draw_version(window: &Window, draws: &mut Draws) -> Option<u32> {
    let versions = (window.last - window.first) as u64;
    if versions == 0 {
        return None;
    }
    let after = small(draws.below(versions) as u128);
    Some(window.first.wrapping_add(after).wrapping_add(1))
}

// Draws up to three keys, and as many versions, and sorts them.
fn draw_cuts(
    window: &Window,
    draws: &mut Draws,
    keys: &mut Vec<u128>,
    versions: &mut Vec<u32>,
) -> Result<(), AllocError> {
    for _ in 0..draws.below(4) {
        keys.push(draw_key(window, draws))?;
        if let Some(version) = draw_version(window, draws) {
            versions.push(version)?;
        }
    }
    keys.sort()?;
    keys.dedup();
    versions.sort()?;
    versions.dedup();
    Ok(())
}

// The parts of the window, cut at random; none if it cannot be cut so.
fn draw_parts(alloc: Global, window: &Window, draws: &mut Draws) -> Result<Vec<Part>, AllocError> {
    let mut keys = Vec::new(alloc);
    let mut versions = Vec::new(alloc);
    draw_cuts(window, draws, &mut keys, &mut versions)?;
    if !window.admits(&keys, &versions) {
        return Ok(Vec::new(alloc));
    }
    cut(alloc, window, &keys, &versions)
}

// Compares a random window with the lives.
fn ask(
    alloc: Global,
    known: &mut Known,
    counts: &mut Counts,
    count: u32,
) -> Result<(), AllocError> {
    let Some(window) = draw_window(&mut known.draws, count) else {
        counts.add_missing();
        return Ok(());
    };
    let parts = draw_parts(alloc, &window, &mut known.draws)?;
    counts.check(alloc, known, &window, &parts)
}

// Makes random changes at the versions up to the count, and then compares random windows.
fn compare(
    alloc: Global,
    known: &mut Known,
    [count, windows]: [u32; 2],
    out: &mut String,
) -> Result<(), AllocError> {
    for version in 1..=count {
        step(known, version)?;
    }
    let mut counts = NOTHING;
    for _ in 0..windows {
        ask(alloc, known, &mut counts, count)?;
    }
    known.print(out)?;
    counts.print(out)
}

/// Compares random windows of a random tree, and prints how many keys, windows, parts and found keys were compared.
pub(crate) fn random_windows(
    alloc: Global,
    seed: u128,
    numbers: [u32; 2],
    out: &mut String,
) -> Result<(), AllocError> {
    let mut known = Known::new(alloc, long(seed))?;
    compare(alloc, &mut known, numbers, out)
}
