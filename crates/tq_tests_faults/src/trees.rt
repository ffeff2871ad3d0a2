//! The tree of 33 consecutive keys. They are inserted at the versions 1 to 33, and 29 of them are deleted at the
//! versions 34 to 62. Its only leaf is full at version 33, and its two leaves are joined at version 45.

use std::alloc::{AllocError, Global};
use std::fmt::Write;
use std::sync::Wait;
use std::thread::Threads;
use tq_arena::{Meter, NodeNo};
use tq_mvbt::{Region, Tree};
use tq_scan::{Found, Part, Window, cut, scan};
use tq_tests_script::{Call, Grower, Refusal, Tried, attempt};

const FRONT: u64 = 9223372036854775815;

const TOP: u128 = 79228162514264337593543950336;

const VERSIONS: u32 = 62;

// The key of a row.
fn key(row: u32) -> u128 {
    FRONT as u128 * 4294967296 + row as u128
}

// Inserts or deletes the key of the version; nothing if it is not the next version.
fn change(grower: &mut Grower, version: u32) -> Result<(), AllocError> {
    if version <= grower.tree.version() || version > VERSIONS || grower.rows > 33 {
        return Ok(());
    }
    if version <= 33 {
        grower.insert(FRONT, version)?;
        return Ok(());
    }
    let gone = key(version - 34);
    if gone < TOP && grower.tree.alive(gone) {
        grower.delete(gone, version)?;
    }
    Ok(())
}

// The tree after the changes up to the version.
fn grown(alloc: Global, last: u32) -> Result<Grower, AllocError> {
    let mut grower = Grower::new(alloc)?;
    for version in 1..=last.min(VERSIONS) {
        change(&mut grower, version)?;
    }
    Ok(grower)
}

fn print_region(region: &Region, out: &mut String) -> Result<(), AllocError> {
    let NodeNo(node) = region.node;
    let born = region.born;
    write!(out, "leaf {node} from version {born}, links to")?;
    for NodeNo(link) in region.links.get() {
        write!(out, " {link}")?;
    }
    out.push('\n')
}

fn print_regions(regions: &[Region], out: &mut String) -> Result<(), AllocError> {
    for region in regions {
        print_region(region, out)?;
    }
    Ok(())
}

// Prints the version and the keys that are alive, a letter each.
fn print_keys(tree: &Tree, out: &mut String) -> Result<(), AllocError> {
    let version = tree.version();
    write!(out, "version {version}, keys ")?;
    for row in 0..33 {
        out.push(if tree.alive(key(row)) { 'x' } else { '-' })?;
    }
    out.push('\n')
}

fn print_root(tree: &Tree, out: &mut String) -> Result<(), AllocError> {
    let version = tree.version();
    let NodeNo(root) = tree.root_at(version);
    let levels = tree.levels(version);
    writeln!(out, "root {root}, {levels} levels")
}

// The call that changes a version.
#[derive(Drop)]
struct Changing {
    grower: Grower,
    version: u32,
}

impl Call for Changing {
    fn make<R: Threads + Wait + Sync>(
        &mut self,
        _rt: &R,
        _alloc: Global,
    ) -> Result<(), AllocError> {
        change(&mut self.grower, self.version)
    }

    fn print(&self, _alloc: Global, out: &mut String) -> Result<(), AllocError> {
        print_keys(&self.grower.tree, out)?;
        print_root(&self.grower.tree, out)?;
        let regions = self.grower.tree.leaf_regions(&mut Meter::new())?;
        print_regions(&regions, out)
    }
}

/// Makes the change of the version, with failing allocations.
pub(crate) fn try_change<R: Threads + Wait + Sync>(
    rt: &R,
    alloc: Global,
    version: u32,
    refusal: Refusal,
) -> Result<Tried, AllocError> {
    let mut changing = Changing {
        grower: grown(alloc, version.saturating_sub(1))?,
        version,
    };
    attempt(rt, alloc, &mut changing, refusal)
}

// The leaves of a tree.
#[derive(Drop)]
struct Listing {
    grower: Grower,
    regions: Vec<Region>,
}

impl Call for Listing {
    fn make<R: Threads + Wait + Sync>(
        &mut self,
        _rt: &R,
        _alloc: Global,
    ) -> Result<(), AllocError> {
        self.regions = self.grower.tree.leaf_regions(&mut Meter::new())?;
        Ok(())
    }

    fn print(&self, _alloc: Global, out: &mut String) -> Result<(), AllocError> {
        print_regions(&self.regions, out)
    }
}

/// Reads the leaves, with failing allocations.
pub(crate) fn try_leaves<R: Threads + Wait + Sync>(
    rt: &R,
    alloc: Global,
    refusal: Refusal,
) -> Result<Tried, AllocError> {
    let mut listing = Listing {
        grower: grown(alloc, VERSIONS)?,
        regions: Vec::new(alloc),
    };
    attempt(rt, alloc, &mut listing, refusal)
}

// The window, cut at a key and at two versions.
fn parts_of(alloc: Global, window: &Window) -> Result<Vec<Part>, AllocError> {
    let key_cuts = [key(16)];
    let version_cuts = [33, 40];
    if !window.admits(&key_cuts, &version_cuts) {
        return Ok(Vec::new(alloc));
    }
    cut(alloc, window, &key_cuts, &version_cuts)
}

// Appends what the tree has in the part.
fn scan_part(
    alloc: Global,
    tree: &Tree,
    window: &Window,
    part: &Part,
    all: &mut Vec<Found>,
) -> Result<(), AllocError> {
    if part.inside(window) {
        all.push(scan(alloc, tree, window, part, &mut Meter::new())?)?;
    }
    Ok(())
}

// What the tree has in each part of the window of all keys and the versions 32 to 45.
fn scanned(alloc: Global, tree: &Tree) -> Result<Vec<Found>, AllocError> {
    let mut all = Vec::new(alloc);
    let Some(window) = Window::new(0, TOP, 32, 45) else {
        return Ok(all);
    };
    let parts = parts_of(alloc, &window)?;
    for part in &parts {
        scan_part(alloc, tree, &window, part, &mut all)?;
    }
    Ok(all)
}

fn print_found(found: &Found, out: &mut String) -> Result<(), AllocError> {
    let keys = found.keys.get().len();
    write!(out, "{keys} keys, from leaves")?;
    for NodeNo(leaf) in found.leaves.get() {
        write!(out, " {leaf}")?;
    }
    out.push('\n')
}

// What a tree has in each part of a window.
#[derive(Drop)]
struct Scanning {
    grower: Grower,
    all: Vec<Found>,
}

impl Call for Scanning {
    fn make<R: Threads + Wait + Sync>(&mut self, _rt: &R, alloc: Global) -> Result<(), AllocError> {
        self.all = scanned(alloc, &self.grower.tree)?;
        Ok(())
    }

    fn print(&self, _alloc: Global, out: &mut String) -> Result<(), AllocError> {
        for found in &self.all {
            print_found(found, out)?;
        }
        Ok(())
    }
}

/// Scans each part of the window, with failing allocations.
pub(crate) fn try_scan<R: Threads + Wait + Sync>(
    rt: &R,
    alloc: Global,
    refusal: Refusal,
) -> Result<Tried, AllocError> {
    let mut scanning = Scanning {
        grower: grown(alloc, VERSIONS)?,
        all: Vec::new(alloc),
    };
    attempt(rt, alloc, &mut scanning, refusal)
}
