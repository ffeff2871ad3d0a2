// Cuts of the window of a table: at keys that divide its rows evenly, and at one version.

ghost use Rattle.std.specs.Prelude.{◌<◌, ◌≤◌, ◌+◌, IfOk, OnOk, length};
ghost use Rattle.tq_scan.specs.Cuts.{KeysAscend, VersionsAscend};
ghost use Rattle.tq_store.specs.Laws.{TileWindow};

use crate::key_ranges::{TableKeys, some_keys};
use std::alloc::{AllocError, Global};
use tq_base::Period;
use tq_scan::{Part, Window, cut};
use tq_store::{Db, least_tree_key};

// The middle version of the window; none if it has one version.
fn version_cuts(alloc: Global, window: &Window) -> Result<Vec<u32>, AllocError>
    ensures { IfOk result (λ cuts. VersionsAscend window.now.first window.now.last cuts.items) }
{
    let mut cuts = Vec::new(alloc);
    if window.first < window.last {
        cuts.push(window.last - (window.last - window.first) / 2)?;
    }
    Ok(cuts)
}

// The middle tree key of the window.
fn middle(window: &Window) -> u128
    requires { window.now.low + 2 ≤ window.now.high }
    ensures above { window.now.low < result }
    ensures below { result < window.now.high }
{
    window.low + (window.high - window.low) / 2
}

// The middle tree key of the window, if there are no cuts.
fn or_middle(cuts: &mut Vec<u128>, window: &Window) -> Result<(), AllocError>
    requires ascend { KeysAscend window.now.low window.now.high cuts.old.items }
    requires room { window.now.low + 2 ≤ window.now.high }
    ensures ascend { OnOk result (KeysAscend window.now.low window.now.high cuts.new.items) }
    ensures some { OnOk result (1 ≤ length cuts.new.items) }
{
    if cuts.is_empty() {
        cuts.push(middle(window))?;
    }
    Ok(())
}

// The least tree keys of some of the ordered keys, so that each part between them has about the same number of keys. The
// middle tree key, if none of these cuts the window.
fn key_cuts(
    alloc: Global,
    window: &Window,
    keys: &[i64],
    parts: usize,
) -> Result<Vec<u128>, AllocError>
    requires room { window.now.low + 2 ≤ window.now.high }
    ensures ascend { IfOk result (λ cuts. KeysAscend window.now.low window.now.high cuts.items) }
    ensures some { IfOk result (λ cuts. 1 ≤ length cuts.items) }
{
    let mut cuts = Vec::new(alloc);
    let mut before = window.low;
    let step = keys.len().div_ceil(parts.max(1)).max(1);
    'keys: for key in keys.iter().step_by(step).skip(1) {
        let next = least_tree_key(*key);
        if before < next && next < window.high {
            cuts.push(next)?;
            before = next;
        }
    }
    or_middle(&mut cuts, window)?;
    Ok(cuts)
}

/// Parts that tile the window of the keys: at least two, about `wanted`, with about equal numbers of rows.
pub(crate) fn parts_of(
    alloc: Global,
    db: &Db,
    n: u32,
    period: &Period,
    of: TableKeys,
    wanted: usize,
) -> Result<Vec<Part>, AllocError>
    requires { n ≤ length db.now.events }
    ensures tile { IfOk result (λ parts. TileWindow db.now.events n of.keys period.now parts.items) }
    ensures several { IfOk result (λ parts. 2 ≤ length parts.items) }
{
    let window = db.window(n, of.table, &of.keys, period);
    let keys = some_keys(alloc, &db.events(), n, of)?;
    let versions = version_cuts(alloc, &window)?;
    let cuts = key_cuts(alloc, &window, &keys, wanted / (versions.len() + 1))?;
    cut(alloc, &window, &cuts, &versions)
}
