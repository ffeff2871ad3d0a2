//! A window cut into parts.

ghost use Rattle.std.specs.Prelude.{◌≡◌, ◌++◌, ◌↔◌, IsTrue, OnOk, IfOk};
ghost use Rattle.tq_scan.specs.Cuts.{AreCuts, AreTiles, KeysAscend, VersionsAscend, parts_by_version, parts_of};

use crate::window::{Part, Window};
use std::alloc::{AllocError, Global};

// Whether the cuts strictly ascend and lie between the low and the high key.
pub(crate) fn ascends_keys(low: u128, high: u128, cuts: &[u128]) -> bool
    ensures { IsTrue result ↔ KeysAscend low high cuts.now }
{
    let mut before = low;
    for cut in cuts {
        if *cut <= before || *cut >= high {
            return false;
        }
        before = *cut;
    }
    true
}

// Whether the cuts strictly ascend, all after the first version and none after the last one.
pub(crate) fn ascends_versions(first: u32, last: u32, cuts: &[u32]) -> bool
    ensures { IsTrue result ↔ VersionsAscend first last cuts.now }
{
    let mut before = first;
    for cut in cuts {
        if *cut <= before || *cut > last {
            return false;
        }
        before = *cut;
    }
    true
}

// Appends the parts over a range of keys, in the order of their versions.
fn push_parts(
    parts: &mut Vec<Part>,
    low: u128,
    high: u128,
    window: &Window,
    cuts: &[u32],
) -> Result<(), AllocError>
    requires { VersionsAscend window.now.first window.now.last cuts.now }
    ensures { OnOk result (parts.new.items ≡ parts.old.items ++ parts_by_version low high window.now.first window.now.last cuts.now) }
{
    let mut first = window.first;
    for cut in cuts {
        parts.push(Part {
            low,
            high,
            first,
            last: cut - 1,
        })?;
        first = *cut;
    }
    parts.push(Part {
        low,
        high,
        first,
        last: window.last,
    })?;
    Ok(())
}

/// The parts of the window that is cut at these keys and versions, by keys and then by versions. A key cut is the least
/// key of the part above it, a version cut the first version of the part after it. `AllocError` if an allocation
/// failed.
pub fn cut(
    alloc: Global,
    window: &Window,
    key_cuts: &[u128],
    version_cuts: &[u32],
) -> Result<Vec<Part>, AllocError>
    requires { AreCuts window.now key_cuts.now version_cuts.now }
    ensures parts { IfOk result (λ ps. ps.items ≡ parts_of window.now key_cuts.now version_cuts.now) }
    ensures tiles { IfOk result (λ ps. AreTiles window.now ps.items) }
{
    let mut parts = Vec::new(alloc);
    let mut low = window.low;
    for cut in key_cuts {
        push_parts(&mut parts, low, *cut, window, version_cuts)?;
        low = *cut;
    }
    push_parts(&mut parts, low, window.high, window, version_cuts)?;
    Ok(parts)
}
