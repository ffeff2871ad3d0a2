//! The keys that a leaf reports.

ghost use Rattle.std.specs.Prelude.{◌≡◌, ◌<◌, ◌++◌, length, slice_get, IfSome, OnOk};
ghost use Rattle.tq_mvbt.specs.Tiling.{before_end};
ghost use Rattle.tq_scan.specs.Reports.{is_reported, reported_keys};
ghost use Rattle.tq_scan.specs.Windows.{lies_in};

use crate::window::{Part, Window};
use std::alloc::AllocError;
use tq_mvbt::Node;

// Whether the version comes before the end of a life.
pub(crate) fn is_before(version: u32, end: Option<u32>) -> bool
    ensures { result ≡ before_end version end }
{
    end.is_none_or(|end| version < end)
}

// Whether the key at the version lies in the part.
fn is_in(part: &Part, key: u128, version: u32) -> bool
    ensures { result ≡ lies_in part.now key version }
{
    (part.low <= key) & (key < part.high) & ((part.first <= version) & (version <= part.last))
}

// Whether the reference point of the entry's key lies in the part and in the leaf's region, and the key lives there.
// All is compared without a branch: the outcomes differ from entry to entry, and a branch would be mispredicted.
fn reports(leaf: &Node, place: u32, window: &Window, part: &Part) -> bool
    requires { place < length leaf.now.entries }
    ensures { IfSome (slice_get leaf.now.entries place) (λ e. result ≡ is_reported window.now part.now leaf.now e) }
{
    let version = leaf.born_of(place).max(window.first);
    is_in(part, leaf.key(place), version)
        & ((leaf.born() <= version)
            & (is_before(version, leaf.died()) & is_before(version, leaf.dead_of(place))))
}

// Appends the keys that the leaf reports. Each key is pushed, and removed again if it is not reported. So the loop has
// no branch to predict, and the processor overlaps the cache misses of many entries.
pub(crate) fn push_keys(
    keys: &mut Vec<u128>,
    leaf: &Node,
    window: &Window,
    part: &Part,
) -> Result<(), AllocError>
    ensures { OnOk result (keys.new.items ≡ keys.old.items ++ reported_keys window.now part.now leaf.now) }
{
    keys.reserve(leaf.len() as usize)?;
    for place in 0..leaf.len() {
        keys.push_reserved(leaf.key(place));
        if !reports(leaf, place, window, part) {
            let _left_out = keys.pop();
        }
    }
    Ok(())
}
