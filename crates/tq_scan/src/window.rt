//! Windows of keys and versions, and their parts.

ghost use Rattle.std.specs.Prelude.{◌≡◌, ◌<◌, ◌≤◌, ◌↔◌, ◌^◌, IsSome, IfSome, IsTrue};

use crate::cutting::{ascends_keys, ascends_versions};

/// One more than the greatest key.
const TOP: u128 = 79228162514264337593543950336;

/// The last version of any tree.
const LAST: u32 = 16777216;

/// The keys `low <= k < high` at the versions `first <= v <= last`.
#[derive(Clone, Copy, PartialEq, Eq, Debug)]
pub struct Part {
    pub low: u128,
    pub high: u128,
    pub first: u32,
    pub last: u32,
}

/// The keys `low <= k < high` at the versions `first <= v <= last`. There is at least one of each; keys are below 2^96,
/// and versions at most 16,777,216.
#[derive(Clone, Copy, PartialEq, Eq, Debug)]
pub struct Window {
    pub low: u128,
    pub high: u128,
    pub first: u32,
    pub last: u32,
    ghost wide: { low < high },
    ghost in_keys: { high ≤ 2 ^ 96 },
    ghost long: { first ≤ last },
    ghost in_versions: { last ≤ 16777216 },
}

impl Window {
    ghost use Rattle.tq_scan.specs.Windows.{IsWindow, IsOf, whole_of};
    ghost use Rattle.tq_scan.specs.Cuts.{AreCuts};

    /// The window of these keys and versions; `None` if it would be empty, or goes beyond the keys or versions of a
    /// tree.
    pub fn new(low: u128, high: u128, first: u32, last: u32) -> Option<Window>
        ensures valid { IsSome result ↔ IsWindow low high first last }
        ensures value { IfSome result (IsOf low high first last) }
    {
        if low < high && high <= TOP && first <= last && last <= LAST {
            Some(Window {
                low,
                high,
                first,
                last,
            })
        } else {
            None
        }
    }

    /// The whole window as one part.
    pub fn whole(&self) -> Part
        ensures { result ≡ whole_of self.now }
    {
        Part {
            low: self.low,
            high: self.high,
            first: self.first,
            last: self.last,
        }
    }

    /// Whether the window can be cut at these keys and versions: both lists strictly ascend, and each cut has keys or
    /// versions of the window on both sides.
    pub fn admits(&self, key_cuts: &[u128], version_cuts: &[u32]) -> bool
        ensures { IsTrue result ↔ AreCuts self.now key_cuts.now version_cuts.now }
    {
        ascends_keys(self.low, self.high, key_cuts)
            && ascends_versions(self.first, self.last, version_cuts)
    }
}

impl Part {
    ghost use Rattle.tq_scan.specs.Windows.{IsInside};

    /// Whether the part has keys and versions, all of them in the window.
    pub fn inside(&self, window: &Window) -> bool
        ensures { IsTrue result ↔ IsInside window.now self.now }
    {
        self.low < self.high
            && self.first <= self.last
            && window.low <= self.low
            && self.high <= window.high
            && window.first <= self.first
            && self.last <= window.last
    }
}
