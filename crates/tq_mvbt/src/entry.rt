//! Entries of a node: keys of a leaf, children of an index node.

ghost use Rattle.std.specs.Prelude.{◌≡◌, ◌+◌, ◌<◌, ◌≤◌, ◌++◌, map, filter, count_by, IfSome, MatchOption};
ghost use Rattle.arrayvec.specs.ArrayVec.{array_vec_len};
ghost use Rattle.tq_mvbt.specs.Points.{is_live, with_end, leads, IsChild};

use arrayvec::ArrayVec;

/// The mark of what lives now: no end.
pub const NOW: u32 = u32::MAX;

/// An entry of a node: a key, or a child over the keys `low <= k < high`, at the versions `born <= v < dead`. For a
/// key, `high` is `low + 1` and `child` is unused.
#[derive(Clone, Copy, Default, Debug)]
pub struct Entry {
    pub low: u128,
    pub high: u128,
    pub born: u32,
    pub dead: u32,
    pub child: u32,
}

impl Entry {
    // Ends the entry at the version, if it lives now and its low key lies in the range.
    fn end_in(&mut self, low: u128, high: u128, version: u32)
        ensures { self.new ≡ with_end low high version self.old }
    {
        if self.dead == NOW && low <= self.low && self.low < high {
            self.dead = version;
        }
    }
}

// The number of entries that live now.
pub(crate) fn count_live(entries: &[Entry]) -> usize
    ensures { result ≡ count_by is_live entries.now }
{
    entries.iter().filter(|entry| entry.dead == NOW).count()
}

// Ends the live entries whose low key lies in the range.
pub(crate) fn end_range(entries: &mut [Entry], low: u128, high: u128, version: u32)
    ensures { entries.new ≡ map (with_end low high version) entries.old }
{
    for entry in entries.iter_mut() {
        entry.end_in(low, high, version);
    }
}

// Appends the live entries.
pub(crate) fn copy_live(entries: &[Entry], copied: &mut ArrayVec<Entry, 40>)
    requires { array_vec_len copied.old + count_by is_live entries.now ≤ 40 }
    ensures { copied.new.items ≡ copied.old.items ++ filter is_live entries.now }
{
    for entry in entries {
        if entry.dead == NOW {
            copied.push(*entry);
        }
    }
}

// The child of the live entry whose range holds the key.
pub(crate) fn child_at(entries: &[Entry], key: u128) -> Option<u32>
    ensures none { MatchOption result (count_by (leads key) entries.now ≡ 0) (λ _. 0 < count_by (leads key) entries.now) }
    ensures child { IfSome result (IsChild entries.now key) }
{
    for entry in entries {
        if entry.dead == NOW && entry.low <= key && key < entry.high {
            return Some(entry.child);
        }
    }
    None
}
