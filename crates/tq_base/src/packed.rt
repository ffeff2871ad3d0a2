//! Sorting of keys that lie close together, by one number of 64 bits for each key.

ghost use Rattle.std.specs.Prelude.{◌≡◌, All, IfSome, IsPermutation, IsSorted, false, length, map};
ghost use Rattle.std.specs.Bool.{OnTrue};
ghost use Rattle.tq_base.specs.Keys.{prefix_start_cmp};
ghost use Rattle.tq_base.specs.Packed.{pack, unpack, IsAbove, IsNear, IsOfKey};

use crate::sort_input::{RunStart, Side, SortKey};
use std::alloc::Global;

// The difference in prefix, and in start, below which keys can be packed: 2^32.
const SPAN: u64 = 0x1_0000_0000;

// A key with prefix and start in one number.
#[derive(Clone, Copy)]
struct Packed {
    order: u64,
    row: u32,
    side: Side,
    run_start: RunStart,
}

// The least prefix and the least start of some keys.
#[derive(Clone, Copy)]
struct Corner {
    prefix: u128,
    start: u64,
}

fn corner_of(keys: &[SortKey]) -> Corner
    ensures { All (IsAbove result) keys.now }
{
    let mut corner = Corner {
        prefix: u128::MAX,
        start: u64::MAX,
    };
    'keys: for key in keys {
        corner.prefix = corner.prefix.min(key.prefix);
        corner.start = corner.start.min(key.start);
    }
    corner
}

// Whether the key can be packed: its prefix and its start are less than `SPAN` above the corner.
fn is_near(corner: Corner, key: &SortKey) -> bool
    requires { IsAbove corner key.now }
    ensures { OnTrue result (IsNear corner key.now) }
{
    (key.prefix - corner.prefix < u128::from(SPAN)) & (key.start - corner.start < SPAN)
}

fn are_near(corner: Corner, keys: &[SortKey]) -> bool
    requires { All (IsAbove corner) keys.now }
    ensures { OnTrue result (All (IsNear corner) keys.now) }
{
    'keys: for key in keys {
        if !is_near(corner, key) {
            return false;
        }
    }
    true
}

fn pack(corner: Corner, key: &SortKey) -> Packed
    requires { IsNear corner key.now }
    ensures packed { result ≡ pack corner key.now }
    ensures of_key { IsOfKey corner result }
{
    Packed {
        order: (key.prefix - corner.prefix) as u64 * SPAN + (key.start - corner.start),
        row: key.row,
        side: key.side,
        run_start: key.run_start,
    }
}

fn unpack(corner: Corner, packed: &Packed) -> SortKey
    requires { IsOfKey corner packed.now }
    ensures { result ≡ unpack corner packed.now }
{
    SortKey {
        prefix: corner.prefix + u128::from(packed.order / SPAN),
        start: corner.start + packed.order % SPAN,
        row: packed.row,
        side: packed.side,
        run_start: packed.run_start,
    }
}

// All keys packed; `None` if an allocation failed.
fn pack_all(alloc: Global, corner: Corner, keys: &[SortKey]) -> Option<Vec<Packed>>
    requires { All (IsNear corner) keys.now }
    ensures packed { IfSome result (λ all. all.items ≡ map (pack corner) keys.now) }
    ensures of_keys { IfSome result (λ all. All (IsOfKey corner) all.items) }
{
    let Ok(mut all) = Vec::with_capacity(alloc, keys.len()) else {
        return None;
    };
    'keys: for key in keys {
        all.push_reserved(pack(corner, key));
    }
    Some(all)
}

// Overwrites the keys with the unpacked ones.
fn unpack_all(corner: Corner, all: &[Packed], keys: &mut [SortKey])
    requires len { length all.now ≡ length keys.old }
    requires all { All (IsOfKey corner) all.now }
    ensures { keys.new ≡ map (unpack corner) all.now }
{
    'all: for (place, packed) in all.iter().enumerate() {
        keys[place] = unpack(corner, packed);
    }
}

/// Sorts the keys by prefix and start, if they can be packed and there is memory for it. Returns whether it did; if
/// not, the keys have not changed.
pub(crate) fn sort_packed(alloc: Global, keys: &mut Vec<SortKey>) -> bool
    ensures same { IsPermutation keys.old.items keys.new.items }
    ensures order { OnTrue result (IsSorted prefix_start_cmp keys.new.items) }
    ensures kept { result ≡ false → keys.new.items ≡ keys.old.items }
{
    let corner = corner_of(keys);
    if !are_near(corner, keys) {
        return false;
    }
    let Some(mut all) = pack_all(alloc, corner, keys) else {
        return false;
    };
    all.sort_unstable_by_key(|packed| packed.order);
    unpack_all(corner, &all, keys);
    true
}
