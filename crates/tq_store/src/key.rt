//! Tree keys: the keys under which a tree has rows.

ghost use Rattle.std.specs.Prelude.{◌≡◌, ◌+◌, ◌*◌, ◌<◌, ◌^◌};
ghost use Rattle.tq_base.specs.KeyRanges.{key_of};
ghost use Rattle.tq_store.specs.Keys.{shifted};

use tq_base::{Value, ValueRef};

/// The distance from the least number of 64 signed bits to 0: 2^63.
const SPAN: i128 = 0x8000_0000_0000_0000;

/// The number of tree keys for each key, one for each row number.
pub const ROWS: u128 = 4_294_967_296;

/// The number, counted from the least number of 64 signed bits, which gives 0. A wider number counts as the nearest
/// number of 64 signed bits.
pub fn shift(number: i128) -> u128
    ensures value { result ≡ shifted number }
    ensures small { result < 2 ^ 64 }
{
    (number.clamp(-SPAN, SPAN - 1) + SPAN) as u128
}

// The key, counted from the least key.
pub(crate) fn shift_key(key: i64) -> u128
    ensures value { result ≡ shifted key }
    ensures small { result < 2 ^ 64 }
{
    shift(i128::from(key))
}

// The key of a row with these values.
fn key(values: &[Value]) -> i128
    ensures { result ≡ key_of values.now }
{
    match values.first() {
        Some(value) => match value.as_ref() {
            ValueRef::Int(number) => number,
            ValueRef::Text(_) => 0,
        },
        None => 0,
    }
}

/// The key of a row with these values, counted from the least key. It is the upper part of the row's tree key.
pub fn first_key(values: &[Value]) -> u64
    ensures { result ≡ shifted (key_of values.now) }
{
    shift(key(values)) as u64
}

/// The least tree key of a row with this key.
pub fn least_tree_key(key: i64) -> u128
    ensures { result ≡ shifted key * 4294967296 }
{
    shift_key(key) * ROWS
}

// The tree key of the row with this number; `key` is counted from the least key.
pub(crate) fn row_key(key: u64, row: u32) -> u128
    ensures value { result ≡ key * 4294967296 + row }
    ensures small { result < 2 ^ 96 }
{
    u128::from(key) * ROWS + u128::from(row)
}
