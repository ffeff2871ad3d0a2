//! Digests of lists of values. Different lists mostly have different digests.

ghost use Rattle.std.specs.Prelude.{◌≡◌};
ghost use Rattle.tq_snapshot.specs.Digests.{bytes_mixed, digest_of, mixed, value_mixed};

use tq_base::{Value, ValueRef, Values};
use tq_store::shift;

/// 2^64 divided by the golden ratio; its multiples are spread evenly.
const FACTOR: u64 = 0x9E37_79B9_7F4A_7C15;

/// The word that is mixed in at the end of a text; it is larger than every byte.
const END_OF_TEXT: u64 = 256;

fn mix(state: u64, word: u64) -> u64
    ensures { result ≡ mixed state word }
{
    state.wrapping_add(word).wrapping_mul(FACTOR)
}

fn mix_bytes(state: u64, bytes: &[u8]) -> u64
    ensures { result ≡ bytes_mixed state bytes.now }
{
    let mut mixed = state;
    'bytes: for byte in bytes {
        mixed = mix(mixed, u64::from(*byte));
    }
    mixed
}

fn mix_value(state: u64, value: &Value) -> u64
    ensures { result ≡ value_mixed state value.now }
{
    match value.as_ref() {
        ValueRef::Int(number) => mix(state, shift(number) as u64),
        ValueRef::Text(text) => mix(mix_bytes(state, text.as_bytes()), END_OF_TEXT),
    }
}

/// The digest of the values, in 32 bits.
pub(crate) fn digest(values: &Values) -> u32
    ensures { result ≡ digest_of values.now }
{
    let mut mixed = 0;
    'values: for value in values.get() {
        mixed = mix_value(mixed, value);
    }
    (mixed >> 32) as u32
}
