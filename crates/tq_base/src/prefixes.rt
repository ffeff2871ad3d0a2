//! Normalized key prefixes: numbers that never decrease as values increase. Comparing two of them decides most
//! comparisons without reading the values.

ghost use Rattle.std.specs.Prelude.{◌≡◌, drop};
ghost use Rattle.tq_base.specs.Contents.{Int, Text};
ghost use Rattle.tq_base.specs.NormalizedKeys.{normalized_key, HasBytes};
ghost use Rattle.tq_base.specs.TieBreak.{text_of, value_after};
ghost use Rattle.tq_base.specs.ValueOrder.{value_cmp};

use crate::short_text::{head_of, text_prefix};
use crate::value::{Repr, Value, ValueRef};
use std::cmp::Ordering;

// The numbers of 64 signed bits are below this one: 2^63.
const SPAN: i128 = 0x8000_0000_0000_0000;

// Numbers of more than 64 bits have the prefix of the next number beyond those of 64 bits.
fn int_prefix(number: i128) -> u128
    ensures { result ≡ normalized_key (Int number) }
{
    (number.clamp(-SPAN - 1, SPAN) + SPAN + 1) as u128
}

// The prefix of a text with these bytes.
fn bytes_prefix(bytes: &[u8]) -> u128
    ensures prefix { result ≡ normalized_key (Text bytes.now) }
    ensures bytes { HasBytes (Text bytes.now) }
{
    text_prefix(&head_of(bytes), bytes.len().min(15) as u8)
}

/// The normalized key prefix of a value: a greater value never has a lesser prefix.
pub fn normalized_key(value: &Value) -> u128
    ensures prefix { result ≡ normalized_key value.now }
    ensures bytes { HasBytes value.now }
{
    match &value.kept {
        Repr::Int(number) => int_prefix(i128::from(*number)),
        Repr::Short(text) => text.prefix(),
        Repr::Medium(_, text) => bytes_prefix(text.as_ref().get().as_bytes()),
        Repr::Long(text) => bytes_prefix(text.as_ref().get().as_bytes()),
        Repr::Wide(number) => int_prefix(*number.as_ref()),
    }
}

// `normalized_key`, faster for values without a box.
pub(crate) fn prefix_in_place(value: &Value) -> u128
    ensures prefix { result ≡ normalized_key value.now }
    ensures bytes { HasBytes value.now }
{
    match &value.kept {
        Repr::Int(number) => int_prefix(i128::from(*number)),
        Repr::Short(text) => text.prefix(),
        _ => normalized_key(value),
    }
}

/// The bytes from the offset on; empty if there are none.
pub(crate) fn bytes_after(bytes: &[u8], offset: usize) -> &[u8]
    ensures { result.now ≡ drop offset bytes.now }
{
    &bytes[offset.min(bytes.len())..]
}

/// The bytes of a text from the offset on; empty for a number.
pub(crate) fn text_after(value: &Value, offset: usize) -> &[u8]
    ensures { result.now ≡ text_of (value_after offset value.now) }
{
    if let Some(bytes) = value.tail_after(offset) {
        return bytes;
    }
    match value.as_ref() {
        ValueRef::Int(_) => &[],
        ValueRef::Text(text) => bytes_after(text.as_bytes(), offset),
    }
}

/// The prefix of a number, or of a text from the offset on.
pub(crate) fn prefix_after(value: &Value, offset: usize) -> u128
    ensures prefix { result ≡ normalized_key (value_after offset value.now) }
    ensures bytes { HasBytes (value_after offset value.now) }
{
    if let Some(bytes) = value.tail_after(offset) {
        return bytes_prefix(bytes);
    }
    match value.as_ref() {
        ValueRef::Int(number) => int_prefix(number),
        ValueRef::Text(text) => bytes_prefix(bytes_after(text.as_bytes(), offset)),
    }
}

/// Compares two texts by their bytes from the offset on, other values as `Value::compare` does.
pub(crate) fn compare_after(one: &Value, other: &Value, offset: usize) -> Ordering
    ensures { result ≡ value_cmp (value_after offset one.now) (value_after offset other.now) }
{
    match (one.as_ref(), other.as_ref()) {
        (ValueRef::Text(left), ValueRef::Text(right)) => {
            bytes_after(left.as_bytes(), offset).cmp(bytes_after(right.as_bytes(), offset))
        }
        _ => one.compare(other),
    }
}
