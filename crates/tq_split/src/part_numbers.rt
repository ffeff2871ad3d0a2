// The number of the part that a row of a divided table belongs to: a hash of one of its values, scaled.

ghost use Rattle.std.specs.Prelude.{◌≡◌, ◌≤◌};
ghost use Rattle.tq_split.specs.PartNumbers.{number_code, part_number, scaled, spread, text_code, value_code};

use tq_base::{Value, ValueRef};

/// 2^64 divided by the golden ratio. Its multiples by consecutive numbers lie evenly in the numbers of 64 bits.
const GOLDEN: u64 = 0x9E37_79B9_7F4A_7C15;

/// The odd base of the polynomial of a text: the prime of the 64-bit FNV hash.
const BASE: u64 = 0x0100_0000_01B3;

// The absolute value of the number, modulo 2^64.
fn number_code(number: i128) -> u64
    ensures { result ≡ number_code number }
{
    (number.unsigned_abs() % (1 << 64)) as u64
}

// The polynomial of the bytes, modulo 2^64.
fn text_code(text: &[u8]) -> u64
    ensures { result ≡ text_code 0 text.now }
{
    let mut code = 0u64;
    'bytes: for byte in text {
        code = code.wrapping_mul(BASE).wrapping_add(u64::from(*byte));
    }
    code
}

fn value_code(value: &Value) -> u64
    ensures { result ≡ value_code value.now }
{
    match value.as_ref() {
        ValueRef::Int(number) => number_code(number),
        ValueRef::Text(text) => text_code(text.as_bytes()),
    }
}

// Spreads codes over the numbers of 64 bits, also codes that differ little.
fn spread(code: u64) -> u64
    ensures { result ≡ spread code }
{
    code.wrapping_mul(GOLDEN)
}

// The part in which a number of 64 bits lies, if their range is divided evenly.
fn scaled(hash: u64, parts: u32) -> u32
    requires { 1 ≤ parts }
    ensures { result ≡ scaled parts hash }
{
    let place = (hash >> 32) * u64::from(parts);
    (place >> 32) as u32
}

/// The number of the part, from 0, that a row with this value belongs to. Equal values belong to the same part.
pub fn part_number(value: &Value, parts: u32) -> u32
    requires { 1 ≤ parts }
    ensures { result ≡ part_number parts value.now }
{
    scaled(spread(value_code(value)), parts)
}
