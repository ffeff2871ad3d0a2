// Quoted texts, in which two quotes in a row stand for one.

ghost use Rattle.std.specs.Prelude.{◌≡◌, ◌<◌, ◌≤◌, ◌^◌, length, IfOk, IfSome};
ghost use Rattle.tq_sql.specs.Tokens as spec;

use std::alloc::{AllocError, Global};

/// The number of bytes before the closing quote; `rest` begins after the opening one. `None` if there is no closing
/// quote.
pub fn text_length(mut rest: &[u8]) -> Option<usize>
    requires { length rest.now < 2 ^ 63 }
    ensures value { result ≡ spec.text_length rest.entry.now }
    ensures within { IfSome result (λ n. n < length rest.entry.now) }
{
    let mut passed = 0;
    'bytes: while let [byte, after @ ..] = rest {
        if *byte != b'\'' {
            passed += 1;
            rest = after;
        } else if let [b'\'', further @ ..] = after {
            passed += 2;
            rest = further;
        } else {
            return Some(passed);
        }
    }
    None
}

/// The number of bytes before the first that is not UTF-8, or `None` if all are.
pub fn utf8_fault(bytes: &[u8]) -> Option<usize>
    ensures value { result ≡ spec.utf8_fault bytes.now }
    ensures within { IfSome result (λ n. n ≤ length bytes.now) }
{
    match std::str::from_utf8(bytes) {
        Ok(_) => None,
        Err(stop) => Some(stop.valid_up_to()),
    }
}

// Replaces each doubled quote by one.
fn undoubled(alloc: Global, inside: &[u8]) -> Result<Vec<u8>, AllocError>
    ensures { IfOk result (λ bytes. bytes.items ≡ spec.undoubled inside.now) }
{
    let mut bytes = Vec::new(alloc);
    let mut is_second = false;
    for byte in inside {
        if is_second && *byte == b'\'' {
            is_second = false;
        } else {
            bytes.push(*byte)?;
            is_second = *byte == b'\'';
        }
    }
    Ok(bytes)
}

/// The bytes inside the quotes, with each doubled quote as one; `AllocError` if an allocation failed.
pub fn unquoted(alloc: Global, written: &[u8]) -> Result<Vec<u8>, AllocError>
    ensures { IfOk result (λ bytes. bytes.items ≡ spec.unquoted written.now) }
{
    match written {
        [_, inside @ .., _] => undoubled(alloc, inside),
        _ => Ok(Vec::new(alloc)),
    }
}
