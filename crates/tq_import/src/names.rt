// Names of columns, from the header of a file.

ghost use Rattle.std.specs.Prelude.{◌≡◌, [], IfOk, false};
ghost use Rattle.tq_import.specs.HeaderNames.{begins_with_digit, suggested_name, words_after};

use std::alloc::{AllocError, Global};

// Whether the name begins with a digit.
fn begins_with_digit(name: &[u8]) -> bool
    ensures { result ≡ begins_with_digit name.now }
{
    match name {
        [first, ..] => first.is_ascii_digit(),
        [] => false,
    }
}

// The letters and digits of the bytes, with `_` for other bytes between them.
fn words_of(alloc: Global, bytes: &[u8]) -> Result<Vec<u8>, AllocError>
    ensures { IfOk result (λ name. name.items ≡ words_after [] false bytes.now) }
{
    let mut name = Vec::new(alloc);
    let mut gap = false;
    'each: for byte in bytes {
        if byte.is_ascii_alphanumeric() {
            if gap && !name.is_empty() {
                name.push(b'_')?;
            }
            name.push(byte.to_ascii_lowercase())?;
            gap = false;
        } else {
            gap = true;
        }
    }
    Ok(name)
}

/// The name that the field of a header suggests: `Employee ID` is `employee_id`, `2nd` is `_2nd`. It may be empty, too
/// long or a reserved word. `AllocError` if an allocation failed.
pub fn suggested_name(alloc: Global, field: &[u8]) -> Result<Vec<u8>, AllocError>
    ensures { IfOk result (λ name. name.items ≡ suggested_name field.now) }
{
    let words = words_of(alloc, field)?;
    if !begins_with_digit(&words) {
        return Ok(words);
    }
    let mut name = Vec::new(alloc);
    name.push(b'_')?;
    name.extend_from_slice(&words)?;
    Ok(name)
}
