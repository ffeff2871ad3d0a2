// Messages about the fault of a statement.

ghost use Rattle.std.specs.Prelude.{◌≡◌, ◌≤◌, ◌++◌, ℕ, List, IfOk, OnOk, length, min};
ghost use Rattle.tq_diagnostics.specs.Details.{IsDetail, IsExpectedIf, has_expected, has_place, line_of, meaning_of, or_meaning, located_text, explanation_of};

use crate::expected::push_expected;
use crate::hints::{byte_hint, token_hint};
use crate::pointing::push_pointed;
use std::alloc::{AllocError, Global};
use tq_sql::{SqlFault, SqlFaultKind};

// The message for each kind of fault. An unexpected token has none: it gets a line of what is expected.
fn meaning(kind: SqlFaultKind) -> &'static [u8]
    ensures { result.now ≡ meaning_of kind }
{
    match kind {
        SqlFaultKind::BadByte => b"invalid character",
        SqlFaultKind::UnexpectedToken => b"",
        SqlFaultKind::NumberTooLarge => {
            b"a number must be from -9223372036854775808 to 9223372036854775807"
        }
        SqlFaultKind::UnclosedText => b"this text has no closing quote",
        SqlFaultKind::TooDeep => b"parentheses and NOT can be nested at most 32 levels deep",
        SqlFaultKind::TooLong => b"a statement has at most 65,536 bytes",
        SqlFaultKind::OutOfMemory => b"",
    }
}

// The hint if there is one, else the message for the kind.
fn or_meaning(hint: &'static [u8], kind: SqlFaultKind) -> &'static [u8]
    ensures { result.now ≡ or_meaning hint.now kind }
{
    if hint.len() > 0 { hint } else { meaning(kind) }
}

// The explanation of a fault, given the text before it and from it on.
fn explanation(
    alloc: Global,
    kind: SqlFaultKind,
    front: &[u8],
    rest: &[u8],
) -> Result<&'static [u8], AllocError>
    ensures { IfOk result (λ explanation. explanation.now ≡ explanation_of kind front.now rest.now) }
{
    match kind {
        SqlFaultKind::BadByte => {
            let hint = byte_hint(alloc, front, rest)?;
            Ok(or_meaning(hint, kind))
        }
        SqlFaultKind::UnexpectedToken => token_hint(alloc, front, rest),
        _ => Ok(meaning(kind)),
    }
}

/// Appends an explanation as a line of its own, unless it is empty.
pub(crate) fn push_line(text: &mut Vec<u8>, explanation: &[u8]) -> Result<(), AllocError>
    ensures { OnOk result (text.new.items ≡ text.old.items ++ line_of explanation.now) }
{
    if explanation.len() > 0 {
        text.extend_from_slice(b"  ")?;
        text.extend_from_slice(explanation)?;
        text.push(b'\n')?;
    }
    Ok(())
}

fn has_place(kind: SqlFaultKind) -> bool
    ensures { result ≡ has_place kind }
{
    match kind {
        SqlFaultKind::BadByte => true,
        SqlFaultKind::UnexpectedToken => true,
        SqlFaultKind::NumberTooLarge => true,
        SqlFaultKind::UnclosedText => true,
        SqlFaultKind::TooDeep => true,
        SqlFaultKind::TooLong => false,
        SqlFaultKind::OutOfMemory => false,
    }
}

// Appends the line of a fault with a caret, if the kind has a place, and its explanation.
fn push_located(
    alloc: Global,
    text: &mut Vec<u8>,
    kind: SqlFaultKind,
    bytes: &[u8],
    at: usize,
) -> Result<(), AllocError>
    requires { at ≤ length bytes.now }
    ensures { OnOk result (text.new.items ≡ text.old.items ++ located_text kind bytes.now at) }
{
    if has_place(kind) {
        push_pointed(alloc, text, bytes, at)?;
    }
    let explanation = explanation(alloc, kind, &bytes[..at], &bytes[at..])?;
    push_line(text, explanation)
}

fn has_expected(kind: SqlFaultKind) -> bool
    ensures { result ≡ has_expected kind }
{
    match kind {
        SqlFaultKind::BadByte => false,
        SqlFaultKind::UnexpectedToken => true,
        SqlFaultKind::NumberTooLarge => false,
        SqlFaultKind::UnclosedText => false,
        SqlFaultKind::TooDeep => false,
        SqlFaultKind::TooLong => false,
        SqlFaultKind::OutOfMemory => false,
    }
}

// Appends a line of what is expected after `front`, if it is to be reported.
fn push_expected_if(
    alloc: Global,
    text: &mut Vec<u8>,
    reported: bool,
    front: &[u8],
) -> Result<(), AllocError>
    ensures { OnOk result ((expected : List ℕ) × IsExpectedIf reported front.now expected × (text.new.items ≡ text.old.items ++ expected)) }
{
    if reported {
        return push_expected(alloc, text, front);
    }
    Ok(())
}

/// The message for the fault of a statement: its line, a caret below the place, and an explanation. For an unexpected
/// token it also lists what a statement can continue with there. `AllocError` if an allocation failed.
pub fn explain_statement(
    alloc: Global,
    bytes: &[u8],
    fault: SqlFault,
) -> Result<Vec<u8>, AllocError>
    ensures { IfOk result (λ text. IsDetail fault.kind bytes.now (min fault.at (length bytes.now)) text.items) }
{
    let SqlFault { kind, at } = fault;
    let at = (at as usize).min(bytes.len());
    let mut text = Vec::new(alloc);
    push_located(alloc, &mut text, kind, bytes, at)?;
    push_expected_if(alloc, &mut text, has_expected(kind), &bytes[..at])?;
    Ok(text)
}
