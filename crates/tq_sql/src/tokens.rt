// Cuts a text into tokens.

ghost use Rattle.std.specs.Prelude.{◌≡◌, ◌≢◌, ◌<◌, ◌≤◌, ◌+◌, length, map, slice_index, IfErr, IfOk, IfSome, Ok, Err};
ghost use Rattle.std.specs.List.{prefix_len};
ghost use Rattle.std.specs.Char.{is_ascii_digit};
ghost use Rattle.tq_sql.specs.Faults.{out_of_memory};
ghost use Rattle.tq_sql.specs.Tokens as spec;
ghost use Rattle.tq_sql.specs.TokenViews.{token_view};

use crate::fault::{SqlFault, SqlFaultKind};
use crate::texts::{text_length, utf8_fault};
use crate::token::{Token, TokenKind};
use crate::words::word_kind;
use std::alloc::Global;
use tq_base::{is_name_byte, read_int, word_length};

/// The most bytes of a statement.
pub const MAX_STATEMENT: usize = 65_536;

fn is_space(byte: u8) -> bool
    ensures { result ≡ spec.is_space byte }
{
    byte == b'\t' || byte == b'\n' || byte == b'\r' || byte == b' '
}

// The byte at `place`, or 0 after the end.
fn byte_at(bytes: &[u8], place: usize) -> u8
    ensures value { result ≡ slice_index bytes.now place }
    ensures within { result ≢ 0 → place < length bytes.now }
{
    if place < bytes.len() { bytes[place] } else { 0 }
}

// The number of leading digits.
fn digits_length(bytes: &[u8]) -> usize
    ensures value { result ≡ prefix_len is_ascii_digit bytes.now }
    ensures within { result ≤ length bytes.now }
{
    for (place, byte) in bytes.iter().enumerate() {
        if !byte.is_ascii_digit() {
            return place;
        }
    }
    bytes.len()
}

pub fn fault(kind: SqlFaultKind, at: usize) -> SqlFault
    requires { at ≤ MAX_STATEMENT }
    ensures { result ≡ spec.fault kind at }
{
    SqlFault {
        kind,
        at: at as u32,
    }
}

// The leading sign: its kind and its length.
fn mark(bytes: &[u8]) -> Option<(TokenKind, usize)>
    ensures value { result ≡ spec.mark (slice_index bytes.now 0) (slice_index bytes.now 1) }
    ensures within { IfSome result (λ r. (0 < r.1) × (r.1 ≤ length bytes.now)) }
{
    let first = byte_at(bytes, 0);
    let second = byte_at(bytes, 1);
    match first {
        b'<' if second == b'>' => Some((TokenKind::Ne, 2)),
        b'<' if second == b'=' => Some((TokenKind::Le, 2)),
        b'<' => Some((TokenKind::Lt, 1)),
        b'>' if second == b'=' => Some((TokenKind::Ge, 2)),
        b'>' => Some((TokenKind::Gt, 1)),
        b'=' => Some((TokenKind::Eq, 1)),
        b'(' => Some((TokenKind::Open, 1)),
        b')' => Some((TokenKind::Close, 1)),
        b',' => Some((TokenKind::Comma, 1)),
        b'.' => Some((TokenKind::Dot, 1)),
        b'*' => Some((TokenKind::Star, 1)),
        b';' => Some((TokenKind::Semicolon, 1)),
        _ => None,
    }
}

// The leading number: a digit, or a `-` before a digit, and the digits after it.
fn number(bytes: &[u8], at: usize) -> Result<(TokenKind, usize), SqlFault>
    requires some { 0 < length bytes.now }
    requires room { at + length bytes.now ≤ MAX_STATEMENT }
    ensures value { result ≡ spec.number_at at bytes.now }
    ensures within { IfOk result (λ r. (0 < r.1) × (r.1 ≤ length bytes.now)) }
{
    let size = 1 + digits_length(&bytes[1..]);
    match read_int(&bytes[..size]) {
        None => Err(fault(SqlFaultKind::NumberTooLarge, at)),
        Some(_) => Ok((TokenKind::Number, size)),
    }
}

// The leading quoted text.
fn text(bytes: &[u8], at: usize) -> Result<(TokenKind, usize), SqlFault>
    requires some { 0 < length bytes.now }
    requires room { at + length bytes.now ≤ MAX_STATEMENT }
    ensures value { result ≡ spec.text_at at bytes.now }
    ensures within { IfOk result (λ r. (0 < r.1) × (r.1 ≤ length bytes.now)) }
{
    let inside = &bytes[1..];
    match text_length(inside) {
        None => Err(fault(SqlFaultKind::UnclosedText, at)),
        Some(size) => match utf8_fault(&inside[..size]) {
            None => Ok((TokenKind::Text, size + 2)),
            Some(valid) => Err(fault(SqlFaultKind::BadByte, at + 1 + valid)),
        },
    }
}

// The kind and the length of the first token.
#[tactic(auto, unfolding(crate::specs::Tokens::token_at))]
fn token_at(bytes: &[u8], at: usize) -> Result<(TokenKind, usize), SqlFault>
    requires some { 0 < length bytes.now }
    requires room { at + length bytes.now ≤ MAX_STATEMENT }
    ensures value { result ≡ spec.token_at at bytes.now }
    ensures within { IfOk result (λ r. (0 < r.1) × (r.1 ≤ length bytes.now)) }
{
    let first = byte_at(bytes, 0);
    if is_name_byte(first) && !first.is_ascii_digit() {
        let size = word_length(bytes);
        Ok((word_kind(&bytes[..size]), size))
    } else if first.is_ascii_digit() || (first == b'-' && byte_at(bytes, 1).is_ascii_digit()) {
        number(bytes, at)
    } else if first == b'\'' {
        text(bytes, at)
    } else {
        match mark(bytes) {
            None => Err(fault(SqlFaultKind::BadByte, at)),
            Some(found) => Ok(found),
        }
    }
}

/// The tokens of a text, or its first token fault from the left.
#[tactic(auto, using(crate::proofs::TokenLemmas::steps))]
pub fn tokens(alloc: Global, bytes: &[u8]) -> Result<Vec<Token<'_>>, SqlFault>
    ensures tokens { IfOk result (λ found. spec.tokens_of bytes.now ≡ Ok (map token_view found.items)) }
    ensures fault { IfErr result (λ e. e ≢ out_of_memory → spec.tokens_of bytes.now ≡ Err e) }
{
    if bytes.len() > MAX_STATEMENT {
        return Err(fault(SqlFaultKind::TooLong, MAX_STATEMENT));
    }
    let mut found = Vec::new(alloc);
    let mut at = 0;
    let mut rest = bytes;
    'bytes: while let [first, after @ ..] = rest {
        if is_space(*first) {
            at += 1;
            rest = after;
        } else {
            let (kind, size) = token_at(rest, at)?;
            let (text, after) = rest.split_at(size);
            found.push(Token { at, kind, text })?;
            at += size;
            rest = after;
        }
    }
    Ok(found)
}
