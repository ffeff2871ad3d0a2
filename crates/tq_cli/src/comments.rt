// Comments in a file with a statement.

ghost use Rattle.std.specs.Prelude.{◌≡◌, IfOk};
ghost use Rattle.tq_cli.specs.Comments.{begins_comment, blanked, place_after, place_at, shown};
ghost use Rattle.tq_cli.specs.declared.comments.Place.TheVariants.{Outside};

use std::alloc::{AllocError, Global};

/// Where a byte of a statement's file is: outside of texts and comments, in a text between quotes, or in a comment.
#[derive(Clone, Copy, Debug, PartialEq, Eq)]
pub(crate) enum Place {
    Outside,
    Text,
    Comment,
}

// Whether the bytes begin with `--`.
fn begins_comment(bytes: &[u8]) -> bool
    ensures { result ≡ begins_comment bytes.now }
{
    matches!(bytes, [b'-', b'-', ..])
}

// Where the first of the bytes is, if the byte before it leads to this place.
fn place_at(place: Place, byte: u8, begins: bool) -> Place
    ensures { result ≡ place_at place byte begins }
{
    match place {
        Place::Outside if begins => Place::Comment,
        Place::Comment if byte == b'\n' => Place::Outside,
        _ => place,
    }
}

// Where a byte leads to.
fn place_after(place: Place, byte: u8) -> Place
    ensures { result ≡ place_after place byte }
{
    match place {
        Place::Outside if byte == b'\'' => Place::Text,
        Place::Text if byte == b'\'' => Place::Outside,
        _ => place,
    }
}

// A byte of a comment is shown as a blank.
fn shown(place: Place, byte: u8) -> u8
    ensures { result ≡ shown place byte }
{
    match place {
        Place::Comment => b' ',
        _ => byte,
    }
}

/// The statement in a file, with a blank in place of each byte of a comment: from `--` outside of a text between quotes to the
/// end of the line. So each byte of the statement keeps its place. `AllocError` if an allocation failed.
pub fn blank_comments(alloc: Global, bytes: &[u8]) -> Result<Vec<u8>, AllocError>
    ensures { IfOk result (λ text. text.items ≡ blanked Outside bytes.now) }
{
    let mut text = Vec::with_capacity(alloc, bytes.len())?;
    let mut place = Place::Outside;
    let mut left = bytes;
    'bytes: while let [byte, others @ ..] = left {
        let here = place_at(place, *byte, begins_comment(left));
        text.push(shown(here, *byte))?;
        place = place_after(here, *byte);
        left = others;
    }
    Ok(text)
}
