// The clause of a statement in which a place is.

ghost use Rattle.std.specs.Prelude.{◌≡◌, IfOk};
ghost use Rattle.tq_diagnostics.specs.Clauses.{clause_after, clause_of};

use crate::name_places::quoted_after;
use std::alloc::{AllocError, Global};
use tq_base::{is_name_byte, is_same_word};

/// A clause of a statement. The first is all that is before SELECT.
#[derive(Clone, Copy, Debug, PartialEq, Eq)]
pub(crate) enum Clause {
    Start,
    Select,
    From,
    Where,
    Group,
}

// The clause after a word, given the one before it.
fn clause_after(clause: Clause, word: &[u8]) -> Clause
    ensures { result ≡ clause_after clause word.now }
{
    if is_same_word(word, b"select") {
        return Clause::Select;
    }
    if is_same_word(word, b"from") {
        return Clause::From;
    }
    if is_same_word(word, b"where") {
        return Clause::Where;
    }
    if is_same_word(word, b"group") {
        return Clause::Group;
    }
    clause
}

/// The clause in which the end of the bytes is. `AllocError` if an allocation failed.
pub(crate) fn clause_of(alloc: Global, bytes: &[u8]) -> Result<Clause, AllocError>
    ensures { IfOk result (λ clause. clause ≡ clause_of bytes.now) }
{
    let mut quoted = false;
    let mut word = Vec::new(alloc);
    let mut clause = Clause::Start;
    'bytes: for byte in bytes {
        let open = quoted;
        quoted = quoted_after(open, *byte);
        if !open && is_name_byte(*byte) {
            word.push(*byte)?;
        } else {
            clause = clause_after(clause, &word);
            word.clear();
        }
    }
    Ok(clause_after(clause, &word))
}
