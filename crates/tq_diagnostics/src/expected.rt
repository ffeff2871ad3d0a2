// What a statement can continue with at a place.

ghost use Rattle.std.specs.Prelude.{◌≡◌, ◌++◌, ℕ, List, IfOk, OnOk, map};
ghost use Rattle.tq_diagnostics.specs.Expected.{IsExpected, AreContinuations, StopsAt, CanContinue, named};

use std::alloc::{AllocError, Global};
use tq_sql::laws::{faults_are_refusals, faults_are_unique};
use tq_sql::{SqlFaultKind, read};

// The samples that are tried: the name of each in messages, and its text.
const SAMPLES: [(&[u8], &[u8]); 26] = [
    (b"VALIDTIME", b"VALIDTIME"),
    (b"PERIOD", b"PERIOD"),
    (b"SELECT", b"SELECT"),
    (b"FROM", b"FROM"),
    (b"WHERE", b"WHERE"),
    (b"GROUP BY", b"GROUP"),
    (b"BY", b"BY"),
    (b"EXCEPT ALL", b"EXCEPT"),
    (b"ALL", b"ALL"),
    (b"a name", b"x"),
    (b"a number", b"0"),
    (b"a text", b"''"),
    (b"COUNT", b"COUNT"),
    (b"SUM", b"SUM"),
    (b"AS", b"AS"),
    (b"NOT", b"NOT"),
    (b"AND", b"AND"),
    (b"OR", b"OR"),
    (b"= <> < <= > >=", b"="),
    (b"(", b"("),
    (b")", b")"),
    (b",", b","),
    (b".", b"."),
    (b"*", b"*"),
    (b";", b";"),
    (b"the end", b""),
];

// The byte at which reading stops, or `None` if the bytes are a statement.
fn stop_of(alloc: Global, bytes: &[u8]) -> Result<Option<u32>, AllocError>
    ensures { IfOk result (λ stop. StopsAt bytes.now stop) }
{
    faults_are_refusals();
    let fault = match read(alloc, bytes) {
        Ok(_) => return Ok(None),
        Err(fault) => fault,
    };
    if fault.kind == SqlFaultKind::OutOfMemory {
        return Err(AllocError);
    }
    Ok(Some(fault.at))
}

// Whether a statement can continue after `front` with the sample: reading both does not stop at the sample.
fn can_continue(alloc: Global, front: &[u8], sample: &[u8]) -> Result<bool, AllocError>
    ensures { IfOk result (λ goes. CanContinue front.now sample.now goes) }
{
    faults_are_unique();
    let mut trial = Vec::from_slice(alloc, front)?;
    trial.push(b' ')?;
    trial.extend_from_slice(sample)?;
    match stop_of(alloc, &trial)? {
        Some(at) => Ok(at as usize != front.len() + 1),
        None => Ok(true),
    }
}

// Appends the name of each sample with which a statement can continue after `front`.
fn push_continuations(
    alloc: Global,
    text: &mut Vec<u8>,
    front: &[u8],
    samples: &[(&[u8], &[u8])],
) -> Result<(), AllocError>
    ensures { OnOk result ((reported : List ℕ) × AreContinuations front.now (map named samples.now) reported × (text.new.items ≡ text.old.items ++ reported)) }
{
    'samples: for sample in samples {
        if can_continue(alloc, front, sample.1)? {
            text.extend_from_slice(b"  ")?;
            text.extend_from_slice(sample.0)?;
        }
    }
    Ok(())
}

/// Appends a line of what a statement can continue with after `front`.
pub(crate) fn push_expected(
    alloc: Global,
    text: &mut Vec<u8>,
    front: &[u8],
) -> Result<(), AllocError>
    ensures { OnOk result ((reported : List ℕ) × IsExpected front.now reported × (text.new.items ≡ text.old.items ++ reported)) }
{
    text.extend_from_slice(b"  expected:")?;
    push_continuations(alloc, text, front, &SAMPLES)?;
    text.push(b'\n')?;
    Ok(())
}
