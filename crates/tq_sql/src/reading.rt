// Reads a statement: first its tokens, then a recursive descent over them.

ghost use Rattle.std.specs.Prelude.{◌≡◌, ◌≢◌, ◌≤◌, IfErr, IfOk};
ghost use Rattle.tq_sql.specs.Descent.{stopped_at};
ghost use Rattle.tq_sql.specs.Faults.{out_of_memory};
ghost use Rattle.tq_sql.specs.Reading.{IsSqlFault, ParsesTo};

use crate::cursor::{Cursor, Refusal};
use crate::fault::{SqlFault, SqlFaultKind};
use crate::queries::statement;
use crate::statement::Statement;
use crate::tokens::{MAX_STATEMENT, fault, tokens};
use std::alloc::Global;

fn stopped(why: Refusal, at: usize) -> SqlFault
    requires { why ≢ Refusal.Memory → at ≤ MAX_STATEMENT }
    ensures { result ≡ stopped_at why at }
{
    match why {
        Refusal::Unexpected => fault(SqlFaultKind::UnexpectedToken, at),
        Refusal::TooDeep => fault(SqlFaultKind::TooDeep, at),
        Refusal::Memory => fault(SqlFaultKind::OutOfMemory, 0),
    }
}

/// The statement that a text makes. Faults: `TooLong` at byte 65,536 if there are more bytes; else the first token
/// fault from the left, `BadByte`, `NumberTooLarge` or `UnclosedText`; else `UnexpectedToken` at the first token with
/// which no statement continues, or at the end. It is `TooDeep` instead if a statement of one more level continues with
/// that token.
pub fn read(alloc: Global, bytes: &[u8]) -> Result<Statement, SqlFault>
    ensures statement { IfOk result (λ s. ParsesTo bytes.now s) }
    ensures fault { IfErr result (λ f. f ≢ out_of_memory → IsSqlFault bytes.now f) }
{
    let found = tokens(alloc, bytes)?;
    let mut cursor = Cursor::new(&found);
    let outcome = statement(alloc, &mut cursor);
    let at = cursor.offset().unwrap_or(bytes.len());
    match outcome {
        Ok(statement) => Ok(statement),
        Err(why) => Err(stopped(why, at)),
    }
}
