//! Parsing of statements, and their printing.

use crate::shown::show_statement;
use std::alloc::{AllocError, Global};
use std::fmt::Write;
use tq_sql::{Cond, SqlFault, Statement, read};

// Longer statements are printed in short.
const LONG: usize = 1_000;

fn print_fault(fault: SqlFault, out: &mut String) -> Result<(), AllocError> {
    let SqlFault { kind, at } = fault;
    writeln!(out, "{kind} at {at}")
}

// The kind of a statement's condition.
fn kind_of(statement: &Statement) -> &'static str {
    match &statement.left.cond {
        Some(Cond::Is { .. }) => "a comparison",
        Some(Cond::And(_, _)) => "two parts joined by AND",
        Some(Cond::Or(_, _)) => "two parts joined by OR",
        Some(Cond::Not(_)) => "a part negated",
        None => "no condition",
    }
}

// Prints the statement of a text of `len` bytes.
fn print_statement(statement: &Statement, len: usize, out: &mut String) -> Result<(), AllocError> {
    if len > LONG {
        return writeln!(out, "{len} bytes, {}", kind_of(statement));
    }
    show_statement(out, statement)?;
    out.push('\n')
}

/// Prints the statement of the text, or its fault.
pub(crate) fn print_read(alloc: Global, text: &[u8], out: &mut String) -> Result<(), AllocError> {
    match read(alloc, text) {
        Ok(statement) => print_statement(&statement, text.len(), out),
        Err(fault) => print_fault(fault, out),
    }
}

// Whether the text is a statement. Prints its fault unless it is an unexpected token within its length.
fn is_read(alloc: Global, text: &[u8], out: &mut String) -> Result<bool, AllocError> {
    match read(alloc, text) {
        Ok(_) => Ok(true),
        Err(fault) => {
            if fault.kind != tq_sql::SqlFaultKind::UnexpectedToken
                || fault.at as usize > text.len()
            {
                print_fault(fault, out)?;
            }
            Ok(false)
        }
    }
}

/// Prints the number of prefixes of the text that are statements. Others end in an unexpected token.
pub(crate) fn print_beginnings(
    alloc: Global,
    text: &[u8],
    out: &mut String,
) -> Result<(), AllocError> {
    let mut count = 0u32;
    for len in 0..=text.len() {
        if is_read(alloc, &text[..len], out)? {
            count = count.saturating_add(1);
        }
    }
    let others = (text.len() as u64 + 1).saturating_sub(u64::from(count));
    writeln!(
        out,
        "{count} are statements, {others} stop at an unexpected token within their length"
    )
}
