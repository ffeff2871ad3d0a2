//! Printing of faults and limits.

use std::alloc::AllocError;
use std::fmt::Write;
use tq_event::LoadFaultKind::{
    BadHeader, BadInt, BadPeriod, DuplicateName, FieldCount, NotUtf8, OutOfMemory, TextTooLong,
    TooManyColumns, TooManyEvents, TooManyTables,
};
use tq_event::{LoadFault, MAX_EVENTS, MAX_TABLES};
use tq_sql::SqlFaultKind::{
    self, BadByte, NumberTooLarge, TooDeep, TooLong, UnclosedText, UnexpectedToken,
};
use tq_sql::{MAX_STATEMENT, SqlFault};

/// Prints the number and the name of each fault of files, the fault of a failed allocation, and the limits.
pub(crate) fn print_load_faults(out: &mut String) -> Result<(), AllocError> {
    for kind in [
        BadHeader,
        DuplicateName,
        FieldCount,
        BadInt,
        TextTooLong,
        BadPeriod,
        NotUtf8,
        TooManyTables,
        TooManyColumns,
        TooManyEvents,
        OutOfMemory,
    ] {
        writeln!(out, "{} {kind}", kind as u32)?;
    }
    writeln!(out, "refused memory: {}", LoadFault::from(AllocError))?;
    writeln!(out, "at most {MAX_TABLES} tables, {MAX_EVENTS} events")
}

/// Prints the number and the name of each fault of statements, the fault of a failed allocation, and the limit.
pub(crate) fn print_statement_faults(out: &mut String) -> Result<(), AllocError> {
    for kind in [
        BadByte,
        UnexpectedToken,
        NumberTooLarge,
        UnclosedText,
        TooDeep,
        TooLong,
        SqlFaultKind::OutOfMemory,
    ] {
        writeln!(out, "{} {kind}", kind as u8)?;
    }
    let SqlFault { kind, at } = SqlFault::from(AllocError);
    writeln!(out, "refused memory: {kind} at {at}")?;
    writeln!(out, "at most {MAX_STATEMENT} bytes")
}
