// The command line: what the program was asked, with names, paths and statements as their bytes.

ghost use Rattle.std.specs.Prelude.{◌≡◌, IfOk, IfErr, codes, map};
ghost use Rattle.std.specs.String.{string_bytes};
ghost use Rattle.clap.specs.Words.{found_of, kind_of, rows_of, subcommand_rows_of};
ghost use Rattle.tq_cli.specs.CommandLine.{HasInvalidParts, HasInvalidTables, IsCheckOf, IsInvalid, IsInvalidRequest, IsInvalidSplit, IsInvalidTables, IsMergeOf, IsPrintOf, IsRequestIn, IsRequestOf, IsSessionOf, IsSplitOf, IsUsageFault, number_of};

use crate::commands::tq_command;
use crate::imports::read_import;
use crate::layouts::read_ask;
use crate::questions::{
    read_calendar, read_draw, read_statement, read_tables, read_total, read_workers,
};
use crate::request::{CheckRequest, MergeRequest, Request, SessionRequest, SplitRequest};
use crate::values::{read_flag, read_form, read_list, read_number, read_text};
use crate::words::bytes_of;
use clap::error::ErrorKind;
use clap::{ArgMatches, Error};
use std::alloc::{AllocError, Global};
use thiserror::Error;

/// The most workers of one answer.
pub const WORKER_LIMIT: u32 = 16;

/// The most parts into which tables are divided.
pub const PART_LIMIT: u32 = 1_000;

/// Why a command line was not read: it is none of `tq` (1), or it found no memory (2).
#[derive(Clone, Copy, Debug, PartialEq, Eq, Error)]
pub enum CommandLineFault {
    #[error("invalid command line")]
    BadCommandLine = 1,
    #[error("out of memory")]
    OutOfMemory = 2,
}

impl From<AllocError> for CommandLineFault {
    ghost use Rattle.tq_cli.specs.declared.command_line.CommandLineFault.TheVariants.{OutOfMemory};

    ghost from_gives = { λ _ fault. fault ≡ OutOfMemory };

    fn from(_error: AllocError) -> CommandLineFault {
        CommandLineFault::OutOfMemory
    }
}

/// Why a command line was not read, and what a person is told of it, if anything.
#[derive(Drop)]
pub struct UsageError {
    pub fault: CommandLineFault,
    pub detail: Option<String>,
}

impl From<AllocError> for UsageError {
    ghost use Rattle.tq_cli.specs.declared.command_line.CommandLineFault.TheVariants.{OutOfMemory};

    ghost from_gives = { λ _ error. error.fault ≡ OutOfMemory };

    fn from(_error: AllocError) -> UsageError {
        UsageError {
            fault: CommandLineFault::OutOfMemory,
            detail: None,
        }
    }
}

impl From<CommandLineFault> for UsageError {
    ghost from_gives = { λ fault error. error.fault ≡ fault };

    fn from(fault: CommandLineFault) -> UsageError {
        UsageError {
            fault,
            detail: None,
        }
    }
}

impl UsageError {
    /// A command line that is none of `tq`, for a reason.
    pub(crate) fn with_reason(reason: Result<String, AllocError>) -> UsageError
        ensures { result.fault ≡ CommandLineFault.BadCommandLine }
    {
        UsageError {
            fault: CommandLineFault::BadCommandLine,
            detail: reason.ok(),
        }
    }
}

/// Reads the words after the program's name, each the `char_text` of its bytes. A request is what clap's `tq_app` makes
/// of the words: each value of their subcommand, or a text to print. `BadCommandLine` means that clap refuses the words,
/// or that `--table` or `--workers` has an invalid value.
pub fn read_command_line(alloc: Global, words: &[String]) -> Result<Request, UsageError>
    ensures request { IfOk result (IsRequestIn (map (λ w. string_bytes w) words.now)) }
    ensures refused { IfErr result (λ e. e.fault ≡ CommandLineFault.BadCommandLine
        → IsInvalid (map (λ w. string_bytes w) words.now)) }
{
    let command = tq_command(alloc)?;
    match command.try_get_matches_from(words) {
        Ok(matches) => read_request(alloc, &matches),
        Err(error) => help_or_version(alloc, &error),
    }
}

// What the command asks.
fn read_request(alloc: Global, matches: &ArgMatches<'_>) -> Result<Request, UsageError>
    ensures request { IfOk result (IsRequestOf (subcommand_rows_of matches.now)) }
    ensures refused { IfErr result (λ e. e.fault ≡ CommandLineFault.BadCommandLine
        → IsInvalidRequest (subcommand_rows_of matches.now)) }
{
    if let Some(ask) = matches.subcommand_matches("ask") {
        return Ok(Request::Ask(read_ask(alloc, ask)?));
    }
    if let Some(draw) = matches.subcommand_matches("draw") {
        return Ok(Request::Draw(read_draw(alloc, draw)?));
    }
    if let Some(total) = matches.subcommand_matches("total") {
        return Ok(Request::Total(read_total(alloc, total)?));
    }
    if let Some(calendar) = matches.subcommand_matches("calendar") {
        return Ok(Request::Calendar(read_calendar(alloc, calendar)?));
    }
    if let Some(check) = matches.subcommand_matches("check") {
        return Ok(Request::Check(read_check(alloc, check)?));
    }
    if let Some(session) = matches.subcommand_matches("session") {
        return Ok(Request::Session(read_session(alloc, session)?));
    }
    if let Some(import) = matches.subcommand_matches("import") {
        return Ok(Request::Import(read_import(alloc, import)?));
    }
    if let Some(split) = matches.subcommand_matches("split") {
        return Ok(Request::Split(read_split(alloc, split)?));
    }
    if let Some(merge) = matches.subcommand_matches("merge") {
        return Ok(Request::Merge(read_merge(alloc, merge)?));
    }
    Err(UsageError::from(CommandLineFault::BadCommandLine))
}

// The help or the version that was asked for, or the fault.
fn help_or_version(alloc: Global, error: &Error) -> Result<Request, UsageError>
    ensures printed { IfOk result (IsPrintOf (kind_of error.now)) }
    ensures refused { IfErr result (λ e. e.fault ≡ CommandLineFault.BadCommandLine → IsUsageFault (kind_of error.now)) }
{
    let text = format!(in alloc; "{error}");
    match error.kind() {
        ErrorKind::DisplayHelp | ErrorKind::DisplayVersion => Ok(Request::Print(text?)),
        ErrorKind::OutOfMemory => Err(UsageError::from(CommandLineFault::OutOfMemory)),
        _ => Err(UsageError::with_reason(text)),
    }
}

// What `tq check` was asked.
fn read_check(alloc: Global, check: &ArgMatches<'_>) -> Result<CheckRequest, UsageError>
    ensures check { IfOk result (IsCheckOf (rows_of (found_of check.now))) }
    ensures refused { IfErr result (λ e. e.fault ≡ CommandLineFault.BadCommandLine
        → IsInvalidTables (rows_of (found_of check.now))) }
{
    let tables = read_tables(alloc, check, 1)?;
    let workers = read_workers(alloc, check)?;
    let references = read_list(alloc, check, "refers")?;
    Ok(CheckRequest {
        tables,
        workers,
        form: read_form(check),
        overlaps: read_flag(check, "overlaps"),
        gaps: read_flag(check, "gaps"),
        references,
        explain: read_flag(check, "explain"),
    })
}

// What `tq session` is about.
fn read_session(alloc: Global, session: &ArgMatches<'_>) -> Result<SessionRequest, UsageError>
    ensures session { IfOk result (IsSessionOf (rows_of (found_of session.now))) }
    ensures refused { IfErr result (λ e. e.fault ≡ CommandLineFault.BadCommandLine
        → HasInvalidTables 0 (rows_of (found_of session.now))) }
{
    let tables = read_tables(alloc, session, 0)?;
    let form = read_form(session);
    let explain = read_flag(session, "explain");
    Ok(SessionRequest {
        tables,
        form,
        explain,
    })
}

// How many parts tables are divided into.
fn read_parts(alloc: Global, command: &ArgMatches<'_>) -> Result<u32, UsageError>
    ensures number { IfOk result (λ parts. parts ≡ number_of (codes "parts") (rows_of (found_of command.now))) }
    ensures refused { IfErr result (λ _. HasInvalidParts (rows_of (found_of command.now))) }
{
    let parts = read_number(command, "parts");
    if parts < 1 || parts > PART_LIMIT {
        return Err(UsageError::with_reason(format!(in alloc;
            "error: --parts takes 1 to 1000\n\nFor more information, try '--help'.\n"
        )));
    }
    Ok(parts)
}

// What `tq split` was asked.
fn read_split(alloc: Global, split: &ArgMatches<'_>) -> Result<SplitRequest, UsageError>
    ensures split { IfOk result (IsSplitOf (rows_of (found_of split.now))) }
    ensures refused { IfErr result (λ e. e.fault ≡ CommandLineFault.BadCommandLine
        → IsInvalidSplit (rows_of (found_of split.now))) }
{
    let tables = read_tables(alloc, split, 0)?;
    let parts = read_parts(alloc, split)?;
    let statement = read_statement(alloc, split)?;
    let statement_file = bytes_of(alloc, read_text(split, "statement-file"))?;
    let output = bytes_of(alloc, read_text(split, "out"))?;
    Ok(SplitRequest {
        tables,
        parts,
        form: read_form(split),
        statement,
        statement_file,
        output,
        explain: read_flag(split, "explain"),
    })
}

// What `tq merge` was asked.
fn read_merge(alloc: Global, merge: &ArgMatches<'_>) -> Result<MergeRequest, AllocError>
    ensures { IfOk result (IsMergeOf (rows_of (found_of merge.now))) }
{
    let folder = bytes_of(alloc, read_text(merge, "folder"))?;
    Ok(MergeRequest { folder })
}
