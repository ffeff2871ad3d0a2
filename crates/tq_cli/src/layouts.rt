// How an answer is written.

ghost use Rattle.std.specs.Prelude.{◌≡◌, IfOk, IfErr, None, Some, codes, false, map, true};
ghost use Rattle.std.specs.List.{Any};
ghost use Rattle.clap.specs.Words.{found_of, rows_of};
ghost use Rattle.tq_cli.specs.CommandLine.{AreDecimalsOf, HasInvalidDecimals, IsAskOf, IsInvalidAsk, IsInvalidLayout, IsLayoutOf, bytes_in, decimal_in, format_named, is_changed, list_of, order_named, text_of};

use crate::command_line::{CommandLineFault, UsageError};
use crate::questions::read_question;
use crate::request::{AskRequest, DecimalOption, LayoutRequest, TableOption};
use crate::values::{read_flag, read_text, split_table};
use crate::words::bytes_of;
use clap::ArgMatches;
use std::alloc::{AllocError, Global};
use tq_base::read_natural;
use tq_report::Format;

// The format with a name.
fn format_named(name: &str) -> Option<Format>
    ensures { result ≡ format_named name.now }
{
    match name {
        "csv" => Some(Format::Csv),
        "table" => Some(Format::Aligned),
        "markdown" => Some(Format::Markdown),
        "tsv" => Some(Format::Tsv),
        "json" => Some(Format::Json),
        "jsonl" => Some(Format::JsonLines),
        _ => None,
    }
}

// The format of an answer.
fn read_format(alloc: Global, command: &ArgMatches<'_>) -> Result<Format, UsageError>
    ensures format { IfOk result (λ format. Some format ≡ format_named (text_of (codes "format") (rows_of (found_of command.now)))) }
    ensures refused { IfErr result (λ _. format_named (text_of (codes "format") (rows_of (found_of command.now))) ≡ None) }
{
    match format_named(read_text(command, "format")) {
        Some(format) => Ok(format),
        None => Err(UsageError::with_reason(format!(in alloc;
            "error: --format takes csv, table, markdown, tsv, json or jsonl\n\nFor more information, try '--help'.\n"
        ))),
    }
}

// Whether the order with a name is that of time.
fn order_named(name: &str) -> Option<bool>
    ensures { result ≡ order_named name.now }
{
    match name {
        "time" => Some(true),
        "values" => Some(false),
        _ => None,
    }
}

// Whether the rows of an answer are in the order of time.
fn read_order(alloc: Global, command: &ArgMatches<'_>) -> Result<bool, UsageError>
    ensures order { IfOk result (λ by_time. Some by_time ≡ order_named (text_of (codes "order") (rows_of (found_of command.now)))) }
    ensures refused { IfErr result (λ _. order_named (text_of (codes "order") (rows_of (found_of command.now))) ≡ None) }
{
    match order_named(read_text(command, "order")) {
        Some(by_time) => Ok(by_time),
        None => Err(UsageError::with_reason(format!(in alloc;
            "error: --order takes values or time\n\nFor more information, try '--help'.\n"
        ))),
    }
}

// The column of amounts that a word names.
fn decimal_of(alloc: Global, word: &[u8]) -> Result<DecimalOption, CommandLineFault>
    ensures decimal { IfOk result (λ decimal. decimal_in word.now ≡ Some (decimal.name.items, decimal.places)) }
    ensures refused { IfErr result (λ fault. fault ≡ CommandLineFault.BadCommandLine → decimal_in word.now ≡ None) }
{
    let TableOption { name, path } = split_table(alloc, word)?;
    match read_natural(&path, 18) {
        Some(places) => Ok(DecimalOption {
            name,
            places: places as u32,
        }),
        None => Err(CommandLineFault::BadCommandLine),
    }
}

// The columns of amounts that the words name, in their order.
fn decimals_of(alloc: Global, words: &[&str]) -> Result<Vec<DecimalOption>, CommandLineFault>
    ensures decimals { IfOk result (λ all. AreDecimalsOf (map (λ w. bytes_in w.now) words.now) all.items) }
    ensures refused { IfErr result (λ fault. fault ≡ CommandLineFault.BadCommandLine
        → Any (λ word. decimal_in word ≡ None) (map (λ w. bytes_in w.now) words.now)) }
{
    let mut all = Vec::new(alloc);
    'words: for word in words {
        let word = bytes_of(alloc, word)?;
        all.push(decimal_of(alloc, &word)?)
            .map_err(AllocError::from)?;
    }
    Ok(all)
}

/// The columns of amounts of an answer.
pub(crate) fn read_decimals(
    alloc: Global,
    command: &ArgMatches<'_>,
) -> Result<Vec<DecimalOption>, UsageError>
    ensures decimals { IfOk result (λ all. AreDecimalsOf (list_of (codes "decimal") (rows_of (found_of command.now))) all.items) }
    ensures refused { IfErr result (λ e. e.fault ≡ CommandLineFault.BadCommandLine → HasInvalidDecimals (rows_of (found_of command.now))) }
{
    match decimals_of(alloc, command.get_strs("decimal").unwrap_or(&[])) {
        Ok(decimals) => Ok(decimals),
        Err(CommandLineFault::OutOfMemory) => Err(UsageError::from(CommandLineFault::OutOfMemory)),
        Err(CommandLineFault::BadCommandLine) => Err(UsageError::with_reason(format!(in alloc;
            "error: --decimal takes NAME=PLACES, with 0 to 18 places\n\nFor more information, try '--help'.\n"
        ))),
    }
}

// How an answer is written.
fn read_layout(alloc: Global, command: &ArgMatches<'_>) -> Result<LayoutRequest, UsageError>
    ensures layout { IfOk result (IsLayoutOf (rows_of (found_of command.now))) }
    ensures refused { IfErr result (λ e. e.fault ≡ CommandLineFault.BadCommandLine
        → IsInvalidLayout (rows_of (found_of command.now))) }
{
    let format = read_format(alloc, command)?;
    let by_time = read_order(alloc, command)?;
    let decimals = read_decimals(alloc, command)?;
    Ok(LayoutRequest {
        format,
        pretty: read_flag(command, "pretty"),
        by_time,
        inclusive: read_flag(command, "inclusive"),
        decimals,
        typed: read_flag(command, "typed"),
    })
}

// Whether an answer is written otherwise than in the CSV of tables.
fn is_changed(layout: &LayoutRequest) -> bool
    ensures { result ≡ is_changed layout.now }
{
    !matches!(layout.format, Format::Csv)
        || layout.pretty
        || layout.inclusive
        || !layout.decimals.is_empty()
}

/// What `tq ask` was asked.
pub(crate) fn read_ask(alloc: Global, ask: &ArgMatches<'_>) -> Result<AskRequest, UsageError>
    ensures ask { IfOk result (IsAskOf (rows_of (found_of ask.now))) }
    ensures refused { IfErr result (λ e. e.fault ≡ CommandLineFault.BadCommandLine
        → IsInvalidAsk (rows_of (found_of ask.now))) }
{
    let question = read_question(alloc, ask)?;
    let layout = read_layout(alloc, ask)?;
    if layout.typed && is_changed(&layout) {
        return Err(UsageError::with_reason(format!(in alloc;
            "error: --typed takes none of --format, --pretty, --inclusive and --decimal\n\nFor more information, try '--help'.\n"
        )));
    }
    Ok(AskRequest { question, layout })
}
