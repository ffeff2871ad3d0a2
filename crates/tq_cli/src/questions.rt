// Questions: the tables and the statement of a command, and what is done with the answer.

ghost use Rattle.std.specs.Prelude.{◌≡◌, ◌≤◌, IfOk, IfErr, IfSome, None, Some, codes, false, true};
ghost use Rattle.clap.specs.Words.{found_of, rows_of};
ghost use Rattle.tq_base.specs.Numbers.{instant_of};
ghost use Rattle.tq_base.specs.declared.form.Form.TheVariants.{Dates};
ghost use Rattle.tq_cli.specs.CommandLine.{AreNoPeriod, ArePeriodWords, HasInvalidTables, HasInvalidWidth, HasInvalidWindow, HasInvalidWorkers, IsCalendarOf, IsDrawOf, IsInvalidCalendar, IsInvalidDraw, IsInvalidQuestion, IsInvalidTotal, IsNoWindow, IsQuestionOf, IsTablesUpTo, IsTotalOf, IsWindow, IsWindowOf, has_statement, number_of, picture_format, picture_format_of, text_of, unit_named, word_of};

use crate::command_line::{CommandLineFault, UsageError, WORKER_LIMIT};
use crate::layouts::read_decimals;
use crate::request::{
    CalendarRequest, DrawRequest, PictureFormat, QuestionRequest, TableOption, TotalRequest,
};
use crate::values::{
    count_stdin, is_given, is_named, read_flag, read_form, read_list, read_number, read_options,
    read_text, split_word,
};
use crate::words::bytes_of;
use clap::ArgMatches;
use std::alloc::Global;
use tq_base::{Bound, Form, Instant, Period, read_instant};
use tq_totals::Unit;

/// The tables of a command, in the order of their options. At most `inputs` of them may be read from standard input.
pub(crate) fn read_tables(
    alloc: Global,
    command: &ArgMatches<'_>,
    inputs: usize,
) -> Result<Vec<TableOption>, UsageError>
    ensures tables { IfOk result (λ tables. IsTablesUpTo inputs (rows_of (found_of command.now)) tables.items) }
    ensures refused { IfErr result (λ e. e.fault ≡ CommandLineFault.BadCommandLine
        → HasInvalidTables inputs (rows_of (found_of command.now))) }
{
    match read_options(alloc, command.get_strs("table").unwrap_or(&[])) {
        Ok(tables) if count_stdin(&tables) > inputs => Err(UsageError::with_reason(
            format!(in alloc;
                "error: standard input can be read only once: for one --table NAME=-, or for the lines of a session\n\n\
             For more information, try '--help'.\n"
            ),
        )),
        Ok(tables) => Ok(tables),
        Err(CommandLineFault::OutOfMemory) => Err(UsageError::from(CommandLineFault::OutOfMemory)),
        Err(CommandLineFault::BadCommandLine) => Err(UsageError::with_reason(format!(in alloc;
            "error: --table takes NAME=PATH\n\nFor more information, try '--help'.\n"
        ))),
    }
}

/// How many workers a command has.
pub(crate) fn read_workers(alloc: Global, command: &ArgMatches<'_>) -> Result<u32, UsageError>
    ensures number { IfOk result (λ workers. workers ≡ number_of (codes "workers") (rows_of (found_of command.now))) }
    ensures some { IfOk result (λ workers. 1 ≤ workers) }
    ensures few { IfOk result (λ workers. workers ≤ 16) }
    ensures refused { IfErr result (λ _. HasInvalidWorkers (rows_of (found_of command.now))) }
{
    let workers = read_number(command, "workers");
    if workers < 1 || workers > WORKER_LIMIT {
        return Err(UsageError::with_reason(format!(in alloc;
            "error: --workers takes 1 to 16\n\nFor more information, try '--help'.\n"
        )));
    }
    Ok(workers)
}

// Whether a command has a statement, or the path of its file, and not both.
fn has_statement(command: &ArgMatches<'_>) -> bool
    ensures { result ≡ has_statement (rows_of (found_of command.now)) }
{
    if is_named(command, "statement-file") {
        !is_given(command, "statement")
    } else {
        is_given(command, "statement")
    }
}

/// The statement of a command; empty if it is in a file.
pub(crate) fn read_statement(alloc: Global, command: &ArgMatches<'_>) -> Result<Vec<u8>, UsageError>
    ensures statement { IfOk result (λ statement. statement.items ≡ word_of (codes "statement") (rows_of (found_of command.now))) }
    ensures one { IfOk result (λ _. has_statement (rows_of (found_of command.now)) ≡ true) }
    ensures refused { IfErr result (λ e. e.fault ≡ CommandLineFault.BadCommandLine → has_statement (rows_of (found_of command.now)) ≡ false) }
{
    if !has_statement(command) {
        return Err(UsageError::with_reason(format!(in alloc;
            "error: give a STATEMENT, or the path of its file by --statement-file\n\nFor more information, try '--help'.\n"
        )));
    }
    Ok(bytes_of(alloc, read_text(command, "statement"))?)
}

/// The question of a command.
pub(crate) fn read_question(
    alloc: Global,
    command: &ArgMatches<'_>,
) -> Result<QuestionRequest, UsageError>
    ensures question { IfOk result (IsQuestionOf (rows_of (found_of command.now))) }
    ensures refused { IfErr result (λ e. e.fault ≡ CommandLineFault.BadCommandLine
        → IsInvalidQuestion (rows_of (found_of command.now))) }
{
    let tables = read_tables(alloc, command, 1)?;
    let workers = read_workers(alloc, command)?;
    let statement = read_statement(alloc, command)?;
    let statement_file = bytes_of(alloc, read_text(command, "statement-file"))?;
    let output = bytes_of(alloc, read_text(command, "output"))?;
    Ok(QuestionRequest {
        tables,
        workers,
        form: read_form(command),
        statement,
        statement_file,
        output,
        explain: read_flag(command, "explain"),
    })
}

// How wide a picture may be.
fn read_width(alloc: Global, command: &ArgMatches<'_>) -> Result<u32, UsageError>
    ensures number { IfOk result (λ width. width ≡ number_of (codes "width") (rows_of (found_of command.now))) }
    ensures refused { IfErr result (λ _. HasInvalidWidth (rows_of (found_of command.now))) }
{
    let width = read_number(command, "width");
    if width == 0 {
        return Err(UsageError::with_reason(format!(in alloc;
            "error: --width takes 1 or more\n\nFor more information, try '--help'.\n"
        )));
    }
    Ok(width)
}

// The format of a picture; none if two are asked for.
fn picture_format(svg: bool, html: bool) -> Option<PictureFormat>
    ensures { result ≡ picture_format svg html }
{
    match (svg, html) {
        (false, false) => Some(PictureFormat::Text),
        (true, false) => Some(PictureFormat::Svg),
        (false, true) => Some(PictureFormat::Html),
        (true, true) => None,
    }
}

// How a picture is printed.
fn read_picture_format(alloc: Global, command: &ArgMatches<'_>) -> Result<PictureFormat, UsageError>
    ensures format { IfOk result (λ format. Some format ≡ picture_format_of (rows_of (found_of command.now))) }
    ensures refused { IfErr result (λ _. picture_format_of (rows_of (found_of command.now)) ≡ None) }
{
    match picture_format(read_flag(command, "svg"), read_flag(command, "html")) {
        Some(format) => Ok(format),
        None => Err(UsageError::with_reason(format!(in alloc;
            "error: --svg and --html exclude each other\n\nFor more information, try '--help'.\n"
        ))),
    }
}

// The period from one instant up to another one.
fn period_of(first: &[u8], last: &[u8], form: Form) -> Option<Period>
    ensures period { IfSome result (ArePeriodWords form first.now last.now) }
    ensures none { result ≡ None → AreNoPeriod form first.now last.now }
{
    match read_instant(first, form) {
        Some(start) => match read_instant(last, form) {
            Some(end) => match Bound::new(end.number()) {
                Some(end) => Period::new(start, end),
                None => None,
            },
            None => None,
        },
        None => None,
    }
}

// The window that a word names.
fn window_in(word: &[u8], form: Form) -> Option<Period>
    ensures window { IfSome result (IsWindow form word.now) }
    ensures none { result ≡ None → IsNoWindow form word.now }
{
    match split_word(word, b',') {
        Some((first, last)) => period_of(first, last, form),
        None => None,
    }
}

// The window of a picture.
fn read_window(alloc: Global, command: &ArgMatches<'_>) -> Result<Option<Period>, UsageError>
    ensures window { IfOk result (IsWindowOf (rows_of (found_of command.now))) }
    ensures refused { IfErr result (λ e. e.fault ≡ CommandLineFault.BadCommandLine → HasInvalidWindow (rows_of (found_of command.now))) }
{
    if !is_given(command, "window") {
        return Ok(None);
    }
    let word = bytes_of(alloc, read_text(command, "window"))?;
    match window_in(&word, read_form(command)) {
        Some(window) => Ok(Some(window)),
        None => Err(UsageError::with_reason(format!(in alloc;
            "error: --window takes START,END, two times of which the first is earlier\n\nFor more information, try '--help'.\n"
        ))),
    }
}

/// What `tq draw` was asked.
pub(crate) fn read_draw(alloc: Global, draw: &ArgMatches<'_>) -> Result<DrawRequest, UsageError>
    ensures draw { IfOk result (IsDrawOf (rows_of (found_of draw.now))) }
    ensures refused { IfErr result (λ e. e.fault ≡ CommandLineFault.BadCommandLine
        → IsInvalidDraw (rows_of (found_of draw.now))) }
{
    let question = read_question(alloc, draw)?;
    let width = read_width(alloc, draw)?;
    let format = read_picture_format(alloc, draw)?;
    let window = read_window(alloc, draw)?;
    Ok(DrawRequest {
        question,
        width,
        format,
        window,
    })
}

/// What `tq total` was asked.
pub(crate) fn read_total(alloc: Global, total: &ArgMatches<'_>) -> Result<TotalRequest, UsageError>
    ensures total { IfOk result (IsTotalOf (rows_of (found_of total.now))) }
    ensures refused { IfErr result (λ e. e.fault ≡ CommandLineFault.BadCommandLine
        → IsInvalidTotal (rows_of (found_of total.now))) }
{
    let question = read_question(alloc, total)?;
    let by = read_list(alloc, total, "by")?;
    let sums = read_list(alloc, total, "sum")?;
    if sums.is_empty() {
        return Err(UsageError::with_reason(format!(in alloc;
            "error: give a column to sum by --sum NAME\n\nFor more information, try '--help'.\n"
        )));
    }
    let decimals = read_decimals(alloc, total)?;
    Ok(TotalRequest {
        question,
        by,
        sums,
        decimals,
    })
}

// The unit with a name.
fn unit_named(name: &str) -> Option<Unit>
    ensures { result ≡ unit_named name.now }
{
    match name {
        "month" => Some(Unit::Month),
        "quarter" => Some(Unit::Quarter),
        "year" => Some(Unit::Year),
        _ => None,
    }
}

// The unit of a calendar's periods.
fn read_unit(alloc: Global, command: &ArgMatches<'_>) -> Result<Unit, UsageError>
    ensures unit { IfOk result (λ unit. Some unit ≡ unit_named (text_of (codes "by") (rows_of (found_of command.now)))) }
    ensures refused { IfErr result (λ _. unit_named (text_of (codes "by") (rows_of (found_of command.now))) ≡ None) }
{
    match unit_named(read_text(command, "by")) {
        Some(unit) => Ok(unit),
        None => Err(UsageError::with_reason(format!(in alloc;
            "error: --by takes month, quarter or year\n\nFor more information, try '--help'.\n"
        ))),
    }
}

// The date of an argument.
fn read_date(alloc: Global, command: &ArgMatches<'_>, id: &str) -> Result<Instant, UsageError>
    ensures date { IfOk result (λ date. Some date ≡ instant_of Dates (word_of id.now (rows_of (found_of command.now)))) }
    ensures refused { IfErr result (λ e. e.fault ≡ CommandLineFault.BadCommandLine → instant_of Dates (word_of id.now (rows_of (found_of command.now))) ≡ None) }
{
    let word = bytes_of(alloc, read_text(command, id))?;
    match read_instant(&word, Form::Dates) {
        Some(date) => Ok(date),
        None => Err(UsageError::with_reason(format!(in alloc;
            "error: a date is YYYY-MM-DD, as 2024-02-29\n\nFor more information, try '--help'.\n"
        ))),
    }
}

/// What `tq calendar` was asked.
pub(crate) fn read_calendar(
    alloc: Global,
    calendar: &ArgMatches<'_>,
) -> Result<CalendarRequest, UsageError>
    ensures calendar { IfOk result (IsCalendarOf (rows_of (found_of calendar.now))) }
    ensures refused { IfErr result (λ e. e.fault ≡ CommandLineFault.BadCommandLine
        → IsInvalidCalendar (rows_of (found_of calendar.now))) }
{
    let unit = read_unit(alloc, calendar)?;
    let start = read_date(alloc, calendar, "start")?;
    let end = read_date(alloc, calendar, "end")?;
    let output = bytes_of(alloc, read_text(calendar, "output"))?;
    Ok(CalendarRequest {
        unit,
        start,
        end,
        output,
    })
}
