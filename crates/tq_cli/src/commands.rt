// The commands, as clap reads them.

ghost use Rattle.std.specs.Prelude.{◌≡◌, IfOk};
ghost use Rattle.clap.specs.Words.{app_of};
ghost use Rattle.tq_cli.specs.Apps.{ask_app, calendar_app, check_app, draw_app, import_app, merge_app, session_app, split_app, total_app, tq_app, with_columns, with_layout, with_numbers, with_period, with_question};

use crate::arguments::{
    amounts_argument, dates_argument, explain_argument, flag_argument, folder_argument,
    format_argument, gaps_argument, html_argument, list_argument, order_argument, output_argument,
    overlaps_argument, parts_argument, path_argument, positional_argument, refers_argument,
    required_argument, statement_argument, statement_file_argument, svg_argument, table_argument,
    text_argument, width_argument, window_argument, workers_argument,
};
use crate::helps::{
    ABOUT, CALENDAR_HELP, CHECK_HELP, IMPORT_HELP, QUERY_HELP, SESSION_HELP, SPLIT_HELP,
    TOTAL_HELP, VERSION,
};
use clap::Command;
use std::alloc::{AllocError, Global};

/// The command line that the program reads.
pub(crate) fn tq_command<'a>(alloc: Global) -> Result<Command<'a>, AllocError>
    ensures { IfOk result (λ r. app_of r ≡ tq_app) }
{
    let program = Command::new(alloc, "tq")
        .version(VERSION)
        .about(ABOUT)
        .after_help(QUERY_HELP)
        .no_binary_name(true)
        .bin_name("tq")?
        .subcommand_required(true);
    program
        .subcommand(ask_command(alloc)?)?
        .subcommand(draw_command(alloc)?)?
        .subcommand(total_command(alloc)?)?
        .subcommand(calendar_command(alloc)?)?
        .subcommand(check_command(alloc)?)?
        .subcommand(session_command(alloc)?)?
        .subcommand(import_command(alloc)?)?
        .subcommand(split_command(alloc)?)?
        .subcommand(merge_command(alloc)?)
}

/// What a command asks, and of which tables, with how many workers, and how instants are written.
pub(crate) fn question_arguments<'a>(
    alloc: Global,
    command: Command<'a>,
) -> Result<Command<'a>, AllocError>
    ensures { IfOk result (λ r. app_of r ≡ with_question (app_of command.entry)) }
{
    command
        .arg(table_argument(alloc))?
        .arg(dates_argument(alloc))?
        .arg(explain_argument(alloc))?
        .arg(workers_argument(alloc))?
        .arg(statement_file_argument(alloc))?
        .arg(output_argument(alloc))?
        .arg(statement_argument(alloc))
}

/// How an answer is written.
pub(crate) fn layout_arguments<'a>(
    alloc: Global,
    command: Command<'a>,
) -> Result<Command<'a>, AllocError>
    ensures { IfOk result (λ r. app_of r ≡ with_layout (app_of command.entry)) }
{
    command
        .arg(format_argument(alloc))?
        .arg(flag_argument(
            alloc,
            "pretty",
            "Prints an aligned table if standard output is a terminal",
        ))?
        .arg(order_argument(alloc))?
        .arg(flag_argument(
            alloc,
            "inclusive",
            "The end of a period is its last day or number, not the next one",
        ))?
        .arg(amounts_argument(alloc))?
        .arg(flag_argument(
            alloc,
            "typed",
            "Prints a table file, which --table takes: kinds in the header, and row numbers in front",
        ))
}

/// The command that answers a statement.
pub(crate) fn ask_command<'a>(alloc: Global) -> Result<Command<'a>, AllocError>
    ensures { IfOk result (λ r. app_of r ≡ ask_app) }
{
    let command = Command::new(alloc, "ask")
        .about("Answers a statement, and prints the answer")
        .after_help(QUERY_HELP);
    let command = layout_arguments(alloc, command)?;
    question_arguments(alloc, command)
}

/// The command that totals an answer.
pub(crate) fn total_command<'a>(alloc: Global) -> Result<Command<'a>, AllocError>
    ensures { IfOk result (λ r. app_of r ≡ total_app) }
{
    let command = Command::new(alloc, "total")
        .about("Answers a statement, and sums each row's value times the length of its period")
        .after_help(TOTAL_HELP)
        .arg(list_argument(
            alloc,
            "by",
            "NAME",
            "A column of the answer whose values have totals of their own",
        ))?
        .arg(list_argument(
            alloc,
            "sum",
            "NAME",
            "A column of the answer that is summed",
        ))?
        .arg(amounts_argument(alloc))?;
    question_arguments(alloc, command)
}

/// The command that writes periods of the calendar.
pub(crate) fn calendar_command<'a>(alloc: Global) -> Result<Command<'a>, AllocError>
    ensures { IfOk result (λ r. app_of r ≡ calendar_app) }
{
    Command::new(alloc, "calendar")
        .about("Writes a table file with the months, quarters or years between two dates")
        .after_help(CALENDAR_HELP)
        .arg(required_argument(
            alloc,
            "by",
            "UNIT",
            "Unit of the periods: month, quarter or year",
        ))?
        .arg(output_argument(alloc))?
        .arg(positional_argument(alloc, "start", "START", "First day, YYYY-MM-DD"))?
        .arg(positional_argument(alloc, "end", "END", "Day after the last one, YYYY-MM-DD"))
}

/// The command that draws an answer.
pub(crate) fn draw_command<'a>(alloc: Global) -> Result<Command<'a>, AllocError>
    ensures { IfOk result (λ r. app_of r ≡ draw_app) }
{
    let command = Command::new(alloc, "draw")
        .about("Draws the answer of a statement: a line for each row, with a bar where it is valid")
        .after_help(QUERY_HELP)
        .arg(width_argument(alloc))?
        .arg(svg_argument(alloc))?
        .arg(html_argument(alloc))?
        .arg(window_argument(alloc))?;
    question_arguments(alloc, command)
}

/// The command that checks tables.
pub(crate) fn check_command<'a>(alloc: Global) -> Result<Command<'a>, AllocError>
    ensures { IfOk result (λ r. app_of r ≡ check_app) }
{
    Command::new(alloc, "check")
        .about(
            "Reports the columns, rows, times, and overlapping or meeting equal rows of each table, or lists invalid records",
        )
        .after_help(CHECK_HELP)
        .arg(table_argument(alloc))?
        .arg(dates_argument(alloc))?
        .arg(explain_argument(alloc))?
        .arg(workers_argument(alloc))?
        .arg(overlaps_argument(alloc))?
        .arg(gaps_argument(alloc))?
        .arg(refers_argument(alloc))
}

/// The command that holds a session.
pub(crate) fn session_command<'a>(alloc: Global) -> Result<Command<'a>, AllocError>
    ensures { IfOk result (λ r. app_of r ≡ session_app) }
{
    Command::new(alloc, "session")
        .about("Answers lines of standard input that start and end rows, publish, and query")
        .after_help(SESSION_HELP)
        .arg(table_argument(alloc))?
        .arg(dates_argument(alloc))?
        .arg(explain_argument(alloc))
}

/// How the periods of an import are written.
pub(crate) fn period_arguments<'a>(
    alloc: Global,
    command: Command<'a>,
) -> Result<Command<'a>, AllocError>
    ensures { IfOk result (λ r. app_of r ≡ with_period (app_of command.entry)) }
{
    command
        .arg(required_argument(alloc, "from", "NAME", "Column of the start"))?
        .arg(required_argument(alloc, "to", "NAME", "Column of the end"))?
        .arg(text_argument(
            alloc,
            "date-format",
            "FORMAT",
            "How dates are written, as dd.mm.yyyy; without it, times are numbers",
        ))?
        .arg(text_argument(
            alloc,
            "unit",
            "UNIT",
            "What the instants of dates count: day, or second since 1970",
        ))?
        .arg(flag_argument(
            alloc,
            "inclusive",
            "The end is the last day or number of the period, not the next one",
        ))?
        .arg(list_argument(
            alloc,
            "open",
            "TEXT",
            "A spelling of an open end, as `--open \"\"`",
        ))
}

/// Which columns an import has.
pub(crate) fn column_arguments<'a>(
    alloc: Global,
    command: Command<'a>,
) -> Result<Command<'a>, AllocError>
    ensures { IfOk result (λ r. app_of r ≡ with_columns (app_of command.entry)) }
{
    command
        .arg(text_argument(
            alloc,
            "key",
            "NAME",
            "Column of the key, a number, which comes first",
        ))?
        .arg(flag_argument(alloc, "number", "The first column is `row`, with 1, 2, .."))?
        .arg(text_argument(
            alloc,
            "columns",
            "A,B",
            "Only these columns, besides the key",
        ))?
        .arg(text_argument(alloc, "without", "A,B", "All columns but these"))?
        .arg(list_argument(alloc, "rename", "OLD=NEW", "Name of a column"))?
        .arg(list_argument(
            alloc,
            "decimal",
            "NAME=PLACES",
            "A column of numbers with at most so many digits after the point",
        ))?
        .arg(list_argument(alloc, "int", "NAME", "A column of whole numbers"))?
        .arg(list_argument(alloc, "text", "NAME", "A column of texts"))
}

/// How the texts, fields and numbers of an import are written.
pub(crate) fn number_arguments<'a>(
    alloc: Global,
    command: Command<'a>,
) -> Result<Command<'a>, AllocError>
    ensures { IfOk result (λ r. app_of r ≡ with_numbers (app_of command.entry)) }
{
    command
        .arg(text_argument(
            alloc,
            "encoding",
            "NAME",
            "Encoding of the file: utf8, or latin1 for ISO 8859-1",
        ))?
        .arg(text_argument(
            alloc,
            "delimiter",
            "C",
            "Byte between fields; without it, a comma",
        ))?
        .arg(text_argument(
            alloc,
            "decimal-point",
            "C",
            "Byte before the decimals; without it, a point",
        ))?
        .arg(text_argument(
            alloc,
            "thousands",
            "C",
            "Byte between groups of three digits",
        ))
}

/// The command that imports a file.
pub(crate) fn import_command<'a>(alloc: Global) -> Result<Command<'a>, AllocError>
    ensures { IfOk result (λ r. app_of r ≡ import_app) }
{
    let command = Command::new(alloc, "import")
        .about("Writes a table file for a CSV file in another form")
        .after_help(IMPORT_HELP);
    let command = number_arguments(alloc, command)?;
    let command = period_arguments(alloc, command)?;
    let command = column_arguments(alloc, command)?;
    command
        .arg(output_argument(alloc))?
        .arg(flag_argument(
            alloc,
            "all",
            "Lists all invalid records, and not only the first",
        ))?
        .arg(text_argument(
            alloc,
            "skip-invalid",
            "PATH",
            "Path of a CSV file for the invalid records; the others are imported",
        ))?
        .arg(explain_argument(alloc))?
        .arg(path_argument(alloc))
}

/// The command that divides tables.
pub(crate) fn split_command<'a>(alloc: Global) -> Result<Command<'a>, AllocError>
    ensures { IfOk result (λ r. app_of r ≡ split_app) }
{
    Command::new(alloc, "split")
        .about("Divides the tables of a statement into parts, which other processes ask")
        .after_help(SPLIT_HELP)
        .arg(parts_argument(alloc))?
        .arg(required_argument(alloc, "out", "DIR", "Folder for the parts and the manifest"))?
        .arg(table_argument(alloc))?
        .arg(dates_argument(alloc))?
        .arg(explain_argument(alloc))?
        .arg(statement_file_argument(alloc))?
        .arg(statement_argument(alloc))
}

/// The command that merges answers.
pub(crate) fn merge_command<'a>(alloc: Global) -> Result<Command<'a>, AllocError>
    ensures { IfOk result (λ r. app_of r ≡ merge_app) }
{
    Command::new(alloc, "merge")
        .about("Merges the answers over all parts into the answer over the whole tables")
        .after_help(SPLIT_HELP)
        .arg(folder_argument(alloc))
}
