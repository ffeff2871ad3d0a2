// The arguments of commands, as clap reads them.

ghost use Rattle.std.specs.Prelude.{◌≡◌, codes};
ghost use Rattle.clap.specs.Words.{rule_of};
ghost use Rattle.tq_cli.specs.Apps.{dates_rule, explain_rule, flag_rule, folder_rule, format_rule, gaps_rule, html_rule, list_rule, order_rule, output_rule, overlaps_rule, parts_rule, path_rule, positional_rule, refers_rule, required_rule, statement_rule, svg_rule, table_rule, text_rule, width_rule, window_rule, workers_rule};

use clap::{Arg, ArgAction, value_parser};
use std::alloc::Global;

/// The tables that a command is about.
pub(crate) fn table_argument<'a>(alloc: Global) -> Arg<'a>
    ensures { rule_of result ≡ table_rule }
{
    Arg::new(alloc, "table")
        .long("table")
        .value_name("NAME=PATH")
        .help("Name of a table, and path of its CSV file; `-` is standard input")
        .required(true)
        .action(ArgAction::Append)
}

/// Whether a command's instants are dates.
pub(crate) fn dates_argument<'a>(alloc: Global) -> Arg<'a>
    ensures { rule_of result ≡ dates_rule }
{
    Arg::new(alloc, "dates")
        .long("dates")
        .help(
            "Reads and prints instants as dates, YYYY-MM-DD, in files, statements, lines and answers",
        )
        .action(ArgAction::SetTrue)
}

/// Whether refusals are explained, and answers.
pub(crate) fn explain_argument<'a>(alloc: Global) -> Arg<'a>
    ensures { rule_of result ≡ explain_rule }
{
    Arg::new(alloc, "explain")
        .long("explain")
        .help(
            "Explains why a file, statement or line is refused, as at a terminal; `tq ask` also prints a profile of the answer",
        )
        .action(ArgAction::SetTrue)
}

/// How many workers a command has.
pub(crate) fn workers_argument<'a>(alloc: Global) -> Arg<'a>
    ensures { rule_of result ≡ workers_rule }
{
    Arg::new(alloc, "workers")
        .long("workers")
        .value_name("N")
        .help("Number of workers that share the work, 1 to 16")
        .value_parser(value_parser!(u32))
        .default_value("1")
}

/// The statement of a question.
pub(crate) fn statement_argument<'a>(alloc: Global) -> Arg<'a>
    ensures { rule_of result ≡ statement_rule }
{
    Arg::new(alloc, "statement")
        .value_name("STATEMENT")
        .help("Statement to answer")
}

/// How wide a picture may be.
pub(crate) fn width_argument<'a>(alloc: Global) -> Arg<'a>
    ensures { rule_of result ≡ width_rule }
{
    Arg::new(alloc, "width")
        .long("width")
        .value_name("N")
        .help("Width of a line, in characters")
        .value_parser(value_parser!(u32))
        .default_value("80")
}

/// Whether a picture is an image.
pub(crate) fn svg_argument<'a>(alloc: Global) -> Arg<'a>
    ensures { rule_of result ≡ svg_rule }
{
    Arg::new(alloc, "svg")
        .long("svg")
        .help("Prints the picture as SVG")
        .action(ArgAction::SetTrue)
}

/// Whether a picture is on an HTML page.
pub(crate) fn html_argument<'a>(alloc: Global) -> Arg<'a>
    ensures { rule_of result ≡ html_rule }
{
    Arg::new(alloc, "html")
        .long("html")
        .help("Prints an HTML page with the picture, the table and the statement")
        .action(ArgAction::SetTrue)
}

/// The window of a picture.
pub(crate) fn window_argument<'a>(alloc: Global) -> Arg<'a>
    ensures { rule_of result ≡ window_rule }
{
    text_argument(
        alloc,
        "window",
        "START,END",
        "Times that the picture shows; without it, those of the answer",
    )
}

/// Whether overlapping rows of one key are reported.
pub(crate) fn overlaps_argument<'a>(alloc: Global) -> Arg<'a>
    ensures { rule_of result ≡ overlaps_rule }
{
    Arg::new(alloc, "overlaps")
        .long("overlaps")
        .help("Reports rows that start while an earlier row of their key is valid")
        .action(ArgAction::SetTrue)
}

/// Whether gaps between rows of one key are reported.
pub(crate) fn gaps_argument<'a>(alloc: Global) -> Arg<'a>
    ensures { rule_of result ≡ gaps_rule }
{
    Arg::new(alloc, "gaps")
        .long("gaps")
        .help("Reports periods between rows of one key in which no row of the key is valid")
        .action(ArgAction::SetTrue)
}

/// Which references are checked.
pub(crate) fn refers_argument<'a>(alloc: Global) -> Arg<'a>
    ensures { rule_of result ≡ refers_rule }
{
    Arg::new(alloc, "refers")
        .long("refers")
        .value_name("A.X=B.Y")
        .help("Reports rows of table A whose X is at some time in no valid row of table B as Y")
        .action(ArgAction::Append)
}

/// The format of an answer.
pub(crate) fn format_argument<'a>(alloc: Global) -> Arg<'a>
    ensures { rule_of result ≡ format_rule }
{
    Arg::new(alloc, "format")
        .long("format")
        .value_name("FORMAT")
        .help("Format of the answer: csv, table, markdown, tsv, json or jsonl")
        .default_value("csv")
}

/// An argument that has a value; `name` is what its value is called.
pub(crate) fn text_argument<'a>(alloc: Global, id: &'a str, name: &'a str, help: &'a str) -> Arg<'a>
    ensures { rule_of result ≡ text_rule id.entry.now }
{
    Arg::new(alloc, id).long(id).value_name(name).help(help)
}

/// An argument that has a value and must be given.
pub(crate) fn required_argument<'a>(
    alloc: Global,
    id: &'a str,
    name: &'a str,
    help: &'a str,
) -> Arg<'a>
    ensures { rule_of result ≡ required_rule id.entry.now }
{
    Arg::new(alloc, id)
        .long(id)
        .value_name(name)
        .help(help)
        .required(true)
}

/// An argument that has a value and may be given several times.
pub(crate) fn list_argument<'a>(alloc: Global, id: &'a str, name: &'a str, help: &'a str) -> Arg<'a>
    ensures { rule_of result ≡ list_rule id.entry.now }
{
    Arg::new(alloc, id)
        .long(id)
        .value_name(name)
        .help(help)
        .action(ArgAction::Append)
}

/// The columns of amounts of an answer.
pub(crate) fn amounts_argument<'a>(alloc: Global) -> Arg<'a>
    ensures { rule_of result ≡ list_rule (codes "decimal") }
{
    list_argument(
        alloc,
        "decimal",
        "NAME=PLACES",
        "A column of amounts, with PLACES digits after the point: 1234 is 12.34 with 2",
    )
}

/// An argument without a value.
pub(crate) fn flag_argument<'a>(alloc: Global, id: &'a str, help: &'a str) -> Arg<'a>
    ensures { rule_of result ≡ flag_rule id.entry.now }
{
    Arg::new(alloc, id)
        .long(id)
        .help(help)
        .action(ArgAction::SetTrue)
}

/// The file of an import.
pub(crate) fn path_argument<'a>(alloc: Global) -> Arg<'a>
    ensures { rule_of result ≡ path_rule }
{
    Arg::new(alloc, "file")
        .value_name("FILE")
        .help("Path of the CSV file; `-` is standard input")
        .required(true)
}

/// The number of parts.
pub(crate) fn parts_argument<'a>(alloc: Global) -> Arg<'a>
    ensures { rule_of result ≡ parts_rule }
{
    Arg::new(alloc, "parts")
        .long("parts")
        .value_name("N")
        .help("Number of parts, 1 to 1000")
        .value_parser(value_parser!(u32))
        .default_value("4")
}

/// The folder of parts.
pub(crate) fn folder_argument<'a>(alloc: Global) -> Arg<'a>
    ensures { rule_of result ≡ folder_rule }
{
    Arg::new(alloc, "folder")
        .value_name("DIR")
        .help("Folder that `tq split` made; part K has its answer in DIR/K/answer.csv")
        .required(true)
}

/// The file for what is printed.
pub(crate) fn output_argument<'a>(alloc: Global) -> Arg<'a>
    ensures { rule_of result ≡ output_rule }
{
    Arg::new(alloc, "output")
        .long("output")
        .short('o')
        .value_name("PATH")
        .help("Path of a file for the result; without it, standard output")
}

/// An argument that has to be given, at its place.
pub(crate) fn positional_argument<'a>(
    alloc: Global,
    id: &'a str,
    name: &'a str,
    help: &'a str,
) -> Arg<'a>
    ensures { rule_of result ≡ positional_rule id.entry.now }
{
    Arg::new(alloc, id)
        .value_name(name)
        .help(help)
        .required(true)
}

/// The order of an answer's rows.
pub(crate) fn order_argument<'a>(alloc: Global) -> Arg<'a>
    ensures { rule_of result ≡ order_rule }
{
    Arg::new(alloc, "order")
        .long("order")
        .value_name("ORDER")
        .help("Order of the rows: values, or time (by start, then end, then values)")
        .default_value("values")
}

/// The file that has the statement.
pub(crate) fn statement_file_argument<'a>(alloc: Global) -> Arg<'a>
    ensures { rule_of result ≡ text_rule (codes "statement-file") }
{
    text_argument(
        alloc,
        "statement-file",
        "PATH",
        "Path of a file with the statement; `--` begins a comment in it",
    )
}
