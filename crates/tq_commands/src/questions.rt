// Questions: the answer of a statement over files, printed as CSV, in another layout, as a picture, or as totals.

ghost use Rattle.std.specs.Prelude.{◌≡◌, false, IfErr, IfOk, None, OnOk};
ghost use Rattle.tq_commands.specs.Refusals.{IsAnswered, IsAskRefusal, IsTableOver};

use crate::columns::{
    answer_columns_of, places_of, refused_place, refused_row, refused_typed_column, unique_places,
};
use crate::drawing::{Drawing, drawn_text};
use crate::files::{paths_of, read_table_files};
use crate::output::print_to;
use crate::part_file::PartFile;
use crate::profile::ask_with_progress;
use crate::progress::Progress;
use crate::refusals::{RefusalOptions, header_copies, refused};
use crate::report::{Diagnostic, Refusal};
use crate::retained::retain_if;
use crate::statement_file::with_statement;
use std::alloc::{AllocError, Global};
use std::io::{self, Input, Write};
use std::os::unix::fs::FileExt;
use std::rt::Files;
use std::sync::Wait;
use std::thread::Threads;
use std::time::Clock;
use tq_base::{Column, Form};
use tq_cli::{
    AskRequest, DecimalOption, DrawRequest, LayoutRequest, QuestionRequest, TotalRequest,
};
use tq_draw::Workers;
use tq_engine::{AnswerOptions, query_files};
use tq_report::{Format, ReportOptions, by_time, report, typed_text};
use tq_table::{Sink, Table};
use tq_totals::{TotalsFault, totals_csv};

// Writes the answer of a statement as CSV after all files are read. A refusal has details at a terminal or with
// `--explain`. With `--explain`, an answer has a profile.
fn ask<
    R: Files<File: FileExt + Send + Sync, Dir: Send>
        + AllocGlobal
        + Clock
        + Input<Reader: Send>
        + Threads
        + Wait
        + Sync,
    W: Write,
>(
    rt: &R,
    request: QuestionRequest,
    sink: &mut Sink<W>,
    interactive: bool,
    progress: &Progress,
) -> Result<(), Diagnostic>
    ensures answered { OnOk result (IsAnswered request.form request.tables.items request.statement.items) }
    ensures refused { IfErr result (λ diagnostic. IsAskRefusal request.form request.tables.items request.statement.items diagnostic.refusal) }
    ensures silent { request.explain ≡ false → interactive ≡ false → IfErr result (λ diagnostic. diagnostic.detail ≡ None) }
{
    let QuestionRequest {
        tables: options,
        workers,
        form,
        statement,
        statement_file: _,
        output: _,
        explain: is_profiled,
    } = request;
    let explain = is_profiled || interactive;
    let paths = paths_of(rt.alloc(), &options)?;
    let tables = read_table_files(rt, options, workers, explain, progress)?;
    let headers = header_copies(rt.alloc(), &tables, explain);
    let files = retain_if(rt, &tables, &paths, explain);
    progress.load();
    match ask_with_progress(
        rt,
        tables,
        &statement,
        AnswerOptions { workers, form },
        sink,
        progress,
        is_profiled,
    ) {
        Ok(()) => Ok(()),
        Err(fault) => {
            let options = RefusalOptions { form, explain };
            let diagnostic = refused(rt, fault, &statement, files, headers, options, progress);
            Err(diagnostic)
        }
    }
}

// The answer of a question as CSV, in its file or on standard output.
fn print_csv<
    R: Files<File: FileExt + Send + Sync, Dir: Send>
        + AllocGlobal
        + Clock
        + Input<Reader: Send>
        + Print
        + Threads
        + Wait
        + Sync,
>(
    rt: &R,
    question: QuestionRequest,
    interactive: bool,
    progress: &Progress,
) -> Result<(), Diagnostic> {
    if question.output.is_empty() {
        let mut sink = Sink::over(io::writer(rt));
        return ask(rt, question, &mut sink, interactive, progress);
    }
    let output = question.output.to_vec(rt.alloc())?;
    let (part, file) = PartFile::create(rt, &output)?;
    let mut sink = Sink::over(file);
    let done = ask(rt, question, &mut sink, interactive, progress);
    part.finish(rt, done.is_ok())?;
    done
}

// The table of an answer, the names and kinds of its columns, and the path for what is printed of it.
#[derive(Drop)]
struct AnsweredTable<'a> {
    table: Table<'a>,
    columns: Vec<Column>,
    form: Form,
    output: Vec<u8>,
}

// The table of the answer of a statement after all files are read. A refusal has details at a terminal or with
// `--explain`.
fn answer_table<
    'a,
    R: Files<File: FileExt + Send + Sync, Dir: Send>
        + AllocGlobal
        + Input<Reader: Send>
        + Threads
        + Wait
        + Sync,
>(
    rt: &R,
    request: QuestionRequest,
    interactive: bool,
    progress: &Progress,
) -> Result<AnsweredTable<'a>, Diagnostic>
    ensures answered { IfOk result (λ answered. IsTableOver request.form request.tables.items request.statement.items answered.table) }
    ensures form { IfOk result (λ answered. answered.form ≡ request.form) }
    ensures refused { IfErr result (λ diagnostic. IsAskRefusal request.form request.tables.items request.statement.items diagnostic.refusal) }
    ensures silent { request.explain ≡ false → interactive ≡ false → IfErr result (λ diagnostic. diagnostic.detail ≡ None) }
{
    let QuestionRequest {
        tables: options,
        workers,
        form,
        statement,
        statement_file: _,
        output,
        explain,
    } = request;
    let explain = explain || interactive;
    let paths = paths_of(rt.alloc(), &options)?;
    let tables = read_table_files(rt, options, workers, explain, progress)?;
    let headers = header_copies(rt.alloc(), &tables, explain);
    let files = retain_if(rt, &tables, &paths, explain);
    let columns = answer_columns_of(rt.alloc(), &tables, &statement, form);
    progress.load();
    match query_files(rt, rt.alloc(), tables, &statement, workers, form) {
        Ok(table) => match columns {
            Some(columns) => Ok(AnsweredTable {
                table,
                columns,
                form,
                output,
            }),
            // The statement has an answer, so an allocation failed.
            None => Err(Diagnostic::from(Refusal::OutOfMemory)),
        },
        Err(fault) => {
            let options = RefusalOptions { form, explain };
            Err(refused(rt, fault, &statement, files, headers, options, progress))
        }
    }
}

// Whether an answer is written as `ask` does it.
fn is_plain(layout: &LayoutRequest) -> bool {
    matches!(layout.format, Format::Csv)
        && !layout.by_time
        && !layout.inclusive
        && !layout.typed
        && layout.decimals.is_empty()
}

// The text of an answer in a layout.
fn layout_text<R: AllocGlobal>(
    rt: &R,
    answered: AnsweredTable<'_>,
    layout: &LayoutRequest,
) -> Result<Vec<u8>, Refusal> {
    let AnsweredTable {
        table,
        columns,
        form,
        output: _,
    } = answered;
    let table = if layout.by_time {
        by_time(rt.alloc(), table)?
    } else {
        table
    };
    if layout.typed {
        if let Some(refusal) = refused_typed_column(rt.alloc(), &columns)? {
            return Err(refusal);
        }
        return Ok(typed_text(rt.alloc(), &columns, &table.rows, form)?);
    }
    let options = ReportOptions {
        format: layout.format,
        form,
        inclusive: layout.inclusive,
        places: places_of(rt.alloc(), &columns, &layout.decimals)?,
    };
    Ok(report(rt.alloc(), &table, &options)?)
}

// The layout. CSV becomes the aligned format if the layout asks for it and the answer is shown on a terminal.
fn shown_layout(layout: LayoutRequest, on_screen: bool) -> LayoutRequest {
    if layout.pretty && on_screen && matches!(layout.format, Format::Csv) {
        LayoutRequest {
            format: Format::Aligned,
            ..layout
        }
    } else {
        layout
    }
}

/// Prints the answer of a statement. `on_screen` says whether standard output is a terminal.
pub fn print_answer<
    R: Files<File: FileExt + Send + Sync, Dir: Send>
        + AllocGlobal
        + Clock
        + Input<Reader: Send>
        + Print
        + Threads
        + Wait
        + Sync,
>(
    rt: &R,
    request: AskRequest,
    on_screen: bool,
    interactive: bool,
    progress: &Progress,
) -> Result<(), Diagnostic> {
    let AskRequest { question, layout } = request;
    let layout = shown_layout(layout, on_screen && question.output.is_empty());
    let question = with_statement(rt, question, interactive, progress)?;
    if is_plain(&layout) {
        return print_csv(rt, question, interactive, progress);
    }
    let output = question.output.to_vec(rt.alloc())?;
    let answered = answer_table(rt, question, interactive, progress)?;
    let text = layout_text(rt, answered, &layout)?;
    progress.end(rt);
    Ok(print_to(rt, &output, &text)?)
}

/// Prints the answer of a statement as a picture.
pub fn print_picture<
    R: Files<File: FileExt + Send + Sync, Dir: Send>
        + AllocGlobal
        + Input<Reader: Send>
        + Print
        + Threads
        + Wait
        + Sync,
>(rt: &R, request: DrawRequest, interactive: bool, progress: &Progress) -> Result<(), Diagnostic> {
    let DrawRequest {
        question,
        width,
        format,
        window,
    } = request;
    let question = with_statement(rt, question, interactive, progress)?;
    let statement = question.statement.to_vec(rt.alloc())?;
    let workers = Workers {
        rt,
        alloc: rt.alloc(),
        count: question.workers,
    };
    let answered = answer_table(rt, question, interactive, progress)?;
    let drawing = Drawing {
        form: answered.form,
        format,
        width: width as usize,
        window,
    };
    let text = drawn_text(&workers, &answered.table, &drawing, &statement)?;
    progress.end(rt);
    Ok(print_to(rt, &answered.output, &text)?)
}

// The refusal of totals over these columns.
fn refused_totals(alloc: Global, columns: &[Column], fault: TotalsFault) -> Refusal {
    let refusal = match fault {
        TotalsFault::OpenEnd { row } => refused_row(alloc, row),
        TotalsFault::Text { column, .. } => {
            refused_place(alloc, columns, column, b"not a column of numbers")
        }
        TotalsFault::Overflow { column } => {
            refused_place(alloc, columns, column, b"its total exceeds 128 bits")
        }
        TotalsFault::OutOfMemory => Err(AllocError),
    };
    match refusal {
        Ok(refusal) => refusal,
        Err(error) => Refusal::from(error),
    }
}

// The totals of an answer, as CSV.
fn totals_of(
    alloc: Global,
    answered: &AnsweredTable<'_>,
    by: &[Vec<u8>],
    sums: &[Vec<u8>],
    decimals: &[DecimalOption],
) -> Result<Vec<u8>, Refusal> {
    let AnsweredTable { table, columns, .. } = answered;
    let by = unique_places(alloc, columns, by, false)?;
    let sums = unique_places(alloc, columns, sums, true)?;
    let places = places_of(alloc, columns, decimals)?;
    match totals_csv(alloc, table, &by, &sums, &places) {
        Ok(text) => Ok(text),
        Err(fault) => Err(refused_totals(alloc, columns, fault)),
    }
}

/// Prints the totals of the answer of a statement.
pub fn print_totals<
    R: Files<File: FileExt + Send + Sync, Dir: Send>
        + AllocGlobal
        + Input<Reader: Send>
        + Print
        + Threads
        + Wait
        + Sync,
>(rt: &R, request: TotalRequest, interactive: bool, progress: &Progress) -> Result<(), Diagnostic> {
    let TotalRequest {
        question,
        by,
        sums,
        decimals,
    } = request;
    let question = with_statement(rt, question, interactive, progress)?;
    let answered = answer_table(rt, question, interactive, progress)?;
    let text = totals_of(rt.alloc(), &answered, &by, &sums, &decimals)?;
    progress.end(rt);
    Ok(print_to(rt, &answered.output, &text)?)
}
