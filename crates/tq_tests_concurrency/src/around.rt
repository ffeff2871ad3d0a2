//! A query before and after a row is started.

ghost use Rattle.std.specs.Prelude.{◌≤◌, length};
ghost use Rattle.tq_event.specs.History.{IsHistory};

use crate::history::loaded;
use crate::rounds::{MAX_SHOWN, planned};
use crate::steps::row;
use std::alloc::{AllocError, Global};
use std::sync::Wait;
use tq_base::{Form, Instant, Values};
use tq_event::Loaded;
use tq_snapshot::laws::ask_before_and_after_start;
use tq_table::{Table, table_text};
use tq_tests_script::{TableFiles, number_and, push_first_lines};

// A query as of a count of events, and the row of a table that is started between its two runs.
#[derive(Drop)]
struct Start<'a> {
    n: u32,
    table: u32,
    at: Instant,
    values: Values,
    statement: &'a str,
}

// The arguments of the line, if they are valid.
fn start_of(alloc: Global, text: &str) -> Option<Start<'_>> {
    let (n, text) = number_and(text);
    let (table, text) = number_and(text);
    let (at, text) = number_and(text);
    let (fields, statement) = text.split_once(' ')?;
    match (row(alloc, fields), Instant::new(u64::from(at))) {
        (Ok(values), Some(at)) => Some(Start {
            n,
            table,
            at,
            values,
            statement,
        }),
        _ => None,
    }
}

fn print_table(alloc: Global, table: &Table<'_>, out: &mut String) -> Result<(), AllocError> {
    let text = table_text(alloc, table, Form::Numbers)?;
    push_first_lines(&text, MAX_SHOWN, out)
}

// Prints the answer before the row was started, and the one after.
fn print_answers<R: Wait>(
    rt: &R,
    alloc: Global,
    loaded: Loaded,
    start: &Start<'_>,
    out: &mut String,
) -> Result<(), AllocError>
    requires history { IsHistory loaded.catalogue loaded.events }
    requires few { length loaded.events ≤ 16777216 }
{
    if start.n as usize > loaded.events.get().len() {
        return out.push_str("too new\n");
    }
    let Some(plan) = planned(alloc, &loaded.catalogue, start.statement) else {
        return out.push_str("no plan\n");
    };
    let Start {
        n,
        table,
        at,
        values,
        ..
    } = start;
    match ask_before_and_after_start(rt, alloc, loaded, *table, values, *at, *n, &plan) {
        Some((before, after)) => {
            print_table(alloc, &before, out)?;
            print_table(alloc, &after, out)
        }
        None => out.push_str("no answers\n"),
    }
}

/// Prints the answers around the start of a row, over a store of the files' events.
pub(crate) fn print_around<R: Wait>(
    rt: &R,
    alloc: Global,
    files: &TableFiles,
    text: &str,
    out: &mut String,
) -> Result<(), AllocError> {
    match (loaded(alloc, files.copies(alloc)?), start_of(alloc, text)) {
        (Ok(loaded), Some(start)) => print_answers(rt, alloc, loaded, &start, out),
        _ => out.push_str("no store\n"),
    }
}
