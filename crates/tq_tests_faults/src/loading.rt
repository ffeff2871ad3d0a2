//! Files that are loaded.

use std::alloc::{AllocError, Global};
use std::fmt::Write;
use std::sync::Wait;
use std::thread::Threads;
use tq_base::{Form, Rows, Value, ValueRef};
use tq_event::{Event, LoadFault, LoadFaultKind, Loaded, MAX_EVENTS, TableFile, Tables, load};
use tq_load::{LoadOptions, load_tables_by_parts};
use tq_run::Open;
use tq_tests_script::{Call, Refusal, TableFiles, Tried, attempt};

/// The events of the files, or the first fault.
pub(crate) fn loaded(alloc: Global, files: Vec<TableFile>) -> Result<Loaded, LoadFault> {
    load(alloc, files, MAX_EVENTS, Form::Numbers)
}

// Whether the fault is that of a failed allocation.
fn is_no_memory(fault: &LoadFault) -> bool {
    matches!(fault.kind, LoadFaultKind::OutOfMemory)
}

// Prints the value, followed by a comma.
fn print_value(value: &Value, out: &mut String) -> Result<(), AllocError> {
    match value.as_ref() {
        ValueRef::Int(number) => write!(out, "{number},"),
        ValueRef::Text(text) => write!(out, "{text},"),
    }
}

fn print_event(event: &Event, out: &mut String) -> Result<(), AllocError> {
    match event {
        Event::Start { table, values, at } => {
            write!(out, "start {table} ")?;
            for value in values.get() {
                print_value(value, out)?;
            }
            writeln!(out, "{}", at.number())
        }
        Event::End { table, row, at } => { writeln!(out, "end {table} {row} {}", at.number()) }
    }
}

fn print_events(events: &[Event], out: &mut String) -> Result<(), AllocError> {
    for event in events {
        print_event(event, out)?;
    }
    Ok(())
}

fn print_rows(rows: &Rows, out: &mut String) -> Result<(), AllocError> {
    let zero = Value::int(0);
    writeln!(out, "{} columns, {} rows", rows.width(), rows.len())?;
    for row in 0..rows.len() {
        for column in 0..rows.width() {
            if let Ok(column) = u32::try_from(column) {
                print_value(rows.value(row, column).unwrap_or(&zero), out)?;
            }
        }
        let period = rows.periods()[row];
        writeln!(out, "{},{}", period.start.number(), period.end.number())?;
    }
    Ok(())
}

fn print_tables(tables: &Tables, out: &mut String) -> Result<(), AllocError> {
    for rows in tables.rows.get() {
        print_rows(rows, out)?;
    }
    Ok(())
}

fn print_fault(fault: Option<LoadFault>, out: &mut String) -> Result<(), AllocError> {
    match fault {
        Some(fault) => writeln!(out, "{fault}"),
        None => Ok(()),
    }
}

// The files' events, or the first fault.
#[derive(Drop)]
struct Loading<'a> {
    files: &'a TableFiles,
    loaded: Option<Loaded>,
    fault: Option<LoadFault>,
}

impl Call for Loading<'_> {
    fn make<R: Threads + Wait + Sync>(&mut self, _rt: &R, alloc: Global) -> Result<(), AllocError> {
        match loaded(alloc, self.files.copies(alloc)?) {
            Ok(loaded) => self.loaded = Some(loaded),
            Err(fault) if is_no_memory(&fault) => return Err(AllocError),
            Err(fault) => self.fault = Some(fault),
        }
        Ok(())
    }

    fn print(&self, _alloc: Global, out: &mut String) -> Result<(), AllocError> {
        if let Some(loaded) = &self.loaded {
            print_events(loaded.events.get(), out)?;
        }
        print_fault(self.fault, out)
    }
}

/// Loads the files' events, with failing allocations.
pub(crate) fn try_load<R: Threads + Wait + Sync>(
    rt: &R,
    alloc: Global,
    files: &TableFiles,
    refusal: Refusal,
) -> Result<Tried, AllocError> {
    let mut loading = Loading {
        files,
        loaded: None,
        fault: None,
    };
    attempt(rt, alloc, &mut loading, refusal)
}

// The files' tables, loaded in parts of a few lines by `workers` workers, or the first fault.
#[derive(Drop)]
struct LoadingAmong<'a> {
    files: &'a TableFiles,
    workers: u32,
    tables: Option<Tables>,
    fault: Option<LoadFault>,
}

fn loaded_among<R: Threads + Wait + Sync>(
    rt: &R,
    alloc: Global,
    files: Vec<TableFile>,
    workers: u32,
) -> Result<Tables, LoadFault> {
    let options = LoadOptions {
        limit: MAX_EVENTS,
        workers: workers.clamp(1, 16),
        form: Form::Numbers,
    };
    load_tables_by_parts(rt, alloc, files, 20, &Open, options)
}

impl Call for LoadingAmong<'_> {
    fn make<R: Threads + Wait + Sync>(&mut self, rt: &R, alloc: Global) -> Result<(), AllocError> {
        match loaded_among(rt, alloc, self.files.copies(alloc)?, self.workers) {
            Ok(tables) => self.tables = Some(tables),
            Err(fault) if is_no_memory(&fault) => return Err(AllocError),
            Err(fault) => self.fault = Some(fault),
        }
        Ok(())
    }

    fn print(&self, _alloc: Global, out: &mut String) -> Result<(), AllocError> {
        if let Some(tables) = &self.tables {
            print_tables(tables, out)?;
        }
        print_fault(self.fault, out)
    }
}

/// Loads the files' tables with `workers` workers and failing allocations.
pub(crate) fn try_load_among<R: Threads + Wait + Sync>(
    rt: &R,
    alloc: Global,
    files: &TableFiles,
    workers: u32,
    refusal: Refusal,
) -> Result<Tried, AllocError> {
    let mut loading = LoadingAmong {
        files,
        workers,
        tables: None,
        fault: None,
    };
    attempt(rt, alloc, &mut loading, refusal)
}
