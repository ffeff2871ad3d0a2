//! A store whose steps are the lines of a script.

ghost use Rattle.std.specs.Prelude.{◌≡◌, ◌≤◌, length};
ghost use Rattle.tq_event.specs.History.{IsHistory};

use crate::asker::asked;
use crate::machine_steps::value_of;
use crate::rounds::{MAX_SHOWN, planned};
use std::alloc::{AllocError, Global};
use std::fmt::Write;
use std::sync::Wait;
use std::thread::{Threads, join};
use tq_base::{Catalogue, Form, Instant, Values};
use tq_event::{Loaded, MAX_EVENTS};
use tq_snapshot::{
    AppendFault, AskFault, Closed, Note, OpenFault, Opened, Reader, StoreId, Writer, open,
};
use tq_table::table_text;
use tq_tests_script::{Turns, number_and, push_first_lines};

/// The result of a step.
#[derive(Drop)]
pub(crate) enum Came {
    Nothing,
    Row(u32),
    Events(u32),
    Text(Vec<u8>),
    NotAppended(AppendFault),
    NotAnswered(AskFault),
}

impl Came {
    /// Prints the result.
    pub(crate) fn print(&self, out: &mut String) -> Result<(), AllocError> {
        match self {
            Came::Nothing => Ok(()),
            Came::Row(row) => writeln!(out, "row {row}"),
            Came::Events(count) => writeln!(out, "{count} events"),
            Came::Text(text) => push_first_lines(text, MAX_SHOWN, out),
            Came::NotAppended(AppendFault::TooEarly { last }) => {
                let last = last.number();
                writeln!(out, "TooEarly {last}")
            }
            Came::NotAppended(fault) => writeln!(out, "{fault}"),
            Came::NotAnswered(fault) => writeln!(out, "{fault}"),
        }
    }
}

/// The writer of a store, until it is closed, and its readers.
#[derive(Drop)]
pub(crate) struct Stage<J: StoreId> {
    writer: Option<Writer<J>>,
    readers: Vec<Reader<J>>,
}

/// The values of a row, written with commas between them: integers and texts.
pub(crate) fn row(alloc: Global, text: &str) -> Result<Values, AllocError> {
    let mut values = Vec::new(alloc);
    for field in text.split(',') {
        values.push(value_of(alloc, field)?)?;
    }
    Ok(Values::of(values))
}

// Starts or ends `times` such rows; the result of the last one.
fn append<J: StoreId>(
    writer: &mut Writer<J>,
    is_start: bool,
    times: u32,
    table: u32,
    values: &Values,
    at: Instant,
) -> Came {
    let mut came = Came::Nothing;
    for _ in 0..times {
        let appended = if is_start {
            writer.start(table, values, at)
        } else {
            writer.end(table, values, at)
        };
        came = match appended {
            Ok(row) => Came::Row(row),
            Err(fault) => Came::NotAppended(fault),
        };
    }
    came
}

// A note of the published events.
fn noted<J: StoreId>(writer: Writer<J>) -> (Writer<J>, Note<J>) {
    let note = writer.note();
    (writer, note)
}

fn learnt<J: StoreId>(mut reader: Reader<J>, note: Note<J>) -> Reader<J> {
    reader.learn(note);
    reader
}

// Prints the lines, each after the number of its step, counted from 1.
fn print_place(place: usize, said: &str, out: &mut String) -> Result<(), AllocError> {
    let number = place.saturating_add(1);
    for line in said.lines() {
        writeln!(out, "{number}: {line}")?;
    }
    Ok(())
}

impl<J: StoreId> Stage<J> {
    fn append(&mut self, alloc: Global, is_start: bool, text: &str) -> Came {
        let (times, text) = number_and(text);
        let (table, text) = number_and(text);
        let (at, text) = number_and(text);
        match (
            &mut self.writer,
            row(alloc, text),
            Instant::new(u64::from(at)),
        ) {
            (Some(writer), Ok(values), Some(at)) => {
                append(writer, is_start, times, table, &values, at)
            }
            _ => Came::Nothing,
        }
    }

    fn publish<R: Wait>(&mut self, rt: &R) -> Came {
        match &mut self.writer {
            Some(writer) => match writer.publish(rt) {
                Ok(count) => Came::Events(count),
                Err(_) => Came::NotAnswered(AskFault::OutOfMemory),
            },
            None => Came::Nothing,
        }
    }

    // The reader learns of the published events.
    fn learn(&mut self, place: usize) -> Came {
        if let (Some(writer), Some(reader)) = (&self.writer, self.readers.get_mut(place)) {
            reader.learn(writer.note());
        }
        Came::Nothing
    }

    // The last reader learns of the published events; one thread makes the note, and another one learns it.
    fn pass<R: Threads>(&mut self, rt: &R) -> Came
    where
        J: Send + Sync,
    {
        if let (Some(writer), Some(reader)) = (self.writer.take(), self.readers.pop()) {
            let ((writer, note), _) = join(rt, move || noted(writer), || ());
            let (reader, _) = join(rt, move || learnt(reader, note), || ());
            self.writer = Some(writer);
            let _kept = self.readers.push(reader).is_ok();
        }
        Came::Nothing
    }

    /// The number of events that the reader finds.
    pub(crate) fn snapshot(&mut self, place: usize) -> Came {
        match self.readers.get_mut(place) {
            Some(reader) => match reader.snapshot() {
                Ok(count) => Came::Events(count),
                Err(Closed) => Came::NotAnswered(AskFault::Closed),
            },
            None => Came::Nothing,
        }
    }

    fn ask<R: Threads + Wait + Sync>(
        &mut self,
        rt: &R,
        alloc: Global,
        catalogue: &Catalogue,
        gate: &Turns,
        text: &str,
    ) -> Came
        requires { catalogue.now ≡ J.catalogue }
    {
        let (place, text) = number_and(text);
        let (n, text) = number_and(text);
        let (workers, statement) = number_and(text);
        let Some(plan) = planned(alloc, catalogue, statement) else {
            return Came::Nothing;
        };
        match self.readers.get_mut(place as usize) {
            Some(reader) => match asked(rt, alloc, reader, n, &plan, workers, gate) {
                Ok(table) => match table_text(alloc, &table, Form::Numbers) {
                    Ok(text) => Came::Text(text),
                    Err(_) => Came::NotAnswered(AskFault::OutOfMemory),
                },
                Err(fault) => Came::NotAnswered(fault),
            },
            None => Came::Nothing,
        }
    }

    fn close<R: Wait>(&mut self, rt: &R) -> Came {
        if let Some(writer) = self.writer.take() {
            writer.close(rt);
        }
        Came::Nothing
    }

    // Takes the step of the line, unless it is `pass`.
    fn step<R: Threads + Wait + Sync>(
        &mut self,
        rt: &R,
        alloc: Global,
        catalogue: &Catalogue,
        gate: &Turns,
        line: &str,
    ) -> Came
        requires { catalogue.now ≡ J.catalogue }
    {
        let (word, text) = line.split_once(' ').unwrap_or((line, ""));
        let place = number_and(text).0 as usize;
        match word {
            "start" => self.append(alloc, true, text),
            "end" => self.append(alloc, false, text),
            "publish" => self.publish(rt),
            "learn" => self.learn(place),
            "snapshot" => self.snapshot(place),
            "ask" | "gated" => self.ask(rt, alloc, catalogue, gate, text),
            "close" => self.close(rt),
            _ => Came::Nothing,
        }
    }

    /// Takes the step of the line. `AllocError` if the step answers that an allocation failed, or one fails for its
    /// arguments.
    pub(crate) fn try_step<R: Threads + Wait + Sync>(
        &mut self,
        rt: &R,
        alloc: Global,
        line: &str,
    ) -> Result<Came, AllocError> {
        let catalogue = match &self.writer {
            Some(writer) => writer.catalogue().try_copy(alloc)?,
            None => return Err(AllocError),
        };
        match self.step(rt, alloc, &catalogue, &Turns::new(false), line) {
            Came::Nothing
            | Came::NotAppended(AppendFault::OutOfMemory)
            | Came::NotAnswered(AskFault::OutOfMemory) => Err(AllocError),
            came => Ok(came),
        }
    }

    fn take_steps<R: Threads + Wait + Sync>(
        &mut self,
        rt: &R,
        alloc: Global,
        catalogue: &Catalogue,
        lines: &[String],
        out: &mut String,
    ) -> Result<(), AllocError>
    where
        J: Send + Sync,
        requires { catalogue.now ≡ J.catalogue }
    {
        for (place, line) in lines.iter().enumerate() {
            let gate = Turns::new(line.as_str().starts_with("gated"));
            let came = match line.as_str() {
                "pass" => self.pass(rt),
                step => self.step(rt, alloc, catalogue, &gate, step),
            };
            let mut said = String::new(alloc);
            gate.print(&mut said)?;
            came.print(&mut said)?;
            print_place(place, said.as_str(), out)?;
        }
        Ok(())
    }
}

/// A store of the loaded events, with 1 to 8 readers, which takes at least these events.
pub(crate) fn staged<J: StoreId>(
    alloc: Global,
    opened: Opened,
    loaded: Loaded,
    readers: u32,
    limit: u32,
) -> Result<Stage<J>, OpenFault>
    requires named { (opened ≡ J.book) × (loaded.catalogue ≡ J.catalogue) }
    requires history { IsHistory loaded.catalogue loaded.events }
    requires few { length loaded.events ≤ 16777216 }
{
    let events = loaded.events.into_vec();
    let readers = readers.clamp(1, 8);
    let limit = limit.max(events.len() as u32).min(MAX_EVENTS);
    let (writer, readers) = open::<J>(alloc, opened, loaded.catalogue, events, readers, limit)?;
    Ok(Stage {
        writer: Some(writer),
        readers,
    })
}

/// Takes the steps on a store of the loaded events with `readers` readers and at most `limit` events, and prints the
/// results.
pub(crate) fn play<J: StoreId + Send + Sync, R: Threads + Wait + Sync>(
    rt: &R,
    alloc: Global,
    opened: Opened,
    loaded: Loaded,
    readers: u32,
    limit: u32,
    lines: &[String],
    out: &mut String,
) -> Result<(), AllocError>
    requires named { (opened ≡ J.book) × (loaded.catalogue ≡ J.catalogue) }
    requires history { IsHistory loaded.catalogue loaded.events }
    requires few { length loaded.events ≤ 16777216 }
{
    let catalogue = loaded.catalogue.try_copy(alloc)?;
    match staged::<J>(alloc, opened, loaded, readers, limit) {
        Ok(mut stage) => stage.take_steps(rt, alloc, &catalogue, lines, out),
        Err(fault) => writeln!(out, "{fault}"),
    }
}
