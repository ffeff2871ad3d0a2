//! Answers from files, by the engine.

use crate::loaded::{answer_of, history_of};
use crate::reading::{print_again, print_many, print_slow};
use crate::writing::{answer_in_memory, print_after_failure, print_broken, print_shape};
use std::alloc::{AllocError, Global};
use std::fmt::Write;
use std::thread::Threads;
use tq_base::Form;
use tq_event::MAX_EVENTS;
use tq_store::Db;
use tq_tests_script::{TableFiles, number_and, print_nothing, push_lines, unescape_text};

/// How instants are written, and the history of the files' events, once it was needed.
#[derive(Drop)]
pub(crate) struct Engine {
    form: Form,
    history: Option<Db>,
}

impl Engine {
    /// No history, and instants are numbers.
    pub(crate) fn new() -> Engine {
        Engine {
            form: Form::Numbers,
            history: None,
        }
    }

    // Sets how instants are written.
    fn write_in(&mut self, form: Form) {
        self.form = form;
        self.history = None;
    }

    /// Forgets the history: the files have changed.
    pub(crate) fn forget(&mut self) {
        self.history = None;
    }

    // The text of the answer as of the first `n` events of the files, or of all if there are fewer.
    fn answered(
        &mut self,
        alloc: Global,
        files: &TableFiles,
        n: u32,
        statement: &str,
    ) -> Result<Option<Vec<u8>>, AllocError> {
        if self.history.is_none() {
            self.history = history_of(alloc, files.copies(alloc)?, self.form)?;
        }
        match &self.history {
            Some(db) => answer_of(alloc, db, n, statement, self.form),
            None => Ok(None),
        }
    }

    // Prints the answer of 1, 2, 7 and 16 workers, which is also that as of all events.
    fn ask<R: Threads + Sync>(
        &mut self,
        rt: &R,
        alloc: Global,
        files: &TableFiles,
        statement: &str,
        out: &mut String,
    ) -> Result<(), AllocError> {
        let all = self.answered(alloc, files, MAX_EVENTS, statement)?;
        for workers in [1, 2, 7, 16] {
            let files = files.copies(alloc)?;
            let bytes = answer_in_memory(rt, alloc, files, statement, workers, self.form, out)?;
            if workers == 1 {
                push_lines(&bytes, out)?;
            }
            match &all {
                Some(text) if *text == bytes => {}
                _ => writeln!(
                    out,
                    "{workers} workers differ from the answer as of all events"
                )?,
            }
        }
        Ok(())
    }

    // Prints the fault, with one worker.
    fn refuse<R: Threads + Sync>(
        &self,
        rt: &R,
        alloc: Global,
        files: &TableFiles,
        statement: &str,
        out: &mut String,
    ) -> Result<(), AllocError> {
        let bytes = answer_in_memory(
            rt,
            alloc,
            files.copies(alloc)?,
            statement,
            1,
            self.form,
            out,
        )?;
        push_lines(&bytes, out)
    }

    fn ask_as_of(
        &mut self,
        alloc: Global,
        files: &TableFiles,
        n: u32,
        statement: &str,
        out: &mut String,
    ) -> Result<(), AllocError> {
        match self.answered(alloc, files, n, statement)? {
            Some(text) => push_lines(&text, out),
            None => out.push_str("no answer\n"),
        }
    }

    fn ask_broken<R: Threads + Sync>(
        &self,
        rt: &R,
        alloc: Global,
        files: &TableFiles,
        text: &str,
        out: &mut String,
    ) -> Result<(), AllocError> {
        let (most, rest) = number_and(text);
        let (call, statement) = number_and(rest);
        print_broken(
            rt,
            alloc,
            files.copies(alloc)?,
            [most, call],
            statement,
            out,
        )
    }

    // Prints the sums of `count` big rows, before and after a failed write.
    fn ask_after_failure<R: Threads + Sync>(
        &self,
        rt: &R,
        alloc: Global,
        files: &TableFiles,
        count: u32,
        out: &mut String,
    ) -> Result<(), AllocError> {
        let mut copies = Vec::new(alloc);
        for _ in 0..3u32 {
            copies.push(files.copies(alloc)?)?;
        }
        print_after_failure(rt, alloc, copies, count, out)
    }

    // Runs a call of the engine.
    fn answer<R: Threads + Sync>(
        &mut self,
        rt: &R,
        alloc: Global,
        files: &TableFiles,
        word: &str,
        text: &str,
        out: &mut String,
    ) -> Result<(), AllocError> {
        match word {
            "ask" => self.ask(rt, alloc, files, text, out),
            "refuse" => self.refuse(rt, alloc, files, text, out),
            "shape" => print_shape(rt, alloc, files.copies(alloc)?, text, out),
            "broken" => self.ask_broken(rt, alloc, files, text, out),
            "after-failure" => {
                self.ask_after_failure(rt, alloc, files, text.parse().unwrap_or(0), out)
            }
            _ => self.read(alloc, files, word, text, out),
        }
    }

    // Runs a call of a history or of a reader.
    fn read(
        &mut self,
        alloc: Global,
        files: &TableFiles,
        word: &str,
        text: &str,
        out: &mut String,
    ) -> Result<(), AllocError> {
        let (number, rest) = number_and(text);
        match word {
            "as-of" => self.ask_as_of(alloc, files, number, rest, out),
            "read" => print_slow(alloc, files.last_bytes(), number, out),
            "read-many" => print_many(alloc, number, out),
            "reread" => print_again(alloc, files.last_bytes(), out),
            _ => print_nothing(out),
        }
    }

    /// Runs a call over the files, or sets how instants are written.
    pub(crate) fn call<R: Threads + Sync>(
        &mut self,
        rt: &R,
        alloc: Global,
        files: &TableFiles,
        word: &str,
        text: &str,
        out: &mut String,
    ) -> Result<(), AllocError> {
        match word {
            "dates" => self.write_in(Form::Dates),
            "numbers" => self.write_in(Form::Numbers),
            _ => {
                let text = unescape_text(alloc, text)?;
                self.answer(rt, alloc, files, word, text.as_str(), out)?
            }
        }
        Ok(())
    }
}
