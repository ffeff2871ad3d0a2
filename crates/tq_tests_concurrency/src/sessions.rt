//! Sessions over the files of a script.

use crate::conversing::{print_noted, print_session, print_short, print_slow};
use std::alloc::{AllocError, Global};
use std::mem;
use std::sync::Wait;
use std::thread::Threads;
use tq_base::Form;
use tq_tests_script::{Block, TableFiles, number_and, print_nothing, unescape};

/// How instants are written, and the input of the next session.
#[derive(Drop)]
pub(crate) struct Sessions {
    form: Form,
    input: Vec<u8>,
}

impl Sessions {
    /// No input; instants are numbers.
    pub(crate) fn new(alloc: Global) -> Sessions {
        Sessions {
            form: Form::Numbers,
            input: Vec::new(alloc),
        }
    }

    // A session over the input by a reader that gives all of it, and one by a reader that gives a byte a call. Prints
    // the second only if it differs.
    fn run_session<R: Threads + Wait + Sync>(
        &self,
        rt: &R,
        alloc: Global,
        files: &TableFiles,
        input: &[u8],
        out: &mut String,
    ) -> Result<(), AllocError> {
        let mut all = String::new(alloc);
        print_session(rt, alloc, files.copies(alloc)?, self.form, input, &mut all)?;
        let mut slow = String::new(alloc);
        print_slow(
            rt,
            alloc,
            files.copies(alloc)?,
            self.form,
            input,
            u32::MAX,
            &mut slow,
        )?;
        out.push_str(all.as_str())?;
        if slow.as_str() != all.as_str() {
            out.push_str("and otherwise by a byte a call:\n")?;
            out.push_str(slow.as_str())?;
        }
        Ok(())
    }

    // Adds the bytes of the text to the input, `count` times.
    fn send(&mut self, alloc: Global, count: u32, text: &str) -> Result<(), AllocError> {
        let bytes = unescape(alloc, text)?;
        for _ in 0..count {
            self.input.extend_from_slice(&bytes)?;
        }
        Ok(())
    }

    // Adds the lines to the input.
    fn send_lines(&mut self, alloc: Global, lines: &[String]) -> Result<(), AllocError> {
        for line in lines {
            self.send(alloc, 1, line.as_str())?;
            self.input.push(b'\n')?;
        }
        Ok(())
    }

    // Runs a call over the input.
    fn ask<R: Threads + Wait + Sync>(
        &mut self,
        rt: &R,
        alloc: Global,
        files: &TableFiles,
        word: &str,
        count: u32,
        out: &mut String,
    ) -> Result<(), AllocError> {
        let input = mem::replace(&mut self.input, Vec::new(alloc));
        match word {
            "session" => self.run_session(rt, alloc, files, &input, out),
            "failing" => print_slow(
                rt,
                alloc,
                files.copies(alloc)?,
                self.form,
                &input,
                count,
                out,
            ),
            "room" => print_short(
                rt,
                alloc,
                files.copies(alloc)?,
                self.form,
                &input,
                count,
                out,
            ),
            "noted" => print_noted(rt, alloc, files.copies(alloc)?, self.form, &input, out),
            _ => print_nothing(out),
        }
    }

    /// Runs a session over the files, adds to its input, or sets how instants are written.
    pub(crate) fn call<R: Threads + Wait + Sync>(
        &mut self,
        rt: &R,
        alloc: Global,
        files: &TableFiles,
        block: &Block,
        out: &mut String,
    ) -> Result<(), AllocError> {
        let text = block.arguments();
        let (count, rest) = number_and(text);
        match block.word() {
            "dates" => self.form = Form::Dates,
            "numbers" => self.form = Form::Numbers,
            "send" => self.send(alloc, 1, text)?,
            "send-repeated" => self.send(alloc, count, rest)?,
            word => {
                self.send_lines(alloc, &block.input)?;
                return self.ask(rt, alloc, files, word, count, out);
            }
        }
        Ok(())
    }
}
