//! A script of calls, each of which is made with each of its allocations failing in turn.

ghost use Rattle.std.specs.Thread.{IsSync};

use crate::block::Block;
use crate::call::Tried;
use crate::refusal::Refusal;
use crate::running::Suite;
use crate::tables::TableFiles;
use crate::tally::Tally;
use std::alloc::{AllocError, Global};
use std::sync::Wait;
use std::thread::Threads;

// No call has that many allocations.
const MOST: u16 = 5000;

/// The calls of a script's lines, each a word and a text.
pub trait Calls {
    /// Makes the call of the line, if it is one, with this failing allocation.
    fn attempt<R: Threads + Wait + Sync>(
        &self,
        rt: &R,
        alloc: Global,
        files: &TableFiles,
        word: &str,
        text: &str,
        refusal: Refusal,
    ) -> Result<Option<Tried>, AllocError>
        requires { IsSync R.row };
}

/// The files so far, the calls of the lines, and the number of failed allocations in them.
#[derive(Drop)]
pub struct Script<C> {
    calls: C,
    files: TableFiles,
    tally: Tally,
}

impl<C> Script<C> {
    /// No files.
    pub fn new(alloc: Global, calls: C) -> Script<C> {
        Script {
            calls,
            files: TableFiles::new(alloc),
            tally: Tally::new(),
        }
    }

    /// The files so far.
    pub fn files(&self) -> &TableFiles {
        &self.files
    }

    /// The number of failed allocations.
    pub fn tally(&self) -> &Tally {
        &self.tally
    }

    // Makes the call of the line with the first allocation failing, then with the second, and so on.
    fn refuse_each<R: Threads + Wait + Sync>(
        &mut self,
        rt: &R,
        alloc: Global,
        word: &str,
        text: &str,
        lasts: bool,
        answer: &str,
        out: &mut String,
    ) -> Result<(), AllocError>
    where
        C: Calls,
    {
        for number in 1..MOST {
            let refusal = Refusal { number, lasts };
            let attempt = self
                .calls
                .attempt(rt, alloc, &self.files, word, text, refusal)?;
            let Some(tried) = attempt else {
                return Ok(());
            };
            if !self.tally.count(refusal, &tried, answer, out)? {
                return Ok(());
            }
        }
        out.push_str("it has no end\n")
    }

    // Makes the call of the line, if it is one, with ample memory and then with each allocation failing in turn.
    fn call<R: Threads + Wait + Sync>(
        &mut self,
        rt: &R,
        alloc: Global,
        word: &str,
        text: &str,
        out: &mut String,
    ) -> Result<(), AllocError>
    where
        C: Calls,
    {
        let ample = Refusal::none();
        let attempt = self
            .calls
            .attempt(rt, alloc, &self.files, word, text, ample)?;
        let Some(tried) = attempt else {
            return Ok(());
        };
        let answer = tried.text.as_str();
        out.push_str(answer)?;
        self.refuse_each(rt, alloc, word, text, false, answer, out)?;
        self.refuse_each(rt, alloc, word, text, true, answer, out)
    }
}

impl<C: Calls> Suite for Script<C> {
    fn run<R: Threads + Wait + Sync>(
        &mut self,
        rt: &R,
        alloc: Global,
        block: &Block,
        out: &mut String,
    ) -> Result<(), AllocError>
        requires { IsSync R.row }
    {
        if self.files.run(alloc, block)? {
            return Ok(());
        }
        self.call(rt, alloc, block.word(), block.arguments(), out)
    }
}
