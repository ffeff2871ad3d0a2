//! Results of a statement with several workers.

use crate::texts::Answer;
use std::alloc::{AllocError, Global};
use std::fmt::Write;
use tq_tests_script::push_first_lines;

/// The number of answers, the number that differ from the answer of one thread, and the last answer, or the last one
/// that differs.
#[derive(Drop)]
pub(crate) struct Seen {
    answers: u32,
    differences: u32,
    text: Vec<u8>,
}

impl Seen {
    /// No answers yet.
    pub(crate) fn new(alloc: Global) -> Seen {
        Seen {
            answers: 0,
            differences: 0,
            text: Vec::new(alloc),
        }
    }

    /// Compares an answer with that of one thread.
    pub(crate) fn take(&mut self, answer: Answer, here: &Answer) {
        let is_same = answer == *here;
        self.answers = self.answers.saturating_add(1);
        if !is_same {
            self.differences = self.differences.saturating_add(1);
        }
        if !is_same || self.differences == 0 {
            let Answer { text, .. } = answer;
            self.text = text;
        }
    }

    /// Prints the counts, and the answer if it is wanted or one differs.
    pub(crate) fn print(&self, wants_text: bool, out: &mut String) -> Result<(), AllocError> {
        let (answers, differences) = (self.answers, self.differences);
        writeln!(out, "{answers} answers, {differences} differences")?;
        if wants_text || differences > 0 {
            push_first_lines(&self.text, 5, out)?;
        }
        Ok(())
    }
}
