//! Counts of failed allocations.

use crate::call::Tried;
use crate::refusal::Refusal;
use std::alloc::AllocError;
use std::fmt::Write;

/// The numbers of failed allocations, and of calls that answered that there was no memory.
#[derive(Drop)]
pub struct Tally {
    pub refusals: u64,
    pub answers: u64,
}

impl Tally {
    /// No failures yet.
    pub fn new() -> Tally {
        Tally {
            refusals: 0,
            answers: 0,
        }
    }

    /// Counts a call, and prints its result if that is not the answer. Whether an allocation failed.
    pub fn count(
        &mut self,
        refusal: Refusal,
        tried: &Tried,
        answer: &str,
        out: &mut String,
    ) -> Result<bool, AllocError> {
        if tried.text.as_str() != answer {
            let Refusal { number, lasts } = refusal;
            let later = if lasts { " and all later ones" } else { "" };
            writeln!(out, "with growth {number} refused{later}:")?;
            out.push_str(tried.text.as_str())?;
        }
        self.refusals = self.refusals.saturating_add(u64::from(tried.was_refused));
        self.answers = self.answers.saturating_add(u64::from(tried.ran_out));
        Ok(tried.was_refused)
    }
}
