//! The calls of a script whose allocations fail in turn.

use crate::pieces::try_pieces;
use crate::refused::{try_open, try_step};
use std::alloc::{AllocError, Global};
use std::sync::Wait;
use std::thread::Threads;
use tq_tests_script::{Calls, Refusal, TableFiles, Tried, number_and};

/// The call that shares pieces of work, and those of a store.
#[derive(Drop)]
pub(crate) struct CrowdCalls;

impl Calls for CrowdCalls {
    fn attempt<R: Threads + Wait + Sync>(
        &self,
        rt: &R,
        alloc: Global,
        files: &TableFiles,
        word: &str,
        text: &str,
        refusal: Refusal,
    ) -> Result<Option<Tried>, AllocError> {
        let (number, rest) = number_and(text);
        let tried = match word {
            "pieces" => try_pieces(rt, alloc, number, refusal)?,
            "refused-open" => try_open(rt, alloc, files, number, refusal)?,
            "refused" => try_step(rt, alloc, files, number, rest, refusal)?,
            _ => return Ok(None),
        };
        Ok(Some(tried))
    }
}
