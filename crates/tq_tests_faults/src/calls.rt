//! The calls of a script's lines.

use crate::answering::try_answer;
use crate::changing::try_apply;
use crate::loading::{try_load, try_load_among};
use crate::trees::{try_change, try_leaves, try_scan};
use std::alloc::{AllocError, Global};
use std::sync::Wait;
use std::thread::Threads;
use tq_tests_script::{Calls, Refusal, TableFiles, Tried, number_and};

/// The calls of the libraries below the program.
#[derive(Drop)]
pub(crate) struct Libraries;

impl Calls for Libraries {
    fn attempt<R: Threads + Wait + Sync>(
        &self,
        rt: &R,
        alloc: Global,
        files: &TableFiles,
        word: &str,
        text: &str,
        refusal: Refusal,
    ) -> Result<Option<Tried>, AllocError> {
        let (number, rest) = number_and(text);
        let tried = match word {
            "load" => try_load(rt, alloc, files, refusal)?,
            "load-among" => try_load_among(rt, alloc, files, number, refusal)?,
            "answer" => try_answer(rt, alloc, files, number, rest, refusal)?,
            "apply" => try_apply(rt, alloc, files, number, rest, refusal)?,
            "change" => try_change(rt, alloc, number, refusal)?,
            "leaves" => try_leaves(rt, alloc, refusal)?,
            "scan" => try_scan(rt, alloc, refusal)?,
            _ => return Ok(None),
        };
        Ok(Some(tried))
    }
}
