//! Reading blocks line by line.

use crate::block::Block;
use std::alloc::{AllocError, Global};

// The line between input and expected output.
const DIVIDER: &str = "----";

/// The block whose lines are being read.
#[derive(Drop)]
pub(crate) struct Reader {
    lines: u32,
    block: Option<Block>,
    is_expected: bool,
}

impl Reader {
    /// A reader of blocks at the start of a script.
    pub(crate) fn new() -> Reader {
        Reader {
            lines: 0,
            block: None,
            is_expected: false,
        }
    }

    /// Takes the next line, and returns the block that ends with it, if one does.
    pub(crate) fn take(
        &mut self,
        alloc: Global,
        line: String,
    ) -> Result<Option<Block>, AllocError> {
        self.lines = self.lines.saturating_add(1);
        if line.is_empty() {
            return Ok(self.finish());
        }
        match &mut self.block {
            Some(block) if self.is_expected => block.expected.push(line)?,
            Some(_) if line.as_str() == DIVIDER => self.is_expected = true,
            Some(block) => block.input.push(line)?,
            None => self.begin(alloc, line),
        }
        Ok(None)
    }

    // Begins a block with this call, unless the line is a comment.
    fn begin(&mut self, alloc: Global, line: String) {
        if !line.as_str().starts_with('#') {
            self.is_expected = false;
            self.block = Some(Block {
                line: self.lines,
                call: line,
                input: Vec::new(alloc),
                expected: Vec::new(alloc),
            });
        }
    }

    /// The last block, if the script ends within it.
    pub(crate) fn finish(&mut self) -> Option<Block> {
        self.block.take()
    }
}
