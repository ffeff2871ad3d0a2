// Prompts at a terminal.

use std::io::{self, Read, Write};

/// A reader that prints a prompt before each read if `prompts` is present.
#[derive(Drop)]
pub struct Prompted<R, W> {
    pub reader: R,
    pub prompts: Option<W>,
}

impl<R: Read, W: Write> Read for Prompted<R, W> {
    ghost remaining = { λ p. R.remaining p.reader };

    fn read(&mut self, buf: &mut [u8]) -> io::Result<usize> {
        if let Some(prompts) = &mut self.prompts {
            // A failed write of the prompt is ignored.
            let _ = prompts.write_all(b"tq> ");
        }
        self.reader.read(buf)
    }
}
