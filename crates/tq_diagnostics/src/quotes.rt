// A quote that a file opens and does not close.

ghost use Rattle.std.specs.Prelude.{◌≡◌, ◌++◌, OnOk};
ghost use Rattle.tq_diagnostics.specs.Lines.{state_of};
ghost use Rattle.tq_diagnostics.specs.Quotes.{is_in_quotes, open_quote_line, open_quote_text, opened_after, opens_quote, quote_text};

use crate::fields::push_number;
use crate::lines::{ReaderState, after, line_after_byte, mark_len};
use std::alloc::AllocError;

// Whether the reader is between an opening quote and the one that closes it.
fn is_in_quotes(reader_state: ReaderState) -> bool
    ensures { result ≡ is_in_quotes (state_of reader_state) }
{
    matches!(reader_state, ReaderState::InQuotes)
}

// Whether the byte is a quote that begins a field.
fn opens_quote(reader_state: ReaderState, byte: u8) -> bool
    ensures { result ≡ opens_quote (state_of reader_state) byte }
{
    match reader_state {
        ReaderState::InQuotes | ReaderState::PastQuote => false,
        _ => is_in_quotes(after(reader_state, byte)),
    }
}

// The line of the last opening quote.
fn opened_after(reader_state: ReaderState, line: usize, opened: usize, byte: u8) -> usize
    ensures { result ≡ opened_after (state_of reader_state) line opened byte }
{
    if opens_quote(reader_state, byte) {
        line
    } else {
        opened
    }
}

// The line of the quote that is still open at the end, or 0 if none is.
#[tactic(auto, unfolding(crate::specs::Quotes::open_quote_line))]
fn open_quote_line(bytes: &[u8]) -> usize
    ensures { result ≡ open_quote_line bytes.now }
{
    let mut reader_state = ReaderState::Record;
    let mut line = 1;
    let mut opened = 0;
    'bytes: for place in mark_len(bytes)..bytes.len() {
        let byte = bytes[place];
        opened = opened_after(reader_state, line, opened, byte);
        line = line_after_byte(line, byte);
        reader_state = after(reader_state, byte);
    }
    if is_in_quotes(reader_state) {
        opened
    } else {
        0
    }
}

// Appends that the quote that is opened on the line is not closed.
fn push_open_quote(text: &mut Vec<u8>, line: usize) -> Result<(), AllocError>
    ensures { OnOk result (text.new.items ≡ text.old.items ++ open_quote_text line) }
{
    text.extend_from_slice(b"  the quote that is opened on line ")?;
    push_number(text, line)?;
    text.extend_from_slice(b" is not closed\n")?;
    Ok(())
}

// Appends that the quote opened on the line is not closed; nothing if the line is 0.
fn push_quote_line(text: &mut Vec<u8>, line: usize) -> Result<(), AllocError>
    ensures { OnOk result (text.new.items ≡ text.old.items ++ quote_text line) }
{
    if line == 0 {
        return Ok(());
    }
    push_open_quote(text, line)
}

/// Appends where a quote is opened that the file does not close, if there is one.
pub(crate) fn push_quote(text: &mut Vec<u8>, bytes: &[u8]) -> Result<(), AllocError>
    ensures { OnOk result (text.new.items ≡ text.old.items ++ quote_text (open_quote_line bytes.now)) }
{
    push_quote_line(text, open_quote_line(bytes))
}
