// The lines on which the records of a file begin.

ghost use Rattle.std.specs.Prelude.{◌≡◌, ◌<◌, ◌≤◌, ◌+◌, ◌^◌, length, drop, slice_get};
ghost use Rattle.csv.specs.Machine as machine;
ghost use Rattle.csv.specs.Reading.{default_config, strip_bom};
ghost use Rattle.tq_diagnostics.specs.Lines.{begins_record, line_after_byte, lines_left, record_lines, state_of};

/// The state of the CSV reader between two bytes: at the start of a record or of a later field, in an unquoted or a
/// quoted field, after a quote in a quoted field, or after a carriage return that ends a record.
#[derive(Clone, Copy)]
pub(crate) enum ReaderState {
    Record,
    Field,
    InField,
    InQuotes,
    PastQuote,
    PastReturn,
}

/// A scan over the bytes: the place of the next byte, the reader's state before it, and its line.
#[derive(Clone, Copy)]
pub(crate) struct LineScanner {
    place: usize,
    reader_state: ReaderState,
    line: usize,
}

// The reader's state after a byte of an unquoted field.
fn next_unquoted(byte: u8) -> ReaderState
    ensures { state_of result ≡ (machine.in_field default_config byte).0 }
{
    match byte {
        b',' => ReaderState::Field,
        b'\r' => ReaderState::PastReturn,
        b'\n' => ReaderState::Record,
        _ => ReaderState::InField,
    }
}

/// The reader's state after a byte.
pub(crate) fn after(reader_state: ReaderState, byte: u8) -> ReaderState
    ensures { state_of result ≡ (machine.step default_config (state_of reader_state) byte).0 }
{
    match reader_state {
        ReaderState::InField => next_unquoted(byte),
        ReaderState::InQuotes if byte == b'"' => ReaderState::PastQuote,
        ReaderState::InQuotes => ReaderState::InQuotes,
        ReaderState::Record | ReaderState::PastReturn if byte == b'\r' => ReaderState::Record,
        _ if byte == b'"' => ReaderState::InQuotes,
        _ => next_unquoted(byte),
    }
}

// Whether a record begins with the byte.
fn begins_record(reader_state: ReaderState, byte: u8) -> bool
    ensures { result ≡ begins_record (state_of reader_state) byte }
{
    match reader_state {
        ReaderState::Record | ReaderState::PastReturn => byte != b'\n' && byte != b'\r',
        _ => false,
    }
}

/// The line of the next byte.
pub(crate) fn line_after_byte(line: usize, byte: u8) -> usize
    requires { line < 2 ^ 63 }
    ensures value { result ≡ line_after_byte line byte }
    ensures few { result ≤ line + 1 }
{
    if byte == b'\n' { line + 1 } else { line }
}

/// The length of the byte order mark at the front, 0 if there is none.
#[tactic(auto, unfolding(csv::specs::Reading::strip_bom))]
pub(crate) fn mark_len(bytes: &[u8]) -> usize
    ensures within { result ≤ length bytes.now }
    ensures after { drop result bytes.now ≡ strip_bom bytes.now }
{
    match bytes {
        [0xEF, 0xBB, 0xBF, ..] => 3,
        _ => 0,
    }
}

/// A scan from the first byte, or from the first one after a byte order mark.
#[tactic(auto, unfolding(crate::specs::Lines::record_lines))]
pub(crate) fn line_scanner(bytes: &[u8]) -> LineScanner
    ensures within { result.place ≤ length bytes.now }
    ensures few { result.line ≤ result.place + 1 }
    ensures lines { lines_left bytes.now result ≡ record_lines bytes.now }
{
    LineScanner {
        place: mark_len(bytes),
        reader_state: ReaderState::Record,
        line: 1,
    }
}

/// The line on which the next record begins, if there is one. The scan then continues after the first byte of that
/// record.
pub(crate) fn next_line(bytes: &[u8], scanner: &mut LineScanner) -> Option<usize>
    requires within { scanner.old.place ≤ length bytes.now }
    requires few { scanner.old.line ≤ scanner.old.place + 1 }
    ensures within { scanner.new.place ≤ length bytes.now }
    ensures few { scanner.new.line ≤ scanner.new.place + 1 }
    ensures first { result ≡ slice_get (lines_left bytes.now scanner.old) 0 }
    ensures rest { lines_left bytes.now scanner.new ≡ drop 1 (lines_left bytes.now scanner.old) }
{
    let mut reader_state = scanner.reader_state;
    let mut line = scanner.line;
    'bytes: for place in scanner.place..bytes.len() {
        let byte = bytes[place];
        let begun = line;
        let begins = begins_record(reader_state, byte);
        line = line_after_byte(line, byte);
        reader_state = after(reader_state, byte);
        if begins {
            let place = place + 1;
            *scanner = LineScanner {
                place,
                reader_state,
                line,
            };
            return Some(begun);
        }
    }
    let place = bytes.len();
    *scanner = LineScanner {
        place,
        reader_state,
        line,
    };
    None
}
