// What the bytes of a file are, by the first of them.

ghost use Rattle.std.specs.Prelude.{◌≡◌};
ghost use Rattle.tq_diagnostics.specs.Contents.{begins_as_utf16, begins_with, content_of, is_blank, is_plain};
ghost use Rattle.tq_diagnostics.specs.Lines.{is_line_end};

use tq_event::steps::has_two_boms;

/// What the bytes of a file are: a text that may be a table file, a text after two byte order marks, data that gzip
/// compressed, a zip archive, a text in UTF-16, or nothing but line ends.
#[derive(Clone, Copy, Debug, PartialEq, Eq)]
pub(crate) enum Content {
    Plain,
    TwoMarks,
    Gzip,
    Zip,
    Utf16,
    Empty,
}

// The first bytes of each kind of file that is not plain.
const GZIP: [u8; 2] = [0x1F, 0x8B];

const ZIP: [u8; 4] = [0x50, 0x4B, 3, 4];

const UTF16_BIG: [u8; 2] = [0xFE, 0xFF];

const UTF16_LITTLE: [u8; 2] = [0xFF, 0xFE];

fn begins_with(bytes: &[u8], mark: &[u8]) -> bool
    ensures { result ≡ begins_with bytes.now mark.now }
{
    bytes.starts_with(mark)
}

// Whether the bytes begin with a byte order mark of UTF-16.
fn begins_as_utf16(bytes: &[u8]) -> bool
    ensures { result ≡ begins_as_utf16 bytes.now }
{
    begins_with(bytes, &UTF16_BIG) || begins_with(bytes, &UTF16_LITTLE)
}

/// Whether a line ends with the byte: a line feed or a carriage return.
pub(crate) fn is_line_end(byte: u8) -> bool
    ensures { result ≡ is_line_end byte }
{
    byte == b'\n' || byte == b'\r'
}

// Whether the bytes are line ends alone.
fn is_blank(bytes: &[u8]) -> bool
    ensures { result ≡ is_blank bytes.now }
{
    bytes.iter().all(|byte| is_line_end(*byte))
}

/// What the bytes of a file are.
#[tactic(auto, unfolding(crate::specs::Contents::content_of))]
pub(crate) fn content_of(bytes: &[u8]) -> Content
    ensures { result ≡ content_of bytes.now }
{
    if has_two_boms(bytes) {
        return Content::TwoMarks;
    }
    if begins_with(bytes, &GZIP) {
        return Content::Gzip;
    }
    if begins_with(bytes, &ZIP) {
        return Content::Zip;
    }
    if begins_as_utf16(bytes) {
        return Content::Utf16;
    }
    if is_blank(bytes) {
        return Content::Empty;
    }
    Content::Plain
}

/// Whether the file may be a table file, so that its header is described.
pub(crate) fn is_plain(content: Content) -> bool
    ensures { result ≡ is_plain content }
{
    match content {
        Content::Plain => true,
        Content::TwoMarks => false,
        Content::Gzip => false,
        Content::Zip => false,
        Content::Utf16 => false,
        Content::Empty => false,
    }
}
