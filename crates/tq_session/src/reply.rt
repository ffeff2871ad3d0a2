// Replies to the lines of a session, and their text.

ghost use Rattle.std.specs.Prelude.{◌≡◌, ◌++◌, [], codes, decimal, option_copied, OnOk, OnErr, Some, if◌then◌else◌};
ghost use Rattle.std.specs.Result.{is_err};
ghost use Rattle.std.specs.Io.KnownBytes.{Appends};
ghost use Rattle.tq_base.specs.Numbers.{instant_text};
ghost use Rattle.tq_table.specs.Sink.{AppendsPrefix, bytes_of, one_more};
ghost use Rattle.tq_session.specs.Replies.{AppendsAllExcept, joined, line_text, refusal_name, refusal_number, refused_event, reply_text};

use arrayvec::ArrayVec;
use itoa::Buffer;
use std::io::Write;
use tq_base::{Form, Instant, put_instant};
use tq_engine::{plan_name, sql_name};
use tq_exec::RenderedAnswer;
use tq_plan::PlanFault;
use tq_snapshot::AppendFault;
use tq_sql::SqlFault;
use tq_table::{Sink, WriteFault};

/// Why a line was refused.
#[derive(Clone, Copy, Debug, PartialEq, Eq)]
pub enum Refusal {
    /// The line is not a command.
    BadLine,
    /// The line has more than 70,000 bytes. It is printed as `BadLine`.
    LongLine,
    /// There is no table with this name.
    UnknownTable,
    /// The values are not a row of the table.
    BadValues,
    /// The last event, published or pending, has a later time.
    TooEarly { last: Instant },
    /// No row with these values is open and started before the instant.
    NoOpenRow,
    /// The limit on events is reached.
    TooManyEvents,
    /// The first fault of the statement's text.
    Statement(SqlFault),
    /// The first fault of the statement's plan.
    Plan(PlanFault),
    /// Fewer events than requested are published.
    TooNew { published: u32 },
    /// The store was not entered.
    Closed,
    /// An allocation failed.
    OutOfMemory,
}

/// The reply to a line.
#[derive(Drop, Debug)]
pub enum Reply {
    /// The reply to an empty line; nothing is printed.
    Nothing,
    /// The number of the row that was started or ended.
    Row(u32),
    /// The number of published events.
    Published(u32),
    /// The number of rows of the answer, and its text.
    Answer(RenderedAnswer),
    Refused(Refusal),
}

impl From<AppendFault> for Refusal {
    ghost from_gives = { λ fault refusal. refusal ≡ refused_event fault };

    fn from(fault: AppendFault) -> Refusal {
        match fault {
            AppendFault::UnknownTable => Refusal::UnknownTable,
            AppendFault::BadValues => Refusal::BadValues,
            AppendFault::TooEarly { last } => Refusal::TooEarly { last },
            AppendFault::NoOpenRow => Refusal::NoOpenRow,
            AppendFault::TooManyEvents => Refusal::TooManyEvents,
            AppendFault::OutOfMemory => Refusal::OutOfMemory,
        }
    }
}

impl Refusal {
    fn name(&self) -> &'static str
        ensures { result.now ≡ refusal_name self.now }
    {
        match self {
            Refusal::BadLine => "BadLine",
            Refusal::LongLine => "BadLine",
            Refusal::UnknownTable => "UnknownTable",
            Refusal::BadValues => "BadValues",
            Refusal::TooEarly { .. } => "TooEarly",
            Refusal::NoOpenRow => "NoOpenRow",
            Refusal::TooManyEvents => "TooManyEvents",
            Refusal::Statement(fault) => sql_name(fault.kind),
            Refusal::Plan(fault) => plan_name(*fault),
            Refusal::TooNew { .. } => "TooNew",
            Refusal::Closed => "Closed",
            Refusal::OutOfMemory => "OutOfMemory",
        }
    }
}

// The bytes that wait for the next write.
type WriteBuffer = ArrayVec<u8, 512>;

// Appends the part to the buffer. If it does not fit, the buffered bytes are written first, then the part. Allocates
// nothing.
fn buffer_part<W: Write>(
    sink: &mut Sink<W>,
    buffer: &mut WriteBuffer,
    part: &[u8],
) -> Result<(), WriteFault>
    ensures rest { OnOk result (AppendsAllExcept (W.contents sink.old.writer) (W.contents sink.new.writer) (buffer.old.items ++ part.now) buffer.new.items) }
    ensures prefix { OnErr result (AppendsPrefix (W.contents sink.old.writer) (W.contents sink.new.writer) (buffer.old.items ++ part.now)) }
    ensures failed { sink.new.failed ≡ (if is_err result then one_more sink.old.failed else sink.old.failed) }
{
    if buffer.try_extend_from_slice(part).is_ok() {
        return Ok(());
    }
    sink.put(buffer.as_slice())?;
    buffer.clear();
    sink.put(part)
}

// Does what `buffer_part` does, for one part of a line after the other.
fn buffer_line<W: Write>(
    sink: &mut Sink<W>,
    buffer: &mut WriteBuffer,
    parts: &[&[u8]],
) -> Result<(), WriteFault>
    ensures rest { OnOk result (AppendsAllExcept (W.contents sink.old.writer) (W.contents sink.new.writer) (buffer.old.items ++ joined parts.now) buffer.new.items) }
    ensures prefix { OnErr result (AppendsPrefix (W.contents sink.old.writer) (W.contents sink.new.writer) (buffer.old.items ++ joined parts.now)) }
    ensures failed { sink.new.failed ≡ (if is_err result then one_more sink.old.failed else sink.old.failed) }
{
    'each: for part in parts {
        buffer_part(sink, buffer, part)?;
    }
    Ok(())
}

// Does what `buffer_part` does, for one part of a text after the other.
fn buffer_text<W: Write>(
    sink: &mut Sink<W>,
    buffer: &mut WriteBuffer,
    parts: &[Vec<u8>],
) -> Result<(), WriteFault>
    ensures rest { OnOk result (AppendsAllExcept (W.contents sink.old.writer) (W.contents sink.new.writer) (buffer.old.items ++ bytes_of parts.now) buffer.new.items) }
    ensures prefix { OnErr result (AppendsPrefix (W.contents sink.old.writer) (W.contents sink.new.writer) (buffer.old.items ++ bytes_of parts.now)) }
    ensures failed { sink.new.failed ≡ (if is_err result then one_more sink.old.failed else sink.old.failed) }
{
    'each: for part in parts {
        buffer_part(sink, buffer, part)?;
    }
    Ok(())
}

// Writes the parts of a line and then those of a text, in one write if they fit into the buffer, and flushes. Allocates
// nothing.
fn send_parts<W: Write>(
    sink: &mut Sink<W>,
    line: &[&[u8]],
    text: &[Vec<u8>],
) -> Result<(), WriteFault>
    ensures whole { OnOk result (Appends (W.contents sink.old.writer) (W.contents sink.new.writer) (joined line.now ++ bytes_of text.now)) }
    ensures prefix { OnErr result (AppendsPrefix (W.contents sink.old.writer) (W.contents sink.new.writer) (joined line.now ++ bytes_of text.now)) }
    ensures failed { sink.new.failed ≡ (if is_err result then one_more sink.old.failed else sink.old.failed) }
{
    let mut buffer = WriteBuffer::new();
    buffer_line(sink, &mut buffer, line)?;
    buffer_text(sink, &mut buffer, text)?;
    sink.put(buffer.as_slice())?;
    sink.flush()
}

// Does what `send_parts` does, for a line of five parts.
fn send_five_parts<'a, W: Write>(
    sink: &mut Sink<W>,
    first: &'a [u8],
    second: &'a [u8],
    third: &'a [u8],
    fourth: &'a [u8],
    fifth: &'a [u8],
    text: &[Vec<u8>],
) -> Result<(), WriteFault>
    ensures whole { OnOk result (Appends (W.contents sink.old.writer) (W.contents sink.new.writer) (first.now ++ (second.now ++ (third.now ++ (fourth.now ++ (fifth.now ++ bytes_of text.now)))))) }
    ensures prefix { OnErr result (AppendsPrefix (W.contents sink.old.writer) (W.contents sink.new.writer) (first.now ++ (second.now ++ (third.now ++ (fourth.now ++ (fifth.now ++ bytes_of text.now)))))) }
    ensures failed { sink.new.failed ≡ (if is_err result then one_more sink.old.failed else sink.old.failed) }
{
    send_parts(sink, &[first, second, third, fourth, fifth], text)
}

// Writes a line of `first`, a word and the digits of a number if there are any, then the text. Allocates nothing.
fn send_line<W: Write>(
    sink: &mut Sink<W>,
    first: &str,
    word: &str,
    digits: Option<&[u8]>,
    text: &[Vec<u8>],
) -> Result<(), WriteFault>
    ensures whole { OnOk result (Appends (W.contents sink.old.writer) (W.contents sink.new.writer) (line_text first.now word.now (option_copied digits.entry) (bytes_of text.now))) }
    ensures prefix { OnErr result (AppendsPrefix (W.contents sink.old.writer) (W.contents sink.new.writer) (line_text first.now word.now (option_copied digits.entry) (bytes_of text.now))) }
    ensures failed { sink.new.failed ≡ (if is_err result then one_more sink.old.failed else sink.old.failed) }
{
    let (first, word) = (first.as_bytes(), word.as_bytes());
    match digits {
        Some(digits) => send_five_parts(sink, first, word, b" ", digits, b"\n", text),
        None => send_five_parts(sink, first, word, b"", b"", b"\n", text),
    }
}

// Does what `send_line` does, with a number.
fn send_number<W: Write>(
    sink: &mut Sink<W>,
    first: &str,
    word: &str,
    number: u128,
    text: &[Vec<u8>],
) -> Result<(), WriteFault>
    ensures whole { OnOk result (Appends (W.contents sink.old.writer) (W.contents sink.new.writer) (line_text first.now word.now (Some (decimal number)) (bytes_of text.now))) }
    ensures prefix { OnErr result (AppendsPrefix (W.contents sink.old.writer) (W.contents sink.new.writer) (line_text first.now word.now (Some (decimal number)) (bytes_of text.now))) }
    ensures failed { sink.new.failed ≡ (if is_err result then one_more sink.old.failed else sink.old.failed) }
{
    let mut digits = Buffer::new();
    send_line(
        sink,
        first,
        word,
        Some(digits.format(number).as_bytes()),
        text,
    )
}

// Does what `send_line` does, with an instant as the number, written as `form` says.
fn send_instant<W: Write>(
    sink: &mut Sink<W>,
    first: &str,
    word: &str,
    instant: Instant,
    form: Form,
) -> Result<(), WriteFault>
    ensures whole { OnOk result (Appends (W.contents sink.old.writer) (W.contents sink.new.writer) (line_text first.now word.now (Some (instant_text form instant)) [])) }
    ensures prefix { OnErr result (AppendsPrefix (W.contents sink.old.writer) (W.contents sink.new.writer) (line_text first.now word.now (Some (instant_text form instant)) [])) }
    ensures failed { sink.new.failed ≡ (if is_err result then one_more sink.old.failed else sink.old.failed) }
{
    let mut text = [0; 12];
    let len = put_instant(instant, form, &mut text);
    send_line(sink, first, word, Some(&text[..len]), &[])
}

impl Refusal {
    // Writes the line of a refusal.
    fn send<W: Write>(&self, sink: &mut Sink<W>, form: Form) -> Result<(), WriteFault>
        ensures whole { OnOk result (Appends (W.contents sink.old.writer) (W.contents sink.new.writer) (line_text (codes "refused ") (refusal_name self.now) (refusal_number form self.now) [])) }
        ensures prefix { OnErr result (AppendsPrefix (W.contents sink.old.writer) (W.contents sink.new.writer) (line_text (codes "refused ") (refusal_name self.now) (refusal_number form self.now) [])) }
        ensures failed { sink.new.failed ≡ (if is_err result then one_more sink.old.failed else sink.old.failed) }
    {
        let (first, word) = ("refused ", self.name());
        match self {
            Refusal::TooEarly { last } => send_instant(sink, first, word, *last, form),
            Refusal::Statement(fault) => {
                send_number(sink, first, word, u128::from(fault.at), &[])
            }
            Refusal::TooNew { published } => {
                send_number(sink, first, word, u128::from(*published), &[])
            }
            _ => send_line(sink, first, word, None, &[]),
        }
    }
}

impl Reply {
    /// Writes the text of the reply, with instants as `form` says, and flushes. An error if a write failed. Allocates
    /// nothing.
    pub fn send<W: Write>(&self, sink: &mut Sink<W>, form: Form) -> Result<(), WriteFault>
        ensures whole { OnOk result (Appends (W.contents sink.old.writer) (W.contents sink.new.writer) (reply_text form self.now)) }
        ensures prefix { OnErr result (AppendsPrefix (W.contents sink.old.writer) (W.contents sink.new.writer) (reply_text form self.now)) }
        ensures failed { sink.new.failed ≡ (if is_err result then one_more sink.old.failed else sink.old.failed) }
    {
        match self {
            Reply::Nothing => Ok(()),
            Reply::Row(row) => send_number(sink, "", "row", u128::from(*row), &[]),
            Reply::Published(count) => {
                send_number(sink, "", "published", u128::from(*count), &[])
            }
            Reply::Answer(answer) => {
                send_number(sink, "", "answer", answer.rows, answer.text.parts())
            }
            Reply::Refused(why) => why.send(sink, form),
        }
    }
}
