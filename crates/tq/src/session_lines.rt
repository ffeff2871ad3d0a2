// The details of the refused lines of a session.

ghost use Rattle.std.specs.Prelude.{◌≡◌, IfOk, None, option_map};
ghost use Rattle.tq_diagnostics.specs.RowDetails.{row_detail};
ghost use Rattle.tq_session.specs.Observers.{AddsLine};
ghost use Rattle.tq_session.specs.Requests.{request_of};
ghost use Rattle.tq.specs.SessionLines.{Explains, ExplainsIf, IsLineDetail, IsPlanDetailOf, IsStatementDetail, early_text, event_detail, event_in, new_text, or_one_record, statement_in};

use itoa::Buffer;
use std::alloc::{AllocError, Global};
use std::io::Write;
use tq_base::{Catalogue, Form, Instant, put_instant};
use tq_diagnostics::{explain_command, explain_plan, explain_row, explain_statement};
use tq_plan::PlanFault;
use tq_session::{Command, LineObserver, Refusal as LineRefusal, read_command};
use tq_sql::SqlFault;
use tq_table::Sink;

// The name of the table and the fields of an event, if the line is one.
fn event_in(line: &[u8], form: Form) -> Option<(&[u8], &[u8])>
    ensures { option_map (λ e. (e.0.now, e.1.now)) result ≡ event_in (request_of form line.entry.now) }
{
    match read_command(line, form) {
        Some(Command::Start(words)) => Some((words.table, words.fields)),
        Some(Command::End(words)) => Some((words.table, words.fields)),
        Some(Command::Publish) => None,
        Some(Command::Ask(_, _, _)) => None,
        None => None,
    }
}

// The statement of a query, if the line is one.
fn statement_in(line: &[u8], form: Form) -> Option<&[u8]>
    ensures { option_map (λ statement. statement.now) result ≡ statement_in (request_of form line.entry.now) }
{
    match read_command(line, form) {
        Some(Command::Start(_)) => None,
        Some(Command::End(_)) => None,
        Some(Command::Publish) => None,
        Some(Command::Ask(_, _, statement)) => Some(statement),
        None => None,
    }
}

fn explain_values(
    alloc: Global,
    catalogue: &Catalogue,
    name: &[u8],
    fields: &[u8],
) -> Result<Vec<u8>, AllocError>
    ensures { IfOk result (λ text. text.items ≡ or_one_record (row_detail catalogue.now name.now fields.now)) }
{
    let text = explain_row(alloc, catalogue, name, fields)?;
    if text.len() > 0 {
        return Ok(text);
    }
    Vec::from_slice(
        alloc,
        b"  write the values as one CSV record, with no line break or byte order mark\n",
    )
}

fn explain_event(
    alloc: Global,
    catalogue: &Catalogue,
    form: Form,
    line: &[u8],
) -> Result<Vec<u8>, AllocError>
    ensures { IfOk result (λ text. text.items ≡ event_detail catalogue.now (event_in (request_of form line.now))) }
{
    match event_in(line, form) {
        Some((name, fields)) => explain_values(alloc, catalogue, name, fields),
        None => Ok(Vec::new(alloc)),
    }
}

fn explain_text(
    alloc: Global,
    form: Form,
    line: &[u8],
    fault: SqlFault,
) -> Result<Vec<u8>, AllocError>
    ensures { IfOk result (λ text. IsStatementDetail fault (statement_in (request_of form line.now)) text.items) }
{
    match statement_in(line, form) {
        Some(statement) => explain_statement(alloc, statement, fault),
        None => Ok(Vec::new(alloc)),
    }
}

fn explain_plan_of(
    alloc: Global,
    catalogue: &Catalogue,
    form: Form,
    line: &[u8],
    fault: PlanFault,
) -> Result<Vec<u8>, AllocError>
    ensures { IfOk result (λ text. IsPlanDetailOf form catalogue.now fault (statement_in (request_of form line.now)) text.items) }
{
    match statement_in(line, form) {
        Some(statement) => explain_plan(alloc, statement, catalogue, fault, form),
        None => Ok(Vec::new(alloc)),
    }
}

fn explain_early(alloc: Global, form: Form, last: Instant) -> Result<Vec<u8>, AllocError>
    ensures { IfOk result (λ text. text.items ≡ early_text form last) }
{
    let mut digits = [0; 12];
    let len = put_instant(last, form, &mut digits);
    let mut text = Vec::new(alloc);
    text.extend_from_slice(b"  the last event is at ")?;
    text.extend_from_slice(&digits[..len])?;
    text.extend_from_slice(b": write this time or a later one\n")?;
    Ok(text)
}

fn explain_new(alloc: Global, published: u32) -> Result<Vec<u8>, AllocError>
    ensures { IfOk result (λ text. text.items ≡ new_text published) }
{
    let mut text = Vec::new(alloc);
    text.extend_from_slice(b"  published events: ")?;
    text.extend_from_slice(Buffer::new().format(published).as_bytes())?;
    text.extend_from_slice(b"; write this count or a lower one, or publish first\n")?;
    Ok(text)
}

/// The details of a line that was refused for this reason. `form` is how instants are written. `AllocError` if an
/// allocation failed.
pub fn explain_line(
    alloc: Global,
    catalogue: &Catalogue,
    form: Form,
    line: &[u8],
    why: &LineRefusal,
) -> Result<Vec<u8>, AllocError>
    ensures { IfOk result (λ text. IsLineDetail form catalogue.now line.now why.now text.items) }
{
    match why {
        LineRefusal::BadLine => explain_command(alloc, line, form),
        LineRefusal::LongLine => { Vec::from_slice(alloc, b"  a line has at most 70,000 bytes\n") }
        LineRefusal::UnknownTable => explain_event(alloc, catalogue, form, line),
        LineRefusal::BadValues => explain_event(alloc, catalogue, form, line),
        LineRefusal::TooEarly { last } => explain_early(alloc, form, *last),
        LineRefusal::NoOpenRow => {
            Vec::from_slice(
                alloc,
                b"  no open row has these values and started before this time\n",
            )
        }
        LineRefusal::TooManyEvents => {
            Vec::from_slice(alloc, b"  a session has at most 16,777,216 events\n")
        }
        LineRefusal::Statement(fault) => explain_text(alloc, form, line, *fault),
        LineRefusal::Plan(fault) => explain_plan_of(alloc, catalogue, form, line, *fault),
        LineRefusal::TooNew { published } => explain_new(alloc, *published),
        LineRefusal::Closed => Ok(Vec::new(alloc)),
        LineRefusal::OutOfMemory => Ok(Vec::new(alloc)),
    }
}

// Writes the details of a refused line. A failed allocation or write is ignored.
fn write_details<W: Write>(
    alloc: Global,
    sink: &mut Sink<W>,
    catalogue: &Catalogue,
    form: Form,
    line: &[u8],
    why: &LineRefusal,
)
    ensures { Explains form catalogue.now line.now why.now (W.contents sink.old.writer) (W.contents sink.new.writer) }
{
    let Ok(text) = explain_line(alloc, catalogue, form, line, why) else {
        return;
    };
    let _ = sink.send(&text);
}

/// Writes the details of each refused line of a session to a sink. Without a catalogue it writes nothing.
#[derive(Drop)]
pub struct LineExplainer<W> {
    pub alloc: Global,
    /// How instants are written.
    pub form: Form,
    pub catalogue: Option<Catalogue>,
    pub sink: Sink<W>,
}

impl<W: Write> LineObserver for LineExplainer<W> {
    fn refused(&mut self, line: &[u8], why: &LineRefusal)
        ensures added { AddsLine None None line.now why.now }
        ensures explained { ExplainsIf self.old.form self.old.catalogue line.now why.now (W.contents self.old.sink.writer) (W.contents self.new.sink.writer) }
    {
        if let Some(catalogue) = &self.catalogue {
            write_details(self.alloc, &mut self.sink, catalogue, self.form, line, why);
        }
    }
}
