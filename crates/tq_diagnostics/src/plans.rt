// Messages about a statement that has no plan over the tables.

ghost use Rattle.std.specs.Prelude.{◌≡◌, ◌<◌, ◌==◌, ◌++◌, IfOk, IfSome, OnOk, length, option_copied, position};
ghost use Rattle.tq_diagnostics.specs.PlanDetails.{IsPlanDetail, IsRead, bounds_line, closed_line, first_day, is_bad_window, is_no_day, last_day, no_day_line, other_form, other_form_line, part_detail, plan_detail, pointed_quote, reads_window, rule_line, column_of, part_hint, window_detail, window_hint, window_line, window_text};
ghost use Rattle.tq_diagnostics.specs.Views.{probe_view, optional_part_view, part_view};

use crate::fields::push_value;
use crate::listing::{push_mismatch, push_sources, push_sources_having, push_tables, push_unknown};
use crate::name_places::push_pointed_name;
use crate::parts::statement_parts;
use crate::pointing::push_pointed;
use crate::probe_statement::{Part, Probe, first_refused, has_fault};
use std::alloc::{AllocError, Global};
use tq_base::{Catalogue, Form, Text, read_instant};
use tq_plan::PlanFault;
use tq_sql::laws::{faults_are_refusals, statements_are_unique};
use tq_sql::{ColumnRef, SqlFaultKind, Statement, read};

// The column that a probe selects.
fn column_of<'a>(probe: &Probe<'a>) -> Option<&'a ColumnRef>
    ensures { option_copied result ≡ column_of (probe_view probe.now) }
{
    match probe {
        Probe::Count => None,
        Probe::Column(column) => Some(*column),
        Probe::Sum(_, _) => None,
        Probe::Equality(_, _) => None,
    }
}

// Appends what exists, or what is wrong, for a part with this fault.
fn push_part_hint(
    alloc: Global,
    text: &mut Vec<u8>,
    catalogue: &Catalogue,
    fault: PlanFault,
    part: &Part<'_>,
) -> Result<(), AllocError>
    ensures { OnOk result (text.new.items ≡ text.old.items ++ part_hint catalogue.now fault (part_view part.now)) }
{
    match fault {
        PlanFault::UnknownTable => push_tables(alloc, text, catalogue, part.name),
        PlanFault::UnknownColumn => push_unknown(
            alloc,
            text,
            catalogue,
            part.sources,
            column_of(&part.probe),
        ),
        PlanFault::AmbiguousColumn => {
            push_sources_having(alloc, text, catalogue, part.sources, &part.probe)
        }
        PlanFault::DuplicateAlias => push_sources(alloc, text, part.sources),
        PlanFault::TypeMismatch => {
            push_mismatch(alloc, text, catalogue, part.sources, &part.probe)
        }
        PlanFault::NotGrouped => Ok(()),
        PlanFault::SumNeedsGroup => text.extend_from_slice(b"  SUM needs GROUP BY\n"),
        PlanFault::SumOfText => {
            text.extend_from_slice(b"  SUM needs an int column; this one is text\n")
        }
        PlanFault::UnequalColumns => Ok(()),
        PlanFault::BadWindow => Ok(()),
        PlanFault::OutOfMemory => Ok(()),
    }
}

// The rule that the statement breaks, if no part has the fault by itself.
fn rule_line(fault: PlanFault) -> &'static [u8]
    ensures { result.now ≡ rule_line fault }
{
    match fault {
        PlanFault::UnknownTable => b"",
        PlanFault::UnknownColumn => b"",
        PlanFault::AmbiguousColumn => b"",
        PlanFault::DuplicateAlias => b"",
        PlanFault::TypeMismatch => b"",
        PlanFault::NotGrouped => {
            b"  with GROUP BY, COUNT or SUM, a selected column must be in GROUP BY\n"
        }
        PlanFault::SumNeedsGroup => b"",
        PlanFault::SumOfText => b"",
        PlanFault::UnequalColumns => {
            b"  both sides of EXCEPT ALL must have the same number and kinds of columns\n"
        }
        PlanFault::BadWindow => b"",
        PlanFault::OutOfMemory => b"",
    }
}

// Appends the line of the faulty part with a caret below its first name, and what exists.
fn push_part_detail(
    alloc: Global,
    text: &mut Vec<u8>,
    catalogue: &Catalogue,
    bytes: &[u8],
    fault: PlanFault,
    part: Option<Part<'_>>,
) -> Result<(), AllocError>
    ensures { OnOk result (text.new.items ≡ text.old.items ++ part_detail catalogue.now bytes.now fault (optional_part_view part.entry)) }
{
    let Some(part) = part else {
        return text.extend_from_slice(rule_line(fault));
    };
    push_pointed_name(alloc, text, bytes, part.at, part.name)?;
    push_part_hint(alloc, text, catalogue, fault, &part)
}

fn is_bad_window(fault: PlanFault) -> bool
    ensures { result ≡ is_bad_window fault }
{
    match fault {
        PlanFault::UnknownTable => false,
        PlanFault::UnknownColumn => false,
        PlanFault::AmbiguousColumn => false,
        PlanFault::DuplicateAlias => false,
        PlanFault::TypeMismatch => false,
        PlanFault::NotGrouped => false,
        PlanFault::SumNeedsGroup => false,
        PlanFault::SumOfText => false,
        PlanFault::UnequalColumns => false,
        PlanFault::BadWindow => true,
        PlanFault::OutOfMemory => false,
    }
}

// How a window is written in the form.
fn window_line(form: Form) -> &'static [u8]
    ensures { result.now ≡ window_line form }
{
    match form {
        Form::Numbers => {
            b"  write the window as '[10 - 20)' or '[10 - forever)', with its start before its end\n"
        }
        Form::Dates => {
            b"  write the window as '[2024-02-29 - 2024-03-01)' or '[2024-02-29 - forever)', with its start before its end\n"
        }
    }
}

// The message for a window that is valid only in the other form of instants; `form` is the wanted one.
fn other_form_line(form: Form) -> &'static [u8]
    ensures { result.now ≡ other_form_line form }
{
    match form {
        Form::Numbers => b"  the window has dates: use --dates\n",
        Form::Dates => {
            b"  with --dates write days, as in '[2024-02-29 - 2024-03-01)' or '[2024-02-29 - forever)'\n"
        }
    }
}

// The message for a window that ends with a square bracket.
fn closed_line(form: Form) -> &'static [u8]
    ensures { result.now ≡ closed_line form }
{
    match form {
        Form::Numbers => {
            b"  a window ends with `)`, since its end is not included: write '[10 - 21)' for 10 to 20\n"
        }
        Form::Dates => {
            b"  a window ends with `)`, since its end is not included: write '[2024-02-01 - 2024-03-01)' for February\n"
        }
    }
}

// Whether the bytes have the hyphens of a date, and are not a day.
fn is_no_day(bytes: &[u8]) -> bool
    ensures { result ≡ is_no_day bytes.now }
{
    bytes.len() == 10
        && bytes[4] == b'-'
        && bytes[7] == b'-'
        && read_instant(bytes, Form::Dates).is_none()
}

// The ten bytes after a bracket.
fn first_day(window: &[u8]) -> &[u8]
    ensures { result.now ≡ first_day window.entry.now }
{
    let rest = &window[window.len().min(1)..];
    &rest[..rest.len().min(10)]
}

// The ten bytes before a bracket.
fn last_day(window: &[u8]) -> &[u8]
    ensures { result.now ≡ last_day window.entry.now }
{
    let front = &window[..window.len().saturating_sub(1)];
    &front[front.len().saturating_sub(10)..]
}

fn push_no_day(text: &mut Vec<u8>, day: &[u8]) -> Result<(), AllocError>
    ensures { OnOk result (text.new.items ≡ text.old.items ++ no_day_line day.now) }
{
    text.extend_from_slice(b"  `")?;
    push_value(text, day)?;
    text.extend_from_slice(b"` is not a day of the calendar\n")
}

// Appends the day of a window that does not exist, or how a window is written.
fn push_bounds(text: &mut Vec<u8>, form: Form, window: &[u8]) -> Result<(), AllocError>
    ensures { OnOk result (text.new.items ≡ text.old.items ++ bounds_line form window.now) }
{
    if is_no_day(first_day(window)) {
        return push_no_day(text, first_day(window));
    }
    if is_no_day(last_day(window)) {
        return push_no_day(text, last_day(window));
    }
    text.extend_from_slice(window_line(form))
}

// Appends what is wrong with the text of a window; `read` if it is one in the other form.
fn push_window_hint(
    text: &mut Vec<u8>,
    form: Form,
    read: bool,
    window: &[u8],
) -> Result<(), AllocError>
    ensures { OnOk result (text.new.items ≡ text.old.items ++ window_hint form read window.now) }
{
    if read {
        return text.extend_from_slice(other_form_line(form));
    }
    if window.ends_with(b"]") {
        return text.extend_from_slice(closed_line(form));
    }
    push_bounds(text, form, window)
}

fn other_form(form: Form) -> Form
    ensures { result ≡ other_form form }
{
    match form {
        Form::Numbers => Form::Dates,
        Form::Dates => Form::Numbers,
    }
}

// Whether the window of the statement is one in this form.
#[tactic(auto, unfolding(crate::specs::PlanDetails::reads_window))]
fn reads_window(
    alloc: Global,
    catalogue: &Catalogue,
    statement: &Statement,
    form: Form,
) -> Result<bool, AllocError>
    ensures { IfOk result (λ reads. reads ≡ reads_window form catalogue.now statement.now) }
{
    let faulty = has_fault(alloc, catalogue, PlanFault::BadWindow, statement, form)?;
    Ok(!faulty)
}

// The text of a window, or nothing.
fn window_text(window: Option<&Text>) -> &[u8]
    ensures { result.now ≡ window_text (option_copied window.entry) }
{
    match window {
        Some(text) => text.get().as_bytes(),
        None => b"",
    }
}

// The byte of the first quote.
fn quote_in(bytes: &[u8]) -> Option<usize>
    ensures place { result ≡ position (λ byte. byte == 39) bytes.now }
    ensures within { IfSome result (λ place. place < length bytes.now) }
{
    bytes.iter().position(|byte| *byte == b'\'')
}

fn push_quote(alloc: Global, text: &mut Vec<u8>, bytes: &[u8]) -> Result<(), AllocError>
    ensures { OnOk result (text.new.items ≡ text.old.items ++ pointed_quote bytes.now (position (λ byte. byte == 39) bytes.now)) }
{
    let Some(place) = quote_in(bytes) else {
        return Ok(());
    };
    push_pointed(alloc, text, bytes, place)
}

// The line of the first quote with a caret below it, and what is wrong with the window.
fn window_detail(
    alloc: Global,
    catalogue: &Catalogue,
    bytes: &[u8],
    statement: &Statement,
    form: Form,
) -> Result<Vec<u8>, AllocError>
    ensures { IfOk result (λ text. text.items ≡ window_detail form catalogue.now bytes.now statement.now) }
{
    let read = reads_window(alloc, catalogue, statement, other_form(form))?;
    let mut text = Vec::new(alloc);
    push_quote(alloc, &mut text, bytes)?;
    push_window_hint(
        &mut text,
        form,
        read,
        window_text(statement.window.as_ref()),
    )?;
    Ok(text)
}

// The message for the window if the fault is there, else for the first part that has this fault by itself.
fn plan_detail(
    alloc: Global,
    catalogue: &Catalogue,
    bytes: &[u8],
    fault: PlanFault,
    statement: &Statement,
    form: Form,
) -> Result<Vec<u8>, AllocError>
    ensures { IfOk result (λ text. text.items ≡ plan_detail form catalogue.now bytes.now fault statement.now) }
{
    if is_bad_window(fault) {
        return window_detail(alloc, catalogue, bytes, statement, form);
    }
    let mut text = Vec::new(alloc);
    let parts = statement_parts(alloc, statement)?;
    let part = first_refused(alloc, catalogue, fault, &parts)?;
    push_part_detail(alloc, &mut text, catalogue, bytes, fault, part)?;
    Ok(text)
}

// The statement that a text makes, if it makes one.
fn statement_of(alloc: Global, bytes: &[u8]) -> Result<Option<Statement>, AllocError>
    ensures { IfOk result (λ statement. IsRead bytes.now statement) }
{
    faults_are_refusals();
    let fault = match read(alloc, bytes) {
        Ok(statement) => return Ok(Some(statement)),
        Err(fault) => fault,
    };
    if fault.kind == SqlFaultKind::OutOfMemory {
        return Err(AllocError);
    }
    Ok(None)
}

/// The message for a statement that has no plan over the tables: the line of the faulty name, a caret below it, and
/// what exists. The faulty part is the window, or the first part that has the same fault if it is planned by itself.
/// Parts are in the order in which they are planned, and instants are in the form. `AllocError` if an allocation
/// failed.
pub fn explain_plan(
    alloc: Global,
    bytes: &[u8],
    catalogue: &Catalogue,
    fault: PlanFault,
    form: Form,
) -> Result<Vec<u8>, AllocError>
    ensures { IfOk result (λ text. IsPlanDetail form catalogue.now bytes.now fault text.items) }
{
    statements_are_unique();
    let Some(statement) = statement_of(alloc, bytes)? else {
        return Ok(Vec::new(alloc));
    };
    let text = plan_detail(alloc, catalogue, bytes, fault, &statement, form)?;
    Ok(text)
}
