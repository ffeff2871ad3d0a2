// The lines of the summary about the rows of one key.

ghost use Rattle.std.specs.Prelude.{◌≡◌, ◌++◌, ◌||◌, IfOk, OnOk};
ghost use Rattle.std.specs.List.{flat_map};
ghost use Rattle.tq_base.specs.Values.{value_ref};
ghost use Rattle.tq_check.specs.KeyRows.{IsKeyOrder};
ghost use Rattle.tq_check.specs.KeyReports.{bound_text, findings_text, gap_text, key_text, label_of, overlap_text, pair_text, period_text, record_text, value_text, wanted_text, IsKeyText};

use crate::findings::{Finding, KeyPair, findings_in};
use crate::key_rows::{KeyedRow, rows_by_key};
use crate::text::push_count;
use itoa::Buffer;
use std::alloc::{AllocError, Global};
use tq_base::{Form, Instant, Relation, Rows, ValueRef, put_instant};

/// Which lines the summary has about rows of one key: rows that overlap an earlier one, and gaps.
#[derive(Clone, Copy, Debug)]
pub struct KeyChecks {
    pub overlaps: bool,
    pub gaps: bool,
}

/// Appends an instant, or `forever`.
pub(crate) fn push_bound(text: &mut Vec<u8>, bound: u64, form: Form) -> Result<(), AllocError>
    ensures { OnOk result (text.new.items ≡ text.old.items ++ bound_text form bound) }
{
    let Some(instant) = Instant::new(bound) else {
        return text.extend_from_slice(b"forever");
    };
    let mut room = [0; 12];
    let len = put_instant(instant, form, &mut room);
    text.extend_from_slice(&room[..len])
}

fn push_value(text: &mut Vec<u8>, value: ValueRef<'_>) -> Result<(), AllocError>
    ensures { OnOk result (text.new.items ≡ text.old.items ++ value_text (value_ref value.entry)) }
{
    match value {
        ValueRef::Int(number) => text.extend_from_slice(Buffer::new().format(number).as_bytes()),
        ValueRef::Text(bytes) => text.extend_from_slice(bytes.as_bytes()),
    }
}

// Begins a line with the key of a row.
fn push_key(text: &mut Vec<u8>, rows: &Relation<'_>, row: &KeyedRow) -> Result<(), AllocError>
    ensures { OnOk result (text.new.items ≡ text.old.items ++ key_text rows.now.items row.now) }
{
    text.extend_from_slice(b"\n    key ")?;
    push_value(text, rows.row(row.place as usize).value(0).as_ref())
}

// Appends the label and the number of the row's record. The header is record 1.
fn push_record(text: &mut Vec<u8>, label: &[u8], row: &KeyedRow) -> Result<(), AllocError>
    ensures { OnOk result (text.new.items ≡ text.old.items ++ record_text label.now row.now) }
{
    push_count(text, label, row.place as usize + 2)
}

/// Appends a period after its label.
pub(crate) fn push_period(
    text: &mut Vec<u8>,
    start: u64,
    end: u64,
    form: Form,
) -> Result<(), AllocError>
    ensures { OnOk result (text.new.items ≡ text.old.items ++ period_text form start end) }
{
    text.extend_from_slice(b" period ")?;
    push_bound(text, start, form)?;
    text.extend_from_slice(b" - ")?;
    push_bound(text, end, form)
}

// Appends the line about two rows that overlap.
fn push_overlap(
    text: &mut Vec<u8>,
    rows: &Relation<'_>,
    pair: &KeyPair,
    form: Form,
) -> Result<(), AllocError>
    ensures { OnOk result (text.new.items ≡ text.old.items ++ overlap_text form rows.now.items pair.now) }
{
    let end = pair.row.end.min(pair.earlier.end);
    push_key(text, rows, &pair.row)?;
    push_record(text, b" record ", &pair.row)?;
    push_record(text, b" with record ", &pair.earlier)?;
    push_period(text, pair.row.start, end, form)
}

// Appends the line about the gap between two rows.
fn push_gap(
    text: &mut Vec<u8>,
    rows: &Relation<'_>,
    pair: &KeyPair,
    form: Form,
) -> Result<(), AllocError>
    ensures { OnOk result (text.new.items ≡ text.old.items ++ gap_text form rows.now.items pair.now) }
{
    push_key(text, rows, &pair.row)?;
    push_period(text, pair.earlier.end, pair.row.start, form)
}

fn push_pair(
    text: &mut Vec<u8>,
    rows: &Relation<'_>,
    finding: Finding,
    pair: &KeyPair,
    form: Form,
) -> Result<(), AllocError>
    ensures { OnOk result (text.new.items ≡ text.old.items ++ pair_text form finding rows.now.items pair.now) }
{
    match finding {
        Finding::Overlap => push_overlap(text, rows, pair, form),
        Finding::Gap => push_gap(text, rows, pair, form),
    }
}

fn push_pairs(
    text: &mut Vec<u8>,
    rows: &Relation<'_>,
    finding: Finding,
    pairs: &[KeyPair],
    form: Form,
) -> Result<(), AllocError>
    ensures { OnOk result (text.new.items ≡ text.old.items ++ flat_map (pair_text form finding rows.now.items) pairs.now) }
{
    'pairs: for pair in pairs {
        push_pair(text, rows, finding, pair, form)?;
    }
    Ok(())
}

fn label_of(finding: Finding) -> &'static [u8]
    ensures { result.now ≡ label_of finding }
{
    match finding {
        Finding::Overlap => b"\n  key overlaps ",
        Finding::Gap => b"\n  key gaps     ",
    }
}

// Appends how many rows were found, and the first of them.
fn push_findings(
    alloc: Global,
    text: &mut Vec<u8>,
    rows: &Relation<'_>,
    order: &[KeyedRow],
    finding: Finding,
    form: Form,
) -> Result<(), AllocError>
    requires { IsKeyOrder rows.now.items order.now }
    ensures { OnOk result (text.new.items ≡ text.old.items ++ findings_text form finding rows.now.items order.now) }
{
    let _few = rows.len();
    let findings = findings_in(alloc, order, finding)?;
    push_count(text, label_of(finding), findings.count)?;
    push_pairs(text, rows, finding, &findings.first, form)?;
    Ok(())
}

// Appends the count and the first pairs of a finding, if it is wanted.
fn push_wanted(
    alloc: Global,
    text: &mut Vec<u8>,
    rows: &Relation<'_>,
    order: &[KeyedRow],
    finding: Finding,
    is_wanted: bool,
    form: Form,
) -> Result<(), AllocError>
    requires { IsKeyOrder rows.now.items order.now }
    ensures { OnOk result (text.new.items ≡ text.old.items ++ wanted_text is_wanted form finding rows.now.items order.now) }
{
    if is_wanted {
        return push_findings(alloc, text, rows, order, finding, form);
    }
    Ok(())
}

// The lines that are wanted.
fn wanted_lines(
    alloc: Global,
    rows: &Relation<'_>,
    form: Form,
    keys: KeyChecks,
) -> Result<Vec<u8>, AllocError>
    ensures { IfOk result (λ text. IsKeyText form keys rows.now.items text.items) }
{
    let order = rows_by_key(alloc, rows)?;
    let mut text = Vec::new(alloc);
    push_wanted(
        alloc,
        &mut text,
        rows,
        &order,
        Finding::Overlap,
        keys.overlaps,
        form,
    )?;
    push_wanted(
        alloc,
        &mut text,
        rows,
        &order,
        Finding::Gap,
        keys.gaps,
        form,
    )?;
    Ok(text)
}

// Whether some lines are wanted.
fn wants_lines(keys: KeyChecks) -> bool
    ensures { result ≡ (keys.overlaps || keys.gaps) }
{
    keys.overlaps || keys.gaps
}

/// The lines about the rows of one key; empty if none is wanted. `AllocError` if an allocation failed.
pub(crate) fn key_lines(
    alloc: Global,
    rows: &Rows,
    form: Form,
    keys: KeyChecks,
) -> Result<Vec<u8>, AllocError>
    ensures { IfOk result (λ text. IsKeyText form keys rows.now.items text.items) }
{
    if !wants_lines(keys) {
        return Ok(Vec::new(alloc));
    }
    let relation = Relation::of(alloc, rows)?;
    wanted_lines(alloc, &relation, form, keys)
}
