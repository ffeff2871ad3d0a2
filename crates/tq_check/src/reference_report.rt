// The lines of the summary about references.

ghost use Rattle.std.specs.Prelude.{◌≡◌, ◌<◌, ◌++◌, All, IfOk, OnOk, length};
ghost use Rattle.std.specs.List.{flat_map};
ghost use Rattle.tq_base.specs.Values.{value_ref};
ghost use Rattle.tq_check.specs.Orphans.{linked_rows};
ghost use Rattle.tq_check.specs.ReferenceReports.{column_name, linked_in, listed_text, missing_text, orphan_text, place_text, reference_head, shown_value, value_line, AreReferenceTexts, IsReferenceText};
ghost use Rattle.tq_check.specs.References.{IsWithin};

use crate::key_report::{push_bound, push_period};
use crate::missing::Missing;
use crate::orphans::{Orphan, orphans_by_value};
use crate::references::{ColumnPlace, Reference};
use crate::text::push_count;
use itoa::Buffer;
use std::alloc::{AllocError, Global};
use tq_base::{Form, Relation, Schema, ValueRef};
use tq_event::Tables;
use tq_shown::push_printable;

// At most this many rows are listed.
const LISTED: usize = 100;

fn push_shown(text: &mut Vec<u8>, value: ValueRef<'_>) -> Result<(), AllocError>
    ensures { OnOk result (text.new.items ≡ text.old.items ++ shown_value (value_ref value.entry)) }
{
    match value {
        ValueRef::Int(number) => text.extend_from_slice(Buffer::new().format(number).as_bytes()),
        ValueRef::Text(bytes) => push_printable(text, bytes.as_bytes()),
    }
}

// Begins a line with the value of a row of the child.
fn push_value(
    text: &mut Vec<u8>,
    children: &Relation<'_>,
    column: u32,
    row: &Orphan,
) -> Result<(), AllocError>
    ensures { OnOk result (text.new.items ≡ text.old.items ++ value_line children.now.items column row.now) }
{
    text.extend_from_slice(b"\n    value ")?;
    push_shown(
        text,
        children
            .row(row.place as usize)
            .value(column as usize)
            .as_ref(),
    )
}

// Appends the period in which a row has no parent.
fn push_missing(text: &mut Vec<u8>, missing: &Missing, form: Form) -> Result<(), AllocError>
    ensures { OnOk result (text.new.items ≡ text.old.items ++ missing_text form missing.now) }
{
    text.extend_from_slice(b" missing ")?;
    push_bound(text, missing.from, form)?;
    text.extend_from_slice(b" - ")?;
    push_bound(text, missing.to, form)
}

// Appends the line about a row of the child: its value, its record (the header is record 1), its period, and what it
// misses.
#[tactic(auto, unfolding(crate::specs::ReferenceReports::orphan_text))]
fn push_orphan(
    text: &mut Vec<u8>,
    children: &Relation<'_>,
    column: u32,
    row: &Orphan,
    form: Form,
) -> Result<(), AllocError>
    ensures { OnOk result (text.new.items ≡ text.old.items ++ orphan_text form children.now.items column row.now) }
{
    push_value(text, children, column, row)?;
    push_count(text, b" record ", row.place as usize + 2)?;
    push_period(text, row.start, row.end, form)?;
    push_missing(text, &row.missing, form)
}

fn push_orphans(
    text: &mut Vec<u8>,
    children: &Relation<'_>,
    column: u32,
    rows: &[Orphan],
    form: Form,
) -> Result<(), AllocError>
    ensures { OnOk result (text.new.items ≡ text.old.items ++ flat_map (orphan_text form children.now.items column) rows.now) }
{
    'rows: for row in rows {
        push_orphan(text, children, column, row, form)?;
    }
    Ok(())
}

// The name of the column; empty if there is none.
fn column_name(schema: &Schema, column: u32) -> &[u8]
    ensures { result.now ≡ column_name schema.now column }
{
    match schema.columns.get().get(column as usize) {
        Some(column) => column.name.bytes(),
        None => b"",
    }
}

// Appends a table's name, a point and the name of the column.
fn push_place(text: &mut Vec<u8>, schemas: &[Schema], place: ColumnPlace) -> Result<(), AllocError>
    requires { place.table < length schemas.now }
    ensures { OnOk result (text.new.items ≡ text.old.items ++ place_text schemas.now place) }
{
    let schema = &schemas[place.table as usize];
    text.extend_from_slice(schema.name.bytes())?;
    text.push(b'.')?;
    text.extend_from_slice(column_name(schema, place.column))?;
    Ok(())
}

fn push_head(
    text: &mut Vec<u8>,
    schemas: &[Schema],
    reference: &Reference,
) -> Result<(), AllocError>
    requires child { reference.now.child.table < length schemas.now }
    requires parent { reference.now.parent.table < length schemas.now }
    ensures { OnOk result (text.new.items ≡ text.old.items ++ reference_head schemas.now reference.now) }
{
    text.extend_from_slice(b"reference ")?;
    push_place(text, schemas, reference.child)?;
    text.extend_from_slice(b"=")?;
    push_place(text, schemas, reference.parent)
}

// Appends the number of the rows, and the first of them.
fn push_listed(
    text: &mut Vec<u8>,
    children: &Relation<'_>,
    column: u32,
    order: &[Orphan],
    form: Form,
) -> Result<(), AllocError>
    ensures { OnOk result (text.new.items ≡ text.old.items ++ listed_text form children.now.items column (length order.now) order.now) }
{
    let listed = order.len().min(LISTED);
    push_count(text, b"\n  orphans      ", order.len())?;
    push_orphans(text, children, column, &order[..listed], form)?;
    text.push(b'\n')?;
    Ok(())
}

// The lines about a reference between these rows.
fn lines_between(
    alloc: Global,
    schemas: &[Schema],
    children: &Relation<'_>,
    parents: &Relation<'_>,
    reference: &Reference,
    form: Form,
) -> Result<Vec<u8>, AllocError>
    requires child { reference.now.child.table < length schemas.now }
    requires parent { reference.now.parent.table < length schemas.now }
    ensures { IfOk result (λ text. IsReferenceText form schemas.now (linked_rows children.now.items parents.now.items reference.now) reference.now text.items) }
{
    let order = orphans_by_value(alloc, children, parents, reference)?;
    let mut text = Vec::new(alloc);
    push_head(&mut text, schemas, reference)?;
    push_listed(&mut text, children, reference.child.column, &order, form)?;
    Ok(text)
}

// The lines about a reference.
fn reference_lines(
    alloc: Global,
    tables: &Tables,
    reference: &Reference,
    form: Form,
) -> Result<Vec<u8>, AllocError>
    requires rows { length tables.now.rows ≡ length tables.now.catalogue.tables }
    requires within { IsWithin tables.now.catalogue reference.now }
    ensures { IfOk result (λ text. IsReferenceText form tables.now.catalogue.tables (linked_in tables.now.rows reference.now) reference.now text.items) }
{
    let rows = tables.rows.get();
    let children = Relation::of(alloc, &rows[reference.child.table as usize])?;
    let parents = Relation::of(alloc, &rows[reference.parent.table as usize])?;
    let schemas = tables.catalogue.tables.get();
    lines_between(alloc, schemas, &children, &parents, reference, form)
}

/// The lines about the references, in their order; `form` says how instants are written. Requires rows for each table,
/// and references between tables. `AllocError` if an allocation failed.
pub fn references_text(
    alloc: Global,
    tables: &Tables,
    references: &[Reference],
    form: Form,
) -> Result<Vec<u8>, AllocError>
    requires rows { length tables.now.rows ≡ length tables.now.catalogue.tables }
    requires within { All (IsWithin tables.now.catalogue) references.now }
    ensures { IfOk result (λ text. AreReferenceTexts form tables.now references.now text.items) }
{
    let mut text = Vec::new(alloc);
    'references: for reference in references {
        let lines = reference_lines(alloc, tables, reference, form)?;
        text.extend_from_slice(&lines)?;
    }
    Ok(text)
}
