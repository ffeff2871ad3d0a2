// How the fields of a line are written.

ghost use Rattle.std.specs.Prelude.{◌≡◌, ◌<◌, [], false, IfOk, length, map, slice_index_or};
ghost use Rattle.tq_report.specs.Layouts.{column_width, earlier, end_width, has_numbers, key_of, layout_of, lead_of, leads_of, rights_of, start_width, widths_of};
ghost use Rattle.tq_base.specs.Values.{value_ref};
ghost use Rattle.tq_draw.specs.Labels.{columns_in};
ghost use Rattle.tq_report.specs.Texts.{value_in};

use crate::format::Format;
use crate::options::ReportOptions;
use crate::texts::{is_dates, is_shown, push_end, push_instant, push_name, push_value};
use itoa::Buffer;
use std::alloc::{AllocError, Global};
use std::marker::Model;
use tq_base::{Form, Name, ValueRef};
use tq_draw::columns_in_bytes;
use tq_table::{Table, places_at};

/// For each field of a line: the text before it, its width in columns of a terminal, and whether it is aligned to the
/// right.
#[derive(Drop)]
pub(crate) struct Layout {
    leads: Vec<Vec<u8>>,
    widths: Vec<usize>,
    rights: Vec<bool>,
}

impl Model for Layout {
    ghost use Rattle.std.specs.Prelude.{map};
    ghost use Rattle.tq_report.specs.Layouts.{LayoutView};

    ghost Value = { LayoutView };

    ghost view = { λ a. record { leads = map (λ lead. lead.items) a.leads.items; widths = a.widths.items; rights = a.rights.items } };
}

impl Layout {
    /// The layout of a table.
    pub(crate) fn of(
        alloc: Global,
        table: &Table<'_>,
        options: &ReportOptions,
    ) -> Result<Layout, AllocError>
        ensures { IfOk result (λ layout. layout ≡ layout_of options.now table.now) }
    {
        Ok(Layout {
            leads: leads_of(alloc, table.columns.get(), options.format)?,
            widths: widths_of(alloc, table, options)?,
            rights: rights_of(alloc, table, options.format, options.form)?,
        })
    }

    /// The text before a field.
    pub(crate) fn lead(&self, field: usize) -> &[u8]
        ensures { result.now ≡ slice_index_or self.now.leads field [] }
    {
        match self.leads.get(field) {
            Some(lead) => lead,
            None => &[],
        }
    }

    /// The width of a field; 0 if the format has none.
    pub(crate) fn width(&self, field: usize) -> usize
        ensures { result ≡ slice_index_or self.now.widths field 0 }
    {
        match self.widths.get(field) {
            Some(width) => *width,
            None => 0,
        }
    }

    /// Whether a field is aligned to the right.
    pub(crate) fn is_right(&self, field: usize) -> bool
        ensures { result ≡ slice_index_or self.now.rights field false }
    {
        match self.rights.get(field) {
            Some(right) => *right,
            None => false,
        }
    }

    /// All widths.
    pub(crate) fn widths(&self) -> &[usize]
        ensures { result.now ≡ self.now.widths }
    {
        &self.widths
    }

    /// For each field, whether it is aligned to the right.
    pub(crate) fn rights(&self) -> &[bool]
        ensures { result.now ≡ self.now.rights }
    {
        &self.rights
    }
}

// How many columns before this one have its name.
fn earlier(columns: &[Name], column: usize) -> usize
    requires { column < length columns.now }
    ensures { result ≡ earlier columns.now column }
{
    let name = columns[column].bytes();
    columns[..column]
        .iter()
        .filter(|other| other.bytes() == name)
        .count()
}

// The text before the field of a key.
fn lead_of(alloc: Global, key: &[u8], format: Format) -> Result<Vec<u8>, AllocError>
    ensures { IfOk result (λ lead. lead.items ≡ lead_of format key.now) }
{
    let mut lead = Vec::new(alloc);
    match format {
        Format::Aligned | Format::Markdown => lead.push(b' ')?,
        Format::Tsv | Format::Csv => (),
        Format::Json | Format::JsonLines => {
            lead.push(b'"')?;
            lead.extend_from_slice(key)?;
            lead.extend_from_slice(b"\":")?;
        }
    }
    Ok(lead)
}

// The key of a column in JSON.
fn key_of(alloc: Global, columns: &[Name], column: usize) -> Result<Vec<u8>, AllocError>
    requires { column < length columns.now }
    ensures { IfOk result (λ key. key.items ≡ key_of columns.now column) }
{
    let mut key = Vec::from_slice(alloc, columns[column].bytes())?;
    let earlier = earlier(columns, column);
    if earlier > 0 {
        key.push(b'.')?;
        key.extend_from_slice(Buffer::new().format(earlier + 1).as_bytes())?;
    }
    Ok(key)
}

fn leads_of(alloc: Global, columns: &[Name], format: Format) -> Result<Vec<Vec<u8>>, AllocError>
    ensures { IfOk result (λ leads. map (λ lead. lead.items) leads.items ≡ leads_of format columns.now) }
{
    let mut leads = Vec::new(alloc);
    'columns: for column in 0..columns.len() {
        let key = key_of(alloc, columns, column)?;
        leads.push(lead_of(alloc, &key, format)?)?;
    }
    leads.push(lead_of(alloc, b"from", format)?)?;
    leads.push(lead_of(alloc, b"to", format)?)?;
    Ok(leads)
}

// The width of a value. `cell` is room for it.
fn value_width(
    alloc: Global,
    cell: &mut Vec<u8>,
    value: ValueRef<'_>,
    places: u32,
) -> Result<usize, AllocError>
    ensures { IfOk result (λ width. width ≡ columns_in (value_in Format.Aligned places (value_ref value.entry))) }
{
    match value {
        ValueRef::Text(text) if is_shown(text.as_bytes()) => Ok(text.len()),
        _ => {
            cell.clear();
            push_value(alloc, cell, value, Format::Aligned, places)?;
            Ok(columns_in_bytes(cell))
        }
    }
}

// A column is as wide as its longest value, or as its name.
fn column_width(
    alloc: Global,
    table: &Table<'_>,
    column: usize,
    places: &[u32],
) -> Result<usize, AllocError>
    requires { column < length table.now.columns }
    ensures { IfOk result (λ width. width ≡ column_width places.now table.now.columns table.now.rows column) }
{
    let digits = places_at(places, column);
    let mut cell = Vec::new(alloc);
    push_name(
        alloc,
        &mut cell,
        table.columns.get()[column].bytes(),
        Format::Aligned,
    )?;
    let mut widest = columns_in_bytes(&cell);
    'rows: for row in 0..table.rows.len() {
        let value = table.rows.row(row).value(column).as_ref();
        widest = widest.max(value_width(alloc, &mut cell, value, digits)?);
    }
    Ok(widest)
}

fn start_width(alloc: Global, table: &Table<'_>, form: Form) -> Result<usize, AllocError>
    ensures { IfOk result (λ width. width ≡ start_width form table.now.rows) }
{
    let mut cell = Vec::new(alloc);
    let mut widest = 4;
    'rows: for row in 0..table.rows.len() {
        let start = table.rows.period(row).start;
        cell.clear();
        push_instant(&mut cell, start, Format::Aligned, form)?;
        widest = widest.max(columns_in_bytes(&cell));
    }
    Ok(widest)
}

fn end_width(
    alloc: Global,
    table: &Table<'_>,
    form: Form,
    inclusive: bool,
) -> Result<usize, AllocError>
    ensures { IfOk result (λ width. width ≡ end_width form inclusive table.now.rows) }
{
    let mut cell = Vec::new(alloc);
    let mut widest = 2;
    'rows: for row in 0..table.rows.len() {
        let end = table.rows.period(row).end;
        cell.clear();
        push_end(&mut cell, end, Format::Aligned, form, inclusive)?;
        widest = widest.max(columns_in_bytes(&cell));
    }
    Ok(widest)
}

fn widths_of(
    alloc: Global,
    table: &Table<'_>,
    options: &ReportOptions,
) -> Result<Vec<usize>, AllocError>
    ensures { IfOk result (λ widths. widths.items ≡ widths_of options.now table.now) }
{
    let mut widths = Vec::new(alloc);
    if options.format != Format::Aligned {
        return Ok(widths);
    }
    'columns: for column in 0..table.columns.get().len() {
        widths.push(column_width(alloc, table, column, &options.places)?)?;
    }
    widths.push(start_width(alloc, table, options.form)?)?;
    widths.push(end_width(alloc, table, options.form, options.inclusive)?)?;
    Ok(widths)
}

// A column has numbers if its value in the first row is one.
fn has_numbers(table: &Table<'_>, column: usize) -> bool
    ensures { result ≡ has_numbers table.now.rows column }
{
    if table.rows.len() == 0 {
        return false;
    }
    match table.rows.row(0).value(column).as_ref() {
        ValueRef::Int(_) => true,
        ValueRef::Text(_) => false,
    }
}

fn rights_of(
    alloc: Global,
    table: &Table<'_>,
    format: Format,
    form: Form,
) -> Result<Vec<bool>, AllocError>
    ensures { IfOk result (λ rights. rights.items ≡ rights_of format form table.now) }
{
    let mut rights = Vec::new(alloc);
    if format != Format::Aligned && format != Format::Markdown {
        return Ok(rights);
    }
    'columns: for column in 0..table.columns.get().len() {
        rights.push(has_numbers(table, column))?;
    }
    rights.push(!is_dates(form))?;
    rights.push(!is_dates(form))?;
    Ok(rights)
}
