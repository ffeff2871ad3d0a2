// Lists of the tables, sources and columns that exist.

ghost use Rattle.std.specs.Prelude.{◌≡◌, ◌++◌, ◌∷◌, [], IfOk, None, OnOk, Some, map, option_copied};
ghost use Rattle.std.specs.List.{flat_map};
ghost use Rattle.tq_base.specs.declared.catalogue.Column.{Column as AnyColumn};
ghost use Rattle.tq_base.specs.declared.catalogue.Schema.{Schema as AnySchema};
ghost use Rattle.tq_plan.specs.Scope.{alias_of};
ghost use Rattle.tq_diagnostics.specs.Listing.{column_line, column_lines, columns_in, lines_for_column, sources_having, is_text, left_of, listed, listed_name, mismatch_line, numbered_columns, source_called, source_line, sources_with, table_columns, unknown_lines, unknown_source_lines, unknown_table_lines};
ghost use Rattle.tq_diagnostics.specs.Views.{probe_view, name_views};

use crate::nearest::push_nearest;
use crate::probe_statement::{Probe, is_refused};
use std::alloc::{AllocError, Global};
use tq_base::{Catalogue, Column, Name, Schema};
use tq_plan::PlanFault;
use tq_sql::{ColumnRef, SourceRef, Term};

fn push_names(text: &mut Vec<u8>, names: &[&[u8]]) -> Result<(), AllocError>
    ensures { OnOk result (text.new.items ≡ text.old.items ++ flat_map listed_name (name_views names.now)) }
{
    'names: for name in names {
        text.extend_from_slice(b"  ")?;
        text.extend_from_slice(*name)?;
    }
    Ok(())
}

/// Appends a label and the names, on a line of their own.
pub(crate) fn push_listed(
    text: &mut Vec<u8>,
    label: &[u8],
    names: &[&[u8]],
) -> Result<(), AllocError>
    ensures { OnOk result (text.new.items ≡ text.old.items ++ listed label.now (name_views names.now)) }
{
    text.extend_from_slice(b"  ")?;
    text.extend_from_slice(label)?;
    text.extend_from_slice(b":")?;
    push_names(text, names)?;
    text.extend_from_slice(b"\n")
}

/// Adds a name to a list.
pub(crate) fn push_name<'a>(names: &mut Vec<&'a [u8]>, name: &'a [u8]) -> Result<(), AllocError>
    ensures { OnOk result (name_views names.new.items ≡ name_views names.old.items ++ name.entry.now ∷ []) }
{
    names.push(name)?;
    Ok(())
}

fn table_names<'a>(alloc: Global, tables: &'a [Schema]) -> Result<Vec<&'a [u8]>, AllocError>
    ensures { IfOk result (λ names. name_views names.items ≡ map (λ (s : AnySchema). s.name) tables.entry.now) }
{
    let mut names = Vec::new(alloc);
    'tables: for table in tables {
        push_name(&mut names, table.name.bytes())?;
    }
    Ok(names)
}

/// Appends the tables of the catalogue, after the one that is nearest to the name.
pub(crate) fn push_tables(
    alloc: Global,
    text: &mut Vec<u8>,
    catalogue: &Catalogue,
    name: &[u8],
) -> Result<(), AllocError>
    ensures { OnOk result (text.new.items ≡ text.old.items ++ unknown_table_lines catalogue.now name.now) }
{
    let names = table_names(alloc, catalogue.tables.get())?;
    push_nearest(alloc, text, name, &names)?;
    push_listed(text, b"tables", &names)
}

// The alias of a source, or its table's name if none is given.
fn alias_of(source: &SourceRef) -> &[u8]
    ensures { result.now ≡ alias_of source.now }
{
    match &source.alias {
        Some(alias) => alias.bytes(),
        None => source.table.bytes(),
    }
}

fn aliases_of<'a>(alloc: Global, sources: &'a [SourceRef]) -> Result<Vec<&'a [u8]>, AllocError>
    ensures { IfOk result (λ names. name_views names.items ≡ map alias_of sources.entry.now) }
{
    let mut names = Vec::new(alloc);
    'sources: for source in sources {
        push_name(&mut names, alias_of(source))?;
    }
    Ok(names)
}

/// Appends the aliases of the sources.
pub(crate) fn push_sources(
    alloc: Global,
    text: &mut Vec<u8>,
    sources: &[SourceRef],
) -> Result<(), AllocError>
    ensures { OnOk result (text.new.items ≡ text.old.items ++ source_line sources.now) }
{
    let names = aliases_of(alloc, sources)?;
    push_listed(text, b"sources", &names)
}

/// The columns of the table with this number; none if there is no such table.
pub(crate) fn columns_at(catalogue: &Catalogue, number: u32) -> &[Column]
    ensures { result.now ≡ numbered_columns catalogue.entry.now (Some number) }
{
    match catalogue.tables.get().get(number as usize) {
        Some(schema) => schema.columns.get(),
        None => &[],
    }
}

// The columns of the table of this name.
fn table_columns<'a>(catalogue: &'a Catalogue, name: &[u8]) -> &'a [Column]
    ensures { result.now ≡ table_columns catalogue.entry.now name.now }
{
    let Some(number) = catalogue.table(name) else {
        return &[];
    };
    columns_at(catalogue, number)
}

fn column_names<'a>(alloc: Global, columns: &'a [Column]) -> Result<Vec<&'a [u8]>, AllocError>
    ensures { IfOk result (λ names. name_views names.items ≡ map (λ (c : AnyColumn). c.name) columns.entry.now) }
{
    let mut names = Vec::new(alloc);
    'columns: for column in columns {
        push_name(&mut names, column.name.bytes())?;
    }
    Ok(names)
}

// Appends the columns of a source.
#[tactic(auto, unfolding(crate::specs::Listing::column_line))]
fn push_columns(
    alloc: Global,
    text: &mut Vec<u8>,
    catalogue: &Catalogue,
    source: &SourceRef,
) -> Result<(), AllocError>
    ensures { OnOk result (text.new.items ≡ text.old.items ++ column_line catalogue.now source.now) }
{
    let names = column_names(alloc, table_columns(catalogue, source.table.bytes()))?;
    let mut label = Vec::from_slice(alloc, b"columns of ")?;
    label.extend_from_slice(alias_of(source))?;
    push_listed(text, &label, &names)
}

fn push_columns_of_each(
    alloc: Global,
    text: &mut Vec<u8>,
    catalogue: &Catalogue,
    sources: &[SourceRef],
) -> Result<(), AllocError>
    ensures { OnOk result (text.new.items ≡ text.old.items ++ column_lines catalogue.now sources.now) }
{
    'sources: for source in sources {
        push_columns(alloc, text, catalogue, source)?;
    }
    Ok(())
}

// The first source with this alias.
fn source_called<'a>(alias: &[u8], mut sources: &'a [SourceRef]) -> Option<&'a SourceRef>
    ensures { option_copied result ≡ source_called alias.now sources.entry.now }
{
    'sources: while let [source, rest @ ..] = sources {
        if alias_of(source) == alias {
            return Some(source);
        }
        sources = rest;
    }
    None
}

// Appends the sources, after the one whose alias is nearest.
fn push_unknown_source(
    alloc: Global,
    text: &mut Vec<u8>,
    sources: &[SourceRef],
    alias: &[u8],
) -> Result<(), AllocError>
    ensures { OnOk result (text.new.items ≡ text.old.items ++ unknown_source_lines sources.now alias.now) }
{
    let names = aliases_of(alloc, sources)?;
    push_nearest(alloc, text, alias, &names)?;
    push_listed(text, b"sources", &names)
}

// Adds the columns of a source to a list.
fn add_columns<'a>(
    names: &mut Vec<&'a [u8]>,
    catalogue: &'a Catalogue,
    source: &SourceRef,
) -> Result<(), AllocError>
    ensures { OnOk result (name_views names.new.items ≡ name_views names.old.items ++ columns_in catalogue.entry.now source.now) }
{
    let columns = table_columns(catalogue, source.table.bytes());
    'columns: for column in columns {
        push_name(names, column.name.bytes())?;
    }
    Ok(())
}

// The columns of all sources.
fn all_columns<'a>(
    alloc: Global,
    catalogue: &'a Catalogue,
    sources: &[SourceRef],
) -> Result<Vec<&'a [u8]>, AllocError>
    ensures { IfOk result (λ names. name_views names.items ≡ flat_map (columns_in catalogue.entry.now) sources.now) }
{
    let mut names = Vec::new(alloc);
    'sources: for source in sources {
        add_columns(&mut names, catalogue, source)?;
    }
    Ok(names)
}

// Appends the columns of each source, after the one that is nearest.
fn push_unknown_in_all(
    alloc: Global,
    text: &mut Vec<u8>,
    catalogue: &Catalogue,
    sources: &[SourceRef],
    column: &[u8],
) -> Result<(), AllocError>
    ensures { OnOk result (text.new.items ≡ text.old.items ++ lines_for_column catalogue.now sources.now column.now None) }
{
    let names = all_columns(alloc, catalogue, sources)?;
    push_nearest(alloc, text, column, &names)?;
    push_columns_of_each(alloc, text, catalogue, sources)
}

// Appends what exists instead of a column, which names a source or none.
fn push_lines_for(
    alloc: Global,
    text: &mut Vec<u8>,
    catalogue: &Catalogue,
    sources: &[SourceRef],
    column: &[u8],
    alias: Option<&Name>,
) -> Result<(), AllocError>
    ensures { OnOk result (text.new.items ≡ text.old.items ++ lines_for_column catalogue.now sources.now column.now (option_copied alias.entry)) }
{
    let Some(alias) = alias else {
        return push_unknown_in_all(alloc, text, catalogue, sources, column);
    };
    let Some(source) = source_called(alias.bytes(), sources) else {
        return push_unknown_source(alloc, text, sources, alias.bytes());
    };
    push_columns(alloc, text, catalogue, source)
}

/// Appends what exists instead of an unknown column, after the name that is nearest: the columns of the source that it
/// names, or the sources if none has that alias. If it names no source, the columns of each.
pub(crate) fn push_unknown(
    alloc: Global,
    text: &mut Vec<u8>,
    catalogue: &Catalogue,
    sources: &[SourceRef],
    column: Option<&ColumnRef>,
) -> Result<(), AllocError>
    ensures { OnOk result (text.new.items ≡ text.old.items ++ unknown_lines catalogue.now sources.now (option_copied column.entry)) }
{
    let Some(column) = column else {
        return push_columns_of_each(alloc, text, catalogue, sources);
    };
    let name = column.column.bytes();
    push_lines_for(
        alloc,
        text,
        catalogue,
        sources,
        name,
        column.source.as_ref(),
    )
}

// The aliases of those sources over which the probe alone has no unknown column.
fn sources_with<'a>(
    alloc: Global,
    catalogue: &Catalogue,
    probe: &Probe<'_>,
    sources: &'a [SourceRef],
) -> Result<Vec<&'a [u8]>, AllocError>
    ensures { IfOk result (λ names. name_views names.items ≡ sources_with catalogue.now (probe_view probe.now) sources.entry.now) }
{
    let mut names = Vec::new(alloc);
    let mut left = sources;
    'left: while let [source, rest @ ..] = left {
        if !is_refused(
            alloc,
            catalogue,
            PlanFault::UnknownColumn,
            &left[..1],
            probe,
        )? {
            push_name(&mut names, alias_of(source))?;
        }
        left = rest;
    }
    Ok(names)
}

/// Appends the sources that have the column.
pub(crate) fn push_sources_having(
    alloc: Global,
    text: &mut Vec<u8>,
    catalogue: &Catalogue,
    sources: &[SourceRef],
    probe: &Probe<'_>,
) -> Result<(), AllocError>
    ensures { OnOk result (text.new.items ≡ text.old.items ++ sources_having catalogue.now sources.now (probe_view probe.now)) }
{
    let names = sources_with(alloc, catalogue, probe, sources)?;
    push_listed(text, b"sources with this column", &names)
}

// The left side of a comparison.
fn left_of<'a>(probe: &Probe<'a>) -> Option<&'a Term>
    ensures { option_copied result ≡ left_of (probe_view probe.now) }
{
    match probe {
        Probe::Count => None,
        Probe::Column(_) => None,
        Probe::Sum(_, _) => None,
        Probe::Equality(left, _) => Some(*left),
    }
}

// Whether the term is a text.
fn is_text(
    alloc: Global,
    catalogue: &Catalogue,
    sources: &[SourceRef],
    term: Option<&Term>,
) -> Result<bool, AllocError>
    ensures { IfOk result (λ text. text ≡ is_text catalogue.now sources.now (option_copied term.entry)) }
{
    let Some(term) = term else {
        return Ok(false);
    };
    let zero = Term::Int(0);
    is_refused(
        alloc,
        catalogue,
        PlanFault::TypeMismatch,
        sources,
        &Probe::Equality(term, &zero),
    )
}

/// Appends which kind is compared with which.
pub(crate) fn push_mismatch(
    alloc: Global,
    text: &mut Vec<u8>,
    catalogue: &Catalogue,
    sources: &[SourceRef],
    probe: &Probe<'_>,
) -> Result<(), AllocError>
    ensures { OnOk result (text.new.items ≡ text.old.items ++ mismatch_line (is_text catalogue.now sources.now (left_of (probe_view probe.now)))) }
{
    if is_text(alloc, catalogue, sources, left_of(probe))? {
        return text.extend_from_slice(b"  a text cannot be compared with a number\n");
    }
    text.extend_from_slice(b"  a number cannot be compared with a text\n")
}
