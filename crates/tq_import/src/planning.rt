// The plan for a file, from its header.

ghost use Rattle.std.specs.Prelude.{◌≡◌, ◌<◌, ◌++◌, ◌∷◌, [], IfOk, IfSome, OnOk, codes, length, nat_le};
ghost use Rattle.std.specs.List.{list_any};
ghost use Rattle.std.specs.Str.{bytes_eq};
ghost use Rattle.csv.specs.Records.{fields_of};
ghost use Rattle.tq_event.specs.Laws.{IsFoldedName};
ghost use Rattle.tq_event.specs.Loading.{has_column};
ghost use Rattle.tq_import.specs.Plans.{AddsValue, AreColumns, AreKeyColumns, IsAt, IsColumnAt, IsPlan, found_at, is_key, is_numbered, is_selected, is_value, kind_for, new_name};
ghost use Rattle.tq_import.specs.Records.{field_of};
ghost use Rattle.tq_import.specs.Tables.{AreTableColumns, columns_with};

use crate::names::suggested_name;
use crate::options::{GivenKind, ImportOptions, Rename, Selection};
use crate::plan::{Conversion, Plan, PlannedColumn};
use crate::reading::field_at;
use csv::ByteRecord;
use std::alloc::{AllocError, Global};
use thiserror::Error;
use tq_base::{List, fold_name};

// The most columns of a table file.
const MAX_COLUMNS: usize = 16;

/// Why there is no plan for a file with a header.
#[derive(Clone, Copy, Debug, PartialEq, Eq, Error)]
pub enum PlanFaultKind {
    /// No field of the header has the name.
    #[error("no such column")]
    UnknownColumn = 1,
    /// The field of the header gives no valid name.
    #[error("invalid name")]
    BadName = 2,
    /// Two columns have the name.
    #[error("duplicate name")]
    DuplicateName = 3,
    /// The key is a text.
    #[error("the key is a text")]
    TextKey = 4,
    /// There are more than 16 columns.
    #[error("too many columns")]
    TooManyColumns = 5,
    /// An allocation failed.
    #[error("out of memory")]
    OutOfMemory = 6,
}

/// Why there is no plan for a file, and the name that it is about, if any.
#[derive(Drop, Debug)]
pub struct PlanFault {
    pub kind: PlanFaultKind,
    pub name: Option<List<u8>>,
}

impl From<AllocError> for PlanFault {
    ghost use Rattle.std.specs.Prelude.{◌≡◌};
    ghost use Rattle.tq_import.specs.declared.planning.PlanFaultKind.TheVariants.{OutOfMemory};

    ghost from_gives = { λ _ fault. fault.kind ≡ OutOfMemory };

    fn from(_error: AllocError) -> PlanFault {
        PlanFault {
            kind: PlanFaultKind::OutOfMemory,
            name: None,
        }
    }
}

// The fault about a name.
fn fault_about(alloc: Global, kind: PlanFaultKind, name: &[u8]) -> PlanFault {
    match Vec::from_slice(alloc, name) {
        Ok(name) => PlanFault {
            kind,
            name: Some(List::of(name)),
        },
        Err(_) => PlanFault::from(AllocError),
    }
}

// The place of the first field with the name.
fn place_of(header: &ByteRecord, name: &[u8]) -> Option<usize>
    ensures { IfSome result (IsAt (fields_of header.now) name.now) }
{
    'places: for place in 0..header.len() {
        if field_at(header, place) == name {
            return Some(place);
        }
    }
    None
}

// The place of the field with the name, or a fault.
fn find_place(alloc: Global, header: &ByteRecord, name: &[u8]) -> Result<usize, PlanFault>
    ensures { IfOk result (IsAt (fields_of header.now) name.now) }
{
    match place_of(header, name) {
        Some(place) => Ok(place),
        None => Err(fault_about(alloc, PlanFaultKind::UnknownColumn, name)),
    }
}

// The name that the options give to the column, else the one that the header suggests.
fn new_name(alloc: Global, renames: &[Rename], field: &[u8]) -> Result<Vec<u8>, AllocError>
    ensures { IfOk result (λ name. name.items ≡ new_name renames.now field.now) }
{
    let mut rest = renames;
    'each: while let [rename, more @ ..] = rest {
        if rename.old.get() == field {
            return Vec::from_slice(alloc, rename.new.get());
        }
        rest = more;
    }
    suggested_name(alloc, field)
}

// The kind that the options give to the column, else this one.
fn kind_for(kinds: &[GivenKind], field: &[u8], found: Conversion) -> Conversion
    ensures { result ≡ kind_for kinds.now field.now found }
{
    let mut rest = kinds;
    'each: while let [given, more @ ..] = rest {
        if given.name.get() == field {
            return given.conversion;
        }
        rest = more;
    }
    found
}

fn has_name(names: &[List<u8>], field: &[u8]) -> bool
    ensures { result ≡ list_any (λ name. bytes_eq name field.now) names.now }
{
    names.iter().any(|name| name.get() == field)
}

// Whether the options select the column.
fn is_selected(selection: &Selection, field: &[u8]) -> bool
    ensures { result ≡ is_selected selection.now field.now }
{
    match selection {
        Selection::All => true,
        Selection::Only(names) => has_name(names.get(), field),
        Selection::Without(names) => !has_name(names.get(), field),
    }
}

fn is_key(key: &Option<List<u8>>, field: &[u8]) -> bool
    ensures { result ≡ is_key key.now field.now }
{
    match key {
        Some(key) => key.get() == field,
        None => false,
    }
}

// Whether the field is a column besides the key.
fn is_value(options: &ImportOptions, field: &[u8]) -> bool
    ensures { result ≡ is_value options.now field.now }
{
    is_selected(&options.selection, field)
        && !is_key(&options.key, field)
        && options.from.get() != field
        && options.to.get() != field
}

// The column for the field of the header at a place; without a given kind it has this one.
fn column_at(
    alloc: Global,
    options: &ImportOptions,
    header: &ByteRecord,
    place: usize,
    found: Conversion,
) -> Result<PlannedColumn, PlanFault>
    ensures { IfOk result (IsColumnAt options.now place (field_of (fields_of header.now) place) found) }
{
    let field = field_at(header, place);
    let name = new_name(alloc, options.renames.get(), field)?;
    let Some(name) = fold_name(alloc, &name)? else {
        return Err(fault_about(alloc, PlanFaultKind::BadName, field));
    };
    let conversion = kind_for(options.kinds.get(), field, found);
    Ok(PlannedColumn {
        place,
        name,
        conversion,
    })
}

fn is_numbered(key: &Option<List<u8>>) -> bool
    ensures { result ≡ is_numbered key.now }
{
    match key {
        None => true,
        Some(_) => false,
    }
}

fn has_planned(columns: &[PlannedColumn], name: &[u8]) -> bool
    ensures { result ≡ list_any (λ column. bytes_eq column.name name.now) columns.now }
{
    columns.iter().any(|column| column.name.bytes() == name)
}

// Whether the column of row numbers has the name.
fn is_number_column(name: &[u8]) -> bool
    ensures { result ≡ bytes_eq (codes "row") name.now }
{
    b"row".as_slice() == name
}

// Whether a column of the table has the name.
fn is_taken(numbered: bool, columns: &[PlannedColumn], name: &[u8]) -> bool
    ensures { result ≡ has_column (columns_with numbered columns.now) name.now }
{
    if numbered {
        if is_number_column(name) {
            return true;
        }
        return has_planned(columns, name);
    }
    has_planned(columns, name)
}

// Whether the table has the most columns.
fn is_full(numbered: bool, columns: &[PlannedColumn]) -> bool
    ensures { result ≡ nat_le 16 (length (columns_with numbered columns.now)) }
{
    if numbered {
        columns.len() >= MAX_COLUMNS - 1
    } else {
        columns.len() >= MAX_COLUMNS
    }
}

// Adds a column.
fn add_column(
    alloc: Global,
    numbered: bool,
    columns: &mut Vec<PlannedColumn>,
    column: PlannedColumn,
) -> Result<(), PlanFault>
    ensures items { OnOk result (columns.new.items ≡ columns.old.items ++ column ∷ []) }
    ensures table { IsFoldedName column.name → AreTableColumns numbered columns.old.items → OnOk result (AreTableColumns numbered columns.new.items) }
{
    if is_taken(numbered, columns, column.name.bytes()) {
        return Err(fault_about(alloc, PlanFaultKind::DuplicateName, column.name.bytes()));
    }
    if is_full(numbered, columns) {
        return Err(PlanFault {
            kind: PlanFaultKind::TooManyColumns,
            name: None,
        });
    }
    columns.push(column).map_err(AllocError::from)?;
    Ok(())
}

// The column of the key, if there is one.
fn key_columns(
    alloc: Global,
    options: &ImportOptions,
    header: &ByteRecord,
) -> Result<Vec<PlannedColumn>, PlanFault>
    ensures { IfOk result (λ columns. AreKeyColumns options.now (fields_of header.now) columns.items) }
{
    let mut columns = Vec::new(alloc);
    let Some(key) = &options.key else {
        return Ok(columns);
    };
    let place = find_place(alloc, header, key.get())?;
    let column = column_at(alloc, options, header, place, Conversion::Number(0))?;
    if matches!(column.conversion, Conversion::Text) {
        return Err(fault_about(alloc, PlanFaultKind::TextKey, key.get()));
    }
    columns.push(column).map_err(AllocError::from)?;
    Ok(columns)
}

// The kind that was found for a place; a text, if none was.
fn found_at(found: &[Conversion], place: usize) -> Conversion
    ensures { result ≡ found_at found.now place }
{
    found.get(place).copied().unwrap_or(Conversion::Text)
}

// Adds the column of the field at a place, if it is one besides the key.
fn add_value(
    alloc: Global,
    options: &ImportOptions,
    header: &ByteRecord,
    found: &[Conversion],
    place: usize,
    columns: &mut Vec<PlannedColumn>,
) -> Result<(), PlanFault>
    ensures { OnOk result (AddsValue options.now (fields_of header.now) found.now place columns.old.items columns.new.items) }
{
    if !is_value(options, field_at(header, place)) {
        return Ok(());
    }
    let column = column_at(alloc, options, header, place, found_at(found, place))?;
    add_column(alloc, is_numbered(&options.key), columns, column)?;
    Ok(())
}

// The columns: the key, if there is one, then the others in the order of the header.
fn plan_columns(
    alloc: Global,
    options: &ImportOptions,
    header: &ByteRecord,
    found: &[Conversion],
) -> Result<Vec<PlannedColumn>, PlanFault>
    ensures { IfOk result (λ columns. AreColumns options.now (fields_of header.now) found.now columns.items) }
{
    let mut columns = key_columns(alloc, options, header)?;
    'places: for place in 0..header.len() {
        add_value(alloc, options, header, found, place, &mut columns)?;
    }
    Ok(columns)
}

// Fails if the header lacks one of the names.
fn check_names(alloc: Global, header: &ByteRecord, names: &[List<u8>]) -> Result<(), PlanFault> {
    'names: for name in names {
        find_place(alloc, header, name.get())?;
    }
    Ok(())
}

// Fails if the header lacks a name that the options use.
fn check_options(
    alloc: Global,
    options: &ImportOptions,
    header: &ByteRecord,
) -> Result<(), PlanFault> {
    match &options.selection {
        Selection::All => {}
        Selection::Only(names) | Selection::Without(names) => {
            check_names(alloc, header, names.get())?;
        }
    }
    'renames: for rename in options.renames.get() {
        find_place(alloc, header, rename.old.get())?;
    }
    'kinds: for given in options.kinds.get() {
        find_place(alloc, header, given.name.get())?;
    }
    Ok(())
}

/// The plan for files with this header. `found` has the kinds of columns that were found; those that are neither given
/// nor found are texts. The columns are those of a table that loads. Errors are a name that the header lacks, that is
/// not valid, or that two columns have; a key that is a text; more than 16 columns; and `OutOfMemory`.
pub fn plan_import<'a>(
    alloc: Global,
    options: &'a ImportOptions,
    header: &ByteRecord,
    found: &[Conversion],
) -> Result<Plan<'a>, PlanFault>
    ensures { IfOk result (IsPlan options.entry.now (fields_of header.now) found.now) }
{
    check_options(alloc, options, header)?;
    let from = find_place(alloc, header, options.from.get())?;
    let to = find_place(alloc, header, options.to.get())?;
    let columns = plan_columns(alloc, options, header, found)?;
    Ok(Plan {
        width: header.len(),
        numbered: is_numbered(&options.key),
        columns: List::of(columns),
        from,
        to,
        numbers: options.numbers,
        times: &options.times,
    })
}
