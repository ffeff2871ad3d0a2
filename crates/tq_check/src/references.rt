// References from a column of a table, the child, to a column of a table, the parent.

ghost use Rattle.std.specs.Prelude.{◌≡◌, ◌<◌, ◌++◌, [], ◌∷◌, All, IfErr, IfOk, IfSome, OnOk, length};
ghost use Rattle.std.specs.List.{AllZip};
ghost use Rattle.tq_base.specs.Catalogues.{table_number};
ghost use Rattle.tq_check.specs.References.{column_name_text, column_number, reference_word, IsColumnFault, IsColumnNamed, IsReferenceFault, IsReferenceOf, IsRefused, IsWithin};

use std::alloc::{AllocError, Global};
use thiserror::Error;
use tq_base::{Catalogue, Column, Kind, is_same_word};

/// The name of a table, and that of one of its columns.
#[derive(Drop, Debug)]
pub struct ColumnName {
    pub table: Vec<u8>,
    pub column: Vec<u8>,
}

/// The names of a reference, from a column of the child to a column of the parent.
#[derive(Drop, Debug)]
pub struct ReferenceNames {
    pub child: ColumnName,
    pub parent: ColumnName,
}

/// The number of a table, and that of one of its columns, both from 0.
#[derive(Clone, Copy, Debug)]
pub struct ColumnPlace {
    pub table: u32,
    pub column: u32,
}

/// A reference from a column of the child to a column of the parent.
#[derive(Clone, Copy, Debug)]
pub struct Reference {
    pub child: ColumnPlace,
    pub parent: ColumnPlace,
}

/// A column of a reference.
#[derive(Clone, Copy, PartialEq, Eq, Debug)]
pub enum Part {
    Child,
    Parent,
}

/// Why names are not those of a reference. The faults of the child come before those of the parent.
#[derive(Clone, Copy, Debug, Error)]
pub enum ReferenceFault {
    #[error("UnknownTable")]
    UnknownTable(Part),
    #[error("UnknownColumn")]
    UnknownColumn(Part),
    #[error("KindMismatch")]
    KindMismatch,
    #[error("OutOfMemory")]
    OutOfMemory,
}

// The parts before and after the first byte that equals `byte`.
fn split_once(word: &[u8], byte: u8) -> Option<(&[u8], &[u8])>
    ensures { IfSome result (λ parts. word.now ≡ parts.0.now ++ byte ∷ parts.1.now) }
{
    let Some(place) = word.iter().position(|other| *other == byte) else {
        return None;
    };
    Some((&word[..place], &word[place + 1..]))
}

// The column that the word names, as `emp.name`.
fn read_column(alloc: Global, word: &[u8]) -> Result<Option<ColumnName>, AllocError>
    ensures { IfOk result (λ name. IfSome name (λ name. word.now ≡ column_name_text name)) }
{
    let Some((table, column)) = split_once(word, b'.') else {
        return Ok(None);
    };
    let table = table.to_vec(alloc)?;
    let column = column.to_vec(alloc)?;
    Ok(Some(ColumnName { table, column }))
}

/// The reference that the word names, as `pay.job=job.job`. `None` if it does not have this form. `AllocError` if an
/// allocation failed.
pub fn read_reference(alloc: Global, word: &[u8]) -> Result<Option<ReferenceNames>, AllocError>
    ensures { IfOk result (λ names. IfSome names (λ names. word.now ≡ reference_word names)) }
{
    let Some((child, parent)) = split_once(word, b'=') else {
        return Ok(None);
    };
    let Some(child) = read_column(alloc, child)? else {
        return Ok(None);
    };
    let Some(parent) = read_column(alloc, parent)? else {
        return Ok(None);
    };
    Ok(Some(ReferenceNames { child, parent }))
}

fn find_table(catalogue: &Catalogue, name: &[u8]) -> Option<usize>
    ensures value { result ≡ table_number catalogue.now name.now }
    ensures within { IfSome result (λ table. table < length catalogue.now.tables) }
{
    catalogue
        .tables
        .get()
        .iter()
        .position(|table| is_same_word(table.name.bytes(), name))
}

fn find_column(columns: &[Column], name: &[u8]) -> Option<usize>
    ensures value { result ≡ column_number columns.now name.now }
    ensures within { IfSome result (λ column. column < length columns.now) }
{
    columns
        .iter()
        .position(|column| is_same_word(column.name.bytes(), name))
}

// A column that was found, and its kind.
#[derive(Clone, Copy)]
struct FoundColumn {
    place: ColumnPlace,
    kind: Kind,
}

// The column with the name. A fault says of which part of the reference it is.
fn column_named(
    catalogue: &Catalogue,
    name: &ColumnName,
    part: Part,
) -> Result<FoundColumn, ReferenceFault>
    ensures found { IfOk result (λ found. IsColumnNamed catalogue.now name.now found.place found.kind) }
    ensures within { IfOk result (λ found. found.place.table < length catalogue.now.tables) }
    ensures fault { IfErr result (λ fault. IsColumnFault catalogue.now name.now part fault) }
{
    let Some(table) = find_table(catalogue, &name.table) else {
        return Err(ReferenceFault::UnknownTable(part));
    };
    let columns = catalogue.tables.get()[table].columns.get();
    let Some(column) = find_column(columns, &name.column) else {
        return Err(ReferenceFault::UnknownColumn(part));
    };
    let kind = columns[column].kind;
    let Ok(column) = u32::try_from(column) else {
        return Err(ReferenceFault::OutOfMemory);
    };
    let table = table as u32;
    let place = ColumnPlace { table, column };
    Ok(FoundColumn { place, kind })
}

// The child's column.
fn child_named(catalogue: &Catalogue, names: &ReferenceNames) -> Result<FoundColumn, ReferenceFault>
    ensures found { IfOk result (λ found. IsColumnNamed catalogue.now names.now.child found.place found.kind) }
    ensures within { IfOk result (λ found. found.place.table < length catalogue.now.tables) }
    ensures fault { IfErr result (λ fault. IsReferenceFault catalogue.now names.now fault) }
{
    column_named(catalogue, &names.child, Part::Child)
}

// The parent's column.
fn parent_named(
    catalogue: &Catalogue,
    names: &ReferenceNames,
) -> Result<FoundColumn, ReferenceFault>
    ensures found { IfOk result (λ found. IsColumnNamed catalogue.now names.now.parent found.place found.kind) }
    ensures within { IfOk result (λ found. found.place.table < length catalogue.now.tables) }
    ensures fault { IfErr result (λ fault. IsReferenceFault catalogue.now names.now fault) }
{
    column_named(catalogue, &names.parent, Part::Parent)
}

/// The reference with these names. `OutOfMemory` if a table has more than 2^32 columns.
pub fn resolve(catalogue: &Catalogue, names: &ReferenceNames) -> Result<Reference, ReferenceFault>
    ensures reference { IfOk result (λ reference. IsReferenceOf catalogue.now names.now reference) }
    ensures within { IfOk result (IsWithin catalogue.now) }
    ensures fault { IfErr result (λ fault. IsReferenceFault catalogue.now names.now fault) }
{
    let child = child_named(catalogue, names)?;
    let parent = parent_named(catalogue, names)?;
    if child.kind != parent.kind {
        return Err(ReferenceFault::KindMismatch);
    }
    let child = child.place;
    let parent = parent.place;
    Ok(Reference { child, parent })
}

/// Names that are not those of a reference: their number in the list, and why not.
#[derive(Clone, Copy, Debug)]
pub struct RefusedReference {
    pub number: usize,
    pub fault: ReferenceFault,
}

impl From<AllocError> for RefusedReference {
    ghost use Rattle.tq_check.specs.declared.references.ReferenceFault.TheVariants.{OutOfMemory};

    ghost from_gives = { λ _ refused. refused.fault ≡ OutOfMemory };

    fn from(_error: AllocError) -> RefusedReference {
        RefusedReference {
            number: 0,
            fault: ReferenceFault::OutOfMemory,
        }
    }
}

fn add_reference(references: &mut Vec<Reference>, reference: Reference) -> Result<(), AllocError>
    ensures { OnOk result (references.new.items ≡ references.old.items ++ reference ∷ []) }
{
    references.push(reference)?;
    Ok(())
}

/// The references with these names. Returns the first fault, or `OutOfMemory` if an allocation failed.
pub fn resolve_all(
    alloc: Global,
    catalogue: &Catalogue,
    names: &[ReferenceNames],
) -> Result<Vec<Reference>, RefusedReference>
    ensures references { IfOk result (λ references. AllZip (IsReferenceOf catalogue.now) names.now references.items) }
    ensures within { IfOk result (λ references. All (IsWithin catalogue.now) references.items) }
    ensures refused { IfErr result (IsRefused catalogue.now names.now) }
{
    let mut references = Vec::new(alloc);
    'numbers: for number in 0..names.len() {
        match resolve(catalogue, &names[number]) {
            Ok(reference) => add_reference(&mut references, reference)?,
            Err(fault) => return Err(RefusedReference { number, fault }),
        }
    }
    Ok(references)
}
