// The columns of an answer, and those that a command line names.

use crate::headers::{catalogue_of, header_files};
use crate::report::Refusal;
use csv::ByteRecord;
use itoa::Buffer;
use std::alloc::{AllocError, Global};
use tq_base::{Column, Form, Kind, fold_name};
use tq_cli::DecimalOption;
use tq_event::TableFile;
use tq_event::steps::read_header;
use tq_plan::plan;
use tq_split::answer_columns;
use tq_sql::read;

/// The names and kinds of the columns of a statement's answer over the tables of files. `None` if the statement has none, or
/// an allocation failed.
pub fn answer_columns_of(
    alloc: Global,
    tables: &[TableFile],
    statement: &[u8],
    form: Form,
) -> Option<Vec<Column>> {
    let headers = header_files(alloc, tables).ok()?;
    let catalogue = catalogue_of(alloc, headers, form)?;
    let statement = read(alloc, statement).ok()?;
    let plan = plan(alloc, &catalogue, &statement, form).ok()?;
    answer_columns(alloc, &catalogue, &plan).ok()
}

// The refusal of a column.
fn refused_column(alloc: Global, name: &[u8], reason: &[u8]) -> Result<Refusal, AllocError> {
    let mut text = Vec::new(alloc);
    text.extend_from_slice(b"column ")?;
    text.extend_from_slice(name)?;
    text.extend_from_slice(b": ")?;
    text.extend_from_slice(reason)?;
    Ok(Refusal::Answer(text))
}

/// The refusal of the column at the place.
pub fn refused_place(
    alloc: Global,
    columns: &[Column],
    place: u32,
    reason: &[u8],
) -> Result<Refusal, AllocError> {
    let name = match columns.get(place as usize) {
        Some(column) => column.name.bytes(),
        None => b"",
    };
    refused_column(alloc, name, reason)
}

/// The refusal of a row whose period has no end.
pub fn refused_row(alloc: Global, row: u64) -> Result<Refusal, AllocError> {
    let mut text = Vec::new(alloc);
    text.extend_from_slice(b"row ")?;
    text.extend_from_slice(Buffer::new().format(row).as_bytes())?;
    text.extend_from_slice(
        b": the period has no end, so it has no total; give the statement a window",
    )?;
    Ok(Refusal::Answer(text))
}

fn count_named(columns: &[Column], name: &[u8]) -> usize {
    columns
        .iter()
        .filter(|column| column.name.bytes() == name)
        .count()
}

// The place of the one column with the name; letters match in either case.
fn place_of(alloc: Global, columns: &[Column], word: &[u8]) -> Result<usize, Refusal> {
    let Some(name) = fold_name(alloc, word)? else {
        return Err(refused_column(alloc, word, b"no such column in the answer")?);
    };
    if count_named(columns, name.bytes()) > 1 {
        return Err(refused_column(alloc, word, b"several columns of the answer have this name")?);
    }
    match columns
        .iter()
        .position(|column| column.name.bytes() == name.bytes())
    {
        Some(place) => Ok(place),
        None => Err(refused_column(alloc, word, b"no such column in the answer")?),
    }
}

// The place of the column with this name, which must have numbers.
fn number_place(alloc: Global, columns: &[Column], word: &[u8]) -> Result<usize, Refusal> {
    let place = place_of(alloc, columns, word)?;
    match columns.get(place) {
        Some(
            Column {
                kind: Kind::Int,
                ..
            },
        ) => Ok(place),
        _ => Err(refused_column(alloc, word, b"not a column of numbers")?),
    }
}

/// The places of the columns with these names.
pub fn unique_places(
    alloc: Global,
    columns: &[Column],
    words: &[Vec<u8>],
    are_numbers: bool,
) -> Result<Vec<u32>, Refusal> {
    let mut places = Vec::with_capacity(alloc, words.len())?;
    for word in words {
        let place = if are_numbers {
            number_place(alloc, columns, word)?
        } else {
            place_of(alloc, columns, word)?
        };
        places
            .push(u32::try_from(place).unwrap_or(u32::MAX))
            .map_err(AllocError::from)?;
    }
    Ok(places)
}

/// For each column, the number of digits after the point.
pub fn places_of(
    alloc: Global,
    columns: &[Column],
    decimals: &[DecimalOption],
) -> Result<Vec<u32>, Refusal> {
    let mut places = Vec::with_capacity(alloc, columns.len())?;
    for _ in columns {
        places.push(0).map_err(AllocError::from)?;
    }
    for decimal in decimals {
        let place = number_place(alloc, columns, &decimal.name)?;
        if let Some(known) = places.get_mut(place) {
            *known = decimal.places;
        }
    }
    Ok(places)
}

// The header of a table file with these columns, as a record.
fn typed_header(alloc: Global, columns: &[Column]) -> Result<ByteRecord, AllocError> {
    let mut record = ByteRecord::new(alloc);
    record.push_field(b"row:int")?;
    for column in columns {
        let mut field = column.name.bytes().to_vec(alloc)?;
        field.extend_from_slice(match column.kind {
            Kind::Int => b":int",
            Kind::Text => b":text",
        })?;
        record.push_field(&field)?;
    }
    record.push_field(b"from")?;
    record.push_field(b"to")?;
    Ok(record)
}

/// The refusal of the first column that a table cannot have after those before it; `None` if there is none.
pub fn refused_typed_column(
    alloc: Global,
    columns: &[Column],
) -> Result<Option<Refusal>, AllocError> {
    for place in 0..columns.len() {
        let column = &columns[place];
        let name = column.name.bytes();
        let header = typed_header(alloc, &columns[..place + 1])?;
        if read_header(alloc, &header).is_err() {
            return Ok(Some(refused_column(
                alloc,
                name,
                b"not a name of a table's column; give it another by AS",
            )?));
        }
    }
    Ok(None)
}
