// The kinds of columns that the values of a file suggest.

ghost use Rattle.std.specs.Prelude.{◌≡◌, ◌∷◌, [], ℕ, IfOk, List};
ghost use Rattle.std.specs.List.{repeat};
ghost use Rattle.csv.specs.Records.{fields_of};
ghost use Rattle.tq_import.specs.Kinds.{kinds_after, next_kind, next_kinds};
ghost use Rattle.tq_import.specs.Reading.{HasLeft};
ghost use Rattle.tq_import.specs.Records.{field_of};

use crate::amounts::{places_in, read_units};
use crate::fault::InputFault;
use crate::plan::{Conversion, NumberFormat};
use crate::reading::{field_at, next_record};
use csv::{ByteRecord, Reader};
use std::alloc::{AllocError, Global};
use std::io::Read;

// The kind of the column at a place after one more record. The field of a text is not looked at.
fn next_kind(
    format: NumberFormat,
    kind: Conversion,
    record: &ByteRecord,
    place: usize,
) -> Conversion
    ensures { result ≡ next_kind format kind (field_of (fields_of record.now) place) }
{
    let Conversion::Number(places) = kind else {
        return Conversion::Text;
    };
    let field = field_at(record, place);
    let more = places_in(format, field);
    match read_units(format, more, field) {
        Some(_) => Conversion::Number(places.max(more)),
        None => Conversion::Text,
    }
}

// Replaces the kinds of the columns by those after one more record.
fn add_record(format: NumberFormat, kinds: &mut Vec<Conversion>, record: &ByteRecord)
    ensures { kinds.new.items ≡ next_kinds format kinds.old.items (fields_of record.now) }
{
    let count = kinds.len().min(record.len());
    'places: for place in 0..count {
        kinds[place] = next_kind(format, kinds[place], record, place);
    }
}

// `width` columns of whole numbers.
fn number_kinds(alloc: Global, width: usize) -> Result<Vec<Conversion>, AllocError>
    ensures { IfOk result (λ kinds. kinds.items ≡ repeat width (Conversion.Number 0 ∷ [])) }
{
    let mut kinds = Vec::new(alloc);
    let mut left = width;
    'columns: while left > 0 {
        kinds.push(Conversion::Number(0)).map_err(AllocError::from)?;
        left -= 1;
    }
    Ok(kinds)
}

/// The kinds of the columns of the records that the reader has still to read: numbers with the most digits after the
/// point that occur, if every value is a number; else texts. `width` is the number of columns. `Read` if the reader
/// failed, `OutOfMemory` if an allocation failed.
pub fn find_kinds<R: Read>(
    alloc: Global,
    format: NumberFormat,
    width: usize,
    reader: &mut Reader<R>,
) -> Result<Vec<Conversion>, InputFault>
    ensures { (delimiter : ℕ) (left : List (List (List ℕ))) → HasLeft R.remaining delimiter reader.old left
        → IfOk result (λ kinds. kinds.items ≡ kinds_after format (repeat width (Conversion.Number 0 ∷ [])) left) }
{
    let mut kinds = number_kinds(alloc, width)?;
    let mut record = ByteRecord::new(alloc);
    'records: for _ in 0..u64::MAX {
        if !next_record(reader, &mut record)? {
            return Ok(kinds);
        }
        add_record(format, &mut kinds, &record);
    }
    Err(InputFault::Read)
}
