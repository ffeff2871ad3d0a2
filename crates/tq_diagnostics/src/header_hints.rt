// Hints for the header of a file that is not a table file: another separator, reserved words, other names of the
// period.

ghost use Rattle.std.specs.Prelude.{◌≡◌, ◌<◌, ◌==◌, ◌++◌, IfOk, IfSome, OnOk, length, map, option_map, position, slice_get};
ghost use Rattle.csv.specs.Records.{fields_of};
ghost use Rattle.tq_diagnostics.specs.Fields.{field_of};
ghost use Rattle.tq_diagnostics.specs.HeaderHints as spec;
ghost use Rattle.tq_diagnostics.specs.Views.{name_views};

use crate::fields::{field_at, push_value};
use crate::listing::push_name;
use csv::ByteRecord;
use std::alloc::{AllocError, Global};
use tq_base::{is_reserved, is_same_word};

// The fields of a header.
fn header_fields<'a>(alloc: Global, header: &'a ByteRecord) -> Result<Vec<&'a [u8]>, AllocError>
    ensures { IfOk result (λ fields. name_views fields.items ≡ fields_of header.entry.now) }
{
    let mut fields = Vec::new(alloc);
    'fields: for place in 0..header.len() {
        push_name(&mut fields, field_at(header, place))?;
    }
    Ok(fields)
}

// The field with this number, or nothing if there is none.
fn field_or_nothing<'a>(fields: &[&'a [u8]], place: usize) -> &'a [u8]
    ensures { result.now ≡ field_of (slice_get (name_views fields.now) place) }
{
    match fields.get(place) {
        Some(field) => *field,
        None => b"",
    }
}

// The message for a header without commas that has another separator.
fn separator_line(field: &[u8]) -> &'static [u8]
    ensures { result.now ≡ spec.separator_line field.now }
{
    if field.contains(&b';') {
        return b"  fields are separated by commas, not by `;`: use `tq import --delimiter ';'`\n";
    }
    if field.contains(&b'\t') {
        return b"  fields are separated by commas, not by tabs: use `tq import --delimiter '\\t'`\n";
    }
    if field.contains(&b'|') {
        return b"  fields are separated by commas, not by `|`: use `tq import --delimiter '|'`\n";
    }
    b""
}

// The hint about separators, if the header is one field.
fn separator_hint(fields: &[&[u8]]) -> &'static [u8]
    ensures { result.now ≡ spec.separator_hint (name_views fields.now) }
{
    if fields.len() == 1 {
        return separator_line(field_or_nothing(fields, 0));
    }
    b""
}

// Whether the word is `int` or `text`.
fn is_kind(word: &[u8]) -> bool
    ensures { result ≡ spec.is_kind word.now }
{
    is_same_word(b"int", word) || is_same_word(b"text", word)
}

fn colon_in(field: &[u8]) -> Option<usize>
    ensures place { result ≡ position (λ b. b == 58) field.now }
    ensures within { IfSome result (λ place. place < length field.now) }
{
    field.iter().position(|byte| *byte == b':')
}

// The name of a column, if it is a reserved word; else nothing.
fn reserved_name(field: &[u8]) -> &[u8]
    ensures { result.now ≡ spec.reserved_name field.entry.now }
{
    let Some(place) = colon_in(field) else {
        return b"";
    };
    if is_reserved(&field[..place]) && is_kind(&field[place + 1..]) {
        return &field[..place];
    }
    b""
}

// The first reserved word that names a column, or nothing.
fn first_reserved<'a>(mut fields: &[&'a [u8]]) -> &'a [u8]
    ensures { result.now ≡ spec.first_reserved (name_views fields.entry.now) }
{
    'fields: while let [field, rest @ ..] = fields {
        let name = reserved_name(*field);
        if name.len() > 0 {
            return name;
        }
        fields = rest;
    }
    b""
}

// Appends that the word is reserved.
fn push_reserved_word(text: &mut Vec<u8>, word: &[u8]) -> Result<(), AllocError>
    ensures { OnOk result (text.new.items ≡ text.old.items ++ spec.reserved_word_line word.now) }
{
    text.extend_from_slice(b"  `")?;
    push_value(text, word)?;
    text.extend_from_slice(b"` is a reserved word\n")
}

// Appends that the word is reserved; nothing if it is empty.
fn push_reserved_line(text: &mut Vec<u8>, word: &[u8]) -> Result<(), AllocError>
    ensures { OnOk result (text.new.items ≡ text.old.items ++ spec.reserved_line word.now) }
{
    if word.len() == 0 {
        return Ok(());
    }
    push_reserved_word(text, word)
}

// The first field with this name.
fn field_named<'a>(name: &[u8], mut fields: &[&'a [u8]]) -> Option<&'a [u8]>
    ensures { option_map (λ field. field.now) result ≡ spec.field_named name.now (name_views fields.entry.now) }
{
    'fields: while let [field, rest @ ..] = fields {
        if is_same_word(name, *field) {
            return Some(*field);
        }
        fields = rest;
    }
    None
}

// The fields with the names of a start and an end.
fn pair_named<'a>(start: &[u8], end: &[u8], fields: &[&'a [u8]]) -> Option<(&'a [u8], &'a [u8])>
    ensures { option_map (λ pair. (pair.0.now, pair.1.now)) result ≡ spec.pair_named (start.now, end.now) (name_views fields.now) }
{
    let from = field_named(start, fields)?;
    let to = field_named(end, fields)?;
    Some((from, to))
}

// The fields of the first pair of names in the table of which the header has both.
fn first_pair<'a>(
    mut table: &[(&'static [u8], &'static [u8])],
    fields: &[&'a [u8]],
) -> Option<(&'a [u8], &'a [u8])>
    ensures { option_map (λ pair. (pair.0.now, pair.1.now)) result ≡ spec.first_pair (map (λ names. (names.0.now, names.1.now)) table.entry.now) (name_views fields.now) }
{
    'table: while let [names, more @ ..] = table {
        let pair = pair_named(names.0, names.1, fields);
        if pair.is_some() {
            return pair;
        }
        table = more;
    }
    None
}

// Names of starts and ends that files often have.
const PERIOD_NAMES: [(&[u8], &[u8]); 15] = [
    (b"from", b"to"),
    (b"valid_from", b"valid_to"),
    (b"valid from", b"valid to"),
    (b"validfrom", b"validto"),
    (b"valid_from", b"valid_until"),
    (b"start", b"end"),
    (b"start_date", b"end_date"),
    (b"start date", b"end date"),
    (b"startdate", b"enddate"),
    (b"from_date", b"to_date"),
    (b"date_from", b"date_to"),
    (b"effective_from", b"effective_to"),
    (b"begin", b"end"),
    (b"begda", b"endda"),
    (b"from", b"until"),
];

// The fields that are a start and an end by their names.
#[tactic(auto, unfolding(crate::specs::HeaderHints::period_pair))]
fn period_pair<'a>(fields: &[&'a [u8]]) -> Option<(&'a [u8], &'a [u8])>
    ensures { option_map (λ pair. (pair.0.now, pair.1.now)) result ≡ spec.period_pair (name_views fields.now) }
{
    first_pair(&PERIOD_NAMES, fields)
}

// Appends how a file whose period has these names is imported.
fn push_pair_line(text: &mut Vec<u8>, start: &[u8], end: &[u8]) -> Result<(), AllocError>
    ensures { OnOk result (text.new.items ≡ text.old.items ++ spec.pair_line (start.now, end.now)) }
{
    text.extend_from_slice(b"  the last two columns are from,to: use `tq import --from \"")?;
    push_value(text, start)?;
    text.extend_from_slice(b"\" --to \"")?;
    push_value(text, end)?;
    text.extend_from_slice(b"\"`\n")?;
    Ok(())
}

// Appends how a file with a period of other names is imported.
fn push_period_line(text: &mut Vec<u8>, pair: Option<(&[u8], &[u8])>) -> Result<(), AllocError>
    ensures { OnOk result (text.new.items ≡ text.old.items ++ spec.period_line (option_map (λ pair. (pair.0.now, pair.1.now)) pair.entry)) }
{
    let Some((start, end)) = pair else {
        return text.extend_from_slice(
            b"  the last two columns are from,to: use `tq import --from NAME --to NAME` if they have other names\n",
        );
    };
    push_pair_line(text, start, end)
}

// Whether the last two fields are `from` and `to`.
fn ends_with_period(fields: &[&[u8]]) -> bool
    ensures { result ≡ spec.ends_with_period (name_views fields.now) }
{
    let count = fields.len();
    is_same_word(b"from", field_or_nothing(fields, count.saturating_sub(2)))
        && is_same_word(b"to", field_or_nothing(fields, count.saturating_sub(1)))
}

// Appends that the last two columns are not `from` and `to`.
fn push_period_hint(text: &mut Vec<u8>, fields: &[&[u8]]) -> Result<(), AllocError>
    ensures { OnOk result (text.new.items ≡ text.old.items ++ spec.period_hint (name_views fields.now)) }
{
    if fields.len() < 2 || ends_with_period(fields) {
        return Ok(());
    }
    push_period_line(text, period_pair(fields))
}

// Appends all hints for a header of these fields.
fn push_fields_hint(text: &mut Vec<u8>, fields: &[&[u8]]) -> Result<(), AllocError>
    ensures { OnOk result (text.new.items ≡ text.old.items ++ spec.fields_hint (name_views fields.now)) }
{
    text.extend_from_slice(separator_hint(fields))?;
    push_reserved_line(text, first_reserved(fields))?;
    push_period_hint(text, fields)
}

/// Appends hints for the header of a file: another separator, reserved words, and other names of the period.
pub(crate) fn push_header_hint(
    alloc: Global,
    text: &mut Vec<u8>,
    header: &ByteRecord,
) -> Result<(), AllocError>
    ensures { OnOk result (text.new.items ≡ text.old.items ++ spec.fields_hint (fields_of header.now)) }
{
    let fields = header_fields(alloc, header)?;
    push_fields_hint(text, &fields)
}
