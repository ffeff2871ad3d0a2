// Commands that start and end rows.

ghost use Rattle.std.specs.Prelude.{MatchResult};
ghost use Rattle.tq_session.specs.Recording.{AreFound, NotFound};
ghost use Rattle.tq_session.specs.Transcripts.{Ends, Records, Starts};

use crate::reply::{Refusal, Reply};
use crate::request::EventArguments;
use std::alloc::Global;
use tq_base::{Catalogue, Values};
use tq_event::read_values;
use tq_snapshot::{StoreId, Writer};

// The number of the table with this name and the values of the fields, or why there are none.
fn find_table(
    alloc: Global,
    catalogue: &Catalogue,
    name: &[u8],
    fields: &[u8],
) -> Result<(u32, Values), Refusal>
    ensures { MatchResult result (λ r. AreFound catalogue.now name.now fields.now r.0 r.1) (NotFound catalogue.now name.now fields.now) }
{
    let Some(table) = catalogue.table(name) else {
        return Err(Refusal::UnknownTable);
    };
    let Some(schema) = catalogue.tables.get().get(table as usize) else {
        return Err(Refusal::BadValues);
    };
    match read_values(alloc, schema, fields) {
        Ok(Some(values)) => Ok((table, values)),
        Ok(None) => Err(Refusal::BadValues),
        Err(_) => Err(Refusal::OutOfMemory),
    }
}

/// Executes a `start` command. A refusal changes nothing.
pub fn start<J: StoreId>(alloc: Global, writer: &mut Writer<J>, words: &EventArguments<'_>) -> Reply
    ensures { Records J.catalogue writer.old (λ table values. Starts J.catalogue writer.old table words.now.at values) words.now.table.now words.now.fields.now result writer.new }
{
    let (table, values) = match find_table(alloc, writer.catalogue(), words.table, words.fields) {
        Ok(found) => found,
        Err(why) => return Reply::Refused(why),
    };
    match writer.start(table, &values, words.at) {
        Ok(row) => Reply::Row(row),
        Err(fault) => Reply::Refused(Refusal::from(fault)),
    }
}

/// Executes an `end` command. A refusal changes nothing.
pub fn end<J: StoreId>(alloc: Global, writer: &mut Writer<J>, words: &EventArguments<'_>) -> Reply
    ensures { Records J.catalogue writer.old (λ table values. Ends J.catalogue writer.old table words.now.at values) words.now.table.now words.now.fields.now result writer.new }
{
    let (table, values) = match find_table(alloc, writer.catalogue(), words.table, words.fields) {
        Ok(found) => found,
        Err(why) => return Reply::Refused(why),
    };
    match writer.end(table, &values, words.at) {
        Ok(row) => Reply::Row(row),
        Err(fault) => Reply::Refused(Refusal::from(fault)),
    }
}
