// The rows: each starts at the instant of its number and has its own key.

ghost use Rattle.std.specs.Prelude.{◌≤◌, IfOk, length};
ghost use Rattle.tq_event.specs.History.{IsHistory};

use anyhow::anyhow;
use std::alloc::Global;
use tq_base::{Form, Instant, List, Value, Values};
use tq_event::laws::{loaded_is_history, loaded_is_within};
use tq_event::{Event, FileBytes, Loaded, MAX_EVENTS, TableFile, load};
use tq_store::Db;

/// A table with a number and a text, without events.
pub fn no_rows(alloc: Global) -> anyhow::Result<Loaded>
    ensures history { IfOk result (λ l. IsHistory l.catalogue l.events) }
    ensures few { IfOk result (λ l. length l.events ≤ 0) }
{
    let mut files = Vec::new(alloc);
    files.push(TableFile {
        name: List::of(b"t".to_vec(alloc)?),
        bytes: FileBytes::of(b"k:int,v:text,from,to\n".to_vec(alloc)?),
    })?;
    loaded_is_history();
    loaded_is_within();
    let loaded = load(alloc, files, 0, Form::Numbers)?;
    Ok(loaded)
}

/// The values of a row.
pub fn values_of(alloc: Global, row: u32) -> anyhow::Result<Values> {
    let mut values = Vec::new(alloc);
    values.push(Value::int(i64::from(row)))?;
    let text = format!(in alloc; "v{}", row % 1000)?;
    values.push(Value::text(alloc, text.as_str())?)?;
    Ok(Values::of(values))
}

/// The instant of a number.
pub fn instant(number: u32) -> anyhow::Result<Instant> {
    Instant::new(u64::from(number)).ok_or(anyhow!("an instant"))
}

/// `rows` rows in one `Db`.
pub fn fill_db(alloc: Global, rows: u32) -> anyhow::Result<Db> {
    let mut db = Db::new(alloc, no_rows(alloc)?.catalogue)?;
    for row in 0..rows {
        let event = Event::Start {
            table: 0,
            values: values_of(alloc, row)?,
            at: instant(row)?,
        };
        if db.count() >= MAX_EVENTS || !db.apply(&event)? {
            return Err(anyhow!("an event is refused"));
        }
    }
    Ok(db)
}
