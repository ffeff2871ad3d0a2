// A row as a record of a file holds it.

ghost use Rattle.std.specs.Prelude.{◌≡◌, ◌<◌, ◌≤◌, ◌++◌, IfOk, OnOk, length, map, slice_index_or};
ghost use Rattle.tq_base.specs.declared.fragment.Fragment.{Fragment};
ghost use Rattle.tq_event.specs.Entries.{entry_in};
ghost use Rattle.tq_event.specs.Tables.{entries_from, row_entry};

use std::alloc::{AllocError, Global};
use tq_base::{Bound, Instant, Rows, Values};

/// The table's number and the period of an entry.
#[derive(Clone, Copy, Debug)]
pub struct Validity {
    pub table: u32,
    pub from: Instant,
    pub to: Bound,
}

/// A row as a record of a file holds it: its values, with its table's number and its period.
pub type Entry = (Values, Validity);

fn copied(alloc: Global, rows: &Rows, row: usize) -> Result<Values, AllocError>
    requires { row < length rows.now.items }
    ensures { (d : Fragment) → IfOk result (λ copy. copy ≡ (slice_index_or rows.now.items row d).values) }
{
    let mut copies = Vec::with_capacity(alloc, rows.width())?;
    rows.show(row, &mut copies)?;
    Ok(Values::of(copies))
}

// Appends copies of the rows of a table.
fn add_entries(
    alloc: Global,
    table: u32,
    rows: &Rows,
    entries: &mut Vec<Entry>,
) -> Result<(), AllocError>
    ensures { OnOk result (map entry_in entries.new.items ≡ map entry_in entries.old.items ++ map (row_entry table) rows.now.items) }
{
    'rows: for (number, period) in rows.periods().iter().enumerate() {
        let values = copied(alloc, rows, number)?;
        let (from, to) = (period.start, period.end);
        entries.push((values, Validity { table, from, to }))?;
    }
    Ok(())
}

/// The rows of tables as entries, in the order of tables and records.
pub fn entries_of(alloc: Global, tables: &[Rows]) -> Result<Vec<Entry>, AllocError>
    requires { length tables.now ≤ 16 }
    ensures { IfOk result (λ entries. map entry_in entries.items ≡ entries_from 0 tables.now) }
{
    let mut entries = Vec::new(alloc);
    'tables: for (table, rows) in tables.iter().enumerate() {
        add_entries(alloc, table as u32, rows, &mut entries)?;
    }
    Ok(entries)
}
