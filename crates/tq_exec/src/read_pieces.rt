// The pieces in which the rows that a plan needs are read.

ghost use Rattle.std.specs.Prelude.{◌≡◌, ◌≤◌, ◌++◌, IfOk, OnOk, length};
ghost use Rattle.tq_exec.specs.Reads.{AreAllCut, AreCut, IsCut, all_pieces, pieces_for};

use crate::key_ranges::{TableKeys, plan_keys};
use crate::read_parts::parts_of;
use std::alloc::{AllocError, Global};
use tq_base::{KeyRange, Period};
use tq_plan::Plan;
use tq_scan::Part;
use tq_store::Db;

/// The pieces in which the rows of a table are read: those keys and versions that a plan needs.
#[derive(Drop, Debug)]
pub struct TablePieces {
    pub table: u32,
    pub pieces: Vec<ReadPiece>,
}

/// Keys of a table, and a part of their window.
#[derive(Clone, Copy, Debug)]
pub struct ReadPiece {
    pub table_keys: TableKeys,
    pub part: Part,
}

// Appends a piece for each of the parts.
fn add_pieces(
    pieces: &mut Vec<ReadPiece>,
    table_keys: TableKeys,
    parts: &[Part],
) -> Result<(), AllocError>
    ensures { OnOk result (pieces.new.items ≡ pieces.old.items ++ pieces_for table_keys parts.now) }
{
    'parts: for part in parts {
        pieces.push(ReadPiece {
            table_keys,
            part: *part,
        })?;
    }
    Ok(())
}

// The window of each range of keys of the table, cut into about `wanted` parts, one range after the other.
fn cut_ranges(
    alloc: Global,
    db: &Db,
    n: u32,
    period: &Period,
    table: u32,
    ranges: &[KeyRange],
    wanted: usize,
) -> Result<Vec<ReadPiece>, AllocError>
    requires { n ≤ length db.now.events }
    ensures { IfOk result (λ pieces. AreCut db.now.events n period.now table ranges.now pieces.items) }
{
    let mut pieces = Vec::new(alloc);
    'each: for keys in ranges {
        let table_keys = TableKeys { table, keys: *keys };
        let parts = parts_of(alloc, db, n, period, table_keys, wanted)?;
        add_pieces(&mut pieces, table_keys, &parts)?;
    }
    Ok(pieces)
}

// The keys of the table that the plan needs, in about `wanted` pieces.
fn cut_table(
    alloc: Global,
    db: &Db,
    n: u32,
    plan: &Plan,
    table: u32,
    wanted: usize,
) -> Result<TablePieces, AllocError>
    requires { n ≤ length db.now.events }
    ensures { IfOk result (IsCut db.now.events n plan.now table) }
{
    let ranges = plan_keys(alloc, plan, table)?;
    let each = wanted / ranges.len().max(1);
    Ok(TablePieces {
        table,
        pieces: cut_ranges(alloc, db, n, &plan.window, table, &ranges, each)?,
    })
}

/// The keys of each table that the plan needs, in about `wanted` pieces for each table. `AllocError` if an allocation
/// failed.
pub(crate) fn cut_tables(
    alloc: Global,
    db: &Db,
    n: u32,
    plan: &Plan,
    wanted: usize,
) -> Result<Vec<TablePieces>, AllocError>
    requires { n ≤ length db.now.events }
    ensures { IfOk result (λ tables. AreAllCut db.now.events n plan.now (length db.now.catalogue.tables) tables.items) }
{
    let count = db.catalogue().tables.get().len();
    let mut tables = Vec::with_capacity(alloc, count)?;
    'tables: for number in 0..count {
        let Ok(table) = u32::try_from(number) else {
            return Err(AllocError);
        };
        tables.push(cut_table(alloc, db, n, plan, table, wanted)?)?;
    }
    Ok(tables)
}

/// The pieces of all tables, one table after the other. `AllocError` if an allocation failed.
pub(crate) fn all_pieces(
    alloc: Global,
    tables: &[TablePieces],
) -> Result<Vec<ReadPiece>, AllocError>
    ensures { IfOk result (λ pieces. pieces.items ≡ all_pieces tables.now) }
{
    let mut pieces = Vec::new(alloc);
    'tables: for table in tables {
        pieces.extend_from_slice(&table.pieces)?;
    }
    Ok(pieces)
}
