// Reads the rows that a plan needs of a `Db`, with several workers.

ghost use Rattle.std.specs.Prelude.{◌≡◌, ◌≤◌, All, IfOk, IfSome, length, slice_index_or, ℕ};
ghost use Rattle.std.proofs.Props.{props};
ghost use Rattle.tq_agg.specs.Grouping.{Row};
ghost use Rattle.tq_event.specs.Tables.{lists_of};
ghost use Rattle.tq_plan.specs.ValidPlans.{AreQueriesOver};
ghost use Rattle.tq_store.specs.Valid.{width_of};
ghost use Rattle.tq_exec.specs.Answers.{as_of, in_tables, times_at};
ghost use Rattle.tq_exec.specs.Fitting.{AreAllFitting};
ghost use Rattle.tq_exec.specs.declared.read_pieces.ReadPiece.{ReadPiece as AnyPiece};
ghost use Rattle.tq_exec.specs.Reads.{AreAllCut, AreRead, AreReadTables, IsCut, IsPieceIn, IsRead, IsReadTable, all_pieces, piece_prop};

use crate::read_pieces::{ReadPiece, TablePieces, all_pieces, cut_tables};
use crate::workers::Workers;
use std::alloc::{AllocError, Global};
use std::thread::Threads;
use tq_base::{Catalogue, Period, Rows};
use tq_plan::Plan;
use tq_run::{Gate, Work, run_with};
use tq_store::{Db, parts_are_valid};
use tq_table::chained;

// The most pieces.
const MOST_PIECES: usize = 65_536;

// Reads of a `Db` as of its first events over a window, one for each piece.
#[derive(Drop)]
struct Reads<'p> {
    alloc: Global,
    db: &'p Db,
    n: u32,
    window: &'p Period,
    pieces: &'p [ReadPiece],
    ghost within: { n ≤ length db.now.events },
    ghost few: { length pieces.now ≤ 65536 },
    ghost inside: { All (IsPieceIn db.now.events n window.now) pieces.now } by { Prim.hlevel (props, piece_prop) },
}

impl Work for Reads<'_> {
    type Out = Rows;

    ghost count = { λ w. length w.pieces.now };

    ghost relates = { λ w i rows. (d : AnyPiece) → IsRead w.db.now.catalogue w.db.now.events w.n w.window.now (slice_index_or w.pieces.now i d) rows };

    fn pieces(&self) -> u32 {
        self.pieces.len() as u32
    }

    fn run(&self, i: u32) -> Result<Rows, AllocError> {
        let ReadPiece { table_keys, part } = self.pieces[i as usize];
        let rows = self
            .db
            .rows_of_part(
                self.alloc,
                self.n,
                table_keys.table,
                &table_keys.keys,
                self.window,
                &part,
            )?
            .copied(self.alloc)?;
        rows.width();
        Ok(rows)
    }
}

// The number of columns of the table; 0 if there is no such table.
fn width_of(catalogue: &Catalogue, table: u32) -> usize
    ensures { result ≡ width_of catalogue.now table }
{
    match catalogue.tables.get().get(table as usize) {
        Some(schema) => schema.columns.get().len(),
        None => 0,
    }
}

// The rows of the table: those of its pieces, one piece after the other. No value is copied.
fn read_table(
    alloc: Global,
    db: &Db,
    n: u32,
    plan: &Plan,
    pieces: &TablePieces,
    lists: Vec<Rows>,
) -> Result<Rows, AllocError>
    requires within { n ≤ length db.now.events }
    requires cut { IsCut db.now.events n plan.now pieces.now.table pieces.now }
    requires read { AreRead db.now.catalogue db.now.events n plan.now.window pieces.now.pieces.items lists.items }
    ensures { IfOk result (IsReadTable db.now.catalogue (as_of db.now.events n) plan.now pieces.now.table) }
{
    let _count = db.count();
    parts_are_valid();
    chained(alloc, width_of(db.catalogue(), pieces.table), lists)
}

// The rows of each table, whose pieces were read one table after the other.
fn join_pieces(
    alloc: Global,
    db: &Db,
    n: u32,
    plan: &Plan,
    pieces: &[TablePieces],
    lists: Vec<Rows>,
) -> Result<Vec<Rows>, AllocError>
    requires within { n ≤ length db.now.events }
    requires cut { AreAllCut db.now.events n plan.now (length db.now.catalogue.tables) pieces.now }
    requires read { AreRead db.now.catalogue db.now.events n plan.now.window (all_pieces pieces.now) lists.items }
    ensures { IfOk result (λ tables. AreReadTables db.now.catalogue (as_of db.now.events n) plan.now tables.items) }
{
    let mut tables = Vec::with_capacity(alloc, pieces.len())?;
    let mut lists = lists;
    'tables: for table in pieces {
        let later = lists.split_off(table.pieces.len())?;
        tables.push(read_table(alloc, db, n, plan, table, lists)?)?;
        lists = later;
    }
    Ok(tables)
}

/// For each table of the `Db`, the rows that the plan needs as of the first `n` events, read in pieces by these workers:
/// the plan has the same answer over them. `None` if there would be too many pieces. `AllocError` if an allocation failed.
pub(crate) fn read_tables<R: Threads + Sync, G: Gate + Sync>(
    workers: &Workers<'_, R, G>,
    db: &Db,
    n: u32,
    plan: &Plan,
) -> Result<Option<Vec<Rows>>, AllocError>
    requires within { n ≤ length db.now.events }
    requires over { AreQueriesOver db.now.catalogue plan.now }
    ensures fit { IfOk result (λ read. IfSome read (λ tables. AreAllFitting db.now.catalogue (lists_of tables.items))) }
    ensures same { (v : Row) (t : ℕ) → IfOk result (λ read. IfSome read (λ tables. times_at (in_tables (lists_of tables.items)) plan.now v t ≡ times_at (as_of db.now.events n) plan.now v t)) }
{
    let alloc = workers.alloc;
    let _count = db.count();
    let tables = cut_tables(alloc, db, n, plan, 2 * workers.count as usize)?;
    let pieces = all_pieces(alloc, &tables)?;
    if pieces.len() > MOST_PIECES {
        return Ok(None);
    }
    let work = Reads {
        alloc,
        db,
        n,
        window: &plan.window,
        pieces: &pieces,
    };
    let lists = run_with(workers.rt, alloc, workers.count, &work, workers.gate)?;
    Ok(Some(join_pieces(alloc, db, n, plan, &tables, lists)?))
}
