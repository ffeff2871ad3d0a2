// A partition of the rows of tables, as a snapshot.

ghost use Rattle.std.specs.Prelude.{◌≡◌, ◌≤◌, ◌==◌, ℕ, IfOk, filter, length, map, Some};
ghost use Rattle.std.proofs.Props.{props};
ghost use Rattle.tq_base.specs.declared.fragment.Fragment.{Fragment};
ghost use Rattle.tq_event.specs.Tables.{lists_of, rows_in as table_of};
ghost use Rattle.tq_base.specs.RowValues.{value_at};
ghost use Rattle.tq_exec.specs.Answers.{in_tables};
ghost use Rattle.tq_exec.specs.Partitioning.{in_partition};
ghost use Rattle.memchr.specs.Find.{is_byte, places};
ghost use Rattle.tq_exec.specs.Partitions.{columns_in, partition_of, ArePartitionIds, partition_ids_prop};

use crate::partition_columns::column_in;
use crate::snapshot::{Snapshot, TablesOfRows};
use memchr::memchr_iter;
use std::alloc::{AllocError, Global};
use tq_base::{KeyRange, Period, Relation, Rows};

// The rows of tables that belong to one partition. `ids` has the partition of each row of the tables that are partitioned by
// a column. Rows of other tables belong to each partition.
#[derive(Clone, Copy)]
pub(crate) struct Partition<'a> {
    pub(crate) all: TablesOfRows<'a>,
    pub(crate) cuts: &'a [u128],
    pub(crate) columns: &'a [Option<u32>],
    pub(crate) ids: &'a [Vec<u8>],
    pub(crate) number: u8,
    ghost are: { ArePartitionIds cuts.now columns.now (lists_of all.tables.now) ids.now } by { Prim.hlevel (props, partition_ids_prop) },
}

// The numbers of the rows with this partition id.
fn numbers_in(alloc: Global, ids: &[u8], number: u8) -> Result<Vec<u32>, AllocError>
    requires { length ids.now ≤ 4294967295 }
    ensures { IfOk result (λ numbers. numbers.items ≡ places (is_byte number) ids.now) }
{
    let mut numbers = Vec::new(alloc);
    'found: for place in memchr_iter(number, ids) {
        numbers.push(place as u32)?;
    }
    Ok(numbers)
}

// The rows of the table with this partition id.
fn rows_in<'a>(
    alloc: Global,
    rows: &'a Rows,
    ids: &[u8],
    number: u8,
) -> Result<Relation<'a>, AllocError>
    requires { length ids.now ≡ length rows.now.items }
    ensures { (partition : Fragment → ℕ) → ids.now ≡ map partition rows.now.items → IfOk result (λ relation. relation.items ≡ filter (λ (row : Fragment). partition row == number) rows.now.items) }
{
    rows.len();
    let numbers = numbers_in(alloc, ids, number)?;
    Relation::of(alloc, rows)?.take_rows(alloc, &numbers)
}

// The rows of the table, which is partitioned by the column, that belong to the partition.
fn partition_rows<'a>(
    alloc: Global,
    partition: &Partition<'a>,
    table: u32,
    column: u32,
) -> Result<Relation<'a>, AllocError>
    requires { columns_in partition.now.columns.now table ≡ Some column }
    ensures { IfOk result (λ relation. relation.items ≡ filter (λ (row : Fragment). partition_of partition.now.cuts.now (value_at row.values column) == partition.now.number) (table_of (lists_of partition.now.all.tables.now) table)) }
{
    match partition.all.tables.get(table as usize) {
        Some(rows) => rows_in(
            alloc,
            rows,
            &partition.ids[table as usize],
            partition.number,
        ),
        None => Relation::owned(alloc, Rows::new(alloc, 0)),
    }
}

impl<'a> Snapshot<'a> for Partition<'a> {
    ghost catalogue = { λ s. s.all.catalogue.now };

    ghost valid = { λ s. in_partition (partition_of s.cuts.now) (columns_in s.columns.now) s.number (in_tables (lists_of s.all.tables.now)) };

    fn fit(&self) {
        self.all.fit();
    }

    fn rows(
        &self,
        alloc: Global,
        table: u32,
        keys: &KeyRange,
        window: &Period,
    ) -> Result<Relation<'a>, AllocError> {
        match column_in(self.columns, table) {
            None => self.all.rows(alloc, table, keys, window),
            Some(column) => partition_rows(alloc, self, table, column),
        }
    }
}
