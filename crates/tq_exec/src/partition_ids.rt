// Partition ids: the partition of each row of a table.

ghost use Rattle.std.specs.Prelude.{◌≡◌, ◌≤◌, ◌<◌, ◌+◌, ◌/◌, ◌++◌, IfOk, length, map, slice_index_or, take};
ghost use Rattle.tq_base.specs.declared.fragment.Fragment.{Fragment};
ghost use Rattle.tq_event.specs.Tables.{lists_of, rows_in};
ghost use Rattle.tq_base.specs.RowValues.{value_at};
ghost use Rattle.tq_table.specs.Sink.{bytes_of};
ghost use Rattle.tq_exec.specs.Partitions.{columns_in, partition_of, chunk_start, ArePartitionIds, IsChunk, IsPartitionIds};

use crate::partition_columns::column_in;
use crate::workers::Workers;
use std::alloc::{AllocError, Global};
use std::thread::Threads;
use tq_base::{Rows, Value, normalized_key};
use tq_run::{Gate, Work, run_with};

// The rows of a chunk, which is a piece of work.
pub(crate) const CHUNK_ROWS: usize = 65_536;

// About this many rows are sampled for each partition.
const SAMPLES: usize = 64;

// The partition of the value. It compares with each cut point, so that there is no branch to predict.
fn partition_of(cuts: &[u128], value: &Value) -> u8
    requires { length cuts.now ≤ 63 }
    ensures { result ≡ partition_of cuts.now value.now }
{
    let prefix = normalized_key(value);
    let mut partition = 0;
    'cuts: for cut in cuts {
        partition += u8::from(*cut <= prefix);
    }
    partition
}

// The partition of the row, by its value in the column.
fn id_of_row(cuts: &[u128], rows: &Rows, row: usize, column: u32) -> u8
    requires short { length cuts.now ≤ 63 }
    requires within { row < length rows.now.items }
    ensures { (d : Fragment) → result ≡ partition_of cuts.now (value_at (slice_index_or rows.now.items row d).values column) }
{
    match rows.value(row, column) {
        Some(value) => partition_of(cuts, value),
        None => partition_of(cuts, &Value::int(0)),
    }
}

// The partitions of the rows from `start` to `end`.
pub(crate) fn ids_between(
    alloc: Global,
    cuts: &[u128],
    rows: &Rows,
    column: u32,
    start: usize,
    end: usize,
) -> Result<Vec<u8>, AllocError>
    requires short { length cuts.now ≤ 63 }
    requires ordered { start ≤ end }
    requires within { end ≤ length rows.now.items }
    ensures { IfOk result (λ ids. map (λ (row : Fragment). partition_of cuts.now (value_at row.values column)) (take start rows.now.items) ++ ids.items
        ≡ map (λ (row : Fragment). partition_of cuts.now (value_at row.values column)) (take end rows.now.items)) }
{
    let mut ids = Vec::with_capacity(alloc, end - start)?;
    'rows: for number in start..end {
        ids.push(id_of_row(cuts, rows, number, column))?;
    }
    Ok(ids)
}

// The first row of the chunk, for `len` rows.
pub(crate) fn chunk_start(len: usize, chunk: u32) -> usize
    ensures { result ≡ chunk_start len chunk }
{
    (chunk as usize * CHUNK_ROWS).min(len)
}

// The partition ids of the rows of a table, a piece for each chunk.
#[derive(Drop)]
struct Chunks<'p> {
    alloc: Global,
    cuts: &'p [u128],
    rows: &'p Rows,
    column: u32,
    ghost short: { length cuts.now ≤ 63 },
}

impl Work for Chunks<'_> {
    type Out = Vec<u8>;

    ghost count = { λ w. length w.rows.now.items / 65536 + 1 };

    ghost relates = { λ w i ids. IsChunk w.cuts.now w.column w.rows.now.items i ids.items };

    fn pieces(&self) -> u32 {
        (self.rows.len() / CHUNK_ROWS) as u32 + 1
    }

    fn run(&self, i: u32) -> Result<Vec<u8>, AllocError> {
        let len = self.rows.len();
        let (start, end) = (chunk_start(len, i), chunk_start(len, i + 1));
        ids_between(self.alloc, self.cuts, self.rows, self.column, start, end)
    }
}

// The ids of all chunks, one after the other.
fn chained_chunks(alloc: Global, len: usize, chunks: Vec<Vec<u8>>) -> Result<Vec<u8>, AllocError>
    ensures { IfOk result (λ all. all.items ≡ bytes_of chunks.items) }
{
    let mut all = Vec::with_capacity(alloc, len)?;
    'chunks: for chunk in chunks {
        let mut chunk = chunk;
        all.append(&mut chunk)?;
    }
    Ok(all)
}

// The partition of each row, found by these workers if there is more than one chunk.
fn ids_of_rows<R: Threads + Sync, G: Gate + Sync>(
    workers: &Workers<'_, R, G>,
    cuts: &[u128],
    rows: &Rows,
    column: u32,
) -> Result<Vec<u8>, AllocError>
    requires short { length cuts.now ≤ 63 }
    ensures { IfOk result (λ ids. ids.items ≡ map (λ (row : Fragment). partition_of cuts.now (value_at row.values column)) rows.now.items) }
{
    let alloc = workers.alloc;
    let len = rows.len();
    if len <= CHUNK_ROWS {
        return ids_between(alloc, cuts, rows, column, 0, len);
    }
    let work = Chunks {
        alloc,
        cuts,
        rows,
        column,
    };
    let chunks = run_with(workers.rt, alloc, workers.count, &work, workers.gate)?;
    chained_chunks(alloc, len, chunks)
}

// The partition of each row of a table; no ids if the table is not partitioned.
fn ids_of_table<R: Threads + Sync, G: Gate + Sync>(
    workers: &Workers<'_, R, G>,
    cuts: &[u128],
    columns: &[Option<u32>],
    tables: &[Rows],
    table: u32,
) -> Result<Vec<u8>, AllocError>
    requires short { length cuts.now ≤ 63 }
    requires here { table < length tables.now }
    ensures { IfOk result (λ ids. IsPartitionIds cuts.now (columns_in columns.now table) (rows_in (lists_of tables.now) table) ids.items) }
{
    let alloc = workers.alloc;
    match column_in(columns, table) {
        Some(column) => {
            let rows = &tables[table as usize];
            ids_of_rows(workers, cuts, rows, column)
        }
        None => Ok(Vec::new(alloc)),
    }
}

/// For each table that is partitioned, the partition of each row, found by these workers.
pub(crate) fn ids_of_tables<R: Threads + Sync, G: Gate + Sync>(
    workers: &Workers<'_, R, G>,
    cuts: &[u128],
    columns: &[Option<u32>],
    tables: &[Rows],
) -> Result<Vec<Vec<u8>>, AllocError>
    requires short { length cuts.now ≤ 63 }
    requires few { length tables.now ≤ 64 }
    ensures { IfOk result (λ ids. ArePartitionIds cuts.now columns.now (lists_of tables.now) ids.items) }
{
    let alloc = workers.alloc;
    let mut ids = Vec::with_capacity(alloc, tables.len())?;
    'tables: for table in 0..tables.len() {
        let table = table as u32;
        ids.push(ids_of_table(workers, cuts, columns, tables, table)?)?;
    }
    Ok(ids)
}

// The normalized key of the row's value in the column.
fn key_at(rows: &Rows, row: usize, column: u32) -> u128
    requires { row < length rows.now.items }
{
    match rows.value(row, column) {
        Some(value) => normalized_key(value),
        None => 0,
    }
}

// The normalized keys of the values in the column of a sample of the rows, in no order.
pub(crate) fn sample_keys(
    alloc: Global,
    rows: &Rows,
    column: u32,
    wanted: usize,
) -> Result<Vec<u128>, AllocError> {
    let mut keys = Vec::new(alloc);
    'rows: for number in (0..rows.len()).step_by(rows.len() / wanted.max(1) + 1) {
        if number < rows.len() {
            keys.push(key_at(rows, number, column))?;
        }
    }
    Ok(keys)
}

// The index of the first of `len` keys that belongs to the partition. Later partitions are smaller, so that no worker waits
// long for the last ones: of n partitions, the first takes (2n - 1) / n^2 of the keys and the last one 1 / n^2.
fn first_of_partition(len: usize, partition: usize, partitions: usize) -> usize {
    let left = partitions.saturating_sub(partition);
    let parts = partitions.saturating_mul(partitions).max(1);
    len.saturating_mul(parts.saturating_sub(left.saturating_mul(left))) / parts
}

/// The keys at which the partitions begin, of keys in order, each once.
pub(crate) fn spaced_cut_points(
    alloc: Global,
    keys: &[u128],
    partitions: usize,
) -> Result<Vec<u128>, AllocError>
    requires { partitions ≤ 64 }
    ensures { IfOk result (λ cuts. length cuts.items ≤ 63) }
{
    let mut cuts = Vec::with_capacity(alloc, partitions)?;
    'partitions: for partition in 1..partitions {
        match keys.get(first_of_partition(keys.len(), partition, partitions)) {
            Some(prefix) if cuts.last() == Some(prefix) => {}
            Some(prefix) => cuts.push(*prefix)?,
            None => break,
        }
    }
    Ok(cuts)
}

/// Cut points that divide the rows into at most `partitions` partitions by their values in the column.
pub(crate) fn cut_points(
    alloc: Global,
    rows: &Rows,
    column: u32,
    partitions: usize,
) -> Result<Vec<u128>, AllocError>
    requires { partitions ≤ 64 }
    ensures { IfOk result (λ cuts. length cuts.items ≤ 63) }
{
    let mut keys = sample_keys(alloc, rows, column, partitions * SAMPLES)?;
    keys.sort_unstable();
    spaced_cut_points(alloc, &keys, partitions)
}
