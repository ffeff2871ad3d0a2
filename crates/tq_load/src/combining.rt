// Combining the rows of parts.

ghost use Rattle.std.specs.Prelude.{◌≡◌, ◌≤◌, ◌+◌, All, Bool, IfOk, IfSome, IsTrue, List, OnOk, length, map, sum_by};
ghost use Rattle.tq_base.specs.declared.catalogue.Schema.{Schema as Heading};
ghost use Rattle.tq_base.specs.declared.form.Form.{Form as AnyForm};
ghost use Rattle.tq_event.specs.declared.file.TableFile.{TableFile as File};
ghost use Rattle.tq_event.specs.Loading.{event_count};
ghost use Rattle.tq_event.specs.Tables.{entries_from, row_entry};
ghost use Rattle.tq_load.specs.Parts.{HaveProjectedRows, IsRead};
ghost use Rattle.tq_load.specs.Combining.{IsWhole, LeadsTo, period_events};

use crate::part::{Part, PartRows};
use std::alloc::{AllocError, Global};
use std::thread;
use std::thread::Threads;
use tq_base::{FOREVER, Period, Rows};
use tq_event::{FileBytes, TableFile};

// Whether the other part follows this one and has rows of the same width.
fn leads_to(read: &PartRows, other: &PartRows) -> bool
    ensures { IsTrue result → LeadsTo read.now other.now }
{
    read.part.table == other.part.table
        && read.part.end == other.part.start
        && read.rows.width() == other.rows.width()
}

// The rows of both parts, moved by up to `workers` threads. The other part follows this one.
fn both<R: Threads>(
    rt: &R,
    workers: u32,
    read: PartRows,
    other: PartRows,
) -> Result<PartRows, AllocError>
    requires { LeadsTo read other }
    ensures { (form : AnyForm) (files : List File) (wanted : List (List Bool)) (schemas : List Heading) → IsRead form files wanted schemas read → IsRead form files wanted schemas other → IfOk result (IsRead form files wanted schemas) }
{
    let part = Part {
        table: read.part.table,
        start: read.part.start,
        end: other.part.end,
    };
    let rows = read.rows.followed_by_among(rt, workers, other.rows)?;
    Ok(PartRows { part, rows })
}

// Appends the rows to the list, or to its last entry if their part follows that one.
fn add<R: Threads>(
    rt: &R,
    workers: u32,
    all: &mut Vec<PartRows>,
    next: PartRows,
) -> Result<(), AllocError>
    ensures { (form : AnyForm) (files : List File) (wanted : List (List Bool)) (schemas : List Heading) → All (IsRead form files wanted schemas) all.old.items → IsRead form files wanted schemas next → OnOk result (All (IsRead form files wanted schemas) all.new.items) }
{
    let Some(last) = all.pop() else {
        all.push(next)?;
        return Ok(());
    };
    if leads_to(&last, &next) {
        all.push(both(rt, workers, last, next)?)?;
    } else {
        all.push(last)?;
        all.push(next)?;
    }
    Ok(())
}

// The rows of the parts, with those of consecutive parts combined; `None` if one of the parts is invalid.
fn combine<R: Threads>(
    rt: &R,
    alloc: Global,
    workers: u32,
    parts: Vec<Option<PartRows>>,
) -> Result<Option<Vec<PartRows>>, AllocError>
    ensures { (form : AnyForm) (files : List File) (wanted : List (List Bool)) (schemas : List Heading) → All (λ one. IfSome one (IsRead form files wanted schemas)) parts.items → IfOk result (λ found. IfSome found (λ all. All (IsRead form files wanted schemas) all.items)) }
{
    let mut all = Vec::new(alloc);
    'parts: for part in parts {
        let Some(part) = part else {
            return Ok(None);
        };
        add(rt, workers, &mut all, part)?;
    }
    Ok(Some(all))
}

// The place of the first part of the second half of the tables.
fn latter_half(parts: &[Option<PartRows>], tables: usize) -> usize
    ensures { result ≤ length parts.now }
{
    'parts: for (place, part) in parts.iter().enumerate() {
        if let Some(read) = part
            && read.part.table as usize >= tables / 2
        {
            return place;
        }
    }
    parts.len()
}

// The rows of both lists, one after the other; `None` if either is missing.
fn chained(
    front: Option<Vec<PartRows>>,
    back: Option<Vec<PartRows>>,
) -> Result<Option<Vec<PartRows>>, AllocError>
    ensures { (form : AnyForm) (files : List File) (wanted : List (List Bool)) (schemas : List Heading) → IfSome front (λ all. All (IsRead form files wanted schemas) all.items) → IfSome back (λ all. All (IsRead form files wanted schemas) all.items) → IfOk result (λ found. IfSome found (λ all. All (IsRead form files wanted schemas) all.items)) }
{
    let (Some(mut all), Some(mut more)) = (front, back) else {
        return Ok(None);
    };
    all.append(&mut more)?;
    Ok(Some(all))
}

/// The rows of the parts, with those of consecutive parts combined; `None` if one of the parts is invalid. With several
/// workers, one thread does this for the first half of the tables and another for the second half, each with half the
/// workers.
pub fn combine_parallel<R: Threads + Sync>(
    rt: &R,
    alloc: Global,
    tables: usize,
    workers: u32,
    parts: Vec<Option<PartRows>>,
) -> Result<Option<Vec<PartRows>>, AllocError>
    ensures { (form : AnyForm) (files : List File) (wanted : List (List Bool)) (schemas : List Heading) → All (λ one. IfSome one (IsRead form files wanted schemas)) parts.items → IfOk result (λ found. IfSome found (λ all. All (IsRead form files wanted schemas) all.items)) }
{
    if workers < 2 || tables < 2 {
        return combine(rt, alloc, workers, parts);
    }
    let mut front = parts;
    let place = latter_half(&front, tables);
    let back = front.split_off(place)?;
    let put_front = || -> Result<Option<Vec<PartRows>>, AllocError>
        ensures { (form : AnyForm) (files : List File) (wanted : List (List Bool)) (schemas : List Heading) → All (λ one. IfSome one (IsRead form files wanted schemas)) front.items → IfOk result (λ found. IfSome found (λ all. All (IsRead form files wanted schemas) all.items)) }
    { combine(rt, alloc, workers / 2, front) };
    let put_back = || -> Result<Option<Vec<PartRows>>, AllocError>
        ensures { (form : AnyForm) (files : List File) (wanted : List (List Bool)) (schemas : List Heading) → All (λ one. IfSome one (IsRead form files wanted schemas)) back.items → IfOk result (λ found. IfSome found (λ all. All (IsRead form files wanted schemas) all.items)) }
    { combine(rt, alloc, workers / 2, back) };
    let (back, front) = thread::join(rt, put_back, put_front);
    chained(front?, back?)
}

// Whether the rows are those of the whole file of this table.
fn is_whole(read: &PartRows, table: usize, bytes: &FileBytes) -> bool
    ensures { IsTrue result → IsWhole table bytes.now read.now.part }
{
    read.part.table as usize == table && read.part.start == 0 && read.part.end == bytes.len()
}

/// The rows of each table, if they are those of whole files; else `None`.
pub fn whole_tables(
    alloc: Global,
    files: &[TableFile],
    parts: Vec<PartRows>,
) -> Result<Option<Vec<Rows>>, AllocError>
    ensures { (form : AnyForm) (wanted : List (List Bool)) (schemas : List Heading) → All (IsRead form files.now wanted schemas) parts.items → IfOk result (λ found. IfSome found (λ tables. HaveProjectedRows form files.now wanted schemas tables.items)) }
{
    if parts.len() != files.len() {
        return Ok(None);
    }
    let mut tables = Vec::with_capacity(alloc, parts.len())?;
    'parts: for part in parts {
        let table = tables.len();
        if !is_whole(&part, table, &files[table].bytes) {
            return Ok(None);
        }
        tables.push(part.rows)?;
    }
    Ok(Some(tables))
}

// The number of events of a row that is valid in the period.
fn events_of(period: &Period) -> u32
    ensures { result ≡ period_events period.now }
{
    if period.end.number() == FOREVER { 1 } else { 2 }
}

// The number of events of rows with these periods. Every period is read, without a branch to predict.
fn events_in(periods: &[Period]) -> u64
    ensures { result ≡ sum_by period_events periods.now }
{
    let mut events: u64 = 0;
    'periods: for period in periods {
        events += u64::from(events_of(period));
    }
    events
}

// The number of events that remain after those of the rows; `None` if there are more than `left`.
fn events_left(left: u32, rows: &Rows) -> Option<u32>
    ensures { (table : _) → IfSome result (λ rest. rest + sum_by event_count (map (row_entry table) rows.now.items) ≡ left) }
{
    let events = events_in(rows.periods());
    if events <= u64::from(left) {
        Some(left - events as u32)
    } else {
        None
    }
}

// Whether the tables have so few rows that their events, at most two each, stay within the limit. Reads no period.
fn rows_fit(limit: u32, tables: &[Rows]) -> bool
    ensures { IsTrue result → sum_by event_count (entries_from 0 tables.now) ≤ limit }
{
    let mut left = u64::from(limit);
    'tables: for rows in tables {
        let most = 2 * rows.len() as u64;
        if most > left {
            return false;
        }
        left -= most;
    }
    true
}

// Whether the events of all rows, counted one by one, stay within the limit.
fn events_fit(limit: u32, tables: &[Rows]) -> bool
    ensures { IsTrue result → sum_by event_count (entries_from 0 tables.now) ≤ limit }
{
    let mut left = limit;
    'tables: for rows in tables {
        match events_left(left, rows) {
            Some(rest) => left = rest,
            None => return false,
        }
    }
    true
}

/// Whether the events of all rows stay within the limit.
pub fn is_within(limit: u32, tables: &[Rows]) -> bool
    ensures { IsTrue result → sum_by event_count (entries_from 0 tables.now) ≤ limit }
{
    rows_fit(limit, tables) || events_fit(limit, tables)
}
