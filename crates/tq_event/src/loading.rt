// Loading files.

ghost use Rattle.std.specs.Prelude.{◌≡◌, ◌≢◌, ◌+◌, ◌<◌, ◌≤◌, ◌++◌, ◌∷◌, ◌==◌, [], Err, IfErr, IfOk, List, OnOk, Ok, if◌then◌else◌, length, sum_by};
ghost use Rattle.tq_base.specs.RowLists.{RowList};
ghost use Rattle.tq_event.specs.Entries.{Entry};
ghost use Rattle.tq_event.specs.Projection.{AreProjectedFiles, AreProjectedTables, IsProjectedAfter, IsProjectedTable, projected_from, wanted_lists};
ghost use Rattle.tq_event.specs.Loading.{IsLoaded, contents_of, event_count, has_table, next_contents, next_name, out_of_memory, table_contents};
ghost use Rattle.tq_event.specs.Tables.{AreRead, AreTables, entries_from};

use crate::bytes::FileBytes;
use crate::entry::entries_of;
use crate::fault::{LoadFault, LoadFaultKind};
use crate::file::{Loaded, TableFile, Tables};
use crate::header::read_header;
use crate::order::order_events;
use crate::projection::wanted_columns;
use crate::reading::read_entry;
use crate::records::{has_two_boms, next_record, record_reader};
use csv::ByteRecord;
use std::alloc::{AllocError, Global};
use tq_base::{
    Bound, Catalogue, Column, FOREVER, Form, List, Name, Period, Rows, Schema, Value, fold_name,
};

/// The greatest limit on events.
pub const MAX_EVENTS: u32 = 16_777_216;

/// The most tables.
pub const MAX_TABLES: usize = 16;

// How files are read: at most `limit` events, and times written in this form.
#[derive(Clone, Copy)]
struct Rules {
    limit: u32,
    form: Form,
}

// The fault of a record of a table. `OutOfMemory` has neither record nor table.
fn fault_at(table: u32, number: u32, kind: LoadFaultKind) -> LoadFault
    ensures named { kind ≢ LoadFaultKind.OutOfMemory → result ≡ record { kind = kind; table = table; number = number } }
    ensures out_of_memory { kind ≡ LoadFaultKind.OutOfMemory → result ≡ out_of_memory }
{
    if matches!(kind, LoadFaultKind::OutOfMemory) {
        LoadFault::from(AllocError)
    } else {
        LoadFault {
            kind,
            table,
            number,
        }
    }
}

// The number of events of a row that is valid until the bound.
fn event_count(to: Bound) -> u32
    ensures { result ≡ (if to == FOREVER then 1 else 2) }
{
    if to.number() == FOREVER { 1 } else { 2 }
}

// Adds a row to those of a table and moves its values out of their list, if the limit on events allows it.
fn add_row(
    limit: u32,
    events: &mut u32,
    rows: &mut Rows,
    values: &mut Vec<Value>,
    period: Period,
) -> Result<(), LoadFaultKind>
    requires limit { limit ≤ MAX_EVENTS }
    requires within { events.old ≤ limit }
    requires width { length values.old.items ≡ rows.old.width }
    ensures width { rows.new.width ≡ rows.old.width }
    ensures rows { OnOk result (rows.new.items ≡ rows.old.items ++ record { values = values.old.items; period = period } ∷ []) }
    ensures events { OnOk result (events.new ≡ events.old + (if period.end == FOREVER then 1 else 2)) }
    ensures within { OnOk result (events.new ≤ limit) }
    ensures kind { IfErr result (λ fault. fault ≢ LoadFaultKind.OutOfMemory → fault ≡ LoadFaultKind.TooManyEvents) }
    ensures many { IfErr result (λ fault. fault ≢ LoadFaultKind.OutOfMemory → limit < events.old + (if period.end == FOREVER then 1 else 2)) }
{
    let more = *events + event_count(period.end);
    if more > limit {
        return Err(LoadFaultKind::TooManyEvents);
    }
    rows.push(values, period)?;
    *events = more;
    Ok(())
}

// Reads a table: its columns, and the rows of its records with only the wanted values kept. Adds their events to the
// count. Not inlined, so that the reader's buffers leave the stack.
#[inline(never)]
fn read_table(
    alloc: Global,
    rules: Rules,
    table: u32,
    wanted: &[bool],
    events: &mut u32,
    bytes: &[u8],
) -> Result<(Vec<Column>, Rows), LoadFault>
    requires limit { rules.limit ≤ MAX_EVENTS }
    requires within { events.old ≤ rules.limit }
    ensures ok { IfOk result (λ read. IsProjectedTable rules.form rules.limit table wanted.now bytes.now events.old events.new read.0.items read.1.items) }
    ensures width { IfOk result (λ read. read.1.width ≡ length read.0.items) }
    ensures within { OnOk result (events.new ≤ rules.limit) }
    ensures fault { (before : List Entry) → sum_by event_count before ≡ events.old → IfErr result (λ fault. fault.kind ≢ LoadFaultKind.OutOfMemory
        → table_contents rules.form rules.limit table before bytes.now ≡ Err fault) }
    ensures out_of_memory { IfErr result (λ fault. fault.kind ≡ LoadFaultKind.OutOfMemory → fault ≡ out_of_memory) }
{
    if has_two_boms(bytes) {
        return Err(fault_at(table, 1, LoadFaultKind::BadHeader));
    }
    let mut reader = record_reader(alloc, bytes);
    let mut record = ByteRecord::new(alloc);
    if !next_record(&mut reader, &mut record)? {
        return Err(fault_at(table, 1, LoadFaultKind::BadHeader));
    }
    let columns = match read_header(alloc, &record) {
        Ok(columns) => columns,
        Err(kind) => return Err(fault_at(table, 1, kind)),
    };
    let mut values = Vec::new(alloc);
    let mut rows = Rows::with_columns(alloc, &columns, wanted)?;
    'records: for number in 2..u32::MAX {
        if !next_record(&mut reader, &mut record)? {
            return Ok((columns, rows));
        }
        let period = match read_entry(alloc, &columns, wanted, &record, &mut values, rules.form) {
            Ok(period) => period,
            Err(kind) => return Err(fault_at(table, number, kind)),
        };
        if let Err(kind) = add_row(rules.limit, events, &mut rows, &mut values, period) {
            return Err(fault_at(table, number, kind));
        }
    }
    // Each record makes an event, so the limit on events is reached before the numbers end.
    unreachable!()
}

// Reads a table from bytes that may be in several lists; these are first copied into one.
fn read_bytes(
    alloc: Global,
    rules: Rules,
    table: u32,
    wanted: &[bool],
    events: &mut u32,
    bytes: &FileBytes,
) -> Result<(Vec<Column>, Rows), LoadFault>
    requires limit { rules.limit ≤ MAX_EVENTS }
    requires within { events.old ≤ rules.limit }
    ensures ok { IfOk result (λ read. IsProjectedTable rules.form rules.limit table wanted.now bytes.now events.old events.new read.0.items read.1.items) }
    ensures width { IfOk result (λ read. read.1.width ≡ length read.0.items) }
    ensures within { OnOk result (events.new ≤ rules.limit) }
    ensures fault { (before : List Entry) → sum_by event_count before ≡ events.old → IfErr result (λ fault. fault.kind ≢ LoadFaultKind.OutOfMemory
        → table_contents rules.form rules.limit table before bytes.now ≡ Err fault) }
    ensures out_of_memory { IfErr result (λ fault. fault.kind ≡ LoadFaultKind.OutOfMemory → fault ≡ out_of_memory) }
{
    if let Some(whole) = bytes.whole() {
        return read_table(alloc, rules, table, wanted, events, whole);
    }
    let whole = bytes.to_vec(alloc)?;
    read_table(alloc, rules, table, wanted, events, &whole)
}

fn has_table(tables: &[Schema], name: &[u8]) -> bool
    ensures { result ≡ has_table tables.now name.now }
{
    tables.iter().any(|table| table.name.bytes() == name)
}

/// The name of the table after these. Errors are `TooManyTables`, `BadHeader`, `DuplicateName` and `OutOfMemory`.
pub fn read_name(alloc: Global, tables: &[Schema], name: &[u8]) -> Result<Name, LoadFaultKind>
    ensures ok { IfOk result (λ read. next_name tables.now name.now ≡ Ok read) }
    ensures few { OnOk result (length tables.now < 16) }
    ensures fault { IfErr result (λ fault. fault ≢ LoadFaultKind.OutOfMemory → next_name tables.now name.now ≡ Err fault) }
{
    if tables.len() >= MAX_TABLES {
        return Err(LoadFaultKind::TooManyTables);
    }
    let Some(name) = fold_name(alloc, name)? else {
        return Err(LoadFaultKind::BadHeader);
    };
    if has_table(tables, name.bytes()) {
        return Err(LoadFaultKind::DuplicateName);
    }
    Ok(name)
}

// Adds the table of a file and its rows, with only the wanted values kept.
fn load_file(
    alloc: Global,
    rules: Rules,
    wanted: &[Vec<bool>],
    tables: &mut Vec<Schema>,
    rows: &mut Vec<Rows>,
    events: &mut u32,
    file: &TableFile,
) -> Result<(), LoadFault>
    requires limit { rules.limit ≤ MAX_EVENTS }
    requires few { length tables.old.items ≤ 16 }
    requires read { AreRead tables.old.items rows.old.items }
    requires counted { events.old ≡ sum_by event_count (entries_from 0 rows.old.items) }
    requires within { events.old ≤ rules.limit }
    ensures ok { (whole : List RowList) → rows.old.items ≡ projected_from (wanted_lists wanted.now) 0 whole
        → OnOk result (IsProjectedAfter rules.form rules.limit (wanted_lists wanted.now) tables.old.items whole file.now tables.new.items rows.new.items) }
    ensures few { OnOk result (length tables.new.items ≤ 16) }
    ensures read { OnOk result (AreRead tables.new.items rows.new.items) }
    ensures counted { OnOk result (events.new ≡ sum_by event_count (entries_from 0 rows.new.items)) }
    ensures within { OnOk result (events.new ≤ rules.limit) }
    ensures fault { (whole : List RowList) → rows.old.items ≡ projected_from (wanted_lists wanted.now) 0 whole → IfErr result (λ fault. fault.kind ≢ LoadFaultKind.OutOfMemory
        → next_contents rules.form rules.limit (record { tables = tables.old.items; entries = entries_from 0 whole }) file.now ≡ Err fault) }
    ensures out_of_memory { IfErr result (λ fault. fault.kind ≡ LoadFaultKind.OutOfMemory → fault ≡ out_of_memory) }
{
    let number = tables.len() as u32;
    let name = match read_name(alloc, tables, file.name.get()) {
        Ok(name) => name,
        Err(kind) => return Err(fault_at(number, 0, kind)),
    };
    let wanted = wanted_columns(wanted, number);
    let (columns, read) = read_bytes(alloc, rules, number, wanted, events, &file.bytes)?;
    let columns = List::of(columns);
    tables
        .push(Schema { name, columns })
        .map_err(AllocError::from)?;
    rows.push(read).map_err(AllocError::from)?;
    Ok(())
}

// The tables of files and the rows of their records, with only the wanted values kept. A file's bytes are dropped once
// its rows are read.
fn read_files(
    alloc: Global,
    files: Vec<TableFile>,
    wanted: &[Vec<bool>],
    limit: u32,
    form: Form,
) -> Result<(Vec<Schema>, Vec<Rows>), LoadFault>
    requires { limit ≤ MAX_EVENTS }
    ensures ok { IfOk result (λ read. AreProjectedFiles form files.items limit (wanted_lists wanted.now) read.0.items read.1.items) }
    ensures few { IfOk result (λ read. length read.0.items ≤ 16) }
    ensures read { IfOk result (λ read. AreRead read.0.items read.1.items) }
    ensures within { IfOk result (λ read. sum_by event_count (entries_from 0 read.1.items) ≤ limit) }
    ensures fault { IfErr result (λ fault. fault.kind ≢ LoadFaultKind.OutOfMemory → contents_of form files.items limit ≡ Err fault) }
    ensures out_of_memory { IfErr result (λ fault. fault.kind ≡ LoadFaultKind.OutOfMemory → fault ≡ out_of_memory) }
{
    let mut tables = Vec::new(alloc);
    let mut rows = Vec::new(alloc);
    let mut events = 0;
    'files: for file in files {
        load_file(
            alloc,
            Rules { limit, form },
            wanted,
            &mut tables,
            &mut rows,
            &mut events,
            &file,
        )?;
    }
    Ok((tables, rows))
}

// The tables of files and the rows of their records, with all values.
fn read_whole_files(
    alloc: Global,
    files: Vec<TableFile>,
    limit: u32,
    form: Form,
) -> Result<(Vec<Schema>, Vec<Rows>), LoadFault>
    requires { limit ≤ MAX_EVENTS }
    ensures ok { IfOk result (λ read. contents_of form files.items limit
        ≡ Ok (record { tables = read.0.items; entries = entries_from 0 read.1.items })) }
    ensures few { IfOk result (λ read. length read.0.items ≤ 16) }
    ensures read { IfOk result (λ read. AreRead read.0.items read.1.items) }
    ensures within { IfOk result (λ read. sum_by event_count (entries_from 0 read.1.items) ≤ limit) }
    ensures fault { IfErr result (λ fault. fault.kind ≢ LoadFaultKind.OutOfMemory → contents_of form files.items limit ≡ Err fault) }
    ensures out_of_memory { IfErr result (λ fault. fault.kind ≡ LoadFaultKind.OutOfMemory → fault ≡ out_of_memory) }
{
    read_files(alloc, files, &[], limit, form)
}

/// Loads files into a catalogue and one list of at most `limit` events. Each data record makes a start and, unless `to`
/// is `forever`, an end. Events are ordered by time, ends before starts, then by table and record. `form` says how
/// times are written. Returns the first fault in the order of tables, records and checks, or `OutOfMemory` if an
/// allocation failed.
pub fn load(
    alloc: Global,
    files: Vec<TableFile>,
    limit: u32,
    form: Form,
) -> Result<Loaded, LoadFault>
    requires { limit ≤ MAX_EVENTS }
    ensures loaded { IfOk result (IsLoaded form files.items limit) }
    ensures fault { IfErr result (λ fault. fault.kind ≢ LoadFaultKind.OutOfMemory → contents_of form files.items limit ≡ Err fault) }
    ensures out_of_memory { IfErr result (λ fault. fault.kind ≡ LoadFaultKind.OutOfMemory → fault ≡ out_of_memory) }
{
    let (tables, rows) = read_whole_files(alloc, files, limit, form)?;
    let entries = entries_of(alloc, &rows)?;
    let events = order_events(alloc, tables.len(), entries)?;
    Ok(Loaded {
        catalogue: Catalogue {
            tables: List::of(tables),
        },
        events: List::of(events),
    })
}

/// Loads files into tables, each with the rows of its records in their order. Returns the same faults as `load`.
pub fn load_tables(
    alloc: Global,
    files: Vec<TableFile>,
    limit: u32,
    form: Form,
) -> Result<Tables, LoadFault>
    requires { limit ≤ MAX_EVENTS }
    ensures tables { IfOk result (AreTables form files.items limit) }
    ensures fault { IfErr result (λ fault. fault.kind ≢ LoadFaultKind.OutOfMemory → contents_of form files.items limit ≡ Err fault) }
    ensures out_of_memory { IfErr result (λ fault. fault.kind ≡ LoadFaultKind.OutOfMemory → fault ≡ out_of_memory) }
{
    let (schemas, rows) = read_whole_files(alloc, files, limit, form)?;
    Ok(Tables {
        catalogue: Catalogue {
            tables: List::of(schemas),
        },
        rows: List::of(rows),
    })
}

/// Loads files as `load_tables` does, with only the wanted values kept. `wanted` has for each table, and for each of
/// its columns, whether it is wanted; tables and columns after the end of a list are wanted. Every field is checked. A
/// column that is not wanted has the number 0 or the empty text in each row and takes no memory. Periods are always
/// kept.
pub fn load_projected(
    alloc: Global,
    files: Vec<TableFile>,
    wanted: &[Vec<bool>],
    limit: u32,
    form: Form,
) -> Result<Tables, LoadFault>
    requires { limit ≤ MAX_EVENTS }
    ensures tables { IfOk result (AreProjectedTables form files.items limit (wanted_lists wanted.now)) }
    ensures read { IfOk result (λ tables. AreRead tables.catalogue.tables tables.rows) }
    ensures fault { IfErr result (λ fault. fault.kind ≢ LoadFaultKind.OutOfMemory → contents_of form files.items limit ≡ Err fault) }
    ensures out_of_memory { IfErr result (λ fault. fault.kind ≡ LoadFaultKind.OutOfMemory → fault ≡ out_of_memory) }
{
    let (schemas, rows) = read_files(alloc, files, wanted, limit, form)?;
    Ok(Tables {
        catalogue: Catalogue {
            tables: List::of(schemas),
        },
        rows: List::of(rows),
    })
}
