// The tables of a statement, divided into parts: a folder for each part, and a manifest.

use crate::files::open_file;
use crate::progress::{Counted, Progress};
use crate::report::{Diagnostic, Refusal};
use crate::statement_file::statement_or_file;
use csv::ByteRecord;
use itoa::Buffer;
use std::alloc::{AllocError, Global};
use std::io::{BufWriter, Input, Write};
use std::rt::Files;
use std::sync::Wait;
use std::{fs, str};
use tq_base::{Catalogue, Column, Form, List, Name, Schema, fold_name};
use tq_cli::{SplitRequest, TableOption};
use tq_engine::AnswerFault;
use tq_event::steps::read_header;
use tq_event::{LoadFault, LoadFaultKind, MAX_TABLES};
use tq_import::{InputFault, next_record, record_reader};
use tq_plan::{Output, Plan, plan};
use tq_split::{
    Division, DivisionFault, MANIFEST_VERSION, Manifest, ManifestTable, Split, answer_columns,
    combine_groups, combine_word, divide, manifest_columns, manifest_text, name_text, split_plan,
};
use tq_sql::read;
use tq_table::Sink;

// A table: its name and columns, and the paths of its files.
#[derive(Drop)]
struct DividedTable {
    name: Name,
    columns: Vec<Column>,
    paths: Vec<Vec<u8>>,
}

// Where parts are written, how many there are, and how instants are written.
#[derive(Clone, Copy)]
struct Parts<'a> {
    folder: &'a str,
    count: u32,
    form: Form,
}

fn load_refusal(table: usize, number: u64, kind: LoadFaultKind) -> Refusal {
    if matches!(kind, LoadFaultKind::OutOfMemory) {
        return Refusal::OutOfMemory;
    }
    Refusal::Load(LoadFault {
        kind,
        table: u32::try_from(table).unwrap_or(u32::MAX),
        number: u32::try_from(number).unwrap_or(u32::MAX),
    })
}

// The columns of the table file at the path.
fn read_columns<R: Files + AllocGlobal>(
    rt: &R,
    table: usize,
    path: &[u8],
) -> Result<Vec<Column>, Refusal> {
    let file = match open_file(rt, path) {
        Ok(file) => file,
        Err(fault) => return Err(Refusal::of_file(fault, path.to_vec(rt.alloc())?)),
    };
    let mut reader = record_reader(rt.alloc(), file, b',');
    let mut header = ByteRecord::new(rt.alloc());
    match next_record(&mut reader, &mut header) {
        Ok(true) => match read_header(rt.alloc(), &header) {
            Ok(columns) => Ok(columns),
            Err(kind) => Err(load_refusal(table, 1, kind)),
        },
        Ok(false) => Err(load_refusal(table, 1, LoadFaultKind::BadHeader)),
        Err(InputFault::OutOfMemory) => Err(Refusal::OutOfMemory),
        Err(InputFault::Read) => Err(Refusal::CannotRead(path.to_vec(rt.alloc())?)),
    }
}

fn are_equal(columns: &[Column], others: &[Column]) -> bool {
    columns.len() == others.len()
        && columns.iter().zip(others).all(|(one, other)| one.kind == other.kind
            && one.name.bytes() == other.name.bytes())
}

fn place_of(tables: &[DividedTable], name: &Name) -> Option<usize> {
    tables
        .iter()
        .position(|table| table.name.bytes() == name.bytes())
}

// Adds a file: a new table, or one more file of a table with the same columns.
fn add_file<R: Files + AllocGlobal>(
    rt: &R,
    tables: &mut Vec<DividedTable>,
    option: TableOption,
) -> Result<(), Refusal> {
    let TableOption { name, path } = option;
    let Some(name) = fold_name(rt.alloc(), &name)? else {
        return Err(load_refusal(tables.len(), 0, LoadFaultKind::BadHeader));
    };
    if let Some(place) = place_of(tables, &name) {
        let columns = read_columns(rt, place, &path)?;
        let Some(table) = tables.get_mut(place) else {
            return Ok(());
        };
        if !are_equal(&table.columns, &columns) {
            return Err(load_refusal(place, 1, LoadFaultKind::BadHeader));
        }
        table.paths.push(path).map_err(AllocError::from)?;
        return Ok(());
    }
    let columns = read_columns(rt, tables.len(), &path)?;
    let mut paths = Vec::new(rt.alloc());
    paths.push(path).map_err(AllocError::from)?;
    tables
        .push(DividedTable {
            name,
            columns,
            paths,
        })
        .map_err(AllocError::from)?;
    Ok(())
}

// The tables of the options. Several files of one name are one table.
fn read_files<R: Files + AllocGlobal>(
    rt: &R,
    options: Vec<TableOption>,
) -> Result<Vec<DividedTable>, Refusal> {
    let mut tables = Vec::new(rt.alloc());
    for option in options {
        add_file(rt, &mut tables, option)?;
    }
    Ok(tables)
}

fn copy_columns(alloc: Global, columns: &[Column]) -> Result<Vec<Column>, AllocError> {
    let mut copy = Vec::with_capacity(alloc, columns.len())?;
    for column in columns {
        let name = column.name.try_copy()?;
        let kind = column.kind;
        copy.push(Column { name, kind }).map_err(AllocError::from)?;
    }
    Ok(copy)
}

fn catalogue_of(alloc: Global, tables: &[DividedTable]) -> Result<Catalogue, Refusal> {
    if tables.len() > MAX_TABLES {
        return Err(load_refusal(MAX_TABLES, 0, LoadFaultKind::TooManyTables));
    }
    let mut schemas = Vec::with_capacity(alloc, tables.len())?;
    for table in tables {
        let name = table.name.try_copy()?;
        let columns = List::of(copy_columns(alloc, &table.columns)?);
        schemas
            .push(Schema { name, columns })
            .map_err(AllocError::from)?;
    }
    if schemas.len() > MAX_TABLES {
        return Err(load_refusal(MAX_TABLES, 0, LoadFaultKind::TooManyTables));
    }
    Ok(Catalogue {
        tables: List::of(schemas),
    })
}

fn plan_of(
    alloc: Global,
    catalogue: &Catalogue,
    statement: &[u8],
    form: Form,
) -> Result<Plan, AnswerFault> {
    let statement = read(alloc, statement)?;
    Ok(plan(alloc, catalogue, &statement, form)?)
}

// Why the tables of the plan cannot be divided.
fn reason_of(plan: &Plan) -> &'static str {
    match plan.left.outputs.get() {
        [Output::Column(_), ..] => {
            "cannot divide the tables: none has a column that is equal to the first output"
        }
        _ if plan.right.is_none() && plan.left.group.get().is_empty() => {
            "cannot divide the tables: no column links the sources"
        }
        _ => "cannot divide the tables: the first output is a count or a sum",
    }
}

// The path of a part's folder.
fn part_folder(alloc: Global, folder: &str, part: u32) -> Result<String, AllocError> {
    format!(in alloc; "{folder}/{part}")
}

fn cannot_write(alloc: Global, path: &str) -> Refusal {
    match path.as_bytes().to_vec(alloc) {
        Ok(path) => Refusal::CannotWrite(path),
        Err(error) => Refusal::from(error),
    }
}

// Refuses a folder that has the parts of an earlier division: their answers could be merged instead of those of this one.
// The manifest is written last, so a division that failed leaves none.
fn check_folder<R: Files + AllocGlobal>(rt: &R, folder: &str) -> Result<(), Refusal> {
    let path = format!(in rt.alloc(); "{folder}/manifest.json")?;
    if fs::metadata(rt, path.as_str()).is_err() {
        return Ok(());
    }
    let text =
        b"cannot write the parts: the folder has those of an earlier division; remove it, or name another one";
    Err(Refusal::Split(text.to_vec(rt.alloc())?))
}

// Makes the folder of each part.
fn make_folders<R: Files + AllocGlobal>(rt: &R, parts: Parts<'_>) -> Result<(), Refusal> {
    for part in 0..parts.count {
        let folder = part_folder(rt.alloc(), parts.folder, part)?;
        if fs::create_dir_all(rt, folder.as_str()).is_err() {
            return Err(cannot_write(rt.alloc(), folder.as_str()));
        }
    }
    Ok(())
}

// The path of the table's file in a part.
fn table_path(
    alloc: Global,
    parts: Parts<'_>,
    part: u32,
    name: &str,
) -> Result<String, AllocError> {
    let folder = parts.folder;
    format!(in alloc; "{folder}/{part}/{name}.csv")
}

fn new_file<R: Files + AllocGlobal>(
    rt: &R,
    path: &str,
) -> Result<Sink<BufWriter<R::File>>, Refusal> {
    let Ok(file) = fs::create(rt, path) else {
        return Err(cannot_write(rt.alloc(), path));
    };
    match BufWriter::new(rt.alloc(), file) {
        Ok(writer) => Ok(Sink::over(writer)),
        Err(_) => Err(Refusal::OutOfMemory),
    }
}

// A new file of the table for each part.
fn table_sinks<R: Files + AllocGlobal>(
    rt: &R,
    parts: Parts<'_>,
    name: &str,
) -> Result<Vec<Sink<BufWriter<R::File>>>, Refusal> {
    let mut sinks = Vec::new(rt.alloc());
    for part in 0..parts.count {
        let path = table_path(rt.alloc(), parts, part, name)?;
        let sink = new_file(rt, path.as_str())?;
        sinks.push(sink).map_err(AllocError::from)?;
    }
    Ok(sinks)
}

fn division_refusal(alloc: Global, table: usize, path: &[u8], fault: DivisionFault) -> Refusal {
    match fault {
        DivisionFault::Input(InputFault::Read) => match path.to_vec(alloc) {
            Ok(path) => Refusal::CannotRead(path),
            Err(error) => Refusal::from(error),
        },
        DivisionFault::NoHeader | DivisionFault::NoColumn => {
            load_refusal(table, 1, LoadFaultKind::BadHeader)
        }
        DivisionFault::Header(kind) => load_refusal(table, 1, kind),
        DivisionFault::Record { number, kind } => load_refusal(table, number, kind),
        DivisionFault::Write => Refusal::WriteFailed,
        DivisionFault::Input(InputFault::OutOfMemory) | DivisionFault::OutOfMemory => {
            Refusal::OutOfMemory
        }
    }
}

// Divides all files of the table among the sinks.
fn divide_files<R: Files + AllocGlobal, W: Write>(
    rt: &R,
    form: Form,
    number: usize,
    table: &DividedTable,
    column: u32,
    sinks: &mut [Sink<W>],
    progress: &Progress,
) -> Result<(), Refusal> {
    let mut begins = true;
    for path in &table.paths {
        let reader = match open_file(rt, path) {
            Ok(file) => Counted {
                reader: file,
                progress,
            },
            Err(fault) => return Err(Refusal::of_file(fault, path.to_vec(rt.alloc())?)),
        };
        // There are 1 to 1,000 parts.
        if sinks.is_empty() || sinks.len() > 65536 {
            return Err(Refusal::BadCommandLine);
        }
        let division = Division {
            column,
            form,
            begins,
        };
        if let Err(fault) = divide(rt.alloc(), division, reader, sinks) {
            return Err(division_refusal(rt.alloc(), number, path, fault));
        }
        begins = false;
    }
    Ok(())
}

fn flush_all<W: Write>(sinks: &mut Vec<Sink<W>>) -> Result<(), Refusal> {
    for sink in sinks.iter_mut() {
        if sink.flush().is_err() {
            return Err(Refusal::WriteFailed);
        }
    }
    Ok(())
}

// Divides a table by the column.
fn divide_table<R: Files + AllocGlobal>(
    rt: &R,
    parts: Parts<'_>,
    number: usize,
    table: &DividedTable,
    column: u32,
    progress: &Progress,
) -> Result<(), Refusal> {
    let name = name_text(rt.alloc(), &table.name)?;
    let mut sinks = table_sinks(rt, parts, name.as_str())?;
    divide_files(rt, parts.form, number, table, column, &mut sinks, progress)?;
    flush_all(&mut sinks)
}

// One file with all rows of a table that is whole in each part, if it has several files; else the path of its file.
fn whole_path<R: Files + AllocGlobal>(
    rt: &R,
    parts: Parts<'_>,
    number: usize,
    table: &DividedTable,
    progress: &Progress,
) -> Result<Vec<u8>, Refusal> {
    if let [path] = table.paths.as_slice() {
        return Ok(path.to_vec(rt.alloc())?);
    }
    let folder = parts.folder;
    let name = name_text(rt.alloc(), &table.name)?;
    let path = format!(in rt.alloc(); "{folder}/{name}.csv")?;
    let mut sinks = Vec::new(rt.alloc());
    sinks
        .push(new_file(rt, path.as_str())?)
        .map_err(AllocError::from)?;
    divide_files(rt, parts.form, number, table, 0, &mut sinks, progress)?;
    flush_all(&mut sinks)?;
    Ok(path.as_bytes().to_vec(rt.alloc())?)
}

// The column by which the table with this number is divided, if it is.
fn column_of(split: &Split, number: usize) -> Option<u32> {
    split.columns.get(number).copied().unwrap_or(None)
}

// Writes the files of all tables. The result has the path of each table that is whole, and an empty one of the others.
fn write_tables<R: Files + AllocGlobal>(
    rt: &R,
    parts: Parts<'_>,
    tables: &[DividedTable],
    split: &Split,
    progress: &Progress,
) -> Result<Vec<Vec<u8>>, Refusal> {
    let mut paths = Vec::new(rt.alloc());
    for (number, table) in tables.iter().enumerate() {
        let path = match column_of(split, number) {
            Some(column) => {
                divide_table(rt, parts, number, table, column, progress)?;
                Vec::new(rt.alloc())
            }
            None => whole_path(rt, parts, number, table, progress)?,
        };
        paths.push(path).map_err(AllocError::from)?;
    }
    Ok(paths)
}

// The arguments of `tq ask` for a part, each with a byte 0 after it but for the last.
fn arguments(
    alloc: Global,
    parts: Parts<'_>,
    part: u32,
    tables: &[DividedTable],
    paths: &[Vec<u8>],
    statement: &[u8],
) -> Result<Vec<u8>, AllocError> {
    let mut text = Vec::new(alloc);
    for (table, path) in tables.iter().zip(paths) {
        text.extend_from_slice(b"--table\0")?;
        text.extend_from_slice(table.name.bytes())?;
        text.extend_from_slice(b"=")?;
        if path.is_empty() {
            let name = name_text(alloc, &table.name)?;
            let path = table_path(alloc, parts, part, name.as_str())?;
            text.extend_from_slice(path.as_bytes())?;
        } else {
            text.extend_from_slice(path)?;
        }
        text.extend_from_slice(b"\0")?;
    }
    if matches!(parts.form, Form::Dates) {
        text.extend_from_slice(b"--dates\0")?;
    }
    text.extend_from_slice(b"--\0")?;
    text.extend_from_slice(statement)?;
    Ok(text)
}

// Writes the arguments of each part.
fn write_arguments<R: Files + AllocGlobal>(
    rt: &R,
    parts: Parts<'_>,
    tables: &[DividedTable],
    paths: &[Vec<u8>],
    statement: &[u8],
) -> Result<(), Refusal> {
    for part in 0..parts.count {
        let folder = part_folder(rt.alloc(), parts.folder, part)?;
        let path = format!(in rt.alloc(); "{folder}/args")?;
        let text = arguments(rt.alloc(), parts, part, tables, paths, statement)?;
        if fs::write(rt, path.as_str(), text.as_slice()).is_err() {
            return Err(cannot_write(rt.alloc(), path.as_str()));
        }
    }
    Ok(())
}

// What the manifest says of each table.
fn manifest_tables(
    alloc: Global,
    tables: &[DividedTable],
    split: &Split,
) -> Result<Vec<ManifestTable>, AllocError> {
    let mut all = Vec::new(alloc);
    for (number, table) in tables.iter().enumerate() {
        let column = column_of(split, number).and_then(|column| table.columns.get(column as usize));
        let divided_by = match column {
            Some(column) => Some(name_text(alloc, &column.name)?),
            None => None,
        };
        let name = name_text(alloc, &table.name)?;
        all.push(ManifestTable { name, divided_by })
            .map_err(AllocError::from)?;
    }
    Ok(all)
}

// Writes the manifest.
fn write_manifest<R: Files + AllocGlobal>(
    rt: &R,
    parts: Parts<'_>,
    manifest: &Manifest,
) -> Result<(), Refusal> {
    let folder = parts.folder;
    let path = format!(in rt.alloc(); "{folder}/manifest.json")?;
    let Ok(text) = manifest_text(rt.alloc(), manifest) else {
        return Err(Refusal::OutOfMemory);
    };
    match fs::write(rt, path.as_str(), text.as_str()) {
        Ok(()) => Ok(()),
        Err(_) => Err(cannot_write(rt.alloc(), path.as_str())),
    }
}

// One line for each table, with the column that divides it, and one more if answers are added.
fn explanation(alloc: Global, manifest: &Manifest) -> Result<Vec<u8>, AllocError> {
    let mut text = Vec::new(alloc);
    text.extend_from_slice(b"divided into ")?;
    text.extend_from_slice(Buffer::new().format(manifest.parts).as_bytes())?;
    text.extend_from_slice(b" parts:\n")?;
    for table in &manifest.tables {
        text.extend_from_slice(b"  ")?;
        text.extend_from_slice(table.name.as_bytes())?;
        match &table.divided_by {
            Some(column) => {
                text.extend_from_slice(b" by ")?;
                text.extend_from_slice(column.as_bytes())?;
            }
            None => text.extend_from_slice(b" is whole in each part")?,
        }
        text.extend_from_slice(b"\n")?;
    }
    if manifest.groups.is_some() {
        text.extend_from_slice(b"counts and sums of equal groups are added\n")?;
    }
    Ok(text)
}

// The tables of a statement, its plan, and how they are divided.
#[derive(Drop)]
struct PlannedSplit {
    tables: Vec<DividedTable>,
    catalogue: Catalogue,
    plan: Plan,
    split: Split,
}

// How the plan's tables are divided, or why they cannot be.
fn split_of(alloc: Global, plan: &Plan, tables: usize) -> Result<Split, Refusal> {
    match split_plan(alloc, plan, tables)? {
        Some(split) => Ok(split),
        None => Err(Refusal::Split(reason_of(plan).as_bytes().to_vec(alloc)?)),
    }
}

// Plans how the tables of the options are divided for the statement.
fn planned_split<R: Files + AllocGlobal>(
    rt: &R,
    options: Vec<TableOption>,
    statement: &[u8],
    form: Form,
) -> Result<PlannedSplit, Refusal> {
    let tables = read_files(rt, options)?;
    let catalogue = catalogue_of(rt.alloc(), &tables)?;
    let plan = match plan_of(rt.alloc(), &catalogue, statement, form) {
        Ok(plan) => plan,
        Err(fault) => return Err(Refusal::from(fault)),
    };
    let split = split_of(rt.alloc(), &plan, tables.len())?;
    Ok(PlannedSplit {
        tables,
        catalogue,
        plan,
        split,
    })
}

// The manifest of the parts.
fn manifest_of(
    alloc: Global,
    parts: Parts<'_>,
    planned: &PlannedSplit,
    statement: &[u8],
) -> Result<Manifest, AllocError> {
    // A statement that has a plan is UTF-8.
    let statement = String::from_str(alloc, str::from_utf8(statement).unwrap_or(""))?;
    let tables = manifest_tables(alloc, &planned.tables, &planned.split)?;
    let columns = answer_columns(alloc, &planned.catalogue, &planned.plan)?;
    let columns = manifest_columns(alloc, &columns)?;
    Ok(Manifest {
        version: MANIFEST_VERSION,
        statement,
        dates: matches!(parts.form, Form::Dates),
        parts: parts.count,
        tables,
        columns,
        combine: String::from_str(alloc, combine_word(planned.split.combine))?,
        groups: combine_groups(planned.split.combine),
    })
}

// Writes the folders, files and arguments of all parts, and the manifest.
fn write_parts<R: Files + AllocGlobal>(
    rt: &R,
    parts: Parts<'_>,
    planned: &PlannedSplit,
    statement: &[u8],
    progress: &Progress,
) -> Result<Manifest, Refusal> {
    check_folder(rt, parts.folder)?;
    make_folders(rt, parts)?;
    let paths = write_tables(rt, parts, &planned.tables, &planned.split, progress)?;
    write_arguments(rt, parts, &planned.tables, &paths, statement)?;
    let manifest = manifest_of(rt.alloc(), parts, planned, statement)?;
    write_manifest(rt, parts, &manifest)?;
    Ok(manifest)
}

/// Divides the tables of a statement: writes a folder for each part, with the files of tables that are divided and the
/// arguments of `tq ask`, and a manifest. With `explain`, prints on standard error which column divides each table.
pub fn split_tables<R: Files + AllocGlobal + Input + Wait>(
    rt: &R,
    request: SplitRequest,
    progress: &Progress,
) -> Result<(), Diagnostic> {
    let SplitRequest {
        tables,
        parts: count,
        form,
        statement,
        statement_file,
        output,
        explain,
    } = request;
    let statement = statement_or_file(rt, statement, statement_file, explain, progress)?;
    let Ok(folder) = str::from_utf8(&output) else {
        return Err(Diagnostic::from(Refusal::CannotWrite(output)));
    };
    let parts = Parts {
        folder,
        count,
        form,
    };
    let planned = planned_split(rt, tables, &statement, form)?;
    let manifest = write_parts(rt, parts, &planned, &statement, progress)?;
    progress.end(rt);
    if explain {
        progress.print(rt, &explanation(rt.alloc(), &manifest)?);
    }
    Ok(())
}
