// A whole file: its header, then its records.

ghost use Rattle.std.specs.Prelude.{◌≡◌, ℕ, IfErr, IfOk, List, Some};
ghost use Rattle.csv.specs.Records.{fields_of};
ghost use Rattle.tq_import.specs.Files.{AreKindsOf, IsFileFault, IsImportOf, IsSeparatedFault, IsSeparatedImportOf, records_in};

use crate::encoding::Decoder;
use crate::fault::{ImportFault, InputFault};
use crate::importing::import_records;
use crate::kinds::find_kinds;
use crate::lines::{Recorder, first_line};
use crate::options::ImportOptions;
use crate::part::{Imported, Rejects, Separated};
use crate::plan::{Conversion, Plan};
use crate::planning::{PlanFault, plan_import};
use crate::reading::{next_record, record_reader};
use crate::separating::{Separation, separate_records};
use csv::ByteRecord;
use std::alloc::Global;
use std::io::{Read, Write};
use tq_table::Sink;

/// Why a file was not imported: reading failed, it has no header, the header does not suit the options, or its records
/// have a fault or could not be written.
#[derive(Drop, Debug)]
pub enum FileFault<'a> {
    Input(InputFault),
    NoHeader,
    Plan(PlanFault),
    Records(Plan<'a>, ImportFault),
}

/// The header of a file, the record that was read last, and the line on which what is invalid begins: the header or
/// that record.
#[derive(Drop)]
pub struct ReadRecords {
    pub header: ByteRecord,
    pub last: ByteRecord,
    pub line: u64,
}

impl ReadRecords {
    pub fn new(alloc: Global) -> ReadRecords {
        ReadRecords {
            header: ByteRecord::new(alloc),
            last: ByteRecord::new(alloc),
            line: 0,
        }
    }
}

/// The kinds that the values of a file suggest for its columns, one for each field of the header.
pub fn find_file_kinds<R: Read + Drop>(
    alloc: Global,
    options: &ImportOptions,
    input: R,
) -> Result<Vec<Conversion>, InputFault>
    ensures { (text : List ℕ) → R.remaining input ≡ Some text
        → IfOk result (λ kinds. AreKindsOf options.now.numbers (records_in options.now text) kinds.items) }
{
    let decoder = Decoder::over(input, options.encoding);
    let mut reader = record_reader(alloc, decoder, options.delimiter);
    let mut header = ByteRecord::new(alloc);
    if !next_record(&mut reader, &mut header)? {
        return Ok(Vec::new(alloc));
    }
    find_kinds(alloc, options.numbers, header.len(), &mut reader)
}

/// Imports a file: writes the table file of its records. `found` has the kinds of columns that are not given. After a
/// fault, `seen` has the header and the invalid record.
pub fn import<'a, R: Read + Drop, W: Write>(
    alloc: Global,
    options: &'a ImportOptions,
    found: &[Conversion],
    input: R,
    seen: &mut ReadRecords,
    sink: &mut Sink<W>,
) -> Result<(Plan<'a>, Imported), FileFault<'a>>
    ensures ok { (text : List ℕ) → R.remaining input ≡ Some text
        → IfOk result (λ done. IsImportOf options.entry.now (records_in options.entry.now text) found.now (W.contents sink.old.writer) (W.contents sink.new.writer) done.0 done.1) }
    ensures fault { (text : List ℕ) → R.remaining input ≡ Some text
        → IfErr result (IsFileFault (records_in options.entry.now text) (fields_of seen.new.last)) }
{
    let decoder = Decoder::over(input, options.encoding);
    let mut reader = record_reader(alloc, Recorder::over(decoder), options.delimiter);
    let has_header = match next_record(&mut reader, &mut seen.header) {
        Ok(found) => found,
        Err(fault) => return Err(FileFault::Input(fault)),
    };
    if !has_header {
        return Err(FileFault::NoHeader);
    }
    seen.line = first_line(&reader, &seen.header);
    let plan = match plan_import(alloc, options, &seen.header, found) {
        Ok(plan) => plan,
        Err(fault) => return Err(FileFault::Plan(fault)),
    };
    match import_records(alloc, &plan, &mut reader, &mut seen.last, sink) {
        Ok(imported) => Ok((plan, imported)),
        Err(fault) => {
            seen.line = first_line(&reader, &seen.last);
            Err(FileFault::Records(plan, fault))
        }
    }
}

/// How the valid records of a file are imported: the options, the kinds of columns that they do not give, and what is
/// written about invalid records.
#[derive(Clone, Copy)]
pub struct ValidImport<'a, 'f> {
    pub options: &'a ImportOptions,
    pub found: &'f [Conversion],
    pub rejects: Rejects<'f>,
}

/// Imports the valid records of a file: writes their table file to `sink`, and rows or messages about the invalid ones
/// to `rejected`. After a fault of the header, `seen` has it.
pub fn import_valid<'a, R: Read + Drop, W: Write, V: Write>(
    alloc: Global,
    job: ValidImport<'a, '_>,
    input: R,
    seen: &mut ReadRecords,
    sink: &mut Sink<W>,
    rejected: &mut Sink<V>,
) -> Result<(Plan<'a>, Separated), FileFault<'a>>
    ensures ok { (text : List ℕ) → R.remaining input ≡ Some text
        → IfOk result (λ done. IsSeparatedImportOf job.entry.options.now job.entry.rejects (records_in job.entry.options.now text) job.entry.found.now (W.contents sink.old.writer) (W.contents sink.new.writer) (V.contents rejected.old.writer) (V.contents rejected.new.writer) done.0 done.1) }
    ensures fault { (text : List ℕ) → R.remaining input ≡ Some text
        → IfErr result (IsSeparatedFault (records_in job.entry.options.now text)) }
{
    let decoder = Decoder::over(input, job.options.encoding);
    let mut reader = record_reader(alloc, Recorder::over(decoder), job.options.delimiter);
    let has_header = match next_record(&mut reader, &mut seen.header) {
        Ok(found) => found,
        Err(fault) => return Err(FileFault::Input(fault)),
    };
    if !has_header {
        return Err(FileFault::NoHeader);
    }
    seen.line = first_line(&reader, &seen.header);
    let plan = match plan_import(alloc, job.options, &seen.header, job.found) {
        Ok(plan) => plan,
        Err(fault) => return Err(FileFault::Plan(fault)),
    };
    let separation = Separation {
        plan: &plan,
        rejects: job.rejects,
        header: &seen.header,
    };
    match separate_records(
        alloc,
        &separation,
        &mut reader,
        &mut seen.last,
        sink,
        rejected,
    ) {
        Ok(separated) => Ok((plan, separated)),
        Err(fault) => Err(FileFault::Records(plan, fault)),
    }
}
