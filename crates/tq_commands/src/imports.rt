// Imports of files.

use crate::files::open_file;
use crate::part_file::PartFile;
use crate::progress::{Counted, ErrorLines, Progress};
use crate::report::{Diagnostic, Refusal};
use crate::retained::is_read_once;
use itoa::Buffer;
use std::alloc::{AllocError, Global};
use std::io::{self, Input, Read, Write};
use std::rt::Files;
use std::sync::Wait;
use tq_cli::ImportRequest;
use tq_import::{
    Conversion, FileFault, ImportFault, ImportOptions, InputFault, Plan, PlanFaultKind,
    ReadRecords, Rejects, Separated, ValidImport, WordFault, fault_text, find_file_kinds, import,
    import_text, import_valid, read_words,
};
use tq_shown::push_printable;
use tq_table::Sink;

// The refusal for an option with an invalid value.
fn refused_words(alloc: Global, fault: WordFault, explain: bool) -> Diagnostic {
    let expected = match fault {
        WordFault::OutOfMemory => return Diagnostic::from(AllocError),
        WordFault::Invalid(expected) => expected,
    };
    let reason = format!(in alloc; "error: {expected}\n\nFor more information, try '--help'.\n");
    Diagnostic {
        refusal: Refusal::BadCommandLine,
        detail: match reason {
            Ok(reason) if explain => Some(reason.into_bytes()),
            _ => None,
        },
    }
}

// The path and what is wrong with the file.
fn text_about(
    alloc: Global,
    path: &[u8],
    fault: &FileFault<'_>,
    seen: &ReadRecords,
) -> Result<Vec<u8>, AllocError> {
    let mut text = path.to_vec(alloc)?;
    text.extend_from_slice(b", ")?;
    text.extend_from_slice(&fault_text(alloc, fault, seen)?)?;
    Ok(text)
}

// The refusal for the fault of a file.
fn refused_file(alloc: Global, path: &[u8], fault: &FileFault<'_>, seen: &ReadRecords) -> Refusal {
    match fault {
        FileFault::Input(InputFault::Read) | FileFault::Records(_, ImportFault::Read) => {
            Refusal::ReadFailed
        }
        FileFault::Records(_, ImportFault::Write) => Refusal::WriteFailed,
        FileFault::Input(InputFault::OutOfMemory)
        | FileFault::Records(_, ImportFault::OutOfMemory) => Refusal::OutOfMemory,
        FileFault::Plan(fault) if matches!(fault.kind, PlanFaultKind::OutOfMemory) => {
            Refusal::OutOfMemory
        }
        FileFault::NoHeader | FileFault::Plan(_) | FileFault::Records(_, ImportFault::Record(_)) =>
            {
                match text_about(alloc, path, fault, seen) {
                    Ok(text) => Refusal::Import(text),
                    Err(error) => Refusal::from(error),
                }
            }
    }
}

// What is imported: a file's path, the options, and the kinds that were found. If the first invalid record does not
// stop the import, `rejects` says what is written about invalid records, and the last path is that of their file or
// empty.
#[derive(Clone, Copy)]
struct Job<'a> {
    path: &'a [u8],
    options: &'a ImportOptions,
    found: &'a [Conversion],
    rejects: Option<Rejects<'a>>,
    rejected: &'a [u8],
}

fn push_number(text: &mut Vec<u8>, number: u64) -> Result<(), AllocError> {
    text.extend_from_slice(Buffer::new().format(number).as_bytes())
}

// How many records of the file are invalid.
fn invalid_text(alloc: Global, path: &[u8], separated: Separated) -> Result<Vec<u8>, AllocError> {
    let Separated { rows, invalid } = separated;
    let mut text = path.to_vec(alloc)?;
    text.extend_from_slice(b": ")?;
    push_number(&mut text, invalid)?;
    text.extend_from_slice(b" of ")?;
    push_number(&mut text, rows.saturating_add(invalid))?;
    text.extend_from_slice(if invalid == 1 {
        b" records is invalid"
    } else {
        b" records are invalid"
    })?;
    Ok(text)
}

// What an import of the valid records did.
fn separated_text(
    alloc: Global,
    job: &Job<'_>,
    plan: &Plan<'_>,
    separated: Separated,
    seen: &ReadRecords,
) -> Result<Vec<u8>, AllocError> {
    let mut text = import_text(alloc, plan, separated.rows, seen)?;
    if job.rejected.is_empty() {
        return Ok(text);
    }
    text.extend_from_slice(b"  ")?;
    push_number(&mut text, separated.invalid)?;
    text.extend_from_slice(if separated.invalid == 1 {
        b" invalid record in "
    } else {
        b" invalid records in "
    })?;
    push_printable(&mut text, job.rejected)?;
    text.extend_from_slice(b"\n")?;
    Ok(text)
}

// Imports the valid records of the input, and returns what was done. Listed records are a refusal.
fn import_separated<I: Read + Drop, W: Write + Drop, V: Write + Drop>(
    alloc: Global,
    job: &Job<'_>,
    rejects: Rejects<'_>,
    input: I,
    writer: W,
    rejected: V,
) -> Result<Vec<u8>, Refusal> {
    let mut seen = ReadRecords::new(alloc);
    let mut sink = Sink::over(writer);
    let mut others = Sink::over(rejected);
    let valid = ValidImport {
        options: job.options,
        found: job.found,
        rejects,
    };
    match import_valid(alloc, valid, input, &mut seen, &mut sink, &mut others) {
        Ok((plan, separated)) => {
            if sink.flush().is_err() || others.flush().is_err() {
                return Err(Refusal::WriteFailed);
            }
            if job.rejected.is_empty() && separated.invalid > 0 {
                return Err(Refusal::Import(invalid_text(alloc, job.path, separated)?));
            }
            Ok(separated_text(alloc, job, &plan, separated, &seen)?)
        }
        Err(fault) => Err(refused_file(alloc, job.path, &fault, &seen)),
    }
}

// Imports the input, and returns what was done.
fn import_input<I: Read + Drop, W: Write + Drop, V: Write + Drop>(
    alloc: Global,
    job: &Job<'_>,
    input: I,
    writer: W,
    rejected: V,
) -> Result<Vec<u8>, Refusal> {
    if let Some(rejects) = job.rejects {
        return import_separated(alloc, job, rejects, input, writer, rejected);
    }
    let mut seen = ReadRecords::new(alloc);
    let mut sink = Sink::over(writer);
    match import(alloc, job.options, job.found, input, &mut seen, &mut sink) {
        Ok((plan, imported)) => {
            if sink.flush().is_err() {
                return Err(Refusal::WriteFailed);
            }
            Ok(import_text(alloc, &plan, imported.rows, &seen)?)
        }
        Err(fault) => Err(refused_file(alloc, job.path, &fault, &seen)),
    }
}

// Imports the file of the job, or standard input.
fn import_path<R: Files + AllocGlobal + Input, W: Write + Drop, V: Write + Drop>(
    rt: &R,
    job: &Job<'_>,
    writer: W,
    rejected: V,
    progress: &Progress,
) -> Result<Vec<u8>, Refusal> {
    if job.path == b"-".as_slice() {
        let reader = rt.reader();
        return import_input(
            rt.alloc(),
            job,
            Counted { reader, progress },
            writer,
            rejected,
        );
    }
    match open_file(rt, job.path) {
        Ok(reader) => {
            import_input(
                rt.alloc(),
                job,
                Counted { reader, progress },
                writer,
                rejected,
            )
        }
        Err(fault) => Err(Refusal::of_file(fault, job.path.to_vec(rt.alloc())?)),
    }
}

// Imports the file of the job. Invalid records go into their file, or are listed on standard error.
fn import_rejecting<R: Files + AllocGlobal + Input + Wait, W: Write + Drop>(
    rt: &R,
    job: &Job<'_>,
    writer: W,
    progress: &Progress,
) -> Result<Vec<u8>, Refusal> {
    if job.rejected.is_empty() {
        return import_path(rt, job, writer, ErrorLines { rt, progress }, progress);
    }
    let (part, file) = PartFile::create(rt, job.rejected)?;
    let done = import_path(rt, job, writer, file, progress);
    part.finish(rt, done.is_ok())?;
    done
}

// Imports the file to standard output. A file that can be read again is checked before, so that nothing is written if an
// invalid record stops the import.
fn import_to_output<R: Files + AllocGlobal + Input + Print + Wait>(
    rt: &R,
    job: &Job<'_>,
    progress: &Progress,
) -> Result<Vec<u8>, Refusal> {
    if job.rejected.is_empty() && !is_read_once(rt, job.path) {
        import_rejecting(rt, job, io::sink(), progress)?;
    }
    import_rejecting(rt, job, io::writer(rt), progress)
}

// Imports the file into a new file at the path.
fn import_to_file<R: Files + AllocGlobal + Input + Wait>(
    rt: &R,
    job: &Job<'_>,
    output: &[u8],
    progress: &Progress,
) -> Result<Vec<u8>, Refusal> {
    let (part, file) = PartFile::create(rt, output)?;
    let done = import_rejecting(rt, job, file, progress);
    part.finish(rt, done.is_ok())?;
    done
}

// The kinds of the columns of a file; none if it can be read only once.
fn kinds_in<R: Files + AllocGlobal>(
    rt: &R,
    path: &[u8],
    options: &ImportOptions,
    progress: &Progress,
) -> Result<Vec<Conversion>, Refusal> {
    if is_read_once(rt, path) {
        return Ok(Vec::new(rt.alloc()));
    }
    let reader = match open_file(rt, path) {
        Ok(reader) => reader,
        Err(fault) => return Err(Refusal::of_file(fault, path.to_vec(rt.alloc())?)),
    };
    match find_file_kinds(rt.alloc(), options, Counted { reader, progress }) {
        Ok(kinds) => Ok(kinds),
        Err(InputFault::OutOfMemory) => Err(Refusal::OutOfMemory),
        Err(InputFault::Read) => Err(Refusal::CannotRead(path.to_vec(rt.alloc())?)),
    }
}

// Fails if the path of the file for invalid records cannot be used.
fn check_rejected(path: &[u8], output: &[u8], all: bool, rejected: &[u8]) -> Result<(), WordFault> {
    if rejected.is_empty() {
        return Ok(());
    }
    if all {
        return Err(WordFault::Invalid("give --all or --skip-invalid, not both"));
    }
    if rejected == path || rejected == output {
        return Err(WordFault::Invalid("--skip-invalid takes a path of its own"));
    }
    Ok(())
}

// What is written about invalid records; `None` if the first one stops the import.
fn rejects_of<'a>(
    path: &'a [u8],
    all: bool,
    rejected: &[u8],
    delimiter: u8,
) -> Option<Rejects<'a>> {
    if all {
        return Some(Rejects::Messages(path));
    }
    if rejected.is_empty() {
        None
    } else {
        Some(Rejects::Records(delimiter))
    }
}

/// Imports a file: writes the table file, and says on standard error what was done. A file that can be read again is
/// first read for the kinds of columns.
pub fn import_file<R: Files + AllocGlobal + Input + Print + Wait>(
    rt: &R,
    request: ImportRequest,
    interactive: bool,
    progress: &Progress,
) -> Result<(), Diagnostic> {
    let ImportRequest {
        path,
        output,
        all,
        rejected,
        explain,
        words,
    } = request;
    let explain = explain || interactive;
    if let Err(fault) = check_rejected(&path, &output, all, &rejected) {
        return Err(refused_words(rt.alloc(), fault, explain));
    }
    let options = match read_words(rt.alloc(), words) {
        Ok(options) => options,
        Err(fault) => return Err(refused_words(rt.alloc(), fault, explain)),
    };
    let found = kinds_in(rt, &path, &options, progress)?;
    let job = Job {
        path: &path,
        options: &options,
        found: &found,
        rejects: rejects_of(&path, all, &rejected, options.delimiter),
        rejected: &rejected,
    };
    let done = if output.is_empty() {
        import_to_output(rt, &job, progress)?
    } else {
        import_to_file(rt, &job, &output, progress)?
    };
    progress.end(rt);
    progress.print(rt, &done);
    Ok(())
}
