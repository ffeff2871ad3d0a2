// Checks of tables: summaries, or lists of invalid records.

use crate::files::{paths_of, read_path, read_table_files};
use crate::output::print_bytes;
use crate::progress::Progress;
use crate::references::{read_references, refused_reference};
use crate::refusals::{RefusalOptions, header_copies, refused};
use crate::report::{Diagnostic, Refusal};
use crate::retained::{RetainedFile, is_listed, retain_files};
use std::alloc::AllocError;
use std::io::Input;
use std::os::unix::fs::FileExt;
use std::rt::Files;
use std::sync::Wait;
use std::thread::Threads;
use tq_base::Form;
use tq_check::{CheckFault, CheckOptions, KeyChecks, check};
use tq_cli::CheckRequest;
use tq_diagnostics::explain_records;
use tq_engine::{AnswerFault, FileFault};

// Descriptions of the invalid records of a file. The file is read again if its bytes were not retained; the result is
// empty if that fails.
fn records_at_fault<R: Files + AllocGlobal + Input>(
    rt: &R,
    retained: &RetainedFile,
    form: Form,
    progress: &Progress,
) -> Result<Vec<u8>, AllocError> {
    if let Some(bytes) = &retained.bytes {
        return explain_records(rt.alloc(), &retained.name, bytes, form);
    }
    match read_path(rt, &retained.path, progress) {
        Ok(bytes) => explain_records(rt.alloc(), &retained.name, &bytes, form),
        Err(FileFault::OutOfMemory) => Err(AllocError),
        Err(FileFault::Read | FileFault::TooLarge) => Ok(Vec::new(rt.alloc())),
    }
}

// Descriptions of the invalid records of all files, one file after the other.
fn list_faults<R: Files + AllocGlobal + Input>(
    rt: &R,
    files: &[RetainedFile],
    form: Form,
    progress: &Progress,
) -> Result<Vec<u8>, AllocError> {
    let mut list = Vec::new(rt.alloc());
    'files: for retained in files {
        list.extend_from_slice(&records_at_fault(rt, retained, form, progress)?)?;
    }
    Ok(list)
}

/// Prints a summary of the tables and of references between them on standard output after all files are read. If records
/// are invalid, it prints the complete list of them instead. The refusal of a file has details at a terminal or with
/// `--explain`.
pub fn check_tables<
    R: Files<File: FileExt + Send + Sync, Dir: Send>
        + AllocGlobal
        + Input<Reader: Send>
        + Print
        + Threads
        + Wait
        + Sync,
>(rt: &R, request: CheckRequest, interactive: bool, progress: &Progress) -> Result<(), Diagnostic> {
    let CheckRequest {
        tables: options,
        workers,
        form,
        overlaps,
        gaps,
        references,
        explain,
    } = request;
    let explain = explain || interactive;
    let keys = KeyChecks { overlaps, gaps };
    let names = read_references(rt.alloc(), &references, explain)?;
    let paths = paths_of(rt.alloc(), &options)?;
    let tables = read_table_files(rt, options, workers, explain, progress)?;
    let headers = header_copies(rt.alloc(), &tables, !names.is_empty());
    let retained = retain_files(rt, &tables, &paths)?;
    progress.load();
    let options = CheckOptions {
        workers,
        form,
        keys,
    };
    match check(rt, rt.alloc(), tables, &names, options) {
        Ok(text) => {
            progress.end(rt);
            Ok(print_bytes(rt, &text)?)
        }
        Err(CheckFault::Load(fault)) => {
            if is_listed(fault) {
                progress.end(rt);
                let list = list_faults(rt, &retained, form, progress)?;
                // If the list cannot be printed, the refusal's line is still printed.
                let _ = print_bytes(rt, &list);
            }
            let fault = AnswerFault::from(fault);
            let options = RefusalOptions { form, explain };
            Err(refused(rt, fault, b"", Some(retained), None, options, progress))
        }
        Err(CheckFault::Reference(refused)) => Err(Diagnostic::from(refused_reference(
            rt.alloc(),
            refused,
            &names,
            headers,
            form,
        ))),
        Err(CheckFault::OutOfMemory) => Err(Diagnostic::from(Refusal::OutOfMemory)),
    }
}
