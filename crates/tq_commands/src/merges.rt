// The answers over the parts of tables, merged.

use crate::files::{open_file, read_path};
use crate::progress::Progress;
use crate::report::{Diagnostic, Refusal};
use itoa::Buffer;
use std::alloc::{AllocError, Global};
use std::io::{self, Input};
use std::rt::Files;
use std::str;
use std::sync::Wait;
use tq_cli::MergeRequest;
use tq_engine::load_name;
use tq_split::{
    AnswerFaultKind, Manifest, ManifestFault, MergeFault, answer_layout, merge_answers,
    read_manifest,
};
use tq_table::Sink;

// The manifest in the folder.
fn manifest_in<R: Files + AllocGlobal + Input>(
    rt: &R,
    folder: &str,
    progress: &Progress,
) -> Result<Manifest, Refusal> {
    let path = format!(in rt.alloc(); "{folder}/manifest.json")?;
    let bytes = match read_path(rt, path.as_bytes(), progress) {
        Ok(bytes) => bytes,
        Err(fault) => {
            return Err(Refusal::of_file(fault, path.as_bytes().to_vec(rt.alloc())?));
        }
    };
    match read_manifest(rt.alloc(), &bytes) {
        Ok(manifest) => Ok(manifest),
        Err(fault) => Err(manifest_refusal(rt.alloc(), fault)),
    }
}

fn manifest_refusal(alloc: Global, fault: ManifestFault) -> Refusal {
    match fault {
        ManifestFault::Invalid => match b"the manifest is invalid".to_vec(alloc) {
            Ok(text) => Refusal::Merge(text),
            Err(error) => Refusal::from(error),
        },
        ManifestFault::OutOfMemory => Refusal::OutOfMemory,
    }
}

// The files with the answers over all parts.
fn open_answers<R: Files + AllocGlobal>(
    rt: &R,
    folder: &str,
    parts: u32,
) -> Result<Vec<R::File>, Refusal> {
    let mut files = Vec::new(rt.alloc());
    for part in 0..parts {
        let path = format!(in rt.alloc(); "{folder}/{part}/answer.csv")?;
        match open_file(rt, path.as_bytes()) {
            Ok(file) => files.push(file).map_err(AllocError::from)?,
            Err(fault) => {
                return Err(Refusal::of_file(fault, path.as_bytes().to_vec(rt.alloc())?));
            }
        }
    }
    Ok(files)
}

// A text with the part and the record at which an answer is invalid, and why.
fn answer_fault_text(
    alloc: Global,
    part: u32,
    number: u64,
    kind: AnswerFaultKind,
) -> Result<Vec<u8>, AllocError> {
    let mut text = Vec::new(alloc);
    text.extend_from_slice(b"answer of part ")?;
    text.extend_from_slice(Buffer::new().format(part).as_bytes())?;
    text.extend_from_slice(b", record ")?;
    text.extend_from_slice(Buffer::new().format(number).as_bytes())?;
    text.extend_from_slice(match kind {
        AnswerFaultKind::Read => b": it cannot be read".as_slice(),
        AnswerFaultKind::Header => b": the header is not that of the answer".as_slice(),
        AnswerFaultKind::Record(_) => b": invalid row: ".as_slice(),
        AnswerFaultKind::Order => b": it is not in order".as_slice(),
    })?;
    if let AnswerFaultKind::Record(kind) = kind {
        text.extend_from_slice(load_name(kind).as_bytes())?;
    }
    Ok(text)
}

fn merge_refusal(alloc: Global, fault: MergeFault) -> Refusal {
    match fault {
        MergeFault::Answer { part, number, kind } => {
            match answer_fault_text(alloc, part, number, kind) {
                Ok(text) => Refusal::Merge(text),
                Err(error) => Refusal::from(error),
            }
        }
        MergeFault::Number => {
            match b"a count or a sum of an answer has more than 64 signed bits".to_vec(alloc) {
                Ok(text) => Refusal::Merge(text),
                Err(error) => Refusal::from(error),
            }
        }
        MergeFault::Write => Refusal::WriteFailed,
        MergeFault::OutOfMemory => Refusal::OutOfMemory,
    }
}

/// Merges the answers in the folders of all parts, and writes the answer over the whole tables to standard output.
pub fn merge_parts<R: Files + AllocGlobal + Input + Print + Wait>(
    rt: &R,
    request: MergeRequest,
    progress: &Progress,
) -> Result<(), Diagnostic> {
    let MergeRequest { folder } = request;
    let Ok(folder) = str::from_utf8(&folder) else {
        return Err(Diagnostic::from(Refusal::CannotRead(folder)));
    };
    let manifest = manifest_in(rt, folder, progress)?;
    let layout = match answer_layout(rt.alloc(), &manifest) {
        Ok(layout) => layout,
        Err(fault) => return Err(Diagnostic::from(manifest_refusal(rt.alloc(), fault))),
    };
    let answers = open_answers(rt, folder, manifest.parts)?;
    progress.end(rt);
    let mut sink = Sink::over(io::writer(rt));
    match merge_answers(rt.alloc(), &layout, answers, &mut sink) {
        Ok(_) => Ok(()),
        Err(fault) => Err(Diagnostic::from(merge_refusal(rt.alloc(), fault))),
    }
}
