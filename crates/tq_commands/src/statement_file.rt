// Statements in files.

use crate::files::read_path;
use crate::progress::Progress;
use crate::read_errors::reason;
use crate::report::{Diagnostic, Refusal};
use std::io::Input;
use std::rt::Files;
use tq_cli::{QuestionRequest, blank_comments};

// The statement in the file at the path, with blanks instead of comments.
fn read_statement<R: Files + AllocGlobal + Input>(
    rt: &R,
    path: Vec<u8>,
    explain: bool,
    progress: &Progress,
) -> Result<Vec<u8>, Diagnostic> {
    match read_path(rt, &path, progress) {
        Ok(bytes) => Ok(blank_comments(rt.alloc(), &bytes)?),
        Err(fault) => {
            let reason = reason(rt, &path);
            match Refusal::of_file(fault, path) {
                Refusal::CannotRead(path) if explain => {
                    Err(Diagnostic::of_unreadable(rt.alloc(), path, reason))
                }
                refusal => Err(Diagnostic::from(refusal)),
            }
        }
    }
}

/// The statement, or that of the file if its path is not empty. A refusal has a reason if `explain` is set.
pub fn statement_or_file<R: Files + AllocGlobal + Input>(
    rt: &R,
    statement: Vec<u8>,
    path: Vec<u8>,
    explain: bool,
    progress: &Progress,
) -> Result<Vec<u8>, Diagnostic> {
    if path.is_empty() {
        return Ok(statement);
    }
    read_statement(rt, path, explain, progress)
}

/// The question with the statement of its file, if it has one.
pub fn with_statement<R: Files + AllocGlobal + Input>(
    rt: &R,
    question: QuestionRequest,
    interactive: bool,
    progress: &Progress,
) -> Result<QuestionRequest, Diagnostic> {
    let QuestionRequest {
        tables,
        workers,
        form,
        statement,
        statement_file,
        output,
        explain,
    } = question;
    let shown = explain || interactive;
    let statement = statement_or_file(rt, statement, statement_file, shown, progress)?;
    Ok(QuestionRequest {
        tables,
        workers,
        form,
        statement,
        statement_file: Vec::new(rt.alloc()),
        output,
        explain,
    })
}
