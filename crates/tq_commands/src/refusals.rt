// The refusals of statements over files, with their details.

ghost use Rattle.std.specs.Prelude.{◌≡◌, false, IfSome, None, map};
ghost use Rattle.tq_commands.specs.HeaderLines.{header_file};
ghost use Rattle.tq_commands.specs.Report.{IsDetailOfFile, IsLoadDetail, IsPlanDetailOver, IsQuestionDetail, refused_answer};

use crate::files::read_path;
use crate::headers::{catalogue_of, header_files};
use crate::progress::Progress;
use crate::report::{Diagnostic, Refusal};
use crate::retained::RetainedFile;
use std::alloc::Global;
use std::io::Input;
use std::rt::Files;
use tq_base::Form;
use tq_engine::AnswerFault;
use tq_event::{LoadFault, TableFile};
use tq_plan::PlanFault;

// The refusal of a file that was not loaded, with details. The file is read again if its bytes are not retained.
fn refused_file<R: Files + AllocGlobal + Input>(
    rt: &R,
    fault: LoadFault,
    file: &RetainedFile,
    form: Form,
    progress: &Progress,
) -> Diagnostic
    ensures refusal { result.refusal ≡ Refusal.Load fault }
    ensures detail { IfSome result.detail (λ text. IsDetailOfFile form file.now fault text.items) }
{
    if let Some(bytes) = &file.bytes {
        return Diagnostic::of_load(rt.alloc(), fault, &file.path, bytes, form);
    }
    match read_path(rt, &file.path, progress) {
        Ok(bytes) => Diagnostic::of_load(rt.alloc(), fault, &file.path, &bytes, form),
        Err(_) => Diagnostic::from(Refusal::Load(fault)),
    }
}

/// The refusal of a file that was not loaded, with details if the files are retained.
pub fn refused_load<R: Files + AllocGlobal + Input>(
    rt: &R,
    fault: LoadFault,
    files: Option<Vec<RetainedFile>>,
    form: Form,
    progress: &Progress,
) -> Diagnostic
    ensures refusal { result.refusal ≡ Refusal.Load fault }
    ensures detail { IfSome result.detail (λ text. IsLoadDetail form files fault text.items) }
{
    let Some(files) = files else {
        return Diagnostic::from(Refusal::Load(fault));
    };
    let Some(file) = files.get(fault.table as usize) else {
        return Diagnostic::from(Refusal::Load(fault));
    };
    refused_file(rt, fault, file, form, progress)
}

/// The header lines of the files if `explain` is set; a fault of the plan is described with them. `None` if an
/// allocation failed.
pub fn header_copies(alloc: Global, tables: &[TableFile], explain: bool) -> Option<Vec<TableFile>>
    ensures { IfSome result (λ headers. headers.items ≡ map header_file tables.now) }
{
    if !explain {
        return None;
    }
    header_files(alloc, tables).ok()
}

// The refusal for a fault of the plan, with details if the header lines are there and valid.
fn refused_plan(
    alloc: Global,
    fault: PlanFault,
    headers: Option<Vec<TableFile>>,
    statement: &[u8],
    form: Form,
) -> Diagnostic
    ensures refusal { result.refusal ≡ Refusal.Plan fault }
    ensures detail { IfSome result.detail (λ text. IsPlanDetailOver form headers fault statement.now text.items) }
{
    let Some(headers) = headers else {
        return Diagnostic::from(Refusal::Plan(fault));
    };
    let Some(catalogue) = catalogue_of(alloc, headers, form) else {
        return Diagnostic::from(Refusal::Plan(fault));
    };
    Diagnostic::of_plan(alloc, fault, statement, &catalogue, form)
}

/// How a refusal is reported.
#[derive(Clone, Copy)]
pub struct RefusalOptions {
    /// How files and statement write instants.
    pub form: Form,
    /// Whether the refusal has details.
    pub explain: bool,
}

/// The refusal for a fault of these files, of the statement or of its plan. `headers` are the files' header lines.
pub fn refused<R: Files + AllocGlobal + Input>(
    rt: &R,
    fault: AnswerFault,
    statement: &[u8],
    files: Option<Vec<RetainedFile>>,
    headers: Option<Vec<TableFile>>,
    options: RefusalOptions,
    progress: &Progress,
) -> Diagnostic
    ensures refusal { result.refusal ≡ refused_answer fault }
    ensures detail { IfSome result.detail (λ text. IsQuestionDetail options.form files headers fault statement.now text.items) }
    ensures silent { options.explain ≡ false → result.detail ≡ None }
{
    let RefusalOptions { form, explain } = options;
    match fault {
        AnswerFault::Load(load) if explain => refused_load(rt, load, files, form, progress),
        AnswerFault::Load(load) => Diagnostic::from(Refusal::Load(load)),
        AnswerFault::Plan(plan) if explain => {
            refused_plan(rt.alloc(), plan, headers, statement, form)
        }
        AnswerFault::Plan(plan) => Diagnostic::from(Refusal::Plan(plan)),
        _ => Diagnostic::of_answer(rt.alloc(), fault, statement, explain),
    }
}
