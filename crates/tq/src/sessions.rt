// Sessions: the commands on standard input.

ghost use Rattle.std.specs.Prelude.{◌≡◌};
ghost use Rattle.tq.specs.SessionRefusals.{refused_session};

use crate::prompt::Prompted;
use crate::session_lines::LineExplainer;
use std::alloc::Global;
use std::io::{self, Input, Write};
use std::os::unix::fs::FileExt;
use std::rt::Files;
use std::sync::Wait;
use std::thread::Threads;
use tq_base::{Catalogue, Form};
use tq_cli::SessionRequest;
use tq_commands::{
    Diagnostic, ErrorLines, Progress, Refusal, catalogue_of, header_copies, paths_of,
    read_table_files, refused_load, retain_if,
};
use tq_engine::Source;
use tq_event::TableFile;
use tq_session::{SessionFault, session};
use tq_table::Sink;

// The refusal for the fault that ended a session.
fn refused_session(fault: SessionFault) -> Refusal
    ensures { result ≡ refused_session fault }
{
    match fault {
        SessionFault::Load(fault) => Refusal::Load(fault),
        SessionFault::NoPlace => Refusal::NoPlace,
        SessionFault::Read => Refusal::ReadFailed,
        SessionFault::Write => Refusal::WriteFailed,
        SessionFault::OutOfMemory => Refusal::OutOfMemory,
    }
}

// The catalogue of the files if `explain` is set; refused lines are described with it. `None` if a header is invalid or an
// allocation failed.
fn catalogue_if(
    alloc: Global,
    tables: &[TableFile],
    form: Form,
    explain: bool,
) -> Option<Catalogue> {
    let headers = header_copies(alloc, tables, explain)?;
    catalogue_of(alloc, headers, form)
}

/// Runs the commands on standard input after all files are read. If there is a terminal, a prompt precedes each command. A
/// refused line has details at a terminal or with `--explain`.
pub fn run_session<
    R: Files<File: FileExt + Send + Sync, Dir: Send>
        + AllocGlobal
        + Input<Reader: Send>
        + Print
        + Threads
        + Wait
        + Sync,
    W: Write + Drop,
>(
    rt: &R,
    request: SessionRequest,
    interactive: bool,
    prompts: Option<W>,
    progress: &Progress,
) -> Result<(), Diagnostic> {
    let SessionRequest {
        tables: options,
        form,
        explain,
    } = request;
    let explain = explain || interactive;
    let paths = paths_of(rt.alloc(), &options)?;
    let tables = read_table_files(rt, options, 1, explain, progress)?;
    progress.end(rt);
    let files = retain_if(rt, &tables, &paths, explain);
    let mut explainer = LineExplainer {
        alloc: rt.alloc(),
        form,
        catalogue: catalogue_if(rt.alloc(), &tables, form, explain),
        sink: Sink::over(ErrorLines { rt, progress }),
    };
    let reader = rt.reader();
    let mut source = Source::over(Prompted { reader, prompts });
    let mut sink = Sink::over(io::writer(rt));
    match session(
        rt,
        rt.alloc(),
        tables,
        &mut source,
        &mut sink,
        &mut explainer,
        form,
    ) {
        Ok(()) => Ok(()),
        Err(SessionFault::Load(load)) => Err(refused_load(rt, load, files, form, progress)),
        Err(fault) => Err(Diagnostic::from(refused_session(fault))),
    }
}
