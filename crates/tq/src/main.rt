//! The program `tq`: its command line, its sessions, and what it shows at a terminal.
//!
//! `tq_cli` reads the command line, and `tq_commands` has the subcommands. `session_lines.rt` explains refused lines of a
//! session. A refusal is one fixed line on standard error. At a terminal, or with `--explain`, details follow it. Open
//! `dispatch` below first.
#![tactic(auto)]

mod prompt;
mod session_lines;
mod sessions;

use sessions::run_session;
use std::env::Env;
use std::io::{Input, IsTerminal, Write};
use std::os::unix::fs::FileExt;
use std::process::ExitCode;
use std::rt::Files;
use std::sync::Wait;
use std::thread::{self, Threads};
use std::time::Clock;
use tq_cli::{Request, asks_details, read_command_line, read_words};
use tq_commands::{
    Diagnostic, Progress, check_tables, import_file, merge_parts, print_answer, print_bytes,
    print_calendar, print_picture, print_totals, split_tables,
};

// Which of the standard streams are terminals: that of errors, and that of output; and where prompts are written, if input
// and output are.
#[derive(Drop)]
struct Terminals<W> {
    errors: bool,
    output: bool,
    prompts: Option<W>,
}

// Runs a request.
fn dispatch<
    R: Files<File: FileExt + Send + Sync, Dir: Send>
        + AllocGlobal
        + Clock
        + Input<Reader: Send>
        + Print
        + Threads
        + Wait
        + Sync,
    W: Write + Drop,
>(
    rt: &R,
    request: Request,
    terminals: Terminals<W>,
    progress: &Progress,
) -> Result<(), Diagnostic> {
    let Terminals {
        errors: interactive,
        output: on_screen,
        prompts,
    } = terminals;
    match request {
        Request::Ask(request) => print_answer(rt, request, on_screen, interactive, progress),
        Request::Draw(request) => print_picture(rt, request, interactive, progress),
        Request::Total(request) => print_totals(rt, request, interactive, progress),
        Request::Calendar(request) => print_calendar(rt, request),
        Request::Session(request) => run_session(rt, request, interactive, prompts, progress),
        Request::Check(request) => check_tables(rt, request, interactive, progress),
        Request::Import(request) => import_file(rt, request, interactive, progress),
        Request::Split(request) => split_tables(rt, request, progress),
        Request::Merge(request) => merge_parts(rt, request, progress),
        Request::Print(text) => Ok(print_bytes(rt, text.as_bytes())?),
    }
}

// Runs a request while another thread shows its progress.
fn dispatch_with_progress<
    R: Files<File: FileExt + Send + Sync, Dir: Send>
        + AllocGlobal
        + Clock
        + Input<Reader: Send>
        + Print
        + Threads
        + Wait
        + Sync,
    W: Write + Drop,
>(
    rt: &R,
    request: Request,
    terminals: Terminals<W>,
    progress: &Progress,
) -> Result<(), Diagnostic> {
    let work = || {
        let done = dispatch(rt, request, terminals, progress);
        progress.end(rt);
        done
    };
    thread::join(rt, || progress.show(rt, rt.alloc()), work).1
}

// Reads the command line and runs its request.
fn run<
    R: Files<File: FileExt + Send + Sync, Dir: Send>
        + AllocGlobal
        + Clock
        + Env
        + Input<Reader: Send>
        + Print
        + Threads
        + Wait
        + Sync,
    W: Write + Drop,
>(rt: &R, terminals: Terminals<W>, progress: &Progress) -> Result<(), Diagnostic> {
    let words = read_words(rt)?;
    match read_command_line(rt.alloc(), &words) {
        Ok(request) if terminals.errors => dispatch_with_progress(rt, request, terminals, progress),
        Ok(request) => dispatch(rt, request, terminals, progress),
        Err(usage_error) => {
            let explain = terminals.errors || asks_details(&words);
            Err(Diagnostic::of_command_line(usage_error, explain))
        }
    }
}

fn main(rt: HostRuntime) -> ExitCode {
    let mut errors = rt.stderr();
    let output = rt.stdout().is_terminal();
    let prompts = if rt.stdin().is_terminal() && output {
        Some(rt.stderr())
    } else {
        None
    };
    let terminals = Terminals {
        errors: errors.is_terminal(),
        output,
        prompts,
    };
    let progress = Progress::over(rt.stderr());
    match run(&rt, terminals, &progress) {
        Ok(()) => ExitCode::SUCCESS,
        Err(diagnostic) => {
            // If the line cannot be printed, the exit status still reports the failure.
            let _ = diagnostic.refusal.print(&mut errors);
            let _ = errors.write_all(diagnostic.detail());
            diagnostic.refusal.status()
        }
    }
}
