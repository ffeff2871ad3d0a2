// The program's refusals: their lines on standard error and their exit statuses.

ghost use Rattle.std.specs.Prelude.{◌≡◌, ◌++◌, [], false, if◌then◌else◌, IfOk, IfSome, None, OnOk, codes};
ghost use Rattle.std.specs.Io.KnownBytes.{Appends};
ghost use Rattle.std.specs.Process.{exit_status};
ghost use Rattle.tq_diagnostics.specs.Files.{IsFileDetail};
ghost use Rattle.tq_diagnostics.specs.PlanDetails.{IsPlanDetail};
ghost use Rattle.tq_commands.specs.Report.{IsAnswerDetail, detail_of, line_of, reason_of, refused_answer, refused_command_line, refused_file, status_of};

use std::alloc::{AllocError, Global};
use std::io::{self, Write};
use std::process::ExitCode;
use tq_base::{Catalogue, Form};
use tq_cli::{CommandLineFault, UsageError};
use tq_diagnostics::{explain_file, explain_plan, explain_statement};
use tq_engine::{AnswerFault, FileFault, load_name, plan_name, sql_name};
use tq_event::LoadFault;
use tq_plan::PlanFault;
use tq_shown::write_printable;
use tq_sql::SqlFault;

/// Why the program gave no answer. Each is printed as one line.
#[derive(Drop)]
pub enum Refusal {
    BadCommandLine,
    CannotRead(Vec<u8>),
    CannotWrite(Vec<u8>),
    Import(Vec<u8>),
    Reference(Vec<u8>),
    Split(Vec<u8>),
    Merge(Vec<u8>),
    Answer(Vec<u8>),
    Load(LoadFault),
    Statement(SqlFault),
    Plan(PlanFault),
    NoPlace,
    ReadFailed,
    WriteFailed,
    OutOfMemory,
}

impl From<AllocError> for Refusal {
    ghost use Rattle.tq_commands.specs.declared.report.Refusal.TheVariants.{OutOfMemory};

    ghost from_gives = { λ _ refusal. refusal ≡ OutOfMemory };

    fn from(_error: AllocError) -> Refusal {
        Refusal::OutOfMemory
    }
}

impl From<CommandLineFault> for Refusal {
    ghost from_gives = { λ fault refusal. refusal ≡ refused_command_line fault };

    fn from(fault: CommandLineFault) -> Refusal {
        match fault {
            CommandLineFault::BadCommandLine => Refusal::BadCommandLine,
            CommandLineFault::OutOfMemory => Refusal::OutOfMemory,
        }
    }
}

impl From<AnswerFault> for Refusal {
    ghost from_gives = { λ fault refusal. refusal ≡ refused_answer fault };

    fn from(fault: AnswerFault) -> Refusal {
        match fault {
            AnswerFault::Load(fault) => Refusal::Load(fault),
            AnswerFault::Sql(fault) => Refusal::Statement(fault),
            AnswerFault::Plan(fault) => Refusal::Plan(fault),
            AnswerFault::Write => Refusal::WriteFailed,
            AnswerFault::OutOfMemory => Refusal::OutOfMemory,
        }
    }
}

impl Refusal {
    /// The refusal of a file that was not read.
    pub fn of_file(fault: FileFault, path: Vec<u8>) -> Refusal
        ensures { result ≡ refused_file fault path }
    {
        match fault {
            FileFault::Read | FileFault::TooLarge => Refusal::CannotRead(path),
            FileFault::OutOfMemory => Refusal::OutOfMemory,
        }
    }

    /// The exit status of the program.
    pub fn status(&self) -> ExitCode
        ensures { exit_status result ≡ status_of self.now }
    {
        match self {
            Refusal::BadCommandLine => ExitCode::from(2),
            _ => ExitCode::FAILURE,
        }
    }

    /// Prints the refusal's line. A fault is printed by its name. In a path, each hidden character except the tab is
    /// printed as a question mark. Allocates nothing.
    pub fn print<W: Write>(&self, errors: &mut W) -> io::Result<()>
        ensures { OnOk result (Appends (W.contents errors.old) (W.contents errors.new) (line_of self.now)) }
    {
        match self {
            Refusal::BadCommandLine => errors.write_all(b"tq: BadCommandLine\n"),
            Refusal::CannotRead(path) => {
                errors.write_all(b"tq: cannot read ")?;
                write_printable(errors, path)?;
                errors.write_all(b"\n")
            }
            Refusal::CannotWrite(path) => {
                errors.write_all(b"tq: cannot write ")?;
                write_printable(errors, path)?;
                errors.write_all(b"\n")
            }
            Refusal::Import(text) => {
                errors.write_all(b"tq: import ")?;
                write_printable(errors, text)?;
                errors.write_all(b"\n")
            }
            Refusal::Reference(text) => {
                errors.write_all(b"tq: refers ")?;
                write_printable(errors, text)?;
                errors.write_all(b"\n")
            }
            Refusal::Split(text) => {
                errors.write_all(b"tq: split ")?;
                write_printable(errors, text)?;
                errors.write_all(b"\n")
            }
            Refusal::Merge(text) => {
                errors.write_all(b"tq: merge ")?;
                write_printable(errors, text)?;
                errors.write_all(b"\n")
            }
            Refusal::Answer(text) => {
                errors.write_all(b"tq: answer ")?;
                write_printable(errors, text)?;
                errors.write_all(b"\n")
            }
            Refusal::Load(
                LoadFault {
                    kind,
                    table,
                    number,
                },
            ) => writeln!(
                errors,
                "tq: load {} table {table} record {number}",
                load_name(*kind)
            ),
            Refusal::Statement(SqlFault { kind, at }) => {
                writeln!(errors, "tq: statement {} at {at}", sql_name(*kind))
            }
            Refusal::Plan(fault) => writeln!(errors, "tq: plan {}", plan_name(*fault)),
            Refusal::NoPlace => errors.write_all(b"tq: NoPlace\n"),
            Refusal::ReadFailed => errors.write_all(b"tq: read failed\n"),
            Refusal::WriteFailed => errors.write_all(b"tq: write failed\n"),
            Refusal::OutOfMemory => errors.write_all(b"tq: OutOfMemory\n"),
        }
    }
}

// The reason as a line of its own.
fn reason_line(alloc: Global, reason: &[u8]) -> Result<Vec<u8>, AllocError>
    ensures { IfOk result (λ text. text.items ≡ codes "  " ++ reason.now ++ codes "\n") }
{
    let mut text = Vec::new(alloc);
    text.extend_from_slice(b"  ")?;
    text.extend_from_slice(reason)?;
    text.push(b'\n')?;
    Ok(text)
}

/// A refusal, with details for people below its line if there are any.
#[derive(Drop)]
pub struct Diagnostic {
    pub refusal: Refusal,
    pub detail: Option<Vec<u8>>,
}

impl From<Refusal> for Diagnostic {
    ghost from_gives = { λ refusal diagnostic. (diagnostic.refusal ≡ refusal) × (diagnostic.detail ≡ None) };

    fn from(refusal: Refusal) -> Diagnostic {
        Diagnostic {
            refusal,
            detail: None,
        }
    }
}

impl From<AllocError> for Diagnostic {
    ghost use Rattle.tq_commands.specs.declared.report.Refusal.TheVariants.{OutOfMemory};

    ghost from_gives = { λ _ diagnostic. (diagnostic.refusal ≡ OutOfMemory) × (diagnostic.detail ≡ None) };

    fn from(error: AllocError) -> Diagnostic {
        Diagnostic::from(Refusal::from(error))
    }
}

impl Diagnostic {
    /// The refusal of a command line. Its message is shown only if `interactive` is set.
    pub fn of_command_line(usage_error: UsageError, interactive: bool) -> Diagnostic
        ensures refusal { result.refusal ≡ refused_command_line usage_error.fault }
        ensures detail { detail_of result.detail ≡ (if interactive then reason_of usage_error.detail else []) }
    {
        let UsageError { fault, detail } = usage_error;
        let refusal = Refusal::from(fault);
        match detail {
            Some(text) if interactive => Diagnostic {
                refusal,
                detail: Some(text.into_bytes()),
            },
            _ => Diagnostic {
                refusal,
                detail: None,
            },
        }
    }

    /// The refusal of a statement. If `explain` is set, a fault of the statement's text has details.
    pub fn of_answer(
        alloc: Global,
        fault: AnswerFault,
        statement: &[u8],
        explain: bool,
    ) -> Diagnostic
        ensures refusal { result.refusal ≡ refused_answer fault }
        ensures detail { IfSome result.detail (λ text. IsAnswerDetail fault statement.now text.items) }
        ensures silent { explain ≡ false → result.detail ≡ None }
    {
        let detail = match fault {
            AnswerFault::Sql(fault) if explain => explain_statement(alloc, statement, fault).ok(),
            _ => None,
        };
        Diagnostic {
            refusal: Refusal::from(fault),
            detail,
        }
    }

    /// The refusal of a file that was not read, with the reason if it is not empty.
    pub fn of_unreadable(alloc: Global, path: Vec<u8>, reason: &[u8]) -> Diagnostic
        ensures refusal { result.refusal ≡ Refusal.CannotRead path }
        ensures detail { IfSome result.detail (λ text. text.items ≡ codes "  " ++ reason.now ++ codes "\n") }
    {
        let detail = if reason.len() > 0 {
            reason_line(alloc, reason).ok()
        } else {
            None
        };
        Diagnostic {
            refusal: Refusal::CannotRead(path),
            detail,
        }
    }

    /// The refusal of a file that was not loaded, with details from the file's bytes.
    pub fn of_load(
        alloc: Global,
        fault: LoadFault,
        path: &[u8],
        bytes: &[u8],
        form: Form,
    ) -> Diagnostic
        ensures refusal { result.refusal ≡ Refusal.Load fault }
        ensures detail { IfSome result.detail (λ text. IsFileDetail form path.now bytes.now fault text.items) }
    {
        Diagnostic {
            refusal: Refusal::Load(fault),
            detail: explain_file(alloc, path, bytes, fault, form).ok(),
        }
    }

    /// The refusal for a fault of the plan, with details. `form` is how instants are written.
    pub fn of_plan(
        alloc: Global,
        fault: PlanFault,
        statement: &[u8],
        catalogue: &Catalogue,
        form: Form,
    ) -> Diagnostic
        ensures refusal { result.refusal ≡ Refusal.Plan fault }
        ensures detail { IfSome result.detail (λ text. IsPlanDetail form catalogue.now statement.now fault text.items) }
    {
        Diagnostic {
            refusal: Refusal::Plan(fault),
            detail: explain_plan(alloc, statement, catalogue, fault, form).ok(),
        }
    }

    /// The text below the line; empty if there is none.
    pub fn detail(&self) -> &[u8]
        ensures { result.now ≡ detail_of self.entry.now.detail }
    {
        match &self.detail {
            Some(text) => text,
            None => b"",
        }
    }
}
