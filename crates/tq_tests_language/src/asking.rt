//! Calls for plans of statements.

use crate::plans::{print_fault, print_names, print_plan, print_range, print_window};
use std::alloc::{AllocError, Global};
use std::fmt::Write;
use tq_base::{Catalogue, Form};
use tq_condition::Test;
use tq_diagnostics::{explain_plan, explain_statement};
use tq_plan::{Plan, PlanFault, plan};
use tq_sql::read;
use tq_tests_script::{print_nothing, push_lines, unescape_text};

/// The property of a plan to print.
#[derive(Clone, Copy)]
pub(crate) enum Asked {
    IsThere,
    Names,
    Queries,
    Keys { side: u32, source: u32 },
    Window,
    Copy,
    Condition,
}

// The statement's plan over the tables or its fault, if it is a statement.
fn planned(
    alloc: Global,
    catalogue: &Catalogue,
    statement: &str,
    form: Form,
) -> Result<Option<Result<Plan, PlanFault>>, AllocError> {
    let text = unescape_text(alloc, statement)?;
    match read(alloc, text.as_bytes()) {
        Ok(statement) => Ok(Some(plan(alloc, catalogue, &statement, form))),
        Err(_) => Ok(None),
    }
}

// Whether a copy of the plan prints as the plan does.
fn is_copied(alloc: Global, plan: &Plan) -> Result<bool, AllocError> {
    let copy = plan.try_copy(alloc)?;
    let copy = format!(in alloc; "{copy:?}")?;
    let plan = format!(in alloc; "{plan:?}")?;
    Ok(plan.as_str() == copy.as_str())
}

// The kind of the first query's condition.
fn kind_of(plan: &Plan) -> &'static str {
    match &plan.left.test {
        Some(Test::Is { .. }) => "a comparison",
        Some(Test::And(_, _)) => "two parts joined by AND",
        Some(Test::Or(_, _)) => "two parts joined by OR",
        Some(Test::Not(_)) => "a part negated",
        None => "no condition",
    }
}

fn print(alloc: Global, plan: &Plan, asked: Asked, out: &mut String) -> Result<(), AllocError> {
    match asked {
        Asked::IsThere => out.push_str("planned\n"),
        Asked::Names => print_names(plan.columns(), out),
        Asked::Queries => print_plan(plan, out),
        Asked::Keys { side, source } => print_range(plan.key_range(side, source), out),
        Asked::Window => print_window(plan.window(), out),
        Asked::Copy => writeln!(out, "the copy is the plan: {}", is_copied(alloc, plan)?),
        Asked::Condition => writeln!(out, "{}", kind_of(plan)),
    }
}

/// Prints a property of the statement's plan, with its window as `form` says, or its fault.
pub(crate) fn ask(
    alloc: Global,
    catalogue: &Catalogue,
    statement: &str,
    asked: Asked,
    form: Form,
    out: &mut String,
) -> Result<(), AllocError> {
    match planned(alloc, catalogue, statement, form)? {
        Some(Ok(plan)) => print(alloc, &plan, asked, out),
        Some(Err(fault)) => print_fault(fault, out),
        None => print_nothing(out),
    }
}

/// Prints the details of the statement's fault, if its text has one.
pub(crate) fn ask_detail(
    alloc: Global,
    statement: &str,
    out: &mut String,
) -> Result<(), AllocError> {
    let text = unescape_text(alloc, statement)?;
    let Err(fault) = read(alloc, text.as_bytes()) else {
        return print_nothing(out);
    };
    push_lines(&explain_statement(alloc, text.as_bytes(), fault)?, out)
}

/// Prints the details of the statement's fault over the tables, if it is a statement and has one.
pub(crate) fn ask_plan_detail(
    alloc: Global,
    catalogue: &Catalogue,
    statement: &str,
    form: Form,
    out: &mut String,
) -> Result<(), AllocError> {
    match planned(alloc, catalogue, statement, form)? {
        Some(Err(fault)) => {
            let text = unescape_text(alloc, statement)?;
            push_lines(
                &explain_plan(alloc, text.as_bytes(), catalogue, fault, form)?,
                out,
            )
        }
        _ => print_nothing(out),
    }
}

/// Prints the window of a statement with the text after PERIOD, or of one without PERIOD.
pub(crate) fn ask_window(
    alloc: Global,
    catalogue: &Catalogue,
    text: &str,
    form: Form,
    out: &mut String,
) -> Result<(), AllocError> {
    let statement = match text {
        "" => format!(in alloc; "VALIDTIME SELECT name FROM emp")?,
        _ => format!(in alloc; "VALIDTIME PERIOD {text} SELECT name FROM emp")?,
    };
    ask(
        alloc,
        catalogue,
        statement.as_str(),
        Asked::Window,
        form,
        out,
    )
}

/// Plans a statement with a condition of `count` parts after a first one, and a last one after a semicolon.
pub(crate) fn ask_chain(
    alloc: Global,
    catalogue: &Catalogue,
    count: u32,
    parts: &str,
    out: &mut String,
) -> Result<(), AllocError> {
    let (part, last) = parts.split_once("; ").unwrap_or((parts, ""));
    let mut text = String::from_str(alloc, "VALIDTIME SELECT a FROM t WHERE a=1")?;
    for _ in 0..count {
        write!(text, " {part}")?;
    }
    write!(text, " {last}")?;
    ask(
        alloc,
        catalogue,
        text.as_str(),
        Asked::Condition,
        Form::Numbers,
        out,
    )
}
