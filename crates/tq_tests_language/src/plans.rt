//! Printing of plans.

use std::alloc::AllocError;
use std::fmt::Write;
use std::str;
use tq_base::{KeyRange, Name, Period};
use tq_plan::PlanFault::{
    self, AmbiguousColumn, BadWindow, DuplicateAlias, NotGrouped, OutOfMemory, SumNeedsGroup,
    SumOfText, TypeMismatch, UnequalColumns, UnknownColumn, UnknownTable,
};
use tq_plan::{Plan, QueryPlan};

pub(crate) fn print_fault(fault: PlanFault, out: &mut String) -> Result<(), AllocError> {
    writeln!(out, "{fault}")
}

/// Prints the names, separated by commas.
pub(crate) fn print_names(names: &[Name], out: &mut String) -> Result<(), AllocError> {
    for (place, name) in names.iter().enumerate() {
        if place > 0 {
            out.push(',')?;
        }
        out.push_str(str::from_utf8(name.bytes()).unwrap_or("no text"))?;
    }
    out.push('\n')
}

// Prints the sources, the condition, the groups and the items.
fn print_query(query: &QueryPlan, out: &mut String) -> Result<(), AllocError> {
    for source in query.sources.get() {
        writeln!(out, "{source:?}")?;
    }
    writeln!(out, "condition: {:?}", query.test)?;
    writeln!(out, "groups: {:?}", query.group.get())?;
    writeln!(out, "items: {:?}", query.outputs.get())
}

/// Prints the query, and the one after EXCEPT ALL.
pub(crate) fn print_plan(plan: &Plan, out: &mut String) -> Result<(), AllocError> {
    print_query(&plan.left, out)?;
    match &plan.right {
        Some(right) => {
            out.push_str("EXCEPT ALL\n")?;
            print_query(right, out)
        }
        None => Ok(()),
    }
}

fn print_key(key: i64, out: &mut String) -> Result<(), AllocError> {
    match key {
        i64::MIN => out.push_str("least"),
        i64::MAX => out.push_str("most"),
        _ => write!(out, "{key}"),
    }
}

/// Prints the least and the greatest key, or that there are none.
pub(crate) fn print_range(range: Option<KeyRange>, out: &mut String) -> Result<(), AllocError> {
    let Some(range) = range else {
        return out.push_str("none\n");
    };
    print_key(range.low, out)?;
    out.push_str(" to ")?;
    print_key(range.high, out)?;
    out.push('\n')
}

pub(crate) fn print_window(window: &Period, out: &mut String) -> Result<(), AllocError> {
    let start = window.start.number();
    let end = window.end.number();
    writeln!(out, "{start} to {end}")
}

/// Prints the number and the name of each fault, and the fault of a failed allocation.
pub(crate) fn print_faults(out: &mut String) -> Result<(), AllocError> {
    for fault in [
        UnknownTable,
        UnknownColumn,
        AmbiguousColumn,
        DuplicateAlias,
        TypeMismatch,
        NotGrouped,
        SumNeedsGroup,
        SumOfText,
        UnequalColumns,
        BadWindow,
        OutOfMemory,
    ] {
        writeln!(out, "{} {fault}", fault as u8)?;
    }
    writeln!(out, "refused memory: {}", PlanFault::from(AllocError))
}
