//! Periods, and the instants that they hold.

use crate::words::{instant_of, period_of, push_period};
use std::alloc::AllocError;
use std::fmt::Write;
use tq_base::Period;
use tq_tests_script::print_nothing;

/// Prints which of the instants the period holds.
pub(crate) fn print_holds(
    start: &str,
    end: &str,
    instants: &[&str],
    out: &mut String,
) -> Result<(), AllocError> {
    let Some(period) = period_of(start, end) else {
        return out.push_str("no period\n");
    };
    push_period(&period, out)?;
    for instant in instants {
        match instant_of(instant) {
            Some(instant) => write!(out, " {}", period.holds(instant))?,
            None => out.push_str(" no instant")?,
        }
    }
    out.push('\n')
}

// Prints the overlap of both periods, and whether they meet.
fn print_one_way(one: &Period, other: &Period, out: &mut String) -> Result<(), AllocError> {
    out.push_str("overlap: ")?;
    match one.overlap(other) {
        Some(both) => push_period(&both, out)?,
        None => out.push_str("none")?,
    }
    writeln!(out, "; meet: {}", one.meets(other))
}

/// Prints the overlap of two periods, and whether they meet, in both orders.
pub(crate) fn print_both(
    [start, end, other_start, other_end]: [&str; 4],
    out: &mut String,
) -> Result<(), AllocError> {
    match (period_of(start, end), period_of(other_start, other_end)) {
        (Some(one), Some(other)) => {
            print_one_way(&one, &other, out)?;
            print_one_way(&other, &one, out)
        }
        _ => print_nothing(out),
    }
}
