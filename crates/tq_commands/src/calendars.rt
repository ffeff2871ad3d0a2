// Tables of calendar periods.

use crate::output::print_to;
use crate::report::Diagnostic;
use std::rt::Files;
use tq_cli::CalendarRequest;
use tq_totals::calendar;

/// Writes the table of calendar periods.
pub fn print_calendar<R: Files + AllocGlobal + Print>(
    rt: &R,
    request: CalendarRequest,
) -> Result<(), Diagnostic> {
    let CalendarRequest {
        unit,
        start,
        end,
        output,
    } = request;
    let text = calendar(rt.alloc(), unit, start, end)?;
    Ok(print_to(rt, &output, &text)?)
}
