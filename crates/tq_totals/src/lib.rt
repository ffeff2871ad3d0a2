//! Totals over time: the periods of the calendar as a table, and the totals of an answer's rows.
//!
//! `calendar` writes the months, quarters or years between two days as a table file; a period is a maximal run of days
//! with one label (`calendar_text` in `specs/Calendar.antt`). `totals_csv` sums columns of an answer over all instants,
//! group by group (`AreTotals` in `specs/Totals.antt`), and writes the totals as CSV.
//!
//! Open `specs/Calendar.antt` and `specs/Totals.antt` first.
#![tactic(auto)]

mod answer_totals;
mod checks;
mod fault;
mod group_totals;
mod groups;
mod labels;
pub mod laws;
mod periods;
mod sums;
mod text;
mod unit;

pub use answer_totals::totals_csv;
pub use fault::TotalsFault;
pub use periods::calendar;
pub use unit::Unit;
