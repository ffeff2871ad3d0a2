//! Conditions on the values of one row, and the ordinary operators of SQL over lists of rows.
//!
//! `Test` is a condition as in SQL without NULL. `Test::check` returns `passes` of `specs/Conditions.antt`. Conditions can
//! also be judged of rows of which only some columns are known (`src/known.rt`), and by ranges of numbers
//! (`src/key_range.rt`). `specs/Ordinary.antt` defines FROM, WHERE and SELECT over lists of rows without periods; `tq_ops` and
//! `tq_agg` are proved against it, so neither waits for the other.
//!
//! Open `src/condition.rt` first.
#![tactic(auto)]

mod condition;
mod key_range;
mod known;
pub mod laws;

pub use condition::{Compare, Operand, Test, admits, admits_both};
pub use key_range::SufficientRange;
