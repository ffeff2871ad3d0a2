//! The oracle of the core machine (`tq_core`) for plans: a query is a plan, and its answer is a table.
//!
//! The law `Plain::runs_answer_plans` holds for steps in any order. An answer to a plan as of n events is that of the
//! plan over the first n events that are published in the end (`RunsAnswerPlans`). Open `src/plain.rt` first, then
//! `specs/Runs.antt`.
#![tactic(auto)]

mod plain;
#[cfg(test)]
mod tests;

pub use plain::Plain;
