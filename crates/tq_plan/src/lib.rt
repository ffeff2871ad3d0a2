//! The planner: it resolves the tables and columns of a statement against a catalogue.
//!
//! The contract is that of `plan`: the plan, or the first fault, that `plan_of` in `specs/Plans.antt` defines.
//! `specs/ValidPlans.antt` has the laws of plans. `tq_exec` defines what the answer of a plan is.
//!
//! Open `src/planning.rt` first, then `src/plans.rt`.
#![tactic(auto)]

mod conditions;
mod cuts;
mod fault;
mod key_range;
pub mod laws;
mod planning;
mod plans;
mod queries;
mod scope;
mod windows;

pub use fault::PlanFault;
pub use planning::plan;
pub use plans::{Output, Plan, QueryPlan, QuerySource, copy_names};
