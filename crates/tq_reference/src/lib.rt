//! The reference evaluator: the definition of an answer, computed instant by instant.
//!
//! The contract of `rows_at` is the definition of a plan's answer itself (`times_at` of `tq_exec`). Its body computes
//! it in the simplest way: each instant by itself, without sorting and without a sweep. It is slow, and meant for tests
//! on small tables. They compare the definitions with answers worked out by hand, and the engine with the definitions.
//!
//! Open `src/instant.rt` first, then `src/query.rt`.
#![tactic(auto)]

mod bags;
mod fault;
mod groups;
mod history;
mod instant;
mod query;

pub use fault::ReferenceFault;
pub use instant::rows_at;
