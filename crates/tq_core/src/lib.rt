//! The core machine: the steps of one writer, its readers and the workers of an answer, as a pure machine over lists,
//! without threads.
//!
//! `World::run` takes a list of steps in any order: appends, publishes, entries of readers, lengths that they learn,
//! queries, and claims of an answer's pieces. Its contract holds for every such list. Each reply and the state afterwards
//! are those of the machine in `specs/Machine.antt` (`IsRun`). An answer depends on its count of events, but not on its
//! place among the steps (`AnswersAgree`). Open `src/step.rt` first, then `src/world.rt`.
#![tactic(auto)]

pub mod laws;
mod oracle;
mod pieces;
mod step;
mod world;

pub use oracle::Oracle;
pub use step::{Reply, Step};
pub use world::World;
