//! Work in numbered pieces, run by one thread or several, with the same results in the same order.
//!
//! `run_with` starts the workers. Each claims the number of the next piece on one shared word, runs that piece, and
//! repeats this until no piece is left. `run_with` and `run_here` have the same contract, `IsResultList` in
//! `specs/Results.antt`: there are as many results as pieces, and result i belongs to piece i. It holds for every
//! number of workers and every schedule. `Claims` are proved with the crate `atomic_table`. What a piece does, this
//! crate does not know.
//!
//! Open `src/pieces.rt` first, then `src/workers.rt`. `docs/design/threads.md` describes the steps.
#![tactic(auto)]

mod claiming;
mod ordering;
mod pieces;
mod seat_view;
mod workers;

pub use claiming::{Claimant, Claims};
pub use pieces::{Gate, Open, Work, run_here};
pub use workers::run_with;
