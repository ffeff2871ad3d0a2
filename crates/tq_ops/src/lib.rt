//! The relational operators on rows with periods: selection, join and difference.
//!
//! The contracts of `select`, `join`, `join_all` and `except_all` are stated instant by instant. At an instant of the
//! window the valid rows are, with duplicates, the ordinary operator's result over the rows valid then (`HasInside` in
//! `specs/Ordinary.antt` of `tq_condition`). Outside the window no row is valid. No operator evaluates single instants:
//! selection makes one pass, join and difference sweep over sorted keys. No operator copies values; results refer to rows
//! of the input.
//!
//! Open `src/merge_join.rt` first. The ordinary operators are in `specs/Ordinary.antt` of `tq_condition`.
#![tactic(auto)]

mod difference;
mod divided_join;
mod equi_join;
mod implied;
mod inequality_join;
mod join_branches;
mod join_chain;
mod join_order;
mod merge_join;
mod overlapping;
mod selection;

pub use difference::except_all;
pub use equi_join::{EquiJoin, KeyPair, equi_join_keys};
pub use implied::with_implied_equalities;
pub use join_chain::{join_all, pushable};
pub use join_order::{JoinOrder, order_joins};
pub use merge_join::join;
pub use selection::select;
pub use tq_condition::{Compare, Operand, Test};
