//! The SQL parser: from the bytes of a statement to its parts, or to its first fault and the fault's byte.
//!
//! The contract is that of `read`: the statement is the one that `ParsesTo` defines, and a fault is the one that
//! `IsSqlFault` defines, both in `specs/Reading.antt`. `specs/Grammar.antt` defines the grammar as a relation. Names
//! are not resolved here: a statement may name a table that does not exist.
//!
//! Open `src/reading.rt` first, then `src/statement.rt`.
#![tactic(auto)]

mod conditions;
mod cursor;
mod fault;
pub mod laws;
mod queries;
mod reading;
mod sources;
mod statement;
mod texts;
mod token;
mod tokens;
mod words;

pub use conditions::MAX_LEVELS;
pub use fault::{SqlFault, SqlFaultKind};
pub use reading::read;
pub use sources::MAX_SOURCES;
pub use statement::{ColumnRef, Cond, Item, Query, Sign, SourceRef, Statement, Term, What};
pub use tokens::MAX_STATEMENT;
