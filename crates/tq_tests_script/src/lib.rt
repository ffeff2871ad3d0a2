//! Runs test scripts. A script is a list of blocks, separated by blank lines:
//!
//!     # A comment. Comments come before a block.
//!     ask 1 2 7 16
//!     VALIDTIME SELECT name FROM emp
//!     ----
//!     name,from,to
//!     ann,10,30
//!
//! The first line of a block is its call: a word and its arguments. The lines up to `----` are the input of the call,
//! and the lines after it the expected output. A block without `----` is expected to print nothing. An empty line of
//! output is written `(empty)`.
//!
//! `run_script` reads a script from standard input and runs each block by a `Suite`. It prints each block whose output
//! differs, and last how many passed and failed. Open src/running.rt first.
//!
//! The programs also share: allocations that fail (`Refusal`), scripts of calls in each of which every allocation fails
//! in turn (`Script`), a tree that grows by one key at a time (`Grower`), random numbers (`Draws`), a reader that fails
//! (`SlowReader`), and a gate that holds a piece until another one has arrived (`Turns`).
#![tactic(auto)]

mod block;
mod call;
mod draws;
mod gates;
mod grower;
mod output;
mod reading;
mod refusal;
mod running;
mod script;
mod slow_reader;
mod tables;
mod tally;
mod text;

pub use block::Block;
pub use call::{Call, Tried, attempt};
pub use draws::Draws;
pub use gates::Turns;
pub use grower::Grower;
pub use output::{print_nothing, push_first_lines, push_lines};
pub use refusal::Refusal;
pub use running::{Suite, run_script};
pub use script::{Calls, Script};
pub use slow_reader::SlowReader;
pub use tables::TableFiles;
pub use tally::Tally;
pub use text::{number_and, unescape, unescape_text};
