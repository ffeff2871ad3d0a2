//! Parallel loading of CSV files. `load_tables_parallel` and `load_projected_parallel` promise exactly what
//! `load_tables` and `load_projected` of `tq_event` do, for every number of workers and every gate: the contracts cite
//! the same definitions.
//!
//! A file is cut after line feeds into parts that workers read. If a record begins at each cut, the records of the file
//! are those of its parts, in order (law `records_are_independent`). Whether one does is known from the records before
//! the cut. If anything is invalid, one worker loads the files again and reports the first fault.
//!
//! `read_schemas` reads only names and headers (law `headers_are_catalogue`). Open `src/parallel.rt` first.
#![tactic(auto)]

mod combining;
mod cut;
mod headers;
mod if_valid;
pub mod laws;
mod options;
mod parallel;
mod part;
mod reading;
mod work;

pub use cut::first_cut;
pub use headers::read_schemas;
pub use options::LoadOptions;
pub use parallel::{load_projected_parallel, load_tables_by_parts, load_tables_parallel};
