//! Scans of a multiversion tree: the keys that live in a window of keys and versions, each found exactly once.
//!
//! A window is a range of keys over an interval of versions; `cut` divides it into parts. `scan` returns the keys whose
//! reference point lies in a part, and the leaves whose region meets it; `scan_unsorted` returns the same in any order.
//! A key's reference point is the key at the later of its birth and the window's first version. So each key is found in
//! exactly one part of any cut (law `keys_are_in_one_part`). The contract of `scan` cites `FoundIn` and `IsMetLeaf` in
//! `specs/Scans.antt`.
//!
//! Open `src/scanning.rt` first.
#![tactic(auto)]

mod cutting;
mod found;
mod keys;
mod laws;
mod leaves;
mod scanning;
mod window;

pub use cutting::cut;
pub use found::{Found, Keys};
pub use laws::keys_are_in_one_part;
pub use scanning::{scan, scan_unsorted};
pub use window::{Part, Window};
