//! Counts, sums and groups of rows with periods.
//!
//! At each instant of the window, the rows valid in the result are those that the ordinary grouping, or the ordinary count, makes
//! of the rows valid then. Outside the window no row is valid. The rows are sorted by their keys, and each group is swept once:
//! the sweep passes its starts and ends in order of time, and adds a result row wherever a total changes. If one column of few
//! values groups the rows, and at most one is summed, rows go into a bucket for each value instead of being sorted. If they are
//! only counted, several workers can do so, each for a part of the rows.
#![tactic(auto)]

mod bounds;
mod bucket_sums;
mod buckets;
mod changes;
mod counting;
mod endpoints;
mod groups;
mod partials;
mod summands;
mod sweeping;

pub use buckets::{Tally, tally_rows};
pub use counting::{count_all, group_count_sum};
pub use partials::{are_whole, count_share, ranks_of};
