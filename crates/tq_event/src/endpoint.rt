// The start or the end of an entry, with its time.

use tq_base::Instant;

/// The start or the end of the entry with this number. Endpoints are ordered by time, ends before starts, then by the
/// order of entries, which is that of tables and records.
#[derive(Clone, Copy, PartialEq, Eq, PartialOrd, Ord, Debug)]
pub struct Endpoint {
    pub at: Instant,
    pub starts: bool,
    pub entry: u32,
}
