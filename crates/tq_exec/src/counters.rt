//! What an execution counts: the rows that the operators of a plan make, in all pieces together. `--explain` shows them.

use crate::answer_parts::AnswerPart;
use std::alloc::AllocError;
use std::sync::atomic::{AtomicU64, Ordering};
use tq_base::Relation;

/// How an execution was divided among workers.
#[derive(Clone, Copy, Debug, PartialEq, Eq)]
pub enum Division {
    /// One thread found the rows.
    Undivided,
    /// By the values of a column.
    ByValue,
    /// By the values of a column, whose rows were counted in buckets.
    InBuckets,
    /// By the values that join the sources, then by the first value of the groups.
    ByJoinKey,
    /// By periods of the window.
    ByTime,
}

/// The rows that the operators of a query made.
#[derive(Drop)]
pub struct QueryCounters {
    scans: [AtomicU64; 4],
    joins: [AtomicU64; 4],
    rows: AtomicU64,
}

// Adds to the counter of this number, if there is one.
fn add_at(counters: &[AtomicU64], number: usize, rows: usize) {
    if let Some(counter) = counters.get(number) {
        counter.fetch_add(rows as u64, Ordering::SeqCst);
    }
}

// The counter of this number; 0 if there is none.
fn count_at(counters: &[AtomicU64], number: usize) -> u64 {
    match counters.get(number) {
        Some(counter) => counter.load(Ordering::SeqCst),
        None => 0,
    }
}

fn zeros() -> [AtomicU64; 4] {
    [
        AtomicU64::new(0),
        AtomicU64::new(0),
        AtomicU64::new(0),
        AtomicU64::new(0),
    ]
}

impl QueryCounters {
    fn new() -> QueryCounters {
        QueryCounters {
            scans: zeros(),
            joins: zeros(),
            rows: AtomicU64::new(0),
        }
    }

    fn clear(&self) {
        'sources: for number in 0..4 {
            self.scans[number].store(0, Ordering::SeqCst);
            self.joins[number].store(0, Ordering::SeqCst);
        }
        self.rows.store(0, Ordering::SeqCst);
    }

    // Adds the rows of the scans of the query's sources.
    pub(crate) fn add_scans(&self, first: &Relation<'_>, others: &[Relation<'_>]) {
        add_at(&self.scans, 0, first.len());
        'others: for number in 0..others.len() {
            add_at(&self.scans, number + 1, others[number].len());
        }
    }

    // Adds the rows of the joins, in the order in which they were made.
    pub(crate) fn add_joins(&self, lens: &[usize]) {
        'joins: for number in 0..lens.len() {
            add_at(&self.joins, number, lens[number]);
        }
    }

    // Adds rows of the query.
    pub(crate) fn add_rows(&self, rows: usize) {
        self.rows.fetch_add(rows as u64, Ordering::SeqCst);
    }

    // Adds the rows of the query, unless its execution failed.
    pub(crate) fn add_all(&self, rows: &Result<Relation<'_>, AllocError>) {
        if let Ok(rows) = rows {
            self.add_rows(rows.len());
        }
    }

    /// The rows that the scan of a source made, by its number in FROM.
    pub fn scan(&self, source: usize) -> u64 {
        count_at(&self.scans, source)
    }

    /// The rows that a join made, by its number in the order of the joins. With one source, the rows that pass the condition are
    /// number 0.
    pub fn join(&self, step: usize) -> u64 {
        count_at(&self.joins, step)
    }

    /// The rows of the query, before they are coalesced.
    pub fn rows(&self) -> u64 {
        self.rows.load(Ordering::SeqCst)
    }
}

/// The rows that the operators of a plan made.
#[derive(Drop)]
pub struct Counters {
    pub left: QueryCounters,
    /// The query after EXCEPT ALL.
    pub right: QueryCounters,
    // The rows of EXCEPT ALL.
    difference: AtomicU64,
    // The number of the division, in the order of `Division`.
    division: AtomicU64,
    // 1 if the rows were coalesced by ranges of their values, else 0.
    ranges: AtomicU64,
}

impl Counters {
    pub fn new() -> Counters {
        Counters {
            left: QueryCounters::new(),
            right: QueryCounters::new(),
            difference: AtomicU64::new(0),
            division: AtomicU64::new(0),
            ranges: AtomicU64::new(0),
        }
    }

    // Sets the division, before the rows that it makes are counted: what was counted before is forgotten.
    pub(crate) fn begin(&self, division: Division) {
        let number = match division {
            Division::Undivided => 0,
            Division::ByValue => 1,
            Division::InBuckets => 2,
            Division::ByJoinKey => 3,
            Division::ByTime => 4,
        };
        self.left.clear();
        self.right.clear();
        self.difference.store(0, Ordering::SeqCst);
        self.division.store(number, Ordering::SeqCst);
    }

    // Notes that the rows are coalesced by ranges of their values.
    pub(crate) fn begin_ranges(&self) {
        self.ranges.store(1, Ordering::SeqCst);
    }

    // Adds the rows of a table that were counted in buckets, and the rows with their counts.
    pub(crate) fn add_counted(&self, rows: &Relation<'_>, counts: &[AnswerPart<'_>]) {
        self.begin(Division::InBuckets);
        self.left.add_scans(rows, &[]);
        'counts: for part in counts {
            self.left.add_rows(part.rows.len());
        }
    }

    /// How the execution was divided.
    pub fn division(&self) -> Division {
        match self.division.load(Ordering::SeqCst) {
            1 => Division::ByValue,
            2 => Division::InBuckets,
            3 => Division::ByJoinKey,
            4 => Division::ByTime,
            _ => Division::Undivided,
        }
    }

    /// Whether the rows were coalesced by ranges of their values.
    pub fn has_ranges(&self) -> bool {
        self.ranges.load(Ordering::SeqCst) > 0
    }

    // Adds the rows of EXCEPT ALL, unless its execution failed.
    pub(crate) fn add_difference(&self, rows: &Result<Relation<'_>, AllocError>) {
        if let Ok(rows) = rows {
            self.difference
                .fetch_add(rows.len() as u64, Ordering::SeqCst);
        }
    }

    /// The rows of EXCEPT ALL, before they are coalesced.
    pub fn difference(&self) -> u64 {
        self.difference.load(Ordering::SeqCst)
    }
}
