//! A summary of tables, as text, for a first look at data.
//!
//! `check` loads files and describes each table: columns, number of rows, rows without an end, first start, last
//! change, and how many rows overlap or meet an earlier row with equal values. If wanted, it lists which rows overlap
//! an earlier row of their key, and which gaps there are between rows of a key. After that, it lists the rows of a
//! table that have no parent in another table at some time.
//!
//! The contract cites `IsSummaryOf` in `specs/Reports.antt` and `AreReferenceTexts` in `specs/ReferenceReports.antt`.
//! `specs/Numbers.antt` defines the numbers, `specs/EqualRows.antt` those of equal rows, `specs/KeyRows.antt` those of
//! keys, and `specs/Orphans.antt` those of references.
//!
//! Open `src/report.rt` first; `src/equal_rows.rt`, `src/findings.rt`, `src/covers.rt` and `src/orphans.rt` have the
//! algorithms.
#![tactic(auto)]

mod checking;
mod covers;
mod equal_rows;
mod findings;
mod key_report;
mod key_rows;
pub mod laws;
mod missing;
mod numbers;
mod orphans;
mod reference_report;
mod references;
mod report;
mod text;

pub use checking::{CheckFault, CheckOptions, check};
pub use key_report::KeyChecks;
pub use reference_report::references_text;
pub use references::{
    ColumnName, ColumnPlace, Part, Reference, ReferenceFault, ReferenceNames, RefusedReference,
    read_reference, resolve, resolve_all,
};
pub use report::check_text;
