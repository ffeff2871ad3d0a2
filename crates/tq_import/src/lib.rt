//! From the CSV files that people have to table files.
//!
//! A `Plan` says which fields of a record are columns, and how their values and the period are written. `import` reads
//! the records of a file one at a time and writes a table file. Its contract cites `import_of` in `specs/Imports.antt`:
//! the text of the table file, or the first fault. `specs/Amounts.antt`, `specs/Dates.antt`, `specs/Clock.antt`
//! and `specs/Times.antt` define how numbers, dates, times of days and periods are converted.
//!
//! Open `src/plan.rt` first, then `src/converting.rt`.
#![tactic(auto)]

mod amounts;
mod clock;
mod converting;
mod dates;
mod decoding;
mod digits;
mod encoding;
mod fault;
mod importing;
mod kinds;
pub mod laws;
mod lines;
mod messages;
mod names;
mod options;
mod part;
mod plan;
mod planning;
mod reading;
mod scratch;
mod separating;
mod times;
mod whole;
mod words;
mod writing;

pub use dates::is_date_format;
pub use encoding::Encoding;
pub use fault::{ImportFault, InputFault, NumberedFault, RecordFault, RecordFaultKind};
pub use importing::import_records;
pub use kinds::find_kinds;
pub use messages::{fault_text, import_text};
pub use names::suggested_name;
pub use options::{GivenKind, ImportOptions, Rename, Selection};
pub use part::{Imported, Rejects, Separated};
pub use plan::{Conversion, NumberFormat, Plan, PlannedColumn, TimeFormat, TimeUnit};
pub use planning::{PlanFault, PlanFaultKind, plan_import};
pub use reading::{next_record, record_reader};
pub use whole::{FileFault, ReadRecords, ValidImport, find_file_kinds, import, import_valid};
pub use words::{ColumnWords, ImportWords, PeriodWords, WordFault, read_words};
