//! The steps of reading a table's file, exported for the parallel loader.

pub use crate::header::{MAX_COLUMNS, read_header};
pub use crate::loading::read_name;
pub use crate::projection::wanted_columns;
pub use crate::reading::read_entry;
pub use crate::records::{begins_with_bom, has_two_boms, next_record, record_reader};
