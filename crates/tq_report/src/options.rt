// How a table is written.

use crate::format::Format;
use tq_base::Form;

/// How a table is written. `form` says how instants are written; if `inclusive` is set, the last instant of a period is
/// written instead of its end. `places` has the number of digits after the decimal point of each column, 0 for whole
/// numbers; a column beyond the list has 0.
#[derive(Drop, Debug)]
pub struct ReportOptions {
    pub format: Format,
    pub form: Form,
    pub inclusive: bool,
    pub places: Vec<u32>,
}
