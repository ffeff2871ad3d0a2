//! The vocabulary of valid-time tables: instants, bounds, periods, names, values, rows, relations, schemas, sort keys.
//!
//! The definitions in `specs/` say what is valid at an instant (`at`), with how many copies (`copies`), and what the
//! layers of that count are. `IsLayers m table`: the table is ordered, coalesced, and has exactly these copies at each
//! instant. There is exactly one such table (the laws in `src/laws.rt`). Contracts of the crates above cite these
//! definitions.
//!
//! Open `src/period.rt` and `src/value.rt` first, then `specs/Layers.antt`. README.md describes how rows are stored.
#![tactic(auto)]

mod catalogue;
mod column_view;
mod dates;
mod dense;
mod form;
mod fragment;
mod key_range;
mod keys;
pub mod laws;
mod list;
mod medium_text;
mod name;
mod number;
mod packed;
mod parts;
mod period;
mod place_view;
mod prefetch;
mod prefixes;
mod relation;
mod row;
mod rows;
mod short_text;
mod sort_input;
mod tie_break;
mod value;
mod values;

pub use catalogue::{Catalogue, Column, Kind, MAX_TEXT, Schema};
pub use column_view::ColumnView;
pub use dates::LAST_DAY;
pub use form::{Form, put_instant, read_bound, read_instant};
pub use fragment::Fragment;
pub use key_range::KeyRange;
pub use keys::is_exact;
pub use list::List;
pub use name::{
    MAX_NAME, Name, RESERVED, fold_name, is_name, is_name_byte, is_name_start, is_reserved,
    is_same_word, word_length,
};
pub use number::{read_int, read_natural};
pub use period::{Bound, FOREVER, Instant, Period};
pub use prefixes::normalized_key;
pub use relation::{Pair, Relation, RowPeriod};
pub use row::Row;
pub use rows::Rows;
pub use sort_input::{RunStart, Side, SortInput, SortKey, all_columns};
pub use value::{Text, Value, ValueRef};
pub use values::Values;
