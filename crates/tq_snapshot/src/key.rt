//! The index keys of open rows.

ghost use Rattle.std.specs.Prelude.{◌≡◌, ◌+◌, ◌*◌};
ghost use Rattle.tq_snapshot.specs.OpenRows.{index_key};

use crate::digest::digest;
use tq_base::Values;
use tq_store::{ROWS, first_key};

// The index key of the row's key (shifted to be 0 or more), the digest of its values, and its number. There are `ROWS`
// digests, as there are row numbers.
fn place(key: u64, digest: u32, row: u32) -> u128
    ensures { result ≡ (key * 4294967296 + digest) * 4294967296 + row }
{
    (u128::from(key) * ROWS + u128::from(digest)) * ROWS + u128::from(row)
}

// The index key of an open row with these values and this number.
pub(crate) fn open_key(values: &Values, row: u32) -> u128
    ensures { result ≡ index_key values.now row }
{
    place(first_key(values.get()), digest(values), row)
}
