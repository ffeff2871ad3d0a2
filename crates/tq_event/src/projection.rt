// Which columns of a table are wanted.

ghost use Rattle.std.specs.Prelude.{◌≡◌};
ghost use Rattle.tq_event.specs.Projection.{is_wanted, wanted_lists, wanted_of};

/// Which columns of the table are wanted, from the first on; columns after the end of the list are wanted.
pub fn wanted_columns(wanted: &[Vec<bool>], table: u32) -> &[bool]
    ensures { result.now ≡ wanted_of (wanted_lists wanted.entry.now) table }
{
    match wanted.get(table as usize) {
        Some(columns) => columns.as_slice(),
        None => &[],
    }
}

/// Whether the column is wanted.
pub fn is_wanted(wanted: &[bool], column: usize) -> bool
    ensures { result ≡ is_wanted wanted.now column }
{
    wanted.get(column).copied().unwrap_or(true)
}
