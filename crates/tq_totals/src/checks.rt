// What rows need to have totals: periods with ends, and numbers in the summed columns.

ghost use Rattle.std.specs.Prelude.{◌≡◌, ◌<◌, ℕ, All, IfErr, List, OnOk};
ghost use Rattle.std.specs.List.{find};
ghost use Rattle.tq_base.specs.declared.period.TheConstants.{FOREVER};
ghost use Rattle.tq_totals.specs.Totals.{has_text, is_text, HaveEnds, HaveNumbers, IsFault};

use crate::fault::TotalsFault;
use tq_base::{FOREVER, Row, Value, ValueRef};
use tq_table::ResultRows;

fn is_text(value: &Value) -> bool
    ensures { result ≡ is_text value.now }
{
    match value.as_ref() {
        ValueRef::Int(_) => false,
        ValueRef::Text(_) => true,
    }
}

// The first of the columns in which the row has a text.
fn text_column(row: &Row<'_>, summed: &[u32]) -> Option<u32>
    ensures { result ≡ find (has_text row.now) summed.now }
{
    'columns: for column in summed {
        if is_text(row.value(*column as usize)) {
            return Some(*column);
        }
    }
    None
}

/// `OpenEnd` if a row's period has no end.
pub(crate) fn check_ends(rows: &ResultRows<'_>) -> Result<(), TotalsFault>
    ensures ok { OnOk result (HaveEnds rows.now) }
    ensures ended { OnOk result (All (λ row. row.period.end < FOREVER) rows.now) }
    ensures fault { (by summed : List ℕ) → IfErr result (IsFault by summed rows.now) }
{
    'rows: for row in 0..rows.len() {
        if rows.period(row).end.number() == FOREVER {
            return Err(TotalsFault::OpenEnd {
                row: row as u64 + 1,
            });
        }
    }
    Ok(())
}

/// `Text` if a row has a text in one of the columns.
pub(crate) fn check_numbers(rows: &ResultRows<'_>, summed: &[u32]) -> Result<(), TotalsFault>
    ensures ok { OnOk result (HaveNumbers summed.now rows.now) }
    ensures fault { (by : List ℕ) → HaveEnds rows.now → IfErr result (IsFault by summed.now rows.now) }
{
    'rows: for row in 0..rows.len() {
        if let Some(column) = text_column(&rows.row(row), summed) {
            return Err(TotalsFault::Text {
                column,
                row: row as u64 + 1,
            });
        }
    }
    Ok(())
}
