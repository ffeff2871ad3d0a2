//! Summands: what a total adds for each row of a group.

ghost use Rattle.std.specs.Prelude.{◌≡◌, ◌∷◌, map, IfOk};
ghost use Rattle.tq_agg.specs.declared.summands.Summand.TheVariants.{Column, One};
ghost use Rattle.tq_base.specs.RowValues.{number_of};
ghost use Rattle.tq_agg.specs.Totals.{weight_of, AreWeights, HaveWeights};

use std::alloc::{AllocError, Global};
use tq_base::{Relation, Row, Value, ValueRef};

// What each row adds to a total: 1, or the number in the column. A text and a column that the row does not have count as 0.
#[derive(Clone, Copy)]
pub(crate) enum Summand {
    One,
    Column(u32),
}

// The number of the value, 0 for a text.
pub(crate) fn number_of(value: &Value) -> i128
    ensures { result ≡ number_of value.now }
{
    match value.as_ref() {
        ValueRef::Int(number) => number,
        ValueRef::Text(_) => 0,
    }
}

// What the row adds. A count reads no value.
pub(crate) fn weight(summand: Summand, row: &Row<'_>) -> i128
    ensures { result ≡ weight_of summand row.now }
{
    let column = match summand {
        Summand::One => return 1,
        Summand::Column(column) => column,
    };
    number_of(row.value(column as usize))
}

// What each row adds for a column, in the order of rows, up to the first number of more than 64 signed bits. A sweep
// needs each number twice, in the order of time. One loop here puts them into cache lines of 8 numbers.
fn weights_in(alloc: Global, rows: &Relation<'_>, column: u32) -> Result<Vec<i64>, AllocError>
    ensures { IfOk result (λ weights. AreWeights rows.now.items (Column column) weights.items) }
{
    let values = rows.column(column as usize);
    let len = rows.len() as u32;
    let mut weights = Vec::with_capacity(alloc, rows.len())?;
    'rows: for row in 0..len {
        match i64::try_from(number_of(values.value(row as usize))) {
            Ok(weight) => weights.push(weight)?,
            Err(_) => break,
        }
    }
    Ok(weights)
}

// What each row adds for the summand. The list is empty for a count, to which each row adds 1.
fn weights_to(alloc: Global, rows: &Relation<'_>, summand: Summand) -> Result<Vec<i64>, AllocError>
    ensures { IfOk result (λ weights. AreWeights rows.now.items summand weights.items) }
{
    match summand {
        Summand::One => Ok(Vec::new(alloc)),
        Summand::Column(column) => weights_in(alloc, rows, column),
    }
}

// For each summand, what each row adds, as far as it is listed.
pub(crate) fn weights_of(
    alloc: Global,
    rows: &Relation<'_>,
    summands: &[Summand],
) -> Result<Vec<Vec<i64>>, AllocError>
    ensures { IfOk result (λ weights. HaveWeights rows.now.items summands.now (map (λ list. list.items) weights.items)) }
{
    let mut weights = Vec::with_capacity(alloc, summands.len())?;
    'summands: for summand in summands {
        weights.push(weights_to(alloc, rows, *summand)?)?;
    }
    Ok(weights)
}

// The count of rows, then the sum of each column.
pub(crate) fn summands_of(alloc: Global, columns: &[u32]) -> Result<Vec<Summand>, AllocError>
    ensures { IfOk result (λ summands. summands.items ≡ One ∷ map Column columns.now) }
{
    let mut summands = Vec::with_capacity(alloc, columns.len())?;
    summands.push(Summand::One)?;
    'columns: for column in columns {
        summands.push(Summand::Column(*column))?;
    }
    Ok(summands)
}
