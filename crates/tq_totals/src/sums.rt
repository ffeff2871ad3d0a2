// Sums of numbers, each times the length of its period.

ghost use Rattle.std.specs.Prelude.{◌≡◌, ◌≤◌, ◌<◌, ◌+◌, ◌-◌, ◌*◌, ◌^◌, [], ◌∷◌, ◌++◌, IfErr, IfOk, List, OnOk, SomeIff, map, unsigned_abs};
ghost use Rattle.tq_base.specs.declared.fragment.Fragment.{Fragment};
ghost use Rattle.tq_base.specs.RowValues.{number_of};
ghost use Rattle.tq_totals.specs.Sums.{row_sum, sum_more, IsTooLarge};

use std::alloc::{AllocError, Global};
use std::marker::Model;
use tq_base::{List, Period, Row, Value, ValueRef};

// The sizes that add up in a sum stay below this limit, 2^127.
const LIMIT: u128 = 1 << 127;

/// A sum of numbers, each times the length of its period, and the sum of their sizes.
#[derive(Clone, Copy, Drop, Debug)]
pub(crate) struct Sum {
    pub(crate) total: i128,
    pub(crate) size: u128,
}

/// A sum for each summed column. Contracts see their list.
#[derive(Drop, Debug)]
pub(crate) struct Sums {
    items: Vec<Sum>,
}

impl Model for Sums {
    ghost use Rattle.std.specs.Prelude.{List};
    ghost use Rattle.tq_totals.specs.declared.sums.Sum.{Sum as OneSum};

    ghost Value = { List OneSum };

    ghost view = { λ s. s.items.items };
}

// Adds a number times a length. `None` if the sizes add up to 2^127 or more.
fn sum_more(sum: Sum, number: i128, len: u64) -> Option<Sum>
    requires { unsigned_abs sum.total ≤ sum.size }
    ensures { SomeIff result (sum.size + unsigned_abs number * len < 2 ^ 127) (sum_more sum number len) }
{
    let size = number.unsigned_abs().checked_mul(u128::from(len))?;
    let size = size.checked_add(sum.size)?;
    if size >= LIMIT {
        return None;
    }
    let total = sum.total + number * i128::from(len);
    Some(Sum { total, size })
}

// The number of a value; a text counts as 0.
fn number_of(value: &Value) -> i128
    ensures { result ≡ number_of value.now }
{
    match value.as_ref() {
        ValueRef::Int(number) => number,
        ValueRef::Text(_) => 0,
    }
}

fn length_of(period: Period) -> u64
    ensures { result ≡ period.end - period.start }
{
    period.end.number() - period.start.number()
}

// Adds a row to the sum of each column. On error, a column in which the sizes add up to 2^127 or more.
fn add_row(sums: &mut Vec<Sum>, row: &Row<'_>, period: Period, summed: &[u32]) -> Result<(), u32>
    requires { (rows : List Fragment) × (sums.old.items ≡ map (row_sum rows) summed.now) }
    ensures sums { (rows : List Fragment) → sums.old.items ≡ map (row_sum rows) summed.now
        → OnOk result (sums.new.items ≡ map (row_sum (rows ++ record { values = row.now; period = period } ∷ [])) summed.now) }
    ensures large { (rows : List Fragment) → sums.old.items ≡ map (row_sum rows) summed.now
        → IfErr result (IsTooLarge summed.now (rows ++ record { values = row.now; period = period } ∷ [])) }
{
    let len = length_of(period);
    'columns: for place in 0..summed.len() {
        let column = summed[place];
        let number = number_of(row.value(column as usize));
        match sum_more(sums[place], number, len) {
            Some(sum) => sums[place] = sum,
            None => return Err(column),
        }
    }
    Ok(())
}

impl Sums {
    /// The sums of a group without rows. `AllocError` if an allocation failed.
    pub(crate) fn zero(alloc: Global, summed: &[u32]) -> Result<Sums, AllocError>
        ensures { IfOk result (λ sums. sums ≡ map (row_sum []) summed.now) }
    {
        let mut items = Vec::new(alloc);
        'columns: for _column in summed {
            items.push(Sum { total: 0, size: 0 })?;
        }
        Ok(Sums { items })
    }

    /// Adds a row. On error, a column in which the sizes add up to 2^127 or more.
    pub(crate) fn add_row(
        &mut self,
        row: &Row<'_>,
        period: Period,
        summed: &[u32],
    ) -> Result<(), u32>
        requires { (rows : List Fragment) × (self.old ≡ map (row_sum rows) summed.now) }
        ensures sums { (rows : List Fragment) → self.old ≡ map (row_sum rows) summed.now
            → OnOk result (self.new ≡ map (row_sum (rows ++ record { values = row.now; period = period } ∷ [])) summed.now) }
        ensures large { (rows : List Fragment) → self.old ≡ map (row_sum rows) summed.now
            → IfErr result (IsTooLarge summed.now (rows ++ record { values = row.now; period = period } ∷ [])) }
    {
        add_row(&mut self.items, row, period, summed)
    }

    /// The totals. `AllocError` if an allocation failed.
    pub(crate) fn totals(&self, alloc: Global) -> Result<List<i128>, AllocError>
        ensures { IfOk result (λ totals. totals ≡ map (λ sum. sum.total) self.now) }
    {
        let mut totals = Vec::with_capacity(alloc, self.items.len())?;
        'sums: for sum in &self.items {
            totals.push(sum.total)?;
        }
        Ok(List::of(totals))
    }
}
