//! Conditions on rows of which all values are known, or only some.

ghost use Rattle.std.specs.Prelude.{◌≡◌, ◌++◌, pos, IsTrue};
ghost use Rattle.std.specs.Option.{option_copied};
ghost use Rattle.tq_base.specs.Contents.{Int};
ghost use Rattle.tq_condition.specs.declared.condition.Operand.TheVariants.{Column};
ghost use Rattle.tq_base.specs.RowValues.{value_at};
ghost use Rattle.tq_condition.specs.Known.{column_value, known_value, may_be, may_compare, may_pass, IsKnownTest, IsKnownOperand};

use crate::condition::{Compare, Operand, Test};
use tq_base::{Row, Value};

// What is known of a row.
#[derive(Clone, Copy)]
pub(crate) enum Known<'a> {
    // These values are the row.
    Values(&'a [Value]),
    // This is the row.
    Whole(&'a Row<'a>),
    // The row is the first one followed by the second.
    Both(&'a Row<'a>, &'a Row<'a>),
    // The columns of this row are those of the whole row from `.1` on; the others are unknown.
    Part(&'a Row<'a>, usize),
}

// The value in a column of the left row followed by the right one; the number 0 if there is no such column.
fn value_in_both<'a>(left: &'a Row<'a>, right: &'a Row<'a>, column: u32) -> &'a Value
    ensures { result.now ≡ value_at (left.now ++ right.now) column }
{
    match (column as usize).checked_sub(left.len()) {
        Some(place) => right.value(place),
        None => left.value(column as usize),
    }
}

// The value in a column of a row whose columns from `first` on are known; `None` if it is not known.
fn value_in_part<'a>(part: &'a Row<'a>, first: usize, column: u32) -> Option<&'a Value>
    ensures { option_copied result ≡ column_value first part.now column }
{
    let place = (column as usize).checked_sub(first)?;
    if place < part.len() {
        Some(part.value(place))
    } else {
        None
    }
}

// Whether the operand's value is known if `count` columns from `first` on are.
fn is_known(operand: &Operand, first: usize, count: usize) -> bool
    ensures { IsTrue result → IsKnownOperand operand.now first count }
{
    match operand {
        Operand::Literal(_) => true,
        Operand::Column(column) => match (*column as usize).checked_sub(first) {
            Some(place) => place < count,
            None => false,
        },
    }
}

// The value in the column, if it is known; the number 0 if the row does not have the column.
fn value_in<'a>(known: Known<'a>, column: u32, zero: &'a Value) -> Option<&'a Value>
    requires { zero.now ≡ Int (pos 0) }
    ensures { option_copied result ≡ known_value known.entry (Column column) }
{
    match known {
        Known::Values(row) => Some(row.get(column as usize).unwrap_or(zero)),
        Known::Whole(row) => Some(row.value(column as usize)),
        Known::Both(left, right) => Some(value_in_both(left, right, column)),
        Known::Part(part, first) => value_in_part(part, first, column),
    }
}

// The operand's value, if it is known.
fn value_of<'a>(known: Known<'a>, operand: &'a Operand, zero: &'a Value) -> Option<&'a Value>
    requires { zero.now ≡ Int (pos 0) }
    ensures { option_copied result ≡ known_value known.entry operand.now }
{
    match operand {
        Operand::Literal(value) => Some(value),
        Operand::Column(column) => value_in(known, *column, zero),
    }
}

// Whether the comparison can have the truth `wanted`.
fn may_compare(known: Known<'_>, one: &Operand, op: Compare, other: &Operand, wanted: bool) -> bool
    ensures { result ≡ may_compare op (known_value known.entry one.now) (known_value known.entry other.now) wanted }
{
    let zero = Value::int(0);
    match (value_of(known, one, &zero), value_of(known, other, &zero)) {
        (Some(one), Some(other)) => op.accepts(one.compare(other)) == wanted,
        _ => true,
    }
}

impl Test {
    /// Whether a row can pass whose columns from `first` on are those of `part`. `false` only if no such row passes.
    /// Each comparison is judged by itself; one with an unknown value can have either truth.
    pub fn may_pass(&self, part: &Row<'_>, first: usize) -> bool
        ensures { result ≡ may_pass first part.now self.now }
    {
        self.may_be(Known::Part(part, first), true)
    }

    /// Whether `count` known columns from `first` on determine each operand, so that they decide the condition.
    pub fn is_known(&self, first: usize, count: usize) -> bool
        ensures { IsTrue result → IsKnownTest self.now first count }
    {
        let mut part = self;
        'parts: loop {
            match part {
                Test::Is { left, op: _, right } => {
                    return is_known(left, first, count) && is_known(right, first, count);
                }
                Test::And(one, last) | Test::Or(one, last) => {
                    if !last.get().is_known(first, count) {
                        return false;
                    }
                    part = one.get();
                }
                Test::Not(inner) => part = inner.get(),
            }
        }
    }

    // Whether the condition can have the truth `wanted`. If the last part of a pair does not decide it, the first part
    // does, so the walk goes down a chain in a loop.
    pub(crate) fn may_be(&self, known: Known<'_>, wanted: bool) -> bool
        ensures { result ≡ may_be (known_value known.entry) self.now wanted }
    {
        let mut wanted = wanted;
        let mut part = self;
        'parts: loop {
            match part {
                Test::Is { left, op, right } => return may_compare(known, left, *op, right, wanted),
                Test::And(first, last) => {
                    if last.get().may_be(known, wanted) != wanted {
                        return !wanted;
                    }
                    part = first.get();
                }
                Test::Or(first, last) => {
                    if last.get().may_be(known, wanted) == wanted {
                        return wanted;
                    }
                    part = first.get();
                }
                Test::Not(inner) => {
                    wanted = !wanted;
                    part = inner.get();
                }
            }
        }
    }
}
