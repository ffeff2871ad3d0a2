//! The range to which a condition restricts the number in a column.

ghost use Rattle.std.specs.Prelude.{◌≡◌, ◌≢◌, ℤ, false, not, FitsSigned, IfSome, IsTrue, List};
ghost use Rattle.std.specs.Int.{w64};
ghost use Rattle.std.specs.Ordering.{int_cmp, ordering_reverse};
ghost use Rattle.std.specs.declared.cmp.Ordering.{Ordering};
ghost use Rattle.tq_base.specs.RowValues.{value_at};
ghost use Rattle.tq_base.specs.declared.value.Value.{Value};
ghost use Rattle.tq_base.specs.Contents.{Int};
ghost use Rattle.tq_base.specs.KeyRanges.{IsInRange, IsInSomeRange};
ghost use Rattle.tq_base.specs.ValueOrder.{value_cmp};
ghost use Rattle.tq_condition.specs.Conditions.{accepts, operand_value};
ghost use Rattle.tq_condition.specs.KeyRanges.{HasValueRange, HasCompared, IsSufficient, BoundsNumbers, BoundsWithin};
ghost use Rattle.tq_condition.specs.Known.{agrees};

use crate::condition::{Compare, Operand, Test};
use tq_base::{KeyRange, Value, ValueRef};

impl Compare {
    // The comparison that holds exactly if this one does not.
    fn negated(self) -> Compare
        ensures { (order : Ordering) → accepts result order ≡ not (accepts self order) }
    {
        match self {
            Compare::Eq => Compare::Ne,
            Compare::Ne => Compare::Eq,
            Compare::Lt => Compare::Ge,
            Compare::Le => Compare::Gt,
            Compare::Gt => Compare::Le,
            Compare::Ge => Compare::Lt,
        }
    }

    /// The comparison that holds exactly if this one has the truth `wanted`.
    pub fn agreeing(self, wanted: bool) -> Compare
        ensures { (order : Ordering) → accepts result order ≡ agrees (accepts self order) wanted }
    {
        if wanted { self } else { self.negated() }
    }

    // The comparison with its operands exchanged.
    fn reversed(self) -> Compare
        ensures { (order : Ordering) → accepts result order ≡ accepts self (ordering_reverse order) }
    {
        match self {
            Compare::Eq => Compare::Eq,
            Compare::Ne => Compare::Ne,
            Compare::Lt => Compare::Gt,
            Compare::Le => Compare::Ge,
            Compare::Gt => Compare::Lt,
            Compare::Ge => Compare::Le,
        }
    }
}

// The numbers of 64 signed bits for which `n op number` holds; for `<>`, all of them.
fn range_for_number(op: Compare, number: i64) -> Option<KeyRange>
    ensures all { (n : ℤ) → FitsSigned w64 n → IsTrue (accepts op (int_cmp n number)) → IsInSomeRange result n }
    ensures exact { op ≢ Compare.Ne → (n : ℤ) → IsInSomeRange result n → IsTrue (accepts op (int_cmp n number)) }
{
    match op {
        Compare::Eq => KeyRange::new(number, number),
        Compare::Ne => Some(KeyRange::all()),
        Compare::Lt => KeyRange::new(i64::MIN, number.checked_sub(1)?),
        Compare::Le => KeyRange::new(i64::MIN, number),
        Compare::Gt => KeyRange::new(number.checked_add(1)?, i64::MAX),
        Compare::Ge => KeyRange::new(number, i64::MAX),
    }
}

// The range of the numbers of 64 signed bits for which `n op value` holds; all if the value is not such a number.
fn range_for_value(op: Compare, value: &Value) -> Option<KeyRange>
    ensures { HasValueRange op value.now result }
{
    match value.as_ref() {
        ValueRef::Int(number) => match i64::try_from(number) {
            Ok(number) => range_for_number(op, number),
            Err(_) => Some(KeyRange::all()),
        },
        ValueRef::Text(_) => Some(KeyRange::all()),
    }
}

// A range of the numbers in column `place` of the rows for which the comparison holds. It is all numbers unless the
// comparison is between that column and a number.
fn compared_numbers(left: &Operand, op: Compare, right: &Operand, place: u32) -> Option<KeyRange>
    ensures { HasCompared left.now op right.now place result }
{
    match (left, right) {
        (Operand::Column(column), Operand::Literal(value)) if *column == place => {
            range_for_value(op, value)
        }
        (Operand::Literal(value), Operand::Column(column)) if *column == place => {
            range_for_value(op.reversed(), value)
        }
        _ => Some(KeyRange::all()),
    }
}

// The intersection of both.
fn common_of(one: Option<KeyRange>, other: Option<KeyRange>) -> Option<KeyRange>
    ensures { (n : ℤ) → IsInSomeRange one n → IsInSomeRange other n → IsInSomeRange result n }
{
    match (one, other) {
        (Some(one), Some(other)) => one.common(other),
        _ => None,
    }
}

// The least range that holds both.
fn hull_of(one: Option<KeyRange>, other: Option<KeyRange>) -> Option<KeyRange>
    ensures one { (n : ℤ) → IsInSomeRange one n → IsInSomeRange result n }
    ensures other { (n : ℤ) → IsInSomeRange other n → IsInSomeRange result n }
{
    match (one, other) {
        (Some(one), Some(other)) => Some(one.hull(other)),
        (None, other) => other,
        (one, None) => one,
    }
}

// The numbers that a condition allows: those in `also`, and those in `within` that the rest of the condition allows.
#[derive(Clone, Copy)]
struct AllowedNumbers {
    within: Option<KeyRange>,
    also: Option<KeyRange>,
}

impl AllowedNumbers {
    // Adds one more part. If both are required, the rest allows no other numbers than those of the part. Otherwise
    // either suffices, and the part's numbers are allowed too.
    fn with_part(self, both: bool, part: Option<KeyRange>) -> AllowedNumbers
        ensures also { (n : ℤ) → IsInSomeRange self.also n → IsInSomeRange result.also n }
        ensures both { IsTrue both → (n : ℤ) → IsInSomeRange part n → IsInSomeRange result.within n }
        ensures within { both ≡ false → (n : ℤ) → IsInSomeRange self.within n → IsInSomeRange result.within n }
        ensures either { both ≡ false → (n : ℤ) → IsInSomeRange part n → IsInSomeRange result.also n }
    {
        if both {
            AllowedNumbers {
                within: part,
                also: self.also,
            }
        } else {
            AllowedNumbers {
                within: self.within,
                also: hull_of(self.also, part),
            }
        }
    }
}

impl Test {
    /// A range of the numbers in column `place` of the rows that pass: if a row passes and has a number of 64 signed
    /// bits there, that number lies in the range. `None` only if no such row passes. A comparison of the column with a
    /// number restricts the range to the numbers that pass, except for `<>`; other comparisons do not restrict it.
    pub fn numbers_at(&self, place: u32) -> Option<KeyRange>
        ensures { BoundsNumbers self.now place result }
    {
        self.numbers_within(true, place, Some(KeyRange::all()))
    }

    // `numbers_at` for rows on which the condition has the truth `wanted` and whose number lies in `within`. If both
    // parts of a pair must have that truth, the range of the last one narrows that of the first. So the walk goes down
    // a chain in a loop.
    fn numbers_within(&self, wanted: bool, place: u32, within: Option<KeyRange>) -> Option<KeyRange>
        ensures { BoundsWithin self.now wanted place within result }
    {
        let mut wanted = wanted;
        let mut allowed = AllowedNumbers { within, also: None };
        let mut part = self;
        'parts: loop {
            match part {
                Test::Is { left, op, right } => {
                    let numbers = compared_numbers(left, op.agreeing(wanted), right, place);
                    return hull_of(allowed.also, common_of(numbers, allowed.within));
                }
                Test::And(first, last) => {
                    let numbers = last.get().numbers_within(wanted, place, allowed.within);
                    allowed = allowed.with_part(wanted, numbers);
                    part = first.get();
                }
                Test::Or(first, last) => {
                    let numbers = last.get().numbers_within(wanted, place, allowed.within);
                    allowed = allowed.with_part(!wanted, numbers);
                    part = first.get();
                }
                Test::Not(inner) => {
                    wanted = !wanted;
                    part = inner.get();
                }
            }
        }
    }
}

// A range of numbers of 64 signed bits for which `n op value` holds; `None` if it cannot be read off the value.
fn inner_range(op: Compare, value: &Value) -> Option<KeyRange>
    ensures { (n : ℤ) → IsInSomeRange result n → IsTrue (accepts op (value_cmp (Int n) value.now)) }
{
    if op == Compare::Ne {
        return None;
    }
    match value.as_ref() {
        ValueRef::Int(number) => match i64::try_from(number) {
            Ok(number) => range_for_number(op, number),
            Err(_) => None,
        },
        ValueRef::Text(_) => None,
    }
}

/// A range of numbers in a column that are sufficient: a row with one of them passes the condition.
#[derive(Clone, Copy)]
pub struct SufficientRange {
    pub column: u32,
    pub range: KeyRange,
}

impl SufficientRange {
    // The numbers in both ranges, if they are of one column.
    fn both(self, other: SufficientRange) -> Option<SufficientRange>
        ensures column { IfSome result (λ both. both.column ≡ self.column) }
        ensures same { IfSome result (λ both. both.column ≡ other.column) }
        ensures one { IfSome result (λ both. (n : ℤ) → IsInRange both.range n → IsInRange self.range n) }
        ensures other { IfSome result (λ both. (n : ℤ) → IsInRange both.range n → IsInRange other.range n) }
    {
        if self.column != other.column {
            return None;
        }
        Some(SufficientRange {
            column: self.column,
            range: self.range.common(other.range)?,
        })
    }
}

// The numbers in a column that are sufficient for the comparison with a literal to hold.
fn sufficient_comparison(left: &Operand, op: Compare, right: &Operand) -> Option<SufficientRange>
    ensures { IfSome result (λ e. (row : List Value) (n : ℤ) → value_at row e.column ≡ Int n → IsInRange e.range n
        → IsTrue (accepts op (value_cmp (operand_value left.now row) (operand_value right.now row)))) }
{
    match (left, right) {
        (Operand::Column(column), Operand::Literal(value)) => Some(SufficientRange {
            column: *column,
            range: inner_range(op, value)?,
        }),
        _ => None,
    }
}

impl Test {
    // The sufficient numbers of a condition that is one comparison.
    fn sufficient_of_one(&self) -> Option<SufficientRange>
        ensures { IfSome result (λ e. IsSufficient self.now e.column e.range) }
    {
        match self {
            Test::Is { left, op, right } => sufficient_comparison(left, *op, right),
            _ => None,
        }
    }

    /// The sufficient numbers of a condition that is a comparison of a column with a number, or two such comparisons of
    /// one column joined by AND.
    pub fn sufficient_range(&self) -> Option<SufficientRange>
        ensures { IfSome result (λ e. IsSufficient self.now e.column e.range) }
    {
        match self {
            Test::And(first, last) => {
                let one = first.get().sufficient_of_one()?;
                one.both(last.get().sufficient_of_one()?)
            }
            _ => self.sufficient_of_one(),
        }
    }
}
