//! Conditions on the values of one row.

ghost use Rattle.std.specs.Prelude.{◌≡◌, ◌++◌, IfOk, List};
ghost use Rattle.std.specs.Option.{option_copied};
ghost use Rattle.tq_base.specs.declared.value.Value.{Value as AnyValue};
ghost use Rattle.tq_condition.specs.Conditions.{accepts, operand_value, passes};
ghost use Rattle.tq_condition.specs.Ordinary.{admits, projection};
ghost use Rattle.tq_condition.specs.Steps.{rebuilt};

use crate::known::Known;
use sqlite_items::Boxed;
use std::alloc::{AllocError, Global};
use std::cmp::Ordering;
use tq_base::{Row, Value, Values};

/// An operand of a comparison: the value in a column of the row, numbered from 0, or a literal.
#[derive(Drop, Debug)]
pub enum Operand {
    Column(u32),
    Literal(Value),
}

/// A comparison operator.
#[derive(Clone, Copy, PartialEq, Eq, Debug)]
pub enum Compare {
    Eq,
    Ne,
    Lt,
    Le,
    Gt,
    Ge,
}

impl Operand {
    /// An equal operand; `AllocError` if an allocation failed.
    pub fn try_copy(&self) -> Result<Operand, AllocError>
        ensures { IfOk result (λ operand. operand ≡ self.now) }
    {
        match self {
            Operand::Column(column) => Ok(Operand::Column(*column)),
            Operand::Literal(value) => Ok(Operand::Literal(value.try_copy()?)),
        }
    }

    // The operand whose value in a row is the value of this operand in the given columns of the row.
    fn on_columns(&self, columns: &[u32]) -> Result<Operand, AllocError>
        ensures { (row : List AnyValue) → IfOk result (λ operand. operand_value operand row ≡ operand_value self.now (projection columns.now row)) }
    {
        match self {
            Operand::Column(place) => match columns.get(*place as usize) {
                Some(column) => Ok(Operand::Column(*column)),
                None => Ok(Operand::Literal(Value::int(0))),
            },
            Operand::Literal(value) => Ok(Operand::Literal(value.try_copy()?)),
        }
    }
}

impl Compare {
    /// Whether the comparison holds for two values in this order.
    pub fn accepts(self, order: Ordering) -> bool
        ensures { result ≡ accepts self order }
    {
        match self {
            Compare::Eq => order.is_eq(),
            Compare::Ne => order.is_ne(),
            Compare::Lt => order.is_lt(),
            Compare::Le => order.is_le(),
            Compare::Gt => order.is_gt(),
            Compare::Ge => order.is_ge(),
        }
    }
}

/// A condition on one row. A chain of AND or of OR nests to the left.
#[derive(Debug)]
pub enum Test {
    Is {
        left: Operand,
        op: Compare,
        right: Operand,
    },
    And(Boxed<Test>, Boxed<Test>),
    Or(Boxed<Test>, Boxed<Test>),
    Not(Boxed<Test>),
}

impl Drop for Test {
    // A chain nests as deep as it is long, so a loop drops the left parts.
    fn drop(mut self) {
        loop {
            match self {
                Test::Is {
                    left: _,
                    op: _,
                    right: _,
                } => return,
                Test::And(left, right) | Test::Or(left, right) => {
                    let _right = right.into_inner();
                    self = left.into_inner();
                }
                Test::Not(inner) => self = inner.into_inner(),
            }
        }
    }
}

// A step down to the first part of a condition. It keeps a copy of the last part of a pair, or that the part is
// negated.
#[derive(Drop)]
enum Step {
    And(Test),
    Or(Test),
    Not,
}

// The condition from which the step was taken, given its first part.
fn whole(alloc: Global, step: Step, part: Test) -> Result<Test, AllocError>
    ensures { IfOk result (λ test. test ≡ rebuilt step part) }
{
    match step {
        Step::And(last) => Ok(Test::And(Boxed::new(alloc, part)?, Boxed::new(alloc, last)?)),
        Step::Or(last) => Ok(Test::Or(Boxed::new(alloc, part)?, Boxed::new(alloc, last)?)),
        Step::Not => Ok(Test::Not(Boxed::new(alloc, part)?)),
    }
}

impl Test {
    /// An equal condition; `AllocError` if an allocation failed.
    pub fn try_copy(&self, alloc: Global) -> Result<Test, AllocError>
        ensures { IfOk result (λ test. test ≡ self.now) }
    {
        let mut steps: Vec<Step> = Vec::new(alloc);
        let mut part = self;
        let mut copy = 'parts: loop {
            match part {
                Test::Is { left, op, right } => {
                    break 'parts Test::Is {
                        left: left.try_copy()?,
                        op: *op,
                        right: right.try_copy()?,
                    };
                }
                Test::And(first, last) => {
                    steps.push(Step::And(last.get().try_copy(alloc)?))?;
                    part = first.get();
                }
                Test::Or(first, last) => {
                    steps.push(Step::Or(last.get().try_copy(alloc)?))?;
                    part = first.get();
                }
                Test::Not(inner) => {
                    steps.push(Step::Not)?;
                    part = inner.get();
                }
            }
        };
        'steps: while let Some(step) = steps.pop() {
            copy = whole(alloc, step, copy)?;
        }
        Ok(copy)
    }

    /// The condition that a row passes if the given columns of the row, in this order, pass this one. `AllocError` if an
    /// allocation failed.
    pub fn on_columns(&self, alloc: Global, columns: &[u32]) -> Result<Test, AllocError>
        ensures { (row : List AnyValue) → IfOk result (λ test. passes test row ≡ passes self.now (projection columns.now row)) }
    {
        let mut steps: Vec<Step> = Vec::new(alloc);
        let mut part = self;
        let mut copy = 'parts: loop {
            match part {
                Test::Is { left, op, right } => {
                    break 'parts Test::Is {
                        left: left.on_columns(columns)?,
                        op: *op,
                        right: right.on_columns(columns)?,
                    };
                }
                Test::And(first, last) => {
                    steps.push(Step::And(last.get().on_columns(alloc, columns)?))?;
                    part = first.get();
                }
                Test::Or(first, last) => {
                    steps.push(Step::Or(last.get().on_columns(alloc, columns)?))?;
                    part = first.get();
                }
                Test::Not(inner) => {
                    steps.push(Step::Not)?;
                    part = inner.get();
                }
            }
        };
        'steps: while let Some(step) = steps.pop() {
            copy = whole(alloc, step, copy)?;
        }
        Ok(copy)
    }

    /// Whether the row passes the condition. Numbers compare as numbers, texts by their bytes, and each number is less
    /// than each text. A column that the row does not have counts as the number 0.
    pub fn check(&self, row: &Values) -> bool
        ensures { result ≡ passes self.now row.now }
    {
        self.passes(row.get())
    }

    /// `check` for borrowed values.
    pub fn passes(&self, row: &[Value]) -> bool
        ensures { result ≡ passes self.now row.now }
    {
        self.may_be(Known::Values(row), true)
    }
}

/// Whether the row passes the condition, if there is one.
pub fn admits(test: Option<&Test>, row: &Row<'_>) -> bool
    ensures { result ≡ admits (option_copied test.entry) row.now }
{
    match test {
        Some(test) => test.may_be(Known::Whole(row), true),
        None => true,
    }
}

/// Whether the left row followed by the right one passes the condition, if there is one.
pub fn admits_both(test: Option<&Test>, left: &Row<'_>, right: &Row<'_>) -> bool
    ensures { result ≡ admits (option_copied test.entry) (left.now ++ right.now) }
{
    match test {
        Some(test) => test.may_be(Known::Both(left, right), true),
        None => true,
    }
}
