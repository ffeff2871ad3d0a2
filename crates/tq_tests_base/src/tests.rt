//! Tests of rows, in postfix order, and the rows that pass them.

use crate::lists::push_row;
use crate::words::{period_of, row_of, value_of};
use sqlite_items::Boxed;
use std::alloc::{AllocError, Global};
use std::fmt::Write;
use tq_base::{Relation, Rows, Value, Values};
use tq_condition::{Compare, Operand, Test};
use tq_tests_script::print_nothing;

// The result of the words so far: complete tests, and operands of the next one.
#[derive(Drop)]
struct Stack {
    tests: Vec<Test>,
    operands: Vec<Operand>,
}

fn compare_of(word: &str) -> Option<Compare> {
    match word {
        "=" => Some(Compare::Eq),
        "!=" => Some(Compare::Ne),
        "<" => Some(Compare::Lt),
        "<=" => Some(Compare::Le),
        ">" => Some(Compare::Gt),
        ">=" => Some(Compare::Ge),
        _ => None,
    }
}

fn operand_of(alloc: Global, word: &str) -> Result<Operand, AllocError> {
    match word.strip_prefix('#').map(|column| column.parse()) {
        Some(Ok(column)) => Ok(Operand::Column(column)),
        _ => Ok(Operand::Literal(value_of(alloc, word)?)),
    }
}

fn both(alloc: Global, first: Test, last: Test) -> Result<Test, AllocError> {
    Ok(Test::And(Boxed::new(alloc, first)?, Boxed::new(alloc, last)?))
}

fn either(alloc: Global, first: Test, last: Test) -> Result<Test, AllocError> {
    Ok(Test::Or(Boxed::new(alloc, first)?, Boxed::new(alloc, last)?))
}

fn negated(alloc: Global, test: Test) -> Result<Test, AllocError> {
    Ok(Test::Not(Boxed::new(alloc, test)?))
}

impl Stack {
    fn new(alloc: Global) -> Stack {
        Stack {
            tests: Vec::new(alloc),
            operands: Vec::new(alloc),
        }
    }

    // Combines the last two tests.
    fn join(&mut self, alloc: Global, by_and: bool) -> Result<(), AllocError> {
        if let (Some(last), Some(first)) = (self.tests.pop(), self.tests.pop()) {
            let test = if by_and {
                both(alloc, first, last)?
            } else {
                either(alloc, first, last)?
            };
            self.tests.push(test)?;
        }
        Ok(())
    }

    fn negate(&mut self, alloc: Global) -> Result<(), AllocError> {
        if let Some(test) = self.tests.pop() {
            self.tests.push(negated(alloc, test)?)?;
        }
        Ok(())
    }

    // Compares the last two operands.
    fn compare(&mut self, op: Compare) -> Result<(), AllocError> {
        if let (Some(right), Some(left)) = (self.operands.pop(), self.operands.pop()) {
            self.tests.push(Test::Is { left, op, right })?;
        }
        Ok(())
    }

    fn take(&mut self, alloc: Global, word: &str) -> Result<(), AllocError> {
        if let Some(op) = compare_of(word) {
            return self.compare(op);
        }
        match word {
            "and" => self.join(alloc, true),
            "or" => self.join(alloc, false),
            "not" => self.negate(alloc),
            _ => {
                self.operands.push(operand_of(alloc, word)?)?;
                Ok(())
            }
        }
    }
}

/// The tests of the words.
pub(crate) fn tests_of(alloc: Global, words: &[&str]) -> Result<Vec<Test>, AllocError> {
    let mut stack = Stack::new(alloc);
    for word in words {
        stack.take(alloc, word)?;
    }
    Ok(stack.tests)
}

fn print_passed(passed: bool, out: &mut String) -> Result<(), AllocError> {
    writeln!(out, "{passed}")
}

/// Prints which of the tests the row passes.
pub(crate) fn check(
    alloc: Global,
    row: &str,
    tests: &[&str],
    out: &mut String,
) -> Result<(), AllocError> {
    let row = row_of(alloc, row)?;
    for test in &tests_of(alloc, tests)? {
        print_passed(test.check(&row), out)?;
    }
    Ok(())
}

// A list of one row of one value.
fn one_row(alloc: Global, value: &str) -> Result<Rows, AllocError> {
    let mut rows = Rows::new(alloc, 1);
    if let Some(period) = period_of("0", "1") {
        push_row(&mut rows, &[value_of(alloc, value)?], &period)?;
    }
    Ok(rows)
}

/// Prints which of the tests may pass for a row with the value at the place.
pub(crate) fn may_pass(
    alloc: Global,
    value: &str,
    place: usize,
    tests: &[&str],
    out: &mut String,
) -> Result<(), AllocError> {
    let rows = one_row(alloc, value)?;
    let relation = Relation::of(alloc, &rows)?;
    if relation.len() == 0 {
        return print_nothing(out);
    }
    for test in &tests_of(alloc, tests)? {
        print_passed(test.may_pass(&relation.row(0), place), out)?;
    }
    Ok(())
}

// Whether column 0 has the number, or another one.
fn is_number(op: Compare, number: u32) -> Test {
    Test::Is {
        left: Operand::Column(0),
        op,
        right: Operand::Literal(Value::int(i64::from(number))),
    }
}

// A test of `count` parts: the number 0 and no other, or one of the numbers.
fn chain_of(alloc: Global, count: u32, by_and: bool) -> Result<Test, AllocError> {
    let mut chain = is_number(Compare::Eq, 0);
    for number in 1..count {
        chain = if by_and {
            both(alloc, chain, is_number(Compare::Ne, number))?
        } else {
            either(alloc, chain, is_number(Compare::Eq, number))?
        };
    }
    Ok(chain)
}

/// Prints whether a row of the number 0 passes copies of long tests, and the negation of the last.
pub(crate) fn check_chains(alloc: Global, count: u32, out: &mut String) -> Result<(), AllocError> {
    let mut row = Vec::new(alloc);
    row.push(Value::int(0))?;
    let row = Values::of(row);
    let all = chain_of(alloc, count, true)?;
    print_passed(all.try_copy(alloc)?.check(&row), out)?;
    let some = chain_of(alloc, count, false)?;
    print_passed(some.try_copy(alloc)?.check(&row), out)?;
    print_passed(negated(alloc, some)?.check(&row), out)
}
