// Conditions over places, the numbers of columns in the joined row.

ghost use Rattle.std.specs.Prelude.{◌≡◌, ◌≢◌, Err, IfErr, IfOk, Ok, map, option_copied};
ghost use Rattle.tq_plan.specs.Conditions.{compare_of, comparison_of, operand_of, same_kind, test_of, where_of};
ghost use Rattle.tq_plan.specs.Views.{field_view};
ghost use Rattle.tq_plan.specs.Steps.{rebuilt};

use crate::fault::PlanFault;
use crate::scope::{Field, push, resolve};
use sqlite_items::Boxed;
use std::alloc::{AllocError, Global};
use tq_base::{Kind, Value};
use tq_condition::{Compare, Operand, Test};
use tq_sql::{Cond, Sign, Term};

fn plan_operand(fields: &[Field<'_>], term: &Term) -> Result<(Operand, Kind), PlanFault>
    ensures operand { IfOk result (λ operand. operand_of (map field_view fields.now) term.now ≡ Ok operand) }
    ensures fault { IfErr result (λ fault. fault ≢ PlanFault.OutOfMemory → operand_of (map field_view fields.now) term.now ≡ Err fault) }
{
    match term {
        Term::Column(column) => {
            let (place, kind) = resolve(fields, column)?;
            Ok((Operand::Column(place), kind))
        }
        Term::Int(number) => Ok((Operand::Literal(Value::int(*number)), Kind::Int)),
        Term::Text(text) => Ok((Operand::Literal(text.to_value()?), Kind::Text)),
    }
}

fn compare_of(sign: Sign) -> Compare
    ensures { result ≡ compare_of sign }
{
    match sign {
        Sign::Eq => Compare::Eq,
        Sign::Ne => Compare::Ne,
        Sign::Lt => Compare::Lt,
        Sign::Le => Compare::Le,
        Sign::Gt => Compare::Gt,
        Sign::Ge => Compare::Ge,
    }
}

pub fn is_same_kind(left: Kind, right: Kind) -> bool
    ensures { result ≡ same_kind left right }
{
    match (left, right) {
        (Kind::Int, Kind::Int) => true,
        (Kind::Int, Kind::Text) => false,
        (Kind::Text, Kind::Int) => false,
        (Kind::Text, Kind::Text) => true,
    }
}

// Faults: those of the left operand, those of the right one, `TypeMismatch`.
fn plan_comparison(
    fields: &[Field<'_>],
    left: &Term,
    sign: Sign,
    right: &Term,
) -> Result<Test, PlanFault>
    ensures test { IfOk result (λ test. comparison_of (map field_view fields.now) left.now sign right.now ≡ Ok test) }
    ensures fault { IfErr result (λ fault. fault ≢ PlanFault.OutOfMemory → comparison_of (map field_view fields.now) left.now sign right.now ≡ Err fault) }
{
    let (left, left_kind) = plan_operand(fields, left)?;
    let (right, right_kind) = plan_operand(fields, right)?;
    if !is_same_kind(left_kind, right_kind) {
        return Err(PlanFault::TypeMismatch);
    }
    Ok(Test::Is {
        left,
        op: compare_of(sign),
        right,
    })
}

// A step down to the first part of a condition. It keeps the planned last part, or that the part is negated.
#[derive(Drop)]
enum Step {
    And(Result<Test, PlanFault>),
    Or(Result<Test, PlanFault>),
    Not,
}

// Separates `OutOfMemory` from the other faults: `AllocError` if an allocation failed, else `planned`.
fn known(planned: Result<Test, PlanFault>) -> Result<Result<Test, PlanFault>, AllocError>
    ensures same { IfOk result (λ told. told ≡ planned) }
    ensures known { IfOk result (λ told. IfErr told (λ fault. fault ≢ PlanFault.OutOfMemory)) }
{
    match planned {
        Err(PlanFault::OutOfMemory) => Err(AllocError),
        _ => Ok(planned),
    }
}

// The condition from which the step was taken, if `first` is its planned first part.
fn rebuild(alloc: Global, step: Step, first: Test) -> Result<Test, PlanFault>
    ensures test { IfOk result (λ test. rebuilt step (Ok first) ≡ Ok test) }
    ensures fault { IfErr result (λ fault. fault ≢ PlanFault.OutOfMemory → rebuilt step (Ok first) ≡ Err fault) }
{
    match step {
        Step::And(last) => {
            let last = last?;
            Ok(Test::And(Boxed::new(alloc, first)?, Boxed::new(alloc, last)?))
        }
        Step::Or(last) => {
            let last = last?;
            Ok(Test::Or(Boxed::new(alloc, first)?, Boxed::new(alloc, last)?))
        }
        Step::Not => Ok(Test::Not(Boxed::new(alloc, first)?)),
    }
}

/// The planned condition, or the first fault from the left. A chain of AND or OR nests as deep as it is long, so a loop
/// handles the first parts.
pub fn plan_condition(alloc: Global, fields: &[Field<'_>], cond: &Cond) -> Result<Test, PlanFault>
    ensures test { IfOk result (λ test. test_of (map field_view fields.now) cond.now ≡ Ok test) }
    ensures fault { IfErr result (λ fault. fault ≢ PlanFault.OutOfMemory → test_of (map field_view fields.now) cond.now ≡ Err fault) }
{
    let mut steps: Vec<Step> = Vec::new(alloc);
    let mut part = cond;
    let mut test = 'parts: loop {
        match part {
            Cond::Is { left, sign, right } => {
                break 'parts plan_comparison(fields, left, *sign, right)?;
            }
            Cond::And(first, last) => {
                let last = known(plan_condition(alloc, fields, last.get()))?;
                push(&mut steps, Step::And(last))?;
                part = first.get();
            }
            Cond::Or(first, last) => {
                let last = known(plan_condition(alloc, fields, last.get()))?;
                push(&mut steps, Step::Or(last))?;
                part = first.get();
            }
            Cond::Not(inner) => {
                push(&mut steps, Step::Not)?;
                part = inner.get();
            }
        }
    };
    'steps: while let Some(step) = steps.pop() {
        test = rebuild(alloc, step, test)?;
    }
    Ok(test)
}

/// The planned condition after WHERE, if there is one. Faults are those of `plan_condition`.
pub fn plan_where(
    alloc: Global,
    fields: &[Field<'_>],
    cond: Option<&Cond>,
) -> Result<Option<Test>, PlanFault>
    ensures test { IfOk result (λ test. where_of (map field_view fields.now) (option_copied cond.entry) ≡ Ok test) }
    ensures fault { IfErr result (λ fault. fault ≢ PlanFault.OutOfMemory → where_of (map field_view fields.now) (option_copied cond.entry) ≡ Err fault) }
{
    match cond {
        Some(cond) => Ok(Some(plan_condition(alloc, fields, cond)?)),
        None => Ok(None),
    }
}
