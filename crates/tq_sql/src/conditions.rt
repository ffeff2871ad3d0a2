// Conditions: OR binds weaker than AND, AND weaker than NOT.

ghost use Rattle.std.specs.Prelude.{◌≡◌, ◌≤◌, ◌<◌, ◌-◌, length, IfErr, IfOk};
ghost use Rattle.tq_sql.specs.Descent as spec;
ghost use Rattle.tq_sql.specs.Descent.{Reads};

use crate::cursor::{Cursor, Refusal};
use crate::sources::column;
use crate::statement::{Cond, Sign, Term};
use crate::token::TokenKind;
use sqlite_items::Boxed;
use std::alloc::{AllocError, Global};

/// The most levels of NOT and brackets in a condition.
pub const MAX_LEVELS: usize = 32;

#[tactic(auto, unfolding(crate::specs::Descent::operand_at))]
fn operand(alloc: Global, cursor: &mut Cursor<'_>) -> Result<Term, Refusal>
    ensures reads { Reads (spec.operand_at cursor.old) result cursor.new }
    ensures shorter { length cursor.new ≤ length cursor.old }
{
    if cursor.sees(TokenKind::Number) {
        Ok(Term::Int(cursor.number()?))
    } else if cursor.sees(TokenKind::Text) {
        Ok(Term::Text(cursor.text(alloc)?))
    } else {
        Ok(Term::Column(column(alloc, cursor)?))
    }
}

#[tactic(auto, unfolding(crate::specs::Descent::sign_of))]
fn sign_of(kind: TokenKind) -> Option<Sign>
    ensures { result ≡ spec.sign_of kind }
{
    match kind {
        TokenKind::Eq => Some(Sign::Eq),
        TokenKind::Ne => Some(Sign::Ne),
        TokenKind::Lt => Some(Sign::Lt),
        TokenKind::Le => Some(Sign::Le),
        TokenKind::Gt => Some(Sign::Gt),
        TokenKind::Ge => Some(Sign::Ge),
        _ => None,
    }
}

#[tactic(auto, unfolding(crate::specs::Descent::sign_at))]
fn sign(cursor: &mut Cursor<'_>) -> Result<Sign, Refusal>
    ensures reads { Reads (spec.sign_at cursor.old) result cursor.new }
    ensures shorter { length cursor.new ≤ length cursor.old }
{
    let sign = sign_of(cursor.peek()).ok_or(Refusal::Unexpected)?;
    cursor.skip();
    Ok(sign)
}

#[tactic(auto, unfolding(crate::specs::Descent::comparison_at))]
fn comparison(alloc: Global, cursor: &mut Cursor<'_>) -> Result<Cond, Refusal>
    ensures reads { Reads (spec.comparison_at cursor.old) result cursor.new }
    ensures shorter { length cursor.new ≤ length cursor.old }
{
    let left = operand(alloc, cursor)?;
    let sign = sign(cursor)?;
    let right = operand(alloc, cursor)?;
    Ok(Cond::Is { left, sign, right })
}

fn both(alloc: Global, left: Cond, right: Cond) -> Result<Cond, AllocError>
    ensures { IfOk result (λ c. c ≡ Cond.And left right) }
{
    Ok(Cond::And(Boxed::new(alloc, left)?, Boxed::new(alloc, right)?))
}

fn either(alloc: Global, left: Cond, right: Cond) -> Result<Cond, AllocError>
    ensures { IfOk result (λ c. c ≡ Cond.Or left right) }
{
    Ok(Cond::Or(Boxed::new(alloc, left)?, Boxed::new(alloc, right)?))
}

fn deeper(levels: usize) -> Result<usize, Refusal>
    ensures ok { IfOk result (λ n. (n ≡ levels - 1) × (0 < levels)) }
    ensures err { IfErr result (λ e. (e ≡ Refusal.TooDeep) × (levels ≡ 0)) }
{
    if levels == 0 {
        Err(Refusal::TooDeep)
    } else {
        Ok(levels - 1)
    }
}

// A comparison, a negation or a condition in brackets, with at most `levels` levels.
#[cycle(condition)]
#[tactic(auto, using(crate::proofs::LevelLemmas::levels))]
fn factor(alloc: Global, cursor: &mut Cursor<'_>, levels: usize) -> Result<Cond, Refusal>
    ensures reads { Reads (spec.not_at levels cursor.old) result cursor.new }
    ensures shorter { length cursor.new ≤ length cursor.old }
{
    if cursor.sees(TokenKind::Not) {
        let inner_levels = deeper(levels)?;
        cursor.skip();
        let inner = factor(alloc, cursor, inner_levels)?;
        Ok(Cond::Not(Boxed::new(alloc, inner)?))
    } else if cursor.sees(TokenKind::Open) {
        let inner_levels = deeper(levels)?;
        cursor.skip();
        closed(alloc, cursor, inner_levels)
    } else {
        comparison(alloc, cursor)
    }
}

// A condition and its closing bracket.
#[cycle(condition)]
#[tactic(auto, unfolding(crate::specs::Descent::closed))]
fn closed(alloc: Global, cursor: &mut Cursor<'_>, levels: usize) -> Result<Cond, Refusal>
    ensures reads { Reads (spec.closed (spec.or_at levels) cursor.old) result cursor.new }
    ensures shorter { length cursor.new ≤ length cursor.old }
{
    let inner = any(alloc, cursor, levels)?;
    cursor.expect(TokenKind::Close)?;
    Ok(inner)
}

// Factors with AND between them, joined from the left.
#[cycle(condition)]
#[tactic(auto, unfolding(crate::specs::Descent::and_at))]
fn every(alloc: Global, cursor: &mut Cursor<'_>, levels: usize) -> Result<Cond, Refusal>
    ensures reads { Reads (spec.and_at levels cursor.old) result cursor.new }
    ensures shorter { length cursor.new ≤ length cursor.old }
{
    let mut left = factor(alloc, cursor, levels)?;
    'more: while cursor.eat(TokenKind::And) {
        left = both(alloc, left, factor(alloc, cursor, levels)?)?;
    }
    Ok(left)
}

// Chains of AND with OR between them, joined from the left.
#[cycle(condition)]
#[tactic(auto, unfolding(crate::specs::Descent::or_at))]
fn any(alloc: Global, cursor: &mut Cursor<'_>, levels: usize) -> Result<Cond, Refusal>
    ensures reads { Reads (spec.or_at levels cursor.old) result cursor.new }
    ensures shorter { length cursor.new ≤ length cursor.old }
{
    let mut left = every(alloc, cursor, levels)?;
    'more: while cursor.eat(TokenKind::Or) {
        left = either(alloc, left, every(alloc, cursor, levels)?)?;
    }
    Ok(left)
}

/// Reads the condition after WHERE, if there is one.
#[tactic(auto, unfolding(crate::specs::Descent::condition_at))]
pub fn condition(alloc: Global, cursor: &mut Cursor<'_>) -> Result<Option<Cond>, Refusal>
    ensures reads { Reads (spec.condition_at MAX_LEVELS cursor.old) result cursor.new }
    ensures shorter { length cursor.new ≤ length cursor.old }
{
    if cursor.eat(TokenKind::Where) {
        Ok(Some(any(alloc, cursor, MAX_LEVELS)?))
    } else {
        Ok(None)
    }
}
