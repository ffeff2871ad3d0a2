// Queries and whole statements.

ghost use Rattle.std.specs.Prelude.{◌≤◌, length};
ghost use Rattle.tq_sql.specs.Descent as spec;
ghost use Rattle.tq_sql.specs.Descent.{Reads};

use crate::conditions::{MAX_LEVELS, condition};
use crate::cursor::{Cursor, Refusal};
use crate::sources::{columns, items, sources};
use crate::statement::{ColumnRef, Query, Statement};
use crate::token::TokenKind;
use std::alloc::Global;
use tq_base::{List, Text};

#[tactic(auto, unfolding(crate::specs::Descent::group_at))]
fn group(alloc: Global, cursor: &mut Cursor<'_>) -> Result<List<ColumnRef>, Refusal>
    ensures reads { Reads (spec.group_at cursor.old) result cursor.new }
    ensures shorter { length cursor.new ≤ length cursor.old }
{
    if cursor.eat(TokenKind::Group) {
        cursor.expect(TokenKind::By)?;
        columns(alloc, cursor)
    } else {
        Ok(List::of(Vec::new(alloc)))
    }
}

#[tactic(auto, unfolding(crate::specs::Descent::query_at))]
fn query(alloc: Global, cursor: &mut Cursor<'_>) -> Result<Query, Refusal>
    ensures reads { Reads (spec.query_at MAX_LEVELS cursor.old) result cursor.new }
    ensures shorter { length cursor.new ≤ length cursor.old }
{
    cursor.expect(TokenKind::Select)?;
    let items = items(alloc, cursor)?;
    cursor.expect(TokenKind::From)?;
    let sources = sources(alloc, cursor)?;
    let cond = condition(alloc, cursor)?;
    let group = group(alloc, cursor)?;
    Ok(Query {
        items,
        sources,
        cond,
        group,
    })
}

#[tactic(auto, unfolding(crate::specs::Descent::window_at))]
fn window(alloc: Global, cursor: &mut Cursor<'_>) -> Result<Option<Text>, Refusal>
    ensures reads { Reads (spec.window_at cursor.old) result cursor.new }
    ensures shorter { length cursor.new ≤ length cursor.old }
{
    if cursor.eat(TokenKind::Period) {
        Ok(Some(cursor.text(alloc)?))
    } else {
        Ok(None)
    }
}

#[tactic(auto, unfolding(crate::specs::Descent::right_at))]
fn right(alloc: Global, cursor: &mut Cursor<'_>) -> Result<Option<Query>, Refusal>
    ensures reads { Reads (spec.right_at MAX_LEVELS cursor.old) result cursor.new }
    ensures shorter { length cursor.new ≤ length cursor.old }
{
    if cursor.eat(TokenKind::Except) {
        cursor.expect(TokenKind::All)?;
        Ok(Some(query(alloc, cursor)?))
    } else {
        Ok(None)
    }
}

#[tactic(auto, unfolding(crate::specs::Descent::body_at))]
fn body(alloc: Global, cursor: &mut Cursor<'_>) -> Result<Statement, Refusal>
    ensures reads { Reads (spec.body_at MAX_LEVELS cursor.old) result cursor.new }
    ensures shorter { length cursor.new ≤ length cursor.old }
{
    cursor.expect(TokenKind::Validtime)?;
    let window = window(alloc, cursor)?;
    let left = query(alloc, cursor)?;
    let right = right(alloc, cursor)?;
    Ok(Statement {
        window,
        left,
        right,
    })
}

#[tactic(auto, unfolding(crate::specs::Descent::end_at))]
fn end(cursor: &mut Cursor<'_>) -> Result<(), Refusal>
    ensures { Reads (spec.end_at cursor.old) result cursor.new }
{
    let _ = cursor.eat(TokenKind::Semicolon);
    cursor.end()
}

/// Reads a statement and the end of the tokens.
#[tactic(auto, unfolding(crate::specs::Descent::statement_at))]
pub fn statement(alloc: Global, cursor: &mut Cursor<'_>) -> Result<Statement, Refusal>
    ensures { Reads (spec.statement_at MAX_LEVELS cursor.old) result cursor.new }
{
    let found = body(alloc, cursor)?;
    end(cursor)?;
    Ok(found)
}
