// Columns, items and sources.

ghost use Rattle.std.specs.Prelude.{◌≤◌, length};
ghost use Rattle.tq_sql.specs.Descent as spec;
ghost use Rattle.tq_sql.specs.Descent.{Reads};

use crate::cursor::{Cursor, Refusal, push};
use crate::statement::{ColumnRef, Item, SourceRef, What};
use crate::token::TokenKind;
use std::alloc::Global;
use tq_base::{List, Name};

/// Reads `column` or `source.column`.
#[tactic(auto, unfolding(crate::specs::Descent::column_at))]
pub fn column(alloc: Global, cursor: &mut Cursor<'_>) -> Result<ColumnRef, Refusal>
    ensures reads { Reads (spec.column_at cursor.old) result cursor.new }
    ensures shorter { length cursor.new ≤ length cursor.old }
{
    let first = cursor.name(alloc)?;
    if cursor.eat(TokenKind::Dot) {
        let column = cursor.name(alloc)?;
        Ok(ColumnRef {
            source: Some(first),
            column,
        })
    } else {
        Ok(ColumnRef {
            source: None,
            column: first,
        })
    }
}

/// Reads `column {, column}`.
#[tactic(auto, unfolding(crate::specs::Descent::columns_at))]
pub fn columns(alloc: Global, cursor: &mut Cursor<'_>) -> Result<List<ColumnRef>, Refusal>
    ensures reads { Reads (spec.columns_at cursor.old) result cursor.new }
    ensures shorter { length cursor.new ≤ length cursor.old }
{
    let mut found = Vec::new(alloc);
    push(&mut found, column(alloc, cursor)?)?;
    'more: while cursor.eat(TokenKind::Comma) {
        push(&mut found, column(alloc, cursor)?)?;
    }
    Ok(List::of(found))
}

#[tactic(auto, unfolding(crate::specs::Descent::what_at))]
fn what(alloc: Global, cursor: &mut Cursor<'_>) -> Result<What, Refusal>
    ensures reads { Reads (spec.what_at cursor.old) result cursor.new }
    ensures shorter { length cursor.new ≤ length cursor.old }
{
    if cursor.eat(TokenKind::Count) {
        cursor.expect(TokenKind::Open)?;
        cursor.expect(TokenKind::Star)?;
        cursor.expect(TokenKind::Close)?;
        Ok(What::Count)
    } else if cursor.eat(TokenKind::Sum) {
        cursor.expect(TokenKind::Open)?;
        let summed = column(alloc, cursor)?;
        cursor.expect(TokenKind::Close)?;
        Ok(What::Sum(summed))
    } else {
        Ok(What::Column(column(alloc, cursor)?))
    }
}

#[tactic(auto, unfolding(crate::specs::Descent::item_alias_at))]
fn item_alias(alloc: Global, cursor: &mut Cursor<'_>) -> Result<Option<Name>, Refusal>
    ensures reads { Reads (spec.item_alias_at cursor.old) result cursor.new }
    ensures shorter { length cursor.new ≤ length cursor.old }
{
    if cursor.eat(TokenKind::As) {
        Ok(Some(cursor.name(alloc)?))
    } else {
        Ok(None)
    }
}

#[tactic(auto, unfolding(crate::specs::Descent::item_at))]
fn item(alloc: Global, cursor: &mut Cursor<'_>) -> Result<Item, Refusal>
    ensures reads { Reads (spec.item_at cursor.old) result cursor.new }
    ensures shorter { length cursor.new ≤ length cursor.old }
{
    let what = what(alloc, cursor)?;
    let alias = item_alias(alloc, cursor)?;
    Ok(Item { what, alias })
}

/// Reads `item {, item}`.
#[tactic(auto, unfolding(crate::specs::Descent::items_at))]
pub fn items(alloc: Global, cursor: &mut Cursor<'_>) -> Result<List<Item>, Refusal>
    ensures reads { Reads (spec.items_at cursor.old) result cursor.new }
    ensures shorter { length cursor.new ≤ length cursor.old }
{
    let mut found = Vec::new(alloc);
    push(&mut found, item(alloc, cursor)?)?;
    'more: while cursor.eat(TokenKind::Comma) {
        push(&mut found, item(alloc, cursor)?)?;
    }
    Ok(List::of(found))
}

#[tactic(auto, unfolding(crate::specs::Descent::source_alias_at))]
fn source_alias(alloc: Global, cursor: &mut Cursor<'_>) -> Result<Option<Name>, Refusal>
    ensures reads { Reads (spec.source_alias_at cursor.old) result cursor.new }
    ensures shorter { length cursor.new ≤ length cursor.old }
{
    if cursor.eat(TokenKind::As) || cursor.sees(TokenKind::Name) {
        Ok(Some(cursor.name(alloc)?))
    } else {
        Ok(None)
    }
}

#[tactic(auto, unfolding(crate::specs::Descent::source_at))]
fn source(alloc: Global, cursor: &mut Cursor<'_>) -> Result<SourceRef, Refusal>
    ensures reads { Reads (spec.source_at cursor.old) result cursor.new }
    ensures shorter { length cursor.new ≤ length cursor.old }
{
    let table = cursor.name(alloc)?;
    let alias = source_alias(alloc, cursor)?;
    Ok(SourceRef { table, alias })
}

/// The most sources of a query.
pub const MAX_SOURCES: usize = 4;

/// Reads `source {, source}`, at most `MAX_SOURCES` of them.
#[tactic(auto, unfolding(crate::specs::Descent::sources_at))]
pub fn sources(alloc: Global, cursor: &mut Cursor<'_>) -> Result<List<SourceRef>, Refusal>
    ensures reads { Reads (spec.sources_at cursor.old) result cursor.new }
    ensures shorter { length cursor.new ≤ length cursor.old }
{
    let mut found = Vec::new(alloc);
    push(&mut found, source(alloc, cursor)?)?;
    'more: while found.len() < MAX_SOURCES && cursor.eat(TokenKind::Comma) {
        push(&mut found, source(alloc, cursor)?)?;
    }
    Ok(List::of(found))
}
