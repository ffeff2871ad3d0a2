//! Random statements.

use std::alloc::{AllocError, Global};
use std::fmt::Write;
use tq_base::Kind;
use tq_tests_script::Draws;

/// Texts that fit into a value, and two that do not and differ only in their last byte.
pub(crate) const TEXTS: [&str; 4] = ["a", "b", "text of 15 byte", "text of 15 bytf"];

// The groups from which rows of an answer are made: each row, all rows, or those of a key.
#[derive(Clone, Copy)]
enum Shape {
    Alone,
    Together,
    Grouped,
}

fn alias(source: u64) -> &'static str {
    match source {
        0 => "x",
        1 => "y",
        2 => "z",
        _ => "u",
    }
}

fn random_kind(draws: &mut Draws) -> Kind {
    match draws.below(2) {
        0 => Kind::Int,
        _ => Kind::Text,
    }
}

// A column of one of the sources.
#[derive(Clone, Copy)]
struct Column {
    source: &'static str,
    name: &'static str,
}

// A column of this kind.
fn column_of(draws: &mut Draws, sources: u64, kind: Kind) -> Column {
    Column {
        source: alias(draws.below(sources)),
        name: match kind {
            Kind::Int => draws.word(&["k", "w"]),
            Kind::Text => "v",
        },
    }
}

fn push_column(text: &mut String, column: Column) -> Result<(), AllocError> {
    text.push_str(column.source)?;
    text.push('.')?;
    text.push_str(column.name)
}

fn push_literal(text: &mut String, draws: &mut Draws, kind: Kind) -> Result<(), AllocError> {
    match kind {
        Kind::Int => {
            let number = draws.below(3);
            write!(text, "{number}")
        }
        Kind::Text => {
            let content = draws.word(&TEXTS);
            write!(text, "'{content}'")
        }
    }
}

// A comparison of a column with another one, mostly of another source, or with a literal.
fn push_comparison(text: &mut String, draws: &mut Draws, sources: u64) -> Result<(), AllocError> {
    let kind = random_kind(draws);
    if draws.below(8) == 0 {
        text.push_str("NOT ")?;
    }
    let left = column_of(draws, sources, kind);
    push_column(text, left)?;
    let sign = draws.word(&["=", "=", "=", "<>", "<", "<=", ">", ">="]);
    write!(text, " {sign} ")?;
    match draws.below(3) {
        0 => push_literal(text, draws, kind),
        _ => {
            let mut right = column_of(draws, sources, kind);
            if right.source == left.source {
                right = column_of(draws, sources, kind);
            }
            push_column(text, right)
        }
    }
}

// Two comparisons in brackets.
fn push_pair(text: &mut String, draws: &mut Draws, sources: u64) -> Result<(), AllocError> {
    text.push_str(draws.word(&["(", "NOT ("]))?;
    push_comparison(text, draws, sources)?;
    text.push_str(draws.word(&[" AND ", " OR "]))?;
    push_comparison(text, draws, sources)?;
    text.push(')')
}

fn push_condition(text: &mut String, draws: &mut Draws, sources: u64) -> Result<(), AllocError> {
    text.push_str(" WHERE ")?;
    for part in 0..draws.below(3) + 1 {
        if part > 0 {
            text.push_str(draws.word(&[" AND ", " AND ", " OR "]))?;
        }
        match draws.below(4) {
            0 => push_pair(text, draws, sources)?,
            _ => push_comparison(text, draws, sources)?,
        }
    }
    Ok(())
}

fn push_sources(text: &mut String, draws: &mut Draws, sources: u64) -> Result<(), AllocError> {
    text.push_str(" FROM ")?;
    for source in 0..sources {
        if source > 0 {
            text.push_str(", ")?;
        }
        let table = draws.word(&["a", "b", "c"]);
        let name = alias(source);
        write!(text, "{table} {name}")?;
    }
    Ok(())
}

// An item of this kind of a grouped query; a column in it is one of the keys.
fn push_grouped(
    items: &mut String,
    keys: &mut String,
    draws: &mut Draws,
    sources: u64,
    kind: Kind,
) -> Result<(), AllocError> {
    let column = column_of(draws, sources, kind);
    match (kind, draws.below(3)) {
        (Kind::Int, 0) => items.push_str("COUNT(*)"),
        (Kind::Int, 1) => {
            items.push_str("SUM(")?;
            push_column(items, column)?;
            items.push(')')
        }
        _ => {
            if !keys.is_empty() {
                keys.push_str(", ")?;
            }
            push_column(keys, column)?;
            push_column(items, column)
        }
    }
}

// An item of this kind.
fn push_item(
    items: &mut String,
    keys: &mut String,
    draws: &mut Draws,
    sources: u64,
    shape: Shape,
    kind: Kind,
) -> Result<(), AllocError> {
    match shape {
        Shape::Alone => push_column(items, column_of(draws, sources, kind)),
        Shape::Together => items.push_str("COUNT(*)"),
        Shape::Grouped => push_grouped(items, keys, draws, sources, kind),
    }
}

// If all rows are one group, no columns can be shown, so each item is a number.
fn shape_of(draws: &mut Draws, kinds: &[Kind]) -> Shape {
    let numbers = kinds.iter().all(|kind| matches!(kind, Kind::Int));
    match draws.below(4) {
        0 if numbers => Shape::Together,
        0 | 1 => Shape::Grouped,
        _ => Shape::Alone,
    }
}

// A query with `sources` sources and items of these kinds.
fn push_query(
    alloc: Global,
    text: &mut String,
    draws: &mut Draws,
    sources: u64,
    kinds: &[Kind],
) -> Result<(), AllocError> {
    let shape = shape_of(draws, kinds);
    let mut keys = String::new(alloc);
    text.push_str("SELECT ")?;
    for (place, kind) in kinds.iter().enumerate() {
        if place > 0 {
            text.push_str(", ")?;
        }
        push_item(text, &mut keys, draws, sources, shape, *kind)?;
    }
    if matches!(shape, Shape::Grouped) && keys.is_empty() {
        push_column(&mut keys, column_of(draws, sources, Kind::Text))?;
    }
    push_sources(text, draws, sources)?;
    if draws.below(6) > 0 {
        push_condition(text, draws, sources)?;
    }
    if !keys.is_empty() {
        write!(text, " GROUP BY {keys}")?;
    }
    Ok(())
}

fn push_window(text: &mut String, draws: &mut Draws) -> Result<(), AllocError> {
    let start = draws.below(15);
    let end = start + 1 + draws.below(20);
    write!(text, "PERIOD '[{start} - {end})' ")
}

/// A statement. Its first query has `sources` sources; its second, if it has one, at most as many.
pub(crate) fn random_statement(
    alloc: Global,
    draws: &mut Draws,
    sources: u64,
) -> Result<String, AllocError> {
    let mut kinds = Vec::new(alloc);
    for _ in 0..draws.below(3) + 1 {
        kinds.push(random_kind(draws))?;
    }
    let mut text = String::from_str(alloc, "VALIDTIME ")?;
    if draws.below(3) == 0 {
        push_window(&mut text, draws)?;
    }
    push_query(alloc, &mut text, draws, sources, &kinds)?;
    if draws.below(3) == 0 {
        text.push_str(" EXCEPT ALL ")?;
        let fewer = draws.below(sources).wrapping_add(1);
        push_query(alloc, &mut text, draws, fewer, &kinds)?;
    }
    Ok(text)
}
