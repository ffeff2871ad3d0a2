// Statements printed with a bracket around each condition.

use std::alloc::AllocError;
use std::fmt::Write;
use tq_base::Name;
use tq_sql::{ColumnRef, Cond, Item, Query, Sign, SourceRef, Statement, Term, What};

fn show_name(text: &mut String, name: &Name) -> Result<(), AllocError> {
    for byte in name.bytes() {
        text.push(char::from(*byte))?;
    }
    Ok(())
}

fn show_alias(text: &mut String, alias: &Option<Name>) -> Result<(), AllocError> {
    if let Some(name) = alias {
        text.push_str(" AS ")?;
        show_name(text, name)?;
    }
    Ok(())
}

fn show_column(text: &mut String, column: &ColumnRef) -> Result<(), AllocError> {
    if let Some(source) = &column.source {
        show_name(text, source)?;
        text.push('.')?;
    }
    show_name(text, &column.column)
}

fn show_columns(text: &mut String, columns: &[ColumnRef]) -> Result<(), AllocError> {
    for (place, column) in columns.iter().enumerate() {
        if place > 0 {
            text.push_str(", ")?;
        }
        show_column(text, column)?;
    }
    Ok(())
}

fn show_item(text: &mut String, item: &Item) -> Result<(), AllocError> {
    match &item.what {
        What::Column(column) => show_column(text, column)?,
        What::Count => text.push_str("COUNT(*)")?,
        What::Sum(column) => {
            text.push_str("SUM(")?;
            show_column(text, column)?;
            text.push(')')?;
        }
    }
    show_alias(text, &item.alias)
}

fn show_items(text: &mut String, items: &[Item]) -> Result<(), AllocError> {
    for (place, item) in items.iter().enumerate() {
        if place > 0 {
            text.push_str(", ")?;
        }
        show_item(text, item)?;
    }
    Ok(())
}

fn show_sources(text: &mut String, sources: &[SourceRef]) -> Result<(), AllocError> {
    for (place, source) in sources.iter().enumerate() {
        if place > 0 {
            text.push_str(", ")?;
        }
        show_name(text, &source.table)?;
        show_alias(text, &source.alias)?;
    }
    Ok(())
}

fn show_term(text: &mut String, term: &Term) -> Result<(), AllocError> {
    match term {
        Term::Column(column) => show_column(text, column),
        Term::Int(number) => write!(text, "{number}"),
        Term::Text(content) => {
            text.push('\'')?;
            text.push_str(content.get())?;
            text.push('\'')
        }
    }
}

fn sign_text(sign: Sign) -> &'static str {
    match sign {
        Sign::Eq => " = ",
        Sign::Ne => " <> ",
        Sign::Lt => " < ",
        Sign::Le => " <= ",
        Sign::Gt => " > ",
        Sign::Ge => " >= ",
    }
}

#[cycle(shown)]
fn show_pair(
    text: &mut String,
    left: &Cond,
    word: &str,
    right: &Cond,
    depth: u8,
) -> Result<(), AllocError> {
    text.push('(')?;
    show_condition(text, left, depth)?;
    text.push_str(word)?;
    show_condition(text, right, depth)?;
    text.push(')')
}

// Prints a condition up to a maximal depth; deeper parts are left out.
#[cycle(shown)]
fn show_condition(text: &mut String, condition: &Cond, depth: u8) -> Result<(), AllocError> {
    if depth == 0 {
        return text.push_str("..");
    }
    match condition {
        Cond::Is { left, sign, right } => {
            show_term(text, left)?;
            text.push_str(sign_text(*sign))?;
            show_term(text, right)
        }
        Cond::And(left, right) => show_pair(text, left.get(), " AND ", right.get(), depth - 1),
        Cond::Or(left, right) => show_pair(text, left.get(), " OR ", right.get(), depth - 1),
        Cond::Not(inner) => {
            text.push_str("(NOT ")?;
            show_condition(text, inner.get(), depth - 1)?;
            text.push(')')
        }
    }
}

fn show_query(text: &mut String, query: &Query) -> Result<(), AllocError> {
    text.push_str("SELECT ")?;
    show_items(text, query.items.get())?;
    text.push_str(" FROM ")?;
    show_sources(text, query.sources.get())?;
    if let Some(condition) = &query.cond {
        text.push_str(" WHERE ")?;
        show_condition(text, condition, 40)?;
    }
    if !query.group.get().is_empty() {
        text.push_str(" GROUP BY ")?;
        show_columns(text, query.group.get())?;
    }
    Ok(())
}

pub fn show_statement(text: &mut String, statement: &Statement) -> Result<(), AllocError> {
    text.push_str("VALIDTIME ")?;
    if let Some(window) = &statement.window {
        text.push_str("PERIOD '")?;
        text.push_str(window.get())?;
        text.push_str("' ")?;
    }
    show_query(text, &statement.left)?;
    if let Some(right) = &statement.right {
        text.push_str(" EXCEPT ALL ")?;
        show_query(text, right)?;
    }
    Ok(())
}
