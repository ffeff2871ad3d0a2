// The parts of a statement that are planned by themselves.

ghost use Rattle.std.specs.Prelude.{◌≡◌, ◌+◌, ◌++◌, ◌∷◌, [], IfOk, OnOk, option_copied, reverse};
ghost use Rattle.tq_diagnostics.specs.Parts.{alias_size, after_group, after_items, after_pair, after_pairs, after_query, after_sources, column_part, column_size, first_name, group_parts, item_parts, item_size, pair_part, pair_parts, pairs_of, query_parts, right_parts, source_parts, source_size, statement_parts, sum_part, term_name, term_parts, term_size, what_parts, what_size, where_pairs};
ghost use Rattle.tq_diagnostics.specs.Views.{pair_views, part_views, part_view};

use crate::probe_statement::{Part, Probe};
use std::alloc::{AllocError, Global};
use tq_base::Name;
use tq_sql::{ColumnRef, Cond, Item, Query, SourceRef, Statement, Term, What};

// `at` plus the number of names; `AllocError` if it does not fit, since no memory holds that many names.
fn after(at: usize, names: usize) -> Result<usize, AllocError>
    ensures { IfOk result (λ after. after ≡ at + names) }
{
    match at.checked_add(names) {
        Some(after) => Ok(after),
        None => Err(AllocError),
    }
}

fn alias_size(alias: Option<&Name>) -> usize
    ensures { result ≡ alias_size (option_copied alias.entry) }
{
    if alias.is_some() { 1 } else { 0 }
}

fn column_size(column: &ColumnRef) -> usize
    ensures { result ≡ column_size column.now }
{
    match &column.source {
        Some(_) => 2,
        None => 1,
    }
}

fn source_size(source: &SourceRef) -> usize
    ensures { result ≡ source_size source.now }
{
    match &source.alias {
        Some(_) => 2,
        None => 1,
    }
}

fn what_size(what: &What) -> usize
    ensures { result ≡ what_size what.now }
{
    match what {
        What::Column(column) => column_size(column),
        What::Count => 0,
        What::Sum(column) => column_size(column),
    }
}

// The first name of a column: that of its source, if it has one.
fn first_name(column: &ColumnRef) -> &[u8]
    ensures { result.now ≡ first_name column.now.column column.now.source }
{
    match &column.source {
        Some(source) => source.bytes(),
        None => column.column.bytes(),
    }
}

fn push_part<'a>(parts: &mut Vec<Part<'a>>, part: Part<'a>) -> Result<(), AllocError>
    ensures { OnOk result (part_views parts.new.items ≡ part_views parts.old.items ++ part_view part.entry ∷ []) }
{
    parts.push(part)?;
    Ok(())
}

fn push_column<'a>(
    parts: &mut Vec<Part<'a>>,
    sources: &'a [SourceRef],
    at: usize,
    column: &'a ColumnRef,
) -> Result<(), AllocError>
    ensures { OnOk result (part_views parts.new.items ≡ part_views parts.old.items ++ column_part sources.entry.now at column.entry.now ∷ []) }
{
    push_part(
        parts,
        Part {
            at,
            name: first_name(column),
            sources,
            probe: Probe::Column(column),
        },
    )
}

// Appends each source together with those before it; returns the number of names before what follows.
fn push_sources<'a>(
    parts: &mut Vec<Part<'a>>,
    at: usize,
    sources: &'a [SourceRef],
) -> Result<usize, AllocError>
    ensures parts { OnOk result (part_views parts.new.items ≡ part_views parts.old.items ++ source_parts sources.entry.now 0 at sources.entry.now) }
    ensures after { IfOk result (λ after. after ≡ after_sources at sources.entry.now) }
{
    let mut next = at;
    'sources: for (place, source) in sources.iter().enumerate() {
        push_part(
            parts,
            Part {
                at: next,
                name: source.table.bytes(),
                sources: &sources[..place + 1],
                probe: Probe::Count,
            },
        )?;
        next = after(next, source_size(source))?;
    }
    Ok(next)
}

fn term_size(term: &Term) -> usize
    ensures { result ≡ term_size term.now }
{
    match term {
        Term::Column(column) => column_size(column),
        Term::Int(_) => 0,
        Term::Text(_) => 0,
    }
}

// The first name of a term, or `other` if it has none.
fn term_name<'a>(term: &'a Term, other: &'a [u8]) -> &'a [u8]
    ensures { result.now ≡ term_name term.entry.now other.entry.now }
{
    match term {
        Term::Column(column) => first_name(column),
        Term::Int(_) => other,
        Term::Text(_) => other,
    }
}

fn push_term<'a>(
    parts: &mut Vec<Part<'a>>,
    sources: &'a [SourceRef],
    at: usize,
    term: &'a Term,
) -> Result<(), AllocError>
    ensures { OnOk result (part_views parts.new.items ≡ part_views parts.old.items ++ term_parts sources.entry.now at term.entry.now) }
{
    match term {
        Term::Column(column) => push_column(parts, sources, at, column),
        Term::Int(_) => Ok(()),
        Term::Text(_) => Ok(()),
    }
}

fn after_pair(at: usize, left: &Term, right: &Term) -> Result<usize, AllocError>
    ensures { IfOk result (λ after. after ≡ after_pair at (left.now, right.now)) }
{
    let right_at = after(at, term_size(left))?;
    after(right_at, term_size(right))
}

// Appends the left term, the right one, and the comparison of both.
fn push_pair<'a>(
    parts: &mut Vec<Part<'a>>,
    sources: &'a [SourceRef],
    at: usize,
    left: &'a Term,
    right: &'a Term,
) -> Result<(), AllocError>
    ensures { OnOk result (part_views parts.new.items ≡ part_views parts.old.items ++ pair_part sources.entry.now at (left.entry.now, right.entry.now)) }
{
    push_term(parts, sources, at, left)?;
    push_term(parts, sources, after(at, term_size(left))?, right)?;
    push_part(
        parts,
        Part {
            at,
            name: term_name(left, term_name(right, b"")),
            sources,
            probe: Probe::Equality(left, right),
        },
    )?;
    Ok(())
}

// Appends the parts of each comparison; returns the number of names before what follows.
fn push_pairs<'a>(
    parts: &mut Vec<Part<'a>>,
    sources: &'a [SourceRef],
    at: usize,
    pairs: &[(&'a Term, &'a Term)],
) -> Result<usize, AllocError>
    ensures parts { OnOk result (part_views parts.new.items ≡ part_views parts.old.items ++ pair_parts sources.entry.now at (pair_views pairs.entry.now)) }
    ensures after { IfOk result (λ after. after ≡ after_pairs at (pair_views pairs.entry.now)) }
{
    let mut next = at;
    'pairs: for pair in pairs {
        push_pair(parts, sources, next, pair.0, pair.1)?;
        next = after_pair(next, pair.0, pair.1)?;
    }
    Ok(next)
}

fn push_group<'a>(
    parts: &mut Vec<Part<'a>>,
    sources: &'a [SourceRef],
    at: usize,
    columns: &'a [ColumnRef],
) -> Result<usize, AllocError>
    ensures parts { OnOk result (part_views parts.new.items ≡ part_views parts.old.items ++ group_parts sources.entry.now at columns.entry.now) }
    ensures after { IfOk result (λ after. after ≡ after_group at columns.entry.now) }
{
    let mut next = at;
    'columns: for column in columns {
        push_column(parts, sources, next, column)?;
        next = after(next, column_size(column))?;
    }
    Ok(next)
}

// Appends the column of a sum, and then the sum, grouped as the query is.
fn push_sum<'a>(
    parts: &mut Vec<Part<'a>>,
    sources: &'a [SourceRef],
    group: &'a [ColumnRef],
    at: usize,
    column: &'a ColumnRef,
) -> Result<(), AllocError>
    ensures { OnOk result (part_views parts.new.items ≡ part_views parts.old.items ++ column_part sources.entry.now at column.entry.now ∷ sum_part sources.entry.now group.entry.now at column.entry.now ∷ []) }
{
    push_column(parts, sources, at, column)?;
    push_part(
        parts,
        Part {
            at,
            name: first_name(column),
            sources,
            probe: Probe::Sum(column, group),
        },
    )?;
    Ok(())
}

fn push_what<'a>(
    parts: &mut Vec<Part<'a>>,
    sources: &'a [SourceRef],
    group: &'a [ColumnRef],
    at: usize,
    what: &'a What,
) -> Result<(), AllocError>
    ensures { OnOk result (part_views parts.new.items ≡ part_views parts.old.items ++ what_parts sources.entry.now group.entry.now at what.entry.now) }
{
    match what {
        What::Column(column) => push_column(parts, sources, at, column),
        What::Count => Ok(()),
        What::Sum(column) => push_sum(parts, sources, group, at, column),
    }
}

fn after_item(at: usize, item: &Item) -> Result<usize, AllocError>
    ensures { IfOk result (λ after. after ≡ at + item_size item.now) }
{
    let behind_what = after(at, what_size(&item.what))?;
    after(behind_what, alias_size(item.alias.as_ref()))
}

fn push_items<'a>(
    parts: &mut Vec<Part<'a>>,
    sources: &'a [SourceRef],
    group: &'a [ColumnRef],
    at: usize,
    items: &'a [Item],
) -> Result<(), AllocError>
    ensures { OnOk result (part_views parts.new.items ≡ part_views parts.old.items ++ item_parts sources.entry.now group.entry.now at items.entry.now) }
{
    let mut next = at;
    'items: for item in items {
        push_what(parts, sources, group, next, &item.what)?;
        next = after_item(next, item)?;
    }
    Ok(())
}

fn after_items(at: usize, items: &[Item]) -> Result<usize, AllocError>
    ensures { IfOk result (λ after. after ≡ after_items at items.now) }
{
    let mut next = at;
    'items: for item in items {
        next = after_item(next, item)?;
    }
    Ok(next)
}

fn push_sides<'a>(
    pairs: &mut Vec<(&'a Term, &'a Term)>,
    left: &'a Term,
    right: &'a Term,
) -> Result<(), AllocError>
    ensures { OnOk result (pair_views pairs.new.items ≡ pair_views pairs.old.items ++ (left.entry.now, right.entry.now) ∷ []) }
{
    pairs.push((left, right))?;
    Ok(())
}

// Appends the comparisons of a condition from the right. A chain of AND or OR nests as deep as it is long, so a loop
// handles the first parts.
fn push_backwards<'a>(
    pairs: &mut Vec<(&'a Term, &'a Term)>,
    cond: &'a Cond,
) -> Result<(), AllocError>
    ensures { OnOk result (pair_views pairs.new.items ≡ pair_views pairs.old.items ++ reverse (pairs_of cond.entry.now)) }
{
    let mut part = cond;
    'parts: loop {
        match part {
            Cond::Is {
                left,
                sign: _,
                right,
            } => {
                push_sides(pairs, left, right)?;
                return Ok(());
            }
            Cond::And(first, last) => {
                push_backwards(pairs, last.get())?;
                part = first.get();
            }
            Cond::Or(first, last) => {
                push_backwards(pairs, last.get())?;
                part = first.get();
            }
            Cond::Not(inner) => part = inner.get(),
        }
    }
}

// The comparisons of a condition, from the left.
fn where_pairs<'a>(
    alloc: Global,
    cond: Option<&'a Cond>,
) -> Result<Vec<(&'a Term, &'a Term)>, AllocError>
    ensures { IfOk result (λ pairs. pair_views pairs.items ≡ where_pairs (option_copied cond.entry)) }
{
    let mut pairs = Vec::new(alloc);
    let Some(cond) = cond else {
        return Ok(pairs);
    };
    push_backwards(&mut pairs, cond)?;
    pairs.reverse();
    Ok(pairs)
}

// Appends the parts of a query in the order in which they are planned; returns the number of names before what follows.
fn push_query<'a>(
    alloc: Global,
    parts: &mut Vec<Part<'a>>,
    at: usize,
    query: &'a Query,
) -> Result<usize, AllocError>
    ensures parts { OnOk result (part_views parts.new.items ≡ part_views parts.old.items ++ query_parts at query.entry.now) }
    ensures after { IfOk result (λ after. after ≡ after_query at query.entry.now) }
{
    let sources = query.sources.get();
    let items = query.items.get();
    let pairs = where_pairs(alloc, query.cond.as_ref())?;
    let sources_at = after_items(at, items)?;
    let clause_starts = push_sources(parts, sources_at, sources)?;
    let group_at = push_pairs(parts, sources, clause_starts, &pairs)?;
    let group = query.group.get();
    let after = push_group(parts, sources, group_at, group)?;
    push_items(parts, sources, group, at, items)?;
    Ok(after)
}

fn push_right<'a>(
    alloc: Global,
    parts: &mut Vec<Part<'a>>,
    at: usize,
    query: Option<&'a Query>,
) -> Result<(), AllocError>
    ensures { OnOk result (part_views parts.new.items ≡ part_views parts.old.items ++ right_parts at (option_copied query.entry)) }
{
    let Some(query) = query else {
        return Ok(());
    };
    push_query(alloc, parts, at, query)?;
    Ok(())
}

/// The parts of the left query, then those of the query after EXCEPT ALL.
pub(crate) fn statement_parts<'a>(
    alloc: Global,
    statement: &'a Statement,
) -> Result<Vec<Part<'a>>, AllocError>
    ensures { IfOk result (λ parts. part_views parts.items ≡ statement_parts statement.entry.now) }
{
    let mut parts = Vec::new(alloc);
    let after = push_query(alloc, &mut parts, 0, &statement.left)?;
    push_right(alloc, &mut parts, after, statement.right.as_ref())?;
    Ok(parts)
}
