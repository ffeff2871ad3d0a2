// The operators of an executed query: in which order its sources were joined, by which columns, and how many rows each
// operator made.

use std::alloc::{AllocError, Global};
use tq_base::{List, Period, Relation, Rows};
use tq_exec::{QueryCounters, Snapshot, TablesOfRows};
use tq_ops::{
    EquiJoin, JoinOrder, KeyPair, Test, equi_join_keys, order_joins, pushable,
    with_implied_equalities,
};
use tq_plan::{Output, QueryPlan, QuerySource};

/// A column, by the number of its table and its own.
#[derive(Clone, Copy, Debug)]
pub(crate) struct ColumnFigures {
    pub(crate) table: u32,
    pub(crate) column: u32,
}

/// Two columns that a join compares by `=`: one of the sources so far, and one of the next.
#[derive(Clone, Copy, Debug)]
pub(crate) struct LinkFigures {
    pub(crate) left: ColumnFigures,
    pub(crate) right: ColumnFigures,
}

/// What an operator does.
#[derive(Drop, Debug)]
pub(crate) enum Operator {
    /// Counts and sums, by these columns.
    Aggregate(List<ColumnFigures>),
    /// Tests the condition on the rows of one source.
    Filter,
    /// Joins the operator below it with a further source, by these columns.
    Join(List<LinkFigures>),
}

/// An operator, how deep it is in the tree of operators, and how many rows it made.
#[derive(Drop, Debug)]
pub(crate) struct OperatorFigures {
    pub(crate) depth: u32,
    pub(crate) operator: Operator,
    pub(crate) rows: u64,
}

/// The scan of a source, by its number in FROM: how deep it is in the tree of operators, and how many rows it made.
#[derive(Clone, Copy, Debug)]
pub(crate) struct ScanFigures {
    pub(crate) depth: u32,
    pub(crate) source: usize,
    pub(crate) rows: u64,
}

/// The operators of a query from the last one down, then its scans in the order of the joins.
#[derive(Drop, Debug)]
pub(crate) struct QueryOperators {
    pub(crate) operators: List<OperatorFigures>,
    pub(crate) scans: List<ScanFigures>,
}

// The column of the source at the place of a row of all sources, if it has this place.
fn column_of(source: &QuerySource, place: u32) -> Option<ColumnFigures> {
    let column = place.checked_sub(source.first)?;
    if column < source.width {
        Some(ColumnFigures {
            table: source.table,
            column,
        })
    } else {
        None
    }
}

// The column at the place of a row of all sources, in the order of FROM; beyond them, one that no table has.
fn column_in(sources: &[QuerySource], place: u32) -> ColumnFigures {
    for source in sources {
        if let Some(column) = column_of(source, place) {
            return column;
        }
    }
    ColumnFigures {
        table: u32::MAX,
        column: 0,
    }
}

// The column at the place of a joined row. The one at place p in the order of FROM is at `places[p]`.
fn column_at(sources: &[QuerySource], places: &[u32], place: u32) -> ColumnFigures {
    match places.iter().position(|moved| *moved == place) {
        Some(given) => column_in(sources, u32::try_from(given).unwrap_or(u32::MAX)),
        None => column_in(sources, u32::MAX),
    }
}

// The columns of the links between the sources so far, which have `width` columns, and the next source.
fn linked_columns(
    alloc: Global,
    sources: &[QuerySource],
    places: &[u32],
    width: usize,
    links: &[KeyPair],
) -> Result<Vec<LinkFigures>, AllocError> {
    let width = u32::try_from(width).unwrap_or(u32::MAX);
    let mut columns = Vec::with_capacity(alloc, links.len())?;
    'links: for link in links {
        columns.push(LinkFigures {
            left: column_at(sources, places, link.left),
            right: column_at(sources, places, link.right.saturating_add(width)),
        })?;
    }
    Ok(columns)
}

// The columns by which the relation `number` in the join order is joined with those before it.
fn links_at(
    alloc: Global,
    sources: &[QuerySource],
    order: &JoinOrder<'_>,
    number: usize,
    test: Option<&Test>,
) -> Result<List<LinkFigures>, AllocError> {
    let mut width: usize = 0;
    for relation in order.relations.iter().take(number) {
        width = width.saturating_add(relation.width());
    }
    let Some(next) = order.relations.get(number) else {
        return Ok(List::of(Vec::new(alloc)));
    };
    let own = next.width();
    let front = pushable(alloc, test, width.saturating_add(own))?;
    let EquiJoin { links, suffice: _ } = equi_join_keys(alloc, width, own, front.as_ref())?;
    Ok(List::of(linked_columns(alloc, sources, &order.places, width, &links)?))
}

// The source whose first column is at this place of a joined row, by its number in FROM.
fn source_at(sources: &[QuerySource], places: &[u32], place: u32) -> Option<usize> {
    sources
        .iter()
        .position(|source| places.get(source.first as usize) == Some(&place))
}

// The sources by their numbers in FROM, in the order of the joins.
fn sources_in_order(
    alloc: Global,
    sources: &[QuerySource],
    places: &[u32],
) -> Result<Vec<usize>, AllocError> {
    let mut numbers = Vec::with_capacity(alloc, sources.len())?;
    'places: for place in 0..places.len() {
        let place = u32::try_from(place).unwrap_or(u32::MAX);
        if let Some(number) = source_at(sources, places, place) {
            numbers.push(number)?;
        }
    }
    Ok(numbers)
}

// The rows of a source as the execution scans them: none if no key passes the query's condition.
fn source_rows<'a>(
    alloc: Global,
    all: &TablesOfRows<'a>,
    query: &QueryPlan,
    source: &QuerySource,
    window: &Period,
) -> Result<Relation<'a>, AllocError> {
    match query.keys_of(source) {
        Some(keys) => all.rows(alloc, source.table, &keys, window),
        None => Relation::owned(alloc, Rows::new(alloc, source.width as usize)),
    }
}

// The sources in the order in which the execution joins them.
fn join_order<'a>(
    alloc: Global,
    all: &TablesOfRows<'a>,
    query: &QueryPlan,
    window: &Period,
    test: Option<&Test>,
) -> Result<JoinOrder<'a>, AllocError> {
    let sources = query.sources.get();
    let mut relations = Vec::with_capacity(alloc, sources.len())?;
    'sources: for source in sources {
        relations.push(source_rows(alloc, all, query, source, window)?)?;
    }
    order_joins(alloc, relations, test)
}

fn is_aggregated(query: &QueryPlan) -> bool {
    let plain = query
        .outputs
        .get()
        .iter()
        .all(|output| matches!(output, Output::Column(_)));
    !plain || !query.group.get().is_empty()
}

// The aggregation, if the query has one.
fn add_aggregate(
    alloc: Global,
    query: &QueryPlan,
    counters: &QueryCounters,
    depth: u32,
    operators: &mut Vec<OperatorFigures>,
) -> Result<u32, AllocError> {
    if !is_aggregated(query) {
        return Ok(depth);
    }
    let group = query.group.get();
    let mut columns = Vec::with_capacity(alloc, group.len())?;
    'columns: for place in group {
        columns.push(column_in(query.sources.get(), *place))?;
    }
    operators.push(OperatorFigures {
        depth,
        operator: Operator::Aggregate(List::of(columns)),
        rows: counters.rows(),
    })?;
    Ok(depth.saturating_add(1))
}

// The joins, the last one first, or the filter of one source. Returns the depth of the first scan.
fn add_joins(
    alloc: Global,
    query: &QueryPlan,
    order: &JoinOrder<'_>,
    test: Option<&Test>,
    counters: &QueryCounters,
    depth: u32,
    operators: &mut Vec<OperatorFigures>,
) -> Result<u32, AllocError> {
    let sources = query.sources.get();
    let mut depth = depth;
    if sources.len() == 1 && query.test.is_some() {
        operators.push(OperatorFigures {
            depth,
            operator: Operator::Filter,
            rows: counters.join(0),
        })?;
        return Ok(depth.saturating_add(1));
    }
    let joined = order.relations.len();
    'joins: for step in 1..joined {
        let number = joined - step;
        let links = links_at(alloc, sources, order, number, test)?;
        operators.push(OperatorFigures {
            depth,
            operator: Operator::Join(links),
            rows: counters.join(number - 1),
        })?;
        depth = depth.saturating_add(1);
    }
    Ok(depth)
}

// The scans in the order of the joins. The first two are children of the same join, each later one of the join above.
fn scans_of(
    alloc: Global,
    query: &QueryPlan,
    places: &[u32],
    counters: &QueryCounters,
    depth: u32,
) -> Result<Vec<ScanFigures>, AllocError> {
    let mut scans = Vec::new(alloc);
    let mut joined: u32 = 0;
    'sources: for source in sources_in_order(alloc, query.sources.get(), places)? {
        scans.push(ScanFigures {
            depth: depth.saturating_sub(joined.saturating_sub(1)),
            source,
            rows: counters.scan(source),
        })?;
        joined = joined.saturating_add(1);
    }
    Ok(scans)
}

/// The operators of a query over tables of rows, with the rows that its execution counted. The first operator has this depth in
/// the tree. `AllocError` if an allocation failed.
pub(crate) fn query_operators(
    alloc: Global,
    all: &TablesOfRows<'_>,
    query: &QueryPlan,
    window: &Period,
    counters: &QueryCounters,
    depth: u32,
) -> Result<QueryOperators, AllocError> {
    let implied = match &query.test {
        Some(test) => with_implied_equalities(alloc, test)?,
        None => None,
    };
    let test = match &implied {
        Some(more) => Some(more),
        None => query.test.as_ref(),
    };
    let order = join_order(alloc, all, query, window, test)?;
    let moved = order.test(alloc, test)?;
    let mut operators = Vec::new(alloc);
    let depth = add_aggregate(alloc, query, counters, depth, &mut operators)?;
    let depth = add_joins(
        alloc,
        query,
        &order,
        moved.as_ref(),
        counters,
        depth,
        &mut operators,
    )?;
    let scans = scans_of(alloc, query, &order.places, counters, depth)?;
    Ok(QueryOperators {
        operators: List::of(operators),
        scans: List::of(scans),
    })
}
