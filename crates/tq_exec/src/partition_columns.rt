// The columns by which the tables of a plan can be partitioned.

ghost use Rattle.std.specs.Prelude.{◌≡◌, ◌∷◌, All, IfOk, IfSome, IsTrue, List, true};
ghost use Rattle.std.specs.List.{list_any};
ghost use Rattle.tq_base.specs.RowValues.{value_at};
ghost use Rattle.tq_agg.specs.Grouping.{Row};
ghost use Rattle.tq_condition.specs.declared.condition.Compare.TheVariants.{Eq};
ghost use Rattle.tq_condition.specs.Conditions.{operand_value, passes};
ghost use Rattle.tq_condition.specs.Ordinary.{admits};
ghost use Rattle.tq_plan.specs.declared.plans.Output.{Output as Item};
ghost use Rattle.tq_plan.specs.declared.plans.Output.TheVariants.{Column};
ghost use Rattle.tq_plan.specs.declared.plans.QuerySource.{QuerySource as AnySource};
ghost use Rattle.tq_exec.specs.Partitioning.{AreLinkedBy, ArePartitionedBy, HasAt, IsPartitionedBy, is_partitioned};
ghost use Rattle.tq_exec.specs.Scan.{part_of};
ghost use Rattle.tq_exec.specs.Partitions.{columns_in};

use std::alloc::{AllocError, Global};
use tq_condition::{Compare, Operand, Test};
use tq_plan::{Output, Plan, QueryPlan, QuerySource};

// The source's column at the place of the joined row.
fn own_column(source: &QuerySource, place: u32) -> Option<u32>
    ensures { IfSome result (λ column. (row : Row) → value_at (part_of source.now row) column ≡ value_at row place) }
{
    let column = place.checked_sub(source.first)?;
    if column < source.width {
        Some(column)
    } else {
        None
    }
}

// Whether the comparison is `=`.
fn is_equality(op: Compare) -> bool
    ensures { IsTrue result → op ≡ Eq }
{
    match op {
        Compare::Eq => true,
        Compare::Ne | Compare::Lt | Compare::Le | Compare::Gt | Compare::Ge => false,
    }
}

// The source's column that one operand names, if the other operand names the place.
fn other_column(left: &Operand, right: &Operand, source: &QuerySource, place: u32) -> Option<u32>
    ensures { IfSome result (λ column. (row : Row) → operand_value left.now row ≡ operand_value right.now row → value_at (part_of source.now row) column ≡ value_at row place) }
{
    let (Operand::Column(one), Operand::Column(other)) = (left, right) else {
        return None;
    };
    if *one == place {
        own_column(source, *other)
    } else if *other == place {
        own_column(source, *one)
    } else {
        None
    }
}

// The source's column that the comparison sets equal to the place.
fn compared_column(part: &Test, source: &QuerySource, place: u32) -> Option<u32>
    ensures { IfSome result (λ column. (row : Row) → IsTrue (passes part.now row) → value_at (part_of source.now row) column ≡ value_at row place) }
{
    match part {
        Test::Is { left, op, right } if is_equality(*op) => {
            other_column(left, right, source, place)
        }
        _ => None,
    }
}

// The source's column that the condition sets equal to the place.
fn linked_column(test: &Test, source: &QuerySource, place: u32) -> Option<u32>
    ensures { IfSome result (λ column. (row : Row) → IsTrue (passes test.now row) → value_at (part_of source.now row) column ≡ value_at row place) }
{
    let mut part = test;
    'parts: loop {
        match part {
            Test::And(first, last) => {
                if let Some(column) = linked_column(last.get(), source, place) {
                    return Some(column);
                }
                part = first.get();
            }
            _ => return compared_column(part, source, place),
        }
    }
}

/// The source's column that is equal to the place in each row that passes. `None` if none is known.
pub fn column_at(query: &QueryPlan, source: &QuerySource, place: u32) -> Option<u32>
    ensures { IfSome result (λ column. (row : Row) → IsTrue (admits query.now.test row) → value_at (part_of source.now row) column ≡ value_at row place) }
{
    if let Some(column) = own_column(source, place) {
        return Some(column);
    }
    match &query.test {
        Some(test) => linked_column(test, source, place),
        None => None,
    }
}

// The place of the query's first output, if this is a column.
fn first_place(query: &QueryPlan) -> Option<u32>
    ensures { IfSome result (λ place. (items : List Item) × (query.now.outputs ≡ Column place ∷ items)) }
{
    match query.outputs.get() {
        [Output::Column(place), ..] => Some(*place),
        _ => None,
    }
}

/// The column by which the table is partitioned.
pub(crate) fn column_in(columns: &[Option<u32>], table: u32) -> Option<u32>
    ensures { result ≡ columns_in columns.now table }
{
    columns.get(table as usize).copied().unwrap_or(None)
}

// Whether the column by which the source is partitioned, if any, is equal to the place in each row that passes.
fn has_at(columns: &[Option<u32>], query: &QueryPlan, source: &QuerySource, place: u32) -> bool
    ensures { IsTrue result → HasAt query.now.test place source.now (columns_in columns.now source.now.table) }
{
    match (
        column_in(columns, source.table),
        column_at(query, source, place),
    ) {
        (None, _) => true,
        (Some(column), Some(found)) => column == found,
        (Some(_), None) => false,
    }
}

// `has_at` for each of these sources.
fn have_at(columns: &[Option<u32>], query: &QueryPlan, sources: &[QuerySource], place: u32) -> bool
    ensures { IsTrue result → All (λ (source : AnySource). HasAt query.now.test place source (columns_in columns.now source.table)) sources.now }
{
    'sources: for source in sources {
        if !has_at(columns, query, source, place) {
            return false;
        }
    }
    true
}

fn is_partitioned(column: Option<u32>) -> bool
    ensures { result ≡ is_partitioned column }
{
    match column {
        Some(_) => true,
        None => false,
    }
}

// Whether one of the sources is partitioned.
fn some_are_partitioned(columns: &[Option<u32>], sources: &[QuerySource]) -> bool
    ensures { result ≡ list_any (λ (source : AnySource). is_partitioned (columns_in columns.now source.table)) sources.now }
{
    sources
        .iter()
        .any(|source| is_partitioned(column_in(columns, source.table)))
}

// Whether the query can be partitioned by these columns.
fn can_partition(columns: &[Option<u32>], query: &QueryPlan) -> bool
    ensures { IsTrue result → IsPartitionedBy (columns_in columns.now) query.now }
{
    let sources = query.sources.get();
    match first_place(query) {
        Some(place) => {
            some_are_partitioned(columns, sources) && have_at(columns, query, sources, place)
        }
        None => false,
    }
}

// Sets the column of each source that is equal to the place. Returns whether each source has one.
fn choose_at(columns: &mut Vec<Option<u32>>, query: &QueryPlan, place: u32) -> bool {
    'sources: for source in query.sources.get() {
        let Some(column) = column_at(query, source, place) else {
            return false;
        };
        match columns.get_mut(source.table as usize) {
            Some(chosen) => *chosen = Some(column),
            None => return false,
        }
    }
    true
}

// Sets the column of each source that is equal to the first output. Returns whether each source has one.
fn choose(columns: &mut Vec<Option<u32>>, query: &QueryPlan) -> bool {
    match first_place(query) {
        Some(place) => choose_at(columns, query, place),
        None => false,
    }
}

/// Whether both queries of the plan can be partitioned by these columns, one for each table or none: in each row that passes,
/// they are equal to the first output.
pub fn can_partition_plan(columns: &[Option<u32>], plan: &Plan) -> bool
    ensures { IsTrue result → ArePartitionedBy (columns_in columns.now) plan.now }
{
    if !can_partition(columns, &plan.left) {
        return false;
    }
    match &plan.right {
        Some(right) => can_partition(columns, right),
        None => true,
    }
}

// No column for any of the tables.
fn no_columns(alloc: Global, tables: usize) -> Result<Vec<Option<u32>>, AllocError> {
    let mut columns = Vec::with_capacity(alloc, tables)?;
    'tables: for _ in 0..tables {
        columns.push(None)?;
    }
    Ok(columns)
}

/// For each table, the column by which the plan can be partitioned. `None` if it cannot be partitioned.
pub(crate) fn columns_to_partition_by(
    alloc: Global,
    plan: &Plan,
    tables: usize,
) -> Result<Option<Vec<Option<u32>>>, AllocError>
    ensures { IfOk result (λ found. IfSome found (λ columns. ArePartitionedBy (columns_in columns.items) plan.now)) }
{
    let mut columns = no_columns(alloc, tables)?;
    let mut all = choose(&mut columns, &plan.left);
    if let Some(right) = &plan.right {
        all = choose(&mut columns, right) && all;
    }
    if all && can_partition_plan(&columns, plan) {
        Ok(Some(columns))
    } else {
        Ok(None)
    }
}

/// Whether these columns, one for each table or none, are equal to the place in each row that passes.
pub fn are_linked(columns: &[Option<u32>], query: &QueryPlan, place: u32) -> bool
    ensures { IsTrue result → AreLinkedBy (columns_in columns.now) query.now }
{
    let sources = query.sources.get();
    some_are_partitioned(columns, sources) && have_at(columns, query, sources, place)
}

// For each table, the column that is equal to the place in each row that passes. `None` if a source has none.
fn columns_at(
    alloc: Global,
    query: &QueryPlan,
    place: u32,
    tables: usize,
) -> Result<Option<Vec<Option<u32>>>, AllocError>
    ensures { IfOk result (λ found. IfSome found (λ columns. AreLinkedBy (columns_in columns.items) query.now)) }
{
    let mut columns = no_columns(alloc, tables)?;
    let all = choose_at(&mut columns, query, place);
    if all && are_linked(&columns, query, place) {
        Ok(Some(columns))
    } else {
        Ok(None)
    }
}

/// For each table, a column such that these columns are equal in each row that passes the query. `None` if the sources are not
/// linked by equalities with one column of the first source.
pub(crate) fn columns_linked_by(
    alloc: Global,
    query: &QueryPlan,
    tables: usize,
) -> Result<Option<Vec<Option<u32>>>, AllocError>
    ensures { IfOk result (λ found. IfSome found (λ columns. AreLinkedBy (columns_in columns.items) query.now)) }
{
    let Some(first) = query.sources.get().first() else {
        return Ok(None);
    };
    'places: for place in first.first..first.first.saturating_add(first.width) {
        if let Some(columns) = columns_at(alloc, query, place, tables)? {
            return Ok(Some(columns));
        }
    }
    Ok(None)
}
