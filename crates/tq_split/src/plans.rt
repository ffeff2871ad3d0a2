//! How the tables of a plan can be divided.

ghost use Rattle.std.specs.Prelude.{◌≡◌, ◌<◌, IfOk, IfSome, IsTrue, false, length, true};
ghost use Rattle.std.specs.List.{list_all, list_any};
ghost use Rattle.tq_plan.specs.ValidPlans.{is_aggregate, no_group};
ghost use Rattle.tq_exec.specs.Partitioning.{AreLinkedBy, ArePartitionedBy, OnlyJoins};
ghost use Rattle.tq_exec.specs.Partitions.{columns_in};
ghost use Rattle.tq_split.specs.Splits.{AnswersCombine, ShowsGroups, is_column};

use crate::combine::Combine;
use std::alloc::{AllocError, Global};
use tq_exec::laws::{partitionings_make_parts, partitions_have_rows};
use tq_exec::{are_linked, can_partition_plan, column_at};
use tq_plan::{Output, Plan, QueryPlan, QuerySource};

/// How the tables of a plan are divided, and how the answers over the parts are combined. For each table, `columns` has
/// the column by whose values its rows go to parts. A table without one is whole in each part.
#[derive(Drop, Debug)]
pub struct Split {
    pub columns: Vec<Option<u32>>,
    pub combine: Combine,
}

// How a table is divided, as far as its sources are known.
#[derive(Clone, Copy)]
enum Choice {
    Open,
    Divided(u32),
    Whole,
}

// The choice after one more source of the table. `column` is the source's column that is equal to the place, if any.
fn after_source(choice: Choice, column: Option<u32>) -> Choice {
    match (choice, column) {
        (Choice::Open, Some(column)) => Choice::Divided(column),
        (Choice::Divided(chosen), Some(column)) if chosen == column => choice,
        _ => Choice::Whole,
    }
}

fn open_choices(alloc: Global, tables: usize) -> Result<Vec<Choice>, AllocError> {
    let mut choices = Vec::with_capacity(alloc, tables)?;
    'tables: for _ in 0..tables {
        choices.push(Choice::Open)?;
    }
    Ok(choices)
}

// Chooses for the table of each source the column that is equal to the place.
fn choose(choices: &mut Vec<Choice>, query: &QueryPlan, place: u32) {
    'sources: for source in query.sources.get() {
        if let Some(choice) = choices.get_mut(source.table as usize) {
            *choice = after_source(*choice, column_at(query, source, place));
        }
    }
}

fn chosen_column(choice: Choice) -> Option<u32> {
    match choice {
        Choice::Divided(column) => Some(column),
        Choice::Open | Choice::Whole => None,
    }
}

fn chosen_columns(alloc: Global, choices: &[Choice]) -> Result<Vec<Option<u32>>, AllocError> {
    choices
        .iter()
        .map(|choice| chosen_column(*choice))
        .collect(alloc)
}

// The place of the query's first output, if this is a column.
fn first_place(query: &QueryPlan) -> Option<u32> {
    match query.outputs.get() {
        [Output::Column(place), ..] => Some(*place),
        _ => None,
    }
}

// The columns that are equal to the first output of both queries of the plan. `None` if the plan cannot be divided by them.
fn columns_of_output(
    alloc: Global,
    plan: &Plan,
    tables: usize,
) -> Result<Option<Vec<Option<u32>>>, AllocError>
    ensures { IfOk result (λ found. IfSome found (λ columns. ArePartitionedBy (columns_in columns.items) plan.now)) }
{
    let mut choices = open_choices(alloc, tables)?;
    if let Some(place) = first_place(&plan.left) {
        choose(&mut choices, &plan.left, place);
    }
    if let Some(right) = &plan.right {
        if let Some(place) = first_place(right) {
            choose(&mut choices, right, place);
        }
    }
    let columns = chosen_columns(alloc, &choices)?;
    if can_partition_plan(&columns, plan) {
        Ok(Some(columns))
    } else {
        Ok(None)
    }
}

// Whether the query has no GROUP BY.
fn is_ungrouped(query: &QueryPlan) -> bool
    ensures { IsTrue result → no_group query.now.group ≡ true }
{
    query.group.get().is_empty()
}

fn is_aggregate(output: &Output) -> bool
    ensures { result ≡ is_aggregate output.now }
{
    match output {
        Output::Column(_) => false,
        Output::Count | Output::Sum(_) => true,
    }
}

// Whether the query counts or sums.
fn has_aggregate(query: &QueryPlan) -> bool
    ensures { result ≡ list_any is_aggregate query.now.outputs }
{
    query
        .outputs
        .get()
        .iter()
        .any(|output| is_aggregate(output))
}

// Whether the query neither groups, counts nor sums.
fn is_plain(query: &QueryPlan) -> bool
    ensures ungrouped { IsTrue result → no_group query.now.group ≡ true }
    ensures uncounted { IsTrue result → list_any is_aggregate query.now.outputs ≡ false }
{
    if has_aggregate(query) {
        return false;
    }
    is_ungrouped(query)
}

// Whether the plan only selects and joins rows.
fn only_joins(plan: &Plan) -> bool
    ensures { IsTrue result → OnlyJoins plan.now }
{
    match &plan.right {
        None => is_plain(&plan.left),
        Some(_) => false,
    }
}

// How good a place is to divide by: the more sources are divided the better, and keys are better than other columns.
fn worth_of(columns: &[Option<u32>], query: &QueryPlan, place: u32) -> u32 {
    let mut worth: u32 = 0;
    'sources: for source in query.sources.get() {
        if let Some(Some(_)) = columns.get(source.table as usize) {
            worth = worth.saturating_add(2);
        }
        if source.numbered && source.first == place {
            worth = worth.saturating_add(1);
        }
    }
    worth
}

// The columns that are equal to the place.
fn columns_of_place(
    alloc: Global,
    query: &QueryPlan,
    place: u32,
    tables: usize,
) -> Result<Vec<Option<u32>>, AllocError> {
    let mut choices = open_choices(alloc, tables)?;
    choose(&mut choices, query, place);
    chosen_columns(alloc, &choices)
}

// The number of places of the query's joined row.
fn width_of(query: &QueryPlan) -> u32 {
    match query.sources.get().last() {
        Some(QuerySource { first, width, .. }) => first.saturating_add(*width),
        None => 0,
    }
}

// The columns that link the sources and divide most of them. `None` if there are none.
fn columns_of_link(
    alloc: Global,
    query: &QueryPlan,
    tables: usize,
) -> Result<Option<Vec<Option<u32>>>, AllocError>
    ensures { IfOk result (λ found. IfSome found (λ columns. AreLinkedBy (columns_in columns.items) query.now)) }
{
    let mut best = None;
    let mut most = 0;
    'places: for place in 0..width_of(query) {
        let columns = columns_of_place(alloc, query, place, tables)?;
        let worth = worth_of(&columns, query, place);
        if worth > most && are_linked(&columns, query, place) {
            best = Some(columns);
            most = worth;
        }
    }
    Ok(best)
}

// Whether the output is the column at the place.
fn is_column(output: &Output, place: u32) -> bool
    ensures { result ≡ is_column place output.now }
{
    match output {
        Output::Column(shown) => *shown == place,
        Output::Count | Output::Sum(_) => false,
    }
}

// Whether one of the outputs is the column at the place.
fn is_shown(outputs: &[Output], place: u32) -> bool
    ensures { result ≡ list_any (is_column place) outputs.now }
{
    outputs.iter().any(|output| is_column(output, place))
}

// Whether the column at each place is one of the outputs.
fn are_shown(places: &[u32], outputs: &[Output]) -> bool
    ensures { result ≡ list_all (λ place. list_any (is_column place) outputs.now) places.now }
{
    places.iter().all(|place| is_shown(outputs, *place))
}

// Whether one of the outputs is a count or a sum.
fn has_aggregates(outputs: &[Output]) -> bool
    ensures { result ≡ list_any is_aggregate outputs.now }
{
    outputs.iter().any(|output| is_aggregate(output))
}

// Whether all outputs are counts and sums.
fn are_aggregates(outputs: &[Output]) -> bool
    ensures { result ≡ list_all is_aggregate outputs.now }
{
    outputs.iter().all(|output| is_aggregate(output))
}

// The number of the first output that is a count or a sum.
fn first_aggregate(outputs: &[Output]) -> Option<usize>
    ensures { IfSome result (λ place. place < length outputs.now) }
{
    outputs.iter().position(|output| is_aggregate(output))
}

// Whether the columns are those of the groups, and the others counts and sums.
fn shows_groups(group: &[u32], columns: &[Output], sums: &[Output]) -> bool
    ensures columns { IsTrue result → list_any is_aggregate columns.now ≡ false }
    ensures sums { IsTrue result → list_all is_aggregate sums.now ≡ true }
    ensures shown { IsTrue result → list_all (λ place. list_any (is_column place) columns.now) group.now ≡ true }
{
    if has_aggregates(columns) || !are_aggregates(sums) {
        return false;
    }
    are_shown(group, columns)
}

// The number, if it has at most 32 bits.
fn short_number(number: usize) -> Option<u32>
    ensures { IfSome result (λ short. short ≡ number) }
{
    match u32::try_from(number) {
        Ok(short) => Some(short),
        Err(_) => None,
    }
}

// The number of leading outputs, if these are the columns of the groups and all others are counts and sums.
fn shown_groups(query: &QueryPlan) -> Option<u32>
    ensures { IfSome result (ShowsGroups query.now) }
{
    let outputs = query.outputs.get();
    let place = first_aggregate(outputs)?;
    let groups = short_number(place)?;
    let (columns, sums) = outputs.split_at(place);
    if shows_groups(query.group.get(), columns, sums) {
        Some(groups)
    } else {
        None
    }
}

// The columns that link the sources of a plan whose counts and sums can be added.
fn split_groups(alloc: Global, plan: &Plan, tables: usize) -> Result<Option<Split>, AllocError>
    ensures { IfOk result (λ found. IfSome found (λ split. AnswersCombine plan.now (columns_in split.columns.items) split.combine)) }
{
    partitions_have_rows();
    if plan.right.is_some() {
        return Ok(None);
    }
    let Some(groups) = shown_groups(&plan.left) else {
        return Ok(None);
    };
    match columns_of_link(alloc, &plan.left, tables)? {
        Some(columns) => Ok(Some(Split {
            columns,
            combine: Combine::Add { groups },
        })),
        None => Ok(None),
    }
}

/// Columns by which the tables of the plan, of which there are `tables`, can be divided. `None` if there are none. A plan that
/// only selects and joins is divided by the equalities that link most of its sources, by keys if it can be. Any other plan is
/// divided by its first output. If that cannot be, a plan that counts or sums and shows its groups first is divided by the
/// equalities that link its sources, and the answers are added. `AllocError` if an allocation failed.
pub fn split_plan(alloc: Global, plan: &Plan, tables: usize) -> Result<Option<Split>, AllocError>
    ensures { IfOk result (λ found. IfSome found (λ split. AnswersCombine plan.now (columns_in split.columns.items) split.combine)) }
{
    partitionings_make_parts();
    if only_joins(plan) {
        if let Some(columns) = columns_of_link(alloc, &plan.left, tables)? {
            return Ok(Some(Split {
                columns,
                combine: Combine::Merge,
            }));
        }
    }
    match columns_of_output(alloc, plan, tables)? {
        Some(columns) => Ok(Some(Split {
            columns,
            combine: Combine::Merge,
        })),
        None => split_groups(alloc, plan, tables),
    }
}
