// The columns of tables that a plan requires.

ghost use Rattle.tq_event.specs.Projection.{is_wanted, wanted_lists};
ghost use Rattle.std.specs.Prelude.{◌≡◌, ◌^◌, ◌<◌, ◌≤◌, All, IfOk, true};
ghost use Rattle.std.specs.List.{list_any};
ghost use Rattle.tq_exec.specs.Required.{IsMadeOf, QueryReads, Serve};
ghost use Rattle.tq_exec.specs.ColumnUse.{AreMore, AreNamed, QueriesRead, OperandReads, TestReads, names, plan_names};

use std::alloc::{AllocError, Global};
use tq_base::Catalogue;
use tq_condition::{Operand, Test};
use tq_event::steps::MAX_COLUMNS;
use tq_plan::{Output, Plan, QueryPlan, QuerySource};

// Marks the place as used. Places after the end of the list count as used.
fn require(places: &mut Vec<bool>, place: u32)
    ensures required { is_wanted places.new.items place ≡ true }
    ensures more { AreMore places.old.items places.new.items }
{
    if let Some(required) = places.get_mut(place as usize) {
        *required = true;
    }
}

fn require_operand(places: &mut Vec<bool>, operand: &Operand)
    ensures required { OperandReads (is_wanted places.new.items) operand.now }
    ensures more { AreMore places.old.items places.new.items }
{
    match operand {
        Operand::Column(place) => require(places, *place),
        Operand::Literal(_) => {}
    }
}

// Marks the places that the condition names. A chain of ANDs is as deep as it is long, so a loop follows its left parts.
fn require_test(places: &mut Vec<bool>, test: &Test)
    ensures required { TestReads (is_wanted places.new.items) test.now }
    ensures more { AreMore places.old.items places.new.items }
{
    let mut part = test;
    'parts: loop {
        match part {
            Test::Is { left, op: _, right } => {
                require_operand(places, left);
                require_operand(places, right);
                return;
            }
            Test::And(first, last) | Test::Or(first, last) => {
                require_test(places, last.get());
                part = first.get();
            }
            Test::Not(inner) => part = inner.get(),
        }
    }
}

fn require_group(places: &mut Vec<bool>, group: &[u32])
    ensures required { All (λ place. is_wanted places.new.items place ≡ true) group.now }
    ensures more { AreMore places.old.items places.new.items }
{
    'group: for place in group {
        require(places, *place);
    }
}

fn require_output(places: &mut Vec<bool>, output: Output)
    ensures required { IsMadeOf (is_wanted places.new.items) output }
    ensures more { AreMore places.old.items places.new.items }
{
    match output {
        Output::Column(place) | Output::Sum(place) => require(places, place),
        Output::Count => {}
    }
}

fn require_outputs(places: &mut Vec<bool>, outputs: &[Output])
    ensures required { All (IsMadeOf (is_wanted places.new.items)) outputs.now }
    ensures more { AreMore places.old.items places.new.items }
{
    'outputs: for output in outputs {
        require_output(places, *output);
    }
}

// The number of places of the sources.
fn place_count(sources: &[QuerySource]) -> usize {
    match sources.last() {
        Some(source) => source.first as usize + source.width as usize,
        None => 0,
    }
}

// `count` places that are not used.
fn no_places(alloc: Global, count: usize) -> Result<Vec<bool>, AllocError> {
    let mut places = Vec::with_capacity(alloc, count)?;
    'places: for _ in 0..count {
        places.push(false)?;
    }
    Ok(places)
}

// The places that the query uses.
fn places_of(alloc: Global, query: &QueryPlan) -> Result<Vec<bool>, AllocError>
    ensures { IfOk result (λ places. QueryReads (is_wanted places.items) query.now) }
{
    let mut places = no_places(alloc, place_count(query.sources.get()))?;
    if let Some(test) = &query.test {
        require_test(&mut places, test);
    }
    require_group(&mut places, query.group.get());
    require_outputs(&mut places, query.outputs.get());
    Ok(places)
}

// The places that the queries of a plan use.
#[derive(Drop)]
struct Places {
    left: Vec<bool>,
    right: Vec<bool>,
}

fn places_in(alloc: Global, plan: &Plan) -> Result<Places, AllocError>
    ensures { IfOk result (λ places. QueriesRead places.left.items places.right.items plan.now) }
{
    Ok(Places {
        left: places_of(alloc, &plan.left)?,
        right: match &plan.right {
            Some(right) => places_of(alloc, right)?,
            None => Vec::new(alloc),
        },
    })
}

// Whether a query uses the place.
fn is_required(places: &[bool], place: usize) -> bool
    ensures { result ≡ is_wanted places.now place }
{
    places.get(place).copied().unwrap_or(true)
}

// Whether a query that uses these places uses the column of the table in this source.
fn names(places: &[bool], source: &QuerySource, table: usize, column: usize) -> bool
    requires { column < 2 ^ 32 }
    ensures { result ≡ names places.now table column source.now }
{
    source.table as usize == table && is_required(places, source.first as usize + column)
}

// Whether the query uses the column in some source.
fn query_names(places: &[bool], sources: &[QuerySource], table: usize, column: usize) -> bool
    requires { column < 2 ^ 32 }
    ensures { result ≡ list_any (names places.now table column) sources.now }
{
    sources
        .iter()
        .any(|source| names(places, source, table, column))
}

// Whether one of the queries of the plan uses the column.
fn plan_names(places: &Places, plan: &Plan, table: usize, column: usize) -> bool
    requires { column < 2 ^ 32 }
    ensures { result ≡ plan_names places.now.left.items places.now.right.items plan.now table column }
{
    if query_names(&places.left, plan.left.sources.get(), table, column) {
        return true;
    }
    match &plan.right {
        Some(right) => query_names(&places.right, right.sources.get(), table, column),
        None => false,
    }
}

// Which columns of the table the plan requires.
fn columns_of(
    alloc: Global,
    places: &Places,
    plan: &Plan,
    table: usize,
    columns: usize,
) -> Result<Vec<bool>, AllocError>
    requires { columns ≤ 16 }
    ensures { IfOk result (λ wanted. AreNamed (plan_names places.now.left.items places.now.right.items plan.now table) wanted.items) }
{
    let mut wanted = Vec::with_capacity(alloc, columns)?;
    'columns: for column in 0..columns {
        wanted.push(plan_names(places, plan, table, column))?;
    }
    Ok(wanted)
}

/// Which columns of each table of the catalogue the plan names in conditions, GROUP BY and outputs. Its answer depends only on
/// these. `AllocError` if an allocation failed.
pub fn required_columns(
    alloc: Global,
    catalogue: &Catalogue,
    plan: &Plan,
) -> Result<Vec<Vec<bool>>, AllocError>
    ensures { IfOk result (λ wanted. Serve (wanted_lists wanted.items) plan.now) }
{
    let places = places_in(alloc, plan)?;
    let mut wanted = Vec::with_capacity(alloc, catalogue.tables.get().len())?;
    'tables: for schema in catalogue.tables.get() {
        let columns = schema.columns.get().len().min(MAX_COLUMNS);
        wanted.push(columns_of(alloc, &places, plan, wanted.len(), columns)?)?;
    }
    Ok(wanted)
}
