// Aggregation in two steps: the values that a query aggregates, and the groups that are made of them elsewhere.

ghost use Rattle.std.specs.Prelude.{◌≡◌, ◌-◌, ◌≤◌, ◌∷◌, ℕ, [], All, IfOk, IfSome, Some, false, length, true};
ghost use Rattle.std.specs.List.{list_any, range_with_len};
ghost use Rattle.tq_base.specs.declared.fragment.Fragment.{Fragment};
ghost use Rattle.tq_base.specs.Fragments.{at, occurrences};
ghost use Rattle.tq_condition.specs.Ordinary.{HasInside, IsEmptyOutside};
ghost use Rattle.tq_agg.specs.Grouping.{grouped_rows};
ghost use Rattle.tq_table.specs.Merging.{AreOfWidth};
ghost use Rattle.tq_plan.specs.Plans.{tables_of};
ghost use Rattle.tq_plan.specs.ValidPlans.{are_valid_items, no_group, IsQueryOver};
ghost use Rattle.tq_exec.specs.Answers.{lists_at, times_in, ValidRows};
ghost use Rattle.tq_exec.specs.Fitting.{AreFitting};
ghost use Rattle.tq_exec.specs.AggregateParts.{CountsOne, group_columns, is_sum, rows_of_values, aggregate_input};
ghost use Rattle.tq_exec.specs.OutputPlaces.{AreNumbers};

use crate::aggregate::{item_rows, summed_places};
use crate::counters::QueryCounters;
use crate::scan::scan_filter_join;
use crate::snapshot::Snapshot;
use std::alloc::{AllocError, Global};
use tq_agg::group_count_sum;
use tq_base::{Period, Relation, Rows};
use tq_plan::{Output, QueryPlan};

/// The columns that the query aggregates: those after GROUP BY, then the summed ones. `AllocError` if an allocation failed.
pub fn group_columns(alloc: Global, query: &QueryPlan) -> Result<Vec<u32>, AllocError>
    ensures { IfOk result (λ columns. columns.items ≡ group_columns query.now) }
{
    let mut columns = query.group.get().to_vec(alloc)?;
    let mut sums = summed_places(alloc, query.outputs.get())?;
    columns.append(&mut sums)?;
    Ok(columns)
}

/// Copies of the values that the query aggregates, for each row of its sources that passes its condition, at each instant of
/// the window. `AllocError` if an allocation failed.
pub(crate) fn aggregate_input<'a, S: Snapshot<'a>>(
    alloc: Global,
    snapshot: &S,
    query: &QueryPlan,
    window: &Period,
    counters: &QueryCounters,
) -> Result<Rows, AllocError>
    requires fit { AreFitting (S.catalogue snapshot.now) (S.valid snapshot.now) }
    requires query { IsQueryOver (S.catalogue snapshot.now) query.now }
    ensures wide { IfOk result (AreOfWidth (length (group_columns query.now))) }
    ensures numbers { IfOk result (λ rows. All (λ (row : Fragment). AreNumbers row.values) rows.items) }
    ensures inside { IfOk result (λ rows. HasInside window.now rows.items (λ t v. occurrences (aggregate_input query.now (lists_at (S.valid snapshot.now) t (tables_of query.now))) v)) }
{
    let columns = group_columns(alloc, query)?;
    let joined_rows = scan_filter_join(alloc, snapshot, query, window, counters)?;
    let kept = joined_rows.project(alloc, &columns)?;
    kept.copied(alloc)
}

// The numbers from the first one up to the end, which is excluded. `AllocError` if one has more than 32 bits or an
// allocation failed.
fn numbers_between(alloc: Global, first: usize, end: usize) -> Result<Vec<u32>, AllocError>
    requires { first ≤ end }
    ensures { IfOk result (λ numbers. numbers.items ≡ range_with_len first (end - first)) }
{
    let mut numbers = Vec::with_capacity(alloc, end - first)?;
    'numbers: for number in first..end {
        match u32::try_from(number) {
            Ok(number) => numbers.push(number)?,
            Err(_) => return Err(AllocError),
        }
    }
    Ok(numbers)
}

/// The rows of a query with GROUP BY at each instant of the window, from rows as `aggregate_input` returns them. If all
/// of them are given, the result has the rows of the query; if those of some groups are given, the rows of these
/// groups. `AllocError` if an allocation failed.
pub fn groups_of<'a>(
    alloc: Global,
    rows: &Relation<'_>,
    query: &QueryPlan,
    window: &Period,
) -> Result<Relation<'a>, AllocError>
    requires grouped { no_group query.now.group ≡ false }
    requires stand { are_valid_items query.now ≡ true }
    requires numbers { All (λ (row : Fragment). AreNumbers row.values) rows.now.items }
    ensures width { IfOk result (λ out. out.width ≡ length query.now.outputs) }
    ensures made { IfOk result (λ out. HasInside window.now out.items (λ t v. occurrences (rows_of_values query.now (at rows.now.items t)) v)) }
    ensures inside { (valid : ValidRows) → HasInside window.now rows.now.items (λ t v. occurrences (aggregate_input query.now (lists_at valid t (tables_of query.now))) v)
        → IfOk result (λ out. HasInside window.now out.items (λ t v. times_in valid query.now v t)) }
    ensures outside { IfOk result (λ out. IsEmptyOutside window.now out.items) }
{
    let first = query.group.get().len();
    let end = group_columns(alloc, query)?.len();
    let keys = numbers_between(alloc, 0, first)?;
    let sums = numbers_between(alloc, first, end)?;
    let groups = group_count_sum(alloc, rows, window, &keys, &sums)?;
    item_rows(alloc, groups, query)
}

fn is_sum(output: &Output) -> bool
    ensures { result ≡ is_sum output.now }
{
    match output {
        Output::Column(_) => false,
        Output::Count => false,
        Output::Sum(_) => true,
    }
}

fn has_sum(outputs: &[Output]) -> bool
    ensures { result ≡ list_any is_sum outputs.now }
{
    outputs.iter().any(|output| is_sum(output))
}

/// The table whose rows a query only counts, and the column by which: the query has one source, no condition, one column
/// after GROUP BY, and no sums. `None` for any other query.
pub fn counted_column(query: &QueryPlan) -> Option<(u32, u32)>
    ensures found { IfSome result (λ found. CountsOne query.now found.0 found.1) }
    ensures every { (table column : ℕ) → CountsOne query.now table column → result ≡ Some (table, column) }
{
    if query.test.is_some() || has_sum(query.outputs.get()) {
        return None;
    }
    match (query.sources.get(), query.group.get()) {
        ([source], [column]) => Some((source.table, *column)),
        _ => None,
    }
}

/// The rows of a query that only counts the rows of one table by one column, from its groups: for each value of the column and
/// each period, a row with the value and the count. `AllocError` if an allocation failed.
pub fn rows_of_counts<'a>(
    alloc: Global,
    counts: Rows,
    query: &QueryPlan,
) -> Result<Relation<'a>, AllocError>
    requires stand { are_valid_items query.now ≡ true }
    ensures width { IfOk result (λ out. out.width ≡ length query.now.outputs) }
    ensures inside { (valid : ValidRows) (window : Period) (table column : ℕ) → CountsOne query.now table column
        → HasInside window counts.items (λ t v. occurrences (grouped_rows (column ∷ []) [] (valid table t)) v)
        → IfOk result (λ out. HasInside window out.items (λ t v. times_in valid query.now v t)) }
    ensures outside { (window : Period) → IsEmptyOutside window counts.items → IfOk result (λ out. IsEmptyOutside window out.items) }
{
    item_rows(alloc, counts, query)
}
