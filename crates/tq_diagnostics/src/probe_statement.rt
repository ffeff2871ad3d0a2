// Probes: parts of a query, each planned by itself.

ghost use Rattle.std.specs.Prelude.{◌≡◌, IfOk, None, Some, option_copied, take};
ghost use Rattle.tq_base.specs.declared.form.Form.TheVariants.{Numbers};
ghost use Rattle.tq_plan.specs.Plans.{plan_of};
ghost use Rattle.tq_sql.specs.declared.statement.Cond.TheVariants.{Is};
ghost use Rattle.tq_sql.specs.declared.statement.Sign.TheVariants.{Eq};
ghost use Rattle.tq_diagnostics.specs.Probes.{probe_statement, probe_condition, first_refused, probe_group, is_fault, is_refused, same_fault, probe_item};
ghost use Rattle.tq_diagnostics.specs.Views.{probe_view, optional_part_view, part_views};

use std::alloc::{AllocError, Global};
use tq_base::{Catalogue, Form, List, Name};
use tq_plan::{PlanFault, plan};
use tq_sql::{ColumnRef, Cond, Item, Query, Sign, SourceRef, Statement, Term, What};

/// What a probe selects: a count of rows, a column, a sum grouped by the first of these columns, or a count of rows for
/// which two terms are equal.
#[derive(Clone, Copy)]
pub(crate) enum Probe<'a> {
    Count,
    Column(&'a ColumnRef),
    Sum(&'a ColumnRef, &'a [ColumnRef]),
    Equality(&'a Term, &'a Term),
}

/// A part of a query: the number of the statement's names before it, its first name, and its probe over these sources.
#[derive(Clone, Copy)]
pub(crate) struct Part<'a> {
    pub at: usize,
    pub name: &'a [u8],
    pub sources: &'a [SourceRef],
    pub probe: Probe<'a>,
}

fn copy_name(name: Option<&Name>) -> Result<Option<Name>, AllocError>
    ensures { IfOk result (λ copy. copy ≡ option_copied name.entry) }
{
    match name {
        Some(name) => Ok(Some(name.try_copy()?)),
        None => Ok(None),
    }
}

fn copy_source(source: &SourceRef) -> Result<SourceRef, AllocError>
    ensures { IfOk result (λ copy. copy ≡ source.now) }
{
    Ok(SourceRef {
        table: source.table.try_copy()?,
        alias: copy_name(source.alias.as_ref())?,
    })
}

fn copy_column(column: &ColumnRef) -> Result<ColumnRef, AllocError>
    ensures { IfOk result (λ copy. copy ≡ column.now) }
{
    Ok(ColumnRef {
        source: copy_name(column.source.as_ref())?,
        column: column.column.try_copy()?,
    })
}

fn copy_sources(alloc: Global, sources: &[SourceRef]) -> Result<List<SourceRef>, AllocError>
    ensures { IfOk result (λ copy. copy ≡ sources.now) }
{
    let mut copy = Vec::with_capacity(alloc, sources.len())?;
    for source in sources {
        copy.push(copy_source(source)?)?;
    }
    Ok(List::of(copy))
}

fn copy_term(term: &Term) -> Result<Term, AllocError>
    ensures { IfOk result (λ copy. copy ≡ term.now) }
{
    match term {
        Term::Column(column) => Ok(Term::Column(copy_column(column)?)),
        Term::Int(number) => Ok(Term::Int(*number)),
        Term::Text(text) => Ok(Term::Text(text.try_copy()?)),
    }
}

fn probe_item(probe: &Probe<'_>) -> Result<What, AllocError>
    ensures { IfOk result (λ what. what ≡ probe_item (probe_view probe.now)) }
{
    match probe {
        Probe::Count => Ok(What::Count),
        Probe::Column(column) => Ok(What::Column(copy_column(column)?)),
        Probe::Sum(column, _) => Ok(What::Sum(copy_column(column)?)),
        Probe::Equality(_, _) => Ok(What::Count),
    }
}

fn equality(left: &Term, right: &Term) -> Result<Cond, AllocError>
    ensures { IfOk result (λ cond. cond ≡ Is left.now Eq right.now) }
{
    Ok(Cond::Is {
        left: copy_term(left)?,
        sign: Sign::Eq,
        right: copy_term(right)?,
    })
}

fn probe_condition(probe: &Probe<'_>) -> Result<Option<Cond>, AllocError>
    ensures { IfOk result (λ cond. cond ≡ probe_condition (probe_view probe.now)) }
{
    match probe {
        Probe::Count => Ok(None),
        Probe::Column(_) => Ok(None),
        Probe::Sum(_, _) => Ok(None),
        Probe::Equality(left, right) => Ok(Some(equality(left, right)?)),
    }
}

fn first_column(alloc: Global, columns: &[ColumnRef]) -> Result<List<ColumnRef>, AllocError>
    ensures { IfOk result (λ first. first ≡ take 1 columns.now) }
{
    match columns {
        [] => Ok(List::of(Vec::new(alloc))),
        [first, ..] => Ok(List::of(Vec::from_array(alloc, [copy_column(first)?])?)),
    }
}

fn probe_group(alloc: Global, probe: &Probe<'_>) -> Result<List<ColumnRef>, AllocError>
    ensures { IfOk result (λ group. group ≡ probe_group (probe_view probe.now)) }
{
    match probe {
        Probe::Count => Ok(List::of(Vec::new(alloc))),
        Probe::Column(_) => Ok(List::of(Vec::new(alloc))),
        Probe::Sum(_, group) => first_column(alloc, group),
        Probe::Equality(_, _) => Ok(List::of(Vec::new(alloc))),
    }
}

// The probe over the sources as a statement.
fn probe_statement(
    alloc: Global,
    sources: &[SourceRef],
    probe: &Probe<'_>,
) -> Result<Statement, AllocError>
    ensures { IfOk result (λ statement. statement ≡ probe_statement sources.now (probe_view probe.now)) }
{
    let item = Item {
        what: probe_item(probe)?,
        alias: None,
    };
    let items = Vec::from_array(alloc, [item])?;
    Ok(Statement {
        window: None,
        left: Query {
            items: List::of(items),
            sources: copy_sources(alloc, sources)?,
            cond: probe_condition(probe)?,
            group: probe_group(alloc, probe)?,
        },
        right: None,
    })
}

#[tactic(auto, unfolding(crate::specs::Probes::same_fault))]
fn is_same_fault(left: PlanFault, right: PlanFault) -> bool
    ensures { result ≡ same_fault left right }
{
    left == right
}

/// Whether the statement has exactly this fault if its window is written in the form.
pub(crate) fn has_fault(
    alloc: Global,
    catalogue: &Catalogue,
    fault: PlanFault,
    statement: &Statement,
    form: Form,
) -> Result<bool, AllocError>
    ensures { IfOk result (λ has. has ≡ is_fault fault (plan_of form catalogue.now statement.now)) }
{
    match plan(alloc, catalogue, statement, form) {
        Ok(_) => Ok(false),
        Err(PlanFault::OutOfMemory) => Err(AllocError),
        Err(other) => Ok(is_same_fault(other, fault)),
    }
}

/// Whether the probe over the sources has exactly this fault.
#[tactic(auto, unfolding(crate::specs::Probes::is_refused))]
pub(crate) fn is_refused(
    alloc: Global,
    catalogue: &Catalogue,
    fault: PlanFault,
    sources: &[SourceRef],
    probe: &Probe<'_>,
) -> Result<bool, AllocError>
    ensures { IfOk result (λ refused. refused ≡ is_refused catalogue.now fault sources.now (probe_view probe.now)) }
{
    let statement = probe_statement(alloc, sources, probe)?;
    has_fault(alloc, catalogue, fault, &statement, Form::Numbers)
}

/// The first part that has exactly this fault.
pub(crate) fn first_refused<'a>(
    alloc: Global,
    catalogue: &Catalogue,
    fault: PlanFault,
    mut parts: &[Part<'a>],
) -> Result<Option<Part<'a>>, AllocError>
    ensures { IfOk result (λ found. optional_part_view found ≡ first_refused catalogue.now fault (part_views parts.entry.now)) }
{
    'parts: while let [part, rest @ ..] = parts {
        if is_refused(alloc, catalogue, fault, part.sources, &part.probe)? {
            return Ok(Some(*part));
        }
        parts = rest;
    }
    Ok(None)
}
