// A sample of the periods of the rows that a plan reads, for cutting its window.

use std::alloc::{AllocError, Global};
use tq_base::{Bound, Period, Rows};
use tq_plan::{Plan, QuerySource};

// About this many rows of each source are sampled.
const SAMPLES: usize = 2_048;

// Appends the periods of a sample of the rows.
fn add_periods(rows: &Rows, sample: &mut Vec<Period>) -> Result<(), AllocError> {
    let periods = rows.periods();
    let step = periods.len() / SAMPLES + 1;
    'periods: for period in periods.iter().step_by(step) {
        sample.push(*period)?;
    }
    Ok(())
}

// Appends the periods of a sample of the rows of each source.
fn add_sources(
    tables: &[Rows],
    sources: &[QuerySource],
    sample: &mut Vec<Period>,
) -> Result<(), AllocError> {
    'sources: for source in sources {
        if let Some(rows) = tables.get(source.table as usize) {
            add_periods(rows, sample)?;
        }
    }
    Ok(())
}

/// The periods of a sample of the rows of the plan's sources.
pub(crate) fn sample_periods(
    alloc: Global,
    tables: &[Rows],
    plan: &Plan,
) -> Result<Vec<Period>, AllocError> {
    let mut sample = Vec::new(alloc);
    add_sources(tables, plan.left.sources.get(), &mut sample)?;
    if let Some(right) = &plan.right {
        add_sources(tables, right.sources.get(), &mut sample)?;
    }
    Ok(sample)
}

/// The endpoints of the periods.
pub(crate) fn endpoints(alloc: Global, periods: &[Period]) -> Result<Vec<Bound>, AllocError> {
    let mut endpoints = Vec::new(alloc);
    'periods: for period in periods {
        if let Some(start) = Bound::new(period.start.number()) {
            endpoints.push(start)?;
        }
        endpoints.push(period.end)?;
    }
    Ok(endpoints)
}

// Whether a query of the plan joins sources.
fn joins(plan: &Plan) -> bool {
    match &plan.right {
        Some(right) if right.sources.get().len() > 1 => true,
        _ => plan.left.sources.get().len() > 1,
    }
}

// The number of pieces in which each of the periods has instants, added up.
fn overlaps(periods: &[Period], pieces: &[Period]) -> usize {
    let mut count: usize = 0;
    'pieces: for piece in pieces {
        let here = periods
            .iter()
            .filter(|period| period.overlap(piece).is_some())
            .count();
        count = count.saturating_add(here);
    }
    count
}

/// Whether the plan joins rows that are mostly valid in several of the pieces. Each piece would join these anew, so that the
/// pieces together take more than nine eighths of the time of one pass.
pub(crate) fn repeats_joins(plan: &Plan, sample: &[Period], pieces: &[Period]) -> bool {
    joins(plan) && overlaps(sample, pieces).saturating_mul(8) > sample.len().saturating_mul(9)
}
