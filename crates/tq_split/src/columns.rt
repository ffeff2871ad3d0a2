//! The columns of an answer.

use std::alloc::{AllocError, Global};
use tq_base::{Catalogue, Column, Kind};
use tq_plan::{Output, Plan, QuerySource};

// The kind of the column of the table; a number, if there is none.
fn column_kind(catalogue: &Catalogue, table: u32, column: u32) -> Kind {
    match catalogue.tables.get().get(table as usize) {
        Some(schema) => match schema.columns.get().get(column as usize) {
            Some(column) => column.kind,
            None => Kind::Int,
        },
        None => Kind::Int,
    }
}

// The kind of the value at the place of the joined row.
fn place_kind(catalogue: &Catalogue, sources: &[QuerySource], place: u32) -> Kind {
    'sources: for source in sources {
        if let Some(column) = place.checked_sub(source.first) {
            if column < source.width {
                return column_kind(catalogue, source.table, column);
            }
        }
    }
    Kind::Int
}

// The kind of the values of the output.
fn output_kind(catalogue: &Catalogue, sources: &[QuerySource], output: &Output) -> Kind {
    match output {
        Output::Column(place) => place_kind(catalogue, sources, *place),
        Output::Count | Output::Sum(_) => Kind::Int,
    }
}

/// The names and kinds of the columns of the plan's answer; the plan is one over the catalogue. `AllocError` if an allocation
/// failed.
pub fn answer_columns(
    alloc: Global,
    catalogue: &Catalogue,
    plan: &Plan,
) -> Result<Vec<Column>, AllocError> {
    let outputs = plan.left.outputs.get();
    let mut columns = Vec::with_capacity(alloc, outputs.len())?;
    'outputs: for (name, output) in plan.columns().iter().zip(outputs) {
        let name = name.try_copy()?;
        let kind = output_kind(catalogue, plan.left.sources.get(), output);
        columns.push(Column { name, kind })?;
    }
    Ok(columns)
}
