// The columns that a statement names, found from headers before any record is read.

ghost use Rattle.std.specs.Prelude.{IfSome};
ghost use Rattle.tq_engine.specs.Answers.{ServesQuery};
ghost use Rattle.tq_event.specs.Projection.{wanted_lists};

use std::alloc::Global;
use tq_base::{Catalogue, Form, List};
use tq_event::TableFile;
use tq_load::laws::headers_are_catalogue;
use tq_load::read_schemas;
use tq_plan::plan;
use tq_sql::laws::statements_are_unique;
use tq_sql::read;

// For each table, which columns the statement names. `None` if a header, the statement or its plan is invalid, or an
// allocation failed.
fn plan_columns(
    alloc: Global,
    files: &[TableFile],
    bytes: &[u8],
    form: Form,
) -> Option<Vec<Vec<bool>>>
    ensures { IfSome result (λ wanted. ServesQuery form files.now bytes.now (wanted_lists wanted.items)) }
{
    headers_are_catalogue();
    statements_are_unique();
    let Ok(schemas) = read_schemas(alloc, files) else {
        return None;
    };
    let Ok(statement) = read(alloc, bytes) else {
        return None;
    };
    let catalogue = Catalogue {
        tables: List::of(schemas),
    };
    let Ok(plan) = plan(alloc, &catalogue, &statement, form) else {
        return None;
    };
    match tq_exec::required_columns(alloc, &catalogue, &plan) {
        Ok(columns) => Some(columns),
        Err(_) => None,
    }
}

/// For each table, which columns the statement names. An empty list means that all columns are loaded: a header, the
/// statement or its plan is invalid, or an allocation failed.
pub(crate) fn required_columns(
    alloc: Global,
    files: &[TableFile],
    bytes: &[u8],
    form: Form,
) -> Vec<Vec<bool>>
    ensures { ServesQuery form files.now bytes.now (wanted_lists result.items) }
{
    match plan_columns(alloc, files, bytes, form) {
        Some(columns) => columns,
        None => Vec::new(alloc),
    }
}
