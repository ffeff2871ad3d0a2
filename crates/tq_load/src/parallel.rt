// Parallel loading of files.

ghost use Rattle.std.specs.Prelude.{◌≡◌, ◌≢◌, ◌≤◌, Err, IfErr, IfOk, IfSome};
ghost use Rattle.tq_event.specs.Projection.{AreProjectedTables, wanted_lists};
ghost use Rattle.tq_event.specs.Loading.{contents_of, out_of_memory};
ghost use Rattle.tq_event.specs.Tables.{AreRead, AreTables};

use crate::combining::{combine_parallel, is_within, whole_tables};
use crate::cut::{cut, part_len};
use crate::headers::read_schemas;
use crate::if_valid::if_valid;
use crate::options::LoadOptions;
use crate::work::{Parts, read_parts};
use std::alloc::{AllocError, Global};
use std::thread::Threads;
use tq_base::{Catalogue, List};
use tq_event::{LoadFault, LoadFaultKind, MAX_EVENTS, TableFile, Tables, load_projected};
use tq_run::Gate;

// The least length of a part; a smaller file is not cut.
const MIN_PART_LENGTH: usize = 65_536;

// The tables of the files, with only the wanted values kept, read in parts by several workers. `None` if anything is
// invalid.
fn tables_of_parts<R: Threads + Sync, G: Gate + Sync>(
    rt: &R,
    alloc: Global,
    files: &[TableFile],
    wanted: &[Vec<bool>],
    least: usize,
    gate: &G,
    options: LoadOptions,
) -> Result<Option<Tables>, AllocError>
    requires some { 1 ≤ options.workers }
    requires at_most { options.workers ≤ 16 }
    ensures tables { IfOk result (λ found. IfSome found (AreProjectedTables options.form files.now options.limit (wanted_lists wanted.now))) }
    ensures read { IfOk result (λ found. IfSome found (λ tables. AreRead tables.catalogue.tables tables.rows)) }
{
    let Some(schemas) = if_valid(read_schemas(alloc, files))? else {
        return Ok(None);
    };
    let LoadOptions { limit, workers, .. } = options;
    let len = part_len(files, workers, least);
    let parts = cut(alloc, files, len, workers)?;
    let work = Parts {
        alloc,
        files,
        wanted,
        schemas: &schemas,
        parts: &parts,
        options,
    };
    let read = read_parts(rt, &work, gate)?;
    let Some(read) = combine_parallel(rt, alloc, files.len(), workers, read)? else {
        return Ok(None);
    };
    let Some(rows) = whole_tables(alloc, files, read)? else {
        return Ok(None);
    };
    if !is_within(limit, &rows) {
        return Ok(None);
    }
    Ok(Some(Tables {
        catalogue: Catalogue {
            tables: List::of(schemas),
        },
        rows: List::of(rows),
    }))
}

// `load_projected_parallel` with parts of length `least` or more instead of 64 KiB.
fn load_by_parts<R: Threads + Sync, G: Gate + Sync>(
    rt: &R,
    alloc: Global,
    files: Vec<TableFile>,
    wanted: &[Vec<bool>],
    least: usize,
    gate: &G,
    options: LoadOptions,
) -> Result<Tables, LoadFault>
    requires limit { options.limit ≤ MAX_EVENTS }
    requires some { 1 ≤ options.workers }
    requires at_most { options.workers ≤ 16 }
    ensures tables { IfOk result (AreProjectedTables options.form files.items options.limit (wanted_lists wanted.now)) }
    ensures read { IfOk result (λ tables. AreRead tables.catalogue.tables tables.rows) }
    ensures fault { IfErr result (λ fault. fault.kind ≢ LoadFaultKind.OutOfMemory → contents_of options.form files.items options.limit ≡ Err fault) }
    ensures out_of_memory { IfErr result (λ fault. fault.kind ≡ LoadFaultKind.OutOfMemory → fault ≡ out_of_memory) }
{
    if options.workers > 1
        && let Some(tables) = tables_of_parts(rt, alloc, &files, wanted, least, gate, options)?
    {
        return Ok(tables);
    }
    load_projected(alloc, files, wanted, options.limit, options.form)
}

/// `load_tables_parallel` with parts of length `least` or more instead of 64 KiB. Public for tests, which
/// cut small inputs.
pub fn load_tables_by_parts<R: Threads + Sync, G: Gate + Sync>(
    rt: &R,
    alloc: Global,
    files: Vec<TableFile>,
    least: usize,
    gate: &G,
    options: LoadOptions,
) -> Result<Tables, LoadFault>
    requires limit { options.limit ≤ MAX_EVENTS }
    requires some { 1 ≤ options.workers }
    requires at_most { options.workers ≤ 16 }
    ensures tables { IfOk result (AreTables options.form files.items options.limit) }
    ensures fault { IfErr result (λ fault. fault.kind ≢ LoadFaultKind.OutOfMemory → contents_of options.form files.items options.limit ≡ Err fault) }
    ensures out_of_memory { IfErr result (λ fault. fault.kind ≡ LoadFaultKind.OutOfMemory → fault ≡ out_of_memory) }
{
    load_by_parts(rt, alloc, files, &[], least, gate, options)
}

/// Loads files as `load_tables` does, by 1 to 16 workers, one of which is the calling thread. The gate is called before
/// each part is read. It is not called if there is one worker, or while the files are loaded again for their first
/// fault. `OutOfMemory` if an allocation failed.
pub fn load_tables_parallel<R: Threads + Sync, G: Gate + Sync>(
    rt: &R,
    alloc: Global,
    files: Vec<TableFile>,
    gate: &G,
    options: LoadOptions,
) -> Result<Tables, LoadFault>
    requires limit { options.limit ≤ MAX_EVENTS }
    requires some { 1 ≤ options.workers }
    requires at_most { options.workers ≤ 16 }
    ensures tables { IfOk result (AreTables options.form files.items options.limit) }
    ensures fault { IfErr result (λ fault. fault.kind ≢ LoadFaultKind.OutOfMemory → contents_of options.form files.items options.limit ≡ Err fault) }
    ensures out_of_memory { IfErr result (λ fault. fault.kind ≡ LoadFaultKind.OutOfMemory → fault ≡ out_of_memory) }
{
    load_tables_by_parts(rt, alloc, files, MIN_PART_LENGTH, gate, options)
}

/// Loads files as `load_projected` does, by 1 to 16 workers. `wanted` has for each table, and for each of its columns,
/// whether it is wanted; tables and columns after the end of a list are wanted. Periods are always kept. The gate is
/// called as by `load_tables_parallel`.
pub fn load_projected_parallel<R: Threads + Sync, G: Gate + Sync>(
    rt: &R,
    alloc: Global,
    files: Vec<TableFile>,
    wanted: &[Vec<bool>],
    gate: &G,
    options: LoadOptions,
) -> Result<Tables, LoadFault>
    requires limit { options.limit ≤ MAX_EVENTS }
    requires some { 1 ≤ options.workers }
    requires at_most { options.workers ≤ 16 }
    ensures tables { IfOk result (AreProjectedTables options.form files.items options.limit (wanted_lists wanted.now)) }
    ensures read { IfOk result (λ tables. AreRead tables.catalogue.tables tables.rows) }
    ensures fault { IfErr result (λ fault. fault.kind ≢ LoadFaultKind.OutOfMemory → contents_of options.form files.items options.limit ≡ Err fault) }
    ensures out_of_memory { IfErr result (λ fault. fault.kind ≡ LoadFaultKind.OutOfMemory → fault ≡ out_of_memory) }
{
    load_by_parts(rt, alloc, files, wanted, MIN_PART_LENGTH, gate, options)
}
