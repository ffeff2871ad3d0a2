// From the bytes of files to the summary of their tables.

ghost use Rattle.std.specs.Prelude.{◌≡◌, ◌≤◌, IfErr, IfOk, length};
ghost use Rattle.tq_check.specs.Checks.{IsCheck, IsCheckFault, IsTextFault, IsTextOf};

use crate::key_report::KeyChecks;
use crate::reference_report::references_text;
use crate::references::{ReferenceNames, RefusedReference, resolve_all};
use crate::report::check_text;
use std::alloc::{AllocError, Global};
use std::thread::Threads;
use tq_base::Form;
use tq_event::{LoadFault, MAX_EVENTS, TableFile, Tables};
use tq_load::{LoadOptions, load_tables_parallel};
use tq_run::Open;

/// How files are checked: by 1 to 16 workers, one of which is the calling thread. `form` is how the files and the text
/// write instants, and `keys` says which lines there are about rows of one key.
#[derive(Clone, Copy, Debug)]
pub struct CheckOptions {
    pub workers: u32,
    pub form: Form,
    pub keys: KeyChecks,
}

/// Why files were not checked: a fault of a file, or of the names of a reference.
#[derive(Clone, Copy, Debug)]
pub enum CheckFault {
    Load(LoadFault),
    Reference(RefusedReference),
    OutOfMemory,
}

impl From<AllocError> for CheckFault {
    ghost use Rattle.tq_check.specs.declared.checking.CheckFault.TheVariants.{OutOfMemory};

    ghost from_gives = { λ _ fault. fault ≡ OutOfMemory };

    fn from(_error: AllocError) -> CheckFault {
        CheckFault::OutOfMemory
    }
}

// The summary of the tables, and the lines about the references.
fn text_of(
    alloc: Global,
    tables: &Tables,
    names: &[ReferenceNames],
    options: CheckOptions,
) -> Result<Vec<u8>, CheckFault>
    requires { length tables.now.rows ≡ length tables.now.catalogue.tables }
    ensures text { IfOk result (λ text. IsTextOf options.form options.keys names.now tables.now text.items) }
    ensures fault { IfErr result (IsTextFault names.now tables.now) }
{
    let CheckOptions {
        workers: _,
        form,
        keys,
    } = options;
    let references = match resolve_all(alloc, &tables.catalogue, names) {
        Ok(references) => references,
        Err(refused) => return Err(CheckFault::Reference(refused)),
    };
    let mut text = check_text(alloc, tables, form, keys)?;
    text.extend_from_slice(&references_text(alloc, tables, &references, form)?)?;
    Ok(text)
}

/// The summary of the tables of the files, and then the lines about the references with these names. Returns the first
/// fault of the files, or that of the first names that are not those of a reference, or `OutOfMemory` if an allocation
/// failed.
pub fn check<R: Threads + Sync>(
    rt: &R,
    alloc: Global,
    files: Vec<TableFile>,
    names: &[ReferenceNames],
    options: CheckOptions,
) -> Result<Vec<u8>, CheckFault>
    requires some { 1 ≤ options.workers }
    requires few { options.workers ≤ 16 }
    ensures check { IfOk result (λ text. IsCheck options.form options.keys files.items names.now text.items) }
    ensures fault { IfErr result (IsCheckFault options.form files.items names.now) }
{
    let load_options = LoadOptions {
        limit: MAX_EVENTS,
        workers: options.workers,
        form: options.form,
    };
    match load_tables_parallel(rt, alloc, files, &Open, load_options) {
        Ok(tables) => text_of(alloc, &tables, names, options),
        Err(fault) => Err(CheckFault::Load(fault)),
    }
}
