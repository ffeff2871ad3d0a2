// What is retained of the files that are read, so that their faults can be explained and their invalid records listed.

ghost use Rattle.std.specs.Prelude.{◌≡◌, IfOk, IfSome, codes, is_some, true};
ghost use Rattle.tq_commands.specs.Retained.{AreRetained, IsRetained};

use crate::read_errors::is_file;
use std::alloc::AllocError;
use std::rt::Files;
use tq_event::{LoadFault, LoadFaultKind, TableFile};

/// A table's name and the path of its file. The bytes are retained only if they cannot be read again.
#[derive(Drop)]
pub struct RetainedFile {
    pub name: Vec<u8>,
    pub path: Vec<u8>,
    pub bytes: Option<Vec<u8>>,
}

/// Whether the bytes at a path can be read only once: standard input and pipes.
pub fn is_read_once<R: Files>(rt: &R, path: &[u8]) -> bool
    ensures { path.now ≡ codes "-" → result ≡ true }
{
    path == b"-".as_slice() || !is_file(rt, path)
}

// The bytes of a file that can be read only once.
fn bytes_if_read_once<R: Files + AllocGlobal>(
    rt: &R,
    file: &TableFile,
    path: &[u8],
) -> Result<Option<Vec<u8>>, AllocError>
    ensures whole { IfOk result (λ found. IfSome found (λ kept. kept.items ≡ file.now.bytes)) }
    ensures of_input { path.now ≡ codes "-" → IfOk result (λ found. is_some found ≡ true) }
{
    if !is_read_once(rt, path) {
        return Ok(None);
    }
    let bytes = file.bytes.to_vec(rt.alloc())?;
    Ok(Some(bytes))
}

fn retain_file<R: Files + AllocGlobal>(
    rt: &R,
    file: &TableFile,
    path: &[u8],
) -> Result<RetainedFile, AllocError>
    ensures { IfOk result (IsRetained file.now path.now) }
{
    let bytes = bytes_if_read_once(rt, file, path)?;
    let name = file.name.get().to_vec(rt.alloc())?;
    let path = path.to_vec(rt.alloc())?;
    Ok(RetainedFile { name, path, bytes })
}

/// Retains the files at these paths. `AllocError` if an allocation failed.
pub fn retain_files<R: Files + AllocGlobal>(
    rt: &R,
    mut files: &[TableFile],
    mut paths: &[Vec<u8>],
) -> Result<Vec<RetainedFile>, AllocError>
    ensures { IfOk result (λ retained. AreRetained files.entry.now paths.entry.now retained.items) }
{
    let mut retained = Vec::new(rt.alloc());
    'files: while let [file, more @ ..] = files {
        let [path, rest @ ..] = paths else {
            return Ok(retained);
        };
        retained.push(retain_file(rt, file, path)?)?;
        files = more;
        paths = rest;
    }
    Ok(retained)
}

/// Retains the files at these paths if `explain` is set; a fault of a file is described with them. `None` if an
/// allocation failed.
pub fn retain_if<R: Files + AllocGlobal>(
    rt: &R,
    files: &[TableFile],
    paths: &[Vec<u8>],
    explain: bool,
) -> Option<Vec<RetainedFile>>
    ensures { IfSome result (λ retained. AreRetained files.now paths.now retained.items) }
{
    if !explain {
        return None;
    }
    retain_files(rt, files, paths).ok()
}

/// Whether invalid records are listed for this fault: it is a fault of a record or of a header.
pub fn is_listed(fault: LoadFault) -> bool {
    fault.number > 0 && !matches!(fault.kind, LoadFaultKind::TooManyEvents)
}
