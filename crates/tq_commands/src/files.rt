// Reads the files of the command line.

ghost use Rattle.std.specs.Prelude.{◌≡◌, ◌≢◌, false, IfErr, IfOk, None, codes, map};
ghost use Rattle.tq_commands.specs.Refusals.{IsReadRefusal};
ghost use Rattle.tq_commands.specs.Spans.{IsRemainder};
ghost use Rattle.tq_cli.specs.declared.request.TableOption.{TableOption as AnyOption};
ghost use Rattle.tq_event.specs.declared.file.TableFile.{TableFile as AnyFile};

use crate::pieces::{len_of, read_pieces};
use crate::progress::{Counted, Progress};
use crate::read_errors::{file_len, reason};
use crate::report::{Diagnostic, Refusal};
use crate::retained::is_read_once;
use crate::spans::Opened;
use std::alloc::{AllocError, Global};
use std::io::{ErrorKind, Input};
use std::os::unix::fs::FileExt;
use std::rt::Files;
use std::thread::Threads;
use std::{fs, str, thread};
use tq_base::List;
use tq_cli::TableOption;
use tq_engine::{FileFault, Source, read_file};
use tq_event::{FileBytes, TableFile};

/// Opens the file at a path. The standard library opens no path that is not valid UTF-8.
pub fn open_file<R: Files>(rt: &R, path: &[u8]) -> Result<R::File, FileFault> {
    let Ok(path) = str::from_utf8(path) else {
        return Err(FileFault::Read);
    };
    match fs::open(rt, path) {
        Ok(file) => Ok(file),
        Err(error) if error.kind() == ErrorKind::OutOfMemory => Err(FileFault::OutOfMemory),
        Err(_) => Err(FileFault::Read),
    }
}

/// The bytes of the file at a path, or of standard input if the path is `-`. `Read` if it cannot be opened or read,
/// `TooLarge` if it has more than 1,073,741,824 bytes, `OutOfMemory` if an allocation failed.
pub fn read_path<R: Files + AllocGlobal + Input>(
    rt: &R,
    path: &[u8],
    progress: &Progress,
) -> Result<Vec<u8>, FileFault>
    ensures input { path.now ≡ codes "-" → IfOk result (λ bytes. (reader : R.Reader) × IsRemainder (R.Reader.remaining reader) bytes.items) }
    ensures file { path.now ≢ codes "-" → IfOk result (λ bytes. (file : R.File) × IsRemainder (R.File.remaining file) bytes.items) }
{
    if path == b"-".as_slice() {
        let reader = rt.reader();
        return read_file(rt.alloc(), &mut Source::over(Counted { reader, progress }));
    }
    let reader = open_file(rt, path)?;
    read_file(rt.alloc(), &mut Source::over(Counted { reader, progress }))
}

// The bytes of the file at a path or of standard input. A large file is read in pieces by up to `workers` threads.
fn read_bytes<
    R: Files<File: FileExt + Send + Sync, Dir: Send>
        + AllocGlobal
        + Input<Reader: Send>
        + Threads
        + Sync,
>(rt: &R, path: &[u8], workers: u32, progress: &Progress) -> Result<FileBytes, FileFault> {
    if workers < 2 || path == b"-".as_slice() {
        return Ok(FileBytes::of(read_path(rt, path, progress)?));
    }
    let file = open_file(rt, path)?;
    let opened = Opened { file: &file };
    if let Some(bytes) = read_pieces(rt, rt.alloc(), &opened, len_of(&file), workers, progress)? {
        return Ok(bytes);
    }
    let mut source = Source::over(Counted {
        reader: file,
        progress,
    });
    Ok(FileBytes::of(read_file(rt.alloc(), &mut source)?))
}

// A table's name and the bytes of its file, which up to `workers` threads read.
fn read_table<
    R: Files<File: FileExt + Send + Sync, Dir: Send>
        + AllocGlobal
        + Input<Reader: Send>
        + Threads
        + Sync,
>(rt: &R, option: TableOption, workers: u32, progress: &Progress) -> Result<TableFile, Refusal>
    ensures name { IfOk result (λ file. file.name ≡ option.name.items) }
    ensures refused { IfErr result (λ refusal. refusal ≢ Refusal.OutOfMemory → refusal ≡ Refusal.CannotRead option.path) }
{
    let TableOption { name, path } = option;
    match read_bytes(rt, &path, workers, progress) {
        Ok(bytes) => Ok(TableFile {
            name: List::of(name),
            bytes,
        }),
        Err(fault) => Err(Refusal::of_file(fault, path)),
    }
}

// Adds the lengths of the files to the bytes that progress expects.
fn expect_files<R: Files>(rt: &R, options: &[TableOption], progress: &Progress) {
    for option in options {
        progress.expect(file_len(rt, &option.path));
    }
}

// Reads the tables one after the other, in the order of their options, each with up to `workers` threads.
fn read_sequentially<
    R: Files<File: FileExt + Send + Sync, Dir: Send>
        + AllocGlobal
        + Input<Reader: Send>
        + Threads
        + Sync,
>(
    rt: &R,
    options: Vec<TableOption>,
    workers: u32,
    progress: &Progress,
) -> Result<Vec<TableFile>, Refusal>
    ensures tables { IfOk result (λ tables. map (λ (t : AnyFile). t.name) tables.items ≡ map (λ (o : AnyOption). o.name.items) options.items) }
    ensures refused { IfErr result (IsReadRefusal options.items) }
{
    let mut tables = Vec::new(rt.alloc());
    'options: for option in options {
        tables
            .push(read_table(rt, option, workers, progress)?)
            .map_err(AllocError::from)?;
    }
    Ok(tables)
}

// Whether every table can be read again, so that reading one takes no bytes from another.
fn all_rereadable<R: Files>(rt: &R, options: &[TableOption]) -> bool {
    'options: for option in options {
        if is_read_once(rt, &option.path) {
            return false;
        }
    }
    true
}

// Reads the tables with two threads, in the order of their options. Each thread reads half of the tables with half of
// the workers.
fn read_concurrently<
    R: Files<File: FileExt + Send + Sync, Dir: Send>
        + AllocGlobal
        + Input<Reader: Send>
        + Threads
        + Sync,
>(
    rt: &R,
    options: Vec<TableOption>,
    workers: u32,
    progress: &Progress,
) -> Result<Vec<TableFile>, Refusal>
    ensures tables { IfOk result (λ tables. map (λ (t : AnyFile). t.name) tables.items ≡ map (λ (o : AnyOption). o.name.items) options.items) }
    ensures refused { IfErr result (IsReadRefusal options.items) }
{
    let mut front = options;
    let back = front.split_off(front.len() / 2)?;
    let read_front = || -> Result<Vec<TableFile>, Refusal>
        ensures tables { IfOk result (λ tables. map (λ (t : AnyFile). t.name) tables.items ≡ map (λ (o : AnyOption). o.name.items) front.items) }
        ensures refused { IfErr result (IsReadRefusal front.items) }
    { read_sequentially(rt, front, workers / 2, progress) };
    let read_back = || -> Result<Vec<TableFile>, Refusal>
        ensures tables { IfOk result (λ tables. map (λ (t : AnyFile). t.name) tables.items ≡ map (λ (o : AnyOption). o.name.items) back.items) }
        ensures refused { IfErr result (IsReadRefusal back.items) }
    { read_sequentially(rt, back, workers / 2, progress) };
    let (more, tables) = thread::join(rt, read_back, read_front);
    let mut tables = tables?;
    let mut more = more?;
    tables.append(&mut more)?;
    Ok(tables)
}

// Reads the tables in the order of their options, concurrently if there are several workers.
fn read_tables<
    R: Files<File: FileExt + Send + Sync, Dir: Send>
        + AllocGlobal
        + Input<Reader: Send>
        + Threads
        + Sync,
>(
    rt: &R,
    options: Vec<TableOption>,
    workers: u32,
    progress: &Progress,
) -> Result<Vec<TableFile>, Refusal>
    ensures tables { IfOk result (λ tables. map (λ (t : AnyFile). t.name) tables.items ≡ map (λ (o : AnyOption). o.name.items) options.items) }
    ensures refused { IfErr result (IsReadRefusal options.items) }
{
    expect_files(rt, &options, progress);
    if workers > 1 && options.len() > 1 && all_rereadable(rt, &options) {
        read_concurrently(rt, options, workers, progress)
    } else {
        read_sequentially(rt, options, workers, progress)
    }
}

// The refusal, with the reason why a file cannot be read if `explain` is set.
fn diagnostic_of<R: Files + AllocGlobal>(rt: &R, refusal: Refusal, explain: bool) -> Diagnostic
    ensures refusal { result.refusal ≡ refusal }
    ensures silent { explain ≡ false → result.detail ≡ None }
{
    if !explain {
        return Diagnostic::from(refusal);
    }
    match refusal {
        Refusal::CannotRead(path) => {
            let reason = reason(rt, &path);
            Diagnostic::of_unreadable(rt.alloc(), path, reason)
        }
        _ => Diagnostic::from(refusal),
    }
}

/// Reads the tables in the order of their options. After an error: the refusal, with details if `explain` is set. With
/// several workers, two threads read different files, unless a file can be read only once; up to four read one large
/// file.
pub fn read_table_files<
    R: Files<File: FileExt + Send + Sync, Dir: Send>
        + AllocGlobal
        + Input<Reader: Send>
        + Threads
        + Sync,
>(
    rt: &R,
    options: Vec<TableOption>,
    workers: u32,
    explain: bool,
    progress: &Progress,
) -> Result<Vec<TableFile>, Diagnostic>
    ensures tables { IfOk result (λ tables. map (λ (t : AnyFile). t.name) tables.items ≡ map (λ (o : AnyOption). o.name.items) options.items) }
    ensures refused { IfErr result (λ diagnostic. IsReadRefusal options.items diagnostic.refusal) }
    ensures silent { explain ≡ false → IfErr result (λ diagnostic. diagnostic.detail ≡ None) }
{
    match read_tables(rt, options, workers, progress) {
        Ok(tables) => Ok(tables),
        Err(refusal) => Err(diagnostic_of(rt, refusal, explain)),
    }
}

/// The paths of the tables, in the order of their options. `AllocError` if an allocation failed.
pub fn paths_of(alloc: Global, options: &[TableOption]) -> Result<Vec<Vec<u8>>, AllocError>
    ensures { IfOk result (λ paths. map (λ p. p.items) paths.items ≡ map (λ (o : AnyOption). o.path.items) options.now) }
{
    let mut paths = Vec::new(alloc);
    'options: for option in options {
        paths
            .push(option.path.to_vec(alloc)?)
            .map_err(AllocError::from)?;
    }
    Ok(paths)
}
