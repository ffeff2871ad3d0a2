// The parts of files as pieces of work for several threads.

ghost use Rattle.std.specs.Prelude.{◌≡◌, ◌≤◌, All, IfOk, IfSome, length, slice_range};
ghost use Rattle.std.proofs.Props.{props};
ghost use Rattle.tq_event.specs.Projection.{wanted_lists};
ghost use Rattle.tq_load.specs.Parts.{IsPartOf, IsRead, part_of_prop};

use crate::if_valid::if_valid;
use crate::options::LoadOptions;
use crate::part::{Part, PartRows};
use crate::reading::read_part;
use std::alloc::{AllocError, Global};
use std::thread::Threads;
use tq_base::{Form, Schema};
use tq_event::steps::wanted_columns;
use tq_event::{FileBytes, TableFile};
use tq_run::{Gate, Work, run_with};

// The bytes from `start` up to `end`, borrowed, if they are in one list.
fn bytes_between(bytes: &FileBytes, start: usize, end: usize) -> Option<&[u8]>
    requires { start ≤ end }
    ensures { IfSome result (λ found. found.now ≡ slice_range bytes.entry.now start end) }
{
    let here = bytes.piece_from(start);
    if end - start > here.len() {
        return None;
    }
    Some(&here[..end - start])
}

// The rows of a part, with only the wanted values kept; `None` if the part is invalid.
fn part_rows(
    alloc: Global,
    limit: u32,
    files: &[TableFile],
    wanted: &[Vec<bool>],
    schemas: &[Schema],
    part: Part,
    form: Form,
) -> Result<Option<PartRows>, AllocError>
    requires part { IsPartOf files.now part }
    requires many { length schemas.now ≡ length files.now }
    ensures { IfOk result (λ read. IfSome read (IsRead form files.now (wanted_lists wanted.now) schemas.now)) }
{
    let columns = schemas[part.table as usize].columns.get();
    let bytes = &files[part.table as usize].bytes;
    let Some(bytes) = bytes_between(bytes, part.start, part.end) else {
        return Ok(None);
    };
    let wanted = wanted_columns(wanted, part.table);
    let read = read_part(alloc, limit, columns, wanted, bytes, part.start, form);
    match if_valid(read)? {
        Some(rows) => Ok(Some(PartRows { part, rows })),
        None => Ok(None),
    }
}

/// The parts of files as work, one part for each piece.
#[derive(Drop)]
pub struct Parts<'p> {
    pub alloc: Global,
    pub files: &'p [TableFile],
    pub wanted: &'p [Vec<bool>],
    pub schemas: &'p [Schema],
    pub parts: &'p [Part],
    pub options: LoadOptions,
    ghost few: { length parts.now ≤ 65552 },
    ghost many: { length schemas.now ≡ length files.now },
    ghost are: { All (IsPartOf files.now) parts.now } by { Prim.hlevel (props, part_of_prop) },
}

impl Work for Parts<'_> {
    type Out = Option<PartRows>;

    ghost count = { λ w. length w.parts.now };

    ghost relates = { λ w _ read. IfSome read (IsRead w.options.form w.files.now (wanted_lists w.wanted.now) w.schemas.now) };

    fn pieces(&self) -> u32 {
        self.parts.len() as u32
    }

    fn run(&self, i: u32) -> Result<Option<PartRows>, AllocError> {
        part_rows(
            self.alloc,
            self.options.limit,
            self.files,
            self.wanted,
            self.schemas,
            self.parts[i as usize],
            self.options.form,
        )
    }
}

/// The rows of the parts, in order, read by the workers, with only the wanted values kept. `None` for an invalid part.
pub fn read_parts<R: Threads + Sync, G: Gate + Sync>(
    rt: &R,
    work: &Parts<'_>,
    gate: &G,
) -> Result<Vec<Option<PartRows>>, AllocError>
    requires some { 1 ≤ work.now.options.workers }
    requires at_most { work.now.options.workers ≤ 16 }
    ensures { IfOk result (λ read. All (λ one. IfSome one (IsRead work.now.options.form work.now.files.now (wanted_lists work.now.wanted.now) work.now.schemas.now)) read.items) }
{
    run_with(rt, work.alloc, work.options.workers, work, gate)
}
