// Reading of a whole file.

ghost use Rattle.std.specs.Prelude.{◌≡◌, ◌≢◌, ◌+◌, ◌≤◌, OnOk, OnErr, IfOk, IfErr, vec_len};
ghost use Rattle.std.specs.Io.KnownBytes.{Consumes, IsAtEnd};
ghost use Rattle.tq_table.specs.Sink.{one_more};
ghost use Rattle.tq_engine.specs.Source.{ConsumesMore, ConsumesSome, most_bytes, most_reads};

use crate::source::{FileFault, Source};
use std::alloc::Global;
use std::io::Read;

/// The most bytes that a file may have.
pub const FILE_LIMIT: usize = 1_073_741_824;

// The most reads of one file.
const READ_LIMIT: u32 = 2_147_483_648;

// The size of the buffer of one read, in bytes.
const CHUNK: usize = 65_536;

/// Reads all bytes that are left in the source. `Read` if a read failed; no read follows it. `TooLarge` if more than
/// 1,073,741,824 bytes were read. `OutOfMemory` if an allocation failed.
pub fn read_file<R: Read>(alloc: Global, source: &mut Source<R>) -> Result<Vec<u8>, FileFault>
    ensures whole { IfOk result (λ v. Consumes (R.remaining source.old.reader) (R.remaining source.new.reader)
        v.items) }
    ensures ended { OnOk result (IsAtEnd (R.remaining source.new.reader)) }
    ensures size { IfOk result (λ v. vec_len v ≤ most_bytes) }
    ensures no_fault { OnOk result (source.new.failed ≡ source.old.failed) }

    ensures part { OnErr result (ConsumesSome (R.remaining source.old.reader) (R.remaining source.new.reader)) }
    ensures read { IfErr result (λ e. e ≡ FileFault.Read → source.new.failed ≡ one_more source.old.failed) }
    ensures not_read { IfErr result (λ e. e ≢ FileFault.Read → source.new.failed ≡ source.old.failed) }
    ensures too_large { IfErr result (λ e. e ≡ FileFault.TooLarge
        → ConsumesMore (R.remaining source.old.reader) (R.remaining source.new.reader) most_bytes) }

    ensures reads { source.new.reads ≤ source.old.reads + most_reads }
{
    let Ok(mut room) = vec![in alloc; 0u8; CHUNK] else {
        return Err(FileFault::OutOfMemory);
    };
    let chunk = room.as_mut_slice();
    let mut bytes = Vec::new(alloc);
    'reads: for _turn in 0..READ_LIMIT {
        let taken = match source.read_some(chunk) {
            Ok(0) => return Ok(bytes),
            Ok(taken) => taken,
            Err(fault) => return Err(fault),
        };
        if taken > FILE_LIMIT - bytes.len() {
            return Err(FileFault::TooLarge);
        }
        if bytes.extend_from_slice(&chunk[..taken]).is_err() {
            return Err(FileFault::OutOfMemory);
        }
    }
    // Each read returned at least one byte, so the limit on bytes is reached before the limit on reads.
    unreachable!()
}
