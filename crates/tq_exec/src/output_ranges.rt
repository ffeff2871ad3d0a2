// Ranges of values: the rows of each are a part of the answer.

ghost use Rattle.std.specs.Prelude.{◌≡◌, ◌≤◌, IfOk, IfSome};
ghost use Rattle.tq_base.specs.Fragments.{copies};
ghost use Rattle.tq_exec.specs.AnswerParts.{HaveAnswer};
ghost use Rattle.tq_exec.specs.OutputRanges.{numbers_in, range_at, IsRange};

use crate::answer_parts::{AnswerPart, Made, Wanted, are_ascending, made_of, make_part};
use crate::range_ids::ids_by_range;
use crate::workers::Workers;
use std::alloc::{AllocError, Global};
use std::thread::Threads;
use tq_base::Relation;
use tq_run::{Gate, Work, run_with};
use tq_table::coalesce;

// The number of ranges for each worker, so that no worker waits long for the last range.
const RANGES_EACH: u32 = 4;

// The parts of the answer that the ranges of the rows are, one piece for each of `count` ranges. `ids` has the range of each row.
#[derive(Drop)]
struct Ranges<'p, 'a> {
    alloc: Global,
    rows: &'p Relation<'a>,
    ids: &'p [u8],
    count: u32,
    wanted: Wanted,
    ghost some: { 1 ≤ count },
}

// The range of the row: its id, but at most the last range.
fn range_at(ids: &[u8], count: u32, number: usize) -> u32
    requires { 1 ≤ count }
    ensures { result ≡ range_at ids.now count number }
{
    let range = ids.get(number).copied().unwrap_or(0);
    u32::from(range).min(count - 1)
}

// The numbers of the rows of the range.
fn numbers_in(
    alloc: Global,
    ids: &[u8],
    count: u32,
    len: usize,
    range: u32,
) -> Result<Vec<u32>, AllocError>
    requires some { 1 ≤ count }
    requires few { len ≤ 4294967295 }
    ensures { IfOk result (λ numbers. numbers.items ≡ numbers_in ids.now count len range) }
{
    let mut numbers = Vec::new(alloc);
    'rows: for number in 0..len {
        if range_at(ids, count, number) == range {
            numbers.push(number as u32)?;
        }
    }
    Ok(numbers)
}

impl<'p> Work for Ranges<'p, '_> {
    type Out = AnswerPart<'p>;

    ghost count = { λ w. w.count };

    ghost relates = { λ w i out. IsRange w.wanted w.rows.now.width w.rows.now.items w.ids.now w.count i out };

    fn pieces(&self) -> u32 {
        self.count
    }

    fn run(&self, i: u32) -> Result<AnswerPart<'p>, AllocError> {
        let numbers = numbers_in(self.alloc, self.ids, self.count, self.rows.len(), i)?;
        let rows = coalesce(self.alloc, self.rows.take_rows_ref(self.alloc, &numbers)?)?;
        make_part(self.alloc, rows, self.wanted)
    }
}

/// The parts of the layers of the rows, one for each range of their values, made by these workers. `None` if the ranges
/// are not in order.
pub(crate) fn parts_by_range<R: Threads + Sync, G: Gate + Sync>(
    workers: &Workers<'_, R, G>,
    rows: &Relation<'_>,
    wanted: Wanted,
) -> Result<Option<Vec<Made>>, AllocError>
    ensures { IfOk result (λ made. IfSome made (λ parts. HaveAnswer wanted rows.now.width (copies rows.now.items) parts.items)) }
{
    let alloc = workers.alloc;
    let count = RANGES_EACH * workers.count;
    let ids = ids_by_range(workers, rows, count)?;
    let work = Ranges {
        alloc,
        rows,
        ids: &ids,
        count,
        wanted,
    };
    let ranges = run_with(workers.rt, alloc, workers.count, &work, workers.gate)?;
    if !are_ascending(&ranges) {
        return Ok(None);
    }
    Ok(Some(made_of(alloc, ranges)?))
}
