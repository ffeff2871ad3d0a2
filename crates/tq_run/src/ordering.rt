// Results in the order of their pieces, by their numbers and without a sort.
ghost use Rattle.std.specs.Prelude.{◌≡◌, IfOk, vec_len};
ghost use Rattle.tq_run.specs.Results.{IsResultList};
ghost use Rattle.tq_run.specs.Counting.{EachOnce};
ghost use Rattle.tq_run.specs.Sharing.{numbers, ResultsRelate, AllFilled};

use crate::pieces::Work;
use std::alloc::{AllocError, Global};

// A list with an empty slot for each piece.
fn empty_slots<X: Drop>(alloc: Global, count: u32) -> Result<Vec<Option<X>>, AllocError>
    ensures { IfOk result (λ v. vec_len v ≡ count) }
{
    let mut places = Vec::with_capacity(alloc, count as usize)?;
    for _ in 0..count {
        places.push(None)?;
    }
    Ok(places)
}

// Puts each result into its piece's slot.
fn place<W: Work>(work: &W, done: Vec<(u32, W::Out)>, places: &mut Vec<Option<W::Out>>)
where
    W::Out: Drop,
    requires many { vec_len places.old ≡ W.count work.now }
    requires once { EachOnce (numbers done.items) (W.count work.now) }
    requires relates { ResultsRelate (W.relates work.now) done.items }
    ensures { AllFilled (W.relates work.now) (W.count work.now) places.new.items }
{
    for (i, x) in done {
        places[i as usize] = Some(x);
    }
}

// Takes the results out of their slots.
fn take_out<W: Work>(
    alloc: Global,
    work: &W,
    places: Vec<Option<W::Out>>,
) -> Result<Vec<W::Out>, AllocError>
where
    W::Out: Drop,
    requires { AllFilled (W.relates work.now) (W.count work.now) places.items }
    ensures { IfOk result (λ v. IsResultList (W.relates work.now) (W.count work.now) v.items) }
{
    let mut results = Vec::with_capacity(alloc, places.len())?;
    for place in places {
        let Some(x) = place else { unreachable!() };
        results.push(x)?;
    }
    Ok(results)
}

pub(crate) fn in_order<W: Work>(
    alloc: Global,
    work: &W,
    done: Vec<(u32, W::Out)>,
) -> Result<Vec<W::Out>, AllocError>
where
    W::Out: Drop,
    requires once { EachOnce (numbers done.items) (W.count work.now) }
    requires relates { ResultsRelate (W.relates work.now) done.items }
    ensures { IfOk result (λ v. IsResultList (W.relates work.now) (W.count work.now) v.items) }
{
    let mut places = empty_slots(alloc, work.pieces())?;
    place(work, done, &mut places);
    take_out(alloc, work, places)
}
