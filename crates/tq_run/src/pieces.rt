// Work in numbered pieces, and its run on the calling thread.
ghost use Rattle.std.specs.Prelude.{◌≡◌, ℕ, ◌<◌, IfOk};
ghost use Rattle.tq_run.specs.Results.{IsResultList};

use std::alloc::{AllocError, Global};

/// Work in pieces, numbered from 0.
pub trait Work {
    /// The result of one piece.
    type Out;

    // The number of pieces.
    ghost count: { Self → ℕ };

    // The relation between the number of a piece and its result.
    ghost relates: { Self → ℕ → Self.Out → Type 0 };

    /// The number of pieces.
    fn pieces(&self) -> u32
        ensures { result ≡ count self.now };

    /// Runs piece `i`, which is less than the number of pieces. `AllocError` if an allocation failed.
    fn run(&self, i: u32) -> Result<Self::Out, AllocError>
        requires { i < count self.now }
        ensures { IfOk result (λ x. relates self.now i x) };
}

/// An observer of pieces: the worker that took a piece calls it before it runs the piece.
pub trait Gate {
    /// `pieces` pieces are to be run next. It is called before the first of them; by default it does nothing.
    fn expect(&self, _pieces: u32) {}

    /// Piece `i` was taken and is to be run next. The call may delay the worker.
    fn arrive(&self, i: u32);
}

/// A gate that does nothing. It allocates nothing.
#[derive(Clone, Copy, Debug)]
pub struct Open;

impl Gate for Open {
    fn arrive(&self, _: u32) {}
}

/// The results of all pieces in the order of their numbers, run on the calling thread. `AllocError` if a piece returns
/// it, or an allocation failed.
pub fn run_here<W: Work>(alloc: Global, work: &W) -> Result<Vec<W::Out>, AllocError>
where
    W::Out: Drop,
    ensures { IfOk result (λ v. IsResultList (W.relates work.now) (W.count work.now) v.items) }
{
    let pieces = work.pieces();
    let mut results = Vec::with_capacity(alloc, pieces as usize)?;
    for i in 0..pieces {
        results.push(work.run(i)?)?;
    }
    Ok(results)
}
