// The pieces of an answer, which workers claim one by one.

ghost use Rattle.std.specs.Prelude.{◌≡◌, ◌↔◌, [], false, true, length, IfOk, IsTrue, OnErr};
ghost use Rattle.std.specs.List.{enumerate_from};
ghost use Rattle.tq_core.specs.Machine.{claimed, next_piece};

use std::alloc::{AllocError, Global};
use std::marker::Model;
use tq_base::List;

/// The pieces of one answer, with the worker that claimed each.
#[derive(Drop, Debug)]
pub struct Pieces {
    pieces: u32,
    claimants: Vec<u32>,
    closed: bool,
}

impl Model for Pieces {
    ghost use Rattle.tq_core.specs.Machine.{PieceRun};

    ghost Value = { PieceRun };

    ghost view = { λ p. record { pieces = p.pieces; claimants = p.claimants.items; closed = p.closed } };
}

// Each piece with its worker.
fn in_order(alloc: Global, pieces: u32, claimants: &[u32]) -> Result<List<(u32, u32)>, AllocError>
    requires { length claimants.now ≡ pieces }
    ensures { IfOk result (λ order. order ≡ enumerate_from 0 claimants.now) }
{
    let mut order = Vec::with_capacity(alloc, claimants.len())?;
    for piece in 0..pieces {
        order.push((piece, claimants[piece as usize]))?;
    }
    Ok(List::of(order))
}

impl Pieces {
    /// `pieces` pieces, none of them claimed.
    pub fn new(alloc: Global, pieces: u32) -> Pieces
        ensures { result ≡ record { pieces = pieces; claimants = []; closed = false } }
    {
        Pieces {
            pieces,
            claimants: Vec::new(alloc),
            closed: false,
        }
    }

    /// Whether the pieces are closed.
    pub fn is_closed(&self) -> bool
        ensures { result ≡ self.now.closed }
    {
        self.closed
    }

    /// Gives the next piece to the worker, or `None` if none is left. `AllocError` if an allocation failed; then
    /// nothing changes.
    pub fn claim(&mut self, worker: u32) -> Result<Option<u32>, AllocError>
        ensures piece { IfOk result (λ piece. piece ≡ next_piece self.old) }
        ensures claimed { IfOk result (λ _. self.new ≡ claimed worker self.old) }
        ensures err { OnErr result (self.new ≡ self.old) }
    {
        let next = self.claimants.len();
        if next < self.pieces as usize {
            self.claimants.push(worker)?;
            Ok(Some(next as u32))
        } else {
            Ok(None)
        }
    }

    /// Whether the pieces are not closed yet, and each was claimed.
    pub fn can_close(&self) -> bool
        ensures { IsTrue result ↔ ((self.now.closed ≡ false) × (length self.now.claimants ≡ self.now.pieces)) }
    {
        !self.closed && self.claimants.len() == self.pieces as usize
    }

    /// Closes the pieces and returns each with the worker that claimed it, in order. `AllocError` if an allocation
    /// failed; then nothing changes.
    pub fn close(&mut self, alloc: Global) -> Result<List<(u32, u32)>, AllocError>
        requires { length self.old.claimants ≡ self.old.pieces }
        ensures order { IfOk result (λ order. order ≡ enumerate_from 0 self.old.claimants) }
        ensures closed { IfOk result (λ _. self.new ≡ record self.old { closed = true }) }
        ensures err { OnErr result (self.new ≡ self.old) }
    {
        let order = in_order(alloc, self.pieces, &self.claimants)?;
        self.closed = true;
        Ok(order)
    }
}
