// The open rows of a table, which decide whether a row can end.

ghost use Rattle.std.specs.Prelude.{◌≡◌, ◌↔◌, ◌<◌, ◌∷◌, ◌++◌, [], IsTrue, IsSomeAnd, OnOk, OnErr, slice_get, slice_set};

use std::alloc::{AllocError, Global};
use std::marker::Model;
use tq_base::Instant;

/// For each row of a table the time of its start, unless the row has ended.
#[derive(Drop, Debug)]
pub struct Starts {
    rows: Vec<Option<Instant>>,
}

impl Model for Starts {
    ghost use Rattle.std.specs.Prelude.{List, Option, ℕ};

    ghost Value = { List (Option ℕ) };

    ghost view = { λ s. s.rows.items };
}

impl Starts {
    pub fn new(alloc: Global) -> Starts
        ensures { result ≡ [] }
    {
        Starts {
            rows: Vec::new(alloc),
        }
    }

    /// Starts a row. If an allocation failed, nothing has changed.
    pub fn start(&mut self, at: Instant) -> Result<(), AllocError>
        ensures ok { OnOk result (self.new ≡ self.old ++ Some at ∷ []) }
        ensures err { OnErr result (self.new ≡ self.old) }
    {
        self.rows.push(Some(at))?;
        Ok(())
    }

    /// Ends the row.
    pub fn end(&mut self, row: usize)
        ensures { self.new ≡ slice_set self.old row None }
    {
        if row < self.rows.len() {
            self.rows[row] = None;
        }
    }

    /// Whether the row is open and started before the instant.
    pub fn is_open_before(&self, row: usize, at: Instant) -> bool
        ensures { IsTrue result ↔ IsSomeAnd (slice_get self.now row) (λ start. IsSomeAnd start (λ from. from < at)) }
    {
        match self.rows.get(row) {
            Some(Some(from)) => *from < at,
            _ => false,
        }
    }
}
