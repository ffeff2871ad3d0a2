//! The open rows of a table, in an order in which rows with equal values are consecutive and ascend by number.

ghost use Rattle.std.specs.Prelude.{◌≡◌, ◌&&◌, ◌||◌, ◌<◌, ◌/◌, ℕ, All, IfNone, IfOk, IfSome, OnOk, OnErr, false, length, not};
ghost use Rattle.std.specs.BTreeSet.{contains};
ghost use Rattle.std.specs.Ordering.{eq_by_cmp, nat_cmp};
ghost use Rattle.tq_snapshot.specs.OpenRows.{HasSame, has, set_index};

use std::alloc::{AllocError, Global};
use std::collections::BTreeSet;
use tq_store::ROWS;

/// The number of sets over which the keys are distributed.
const SETS: usize = 4096;

/// The index keys of the open rows, distributed over sets by the rows' keys. So a change reads and changes only a small
/// set, and rows with one key are in the same set. There are no sets before the first row.
#[derive(Drop)]
pub struct OpenRows {
    alloc: Global,
    pub sets: Vec<BTreeSet<u128>>,
}

// The number of the key's set, if there are `sets` sets.
fn set_index_of(key: u128, sets: usize) -> usize
    requires { 0 < sets }
    ensures value { result ≡ set_index sets key }
    ensures within { result < sets }
{
    (key / ROWS / ROWS % ROWS) as usize % sets
}

fn empty_sets(alloc: Global) -> Result<Vec<BTreeSet<u128>>, AllocError>
    ensures some { IfOk result (λ sets. 0 < length sets.items) }
    ensures none { IfOk result (λ sets. All (λ set. (k : ℕ) → contains nat_cmp set k ≡ false) sets.items) }
{
    let mut sets = Vec::with_capacity(alloc, SETS)?;
    'sets: for _ in 0..SETS {
        sets.push(BTreeSet::new(alloc))?;
    }
    Ok(sets)
}

impl OpenRows {
    /// No rows. Allocates nothing.
    pub fn new(alloc: Global) -> OpenRows
        ensures { (k : ℕ) → has result k ≡ false }
    {
        OpenRows {
            alloc,
            sets: Vec::new(alloc),
        }
    }

    // Creates the sets. Unchanged after an error.
    fn create_sets(&mut self) -> Result<(), AllocError>
        ensures same { HasSame self.old self.new }
        ensures some { OnOk result (0 < length self.new.sets.items) }
    {
        if self.sets.is_empty() {
            self.sets = empty_sets(self.alloc)?;
        }
        Ok(())
    }

    /// Adds an index key. Unchanged after an `AllocError`.
    pub fn insert(&mut self, key: u128) -> Result<(), AllocError>
        ensures ok { OnOk result ((k : ℕ) → has self.new k ≡ (has self.old k || eq_by_cmp nat_cmp key k)) }
        ensures err { OnErr result (HasSame self.old self.new) }
    {
        self.create_sets()?;
        let place = set_index_of(key, self.sets.len());
        let set = &mut self.sets[place];
        set.insert(key)?;
        Ok(())
    }

    /// Removes an index key.
    pub fn remove(&mut self, key: u128)
        ensures { (k : ℕ) → has self.new k ≡ (has self.old k && not (eq_by_cmp nat_cmp key k)) }
    {
        if self.sets.is_empty() {
            return;
        }
        let place = set_index_of(key, self.sets.len());
        let set = &mut self.sets[place];
        set.remove(&key);
    }

    /// The set with all index keys that differ from this one only in the number of the row. `None` if no row was ever
    /// added.
    pub fn near(&self, key: u128) -> Option<&BTreeSet<u128>>
        ensures set { IfSome result (λ set. (k : ℕ) → k / 4294967296 ≡ key / 4294967296 → has self.now k ≡ contains nat_cmp set.now k) }
        ensures none { IfNone result ((k : ℕ) → has self.now k ≡ false) }
    {
        if self.sets.is_empty() {
            return None;
        }
        Some(&self.sets[set_index_of(key, self.sets.len())])
    }
}
