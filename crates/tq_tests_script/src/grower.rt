//! A tree and the number of its keys, so that each further key is a new one.

ghost use Rattle.std.specs.Prelude.{◌≡◌, ◌+◌, ◌*◌, ◌<◌, ◌≤◌, ◌%◌, ◌^◌, ℕ, true, false};
ghost use Rattle.tq_mvbt.specs.TreeState.{lives_of};

use std::alloc::{AllocError, Global};
use tq_mvbt::Tree;

/// A tree; each key ends in its number.
#[derive(Drop)]
pub struct Grower {
    pub tree: Tree,
    pub rows: u32,
    ghost fresh: { (k v : ℕ) → rows ≤ k % 4294967296 → lives_of tree.nodes k v ≡ false },
}

impl Grower {
    pub fn new(alloc: Global) -> Result<Grower, AllocError> {
        let tree = Tree::new(alloc)?;
        Ok(Grower { tree, rows: 0 })
    }

    /// Inserts the next key, with `front` as its upper part.
    pub fn insert(&mut self, front: u64, version: u32) -> Result<u128, AllocError>
        requires later { self.old.tree.version < version }
        requires small { version ≤ 16777216 }
        requires room { self.old.rows < 4294967295 }
    {
        let key = front as u128 * 4294967296 + self.rows as u128;
        self.tree.insert(key, version)?;
        self.rows += 1;
        Ok(key)
    }

    /// Deletes a key that is alive.
    pub fn delete(&mut self, key: u128, version: u32) -> Result<(), AllocError>
        requires later { self.old.tree.version < version }
        requires small { version ≤ 16777216 }
        requires key { key < 2 ^ 96 }
        requires alive { lives_of self.old.tree.nodes key self.old.tree.version ≡ true }
    {
        self.tree.delete(key, version)
    }
}
