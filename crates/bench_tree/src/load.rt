//! A tree into which new keys are inserted.

ghost use Rattle.std.specs.Prelude.{◌≡◌, ◌≤◌, ◌%◌, ℕ, false};
ghost use Rattle.tq_mvbt.specs.TreeState.{lives_of};

use std::alloc::{AllocError, Global};
use tq_mvbt::Tree;

/// A tree; each key ends in its number.
#[derive(Drop)]
pub struct Load {
    pub tree: Tree,
    rows: u32,
    ghost fresh: { (k v : ℕ) → rows ≤ k % 4294967296 → lives_of tree.nodes k v ≡ false },
}

impl Load {
    /// A tree without keys.
    pub fn new(alloc: Global) -> Result<Load, AllocError> {
        let tree = Tree::new(alloc)?;
        Ok(Load { tree, rows: 0 })
    }

    /// Inserts the next key, with `front` as its upper part, if a version is left.
    pub fn insert(&mut self, front: u64) -> Result<Option<u128>, AllocError> {
        let version = self.tree.version();
        if version >= 16777216 || self.rows == u32::MAX {
            return Ok(None);
        }
        let key = front as u128 * 4294967296 + self.rows as u128;
        self.tree.insert(key, version + 1)?;
        self.rows += 1;
        Ok(Some(key))
    }

    /// Deletes the key, if it is alive and a version is left.
    pub fn delete(&mut self, key: u128) -> Result<bool, AllocError> {
        let version = self.tree.version();
        if version >= 16777216 || key >= 79228162514264337593543950336 || !self.tree.alive(key) {
            return Ok(false);
        }
        self.tree.delete(key, version + 1)?;
        Ok(true)
    }
}
