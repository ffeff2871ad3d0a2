//! Changes of a tree, one for each version.

use crate::words::{LAST, TOP, key_of};
use std::alloc::AllocError;
use tq_tests_script::Grower;

/// Inserts the next key at the version, with `front` as its upper part, if the version is a later one; the key.
pub(crate) fn come(
    grower: &mut Grower,
    front: u64,
    version: u32,
) -> Result<Option<u128>, AllocError> {
    if version <= grower.tree.version() || version > LAST || grower.rows == u32::MAX {
        return Ok(None);
    }
    Ok(Some(grower.insert(front, version)?))
}

/// Deletes the key at the version, if it is alive and the version is a later one; whether it is dead then.
pub(crate) fn go(grower: &mut Grower, key: u128, version: u32) -> Result<bool, AllocError> {
    if version <= grower.tree.version() || version > LAST {
        return Ok(false);
    }
    if key >= TOP || !grower.tree.alive(key) {
        return Ok(false);
    }
    grower.delete(key, version)?;
    Ok(!grower.tree.alive(key))
}

/// Inserts the keys of the next rows at the versions; how many have the number of their row.
pub(crate) fn come_at(
    grower: &mut Grower,
    front: u64,
    first: u32,
    last: u32,
) -> Result<u32, AllocError> {
    let mut right: u32 = 0;
    for version in first..=last {
        let key = key_of(front, grower.rows);
        if come(grower, front, version)? == Some(key) && grower.tree.alive(key) {
            right = right.saturating_add(1);
        }
    }
    Ok(right)
}

/// Deletes the keys of the rows, the first one at the version, the others at those after it; how many are dead.
pub(crate) fn go_from(
    grower: &mut Grower,
    front: u64,
    first: u32,
    last: u32,
    version: u32,
) -> Result<u32, AllocError> {
    let mut right: u32 = 0;
    for row in first..=last {
        let at = version.saturating_add(row - first);
        if go(grower, key_of(front, row), at)? {
            right = right.saturating_add(1);
        }
    }
    Ok(right)
}

/// How many keys of the rows are alive.
pub(crate) fn living(grower: &Grower, front: u64, first: u32, last: u32) -> u32 {
    let mut living: u32 = 0;
    for row in first..=last {
        if grower.tree.alive(key_of(front, row)) {
            living = living.saturating_add(1);
        }
    }
    living
}
