//! Laws of the core machine.

ghost use Rattle.tq_core.specs.Machine.{RunsAreUnique};

use crate::oracle::Oracle;

/// The state before some steps determines their replies and the state after them.
pub fn runs_are_unique<O: Oracle>(_oracle: &O)
    ensures { RunsAreUnique (O.value _oracle.now) }
{}
