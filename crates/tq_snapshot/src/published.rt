// The rule for every value that the store shows to readers.

use crate::book::StoreId;
use crate::shared::SharedStore;
use crossbeam_utils::rule::{Outcome, Protocol};
use std::marker::PhantomData;
use tq_event::Event;

/// The events that a reader found at its last entry, for proofs alone. Clauses see an array as a list of any length,
/// and no value of this type is ever made.
pub(crate) type LastFind = [Event; 0];

/// The rule: a shown value has the store's catalogue, its events are those of its prefix of the book, and they begin
/// with each reader's last find. So the writer may only show more events.
pub struct Published<J> {
    store: PhantomData<J>,
}

impl<J: StoreId> Protocol<SharedStore, LastFind> for Published<J> {
    ghost use Rattle.std.specs.Prelude.{[]};
    ghost use Rattle.tq_snapshot.specs.StoreValue.{AllBegin, IsOf};

    ghost holds = { λ shown finds. IsOf J.catalogue J.book shown × AllBegin shown.events finds };

    ghost first = { [] };
}

/// Entering finds a value that follows the rule and begins with the reader's last find. Publishing shows one.
impl<J: StoreId> Outcome<SharedStore, LastFind> for Published<J> {
    ghost use Rattle.std.specs.Prelude.{◌≡◌};
    ghost use mathlib.Core.List.{IsPrefix};
    ghost use Rattle.tq_snapshot.specs.StoreValue.{IsOf};

    ghost then = { λ before shown next after. IsOf J.catalogue J.book next × IsPrefix before shown.events × (after ≡ next.events) };
}
