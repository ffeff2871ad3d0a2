// Notes of published events.

use crate::book::{Prefix, StoreId};
use std::marker::{Model, PhantomData};

/// A note of the events that were published when it was made. Readers on any thread can learn it. Contracts see it as
/// these events.
#[derive(Drop)]
pub struct Note<J: StoreId> {
    pub(crate) prefix: Prefix,
    pub(crate) store: PhantomData<J>,
}

impl<J: StoreId> Model for Note<J> {
    ghost use Rattle.std.specs.Prelude.{◌≡◌, List};
    ghost use Rattle.tq_event.specs.declared.event.Event.{Event};

    ghost Value = { List Event };

    ghost view = { λ n. n.prefix.list };

    ghost invariant = { λ n. n.prefix.book ≡ J.book };
}
