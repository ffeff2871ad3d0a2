// The oracle that answers queries.

ghost use Rattle.std.specs.Prelude.{◌≡◌, ◌≤◌, List, length, take, IfOk};
ghost use Rattle.tq_base.specs.Catalogues.{IsCatalogue};
ghost use Rattle.tq_event.specs.History.{IsHistory};
ghost use Rattle.tq_base.specs.declared.catalogue.Catalogue.{Catalogue as Tables};
ghost use Rattle.tq_event.specs.declared.event.Event.{Event as AnEvent};

use std::alloc::{AllocError, Global};
use tq_base::Catalogue;
use tq_event::Event;

/// Answers queries over the first events of a history.
pub trait Oracle {
    /// The type of queries.
    type Query;

    /// The type of answers.
    type Answer;

    // Whether the query fits the catalogue.
    ghost fits: { Tables → Self.Query → Type 0 };

    // The oracle's answer to a query over these events.
    ghost value: { Self → Tables → List AnEvent → Self.Query → Self.Answer };

    /// The answer to the query over the first `n` events. `AllocError` if an allocation failed.
    fn answer(
        &self,
        alloc: Global,
        catalogue: &Catalogue,
        events: &[Event],
        n: u32,
        query: &Self::Query,
    ) -> Result<Self::Answer, AllocError>
        requires catalogue { IsCatalogue catalogue.now }
        requires history { IsHistory catalogue.now events.now }
        requires few { length events.now ≤ 16777216 }
        requires within { n ≤ length events.now }
        requires fits { fits catalogue.now query.now }
        ensures { IfOk result (λ answer. answer ≡ value self.now catalogue.now (take n events.now) query.now) };
}
