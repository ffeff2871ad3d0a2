// The steps of a world and their replies.

use tq_base::List;
use tq_event::Event;

/// One step of the writer, of a reader or of a worker. Readers, runs of pieces and workers are numbered from 0.
#[derive(Drop, Debug)]
pub enum Step<Q> {
    /// The writer adds an event to the pending ones.
    Append(Event),
    /// The writer publishes all pending events.
    Publish,
    /// A reader finds the published list as it was when it had the length `at`.
    Enter {
        reader: u32,
        at: u32,
    },
    /// A reader learns of a published length.
    Learn {
        reader: u32,
        length: u32,
    },
    /// A reader queries the first `n` published events; the answer has `pieces` pieces.
    Ask {
        reader: u32,
        n: u32,
        query: Q,
        pieces: u32,
    },
    /// A worker claims the next piece of a run.
    Claim {
        work: u32,
        worker: u32,
    },
    /// A run of pieces is closed and its pieces are listed in order.
    Finish {
        work: u32,
    },
}

/// The reply to a step.
#[derive(Drop, Debug)]
pub enum Reply<A> {
    /// The event is pending.
    Done,
    /// The published length, or the length that the reader has now seen.
    Length(u32),
    /// The answer to an `Ask`.
    Answer(A),
    /// The reader has seen fewer events than it asked for.
    TooNew { seen: u32 },
    /// The claimed piece; `None` if none is left.
    Piece(Option<u32>),
    /// Each piece with the worker that claimed it, in order of the pieces.
    Order(List<(u32, u32)>),
    /// The step is not allowed, and nothing changed.
    Refused,
}
