// The history of a store, for proofs, and the prefixes of it that were seen. A book keeps every event for proofs alone.
// In memory it is one word: the number of events.

ghost use Rattle.std.specs.Prelude.{◌≡◌, ◌+◌, ◌<◌, ◌≤◌, ◌^◌, ◌++◌, ◌∷◌, [], length, take, MatchBool};
ghost use mathlib.Core.List.{IsPrefix};
ghost use Rattle.tq_snapshot.specs.StoreValue.{known};
ghost use Rattle.tq_snapshot.specs.Rules.{count_word};

use logbook::{Gain, Offer, Plain, Play, Rule, Seen, Start, Word};
use std::marker::{Brand, Model};
use tq_event::Event;

/// The rule of a book: its word is the number of events.
pub struct Counted;

impl Rule<Event, u64> for Counted {
    ghost use Rattle.std.specs.Prelude.{[]};
    ghost use base.Fml.{ftrue};
    ghost use Rattle.tq_snapshot.specs.Rules.{IsCounted};

    ghost holds = { λ cells log. IsCounted cells log };

    ghost first = { [] };

    ghost hinted = { λ n log. Unit {0} };

    ghost shows = { λ log. [] };

    ghost keeps = { λ names log. ftrue };

    ghost moves = { λ ask before after answer. Unit {0} };
}

/// The gain of a step that gives its caller no further fact.
pub struct NoGain;

impl Gain<Event, u64> for NoGain {
    ghost use base.Fml.{ftrue};

    ghost after = { λ names about answer. ftrue };
}

/// The step that appends an event.
pub struct Append;

impl Play<Event, u64> for Append {
    ghost use Rattle.tq_snapshot.specs.Rules.{Appends};

    ghost then = { Appends };
}

/// The step's argument is the event.
impl Plain<Event, Event, u64> for Append {
    ghost use Rattle.std.specs.Prelude.{None};

    ghost ask = { λ event. event };

    ghost state = { λ event. None };
}

/// The identity of a store, for proofs alone: the book of its history, and its catalogue.
pub trait StoreId {
    ghost use Rattle.logbook.specs.Pages.{Book};
    ghost use Rattle.tq_base.specs.declared.catalogue.Catalogue.{Catalogue};

    ghost book: { Book };

    ghost catalogue: { Catalogue };
}

impl StoreId for Brand {
    ghost use Rattle.tq_snapshot.specs.StoreValue.{no_tables};

    ghost book = { record { number = 0; log_name = 0; cells_name = 0 } };

    ghost catalogue = { no_tables };
}

/// The number of events of the history, in one word.
#[derive(Drop)]
pub struct Book {
    count: Word<Event, u64, Counted>,
    ghost count_is: { count ≡ count_word count.book },
}

/// A history without events, over which one store is opened. Contracts see it as its book.
#[derive(Drop)]
pub struct Opened {
    pub(crate) book: Book,
    pub(crate) prefix: Prefix,
}

impl Model for Opened {
    ghost use Rattle.std.specs.Prelude.{◌≡◌, []};
    ghost use Rattle.logbook.specs.Pages.{Book as Pages};
    ghost use Rattle.tq_snapshot.specs.StoreValue.{known};

    ghost Value = { Pages };

    ghost view = { λ o. o.book.count.book };

    ghost invariant = { λ o. o.prefix ≡ known o.book.count.book [] };
}

impl Opened {
    /// A new history, with a book of its own.
    pub fn new() -> Opened {
        let (seen, mut first, _second) = Seen::open(Start::alone(), 0, 0);
        Opened {
            book: Book {
                count: Word::tracked(0, &mut first),
            },
            prefix: Prefix { len: 0, seen },
        }
    }
}

/// A prefix of a book's history. Contracts see it as the book and the events.
#[derive(Drop)]
pub struct Prefix {
    len: u64,
    seen: Seen<Event, u64, Counted>,
}

impl Model for Prefix {
    ghost use Rattle.std.specs.Prelude.{◌≤◌, length, take};
    ghost use Rattle.tq_snapshot.specs.StoreValue.{PrefixValue, known};

    ghost Value = { PrefixValue };

    ghost view = { λ f. known f.seen.book (take f.len f.seen.log) };

    ghost invariant = { λ f. f.len ≤ length f.seen.log };
}

impl Prefix {
    /// The number of events.
    pub fn len(&self) -> u64
        ensures { result ≡ length self.now.list }
    {
        self.len
    }

    /// A copy of the prefix, which shares its events.
    pub fn copy(&self) -> Prefix
        ensures { result ≡ self.now }
    {
        Prefix {
            len: self.len,
            seen: self.seen.again(),
        }
    }

    /// The prefix of its first `len` events.
    pub fn first(&self, len: u64) -> Prefix
        requires { len ≤ length self.now.list }
        ensures { result ≡ known self.now.book (take len self.now.list) }
    {
        Prefix {
            len,
            seen: self.seen.again(),
        }
    }

    /// Whether the other prefix begins with this one. Of two prefixes of one history, the shorter begins the longer.
    pub fn begins(&self, other: &Prefix) -> bool
        requires { other.now.book ≡ self.now.book }
        ensures { MatchBool result (IsPrefix self.now.list other.now.list) (IsPrefix other.now.list self.now.list × (length other.now.list < length self.now.list)) }
    {
        let mut both = self.seen.again();
        both.learn(&other.seen);
        self.len <= other.len
    }

    /// Appends the event after these and returns `true`. Returns `false`, and appends nothing, if the history has more
    /// events than these.
    pub fn append(&mut self, book: &Book, event: &Event) -> bool
        requires book { self.old.book ≡ book.now.count.book }
        requires room { length self.old.list < 2 ^ 62 }
        ensures { MatchBool result (self.new ≡ known self.old.book (self.old.list ++ event.now ∷ [])) (self.new ≡ self.old) }
    {
        let mut offer: Offer<Event, u64, Counted, NoGain> = self
            .seen
            .plain::<NoGain, Event, Append>(event);
        let mut pen = self.seen.no_pen();
        let len = self.len;
        let found = book
            .count
            .compare_exchange::<Append, NoGain>(len, len + 1, &mut self.seen, &mut offer, &mut pen);
        let appended = found == len;
        if appended {
            self.len = len + 1;
        }
        appended
    }
}
