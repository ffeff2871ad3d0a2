// The steps of a reader on the shared value.

ghost use Rattle.std.specs.Prelude.{◌≡◌, ◌<◌, ◌≤◌, length, IfErr, IfOk, MatchBool};
ghost use mathlib.Core.List.{IsPrefix};
ghost use Rattle.left_right.specs.Sides.{view};
ghost use Rattle.tq_event.specs.History.{IsHistory};
ghost use Rattle.tq_snapshot.specs.Calls.{Entered};
ghost use Rattle.tq_snapshot.specs.StoreValue.{IsOf};
ghost use Rattle.tq_snapshot.specs.Sound.{FindsOwn};

use crate::book::{Prefix, StoreId};
use crate::faults::Missed;
use crate::published::{LastFind, Published};
use crate::shared::SharedStore;
use left_right::reader::{Reader, Reading};

pub(crate) type SharedReader<J> = Reader<SharedStore, LastFind, Published<J>>;

type StoreGuard<J> = Reading<SharedStore, LastFind, Published<J>>;

// Whether the shown value begins with the events that the reader knows. It does begin with the first `own` of them,
// which the reader found itself. They are compared only if a note has more events: no proof knows whether the note was
// made before the reader entered.
fn reaches(shared: &SharedStore, observed: &Prefix, own: u64) -> bool
    requires book { shared.now.prefix.book ≡ observed.now.book }
    requires own { FindsOwn observed.now.list own shared.now.prefix.list }
    ensures { MatchBool result (IsPrefix observed.now.list shared.now.prefix.list) (own < length observed.now.list) }
{
    if observed.len() <= own {
        return true;
    }
    observed.begins(shared.prefix())
}

// The events found, unless a note has more events.
fn found_in(shared: &SharedStore, observed: &Prefix, own: u64) -> Result<Prefix, Missed>
    requires book { shared.now.prefix.book ≡ observed.now.book }
    requires own { FindsOwn observed.now.list own shared.now.prefix.list }
    ensures prefix { IfOk result (λ f. f ≡ shared.now.prefix) }
    ensures later { IfOk result (λ f. IsPrefix observed.now.list f.list) }
    ensures stale { IfErr result (λ _. own < length observed.now.list) }
    ensures history { IsHistory shared.now.catalogue shared.now.events }
    ensures few { length shared.now.events ≤ 16777216 }
{
    let _count = shared.count();
    if reaches(shared, observed, own) {
        Ok(shared.prefix().copy())
    } else {
        Err(Missed::Stale)
    }
}

/// Enters the shared value; returns it with the events found, or returns the reader if nothing is found.
pub(crate) fn begin<J: StoreId>(
    reader: SharedReader<J>,
    observed: &Prefix,
    own: u64,
) -> Result<(StoreGuard<J>, Prefix), (SharedReader<J>, Missed)>
    requires book { observed.now.book ≡ J.book }
    requires own { FindsOwn observed.now.list own (view reader.place) }
    ensures shown { IfOk result (λ r. IsOf J.catalogue J.book r.0.part.value × (r.1 ≡ r.0.part.value.prefix)) }
    ensures found { IfOk result (λ r. Entered J.catalogue observed.now.list r.1.list × (length r.1.list ≤ 16777216) × (view r.0.place ≡ r.1.list)) }
    ensures kept { IfErr result (λ r. FindsOwn observed.now.list own (view r.0.place)) }
    ensures stale { IfErr result (λ r. r.1 ≡ Missed.Stale → own < length observed.now.list) }
{
    match reader.enter_as::<Published<J>>() {
        Ok(reading) => match found_in(reading.get(), observed, own) {
            Ok(prefix) => Ok((reading, prefix)),
            Err(missed) => Err((reading.leave(), missed)),
        },
        Err(reader) => Err((reader, Missed::Shut)),
    }
}

/// Enters and leaves the shared value, and returns the events found. By the rule of the shared value they begin with
/// the reader's last find, so `Stale` is returned only if a note has more events.
pub(crate) fn enter<J: StoreId>(
    reader: SharedReader<J>,
    observed: &Prefix,
    own: u64,
) -> (SharedReader<J>, Result<Prefix, Missed>)
    requires book { observed.now.book ≡ J.book }
    requires own { FindsOwn observed.now.list own (view reader.place) }
    ensures found { IfOk result.1 (λ f. (f.book ≡ J.book) × (Entered J.catalogue observed.now.list f.list) × (length f.list ≤ 16777216) × (view result.0.place ≡ f.list)) }
    ensures kept { IfErr result.1 (λ _. FindsOwn observed.now.list own (view result.0.place)) }
    ensures stale { IfErr result.1 (λ missed. missed ≡ Missed.Stale → own < length observed.now.list) }
{
    match begin(reader, observed, own) {
        Ok((reading, prefix)) => (reading.leave(), Ok(prefix)),
        Err((reader, missed)) => (reader, Err(missed)),
    }
}

/// The first entry of a reader that knows these events. The number is how many of them it found itself: all, or 0 if no
/// value is shown any more.
pub(crate) fn enter_first<J: StoreId>(
    reader: SharedReader<J>,
    observed: &Prefix,
) -> (SharedReader<J>, u64)
    requires { observed.now.book ≡ J.book }
    ensures { FindsOwn observed.now.list result.1 (view result.0.place) }
{
    let (reader, found) = enter(reader, observed, 0);
    match found {
        Ok(_) => (reader, observed.len()),
        Err(_) => (reader, 0),
    }
}
