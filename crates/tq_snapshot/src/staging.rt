// The writer's steps on the book and on the shared value.

ghost use Rattle.std.specs.Prelude.{◌≡◌, ◌+◌, ◌<◌, ◌≤◌, [], ◌++◌, length, drop, IsTrue, OnOk, MatchResult};
ghost use Rattle.tq_snapshot.specs.StoreValue.{IsOf, store_value};
ghost use Rattle.tq_snapshot.specs.Sound.{IsStaged, IsCommitted};

use crate::book::{Book, Prefix, StoreId};
use crate::published::{LastFind, Published};
use crate::shared::{Entry, SharedStore};
use core::mem::replace_with;
use left_right::writer::Writer;
use std::alloc::AllocError;
use std::sync::Wait;
use tq_event::Event;
use tq_store::Events;

pub(crate) type SharedWriter<J> = Writer<SharedStore, Entry, LastFind, Published<J>>;

/// Appends to the book the pending events that it lacks. Returns whether it then has all of them. It does not if another
/// writer has appended to the book, but there is none.
pub(crate) fn commit(
    book: &Book,
    prefix: &mut Prefix,
    published: &Events<'_>,
    pending: &[Event],
) -> bool
    requires book { prefix.old.book ≡ book.now.count.book }
    requires committed { IsCommitted published.now pending.now prefix.old.list }
    requires room { length (published.now ++ pending.now) ≤ 16777216 }
    ensures book { prefix.new.book ≡ prefix.old.book }
    ensures committed { IsCommitted published.now pending.now prefix.new.list }
    ensures done { IsTrue result → prefix.new.list ≡ published.now ++ pending.now }
{
    let mut count = prefix.len() as usize - published.len();
    'pending: while count < pending.len() {
        if !prefix.append(book, &pending[count]) {
            return false;
        }
        count += 1;
    }
    true
}

/// Stages copies of the pending events from number `sent` on: they wait in the log of the shared value for the next
/// publishing. Returns how many of the pending events are staged.
pub(crate) fn stage<J: StoreId>(
    inner: &mut SharedWriter<J>,
    prefix: &Prefix,
    pending: &[Event],
    sent: usize,
) -> (usize, Result<(), AllocError>)
    requires whole { prefix.now.list ≡ inner.old.desk.shown.value.events ++ pending.now }
    requires room { length (inner.old.desk.shown.value.events ++ pending.now) ≤ 16777216 }
    requires handed { IsStaged prefix.now.book inner.old.desk.shown.value.events (drop inner.old.behind inner.old.log.items) pending.now sent }
    ensures shown { inner.new.desk.shown.value ≡ inner.old.desk.shown.value }
    ensures handed { IsStaged prefix.now.book inner.new.desk.shown.value.events (drop inner.new.behind inner.new.log.items) pending.now result.0 }
    ensures done { OnOk result.1 (result.0 ≡ length pending.now) }
{
    let published = prefix.len() as usize - pending.len();
    let mut sent = sent;
    'pending: while sent < pending.len() {
        let Ok(entry) = Entry::of(&pending[sent], prefix.first((published + sent + 1) as u64))
        else {
            return (sent, Err(AllocError));
        };
        match inner.append(entry) {
            Ok(()) => sent += 1,
            Err(_) => return (sent, Err(AllocError)),
        }
    }
    (sent, Ok(()))
}

// Publishes the shared value with all staged events, which are all pending ones.
fn show_all<J: StoreId, R: Wait>(
    rt: &R,
    writer: SharedWriter<J>,
    pending: &[Event],
) -> (SharedWriter<J>, Result<(), AllocError>)
    requires shows { IsOf J.catalogue J.book writer.desk.shown.value }
    requires handed { IsStaged J.book writer.desk.shown.value.events (drop writer.behind writer.log.items) pending.now (length pending.now) }
    ensures { MatchResult result.1 (λ _. (result.0.desk.shown.value ≡ store_value J.catalogue J.book (writer.desk.shown.value.events ++ pending.now)) × (drop result.0.behind result.0.log.items ≡ [])) (λ _. (result.0.desk.shown.value ≡ writer.desk.shown.value) × (drop result.0.behind result.0.log.items ≡ drop writer.behind writer.log.items)) }
{
    writer.publish_as::<Published<J>, R>(rt)
}

/// Publishes all pending events, which are staged; the writer stays in its place.
pub(crate) fn show<J: StoreId, R: Wait>(
    rt: &R,
    inner: &mut SharedWriter<J>,
    pending: &[Event],
) -> Result<(), AllocError>
    requires shows { IsOf J.catalogue J.book inner.old.desk.shown.value }
    requires handed { IsStaged J.book inner.old.desk.shown.value.events (drop inner.old.behind inner.old.log.items) pending.now (length pending.now) }
    ensures { MatchResult result (λ _. (inner.new.desk.shown.value ≡ store_value J.catalogue J.book (inner.old.desk.shown.value.events ++ pending.now)) × (drop inner.new.behind inner.new.log.items ≡ [])) (λ _. (inner.new.desk.shown.value ≡ inner.old.desk.shown.value) × (drop inner.new.behind inner.new.log.items ≡ drop inner.old.behind inner.old.log.items)) }
{
    replace_with(
        inner,
        pending,
        |inner, pending| show_all(rt, inner, pending),
    )
}
