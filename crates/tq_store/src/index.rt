//! A table's rows as of any number of events: a tree of their keys, the events that start and end each row, and their
//! values in one list.

ghost use Rattle.std.specs.Prelude.{All, ◌≡◌, ℕ, List, ◌+◌, ◌^◌, ◌<◌, ◌≤◌, ◌++◌, ◌∷◌, [], true, false, length, slice_set, ◌↔◌, IsTrue, IfOk, OnOk, OnErr, None};
ghost use Rattle.tq_base.specs.declared.period.TheConstants.{FOREVER};
ghost use Rattle.tq_base.specs.KeyRanges.{key_of};
ghost use Rattle.tq_mvbt.specs.TreeState.{lives_of};
ghost use Rattle.tq_event.specs.declared.event.Event.{Event as AnEvent};
ghost use Rattle.tq_event.specs.Recorded.{table_of};
ghost use Rattle.tq_store.specs.Keys.{shifted, tree_key};
ghost use Rattle.tq_store.specs.Log.{IsLoggedAs};
ghost use Rattle.tq_store.specs.Index.{AreIndexes, Begins, CanTake, Ends, FitsIndexes, HasWidth, IsIndexOf, IsNext, IsNextOf, IsOpenAt, columns_of, ended, tree_key_of, values_of, widths_of};

use crate::key::{first_key, row_key};
use crate::log::{Events, LoggedEvent};
use crate::stored::from_now_on;
use std::alloc::{AllocError, Global};
use tq_base::{Bound, FOREVER, Instant, Rows, Schema, Values};
use tq_event::Event;
use tq_mvbt::Tree;

/// The numbers and times of the events that start and end a row; no number and `forever` if the row has not ended.
/// `key` is the row's key, counted from the least key. With it, the end of the row finds the row in the tree without
/// reading its values.
#[derive(Clone, Copy, Debug)]
pub struct RowEvents {
    pub start: u32,
    pub end: Option<u32>,
    pub from: Instant,
    pub to: Bound,
    pub key: u64,
}

/// The tree of a table; and, by row number, the events of its rows and their values. Nothing reads the periods that
/// `kept` stores with the values: each begins at the row's start and has no end.
#[derive(Drop)]
pub struct Index {
    pub tree: Tree,
    pub rows: Vec<RowEvents>,
    pub kept: Rows,
}

impl Index {
    /// The index of a table without rows. Its rows have `width` values: `AllocError` if these are more than 4,294,967,295,
    /// since no memory holds such rows.
    pub fn new(alloc: Global, width: usize) -> Result<Index, AllocError>
        ensures narrow { IfOk result (λ index. index.kept.width ≤ 4294967295) }
        ensures index { IfOk result (λ index. (table : ℕ) → IsIndexOf [] table index) }
        ensures width { IfOk result (λ index. index.kept.width ≡ width) }
    {
        if width > u32::MAX as usize {
            return Err(AllocError);
        }
        Ok(Index {
            tree: Tree::new(alloc)?,
            rows: Vec::new(alloc),
            kept: Rows::new(alloc, width),
        })
    }

    // Begins a row: its values are appended, and its tree key lives from the version on. After `AllocError` nothing has
    // changed.
    fn begin(
        &mut self,
        values: &Values,
        at: Instant,
        key: u128,
        version: u32,
    ) -> Result<(), AllocError>
        requires width { length values.now ≡ self.old.kept.width }
        requires later { self.old.tree.version < version }
        requires small { version ≤ 16777216 }
        requires key { key < 2 ^ 96 }
        requires never { (v : ℕ) → lives_of self.old.tree.nodes key v ≡ false }
        ensures rows { self.new.rows ≡ self.old.rows }
        ensures width { self.new.kept.width ≡ self.old.kept.width }
        ensures kept { OnOk result (values_of self.new.kept.items ≡ values_of self.old.kept.items ++ values.now ∷ []) }
        ensures tree { OnOk result (Begins self.old.tree self.new.tree key version) }
        ensures same_kept { OnErr result (self.new.kept.items ≡ self.old.kept.items) }
        ensures same_tree { OnErr result (self.new.tree ≡ self.old.tree) }
    {
        let before = self.kept.len();
        self.kept.push_copy(values.get(), from_now_on(at))?;
        match self.tree.insert(key, version) {
            Ok(()) => Ok(()),
            Err(refused) => {
                self.kept.truncate(before);
                Err(refused)
            }
        }
    }

    // Starts a row of these values, by the event with this number and time. After `AllocError` nothing has changed.
    fn start(&mut self, number: u32, values: &Values, at: Instant) -> Result<(), AllocError>
        requires width { length values.now ≡ self.old.kept.width }
        requires later { self.old.tree.version ≤ number }
        requires small { number < 16777216 }
        requires few { length self.old.rows.items ≤ number }
        requires never { (v : ℕ) → lives_of self.old.tree.nodes (tree_key values.now (length self.old.rows.items)) v ≡ false }
        ensures rows { OnOk result (self.new.rows.items ≡ self.old.rows.items ++ record { start = number; end = None; from = at; to = FOREVER; key = shifted (key_of values.now) } ∷ []) }
        ensures width { self.new.kept.width ≡ self.old.kept.width }
        ensures kept { OnOk result (values_of self.new.kept.items ≡ values_of self.old.kept.items ++ values.now ∷ []) }
        ensures tree { OnOk result (Begins self.old.tree self.new.tree (tree_key values.now (length self.old.rows.items)) (number + 1)) }
        ensures same_kept { OnErr result (self.new.kept.items ≡ self.old.kept.items) }
        ensures same_tree { OnErr result (self.new.tree ≡ self.old.tree) }
        ensures same_rows { OnErr result (self.new.rows.items ≡ self.old.rows.items) }
    {
        self.rows.reserve(1)?;
        let row = self.rows.len() as u32;
        let key = first_key(values.get());
        self.begin(values, at, row_key(key, row), number + 1)?;
        self.rows.push_reserved(RowEvents {
            start: number,
            end: None,
            from: at,
            to: Bound::new(FOREVER).unwrap(),
            key,
        });
        Ok(())
    }

    // Ends the row, whose stored events are `known`, by the event with this number and time. After `AllocError` nothing
    // has changed.
    fn end(
        &mut self,
        number: u32,
        row: u32,
        known: RowEvents,
        at: Instant,
    ) -> Result<(), AllocError>
        requires later { self.old.tree.version ≤ number }
        requires small { number < 16777216 }
        requires row { row < length self.old.rows.items }
        requires alive { lives_of self.old.tree.nodes (tree_key_of known row) self.old.tree.version ≡ true }
        ensures rows { OnOk result (self.new.rows.items ≡ slice_set self.old.rows.items row (ended number at known)) }
        ensures kept { self.new.kept ≡ self.old.kept }
        ensures tree { OnOk result (Ends self.old.tree self.new.tree (tree_key_of known row) (number + 1)) }
        ensures same_tree { OnErr result (self.new.tree ≡ self.old.tree) }
        ensures same_rows { OnErr result (self.new.rows.items ≡ self.old.rows.items) }
    {
        let RowEvents {
            start,
            from,
            key,
            ..
        } = known;
        self.tree.delete(row_key(key, row), number + 1)?;
        self.rows[row as usize] = RowEvents {
            start,
            end: Some(number),
            from,
            to: Bound::new(at.number()).unwrap(),
            key,
        };
        Ok(())
    }
}

impl Index {
    // Applies an event of the table, which has this number. After `AllocError` nothing has changed.
    fn take(&mut self, number: u32, event: &Event) -> Result<(), AllocError>
        requires next { IsNext number event.now self.old }
        requires few { number < 16777216 }
        requires width { HasWidth self.old.kept.width event.now }
        ensures width { self.new.kept.width ≡ self.old.kept.width }
        ensures ok { (events : List AnEvent) → length events ≡ number → IsIndexOf events (table_of event.now) self.old → CanTake events event.now → OnOk result (IsIndexOf (events ++ event.now ∷ []) (table_of event.now) self.new) }
        ensures err { (events : List AnEvent) → IsIndexOf events (table_of event.now) self.old → OnErr result (IsIndexOf events (table_of event.now) self.new) }
    {
        match event {
            Event::Start { values, at, .. } => self.start(number, values, *at),
            Event::End { row, at, .. } => {
                let known = self.rows[*row as usize];
                self.end(number, *row, known, *at)
            }
        }
    }

    /// Whether the row is open and started before the instant.
    pub fn is_open_before(&self, events: &Events<'_>, table: u32, row: u32, at: Instant) -> bool
        requires { IsIndexOf events.now table self.now }
        ensures { IsTrue result ↔ IsOpenAt events.now table row at }
    {
        match self.rows.get(row as usize) {
            Some(known) => known.end.is_none() && known.from < at,
            None => false,
        }
    }
}

// Indexes of tables without rows.
pub(crate) fn no_indexes(alloc: Global, tables: &[Schema]) -> Result<Vec<Index>, AllocError>
    ensures indexes { IfOk result (λ indexes. AreIndexes [] indexes.items) }
    ensures len { IfOk result (λ indexes. length indexes.items ≡ length tables.now) }
    ensures widths { IfOk result (λ indexes. widths_of indexes.items ≡ columns_of tables.now) }
    ensures narrow { IfOk result (λ indexes. All (λ width. width ≤ 4294967295) (widths_of indexes.items)) }
{
    let mut indexes = Vec::with_capacity(alloc, tables.len())?;
    'tables: for table in tables {
        indexes.push(Index::new(alloc, table.columns.get().len())?)?;
    }
    Ok(indexes)
}

// Applies the event, which has this number, to the index of its table. After `AllocError` nothing has changed.
pub(crate) fn take(indexes: &mut Vec<Index>, number: u32, event: &Event) -> Result<(), AllocError>
    requires next { IsNextOf number event.now indexes.old.items }
    requires few { number < 16777216 }
    requires table { table_of event.now < length indexes.old.items }
    requires width { FitsIndexes indexes.old.items event.now }
    ensures widths { widths_of indexes.new.items ≡ widths_of indexes.old.items }
    ensures len { length indexes.new.items ≡ length indexes.old.items }
    ensures ok { (events : List AnEvent) → length events ≡ number → AreIndexes events indexes.old.items → CanTake events event.now → OnOk result (AreIndexes (events ++ event.now ∷ []) indexes.new.items) }
    ensures err { (events : List AnEvent) → AreIndexes events indexes.old.items → OnErr result (AreIndexes events indexes.new.items) }
{
    let index = &mut indexes[event.table() as usize];
    index.take(number, event)
}

// The event as the history with these indexes stores it. The number of a row that it starts is the number of rows
// before it.
pub(crate) fn logged_event(indexes: &[Index], event: &Event) -> LoggedEvent
    requires table { table_of event.now < length indexes.now }
    requires few { length indexes.now ≤ 16 }
    ensures { IsLoggedAs indexes.now event.now result }
{
    let table = event.table();
    match event {
        Event::Start { at, .. } => LoggedEvent {
            at: *at,
            row: indexes[table as usize].kept.len() as u32,
            table: table as u8,
            is_end: false,
        },
        Event::End { row, at, .. } => LoggedEvent {
            at: *at,
            row: *row,
            table: table as u8,
            is_end: true,
        },
    }
}
