//! Rows of one width, each with its period. The rows store all columns, or only some of them if the others have the
//! same value in each row.

ghost use Rattle.std.specs.Prelude.{◌≡◌, ◌≢◌, false, ◌++◌, ◌∷◌, [], ◌<◌, ◌≤◌, ◌+◌, ◌*◌, ℕ, List, None, pos, All, IfOk, IfSome, IsTrue, OnErr, OnOk, if◌then◌else◌, length, map, slice_index_or, take};
ghost use Rattle.std.specs.List.{flat_map};
ghost use Rattle.tq_base.specs.declared.fragment.Fragment.{Fragment};
ghost use Rattle.tq_base.specs.declared.rows.Slot.{Slot as AnySlot};
ghost use Rattle.tq_base.specs.declared.value.Value.{Value as AnyValue};
ghost use Rattle.tq_base.specs.RowValues.{value_at};
ghost use Rattle.tq_base.specs.Contents.{Int, Text};
ghost use Rattle.tq_base.specs.Parts.{AreThere};
ghost use Rattle.tq_base.specs.RowLists.{rows_from};
ghost use Rattle.tq_base.specs.Slots.{values_of_stored, slot_value, AreLeftOut, AreNumbered, AreSlots, IsLeftOut, IsText};

use crate::catalogue::{Column, Kind};
use crate::dense::{DenseRows, push_copies};
use crate::period::Period;
use crate::value::{Value, ValueRef};
use std::alloc::{AllocError, Global};
use std::marker::Model;
use std::thread::Threads;

// Where the value of a column is: at this place among the stored values of the row, or not stored. A column is not
// stored if each row has the number 0 or the empty text there.
#[derive(Clone, Copy, Debug)]
pub(crate) enum Slot {
    Stored(usize),
    Zero,
    Empty,
}

/// Rows of one width in the order of the pushes, each with its period. Contracts see the width and the list of rows.
#[derive(Drop, Debug)]
pub struct Rows {
    alloc: Global,
    dense: DenseRows,
    // The slot of each column; empty if all columns are stored.
    slots: Vec<Slot>,
    // The empty text, if there are slots.
    texts: Vec<Value>,
}

impl Model for Rows {
    ghost use Rattle.std.specs.Prelude.{map};
    ghost use Rattle.tq_base.specs.RowLists.{RowList};
    ghost use Rattle.tq_base.specs.Slots.{row_of_stored, width_of_slots, AreSlots};

    ghost Value = { RowList };

    ghost view = { λ r. record { width = width_of_slots r.slots.items r.dense.width; items = map (row_of_stored r.slots.items) r.dense.items } };

    ghost invariant = { λ r. AreSlots r.slots.items r.dense.width r.texts.items };
}

// Whether all columns are stored.
fn has_all_columns(slots: &[Slot]) -> bool
    ensures all { IsTrue result → slots.now ≡ [] }
    ensures some { result ≡ false → slots.now ≢ [] }
{
    slots.is_empty()
}

// The slot of the column; a column that the rows do not have is the number 0.
fn slot_of(slots: &[Slot], column: u32) -> Slot
    ensures value { (kept : List AnyValue) → slot_value kept result ≡ value_at (values_of_stored slots.now kept) column }
    ensures text { (width : ℕ) (texts : List AnyValue) → AreSlots slots.now width texts → IsText result texts }
{
    if has_all_columns(slots) {
        return Slot::Stored(column as usize);
    }
    slots.get(column as usize).copied().unwrap_or(Slot::Zero)
}

// The value in the slot, given the stored values of the row; `None` if it is the number 0 in each row.
fn value_in<'a>(slot: Slot, kept: &'a [Value], texts: &'a [Value]) -> Option<&'a Value>
    requires { IsText slot texts.now }
    ensures some { IfSome result (λ value. value.now ≡ slot_value kept.now slot) }
    ensures none { result ≡ None → slot_value kept.now slot ≡ Int (pos 0) }
{
    match slot {
        Slot::Stored(place) => kept.get(place),
        Slot::Zero => None,
        Slot::Empty => texts.first(),
    }
}

// The slot of a column of this kind, after `kept` stored columns.
fn next_slot(kind: Kind, is_stored: bool, kept: usize) -> Slot
    ensures { (slots : List AnySlot) → AreNumbered 0 slots kept → AreNumbered 0 (slots ++ result ∷ []) (if is_stored then kept + 1 else kept) }
{
    match (is_stored, kind) {
        (true, _) => Slot::Stored(kept),
        (false, Kind::Int) => Slot::Zero,
        (false, Kind::Text) => Slot::Empty,
    }
}

// The slots of the columns, and how many columns are stored.
fn slots_of(
    alloc: Global,
    columns: &[Column],
    kept: &[bool],
) -> Result<(Vec<Slot>, usize), AllocError>
    ensures many { IfOk result (λ made. length made.0.items ≡ length columns.now) }
    ensures numbered { IfOk result (λ made. AreNumbered 0 made.0.items made.1) }
{
    let mut slots = Vec::with_capacity(alloc, columns.len())?;
    let mut count: usize = 0;
    'columns: for (place, column) in columns.iter().enumerate() {
        let is_stored = kept.get(place).copied().unwrap_or(true);
        slots.push(next_slot(column.kind, is_stored, count))?;
        if is_stored {
            count += 1;
        }
    }
    Ok((slots, count))
}

// Whether the slot stores the value, or the value is the one that every row has in this column.
fn is_left_out(slot: Slot, value: &Value) -> bool
    ensures { IsTrue result → IsLeftOut slot value.now }
{
    match (slot, value.as_ref()) {
        (Slot::Stored(_), _) => true,
        (Slot::Zero, ValueRef::Int(number)) => number == 0,
        (Slot::Empty, ValueRef::Text(text)) => text.is_empty(),
        _ => false,
    }
}

// Whether `is_left_out` is true of each value of the row.
fn are_left_out(slots: &[Slot], row: &[Value]) -> bool
    requires { length row.now ≡ length slots.now }
    ensures { IsTrue result → AreLeftOut slots.now row.now }
{
    'slots: for (place, slot) in slots.iter().enumerate() {
        if !is_left_out(*slot, &row[place]) {
            return false;
        }
    }
    true
}

fn is_same(slot: Slot, other: Slot) -> bool
    ensures { IsTrue result → slot ≡ other }
{
    match (slot, other) {
        (Slot::Stored(place), Slot::Stored(other)) => place == other,
        (Slot::Zero, Slot::Zero) => true,
        (Slot::Empty, Slot::Empty) => true,
        _ => false,
    }
}

fn are_same(slots: &[Slot], others: &[Slot]) -> bool
    ensures { IsTrue result → slots.now ≡ others.now }
{
    if slots.len() != others.len() {
        return false;
    }
    'slots: for place in 0..slots.len() {
        if !is_same(slots[place], others[place]) {
            return false;
        }
    }
    true
}

// A copy of the value in the slot.
fn copied_in(slot: Slot, kept: &[Value], texts: &[Value]) -> Result<Value, AllocError>
    requires { IsText slot texts.now }
    ensures { IfOk result (λ copy. copy ≡ slot_value kept.now slot) }
{
    match value_in(slot, kept, texts) {
        Some(value) => value.try_copy(),
        None => Ok(Value::int(0)),
    }
}

// Appends copies of the values in the slots; some of them if an allocation failed.
fn push_shown(
    slots: &[Slot],
    kept: &[Value],
    texts: &[Value],
    room: &mut Vec<Value>,
) -> Result<(), AllocError>
    requires { texts.now ≡ Text [] ∷ [] }
    ensures { OnOk result (room.new.items ≡ room.old.items ++ map (slot_value kept.now) slots.now) }
{
    'slots: for slot in slots {
        room.push(copied_in(*slot, kept, texts)?)?;
    }
    Ok(())
}

// The values of a column, borrowed: the first row's value is at `place`, each further one `step` places after the one
// before.
#[derive(Clone, Copy)]
pub(crate) struct ColumnValues<'a> {
    pub(crate) values: &'a [Value],
    pub(crate) step: usize,
    pub(crate) place: usize,
}

impl Rows {
    // Rows that store all columns.
    fn whole(alloc: Global, dense: DenseRows) -> Rows
        ensures { result ≡ dense }
    {
        Rows {
            alloc,
            dense,
            slots: Vec::new(alloc),
            texts: Vec::new(alloc),
        }
    }

    /// Rows of this width, at first none.
    pub fn new(alloc: Global, width: usize) -> Rows
        ensures width { result.width ≡ width }
        ensures rows { result.items ≡ [] }
    {
        Rows::whole(alloc, DenseRows::new(alloc, width))
    }

    /// Rows with these columns, at first none. Columns that `kept` leaves out take no memory as long as each row has
    /// the number 0 or the empty text in them. Columns after the end of `kept` are stored. `AllocError` if an
    /// allocation failed.
    pub fn with_columns(
        alloc: Global,
        columns: &[Column],
        kept: &[bool],
    ) -> Result<Rows, AllocError>
        ensures width { IfOk result (λ rows. rows.width ≡ length columns.now) }
        ensures rows { IfOk result (λ rows. rows.items ≡ []) }
    {
        let (slots, count) = slots_of(alloc, columns, kept)?;
        if count == columns.len() {
            return Ok(Rows::new(alloc, columns.len()));
        }
        let mut texts = Vec::with_capacity(alloc, 1)?;
        texts.push(Value::empty())?;
        Ok(Rows {
            alloc,
            dense: DenseRows::new(alloc, count),
            slots,
            texts,
        })
    }

    // The rows that the values make, `width` values each, with these periods.
    pub(crate) fn of_values(
        alloc: Global,
        width: usize,
        values: Vec<Value>,
        periods: Vec<Period>,
    ) -> Rows
        requires fill { length values.items ≡ length periods.items * width }
        requires few { length periods.items ≤ 4294967295 }
        ensures { result ≡ record { width = width; items = rows_from width values.items periods.items } }
    {
        Rows::whole(alloc, DenseRows::of_values(width, values, periods))
    }

    /// The number of values in each row.
    pub fn width(&self) -> usize
        ensures width { result ≡ self.now.width }
        ensures rows { All (λ (row : Fragment). length row.values ≡ self.now.width) self.now.items }
    {
        let kept = self.dense.width();
        if has_all_columns(&self.slots) {
            return kept;
        }
        self.slots.len()
    }

    /// The number of rows.
    pub fn len(&self) -> usize
        ensures len { result ≡ length self.now.items }
        ensures few { result ≤ 4294967295 }
    {
        self.dense.len()
    }

    /// The periods of the rows, in their order.
    pub fn periods(&self) -> &[Period]
        ensures { result.now ≡ map (λ (row : Fragment). row.period) self.now.items }
    {
        self.dense.periods()
    }

    /// The period of the row.
    pub fn period(&self, row: usize) -> Period
        requires { row < length self.now.items }
        ensures { (d : Fragment) → result ≡ (slice_index_or self.now.items row d).period }
    {
        self.periods()[row]
    }

    /// The value of the row in the column; `None` if each row has the number 0 there, also for a column that the rows
    /// do not have.
    pub fn value(&self, row: usize, column: u32) -> Option<&Value>
        requires { row < length self.now.items }
        ensures some { IfSome result (λ value. (d : Fragment) → value.now ≡ value_at (slice_index_or self.now.items row d).values column) }
        ensures none { result ≡ None → (d : Fragment) → value_at (slice_index_or self.now.items row d).values column ≡ Int (pos 0) }
    {
        let slot = slot_of(&self.slots, column);
        value_in(slot, self.dense.values(row), &self.texts)
    }

    /// Appends copies of the row's values to `room`; some of them if an allocation failed.
    pub fn show(&self, row: usize, room: &mut Vec<Value>) -> Result<(), AllocError>
        requires { row < length self.now.items }
        ensures { (d : Fragment) → OnOk result (room.new.items ≡ room.old.items ++ (slice_index_or self.now.items row d).values) }
    {
        let kept = self.dense.values(row);
        if has_all_columns(&self.slots) {
            return push_copies(room, kept);
        }
        push_shown(&self.slots, kept, &self.texts, room)
    }

    // The values of the column; `None` if each row has the number 0 there.
    pub(crate) fn column(&self, column: u32) -> Option<ColumnValues<'_>>
        ensures stand { IfSome result (λ found. AreThere (length self.now.items) found.values.now found.step found.place) }
        ensures found { IfSome result (λ found. (k : ℕ) (d : Fragment) → k < length self.now.items → value_at (slice_index_or self.now.items k d).values column ≡ value_at found.values.now (k * found.step + found.place)) }
        ensures none { result ≡ None → (k : ℕ) (d : Fragment) → k < length self.now.items → value_at (slice_index_or self.now.items k d).values column ≡ Int (pos 0) }
    {
        match slot_of(&self.slots, column) {
            Slot::Stored(place) if place < self.dense.width() => Some(ColumnValues {
                values: self.dense.all_values(),
                step: self.dense.width(),
                place,
            }),
            Slot::Stored(_) => None,
            Slot::Zero => None,
            Slot::Empty => Some(ColumnValues {
                values: self.texts.as_slice(),
                step: 0,
                place: 0,
            }),
        }
    }

    // Copies of the values of all rows, one row after the other.
    fn copied_values(&self) -> Result<Vec<Value>, AllocError>
        ensures { IfOk result (λ values. values.items ≡ flat_map (λ (row : Fragment). row.values) self.now.items) }
    {
        let mut values = Vec::new(self.alloc);
        'rows: for row in 0..self.len() {
            self.show(row, &mut values)?;
        }
        Ok(values)
    }

    // A copy of the rows that stores all columns.
    fn widened(&self) -> Result<DenseRows, AllocError>
        ensures { IfOk result (λ dense. dense ≡ self.now) }
    {
        let _few = self.len();
        let values = self.copied_values()?;
        let periods = self.periods().to_vec(self.alloc)?;
        Ok(DenseRows::of_values(self.width(), values, periods))
    }

    // These rows, moved; a copy is made if some columns are not stored.
    fn into_dense(self) -> Result<DenseRows, AllocError>
        ensures { IfOk result (λ dense. dense ≡ self) }
    {
        if has_all_columns(&self.slots) {
            return Ok(self.dense);
        }
        self.widened()
    }

    // Adds a row, after which all columns are stored.
    fn push_wide(&mut self, row: &mut Vec<Value>, period: Period) -> Result<(), AllocError>
        requires { length row.old.items ≡ self.old.width }
        ensures width { self.new.width ≡ self.old.width }
        ensures pushed { OnOk result (self.new.items ≡ self.old.items ++ record { values = row.old.items; period = period } ∷ []) }
        ensures emptied { OnOk result (row.new.items ≡ []) }
        ensures err { OnErr result (self.new ≡ self.old) }
        ensures kept { OnErr result (row.new.items ≡ row.old.items) }
    {
        let mut dense = self.widened()?;
        dense.push(row, period)?;
        *self = Rows::whole(self.alloc, dense);
        Ok(())
    }

    /// Adds a row and moves the values out of `row`. If a left-out column has another value than the number 0 or the
    /// empty text, the rows store all columns from then on. `AllocError` if an allocation failed or there are 2^32 - 1
    /// rows already: then nothing has changed.
    pub fn push(&mut self, row: &mut Vec<Value>, period: Period) -> Result<(), AllocError>
        requires { length row.old.items ≡ self.old.width }
        ensures width { self.new.width ≡ self.old.width }
        ensures pushed { OnOk result (self.new.items ≡ self.old.items ++ record { values = row.old.items; period = period } ∷ []) }
        ensures emptied { OnOk result (row.new.items ≡ []) }
        ensures err { OnErr result (self.new ≡ self.old) }
        ensures kept { OnErr result (row.new.items ≡ row.old.items) }
    {
        if has_all_columns(&self.slots) {
            return self.dense.push(row, period);
        }
        if !are_left_out(&self.slots, row) {
            return self.push_wide(row, period);
        }
        self.dense.push_stored(&self.slots, row, period)
    }

    /// Adds a row of copies of the values, as `push` does. `AllocError` if an allocation failed or there are 2^32 - 1
    /// rows already: then nothing has changed.
    pub fn push_copy(&mut self, row: &[Value], period: Period) -> Result<(), AllocError>
        requires { length row.now ≡ self.old.width }
        ensures width { self.new.width ≡ self.old.width }
        ensures pushed { OnOk result (self.new.items ≡ self.old.items ++ record { values = row.now; period = period } ∷ []) }
        ensures err { OnErr result (self.new ≡ self.old) }
    {
        if has_all_columns(&self.slots) {
            return self.dense.push_copy(row, period);
        }
        let mut values = Vec::new(self.alloc);
        push_copies(&mut values, row)?;
        self.push(&mut values, period)
    }

    /// Adds a copy of a row of other rows, as `push` does. `AllocError` if an allocation failed or there are 2^32 - 1
    /// rows already: then nothing has changed.
    pub fn push_row(&mut self, rows: &Rows, row: usize) -> Result<(), AllocError>
        requires row { row < length rows.now.items }
        requires width { (d : Fragment) → length (slice_index_or rows.now.items row d).values ≡ self.old.width }
        ensures width { self.new.width ≡ self.old.width }
        ensures pushed { (d : Fragment) → OnOk result (self.new.items ≡ self.old.items ++ slice_index_or rows.now.items row d ∷ []) }
        ensures err { OnErr result (self.new ≡ self.old) }
    {
        let period = rows.period(row);
        if has_all_columns(&self.slots) && has_all_columns(&rows.slots) {
            return self.dense.push_copy(rows.dense.values(row), period);
        }
        let mut values = Vec::new(self.alloc);
        rows.show(row, &mut values)?;
        self.push(&mut values, period)
    }

    /// Keeps at most the first `len` rows.
    pub fn truncate(&mut self, len: usize)
        ensures width { self.new.width ≡ self.old.width }
        ensures rows { self.new.items ≡ take len self.old.items }
    {
        self.dense.truncate(len);
    }

    /// The rows, then those of `other`, which has the same width. No value is copied if both store the same columns;
    /// otherwise the result stores all columns. `AllocError` if an allocation failed or there are 2^32 rows or more.
    pub fn followed_by(self, other: Rows) -> Result<Rows, AllocError>
        requires { other.width ≡ self.width }
        ensures width { IfOk result (λ rows. rows.width ≡ self.width) }
        ensures rows { IfOk result (λ rows. rows.items ≡ self.items ++ other.items) }
    {
        if !are_same(&self.slots, &other.slots) || self.dense.width() != other.dense.width() {
            let alloc = self.alloc;
            let dense = self.into_dense()?.followed_by(other.into_dense()?)?;
            return Ok(Rows::whole(alloc, dense));
        }
        Ok(Rows {
            alloc: self.alloc,
            dense: self.dense.followed_by(other.dense)?,
            slots: self.slots,
            texts: self.texts,
        })
    }

    /// These rows, then the others. With several workers and many rows in `other`, one thread moves the values while
    /// another moves the periods.
    pub fn followed_by_among<R: Threads>(
        self,
        rt: &R,
        workers: u32,
        other: Rows,
    ) -> Result<Rows, AllocError>
        requires { other.width ≡ self.width }
        ensures width { IfOk result (λ rows. rows.width ≡ self.width) }
        ensures rows { IfOk result (λ rows. rows.items ≡ self.items ++ other.items) }
    {
        if !are_same(&self.slots, &other.slots) || self.dense.width() != other.dense.width() {
            return self.followed_by(other);
        }
        Ok(Rows {
            alloc: self.alloc,
            dense: self.dense.followed_by_among(rt, workers, other.dense)?,
            slots: self.slots,
            texts: self.texts,
        })
    }
}
