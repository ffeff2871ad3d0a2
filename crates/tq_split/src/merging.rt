//! The answer over whole tables, from the answers over their parts.

ghost use Rattle.std.specs.Prelude.{◌≡◌, ◌++◌, ◌∷◌, [], ℕ, All, IfOk, IfSome, IsSomeAnd, IsTrue, List, None, Ok, OnOk, Some, length, map, suc, take, true};
ghost use Rattle.std.specs.Io.KnownBytes.{Appends};
ghost use Rattle.std.specs.Ordering.{eq_by_cmp};
ghost use Rattle.csv.specs.Records.{fields_of};
ghost use Rattle.tq_base.specs.declared.fragment.Fragment.{Fragment as AnyFragment};
ghost use Rattle.tq_base.specs.Fragments.{copies};
ghost use Rattle.tq_base.specs.Groups.{Below};
ghost use Rattle.tq_base.specs.Layers.{IsLayers};
ghost use Rattle.tq_base.specs.ValueOrder.{values_cmp};
ghost use Rattle.tq_event.specs.Loading.{entry_of};
ghost use Rattle.tq_event.specs.Tables.{row_entry};
ghost use Rattle.tq_table.specs.Text.{header_text, rows_text};
ghost use Rattle.tq_base.specs.declared.value.Value.{Value as AnyValue};
ghost use Rattle.tq_split.specs.declared.answer_part.AnswerPart.{AnswerPart as AnyPart};
ghost use Rattle.tq_split.specs.declared.answer_part.KeyedRow.{KeyedRow as AnyRow};
ghost use Rattle.tq_split.specs.declared.combine.Combine.TheVariants.{Add};
ghost use Rattle.tq_split.specs.Adding.{combined, run_values};
ghost use Rattle.tq_split.specs.RowKeys.{IsKeyOf};
ghost use Rattle.tq_split.specs.AnswerTexts.{AreAnswers, HasHeaderLeft, HasRows, HasRowsLeft, HaveRows, IsAnswerText, names_of};
ghost use Rattle.tq_split.specs.Merges.{AreAfter, AreInOrder, AreMerged, AreMergedRows, BeginsAbove, MergesBlock, MergesRun, after_run, run_of, runs_of};

use crate::adding::{AddFault, add_groups};
use crate::answer_part::{AnswerLayout, AnswerPart, KeyedRow};
use crate::combine::Combine;
use csv::ByteRecord;
use std::alloc::{AllocError, Global};
use std::cmp::Ordering;
use std::io::{Read, Write};
use tq_base::{Form, Fragment, Name, Relation, Rows, Value, Values, normalized_key};
use tq_event::LoadFaultKind;
use tq_event::steps::read_entry;
use tq_import::{InputFault, next_record, record_reader};
use tq_table::{ResultRows, Sink, coalesce, header_text, rows_text};

// The lines of this many rows, or a few more, are written together.
const BLOCK: usize = 1024;

/// The number of rows of the answer.
#[derive(Clone, Copy, Debug, PartialEq, Eq)]
pub struct Merged {
    pub rows: u64,
}

/// Why an answer is invalid: it cannot be read; it has another header; a record is not a row; or a row comes before the
/// one above it in the order of rows.
#[derive(Clone, Copy, Debug, PartialEq, Eq)]
pub enum AnswerFaultKind {
    Read,
    Header,
    Record(LoadFaultKind),
    Order,
}

/// Why answers were not merged: one of them is invalid, in the record with this number; a number to be added has more than 64
/// signed bits; a write failed; or an allocation failed.
#[derive(Clone, Copy, Debug, PartialEq, Eq)]
pub enum MergeFault {
    Answer {
        part: u32,
        number: u64,
        kind: AnswerFaultKind,
    },
    Number,
    Write,
    OutOfMemory,
}

impl From<AllocError> for MergeFault {
    fn from(_error: AllocError) -> MergeFault {
        MergeFault::OutOfMemory
    }
}

impl From<AddFault> for MergeFault {
    fn from(fault: AddFault) -> MergeFault {
        match fault {
            AddFault::Number => MergeFault::Number,
            AddFault::OutOfMemory => MergeFault::OutOfMemory,
        }
    }
}

// Why a row was not read, whichever the answer.
#[derive(Clone, Copy)]
enum RowFault {
    Answer(AnswerFaultKind),
    OutOfMemory,
}

impl From<AllocError> for RowFault {
    fn from(_error: AllocError) -> RowFault {
        RowFault::OutOfMemory
    }
}

impl From<InputFault> for RowFault {
    fn from(fault: InputFault) -> RowFault {
        match fault {
            InputFault::Read => RowFault::Answer(AnswerFaultKind::Read),
            InputFault::OutOfMemory => RowFault::OutOfMemory,
        }
    }
}

impl From<LoadFaultKind> for RowFault {
    fn from(kind: LoadFaultKind) -> RowFault {
        match kind {
            LoadFaultKind::OutOfMemory => RowFault::OutOfMemory,
            _ => RowFault::Answer(AnswerFaultKind::Record(kind)),
        }
    }
}

// The fault of the answer over the part with this number.
fn fault_of(part: u32, number: u64, fault: RowFault) -> MergeFault {
    match fault {
        RowFault::Answer(kind) => MergeFault::Answer { part, number, kind },
        RowFault::OutOfMemory => MergeFault::OutOfMemory,
    }
}

// ---- reading

// The row of a record.
fn row_of(alloc: Global, layout: &AnswerLayout, record: &ByteRecord) -> Result<Fragment, RowFault>
    ensures { (row : AnyFragment) → entry_of layout.now.form 0 layout.now.columns.items (fields_of record.now) ≡ Ok (row_entry 0 row) → IfOk result (λ found. found ≡ row) }
{
    let mut values = Vec::new(alloc);
    let period = read_entry(
        alloc,
        &layout.columns,
        &[],
        record,
        &mut values,
        layout.form,
    )?;
    Ok(Fragment {
        values: Values::of(values),
        period,
    })
}

// The normalized key of the first value; `None` if there is no value.
fn key_of(values: &Values) -> Option<u128>
    ensures { IsKeyOf result values.now }
{
    match values.get().first() {
        Some(value) => Some(normalized_key(value)),
        None => None,
    }
}

fn keyed(row: Fragment) -> KeyedRow
    ensures { result.row ≡ row }
{
    let key = key_of(&row.values);
    KeyedRow { row, key }
}

// Reads the next row of the part.
fn read_next<R: Read>(
    alloc: Global,
    layout: &AnswerLayout,
    part: &mut AnswerPart<R>,
) -> Result<(), RowFault>
    ensures { (rows : List AnyFragment) → HasRowsLeft R.remaining layout.now part.old.reader rows → OnOk result (HasRows R.remaining layout.now part.new rows) }
{
    if !next_record(&mut part.reader, &mut part.record)? {
        part.next = None;
        return Ok(());
    }
    part.number = part.number.saturating_add(1);
    let row = row_of(alloc, layout, &part.record)?;
    part.next = Some(keyed(row));
    Ok(())
}

// Adds a copy of the row.
fn push_copy(rows: &mut Rows, row: &Fragment) -> Result<(), RowFault>
    ensures width { rows.new.width ≡ rows.old.width }
    ensures pushed { OnOk result (rows.new.items ≡ rows.old.items ++ row.now ∷ []) }
{
    let values = row.values.get();
    if values.len() != rows.width() {
        return Err(RowFault::Answer(AnswerFaultKind::Record(LoadFaultKind::FieldCount)));
    }
    rows.push_copy(values, row.period)?;
    Ok(())
}

// ---- the rows of one run: of one list of values, or of one group

// The first values of a row, at most this many.
fn first_values(values: &[Value], count: usize) -> &[Value]
    ensures { result.now ≡ take count values.entry.now }
{
    if count < values.len() {
        &values[..count]
    } else {
        values
    }
}

// The values that the rows of a run have in common: all, or those of the group.
fn run_values(combine: Combine, values: &Values) -> &[Value]
    ensures { result.now ≡ run_values combine values.entry.now }
{
    match combine {
        Combine::Merge => values.get(),
        Combine::Add { groups } => first_values(values.get(), groups as usize),
    }
}

// Where the next row of a part belongs: to the run, after it, or before it.
#[derive(Clone, Copy, PartialEq, Eq)]
enum Place {
    Within,
    After,
    Before,
}

// Whether both keys are known, and the first is less.
fn is_less_key(key: Option<u128>, other: Option<u128>) -> bool
    ensures below { (values others : List AnyValue) → IsKeyOf key values → IsKeyOf other others → IsTrue result → Below values others }
    ensures first { (values others : List AnyValue) (n : ℕ) → IsKeyOf key values → IsKeyOf other others → IsTrue result → Below (take (suc n) values) (take (suc n) others) }
{
    match (key, other) {
        (Some(key), Some(other)) => key < other,
        _ => false,
    }
}

// Whether the keys decide that the row is of a greater run. Without columns of groups they do not.
fn is_past(combine: Combine, row: &KeyedRow, run: &KeyedRow) -> bool
    ensures { IsTrue result → Below (run_values combine run.now.row.values) (run_values combine row.now.row.values) }
{
    match combine {
        Combine::Merge => is_less_key(run.key, row.key),
        Combine::Add { groups } => groups != 0 && is_less_key(run.key, row.key),
    }
}

// Where the row belongs.
fn place_in(combine: Combine, row: &KeyedRow, run: &KeyedRow) -> Place
    ensures within { result ≡ Place.Within → eq_by_cmp values_cmp (run_values combine row.now.row.values) (run_values combine run.now.row.values) ≡ true }
    ensures after { result ≡ Place.After → Below (run_values combine run.now.row.values) (run_values combine row.now.row.values) }
{
    if is_past(combine, row, run) {
        return Place::After;
    }
    match run_values(combine, &row.row.values).cmp(run_values(combine, &run.row.values)) {
        Ordering::Less => Place::Before,
        Ordering::Equal => Place::Within,
        Ordering::Greater => Place::After,
    }
}

fn place_of(combine: Combine, next: &Option<KeyedRow>, run: &KeyedRow) -> Place
    ensures within { result ≡ Place.Within → IsSomeAnd next.now (λ (next : AnyRow). eq_by_cmp values_cmp (run_values combine next.row.values) (run_values combine run.now.row.values) ≡ true) }
    ensures after { result ≡ Place.After → IfSome next.now (λ (next : AnyRow). Below (run_values combine run.now.row.values) (run_values combine next.row.values)) }
{
    match next {
        Some(row) => place_in(combine, row, run),
        None => Place::After,
    }
}

// Moves the next row of the part to the group.
fn take_row<R: Read>(
    alloc: Global,
    layout: &AnswerLayout,
    part: &mut AnswerPart<R>,
    group: &mut Rows,
) -> Result<(), RowFault>
    ensures width { group.new.width ≡ group.old.width }
    ensures rows { (row : AnyFragment) (others : List AnyFragment) → HasRows R.remaining layout.now part.old (row ∷ others) → OnOk result (HasRows R.remaining layout.now part.new others) }
    ensures group { (row : AnyFragment) (others : List AnyFragment) → HasRows R.remaining layout.now part.old (row ∷ others) → OnOk result (group.new.items ≡ group.old.items ++ row ∷ []) }
{
    let Some(next) = &part.next else {
        return Ok(());
    };
    push_copy(group, &next.row)?;
    read_next(alloc, layout, part)
}

// Moves the rows of the run to the group. `Order` if the next row is of a lesser run.
fn take_run<R: Read>(
    alloc: Global,
    layout: &AnswerLayout,
    part: &mut AnswerPart<R>,
    run: &KeyedRow,
    group: &mut Rows,
) -> Result<(), RowFault>
    ensures width { group.new.width ≡ group.old.width }
    ensures rows { (rows : List AnyFragment) → HasRows R.remaining layout.now part.old rows → OnOk result (HasRows R.remaining layout.now part.new (after_run layout.now.combine (run_values layout.now.combine run.now.row.values) rows)) }
    ensures group { (rows : List AnyFragment) → HasRows R.remaining layout.now part.old rows → OnOk result (group.new.items ≡ group.old.items ++ run_of layout.now.combine (run_values layout.now.combine run.now.row.values) rows) }
    ensures above { (rows : List AnyFragment) → HasRows R.remaining layout.now part.old rows → OnOk result (BeginsAbove layout.now.combine (run_values layout.now.combine run.now.row.values) (after_run layout.now.combine (run_values layout.now.combine run.now.row.values) rows)) }
{
    'rows: for _ in 0..u64::MAX {
        match place_of(layout.combine, &part.next, run) {
            Place::Within => take_row(alloc, layout, part, group)?,
            Place::After => return Ok(()),
            Place::Before => return Err(RowFault::Answer(AnswerFaultKind::Order)),
        }
    }
    Err(RowFault::Answer(AnswerFaultKind::Read))
}

// Moves the rows of the run from all parts to the group.
fn take_runs<R: Read>(
    alloc: Global,
    layout: &AnswerLayout,
    parts: &mut [AnswerPart<R>],
    run: &KeyedRow,
    group: &mut Rows,
) -> Result<(), MergeFault>
    ensures width { group.new.width ≡ group.old.width }
    ensures rows { (lists : List (List AnyFragment)) → HaveRows R.remaining layout.now parts.old lists → OnOk result (HaveRows R.remaining layout.now parts.new (map (after_run layout.now.combine (run_values layout.now.combine run.now.row.values)) lists)) }
    ensures group { (lists : List (List AnyFragment)) → HaveRows R.remaining layout.now parts.old lists → OnOk result (group.new.items ≡ group.old.items ++ runs_of layout.now.combine (run_values layout.now.combine run.now.row.values) lists) }
    ensures above { (lists : List (List AnyFragment)) → HaveRows R.remaining layout.now parts.old lists → OnOk result (AreAfter layout.now.combine (run_values layout.now.combine run.now.row.values) lists) }
{
    let mut number = 0;
    'parts: for part in parts.iter_mut() {
        if let Err(fault) = take_run(alloc, layout, part, run, group) {
            return Err(fault_of(number, part.number, fault));
        }
        number = number.saturating_add(1);
    }
    Ok(())
}

// Whether the row is before the other, by key and then by values.
fn is_less(row: &KeyedRow, other: &KeyedRow) -> bool {
    is_less_key(row.key, other.key)
        || !is_less_key(other.key, row.key) && row.row.values.compare(&other.row.values).is_lt()
}

// The lesser of the least row so far and the next row of one more part.
fn less_of<'a>(least: Option<&'a KeyedRow>, next: &'a Option<KeyedRow>) -> Option<&'a KeyedRow>
    ensures least { result ≡ None → least.entry ≡ None }
    ensures next { result ≡ None → next.entry.now ≡ None }
{
    let Some(row) = next else {
        return least;
    };
    match least {
        Some(least) if !is_less(row, least) => Some(least),
        _ => Some(row),
    }
}

// A next row that no other next row is before. `None` if no part has a next row.
fn least_row<R>(parts: &[AnswerPart<R>]) -> Result<Option<KeyedRow>, AllocError>
    ensures { IfOk result (λ found. found ≡ None → All (λ (part : AnyPart R). part.next ≡ None) parts.now) }
{
    let mut least: Option<&KeyedRow> = None;
    'parts: for part in parts {
        least = less_of(least, &part.next);
    }
    match least {
        Some(row) => Ok(Some(keyed(row.row.try_copy()?))),
        None => Ok(None),
    }
}

// Adds rows of the same width.
fn push_rows(alloc: Global, rows: &ResultRows<'_>, out: &mut Rows) -> Result<(), AllocError>
    requires { All (λ (row : AnyFragment). length row.values ≡ out.old.width) rows.now }
    ensures width { out.new.width ≡ out.old.width }
    ensures pushed { OnOk result (out.new.items ≡ out.old.items ++ rows.now) }
{
    let mut values = Vec::new(alloc);
    'rows: for line in 0..rows.len() {
        values.clear();
        rows.row(line).show_all(&mut values)?;
        out.push(&mut values, rows.period(line))?;
    }
    Ok(())
}

// Adds the layers of the rows of a group.
fn push_layers(alloc: Global, group: Rows, out: &mut Rows) -> Result<(), AllocError>
    requires { group.width ≡ out.old.width }
    ensures width { out.new.width ≡ out.old.width }
    ensures pushed { OnOk result ((layers : List AnyFragment) × IsLayers (copies group.items) layers × (out.new.items ≡ out.old.items ++ layers)) }
{
    // The proof takes the width of all rows from this call.
    group.width();
    if group.len() == 1 {
        out.push_row(&group, 0)?;
        return Ok(());
    }
    let layers = coalesce(alloc, Relation::owned(alloc, group)?)?;
    push_rows(alloc, &layers, out)?;
    Ok(())
}

// Adds the rows that the rows of a group make.
fn push_sums(alloc: Global, group: Rows, groups: u32, out: &mut Rows) -> Result<(), MergeFault>
    requires { group.width ≡ out.old.width }
    ensures width { out.new.width ≡ out.old.width }
    ensures pushed { OnOk result ((layers : List AnyFragment) × IsLayers (combined (Add groups) out.old.width group.items) layers × (out.new.items ≡ out.old.items ++ layers)) }
{
    let sums = add_groups(alloc, group, groups)?;
    push_rows(alloc, &sums, out)?;
    Ok(())
}

// Adds the rows of the answer that the rows of a run make.
fn push_run(alloc: Global, combine: Combine, run: Rows, out: &mut Rows) -> Result<(), MergeFault>
    requires { run.width ≡ out.old.width }
    ensures width { out.new.width ≡ out.old.width }
    ensures pushed { OnOk result ((layers : List AnyFragment) × IsLayers (combined combine out.old.width run.items) layers × (out.new.items ≡ out.old.items ++ layers)) }
{
    match combine {
        Combine::Merge => Ok(push_layers(alloc, run, out)?),
        Combine::Add { groups } => push_sums(alloc, run, groups, out),
    }
}

// Gathers the rows of the least run, and adds the rows of the answer that they make to `out`. Returns whether there were any.
fn merge_run<R: Read>(
    alloc: Global,
    layout: &AnswerLayout,
    parts: &mut [AnswerPart<R>],
    out: &mut Rows,
) -> Result<bool, MergeFault>
    ensures width { out.new.width ≡ out.old.width }
    ensures merged { (lists : List (List AnyFragment)) → out.old.width ≡ length layout.now.columns.items → HaveRows R.remaining layout.now parts.old lists → IfOk result (λ found. MergesRun R.remaining layout.now lists found parts.new out.old.items out.new.items) }
{
    let run = match least_row(parts)? {
        Some(run) => run,
        None => return Ok(false),
    };
    let mut group = Rows::new(alloc, out.width());
    take_runs(alloc, layout, parts, &run, &mut group)?;
    push_run(alloc, layout.combine, group, out)?;
    Ok(true)
}

// ---- whole answers

fn names_of(alloc: Global, layout: &AnswerLayout) -> Result<Vec<Name>, AllocError>
    ensures { IfOk result (λ names. names.items ≡ names_of layout.now) }
{
    let mut names = Vec::with_capacity(alloc, layout.columns.len())?;
    'columns: for column in &layout.columns {
        names.push(column.name.try_copy()?)?;
    }
    Ok(names)
}

// Whether the record is the header of the answer.
fn is_header(layout: &AnswerLayout, record: &ByteRecord) -> bool {
    let width = layout.columns.len();
    if record.len() != width + 2 {
        return false;
    }
    'columns: for (place, column) in layout.columns.iter().enumerate() {
        if record.get(place) != Some(column.name.bytes()) {
            return false;
        }
    }
    record.get(width) == Some(b"from") && record.get(width + 1) == Some(b"to")
}

// Reads the header of an answer, and its first row.
fn begin_part<R: Read>(
    alloc: Global,
    layout: &AnswerLayout,
    part: &mut AnswerPart<R>,
) -> Result<(), RowFault>
    ensures { (fields : List (List ℕ)) (rows : List AnyFragment) → HasHeaderLeft R.remaining layout.now part.old.reader fields rows → OnOk result (HasRows R.remaining layout.now part.new rows) }
{
    if !next_record(&mut part.reader, &mut part.record)? || !is_header(layout, &part.record) {
        return Err(RowFault::Answer(AnswerFaultKind::Header));
    }
    read_next(alloc, layout, part)
}

// The answer over the part with this number, read up to its first row.
fn open_part<R: Read + Drop>(
    alloc: Global,
    layout: &AnswerLayout,
    number: u32,
    input: R,
) -> Result<AnswerPart<R>, MergeFault>
    ensures { (text : List ℕ) (rows : List AnyFragment) → R.remaining input ≡ Some text → IsAnswerText layout.now text rows → IfOk result (λ part. HasRows R.remaining layout.now part rows) }
{
    let mut part = AnswerPart {
        reader: record_reader(alloc, input, b','),
        record: ByteRecord::new(alloc),
        number: 1,
        next: None,
    };
    match begin_part(alloc, layout, &mut part) {
        Ok(()) => Ok(part),
        Err(fault) => Err(fault_of(number, part.number, fault)),
    }
}

fn push_part<R: Drop>(parts: &mut Vec<AnswerPart<R>>, part: AnswerPart<R>) -> Result<(), AllocError>
    ensures { OnOk result (parts.new.items ≡ parts.old.items ++ part ∷ []) }
{
    match parts.push(part) {
        Ok(()) => Ok(()),
        Err(_) => Err(AllocError),
    }
}

fn open_parts<R: Read + Drop>(
    alloc: Global,
    layout: &AnswerLayout,
    inputs: Vec<R>,
) -> Result<Vec<AnswerPart<R>>, MergeFault>
    ensures { (lists : List (List AnyFragment)) → AreAnswers R.remaining layout.now inputs.items lists → IfOk result (λ parts. HaveRows R.remaining layout.now parts.items lists) }
{
    let mut parts = Vec::with_capacity(alloc, inputs.len())?;
    let mut number = 0;
    'inputs: for input in inputs {
        let part = open_part(alloc, layout, number, input)?;
        push_part(&mut parts, part)?;
        number = number.saturating_add(1);
    }
    Ok(parts)
}

// Writes the bytes.
fn put<W: Write>(sink: &mut Sink<W>, bytes: &[u8]) -> Result<(), MergeFault>
    ensures { OnOk result (Appends (W.contents sink.old.writer) (W.contents sink.new.writer) bytes.now) }
{
    match sink.put(bytes) {
        Ok(()) => Ok(()),
        Err(_) => Err(MergeFault::Write),
    }
}

// Writes the lines of the rows.
fn put_rows<W: Write>(
    alloc: Global,
    form: Form,
    rows: Rows,
    sink: &mut Sink<W>,
) -> Result<(), MergeFault>
    ensures { OnOk result (Appends (W.contents sink.old.writer) (W.contents sink.new.writer) (rows_text form rows.items)) }
{
    let rows = ResultRows::of(Relation::owned(alloc, rows)?);
    let text = rows_text(alloc, &rows, form)?;
    put(sink, &text)
}

// Merges rows until there is a block of them, or none are left.
fn merge_block<R: Read>(
    alloc: Global,
    layout: &AnswerLayout,
    parts: &mut [AnswerPart<R>],
) -> Result<(Rows, bool), MergeFault>
    ensures { (lists : List (List AnyFragment)) → HaveRows R.remaining layout.now parts.old lists → IfOk result (λ merged. MergesBlock R.remaining layout.now lists merged.1 parts.new merged.0.items) }
{
    let mut out = Rows::new(alloc, layout.columns.len());
    'runs: for _ in 0..BLOCK {
        if !merge_run(alloc, layout, parts, &mut out)? {
            return Ok((out, false));
        }
    }
    Ok((out, true))
}

// Writes the lines of all rows.
fn merge_parts<R: Read, W: Write>(
    alloc: Global,
    layout: &AnswerLayout,
    parts: &mut [AnswerPart<R>],
    sink: &mut Sink<W>,
) -> Result<Merged, MergeFault>
    ensures { (lists : List (List AnyFragment)) → HaveRows R.remaining layout.now parts.old lists → All (AreInOrder (length layout.now.columns.items)) lists
        → IfOk result (AreMergedRows layout.now lists (W.contents sink.old.writer) (W.contents sink.new.writer)) }
{
    let mut rows: u64 = 0;
    'merging: for _ in 0..u64::MAX {
        let (block, more) = merge_block(alloc, layout, parts)?;
        let Some(counted) = rows.checked_add(block.len() as u64) else {
            return Err(MergeFault::OutOfMemory);
        };
        rows = counted;
        put_rows(alloc, layout.form, block, sink)?;
        if !more {
            return Ok(Merged { rows });
        }
    }
    Err(MergeFault::OutOfMemory)
}

/// Combines the answers over all parts: writes the answer over the whole tables. Each answer is read row by row, so memory
/// holds a block of rows and those of one list of values, or of one group. Returns the number of rows.
pub fn merge_answers<R: Read + Drop, W: Write>(
    alloc: Global,
    layout: &AnswerLayout,
    inputs: Vec<R>,
    sink: &mut Sink<W>,
) -> Result<Merged, MergeFault>
    ensures { (lists : List (List AnyFragment)) → AreAnswers R.remaining layout.now inputs.items lists → IfOk result (AreMerged layout.now lists (W.contents sink.old.writer) (W.contents sink.new.writer)) }
{
    let names = names_of(alloc, layout)?;
    let header = header_text(alloc, &names)?;
    let mut parts = open_parts(alloc, layout, inputs)?;
    put(sink, &header)?;
    let merged = merge_parts(alloc, layout, &mut parts, sink)?;
    Ok(merged)
}
