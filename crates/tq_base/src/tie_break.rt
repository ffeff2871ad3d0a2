//! Sorting of keys whose first prefixes do not determine all compared values.
//!
//! Keys with equal prefixes get the prefix of what comes next: of the next column, or of the bytes after the common
//! start of their texts. They are then sorted by that prefix, level by level. The first key of each run gets the run
//! start `Begins`, because its values differ from those of the key before it. If nothing is left to compare, the other
//! keys of the run get `GoesOn`, because their values are the same.
//!
//! The sort calls itself for each level. Functions that return before the next level starts are not inlined, so that
//! their views and lists leave the stack.

ghost use Rattle.std.specs.Prelude.{◌≡◌, ◌≢◌, ◌<◌, ◌≤◌, All, IsPermutation, IsSorted, drop, length, map, slice_index_or, take};
ghost use Rattle.std.specs.Bool.{OnTrue};
ghost use Rattle.tq_base.specs.RowValues.{value_at};
ghost use Rattle.tq_base.specs.declared.sort_input.SortKey.{SortKey};
ghost use Rattle.tq_base.specs.declared.sort_input.RunStart.TheVariants.{Begins};
ghost use Rattle.tq_base.specs.SortInputs.{state_of};
ghost use Rattle.tq_base.specs.Keys.{HaveRunStarts};
ghost use Rattle.tq_base.specs.TieBreak.{from_cmp, goes_on, prefix_cmp, with_next_prefix, without_run_start, value_after, with_prefix, HaveNoRunStarts, HasNextPrefix, RunsDone, SameKeys, SameOrder, Share};
ghost use Rattle.tq_base.specs.ValueOrder.{value_cmp};

use crate::keys::{compare_prefix_start, is_exact};
use crate::place_view::PlaceView;
use crate::prefetch::{PREFETCHED, Prefetch};
use crate::prefixes::{compare_after, prefix_after, text_after};
use crate::row::Row;
use crate::short_text::SHORT;
use crate::sort_input::{RunStart, SortInput, SortKey};
use std::cmp::Ordering;

// The most prefixes that are taken of one key; what they do not decide is compared by reading rows.
const LEVELS: u32 = 256;

// The number of keys whose next texts are prefetched together, before the keys are sorted.
const AHEAD: usize = PREFETCHED;

// Fewer keys than this are not prefetched: filling the list would cost more than it gains.
const FEW: usize = 16;

// The place up to which keys were prefetched, and the length of the longest of their next texts.
#[derive(Clone, Copy)]
struct Ahead {
    until: usize,
    longest: usize,
}

const NOTHING_AHEAD: Ahead = Ahead {
    until: 0,
    longest: 0,
};

// Compares the values in the two columns, texts from the offset on. `compare_at` is faster for whole values, because it
// compares short texts by their prefixes.
fn compare_there(
    one: &Row<'_>,
    column: u32,
    other: &Row<'_>,
    other_column: u32,
    offset: usize,
) -> Ordering
    ensures { result ≡ value_cmp (value_after offset (value_at one.now column)) (value_after offset (value_at other.now other_column)) }
{
    compare_after(
        one.value(column as usize),
        other.value(other_column as usize),
        offset,
    )
}

// The number of equal bytes at the front of the two texts.
fn common_len(one: &[u8], other: &[u8]) -> usize
    ensures within { result ≤ length one.now }
    ensures same { take result one.now ≡ take result other.now }
{
    let len = one.len().min(other.len());
    let are_same = one[..len] == other[..len];
    if are_same {
        return len;
    }
    'bytes: for place in 0..len {
        if one[place] != other[place] {
            return place;
        }
    }
    len
}

// The number of keys at the front with this prefix.
fn prefix_run_len(keys: &[SortKey], prefix: u128) -> usize
    ensures within { result ≤ length keys.now }
    ensures alike { All (λ k. k.prefix ≡ prefix) (take result keys.now) }
    ensures ends { (d : SortKey) → result < length keys.now → (slice_index_or keys.now result d).prefix ≢ prefix }
{
    'keys: for (len, key) in keys.iter().enumerate() {
        if key.prefix != prefix {
            return len;
        }
    }
    keys.len()
}

// Whether the key at the place has the prefix of the key before it or after it.
fn has_like(keys: &[SortKey], place: usize, prefix: u128) -> bool {
    if let Some(before) = keys.get(place.wrapping_sub(1))
        && before.prefix == prefix
    {
        return true;
    }
    match keys.get(place.saturating_add(1)) {
        Some(behind) => behind.prefix == prefix,
        None => false,
    }
}

// Sorts by prefix. Keys that are in order already are left as they are.
#[inline(never)]
fn sort_by_prefix(keys: &mut [SortKey])
    ensures same { IsPermutation keys.old keys.new }
    ensures order { IsSorted prefix_cmp keys.new }
{
    if keys.is_sorted_by(|one, other| one.prefix.cmp(&other.prefix).is_le()) {
        return;
    }
    keys.sort_unstable_by(|one, other| compare_prefix_start(one, other));
}

fn set_prefixes(keys: &mut [SortKey], prefix: u128)
    ensures { keys.new ≡ map (with_prefix prefix) keys.old }
{
    'keys: for key in keys.iter_mut() {
        key.prefix = prefix;
    }
}

// Sets the run start of the first key to `Begins`.
fn set_first_run_start(keys: &mut [SortKey])
    ensures same { map without_run_start keys.new ≡ map without_run_start keys.old }
    ensures others { drop 1 keys.new ≡ drop 1 keys.old }
    ensures first { (d : SortKey) → 0 < length keys.new → (slice_index_or keys.new 0 d).run_start ≡ Begins }
{
    if !keys.is_empty() {
        keys[0].run_start = RunStart::Begins;
    }
}

// Sets the run start of all keys to `GoesOn`.
fn set_goes_on(keys: &mut [SortKey])
    ensures { keys.new ≡ map goes_on keys.old }
{
    'keys: for key in keys.iter_mut() {
        key.run_start = RunStart::GoesOn;
    }
}

// Prefetches the keys' values, `PREFETCHED` of them at most, and returns the length of their longest text. The caller
// reads the texts from the offset on.
fn longest_text(view: &PlaceView<'_>, keys: &[SortKey], offset: usize) -> usize {
    let Some(first) = keys.first() else {
        return 0;
    };
    let mut prefetch = Prefetch::new(view.at(first));
    'keys: for key in keys {
        prefetch.push(view.at(key));
    }
    if offset < SHORT {
        prefetch.longest()
    } else {
        prefetch.longest_after_tail()
    }
}

// Prefetches the values of the keys that share their prefix with a neighbour, and returns the length of their longest
// text. `are_exact` selects the keys whose prefix determines the value, or the others; of these the caller reads the
// bytes after the first 14.
fn longest_shared(view: &PlaceView<'_>, keys: &[SortKey], are_exact: bool) -> usize {
    let Some(first) = keys.first() else {
        return 0;
    };
    let mut prefetch = Prefetch::new(view.at(first));
    'keys: for (number, key) in keys.iter().enumerate() {
        if has_like(keys, number, key.prefix) && is_exact(key.prefix) == are_exact {
            prefetch.push(view.at(key));
        }
    }
    if are_exact {
        prefetch.longest()
    } else {
        prefetch.longest_after_tail()
    }
}

impl<'a> SortInput<'a> {
    // The view of the column at the place; `None` if no column is compared there.
    fn view_at(&self, place: usize) -> Option<PlaceView<'a>> {
        if place < self.left_columns.len() {
            Some(self.place_view(place))
        } else {
            None
        }
    }

    // Compares the remaining values of two keys, then their starts.
    fn compare_rest(&self, place: usize, offset: usize, one: &SortKey, other: &SortKey) -> Ordering
        ensures { result ≡ from_cmp (state_of self.now) place offset one.now other.now }
    {
        let (columns, other_columns) = (self.columns(one.side), self.columns(other.side));
        if place >= columns.len() {
            return one.start.cmp(&other.start);
        }
        let (row, other_row) = (self.row(one), self.row(other));
        let order = compare_there(
            &row,
            columns[place],
            &other_row,
            other_columns[place],
            offset,
        );
        if order.is_ne() {
            return order;
        }
        order
            .then(self.compare_from(place + 1, one, other))
            .then(one.start.cmp(&other.start))
    }

    // Gives each key the prefix of its remaining values. If there are many keys, their values are prefetched in blocks,
    // and the result is the length of their longest text; else it is 0.
    #[inline(never)]
    fn next_prefixes(&self, keys: &mut [SortKey], place: usize, offset: usize) -> usize
        requires { place < length self.now.left_columns.now }
        ensures keys { keys.new ≡ map (with_next_prefix (state_of self.now) place offset) keys.old }
        ensures prefixes { All (HasNextPrefix (state_of self.now) place offset) keys.new }
    {
        let view = self.place_view(place);
        let are_many = keys.len() > AHEAD;
        let mut longest = 0;
        'keys: for number in 0..keys.len() {
            if are_many && number % AHEAD == 0 {
                let until = number.saturating_add(AHEAD).min(keys.len());
                longest = longest.max(longest_text(&view, &keys[number..until], offset));
            }
            keys[number].prefix = prefix_after(view.at(&keys[number]), offset);
        }
        longest
    }

    // The number of bytes that the remaining texts of all keys have in common.
    #[inline(never)]
    fn shared_len(&self, keys: &[SortKey], place: usize, offset: usize) -> usize
        requires { place < length self.now.left_columns.now }
        ensures { Share (state_of self.now) place offset result keys.now }
    {
        let Some(first) = keys.first() else {
            return 0;
        };
        let view = self.place_view(place);
        let text = text_after(view.at(first), offset);
        let mut len = text.len();
        'keys: for key in keys {
            len = common_len(&text[..len], text_after(view.at(key), offset));
        }
        len
    }

    // The length of the longest text to be read next for the keys that share their prefix with a neighbour: in the next
    // column if the prefix determines the value in this one.
    #[inline(never)]
    fn longest_next(&self, keys: &[SortKey], place: usize) -> usize {
        let Some(here) = self.view_at(place) else {
            return 0;
        };
        let longest = longest_shared(&here, keys, false);
        match self.view_at(place.saturating_add(1)) {
            Some(behind) => longest.max(longest_shared(&behind, keys, true)),
            None => longest,
        }
    }

    // Prefetches for the next block of keys, from `start` on, once the block before is sorted. A block of few keys is
    // not prefetched, and the length of its texts is then not known.
    fn prefetch_next(&self, ahead: Ahead, keys: &[SortKey], start: usize, place: usize) -> Ahead {
        if start < ahead.until || start >= keys.len() {
            return ahead;
        }
        let until = start.saturating_add(AHEAD).min(keys.len());
        let next = &keys[start..until];
        let longest = if next.len() < FEW {
            usize::MAX
        } else {
            self.longest_next(next, place)
        };
        Ahead { until, longest }
    }

    // What is known about the texts of a run whose keys get their next prefix. If the run is short and this is the last
    // column, its texts were just prefetched, and no further ones follow. The texts of a longer run have left the cache
    // by the time its keys are sorted.
    fn known_ahead(&self, keys: usize, next: usize, longest: usize) -> Ahead {
        if keys <= AHEAD && next.saturating_add(1) >= self.left_columns.len() {
            Ahead {
                until: usize::MAX,
                longest,
            }
        } else {
            NOTHING_AHEAD
        }
    }

    // The column and the offset from which keys with equal prefixes are compared. If their texts are short enough for
    // the next prefixes to determine them, these begin after the bytes of this prefix; else after all bytes that the
    // texts have in common.
    fn next_place(
        &self,
        prefix: u128,
        run: &[SortKey],
        place: usize,
        offset: usize,
        longest: usize,
    ) -> (usize, usize)
        requires alike { All (λ k. k.prefix ≡ prefix) run.now }
        requires prefixes { All (HasNextPrefix (state_of self.now) place offset) run.now }
        ensures { SameOrder (state_of self.now) place offset result.0 result.1 run.now }
    {
        if place >= self.left_columns.len() {
            return (place, offset);
        }
        if is_exact(prefix) {
            return (place + 1, 0);
        }
        let longest = longest.saturating_sub(offset);
        let len = if longest <= 2 * SHORT {
            SHORT
        } else {
            self.shared_len(run, place, offset)
        };
        match offset.checked_add(len) {
            Some(next) => (place, next),
            None => (place, offset),
        }
    }

    // Whether keys with equal prefixes get another prefix, at the next place. If not, they are sorted by comparisons.
    fn takes_next_prefix(&self, levels: u32, next: usize, is_further: bool) -> bool
        ensures levels { OnTrue result (0 < levels) }
        ensures there { OnTrue result (next < length self.now.left_columns.now) }
    {
        levels > 0 && is_further && next < self.left_columns.len()
    }

    // Sorts the keys by comparing their remaining values.
    fn sort_read(&self, keys: &mut [SortKey], place: usize, offset: usize)
        ensures same { IsPermutation keys.old keys.new }
        ensures order { IsSorted (from_cmp (state_of self.now) place offset) keys.new }
    {
        if place >= self.left_columns.len() {
            keys.sort_unstable_by(|one, other| one.start.cmp(&other.start));
        } else {
            keys.sort_unstable_by(|one, other| self.compare_rest(place, offset, one, other));
        }
    }

    // Sorts the keys by comparing their remaining values, which decide their order. If nothing is left to compare,
    // their values are the same, and they get the run start `GoesOn`.
    #[inline(never)]
    fn sort_rest(&self, keys: &mut [SortKey], place: usize, offset: usize)
        requires without_run_start { HaveNoRunStarts keys.old }
        requires decides { SameOrder (state_of self.now) 0 0 place offset keys.old }
        ensures same { SameKeys keys.old keys.new }
        ensures order { IsSorted (from_cmp (state_of self.now) place offset) keys.new }
        ensures run_starts { HaveRunStarts (state_of self.now) keys.new }
    {
        self.sort_read(keys, place, offset);
        if place >= self.left_columns.len() {
            set_goes_on(keys);
        }
    }

    // Sorts keys with equal prefixes by their remaining values, and sets the run starts that it learns. `levels` bounds
    // how many further prefixes are taken.
    #[cycle(tie_break)]
    fn sort_run(
        &self,
        levels: u32,
        prefix: u128,
        run: &mut [SortKey],
        place: usize,
        offset: usize,
        longest: usize,
    )
        requires alike { All (λ k. k.prefix ≡ prefix) run.old }
        requires prefixes { All (HasNextPrefix (state_of self.now) place offset) run.old }
        requires without_run_start { HaveNoRunStarts run.old }
        requires decides { SameOrder (state_of self.now) 0 0 place offset run.old }
        ensures same { SameKeys run.old run.new }
        ensures order { IsSorted (from_cmp (state_of self.now) place offset) run.new }
        ensures run_starts { HaveRunStarts (state_of self.now) run.new }
    {
        if run.len() < 2 {
            return;
        }
        let (next, next_offset) = self.next_place(prefix, run, place, offset, longest);
        let is_further = next > place || next_offset > offset;
        if self.takes_next_prefix(levels, next, is_further) {
            let longest = self.next_prefixes(run, next, next_offset).max(longest);
            let known = self.known_ahead(run.len(), next, longest);
            self.sort_level(levels - 1, run, next, next_offset, known);
            set_prefixes(run, prefix);
        } else {
            self.sort_rest(run, next, next_offset);
        }
    }

    // Sorts the run of equal prefixes that begins at `start`, sets the run start of its first key, and returns where it
    // ends.
    #[cycle(tie_break)]
    fn sort_next(
        &self,
        levels: u32,
        keys: &mut [SortKey],
        start: usize,
        place: usize,
        offset: usize,
        longest: usize,
    ) -> usize
        requires prefixes { All (HasNextPrefix (state_of self.now) place offset) keys.old }
        requires done { RunsDone (state_of self.now) place offset keys.old start }
        requires some { start < length keys.old }
        requires decides { SameOrder (state_of self.now) 0 0 place offset keys.old }
        ensures same { SameKeys keys.old keys.new }
        ensures done { RunsDone (state_of self.now) place offset keys.new result }
        ensures further { start < result }
    {
        let prefix = keys[start].prefix;
        let end = start + prefix_run_len(&keys[start..], prefix);
        let run = &mut keys[start..end];
        self.sort_run(levels, prefix, run, place, offset, longest);
        set_first_run_start(run);
        end
    }

    // Sorts keys by the prefixes of their remaining values, then each run of equal prefixes, and sets the run starts
    // that it learns.
    #[cycle(tie_break)]
    fn sort_level(
        &self,
        levels: u32,
        keys: &mut [SortKey],
        place: usize,
        offset: usize,
        known: Ahead,
    )
        requires prefixes { All (HasNextPrefix (state_of self.now) place offset) keys.old }
        requires without_run_start { HaveNoRunStarts keys.old }
        requires decides { SameOrder (state_of self.now) 0 0 place offset keys.old }
        ensures same { SameKeys keys.old keys.new }
        ensures order { IsSorted (from_cmp (state_of self.now) place offset) keys.new }
        ensures run_starts { HaveRunStarts (state_of self.now) keys.new }
    {
        sort_by_prefix(keys);
        let mut ahead = known;
        let mut start = 0;
        'runs: while start < keys.len() {
            ahead = self.prefetch_next(ahead, keys, start, place);
            start = self.sort_next(levels, keys, start, place, offset, ahead.longest);
        }
    }

    // Sorts keys whose first prefixes do not determine all compared values, and sets the run starts that it learns.
    pub(crate) fn break_ties(&self, keys: &mut Vec<SortKey>)
        requires prefixes { All (HasNextPrefix (state_of self.now) 0 0) keys.old.items }
        requires without_run_start { HaveNoRunStarts keys.old.items }
        ensures same { SameKeys keys.old.items keys.new.items }
        ensures order { IsSorted (from_cmp (state_of self.now) 0 0) keys.new.items }
        ensures run_starts { HaveRunStarts (state_of self.now) keys.new.items }
    {
        self.sort_level(LEVELS, keys.as_mut_slice(), 0, 0, NOTHING_AHEAD);
    }
}
