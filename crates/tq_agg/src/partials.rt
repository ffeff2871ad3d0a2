//! Counts of the rows of one value of a column, from the partial aggregates of several parts of the rows.

ghost use Rattle.std.specs.Prelude.{◌≡◌, ◌+ℤ◌, ◌≤◌, ◌<◌, ◌==◌, ℕ, [], ◌∷◌, All, AllPairs, IfOk, IfSome, IsTrue, List, OnOk, filter, length, true};
ghost use Rattle.tq_base.specs.declared.fragment.Fragment.{Fragment};
ghost use Rattle.tq_base.specs.declared.value.Value.{Value};
ghost use Rattle.tq_base.specs.Fragments.{at, occurrences};
ghost use Rattle.tq_base.specs.RowValues.{value_at};
ghost use Rattle.tq_condition.specs.Ordinary.{HasInside, IsEmptyOutside};
ghost use Rattle.tq_agg.specs.declared.buckets.Tally.{Tally as AnyTally};
ghost use Rattle.tq_agg.specs.Buckets.{bucket_count, counted_at, counted_in, rank_share, AreCut, AreRanked, AreRanksOf, AreTallies, IsAmong, IsFound, IsInside};
ghost use Rattle.tq_agg.specs.Grouping.{grouped_rows};

use crate::buckets::{Bucket, Tally, place_of, sweep_bucket};
use crate::changes::Changes;
use crate::endpoints::Endpoints;
use std::alloc::{AllocError, Global};
use tq_base::{Period, Relation, Rows};

// Adds the rows of the value with this prefix, if `buckets` has any, to `bucket`, which becomes a bucket of this value.
fn add_rank(buckets: &Tally, prefix: u128, bucket: &mut Bucket) -> Result<(), AllocError>
    requires { length buckets.now.ranks.items ≡ length buckets.now.list.items }
    ensures inside { (window : Period) → AreCut window buckets.now.list.items → IsInside window bucket.old → OnOk result (IsInside window bucket.new) }
    ensures found { (column : List Value) → AreRanked column buckets.now.ranks.items buckets.now.list.items → IsFound column prefix bucket.old → OnOk result (IsFound column prefix bucket.new) }
    ensures counts { (column : List Value) → AreRanked column buckets.now.ranks.items buckets.now.list.items → IsFound column prefix bucket.old
        → (t : ℕ) (key : List Value) → OnOk result (bucket_count column t key bucket.new ≡ bucket_count column t key bucket.old +ℤ counted_at column prefix t key buckets.now.list.items) }
{
    let place = place_of(&buckets.ranks, prefix);
    if place < buckets.ranks.len() && buckets.ranks[place] == prefix {
        let found = &buckets.list[place];
        bucket.row = found.row;
        bucket.endpoints.add_all(&found.endpoints)?;
    }
    Ok(())
}

// The rows of the value with this prefix, of all partial aggregates, in one bucket.
fn rows_of_rank(alloc: Global, tallies: &[Tally], prefix: u128) -> Result<Bucket, AllocError>
    requires { All (λ (b : AnyTally). length b.ranks.items ≡ length b.list.items) tallies.now }
    ensures inside { (window : Period) → All (λ (b : AnyTally). AreCut window b.list.items) tallies.now → IfOk result (IsInside window) }
    ensures counts { (column : List Value) → All (λ (b : AnyTally). AreRanked column b.ranks.items b.list.items) tallies.now
        → (t : ℕ) (key : List Value) → IfOk result (λ bucket. bucket_count column t key bucket ≡ counted_in column prefix t key tallies.now) }
{
    let mut bucket = Bucket {
        row: 0,
        endpoints: Endpoints::none(alloc),
        changes: Changes::none(alloc),
    };
    'tallies: for buckets in tallies {
        add_rank(buckets, prefix, &mut bucket)?;
    }
    Ok(bucket)
}

/// Counts the rows of one partition: those whose value has the prefix `ranks[number]`. There is a row with the value
/// and the count for each period in which the count is not 0. `AllocError` if an allocation failed.
pub fn count_share(
    alloc: Global,
    rows: &Relation<'_>,
    window: &Period,
    column: u32,
    tallies: &[Tally],
    ranks: &[u128],
    number: u32,
) -> Result<Rows, AllocError>
    requires tallies { AreTallies rows.now.items window.now column tallies.now }
    requires ranks { AreRanksOf ranks.now tallies.now }
    requires here { number < length ranks.now }
    ensures width { IfOk result (λ out. out.width ≡ 2) }
    ensures inside { IfOk result (λ out. HasInside window.now out.items
        (λ t v. occurrences (grouped_rows (column ∷ []) [] (at (filter (λ (row : Fragment). rank_share ranks.now (value_at row.values column) == number) rows.now.items) t)) v)) }
    ensures outside { IfOk result (λ out. IsEmptyOutside window.now out.items) }
{
    let mut bucket = rows_of_rank(alloc, tallies, ranks[number as usize])?;
    let mut out = Rows::new(alloc, 2);
    sweep_bucket(alloc, rows, window, column, &mut bucket, &mut out)?;
    Ok(out)
}

/// Whether all rows of all partial aggregates are in buckets.
pub fn are_whole(tallies: &[Tally]) -> bool
    ensures { IsTrue result → All (λ (b : AnyTally). b.is_whole ≡ true) tallies.now }
{
    tallies.iter().all(|buckets| buckets.is_whole)
}

// Whether each prefix is below the next.
fn rise(ranks: &[u128]) -> bool
    ensures { IsTrue result → AllPairs (λ r q. r < q) ranks.now }
{
    ranks.is_sorted_by(|prefix, next| prefix < next)
}

// Whether each of the prefixes is one of `all`.
fn are_among(all: &[u128], ranks: &[u128]) -> bool
    ensures { IsTrue result → All (IsAmong all.now) ranks.now }
{
    'ranks: for prefix in ranks {
        let place = place_of(all, *prefix);
        if place >= all.len() || all[place] != *prefix {
            return false;
        }
    }
    true
}

// Whether these are the prefixes of the values of all buckets, in order.
fn are_ranks_of(ranks: &[u128], tallies: &[Tally]) -> bool
    ensures { IsTrue result → AreRanksOf ranks.now tallies.now }
{
    if ranks.is_empty() || !rise(ranks) {
        return false;
    }
    'tallies: for buckets in tallies {
        if !are_among(ranks, &buckets.ranks) {
            return false;
        }
    }
    true
}

/// The normalized key prefixes of the values of all buckets, in order. `None` if there are none, or more than `most`.
pub fn ranks_of(
    alloc: Global,
    tallies: &[Tally],
    most: usize,
) -> Result<Option<Vec<u128>>, AllocError>
    ensures ranks { IfOk result (λ found. IfSome found (λ ranks. AreRanksOf ranks.items tallies.now)) }
    ensures few { IfOk result (λ found. IfSome found (λ ranks. length ranks.items ≤ most)) }
{
    let mut ranks = Vec::new(alloc);
    'tallies: for buckets in tallies {
        ranks.extend_from_slice(&buckets.ranks)?;
    }
    ranks.sort_unstable();
    ranks.dedup();
    if ranks.len() > most || !are_ranks_of(&ranks, tallies) {
        return Ok(None);
    }
    Ok(Some(ranks))
}
