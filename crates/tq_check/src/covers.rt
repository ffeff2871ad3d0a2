// Periods in which rows with a value are valid. Those of one value are disjoint and do not meet.

ghost use Rattle.std.specs.Prelude.{◌≡◌, ◌++◌, [], ◌∷◌, IfOk, List};
ghost use Rattle.tq_base.specs.declared.sort_input.SortKey.{SortKey as OneKey};
ghost use Rattle.tq_base.specs.SortInputs.{state_of};
ghost use Rattle.tq_check.specs.Covers.{continues, cover_of, covers_after, covers_of, extended, AreCovers};
ghost use Rattle.tq_check.specs.CoverKeys.{AreParentKeys};

use std::alloc::{AllocError, Global};
use tq_base::{Side, SortInput, SortKey};

/// The instants from the start of the key up to, and not including, `end`. At each of them a row with the values of the
/// key is valid.
#[derive(Clone, Copy, Debug)]
pub(crate) struct Cover {
    pub(crate) key: SortKey,
    pub(crate) end: u64,
}

// The period of one row.
fn cover_of(sort_input: &SortInput<'_>, key: &SortKey) -> Cover
    ensures { result ≡ cover_of (state_of sort_input.now) key.now }
{
    Cover {
        key: *key,
        end: sort_input.period(key).end.number(),
    }
}

// Whether the row has the values of the cover, and starts before the cover ends or when it ends.
fn continues(sort_input: &SortInput<'_>, cover: &Cover, key: &SortKey) -> bool
    ensures { result ≡ continues (state_of sort_input.now) cover.now key.now }
{
    key.start <= cover.end && sort_input.compare_values(&cover.key, key).is_eq()
}

// The cover, up to the end of the row if that is later.
fn extended(sort_input: &SortInput<'_>, cover: &Cover, key: &SortKey) -> Cover
    ensures { result ≡ extended (state_of sort_input.now) cover.now key.now }
{
    Cover {
        key: cover.key,
        end: cover.end.max(sort_input.period(key).end.number()),
    }
}

// Joins the row to the cover, or adds the cover to the list. Returns the cover that the next row may continue.
fn add_key(
    sort_input: &SortInput<'_>,
    covers: &mut Vec<Cover>,
    cover: &Cover,
    key: &SortKey,
) -> Result<Cover, AllocError>
    ensures { (rest : List OneKey) → IfOk result (λ next. covers.new.items ++ covers_after (state_of sort_input.now) next rest
        ≡ covers.old.items ++ covers_after (state_of sort_input.now) cover.now (key.now ∷ rest)) }
{
    if continues(sort_input, cover, key) {
        return Ok(extended(sort_input, cover, key));
    }
    covers.push(*cover)?;
    Ok(cover_of(sort_input, key))
}

// The covers of the rows, of which `first` comes before the rest.
fn covers_after(
    alloc: Global,
    sort_input: &SortInput<'_>,
    first: &SortKey,
    rest: &[SortKey],
) -> Result<Vec<Cover>, AllocError>
    ensures { IfOk result (λ covers. covers.items ≡ covers_after (state_of sort_input.now) (cover_of (state_of sort_input.now) first.now) rest.now) }
{
    let mut covers = Vec::new(alloc);
    let mut last = cover_of(sort_input, first);
    'keys: for key in rest {
        last = add_key(sort_input, &mut covers, &last, key)?;
    }
    covers.push(last)?;
    Ok(covers)
}

// The covers of the rows.
fn joined(
    alloc: Global,
    sort_input: &SortInput<'_>,
    keys: &[SortKey],
) -> Result<Vec<Cover>, AllocError>
    ensures { IfOk result (λ covers. covers.items ≡ covers_of (state_of sort_input.now) keys.now) }
{
    match keys {
        [] => Ok(Vec::new(alloc)),
        [first, rest @ ..] => covers_after(alloc, sort_input, first, rest),
    }
}

// The keys of the rows on the right side, by their values and then by their starts.
fn parent_keys(alloc: Global, sort_input: &SortInput<'_>) -> Result<Vec<SortKey>, AllocError>
    ensures { IfOk result (λ keys. AreParentKeys (state_of sort_input.now) keys.items) }
{
    let mut keys = Vec::new(alloc);
    sort_input.add_keys(Side::Right, None, &mut keys)?;
    sort_input.sort(&mut keys)?;
    Ok(keys)
}

/// The covers of the rows on the right side. A sort puts rows with the same values next to each other; no value is
/// copied. `AllocError` if an allocation failed.
pub(crate) fn covers_of(alloc: Global, sort_input: &SortInput<'_>) -> Result<Vec<Cover>, AllocError>
    ensures { IfOk result (λ covers. AreCovers (state_of sort_input.now) covers.items) }
{
    let keys = parent_keys(alloc, sort_input)?;
    joined(alloc, sort_input, &keys)
}
