// The name that is nearest to a word.

ghost use Rattle.std.specs.Prelude.{◌≡◌, ◌++◌, IfOk, OnOk, option_map};
ghost use Rattle.tq_diagnostics.specs.Nearest.{IsNearestIf, distance, meant_line, nearest, nearest_hint, nearest_line, reach};
ghost use Rattle.tq_diagnostics.specs.Views.{name_views};

use crate::fields::push_value;
use std::alloc::{AllocError, Global};
use strsim::generic_levenshtein;

// The least number of bytes to insert, remove or replace to turn the word into the name.
fn distance(alloc: Global, word: &[u8], name: &[u8]) -> Result<usize, AllocError>
    ensures { IfOk result (λ count. count ≡ distance word.now name.now) }
{
    generic_levenshtein(alloc, word, name)
}

// A name is near if its distance is less than this.
fn reach(word: &[u8]) -> usize
    ensures { result ≡ reach word.now }
{
    (word.len() / 3).max(2).min(word.len() / 2) + 1
}

// The first of the nearest names, if one is near.
#[tactic(auto, unfolding(crate::specs::Nearest::nearest))]
fn best<'a>(alloc: Global, word: &[u8], names: &[&'a [u8]]) -> Result<Option<&'a [u8]>, AllocError>
    ensures { IfOk result (λ found. option_map (λ name. name.now) found ≡ nearest word.now (name_views names.now)) }
{
    let mut least = reach(word);
    let mut found = None;
    'names: for name in names {
        let count = distance(alloc, word, *name)?;
        if count < least {
            least = count;
            found = Some(*name);
        }
    }
    Ok(found)
}

// The nearest name within reach. No other name is nearer, and none before it is as near.
fn nearest<'a>(
    alloc: Global,
    word: &[u8],
    names: &[&'a [u8]],
) -> Result<Option<&'a [u8]>, AllocError>
    ensures value { IfOk result (λ found. option_map (λ name. name.now) found ≡ nearest word.now (name_views names.now)) }
    ensures nearest { IfOk result (λ found. IsNearestIf word.now (name_views names.now) (option_map (λ name. name.now) found)) }
{
    let found = best(alloc, word, names)?;
    Ok(found)
}

// Appends that the name may have been meant.
fn push_meant(text: &mut Vec<u8>, meant: &[u8]) -> Result<(), AllocError>
    ensures { OnOk result (text.new.items ≡ text.old.items ++ meant_line meant.now) }
{
    text.extend_from_slice(b"  `")?;
    push_value(text, meant)?;
    text.extend_from_slice(b"` is the nearest name\n")
}

// Appends the name that may have been meant, if there is one.
fn push_nearest_line(text: &mut Vec<u8>, name: Option<&[u8]>) -> Result<(), AllocError>
    ensures { OnOk result (text.new.items ≡ text.old.items ++ nearest_line (option_map (λ name. name.now) name.entry)) }
{
    let Some(name) = name else {
        return Ok(());
    };
    push_meant(text, name)
}

/// Appends the nearest of the names to a word, if one is near.
#[tactic(auto, unfolding(crate::specs::Nearest::nearest_hint))]
pub(crate) fn push_nearest(
    alloc: Global,
    text: &mut Vec<u8>,
    word: &[u8],
    names: &[&[u8]],
) -> Result<(), AllocError>
    ensures { OnOk result (text.new.items ≡ text.old.items ++ nearest_hint word.now (name_views names.now)) }
{
    let found = nearest(alloc, word, names)?;
    push_nearest_line(text, found)
}
