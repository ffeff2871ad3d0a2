//! The orders of values, of rows of values and of fragments.

use crate::lists::fragment_of;
use crate::words::{push_period, push_value, row_of, text_of, value_of};
use std::alloc::{AllocError, Global};
use std::cmp::Ordering;
use std::fmt::Write;
use std::mem;
use tq_base::{Fragment, List, Text, Value, Values, normalized_key};

// Whether the two values compare as their places do.
fn is_value_placed(one: &Value, other: &Value, places: Ordering) -> bool {
    one.compare(other) == places
        && (one == other) == places.is_eq()
        && (one < other) == places.is_lt()
}

fn is_row_placed(one: &Values, other: &Values, places: Ordering) -> bool {
    one.compare(other) == places && (one == other) == places.is_eq()
}

fn print_misplaced(count: usize, misplaced: u32, out: &mut String) -> Result<(), AllocError> {
    writeln!(out, "{count} of them, {misplaced} pairs stand otherwise")
}

// How many of the values do not compare with a copy of the one at the place as their places do.
fn misplaced_values(values: &[Value], place: usize, one: &Value) -> Result<u32, AllocError> {
    let one = one.try_copy()?;
    let mut misplaced: u32 = 0;
    for (other, against) in values.iter().enumerate() {
        let is_right = is_value_placed(&one, against, place.cmp(&other));
        misplaced = misplaced.saturating_add(u32::from(!is_right));
    }
    Ok(misplaced)
}

/// Prints how many pairs of the values do not compare as their places do.
pub(crate) fn print_order(
    alloc: Global,
    words: &[&str],
    out: &mut String,
) -> Result<(), AllocError> {
    let mut values = Vec::new(alloc);
    for word in words {
        values.push(value_of(alloc, word)?)?;
    }
    let mut misplaced: u32 = 0;
    for (place, one) in values.iter().enumerate() {
        misplaced = misplaced.saturating_add(misplaced_values(&values, place, one)?);
    }
    print_misplaced(values.len(), misplaced, out)
}

fn misplaced_rows(rows: &[Values], place: usize, one: &Values) -> Result<u32, AllocError> {
    let one = one.try_copy()?;
    let mut misplaced: u32 = 0;
    for (other, against) in rows.iter().enumerate() {
        let is_right = is_row_placed(&one, against, place.cmp(&other));
        misplaced = misplaced.saturating_add(u32::from(!is_right));
    }
    Ok(misplaced)
}

/// Prints how many pairs of rows of values do not compare as their places do, and how many values each has.
pub(crate) fn print_rows_order(
    alloc: Global,
    words: &[&str],
    out: &mut String,
) -> Result<(), AllocError> {
    let mut rows = Vec::new(alloc);
    for word in words {
        rows.push(row_of(alloc, word)?)?;
    }
    let mut misplaced: u32 = 0;
    for (place, one) in rows.iter().enumerate() {
        misplaced = misplaced.saturating_add(misplaced_rows(&rows, place, one)?);
        writeln!(out, "{} values", one.get().len())?;
    }
    print_misplaced(rows.len(), misplaced, out)
}

// Prints how a copy of the text compares with it, and the copy's bytes.
fn print_copy(text: &Text, out: &mut String) -> Result<(), AllocError> {
    let copy = text.try_copy()?;
    writeln!(out, "{:?}", copy.compare(text))?;
    writeln!(out, "{}", copy.get())
}

// Prints how the first text compares with the second.
fn print_compared(first: &Text, second: &Text, out: &mut String) -> Result<(), AllocError> {
    writeln!(out, "{:?}", first.compare(second))
}

/// Prints how the first text compares with the second, and how a copy of the second compares with it, with its bytes.
pub(crate) fn print_texts(
    alloc: Global,
    first: &str,
    second: &str,
    out: &mut String,
) -> Result<(), AllocError> {
    let first = Text::of(text_of(alloc, first)?);
    let second = Text::of(text_of(alloc, second)?);
    print_compared(&first, &second, out)?;
    print_copy(&second, out)
}

fn fragments_of(alloc: Global, words: &[&str]) -> Result<Vec<Fragment>, AllocError> {
    let mut fragments = Vec::new(alloc);
    for word in words {
        if let Some(fragment) = fragment_of(alloc, word)? {
            fragments.push(fragment)?;
        }
    }
    Ok(fragments)
}

fn print_fragment(fragment: &Fragment, out: &mut String) -> Result<(), AllocError> {
    let copy = fragment.try_copy()?;
    for value in copy.values.get() {
        push_value(value, out)?;
    }
    push_period(&copy.period, out)?;
    writeln!(out, " {:?}", copy.compare(fragment))
}

/// Prints the fragments in order, and how a copy of each compares with it.
pub(crate) fn print_fragments(
    alloc: Global,
    words: &[&str],
    out: &mut String,
) -> Result<(), AllocError> {
    let mut fragments = fragments_of(alloc, words)?;
    fragments.sort_unstable();
    let fragments = List::of(fragments).into_vec();
    for fragment in &fragments {
        print_fragment(fragment, out)?;
    }
    Ok(())
}

/// Prints the normalized key of a value.
pub(crate) fn print_rank(alloc: Global, word: &str, out: &mut String) -> Result<(), AllocError> {
    let prefix = normalized_key(&value_of(alloc, word)?);
    writeln!(out, "{prefix:#x}")
}

/// Prints how many bytes a value takes.
pub(crate) fn print_size(out: &mut String) -> Result<(), AllocError> {
    writeln!(out, "{}", mem::size_of::<Value>())
}
