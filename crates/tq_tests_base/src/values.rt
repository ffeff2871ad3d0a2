//! Calls for numbers, periods, values, names and texts.

use crate::dates::{print_date, print_day, print_days};
use crate::names::{
    print_count_name, print_instant, print_instants, print_int, print_name, print_natural,
    print_same, print_word,
};
use crate::orders::{
    print_fragments, print_order, print_rank, print_rows_order, print_size, print_texts,
};
use crate::periods::{print_both, print_holds};
use crate::pushing::{print_copied, print_empty, print_pushed};
use crate::relations::print_owned;
use crate::sort_input::print_many;
use crate::tables::{print_fits, print_table, print_takes};
use crate::with_columns::print_kept;
use crate::words::text_of;
use std::alloc::{AllocError, Global};
use tq_tests_script::print_nothing;

// Runs a call for a text.
fn print_of_text(
    alloc: Global,
    word: &str,
    written: &str,
    out: &mut String,
) -> Result<(), AllocError> {
    let text = text_of(alloc, written)?;
    let bytes = text.as_bytes();
    match word {
        "int" => print_int(bytes, out),
        "instant" => print_instant(bytes, out),
        "date" => print_date(bytes, out),
        "day" => print_day(text.as_str().parse().unwrap_or(0), out),
        "days" => print_days(text.as_str().parse().unwrap_or(0), out),
        "instants" => print_instants(text.as_str().parse().unwrap_or(0), out),
        "name" => print_name(alloc, bytes, out),
        "word" => print_word(alloc, bytes, out),
        "count-name" => print_count_name(alloc, out),
        "table" => print_table(alloc, text.as_str(), out),
        "copied" => print_copied(alloc, written, out),
        _ => print_nothing(out),
    }
}

// Runs a call for values.
fn print_of_values(
    alloc: Global,
    word: &str,
    words: &[&str],
    out: &mut String,
) -> Result<(), AllocError> {
    match (word, words) {
        ("order", _) => print_order(alloc, words, out),
        ("rows-order", _) => print_rows_order(alloc, words, out),
        ("fragments", _) => print_fragments(alloc, words, out),
        ("texts", [first, second]) => print_texts(alloc, first, second, out),
        ("rank", [value]) => print_rank(alloc, value, out),
        ("size", []) => print_size(out),
        ("takes", [value]) => print_takes(alloc, value, out),
        ("fits", [row]) => print_fits(alloc, row, out),
        (_, [text]) => print_of_text(alloc, word, text, out),
        (_, []) => print_of_text(alloc, word, "", out),
        _ => print_nothing(out),
    }
}

/// Runs a call for numbers, periods, values, names or texts.
pub(crate) fn print_of_numbers(
    alloc: Global,
    word: &str,
    words: &[&str],
    out: &mut String,
) -> Result<(), AllocError> {
    match (word, words) {
        ("natural", [most, text]) => {
            print_natural(most.parse().unwrap_or(0), text.as_bytes(), out)
        }
        ("same", [left, right]) => print_same(left, right, out),
        ("holds", [start, end, instants @ ..]) => print_holds(start, end, instants, out),
        ("periods", [start, end, other_start, other_end]) => {
            print_both([*start, *end, *other_start, *other_end], out)
        }
        ("many", [count]) => print_many(alloc, count.parse().unwrap_or(0), out),
        ("pushed", [count]) => print_pushed(alloc, count.parse().unwrap_or(0), out),
        ("kept", [letters, others, rows @ ..]) => print_kept(alloc, letters, others, rows, out),
        ("empty", [count]) => print_empty(alloc, count.parse().unwrap_or(0), out),
        ("owned", [width, rows @ ..]) => {
            print_owned(alloc, width.parse().unwrap_or(0), rows, out)
        }
        _ => print_of_values(alloc, word, words, out),
    }
}
