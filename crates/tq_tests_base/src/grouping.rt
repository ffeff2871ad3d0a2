//! Counts, sums and groups of rows of a text and a number each.

ghost use Rattle.std.specs.Prelude.{◌≡◌, ℕ, All, FitsSigned, IfOk, OnOk};
ghost use Rattle.std.specs.Int.{w64};
ghost use Rattle.tq_base.specs.declared.fragment.Fragment.{Fragment};
ghost use Rattle.tq_base.specs.RowValues.{number_of, value_at};
ghost use Rattle.tq_agg.specs.Grouping.{AreSummable};

use crate::lists::show;
use crate::words::{columns_of, period_of, text_of};
use std::alloc::{AllocError, Global};
use tq_agg::{count_all, group_count_sum};
use tq_base::{Period, Relation, Rows, Value};
use tq_tests_script::print_nothing;

/// The row of a word.
#[derive(Drop)]
struct Printed {
    content: String,
    number: i64,
    period: Period,
}

fn read_told(alloc: Global, word: &str) -> Result<Option<Printed>, AllocError> {
    let parts: Vec<&str> = word.split(',').collect(alloc)?;
    let [content, number, start, end] = parts.as_slice() else {
        return Ok(None);
    };
    let (Ok(number), Some(period)) = (number.parse(), period_of(start, end)) else {
        return Ok(None);
    };
    let content = text_of(alloc, content)?;
    Ok(Some(Printed {
        content,
        number,
        period,
    }))
}

// Adds a row with a text and a number at the end of the list.
fn add_pair(
    alloc: Global,
    content: &str,
    number: i64,
    period: Period,
    rows: &mut Rows,
) -> Result<(), AllocError>
    requires { rows.old.width ≡ 2 }
    ensures width { rows.new.width ≡ 2 }
    ensures small { OnOk result (All (λ (row : Fragment). (place : ℕ) → FitsSigned w64 (number_of (value_at row.values place))) rows.old.items
        → All (λ (row : Fragment). (place : ℕ) → FitsSigned w64 (number_of (value_at row.values place))) rows.new.items) }
{
    let text = Value::text(alloc, content)?;
    rows.push_copy(&[text, Value::int(number)], period)?;
    Ok(())
}

// The rows of the words.
fn pairs(alloc: Global, words: &[&str]) -> Result<Rows, AllocError>
    ensures { IfOk result (λ rows. All (λ (row : Fragment). (place : ℕ) → FitsSigned w64 (number_of (value_at row.values place))) rows.items) }
{
    let mut rows = Rows::new(alloc, 2);
    'rows: for word in words {
        if let Some(printed) = read_told(alloc, word)? {
            let Printed {
                content,
                number,
                period,
            } = printed;
            add_pair(alloc, content.as_str(), number, period, &mut rows)?;
        }
    }
    Ok(rows)
}

fn grouped(
    alloc: Global,
    rows: &Rows,
    window: &Period,
    keys: &[u32],
    sums: &[u32],
) -> Result<Rows, AllocError>
    requires { All (λ (row : Fragment). AreSummable sums.now row.values) rows.now.items }
{
    let relation = Relation::of(alloc, rows)?;
    group_count_sum(alloc, &relation, window, keys, sums)
}

/// Prints the groups with these keys, with their counts and the sums of no column, of column 1, or of columns 1 and 0.
pub(crate) fn group(
    alloc: Global,
    [start, end, keys, sums]: [&str; 4],
    words: &[&str],
    out: &mut String,
) -> Result<(), AllocError> {
    let Some(window) = period_of(start, end) else {
        return print_nothing(out);
    };
    let keys = columns_of(alloc, keys)?;
    let rows = pairs(alloc, words)?;
    let groups = match sums {
        "-" => grouped(alloc, &rows, &window, &keys, &[])?,
        "1" => grouped(alloc, &rows, &window, &keys, &[1])?,
        "1,0" => grouped(alloc, &rows, &window, &keys, &[1, 0])?,
        _ => return print_nothing(out),
    };
    show(alloc, &groups, out)
}

/// Prints the number of rows at each instant of the window.
pub(crate) fn count(
    alloc: Global,
    window: &Period,
    words: &[&str],
    out: &mut String,
) -> Result<(), AllocError> {
    let rows = pairs(alloc, words)?;
    let relation = Relation::of(alloc, &rows)?;
    show(alloc, &count_all(alloc, &relation, window)?, out)
}
