//! The meaning of words, and the text of values.

use std::alloc::{AllocError, Global};
use std::fmt::Write;
use tq_base::{Bound, FOREVER, Instant, Period, Value, ValueRef, Values};
use tq_tests_script::unescape_text;

// The instant or bound of a word.
fn number_of(word: &str) -> Option<u64> {
    match word {
        "forever" => Some(FOREVER),
        _ => word.parse().ok(),
    }
}

/// The instant of a word.
pub(crate) fn instant_of(word: &str) -> Option<Instant> {
    Instant::new(number_of(word)?)
}

/// The period between two numbers.
pub(crate) fn period_between(start: u64, end: u64) -> Option<Period> {
    Period::new(Instant::new(start)?, Bound::new(end)?)
}

/// The period between two words.
pub(crate) fn period_of(start: &str, end: &str) -> Option<Period> {
    period_between(number_of(start)?, number_of(end)?)
}

/// The text of a word.
pub(crate) fn text_of(alloc: Global, word: &str) -> Result<String, AllocError> {
    let (word, times) = word.split_once('^').unwrap_or((word, "1"));
    let once = unescape_text(alloc, word)?;
    let times: u32 = times.parse().unwrap_or(0);
    let mut text = String::new(alloc);
    for _ in 0..times {
        text.push_str(once.as_str())?;
    }
    Ok(text)
}

fn text_value(alloc: Global, word: &str) -> Result<Value, AllocError> {
    Value::text(alloc, text_of(alloc, word)?.as_str())
}

/// The value of a word.
pub(crate) fn value_of(alloc: Global, word: &str) -> Result<Value, AllocError> {
    if let Some(text) = word.strip_prefix('\'') {
        return text_value(alloc, text);
    }
    match word.parse::<i128>() {
        Ok(number) => Value::number(alloc, number),
        Err(_) => text_value(alloc, word),
    }
}

/// The values of words; `-` is none.
pub(crate) fn values_of(alloc: Global, words: &[&str]) -> Result<Vec<Value>, AllocError> {
    let mut values = Vec::new(alloc);
    for word in words {
        if *word != "-" {
            values.push(value_of(alloc, word)?)?;
        }
    }
    Ok(values)
}

/// The values of a word, separated by commas.
pub(crate) fn row_of(alloc: Global, word: &str) -> Result<Values, AllocError> {
    let words: Vec<&str> = word.split(',').collect(alloc)?;
    Ok(Values::of(values_of(alloc, &words)?))
}

/// Prints the text, with some characters after a backslash.
pub(crate) fn push_text(text: &str, out: &mut String) -> Result<(), AllocError> {
    for letter in text.chars() {
        match letter {
            '\n' => out.push_str("\\n")?,
            '\r' => out.push_str("\\r")?,
            '\t' => out.push_str("\\t")?,
            '\0' => out.push_str("\\0")?,
            _ => out.push(letter)?,
        }
    }
    Ok(())
}

/// The columns of a word, separated by commas; `-` has none.
pub(crate) fn columns_of(alloc: Global, word: &str) -> Result<Vec<u32>, AllocError> {
    let mut columns = Vec::new(alloc);
    for column in word.split(',') {
        if let Ok(column) = column.parse() {
            columns.push(column)?;
        }
    }
    Ok(columns)
}

/// Prints the value, with a comma after it.
pub(crate) fn push_value(value: &Value, out: &mut String) -> Result<(), AllocError> {
    match value.as_ref() {
        ValueRef::Int(number) => write!(out, "{number},"),
        ValueRef::Text(text) => {
            push_text(text, out)?;
            out.push(',')
        }
    }
}

/// Prints the start and the end of a period.
pub(crate) fn push_period(period: &Period, out: &mut String) -> Result<(), AllocError> {
    write!(out, "{},{}", period.start.number(), period.end.number())
}
