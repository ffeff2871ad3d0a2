//! Random events, and random queries as of random counts, compared with a plain list of rows.

use crate::asking::{Question, ask_part};
use crate::history::Known;
use std::alloc::{AllocError, Global};
use tq_arena::Meter;
use tq_base::{Bound, FOREVER, Instant, KeyRange, Period, ValueRef};
use tq_scan::{Part, Window, cut};
use tq_store::Row;
use tq_tests_script::{Draws, print_nothing};

/// A row as of a count of events: its key, its number, and the start and the end of its period.
type Shown = (i64, u32, u64, u64);

// A number of 64 bits: a small one, the least or the greatest.
fn draw_key(draws: &mut Draws) -> i64 {
    let drawn = draws.below(20) as i64;
    match draws.below(40) {
        0 => i64::MIN,
        1 => i64::MAX,
        _ => drawn.wrapping_sub(10),
    }
}

// A random event.
fn step(alloc: Global, known: &mut Known, draws: &mut Draws) -> Result<(), AllocError> {
    let at = known.last.saturating_add(draws.below(5)).saturating_sub(1);
    if known.rows.is_empty() || draws.below(16) < 9 {
        let table = draws.below(2) as u32;
        let key = draw_key(draws);
        known.start(alloc, table, key, at)
    } else {
        let place = draws.below(known.rows.len() as u64) as usize;
        known.end(place, at)
    }
}

// The result by the plain list of rows, in the order of keys and numbers.
fn expected(alloc: Global, known: &Known, question: &Question) -> Result<Vec<Shown>, AllocError> {
    let mut rows = Vec::new(alloc);
    for row in &known.rows {
        let to = match row.end {
            Some((event, at)) if event < question.n => at,
            _ => FOREVER,
        };
        let asked = row.table == question.table && row.start < question.n;
        let in_range = question.range.low <= row.key && row.key <= question.range.high;
        let period = &question.period;
        if asked && in_range && row.from < period.end.number() && period.start.number() < to {
            rows.push((row.key, row.row, row.from, to))?;
        }
    }
    rows.sort()?;
    Ok(rows)
}

// The key, the number and the period of the row.
fn shown(row: &Row) -> Shown {
    let key = match row.values.get().first().map(|value| value.as_ref()) {
        Some(ValueRef::Int(number)) => i64::try_from(number).unwrap_or(0),
        _ => 0,
    };
    let Period { start, end } = row.period;
    (key, row.row, start.number(), end.number())
}

// A period that starts at the latest at the instant after the last one.
fn draw_period(last: u64, draws: &mut Draws) -> Option<Period> {
    let start = draws.below(last.saturating_add(2));
    let length = [1, 1, 7, 60, FOREVER][draws.below(5) as usize];
    let end = start.saturating_add(length).min(FOREVER);
    Period::new(Instant::new(start)?, Bound::new(end)?)
}

// A random query as of a random count.
fn draw_question(known: &Known, draws: &mut Draws) -> Option<Question> {
    let low = draw_key(draws);
    let high = draw_key(draws);
    let period = draw_period(known.last, draws)?;
    Some(Question {
        n: draws.below(u64::from(known.db.count()) + 1) as u32,
        table: draws.below(2) as u32,
        range: KeyRange::new(low.min(high), low.max(high))?,
        period,
    })
}

// Some versions at which the window can be cut.
fn draw_cuts(alloc: Global, window: &Window, draws: &mut Draws) -> Result<Vec<u32>, AllocError> {
    let mut cuts = Vec::new(alloc);
    for _ in 0..draws.below(4) {
        let versions = window.last.wrapping_sub(window.first) as u64;
        if versions > 0 {
            let versions = draws.below(versions) as u32;
            cuts.push(window.first.wrapping_add(versions).wrapping_add(1))?;
        }
    }
    cuts.sort()?;
    cuts.dedup();
    Ok(cuts)
}

// The query's window, cut at random versions, if there are enough events.
fn draw_parts(
    alloc: Global,
    known: &Known,
    question: &Question,
    draws: &mut Draws,
) -> Result<Option<Vec<Part>>, AllocError> {
    if question.n > known.db.count() {
        return Ok(None);
    }
    let Question {
        n,
        table,
        range,
        period,
    } = question;
    let window = known.db.window(*n, *table, range, period);
    let cuts = draw_cuts(alloc, &window, draws)?;
    if !window.admits(&[], &cuts) {
        return Ok(None);
    }
    Ok(Some(cut(alloc, &window, &[], &cuts)?))
}

// The rows of the parts, in the order of keys and numbers, if the parts are those of the query.
fn found(
    alloc: Global,
    known: &Known,
    question: &Question,
    parts: &[Part],
) -> Result<Option<Vec<Shown>>, AllocError> {
    let mut rows = Vec::new(alloc);
    for part in parts {
        let Some(more) = ask_part(&known.db, question, part, &mut Meter::new())? else {
            return Ok(None);
        };
        for row in &more {
            rows.push(shown(row))?;
        }
    }
    rows.sort()?;
    Ok(Some(rows))
}

// Whether the parts of a random query's window have the rows of the plain list, each once.
fn is_answered(alloc: Global, known: &Known, draws: &mut Draws) -> Result<bool, AllocError> {
    let Some(question) = draw_question(known, draws) else {
        return Ok(false);
    };
    let Some(parts) = draw_parts(alloc, known, &question, draws)? else {
        return Ok(false);
    };
    let rows = found(alloc, known, &question, &parts)?;
    Ok(rows == Some(expected(alloc, known, &question)?))
}

/// Random events, and a random query after every fourth. Prints whether all results were those of a list of rows, and
/// whether there were a thousand events.
pub(crate) fn random_rows(
    alloc: Global,
    seed: u64,
    rounds: u64,
    out: &mut String,
) -> Result<(), AllocError> {
    let mut draws = Draws::new(seed);
    let Some(mut known) = Known::new(alloc)? else {
        return print_nothing(out);
    };
    for round in 0..rounds {
        step(alloc, &mut known, &mut draws)?;
        if round % 4 == 3 {
            let answered = is_answered(alloc, &known, &mut draws)?;
            known.expect(answered);
        }
    }
    known.print(out)
}
