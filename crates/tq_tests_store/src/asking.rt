//! Queries of a database.

use std::alloc::AllocError;
use tq_arena::Meter;
use tq_base::{Bound, Instant, KeyRange, Period};
use tq_scan::Part;
use tq_store::{Db, Row};

/// A query: the count of events, the table, the range of keys, and the period.
#[derive(Clone, Copy)]
pub(crate) struct Question {
    pub(crate) n: u32,
    pub(crate) table: u32,
    pub(crate) range: KeyRange,
    pub(crate) period: Period,
}

/// The instant of this number.
pub(crate) fn instant_of(number: i64) -> Option<Instant> {
    Instant::new(u64::try_from(number).ok()?)
}

/// The period from one number to the other.
pub(crate) fn period_of(start: i64, end: i64) -> Option<Period> {
    let end = Bound::new(u64::try_from(end).ok()?)?;
    Period::new(instant_of(start)?, end)
}

/// The query of these numbers: the count of events, the table, the range of keys, and the period.
pub(crate) fn question_of(numbers: &[i64]) -> Option<Question> {
    match numbers {
        [n, table, low, high, start, end] => Some(Question {
            n: u32::try_from(*n).ok()?,
            table: u32::try_from(*table).ok()?,
            range: KeyRange::new(*low, *high)?,
            period: period_of(*start, *end)?,
        }),
        _ => None,
    }
}

/// The rows of the query in the part, if query and part are those of some window.
pub(crate) fn ask_part(
    db: &Db,
    question: &Question,
    part: &Part,
    meter: &mut Meter,
) -> Result<Option<Vec<Row>>, AllocError> {
    let Question {
        n,
        table,
        range,
        period,
    } = question;
    if *n > db.count() || (*table as usize) >= db.catalogue().tables.get().len() {
        return Ok(None);
    }
    let window = db.window(*n, *table, range, period);
    if !part.inside(&window) {
        return Ok(None);
    }
    Ok(Some(db.rows_part(*n, *table, range, period, part, meter)?))
}

/// The rows of the query, if there are enough events.
pub(crate) fn ask(
    db: &Db,
    question: &Question,
    meter: &mut Meter,
) -> Result<Option<Vec<Row>>, AllocError> {
    if question.n > db.count() {
        return Ok(None);
    }
    let window = db.window(
        question.n,
        question.table,
        &question.range,
        &question.period,
    );
    ask_part(db, question, &window.whole(), meter)
}
