//! The rows of the parts of a window.

use crate::asking::{Question, question_of};
use crate::printing::print_list;
use std::alloc::{AllocError, Global};
use tq_base::Rows;
use tq_scan::Part;
use tq_store::{Db, least_tree_key};
use tq_tests_script::print_nothing;

// The rows of the part, with copied values, if query and part are those of some window.
fn list_part(
    alloc: Global,
    db: &Db,
    question: &Question,
    part: &Part,
) -> Result<Option<Rows>, AllocError> {
    let Question {
        n,
        table,
        range,
        period,
    } = question;
    if *n > db.count() {
        return Ok(None);
    }
    let window = db.window(*n, *table, range, period);
    if !part.inside(&window) {
        return Ok(None);
    }
    let rows = db.rows_of_part(alloc, *n, *table, range, period, part)?;
    Ok(Some(rows.copied(alloc)?))
}

// The parts of the query's window, cut at the key and the version, if it can be cut there.
fn parts_of(
    alloc: Global,
    db: &Db,
    question: &Question,
    key: i64,
    version: u32,
) -> Result<Vec<Part>, AllocError> {
    if question.n > db.count() {
        return Ok(Vec::new(alloc));
    }
    let window = db.window(
        question.n,
        question.table,
        &question.range,
        &question.period,
    );
    let keys = [least_tree_key(key)];
    let versions = [version];
    if !window.admits(&keys, &versions) {
        return Ok(Vec::new(alloc));
    }
    tq_scan::cut(alloc, &window, &keys, &versions)
}

/// Prints the rows of each part of a window of all keys that is cut at a key and at a version.
pub(crate) fn print_parts(
    alloc: Global,
    db: &Db,
    numbers: &[i64],
    out: &mut String,
) -> Result<(), AllocError> {
    let [n, table, key, version, start, end] = numbers else {
        return print_nothing(out);
    };
    let Some(question) = question_of(&[*n, *table, i64::MIN, i64::MAX, *start, *end]) else {
        return print_nothing(out);
    };
    let version = u32::try_from(*version).unwrap_or(0);
    let parts = parts_of(alloc, db, &question, *key, version)?;
    if parts.is_empty() {
        return print_nothing(out);
    }
    for part in &parts {
        match list_part(alloc, db, &question, part)? {
            Some(rows) => print_list(&rows, out)?,
            None => print_nothing(out)?,
        }
    }
    Ok(())
}
