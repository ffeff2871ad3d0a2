//! Lists of rows that operators make from others.

use crate::lists::{rising, rows_of};
use crate::operators::{joined, joined_all, left_over, merged, projected, selected};
use crate::session::Session;
use crate::tests::tests_of;
use crate::words::period_of;
use std::alloc::{AllocError, Global};
use tq_base::{Period, Rows};
use tq_condition::Test;

// The words before and after the word `if`.
fn divided<'a, 'b>(words: &'a [&'b str]) -> (&'a [&'b str], &'a [&'b str]) {
    for place in 0..words.len() {
        if words[place] == "if" {
            return (&words[..place], &words[place + 1..]);
        }
    }
    (words, &[])
}

impl Session {
    fn join(
        &self,
        alloc: Global,
        window: &Period,
        [left, right]: [&str; 2],
        test: Option<&Test>,
    ) -> Result<Option<Rows>, AllocError> {
        match (self.find(left), self.find(right)) {
            (Some(left), Some(right)) => Ok(Some(joined(alloc, left, right, window, test)?)),
            _ => Ok(None),
        }
    }

    fn except(
        &self,
        alloc: Global,
        window: &Period,
        [left, right]: [&str; 2],
    ) -> Result<Option<Rows>, AllocError> {
        match (self.find(left), self.find(right)) {
            (Some(left), Some(right)) => Ok(Some(left_over(alloc, left, right, window)?)),
            _ => Ok(None),
        }
    }

    fn join_all(
        &self,
        alloc: Global,
        window: &Period,
        first: &str,
        others: &[&str],
        test: Option<&Test>,
    ) -> Result<Option<Rows>, AllocError> {
        let mut rows = Vec::new(alloc);
        for other in others {
            match self.find(other) {
                Some(other) => rows.push(other)?,
                None => return Ok(None),
            }
        }
        match self.find(first) {
            Some(first) => Ok(Some(joined_all(alloc, first, &rows, window, test)?)),
            None => Ok(None),
        }
    }

    fn merge(
        &self,
        alloc: Global,
        width: usize,
        names: &[&str],
    ) -> Result<Option<Rows>, AllocError> {
        let mut lists = Vec::new(alloc);
        for name in names {
            match self.find(name) {
                Some(rows) => lists.push(rows)?,
                None => return Ok(None),
            }
        }
        Ok(Some(merged(alloc, width, &lists)?))
    }

    // The rows that an operator makes from the sources within the window.
    fn operate(
        &self,
        alloc: Global,
        operator: &str,
        window: &Period,
        words: &[&str],
    ) -> Result<Option<Rows>, AllocError> {
        let (sources, test) = divided(words);
        let tests = tests_of(alloc, test)?;
        let test = tests.first();
        match (operator, sources) {
            ("select", [from]) => match self.find(from) {
                Some(rows) => Ok(Some(selected(alloc, rows, window, test)?)),
                None => Ok(None),
            },
            ("join", [left, right]) => self.join(alloc, window, [*left, *right], test),
            ("except", [left, right]) => self.except(alloc, window, [*left, *right]),
            ("join-all", [first, others @ ..]) => {
                self.join_all(alloc, window, first, others, test)
            }
            _ => Ok(None),
        }
    }

    // Some columns of a list.
    fn project(
        &self,
        alloc: Global,
        from: &str,
        words: &[&str],
    ) -> Result<Option<Rows>, AllocError> {
        let mut columns = Vec::new(alloc);
        for word in words {
            columns.push(word.parse().unwrap_or(u32::MAX))?;
        }
        match self.find(from) {
            Some(rows) => Ok(Some(projected(alloc, rows, &columns)?)),
            None => Ok(None),
        }
    }

    /// The rows of a call with this word.
    pub(crate) fn make(
        &self,
        alloc: Global,
        word: &str,
        words: &[&str],
    ) -> Result<Option<Rows>, AllocError> {
        match (word, words) {
            ("rows", [width, words @ ..]) => {
                Ok(Some(rows_of(alloc, width.parse().unwrap_or(0), words)?))
            }
            ("rising", [count, length]) => match (count.parse(), length.parse()) {
                (Ok(count), Ok(length)) => Ok(Some(rising(alloc, count, length)?)),
                _ => Ok(None),
            },
            ("project", [from, columns @ ..]) => self.project(alloc, from, columns),
            ("merge", [width, names @ ..]) => {
                self.merge(alloc, width.parse().unwrap_or(0), names)
            }
            (_, [start, end, words @ ..]) => match period_of(start, end) {
                Some(window) => self.operate(alloc, word, &window, words),
                None => Ok(None),
            },
            _ => Ok(None),
        }
    }
}
