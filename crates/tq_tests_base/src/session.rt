//! The lists of rows of a script, by their names, and its calls.

ghost use Rattle.std.specs.Thread.{IsSync};

use crate::drawing::{
    compare_pictures, print_amounts, print_by_time, print_page, print_picture, print_report,
    print_typed, window_of,
};
use crate::grouping::{count, group};
use crate::lists::{show, show_counts};
use crate::output::{print_faults, print_memory, print_text, send, send_bytes, send_short};
use crate::relations::{print_lent, print_pairs, print_picked};
use crate::sort_input::{print_sorted, print_sorted_list, print_within};
use crate::tests::{check, check_chains, may_pass};
use crate::totals::{print_calendar, print_totals};
use crate::values::print_of_numbers;
use crate::words::{columns_of, period_of};
use std::alloc::{AllocError, Global};
use std::sync::Wait;
use std::thread::Threads;
use tq_base::{Form, Rows};
use tq_draw::Workers;
use tq_tests_script::{Block, Suite, print_nothing};

#[derive(Drop)]
struct List {
    name: String,
    rows: Rows,
}

/// The lists so far.
#[derive(Drop)]
pub(crate) struct Session {
    lists: Vec<List>,
}

impl Session {
    /// No lists.
    pub(crate) fn new(alloc: Global) -> Session {
        Session {
            lists: Vec::new(alloc),
        }
    }

    /// The last list with the name.
    pub(crate) fn find(&self, name: &str) -> Option<&Rows> {
        let mut found = None;
        for list in &self.lists {
            if list.name.as_str() == name {
                found = Some(&list.rows);
            }
        }
        found
    }

    // Gives the rows this name.
    fn take_rows(&mut self, alloc: Global, name: &str, rows: Rows) -> Result<(), AllocError> {
        let name = String::from_str(alloc, name)?;
        self.lists.push(List { name, rows })?;
        Ok(())
    }

    fn sorted(
        &self,
        alloc: Global,
        columns: &str,
        names: &[&str],
        out: &mut String,
    ) -> Result<(), AllocError> {
        let columns = columns_of(alloc, columns)?;
        match names {
            [list] => match self.find(list) {
                Some(rows) => print_sorted_list(alloc, &columns, rows, out),
                None => print_nothing(out),
            },
            [left, right] => match (self.find(left), self.find(right)) {
                (Some(left), Some(right)) => print_sorted(alloc, &columns, left, right, out),
                _ => print_nothing(out),
            },
            _ => print_nothing(out),
        }
    }

    // Prints the rows of the list that overlap the window.
    fn within(
        &self,
        alloc: Global,
        [start, end, name]: [&str; 3],
        out: &mut String,
    ) -> Result<(), AllocError> {
        match (self.find(name), period_of(start, end)) {
            (Some(rows), Some(window)) => print_within(alloc, rows, &window, out),
            _ => print_nothing(out),
        }
    }

    fn take_row_periods(
        &self,
        alloc: Global,
        name: &str,
        ends: [&str; 6],
        out: &mut String,
    ) -> Result<(), AllocError> {
        let one = period_of(ends[0], ends[1]);
        let two = period_of(ends[2], ends[3]);
        let three = period_of(ends[4], ends[5]);
        match (self.find(name), one, two, three) {
            (Some(rows), Some(one), Some(two), Some(three)) => {
                print_picked(alloc, rows, [one, two, three], out)
            }
            _ => print_nothing(out),
        }
    }

    fn pairs(
        &self,
        alloc: Global,
        [left, right, start, end]: [&str; 4],
        out: &mut String,
    ) -> Result<(), AllocError> {
        match (self.find(left), self.find(right), period_of(start, end)) {
            (Some(left), Some(right), Some(at)) => print_pairs(alloc, left, right, at, out),
            _ => print_nothing(out),
        }
    }

    // Runs a call for several lists, by their names.
    fn compare(
        &self,
        alloc: Global,
        word: &str,
        words: &[&str],
        out: &mut String,
    ) -> Result<(), AllocError> {
        match (word, words) {
            ("sorted", [columns, names @ ..]) => self.sorted(alloc, columns, names, out),
            ("within", [start, end, name]) => self.within(alloc, [*start, *end, *name], out),
            ("lent", [name]) => match self.find(name) {
                Some(rows) => print_lent(alloc, rows, out),
                None => print_nothing(out),
            },
            ("pick", [name, a, b, c, d, e, f]) => {
                self.take_row_periods(alloc, name, [*a, *b, *c, *d, *e, *f], out)
            }
            ("pairs", [left, right, start, end]) => {
                self.pairs(alloc, [*left, *right, *start, *end], out)
            }
            _ => print_of_numbers(alloc, word, words, out),
        }
    }

    // Runs a call that draws a list.
    fn draw<R: Threads + Sync>(
        &self,
        workers: &Workers<'_, R>,
        word: &str,
        from: &str,
        words: &[&str],
        out: &mut String,
    ) -> Result<(), AllocError>
        requires { IsSync R.row }
    {
        let Some(rows) = self.find(from) else {
            return print_nothing(out);
        };
        match (word, words) {
            ("draw", [width, names @ ..]) => {
                print_picture(workers, rows, names, width, Form::Numbers, None, out)
            }
            ("draw-window", [start, end, width, names @ ..]) => {
                let window = window_of(start, end);
                print_picture(workers, rows, names, width, Form::Numbers, window, out)
            }
            ("draw-dates", [width, names @ ..]) => {
                print_picture(workers, rows, names, width, Form::Dates, None, out)
            }
            ("page", names) => print_page(workers, rows, names, out),
            ("pictures", names) => compare_pictures(workers, rows, names, out),
            _ => print_nothing(out),
        }
    }

    // Runs a call that prints a list.
    fn print(
        &self,
        alloc: Global,
        word: &str,
        from: &str,
        words: &[&str],
        out: &mut String,
    ) -> Result<(), AllocError> {
        let Some(rows) = self.find(from) else {
            return print_nothing(out);
        };
        match (word, words) {
            ("show", []) => show(alloc, rows, out),
            ("counts", [count]) => show_counts(rows, count.parse().unwrap_or(0), out),
            ("coalesce", _) => print_text(alloc, rows, words, true, out),
            ("write", _) => print_text(alloc, rows, words, false, out),
            ("report", [format, names @ ..]) => {
                print_report(alloc, rows, names, format, Form::Numbers, out)
            }
            ("report-dates", [format, names @ ..]) => {
                print_report(alloc, rows, names, format, Form::Dates, out)
            }
            ("report-amounts", [format, places, names @ ..]) => {
                print_amounts(alloc, rows, names, format, places, out)
            }
            ("by-time", names) => print_by_time(alloc, rows, names, out),
            ("typed", names) => print_typed(alloc, rows, names, out),
            ("totals", [groups, names @ ..]) => print_totals(alloc, rows, groups, "", names, out),
            ("total-amounts", [groups, places, names @ ..]) => {
                print_totals(alloc, rows, groups, places, names, out)
            }
            ("send", _) => send(alloc, rows, words, out),
            ("send-short", _) => send_short(alloc, rows, words, out),
            _ => print_nothing(out),
        }
    }

    // Runs a call for rows.
    fn answer(
        &self,
        alloc: Global,
        word: &str,
        words: &[&str],
        out: &mut String,
    ) -> Result<(), AllocError> {
        match (word, words) {
            ("check", [row, tests @ ..]) => check(alloc, row, tests, out),
            ("may", [value, place, tests @ ..]) => {
                may_pass(alloc, value, place.parse().unwrap_or(0), tests, out)
            }
            ("chain", [count]) => check_chains(alloc, count.parse().unwrap_or(0), out),
            ("group", [start, end, keys, sums, rows @ ..]) => {
                group(alloc, [*start, *end, *keys, *sums], rows, out)
            }
            ("count", [start, end, rows @ ..]) => match period_of(start, end) {
                Some(window) => count(alloc, &window, rows, out),
                None => print_nothing(out),
            },
            ("short", [room, at_end, flushes, text]) => {
                send_bytes(alloc, [*room, *at_end, *flushes, *text], out)
            }
            ("sent", [text]) => print_memory(alloc, text, out),
            ("faults", []) => print_faults(out),
            ("calendar", [unit, start, end]) => print_calendar(alloc, unit, start, end, out),
            (
                "show"
                | "counts"
                | "coalesce"
                | "write"
                | "report"
                | "report-dates"
                | "report-amounts"
                | "by-time"
                | "typed"
                | "totals"
                | "total-amounts"
                | "send"
                | "send-short",
                [from, words @ ..],
            ) => self.print(alloc, word, from, words, out),
            _ => self.compare(alloc, word, words, out),
        }
    }

    // Runs the call of the line, and writes its output.
    fn call<R: Threads + Sync>(
        &mut self,
        rt: &R,
        alloc: Global,
        line: &str,
        out: &mut String,
    ) -> Result<(), AllocError>
        requires { IsSync R.row }
    {
        let words: Vec<&str> = line.split_whitespace().collect(alloc)?;
        match words.as_slice() {
            [] | ["#", ..] => Ok(()),
            [
                word @ ("rows"
                | "rising"
                | "project"
                | "merge"
                | "select"
                | "join"
                | "join-all"
                | "except"),
                to,
                words @ ..,
            ] => {
                match self.make(alloc, word, words)? {
                    Some(rows) => self.take_rows(alloc, to, rows),
                    None => print_nothing(out),
                }
            }
            [
                word @ ("draw" | "draw-dates" | "draw-window" | "page" | "pictures"),
                from,
                words @ ..,
            ] => {
                let workers = Workers {
                    rt,
                    alloc,
                    count: 1,
                };
                self.draw(&workers, word, from, words, out)
            }
            [word, words @ ..] => self.answer(alloc, word, words, out),
        }
    }
}

impl Suite for Session {
    fn run<R: Threads + Wait + Sync>(
        &mut self,
        rt: &R,
        alloc: Global,
        block: &Block,
        out: &mut String,
    ) -> Result<(), AllocError>
        requires { IsSync R.row }
    {
        self.call(rt, alloc, block.call.as_str(), out)
    }
}
