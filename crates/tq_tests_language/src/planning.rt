//! The tables over which statements are planned.

use crate::asking::{Asked, ask, ask_chain, ask_detail, ask_plan_detail, ask_window};
use crate::plans::print_faults;
use std::alloc::{AllocError, Global};
use std::fmt::Write;
use tq_base::{Catalogue, Form, List};
use tq_event::{TableFile, load};
use tq_tests_script::{number_and, print_nothing};

/// The tables over which statements are planned.
#[derive(Drop)]
pub(crate) struct Planning {
    catalogue: Catalogue,
}

// The property of a statement's plan in a call with this word, and the statement.
fn asked_of<'a>(word: &str, rest: &'a str) -> Option<(Asked, &'a str)> {
    match word {
        "plan" => Some((Asked::IsThere, rest)),
        "names" => Some((Asked::Names, rest)),
        "show" => Some((Asked::Queries, rest)),
        "copy" => Some((Asked::Copy, rest)),
        "keys" => {
            let (side, rest) = number_and(rest);
            let (source, rest) = number_and(rest);
            Some((Asked::Keys { side, source }, rest))
        }
        _ => None,
    }
}

impl Planning {
    /// No tables.
    pub(crate) fn new(alloc: Global) -> Planning {
        let none = List::of(Vec::new(alloc));
        Planning {
            catalogue: Catalogue { tables: none },
        }
    }

    /// Sets the tables to those of the files.
    pub(crate) fn load(
        &mut self,
        alloc: Global,
        files: Vec<TableFile>,
        out: &mut String,
    ) -> Result<(), AllocError> {
        match load(alloc, files, 1000, Form::Numbers) {
            Ok(loaded) => {
                self.catalogue = loaded.catalogue;
                Ok(())
            }
            Err(fault) => writeln!(out, "{fault}"),
        }
    }

    // Runs a call for a plan.
    fn answer(
        &self,
        alloc: Global,
        word: &str,
        rest: &str,
        out: &mut String,
    ) -> Result<(), AllocError> {
        match word {
            "window" => ask_window(alloc, &self.catalogue, rest, Form::Numbers, out),
            "dates" => ask_window(alloc, &self.catalogue, rest, Form::Dates, out),
            "chain" => {
                let (count, parts) = number_and(rest);
                ask_chain(alloc, &self.catalogue, count, parts, out)
            }
            _ => match asked_of(word, rest) {
                Some((asked, statement)) => ask(
                    alloc,
                    &self.catalogue,
                    statement,
                    asked,
                    Form::Numbers,
                    out,
                ),
                None => print_nothing(out),
            },
        }
    }

    /// Runs a call for a statement.
    pub(crate) fn call(
        &self,
        alloc: Global,
        word: &str,
        rest: &str,
        out: &mut String,
    ) -> Result<(), AllocError> {
        match word {
            "plan-faults" => print_faults(out),
            "explain" => ask_detail(alloc, rest, out),
            "why" => ask_plan_detail(alloc, &self.catalogue, rest, Form::Numbers, out),
            _ => self.answer(alloc, word, rest, out),
        }
    }
}
