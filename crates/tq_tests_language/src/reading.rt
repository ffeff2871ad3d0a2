//! Calls for files and for texts of statements.

use crate::faults::{print_load_faults, print_statement_faults};
use crate::statements::{print_beginnings, print_read};
use crate::tables::{
    print_columns, print_copies, print_load, print_number, print_record, print_tables,
};
use std::alloc::{AllocError, Global};
use tq_tests_script::{TableFiles, number_and, print_nothing, unescape};

/// The maximal number of events that are loaded.
#[derive(Drop)]
pub(crate) struct Reading {
    limit: u32,
}

impl Reading {
    /// At most a thousand events.
    pub(crate) fn new() -> Reading {
        Reading { limit: 1_000 }
    }

    // Runs a call for the files.
    fn ask(
        &self,
        alloc: Global,
        files: &TableFiles,
        word: &str,
        rest: &str,
        out: &mut String,
    ) -> Result<(), AllocError> {
        match word {
            "load" => print_load(alloc, files.copies(alloc)?, self.limit, out),
            "tables" => print_tables(alloc, files.copies(alloc)?, self.limit, out),
            "columns" => print_columns(alloc, files.copies(alloc)?, out),
            "number" => print_number(alloc, files.copies(alloc)?, rest, out),
            "copies" => print_copies(alloc, files.copies(alloc)?, out),
            "values" => {
                let bytes = unescape(alloc, rest)?;
                print_record(alloc, files.copies(alloc)?, &bytes, out)
            }
            _ => print_nothing(out),
        }
    }

    // Runs a call for a statement, or one without arguments.
    fn ask_text(
        &self,
        alloc: Global,
        files: &TableFiles,
        word: &str,
        rest: &str,
        out: &mut String,
    ) -> Result<(), AllocError> {
        match word {
            "read" => print_read(alloc, &unescape(alloc, rest)?, out),
            "beginnings" => print_beginnings(alloc, &unescape(alloc, rest)?, out),
            "load-faults" => print_load_faults(out),
            "statement-faults" => print_statement_faults(out),
            _ => self.ask(alloc, files, word, rest, out),
        }
    }

    /// Runs a call for the files or for a text; `read-last` removes all files.
    pub(crate) fn call(
        &mut self,
        alloc: Global,
        files: &mut TableFiles,
        word: &str,
        rest: &str,
        out: &mut String,
    ) -> Result<(), AllocError> {
        match word {
            "limit" => {
                self.limit = number_and(rest).0;
                Ok(())
            }
            "read-last" => {
                print_read(alloc, files.last_bytes(), out)?;
                *files = TableFiles::new(alloc);
                Ok(())
            }
            _ => self.ask_text(alloc, files, word, rest, out),
        }
    }
}
