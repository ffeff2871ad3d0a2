//! Tests of reading files and statements, and of plans. Each block of stdin is a call and its output (tq_tests_script).
//! In addition to the calls that make table files there are:
//!
//!     limit COUNT                  at most COUNT events are loaded from now on; at first 1000
//!     load                         the events of the files, or their first fault
//!     tables                       the rows of their tables, or their first fault
//!     columns                      the tables and their columns
//!     number NAME                  the number of a table
//!     copies                       whether copies of the events print as the events do
//!     values TEXT                  the values of the text read as one record of the first table
//!     read TEXT                    the statement of the text, printed again, or its fault
//!     read-last                    the same for the bytes of the last file, in short if it is long; removes all files
//!     beginnings TEXT              the number of prefixes of the text that are statements, and the others' faults
//!     load-faults                  the numbers and names of the faults of files, and the limits
//!     statement-faults             the numbers and names of the faults of statements, and the limit
//!     plan-over                    statements are planned over the tables of the files from now on; removes all files
//!     plan STATEMENT               whether the statement has a plan, or its fault
//!     names STATEMENT              the names of its answer's columns
//!     show STATEMENT               the parts of its queries
//!     keys SIDE SOURCE STATEMENT   the range of keys of a source on a side
//!     window TEXT                  the window of a statement with this text after PERIOD
//!     dates TEXT                   the window of such a statement if instants are dates
//!     chain COUNT PART             a condition of a = 1 and COUNT times the part, and a last one after a semicolon
//!     copy STATEMENT               whether the copy of its plan is the plan
//!     plan-faults                  the numbers and names of the faults of plans
//!     explain STATEMENT            the details of a fault of its text
//!     why STATEMENT                the details of its fault over the tables
//!
//! TEXT and STATEMENT are written as `unescape` of tq_tests_script reads them. Tables, sources, columns and sides are
//! numbered from 0.
#![tactic(auto)]

ghost use Rattle.std.specs.Thread.{IsSync};

mod asking;
mod events;
mod faults;
mod planning;
mod plans;
mod reading;
mod shown;
mod statements;
mod tables;

use planning::Planning;
use reading::Reading;
use std::alloc::{AllocError, Global};
use std::io;
use std::sync::Wait;
use std::thread::Threads;
use tq_tests_script::{Block, Suite, TableFiles, run_script};

// The files of a script, and the state of the calls that read and of those that plan.
#[derive(Drop)]
struct State {
    files: TableFiles,
    reading: Reading,
    planning: Planning,
}

impl Suite for State {
    fn run<R: Threads + Wait + Sync>(
        &mut self,
        _rt: &R,
        alloc: Global,
        block: &Block,
        out: &mut String,
    ) -> Result<(), AllocError>
        requires { IsSync R.row }
    {
        if self.files.run(alloc, block)? {
            return Ok(());
        }
        let (word, text) = (block.word(), block.arguments());
        match word {
            "plan-over" => self.planning.load(alloc, self.files.take(alloc)?, out),
            "plan"
            | "names"
            | "show"
            | "keys"
            | "window"
            | "dates"
            | "chain"
            | "copy"
            | "plan-faults"
            | "explain"
            | "why" => self.planning.call(alloc, word, text, out),
            _ => self.reading.call(alloc, &mut self.files, word, text, out),
        }
    }
}

fn main(rt: HostRuntime) -> io::Result<()> {
    let alloc = rt.alloc();
    let mut state = State {
        files: TableFiles::new(alloc),
        reading: Reading::new(),
        planning: Planning::new(alloc),
    };
    run_script(&rt, &mut state)
}
