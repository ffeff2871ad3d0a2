//! Tests of answers: by the definition and by one worker, from files by the engine, and by 1 to 16 workers. Each block
//! of stdin is a call and its output (tq_tests_script). In addition to the calls that make table files there are:
//!
//!     keyed FIRST                  adds 300 lines to the last file: keys 0 to 96 in no order, a text and a number each
//!     big N                        adds N lines: number i, i modulo 10, from i to i + 10
//!     wide N                       adds N lines: the 16 numbers from 16 j on, from the first to the one after the last
//!     open N                       adds N lines: number i, from i on
//!
//! By the definition and by one worker:
//!
//!     rows STATEMENT               by the definition: the rows at 0, at each instant below 40 at which they differ
//!                                  from those before it, at the last instant, and after it
//!     at INSTANT,.. STATEMENT      the rows at these instants
//!     rows-as-of N AT STATEMENT    the rows at one instant, as of the first N events of the files
//!     sources TABLE,.. AT          the count of all rows of these sources at an instant, by the definition
//!     large NUMBER,.. STATEMENT    the rows at 0, after rows with these numbers start in the first table
//!     answer STATEMENT             the answer over tables of rows, as text
//!     columns STATEMENT            the columns of each table that the statement names
//!     same STATEMENT               whether a history of the files' events gives that answer
//!     random SEED ROUNDS           random statements over random tables, compared with the definition
//!     random-as-of SEED ROUNDS     random statements as of random counts of events, compared with the definition
//!
//! From files, by the engine, with a STATEMENT that is written as `unescape` of tq_tests_script reads it:
//!
//!     dates, numbers               how instants are written from now on
//!     ask STATEMENT                the answer over the files by 1, 2, 7 and 16 workers, and as of all their events
//!     refuse STATEMENT             the fault of the files or the statement
//!     as-of N STATEMENT            the answer as of the first N events of the files
//!     shape STATEMENT              the numbers of columns and rows of the answer, and the columns' names
//!     broken MOST CALL STATEMENT   the answer to a writer that takes at most MOST bytes a call and fails at call CALL
//!     after-failure N              the sums of N big lines' keys by groups, to a writer that failed at them before
//!     read CALLS                   the last file, by a reader that gives a byte a call and fails after CALLS calls
//!     read-many N                  a file of N bytes, by such a reader
//!     reread                       the last file, from memory
//!
//! By several workers:
//!
//!     compare W STATEMENT          the answers by W workers: over the tables of the files, the same in partitions and
//!                                  ranges of values from the first row on, as of all events of the files, and as
//!                                  text as of all events
//!     compare-random SEED W STATEMENT    the same over each of fifty random tables of staff, of sixty rows of few keys
//!     gated CALL STATEMENT         the answer by two workers; each arrival of piece 0 waits until piece 1 has arrived
//!                                  as often: over the tables (among), in partitions and ranges (ranges), as of all
//!                                  events (with), as text as of all events (text)
//!
//! A call by several workers prints the number of answers and how many differ from the answer of one thread. With a
//! gate it prints how often piece 1 arrived. It also prints the answer, or one that differs. Tables are numbered from
//! 0.
#![tactic(auto)]

ghost use Rattle.std.specs.Thread.{IsSync};

mod agreeing;
mod answers;
mod as_of;
mod asking;
mod by_hand;
mod columns;
mod engine;
mod fault;
mod instants;
mod loaded;
mod making;
mod printing;
mod random;
mod reading;
mod seen;
mod statements;
mod tables;
mod texts;
mod workers;
mod writing;

use engine::Engine;
use std::alloc::{AllocError, Global};
use std::io;
use std::sync::Wait;
use std::thread::Threads;
use tq_tests_script::{Block, Suite, TableFiles, run_script};

// The files of a script, and the state of the calls of the engine.
#[derive(Drop)]
struct State {
    files: TableFiles,
    engine: Engine,
}

impl Suite for State {
    fn run<R: Threads + Wait + Sync>(
        &mut self,
        rt: &R,
        alloc: Global,
        block: &Block,
        out: &mut String,
    ) -> Result<(), AllocError>
        requires { IsSync R.row }
    {
        if making::make(alloc, block, &mut self.files)? {
            self.engine.forget();
            return Ok(());
        }
        let (word, text) = (block.word(), block.arguments());
        match word {
            "rows"
            | "at"
            | "rows-as-of"
            | "sources"
            | "large"
            | "answer"
            | "columns"
            | "same"
            | "random"
            | "random-as-of" => answers::call(alloc, &self.files, word, text, out),
            "compare" | "compare-random" | "gated" => {
                workers::call(rt, alloc, &self.files, word, text, out)
            }
            _ => self.engine.call(rt, alloc, &self.files, word, text, out),
        }
    }
}

fn main(rt: HostRuntime) -> io::Result<()> {
    let alloc = rt.alloc();
    let mut state = State {
        files: TableFiles::new(alloc),
        engine: Engine::new(),
    };
    run_script(&rt, &mut state)
}
