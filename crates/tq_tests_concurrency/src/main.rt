//! Tests of sessions, of the core machine, and of a writer and readers of a store. Each block of stdin is a call and
//! its output (tq_tests_script). In addition to the calls that make table files there are, for sessions over these
//! files:
//!
//!     dates, numbers             how instants are written from now on
//!     send TEXT                  adds bytes to the input
//!     send-repeated COUNT TEXT   adds them COUNT times
//!     session                    the output of a session for the input, by a reader that gives all of it and by one
//!                                that gives a byte a call, and how it ends; the input is empty afterwards
//!     failing CALLS              the same by a reader that gives a byte a call and fails after CALLS calls
//!     room COUNT                 the same by a writer that takes COUNT bytes and then fails
//!     noted                      the number of bytes printed when each line began to be read, and the number of writes
//!
//! The lines of a block's input are lines of the session's input. TEXT is written as `unescape` of tq_tests_script
//! reads it. For the core machine:
//!
//!     world READERS            a new world of 1 to 8 readers over a table of a number and two texts
//!     run STEP; STEP; ..       takes the steps one after another, by one call
//!     each STEP; STEP; ..      takes each step by a call of its own, which is repeated if it ran out of memory
//!     many ROUNDS              rounds of four steps in a world of eight readers, by one call
//!
//! A step is one of
//!
//!     start TABLE AT VALUE..   a row with these values starts
//!     end ROW AT               a row of the table ends
//!     publish
//!     enter READER AT
//!     learn READER LENGTH
//!     ask READER N PIECES
//!     claim WORK WORKER
//!     finish WORK
//!
//! Tables, rows, readers, works and workers are numbered from 0.
//!
//! For a writer and readers of a store, one after another and concurrently, on threads of their own:
//!
//!     ask N W ASKS            two readers query the names as of the first N events, ASKS times each, by W workers
//!                             (0: by the call that starts no thread), and repeat a query while there are fewer events.
//!                             Meanwhile the writer ends cat at 40 and starts zed in toys at 50 a thousand times, and
//!                             publishes each of these events by itself
//!     leave N W ASKS          the same; the writer is dropped after fewer events, while readers query
//!     close N W ASKS          the same; the writer closes the store
//!     soak SEED EVENTS ASKS   EVENTS random events, each published by itself, and eight readers that query ASKS times
//!                             each, as of old counts and of the newest ones, by 0 to 16 workers
//!     pieces W                five squares by W workers
//!     refused-open READERS    what the last of the readers finds in a store of the files' events
//!     refused N STEP          what a reader of such a store finds before the step (below) and the result of the step,
//!                             with four rows pending; then the number of events published with all pending ones, and
//!                             the number of rows of each name as of the first N events, without those of the files
//!     around N TABLE AT ROW STATEMENT    the answer as of the first N events of a store, and the same after a row with
//!                             these values was started and published and the reader learnt of it
//!     open READERS LIMIT      a store of the files' events, with READERS readers, numbered from 0, and with LIMIT
//!                             events at most, at least those of the files; the lines of the input are its steps
//!
//! `refused` takes any step but `pass`. The calls of `pieces`, `refused-open` and `refused` are repeated with each
//! allocation failing in turn, and again with ample memory if they answer that there is none. The steps of a store are
//! taken one after another, and their output follows their number:
//!
//!     start N TABLE AT ROW    N rows with these values start: the number of the last one, or why it was refused
//!     end N TABLE AT ROW      the first open row with these values ends, N times: the number of the last one, or why
//!                             it was refused
//!     publish                 the number of published events
//!     learn READER            the reader learns of the published events
//!     pass                    the last reader does; one thread makes the note and another one learns it
//!     snapshot READER         the number of events that the reader finds
//!     ask READER N W STATEMENT    its answer as of the first N events, by W workers (0: as above)
//!     gated READER N W STATEMENT  the same; each arrival of piece 0 waits until piece 1 has arrived as often
//!     close                   the writer closes the store
//!
//! An answer differs if it is not the earlier one as of the same count, or if at some instant it has other rows than
//! the definition (tq_reference). A reader that learnt nothing may find few events, but never fewer than before; after
//! the writer is dropped it may find the store closed. `ask` and the like print the number of queries, of published
//! events, and of answers, refusals and appended events that differ from the expected ones. They also print the number
//! of events found by a reader that learns of them, and the answer if all are the same. The number of failed
//! allocations is printed on standard error.
#![tactic(auto)]

ghost use Rattle.std.specs.Thread.{IsSync};

mod agreeing;
mod around;
mod asker;
mod calls;
mod conversing;
mod crowd;
mod history;
mod machine;
mod machine_steps;
mod many;
mod oracle;
mod pieces;
mod refused;
mod replies;
mod rounds;
mod sessions;
mod steps;
mod streams;

use calls::CrowdCalls;
use machine::Machine;
use sessions::Sessions;
use std::alloc::{AllocError, Global};
use std::io;
use std::sync::Wait;
use std::thread::Threads;
use tq_tests_script::{Block, Script, Suite, run_script};

// The files of a script with the calls whose allocations fail, the last world, and the input of the next session.
#[derive(Drop)]
struct State {
    script: Script<CrowdCalls>,
    machine: Machine,
    sessions: Sessions,
}

impl Suite for State {
    fn run<R: Threads + Wait + Sync>(
        &mut self,
        rt: &R,
        alloc: Global,
        block: &Block,
        out: &mut String,
    ) -> Result<(), AllocError>
        requires { IsSync R.row }
    {
        match block.word() {
            "dates"
            | "numbers"
            | "send"
            | "send-repeated"
            | "session"
            | "failing"
            | "room"
            | "noted" => self
                .sessions
                .call(rt, alloc, self.script.files(), block, out),
            "world" | "run" | "each" | "many" => {
                self.machine
                    .call(alloc, block.word(), block.arguments(), out)
            }
            "ask" | "leave" | "close" | "soak" | "around" | "open" => {
                rounds::call(rt, alloc, self.script.files(), block, out)
            }
            _ => self.script.run(rt, alloc, block, out),
        }
    }
}

fn main(rt: HostRuntime) -> io::Result<()> {
    let alloc = rt.alloc();
    let mut state = State {
        script: Script::new(alloc, CrowdCalls),
        machine: Machine::new(),
        sessions: Sessions::new(alloc),
    };
    run_script(&rt, &mut state)?;
    let tally = state.script.tally();
    let (refusals, answers) = (tally.refusals, tally.answers);
    eprintln!(rt; "{refusals} refusals, {answers} answers out of memory")
}
