//! Tests of calls with failing allocations. Each block of stdin is a call and its output (tq_tests_script). In addition
//! to the calls that make table files there are:
//!
//!     load               the files' events
//!     load-among W       the tables of the files, loaded in small parts by W workers
//!     answer N S         the answer of the statement as of the first N events
//!     apply N S          the event after the first N is applied; then the answer as of all so far
//!     change V           version V of the tree of 33 consecutive keys, of which 29 are deleted
//!     leaves             the leaves of that tree
//!     scan               a window of that tree that is cut, and what it has in each part
//!
//! A call is made with ample memory, and then repeatedly: its first allocation fails, then the second, and so on until
//! none fails. This is done once more with all allocations from that one on failing. A call that answers that there is
//! no memory is repeated with ample memory. A result that differs from the answer with ample memory is printed, and a
//! state that differs from that before a failed call. The text of an answer and the copies of files that are passed are
//! allocations of these calls too. The number of failed allocations is printed on standard error.
#![tactic(auto)]

mod answering;
mod calls;
mod changing;
mod loading;
mod trees;

use calls::Libraries;
use std::io;
use tq_tests_script::{Script, run_script};

fn main(rt: HostRuntime) -> io::Result<()> {
    let alloc = rt.alloc();
    let mut script = Script::new(alloc, Libraries);
    run_script(&rt, &mut script)?;
    let tally = script.tally();
    let (refusals, answers) = (tally.refusals, tally.answers);
    eprintln!(rt; "{refusals} refusals, {answers} answers out of memory")
}
