//! Tests of arenas, trees and scans, and of tables as of any count of events. Each block of stdin is a call and its
//! output (tq_tests_script). For arenas, trees and windows there are:
//!
//!     arena                                   an arena without nodes, and a meter without reads
//!     reserve COUNT                           whether there is room for COUNT more nodes after they are reserved
//!     push NUMBER STEP COUNT                  the next COUNT nodes are NUMBER, NUMBER + STEP, ..; how many fit and
//!                                             have the number of their place
//!     change NODE NUMBER                      changes the node to another number
//!     read NODE NUMBER STEP COUNT             how many of COUNT nodes from this one on are NUMBER, NUMBER + STEP, ..
//!     nodes                                   the number of nodes, and of reads that the meter counted
//!     tree FRONT                              a tree without keys; the key of its row N will be FRONT:N
//!     come FIRST LAST                         inserts the key of the next row at each of these versions
//!     go FIRST LAST VERSION                   deletes the keys of these rows, the first one at the version
//!     tree-version                            the version of the last change
//!     root VERSION, levels VERSION            the root of a version, and the number of levels of the tree then
//!     living FIRST LAST                       how many of the keys of these rows are alive
//!     leaves                                  the leaves, with regions and links; how many, and whether each was read
//!     root-node VERSION                       the root of a version, with its children
//!     window LOW HIGH FIRST LAST              a window of these keys and versions
//!     admits KEY.. | VERSION..                whether it can be cut there
//!     cut-window KEY.. | VERSION..            its parts, and what the tree has in each
//!     part LOW HIGH FIRST LAST                what the tree has in a part of it
//!     whole                                   what the tree has in all of it
//!     random-tree SEED COUNT ODDS SPREAD      random changes up to a version, compared with a plain list of lives
//!     random-windows SEED COUNT WINDOWS       such a tree, and windows, cut at random, compared with such a list
//!
//! A key is a number, or FRONT:N for FRONT * 2^32 + N; `least` is 0, and `top` is one above the greatest key. Rows and
//! nodes are numbered from 0. Of sixteen random changes ODDS are inserts, with SPREAD different fronts, and the others
//! are deletes; in the last third of each 4,500 versions it is the other way round.
//!
//! For tables there are, in addition to the calls that make table files:
//!
//!     load                                    a history of the files' tables, without events
//!     take N                                  applies the next N events of the files
//!     start TABLE AT NUMBER..                 starts a row with these numbers
//!     end TABLE ROW AT                        ends a row
//!     count                                   the number of events
//!     version N AT                            the version of an instant, as of the first N events
//!     rows N TABLE LOW HIGH START END         the rows of a range of keys over a period, as of the first N events
//!     reads N AT                              the number of rows of the first table at an instant, and of nodes read
//!     list N TABLE LOW HIGH START END         the same rows as one list
//!     list N TABLE START END                  those of all keys
//!     parts N TABLE KEY VERSION START END     those of all keys by parts of their window, cut at a key and a version
//!     open TABLE KEY AT                       the first open row of a key that started before an instant
//!     random-rows SEED ROUNDS                 random events and queries, compared with a plain list of rows
//!     random-open SEED ROUNDS                 the same for open rows
//!
//! Tables and rows are numbered from 0. A number of these calls may also be `least`, `most` or `forever`.
#![tactic(auto)]

ghost use Rattle.std.specs.Thread.{IsSync};

mod arena;
mod asking;
mod growing;
mod histories;
mod history;
mod lives;
mod nodes;
mod opening;
mod parting;
mod printing;
mod random;
mod scanning;
mod tree_check;
mod tree_random;
mod trees;
mod window_check;
mod window_random;
mod words;

use histories::Histories;
use std::alloc::{AllocError, Global};
use std::io;
use std::sync::Wait;
use std::thread::Threads;
use tq_tests_script::{Block, Suite, TableFiles, run_script};
use trees::Trees;

// The arena, the tree and the window of a script; its table files, and its history.
#[derive(Drop)]
struct State {
    trees: Trees,
    files: TableFiles,
    histories: Histories,
}

impl Suite for State {
    fn run<R: Threads + Wait + Sync>(
        &mut self,
        _rt: &R,
        alloc: Global,
        block: &Block,
        out: &mut String,
    ) -> Result<(), AllocError>
        requires { IsSync R.row }
    {
        if self.files.run(alloc, block)? {
            return Ok(());
        }
        let (word, text) = (block.word(), block.arguments());
        match word {
            "load" => self.histories.load(alloc, self.files.take(alloc)?, out),
            "take"
            | "start"
            | "end"
            | "count"
            | "version"
            | "rows"
            | "reads"
            | "list"
            | "parts"
            | "open"
            | "random-rows"
            | "random-open" => { self.histories.call(alloc, word, text, out) }
            _ => self.trees.call(alloc, word, text, out),
        }
    }
}

fn main(rt: HostRuntime) -> io::Result<()> {
    let alloc = rt.alloc();
    let mut state = State {
        trees: Trees::new(alloc)?,
        files: TableFiles::new(alloc),
        histories: Histories::new(alloc)?,
    };
    run_script(&rt, &mut state)
}
