//! An arena, a tree and a window of a script, and its calls.

use crate::arena::Numbers;
use crate::growing::{come_at, go_from, living};
use crate::nodes::{print_leaves, print_number, print_root_node, print_whether};
use crate::scanning::{print_cut, print_part};
use crate::tree_random::random_tree;
use crate::window_random::random_windows;
use crate::words::{long, numbers_of, small, small_numbers_of, small_of};
use std::alloc::{AllocError, Global};
use tq_scan::{Part, Window};
use tq_tests_script::{Grower, print_nothing};

/// The arena, the tree, the upper part of its keys, and the window.
#[derive(Drop)]
pub(crate) struct Trees {
    numbers: Numbers,
    grower: Grower,
    front: u64,
    window: Option<Window>,
}

// The part of these keys and versions.
fn part_of([low, high, first, last]: [u128; 4]) -> Option<Part> {
    Some(Part {
        low,
        high,
        first: small(first),
        last: small(last),
    })
}

impl Trees {
    /// An empty arena and tree, and no window.
    pub(crate) fn new(alloc: Global) -> Result<Trees, AllocError> {
        Ok(Trees {
            numbers: Numbers::new(alloc),
            grower: Grower::new(alloc)?,
            front: 0,
            window: None,
        })
    }

    // Inserts a key at each of the versions.
    fn come(&mut self, first: u32, last: u32, out: &mut String) -> Result<(), AllocError> {
        let came = come_at(&mut self.grower, self.front, first, last)?;
        print_number("keys that come", came as u64, out)
    }

    // Deletes the keys of the rows.
    fn go(
        &mut self,
        first: u32,
        last: u32,
        version: u32,
        out: &mut String,
    ) -> Result<(), AllocError> {
        let gone = go_from(&mut self.grower, self.front, first, last, version)?;
        print_number("keys that go", gone as u64, out)
    }

    // Prints what the tree has in the part of the window, or in all of it.
    fn scan(&self, alloc: Global, part: Option<Part>, out: &mut String) -> Result<(), AllocError> {
        match &self.window {
            Some(window) => {
                let part = match part {
                    Some(part) => part,
                    None => window.whole(),
                };
                print_part(alloc, &self.grower.tree, window, &part, out)
            }
            None => print_nothing(out),
        }
    }

    // Prints whether the window can be cut there or, with `with_parts`, its parts.
    fn cut(
        &self,
        alloc: Global,
        rest: &str,
        with_parts: bool,
        out: &mut String,
    ) -> Result<(), AllocError> {
        let (keys, versions) = rest.split_once('|').unwrap_or((rest, ""));
        let keys = numbers_of(alloc, keys)?;
        let versions = small_numbers_of(alloc, versions)?;
        let cuts = (keys.as_slice(), versions.as_slice());
        match &self.window {
            Some(window) => print_cut(alloc, &self.grower.tree, window, cuts, with_parts, out),
            None => print_nothing(out),
        }
    }

    // A tree without keys.
    fn begin(&mut self, alloc: Global, front: u64) -> Result<(), AllocError> {
        self.grower = Grower::new(alloc)?;
        self.front = front;
        Ok(())
    }

    // Prints how many of the keys of the rows are alive.
    fn print_living(&self, first: u32, last: u32, out: &mut String) -> Result<(), AllocError> {
        let living = living(&self.grower, self.front, first, last);
        print_number("living", living as u64, out)
    }

    // Runs a call that changes the tree or the arena, or prints all of the tree.
    fn change(
        &mut self,
        alloc: Global,
        word: &str,
        numbers: &[u32],
        out: &mut String,
    ) -> Result<(), AllocError> {
        match (word, numbers) {
            ("come", [first, last]) => self.come(*first, *last, out),
            ("go", [first, last, version]) => self.go(*first, *last, *version, out),
            ("leaves", []) => print_leaves(&self.grower.tree, out),
            ("root-node", [version]) => print_root_node(&self.grower.tree, *version, out),
            _ => self.numbers.run(alloc, word, numbers, out),
        }
    }

    // Runs a call that queries the tree, or changes it.
    fn ask(
        &mut self,
        alloc: Global,
        word: &str,
        numbers: &[u32],
        out: &mut String,
    ) -> Result<(), AllocError> {
        let tree = &self.grower.tree;
        match (word, numbers) {
            ("tree-version", []) => print_number("version", tree.version() as u64, out),
            ("root", [version]) => print_number("node", tree.root_at(*version).0 as u64, out),
            ("levels", [version]) => print_number("levels", tree.levels(*version) as u64, out),
            ("living", [first, last]) => self.print_living(*first, *last, out),
            _ => self.change(alloc, word, numbers, out),
        }
    }

    // Sets the window of these keys and versions, if it is one.
    fn open(
        &mut self,
        [low, high, first, last]: [u128; 4],
        out: &mut String,
    ) -> Result<(), AllocError> {
        self.window = Window::new(low, high, small(first), small(last));
        print_whether(self.window.is_some(), out)
    }

    // Runs a random test, or a call that queries the tree.
    fn try_at_random(
        &mut self,
        alloc: Global,
        word: &str,
        numbers: &[u128],
        out: &mut String,
    ) -> Result<(), AllocError> {
        match (word, numbers) {
            ("random-tree", [seed, count, odds, spread]) => {
                random_tree(alloc, *seed, [*count, *odds, *spread], out)
            }
            ("random-windows", [seed, count, windows]) => {
                random_windows(alloc, *seed, [small(*count), small(*windows)], out)
            }
            _ => self.ask(alloc, word, &small_of(alloc, numbers)?, out),
        }
    }

    // Runs a call with this word and these numbers.
    fn answer(
        &mut self,
        alloc: Global,
        word: &str,
        numbers: &[u128],
        out: &mut String,
    ) -> Result<(), AllocError> {
        match (word, numbers) {
            ("tree", [front]) => self.begin(alloc, long(*front)),
            ("window", [low, high, first, last]) => self.open([*low, *high, *first, *last], out),
            ("part", [low, high, first, last]) => {
                self.scan(alloc, part_of([*low, *high, *first, *last]), out)
            }
            ("whole", []) => self.scan(alloc, None, out),
            _ => self.try_at_random(alloc, word, numbers, out),
        }
    }

    /// Runs the call of the line, and prints its output.
    pub(crate) fn call(
        &mut self,
        alloc: Global,
        word: &str,
        rest: &str,
        out: &mut String,
    ) -> Result<(), AllocError> {
        match word {
            "admits" => self.cut(alloc, rest, false, out),
            "cut-window" => self.cut(alloc, rest, true, out),
            _ => self.answer(alloc, word, &numbers_of(alloc, rest)?, out),
        }
    }
}
