//! Running the blocks of a script and comparing what they print.

ghost use Rattle.std.specs.Thread.{IsSync};

use crate::block::Block;
use crate::reading::Reader;
use std::alloc::{AllocError, Global};
use std::fmt::Write;
use std::io;
use std::sync::Wait;
use std::thread::Threads;

// An empty line of output in a script.
const EMPTY: &str = "(empty)";

/// The calls of a script.
pub trait Suite {
    /// Runs the call of a block, and writes its output, each line with a line feed.
    fn run<R: Threads + Wait + Sync>(
        &mut self,
        rt: &R,
        alloc: Global,
        block: &Block,
        out: &mut String,
    ) -> Result<(), AllocError>
        requires { IsSync R.row };
}

// The numbers of blocks that printed the expected output, and of those that did not.
#[derive(Clone, Copy)]
struct Counts {
    passed: u32,
    failed: u32,
}

// Whether the line is the expected one.
fn is_line(expected: &str, line: &str) -> bool {
    expected == line || (expected == EMPTY && line.is_empty())
}

// Whether the output has the expected lines.
fn is_expected(expected: &[String], output: &str) -> bool {
    let mut lines = output.lines();
    for line in expected {
        match lines.next() {
            Some(printed) if is_line(line.as_str(), printed) => {}
            _ => return false,
        }
    }
    lines.next().is_none()
}

// The place of the block, the expected output and the output.
fn describe(block: &Block, output: &str, report: &mut String) -> Result<(), AllocError> {
    writeln!(report, "line {}: {}", block.line, block.call)?;
    for line in &block.expected {
        writeln!(report, "- {line}")?;
    }
    for line in output.lines() {
        writeln!(report, "+ {line}")?;
    }
    Ok(())
}

// Runs the block, counts it, and describes it if its output differs.
fn run_block<R: Threads + Wait + Sync, S: Suite>(
    rt: &R,
    alloc: Global,
    suite: &mut S,
    block: &Block,
    counts: &mut Counts,
) -> Result<String, AllocError> {
    let mut output = String::new(alloc);
    suite.run(rt, alloc, block, &mut output)?;
    let mut report = String::new(alloc);
    if is_expected(&block.expected, output.as_str()) {
        counts.passed = counts.passed.saturating_add(1);
    } else {
        counts.failed = counts.failed.saturating_add(1);
        describe(block, output.as_str(), &mut report)?;
    }
    Ok(report)
}

/// Runs the script on standard input. Prints each block whose output differs, and last `N passed, M failed`.
pub fn run_script<R: AllocGlobal + Input + Print + Threads + Wait + Sync, S: Suite>(
    rt: &R,
    suite: &mut S,
) -> io::Result<()> {
    let alloc = rt.alloc();
    let mut reader = Reader::new();
    let mut counts = Counts {
        passed: 0,
        failed: 0,
    };
    for line in rt.lines(alloc) {
        if let Some(block) = reader.take(alloc, line?)? {
            let report = run_block(rt, alloc, suite, &block, &mut counts)?;
            print!(rt; "{report}")?;
        }
    }
    if let Some(block) = reader.finish() {
        let report = run_block(rt, alloc, suite, &block, &mut counts)?;
        print!(rt; "{report}")?;
    }
    let Counts { passed, failed } = counts;
    println!(rt; "{passed} passed, {failed} failed")
}
