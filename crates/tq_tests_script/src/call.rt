//! A call with a failing allocation, which is repeated if it answers that there is no memory.

ghost use Rattle.std.specs.Thread.{IsSync};

use crate::refusal::Refusal;
use std::alloc::{AllocError, Global};
use std::fmt::Write;
use std::sync::Wait;
use std::thread::Threads;

/// A call that stores its answer, with the state that it may change.
pub trait Call {
    /// Makes the call; `AllocError` if it answers that an allocation failed.
    fn make<R: Threads + Wait + Sync>(&mut self, rt: &R, alloc: Global) -> Result<(), AllocError>
        requires { IsSync R.row };

    /// Prints the answer, if there is one, and the state that the call may change.
    fn print(&self, alloc: Global, out: &mut String) -> Result<(), AllocError>;
}

/// The result of a call: its answer, by a second call if the first answered that there was no memory.
#[derive(Drop)]
pub struct Tried {
    pub text: String,
    pub was_refused: bool,
    pub ran_out: bool,
}

impl Tried {
    // A result without text: whether an allocation failed, and whether the call answered so.
    fn new(alloc: Global, was_refused: bool, ran_out: bool) -> Result<Tried, AllocError> {
        let mut tried = Tried {
            text: String::new(alloc),
            was_refused,
            ran_out,
        };
        tried.expect(was_refused || !ran_out, "there was memory")?;
        Ok(tried)
    }

    // Adds a text for an expectation that does not hold.
    fn expect(&mut self, holds: bool, what: &str) -> Result<(), AllocError> {
        if holds {
            Ok(())
        } else {
            writeln!(self.text, "not so: {what}")
        }
    }
}

fn printed<C: Call>(alloc: Global, call: &C) -> Result<String, AllocError> {
    let mut out = String::new(alloc);
    call.print(alloc, &mut out)?;
    Ok(out)
}

// Repeats a call that answered that there was no memory, and changed nothing.
fn again<R: Threads + Wait + Sync, C: Call>(
    rt: &R,
    alloc: Global,
    call: &mut C,
    before: &str,
    tried: &mut Tried,
) -> Result<(), AllocError> {
    let now = printed(alloc, call)?;
    tried.expect(now.as_str() == before, "all is as it was")?;
    call.make(rt, alloc)
}

/// Makes the call with this failing allocation, and again if it answers that there is no memory.
pub fn attempt<R: Threads + Wait + Sync, C: Call>(
    rt: &R,
    alloc: Global,
    call: &mut C,
    refusal: Refusal,
) -> Result<Tried, AllocError> {
    let before = printed(alloc, call)?;
    refusal.begin(alloc);
    let ran_out = call.make(rt, alloc).is_err();
    let was_refused = refusal.end(alloc);
    let mut tried = Tried::new(alloc, was_refused, ran_out)?;
    if ran_out {
        again(rt, alloc, call, before.as_str(), &mut tried)?;
    }
    call.print(alloc, &mut tried.text)?;
    Ok(tried)
}
