//! A world of the core machine, and its steps.

use crate::machine_steps::steps_of;
use crate::many::print_many;
use crate::oracle::{Starts, world};
use crate::replies::print_replies;
use std::alloc::{AllocError, Global};
use std::fmt::Write;
use tq_core::{Reply, Step, World};
use tq_tests_script::print_nothing;

/// The last world.
#[derive(Drop)]
pub(crate) struct Machine {
    world: Option<World>,
}

// The reply to the step, which is taken again if an allocation failed.
fn reply_to(world: &mut World, step: &Step<()>) -> Result<Reply<u32>, AllocError> {
    match world.step(&Starts, step) {
        Ok(reply) => Ok(reply),
        Err(AllocError) => world.step(&Starts, step),
    }
}

impl Machine {
    pub(crate) fn new() -> Machine {
        Machine { world: None }
    }

    // Makes a new world with `readers` readers.
    fn begin(&mut self, alloc: Global, readers: u32, out: &mut String) -> Result<(), AllocError> {
        if readers < 1 || readers > 8 {
            return print_nothing(out);
        }
        match world(alloc, readers) {
            Ok(world) => {
                self.world = Some(world);
                Ok(())
            }
            Err(fault) => writeln!(out, "{fault}"),
        }
    }

    // Takes the steps by one call.
    fn take_steps(
        &mut self,
        alloc: Global,
        line: &str,
        out: &mut String,
    ) -> Result<(), AllocError> {
        match (&mut self.world, steps_of(alloc, line)?) {
            (Some(world), Some(steps)) => print_replies(&world.run(&Starts, &steps)?, out),
            _ => print_nothing(out),
        }
    }

    // Takes each step by a call of its own.
    fn take_each(&mut self, alloc: Global, line: &str, out: &mut String) -> Result<(), AllocError> {
        match (&mut self.world, steps_of(alloc, line)?) {
            (Some(world), Some(steps)) => {
                for step in &steps {
                    let reply = reply_to(world, step)?;
                    print_replies(&[reply], out)?;
                }
                Ok(())
            }
            _ => print_nothing(out),
        }
    }

    /// Makes a world, or takes steps in it.
    pub(crate) fn call(
        &mut self,
        alloc: Global,
        word: &str,
        rest: &str,
        out: &mut String,
    ) -> Result<(), AllocError> {
        match word {
            "world" => self.begin(alloc, rest.parse().unwrap_or(0), out),
            "run" => self.take_steps(alloc, rest, out),
            "each" => self.take_each(alloc, rest, out),
            "many" => print_many(alloc, rest.parse().unwrap_or(0), out),
            _ => print_nothing(out),
        }
    }
}
