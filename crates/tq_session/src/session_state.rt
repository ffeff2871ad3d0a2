// The writer and the one reader of a session, and the execution of lines.

ghost use Rattle.std.specs.Prelude.{◌≡◌, ◌≤◌, IfOk, length};
ghost use Rattle.tq_event.specs.History.{IsHistory};
ghost use Rattle.tq_session.specs.Requests.{HasWorkers, requested};
ghost use Rattle.tq_session.specs.Transcripts.{Executes, Publishes, Replies, opening};

use crate::appending::{end, start};
use crate::query::{AskOptions, ask};
use crate::reply::{Refusal, Reply};
use crate::request::{Command, read_command};
use std::alloc::Global;
use std::marker::Model;
use std::sync::Wait;
use std::thread::Threads;
use tq_base::Form;
use tq_event::{Loaded, MAX_EVENTS};
use tq_snapshot::{OpenFault, Opened, Reader, StoreId, Writer, open};

/// The writer and the one reader of a session. The reader has observed all published events.
#[derive(Drop)]
pub struct SessionState<J: StoreId> {
    writer: Writer<J>,
    reader: Reader<J>,
}

impl<J: StoreId> Model for SessionState<J> {
    ghost use mathlib.Core.List.{IsPrefix};
    ghost use Rattle.tq_snapshot.specs.Calls.{WriterState};

    ghost Value = { WriterState };

    ghost view = { λ d. d.writer };

    ghost invariant = { λ d. IsPrefix d.writer.published d.reader };
}

impl<J: StoreId> SessionState<J> {
    /// Opens a store over the loaded history. `NoPlace` if the reader's place was refused, `OutOfMemory` if an
    /// allocation failed.
    pub fn open(alloc: Global, opened: Opened, loaded: Loaded) -> Result<SessionState<J>, OpenFault>
        requires named { (opened ≡ J.book) × (loaded.catalogue ≡ J.catalogue) }
        requires history { IsHistory loaded.catalogue loaded.events }
        requires few { length loaded.events ≤ 16777216 }
        ensures { IfOk result (λ session_state. session_state ≡ opening loaded.events) }
    {
        let Loaded { catalogue, events } = loaded;
        let events = events.into_vec();
        let (writer, mut readers) = open::<J>(alloc, opened, catalogue, events, 1, MAX_EVENTS)?;
        match readers.pop() {
            Some(reader) => Ok(SessionState { writer, reader }),
            None => Err(OpenFault::NoPlace),
        }
    }

    // Publishes all pending events; the reader then observes them.
    fn publish<R: Wait>(&mut self, rt: &R) -> Reply
        ensures { Publishes self.old result self.new }
    {
        match self.writer.publish(rt) {
            Ok(count) => {
                self.reader.learn(self.writer.note());
                Reply::Published(count)
            }
            Err(_) => Reply::Refused(Refusal::OutOfMemory),
        }
    }

    // Executes a command.
    fn execute<R: Threads + Wait + Sync>(
        &mut self,
        rt: &R,
        alloc: Global,
        command: &Command<'_>,
        form: Form,
    ) -> Reply
        requires { HasWorkers command.now }
        ensures { Executes form J.catalogue self.old (requested command.now) result self.new }
    {
        match command {
            Command::Start(words) => start(alloc, &mut self.writer, words),
            Command::End(words) => end(alloc, &mut self.writer, words),
            Command::Publish => self.publish(rt),
            Command::Ask(n, workers, bytes) => {
                let published = self.writer.published();
                let catalogue = self.writer.catalogue();
                let options = AskOptions {
                    n: *n,
                    workers: *workers,
                    form,
                };
                ask(
                    rt,
                    alloc,
                    catalogue,
                    published,
                    &mut self.reader,
                    bytes,
                    options,
                )
            }
        }
    }

    /// Executes a line and returns the reply. `form` is how instants are read and written.
    pub fn reply<R: Threads + Wait + Sync>(
        &mut self,
        rt: &R,
        alloc: Global,
        line: &[u8],
        form: Form,
    ) -> Reply
        ensures { Replies form J.catalogue self.old line.now result self.new }
    {
        if line.is_empty() {
            return Reply::Nothing;
        }
        match read_command(line, form) {
            Some(command) => self.execute(rt, alloc, &command, form),
            None => Reply::Refused(Refusal::BadLine),
        }
    }

    /// Closes the store and frees its memory.
    pub fn close<R: Wait>(self, rt: &R) {
        let SessionState { writer, reader } = self;
        drop(reader);
        writer.close(rt);
    }
}
