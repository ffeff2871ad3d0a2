// A session from its files to the end of its input.

ghost use Rattle.std.specs.Prelude.{◌≡◌, ◌≢◌, ◌+◌, ◌-◌, ◌≤◌, ◌⊎◌, [], Err, IfErr, IfOk, MatchOption, OnErr, OnOk, length};
ghost use Rattle.tq_event.specs.History.{IsHistory};
ghost use Rattle.tq_table.specs.Sink.{one_more};
ghost use Rattle.tq_session.specs.Input.{reads_after};
ghost use Rattle.tq_session.specs.Sessions.{RepliesToAll, RepliesToEnded, RepliesToSome, HasRepliedToAll, HasRepliedToEnded, HasRepliedToSome, IsStartFault, streams, open_refusal};
ghost use Rattle.tq_session.specs.LineSteps.{IsBroken, IsEnd, IsReply};
ghost use Rattle.tq_session.specs.Transcripts.{opening};

use crate::input::{Found, Input};
use crate::observer::{LineObserver, observe};
use crate::reply::{Refusal, Reply};
use crate::session_state::SessionState;
use std::alloc::Global;
use std::io::{Read, Write};
use std::marker::Brand;
use std::sync::Wait;
use std::thread::Threads;
use thiserror::Error;
use tq_base::Form;
use tq_engine::Source;
use tq_event::laws::{loaded_is_history, loaded_is_within};
use tq_event::{LoadFault, LoadFaultKind, Loaded, MAX_EVENTS, TableFile, load};
use tq_snapshot::{OpenFault, Opened, StoreId};
use tq_table::Sink;

/// Why a session ended before its input did: the first fault of the files (1); a refused place of the reader (2); a
/// failed read, or 1,073,741,824 reads (3); a failed write (4); a failed allocation before the first read (5).
#[derive(Clone, Copy, Debug, PartialEq, Eq, Error)]
pub enum SessionFault {
    #[error(transparent)]
    Load(LoadFault),
    #[error("NoPlace")]
    NoPlace,
    #[error("read failed")]
    Read,
    #[error("write failed")]
    Write,
    #[error("OutOfMemory")]
    OutOfMemory,
}

impl From<LoadFault> for SessionFault {
    ghost use Rattle.std.specs.Prelude.{◌≡◌, ◌≢◌};
    ghost use Rattle.tq_event.specs.declared.fault.LoadFaultKind.TheVariants as kind;
    ghost use Rattle.tq_session.specs.declared.transcript.SessionFault.TheVariants.{Load, OutOfMemory};

    ghost from_gives = { λ fault given. (fault.kind ≡ kind.OutOfMemory → given ≡ OutOfMemory) × (fault.kind ≢ kind.OutOfMemory → given ≡ Load fault) };

    fn from(fault: LoadFault) -> SessionFault {
        if matches!(fault.kind, LoadFaultKind::OutOfMemory) {
            SessionFault::OutOfMemory
        } else {
            SessionFault::Load(fault)
        }
    }
}

impl From<OpenFault> for SessionFault {
    ghost from_gives = { λ fault given. given ≡ open_refusal fault };

    fn from(fault: OpenFault) -> SessionFault {
        match fault {
            OpenFault::NoPlace => SessionFault::NoPlace,
            OpenFault::OutOfMemory => SessionFault::OutOfMemory,
        }
    }
}

// What stays the same during a session: its allocator, and how instants are written.
#[derive(Clone, Copy)]
struct Settings {
    alloc: Global,
    form: Form,
}

// Takes the next line and executes it. Returns the reply, and whether the line is the last one; `None` at the end.
fn next_reply<J: StoreId, R: Threads + Wait + Sync, I: Read>(
    rt: &R,
    alloc: Global,
    session_state: &mut SessionState<J>,
    input: &mut Input,
    source: &mut Source<I>,
    form: Form,
) -> Result<Option<(Reply, bool)>, SessionFault>
    ensures replied { IfOk result (λ next. MatchOption next (IsEnd session_state.old session_state.new input.old (I.remaining source.old.reader) (I.remaining source.new.reader))
        (λ r. IsReply form J.catalogue session_state.old session_state.new input.old input.new (I.remaining source.old.reader) (I.remaining source.new.reader) r.0 r.1)) }
    ensures broken { OnErr result (IsBroken session_state.old session_state.new input.old (I.remaining source.old.reader) (I.remaining source.new.reader)) }
    ensures fault { IfErr result (λ fault. fault ≡ SessionFault.Read) }
    ensures unfailed { OnOk result (source.new.failed ≡ source.old.failed) }
    ensures failed { OnErr result ((source.new.failed ≡ one_more source.old.failed)
        ⊎ ((source.new.failed ≡ source.old.failed) × (input.new.left ≡ 0))) }
    ensures reads { source.new.reads ≡ reads_after source.old.reads (input.old.left - input.new.left) }
    ensures left { input.new.left ≤ input.old.left }
{
    match input.next(source) {
        Ok(Found::Line(last)) => Ok(Some((
            session_state.reply(rt, alloc, input.line(), form),
            last,
        ))),
        Ok(Found::TooLong(last)) => Ok(Some((Reply::Refused(Refusal::LongLine), last))),
        Ok(Found::End) => Ok(None),
        Err(_) => Err(SessionFault::Read),
    }
}

// Replies to all lines until the input ends. The observer gets each refused line after its reply.
fn reply_to_lines<J: StoreId, R: Threads + Wait + Sync, I: Read, W: Write, O: LineObserver>(
    rt: &R,
    settings: Settings,
    session_state: &mut SessionState<J>,
    input: &mut Input,
    source: &mut Source<I>,
    sink: &mut Sink<W>,
    observer: &mut O,
) -> Result<(), SessionFault>
    requires { input.old.unconsumed ≡ [] }
    ensures all { OnOk result (RepliesToAll settings.form J.catalogue session_state.old (streams (I.remaining source.old.reader) (W.contents sink.old.writer)) (streams (I.remaining source.new.reader) (W.contents sink.new.writer))) }
    ensures unfailed { OnOk result ((source.new.failed ≡ source.old.failed) × (sink.new.failed ≡ sink.old.failed)) }
    ensures read { result ≡ Err SessionFault.Read → RepliesToEnded settings.form J.catalogue session_state.old (streams (I.remaining source.old.reader) (W.contents sink.old.writer)) (streams (I.remaining source.new.reader) (W.contents sink.new.writer)) }
    ensures write { result ≡ Err SessionFault.Write → RepliesToSome settings.form J.catalogue session_state.old (streams (I.remaining source.old.reader) (W.contents sink.old.writer)) (streams (I.remaining source.new.reader) (W.contents sink.new.writer)) }
    ensures fault { IfErr result (λ fault. (fault ≡ SessionFault.Read) ⊎ (fault ≡ SessionFault.Write)) }
    ensures read_failed { result ≡ Err SessionFault.Read → (sink.new.failed ≡ sink.old.failed) × ((source.new.failed ≡ one_more source.old.failed)
        ⊎ ((source.new.failed ≡ source.old.failed) × (input.new.left ≡ 0))) }
    ensures write_failed { result ≡ Err SessionFault.Write → (sink.new.failed ≡ one_more sink.old.failed) × (source.new.failed ≡ source.old.failed) }
    ensures reads { source.new.reads ≡ reads_after source.old.reads (input.old.left - input.new.left) }
    ensures left { input.new.left ≤ input.old.left }
{
    'lines: loop {
        let Some((reply, last)) = next_reply(
            rt,
            settings.alloc,
            session_state,
            input,
            source,
            settings.form,
        )?
        else {
            return Ok(());
        };
        if reply.send(sink, settings.form).is_err() {
            return Err(SessionFault::Write);
        }
        observe(observer, input.line(), &reply);
        if last {
            return Ok(());
        }
    }
}

// A session over the loaded history.
fn run<J: StoreId, R: Threads + Wait + Sync, I: Read, W: Write, O: LineObserver>(
    rt: &R,
    settings: Settings,
    opened: Opened,
    loaded: Loaded,
    source: &mut Source<I>,
    sink: &mut Sink<W>,
    observer: &mut O,
) -> Result<(), SessionFault>
    requires named { (opened ≡ J.book) × (loaded.catalogue ≡ J.catalogue) }
    requires history { IsHistory loaded.catalogue loaded.events }
    requires few { length loaded.events ≤ 16777216 }
    ensures all { OnOk result (RepliesToAll settings.form loaded.catalogue (opening loaded.events) (streams (I.remaining source.old.reader) (W.contents sink.old.writer)) (streams (I.remaining source.new.reader) (W.contents sink.new.writer))) }
    ensures unfailed { OnOk result ((source.new.failed ≡ source.old.failed) × (sink.new.failed ≡ sink.old.failed)) }
    ensures read { result ≡ Err SessionFault.Read → RepliesToEnded settings.form loaded.catalogue (opening loaded.events) (streams (I.remaining source.old.reader) (W.contents sink.old.writer)) (streams (I.remaining source.new.reader) (W.contents sink.new.writer)) }
    ensures write { result ≡ Err SessionFault.Write → RepliesToSome settings.form loaded.catalogue (opening loaded.events) (streams (I.remaining source.old.reader) (W.contents sink.old.writer)) (streams (I.remaining source.new.reader) (W.contents sink.new.writer)) }
    ensures read_failed { result ≡ Err SessionFault.Read → (sink.new.failed ≡ sink.old.failed) × ((source.new.failed ≡ one_more source.old.failed)
        ⊎ ((source.new.failed ≡ source.old.failed) × (source.new.reads ≡ reads_after source.old.reads 1073741824))) }
    ensures write_failed { result ≡ Err SessionFault.Write → (sink.new.failed ≡ one_more sink.old.failed) × (source.new.failed ≡ source.old.failed) }
    ensures start { IfErr result (λ fault. fault ≢ SessionFault.Read → fault ≢ SessionFault.Write → ((fault ≡ SessionFault.NoPlace) ⊎ (fault ≡ SessionFault.OutOfMemory)) × (source.new ≡ source.old) × (sink.new ≡ sink.old)) }
    ensures reads { source.new.reads ≤ source.old.reads + 1073741824 }
{
    let Ok(mut input) = Input::new(settings.alloc) else {
        return Err(SessionFault::OutOfMemory);
    };
    let mut session_state = SessionState::<J>::open(settings.alloc, opened, loaded)?;
    let ended = reply_to_lines(
        rt,
        settings,
        &mut session_state,
        &mut input,
        source,
        sink,
        observer,
    );
    session_state.close(rt);
    ended
}

/// Runs the lines of the source over the tables of the files. Writes each reply to the sink as soon as its line is
/// complete. A refused line changes nothing, and the observer gets it after its reply. `form` is how instants are read
/// and written.
///
/// After a `SessionFault`, the replies to earlier lines have been written. Files are loaded, and the memory for lines
/// is allocated, before the first read. Replies other than answers allocate nothing.
pub fn session<R: Threads + Wait + Sync, I: Read, W: Write, O: LineObserver>(
    rt: &R,
    alloc: Global,
    files: Vec<TableFile>,
    source: &mut Source<I>,
    sink: &mut Sink<W>,
    observer: &mut O,
    form: Form,
) -> Result<(), SessionFault>
    ensures all { OnOk result (HasRepliedToAll form files.items (streams (I.remaining source.old.reader) (W.contents sink.old.writer)) (streams (I.remaining source.new.reader) (W.contents sink.new.writer))) }
    ensures unfailed { OnOk result ((source.new.failed ≡ source.old.failed) × (sink.new.failed ≡ sink.old.failed)) }
    ensures read { result ≡ Err SessionFault.Read → HasRepliedToEnded form files.items (streams (I.remaining source.old.reader) (W.contents sink.old.writer)) (streams (I.remaining source.new.reader) (W.contents sink.new.writer)) }
    ensures write { result ≡ Err SessionFault.Write → HasRepliedToSome form files.items (streams (I.remaining source.old.reader) (W.contents sink.old.writer)) (streams (I.remaining source.new.reader) (W.contents sink.new.writer)) }
    ensures read_failed { result ≡ Err SessionFault.Read → (sink.new.failed ≡ sink.old.failed) × ((source.new.failed ≡ one_more source.old.failed)
        ⊎ ((source.new.failed ≡ source.old.failed) × (source.new.reads ≡ reads_after source.old.reads 1073741824))) }
    ensures write_failed { result ≡ Err SessionFault.Write → (sink.new.failed ≡ one_more sink.old.failed) × (source.new.failed ≡ source.old.failed) }
    ensures start { IfErr result (λ fault. fault ≢ SessionFault.Read → fault ≢ SessionFault.Write → IsStartFault form files.items fault × (source.new ≡ source.old) × (sink.new ≡ sink.old)) }
    ensures reads { source.new.reads ≤ source.old.reads + 1073741824 }
{
    loaded_is_history();
    loaded_is_within();
    let loaded = load(alloc, files, MAX_EVENTS, form)?;
    let settings = Settings { alloc, form };
    run::<Brand, R, I, W, O>(rt, settings, Opened::new(), loaded, source, sink, observer)
}
