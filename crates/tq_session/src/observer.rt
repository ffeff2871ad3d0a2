// What a session reports of its refused lines, besides the replies.

ghost use Rattle.std.specs.Prelude.{ℕ, List, None, Option};
ghost use Rattle.tq_session.specs.Observers.{AddsLine, AddsIfRefused};
ghost use Rattle.tq_session.specs.declared.reply.Refusal.{Refusal as AnyRefusal};

use crate::reply::{Refusal, Reply};

/// Gets the refused lines of a session, each after its reply was written.
pub trait LineObserver {
    // The lines it got, each with the reason, if they are known.
    ghost refused_lines: { Self → Option (List (List ℕ × AnyRefusal)) } = { λ _. None };

    /// The line without its end was refused for this reason. Of a line that is too long, only some bytes are given.
    fn refused(&mut self, line: &[u8], why: &Refusal)
        ensures added { AddsLine (refused_lines self.old) (refused_lines self.new) line.now why.now };
}

/// An observer that does nothing.
#[derive(Clone, Copy, Debug)]
pub struct Unobserved;

impl LineObserver for Unobserved {
    fn refused(&mut self, _line: &[u8], _why: &Refusal) {}
}

/// Gives the line to the observer if the reply refuses it.
pub(crate) fn observe<O: LineObserver>(observer: &mut O, line: &[u8], reply: &Reply)
    ensures { AddsIfRefused (O.refused_lines observer.old) (O.refused_lines observer.new) line.now reply.now }
{
    if let Reply::Refused(why) = reply {
        observer.refused(line, why);
    }
}
