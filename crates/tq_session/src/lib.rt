//! Sessions over a history that grows: commands that start and end rows, publish events, and query as of any earlier
//! count of events. Each command is one line, and its reply is printed as soon as the line is complete.
//!
//! Lines come through a `Source` (`src/input.rt`). A line is parsed (`src/request.rt`) and executed by a writer and a
//! reader of a shared store (`src/session_state.rt`, with `src/appending.rt` and `src/query.rt`). The reply is printed
//! through a `Sink` (`src/reply.rt`). The contract is that of `session`: what is printed is a transcript of the lines
//! over the history of the files (`IsTranscript` in `specs/Transcripts.antt`). An observer gets each refused line
//! (`src/observer.rt`). Open `src/transcript.rt` first.
#![tactic(auto)]

mod appending;
mod input;
mod observer;
mod query;
mod reply;
mod request;
mod session_state;
mod transcript;

pub use observer::{LineObserver, Unobserved};
pub use reply::Refusal;
pub use request::{Command, EventArguments, read_command};
pub use transcript::{SessionFault, session};
