//! The command line of `tq`: from the words after the program's name to what they ask for.
//!
//! `read_words` takes the words from the system, each byte as a character, since they may not be valid UTF-8.
//! `read_command_line` reads them with clap. Its contract: a request is what the words ask for (`IsRequestIn`), and after
//! `BadCommandLine` the words are invalid (`IsInvalid`). Both are defined in `specs/CommandLine.antt` by what clap finds in
//! the words; examples are computed in `proofs/CommandLineFacts.antt`. `asks_details` looks for `--explain`, also in words
//! that are refused.
//!
//! Open `src/command_line.rt` first.
#![tactic(auto)]

mod arguments;
mod command_line;
mod commands;
mod comments;
mod helps;
mod imports;
mod layouts;
mod questions;
mod request;
mod values;
mod words;

pub use command_line::{CommandLineFault, UsageError, read_command_line};
pub use comments::blank_comments;
pub use request::{
    AskRequest, CalendarRequest, CheckRequest, DecimalOption, DrawRequest, ImportRequest,
    LayoutRequest, MergeRequest, PictureFormat, QuestionRequest, Request, SessionRequest,
    SplitRequest, TableOption, TotalRequest,
};
pub use words::{asks_details, char_text, read_words};
