// Parsing of a session's lines.

ghost use Rattle.std.specs.Prelude.{◌≡◌, ◌==◌, ◌<◌, ◌≤◌, IfSome, length, option_map, position};
ghost use Rattle.std.specs.Str.{bytes_eq};
ghost use Rattle.tq_session.specs.Requests.{Start, End, Ask, HasWorkers, query_arguments, event_arguments, split_at_space, request_of, requested, command_of, workers_of};

use tq_base::{Form, Instant, read_instant, read_natural};

/// The arguments of `start` and `end`: the table's name, the time, and the fields of the row's values.
#[derive(Clone, Copy, Debug)]
pub struct EventArguments<'a> {
    pub table: &'a [u8],
    pub at: Instant,
    pub fields: &'a [u8],
}

/// A command of a session.
#[derive(Clone, Copy, Debug)]
pub enum Command<'a> {
    /// `start TABLE TIME VALUES`: starts a row.
    Start(EventArguments<'a>),
    /// `end TABLE TIME VALUES`: ends a row.
    End(EventArguments<'a>),
    /// `publish`: makes all events visible.
    Publish,
    /// `ask COUNT WORKERS STATEMENT`: a query as of the first `COUNT` published events.
    Ask(u32, u32, &'a [u8]),
}

// The place of the first space.
fn find_space(bytes: &[u8]) -> Option<usize>
    ensures value { result ≡ position (λ byte. byte == 32) bytes.now }
    ensures within { IfSome result (λ place. place < length bytes.now) }
{
    bytes.iter().position(|byte| *byte == b' ')
}

// The bytes before the first space, and those after it.
fn split_at_space(bytes: &[u8]) -> Option<(&[u8], &[u8])>
    ensures { option_map (λ p. (p.0.now, p.1.now)) result ≡ split_at_space bytes.now }
{
    let place = find_space(bytes)?;
    Some((&bytes[..place], &bytes[place + 1..]))
}

// A number of workers, 1 to 16.
fn workers_of(bytes: &[u8]) -> Option<u32>
    ensures workers { result ≡ workers_of bytes.now }
    ensures few { IfSome result (λ workers. (1 ≤ workers) × (workers ≤ 16)) }
{
    let workers = read_natural(bytes, 16)?;
    if workers < 1 {
        return None;
    }
    Some(workers as u32)
}

// The table's name, the time and the values.
fn event_arguments(rest: &[u8], form: Form) -> Option<EventArguments<'_>>
    ensures { option_map (λ e. (e.table.now, (e.at, e.fields.now))) result ≡ event_arguments form rest.now }
{
    let (table, rest) = split_at_space(rest)?;
    let (time, fields) = split_at_space(rest)?;
    let at = read_instant(time, form)?;
    Some(EventArguments { table, at, fields })
}

// The count of events, the number of workers and the statement.
fn query_arguments(rest: &[u8]) -> Option<(u32, u32, &[u8])>
    ensures words { option_map (λ a. (a.0, (a.1, a.2.now))) result ≡ query_arguments rest.now }
    ensures few { IfSome result (λ a. (1 ≤ a.1) × (a.1 ≤ 16)) }
{
    let (count, rest) = split_at_space(rest)?;
    let n = read_natural(count, 16_777_216)?;
    let (workers, statement) = split_at_space(rest)?;
    let workers = workers_of(workers)?;
    Some((n as u32, workers, statement))
}

fn is_word(bytes: &[u8], word: &str) -> bool
    ensures { result ≡ bytes_eq bytes.now word.now }
{
    bytes == word.as_bytes()
}

// The `start` command with these arguments.
fn read_start(rest: &[u8], form: Form) -> Option<Command<'_>>
    ensures asked { option_map requested result ≡ option_map (λ e. Start e.0 e.1.0 e.1.1) (event_arguments form rest.now) }
    ensures few { IfSome result HasWorkers }
{
    match event_arguments(rest, form) {
        Some(words) => Some(Command::Start(words)),
        None => None,
    }
}

// The `end` command with these arguments.
fn read_end(rest: &[u8], form: Form) -> Option<Command<'_>>
    ensures asked { option_map requested result ≡ option_map (λ e. End e.0 e.1.0 e.1.1) (event_arguments form rest.now) }
    ensures few { IfSome result HasWorkers }
{
    match event_arguments(rest, form) {
        Some(words) => Some(Command::End(words)),
        None => None,
    }
}

// The `ask` command with these arguments.
fn read_query(rest: &[u8]) -> Option<Command<'_>>
    ensures asked { option_map requested result ≡ option_map (λ a. Ask a.0 a.1.0 a.1.1) (query_arguments rest.now) }
    ensures few { IfSome result HasWorkers }
{
    let (n, workers, statement) = query_arguments(rest)?;
    Some(Command::Ask(n, workers, statement))
}

// The command with this first word and these arguments.
fn command_of<'a>(word: &[u8], rest: &'a [u8], form: Form) -> Option<Command<'a>>
    ensures asked { option_map requested result ≡ command_of form word.now rest.now }
    ensures few { IfSome result HasWorkers }
{
    if is_word(word, "start") {
        read_start(rest, form)
    } else if is_word(word, "end") {
        read_end(rest, form)
    } else if is_word(word, "ask") {
        read_query(rest)
    } else {
        None
    }
}

/// The command of a line; `None` if the line is not a command. `form` is how times are written.
pub fn read_command(line: &[u8], form: Form) -> Option<Command<'_>>
    ensures asked { option_map requested result ≡ request_of form line.now }
    ensures few { IfSome result HasWorkers }
{
    if is_word(line, "publish") {
        return Some(Command::Publish);
    }
    let (word, rest) = split_at_space(line)?;
    command_of(word, rest, form)
}
