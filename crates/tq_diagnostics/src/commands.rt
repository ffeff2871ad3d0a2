// Messages about the lines of a session that are not commands.

ghost use Rattle.std.specs.Prelude.{◌≡◌, ◌<◌, ◌==◌, ◌++◌, IfOk, IfSome, OnOk, length, position};
ghost use Rattle.std.specs.Str.{bytes_eq};
ghost use Rattle.tq_diagnostics.specs.Commands as spec;

use crate::listing::push_listed;
use crate::nearest::push_nearest;
use std::alloc::{AllocError, Global};
use tq_base::Form;

fn find_space(line: &[u8]) -> Option<usize>
    ensures place { result ≡ position (λ byte. byte == 32) line.now }
    ensures within { IfSome result (λ place. place < length line.now) }
{
    line.iter().position(|byte| *byte == b' ')
}

// The bytes before the first space.
fn line_word(line: &[u8]) -> &[u8]
    ensures { result.now ≡ spec.line_word line.entry.now }
{
    match find_space(line) {
        Some(place) => &line[..place],
        None => line,
    }
}

fn is_word(bytes: &[u8], word: &str) -> bool
    ensures { result ≡ bytes_eq bytes.now word.now }
{
    bytes == word.as_bytes()
}

fn start_usage(form: Form) -> &'static [u8]
    ensures { result.now ≡ spec.start_usage form }
{
    match form {
        Form::Numbers => b"  write `start TABLE TIME VALUES`, as in `start emp 40 4,dan,toys`\n",
        Form::Dates => {
            b"  write `start TABLE TIME VALUES`, as in `start emp 2024-02-29 4,dan,toys`\n"
        }
    }
}

fn end_usage(form: Form) -> &'static [u8]
    ensures { result.now ≡ spec.end_usage form }
{
    match form {
        Form::Numbers => b"  write `end TABLE TIME VALUES`, as in `end emp 50 4,dan,toys`\n",
        Form::Dates => b"  write `end TABLE TIME VALUES`, as in `end emp 2024-07-01 4,dan,toys`\n",
    }
}

// How the command with this name is written; empty for another word.
fn usage_of(form: Form, word: &[u8]) -> &'static [u8]
    ensures { result.now ≡ spec.usage_of form word.now }
{
    if is_word(word, "start") {
        start_usage(form)
    } else if is_word(word, "end") {
        end_usage(form)
    } else if is_word(word, "publish") {
        b"  write `publish` in lower case, with nothing after it\n"
    } else if is_word(word, "ask") {
        b"  write `ask COUNT WORKERS STATEMENT` with 1 to 16 workers, as in `ask 9 1 VALIDTIME SELECT name FROM emp`\n"
    } else {
        b""
    }
}

// Appends the names of the commands, after the one that is nearest to the word.
fn push_unknown_command(alloc: Global, text: &mut Vec<u8>, word: &[u8]) -> Result<(), AllocError>
    ensures { OnOk result (text.new.items ≡ text.old.items ++ spec.unknown_command_lines word.now) }
{
    let names = [
        b"start".as_slice(),
        b"end".as_slice(),
        b"publish".as_slice(),
        b"ask".as_slice(),
        b"help".as_slice(),
    ];
    push_nearest(alloc, text, word, &names)?;
    push_listed(text, b"commands", &names)
}

// Appends how the command is written or, if `usage` is empty, the names of the commands.
fn push_usage(
    alloc: Global,
    text: &mut Vec<u8>,
    word: &[u8],
    usage: &[u8],
) -> Result<(), AllocError>
    ensures { OnOk result (text.new.items ≡ text.old.items ++ spec.usage_lines word.now usage.now) }
{
    if usage.len() > 0 {
        return text.extend_from_slice(usage);
    }
    push_unknown_command(alloc, text, word)
}

fn is_help(word: &[u8]) -> bool
    ensures { result ≡ spec.is_help word.now }
{
    is_word(word, "help") || is_word(word, "?")
}

fn start_help(form: Form) -> &'static [u8]
    ensures { result.now ≡ spec.start_help form }
{
    match form {
        Form::Numbers => {
            b"  start TABLE TIME VALUES      a row starts, as in `start emp 40 4,dan,toys`\n"
        }
        Form::Dates => {
            b"  start TABLE TIME VALUES      a row starts, as in `start emp 2024-02-29 4,dan,toys`\n"
        }
    }
}

fn end_help(form: Form) -> &'static [u8]
    ensures { result.now ≡ spec.end_help form }
{
    match form {
        Form::Numbers => {
            b"  end TABLE TIME VALUES        it ends, as in `end emp 50 4,dan,toys`\n"
        }
        Form::Dates => {
            b"  end TABLE TIME VALUES        it ends, as in `end emp 2024-07-01 4,dan,toys`\n"
        }
    }
}

// Appends all commands, and how a session ends.
fn push_help(text: &mut Vec<u8>, form: Form) -> Result<(), AllocError>
    ensures { OnOk result (text.new.items ≡ text.old.items ++ spec.help_text form) }
{
    text.extend_from_slice(start_help(form))?;
    text.extend_from_slice(end_help(form))?;
    text.extend_from_slice(
        b"  publish                      starts and ends become visible to ask\n",
    )?;
    text.extend_from_slice(
        b"  ask COUNT WORKERS STATEMENT  answers as of the first COUNT published events,\n",
    )?;
    text.extend_from_slice(
        b"                               as in `ask 9 1 VALIDTIME SELECT name FROM emp`\n",
    )?;
    text.extend_from_slice(
        b"  the end of the input ends the session; at a terminal this is Ctrl-D\n",
    )
}

// Appends the message for the first word of a line in lower case.
fn push_word_lines(
    alloc: Global,
    text: &mut Vec<u8>,
    form: Form,
    word: &[u8],
) -> Result<(), AllocError>
    ensures { OnOk result (text.new.items ≡ text.old.items ++ spec.word_lines form word.now) }
{
    if is_help(word) {
        return push_help(text, form);
    }
    push_usage(alloc, text, word, usage_of(form, word))
}

/// The message for a line of a session that is not a command: how the command of its first word is written, the help if
/// that is `help` or `?`, or else the names of the commands. `form` is how times are written. `AllocError` if an
/// allocation failed.
pub fn explain_command(alloc: Global, line: &[u8], form: Form) -> Result<Vec<u8>, AllocError>
    ensures { IfOk result (λ text. text.items ≡ spec.command_detail form line.now) }
{
    let mut text = Vec::new(alloc);
    let word = line_word(line).to_ascii_lowercase(alloc)?;
    push_word_lines(alloc, &mut text, form, &word)?;
    Ok(text)
}
