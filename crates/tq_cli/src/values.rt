// The values that clap found for arguments.

ghost use Rattle.std.specs.Prelude.{◌≡◌, ◌∷◌, ◌++◌, IfOk, IfErr, IfSome, Contains, None, map};
ghost use Rattle.std.specs.List.{Any};
ghost use Rattle.clap.specs.Words.{found_of, rows_of};
ghost use Rattle.tq_cli.specs.CommandLine.{IsTablesOf, bytes_in, form_of, is_given, is_named, is_set, list_of, number_of, stdin_count, text_of};

use crate::command_line::CommandLineFault;
use crate::request::TableOption;
use crate::words::bytes_of;
use clap::ArgMatches;
use std::alloc::{AllocError, Global};
use tq_base::Form;

/// The tables that the words name, in their order.
pub(crate) fn read_options(
    alloc: Global,
    words: &[&str],
) -> Result<Vec<TableOption>, CommandLineFault>
    ensures tables { IfOk result (λ tables. IsTablesOf (map (λ w. bytes_in w.now) words.now) tables.items) }
    ensures refused { IfErr result (λ fault. fault ≡ CommandLineFault.BadCommandLine
        → Any (λ word. ¬ (Contains word 61)) (map (λ w. bytes_in w.now) words.now)) }
{
    let mut tables = Vec::new(alloc);
    'words: for word in words {
        let word = bytes_of(alloc, word)?;
        tables
            .push(split_table(alloc, &word)?)
            .map_err(AllocError::from)?;
    }
    Ok(tables)
}

/// How many of the tables come from standard input.
pub(crate) fn count_stdin(tables: &[TableOption]) -> usize
    ensures { result ≡ stdin_count tables.now }
{
    tables
        .iter()
        .filter(|table| table.path.as_slice() == b"-".as_slice())
        .count()
}

/// The first value of an argument, or no text.
pub(crate) fn read_text<'a>(command: &ArgMatches<'a>, id: &str) -> &'a str
    ensures { result.now ≡ text_of id.now (rows_of (found_of command.now)) }
{
    command.get_str(id).unwrap_or("")
}

/// Whether an argument is given.
pub(crate) fn is_given(command: &ArgMatches<'_>, id: &str) -> bool
    ensures { result ≡ is_given id.now (rows_of (found_of command.now)) }
{
    command.get_str(id).is_some()
}

/// Whether an argument is given that is not empty.
pub(crate) fn is_named(command: &ArgMatches<'_>, id: &str) -> bool
    ensures { result ≡ is_named id.now (rows_of (found_of command.now)) }
{
    !read_text(command, id).is_empty()
}

/// Whether a flag is given.
pub(crate) fn read_flag(command: &ArgMatches<'_>, id: &str) -> bool
    ensures { result ≡ is_set id.now (rows_of (found_of command.now)) }
{
    command.get_one::<bool>(id).unwrap_or(false)
}

/// The number of an argument, or 0.
pub(crate) fn read_number(command: &ArgMatches<'_>, id: &str) -> u32
    ensures { result ≡ number_of id.now (rows_of (found_of command.now)) }
{
    command.get_one::<u32>(id).unwrap_or(0)
}

/// How the instants of a command are written.
pub(crate) fn read_form(command: &ArgMatches<'_>) -> Form
    ensures { result ≡ form_of (rows_of (found_of command.now)) }
{
    if read_flag(command, "dates") {
        Form::Dates
    } else {
        Form::Numbers
    }
}

/// The bytes of each word.
pub(crate) fn words_bytes(alloc: Global, words: &[&str]) -> Result<Vec<Vec<u8>>, AllocError>
    ensures { IfOk result (λ all. map (λ w. w.items) all.items ≡ map (λ w. bytes_in w.now) words.now) }
{
    let mut all = Vec::new(alloc);
    'each: for word in words {
        all.push(bytes_of(alloc, word)?).map_err(AllocError::from)?;
    }
    Ok(all)
}

/// The values of an argument, in their order.
pub(crate) fn read_list(
    alloc: Global,
    command: &ArgMatches<'_>,
    id: &str,
) -> Result<Vec<Vec<u8>>, AllocError>
    ensures { IfOk result (λ words. map (λ w. w.items) words.items ≡ list_of id.now (rows_of (found_of command.now))) }
{
    words_bytes(alloc, command.get_strs(id).unwrap_or(&[]))
}

/// What stands before and after the first such byte of a word. `None` if there is none.
pub(crate) fn split_word(word: &[u8], sign: u8) -> Option<(&[u8], &[u8])>
    ensures split { IfSome result (λ parts. word.entry.now ≡ parts.0.now ++ sign ∷ parts.1.now) }
    ensures first { IfSome result (λ parts. ¬ (Contains parts.0.now sign)) }
    ensures none { result ≡ None → ¬ (Contains word.entry.now sign) }
{
    match word.iter().position(|byte| *byte == sign) {
        Some(place) => Some((&word[..place], &word[place + 1..])),
        None => None,
    }
}

/// A table's name and path: what stands before and after the first `=`. Without one the word is refused.
pub(crate) fn split_table(alloc: Global, word: &[u8]) -> Result<TableOption, CommandLineFault>
    ensures split { IfOk result (λ table. word.now ≡ table.name.items ++ 61 ∷ table.path.items) }
    ensures first { IfOk result (λ table. ¬ (Contains table.name.items 61)) }
    ensures refused { IfErr result (λ fault. fault ≡ CommandLineFault.BadCommandLine → ¬ (Contains word.now 61)) }
{
    match split_word(word, b'=') {
        Some((name, path)) => {
            let name = name.to_vec(alloc)?;
            let path = path.to_vec(alloc)?;
            Ok(TableOption { name, path })
        }
        None => Err(CommandLineFault::BadCommandLine),
    }
}
