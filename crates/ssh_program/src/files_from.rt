//! A question with a list of names, `review --files-from LIST`: the words that are asked in its place.

ghost use Rattle.std.specs.Prelude.{◌≡◌, ◌++◌, ◌∷◌, IfOk, OnOk, map, option_and_then, option_map};
ghost use Rattle.std.specs.List.{flat_map, list_any};
ghost use Rattle.ssh_program.specs.FilesFrom.{asked_by, with_list, dashes, ends_options, first_list, kept_at, kept_words, list_by, list_in, list_name, list_of, listed_words, naming_in, reads_input, reads_twice, value_of_list};
ghost use Rattle.ssh_program.specs.HostPorts.{cut};
ghost use Rattle.ssh_program.specs.NameLists.{Lists};
ghost use Rattle.ssh_program.specs.WordPlaces.{in_turn};
ghost use Rattle.ssh_program.specs.WordPlacesView.{word_seen};

use crate::args::ArgName;
use crate::guidance::any_asks_help;
use crate::host_port::cut;
use crate::name_list::{ListError, list_names};
use crate::naming::Naming;
use crate::subcommand::Subcommand;
use crate::word::{Place, Word, in_turn, is_flag, is_given, is_given_twice, names_option};
use std::alloc::{AllocError, Global};

/// The value in `--files-from=VALUE`.
fn open_value(text: &str) -> Option<&str>
    ensures { option_map (λ value. value.now) result
        ≡ option_and_then value_of_list (cut 61 text.now) }
{
    let (name, value) = cut(text, '=')?;
    if name == "--files-from" {
        Some(value)
    } else {
        None
    }
}

/// The list that a word names.
fn list_of<'a>(word: &Word<'a>) -> Option<&'a str>
    ensures { option_map (λ name. name.now) result ≡ list_of (word_seen word.now) }
{
    match word.place {
        Place::Open => open_value(word.text),
        Place::AfterOption if word.before == b"--files-from".as_slice() && !is_flag(word.text) => {
            Some(word.text)
        }
        _ => None,
    }
}

/// The first list that the words name.
fn first_list<'a>(words: &[Word<'a>]) -> Option<&'a str>
    ensures { option_map (λ name. name.now) result ≡ first_list (map word_seen words.now) }
{
    for word in words {
        if let Some(name) = list_of(word) {
            return Some(name);
        }
    }
    None
}

/// The list that the words name. Where the option is given twice or help is asked for, no list is
/// read: these words are a usage fault.
fn list_in<'a>(words: &[Word<'a>]) -> Option<&'a str>
    ensures { option_map (λ name. name.now) result ≡ list_in (map word_seen words.now) }
{
    if is_given_twice(ArgName::FilesFrom, words) || any_asks_help(words) {
        None
    } else {
        first_list(words)
    }
}

/// The list that the words after the name of a command name. `review` alone takes one.
fn list_by<'a>(
    alloc: Global,
    command: Option<Subcommand>,
    words: &[&'a str],
) -> Result<Option<&'a str>, AllocError>
    ensures { IfOk result (λ name. option_map (λ n. n.now) name
        ≡ list_by command (in_turn (map (λ word. word.now) words.entry.now))) }
{
    match command {
        Some(Subcommand::Review) => {
            let turn = in_turn(alloc, words)?;
            Ok(list_in(turn.as_slice()))
        }
        _ => Ok(None),
    }
}

/// The name of the list that the words of the program name; `None` where they name none.
pub fn list_name<'a>(alloc: Global, words: &[&'a str]) -> Result<Option<&'a str>, AllocError>
    ensures { IfOk result (λ name. option_map (λ n. n.now) name
        ≡ list_name (map (λ word. word.now) words.entry.now)) }
{
    match words.split_first() {
        None => Ok(None),
        Some((command, rest)) => list_by(alloc, Subcommand::named(command), rest),
    }
}

/// Whether a word is no part of the option.
fn is_kept(word: &Word<'_>) -> bool
    ensures { result ≡ kept_at (word_seen word.now).place (word_seen word.now) }
{
    match word.place {
        Place::Open => !names_option(ArgName::FilesFrom, word.text.as_bytes()),
        Place::AfterOption => word.before != b"--files-from".as_slice(),
        Place::Behind => true,
    }
}

fn push_kept_word<'a>(out: &mut Vec<&'a str>, word: &Word<'a>) -> Result<(), AllocError>
    ensures { OnOk result (map (λ word. word.now) out.new.items
        ≡ map (λ word. word.now) out.old.items ++ kept_words (word_seen word.now)) }
{
    if is_kept(word) {
        out.push(word.text)?;
    }
    Ok(())
}

/// Appends the words without the option and its value.
fn push_kept<'a>(out: &mut Vec<&'a str>, words: &[Word<'a>]) -> Result<(), AllocError>
    ensures { OnOk result (map (λ word. word.now) out.new.items
        ≡ map (λ word. word.now) out.old.items ++ flat_map kept_words (map word_seen words.now)) }
{
    for word in words {
        push_kept_word(out, word)?;
    }
    Ok(())
}

fn ends_options(word: &Word<'_>) -> bool
    ensures { result ≡ ends_options (word_seen word.now) }
{
    match word.place {
        Place::Open => word.text == "--",
        _ => false,
    }
}

fn any_ends_options(words: &[Word<'_>]) -> bool
    ensures { result ≡ list_any ends_options (map word_seen words.now) }
{
    words.iter().any(|word| ends_options(word))
}

/// Appends `--`, unless a word ends the options.
fn push_dashes<'a>(out: &mut Vec<&'a str>, words: &[Word<'a>]) -> Result<(), AllocError>
    ensures { OnOk result (map (λ word. word.now) out.new.items
        ≡ map (λ word. word.now) out.old.items ++ dashes (map word_seen words.now)) }
{
    if !any_ends_options(words) {
        out.push("--")?;
    }
    Ok(())
}

/// Whether a word that is kept has standard input read.
fn reads_input(word: &Word<'_>) -> bool
    ensures { result ≡ reads_input (word_seen word.now) }
{
    is_kept(word) && (word.text == "-" || word.text == "--key=-")
}

fn any_reads_input(words: &[Word<'_>]) -> bool
    ensures { result ≡ list_any reads_input (map word_seen words.now) }
{
    words.iter().any(|word| reads_input(word))
}

/// Whether the list is standard input, and another word has that read too.
fn reads_twice(words: &[Word<'_>]) -> bool
    ensures { result ≡ reads_twice (map word_seen words.now) }
{
    match list_in(words) {
        Some(name) => name == "-" && any_reads_input(words),
        None => false,
    }
}

/// The words of a command without the option and its value, and behind them these names.
fn listed_words<'a>(
    alloc: Global,
    command: &'a str,
    words: &[Word<'a>],
    names: &[&'a str],
) -> Result<Vec<&'a str>, AllocError>
    ensures { IfOk result (λ reported. map (λ word. word.now) reported.items ≡ command.entry.now
        ∷ listed_words (map word_seen words.entry.now) (map (λ name. name.now) names.entry.now)) }
{
    let room = words.len().saturating_add(names.len()).saturating_add(2);
    let mut reported = Vec::with_capacity(alloc, room)?;
    reported.push(command)?;
    push_kept(&mut reported, words)?;
    push_dashes(&mut reported, words)?;
    reported.extend_from_slice(names)?;
    Ok(reported)
}

/// What the names of the list are: with labels where the option for them is given.
fn naming_in(words: &[Word<'_>]) -> Naming
    ensures { result ≡ naming_in (map word_seen words.now) }
{
    if is_given(ArgName::Labels, words) {
        Naming::Labelled
    } else {
        Naming::Path
    }
}

/// The words of a command, with the names of this list.
fn asked_by<'a>(
    alloc: Global,
    command: &'a str,
    words: &[Word<'a>],
    list: &'a [u8],
) -> Result<Vec<&'a str>, ListError>
    ensures { Lists (λ reported. map (λ word. word.now) reported.items)
        (asked_by command.entry.now (map word_seen words.entry.now) list.entry.now) result }
{
    if reads_twice(words) {
        return Err(ListError::Input);
    }
    match list_names(alloc, naming_in(words), list) {
        Ok(names) => Ok(listed_words(alloc, command, words, names.as_slice())?),
        Err(error) => Err(error),
    }
}

/// The words of the program that are asked in place of these, which name a list of these bytes: the
/// words without the option and its value, in their order, and behind them the names of the list, in
/// theirs. Each of these is the name of a file, whatever it begins with.
pub fn with_list<'a>(
    alloc: Global,
    words: &[&'a str],
    list: &'a [u8],
) -> Result<Vec<&'a str>, ListError>
    ensures { Lists (λ reported. map (λ word. word.now) reported.items)
        (with_list (map (λ word. word.now) words.entry.now) list.entry.now) result }
{
    match words.split_first() {
        None => Ok(Vec::new(alloc)),
        Some((command, rest)) => {
            let turn = in_turn(alloc, rest)?;
            asked_by(alloc, command, turn.as_slice(), list)
        }
    }
}
