//! The words of a question with the values that they stand for: the seconds of a date, the rule of
//! a zone by its name, a host and its port.

ghost use Rattle.std.specs.Prelude.{◌≡◌, ◌++◌, OnOk, map, nat_eq, option_map, string_bytes, unwrap_or};
ghost use Rattle.std.specs.List.{flat_map, starts_with};
ghost use Rattle.ssh_program.specs.Defaults.{given_words, parts_hosts, parts_if, reported_at, reported_by, reported_option, reported_value, reported_word, reported_words};
ghost use Rattle.ssh_program.specs.DefaultsView.{around_seen, text_seen};
ghost use Rattle.ssh_program.specs.HostPortsView.{pair_seen};
ghost use Rattle.ssh_program.specs.WordPlaces.{is_given};
ghost use Rattle.ssh_program.specs.WordPlacesView.{word_seen};

use crate::args::ArgName;
use crate::defaults::{Surroundings, push_text};
use crate::host_port::{parts_in, push_parted};
use crate::subcommand::Subcommand;
use crate::word::{Place, Word, is_given};
use std::alloc::{AllocError, Global};

/// Appends the value of an option. Behind `--now` and `--zone` it may stand for another.
fn push_value(
    alloc: Global,
    out: &mut Vec<String>,
    around: &Surroundings<'_>,
    before: &[u8],
    text: &str,
) -> Result<(), AllocError>
    ensures { OnOk result (map string_bytes out.new.items ≡ map string_bytes out.old.items
        ++ reported_value (around_seen around.now) before.now text.now) }
{
    if before == b"--now".as_slice() {
        push_text(alloc, out, around.given_time.unwrap_or(text))
    } else if before == b"--zone".as_slice() {
        push_text(alloc, out, around.given_zone.unwrap_or(text))
    } else {
        push_text(alloc, out, text)
    }
}

/// Appends an option with the value that it stands for, if there is one, and else the word.
fn push_given(
    alloc: Global,
    out: &mut Vec<String>,
    name: &str,
    value: Option<&str>,
    word: &str,
) -> Result<(), AllocError>
    ensures { OnOk result (map string_bytes out.new.items ≡ map string_bytes out.old.items
        ++ given_words name.now (text_seen value.entry) word.now) }
{
    match value {
        None => push_text(alloc, out, word),
        Some(value) => {
            push_text(alloc, out, name)?;
            push_text(alloc, out, value)
        }
    }
}

/// Appends a word that may be an option with its value.
fn push_open(
    alloc: Global,
    out: &mut Vec<String>,
    around: &Surroundings<'_>,
    text: &str,
) -> Result<(), AllocError>
    ensures { OnOk result (map string_bytes out.new.items ≡ map string_bytes out.old.items
        ++ reported_option (around_seen around.now) text.now) }
{
    if text.as_bytes().starts_with(b"--now=".as_slice()) {
        push_given(alloc, out, "--now", around.given_time, text)
    } else if text.as_bytes().starts_with(b"--zone=".as_slice()) {
        push_given(alloc, out, "--zone", around.given_zone, text)
    } else {
        push_text(alloc, out, text)
    }
}

/// Appends a word of the question.
fn push_word(
    alloc: Global,
    out: &mut Vec<String>,
    around: &Surroundings<'_>,
    word: &Word<'_>,
) -> Result<(), AllocError>
    ensures { OnOk result (map string_bytes out.new.items ≡ map string_bytes out.old.items
        ++ reported_word (around_seen around.now) (word_seen word.now)) }
{
    match word.place {
        Place::Open => push_open(alloc, out, around, word.text),
        Place::AfterOption => push_value(alloc, out, around, word.before, word.text),
        Place::Behind => push_text(alloc, out, word.text),
    }
}

/// Whether a port in the value of `--host` is that of `--port`.
pub fn parts_hosts(command: Subcommand, words: &[Word<'_>]) -> bool
    ensures { result ≡ parts_hosts command (map word_seen words.now) }
{
    match command {
        Subcommand::Trusts => !is_given(ArgName::Port, words),
        _ => false,
    }
}

/// The host and the port that a word gives, where they are asked apart.
fn parts_if<'a>(is_apart: bool, word: &Word<'a>) -> Option<(&'a str, &'a str)>
    ensures { option_map pair_seen result ≡ parts_if is_apart (word_seen word.now) }
{
    if is_apart { parts_in(word) } else { None }
}

/// Appends a word of the question, a host and its port as two options.
fn push_reported(
    alloc: Global,
    out: &mut Vec<String>,
    is_apart: bool,
    around: &Surroundings<'_>,
    word: &Word<'_>,
) -> Result<(), AllocError>
    ensures { OnOk result (map string_bytes out.new.items ≡ map string_bytes out.old.items
        ++ reported_words is_apart (around_seen around.now) (word_seen word.now)) }
{
    match parts_if(is_apart, word) {
        Some(parts) => push_parted(alloc, out, word.place, parts),
        None => push_word(alloc, out, around, word),
    }
}

/// Appends the words of the question.
pub fn push_words(
    alloc: Global,
    out: &mut Vec<String>,
    is_apart: bool,
    around: &Surroundings<'_>,
    words: &[Word<'_>],
) -> Result<(), AllocError>
    ensures { OnOk result (map string_bytes out.new.items ≡ map string_bytes out.old.items
        ++ flat_map (reported_words is_apart (around_seen around.now)) (map word_seen words.now)) }
{
    for word in words {
        push_reported(alloc, out, is_apart, around, word)?;
    }
    Ok(())
}
