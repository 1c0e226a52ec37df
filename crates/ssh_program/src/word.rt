//! What the words after the name of a command are read as, before their values are.

ghost use Rattle.std.specs.Prelude.{◌≡◌, ◌≤◌, ◌<◌, IfOk, IfSome, drop, map, length, position};
ghost use Rattle.ssh_program.specs.WordPlaces.{after_open, ends_name, gives, has_equals, has_operand, in_turn, is_bare, is_flag, is_given, is_given_twice, is_long, is_named, is_operand, names_option, place_after};
ghost use Rattle.ssh_program.specs.WordPlacesView.{word_seen};

use crate::args::ArgName;
use std::alloc::{AllocError, Global};

/// Where a word stands.
#[derive(Clone, Copy, Debug, PartialEq, Eq)]
pub enum Place {
    /// It may be an option or an operand.
    Open,
    /// An option takes it as its value.
    AfterOption,
    /// Behind `--`: it is an operand.
    Behind,
}

/// A word, where it stands, and the word before it.
#[derive(Clone, Copy, Debug)]
pub struct Word<'a> {
    pub before: &'a [u8],
    pub place: Place,
    pub text: &'a str,
}

fn has_equals(word: &[u8]) -> bool
    ensures { result ≡ has_equals word.now }
{
    word.iter().any(|byte| *byte == b'=')
}

fn is_long(word: &[u8]) -> bool
    ensures { result ≡ is_long word.now }
{
    word.starts_with(b"--".as_slice())
}

/// Whether a word is read as an option; `-` alone is the name of standard input.
pub fn is_flag(word: &str) -> bool
    ensures { result ≡ is_flag word.now }
{
    word.as_bytes().starts_with(b"-".as_slice()) && word != "-"
}

/// Whether a word is an option that takes the next word as its value.
pub fn is_bare(word: &str) -> bool
    ensures { result ≡ is_bare word.now }
{
    is_long(word.as_bytes()) && !has_equals(word.as_bytes())
}

/// Whether the name of an option ends where this text begins: at the end of the word, or at `=`.
fn ends_name(text: &[u8]) -> bool
    ensures { result ≡ ends_name text.now }
{
    text.is_empty() || text[0] == b'='
}

/// Whether a text is this name, or begins with it and `=`.
fn is_named(name: &[u8], text: &[u8]) -> bool
    ensures { result ≡ is_named name.now text.now }
{
    text.starts_with(name) && ends_name(&text[name.len()..])
}

/// The text without its first two bytes.
fn after_dashes(word: &[u8]) -> &[u8]
    requires { 2 ≤ length word.now }
    ensures { result.now ≡ drop 2 word.now }
{
    &word[2..]
}

/// Whether a word is `--NAME` or `--NAME=VALUE`.
pub fn names_option(option: ArgName, word: &[u8]) -> bool
    ensures { result ≡ names_option option word.now }
{
    word.starts_with(b"--".as_slice()) && is_named(option.name().as_bytes(), after_dashes(word))
}

fn after_open(word: &str) -> Place
    ensures { result ≡ after_open word.now }
{
    if word == "--" {
        Place::Behind
    } else if is_bare(word) {
        Place::AfterOption
    } else {
        Place::Open
    }
}

/// The place after a word.
fn place_after(place: Place, word: &str) -> Place
    ensures { result ≡ place_after place word.now }
{
    match place {
        Place::Open => after_open(word),
        Place::AfterOption => Place::Open,
        Place::Behind => Place::Behind,
    }
}

/// The words after the name of a command, with their places.
pub fn in_turn<'a>(alloc: Global, words: &[&'a str]) -> Result<Vec<Word<'a>>, AllocError>
    ensures { IfOk result (λ turn. map word_seen turn.items
        ≡ in_turn (map (λ word. word.now) words.entry.now)) }
{
    let mut turn = Vec::with_capacity(alloc, words.len())?;
    let mut before: &'a [u8] = b"".as_slice();
    let mut place = Place::Open;
    for word in words {
        turn.push(Word {
            before,
            place,
            text: word,
        })?;
        place = place_after(place, word);
        before = word.as_bytes();
    }
    Ok(turn)
}

/// Whether a word gives the option.
fn gives(option: ArgName, word: &Word<'_>) -> bool
    ensures { result ≡ gives option (word_seen word.now) }
{
    match word.place {
        Place::Open => names_option(option, word.text.as_bytes()),
        _ => false,
    }
}

/// Whether the words give the option.
pub fn is_given(option: ArgName, words: &[Word<'_>]) -> bool
    ensures { result ≡ is_given option (map word_seen words.now) }
{
    words.iter().any(|word| gives(option, word))
}

/// The place of the first word that gives the option.
fn first_given(option: ArgName, words: &[Word<'_>]) -> Option<usize>
    ensures place { result ≡ position (gives option) (map word_seen words.now) }
    ensures bound { IfSome result (λ place. place < length words.now) }
{
    words.iter().position(|word| gives(option, word))
}

/// Whether the words give the option more than once.
pub fn is_given_twice(option: ArgName, words: &[Word<'_>]) -> bool
    ensures { result ≡ is_given_twice option (map word_seen words.now) }
{
    match first_given(option, words) {
        Some(place) => is_given(option, words.split_at(place + 1).1),
        None => false,
    }
}

/// Whether a word is an operand.
pub fn is_operand(word: &Word<'_>) -> bool
    ensures { result ≡ is_operand (word_seen word.now) }
{
    match word.place {
        Place::Open => !is_flag(word.text),
        Place::AfterOption => false,
        Place::Behind => true,
    }
}

/// Whether there is an operand among the words.
pub fn has_operand(words: &[Word<'_>]) -> bool
    ensures { result ≡ has_operand (map word_seen words.now) }
{
    words.iter().any(|word| is_operand(word))
}
