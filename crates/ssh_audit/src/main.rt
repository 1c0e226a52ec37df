//! The program `ssh_audit`, an auditor of OpenSSH's `authorized_keys` and `known_hosts` files.
//!
//! It lists who is let in and what is wrong with a line. It reports which line admits a login or
//! trusts a host's key, which line revokes a key, and why other lines do not. It reports whether a
//! file signature is vouched for, and rewrites a trust file so that every answer stays the same.
#![tactic(auto)]

mod colour;
mod front;
mod kept;
mod laws;
mod surroundings;
mod system;
mod unread;
mod writers;

use colour::{Coloured, Printed, printed_by};
use kept::KeptFiles;
use ssh_files::{read_front, read_whole};
use ssh_program::{
    ListError, WordsError, asks_readable, asks_surroundings, defaults_line, fault_guidance,
    key_file_form, list_guidance, list_name, refuse, refuse_list, run, usage_guidance,
    with_defaults, with_list,
};
use ssh_review::left_out;
use std::alloc::{AllocError, Global};
use std::env::VarError;
use std::io::{ErrorKind, IsTerminal, Result};
use std::process::ExitCode;
use std::{env, io};
use surroundings::Known;
use system::SystemFiles;
use writers::{Retried, Watched};

/// The program's arguments after its own name.
fn read_words(rt: &HostRuntime) -> Result<Vec<String<Global>>> {
    let mut words = Vec::new(rt.alloc());
    for word in env::args(rt)?.skip(1) {
        words.push(word)?;
    }
    Ok(words)
}

/// The status where all was done.
const DONE: u8 = 0;

/// The status where there is no answer.
const FAULT: u8 = 2;

/// How many bytes of a key's file tell what it is.
const KEY_FRONT: usize = 512;

/// What needs nothing but memory.
type Outcome<T> = std::result::Result<T, AllocError>;

/// The files of the system, whose bytes may be remembered.
type Source<'a> = KeptFiles<SystemFiles<'a, HostRuntime>>;

/// The writer to standard output.
type Output<'a> = Watched<Retried<Coloured<io::Printer<'a, HostRuntime>>>>;

/// The same words as texts.
fn as_texts<'a>(rt: &HostRuntime, words: &'a [String<Global>]) -> Outcome<Vec<&'a str>> {
    let mut texts = Vec::new(rt.alloc());
    for word in words {
        texts.push(word.as_str())?;
    }
    Ok(texts)
}

/// What standard error says after an answer to these words.
fn guidance(
    rt: &HostRuntime,
    words: &[String<Global>],
    status: u8,
    writer: &Output<'_>,
) -> Outcome<Vec<u8>> {
    let texts = as_texts(rt, words)?;
    if status == FAULT && writer.is_usage() {
        usage_guidance(rt.alloc(), texts.as_slice())
    } else if status == FAULT && !writer.is_broken() {
        fault_guidance(rt.alloc(), texts.as_slice(), writer.front())
    } else {
        Ok(Vec::new(rt.alloc()))
    }
}

/// Prints a text to standard error. The exit status is the same if that write fails.
fn tell(rt: &HostRuntime, text: &[u8]) {
    if let Ok(text) = str::from_utf8(text) {
        let _reported = eprint!(rt; "{text}");
    }
}

/// Whether the environment names a terminal. A job of cron has none: it is reported on standard error
/// only where something is wrong, so that no mail comes of it.
fn has_terminal(rt: &HostRuntime) -> bool {
    match env::var(rt, "TERM") {
        Ok(terminal) => terminal.as_str() != "dumb",
        Err(_) => false,
    }
}

/// Whether the user asked for no colour (https://no-color.org).
fn wants_no_colour(rt: &HostRuntime) -> bool {
    match env::var(rt, "NO_COLOR") {
        Ok(value) => !value.as_str().is_empty(),
        Err(VarError::NotPresent) => false,
        Err(_) => true,
    }
}

/// What these words print that is shown in colour: nothing where standard output is no terminal,
/// and where the words are those of standard input.
fn read_printed(rt: &HostRuntime, words: &[String<Global>]) -> Option<Printed> {
    if !rt.stdout().is_terminal() || !has_terminal(rt) || wants_no_colour(rt) {
        return None;
    }
    let name = words.first()?;
    printed_by(name.as_str())
}

/// Prints what standard error says after an answer; where memory is refused for it, where the
/// manual is.
fn tell_guidance(rt: &HostRuntime, words: &[String<Global>], status: u8, writer: &Output<'_>) {
    match guidance(rt, words, status, writer) {
        Ok(text) => tell(rt, &text),
        Err(AllocError) => tell(rt, b"ssh_audit: see the manual page ssh_audit(1)\n"),
    }
}

/// The name of the file that `--key` gives.
fn key_name<'a>(words: &[&'a str]) -> Option<&'a str> {
    let mut is_next = false;
    for word in words {
        if is_next {
            return Some(*word);
        }
        if let Some(name) = word.strip_prefix("--key=") {
            return Some(name);
        }
        is_next = *word == "--key";
    }
    None
}

/// Prints what a file is that holds no public key line, where it can be reported by its first bytes.
fn tell_key_file(rt: &HostRuntime, name: &str, files: &mut Source<'_>) {
    if let Ok(front) = read_front(rt.alloc(), files, name, KEY_FRONT) {
        if let Some(form) = key_file_form(&front) {
            tell(rt, form.sentence().as_bytes());
        }
    }
}

/// The answer to the words, and what standard error says of it.
fn answer(
    rt: &HostRuntime,
    words: &[String<Global>],
    files: &mut Source<'_>,
    writer: &mut Output<'_>,
) -> u8 {
    let status = run(rt.alloc(), words, files, writer);
    tell_guidance(rt, words, status, writer);
    if status == FAULT && writer.front().starts_with(b"fault L".as_slice()) {
        if let Ok(texts) = as_texts(rt, words) {
            match key_name(texts.as_slice()) {
                Some("-") | None => {}
                Some(name) => tell_key_file(rt, name, files),
            }
        }
    }
    status
}

/// Prints which lines of a file were left out; where memory is refused for it, that some may be.
fn tell_left_out(rt: &HostRuntime, file: Option<&[u8]>) {
    let text = match file {
        Some(file) => left_out(rt.alloc(), file),
        None => Err(AllocError),
    };
    match text {
        Ok(text) => tell(rt, &text),
        Err(AllocError) => tell(
            rt,
            b"ssh_audit: no memory to tell which lines are left out\n",
        ),
    }
}

/// The answer to words that ask for the readable entries of a file, and which lines are left out.
fn answer_readable(
    rt: &HostRuntime,
    words: &[String<Global>],
    files: &mut Source<'_>,
    writer: &mut Output<'_>,
) -> u8 {
    files.keep_bytes();
    let status = answer(rt, words, files, writer);
    if status == DONE {
        tell_left_out(rt, files.bytes());
    }
    status
}

/// What is asked: the words with what they leave out, and the line that says what that is.
type Question = (Vec<String<Global>>, Vec<u8>);

/// The question of these words, which may leave something out.
fn read_question(rt: &HostRuntime, words: &[&str]) -> Outcome<Question> {
    let known = Known::read(rt, words)?;
    let around = known.as_surroundings();
    let line = defaults_line(rt.alloc(), words, &around)?;
    let reported = with_defaults(rt.alloc(), words, &around)?;
    Ok((reported, line))
}

/// The answer to a question that was read.
fn answer_read(
    rt: &HostRuntime,
    question: Question,
    files: &mut Source<'_>,
    writer: &mut Output<'_>,
) -> u8 {
    let (words, line) = question;
    let status = answer(rt, words.as_slice(), files, writer);
    if !(status == FAULT && writer.is_usage()) && has_terminal(rt) {
        tell(rt, &line);
    }
    status
}

/// The answer to a question that may leave something out.
fn answer_question(
    rt: &HostRuntime,
    words: &[&str],
    files: &mut Source<'_>,
    writer: &mut Output<'_>,
) -> u8 {
    match read_question(rt, words) {
        Ok(question) => answer_read(rt, question, files, writer),
        Err(AllocError) => refuse(WordsError::Memory, writer),
    }
}

/// The answer where there is no list of names, and what standard error says of it.
fn answer_no_list(rt: &HostRuntime, name: &str, error: ListError, writer: &mut Output<'_>) -> u8 {
    let status = refuse_list(error, writer);
    if error != ListError::Memory && !writer.is_broken() {
        if let Ok(text) = list_guidance(rt.alloc(), name, error) {
            tell(rt, &text);
        }
    }
    status
}

/// The question with the names of the list of this name. The list itself is not kept: what is asked
/// has a copy of each name, and a list may be long.
fn read_listed(
    rt: &HostRuntime,
    words: &[String<Global>],
    name: &str,
    files: &mut Source<'_>,
) -> std::result::Result<Question, ListError> {
    let list = read_whole(rt.alloc(), files, name)?;
    let texts = as_texts(rt, words)?;
    let listed = with_list(rt.alloc(), texts.as_slice(), &list)?;
    let question = read_question(rt, listed.as_slice())?;
    Ok(question)
}

/// The answer to a question with the list of names of this name: it is asked with its names.
fn answer_list(
    rt: &HostRuntime,
    words: &[String<Global>],
    name: &str,
    files: &mut Source<'_>,
    writer: &mut Output<'_>,
) -> u8 {
    match read_listed(rt, words, name, files) {
        Ok(question) => answer_read(rt, question, files, writer),
        Err(error) => answer_no_list(rt, name, error, writer),
    }
}

/// The answer to a question that may leave something out, and may name a list of names.
fn answer_asked(
    rt: &HostRuntime,
    words: &[String<Global>],
    texts: &[&str],
    files: &mut Source<'_>,
    writer: &mut Output<'_>,
) -> u8 {
    match list_name(rt.alloc(), texts) {
        Ok(Some(name)) => answer_list(rt, words, name, files, writer),
        Ok(None) => answer_question(rt, texts, files, writer),
        Err(AllocError) => refuse(WordsError::Memory, writer),
    }
}

/// The answer to the words, with what a question leaves out.
fn answer_words(
    rt: &HostRuntime,
    words: &[String<Global>],
    files: &mut Source<'_>,
    writer: &mut Output<'_>,
) -> u8 {
    match as_texts(rt, words) {
        Ok(texts) if asks_surroundings(texts.as_slice()) => {
            answer_asked(rt, words, texts.as_slice(), files, writer)
        }
        Ok(texts) if asks_readable(texts.as_slice()) => answer_readable(rt, words, files, writer),
        Ok(_) => answer(rt, words, files, writer),
        Err(AllocError) => refuse(WordsError::Memory, writer),
    }
}

/// The answer to words that cannot be read.
fn answer_unread(rt: &HostRuntime, fault: WordsError, writer: &mut Output<'_>) -> u8 {
    let status = refuse(fault, writer);
    if writer.is_usage() {
        tell(rt, b"ssh_audit: an argument is not UTF-8\n");
    }
    status
}

fn main(rt: HostRuntime) -> ExitCode {
    let mut files = KeptFiles::new(rt.alloc(), SystemFiles::new(rt.alloc(), &rt));
    let words = read_words(&rt);
    let printed = match &words {
        Ok(words) => read_printed(&rt, words.as_slice()),
        Err(_) => None,
    };
    let mut writer = Watched::new(Retried::new(Coloured::new(io::writer(&rt), printed)));
    let status = match words {
        Ok(words) => answer_words(&rt, words.as_slice(), &mut files, &mut writer),
        Err(error) if error.kind() == ErrorKind::OutOfMemory => {
            answer_unread(&rt, WordsError::Memory, &mut writer)
        }
        Err(_) => answer_unread(&rt, WordsError::Usage, &mut writer),
    };
    tell(&rt, files.source().unread());
    ExitCode::from(status)
}
