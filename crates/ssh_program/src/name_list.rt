//! A list of names of files: its names, which texts are none, and what is reported where there is no list.

ghost use Rattle.std.specs.Prelude.{◌≡◌, ◌++◌, ◌==◌, ◌<◌, IfOk, OnOk, map};
ghost use Rattle.std.specs.List.{after_first, before_first, list_any};
ghost use Rattle.ssh_program.specs.Account.{NoneFailed};
ghost use Rattle.ssh_program.specs.NameLists.{Lists, fault_words, is_nul, is_tab, list_guidance, list_names, list_response, list_why, name_end, name_fault, names_read, path_fault, reported_why, tab_fault, unread_list, why_line};
ghost use Rattle.ssh_program.specs.Printing.{WritesResponse};
ghost use Rattle.ssh_program.specs.declared.name_list.ListError.TheVariants.{Memory, Name};

use crate::args::ArgName;
use crate::guidance::{push_wanted, text_of};
use crate::naming::{Naming, labelled};
use crate::printing::put_fault;
use crate::sink::Sink;
use ssh_files::ReadError;
use ssh_print::{push_escaped, push_number};
use std::alloc::{AllocError, Global};

/// Why a text is no name of a file in a list.
#[derive(Clone, Copy, Debug, PartialEq, Eq)]
pub enum NameFault {
    Empty,
    /// It is `-`, standard input.
    Input,
    /// It has a tab, and names have no labels.
    Tab,
    /// It lacks the labels that names are to have.
    Unlabelled,
}

/// Why there is no list of names to ask with.
#[derive(Clone, Copy, Debug, PartialEq, Eq)]
pub enum ListError {
    /// It is not there, or a read failed.
    Unread,
    TooLong,
    /// It is standard input, which another word has read too.
    Input,
    /// It is not UTF-8.
    NotText,
    NoName,
    /// The name of this number, from 1, is none.
    Name(NameFault, usize),
    Memory,
}

impl From<AllocError> for ListError {
    ghost from_gives = { λ x e. e ≡ Memory };

    fn from(_: AllocError) -> ListError {
        ListError::Memory
    }
}

impl From<ReadError> for ListError {
    ghost from_gives = { λ error e. e ≡ unread_list error };

    fn from(error: ReadError) -> ListError {
        match error {
            ReadError::Missing | ReadError::Failed => ListError::Unread,
            ReadError::TooLong => ListError::TooLong,
            ReadError::Memory => ListError::Memory,
        }
    }
}

fn has_nul(text: &[u8]) -> bool
    ensures { result ≡ list_any is_nul text.now }
{
    text.iter().any(|byte| *byte == 0)
}

fn has_tab(text: &[u8]) -> bool
    ensures { result ≡ list_any is_tab text.now }
{
    text.iter().any(|byte| *byte == b'\t')
}

/// What ends each name: NUL where the list has one, and else LF.
fn name_end(text: &str) -> char
    ensures end { result ≡ name_end text.now }
    ensures bound { result < 128 }
{
    if has_nul(text.as_bytes()) { '\0' } else { '\n' }
}

/// Why this is no path in a list; `None` of a path.
fn path_fault(path: &str) -> Option<NameFault>
    ensures { result ≡ path_fault path.now }
{
    if path.is_empty() {
        Some(NameFault::Empty)
    } else if path == "-" {
        Some(NameFault::Input)
    } else {
        None
    }
}

fn tab_fault(name: &str) -> Option<NameFault>
    ensures { result ≡ tab_fault name.now }
{
    if has_tab(name.as_bytes()) {
        Some(NameFault::Tab)
    } else {
        None
    }
}

/// Why a text is no name of a file; `None` of a name.
fn name_fault(naming: Naming, name: &str) -> Option<NameFault>
    ensures { result ≡ name_fault naming name.now }
{
    match naming {
        Naming::Path => path_fault(name).or(tab_fault(name)),
        Naming::Labelled => match labelled(name) {
            Some(name) => path_fault(name.path),
            None => Some(NameFault::Unlabelled),
        },
    }
}

/// What stands before the first end of a name; all where there is none.
fn first_name(text: &str, end: char) -> &str
    requires { end < 128 }
    ensures { result.now ≡ before_first (λ b. b == end) text.now }
{
    match text.split_once(end) {
        Some((name, _)) => name,
        None => text,
    }
}

/// What stands behind it.
fn behind_name(text: &str, end: char) -> &str
    requires { end < 128 }
    ensures { result.now ≡ after_first (λ b. b == end) text.now }
{
    match text.split_once(end) {
        Some((_, rest)) => rest,
        None => "",
    }
}

/// The names of a text, or the first that is none.
fn read_names<'a>(alloc: Global, naming: Naming, text: &'a str) -> Result<Vec<&'a str>, ListError>
    ensures { Lists (λ names. map (λ name. name.now) names.items)
        (names_read naming text.entry.now) result }
{
    let end = name_end(text);
    let mut names = Vec::new(alloc);
    let mut rest = text;
    while !rest.is_empty() {
        let name = first_name(rest, end);
        match name_fault(naming, name) {
            Some(fault) => return Err(ListError::Name(fault, names.len() + 1)),
            None => {}
        }
        match names.push(name) {
            Ok(()) => {}
            Err(_) => return Err(ListError::Memory),
        }
        rest = behind_name(rest, end);
    }
    Ok(names)
}

/// The names of a list, each ended by NUL, or by LF where the list has no NUL; the last may lack
/// its end.
pub fn list_names<'a>(
    alloc: Global,
    naming: Naming,
    list: &'a [u8],
) -> Result<Vec<&'a str>, ListError>
    ensures { Lists (λ names. map (λ name. name.now) names.items)
        (list_names naming list.entry.now) result }
{
    match text_of(list) {
        None => Err(ListError::NotText),
        Some(text) if text.is_empty() => Err(ListError::NoName),
        Some(text) => read_names(alloc, naming, text),
    }
}

/// The text that is printed where there is no list of names.
fn fault_text<'a>(error: ListError) -> &'a [u8]
    ensures { result.now ≡ (list_response error).text }
{
    match error {
        ListError::Memory => b"fault A8\n",
        _ => b"fault value files-from\n",
    }
}

/// Prints that there is no list of names to ask with, and returns the status 2.
pub fn refuse_list<W: Sink>(error: ListError, writer: &mut W) -> u8
    requires { NoneFailed (W.account writer.old) }
    ensures { WritesResponse (W.account writer.old) (W.account writer.new) (list_response error)
        result }
{
    put_fault(writer, fault_text(error))
}

fn fault_words(fault: NameFault) -> &'static [u8]
    ensures { result.now ≡ fault_words fault }
{
    match fault {
        NameFault::Empty => b" is empty",
        NameFault::Input => b" is -, and standard input is no name in a list",
        NameFault::Tab => b" has a tab",
        NameFault::Unlabelled => b" has no host and account, each with a tab behind it",
    }
}

/// What is wrong with the name of this number.
fn push_name_why(out: &mut Vec<u8>, fault: NameFault, number: usize) -> Result<(), AllocError>
    ensures { OnOk result (out.new.items ≡ out.old.items ++ list_why (Name fault number)) }
{
    out.extend_from_slice(b"name ")?;
    push_number(out, number as u64)?;
    out.extend_from_slice(fault_words(fault))?;
    Ok(())
}

/// What is wrong with a list; nothing of one that cannot be read, for `Files` says that.
fn push_why(out: &mut Vec<u8>, error: ListError) -> Result<(), AllocError>
    ensures { OnOk result (out.new.items ≡ out.old.items ++ list_why error) }
{
    let why: &[u8] = match error {
        ListError::Unread | ListError::Memory => b"",
        ListError::TooLong => b"it is longer than 67108864 bytes",
        ListError::Input => b"standard input can be read once only",
        ListError::NotText => b"it is not UTF-8",
        ListError::NoName => b"it has no name",
        ListError::Name(fault, number) => return push_name_why(out, fault, number),
    };
    out.extend_from_slice(why)?;
    Ok(())
}

/// The line that says what is wrong with the list of this name.
fn reported_why(alloc: Global, name: &str, error: ListError) -> Result<Vec<u8>, AllocError>
    ensures { IfOk result (λ line. line.items ≡ reported_why name.now error) }
{
    let mut line = Vec::from_slice(alloc, b"ssh_audit: ")?;
    push_escaped(&mut line, name.as_bytes())?;
    line.extend_from_slice(b": ")?;
    push_why(&mut line, error)?;
    line.push(b'\n')?;
    Ok(line)
}

/// Appends that line; nothing of a list that cannot be read.
fn push_why_line(
    alloc: Global,
    out: &mut Vec<u8>,
    name: &str,
    error: ListError,
) -> Result<(), AllocError>
    ensures { OnOk result (out.new.items ≡ out.old.items ++ why_line name.now error) }
{
    match error {
        ListError::Unread | ListError::Memory => Ok(()),
        _ => {
            let line = reported_why(alloc, name, error)?;
            out.extend_from_slice(&line)
        }
    }
}

/// What standard error says where there is no list of names: what `--files-from` wants, and what is
/// wrong with the list of this name. Why a list cannot be read is not said here.
pub fn list_guidance(alloc: Global, name: &str, error: ListError) -> Result<Vec<u8>, AllocError>
    ensures { IfOk result (λ text. text.items ≡ list_guidance name.now error) }
{
    let mut text = Vec::new(alloc);
    push_wanted(&mut text, ArgName::FilesFrom)?;
    push_why_line(alloc, &mut text, name, error)?;
    Ok(text)
}
