//! What standard error says after a fault: which word or which value is wrong, and where help is.

ghost use Rattle.std.specs.Prelude.{◌≡◌, ◌++◌, ◌<◌, IfOk, IfSome, OnOk, length, map, option_and_then, option_map, position};
ghost use Rattle.std.specs.List.{before_first, list_any};
ghost use Rattle.ssh_print.specs.Explaining.{row_text};
ghost use Rattle.ssh_print.specs.Table.{code_row, row_of};
ghost use Rattle.ssh_program.specs.ComplaintsView.{complaint_seen};
ghost use Rattle.ssh_program.specs.Guidance.{asks_commands, asks_help, asks_readable, code_by, code_sentence, command_usage, complaint_front, complaint_lines, fault_by, fault_guidance, fault_sentence, file_sentence, front, is_end, is_help, is_readable, is_space, line_sentence, no_command, no_words, option_of, options_pointer, row_sentence, tells_faults, text_of, reported_sentence, usage_by, usage_guidance, value_sentence};
ghost use Rattle.ssh_program.specs.Help.{wants_text};
ghost use Rattle.ssh_program.specs.Options.{subcommand_named};
ghost use Rattle.ssh_program.specs.WordPlacesView.{word_seen};

use crate::args::ArgName;
use crate::complaint::{Complaint, find_complaint, push_complaint};
use crate::help::{push_command_help, push_commands_help, wanted_value};
use crate::subcommand::{OptionRow, Subcommand};
use crate::word::{Place, Word, in_turn};
use ssh_print::{Row, push_escaped, row_of};
use std::alloc::{AllocError, Global};

/// Whether the first word asks for the list of the commands.
fn asks_commands(word: &str) -> bool
    ensures { result ≡ asks_commands word.now }
{
    word == "--help" || word == "-h" || word == "help"
}

fn is_help(text: &str) -> bool
    ensures { result ≡ is_help text.now }
{
    text == "--help" || text == "-h"
}

/// Whether a word of a command asks for its options.
fn asks_help(word: &Word<'_>) -> bool
    ensures { result ≡ asks_help (word_seen word.now) }
{
    match word.place {
        Place::Open | Place::AfterOption => is_help(word.text),
        Place::Behind => false,
    }
}

/// Whether some word asks for help.
pub fn any_asks_help(words: &[Word<'_>]) -> bool
    ensures { result ≡ list_any asks_help (map word_seen words.now) }
{
    words.iter().any(|word| asks_help(word))
}

/// The line that says where the options of a command are listed.
#[tactic(auto, unfolding(crate::specs::Guidance::options_pointer))]
fn push_pointer(out: &mut Vec<u8>, command: Subcommand) -> Result<(), AllocError>
    ensures { OnOk result (out.new.items ≡ out.old.items ++ options_pointer command) }
{
    out.extend_from_slice(b"see 'ssh_audit ")?;
    out.extend_from_slice(command.name().as_bytes())?;
    out.extend_from_slice(b" --help'\n")?;
    Ok(())
}

/// The front of a line about a command.
#[tactic(auto, unfolding(crate::specs::Guidance::front))]
fn push_front(out: &mut Vec<u8>, command: Subcommand) -> Result<(), AllocError>
    ensures { OnOk result (out.new.items ≡ out.old.items ++ front command) }
{
    out.extend_from_slice(b"ssh_audit: ")?;
    out.extend_from_slice(command.name().as_bytes())?;
    out.extend_from_slice(b": ")?;
    Ok(())
}

fn push_complaint_front(
    out: &mut Vec<u8>,
    command: Subcommand,
    complaint: Complaint<'_>,
) -> Result<(), AllocError>
    ensures { OnOk result (out.new.items
        ≡ out.old.items ++ complaint_front command (complaint_seen complaint.entry)) }
{
    match complaint {
        Complaint::NoValue(_) | Complaint::Twice(_) => {
            out.extend_from_slice(b"ssh_audit: ")?;
            Ok(())
        }
        _ => push_front(out, command),
    }
}

/// What is wrong with the words of a command, and where its options are listed.
#[tactic(auto, unfolding(crate::specs::Guidance::complaint_lines))]
fn push_complaint_lines(
    out: &mut Vec<u8>,
    command: Subcommand,
    complaint: Complaint<'_>,
) -> Result<(), AllocError>
    ensures { OnOk result (out.new.items
        ≡ out.old.items ++ complaint_lines command (complaint_seen complaint.entry)) }
{
    push_complaint_front(out, command, complaint)?;
    push_complaint(out, command, complaint)?;
    out.push(b'\n')?;
    push_pointer(out, command)?;
    Ok(())
}

/// What is wrong with the words of a command, or its options where a word asks for them.
fn push_command_usage(
    out: &mut Vec<u8>,
    command: Subcommand,
    words: &[Word<'_>],
) -> Result<(), AllocError>
    ensures { OnOk result (out.new.items
        ≡ out.old.items ++ command_usage command (map word_seen words.now)) }
{
    if any_asks_help(words) {
        push_command_help(out, command)
    } else {
        push_complaint_lines(out, command, find_complaint(command, words))
    }
}

/// What is said of a first word that is no command.
#[tactic(auto, unfolding(crate::specs::Guidance::no_command))]
fn push_no_command(out: &mut Vec<u8>, word: &str) -> Result<(), AllocError>
    ensures { OnOk result (out.new.items ≡ out.old.items ++ no_command word.now) }
{
    out.extend_from_slice(b"ssh_audit: '")?;
    push_escaped(out, word.as_bytes())?;
    out.extend_from_slice(
        b"' is not a command\nsee 'ssh_audit --help', or the manual page ssh_audit(1)\n",
    )?;
    Ok(())
}

/// What is said where there are no words.
#[tactic(auto, unfolding(crate::specs::Guidance::no_words))]
fn push_no_words(out: &mut Vec<u8>) -> Result<(), AllocError>
    ensures { OnOk result (out.new.items ≡ out.old.items ++ no_words) }
{
    out.extend_from_slice(
        b"ssh_audit: no command is given, and the first line of standard input has none\nsee 'ssh_audit --help', or the manual page ssh_audit(1)\n",
    )?;
    Ok(())
}

/// What is said of the words after a first word that may name a command.
fn push_named_usage(
    alloc: Global,
    out: &mut Vec<u8>,
    name: &str,
    words: &[&str],
) -> Result<(), AllocError>
    ensures { OnOk result (out.new.items ≡ out.old.items
        ++ usage_by name.now (subcommand_named name.now) (map (λ word. word.now) words.now)) }
{
    match Subcommand::named(name) {
        None => push_no_command(out, name),
        Some(command) => {
            let turn = in_turn(alloc, words)?;
            push_command_usage(out, command, turn.as_slice())
        }
    }
}

/// What the value of an option has to be.
pub fn push_wanted(out: &mut Vec<u8>, option: ArgName) -> Result<(), AllocError>
    ensures { OnOk result (out.new.items ≡ out.old.items ++ wants_text option) }
{
    out.extend_from_slice(b"ssh_audit: --")?;
    out.extend_from_slice(option.name().as_bytes())?;
    out.extend_from_slice(b" wants ")?;
    out.extend_from_slice(wanted_value(option))?;
    out.push(b'\n')?;
    Ok(())
}

/// The row of the option of a command by its name.
fn option_of(command: Subcommand, name: &[u8]) -> Option<OptionRow>
    ensures { result ≡ option_of command name.now }
{
    for row in command.reported_options() {
        if row.0.name().as_bytes() == name {
            return Some(*row);
        }
    }
    None
}

/// What is said of `fault value NAME`. The one fault of `explain` names no option.
fn push_value_fault(out: &mut Vec<u8>, command: Subcommand, name: &[u8]) -> Result<(), AllocError>
    ensures { OnOk result (out.new.items ≡ out.old.items ++ value_sentence command name.now) }
{
    match option_of(command, name) {
        Some(row) => push_wanted(out, row.0),
        None => {
            push_front(out, command)?;
            out.extend_from_slice(b"a word is no code: 'ssh_audit explain' lists them all\n")?;
            Ok(())
        }
    }
}

fn find_space(text: &[u8]) -> Option<usize>
    ensures place { result ≡ position is_space text.now }
    ensures bound { IfSome result (λ place. place < length text.now) }
{
    text.iter().position(|byte| *byte == b' ')
}

/// What stands before the first space.
fn before_space(text: &[u8]) -> &[u8]
    ensures { result.now ≡ before_first is_space text.now }
{
    match find_space(text) {
        Some(place) => text.split_at(place).0,
        None => text,
    }
}

fn find_end(text: &[u8]) -> Option<usize>
    ensures place { result ≡ position is_end text.now }
    ensures bound { IfSome result (λ place. place < length text.now) }
{
    text.iter().position(|byte| *byte == b'\n')
}

/// What stands before the first end of a line.
fn before_end(text: &[u8]) -> &[u8]
    ensures { result.now ≡ before_first is_end text.now }
{
    match find_end(text) {
        Some(place) => text.split_at(place).0,
        None => text,
    }
}

/// The bytes as a text, if they are one.
pub fn text_of(bytes: &[u8]) -> Option<&str>
    ensures { option_map (λ text. text.now) result ≡ text_of bytes.now }
{
    match str::from_utf8(bytes) {
        Ok(text) => Some(text),
        Err(_) => None,
    }
}

/// The row of a code, if the bytes are one.
fn row_in(bytes: &[u8]) -> Option<Row>
    ensures { option_map code_row result ≡ option_and_then row_of (text_of bytes.now) }
{
    row_of(text_of(bytes)?)
}

/// What `explain` says of a code.
#[tactic(auto, unfolding(ssh_print::specs::Explaining::row_text))]
fn push_row(out: &mut Vec<u8>, row: Row) -> Result<(), AllocError>
    ensures { OnOk result (out.new.items ≡ out.old.items ++ row_text (code_row row)) }
{
    out.extend_from_slice(row.code.as_bytes())?;
    out.extend_from_slice(b": ")?;
    out.extend_from_slice(row.sentence.as_bytes())?;
    out.extend_from_slice(b" - ")?;
    out.extend_from_slice(row.remedy.as_bytes())?;
    out.push(b'\n')?;
    Ok(())
}

/// What is said of a fault whose code has this row.
fn push_row_sentence(out: &mut Vec<u8>, row: Row) -> Result<(), AllocError>
    ensures { OnOk result (out.new.items ≡ out.old.items ++ row_sentence (code_row row)) }
{
    out.extend_from_slice(b"ssh_audit: fault ")?;
    push_row(out, row)?;
    Ok(())
}

fn push_code(out: &mut Vec<u8>, row: Option<Row>) -> Result<(), AllocError>
    ensures { OnOk result (out.new.items ≡ out.old.items ++ code_by (option_map code_row row)) }
{
    match row {
        Some(row) => push_row_sentence(out, row),
        None => Ok(()),
    }
}

/// What is said of another fault: what `explain` says of its code.
fn push_code_fault(out: &mut Vec<u8>, reported: &[u8]) -> Result<(), AllocError>
    ensures { OnOk result (out.new.items ≡ out.old.items ++ code_sentence reported.now) }
{
    push_code(out, row_in(before_space(reported)))
}

/// What is said where a file among those that were asked of has a fault.
fn push_file_fault(out: &mut Vec<u8>, command: Subcommand) -> Result<(), AllocError>
    ensures { OnOk result (out.new.items ≡ out.old.items ++ file_sentence command) }
{
    push_front(out, command)?;
    out.extend_from_slice(
        b"a file has a fault: its line tells the code, which 'ssh_audit explain' explains\n",
    )?;
    Ok(())
}

/// What is said of what stands behind `fault `.
fn push_reported_fault(
    out: &mut Vec<u8>,
    command: Subcommand,
    reported: &[u8],
) -> Result<(), AllocError>
    ensures { OnOk result (out.new.items ≡ out.old.items ++ reported_sentence command reported.now) }
{
    if reported.starts_with(b"value ".as_slice()) {
        push_value_fault(out, command, reported.split_at(6).1)
    } else {
        push_code_fault(out, reported)
    }
}

/// What is said of the first line of what was printed.
fn push_line_fault(out: &mut Vec<u8>, command: Subcommand, line: &[u8]) -> Result<(), AllocError>
    ensures { OnOk result (out.new.items ≡ out.old.items ++ line_sentence command line.now) }
{
    if line.starts_with(b"fault ".as_slice()) {
        push_reported_fault(out, command, line.split_at(6).1)
    } else {
        push_file_fault(out, command)
    }
}

/// What is said of a fault, by the front of what was printed.
fn push_fault(out: &mut Vec<u8>, command: Subcommand, printed: &[u8]) -> Result<(), AllocError>
    ensures { OnOk result (out.new.items ≡ out.old.items ++ fault_sentence command printed.now) }
{
    push_line_fault(out, command, before_end(printed))
}

/// Whether the faults of a command are reported in a sentence: `readable`, those that ask of files by
/// their names, and `explain`.
fn tells_faults(command: Subcommand) -> bool
    ensures { result ≡ tells_faults command }
{
    match command {
        Subcommand::Readable
        | Subcommand::Admits
        | Subcommand::Trusts
        | Subcommand::Review
        | Subcommand::Explain => true,
        _ => false,
    }
}

/// What is said of words that are no command line.
fn push_usage(alloc: Global, out: &mut Vec<u8>, words: &[&str]) -> Result<(), AllocError>
    ensures { OnOk result (out.new.items
        ≡ out.old.items ++ usage_guidance (map (λ word. word.now) words.now)) }
{
    match words.split_first() {
        None => push_no_words(out),
        Some((name, _)) if asks_commands(name) => push_commands_help(out, Subcommand::all()),
        Some((name, rest)) => push_named_usage(alloc, out, name, rest),
    }
}

/// What is said of a fault of a command.
fn push_named_fault(
    out: &mut Vec<u8>,
    command: Option<Subcommand>,
    printed: &[u8],
) -> Result<(), AllocError>
    ensures { OnOk result (out.new.items ≡ out.old.items ++ fault_by command printed.now) }
{
    match command {
        Some(command) if tells_faults(command) => push_fault(out, command, printed),
        _ => Ok(()),
    }
}

fn is_readable(command: Option<Subcommand>) -> bool
    ensures { result ≡ is_readable command }
{
    matches!(command, Some(Subcommand::Readable))
}

/// Whether the words ask for the readable entries of a file: then standard error says which lines
/// are left out.
pub fn asks_readable(words: &[&str]) -> bool
    ensures { result ≡ asks_readable (map (λ word. word.now) words.now) }
{
    match words.split_first() {
        None => false,
        Some((name, _)) => is_readable(Subcommand::named(name)),
    }
}

/// What standard error says of words whose answer is `fault usage`: the list of the commands or the
/// options of a command where a word asks for them, otherwise which word is wrong.
pub fn usage_guidance(alloc: Global, words: &[&str]) -> Result<Vec<u8>, AllocError>
    ensures { IfOk result (λ text. text.items ≡ usage_guidance (map (λ word. word.now) words.now)) }
{
    let mut text = Vec::new(alloc);
    push_usage(alloc, &mut text, words)?;
    Ok(text)
}

/// What standard error says of words whose answer is another fault, by the front of what was
/// printed. It is empty where nothing is said.
pub fn fault_guidance(alloc: Global, words: &[&str], printed: &[u8]) -> Result<Vec<u8>, AllocError>
    ensures { IfOk result (λ text. text.items
        ≡ fault_guidance (map (λ word. word.now) words.now) printed.now) }
{
    let mut text = Vec::new(alloc);
    push_named_fault(&mut text, Subcommand::in_words(words), printed)?;
    Ok(text)
}
