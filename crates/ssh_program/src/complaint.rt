//! Which word of a command line is wrong, and the sentence that says so.

ghost use Rattle.std.specs.Prelude.{◌≡◌, ◌++◌, OnOk, map, option_map};
ghost use Rattle.ssh_program.specs.Complaints.{apart_wrong, asks_html, both_text, complaint_of, complaint_text, first_wrong, flag_wrong, is_html, is_of_page, lists_unreported, names_wrong, neither_text, open_wrong, operand_wrong, option_in, option_text, option_wrong, pair_by, pair_wrong, row_named, reported_word, value_wrong, waiting, waiting_at, whole_wrong, word_wrong};
ghost use Rattle.ssh_program.specs.ComplaintsView.{complaint_seen};
ghost use Rattle.ssh_program.specs.Options.{reported_options};
ghost use Rattle.ssh_program.specs.WordPlacesView.{word_seen};

use crate::args::{ArgName, Needed};
use crate::help::{apart_from, other_place};
use crate::subcommand::{OptionRow, Subcommand};
use crate::word::{
    Place, Word, has_operand, is_bare, is_flag, is_given, is_given_twice, names_option,
};
use ssh_print::push_escaped;
use std::alloc::AllocError;

/// What is wrong with the words after the name of a command.
#[derive(Clone, Copy)]
pub enum Complaint<'a> {
    /// A word is no option of the command.
    NotOption(&'a str),
    /// An option has no value after it.
    NoValue(ArgName),
    Twice(ArgName),
    /// A word is an operand, and the command takes none.
    ExtraWord(&'a str),
    Missing(ArgName),
    /// Of two options exactly one has to be given.
    Neither(ArgName, ArgName),
    Both(ArgName, ArgName),
    NoNames,
    /// `--fail-on` has a code that is not reported.
    Unreported,
    /// Nothing else is known to be wrong.
    Other,
}

/// The row of the option of a command that a word names.
fn row_named(command: Subcommand, word: &[u8]) -> Option<OptionRow>
    ensures { result ≡ row_named command word.now }
{
    for row in command.reported_options() {
        if names_option(row.0, word) {
            return Some(*row);
        }
    }
    None
}

/// The option of a command that a word names.
fn option_in(command: Subcommand, word: &[u8]) -> Option<ArgName>
    ensures { result ≡ option_in command word.now }
{
    match row_named(command, word) {
        Some(row) => Some(row.0),
        None => None,
    }
}

/// An operand is wrong where the command takes none.
fn operand_complaint<'a>(command: Subcommand, word: &'a str) -> Option<Complaint<'a>>
    ensures { option_map complaint_seen result ≡ operand_wrong command word.now }
{
    match command.names() {
        None => Some(Complaint::ExtraWord(word)),
        Some(_) => None,
    }
}

/// A word that is read as an option is wrong where it is none of the command.
fn flag_complaint<'a>(command: Subcommand, word: &'a str) -> Option<Complaint<'a>>
    ensures { option_map complaint_seen result ≡ flag_wrong command word.now }
{
    if word == "--" {
        return None;
    }
    match option_in(command, word.as_bytes()) {
        None => Some(Complaint::NotOption(word)),
        Some(_) => None,
    }
}

fn open_complaint<'a>(command: Subcommand, word: &'a str) -> Option<Complaint<'a>>
    ensures { option_map complaint_seen result ≡ open_wrong command word.now }
{
    if is_flag(word) {
        flag_complaint(command, word)
    } else {
        operand_complaint(command, word)
    }
}

/// In the place of a value, a word that is read as an option is none.
fn value_complaint<'a>(command: Subcommand, word: &Word<'a>) -> Option<Complaint<'a>>
    ensures { option_map complaint_seen result ≡ value_wrong command (word_seen word.now) }
{
    if !is_flag(word.text) {
        return None;
    }
    match option_in(command, word.before) {
        Some(option) => Some(Complaint::NoValue(option)),
        None => None,
    }
}

/// What is wrong with a word.
fn word_complaint<'a>(command: Subcommand, word: &Word<'a>) -> Option<Complaint<'a>>
    ensures { option_map complaint_seen result ≡ word_wrong command (word_seen word.now) }
{
    match word.place {
        Place::Open => open_complaint(command, word.text),
        Place::AfterOption => value_complaint(command, word),
        Place::Behind => operand_complaint(command, word.text),
    }
}

/// What is wrong with the first wrong word.
fn words_complaint<'a>(command: Subcommand, words: &[Word<'a>]) -> Option<Complaint<'a>>
    ensures { option_map complaint_seen result
        ≡ first_wrong (word_wrong command) (map word_seen words.now) }
{
    for word in words {
        if let Some(complaint) = word_complaint(command, word) {
            return Some(complaint);
        }
    }
    None
}

/// The option whose value would come after this word.
fn waiting_at(place: Place, command: Subcommand, text: &str) -> Option<ArgName>
    ensures { result ≡ waiting_at place command text.now }
{
    match place {
        Place::Open if is_bare(text) => option_in(command, text.as_bytes()),
        _ => None,
    }
}

/// The option whose value would come after the last word.
fn waiting(command: Subcommand, words: &[Word<'_>]) -> Option<ArgName>
    ensures { result ≡ waiting command (map word_seen words.now) }
{
    let word = words.last()?;
    waiting_at(word.place, command, word.text)
}

/// Of two options exactly one has to be given.
fn pair_by<'a>(
    option: ArgName,
    other: ArgName,
    is_here: bool,
    is_there: bool,
) -> Option<Complaint<'a>>
    ensures { option_map complaint_seen result ≡ pair_by option other is_here is_there }
{
    match (is_here, is_there) {
        (true, true) => Some(Complaint::Both(option, other)),
        (false, false) => Some(Complaint::Neither(option, other)),
        _ => None,
    }
}

fn pair_complaint<'a>(
    option: ArgName,
    other: Option<ArgName>,
    words: &[Word<'_>],
) -> Option<Complaint<'a>>
    ensures { option_map complaint_seen result ≡ pair_wrong option other (map word_seen words.now) }
{
    match other {
        None => None,
        Some(other) => pair_by(
            option,
            other,
            is_given(option, words),
            is_given(other, words),
        ),
    }
}

/// An option is wrong beside another one that it is not given with.
fn apart_complaint<'a>(
    option: ArgName,
    other: Option<ArgName>,
    words: &[Word<'_>],
) -> Option<Complaint<'a>>
    ensures { option_map complaint_seen result ≡ apart_wrong option other (map word_seen words.now) }
{
    match other {
        Some(other) if is_given(option, words) && is_given(other, words) => {
            Some(Complaint::Both(option, other))
        }
        _ => None,
    }
}

/// What is wrong with one option as a whole.
fn option_complaint<'a>(
    command: Subcommand,
    words: &[Word<'_>],
    row: OptionRow,
) -> Option<Complaint<'a>>
    ensures { option_map complaint_seen result
        ≡ option_wrong command (map word_seen words.now) row }
{
    if is_given_twice(row.0, words) {
        return Some(Complaint::Twice(row.0));
    }
    if row.1.is_required() && !is_given(row.0, words) {
        return Some(Complaint::Missing(row.0));
    }
    match pair_complaint(row.0, other_place(command, row.0), words) {
        Some(complaint) => Some(complaint),
        None => apart_complaint(row.0, apart_from(row.0), words),
    }
}

/// What is wrong with the first option with which something is.
fn options_complaint<'a>(command: Subcommand, words: &[Word<'_>]) -> Option<Complaint<'a>>
    ensures { option_map complaint_seen result
        ≡ first_wrong (option_wrong command (map word_seen words.now)) (reported_options command) }
{
    for row in command.reported_options() {
        if let Some(complaint) = option_complaint(command, words, *row) {
            return Some(complaint);
        }
    }
    None
}

/// Whether a word asks for a page.
fn is_html(word: &Word<'_>) -> bool
    ensures { result ≡ is_html (word_seen word.now) }
{
    word.text == "html" || word.text == "--form=html"
}

fn asks_html(words: &[Word<'_>]) -> bool
    ensures { result ≡ asks_html (map word_seen words.now) }
{
    words.iter().any(|word| is_html(word))
}

/// Whether a page is asked for, which leaves out other options; or a title, which a page alone has.
fn is_of_page(words: &[Word<'_>]) -> bool
    ensures { result ≡ is_of_page (map word_seen words.now) }
{
    is_given(ArgName::Title, words) || asks_html(words)
}

/// Whether the list of `--fail-on` is what is wrong, where nothing else is.
fn lists_unreported(words: &[Word<'_>]) -> bool
    ensures { result ≡ lists_unreported (map word_seen words.now) }
{
    is_given(ArgName::FailOn, words) && !is_of_page(words)
}

fn names_complaint<'a>(command: Subcommand, words: &[Word<'_>]) -> Complaint<'a>
    ensures { complaint_seen result ≡ names_wrong command (map word_seen words.now) }
{
    match (command.names(), has_operand(words)) {
        (Some(Needed::Required), false) => Complaint::NoNames,
        _ if lists_unreported(words) => Complaint::Unreported,
        _ => Complaint::Other,
    }
}

/// What is wrong with the options and the operands as a whole.
fn whole_complaint<'a>(command: Subcommand, words: &[Word<'_>]) -> Complaint<'a>
    ensures { complaint_seen result ≡ whole_wrong command (map word_seen words.now) }
{
    if let Some(option) = waiting(command, words) {
        return Complaint::NoValue(option);
    }
    match options_complaint(command, words) {
        Some(complaint) => complaint,
        None => names_complaint(command, words),
    }
}

/// What is wrong with the words after the name of a command that are no command line of it. The
/// first wrong word comes before what is missing.
pub fn find_complaint<'a>(command: Subcommand, words: &[Word<'a>]) -> Complaint<'a>
    ensures { complaint_seen result ≡ complaint_of command (map word_seen words.now) }
{
    match words_complaint(command, words) {
        Some(complaint) => complaint,
        None => whole_complaint(command, words),
    }
}

/// An option by its name.
fn push_option(out: &mut Vec<u8>, option: ArgName, reported: &[u8]) -> Result<(), AllocError>
    ensures { OnOk result (out.new.items ≡ out.old.items ++ option_text option reported.now) }
{
    out.extend_from_slice(b"--")?;
    out.extend_from_slice(option.name().as_bytes())?;
    out.extend_from_slice(reported)?;
    Ok(())
}

fn push_word(out: &mut Vec<u8>, word: &str, reported: &[u8]) -> Result<(), AllocError>
    ensures { OnOk result (out.new.items ≡ out.old.items ++ reported_word word.now reported.now) }
{
    push_escaped(out, word.as_bytes())?;
    out.extend_from_slice(reported)?;
    Ok(())
}

fn push_neither(out: &mut Vec<u8>, option: ArgName, other: ArgName) -> Result<(), AllocError>
    ensures { OnOk result (out.new.items ≡ out.old.items ++ neither_text option other) }
{
    push_option(out, option, b" or ")?;
    push_option(out, other, b" is missing")?;
    Ok(())
}

fn push_both(out: &mut Vec<u8>, option: ArgName, other: ArgName) -> Result<(), AllocError>
    ensures { OnOk result (out.new.items ≡ out.old.items ++ both_text option other) }
{
    push_option(out, option, b" and ")?;
    push_option(out, other, b" are given, and one of them is wanted")?;
    Ok(())
}

/// The sentence of a complaint, without its end of line.
#[tactic(auto, unfolding(crate::specs::Complaints::complaint_text))]
pub fn push_complaint(
    out: &mut Vec<u8>,
    command: Subcommand,
    complaint: Complaint<'_>,
) -> Result<(), AllocError>
    ensures { OnOk result (out.new.items
        ≡ out.old.items ++ complaint_text command (complaint_seen complaint.entry)) }
{
    match complaint {
        Complaint::NotOption(word) => {
            push_word(out, word, b" is not an option of ")?;
            out.extend_from_slice(command.name().as_bytes())?;
            Ok(())
        }
        Complaint::NoValue(option) => push_option(out, option, b" has no value"),
        Complaint::Twice(option) => push_option(out, option, b" is given twice"),
        Complaint::ExtraWord(word) => push_word(out, word, b" is a word too many"),
        Complaint::Missing(option) => push_option(out, option, b" is missing"),
        Complaint::Neither(option, other) => push_neither(out, option, other),
        Complaint::Both(option, other) => push_both(out, option, other),
        Complaint::NoNames => {
            out.extend_from_slice(b"no file is named")?;
            Ok(())
        }
        Complaint::Unreported => push_option(
            out,
            ArgName::FailOn,
            b" has a code that is not reported: name it in --findings too",
        ),
        Complaint::Other => {
            out.extend_from_slice(b"the words ask for nothing")?;
            Ok(())
        }
    }
}
