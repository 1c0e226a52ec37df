//! What a question may leave out: the words of the program with what the surroundings say in its
//! place.

ghost use Rattle.std.specs.Prelude.{◌≡◌, ◌++◌, ◌∷◌, [], IfOk, OnOk, codes, map, option_map, string_bytes};
ghost use Rattle.ssh_program.specs.Options.{option_word, subcommand_named};
ghost use Rattle.ssh_program.specs.Defaults.{added_files, added_options, asked, asks_surroundings, default_words, home_file, kind_for, option_words, takes_defaults, usual_file, words_of, words_with_defaults, zone_for};
ghost use Rattle.ssh_program.specs.DefaultsView.{around_seen, text_seen};
ghost use Rattle.ssh_program.specs.ReviewZones.{local_mark};
ghost use Rattle.ssh_program.specs.WordPlaces.{is_given};
ghost use Rattle.ssh_program.specs.WordPlacesView.{word_seen};
ghost use Rattle.ssh_program.specs.declared.args.ArgName.TheVariants as option;
ghost use Rattle.ssh_program.specs.declared.subcommand.Subcommand.TheVariants.{Review};

use crate::args::ArgName;
use crate::kinds::{asks_known, usual_kind};
use crate::reported::{parts_hosts, push_words};
use crate::subcommand::Subcommand;
use crate::word::{Word, has_operand, in_turn, is_given};
use std::alloc::{AllocError, Global};

/// What is known of the surroundings of a question.
#[derive(Clone, Copy, Debug)]
pub struct Surroundings<'a> {
    /// The time in seconds since 1970-01-01 UTC, in decimal digits.
    pub time: Option<&'a str>,
    /// The time zone, as a POSIX rule.
    pub zone: Option<&'a str>,
    /// The home folder of the user.
    pub home: Option<&'a str>,
    /// Where `--now` gives a date and a time, the seconds of it.
    pub given_time: Option<&'a str>,
    /// Where `--zone` names a time zone, its POSIX rule.
    pub given_zone: Option<&'a str>,
}

/// Appends a copy of a text.
pub fn push_text(alloc: Global, out: &mut Vec<String>, text: &str) -> Result<(), AllocError>
    ensures { OnOk result (map string_bytes out.new.items
        ≡ map string_bytes out.old.items ++ text.now ∷ []) }
{
    let copy = String::from_str(alloc, text)?;
    out.push(copy)?;
    Ok(())
}

/// Appends copies of texts.
fn push_texts(alloc: Global, out: &mut Vec<String>, texts: &[&str]) -> Result<(), AllocError>
    ensures { OnOk result (map string_bytes out.new.items
        ≡ map string_bytes out.old.items ++ map (λ text. text.now) texts.now) }
{
    for text in texts {
        push_text(alloc, out, text)?;
    }
    Ok(())
}

/// The name of an option as a word.
fn long_word(alloc: Global, option: ArgName) -> Result<String, AllocError>
    ensures { IfOk result (λ word. string_bytes word ≡ codes "--" ++ option_word option) }
{
    let mut word = String::from_str(alloc, "--")?;
    word.push_str(option.name())?;
    Ok(word)
}

/// Appends an option with its value.
fn push_option(
    alloc: Global,
    out: &mut Vec<String>,
    option: ArgName,
    value: &str,
) -> Result<(), AllocError>
    ensures { OnOk result (map string_bytes out.new.items
        ≡ map string_bytes out.old.items ++ (codes "--" ++ option_word option) ∷ value.now ∷ []) }
{
    let word = long_word(alloc, option)?;
    push_text(alloc, out, word.as_str())?;
    push_text(alloc, out, value)?;
    Ok(())
}

/// Appends an option with this value, unless it is given, or there is no value.
fn push_default(
    alloc: Global,
    out: &mut Vec<String>,
    option: ArgName,
    value: Option<&str>,
    words: &[Word<'_>],
) -> Result<(), AllocError>
    ensures { OnOk result (map string_bytes out.new.items ≡ map string_bytes out.old.items
        ++ default_words option (text_seen value.entry) (map word_seen words.now)) }
{
    if is_given(option, words) {
        return Ok(());
    }
    match value {
        None => Ok(()),
        Some(text) => push_option(alloc, out, option, text),
    }
}

/// This machine's zone as the value of an option of `review`: it was not given for the files.
fn local_zone(alloc: Global, rule: &str) -> Result<String, AllocError>
    ensures { IfOk result (λ text. string_bytes text ≡ local_mark ++ rule.now) }
{
    let mut text = String::from_str(alloc, "local:")?;
    text.push_str(rule)?;
    Ok(text)
}

/// Appends the option for the zone of a review, unless it is given.
fn push_local_zone(
    alloc: Global,
    out: &mut Vec<String>,
    zone: Option<&str>,
    words: &[Word<'_>],
) -> Result<(), AllocError>
    ensures { OnOk result (map string_bytes out.new.items ≡ map string_bytes out.old.items
        ++ default_words option.Zone (zone_for Review (text_seen zone.entry)) (map word_seen words.now)) }
{
    match zone {
        None => push_default(alloc, out, ArgName::Zone, None, words),
        Some(rule) => {
            let text = local_zone(alloc, rule)?;
            push_default(alloc, out, ArgName::Zone, Some(text.as_str()), words)
        }
    }
}

/// Appends the option for the zone, unless it is given. `trusts` asks of no expiry time, so of no
/// zone.
fn push_zone(
    alloc: Global,
    out: &mut Vec<String>,
    command: Subcommand,
    zone: Option<&str>,
    words: &[Word<'_>],
) -> Result<(), AllocError>
    ensures { OnOk result (map string_bytes out.new.items ≡ map string_bytes out.old.items
        ++ default_words option.Zone (zone_for command (text_seen zone.entry)) (map word_seen words.now)) }
{
    match command {
        Subcommand::Trusts => push_default(alloc, out, ArgName::Zone, None, words),
        Subcommand::Review => push_local_zone(alloc, out, zone, words),
        _ => push_default(alloc, out, ArgName::Zone, zone, words),
    }
}

/// The others know the format of their files.
fn kind_for(command: Subcommand, words: &[Word<'_>]) -> Option<&'static str>
    ensures { text_seen result ≡ kind_for command (map word_seen words.now) }
{
    match command {
        Subcommand::Review => usual_kind(words),
        _ => None,
    }
}

/// Appends the options that are left out.
pub fn push_options(
    alloc: Global,
    out: &mut Vec<String>,
    command: Subcommand,
    around: &Surroundings<'_>,
    words: &[Word<'_>],
) -> Result<(), AllocError>
    ensures { OnOk result (map string_bytes out.new.items ≡ map string_bytes out.old.items
        ++ added_options command (around_seen around.now) (map word_seen words.now)) }
{
    push_default(alloc, out, ArgName::Now, around.time, words)?;
    push_zone(alloc, out, command, around.zone, words)?;
    push_default(alloc, out, ArgName::Kind, kind_for(command, words), words)?;
    Ok(())
}

/// The user's own trust file, below the home folder.
fn usual_file(known: bool) -> &'static str
    ensures { result.now ≡ usual_file known }
{
    if known {
        "/.ssh/known_hosts"
    } else {
        "/.ssh/authorized_keys"
    }
}

/// Appends the user's own trust file, if the home folder is known.
fn push_home_file(
    alloc: Global,
    out: &mut Vec<String>,
    home: Option<&str>,
    known: bool,
) -> Result<(), AllocError>
    ensures { OnOk result (map string_bytes out.new.items ≡ map string_bytes out.old.items
        ++ home_file (text_seen home.entry) known) }
{
    let Some(home) = home else {
        return Ok(());
    };
    let mut path = String::from_str(alloc, home)?;
    path.push_str(usual_file(known))?;
    out.push(path)?;
    Ok(())
}

/// Appends the user's own trust file where no file is named.
pub fn push_files(
    alloc: Global,
    out: &mut Vec<String>,
    command: Subcommand,
    around: &Surroundings<'_>,
    words: &[Word<'_>],
) -> Result<(), AllocError>
    ensures { OnOk result (map string_bytes out.new.items ≡ map string_bytes out.old.items
        ++ added_files command (around_seen around.now) (map word_seen words.now)) }
{
    if has_operand(words) {
        return Ok(());
    }
    push_home_file(alloc, out, around.home, asks_known(command, words))
}

/// Appends the words of the question, with what they leave out.
#[tactic(auto, unfolding(crate::specs::Defaults::asked))]
fn push_asked(
    alloc: Global,
    out: &mut Vec<String>,
    command: Subcommand,
    around: &Surroundings<'_>,
    words: &[Word<'_>],
) -> Result<(), AllocError>
    ensures { OnOk result (map string_bytes out.new.items ≡ map string_bytes out.old.items
        ++ asked command (around_seen around.now) (map word_seen words.now)) }
{
    push_options(alloc, out, command, around, words)?;
    push_words(alloc, out, parts_hosts(command, words), around, words)?;
    push_files(alloc, out, command, around, words)?;
    Ok(())
}

/// Whether the questions of a command may leave something out.
pub fn takes_defaults(command: Subcommand) -> bool
    ensures { result ≡ takes_defaults command }
{
    match command {
        Subcommand::Admits | Subcommand::Trusts | Subcommand::Review => true,
        _ => false,
    }
}

/// Appends the words after the name of a command.
fn push_rest(
    alloc: Global,
    out: &mut Vec<String>,
    command: Option<Subcommand>,
    around: &Surroundings<'_>,
    words: &[&str],
) -> Result<(), AllocError>
    ensures { OnOk result (map string_bytes out.new.items ≡ map string_bytes out.old.items
        ++ words_of command (around_seen around.now) (map (λ word. word.now) words.now)) }
{
    match command {
        Some(command) if takes_defaults(command) => {
            let turn = in_turn(alloc, words)?;
            push_asked(alloc, out, command, around, turn.as_slice())
        }
        _ => push_texts(alloc, out, words),
    }
}

/// The name of a command, and the words after it.
fn command_words(
    alloc: Global,
    name: &str,
    around: &Surroundings<'_>,
    words: &[&str],
) -> Result<Vec<String>, AllocError>
    ensures { IfOk result (λ reported. map string_bytes reported.items ≡ name.now
        ∷ words_of (subcommand_named name.now) (around_seen around.now)
        (map (λ word. word.now) words.now)) }
{
    // Beside the words and their command there are at most three options with their values, and a file.
    let mut reported = Vec::with_capacity(alloc, words.len().saturating_add(8))?;
    push_text(alloc, &mut reported, name)?;
    push_rest(alloc, &mut reported, Subcommand::named(name), around, words)?;
    Ok(reported)
}

/// The words of the program with what a question leaves out: options behind the name of the
/// command, and the user's own trust file at the end. What the question gives is not changed, but
/// for a date and a time as `--now`, the name of a zone as `--zone`, and a host with its port as
/// `--host` of `trusts`: these are given as the values that they stand for. The words of other
/// commands come out as they are.
pub fn with_defaults(
    alloc: Global,
    words: &[&str],
    around: &Surroundings<'_>,
) -> Result<Vec<String>, AllocError>
    ensures { IfOk result (λ reported. map string_bytes reported.items
        ≡ words_with_defaults (around_seen around.now) (map (λ word. word.now) words.now)) }
{
    match words.split_first() {
        None => Ok(Vec::new(alloc)),
        Some((name, rest)) => command_words(alloc, name, around, rest),
    }
}

/// Whether the question of these words may leave something out, so that the surroundings matter.
pub fn asks_surroundings(words: &[&str]) -> bool
    ensures { result ≡ asks_surroundings (map (λ word. word.now) words.now) }
{
    match Subcommand::in_words(words) {
        Some(command) => takes_defaults(command),
        None => false,
    }
}
