//! The line of standard error that says what was added to a question: `ssh_audit: asked with ..`.

ghost use Rattle.std.specs.Prelude.{◌≡◌, ◌++◌, IfOk, OnOk, false, map, string_bytes};
ghost use Rattle.ssh_program.specs.DefaultsLine.{added, date_behind, date_if, defaults_line, line_of, added_line, added_word_part, added_words_part};
ghost use Rattle.ssh_program.specs.DefaultsView.{around_seen};
ghost use Rattle.ssh_program.specs.WordPlacesView.{word_seen};

use crate::defaults::{Surroundings, push_files, push_options, takes_defaults};
use crate::subcommand::Subcommand;
use crate::word::{Word, in_turn};
use ssh_files::read_number;
use ssh_print::{date_text, push_escaped};
use std::alloc::{AllocError, Global};

/// What is added to the words of a question.
fn added_words(
    alloc: Global,
    command: Subcommand,
    around: &Surroundings<'_>,
    words: &[Word<'_>],
) -> Result<Vec<String>, AllocError>
    ensures { IfOk result (λ words_added. map string_bytes words_added.items
        ≡ added command (around_seen around.now) (map word_seen words.now)) }
{
    let mut added = Vec::new(alloc);
    push_options(alloc, &mut added, command, around, words)?;
    push_files(alloc, &mut added, command, around, words)?;
    Ok(added)
}

/// Appends the date of a time, in parentheses.
fn push_date(alloc: Global, out: &mut Vec<u8>, moment: Option<u64>) -> Result<(), AllocError>
    ensures { OnOk result (out.new.items ≡ out.old.items ++ date_behind moment) }
{
    let Some(moment) = moment else {
        return Ok(());
    };
    let date = date_text(alloc, moment)?;
    out.extend_from_slice(b" (")?;
    out.extend_from_slice(&date)?;
    out.push(b')')?;
    Ok(())
}

/// Appends the date of the value of `--now`.
fn push_date_if(
    alloc: Global,
    out: &mut Vec<u8>,
    is_time: bool,
    word: &str,
) -> Result<(), AllocError>
    ensures { OnOk result (out.new.items ≡ out.old.items ++ date_if is_time word.now) }
{
    if is_time {
        push_date(alloc, out, read_number(word))
    } else {
        Ok(())
    }
}

/// Appends a word that was added; behind the value of `--now` stands its date.
fn push_added_word(
    alloc: Global,
    out: &mut Vec<u8>,
    is_time: bool,
    word: &str,
) -> Result<(), AllocError>
    ensures { OnOk result (out.new.items ≡ out.old.items ++ added_word_part is_time word.now) }
{
    out.push(b' ')?;
    push_escaped(out, word.as_bytes())?;
    push_date_if(alloc, out, is_time, word)?;
    Ok(())
}

/// Appends the words that were added.
fn push_added_words(alloc: Global, out: &mut Vec<u8>, added: &[String]) -> Result<(), AllocError>
    ensures { OnOk result (out.new.items
        ≡ out.old.items ++ added_words_part false (map string_bytes added.now)) }
{
    let mut is_time = false;
    for word in added {
        push_added_word(alloc, out, is_time, word.as_str())?;
        is_time = word.as_str() == "--now";
    }
    Ok(())
}

/// The line of the words that were added.
#[tactic(auto, unfolding(crate::specs::DefaultsLine::added_line))]
fn added_line(alloc: Global, added: &[String]) -> Result<Vec<u8>, AllocError>
    ensures { IfOk result (λ line. line.items ≡ added_line (map string_bytes added.now)) }
{
    let mut line = Vec::new(alloc);
    if added.is_empty() {
        return Ok(line);
    }
    line.extend_from_slice(b"ssh_audit: asked with")?;
    push_added_words(alloc, &mut line, added)?;
    line.push(b'\n')?;
    Ok(line)
}

/// The line of the words after the name of a command.
fn line_of(
    alloc: Global,
    command: Option<Subcommand>,
    around: &Surroundings<'_>,
    words: &[&str],
) -> Result<Vec<u8>, AllocError>
    ensures { IfOk result (λ line. line.items
        ≡ line_of command (around_seen around.now) (map (λ word. word.now) words.now)) }
{
    match command {
        Some(command) if takes_defaults(command) => {
            let turn = in_turn(alloc, words)?;
            let added = added_words(alloc, command, around, turn.as_slice())?;
            added_line(alloc, added.as_slice())
        }
        _ => Ok(Vec::new(alloc)),
    }
}

/// The line that says what `with_defaults` adds to these words: `ssh_audit: asked with ..`. It is
/// empty where nothing is added.
pub fn defaults_line(
    alloc: Global,
    words: &[&str],
    around: &Surroundings<'_>,
) -> Result<Vec<u8>, AllocError>
    ensures { IfOk result (λ line. line.items
        ≡ defaults_line (around_seen around.now) (map (λ word. word.now) words.now)) }
{
    match words.split_first() {
        None => Ok(Vec::new(alloc)),
        Some((name, rest)) => line_of(alloc, Subcommand::named(name), around, rest),
    }
}
