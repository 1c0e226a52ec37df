//! The row of a line of an `authorized_keys` file, and the parts that all rows have.

ghost use Rattle.std.specs.Prelude.{◌≡◌, ◌++◌, OnOk};
ghost use Rattle.std.specs.List.{flat_map};
ghost use Rattle.ssh_print.specs.DecisionText.{has_no_right};
ghost use Rattle.ssh_page.specs.Documents.{each, marks, put};
ghost use Rattle.ssh_page.specs.Records.{all_limits, bits_part, carried_part, put_if, command_part, comment_part, entry_cells, entry_row, fingerprint_part, flag_part, held_part, is_free, is_free_of_flags, is_free_of_lists, is_free_to_run, key_part, limits_part, right_marks, right_piece, rights_part, row_numbers, setting_part, unreadable_row, until_part, words_part};

use crate::finding::{push_classes, push_findings};
use crate::marks::{push_piece, push_reported};
use crate::piece::Piece;
use itoa::Buffer;
use ssh_findings::{Facts, Finding, HeldKey};
use ssh_keys::KeyKind;
use ssh_print::{carried_word, moment_text, push_number, push_shown};
use ssh_rights::{Carried, Rights};
use ssh_text::Bytes;
use std::alloc::{AllocError, Global};

/// The place of a row: the number of its file on the page, from 0, and that of its line, from 1.
#[derive(Clone, Copy, Debug, PartialEq, Eq)]
pub struct RowPlace {
    pub file: u64,
    pub line: u64,
}

/// Appends a piece if something holds.
pub(crate) fn push_if(out: &mut Vec<u8>, holds: bool, piece: Piece) -> Result<(), AllocError>
    ensures { OnOk result (out.new.items ≡ out.old.items ++ marks (put_if holds piece)) }
{
    if holds {
        push_piece(out, piece)
    } else {
        Ok(())
    }
}

/// Appends the numbers of a row: its name on the page, and the line's number.
#[tactic(auto, unfolding(crate::specs::Records::row_numbers))]
pub(crate) fn push_numbers(out: &mut Vec<u8>, place: RowPlace) -> Result<(), AllocError>
    ensures { OnOk result (out.new.items ≡ out.old.items ++ marks (row_numbers place)) }
{
    let mut digits = Buffer::new();
    let line = digits.format(place.line).as_bytes();
    push_piece(out, Piece::FileId)?;
    push_number(out, place.file)?;
    push_piece(out, Piece::LineId)?;
    out.extend_from_slice(line)?;
    push_piece(out, Piece::RowNumber)?;
    out.extend_from_slice(line)?;
    push_piece(out, Piece::KeyCell)?;
    Ok(())
}

/// Appends a comment, or that there is none.
pub(crate) fn push_comment(out: &mut Vec<u8>, comment: &[u8]) -> Result<(), AllocError>
    ensures { OnOk result (out.new.items ≡ out.old.items ++ marks (comment_part comment.now)) }
{
    if comment.is_empty() {
        push_piece(out, Piece::NoComment)
    } else {
        push_reported(out, comment)
    }
}

/// Appends the number of bits of an RSA key, after a space.
fn push_bits(out: &mut Vec<u8>, bits: Option<u32>) -> Result<(), AllocError>
    ensures { OnOk result (out.new.items ≡ out.old.items ++ marks (bits_part bits)) }
{
    if let Some(bits) = bits {
        push_shown(out, b" ")?;
        push_number(out, bits as u64)?;
    }
    Ok(())
}

/// Appends a fingerprint as `ssh-keygen -l` prints it.
#[tactic(auto, unfolding(crate::specs::Records::fingerprint_part))]
pub(crate) fn push_fingerprint(out: &mut Vec<u8>, fingerprint: &[u8]) -> Result<(), AllocError>
    ensures { OnOk result (out.new.items
        ≡ out.old.items ++ marks (fingerprint_part fingerprint.now)) }
{
    push_piece(out, Piece::Fingerprint)?;
    push_shown(out, fingerprint)?;
    push_piece(out, Piece::FingerprintEnd)?;
    Ok(())
}

/// Appends the type of a key, the bits of an RSA key, and the fingerprint.
#[tactic(auto, unfolding(crate::specs::Records::key_part))]
pub(crate) fn push_key(
    out: &mut Vec<u8>,
    kind: KeyKind,
    bits: Option<u32>,
    fingerprint: &[u8],
) -> Result<(), AllocError>
    ensures { OnOk result (out.new.items
        ≡ out.old.items ++ marks (key_part kind bits fingerprint.now)) }
{
    push_piece(out, Piece::KeyType)?;
    push_shown(out, kind.name())?;
    push_bits(out, bits)?;
    push_piece(out, Piece::KeyTypeEnd)?;
    push_fingerprint(out, fingerprint)?;
    Ok(())
}

/// Appends the key that OpenSSH reads on a line which is unreadable here, if there is one.
pub(crate) fn push_held(out: &mut Vec<u8>, held: Option<HeldKey>) -> Result<(), AllocError>
    ensures { OnOk result (out.new.items ≡ out.old.items ++ marks (held_part held)) }
{
    match held {
        Some(held) => push_key(out, held.kind, held.bits, &held.fingerprint),
        None => Ok(()),
    }
}

/// Appends the value of an option after its word.
pub(crate) fn push_value(out: &mut Vec<u8>, word: &[u8], text: &[u8]) -> Result<(), AllocError>
    ensures { OnOk result (out.new.items
        ≡ out.old.items ++ marks (setting_part word.now (Some text.now))) }
{
    push_piece(out, Piece::Limit)?;
    push_shown(out, word)?;
    push_reported(out, text)?;
    push_piece(out, Piece::LimitEnd)?;
    Ok(())
}

/// Appends the value of an option after its word, if there is one.
fn push_setting(out: &mut Vec<u8>, word: &[u8], value: &Option<Bytes>) -> Result<(), AllocError>
    ensures { OnOk result (out.new.items
        ≡ out.old.items ++ marks (setting_part word.now value.now)) }
{
    match value {
        Some(text) => push_value(out, word, text.as_slice()),
        None => Ok(()),
    }
}

/// Appends these words as a limit if a flag is set.
pub(crate) fn push_flag(out: &mut Vec<u8>, stands: bool, words: &[u8]) -> Result<(), AllocError>
    ensures { OnOk result (out.new.items
        ≡ out.old.items ++ marks (flag_part stands words.now)) }
{
    if stands {
        push_piece(out, Piece::Limit)?;
        push_shown(out, words)?;
        push_piece(out, Piece::LimitEnd)?;
    }
    Ok(())
}

fn right_piece(is_on: bool, right: Piece) -> Piece
    ensures { result ≡ right_piece is_on right }
{
    if is_on { right } else { Piece::RightOff }
}

/// Appends a mark for each right, whether it is on or off.
#[tactic(auto, unfolding(crate::specs::Records::right_marks))]
fn push_right_marks(out: &mut Vec<u8>, rights: &Rights) -> Result<(), AllocError>
    ensures { OnOk result (out.new.items ≡ out.old.items ++ marks (right_marks rights.now)) }
{
    out.extend_from_slice(&[
        right_piece(rights.port, Piece::Port).mark(),
        right_piece(rights.agent, Piece::Agent).mark(),
        right_piece(rights.x11, Piece::X11).mark(),
        right_piece(rights.pty, Piece::Pty).mark(),
        right_piece(rights.user_rc, Piece::UserRc).mark(),
    ])?;
    Ok(())
}

fn has_no_right(rights: &Rights) -> bool
    ensures { result ≡ has_no_right rights.now }
{
    !(rights.port || rights.agent || rights.x11 || rights.pty || rights.user_rc)
}

/// Appends the rights that the line gives to the key.
fn push_rights(out: &mut Vec<u8>, rights: &Rights) -> Result<(), AllocError>
    ensures { OnOk result (out.new.items ≡ out.old.items ++ marks (rights_part rights.now)) }
{
    if has_no_right(rights) {
        push_piece(out, Piece::NoRights)
    } else {
        push_right_marks(out, rights)
    }
}

/// Appends the text of an option that is listed as it is.
#[tactic(auto, unfolding(crate::specs::Records::carried_part))]
fn push_carried(out: &mut Vec<u8>, carried: &Carried) -> Result<(), AllocError>
    ensures { OnOk result (out.new.items ≡ out.old.items ++ marks (carried_part carried.now)) }
{
    push_piece(out, Piece::Limit)?;
    push_shown(out, b"carry ")?;
    push_shown(out, carried_word(carried.name))?;
    push_shown(out, b" ")?;
    push_reported(out, carried.text.as_slice())?;
    push_piece(out, Piece::LimitEnd)?;
    Ok(())
}

fn push_each_carried(out: &mut Vec<u8>, carried: &[Carried]) -> Result<(), AllocError>
    ensures { OnOk result (out.new.items
        ≡ out.old.items ++ marks (each carried_part carried.now)) }
{
    for text in carried {
        push_carried(out, text)?;
    }
    Ok(())
}

/// Appends a word and what the program says of it, as a limit.
#[tactic(auto, unfolding(crate::specs::Records::words_part))]
fn push_words(out: &mut Vec<u8>, word: &[u8], text: &[u8]) -> Result<(), AllocError>
    ensures { OnOk result (out.new.items ≡ out.old.items ++ marks (words_part word.now text.now)) }
{
    push_piece(out, Piece::Limit)?;
    push_shown(out, word)?;
    push_shown(out, text)?;
    push_piece(out, Piece::LimitEnd)?;
    Ok(())
}

/// Appends the moment at which an entry expires, and its date, if there is one.
fn push_until(alloc: Global, out: &mut Vec<u8>, until: Option<i64>) -> Result<(), AllocError>
    ensures { OnOk result (out.new.items ≡ out.old.items ++ marks (until_part until)) }
{
    match until {
        Some(moment) => {
            let text = moment_text(alloc, moment)?;
            push_words(out, b"expires ", &text)
        }
        None => Ok(()),
    }
}

/// Appends the forced command and the texts of other options.
#[tactic(auto, unfolding(crate::specs::Records::command_part))]
fn push_command(out: &mut Vec<u8>, rights: &Rights) -> Result<(), AllocError>
    ensures { OnOk result (out.new.items ≡ out.old.items ++ marks (command_part rights.now)) }
{
    push_setting(out, b"command ", &rights.command)?;
    push_each_carried(out, rights.carried.as_slice())?;
    Ok(())
}

/// Appends the limits of the key that are no rights.
#[tactic(auto, unfolding(crate::specs::Records::limits_part))]
fn push_limits(alloc: Global, out: &mut Vec<u8>, facts: &Facts) -> Result<(), AllocError>
    ensures { OnOk result (out.new.items ≡ out.old.items ++ marks (limits_part facts.now)) }
{
    push_flag(out, facts.no_touch_required, b"no-touch-required")?;
    push_flag(out, facts.verify_required, b"verify-required")?;
    push_setting(out, b"from ", &facts.from)?;
    push_setting(out, b"principals ", &facts.principals)?;
    push_until(alloc, out, facts.until)?;
    Ok(())
}

fn is_free_to_run(rights: &Rights) -> bool
    ensures { result ≡ is_free_to_run rights.now }
{
    rights.command.is_none() && rights.carried.as_slice().is_empty()
}

fn is_free_of_flags(facts: &Facts) -> bool
    ensures { result ≡ is_free_of_flags facts.now }
{
    !(facts.is_authority || facts.no_touch_required || facts.verify_required)
}

fn is_free_of_lists(facts: &Facts) -> bool
    ensures { result ≡ is_free_of_lists facts.now }
{
    facts.from.is_none() && facts.principals.is_none() && facts.until.is_none()
}

/// Whether nothing limits the key.
fn is_free(facts: &Facts) -> bool
    ensures { result ≡ is_free facts.now }
{
    is_free_of_flags(facts) && is_free_to_run(&facts.rights) && is_free_of_lists(facts)
}

/// Appends all limits, or that there is none.
#[tactic(auto, unfolding(crate::specs::Records::all_limits))]
fn push_all_limits(alloc: Global, out: &mut Vec<u8>, facts: &Facts) -> Result<(), AllocError>
    ensures { OnOk result (out.new.items ≡ out.old.items ++ marks (all_limits facts.now)) }
{
    push_flag(out, facts.is_authority, b"authority: whoever it certifies")?;
    push_command(out, &facts.rights)?;
    push_limits(alloc, out, facts)?;
    push_if(out, is_free(facts), Piece::NoLimit)?;
    Ok(())
}

/// Appends the first cells of an entry: whose key it is, which key, and what it may do.
#[tactic(auto, unfolding(crate::specs::Records::entry_cells))]
fn push_entry_cells(out: &mut Vec<u8>, facts: &Facts) -> Result<(), AllocError>
    ensures { OnOk result (out.new.items ≡ out.old.items ++ marks (entry_cells facts.now)) }
{
    push_comment(out, facts.comment.as_slice())?;
    push_key(out, facts.kind, facts.bits, &facts.fingerprint)?;
    push_piece(out, Piece::RightsCell)?;
    push_rights(out, &facts.rights)?;
    Ok(())
}

/// Appends the row of an entry.
#[tactic(auto, unfolding(crate::specs::Records::entry_row))]
pub fn push_entry_row(
    alloc: Global,
    out: &mut Vec<u8>,
    place: RowPlace,
    facts: &Facts,
    found: &[Finding],
) -> Result<(), AllocError>
    ensures { OnOk result (out.new.items
        ≡ out.old.items ++ marks (entry_row place facts.now found.now)) }
{
    push_piece(out, Piece::Row)?;
    push_classes(out, found)?;
    push_if(out, facts.is_authority, Piece::AuthorityClass)?;
    push_numbers(out, place)?;
    push_entry_cells(out, facts)?;
    push_piece(out, Piece::LimitsCell)?;
    push_all_limits(alloc, out, facts)?;
    push_findings(alloc, out, place.file, found)?;
    push_piece(out, Piece::RowEnd)?;
    Ok(())
}

/// Appends the row of a line that cannot be read, with the key that OpenSSH reads on it.
#[tactic(auto, unfolding(crate::specs::Records::unreadable_row))]
pub fn push_unreadable_row(
    alloc: Global,
    out: &mut Vec<u8>,
    place: RowPlace,
    held: Option<HeldKey>,
    found: &[Finding],
) -> Result<(), AllocError>
    ensures { OnOk result (out.new.items
        ≡ out.old.items ++ marks (unreadable_row place held found.now)) }
{
    push_piece(out, Piece::Row)?;
    push_classes(out, found)?;
    push_piece(out, Piece::UnreadableClass)?;
    push_numbers(out, place)?;
    push_shown(out, b"unreadable")?;
    push_held(out, held)?;
    push_piece(out, Piece::RightsCell)?;
    push_piece(out, Piece::RightsUnknown)?;
    push_piece(out, Piece::LimitsCell)?;
    push_findings(alloc, out, place.file, found)?;
    push_piece(out, Piece::RowEnd)?;
    Ok(())
}
