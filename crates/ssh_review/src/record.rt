//! The record of a line of an `authorized_keys` file, as text, and the parts that all records have.

ghost use Rattle.std.specs.Prelude.{◌≡◌, ◌++◌, OnOk};
ghost use Rattle.std.specs.List.{flat_map};
ghost use Rattle.ssh_print.specs.DecisionText.{carried_word};
ghost use Rattle.ssh_review.specs.Records.{bits_text, carried_inset, comment_text, entry_head, entry_text, fingerprint_word, flag_line, held_words, key_words, limit_lines, place_text, right_lines, rights_inset, role_word, setting_line, unreadable_text, until_line};

use crate::fields::push_rights_words;
use crate::findings::push_findings;
use crate::json_record::LineRef;
use ssh_findings::{Facts, Finding, HeldKey};
use ssh_keys::KeyKind;
use ssh_print::{moment_text, push_number, push_shown, push_text_line, push_word_line};
use ssh_rights::{Carried, CarriedName, Rights};
use ssh_text::Bytes;
use std::alloc::{AllocError, Global};

/// Appends the front of a record and the number of its line.
pub(crate) fn push_place(out: &mut Vec<u8>, place: &LineRef<'_>) -> Result<(), AllocError>
    ensures { OnOk result (out.new.items
        ≡ out.old.items ++ place_text place.entry.now.head.now place.entry.now.number) }
{
    out.extend_from_slice(place.head)?;
    out.push(b':')?;
    push_number(out, place.number)?;
    out.extend_from_slice(b": ")?;
    Ok(())
}

/// What the key of an entry is, before its type: a certificate authority, or a key.
pub(crate) fn role_word(is_authority: bool) -> &'static [u8]
    ensures { result.now ≡ role_word is_authority }
{
    if is_authority { b"authority " } else { b"key " }
}

/// Appends the number of bits of an RSA key, after a space.
fn push_bits(out: &mut Vec<u8>, bits: Option<u32>) -> Result<(), AllocError>
    ensures { OnOk result (out.new.items ≡ out.old.items ++ bits_text bits) }
{
    if let Some(bits) = bits {
        out.push(b' ')?;
        push_number(out, bits as u64)?;
    }
    Ok(())
}

/// Appends a comment after a space, if it has bytes.
pub(crate) fn push_comment(out: &mut Vec<u8>, comment: &[u8]) -> Result<(), AllocError>
    ensures { OnOk result (out.new.items ≡ out.old.items ++ comment_text comment.now) }
{
    if !comment.is_empty() {
        out.push(b' ')?;
        push_shown(out, comment)?;
    }
    Ok(())
}

/// Appends a fingerprint as `ssh-keygen -l` prints it, after a space.
#[tactic(auto, unfolding(crate::specs::Records::fingerprint_word))]
pub(crate) fn push_fingerprint(out: &mut Vec<u8>, fingerprint: &[u8]) -> Result<(), AllocError>
    ensures { OnOk result (out.new.items ≡ out.old.items ++ fingerprint_word fingerprint.now) }
{
    out.extend_from_slice(b" SHA256:")?;
    out.extend_from_slice(fingerprint)?;
    Ok(())
}

/// Appends the type of a key, the bits of an RSA key, and the fingerprint.
#[tactic(auto, unfolding(crate::specs::Records::key_words))]
pub(crate) fn push_key(
    out: &mut Vec<u8>,
    kind: KeyKind,
    bits: Option<u32>,
    fingerprint: &[u8],
) -> Result<(), AllocError>
    ensures { OnOk result (out.new.items ≡ out.old.items ++ key_words kind bits fingerprint.now) }
{
    out.extend_from_slice(kind.name())?;
    push_bits(out, bits)?;
    push_fingerprint(out, fingerprint)?;
    Ok(())
}

/// Appends the first line of an entry's record, after its place.
#[tactic(auto, unfolding(crate::specs::Records::entry_head))]
fn push_head(out: &mut Vec<u8>, facts: &Facts) -> Result<(), AllocError>
    ensures { OnOk result (out.new.items ≡ out.old.items ++ entry_head facts.now) }
{
    out.extend_from_slice(role_word(facts.is_authority))?;
    push_key(out, facts.kind, facts.bits, &facts.fingerprint)?;
    push_comment(out, facts.comment.as_slice())?;
    out.push(b'\n')?;
    Ok(())
}

#[tactic(auto, unfolding(crate::specs::Records::rights_inset))]
fn push_rights(out: &mut Vec<u8>, rights: &Rights) -> Result<(), AllocError>
    ensures { OnOk result (out.new.items ≡ out.old.items ++ rights_inset rights.now) }
{
    out.extend_from_slice(b"    rights ")?;
    push_rights_words(out, rights)?;
    out.push(b'\n')?;
    Ok(())
}

/// Appends the line of an option's value, if there is one.
#[tactic(auto, unfolding(crate::specs::Records::setting_line))]
fn push_setting(out: &mut Vec<u8>, word: &[u8], value: &Option<Bytes>) -> Result<(), AllocError>
    ensures { OnOk result (out.new.items ≡ out.old.items ++ setting_line word.now value.now) }
{
    match value {
        Some(text) => push_text_line(out, word, text.as_slice()),
        None => Ok(()),
    }
}

/// The name of an option in sshd(8).
fn carried_word(name: CarriedName) -> &'static [u8]
    ensures { result.now ≡ carried_word name }
{
    match name {
        CarriedName::Environment => b"environment",
        CarriedName::PermitListen => b"permitlisten",
        CarriedName::PermitOpen => b"permitopen",
        CarriedName::Tunnel => b"tunnel",
    }
}

fn push_carried(out: &mut Vec<u8>, carried: &Carried) -> Result<(), AllocError>
    ensures { OnOk result (out.new.items ≡ out.old.items ++ carried_inset carried.now) }
{
    out.extend_from_slice(b"    carry ")?;
    out.extend_from_slice(carried_word(carried.name))?;
    out.push(b' ')?;
    push_shown(out, carried.text.as_slice())?;
    out.push(b'\n')?;
    Ok(())
}

fn push_each_carried(out: &mut Vec<u8>, carried: &[Carried]) -> Result<(), AllocError>
    ensures { OnOk result (out.new.items ≡ out.old.items ++ flat_map carried_inset carried.now) }
{
    for text in carried {
        push_carried(out, text)?;
    }
    Ok(())
}

/// Appends the rights that the line gives to the key.
fn push_right_lines(out: &mut Vec<u8>, rights: &Rights) -> Result<(), AllocError>
    ensures { OnOk result (out.new.items ≡ out.old.items ++ right_lines rights.now) }
{
    push_rights(out, rights)?;
    push_setting(out, b"    command ", &rights.command)?;
    push_each_carried(out, rights.carried.as_slice())?;
    Ok(())
}

/// Appends this line if a flag is set.
#[tactic(auto, unfolding(crate::specs::Records::flag_line))]
fn push_flag(out: &mut Vec<u8>, stands: bool, line: &[u8]) -> Result<(), AllocError>
    ensures { OnOk result (out.new.items ≡ out.old.items ++ flag_line stands line.now) }
{
    if stands {
        out.extend_from_slice(line)?;
    }
    Ok(())
}

/// Appends the line of the moment at which an entry expires, if there is one.
#[tactic(auto, unfolding(crate::specs::Records::until_line))]
fn push_until(alloc: Global, out: &mut Vec<u8>, until: Option<i64>) -> Result<(), AllocError>
    ensures { OnOk result (out.new.items ≡ out.old.items ++ until_line until) }
{
    match until {
        Some(moment) => {
            let text = moment_text(alloc, moment)?;
            push_word_line(out, b"    expires ", &text)
        }
        None => Ok(()),
    }
}

/// Appends the limits of the key.
fn push_limits(alloc: Global, out: &mut Vec<u8>, facts: &Facts) -> Result<(), AllocError>
    ensures { OnOk result (out.new.items ≡ out.old.items ++ limit_lines facts.now) }
{
    push_flag(out, facts.no_touch_required, b"    no-touch-required\n")?;
    push_flag(out, facts.verify_required, b"    verify-required\n")?;
    push_setting(out, b"    from ", &facts.from)?;
    push_setting(out, b"    principals ", &facts.principals)?;
    push_until(alloc, out, facts.until)?;
    Ok(())
}

/// Appends the record of an entry.
#[tactic(auto, unfolding(crate::specs::Records::entry_text))]
pub(crate) fn push_entry_text(
    alloc: Global,
    out: &mut Vec<u8>,
    place: &LineRef<'_>,
    facts: &Facts,
    found: &[Finding],
) -> Result<(), AllocError>
    ensures { OnOk result (out.new.items ≡ out.old.items
        ++ entry_text place.entry.now.head.now place.entry.now.number facts.now found.now) }
{
    push_place(out, place)?;
    push_head(out, facts)?;
    push_right_lines(out, &facts.rights)?;
    push_limits(alloc, out, facts)?;
    push_findings(alloc, out, found)?;
    Ok(())
}

/// Appends the key that OpenSSH reads on a line which is unreadable here, after a space, if there
/// is one.
pub(crate) fn push_held(out: &mut Vec<u8>, held: Option<HeldKey>) -> Result<(), AllocError>
    ensures { OnOk result (out.new.items ≡ out.old.items ++ held_words held) }
{
    if let Some(held) = held {
        out.push(b' ')?;
        push_key(out, held.kind, held.bits, &held.fingerprint)?;
    }
    Ok(())
}

/// Appends the record of a line that cannot be read.
#[tactic(auto, unfolding(crate::specs::Records::unreadable_text))]
pub(crate) fn push_unreadable_text(
    alloc: Global,
    out: &mut Vec<u8>,
    place: &LineRef<'_>,
    held: Option<HeldKey>,
    found: &[Finding],
) -> Result<(), AllocError>
    ensures { OnOk result (out.new.items ≡ out.old.items
        ++ unreadable_text place.entry.now.head.now place.entry.now.number held found.now) }
{
    push_place(out, place)?;
    out.extend_from_slice(b"unreadable")?;
    push_held(out, held)?;
    out.push(b'\n')?;
    push_findings(alloc, out, found)?;
    Ok(())
}
