//! What `show` prints for a public key, for the body of a private key, and for a file signature.

ghost use Rattle.std.specs.Prelude.{◌≡◌, ◌<◌, ◌≤◌, IfOk, MatchOption, ◌++◌, OnOk, codes};
ghost use Rattle.ssh_print.specs.ShownTexts.{IsClockAt, IsDateText, clock_text, last_second, IsShownKey, bits_line, comment_line, key_lines};
ghost use Rattle.ssh_keys.specs.Fingerprint.{IsRsaSize};
ghost use Rattle.ssh_keys.specs.KeyOf.{key_of};
ghost use Rattle.ssh_keys.specs.KeyReading.{key_in};
ghost use Rattle.ssh_entries.specs.KeyText.{comment_field};
ghost use Rattle.ssh_print.specs.Showing.{key_of_type, key_on, key_type_fault, file_signature_in, public_half_in};
ghost use Rattle.ssh_print.specs.ShownLines.{Finds, Prints};
ghost use Rattle.ssh_bodies.specs.PrivateOf.{private_body};
ghost use Rattle.ssh_bodies.specs.SshsigOf.{sshsig_of};
ghost use Rattle.ssh_print.specs.Texts.{hex_text, word_line};
ghost use Rattle.ssh_print.specs.ShownBodies.{IsHalfText, IsSignatureText, half_lines, key_head, public_half, signature_lines};

use crate::showing::{ShowError, push_fingerprint_line, read_blob};
use crate::text::{push_hex, push_number_line, push_text_line, push_word_line};
use jiff::SignedDuration;
use jiff::civil::DateTime;
use ssh_bodies::{PrivateView, SshsigView, read_private, read_sshsig};
use ssh_entries::key_text;
use ssh_keys::{KeyView, NameClass, name_class, read_key, rsa_bits};
use ssh_options::{LineCause, epoch};
use std::alloc::{AllocError, Global};

/// The last second of the year 9999, in seconds since 1970-01-01 UTC.
const LAST_SECOND: u64 = 253_402_300_799;

/// The date and time in UTC for a time in seconds since 1970-01-01 UTC; `None` after the year 9999.
fn clock_at(moment: u64) -> Option<DateTime>
    ensures { MatchOption result (last_second < moment)
        (λ shown. (moment ≤ last_second) × IsClockAt moment shown) }
{
    if moment > LAST_SECOND {
        return None;
    }
    match epoch().checked_add(SignedDuration::from_secs(moment as i64)) {
        Ok(shown) => Some(shown),
        Err(_) => unreachable!(),
    }
}

/// A date and time in the form `YYYY-MM-DDTHH:MM:SSZ`.
fn clock_text(alloc: Global, shown: DateTime) -> Result<Vec<u8>, AllocError>
    ensures { IfOk result (λ text. text.items ≡ clock_text shown) }
{
    let civil = shown.to_string(alloc)?;
    let mut text = Vec::from_slice(alloc, civil.as_bytes())?;
    text.push(b'Z')?;
    Ok(text)
}

/// The date of a time in seconds since 1970-01-01 UTC, in the form `YYYY-MM-DDTHH:MM:SSZ`; `-`
/// after the year 9999.
pub(crate) fn utc_date(alloc: Global, moment: u64) -> Result<Vec<u8>, AllocError>
    ensures { IfOk result (λ text. IsDateText moment text.items) }
{
    match clock_at(moment) {
        Some(shown) => clock_text(alloc, shown),
        None => Vec::from_slice(alloc, b"-"),
    }
}

/// The fault to report if a type name is not a plain key's.
pub(crate) fn key_type_fault(class: NameClass) -> Option<LineCause>
    ensures { result ≡ key_type_fault class }
{
    match class {
        NameClass::Plain(_) => None,
        NameClass::Certificate(_) => Some(LineCause::CertificateOnLine),
        NameClass::Retired => Some(LineCause::RetiredType),
        NameClass::Other => Some(LineCause::KeyType),
    }
}

/// Reads the key in a blob, and checks that its type is the one on the line.
pub(crate) fn read_typed_key<'a>(type_name: &[u8], blob: &'a [u8]) -> Result<KeyView<'a>, ShowError>
    ensures { Finds key_of (key_of_type type_name.now (key_in blob.now)) result }
{
    match read_key(blob) {
        Err(e) => Err(ShowError::Line(LineCause::KeyBlob(e))),
        Ok(key) if key.kind().name() != type_name => {
            Err(ShowError::Line(LineCause::TypeMismatch))
        }
        Ok(key) => Ok(key),
    }
}

/// The line of the size of an RSA key; none for other keys.
fn push_bits(out: &mut Vec<u8>, bits: Option<u32>) -> Result<(), AllocError>
    ensures { OnOk result (out.new.items ≡ out.old.items ++ bits_line bits) }
{
    match bits {
        Some(bits) => push_number_line(out, b"bits ", bits as u64),
        None => Ok(()),
    }
}

/// The line of a comment; none if it is empty.
pub(crate) fn push_comment(out: &mut Vec<u8>, comment: &[u8]) -> Result<(), AllocError>
    ensures { OnOk result (out.new.items ≡ out.old.items ++ comment_line comment.now) }
{
    if comment.is_empty() {
        Ok(())
    } else {
        push_text_line(out, b"comment ", comment)
    }
}

/// The lines of a key: its type, its size if it is an RSA key, its fingerprint, and its comment if
/// it has one.
fn push_key(
    alloc: Global,
    out: &mut Vec<u8>,
    key: &KeyView<'_>,
    bits: Option<u32>,
    comment: &[u8],
) -> Result<(), AllocError>
    ensures { OnOk result
        (out.new.items ≡ out.old.items ++ key_lines (key_of key.now) bits comment.now) }
{
    push_word_line(out, b"type ", key.kind().name())?;
    push_bits(out, bits)?;
    push_fingerprint_line(alloc, out, key)?;
    push_comment(out, comment)?;
    Ok(())
}

/// The printed lines for the key on a line, which is given without its LF.
#[tactic(auto, unfolding(crate::specs::Showing::key_on))]
pub fn show_key(alloc: Global, line: &[u8]) -> Result<Vec<u8>, ShowError>
    ensures { Prints (λ text. text.items) (λ key text. IsShownKey key (comment_field line.now) text)
        (key_on line.now) result }
{
    let text = key_text(line);
    let type_fault = key_type_fault(name_class(text.type_name));
    let blob = read_blob(alloc, text.base64, type_fault)?;
    let key = read_typed_key(text.type_name, &blob)?;
    let mut lines = Vec::new(alloc);
    push_key(alloc, &mut lines, &key, rsa_bits(&key), text.comment)?;
    Ok(lines)
}

/// The lines of the type and the fingerprint of a key.
#[tactic(auto, unfolding(crate::specs::ShownBodies::key_head))]
fn push_key_head(alloc: Global, out: &mut Vec<u8>, key: &KeyView<'_>) -> Result<(), AllocError>
    ensures { OnOk result (out.new.items ≡ out.old.items ++ key_head (key_of key.now)) }
{
    push_word_line(out, b"type ", key.kind().name())?;
    push_fingerprint_line(alloc, out, key)?;
    Ok(())
}

/// The lines of a private key: its public half, the check number, and the comment if it has one. No
/// secret is printed.
#[tactic(auto, unfolding(crate::specs::ShownBodies::half_lines))]
fn push_half(alloc: Global, out: &mut Vec<u8>, view: &PrivateView<'_>) -> Result<(), AllocError>
    ensures { OnOk result
        (out.new.items ≡ out.old.items ++ half_lines (public_half (private_body view.now))) }
{
    push_key_head(alloc, out, &view.public)?;
    push_number_line(out, b"check ", view.check as u64)?;
    push_comment(out, view.comment)?;
    Ok(())
}

#[tactic(auto, unfolding(crate::specs::Texts::word_line))]
fn push_reserved(out: &mut Vec<u8>, reserved: &[u8]) -> Result<(), AllocError>
    ensures { OnOk result
        (out.new.items ≡ out.old.items ++ word_line (codes "reserved ") (hex_text reserved.now)) }
{
    out.extend_from_slice(b"reserved ")?;
    push_hex(out, reserved)?;
    out.push(b'\n')?;
    Ok(())
}

/// The lines of a file signature: its key, its namespace, its reserved bytes and its algorithms.
#[tactic(auto, unfolding(crate::specs::ShownBodies::signature_lines))]
fn push_signature(alloc: Global, out: &mut Vec<u8>, view: &SshsigView<'_>) -> Result<(), AllocError>
    ensures { OnOk result (out.new.items ≡ out.old.items ++ signature_lines (sshsig_of view.now)) }
{
    push_key_head(alloc, out, &view.key)?;
    push_text_line(out, b"namespace ", view.namespace)?;
    push_reserved(out, view.reserved)?;
    push_word_line(out, b"hash ", view.hash.name())?;
    push_text_line(out, b"signature ", view.signature.algorithm)?;
    Ok(())
}

/// The printed lines for the private key in a body.
#[tactic(auto, unfolding(crate::specs::Showing::public_half_in))]
pub fn show_private(alloc: Global, body: &[u8]) -> Result<Vec<u8>, ShowError>
    ensures { Prints (λ text. text.items) IsHalfText (public_half_in body.now) result }
{
    let view = match read_private(body) {
        Ok(view) => view,
        Err(e) => return Err(ShowError::Body(e)),
    };
    let mut lines = Vec::new(alloc);
    push_half(alloc, &mut lines, &view)?;
    Ok(lines)
}

/// The printed lines for the file signature in a body.
#[tactic(auto, unfolding(crate::specs::Showing::file_signature_in))]
pub fn show_sshsig(alloc: Global, body: &[u8]) -> Result<Vec<u8>, ShowError>
    ensures { Prints (λ text. text.items) IsSignatureText (file_signature_in body.now) result }
{
    let view = match read_sshsig(body) {
        Ok(view) => view,
        Err(e) => return Err(ShowError::Body(e)),
    };
    let mut lines = Vec::new(alloc);
    push_signature(alloc, &mut lines, &view)?;
    Ok(lines)
}
