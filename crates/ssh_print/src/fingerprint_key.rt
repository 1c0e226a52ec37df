//! The key that a SHA-256 fingerprint stands for in an authorized_keys file, and the first line of
//! the printed answer of a file where no line holds one.

ghost use Rattle.std.specs.Prelude.{◌≡◌, IfOk, bytes_eq, option_map};
ghost use Rattle.sha2.specs.Sha256.{sha256};
ghost use Rattle.ssh_entries.specs.LineView.{line_seen};
ghost use Rattle.ssh_findings.specs.HeldKey.{held_key};
ghost use Rattle.ssh_keys.specs.KeyOf.{key_of};
ghost use Rattle.ssh_print.specs.FingerprintKeys.{absent_text, absent_words, entry_key, found_key, if_of_digest, key_by_line, line_key, offered_key, unread_key};
ghost use Rattle.ssh_print.specs.Offering.{offer_seen};

use crate::admission_text::{Subject, denies};
use crate::codes::cause_codes;
use crate::showing::OfferedKey;
use crate::text::push_escaped;
use sha2::{Digest, Sha256};
use ssh_entries::{AuthLineView, KeyBuffer, read_auth_view};
use ssh_findings::{key_on_line, view_read};
use ssh_keys::{KeyView, write_key};
use ssh_text::Lines;
use ssh_trust::Cause;
use std::alloc::{AllocError, Global};

fn has_digest(blob: &[u8], digest: &[u8; 32]) -> bool
    ensures { result ≡ bytes_eq (sha256 blob.now) digest.now }
{
    let found = Sha256::digest(blob);
    found.as_slice() == digest.as_slice()
}

/// The offer of a key, if its blob has this SHA-256.
fn offer_with(
    alloc: Global,
    key: &KeyView<'_>,
    digest: &[u8; 32],
) -> Result<Option<OfferedKey>, AllocError>
    ensures { IfOk result (λ offer. option_map offer_seen offer
        ≡ option_map offered_key (if_of_digest digest.now (key_of key.now))) }
{
    let mut blob = Vec::new(alloc);
    write_key(key, &mut blob)?;
    if !has_digest(&blob, digest) {
        return Ok(None);
    }
    Ok(Some(OfferedKey {
        kind: key.kind(),
        is_certificate: false,
        blob,
    }))
}

/// The offer of an entry's key, as it is spelled or else as OpenSSH reads it.
fn entry_offer(
    alloc: Global,
    key: &KeyView<'_>,
    digest: &[u8; 32],
) -> Result<Option<OfferedKey>, AllocError>
    ensures { IfOk result (λ offer. option_map offer_seen offer
        ≡ option_map offered_key (entry_key digest.now (key_of key.now))) }
{
    match offer_with(alloc, key, digest)? {
        Some(offer) => Ok(Some(offer)),
        None => {
            let read = offer_with(alloc, &view_read(key), digest)?;
            Ok(read)
        }
    }
}

/// The offer of the key that OpenSSH looks for on a line that cannot be read here.
fn unread_offer(
    alloc: Global,
    line: &[u8],
    digest: &[u8; 32],
) -> Result<Option<OfferedKey>, AllocError>
    ensures { IfOk result (λ offer. option_map offer_seen offer
        ≡ option_map offered_key (unread_key digest.now (held_key line.now))) }
{
    match key_on_line(alloc, line)? {
        None => Ok(None),
        Some(key) => {
            let offer = offer_with(alloc, &key.view(), digest)?;
            Ok(offer)
        }
    }
}

fn offer_by_line(
    alloc: Global,
    line: &[u8],
    view: &AuthLineView<'_>,
    digest: &[u8; 32],
) -> Result<Option<OfferedKey>, AllocError>
    ensures { IfOk result (λ offer. option_map offer_seen offer
        ≡ option_map offered_key (key_by_line digest.now line.now (line_seen view.now))) }
{
    match view {
        AuthLineView::Entry(entry) => entry_offer(alloc, &entry.key(), digest),
        AuthLineView::Unreadable(_) => unread_offer(alloc, line, digest),
        AuthLineView::Blank | AuthLineView::Comment => Ok(None),
    }
}

/// The offer of the key that a line holds, if its blob has this SHA-256.
fn line_offer(
    alloc: Global,
    line: &[u8],
    digest: &[u8; 32],
    buffer: &mut KeyBuffer,
) -> Result<Option<OfferedKey>, AllocError>
    ensures { IfOk result (λ offer. option_map offer_seen offer
        ≡ option_map offered_key (line_key digest.now line.now)) }
{
    let view = read_auth_view(line, buffer);
    offer_by_line(alloc, line, &view, digest)
}

/// The plain key whose blob has this SHA-256, by the first line of an authorized_keys file that
/// holds it. An entry holds its key, as it is spelled and as OpenSSH reads it. A line that cannot
/// be read here holds the key that OpenSSH looks for there.
#[tactic(auto, unfolding(crate::specs::FingerprintKeys::found_key))]
pub fn find_key(
    alloc: Global,
    file: &[u8],
    digest: &[u8; 32],
) -> Result<Option<OfferedKey>, AllocError>
    ensures { IfOk result (λ offer. option_map offer_seen offer
        ≡ option_map offered_key (found_key digest.now file.now)) }
{
    let mut buffer = KeyBuffer::new(alloc)?;
    for (_number, line) in Lines::new(file) {
        if let Some(offer) = line_offer(alloc, line, digest, &mut buffer)? {
            return Ok(Some(offer));
        }
    }
    Ok(None)
}

#[tactic(auto, unfolding(crate::specs::FingerprintKeys::absent_words))]
fn absent_words() -> &'static [u8]
    ensures { result.now ≡ absent_words }
{
    b": no line holds a key of this fingerprint\n"
}

/// The first line of the printed answer of the authorized_keys file with this name, where
/// `find_key` finds no key in it.
#[tactic(auto, unfolding(crate::specs::FingerprintKeys::absent_text))]
pub fn absent_text(alloc: Global, name: &[u8]) -> Result<Vec<u8>, AllocError>
    ensures { IfOk result (λ text. text.items ≡ absent_text name.now) }
{
    let mut out = Vec::new(alloc);
    push_escaped(&mut out, name)?;
    out.extend_from_slice(b": ")?;
    out.extend_from_slice(denies(Subject::Client))?;
    out.push(b':')?;
    let codes = cause_codes(alloc, Cause::NoLine)?;
    out.extend_from_slice(&codes)?;
    out.extend_from_slice(absent_words())?;
    Ok(out)
}
