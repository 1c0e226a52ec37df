//! The plain key in a certificate on a known_hosts line: where the line revokes, ssh takes this key as
//! revoked.

ghost use Rattle.std.specs.Prelude.{◌≡◌, IfOk, option_map};
ghost use Rattle.ssh_wire.specs.Reading.{Gives};
ghost use Rattle.ssh_keys.specs.KeyOf.{key_of};
ghost use Rattle.ssh_keys.specs.PublicKey.{key_blob};
ghost use Rattle.ssh_findings.specs.CertifiedKey.{certificate_algorithm, certified_at, certified_key, certified_key_in_blob, certified_kind, certified_of_kind, certified_of_words, known_certified_key};
ghost use Rattle.ssh_findings.specs.OpenSshBlob.{some_or_no_key};
ghost use Rattle.ssh_findings.specs.OpenSshWords.{bytes_of_word, if_of_kind};

use crate::recovered_key::{Refused, take_c_text, take_fields};
use crate::recovered_words::{after_marker, bytes_of_word, next_field, read_part};
use ssh_keys::{KeyKind, KeyView, NameClass, name_class, write_key};
use ssh_text::{skip_blanks, split_word};
use ssh_wire::Cursor;
use std::alloc::{AllocError, Global};

/// The names of signature algorithms that OpenSSH also accepts as names of a certificate's type.
#[tactic(auto, unfolding(crate::specs::CertifiedKey::certificate_algorithm))]
fn certificate_algorithm(name: &[u8]) -> Option<KeyKind>
    ensures { result ≡ certificate_algorithm name.now }
{
    if name == b"rsa-sha2-256-cert-v01@openssh.com".as_slice()
        || name == b"rsa-sha2-512-cert-v01@openssh.com".as_slice()
    {
        return Some(KeyKind::Rsa);
    }
    None
}

/// The kind of certificate that a type word names, or a blob's type string.
#[tactic(auto, unfolding(crate::specs::CertifiedKey::certified_kind))]
fn certified_kind(name: &[u8]) -> Option<KeyKind>
    ensures { result ≡ certified_kind name.now }
{
    match name_class(name) {
        NameClass::Certificate(kind) => Some(kind),
        NameClass::Plain(_) | NameClass::Retired | NameClass::Other => certificate_algorithm(name),
    }
}

/// The kind of certificate that a blob's type string names.
fn kind_named(name: &[u8]) -> Result<KeyKind, Refused>
    ensures { result ≡ some_or_no_key (certified_kind name.now) }
{
    match certified_kind(name) {
        Some(kind) => Ok(kind),
        None => Err(Refused::NoKey),
    }
}

/// Reads the plain key in the certificate of a blob. What follows the key is not read.
#[tactic(auto, unfolding(crate::specs::CertifiedKey::certified_key_in_blob))]
fn certified_key_in_blob(blob: &[u8]) -> Result<KeyView<'_>, Refused>
    ensures { Gives key_of result (certified_key_in_blob blob.now) }
{
    let mut cursor = Cursor::new(blob);
    let name = take_c_text(&mut cursor)?;
    let kind = kind_named(name)?;
    let _nonce = cursor.take_string()?;
    let fields = take_fields(kind, &mut cursor)?;
    let view = KeyView::from_fields(fields)?;
    Ok(view)
}

/// The blob of the key in a certificate, if it is of this kind.
fn blob_of_kind(alloc: Global, kind: KeyKind, blob: &[u8]) -> Result<Option<Vec<u8>>, AllocError>
    ensures { IfOk result (λ found. option_map (λ v. v.items) found
        ≡ option_map key_blob (if_of_kind kind (certified_key blob.now))) }
{
    let Ok(view) = certified_key_in_blob(blob) else {
        return Ok(None);
    };
    if view.kind().name() != kind.name() {
        return Ok(None);
    }
    let mut found = Vec::new(alloc);
    write_key(&view, &mut found)?;
    Ok(Some(found))
}

/// The same in the base64 of a word.
fn blob_in_base64(alloc: Global, kind: KeyKind, word: &[u8]) -> Result<Option<Vec<u8>>, AllocError>
    ensures { IfOk result (λ found. option_map (λ v. v.items) found
        ≡ option_map key_blob (certified_of_kind kind (bytes_of_word word.now))) }
{
    match bytes_of_word(alloc, word)? {
        None => Ok(None),
        Some(blob) => {
            let found = blob_of_kind(alloc, kind, &blob)?;
            Ok(found)
        }
    }
}

/// The same of a type word and a base64 word.
#[tactic(auto, unfolding(crate::specs::CertifiedKey::certified_of_words))]
fn blob_of_words(
    alloc: Global,
    type_word: &[u8],
    base64_word: &[u8],
) -> Result<Option<Vec<u8>>, AllocError>
    ensures { IfOk result (λ found. option_map (λ v. v.items) found
        ≡ option_map key_blob (certified_of_words type_word.now base64_word.now)) }
{
    match certified_kind(type_word) {
        None => Ok(None),
        Some(kind) => {
            let found = blob_in_base64(alloc, kind, base64_word)?;
            Ok(found)
        }
    }
}

/// The same at the front of a text, of its first two words.
#[tactic(auto, unfolding(crate::specs::CertifiedKey::certified_at))]
fn blob_at(alloc: Global, text: &[u8]) -> Result<Option<Vec<u8>>, AllocError>
    ensures { IfOk result (λ found. option_map (λ v. v.items) found
        ≡ option_map key_blob (certified_at text.now)) }
{
    let (type_word, after) = split_word(text);
    let (base64_word, _) = split_word(skip_blanks(after));
    let found = blob_of_words(alloc, type_word, base64_word)?;
    Ok(found)
}

/// The canonical blob of the plain key in the certificate on a known_hosts line; `None` if OpenSSH
/// reads no certificate there. The signature of the certificate is not checked.
#[tactic(auto, unfolding(crate::specs::CertifiedKey::known_certified_key))]
pub fn known_certified_blob(alloc: Global, line: &[u8]) -> Result<Option<Vec<u8>>, AllocError>
    ensures { IfOk result (λ found. option_map (λ v. v.items) found
        ≡ option_map key_blob (known_certified_key line.now)) }
{
    let found = blob_at(alloc, next_field(after_marker(read_part(line))))?;
    Ok(found)
}
