//! The key that OpenSSH reads where a line has a key: of a security key's application it drops a NUL at
//! the end.

ghost use Rattle.std.specs.Prelude.{◌≡◌, IfOk};
ghost use Rattle.std.specs.Str.{bytes_eq};
ghost use Rattle.ssh_keys.specs.Fingerprint.{fingerprint_of};
ghost use Rattle.ssh_keys.specs.KeyOf.{key_of};
ghost use Rattle.ssh_keys.specs.PublicKey.{key_blob};
ghost use Rattle.ssh_keys.specs.View.{public_key};
ghost use Rattle.ssh_findings.specs.KeyRead.{application_read, ends_in_nul, key_read};

use crate::recovered_key::has_nul;
use sha2::{Digest, Sha256};
use ssh_keys::{KeyFields, KeyView, digest_text, fingerprint, write_key};
use ssh_text::{ends_with, without_last};
use std::alloc::{AllocError, Global};

/// The application of a security key as OpenSSH reads it.
fn application_read(application: &[u8]) -> &[u8]
    ensures { result.now ≡ application_read application.now }
{
    let plain = without_last(0, application);
    if has_nul(plain) { application } else { plain }
}

/// The fields of a key as OpenSSH reads them.
fn fields_read<'a>(fields: KeyFields<'a>) -> KeyFields<'a>
    ensures { public_key result ≡ key_read (public_key fields.entry) }
{
    match fields {
        KeyFields::Rsa { .. }
        | KeyFields::P256 { .. }
        | KeyFields::P384 { .. }
        | KeyFields::P521 { .. }
        | KeyFields::Ed25519 { .. } => fields,
        KeyFields::SkP256 { point, application } => KeyFields::SkP256 {
            point,
            application: application_read(application),
        },
        KeyFields::SkEd25519 {
            public,
            application,
        } => KeyFields::SkEd25519 {
            public,
            application: application_read(application),
        },
    }
}

/// The key that OpenSSH reads for a key: the same one, but for a NUL at the end of a security key's
/// application.
#[tactic(auto, using(crate::proofs::KeyReadLemmas::is_key_read))]
pub fn view_read<'a>(key: &KeyView<'a>) -> KeyView<'a>
    ensures { key_of result ≡ key_read (key_of key.now) }
{
    match KeyView::from_fields(fields_read(key.fields())) {
        Ok(read) => read,
        // No field is longer than it was.
        Err(_) => unreachable!(),
    }
}

/// Whether OpenSSH may read another key: it is a security key whose application ends in a NUL.
fn ends_in_nul(key: &KeyView<'_>) -> bool
    ensures { result ≡ ends_in_nul (key_of key.now) }
{
    match key.fields() {
        KeyFields::Rsa { .. }
        | KeyFields::P256 { .. }
        | KeyFields::P384 { .. }
        | KeyFields::P521 { .. }
        | KeyFields::Ed25519 { .. } => false,
        KeyFields::SkP256 { application, .. } => ends_with(0, application),
        KeyFields::SkEd25519 { application, .. } => ends_with(0, application),
    }
}

/// The fingerprint of the key that OpenSSH reads for a key with this blob, as `ssh-keygen -l` prints it
/// after `SHA256:`.
#[tactic(auto, using(crate::proofs::KeyReadLemmas::same_read), unfolding(ssh_keys::specs::Fingerprint::fingerprint_of))]
pub(crate) fn fingerprint_read(
    alloc: Global,
    key: &KeyView<'_>,
    blob: &[u8],
) -> Result<[u8; 43], AllocError>
    requires { blob.now ≡ key_blob (key_of key.now) }
    ensures { IfOk result (λ text. text ≡ fingerprint_of (key_read (key_of key.now))) }
{
    if ends_in_nul(key) {
        let text = fingerprint(alloc, &view_read(key))?;
        return Ok(text);
    }
    let digest = Sha256::digest(blob);
    let text = digest_text(alloc, &digest)?;
    Ok(text)
}

/// Whether OpenSSH reads the key with the blob that is wanted for a key with this blob.
#[tactic(auto, using(crate::proofs::KeyReadLemmas::same_read))]
pub fn is_read_as_key(
    alloc: Global,
    key: &KeyView<'_>,
    blob: &[u8],
    wanted: &[u8],
) -> Result<bool, AllocError>
    requires { blob.now ≡ key_blob (key_of key.now) }
    ensures { IfOk result (λ is. is ≡ bytes_eq (key_blob (key_read (key_of key.now))) wanted.now) }
{
    if ends_in_nul(key) {
        let mut read = Vec::new(alloc);
        write_key(&view_read(key), &mut read)?;
        return Ok(read.as_slice() == wanted);
    }
    Ok(blob == wanted)
}
