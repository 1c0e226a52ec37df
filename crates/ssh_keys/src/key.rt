//! Reads a key from its blob, stores the blob of a key, writes a key, and gives its fingerprint.

ghost use Rattle.std.specs.Prelude.{◌≡◌, Ok, IfOk, IfErr, IsOkAnd, ◌↔◌, IsTrue, ◌++◌, OnOk, OnErr};
ghost use Rattle.ssh_keys.specs.declared.key.KeyError.TheVariants.{Wire};
ghost use Rattle.ssh_wire.specs.Reading.{Gives};
ghost use Rattle.ssh_keys.specs.KeyReading.{key_in, kind_read};
ghost use Rattle.ssh_keys.specs.FirstFault.{IsFirstFault};
ghost use Rattle.ssh_keys.specs.PublicKey.{PublicKey, IsKeyBlob, key_blob};
ghost use Rattle.ssh_keys.specs.KeyOf.{key_of};
ghost use Rattle.ssh_keys.specs.Fingerprint.{digest_text_of, fingerprint_of};

use crate::fields::KeyFields;
use crate::kind::{Curve, KeyKind};
use crate::view::{KeyView, kind_in};
use base64::engine::general_purpose::STANDARD;
use sha2::{Digest, Sha256};
use ssh_wire::{Wire, WireError};
use std::alloc::{AllocError, Global};
use std::marker::Model;
use thiserror::Error;

/// The first error of a key blob. K8 is checked first, then field by field from the left.
#[derive(Clone, Copy, Debug, PartialEq, Eq, Error)]
pub enum KeyError {
    /// K1: a field cannot be read (V1 to V3), a number is zero (V5), or there are bytes after the
    /// last field (V4). Places count from the first byte of the blob; the place is 0 for fields
    /// that were not read from one.
    #[error("{0}")]
    Wire(WireError),
    /// K2: the type name is not a key's.
    #[error("the key type is not known")]
    UnknownType,
    /// K3: the type name is `ssh-dss`.
    #[error("the key type is retired")]
    RetiredType,
    /// K4: the type name is a certificate's.
    #[error("the type is a certificate's")]
    IsCertificate,
    /// K5: the curve's name is not the one of the key type (RFC 5656, section 3.1).
    #[error("the curve is not the key type's")]
    Curve,
    /// K6: the point does not begin with 04, or does not have the curve's length. Only uncompressed
    /// points are read, because with two forms one key would have two blobs (this project's rule).
    #[error("the point is not uncompressed, or not of the curve's length")]
    Point,
    /// K7: an Ed25519 public key does not have 32 bytes (RFC 8709, section 4).
    #[error("the public key has not 32 bytes")]
    Length,
    /// K8: the blob has more than 262,144 bytes (this project's rule).
    #[error("the blob is too long")]
    TooLong,
}

impl From<WireError> for KeyError {
    ghost from_gives = { λ e k. k ≡ Wire e };

    fn from(e: WireError) -> KeyError {
        KeyError::Wire(e)
    }
}

/// Reads a key from all bytes of its blob. The view borrows them and copies nothing.
///
/// The first error is returned: K8 for more than 262,144 bytes, before all others; then K2 to K4
/// for the type name; then that of the first wrong field from the left, K1 with its place in bytes
/// from the first one, or K5, K6, K7; then K1 for bytes after the last field. Whether a point is on
/// its curve is not checked: that is for whoever verifies a signature.
pub fn read_key(bytes: &[u8]) -> Result<KeyView<'_>, KeyError>
    // The bytes are the blob of the key that is returned.
    ensures found { IfOk result (λ view. IsKeyBlob (key_of view) bytes.now) }
    // The blob of a key is read as that key.
    ensures only { (key : PublicKey)
        → IsKeyBlob key bytes.now
        → IsOkAnd result (λ view. key_of view ≡ key) }
    // The first error, stated by the fields alone.
    ensures first { IfErr result (IsFirstFault bytes.now) }
    // The same, stated by reading from the left.
    ensures exact { Gives key_of result (key_in bytes.now) }
{
    KeyView::read(bytes)
}

/// The kind of the key whose blob these bytes are, for a caller that needs no more than the kind.
/// Its errors are those of `read_key`.
pub fn read_kind(bytes: &[u8]) -> Result<KeyKind, KeyError>
    // The kind, or the first error.
    ensures exact { result ≡ kind_read (key_in bytes.now) }
    // The bytes are the blob of the key that is read in them.
    ensures found { (key : PublicKey) → key_in bytes.now ≡ Ok key → IsKeyBlob key bytes.now }
{
    kind_in(bytes)
}

/// A public key that owns its blob. Contracts see it as the key.
#[derive(Debug, Drop)]
pub struct Key {
    blob: Vec<u8>,
}

impl Model for Key {
    ghost use Rattle.ssh_keys.specs.Key.{key_or_none};
    ghost use Rattle.ssh_keys.specs.KeyReading.{key_in};
    ghost use Rattle.ssh_keys.specs.PublicKey.{PublicKey, IsKeyBlob};

    ghost Value = { PublicKey };

    ghost view = { λ k. key_or_none (key_in k.blob.items) };

    ghost invariant = { λ k. IsKeyBlob (key_or_none (key_in k.blob.items)) k.blob.items };
}

impl Key {
    ghost use Rattle.ssh_keys.specs.KeyOf.{key_of};

    /// Reads a key from all bytes of its blob, with the errors of `read_key`. It stores the blob
    /// and allocates nothing. On an `Err` the blob is dropped.
    pub fn read(blob: Vec<u8>) -> Result<Key, KeyError>
        // The key whose blob these bytes are.
        ensures found { IfOk result (λ key. IsKeyBlob key blob.items) }
        // The blob of a key is read.
        ensures only { (key : PublicKey) → IsKeyBlob key blob.items → result ≡ Ok key }
        // The key, or the first error.
        ensures exact { result ≡ key_in blob.items }
    {
        match read_key(&blob) {
            Ok(_) => Ok(Key { blob }),
            Err(e) => Err(e),
        }
    }

    /// The fields of the key, as slices of its blob.
    pub fn view(&self) -> KeyView<'_>
        ensures { key_of result ≡ self.now }
    {
        match read_key(&self.blob) {
            Ok(view) => view,
            // `Key::read` accepted this blob.
            Err(_) => unreachable!(),
        }
    }

    /// The blob: the type name and the fields of the key, each as an SSH string (RFC 4253, section
    /// 6.6). It has 262,144 bytes at most.
    pub fn blob(&self) -> &[u8]
        ensures { result.now ≡ key_blob self.now }
    {
        &self.blob
    }
}

/// Keys are equal exactly where their blobs are.
impl PartialEq for Key {
    ghost use Rattle.std.specs.Cmp.{on_per, partial_equiv_from_equiv};
    ghost use Rattle.std.specs.Cmp.Lexicographic.{nat_list_eq_equiv};
    ghost use Rattle.std.specs.Str.{bytes_eq};
    ghost use Rattle.ssh_keys.specs.PublicKey.{key_blob};

    ghost eq = { λ a b. bytes_eq (key_blob a) (key_blob b) };

    ghost laws = { on_per key_blob (partial_equiv_from_equiv nat_list_eq_equiv) };

    fn eq(&self, other: &Self) -> bool
        ensures blobs { result ≡ bytes_eq (key_blob self.now) (key_blob other.now) }
        ensures same { IsTrue result ↔ (self.now ≡ other.now) }
    {
        self.blob.as_slice() == other.blob.as_slice()
    }
}

impl Eq for Key {
    ghost use Rattle.std.specs.Cmp.{on_equiv};
    ghost use Rattle.std.specs.Cmp.Lexicographic.{nat_list_eq_equiv};
    ghost use Rattle.ssh_keys.specs.PublicKey.{key_blob};

    ghost laws = { on_equiv key_blob nat_list_eq_equiv };
}

/// Appends the blob of a key, at most 262,144 bytes (RFC 4253 section 6.6, RFC 5656 section 3.1,
/// RFC 8709 section 4, PROTOCOL.u2f). Fails only when memory cannot be allocated, and then changes
/// nothing.
pub fn write_key(key: &KeyView<'_>, out: &mut Vec<u8>) -> Result<(), AllocError>
    ensures ok { OnOk result (out.new.items ≡ out.old.items ++ key_blob (key_of key.now)) }
    ensures err { OnErr result (out.new.items ≡ out.old.items) }
{
    let name = key.kind().name();
    match key.fields() {
        KeyFields::Rsa { exponent, modulus } => (name, (exponent, modulus)).encode(out),
        KeyFields::P256 { point } => (name, (Curve::Nistp256.name(), point)).encode(out),
        KeyFields::P384 { point } => (name, (Curve::Nistp384.name(), point)).encode(out),
        KeyFields::P521 { point } => (name, (Curve::Nistp521.name(), point)).encode(out),
        KeyFields::Ed25519 { public } => (name, public).encode(out),
        KeyFields::SkP256 { point, application } => {
            (name, (Curve::Nistp256.name(), (point, application))).encode(out)
        }
        KeyFields::SkEd25519 {
            public,
            application,
        } => (name, (public, application)).encode(out),
    }
}

/// The base64 of a digest of 32 bytes without its one padding byte, as `ssh-keygen` prints it after
/// `SHA256:` (RFC 4648, section 4). Fails only when memory cannot be allocated.
pub fn digest_text(alloc: Global, digest: &[u8; 32]) -> Result<[u8; 43], AllocError>
    ensures { IfOk result (λ text. text ≡ digest_text_of digest.now) }
{
    let encoded = STANDARD.encode(alloc, digest)?;
    match encoded.as_bytes().first_chunk() {
        Some(text) => Ok(*text),
        // The base64 of 32 bytes has 44 bytes.
        None => unreachable!(),
    }
}

/// The fingerprint of a key, as `ssh-keygen -l` prints it after `SHA256:`: the text of the SHA-256
/// of its blob. Fails only when memory cannot be allocated.
pub fn fingerprint(alloc: Global, key: &KeyView<'_>) -> Result<[u8; 43], AllocError>
    ensures { IfOk result (λ text. text ≡ fingerprint_of (key_of key.now)) }
{
    let mut blob = Vec::new(alloc);
    write_key(key, &mut blob)?;
    let digest = Sha256::digest(&blob);
    digest_text(alloc, &digest)
}
