//! The errors of private key bodies and file signature bodies, and the parts that both formats
//! share.

ghost use Rattle.std.specs.Prelude.{◌≡◌, ◌++◌, List, IfOk, IfErr, ◌≤◌, ◌∷◌, [], ℕ, length, OnOk, OnErr};
ghost use Rattle.ssh_bodies.specs.declared.error.BodyError.TheVariants.{Key, Wire};
ghost use Rattle.ssh_wire.specs.Reading.{Reads};
ghost use Rattle.ssh_keys.specs.KeyOf.{key_of};
ghost use Rattle.ssh_keys.specs.PublicKey.{key_blob, longest};
ghost use Rattle.ssh_bodies.specs.BodyReading.{magic_at, key_at, last_at};
ghost use Rattle.ssh_wire.specs.Spelling.{string, uint32};
ghost use Rattle.ssh_wire.specs.Fronts.{Keeps};

use ssh_keys::{KeyError, KeyView, read_key};
use ssh_wire::{Cursor, Wire, WireError, put_string};
use std::alloc::AllocError;
use thiserror::Error;

/// The first error of a body. B14 is checked first, then B1, then field by field from the left.
#[derive(Clone, Copy, Debug, PartialEq, Eq, Error)]
pub enum BodyError {
    /// B1: the bytes do not begin with the format's magic bytes.
    #[error("the body does not begin with its magic bytes")]
    Magic,
    /// B2: the cipher or the key derivation is not `none`, or the derivation has options.
    #[error("the body is encrypted")]
    Encrypted,
    /// B3: the body does not hold exactly one key (this project's rule).
    #[error("the body does not hold one key")]
    KeyCount,
    /// B4: the two check numbers differ.
    #[error("the check numbers differ")]
    CheckMismatch,
    /// B5: what follows the comment is not 1, 2, 3 and so on, at most 254 bytes.
    #[error("the padding is not 1, 2, 3 and so on")]
    Padding,
    /// B6: the length of the private section is not a multiple of 8.
    #[error("the private section's length is no multiple of 8")]
    NotMultipleOfEight,
    /// B7: the type or the public fields in the private section are not those of the public key
    /// before it.
    #[error("the private key is not the public one's")]
    PublicMismatch,
    /// B8: the version is not 1.
    #[error("the version is not known")]
    Version,
    /// B9: the namespace is empty.
    #[error("the namespace is empty")]
    EmptyNamespace,
    /// B10: the hash is neither `sha256` nor `sha512`.
    #[error("the hash algorithm is not known")]
    Hash,
    /// B11: the public key's blob has an error. Places count from the first byte of that blob.
    #[error("public key: {0}")]
    Key(KeyError),
    /// B12: a field cannot be read, or a private number is zero. Places count from the first byte
    /// of the body, inside the signature too.
    #[error("{0}")]
    Wire(WireError),
    /// B13: there are bytes after the last field.
    #[error("bytes stand after the last field")]
    Trailing,
    /// B14: the body has more than 262,144 bytes (this project's rule).
    #[error("the body is too long")]
    TooLong,
}

impl From<WireError> for BodyError {
    ghost from_gives = { λ e b. b ≡ Wire e };

    fn from(e: WireError) -> BodyError {
        BodyError::Wire(e)
    }
}

impl From<KeyError> for BodyError {
    ghost from_gives = { λ e b. b ≡ Key e };

    fn from(e: KeyError) -> BodyError {
        BodyError::Key(e)
    }
}

/// Reads the magic bytes with which a body begins.
pub(crate) fn take_magic(magic: &[u8], cursor: &mut Cursor<'_>) -> Result<(), BodyError>
    ensures { Reads (λ u. u) (magic_at magic.now) cursor.old result cursor.new }
{
    let rest = cursor.rest();
    if rest.len() < magic.len() || &rest[..magic.len()] != magic {
        return Err(BodyError::Magic);
    }
    for _ in 0..magic.len() {
        cursor.take_byte()?;
    }
    Ok(())
}

/// Reads a plain key, and gives its blob too.
#[tactic(auto, unfolding(crate::specs::BodyReading::key_at))]
pub(crate) fn take_key<'a>(cursor: &mut Cursor<'a>) -> Result<(KeyView<'a>, &'a [u8]), BodyError>
    ensures exact { Reads (λ key. key_of key.0) key_at cursor.old result cursor.new }
    ensures spelled { IfOk result (λ key. key.1.now ≡ key_blob (key_of key.0)) }
{
    let blob = cursor.take_string()?;
    let key = read_key(blob)?;
    Ok((key, blob))
}

/// Fails if there are bytes after the last field.
pub(crate) fn take_end(cursor: &Cursor<'_>) -> Result<(), BodyError>
    ensures { result ≡ last_at cursor.now }
{
    match cursor.end() {
        Ok(()) => Ok(()),
        Err(_) => Err(BodyError::Trailing),
    }
}

/// A value with an encoding (its spelling).
pub(crate) trait Spelled: Sized {
    ghost spelling: { Self → List ℕ };

    /// Appends the spelling. After an `Err`, part of it may have been written.
    fn put(&self, out: &mut Vec<u8>) -> Result<(), AllocError>
        requires { length (spelling self.now) ≤ longest }
        ensures ok { OnOk result (out.new.items ≡ out.old.items ++ spelling self.now) }
        ensures err { OnErr result (Keeps out.old.items out.new.items) };
}

impl Spelled for u8 {
    ghost spelling = { λ byte. byte ∷ [] };

    fn put(&self, out: &mut Vec<u8>) -> Result<(), AllocError> {
        out.extend_from_slice(&[*self])
    }
}

/// Four bytes, the most significant first.
impl Spelled for u32 {
    ghost spelling = { uint32 };

    fn put(&self, out: &mut Vec<u8>) -> Result<(), AllocError> {
        let number = *self;
        number.encode(out)
    }
}

/// A string (RFC 4251 section 5): its length in four bytes, and its bytes.
impl<'a> Spelled for &'a [u8] {
    ghost spelling = { λ text. string text.now };

    fn put(&self, out: &mut Vec<u8>) -> Result<(), AllocError> {
        put_string(out, self)
    }
}

/// Two values, one after the other.
impl<A: Spelled + Drop, B: Spelled> Spelled for (A, B) {
    ghost spelling = { λ x. A.spelling x.0 ++ B.spelling x.1 };

    fn put(&self, out: &mut Vec<u8>) -> Result<(), AllocError> {
        self.0.put(out)?;
        self.1.put(out)
    }
}
