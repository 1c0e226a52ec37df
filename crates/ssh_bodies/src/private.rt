//! Reads the body of a private key (PROTOCOL.key, openssh-key-v1) that is not encrypted.

ghost use Rattle.std.specs.Prelude.{◌≡◌, IfOk, IfErr, IsOkAnd};
ghost use Rattle.ssh_keys.specs.KeyOf.{key_of};
ghost use Rattle.ssh_bodies.specs.PrivateKey.{PrivateBody, IsPrivateBlob};
ghost use Rattle.ssh_wire.specs.Position.{start};
ghost use Rattle.ssh_wire.specs.Reading.{Gives, Reads};
ghost use Rattle.ssh_bodies.specs.PrivateFault.{IsPrivateFault};
ghost use Rattle.ssh_bodies.specs.PrivateOf.{private_body};
ghost use Rattle.ssh_bodies.specs.PrivateReading.{not_encrypted_at, section_start, body_at, private_in};
ghost use Rattle.ssh_bodies.specs.BodyParts.{section_head_at, section_by_parts, body_head_at, body_by_parts};

use crate::error::{BodyError, take_end, take_key, take_magic};
use crate::private_section::{is_padding, take_private};
use crate::private_view::PrivateView;
use ssh_keys::{KeyView, MAX_BLOB_LEN};
use ssh_wire::Cursor;

/// The magic bytes with which a body begins.
pub(crate) const PRIVATE_MAGIC: &[u8] = b"openssh-key-v1\0";

/// The name of the cipher, and of the key derivation, of a body that is not encrypted.
pub(crate) const NONE: &[u8] = b"none";

/// The options of the key derivation `none`.
pub(crate) const NO_OPTIONS: &[u8] = b"";

/// Reads the cipher, the key derivation and its options, which must be those of a body that is not
/// encrypted.
#[tactic(auto, unfolding(crate::specs::PrivateReading::not_encrypted_at))]
fn take_not_encrypted(cursor: &mut Cursor<'_>) -> Result<(), BodyError>
    ensures { Reads (λ u. u) not_encrypted_at cursor.old result cursor.new }
{
    let cipher = cursor.take_string()?;
    let kdf = cursor.take_string()?;
    let options = cursor.take_string()?;
    if cipher == NONE && kdf == NONE && options.is_empty() {
        Ok(())
    } else {
        Err(BodyError::Encrypted)
    }
}

/// Checks that the private section is the last string and a multiple of 8 long, and moves to its
/// first byte.
#[tactic(auto, unfolding(crate::specs::PrivateReading::section_start))]
fn enter_section(cursor: &mut Cursor<'_>) -> Result<(), BodyError>
    ensures { Reads (λ u. u) section_start cursor.old result cursor.new }
{
    let mut ahead = cursor.copy();
    let text = ahead.take_string()?;
    take_end(&ahead)?;
    if text.len() % 8 != 0 {
        return Err(BodyError::NotMultipleOfEight);
    }
    cursor.take_u32()?;
    Ok(())
}

/// Reads the check numbers of the private section and its type name, which must be this public
/// key's.
#[tactic(auto, unfolding(crate::specs::BodyParts::section_head_at))]
fn take_section_head(public: KeyView<'_>, cursor: &mut Cursor<'_>) -> Result<u32, BodyError>
    ensures { Reads (λ check. check) (section_head_at (key_of public.entry)) cursor.old result
        cursor.new }
{
    let check = cursor.take_u32()?;
    if cursor.take_u32()? != check {
        return Err(BodyError::CheckMismatch);
    }
    if cursor.take_string()? != public.kind().name() {
        return Err(BodyError::PublicMismatch);
    }
    Ok(check)
}

/// Reads the private section, which must be this public key's.
#[tactic(auto, unfolding(crate::specs::BodyParts::section_by_parts))]
fn section_fields<'a>(
    public: KeyView<'a>,
    cursor: &mut Cursor<'a>,
) -> Result<PrivateView<'a>, BodyError>
    ensures { Gives private_body result (section_by_parts (key_of public.entry) cursor.old) }
{
    let check = take_section_head(public, cursor)?;
    let (fields, is_public) = take_private(public.fields(), cursor)?;
    if !is_public {
        return Err(BodyError::PublicMismatch);
    }
    let comment = cursor.take_string()?;
    if !is_padding(cursor.rest()) {
        return Err(BodyError::Padding);
    }
    Ok(PrivateView {
        check,
        public,
        fields,
        comment,
    })
}

/// Reads what comes before the public key: the magic bytes, the fields of a body that is not
/// encrypted, and a count of one key.
#[tactic(auto, unfolding(crate::specs::BodyParts::body_head_at))]
fn take_body_head(cursor: &mut Cursor<'_>) -> Result<(), BodyError>
    ensures { Reads (λ u. u) body_head_at cursor.old result cursor.new }
{
    take_magic(PRIVATE_MAGIC, cursor)?;
    take_not_encrypted(cursor)?;
    if cursor.take_u32()? != 1 {
        return Err(BodyError::KeyCount);
    }
    Ok(())
}

/// The private key of a body that is within the limit, read part by part.
#[tactic(auto, unfolding(crate::specs::BodyParts::body_by_parts))]
fn body_parts(body: &[u8]) -> Result<PrivateView<'_>, BodyError>
    ensures { Gives private_body result (body_by_parts (start body.now)) }
{
    let mut cursor = Cursor::new(body);
    take_body_head(&mut cursor)?;
    let (public, _) = take_key(&mut cursor)?;
    enter_section(&mut cursor)?;
    section_fields(public, &mut cursor)
}

/// The same. The contract describes reading field by field.
fn body_fields(body: &[u8]) -> Result<PrivateView<'_>, BodyError>
    ensures { Gives private_body result (body_at (start body.now)) }
{
    body_parts(body)
}

#[tactic(auto, unfolding(crate::specs::PrivateReading::private_in))]
fn private_within(bytes: &[u8]) -> Result<PrivateView<'_>, BodyError>
    ensures { Gives private_body result (private_in bytes.now) }
{
    if bytes.len() > MAX_BLOB_LEN {
        return Err(BodyError::TooLong);
    }
    body_fields(bytes)
}

/// Reads a private key from all bytes of its body. The view borrows them and copies nothing.
///
/// The first error is returned: B14 before all others; B1; then B2, B3 and B11 of the fields before
/// the private section, B13 for bytes after it, B6 for its length; in it B4 after the check
/// numbers, B7 after the type name and after the key's fields, and B5 for what follows the comment.
/// A field that cannot be read is B12.
pub fn read_private(bytes: &[u8]) -> Result<PrivateView<'_>, BodyError>
    // The bytes are a body of the key that is returned.
    ensures found { IfOk result (λ view. IsPrivateBlob (private_body view) bytes.now) }
    // A body, with any padding, is read as the key that it has.
    ensures only { (body : PrivateBody)
        → IsPrivateBlob body bytes.now
        → IsOkAnd result (λ view. private_body view ≡ body) }
    // The first error, stated by the fields alone.
    ensures first { IfErr result (IsPrivateFault bytes.now) }
    // The same, stated by reading from the left, in the private section too.
    ensures exact { Gives private_body result (private_in bytes.now) }
{
    match private_within(bytes) {
        Ok(view) => Ok(view),
        Err(e) => Err(e),
    }
}
