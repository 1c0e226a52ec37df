//! Reads the body of a file signature (PROTOCOL.sshsig), and makes the bytes that it signs.

ghost use Rattle.std.specs.Prelude.{◌≡◌, IfOk, IfErr, IsOkAnd, Result, ◌++◌, OnOk};
ghost use Rattle.ssh_keys.specs.Signature.{signature_of, signature_blob as spelled_signature};
ghost use Rattle.ssh_wire.specs.Position.{start};
ghost use Rattle.ssh_wire.specs.Reading.{Gives, Reads};
ghost use Rattle.ssh_bodies.specs.Sshsig.{Sshsig, IsSshsigBlob, hash_name, IsSshsig, digest_of, signed_bytes};
ghost use Rattle.ssh_bodies.specs.SshsigFault.{IsSshsigFault};
ghost use Rattle.ssh_bodies.specs.SshsigReading.{sshsig_signature_at, sshsig_at, sshsig_in, hash_from};
ghost use Rattle.ssh_bodies.specs.SshsigOf.{sshsig_of};
ghost use Rattle.ssh_bodies.specs.BodyParts.{sshsig_head_at, sshsig_by_parts};
ghost use Rattle.ssh_wire.specs.Spelling.{string};

use crate::error::{BodyError, take_end, take_key, take_magic};
use crate::sshsig_view::SshsigView;
use sha2::{Digest, Sha256, Sha512};
use ssh_keys::{MAX_BLOB_LEN, SignatureView, read_signature};
use ssh_wire::{Cursor, WireError, put_string};
use std::alloc::{AllocError, Global};

/// The magic bytes with which a body and the signed bytes begin.
pub(crate) const SSHSIG_MAGIC: &[u8] = b"SSHSIG";

/// Reads the signature, and gives its blob too. The place of an error counts from the first byte of
/// the body.
#[tactic(auto, unfolding(crate::specs::SshsigReading::sshsig_signature_at))]
fn take_signature<'a>(cursor: &mut Cursor<'a>) -> Result<(SignatureView<'a>, &'a [u8]), BodyError>
    ensures exact { Reads (λ signature. signature_of signature.0) sshsig_signature_at cursor.old result
        cursor.new }
    ensures spelled { IfOk result
        (λ signature. signature.1.now ≡ spelled_signature (signature_of signature.0)) }
{
    let blob = cursor.take_string()?;
    let first = cursor.place() - blob.len();
    match read_signature(blob) {
        Ok(signature) => Ok((signature, blob)),
        Err(e) => Err(BodyError::Wire(WireError {
            place: first + e.place,
            cause: e.cause,
        })),
    }
}

/// Reads what comes before the key: the magic bytes and the version.
#[tactic(auto, unfolding(crate::specs::BodyParts::sshsig_head_at))]
fn take_sshsig_head(cursor: &mut Cursor<'_>) -> Result<(), BodyError>
    ensures { Reads (λ u. u) sshsig_head_at cursor.old result cursor.new }
{
    take_magic(SSHSIG_MAGIC, cursor)?;
    if cursor.take_u32()? != 1 {
        return Err(BodyError::Version);
    }
    Ok(())
}

/// The file signature of a body that is within the limit, read part by part.
#[tactic(auto, unfolding(crate::specs::BodyParts::sshsig_by_parts))]
fn sshsig_parts(body: &[u8]) -> Result<SshsigView<'_>, BodyError>
    ensures { Gives sshsig_of result (sshsig_by_parts (start body.now)) }
{
    let mut cursor = Cursor::new(body);
    take_sshsig_head(&mut cursor)?;
    let (key, key_blob) = take_key(&mut cursor)?;
    let namespace = cursor.take_string()?;
    if namespace.is_empty() {
        return Err(BodyError::EmptyNamespace);
    }
    let reserved = cursor.take_string()?;
    let hash = hash_named(cursor.take_string()?)?;
    let (signature, signature_blob) = take_signature(&mut cursor)?;
    take_end(&cursor)?;
    Ok(SshsigView {
        key,
        key_blob,
        namespace,
        reserved,
        hash,
        signature,
        signature_blob,
    })
}

/// The same. The contract describes reading field by field.
fn sshsig_fields(body: &[u8]) -> Result<SshsigView<'_>, BodyError>
    ensures { Gives sshsig_of result (sshsig_at (start body.now)) }
{
    sshsig_parts(body)
}

#[tactic(auto, unfolding(crate::specs::SshsigReading::sshsig_in))]
fn sshsig_within(bytes: &[u8]) -> Result<SshsigView<'_>, BodyError>
    ensures { Gives sshsig_of result (sshsig_in bytes.now) }
{
    if bytes.len() > MAX_BLOB_LEN {
        return Err(BodyError::TooLong);
    }
    sshsig_fields(bytes)
}

/// Reads a file signature from all bytes of its body. The view borrows them and copies nothing.
///
/// The first error is returned: B14 before all others, B1, then by field B8, B11, B9, B10, and B13
/// for bytes after the signature; B12 for a field that passes the end, and for an error of the
/// signature.
pub fn read_sshsig(bytes: &[u8]) -> Result<SshsigView<'_>, BodyError>
    // The bytes are the body of the file signature that is returned.
    ensures found { IfOk result (λ view. IsSshsigBlob (sshsig_of view) bytes.now) }
    // The body of a file signature is read as that one.
    ensures only { (value : Sshsig)
        → IsSshsigBlob value bytes.now
        → IsOkAnd result (λ view. sshsig_of view ≡ value) }
    // The first error, stated by the fields alone.
    ensures first { IfErr result (IsSshsigFault bytes.now) }
    // The same, stated by reading from the left.
    ensures exact { Gives sshsig_of result (sshsig_in bytes.now) }
{
    match sshsig_within(bytes) {
        Ok(view) => Ok(view),
        Err(e) => Err(e),
    }
}

/// The hash of a signed message (PROTOCOL.sshsig).
#[derive(Clone, Copy, Debug, PartialEq, Eq)]
pub enum HashName {
    Sha256,
    Sha512,
}

impl HashName {
    /// The name of the hash, as it is in the body and in the signed bytes.
    pub fn name(self) -> &'static [u8]
        ensures { result.now ≡ hash_name self }
    {
        match self {
            HashName::Sha256 => b"sha256",
            HashName::Sha512 => b"sha512",
        }
    }
}

/// The hash with this name, byte for byte.
pub(crate) fn hash_named(name: &[u8]) -> Result<HashName, BodyError>
    ensures { result ≡ hash_from name.now }
{
    if name == b"sha256".as_slice() {
        Ok(HashName::Sha256)
    } else if name == b"sha512".as_slice() {
        Ok(HashName::Sha512)
    } else {
        Err(BodyError::Hash)
    }
}

/// The bytes over which the signature of a body is made, for this message (PROTOCOL.sshsig): the
/// magic bytes, the namespace, the reserved bytes, the hash's name and the message's digest. The
/// value must have a body, as every value has that `read_sshsig` gives. Fails only when memory
/// cannot be allocated.
pub fn sshsig_message(
    alloc: Global,
    view: &SshsigView<'_>,
    message: &[u8],
) -> Result<Vec<u8>, AllocError>
    requires { IsSshsig (sshsig_of view.now) }
    ensures { IfOk result (λ signed. signed.items ≡ signed_bytes (sshsig_of view.now) message.now) }
{
    let mut signed = Vec::from_slice(alloc, SSHSIG_MAGIC)?;
    put_string(&mut signed, view.namespace)?;
    put_string(&mut signed, view.reserved)?;
    put_string(&mut signed, view.hash.name())?;
    put_digest(view.hash, message, &mut signed)?;
    Ok(signed)
}

/// Appends the digest of a message, as a string.
fn put_digest(hash: HashName, message: &[u8], out: &mut Vec<u8>) -> Result<(), AllocError>
    ensures { OnOk result (out.new.items ≡ out.old.items ++ string (digest_of hash message.now)) }
{
    match hash {
        HashName::Sha256 => put_string(out, &Sha256::digest(message)),
        HashName::Sha512 => put_string(out, &Sha512::digest(message)),
    }
}
