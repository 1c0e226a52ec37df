//! Makes a file signature from its fields, and writes its body.

ghost use Rattle.std.specs.Prelude.{◌≡◌, length, IfOk, IsOkAnd, ◌++◌, OnOk, OnErr};
ghost use Rattle.ssh_wire.specs.Reading.{Gives};
ghost use Rattle.ssh_bodies.specs.Sshsig.{Sshsig, sshsig_blob, IsSshsig, IsSshsigBlob};
ghost use Rattle.ssh_bodies.specs.SshsigMaking.{IsSshsigWith, sshsig_from};
ghost use Rattle.ssh_bodies.specs.SshsigOf.{sshsig_of};

use crate::error::BodyError;
use crate::private_writing::string_len;
use crate::sshsig::{HashName, SSHSIG_MAGIC};
use crate::sshsig_view::SshsigView;
use ssh_keys::{MAX_BLOB_LEN, read_key, read_signature};
use ssh_wire::Wire;
use std::alloc::AllocError;

impl<'a> SshsigView<'a> {
    /// The file signature with these fields, as `write_sshsig` takes it. Key and signature are
    /// given as their blobs, which `write_key` and `write_signature` write. Nothing is copied.
    ///
    /// The first error is returned: B11 for the key's blob, B9 for an empty namespace, B12 for the
    /// signature's blob, whose places count from its own first byte, then B14 where the body would
    /// have more than 262,144 bytes.
    pub fn from_fields(
        key_blob: &'a [u8],
        namespace: &'a [u8],
        reserved: &'a [u8],
        hash: HashName,
        signature_blob: &'a [u8],
    ) -> Result<Self, BodyError>
        // A file signature that is returned has these fields, and a body.
        ensures found { IfOk result (λ view. IsSshsigWith key_blob.now namespace.now reserved.now
            hash signature_blob.now (sshsig_of view)) }
        // The fields of a body give that body.
        ensures only { (value : Sshsig)
            → IsSshsigWith key_blob.now namespace.now reserved.now hash signature_blob.now value
            → IsOkAnd result (λ view. sshsig_of view ≡ value) }
        // The file signature or the first error.
        ensures exact { Gives sshsig_of result (sshsig_from key_blob.now namespace.now reserved.now
            hash signature_blob.now) }
    {
        match view_of(key_blob, namespace, reserved, hash, signature_blob) {
            Ok(view) => Ok(view),
            Err(e) => Err(e),
        }
    }
}

#[tactic(auto, unfolding(crate::specs::SshsigMaking::sshsig_from))]
fn view_of<'a>(
    key_blob: &'a [u8],
    namespace: &'a [u8],
    reserved: &'a [u8],
    hash: HashName,
    signature_blob: &'a [u8],
) -> Result<SshsigView<'a>, BodyError>
    ensures { Gives sshsig_of result (sshsig_from key_blob.now namespace.now reserved.now hash
        signature_blob.now) }
{
    let key = read_key(key_blob)?;
    if namespace.is_empty() {
        return Err(BodyError::EmptyNamespace);
    }
    let signature = read_signature(signature_blob)?;
    let view = SshsigView {
        key,
        key_blob,
        namespace,
        reserved,
        hash,
        signature,
        signature_blob,
    };
    if body_len(&view) > MAX_BLOB_LEN as u128 {
        return Err(BodyError::TooLong);
    }
    Ok(view)
}

/// How many bytes the body of a file signature has.
fn body_len(view: &SshsigView<'_>) -> u128
    ensures { result ≡ length (sshsig_blob (sshsig_of view.now)) }
{
    let blobs = string_len(view.key_blob) + string_len(view.signature_blob);
    let texts = string_len(view.namespace) + string_len(view.reserved);
    10 + blobs + texts + string_len(view.hash.name())
}

/// Appends the body of a file signature. The value must have a body, as every value has that
/// `read_sshsig` or `SshsigView::from_fields` gives. An `Err` changes nothing.
pub fn write_sshsig(view: &SshsigView<'_>, out: &mut Vec<u8>) -> Result<(), AllocError>
    requires { IsSshsig (sshsig_of view.now) }
    ensures ok { OnOk result (out.new.items ≡ out.old.items ++ sshsig_blob (sshsig_of view.now)) }
    // The body that is written can be read back as this file signature.
    ensures is_sshsig { IsSshsigBlob (sshsig_of view.now) (sshsig_blob (sshsig_of view.now)) }
    ensures err { OnErr result (out.new.items ≡ out.old.items) }
{
    let start = out.len();
    out.extend_from_slice(SSHSIG_MAGIC)?;
    let signed = (view.hash.name(), view.signature_blob);
    let row = (
        1u32,
        (view.key_blob, (view.namespace, (view.reserved, signed))),
    );
    let result = row.encode(out);
    if result.is_err() {
        out.truncate(start);
    }
    result
}
