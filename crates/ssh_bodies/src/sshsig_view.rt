//! A file signature in its body.

ghost use Rattle.std.specs.Prelude.{◌≡◌};
ghost use Rattle.ssh_keys.specs.KeyOf.{key_of};
ghost use Rattle.ssh_keys.specs.PublicKey.{key_blob as spelled_key};
ghost use Rattle.ssh_keys.specs.Signature.{signature_of, signature_blob as spelled_signature};

use crate::sshsig::{HashName, sshsig_message};
use ssh_keys::{KeyView, SignatureView};

/// A file signature, as slices of its body (PROTOCOL.sshsig).
#[derive(Clone, Copy, Debug)]
pub struct SshsigView<'a> {
    /// The key that signed.
    pub key: KeyView<'a>,
    pub key_blob: &'a [u8],
    /// The purpose of the signature, such as `file` or `git`. It is signed, so that a signature for
    /// one purpose is not valid for another.
    pub namespace: &'a [u8],
    /// Reserved bytes, which are signed and have no meaning yet.
    pub reserved: &'a [u8],
    /// The hash of the message.
    pub hash: HashName,
    /// The signature over the bytes that `sshsig_message` gives. It is not verified here.
    pub signature: SignatureView<'a>,
    pub signature_blob: &'a [u8],
    ghost key_spelled: { key_blob.now ≡ spelled_key (key_of key) },
    ghost signature_spelled: { signature_blob.now ≡ spelled_signature (signature_of signature) },
}
