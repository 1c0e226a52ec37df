//! The fields of a certificate as they lie in its blob.

ghost use Rattle.std.specs.Prelude.{◌≡◌, IsOk};
ghost use Rattle.ssh_wire.specs.Reading.{string_at};
ghost use Rattle.ssh_keys.specs.KeyOf.{key_of};
ghost use Rattle.ssh_keys.specs.PublicKey.{key_blob};
ghost use Rattle.ssh_keys.specs.Signature.{signature_of, signature_blob};
ghost use Rattle.ssh_certs.specs.CertificateReading.{items_in, cert_option_at};

use ssh_keys::{KeyFields, KeyView, SignatureView};

/// The fields up to the key id: the certified key, and how the signer numbers and names the
/// certificate.
#[derive(Clone, Copy, Debug)]
pub(crate) struct Certified<'a> {
    pub(crate) nonce: &'a [u8],
    pub(crate) key: KeyFields<'a>,
    pub(crate) serial: u64,
    pub(crate) kind_number: u32,
    pub(crate) key_id: &'a [u8],
}

/// The fields from the principals to the reserved bytes: for whom, when and with which options. The
/// lists are still packed.
#[derive(Clone, Copy, Debug)]
pub(crate) struct Terms<'a> {
    pub(crate) principals: &'a [u8],
    pub(crate) after: u64,
    pub(crate) before: u64,
    pub(crate) critical: &'a [u8],
    pub(crate) extensions: &'a [u8],
    pub(crate) reserved: &'a [u8],
    ghost principals_read: { IsOk (items_in string_at principals.now) },
    ghost critical_read: { IsOk (items_in cert_option_at critical.now) },
    ghost extensions_read: { IsOk (items_in cert_option_at extensions.now) },
}

/// All fields, as slices of the blob.
#[derive(Clone, Copy, Debug)]
pub(crate) struct CertFields<'a> {
    pub(crate) certified: Certified<'a>,
    pub(crate) terms: Terms<'a>,
    pub(crate) signer: KeyView<'a>,
    pub(crate) raw_signer: &'a [u8],
    pub(crate) signature: SignatureView<'a>,
    pub(crate) raw_signature: &'a [u8],
    ghost signer_spelled: { raw_signer.now ≡ key_blob (key_of signer) },
    ghost signature_spelled: { raw_signature.now ≡ signature_blob (signature_of signature) },
}
