//! A certificate that is read in place: its fields are slices of its blob.

ghost use Rattle.std.specs.Prelude.{◌≡◌, ◌↔◌, IsTrue};
ghost use Rattle.ssh_keys.specs.KeyOf.{key_of};
ghost use Rattle.ssh_keys.specs.PublicKey.{key_blob};
ghost use Rattle.ssh_keys.specs.Signature.{signature_of, signature_blob};
ghost use Rattle.ssh_certs.specs.Certificate.{signed_part, IsCertificateBlob};
ghost use Rattle.ssh_certs.specs.View.{certificate_from};
ghost use Rattle.ssh_keys.specs.View.{public_key};

use crate::fields::CertFields;
use crate::packed::{CertOptions, Principals};
use ssh_keys::{KeyView, SignatureView};

/// Whether a moment is before, within or after a certificate's validity.
#[derive(Clone, Copy, Debug, PartialEq, Eq)]
pub enum Time {
    /// Before the first second in force.
    Early,
    /// In force.
    Now,
    /// At the end of the validity or after it.
    Late,
}

/// A certificate that is read in place. Its lists are slices of the blob.
#[derive(Clone, Copy, Debug)]
pub struct CertView<'a> {
    pub(crate) blob: &'a [u8],
    pub(crate) key: KeyView<'a>,
    pub(crate) fields: CertFields<'a>,
    ghost is_key: { key_of key ≡ public_key fields.certified.key },
    ghost spelled: { IsCertificateBlob (certificate_from fields) blob.now },
}

impl<'a> CertView<'a> {
    ghost use Rattle.ssh_certs.specs.CertificateOf.{certificate_of};
    ghost use Rattle.ssh_certs.specs.Left.{principals_left, options_left};
    ghost use Rattle.ssh_certs.specs.Rules.{time_of, HasPrincipal};
    ghost use Rattle.ssh_keys.specs.PublicKey.{key_blob};
    ghost use Rattle.ssh_keys.specs.Signature.{IsSignature, signature_of, signature_blob};

    /// Bytes that the signer chose. Random ones make collision attacks on the signature's hash
    /// infeasible (PROTOCOL.certkeys); any bytes are accepted.
    pub fn nonce(&self) -> &'a [u8]
        ensures { result.now ≡ (certificate_of self.now).nonce }
    {
        self.fields.certified.nonce
    }

    /// The certified public key.
    pub fn key(&self) -> KeyView<'a>
        ensures { key_of result ≡ (certificate_of self.now).key }
    {
        self.key
    }

    /// The serial number: 0 where the signer does not count certificates.
    pub fn serial(&self) -> u64
        ensures { result ≡ (certificate_of self.now).serial }
    {
        self.fields.certified.serial
    }

    /// 1 for a user's certificate, 2 for a host's. Reading accepts every number, so the caller has
    /// to compare it.
    pub fn kind_number(&self) -> u32
        ensures { result ≡ (certificate_of self.now).kind_number }
    {
        self.fields.certified.kind_number
    }

    /// The signer's name for the certificate: any bytes.
    pub fn key_id(&self) -> &'a [u8]
        ensures { result.now ≡ (certificate_of self.now).key_id }
    {
        self.fields.certified.key_id
    }

    /// The users or hosts that the certificate is for, in the order of the blob.
    pub fn principals(&self) -> Principals<'a>
        ensures { principals_left result ≡ (certificate_of self.now).principals }
    {
        Principals::new(self.fields.terms.principals)
    }

    /// The first second in force, counted from 1970-01-01 in UTC.
    pub fn after(&self) -> u64
        ensures { result ≡ (certificate_of self.now).after }
    {
        self.fields.terms.after
    }

    /// The first second no longer in force, counted from 1970-01-01 in UTC.
    pub fn before(&self) -> u64
        ensures { result ≡ (certificate_of self.now).before }
    {
        self.fields.terms.before
    }

    /// The options that a verifier must know, in the order of the blob.
    pub fn critical(&self) -> CertOptions<'a>
        ensures { options_left result ≡ (certificate_of self.now).critical }
    {
        CertOptions::new(self.fields.terms.critical)
    }

    /// The options that a verifier may ignore, in the order of the blob.
    pub fn extensions(&self) -> CertOptions<'a>
        ensures { options_left result ≡ (certificate_of self.now).extensions }
    {
        CertOptions::new(self.fields.terms.extensions)
    }

    /// Reserved bytes, which have no meaning yet.
    pub fn reserved(&self) -> &'a [u8]
        ensures { result.now ≡ (certificate_of self.now).reserved }
    {
        self.fields.terms.reserved
    }

    /// The key that signed the certificate: the certificate authority's.
    pub fn signer(&self) -> KeyView<'a>
        ensures { key_of result ≡ (certificate_of self.now).signer }
    {
        self.fields.signer
    }

    /// The blob of the key that signed the certificate.
    pub fn signer_blob(&self) -> &'a [u8]
        ensures { result.now ≡ key_blob (certificate_of self.now).signer }
    {
        self.fields.raw_signer
    }

    /// The signer's signature. It is not verified here.
    pub fn signature(&self) -> SignatureView<'a>
        ensures value { signature_of result ≡ (certificate_of self.now).signature }
        ensures is_signature { IsSignature (signature_of result) }
    {
        self.fields.signature
    }

    /// The blob of the signature.
    pub fn signature_blob(&self) -> &'a [u8]
        ensures { result.now ≡ signature_blob (certificate_of self.now).signature }
    {
        self.fields.raw_signature
    }

    /// The bytes that the signer signed: all up to the end of the signature key field.
    pub fn signed_part(&self) -> &'a [u8]
        ensures { result.now ≡ signed_part (certificate_of self.now) }
    {
        let signature_field = 4 + self.fields.raw_signature.len();
        &self.blob[..self.blob.len() - signature_field]
    }

    /// Whether the certificate is in force at a moment, in seconds from 1970-01-01 in UTC: from
    /// `after` on, and no longer at `before` (PROTOCOL.certkeys).
    pub fn in_time(&self, now: u64) -> Time
        ensures { result ≡ time_of (certificate_of self.now) now }
    {
        if now < self.fields.terms.after {
            Time::Early
        } else if self.fields.terms.before <= now {
            Time::Late
        } else {
            Time::Now
        }
    }

    /// Whether the name is one of the principals, byte for byte: `*` is an ordinary byte.
    pub fn has_principal(&self, name: &[u8]) -> bool
        ensures { IsTrue result ↔ HasPrincipal (certificate_of self.now) name.now }
    {
        self.principals().any(|principal| principal == name)
    }
}

/// Views are equal exactly where their certificates are, because a certificate has only one blob.
impl PartialEq for CertView<'_> {
    ghost use Rattle.std.specs.Cmp.{on_per, partial_equiv_from_equiv};
    ghost use Rattle.std.specs.Cmp.Lexicographic.{nat_list_eq_equiv};
    ghost use Rattle.std.specs.Str.{bytes_eq};
    ghost use Rattle.ssh_certs.specs.CertificateOf.{certificate_of, certificate_blob_of};

    ghost eq = { λ a b. bytes_eq (certificate_blob_of a) (certificate_blob_of b) };

    ghost laws = { on_per certificate_blob_of (partial_equiv_from_equiv nat_list_eq_equiv) };

    fn eq(&self, other: &Self) -> bool
        ensures blobs { result ≡ bytes_eq (certificate_blob_of self.now) (certificate_blob_of other.now) }
        ensures same { IsTrue result ↔ (certificate_of self.now ≡ certificate_of other.now) }
    {
        *self.blob == *other.blob
    }
}

impl Eq for CertView<'_> {
    ghost use Rattle.std.specs.Cmp.{on_equiv};
    ghost use Rattle.std.specs.Cmp.Lexicographic.{nat_list_eq_equiv};
    ghost use Rattle.ssh_certs.specs.CertificateOf.{certificate_blob_of};

    ghost laws = { on_equiv certificate_blob_of nat_list_eq_equiv };
}
