//! An offer of a key or a certificate, and which signature algorithms fit it.

ghost use Rattle.std.specs.Prelude.{◌≡◌, ◌<◌, ◌^◌, true, false, length, IfErr, IfOk, ◌≢◌, OnOk};
ghost use Rattle.ssh_wire.specs.Reading.{Gives};
ghost use Rattle.ssh_keys.specs.KeyOf.{key_of};
ghost use Rattle.ssh_keys.specs.PublicKey.{key_blob};
ghost use Rattle.ssh_offers.specs.Offer.{is_certificate_blob, is_certified, offer_blob, offer_in, plain_key, subject};
ghost use Rattle.ssh_offers.specs.FirstRefusal.{IsNamedCertificate, IsOfferBlob, IsOfferFault, BadlyOffered, SignerServes};
ghost use Rattle.ssh_offers.specs.OfferView.{offer_of};
ghost use Rattle.ssh_wire.specs.declared.cursor.WireError.{WireError};
ghost use Rattle.ssh_keys.specs.Signature.{IsSignatureBlob, signature_in, signature_of};
ghost use Rattle.ssh_keys.specs.SignatureFault.{IsSignatureFault};
ghost use Rattle.ssh_offers.specs.Refusal.{or_refuse};
ghost use Rattle.ssh_offers.specs.declared.claim.AuditError.TheVariants.{Offer as BadOffer, Signature as BadSignature};
ghost use Rattle.ssh_offers.specs.Algorithms.{is_weak_name, other_algorithm, pairing_test, rsa_sha256_name, rsa_sha512_name, signer_test, type_name, wanted_algorithm};

use crate::claim::{AuditError, OfferError};
use ssh_certs::{CertView, read_cert};
use ssh_keys::{
    Fit, KeyKind, KeyView, NameClass, SignatureView, fits, name_class, read_key, read_signature,
};
use ssh_wire::Cursor;

/// A plain key, or a certificate for one, as a view of its blob.
#[derive(Clone, Copy, Debug)]
pub enum Offer<'a> {
    Plain(KeyView<'a>),
    Certified(CertView<'a>),
}

impl<'a> Offer<'a> {
    /// The plain key: the offered one, or the one in the certificate.
    pub fn plain_key(&self) -> KeyView<'a>
        ensures { key_of result ≡ plain_key (offer_of self.now) }
    {
        match self {
            Offer::Plain(key) => *key,
            Offer::Certified(certificate) => certificate.key(),
        }
    }

    /// Whether it is a certificate.
    pub fn is_certified(&self) -> bool
        ensures { result ≡ is_certified (offer_of self.now) }
    {
        match self {
            Offer::Plain(_) => false,
            Offer::Certified(_) => true,
        }
    }

    /// The blob of the key that an admitting line must have: `offered`, from which this offer was
    /// read, or that of the certificate's signer.
    pub(crate) fn subject_blob(&self, offered: &'a [u8]) -> &'a [u8]
        requires own { offered.now ≡ offer_blob (offer_of self.now) }
        ensures { result.now ≡ key_blob (subject (offer_of self.now)) }
    {
        match self {
            Offer::Plain(_) => offered,
            Offer::Certified(certificate) => certificate.signer_blob(),
        }
    }
}

/// Whether the blob's type string is a certificate's (PROTOCOL.certkeys).
#[tactic(auto, unfolding(crate::specs::Offer::is_certificate_blob))]
fn is_certificate(blob: &[u8]) -> bool
    ensures exact { result ≡ is_certificate_blob blob.now }
    ensures named { result ≡ true → IsNamedCertificate blob.now }
    ensures other { result ≡ false → ¬ IsNamedCertificate blob.now }
{
    match Cursor::new(blob).take_string() {
        Ok(name) => matches!(name_class(name), NameClass::Certificate(_)),
        Err(_) => false,
    }
}

/// Reads an offer: a certificate where the type string is a certificate's, otherwise a plain key.
#[tactic(auto, unfolding(crate::specs::Offer::offer_in))]
pub fn read_offer(blob: &[u8]) -> Result<Offer<'_>, OfferError>
    ensures exact { Gives offer_of result (offer_in blob.now) }
    // What is read is what the blob spells.
    ensures found { IfOk result (λ offer. IsOfferBlob (offer_of offer) blob.now) }
    // The fault is the first one, stated over the fields alone.
    ensures first { IfErr result (IsOfferFault blob.now) }
    // The blob is the one of this offer.
    ensures own { IfOk result (λ offer. blob.now ≡ offer_blob (offer_of offer)) }
    // Its length fits a uint32.
    ensures short { IfOk result (λ offer. length blob.now < 2 ^ 32) }
{
    if is_certificate(blob) {
        match read_cert(blob) {
            Ok(certificate) => Ok(Offer::Certified(certificate)),
            Err(e) => Err(OfferError::Certificate(e)),
        }
    } else {
        match read_key(blob) {
            Ok(key) => Ok(Offer::Plain(key)),
            Err(e) => Err(OfferError::Key(e)),
        }
    }
}

/// Reads the offer; a fault is `A1`.
pub(crate) fn read_offered(blob: &[u8]) -> Result<Offer<'_>, AuditError>
    ensures exact { Gives offer_of result (or_refuse BadOffer (offer_in blob.now)) }
    ensures found { IfOk result (λ offer. IsOfferBlob (offer_of offer) blob.now) }
    ensures first { IfErr result (BadlyOffered blob.now) }
    ensures own { IfOk result (λ offer. blob.now ≡ offer_blob (offer_of offer)) }
    ensures short { IfOk result (λ offer. length blob.now < 2 ^ 32) }
{
    match read_offer(blob) {
        Ok(offer) => Ok(offer),
        Err(e) => Err(AuditError::Offer(e)),
    }
}

/// Reads the signature; a fault is `A2`.
pub(crate) fn read_signed(blob: &[u8]) -> Result<SignatureView<'_>, AuditError>
    ensures exact { Gives signature_of result (or_refuse BadSignature (signature_in blob.now)) }
    ensures found { IfOk result (λ signature. IsSignatureBlob (signature_of signature) blob.now) }
    ensures first { IfErr result (λ e. (f : WireError) × (e ≡ BadSignature f)
        × IsSignatureFault blob.now f) }
{
    match read_signature(blob) {
        Ok(signature) => Ok(signature),
        Err(e) => Err(AuditError::Signature(e)),
    }
}

/// The type name of a certificate or a plain key of this kind.
fn type_name(certified: bool, kind: KeyKind) -> &'static [u8]
    ensures { result.now ≡ type_name certified kind }
{
    if certified {
        kind.certificate_name()
    } else {
        kind.name()
    }
}

/// The algorithm name of RSA with SHA-256, for a certificate or a plain key (RFC 8332).
fn rsa_sha256_name(certified: bool) -> &'static [u8]
    ensures { result.now ≡ rsa_sha256_name certified }
{
    if certified {
        b"rsa-sha2-256-cert-v01@openssh.com"
    } else {
        b"rsa-sha2-256"
    }
}

/// The algorithm name of RSA with SHA-512, for a certificate or a plain key (RFC 8332).
fn rsa_sha512_name(certified: bool) -> &'static [u8]
    ensures { result.now ≡ rsa_sha512_name certified }
{
    if certified {
        b"rsa-sha2-512-cert-v01@openssh.com"
    } else {
        b"rsa-sha2-512"
    }
}

/// Whether the algorithm name asks for RSA with SHA-1.
fn is_weak_name(name: &[u8]) -> bool
    ensures { result ≡ is_weak_name name.now }
{
    name == KeyKind::Rsa.name() || name == KeyKind::Rsa.certificate_name()
}

/// The signature algorithm that an algorithm name asks for, where the key is RSA's.
fn rsa_algorithm(certified: bool, name: &[u8]) -> Result<&'static [u8], AuditError>
    ensures { Gives (λ a. a.now) result (wanted_algorithm KeyKind.Rsa certified name.now) }
{
    if name == rsa_sha256_name(certified) {
        Ok(b"rsa-sha2-256")
    } else if name == rsa_sha512_name(certified) {
        Ok(b"rsa-sha2-512")
    } else if is_weak_name(name) {
        Err(AuditError::WeakSignature)
    } else {
        Err(AuditError::WrongAlgorithm)
    }
}

/// The signature algorithm that an algorithm name asks for, for a certificate or a plain key of
/// this kind.
pub(crate) fn wanted_algorithm(
    kind: KeyKind,
    certified: bool,
    name: &[u8],
) -> Result<&'static [u8], AuditError>
    ensures exact { Gives (λ a. a.now) result (wanted_algorithm kind certified name.now) }
    ensures short { OnOk result (length name.now < 2 ^ 32) }
{
    match kind {
        KeyKind::Rsa => rsa_algorithm(certified, name),
        _ => {
            if name == type_name(certified, kind) {
                Ok(kind.name())
            } else {
                Err(AuditError::WrongAlgorithm)
            }
        }
    }
}

/// The refusal of a signature that does not have the algorithm that was asked for.
fn other_algorithm(kind: KeyKind, algorithm: &[u8]) -> AuditError
    ensures { result ≡ other_algorithm kind algorithm.now }
{
    match kind {
        KeyKind::Rsa => {
            if algorithm == KeyKind::Rsa.name() {
                AuditError::WeakSignature
            } else {
                AuditError::WrongAlgorithm
            }
        }
        _ => AuditError::WrongAlgorithm,
    }
}

/// Whether the signature has the algorithm that was asked for.
pub(crate) fn test_pairing(kind: KeyKind, wanted: &[u8], algorithm: &[u8]) -> Result<(), AuditError>
    ensures exact { result ≡ pairing_test kind wanted.now algorithm.now }
    ensures paired { OnOk result (algorithm.now ≡ wanted.now) }
    ensures other { IfErr result (λ e. (algorithm.now ≢ wanted.now)
        × (e ≡ other_algorithm kind algorithm.now)) }
{
    if algorithm == wanted {
        Ok(())
    } else {
        Err(other_algorithm(kind, algorithm))
    }
}

/// Whether the algorithm of a certificate's own signature fits its signer; otherwise `A5`.
pub(crate) fn test_signer(offer: &Offer<'_>) -> Result<(), AuditError>
    ensures exact { result ≡ signer_test (offer_of offer.now) }
    ensures serves { OnOk result (SignerServes (offer_of offer.now)) }
    ensures other { IfErr result (λ e. ¬ SignerServes (offer_of offer.now)
        × (e ≡ AuditError.CertSignature)) }
{
    match offer {
        Offer::Plain(_) => Ok(()),
        Offer::Certified(certificate) => {
            let kind = certificate.signer().kind();
            match fits(kind, certificate.signature().algorithm) {
                Fit::Yes => Ok(()),
                Fit::Weak | Fit::No => Err(AuditError::CertSignature),
            }
        }
    }
}
