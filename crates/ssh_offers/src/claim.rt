//! The query about a login, a host's key or a file signature, the claim that it is read as, and why
//! it is refused (`AuditError`).

ghost use Rattle.std.specs.Prelude.{◌≡◌, ◌<◌, ◌^◌, length, IfErr, IfOk, Some, ◌⊎◌, OnOk};
ghost use Rattle.ssh_offers.specs.declared.claim.AuditError.TheVariants.{Memory};
ghost use Rattle.ssh_patterns.specs.AddressReading.{address_of};
ghost use Rattle.ssh_patterns.specs.AddressText.{IsAddressText};
ghost use Rattle.ssh_patterns.specs.declared.address.Address.{Address};
ghost use Rattle.ssh_offers.specs.Offer.{offer_blob};
ghost use Rattle.ssh_offers.specs.OfferView.{offer_of};
ghost use Rattle.ssh_offers.specs.LoginClaim.{address_test};
ghost use Rattle.ssh_offers.specs.HostClaim.{fitting_test};
ghost use Rattle.ssh_bodies.specs.Sshsig.{IsSshsig};
ghost use Rattle.ssh_bodies.specs.SshsigOf.{sshsig_of};

use crate::offer::{Offer, read_offered, read_signed, test_pairing, test_signer, wanted_algorithm};
use jiff::tz::TimeZone;
use ssh_bodies::{BodyError, SshsigView, read_sshsig};
use ssh_certs::CertError;
use ssh_keys::{Fit, KeyError, SignatureView, fits};
use ssh_patterns::{Address, parse_address};
use ssh_text::Bytes;
use ssh_wire::WireError;
use std::alloc::{AllocError, AllocFailed};
use thiserror::Error;

/// Why a blob is not an offer.
#[derive(Clone, Copy, Debug, PartialEq, Eq, Error)]
pub enum OfferError {
    /// `K1` to `K8`: it is not a plain key.
    #[error("{0}")]
    Key(KeyError),
    /// `C1` to `C9`: its type is a certificate's, and it is not a certificate.
    #[error("{0}")]
    Certificate(CertError),
}

/// Why there is no decision. `A1` to `A6` are tested in this order, before any memory is allocated;
/// `A7` after them.
#[derive(Clone, Copy, Debug, PartialEq, Eq, Error)]
pub enum AuditError {
    /// `A1`: the offered blob is neither a plain key nor a certificate.
    #[error("the offer: {0}")]
    Offer(OfferError),
    /// `A2`: the signature blob cannot be read.
    #[error("the signature: {0}")]
    Signature(WireError),
    /// `A3`: the algorithm name does not fit the offer, or the signature's algorithm does not fit
    /// the name.
    #[error("the algorithm does not fit the key")]
    WrongAlgorithm,
    /// `A4`: RSA with SHA-1, by the algorithm name or in the signature (RFC 8332).
    #[error("the signature is weak")]
    WeakSignature,
    /// `A5`: the certificate's signature has an algorithm that does not fit its signer, or that is
    /// RSA with SHA-1.
    #[error("the certificate's signature does not fit its signer")]
    CertSignature,
    /// `A6`: the text is not an address.
    #[error("the address cannot be read")]
    Address,
    /// `A7`: the trust file has more than 67,108,864 bytes.
    #[error("the file is too long")]
    FileTooLong,
    /// `A8`: memory could not be allocated.
    #[error("out of memory")]
    Memory,
    /// `A9`: a read of the trust file failed.
    #[error("the file cannot be read")]
    Read,
    /// `A10`: an earlier piece of the trust file was refused.
    #[error("a piece of the file was refused")]
    Failed,
    /// `A11`: the bytes are not the body of a file signature. It is tested before all others.
    #[error("the body: {0}")]
    Body(BodyError),
    /// `A12`: there are fewer salts than names to hash. Only hashing returns it.
    #[error("there are fewer salts than names to hash")]
    Salts,
}

impl From<AllocError> for AuditError {
    ghost from_gives = { λ x e. e ≡ Memory };

    fn from(_e: AllocError) -> AuditError {
        AuditError::Memory
    }
}

/// A signature, the bytes that it is over, and the key that is claimed to have made it.
#[derive(Debug, Drop, PartialEq, Eq)]
pub struct Signed {
    /// The key's blob (RFC 4253, section 6.6).
    pub key: Bytes,
    /// The signed bytes.
    pub message: Bytes,
    /// The signature's blob.
    pub signature: Bytes,
}

/// Whether a certificate without principals is for everybody (PROTOCOL.certkeys) or for nobody.
/// OpenSSH's versions differ in this.
#[derive(Clone, Copy, Debug, PartialEq, Eq)]
pub enum EmptyPrincipals {
    /// It is for every user, or every host.
    Any,
    /// It is for nobody.
    Never,
}

/// The login by public key that is asked about (RFC 4252 section 7).
#[derive(Clone, Copy, Debug)]
pub struct LoginQuery<'a> {
    /// The blob of the key or the certificate that the client offers.
    pub offered: &'a [u8],
    /// The blob of the signature over the login bytes.
    pub signature: &'a [u8],
    /// The name of the public key algorithm, as it is in the login bytes.
    pub algorithm: &'a [u8],
    /// The session identifier, of fewer than 2^32 bytes.
    pub session: &'a [u8],
    /// The user's name, of fewer than 2^32 bytes.
    pub user: &'a [u8],
    /// The name of the host that the client connects from, if known.
    pub host: Option<&'a [u8]>,
    /// The address that the client connects from, as text.
    pub address: &'a [u8],
    /// Seconds since 1970-01-01 in UTC.
    pub now: u64,
    /// The time zone of expiry times that name none.
    pub zone: &'a TimeZone<'a>,
    /// Whom a certificate without principals is for.
    pub empty_principals: EmptyPrincipals,
    /// The fewest bits of an RSA key, for the offered key and a certificate's signer; 0 allows any
    /// size.
    pub rsa_minimum: u32,
}

/// The host's key that is asked about: a client asks whether to trust it for the exchange hash that
/// the host signed (RFC 4253 section 8).
#[derive(Clone, Copy, Debug, PartialEq, Eq)]
pub struct HostQuery<'a> {
    /// The blob of the key or the certificate that the host offers.
    pub offered: &'a [u8],
    /// The blob of the signature over the exchange hash.
    pub signature: &'a [u8],
    /// The exchange hash, as it was signed.
    pub exchange_hash: &'a [u8],
    /// The name or the address that the client connects to.
    pub host: &'a [u8],
    /// The port that the client connects to.
    pub port: u16,
    /// Seconds since 1970-01-01 in UTC.
    pub now: u64,
    /// Whom a certificate without principals is for.
    pub empty_principals: EmptyPrincipals,
    /// The fewest bits of an RSA key, for the offered key and a certificate's signer; 0 allows any
    /// size.
    pub rsa_minimum: u32,
}

/// A login whose offer, signature and address were read and fit together.
#[derive(Clone, Copy)]
pub struct LoginClaimView<'a> {
    pub query: LoginQuery<'a>,
    pub offer: Offer<'a>,
    pub signature: SignatureView<'a>,
    pub address: Address,
    ghost own: { query.offered.now ≡ offer_blob (offer_of offer) },
    ghost offered_short: { length query.offered.now < 2 ^ 32 },
    ghost session_short: { length query.session.now < 2 ^ 32 },
    ghost user_short: { length query.user.now < 2 ^ 32 },
    ghost algorithm_short: { length query.algorithm.now < 2 ^ 32 },
    ghost address_read: { address_of query.address.now ≡ Some address },
}

fn read_address(text: &[u8]) -> Result<Address, AuditError>
    ensures exact { result ≡ address_test (address_of text.now) }
    ensures spelled { IfOk result (λ address. IsAddressText address text.now) }
    ensures none { IfErr result (λ e.
        ((address : Address) → ¬ IsAddressText address text.now) × (e ≡ AuditError.Address)) }
{
    match parse_address(text) {
        Ok(address) => Ok(address),
        Err(_) => Err(AuditError::Address),
    }
}

impl<'a> LoginClaimView<'a> {
    ghost use Rattle.std.specs.Prelude.{IfErr, IfOk};
    ghost use Rattle.ssh_wire.specs.Reading.{Gives};
    ghost use Rattle.ssh_keys.specs.PublicKey.{key_blob};
    ghost use Rattle.ssh_offers.specs.Query.{login_of};
    ghost use Rattle.ssh_offers.specs.Offer.{subject};
    ghost use Rattle.ssh_offers.specs.LoginClaim.{login_claim};
    ghost use Rattle.ssh_offers.specs.FirstRefusal.{IsLoginClaim, IsLoginRefusal};
    ghost use Rattle.ssh_offers.specs.ClaimViews.{claim_of};

    /// Reads the claim of a login. Fails with the first refusal of `A1` to `A6`.
    #[tactic(auto, unfolding(crate::specs::LoginClaim::login_claim))]
    pub fn read(query: &LoginQuery<'a>) -> Result<LoginClaimView<'a>, AuditError>
        requires session { length query.now.session.now < 2 ^ 32 }
        requires user { length query.now.user.now < 2 ^ 32 }
        ensures exact { Gives claim_of result (login_claim (login_of query.entry.now)) }
        // What is read is the claim of this query.
        ensures found { IfOk result
            (λ claim. IsLoginClaim (login_of query.entry.now) (claim_of claim)) }
        // It is refused by the first test that fails.
        ensures first { IfErr result (IsLoginRefusal (login_of query.entry.now)) }
    {
        let offer = read_offered(query.offered)?;
        let signature = read_signed(query.signature)?;
        let kind = offer.plain_key().kind();
        let wanted = wanted_algorithm(kind, offer.is_certified(), query.algorithm)?;
        test_pairing(kind, wanted, signature.algorithm)?;
        test_signer(&offer)?;
        let address = read_address(query.address)?;
        Ok(LoginClaimView {
            query: *query,
            offer,
            signature,
            address,
        })
    }

    /// The blob of the key that an admitting line must have: the offered key's, or that of the
    /// certificate's signer.
    pub fn subject_blob(&self) -> &'a [u8]
        ensures { result.now ≡ key_blob (subject (claim_of self.now).offer) }
    {
        self.offer.subject_blob(self.query.offered)
    }
}

/// A host's key whose offer and signature were read and fit together.
#[derive(Clone, Copy)]
pub struct HostClaimView<'a> {
    pub query: HostQuery<'a>,
    pub offer: Offer<'a>,
    ghost own: { query.offered.now ≡ offer_blob (offer_of offer) },
}

/// Whether a signature's algorithm fits the key that made it; otherwise `A4` where it is RSA with
/// SHA-1, or `A3`.
pub(crate) fn test_fitting(fit: Fit) -> Result<(), AuditError>
    ensures exact { result ≡ fitting_test fit }
    ensures serves { OnOk result (fit ≡ Fit.Yes) }
    ensures other { IfErr result (λ e. ((fit ≡ Fit.Weak) × (e ≡ AuditError.WeakSignature))
        ⊎ ((fit ≡ Fit.No) × (e ≡ AuditError.WrongAlgorithm))) }
{
    match fit {
        Fit::Yes => Ok(()),
        Fit::Weak => Err(AuditError::WeakSignature),
        Fit::No => Err(AuditError::WrongAlgorithm),
    }
}

impl<'a> HostClaimView<'a> {
    ghost use Rattle.std.specs.Prelude.{IfErr, IfOk};
    ghost use Rattle.ssh_wire.specs.Reading.{Gives};
    ghost use Rattle.ssh_keys.specs.PublicKey.{key_blob};
    ghost use Rattle.ssh_offers.specs.Query.{host_check_of};
    ghost use Rattle.ssh_offers.specs.Offer.{subject};
    ghost use Rattle.ssh_offers.specs.HostClaim.{host_claim};
    ghost use Rattle.ssh_offers.specs.FirstRefusal.{IsHostClaim, IsHostRefusal};
    ghost use Rattle.ssh_offers.specs.ClaimViews.{host_claim_of};

    /// Reads the claim of a host's key. Fails with the first refusal of `A1` to `A5`.
    #[tactic(auto, unfolding(crate::specs::HostClaim::host_claim))]
    pub fn read(query: &HostQuery<'a>) -> Result<HostClaimView<'a>, AuditError>
        ensures exact { Gives host_claim_of result (host_claim (host_check_of query.entry.now)) }
        // What is read is the claim of this query.
        ensures found { IfOk result
            (λ claim. IsHostClaim (host_check_of query.entry.now) (host_claim_of claim)) }
        // It is refused by the first test that fails.
        ensures first { IfErr result (IsHostRefusal (host_check_of query.entry.now)) }
    {
        let offer = read_offered(query.offered)?;
        let signature = read_signed(query.signature)?;
        test_fitting(fits(offer.plain_key().kind(), signature.algorithm))?;
        test_signer(&offer)?;
        Ok(HostClaimView {
            query: *query,
            offer,
        })
    }

    /// The blob of the key that an admitting line must have: the offered key's, or that of the
    /// certificate's signer.
    pub fn subject_blob(&self) -> &'a [u8]
        ensures { result.now ≡ key_blob (subject (host_claim_of self.now).offer) }
    {
        self.offer.subject_blob(self.query.offered)
    }
}

/// A file signature, read from its body (PROTOCOL.sshsig), whose algorithm fits its key.
#[derive(Clone, Copy)]
pub struct SshsigClaimView<'a> {
    pub file_signature: SshsigView<'a>,
    ghost has_body: { IsSshsig (sshsig_of file_signature) },
}

impl<'a> SshsigClaimView<'a> {
    ghost use Rattle.std.specs.Prelude.{IfErr, IfOk};
    ghost use Rattle.ssh_wire.specs.Reading.{Gives};
    ghost use Rattle.ssh_bodies.specs.Sshsig.{IsSshsigBlob};
    ghost use Rattle.ssh_offers.specs.FileSignature.{AlgorithmServes, sshsig_claim};
    ghost use Rattle.ssh_offers.specs.FirstRefusal.{IsSshsigRefusal};
    ghost use Rattle.ssh_offers.specs.FileSignatureView.{sshsig_claim_of};

    /// Reads the claim of a body. Its first refusal is `A11`, then `A4` for RSA with SHA-1, or `A3`
    /// for any other algorithm that does not fit the key.
    #[tactic(auto, unfolding(crate::specs::FileSignature::sshsig_claim))]
    pub fn read(body: &'a [u8]) -> Result<SshsigClaimView<'a>, AuditError>
        ensures exact { Gives sshsig_claim_of result (sshsig_claim body.now) }
        // The body is the one of this file signature.
        ensures own { IfOk result (λ claim. IsSshsigBlob (sshsig_claim_of claim) body.now) }
        // Its algorithm fits its key.
        ensures serves { IfOk result (λ claim. AlgorithmServes (sshsig_claim_of claim)) }
        // It is refused by the first test that fails.
        ensures first { IfErr result (IsSshsigRefusal body.now) }
    {
        let file_signature = match read_sshsig(body) {
            Ok(file_signature) => file_signature,
            Err(e) => return Err(AuditError::Body(e)),
        };
        let kind = file_signature.key.kind();
        test_fitting(fits(kind, file_signature.signature.algorithm))?;
        Ok(SshsigClaimView { file_signature })
    }
}
