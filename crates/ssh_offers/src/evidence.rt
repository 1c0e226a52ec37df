//! The evidence: the signatures that a decision depends on, and which of them are vouched for.

ghost use Rattle.std.specs.Prelude.{◌≡◌, ◌↔◌, [], ◌++◌, ◌∷◌, length, IsTrue, OnErr, OnOk, ◌<◌, ◌^◌, not, IfOk};
ghost use Rattle.std.specs.List.{position};
ghost use Rattle.ssh_keys.specs.PublicKey.{key_blob};
ghost use Rattle.ssh_certs.specs.CertificateOf.{certificate_of};
ghost use Rattle.ssh_offers.specs.Query.{login_of};
ghost use Rattle.ssh_offers.specs.Offer.{plain_key};
ghost use Rattle.ssh_offers.specs.OfferView.{offer_of};
ghost use Rattle.ssh_offers.specs.Evidence.{certificate_signed, host_evidence, host_signed, login_bytes, login_evidence, login_signed, signer_evidence};
ghost use Rattle.ssh_offers.specs.ClaimViews.{claim_of, host_claim_of};
ghost use Rattle.ssh_offers.specs.Vouching.{is_same, is_vouched, first_unvouched};
ghost use Rattle.ssh_offers.specs.FileSignature.{file_signed, sshsig_evidence};
ghost use Rattle.ssh_offers.specs.FileSignatureView.{sshsig_claim_of};

use crate::claim::{HostClaimView, LoginClaimView, LoginQuery, Signed, SshsigClaimView};
use crate::offer::Offer;
use ssh_bodies::sshsig_message;
use ssh_certs::CertView;
use ssh_keys::write_key;
use ssh_text::Bytes;
use ssh_wire::put_string;
use std::alloc::{AllocError, Global};
use std::marker::Model;

/// A list that contracts see as its items alone, without capacity and allocator.
#[derive(Debug, Drop)]
pub struct Items<T> {
    items: Vec<T>,
}

impl<T> Model for Items<T> {
    ghost use Rattle.std.specs.Prelude.{List};

    ghost Value = { List T };

    ghost view = { λ l. l.items.items };
}

impl<T> Items<T> {
    /// An empty list.
    pub fn new(alloc: Global) -> Self
        ensures { result ≡ [] }
    {
        Items {
            items: Vec::new(alloc),
        }
    }

    /// Takes over the vector's items.
    pub fn from_vec(items: Vec<T>) -> Self
        ensures { result ≡ items.items }
    {
        Items { items }
    }

    /// How many items there are.
    pub fn len(&self) -> usize
        ensures { result ≡ length self.now }
    {
        self.items.len()
    }

    /// Whether there are no items.
    pub fn is_empty(&self) -> bool
        ensures { IsTrue result ↔ (self.now ≡ []) }
    {
        self.items.is_empty()
    }

    /// The items in order.
    pub fn as_slice(&self) -> &[T]
        ensures { result.now ≡ self.now }
    {
        self.items.as_slice()
    }
}

impl<T: Drop> Items<T> {
    /// Adds an item at the end; on an `Err` nothing changes.
    pub fn push(&mut self, item: T) -> Result<(), AllocError>
        ensures ok { OnOk result (self.new ≡ self.old ++ item ∷ []) }
        ensures err { OnErr result (self.new ≡ self.old) }
    {
        self.items.push(item)?;
        Ok(())
    }
}

/// Lists are equal where their items are, one by one.
impl<T: PartialEq> PartialEq for Items<T> {
    ghost use Rattle.std.specs.Cmp.Lexicographic.{lists_per, pointwise};

    ghost eq = { pointwise T.eq };

    ghost laws = { lists_per T.laws };

    fn eq(&self, other: &Self) -> bool {
        self.as_slice() == other.as_slice()
    }
}

/// The message number of a user authentication request (RFC 4252 section 6).
const USERAUTH_REQUEST: u8 = 50;

/// The bytes that a client signs for a login (RFC 4252 section 7).
#[tactic(auto, unfolding(crate::specs::Evidence::login_bytes))]
fn login_bytes(alloc: Global, query: &LoginQuery<'_>) -> Result<Vec<u8>, AllocError>
    requires session { length query.now.session.now < 2 ^ 32 }
    requires user { length query.now.user.now < 2 ^ 32 }
    requires algorithm { length query.now.algorithm.now < 2 ^ 32 }
    requires offered { length query.now.offered.now < 2 ^ 32 }
    ensures { IfOk result (λ v. v.items ≡ login_bytes (login_of query.entry.now)) }
{
    let mut out = Vec::new(alloc);
    put_string(&mut out, query.session)?;
    out.push(USERAUTH_REQUEST)?;
    put_string(&mut out, query.user)?;
    put_string(&mut out, b"ssh-connection")?;
    put_string(&mut out, b"publickey")?;
    out.push(1)?;
    put_string(&mut out, query.algorithm)?;
    put_string(&mut out, query.offered)?;
    Ok(out)
}

/// The blob of the plain key: the offered one, or the one in the certificate. Fails only when
/// memory cannot be allocated.
pub fn plain_blob(alloc: Global, offer: &Offer<'_>) -> Result<Vec<u8>, AllocError>
    ensures { IfOk result (λ blob. blob.items ≡ key_blob (plain_key (offer_of offer.now))) }
{
    let mut blob = Vec::new(alloc);
    write_key(&offer.plain_key(), &mut blob)?;
    Ok(blob)
}

/// The signature over the login bytes, by the plain key.
#[tactic(auto, unfolding(crate::specs::Evidence::login_signed))]
fn login_signed(alloc: Global, claim: &LoginClaimView<'_>) -> Result<Signed, AllocError>
    ensures { IfOk result (λ signed.
        signed ≡ login_signed (key_blob (plain_key (claim_of claim.now).offer))
        (claim_of claim.now).query) }
{
    Ok(Signed {
        key: Bytes::new(plain_blob(alloc, &claim.offer)?),
        message: Bytes::new(login_bytes(alloc, &claim.query)?),
        signature: Bytes::new(claim.query.signature.to_vec(alloc)?),
    })
}

/// The signature over a certificate, by its signer.
#[tactic(auto, unfolding(crate::specs::Evidence::certificate_signed))]
fn certificate_signed(alloc: Global, certificate: &CertView<'_>) -> Result<Signed, AllocError>
    ensures { IfOk result (λ signed. signed ≡ certificate_signed (certificate_of certificate.now)) }
{
    Ok(Signed {
        key: Bytes::new(certificate.signer_blob().to_vec(alloc)?),
        message: Bytes::new(certificate.signed_part().to_vec(alloc)?),
        signature: Bytes::new(certificate.signature_blob().to_vec(alloc)?),
    })
}

/// The offered key's signature, and for a certificate its signer's after it.
fn with_signer(alloc: Global, first: Signed, offer: &Offer<'_>) -> Result<Items<Signed>, AllocError>
    ensures { IfOk result (λ evidence. evidence ≡ first ∷ signer_evidence (offer_of offer.now)) }
{
    let mut evidence = Vec::new(alloc);
    evidence.push(first)?;
    if let Offer::Certified(certificate) = offer {
        evidence.push(certificate_signed(alloc, certificate)?)?;
    }
    Ok(Items::from_vec(evidence))
}

/// The evidence of a login: the offered key's signature over the login bytes, and for a certificate
/// its signer's. Fails only when memory cannot be allocated.
pub fn login_evidence(
    alloc: Global,
    claim: &LoginClaimView<'_>,
) -> Result<Items<Signed>, AllocError>
    ensures { IfOk result (λ evidence. evidence ≡ login_evidence (claim_of claim.now)) }
{
    let signed = login_signed(alloc, claim)?;
    let evidence = with_signer(alloc, signed, &claim.offer)?;
    Ok(evidence)
}

/// The signature over the exchange hash, by the host's key.
#[tactic(auto, unfolding(crate::specs::Evidence::host_signed))]
fn host_signed(alloc: Global, claim: &HostClaimView<'_>) -> Result<Signed, AllocError>
    ensures { IfOk result (λ signed.
        signed ≡ host_signed (key_blob (plain_key (host_claim_of claim.now).offer))
        (host_claim_of claim.now).query) }
{
    Ok(Signed {
        key: Bytes::new(plain_blob(alloc, &claim.offer)?),
        message: Bytes::new(claim.query.exchange_hash.to_vec(alloc)?),
        signature: Bytes::new(claim.query.signature.to_vec(alloc)?),
    })
}

/// The evidence of a host: its key's signature over the exchange hash, and for a certificate its
/// signer's. Fails only when memory cannot be allocated.
pub fn host_evidence(alloc: Global, claim: &HostClaimView<'_>) -> Result<Items<Signed>, AllocError>
    ensures { IfOk result (λ evidence. evidence ≡ host_evidence (host_claim_of claim.now)) }
{
    let signed = host_signed(alloc, claim)?;
    let evidence = with_signer(alloc, signed, &claim.offer)?;
    Ok(evidence)
}

fn is_same(vouched: &Signed, signed: &Signed) -> bool
    ensures { result ≡ is_same vouched.now signed.now }
{
    vouched.key.as_slice() == signed.key.as_slice()
        && vouched.message.as_slice() == signed.message.as_slice()
        && vouched.signature.as_slice() == signed.signature.as_slice()
}

fn is_vouched(vouched: &[Signed], signed: &Signed) -> bool
    ensures { result ≡ is_vouched vouched.now signed.now }
{
    vouched.iter().any(|v| is_same(v, signed))
}

/// The least index of the evidence, from 0, that is not vouched for.
pub fn first_unvouched(vouched: &[Signed], evidence: &[Signed]) -> Option<usize>
    ensures { result ≡ first_unvouched vouched.now evidence.now }
{
    evidence
        .iter()
        .position(|signed| !is_vouched(vouched, signed))
}

/// The signature over a message, by the key of a file signature.
#[tactic(auto, unfolding(crate::specs::FileSignature::file_signed))]
fn file_signed(
    alloc: Global,
    claim: &SshsigClaimView<'_>,
    message: &[u8],
) -> Result<Signed, AllocError>
    ensures { IfOk result (λ signed. signed ≡ file_signed (sshsig_claim_of claim.now) message.now) }
{
    let view = &claim.file_signature;
    Ok(Signed {
        key: Bytes::new(view.key_blob.to_vec(alloc)?),
        message: Bytes::new(sshsig_message(alloc, view, message)?),
        signature: Bytes::new(view.signature_blob.to_vec(alloc)?),
    })
}

/// The evidence of a file signature of this message: the signature over the bytes that
/// PROTOCOL.sshsig gives. Fails only when memory cannot be allocated.
pub fn sshsig_evidence(
    alloc: Global,
    claim: &SshsigClaimView<'_>,
    message: &[u8],
) -> Result<Items<Signed>, AllocError>
    ensures { IfOk result
        (λ evidence. evidence ≡ sshsig_evidence (sshsig_claim_of claim.now) message.now) }
{
    let signed = file_signed(alloc, claim, message)?;
    let mut evidence = Vec::new(alloc);
    evidence.push(signed)?;
    Ok(Items::from_vec(evidence))
}
