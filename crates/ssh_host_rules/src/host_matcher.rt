//! The matcher of a host's key: what is derived from a claim once for all lines, and which lines
//! revoke the key.

ghost use Rattle.std.specs.Prelude.{◌≡◌, ◌↔◌, false, IfOk, IsTrue, option_copied};
ghost use Rattle.ssh_certs.specs.Left.{options_left};
ghost use Rattle.ssh_keys.specs.PublicKey.{key_blob};
ghost use Rattle.ssh_offers.specs.ClaimViews.{host_claim_of};
ghost use Rattle.ssh_offers.specs.Offer.{is_certified, subject};
ghost use Rattle.ssh_offers.specs.OfferView.{offer_of};
ghost use Rattle.ssh_offers.specs.Query.{host_check_of};
ghost use Rattle.ssh_entries.specs.KnownSeen.{known_seen};
ghost use Rattle.ssh_host_rules.specs.HostAdmission.{first_name, looked_up};
ghost use Rattle.ssh_host_rules.specs.Judged.{host_served, host_unknown_name};
ghost use Rattle.ssh_rules.specs.KeyNeedle.{AdmitsNothing, HoldsPiece};
ghost use Rattle.ssh_entries.specs.KnownGrammar.{known_line};
ghost use Rattle.ssh_host_rules.specs.Revocation.{RevokesNothing, can_revoke, is_key_or_signer, may_revoke, revokes_offer};
ghost use Rattle.ssh_host_rules.specs.Verdict.{host_verdict};

use ssh_certs::CertOptions;
use ssh_entries::{KnownLineView, lookup_name};
use ssh_offers::{HostClaimView, HostQuery, Offer, plain_blob};
use ssh_rules::{KeyNeedle, SharedName, kept_name, serves};
use ssh_text::{LINE_LIMIT, skip_blanks, without_last};
use std::alloc::{AllocError, Global};
use std::marker::Model;

/// A host's key to match lines against, with what no line changes derived once. Contracts see its
/// claim.
#[derive(Drop)]
pub struct HostMatcher<'a> {
    claim: HostClaimView<'a>,
    /// The name that the host is looked up by.
    name: Vec<u8>,
    /// The blob of the plain key: the offered one, or the one in the certificate.
    blob: Vec<u8>,
    /// The piece of base64 that a line with the key has: the plain key, or the certificate's
    /// signer.
    piece: KeyNeedle,
    /// A certificate is offered, and it is for the host.
    serves: bool,
    /// The name of the certificate's first critical option. None is supported for hosts, so the
    /// first one refuses.
    unknown: Option<SharedName>,
}

impl<'a> Model for HostMatcher<'a> {
    ghost use Rattle.std.specs.Prelude.{◌≡◌};
    ghost use Rattle.ssh_keys.specs.PublicKey.{key_blob};
    ghost use Rattle.ssh_offers.specs.ClaimViews.{host_claim_of};
    ghost use Rattle.ssh_offers.specs.HostClaim.{HostClaim};
    ghost use Rattle.ssh_offers.specs.Offer.{plain_key, subject};
    ghost use Rattle.ssh_host_rules.specs.HostAdmission.{looked_up};
    ghost use Rattle.ssh_host_rules.specs.Judged.{host_served, host_unknown_name};
    ghost use Rattle.ssh_rules.specs.KeyNeedle.{piece_of};

    ghost Value = { HostClaim };

    ghost view = { λ s. host_claim_of s.claim };

    ghost invariant = { λ s. (s.name.items ≡ looked_up (host_claim_of s.claim).query)
        × (s.blob.items ≡ key_blob (plain_key (host_claim_of s.claim).offer))
        × (s.piece ≡ piece_of (key_blob (subject (host_claim_of s.claim).offer)))
        × (s.serves ≡ host_served (host_claim_of s.claim).query (host_claim_of s.claim).offer)
        × (s.unknown ≡ host_unknown_name (host_claim_of s.claim).offer) };
}

/// The name of the first option, if there is one.
fn first_name(options: CertOptions<'_>) -> Option<&[u8]>
    ensures { option_copied result ≡ first_name (options_left options.entry) }
{
    let mut options = options;
    match options.next() {
        Some((name, _)) => Some(name),
        None => None,
    }
}

/// The name of the first critical option of the certificate, if one is offered.
fn unknown_name(alloc: Global, offer: &Offer<'_>) -> Result<Option<SharedName>, AllocError>
    ensures { IfOk result (λ name. name ≡ host_unknown_name (offer_of offer.now)) }
{
    match offer {
        Offer::Plain(_) => Ok(None),
        Offer::Certified(certificate) => kept_name(alloc, first_name(certificate.critical())),
    }
}

/// The name that the host is looked up by, with its port.
fn looked_up(alloc: Global, query: &HostQuery<'_>) -> Result<Vec<u8>, AllocError>
    ensures { IfOk result (λ name. name.items ≡ looked_up (host_check_of query.entry.now)) }
{
    lookup_name(alloc, query.host, query.port)
}

/// Whether a certificate is offered that is for the host.
fn has_served(alloc: Global, claim: &HostClaimView<'_>) -> Result<bool, AllocError>
    ensures { IfOk result (λ served.
        served ≡ host_served (host_claim_of claim.now).query (host_claim_of claim.now).offer) }
{
    match &claim.offer {
        Offer::Plain(_) => Ok(false),
        Offer::Certified(certificate) => {
            // Principals of hosts are compared with the name in lower case and without the port, as
            // ssh does.
            let principal = claim.query.host.to_ascii_lowercase(alloc)?;
            Ok(serves(certificate, &principal))
        }
    }
}

impl<'a> HostMatcher<'a> {
    /// Prepares a claim for matching. Fails only when memory cannot be allocated.
    pub fn new(alloc: Global, claim: &HostClaimView<'a>) -> Result<HostMatcher<'a>, AllocError>
        ensures { IfOk result (λ matcher. matcher ≡ host_claim_of claim.now) }
    {
        let name = looked_up(alloc, &claim.query)?;
        let serves = has_served(alloc, claim)?;
        let blob = plain_blob(alloc, &claim.offer)?;
        let unknown = unknown_name(alloc, &claim.offer)?;
        Ok(HostMatcher {
            claim: *claim,
            name,
            blob,
            piece: KeyNeedle::new(claim.subject_blob()),
            serves,
            unknown,
        })
    }

    /// The claim, as given to `new`.
    pub fn claim(&self) -> &HostClaimView<'a>
        ensures { host_claim_of result.now ≡ self.now }
    {
        &self.claim
    }

    /// The name that the host is looked up by.
    pub(crate) fn name(&self) -> &[u8]
        ensures { result.now ≡ looked_up self.now.query }
    {
        &self.name
    }

    /// A certificate is offered, and it is for the host.
    pub(crate) fn serves(&self) -> bool
        ensures { result ≡ host_served self.now.query self.now.offer }
    {
        self.serves
    }

    /// The name of the first critical option of the certificate, if one is offered.
    pub(crate) fn unknown(&self) -> Option<&SharedName>
        ensures { option_copied result ≡ host_unknown_name self.now.offer }
    {
        self.unknown.as_ref()
    }

    /// The query of the claim.
    pub(crate) fn query(&self) -> &HostQuery<'a>
        ensures { host_check_of result.now ≡ self.now.query }
    {
        &self.claim.query
    }

    /// The offer of the claim.
    pub(crate) fn offer(&self) -> &Offer<'a>
        ensures { offer_of result.now ≡ self.now.offer }
    {
        &self.claim.offer
    }

    /// The blob of the key that an admitting line must have: the offered key's, or that of the
    /// certificate's signer.
    pub(crate) fn subject_blob(&self) -> &'a [u8]
        ensures { result.now ≡ key_blob (subject self.now.offer) }
    {
        self.claim.subject_blob()
    }

    /// Whether a line of a known_hosts file can admit the key, by a text search alone: whether it
    /// has a piece of the base64 of the key. A line that matters only if it admits, and cannot,
    /// need not be read.
    pub fn can_admit(&self, line: &[u8]) -> bool
        ensures value { IsTrue result ↔ HoldsPiece line.now (key_blob (subject self.now.offer)) }
        ensures nothing { result ≡ false
            → AdmitsNothing (host_verdict self.now (known_line line.now)) }
    {
        self.piece.is_in(line)
    }

    /// Whether this is the blob of the plain key, or of the certificate's signer.
    fn is_key_or_signer(&self, blob: &[u8]) -> bool
        ensures { result ≡ is_key_or_signer self.now.offer blob.now }
    {
        match &self.claim.offer {
            Offer::Plain(_) => blob == self.blob.as_slice(),
            Offer::Certified(certificate) => {
                blob == self.blob.as_slice() || blob == certificate.signer_blob()
            }
        }
    }

    /// Whether a line of a known_hosts file revokes the plain key or the certificate's signer,
    /// whichever host it names.
    pub fn is_revoked_by(&self, line: &KnownLineView<'_>) -> bool
        ensures { result ≡ revokes_offer self.now.offer (known_seen line.now) }
    {
        match line {
            KnownLineView::Revoked(blob) => self.is_key_or_signer(blob),
            _ => false,
        }
    }
}

/// Whether a line of a known_hosts file may revoke any key: it is too long, or its revocation
/// cannot be read.
pub fn may_revoke(line: &KnownLineView<'_>) -> bool
    ensures { result ≡ may_revoke (known_seen line.now) }
{
    matches!(line, KnownLineView::RevokedUnreadable)
}

/// Whether a line of a known_hosts file can be a revocation, by its front alone: it is longer than
/// 65,536 bytes, or its first field begins with `@`. A line that matters only if it revokes, and
/// cannot, need not be read.
pub fn can_revoke(line: &[u8]) -> bool
    ensures value { result ≡ can_revoke line.now }
    ensures nothing { result ≡ false → RevokesNothing (known_line line.now) }
{
    line.len() > LINE_LIMIT || matches!(skip_blanks(without_last(b'\r', line)), [b'@', ..])
}
