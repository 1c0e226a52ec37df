//! A login's matcher, and the quick search for a piece of a key's base64 in a line.

ghost use Rattle.std.specs.Prelude.{◌≡◌, ◌↔◌, IfSome, IsTrue, option_copied, false, IfOk, IsOk};
ghost use Rattle.ssh_entries.specs.Names.{base64};
ghost use Rattle.ssh_rules.specs.KeyNeedle.{Holds, piece_bytes, piece_of, AdmitsNothing, HoldsPiece};
ghost use Rattle.ssh_keys.specs.PublicKey.{key_blob};
ghost use Rattle.ssh_entries.specs.AuthGrammar.{auth_line};
ghost use Rattle.ssh_offers.specs.ClaimViews.{claim_of};
ghost use Rattle.ssh_offers.specs.Offer.{subject};
ghost use Rattle.ssh_rules.specs.Judged.{IsPlainOffer, judged_of};
ghost use Rattle.ssh_rules.specs.Verdict.{login_verdict};

use crate::certificate::CheckedCertificate;
use base64::engine::general_purpose::STANDARD;
use memchr::memmem;
use ssh_offers::{LoginClaimView, Offer};
use std::alloc::{AllocError, Global};
use std::marker::Model;

/// How many bytes of the blob a piece encodes.
const NEEDLE_SIZE: usize = 24;

/// How many base64 characters a piece has.
const NEEDLE_LEN: usize = 32;

/// A piece of a key's base64 (RFC 4648, section 4), which occurs in every line that has the key: 32
/// characters, stored inline. A blob of fewer than 24 bytes has no piece. Contracts see the
/// characters, if there is a piece.
#[derive(Drop)]
pub struct KeyNeedle {
    text: Option<[u8; NEEDLE_LEN]>,
}

impl Model for KeyNeedle {
    ghost use Rattle.std.specs.Prelude.{List, Option, ℕ};

    ghost Value = { Option (List ℕ) };

    ghost view = { λ p. p.text };
}

/// The bytes of a blob that its piece encodes.
#[tactic(auto, unfolding(crate::specs::KeyNeedle::piece_bytes))]
fn piece_bytes(blob: &[u8]) -> Option<&[u8; NEEDLE_SIZE]>
    ensures { option_copied result ≡ piece_bytes blob.now }
{
    let last = blob.len().checked_sub(NEEDLE_SIZE)?;
    blob[last / 3 * 3..].first_chunk()
}

/// The base64 of the bytes, without padding since 24 is a multiple of 3.
fn base64_of(bytes: &[u8; NEEDLE_SIZE]) -> [u8; NEEDLE_LEN]
    ensures { result ≡ base64 bytes.now }
{
    let mut text = [0; NEEDLE_LEN];
    match STANDARD.encode_slice(bytes, &mut text) {
        Ok(_) => text,
        Err(_) => unreachable!(),
    }
}

/// Whether the text occurs in the line.
fn holds(line: &[u8], text: &[u8]) -> bool
    ensures { IsTrue result ↔ Holds line.now text.now }
{
    memmem::find(line, text).is_some()
}

impl KeyNeedle {
    /// The piece of a key's blob: the base64 of its last 24 bytes that begin at a multiple of three
    /// (this project's rule). The front of a blob is the same for all keys of a kind, so it is not
    /// used. A blob of fewer bytes has no piece. No memory is allocated.
    pub fn new(blob: &[u8]) -> KeyNeedle
        ensures { result ≡ piece_of blob.now }
    {
        KeyNeedle {
            text: piece_bytes(blob).map(base64_of),
        }
    }

    /// Whether the piece occurs anywhere in a line. Without a piece the answer is always `true`:
    /// the line may have the key.
    pub fn is_in(&self, line: &[u8]) -> bool
        ensures { IsTrue result ↔ IfSome self.now (Holds line.now) }
    {
        match &self.text {
            Some(text) => holds(line, text),
            None => true,
        }
    }
}

/// A login to match lines against, with its certificate checked once for all lines. Contracts see
/// its claim.
#[derive(Drop)]
pub struct LoginMatcher<'a> {
    claim: LoginClaimView<'a>,
    /// The checked certificate, where one is offered.
    checked_certificate: Option<CheckedCertificate<'a>>,
    /// The piece of base64 that a line with the key has: the plain key, or the certificate's
    /// signer.
    piece: KeyNeedle,
}

impl<'a> Model for LoginMatcher<'a> {
    ghost use Rattle.std.specs.Prelude.{◌≡◌};
    ghost use Rattle.ssh_keys.specs.PublicKey.{key_blob};
    ghost use Rattle.ssh_offers.specs.ClaimViews.{claim_of};
    ghost use Rattle.ssh_offers.specs.LoginClaim.{LoginClaim};
    ghost use Rattle.ssh_offers.specs.Offer.{subject};
    ghost use Rattle.ssh_rules.specs.Judged.{judged_of};
    ghost use Rattle.ssh_rules.specs.KeyNeedle.{piece_of};

    ghost Value = { LoginClaim };

    ghost view = { λ s. claim_of s.claim };

    ghost invariant = { λ s. (s.checked_certificate ≡ judged_of (claim_of s.claim))
        × (s.piece ≡ piece_of (key_blob (subject (claim_of s.claim).offer))) };
}

impl<'a> LoginMatcher<'a> {
    /// Prepares a claim for matching. Memory is allocated for the name of a critical option that a
    /// login does not support, and for the order of the principals.
    pub fn new(alloc: Global, claim: &LoginClaimView<'a>) -> Result<LoginMatcher<'a>, AllocError>
        ensures value { IfOk result (λ matcher. matcher ≡ claim_of claim.now) }
        // A plain key allocates nothing, and neither does a certificate without principals whose
        // critical options are all supported.
        ensures spare { IsPlainOffer (claim_of claim.now).offer → IsOk result }
    {
        let checked_certificate = match &claim.offer {
            Offer::Plain(_) => None,
            Offer::Certified(certificate) => Some(CheckedCertificate::new(
                alloc,
                certificate,
                &claim.address,
                claim.query.user,
            )?),
        };
        Ok(LoginMatcher {
            claim: *claim,
            checked_certificate,
            piece: KeyNeedle::new(claim.subject_blob()),
        })
    }

    /// The claim, as given to `new`.
    pub fn claim(&self) -> &LoginClaimView<'a>
        ensures { claim_of result.now ≡ self.now }
    {
        &self.claim
    }

    /// The checked certificate, where one is offered.
    pub(crate) fn checked_certificate(&self) -> Option<&CheckedCertificate<'a>>
        ensures { option_copied result ≡ judged_of self.now }
    {
        self.checked_certificate.as_ref()
    }

    /// Whether a line of an authorized_keys file can admit the login, by a text search alone:
    /// whether it has a piece of the base64 of the key. A line that matters only if it admits, and
    /// cannot, need not be read.
    pub fn can_admit(&self, line: &[u8]) -> bool
        ensures value { IsTrue result ↔ HoldsPiece line.now (key_blob (subject self.now.offer)) }
        ensures nothing { result ≡ false → AdmitsNothing (login_verdict self.now (auth_line line.now)) }
    {
        self.piece.is_in(line)
    }
}
