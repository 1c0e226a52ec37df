//! What the holder of a security key has to show for a line that admits it.

ghost use Rattle.std.specs.Prelude.{◌≡◌, IfOk};
ghost use Rattle.ssh_entries.specs.AuthGrammar.{auth_line};
ghost use Rattle.ssh_entries.specs.declared.auth_line.AuthLine.{AuthLine};
ghost use Rattle.ssh_entries.specs.LineView.{line_seen};
ghost use Rattle.ssh_findings.specs.EntryFindings.{is_security_key};
ghost use Rattle.ssh_offers.specs.ClaimViews.{claim_of};
ghost use Rattle.ssh_print.specs.ShownNeeds.{entry_needs, needs_words, shown_needs, unflagged};

use ssh_entries::{AuthEntryView, AuthLineView, KeyBuffer, read_auth_view};
use ssh_keys::{KeyKind, SignatureView};
use ssh_offers::LoginClaimView;
use ssh_rights::{touch_suffices, verification_suffices};
use std::alloc::{AllocError, Global};

/// Whether it is a security key's kind.
pub(crate) fn is_security_key(kind: KeyKind) -> bool
    ensures { result ≡ is_security_key kind }
{
    matches!(kind, KeyKind::SkP256 | KeyKind::SkEd25519)
}

fn needs_words(touch: bool, verification: bool) -> &'static [u8]
    ensures { result.now ≡ needs_words touch verification }
{
    match (touch, verification) {
        (false, false) => b"    the security key need not be touched\n",
        (true, false) => b"    the security key has to be touched\n",
        (false, true) => b"    the security key has to verify its user by PIN or biometrics\n",
        (true, true) => {
            b"    the security key has to be touched, and to verify its user by PIN or biometrics\n"
        }
    }
}

/// The claim with a signature that shows neither a touch nor a verified user.
fn unflagged<'a>(claim: &LoginClaimView<'a>) -> LoginClaimView<'a>
    ensures { claim_of result ≡ record (claim_of claim.now) {
      signature = unflagged (claim_of claim.now).signature;
    } }
{
    LoginClaimView {
        query: claim.query,
        offer: claim.offer,
        signature: SignatureView {
            sk: Some((0, 0)),
            ..claim.signature
        },
        address: claim.address,
    }
}

fn entry_needs(claim: &LoginClaimView<'_>, entry: &AuthEntryView<'_>) -> &'static [u8]
    ensures { result.now ≡ entry_needs (claim_of claim.now) (AuthLine.Entry entry.now) }
{
    let unflagged = unflagged(claim);
    needs_words(
        !touch_suffices(entry, &unflagged),
        !verification_suffices(entry, &unflagged),
    )
}

fn line_needs(claim: &LoginClaimView<'_>, line: &AuthLineView<'_>) -> &'static [u8]
    ensures { result.now ≡ entry_needs (claim_of claim.now) (line_seen line.now) }
{
    match line {
        AuthLineView::Entry(entry) => entry_needs(claim, entry),
        _ => b"",
    }
}

/// The line that says so; none for a key of another kind.
#[tactic(auto, unfolding(crate::specs::ShownNeeds::shown_needs))]
pub(crate) fn shown_needs(
    alloc: Global,
    claim: &LoginClaimView<'_>,
    line: &[u8],
) -> Result<&'static [u8], AllocError>
    ensures { IfOk result (λ words. words.now ≡ shown_needs (claim_of claim.now) line.now) }
{
    if !is_security_key(claim.offer.plain_key().kind()) {
        return Ok(b"");
    }
    let mut buffer = KeyBuffer::new(alloc)?;
    let words = line_needs(claim, &read_auth_view(line, &mut buffer));
    Ok(words)
}
