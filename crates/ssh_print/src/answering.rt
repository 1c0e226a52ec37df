//! The answer of an authorized_keys file on a login, with what is printed beside it. Where the
//! reasons of the decision tell by which lines OpenSSH may admit the key, no other line is read
//! again.

ghost use Rattle.std.specs.Prelude.{◌≡◌, ◌++◌, [], IfOk, OnOk};
ghost use Rattle.ssh_keys.specs.PublicKey.{kind_of};
ghost use Rattle.ssh_offers.specs.ClaimViews.{claim_of};
ghost use Rattle.ssh_offers.specs.Offer.{subject};
ghost use Rattle.ssh_offers.specs.OfferView.{offer_of};
ghost use Rattle.ssh_print.specs.Answering.{GivesBeside};
ghost use Rattle.ssh_print.specs.OtherLines.{other_login, otherwise_seen};
ghost use Rattle.ssh_print.specs.PossibleLines.{with_line};
ghost use Rattle.ssh_print.specs.ReasonLines.{are_all_listed, beside_login, denied_possible, login_beside, possible_beside, possible_by, reasons_suffice, refused_at, seeks_security_key};
ghost use Rattle.ssh_text.specs.Text.{lines_of, numbered};
ghost use Rattle.ssh_trust.specs.Answer.{login_answer};

use crate::asked_key::admitting_at;
use crate::details::login_details;
use crate::otherwise::{
    Otherwise, lines_other, other_both, other_cause, possible_other, refused_by, reported_other,
};
use crate::passed::line_from;
use crate::possible::{WhyPossible, why_by_reason};
use crate::shown_needs::is_security_key;
use ssh_entries::KeyBuffer;
use ssh_keys::KeyKind;
use ssh_offers::{AuditError, LoginClaimView, Offer, Signed};
use ssh_rules::{LoginMatcher, Reason};
use ssh_text::Lines;
use ssh_trust::{Cause, Decision, REASON_LIMIT, login_by_claim};
use std::alloc::{AllocError, Global};

/// The kind of the key that an admitting line must have.
fn subject_kind(offer: &Offer<'_>) -> KeyKind
    ensures { result ≡ kind_of (subject (offer_of offer.now)) }
{
    match offer {
        Offer::Plain(key) => key.kind(),
        Offer::Certified(certificate) => certificate.signer().kind(),
    }
}

fn seeks_security_key(matcher: &LoginMatcher<'_>) -> bool
    ensures { result ≡ seeks_security_key matcher.now }
{
    is_security_key(subject_kind(&matcher.claim().offer))
}

/// Whether these are all reasons, since fewer are listed than may be.
fn are_all_listed(reasons: &[(u64, Reason)]) -> bool
    ensures { result ≡ are_all_listed reasons.now }
{
    reasons.len() < REASON_LIMIT
}

/// Whether only lines that have one of these reasons can be lines by which OpenSSH may admit the
/// key: it reads another key as this one only where that is a security key.
fn reasons_suffice(matcher: &LoginMatcher<'_>, reasons: &[(u64, Reason)]) -> bool
    ensures { result ≡ reasons_suffice matcher.now reasons.now }
{
    are_all_listed(reasons) && !seeks_security_key(matcher)
}

/// Appends the line with this number, if OpenSSH may admit the key by it.
fn push_line(
    found: &mut Vec<(u64, WhyPossible)>,
    number: u64,
    why: Option<WhyPossible>,
) -> Result<(), AllocError>
    ensures { OnOk result (found.new.items ≡ found.old.items ++ with_line number why []) }
{
    if let Some(why) = why {
        found.push((number, why))?;
    }
    Ok(())
}

/// The lines of a file that have one of these reasons and by which OpenSSH may admit the key, each
/// with its number. The reasons come in the order of the lines.
fn possible_by(
    alloc: Global,
    matcher: &LoginMatcher<'_>,
    file: &[u8],
    reasons: &[(u64, Reason)],
) -> Result<Vec<(u64, WhyPossible)>, AllocError>
    ensures { IfOk result (λ found. found.items
        ≡ possible_by matcher.now (numbered 1 (lines_of file.now)) reasons.now) }
{
    let mut found = Vec::new(alloc);
    // Most files have no such line, and then no room for a key is needed.
    if reasons.is_empty() {
        return Ok(found);
    }
    let mut buffer = KeyBuffer::new(alloc)?;
    let mut lines = Lines::new(file);
    for reason in reasons {
        let line = line_from(&mut lines, reason.0);
        let why = why_by_reason(alloc, matcher, &reason.1, line, &mut buffer)?;
        push_line(&mut found, reason.0, why)?;
    }
    Ok(found)
}

/// The lines by which OpenSSH may admit the login, of the lines of a file that were passed over for
/// these reasons: all lines, or those before one.
#[tactic(auto, unfolding(crate::specs::ReasonLines::possible_beside))]
fn possible_beside(
    alloc: Global,
    matcher: &LoginMatcher<'_>,
    before: Option<u64>,
    file: &[u8],
    reasons: &[(u64, Reason)],
) -> Result<Otherwise, AllocError>
    ensures { IfOk result (λ other. otherwise_seen other
        ≡ possible_beside matcher.now before file.now reasons.now) }
{
    if reasons_suffice(matcher, reasons) {
        let lines = possible_by(alloc, matcher, file, reasons)?;
        let other = lines_other(alloc, before.is_some(), &lines)?;
        Ok(other)
    } else {
        let other = possible_other(alloc, matcher, before, file)?;
        Ok(other)
    }
}

/// The same for a denial. Only where no line admits, all lines were passed over.
fn denied_possible(
    alloc: Global,
    matcher: &LoginMatcher<'_>,
    file: &[u8],
    why: Cause,
    reasons: &[(u64, Reason)],
) -> Result<Otherwise, AllocError>
    ensures { IfOk result (λ other. otherwise_seen other
        ≡ denied_possible matcher.now file.now why reasons.now) }
{
    match why {
        Cause::NoLine => {
            let other = possible_beside(alloc, matcher, None, file, reasons)?;
            Ok(other)
        }
        _ => {
            let other = possible_other(alloc, matcher, None, file)?;
            Ok(other)
        }
    }
}

/// What decides if OpenSSH refuses the first line that admits, which has this number.
fn refused_at(
    alloc: Global,
    matcher: &LoginMatcher<'_>,
    line: u64,
    file: &[u8],
) -> Result<Otherwise, AllocError>
    ensures { IfOk result
        (λ other. otherwise_seen other ≡ refused_at matcher.now line file.now) }
{
    let first = admitting_at(alloc, matcher, line, file)?;
    let other = refused_by(alloc, matcher, first, file)?;
    Ok(other)
}

/// The lines by which OpenSSH may decide differently, where the decision is the one on this file.
fn login_beside(
    alloc: Global,
    matcher: &LoginMatcher<'_>,
    file: &[u8],
    decision: &Decision,
) -> Result<Otherwise, AllocError>
    ensures { IfOk result
        (λ other. otherwise_seen other ≡ login_beside matcher.now file.now decision.now) }
{
    match decision {
        // sshd decides by the first line that admits, so only lines before this one can come first.
        Decision::Granted { line, reasons, .. } => {
            let possible = possible_beside(alloc, matcher, Some(*line), file, reasons.as_slice())?;
            let refused = refused_at(alloc, matcher, *line, file)?;
            let other = other_both(possible, &refused)?;
            Ok(other)
        }
        Decision::Denied { why, reasons, .. } => {
            let possible = denied_possible(alloc, matcher, file, *why, reasons.as_slice())?;
            let more = other_cause(alloc, matcher, file, *why)?;
            let other = other_both(possible, &more)?;
            Ok(other)
        }
    }
}

/// What is printed beside the decision on this file.
fn beside_login(
    alloc: Global,
    claim: &LoginClaimView<'_>,
    file: &[u8],
    decision: &Decision,
) -> Result<Otherwise, AllocError>
    ensures { IfOk result (λ other. otherwise_seen other
        ≡ beside_login (claim_of claim.entry.now) file.now decision.now) }
{
    let matcher = LoginMatcher::new(alloc, claim)?;
    let details = login_details(alloc, &matcher, file, decision)?;
    let more = login_beside(alloc, &matcher, file, decision)?;
    let other = other_both(reported_other(details), &more)?;
    Ok(other)
}

/// Answers a login by a whole authorized_keys file, as `login_by_claim` does, together with what is
/// printed after the first lines of the decision. It has the reasons with what was compared, and of
/// a security key what it has to show. Then come the first 100 lines by which OpenSSH may admit the
/// login and which do not admit it here. For a denial all lines of the file count, for a grant only
/// those before its line. If OpenSSH may refuse the line that admits, it also has the line that
/// decides in that case.
#[tactic(auto, using(crate::proofs::ReasonLemmas::beside_by_reasons))]
pub fn answer_login(
    alloc: Global,
    claim: &LoginClaimView<'_>,
    file: &[u8],
    vouched: &[Signed],
) -> Result<(Decision, Otherwise), AuditError>
    ensures { GivesBeside (other_login (claim_of claim.entry.now) file.now)
        (login_answer file.now (claim_of claim.entry.now) vouched.now) result }
{
    match login_by_claim(alloc, file, claim, vouched) {
        Ok(decision) => match beside_login(alloc, claim, file, &decision) {
            Ok(other) => Ok((decision, other)),
            Err(_) => Err(AuditError::Memory),
        },
        Err(error) => Err(error),
    }
}
