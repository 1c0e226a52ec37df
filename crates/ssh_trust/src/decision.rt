//! `Decision` and `Cause` of logins and hosts' keys, and the answer to a file signature.

ghost use Rattle.std.specs.Prelude.{◌≡◌, ◌≢◌, IfOk, Ok};
ghost use Rattle.ssh_offers.specs.FileSignature.{sshsig_claim};
ghost use Rattle.ssh_offers.specs.FileSignatureView.{sshsig_claim_of};
ghost use Rattle.ssh_trust.specs.Answer.{GivesOrMemory, OfClaim, RefusesAs};
ghost use Rattle.ssh_trust.specs.SshsigAnswer.{SshsigMeans, sshsig_answer, vouched_answer};
ghost use Rattle.ssh_trust.specs.declared.decision.SshsigAnswer.TheVariants.{OtherNamespace};

use ssh_offers::{AuditError, Items, Signed, SshsigClaimView, first_unvouched, sshsig_evidence};
use ssh_rights::Rights;
use ssh_rules::Reason;
use std::alloc::{AllocError, Global};
use thiserror::Error;

/// Why an offer is denied. The first that holds is reported.
#[derive(Clone, Copy, Debug, PartialEq, Eq, Error)]
pub enum Cause {
    /// `N1`: this line of a known_hosts file revokes the offered key or the certificate's signer,
    /// whichever host it names; the first such line, counted from 1.
    #[error("line {0} revokes the key")]
    Revoked(u64),
    /// `N2`: this line of a known_hosts file may revoke any key: it is a revocation that cannot be
    /// read, or longer than 65,536 bytes (this project's rule); the first such line, counted from
    /// 1.
    #[error("line {0} may revoke any key")]
    RevocationUnreadable(u64),
    /// `N3`: no line admits the offer.
    #[error("no line admits the offer")]
    NoLine,
    /// `N4`: a security key signed without a touch (PROTOCOL.u2f), and the line, or the certificate
    /// if one is offered, does not waive the touch.
    #[error("the security key was not touched")]
    TouchMissing,
    /// `N5`: the line or the certificate requires that a security key verified the user, and none
    /// did (PROTOCOL.u2f).
    #[error("no security key verified the user")]
    VerifyMissing,
    /// `N6`: the evidence with this index, from 0, is not vouched for; the least such index.
    #[error("the signature of index {0} is not vouched for")]
    NotVouched(u64),
}

/// A decision on a login or a host's key. Both cases list the same evidence: the signatures that
/// the decision depends on.
#[derive(Debug, Drop, PartialEq)]
pub enum Decision {
    Granted {
        /// The first line that admits the offer, counted from 1.
        line: u64,
        /// What the login may do; `None` for a host's key.
        rights: Option<Rights>,
        /// Why lines before that one do not admit the offer, listed as for a denial.
        reasons: Items<(u64, Reason)>,
        evidence: Items<Signed>,
    },
    Denied {
        why: Cause,
        /// Why lines before the candidate do not admit the offer, or all lines where there is no
        /// candidate: the first 100, each with its line number. A line with another key or about
        /// another host has no reason.
        reasons: Items<(u64, Reason)>,
        evidence: Items<Signed>,
    },
}

/// The answer to a file signature.
#[derive(Debug, Drop, PartialEq)]
pub enum SshsigAnswer {
    /// It is for the namespace that was asked for, and it is vouched for.
    Vouched { evidence: Items<Signed> },
    /// It is for another namespace.
    OtherNamespace,
    /// It is for the namespace that was asked for, and it is not vouched for.
    NotVouched { evidence: Items<Signed> },
}

/// The answer where the namespace is right, by whether all of its evidence is vouched for.
fn answer_by(evidence: Items<Signed>, vouched: &[Signed]) -> SshsigAnswer
    ensures { result ≡ vouched_answer vouched.now evidence }
{
    match first_unvouched(vouched, evidence.as_slice()) {
        None => SshsigAnswer::Vouched { evidence },
        Some(_) => SshsigAnswer::NotVouched { evidence },
    }
}

/// The answer by a body that was read. The namespace is compared byte for byte, before any memory
/// is allocated.
#[tactic(auto, unfolding(crate::specs::SshsigAnswer::sshsig_answer))]
fn answer_claim(
    alloc: Global,
    claim: &SshsigClaimView<'_>,
    message: &[u8],
    namespace: &[u8],
    vouched: &[Signed],
) -> Result<SshsigAnswer, AllocError>
    ensures other { (sshsig_claim_of claim.now).namespace ≢ namespace.now
        → result ≡ Ok OtherNamespace }
    ensures answer { IfOk result
        (λ a. a ≡ sshsig_answer (sshsig_claim_of claim.now) message.now namespace.now vouched.now) }
{
    if claim.file_signature.namespace != namespace {
        return Ok(SshsigAnswer::OtherNamespace);
    }
    let evidence = sshsig_evidence(alloc, claim, message)?;
    Ok(answer_by(evidence, vouched))
}

/// Answers a file signature (PROTOCOL.sshsig) of a whole message by its body, without armor. It is
/// vouched for where it is for this namespace, byte for byte, and its signature of the message is
/// among the vouched ones. Bytes that are not such a body are refused by `A11`, a weak signature by
/// `A4`, one whose algorithm does not fit its key by `A3`; then another namespace is reported. None
/// of these allocates memory; `A8` when memory cannot be allocated.
pub fn sshsig(
    alloc: Global,
    body: &[u8],
    message: &[u8],
    namespace: &[u8],
    vouched: &[Signed],
) -> Result<SshsigAnswer, AuditError>
    // A refused body is answered by its first refusal, whether or not memory can be allocated.
    ensures refused { RefusesAs (sshsig_claim body.now) result }
    // A signature for another namespace is reported without any memory.
    ensures other { OfClaim (sshsig_claim body.now)
        (λ v. v.namespace ≢ namespace.now → result ≡ Ok OtherNamespace) }
    // Vouched means a file signature of these bytes, for this namespace, that is vouched for; the
    // other two answers mean that there is none.
    ensures means { IfOk result (SshsigMeans body.now message.now namespace.now vouched.now) }
    // The whole answer, with its evidence, unless memory could not be allocated.
    ensures answer { OfClaim (sshsig_claim body.now)
        (λ v. GivesOrMemory (Ok (sshsig_answer v message.now namespace.now vouched.now)) result) }
{
    let claim = SshsigClaimView::read(body)?;
    let answer = answer_claim(alloc, &claim, message, namespace, vouched)?;
    Ok(answer)
}
