//! The decisions on a claim, so that an offer that was read once is answered by any number of
//! files and readers.

ghost use Rattle.std.specs.Prelude.{◌≡◌, Err, IfOk};
ghost use Rattle.ssh_offers.specs.declared.claim.AuditError.TheVariants.{Read};
ghost use Rattle.ssh_offers.specs.ClaimViews.{claim_of, host_claim_of};
ghost use Rattle.ssh_trust.specs.LoginDecision.{LoginMeans};
ghost use Rattle.ssh_trust.specs.HostDecision.{HostMeans};
ghost use Rattle.ssh_trust.specs.Telling.{LoginTells, HostTells};
ghost use Rattle.ssh_trust.specs.Answer.{GivesOrMemory, login_answer, host_answer};
ghost use Rattle.ssh_trust.specs.Reads.{AnswersReader, HoldsOfRead};

use crate::audit::{HostAudit, LoginAudit};
use crate::decision::Decision;
use crate::reader::Source;
use ssh_host_rules::HostMatcher;
use ssh_offers::{AuditError, HostClaimView, LoginClaimView, Signed};
use ssh_rules::LoginMatcher;
use std::alloc::Global;

/// Answers a login by a whole authorized_keys file, as `login` does, by the claim of its query. A
/// file longer than the limit is `A7`; `A8` when memory cannot be allocated.
pub fn login_by_claim(
    alloc: Global,
    file: &[u8],
    claim: &LoginClaimView<'_>,
    vouched: &[Signed],
) -> Result<Decision, AuditError>
    // Granted names the first line that admits the offer, with all its conditions; denied means
    // that there is no such line.
    ensures means { IfOk result (LoginMeans file.now (claim_of claim.now) vouched.now) }
    // The reasons are those of the lines that were passed over, and a denial's cause is the first
    // that holds.
    ensures tells { IfOk result (LoginTells file.now (claim_of claim.now) vouched.now) }
    // The whole answer, with cause, reasons and evidence, unless memory could not be allocated.
    ensures answer { GivesOrMemory (login_answer file.now (claim_of claim.now) vouched.now) result }
{
    let matcher = LoginMatcher::new(alloc, claim)?;
    LoginAudit::of_file(alloc, file, matcher, vouched)
}

/// Answers a login by what is left of a reader of an authorized_keys file, as `login_from` does, by
/// the claim of its query. A failed read is `A9`, whatever the file holds before it, and no read
/// follows it. The first byte past the limit is `A7`, so reading stops there even if the reader
/// never ends; `A8` when memory cannot be allocated.
pub fn login_by_claim_from<S: Source>(
    alloc: Global,
    reader: &mut S,
    claim: &LoginClaimView<'_>,
    vouched: &[Signed],
) -> Result<Decision, AuditError>
    // A9 is returned exactly where the last read failed.
    ensures read { result ≡ Err Read → S.failed reader.old reader.new }
    ensures unfailed { (result ≡ Err Read → ⊥) → S.unfailed reader.old reader.new }
    // A decision means what it means of a whole file, namely of the bytes that the reader gave,
    // which are all that it had.
    ensures means { IfOk result (λ decision.
        HoldsOfRead (S.left reader.old) (S.left reader.new)
        (λ file. LoginMeans file (claim_of claim.now) vouched.now decision)) }
    // The same holds of its reasons and of a denial's cause.
    ensures tells { IfOk result (λ decision.
        HoldsOfRead (S.left reader.old) (S.left reader.new)
        (λ file. LoginTells file (claim_of claim.now) vouched.now decision)) }
    // The whole answer on the bytes that the reader gave, unless memory or a read was refused.
    ensures answer { AnswersReader (S.left reader.old) (S.left reader.new)
        (λ file. login_answer file (claim_of claim.now) vouched.now) result }
{
    let matcher = LoginMatcher::new(alloc, claim)?;
    LoginAudit::of_reader(alloc, reader, matcher, vouched)
}

/// Answers a host's key by a whole known_hosts file, as `host` does, by the claim of its query. A
/// file longer than the limit is `A7`; `A8` when memory cannot be allocated.
pub fn host_by_claim(
    alloc: Global,
    file: &[u8],
    claim: &HostClaimView<'_>,
    vouched: &[Signed],
) -> Result<Decision, AuditError>
    // Granted names the first line that admits the key, with all its conditions; denied means that
    // they do not all hold.
    ensures means { IfOk result (HostMeans file.now (host_claim_of claim.now) vouched.now) }
    // The reasons are those of the lines that were passed over, and a denial's cause is the first
    // that holds.
    ensures tells { IfOk result (HostTells file.now (host_claim_of claim.now) vouched.now) }
    // The whole answer, with cause, reasons and evidence, unless memory could not be allocated.
    ensures answer { GivesOrMemory (host_answer file.now (host_claim_of claim.now) vouched.now) result }
{
    let matcher = HostMatcher::new(alloc, claim)?;
    HostAudit::of_file(alloc, file, matcher, vouched)
}

/// Answers a host's key by what is left of a reader of a known_hosts file, as `host_from` does, by
/// the claim of its query. A failed read is `A9`, whatever the file holds before it, and no read
/// follows it. The first byte past the limit is `A7`, so reading stops there even if the reader
/// never ends; `A8` when memory cannot be allocated.
pub fn host_by_claim_from<S: Source>(
    alloc: Global,
    reader: &mut S,
    claim: &HostClaimView<'_>,
    vouched: &[Signed],
) -> Result<Decision, AuditError>
    // A9 is returned exactly where the last read failed.
    ensures read { result ≡ Err Read → S.failed reader.old reader.new }
    ensures unfailed { (result ≡ Err Read → ⊥) → S.unfailed reader.old reader.new }
    // A decision means what it means of a whole file, namely of the bytes that the reader gave,
    // which are all that it had.
    ensures means { IfOk result (λ decision.
        HoldsOfRead (S.left reader.old) (S.left reader.new)
        (λ file. HostMeans file (host_claim_of claim.now) vouched.now decision)) }
    // The same holds of its reasons and of a denial's cause.
    ensures tells { IfOk result (λ decision.
        HoldsOfRead (S.left reader.old) (S.left reader.new)
        (λ file. HostTells file (host_claim_of claim.now) vouched.now decision)) }
    // The whole answer on the bytes that the reader gave, unless memory or a read was refused.
    ensures answer { AnswersReader (S.left reader.old) (S.left reader.new)
        (λ file. host_answer file (host_claim_of claim.now) vouched.now) result }
{
    let matcher = HostMatcher::new(alloc, claim)?;
    HostAudit::of_reader(alloc, reader, matcher, vouched)
}
