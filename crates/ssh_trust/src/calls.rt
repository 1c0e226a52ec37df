//! The decisions on whole files and readers: does an authorized_keys file admit a login, does a
//! known_hosts file trust a host's key, and which signatures a decision depends on.

ghost use Rattle.std.specs.Prelude.{◌≡◌, ◌<◌, ◌^◌, length, Err, IfOk, Ok, OnErr};
ghost use Rattle.ssh_offers.specs.declared.claim.AuditError.TheVariants.{Read};
ghost use Rattle.ssh_offers.specs.Query.{login_of, host_check_of};
ghost use Rattle.ssh_offers.specs.FirstRefusal.{IsLoginClaim, IsHostClaim};
ghost use Rattle.ssh_offers.specs.LoginClaim.{LoginClaim, login_claim};
ghost use Rattle.ssh_offers.specs.Evidence.{login_evidence, host_evidence};
ghost use Rattle.ssh_trust.specs.LoginDecision.{LoginMeans};
ghost use Rattle.ssh_trust.specs.Telling.{LoginTells, HostTells};
ghost use Rattle.ssh_trust.specs.Answer.{GivesOrMemory, OfClaim, RefusesAs, login_answer, host_answer};
ghost use Rattle.ssh_trust.specs.Reads.{AnswersReader, HoldsOfRead};
ghost use Rattle.ssh_offers.specs.HostClaim.{HostClaim, host_claim};
ghost use Rattle.ssh_trust.specs.HostDecision.{HostMeans};

use crate::claim_calls::{host_by_claim, host_by_claim_from, login_by_claim, login_by_claim_from};
use crate::decision::Decision;
use crate::reader::Source;
use ssh_offers::{
    AuditError, HostClaimView, HostQuery, Items, LoginClaimView, LoginQuery, Signed, host_evidence,
    login_evidence,
};
use std::alloc::Global;

/// Answers a login by a whole authorized_keys file. Only the first line that admits the offer can
/// grant it; a later line is not tried. A security key must have been touched and have verified the
/// user as that line and the certificate require, and the evidence must be among the vouched
/// signatures. Otherwise the login is denied with the first cause. An offer is refused by `A1` to
/// `A6` before any memory is allocated, a file longer than the limit by `A7`; `A8` when memory
/// cannot be allocated. The query's session and user must have fewer than 2^32 bytes each.
pub fn login(
    alloc: Global,
    file: &[u8],
    query: &LoginQuery<'_>,
    vouched: &[Signed],
) -> Result<Decision, AuditError>
    requires session { length query.now.session.now < 2 ^ 32 }
    requires user { length query.now.user.now < 2 ^ 32 }
    // A refused offer is answered by its first refusal, whether or not memory can be allocated.
    ensures refused { RefusesAs (login_claim (login_of query.entry.now)) result }
    // Granted names the first line that admits the offer, with all its conditions; denied means
    // that there is no such line.
    ensures means { (claim : LoginClaim)
        → IsLoginClaim (login_of query.entry.now) claim
        → IfOk result (LoginMeans file.now claim vouched.now) }
    // The reasons are those of the lines that were passed over, and a denial's cause is the first
    // that holds.
    ensures tells { (claim : LoginClaim)
        → IsLoginClaim (login_of query.entry.now) claim
        → IfOk result (LoginTells file.now claim vouched.now) }
    // The whole answer, with cause, reasons and evidence, unless memory could not be allocated.
    ensures answer { OfClaim (login_claim (login_of query.entry.now))
        (λ claim. GivesOrMemory (login_answer file.now claim vouched.now) result) }
{
    let claim = LoginClaimView::read(query)?;
    login_by_claim(alloc, file, &claim, vouched)
}

/// Answers a login by what is left of a reader of an authorized_keys file, as `login` answers by
/// the bytes that it gives, in reads of at most 4,096 bytes. An offer is refused by `A1` to `A6`
/// before any read and before any memory is allocated. A failed read is `A9`, whatever the file
/// holds before it, and no read follows it. The first byte past the limit is `A7`, so reading stops
/// there even if the reader never ends; `A8` when memory cannot be allocated. The query's session
/// and user must have fewer than 2^32 bytes each.
pub fn login_from<S: Source>(
    alloc: Global,
    reader: &mut S,
    query: &LoginQuery<'_>,
    vouched: &[Signed],
) -> Result<Decision, AuditError>
    requires session { length query.now.session.now < 2 ^ 32 }
    requires user { length query.now.user.now < 2 ^ 32 }
    // A refused offer is answered by its first refusal, whatever the allocator and the reader do,
    ensures refused { RefusesAs (login_claim (login_of query.entry.now)) result }
    // and nothing is read.
    ensures unread { OnErr (login_claim (login_of query.entry.now)) (reader.new ≡ reader.old) }
    // A9 is returned exactly where the last read failed.
    ensures read { result ≡ Err Read → S.failed reader.old reader.new }
    ensures unfailed { (result ≡ Err Read → ⊥) → S.unfailed reader.old reader.new }
    // A decision means what it means of a whole file, namely of the bytes that the reader gave,
    // which are all that it had.
    ensures means { (claim : LoginClaim)
        → IsLoginClaim (login_of query.entry.now) claim
        → IfOk result (λ decision.
        HoldsOfRead (S.left reader.old) (S.left reader.new)
        (λ file. LoginMeans file claim vouched.now decision)) }
    // The same holds of its reasons and of a denial's cause.
    ensures tells { (claim : LoginClaim)
        → IsLoginClaim (login_of query.entry.now) claim
        → IfOk result (λ decision.
        HoldsOfRead (S.left reader.old) (S.left reader.new)
        (λ file. LoginTells file claim vouched.now decision)) }
    // The whole answer on the bytes that the reader gave, unless memory or a read was refused.
    ensures answer { OfClaim (login_claim (login_of query.entry.now))
        (λ claim. AnswersReader (S.left reader.old) (S.left reader.new)
        (λ file. login_answer file claim vouched.now) result) }
{
    let claim = LoginClaimView::read(query)?;
    login_by_claim_from(alloc, reader, &claim, vouched)
}

/// The signatures that a decision on this login depends on, whatever the file: the offered key's
/// over the login bytes, and for a certificate its signer's over the signed part. An offer is
/// refused as by `login`; `A8` when memory cannot be allocated.
pub fn evidence_of_login(alloc: Global, query: &LoginQuery<'_>) -> Result<Items<Signed>, AuditError>
    requires session { length query.now.session.now < 2 ^ 32 }
    requires user { length query.now.user.now < 2 ^ 32 }
    // A refused offer is answered by its first refusal, whether or not memory can be allocated.
    ensures refused { RefusesAs (login_claim (login_of query.entry.now)) result }
    // The evidence, unless memory could not be allocated.
    ensures evidence { OfClaim (login_claim (login_of query.entry.now))
        (λ claim. GivesOrMemory (Ok (login_evidence claim)) result) }
{
    let claim = LoginClaimView::read(query)?;
    let evidence = login_evidence(alloc, &claim)?;
    Ok(evidence)
}

/// Answers a host's key by a whole known_hosts file. It is granted by the first line that admits
/// it, if the evidence is among the vouched signatures. No line of the whole file may revoke the
/// key or its certificate's signer, nor be one that may revoke any key. Otherwise it is denied with
/// the first cause. An offer is refused by `A1` to `A5` before any memory is allocated, a file
/// longer than the limit by `A7`; `A8` when memory cannot be allocated.
pub fn host(
    alloc: Global,
    file: &[u8],
    query: &HostQuery<'_>,
    vouched: &[Signed],
) -> Result<Decision, AuditError>
    // A refused offer is answered by its first refusal, whether or not memory can be allocated.
    ensures refused { RefusesAs (host_claim (host_check_of query.entry.now)) result }
    // Granted names the first line that admits the key, with all its conditions; denied means that
    // they do not all hold.
    ensures means { (claim : HostClaim)
        → IsHostClaim (host_check_of query.entry.now) claim
        → IfOk result (HostMeans file.now claim vouched.now) }
    // The reasons are those of the lines that were passed over, and a denial's cause is the first
    // that holds.
    ensures tells { (claim : HostClaim)
        → IsHostClaim (host_check_of query.entry.now) claim
        → IfOk result (HostTells file.now claim vouched.now) }
    // The whole answer, with cause, reasons and evidence, unless memory could not be allocated.
    ensures answer { OfClaim (host_claim (host_check_of query.entry.now))
        (λ claim. GivesOrMemory (host_answer file.now claim vouched.now) result) }
{
    let claim = HostClaimView::read(query)?;
    host_by_claim(alloc, file, &claim, vouched)
}

/// Answers a host's key by what is left of a reader of a known_hosts file, as `host` answers by the
/// bytes that it gives. A read asks for at most 4,096 bytes. An offer is refused by `A1` to `A5`
/// before any read and before any memory is allocated. A failed read is `A9`, whatever the file
/// holds before it, and no read follows it. The first byte past the limit is `A7`, so reading stops
/// there even if the reader never ends; `A8` when memory cannot be allocated.
pub fn host_from<S: Source>(
    alloc: Global,
    reader: &mut S,
    query: &HostQuery<'_>,
    vouched: &[Signed],
) -> Result<Decision, AuditError>
    // A refused offer is answered by its first refusal, whatever the allocator and the reader do,
    ensures refused { RefusesAs (host_claim (host_check_of query.entry.now)) result }
    // and nothing is read.
    ensures unread { OnErr (host_claim (host_check_of query.entry.now))
        (reader.new ≡ reader.old) }
    // A9 is returned exactly where the last read failed.
    ensures read { result ≡ Err Read → S.failed reader.old reader.new }
    ensures unfailed { (result ≡ Err Read → ⊥) → S.unfailed reader.old reader.new }
    // A decision means what it means of a whole file, namely of the bytes that the reader gave,
    // which are all that it had.
    ensures means { (claim : HostClaim)
        → IsHostClaim (host_check_of query.entry.now) claim
        → IfOk result (λ decision.
        HoldsOfRead (S.left reader.old) (S.left reader.new)
        (λ file. HostMeans file claim vouched.now decision)) }
    // The same holds of its reasons and of a denial's cause.
    ensures tells { (claim : HostClaim)
        → IsHostClaim (host_check_of query.entry.now) claim
        → IfOk result (λ decision.
        HoldsOfRead (S.left reader.old) (S.left reader.new)
        (λ file. HostTells file claim vouched.now decision)) }
    // The whole answer on the bytes that the reader gave, unless memory or a read was refused.
    ensures answer { OfClaim (host_claim (host_check_of query.entry.now))
        (λ claim. AnswersReader (S.left reader.old) (S.left reader.new)
        (λ file. host_answer file claim vouched.now) result) }
{
    let claim = HostClaimView::read(query)?;
    host_by_claim_from(alloc, reader, &claim, vouched)
}

/// The signatures that a decision on this host's key depends on, whatever the file: the key's over
/// the exchange hash, and for a certificate its signer's over the signed part. An offer is refused
/// as by `host`; `A8` when memory cannot be allocated.
pub fn evidence_of_host(alloc: Global, query: &HostQuery<'_>) -> Result<Items<Signed>, AuditError>
    // A refused offer is answered by its first refusal, whether or not memory can be allocated.
    ensures refused { RefusesAs (host_claim (host_check_of query.entry.now)) result }
    // The evidence, unless memory could not be allocated.
    ensures evidence { OfClaim (host_claim (host_check_of query.entry.now))
        (λ claim. GivesOrMemory (Ok (host_evidence claim)) result) }
{
    let claim = HostClaimView::read(query)?;
    let evidence = host_evidence(alloc, &claim)?;
    Ok(evidence)
}
