//! The decision on a host's key, for callers in C.

ghost use Rattle.std.specs.Prelude.{◌≡◌, ◌<◌, Result, map};
ghost use Rattle.ssh_entries.specs.KnownEntry.{KnownEntry};
ghost use Rattle.ssh_offers.specs.FirstRefusal.{IsHostClaim};
ghost use Rattle.ssh_offers.specs.HostClaim.{HostClaim};
ghost use Rattle.ssh_offers.specs.declared.claim.AuditError.{AuditError as Fault};
ghost use Rattle.ssh_trust.specs.HostDecision.{IsHostGrant};
ghost use Rattle.ssh_trust.specs.Telling.{HostCause};
ghost use Rattle.ssh_trust.specs.declared.decision.Decision.{Decision as DecisionValue};
ghost use Rattle.ssh_decisions_c.specs.Answered.{AnswersHost, AreHostReasons, LendsReasons, TellsDenial, TellsReasons};
ghost use Rattle.ssh_decisions_c.specs.Asked.{host_asked, signed_of};
ghost use Rattle.ssh_decisions_c.specs.Decided.{reported_of};

use crate::asked::{HostAsked, SignedBytes, copy_all, empty_principals};
use crate::decided::{Decided, LineReason};
use crate::telling::tell;
use ssh_lending::lend;
use ssh_offers::{AuditError, HostQuery};
use ssh_trust::{Decision, host};
use std::alloc::{AllocError, Global};

/// The decision on a host's key.
fn decide_host(
    alloc: Global,
    file: &[u8],
    asked: &HostAsked<'_>,
    vouched: &[SignedBytes<'_>],
) -> Result<Decision, AuditError>
    ensures { AnswersHost file.now (host_asked asked.entry.now) (map signed_of vouched.now) result }
{
    let vouched = match copy_all(alloc, vouched) {
        Ok(vouched) => vouched,
        Err(AllocError) => return Err(AuditError::Memory),
    };
    let query = HostQuery {
        offered: asked.offered,
        signature: asked.signature,
        exchange_hash: asked.exchange_hash,
        host: asked.host,
        port: asked.port,
        now: asked.now,
        empty_principals: empty_principals(asked.empty_principals_never),
        rsa_minimum: asked.rsa_minimum,
    };
    host(alloc, file, &query, vouched.as_slice())
}

/// The decision on a host's key by the bytes of a known_hosts file, as `host` of `ssh_trust`
/// decides, where the caller vouches for these signatures. The buffer is filled from its front, if
/// it is long enough for all reasons; else it stays as it is.
#[unsafe(no_mangle)]
pub extern "C" fn ssh_audit_host(
    alloc: Global,
    file: &[u8],
    asked: &HostAsked<'_>,
    vouched: &[SignedBytes<'_>],
    reasons: &mut [LineReason],
) -> Decided
    // The defined answer, or the fault of memory, with all its reasons.
    ensures answer { (answer : Result DecisionValue Fault)
        × AnswersHost file.now (host_asked asked.entry.now) (map signed_of vouched.entry.now) answer
        × (result ≡ reported_of answer) × LendsReasons answer reasons.old reasons.new }
    // Granted names the first line that admits the key; no line of the file revokes it, or may.
    ensures granted { (claim : HostClaim) → IsHostClaim (host_asked asked.entry.now) claim
        → result.kind ≡ 0
        → (e : KnownEntry) × IsHostGrant file.now claim (map signed_of vouched.entry.now) result.number e }
    // Denied means that this is false, for the first cause that holds.
    ensures denied { (claim : HostClaim) → IsHostClaim (host_asked asked.entry.now) claim
        → result.kind ≡ 1
        → TellsDenial KnownEntry (IsHostGrant file.now claim (map signed_of vouched.entry.now))
        (HostCause file.now claim (map signed_of vouched.entry.now)) result }
    // The reasons of both are those of the lines that were passed over.
    ensures passed_over { (claim : HostClaim) → IsHostClaim (host_asked asked.entry.now) claim
        → result.kind < 2
        → TellsReasons (AreHostReasons file.now claim) result reasons.old reasons.new }
{
    let telling = tell(alloc, decide_host(alloc, file, asked, vouched));
    lend(telling.reasons.as_slice(), reasons);
    telling.decision
}
