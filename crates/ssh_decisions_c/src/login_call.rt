//! The decision on a login, for callers in C.

ghost use Rattle.std.specs.Prelude.{◌≡◌, ◌<◌, Result, map};
ghost use Rattle.ssh_entries.specs.AuthEntry.{AuthEntry};
ghost use Rattle.ssh_offers.specs.FirstRefusal.{IsLoginClaim};
ghost use Rattle.ssh_offers.specs.LoginClaim.{LoginClaim};
ghost use Rattle.ssh_offers.specs.declared.claim.AuditError.{AuditError as Fault};
ghost use Rattle.ssh_trust.specs.LoginDecision.{IsGrant};
ghost use Rattle.ssh_trust.specs.Telling.{LoginCause};
ghost use Rattle.ssh_trust.specs.declared.decision.Decision.{Decision as DecisionValue};
ghost use Rattle.ssh_decisions_c.specs.Answered.{AnswersLogin, AreLoginReasons, TellsDenial, TellsGrant, TellsLogin, TellsReasons};
ghost use Rattle.ssh_decisions_c.specs.Asked.{login_asked, signed_of};

use crate::asked::{LoginAsked, SignedBytes, copy_all, empty_principals, host_name};
use crate::decided::{CarriedText, LineReason, LoginDecided};
use crate::telling::tell;
use jiff::tz::TimeZone;
use ssh_files::is_short;
use ssh_lending::lend;
use ssh_offers::{AuditError, LoginQuery};
use ssh_trust::{Decision, login};
use std::alloc::{AllocError, Global};

/// The decision on a login. No message of a login holds a session or a user of 2^32 bytes or more:
/// such a one is answered as out of memory.
fn decide_login(
    alloc: Global,
    file: &[u8],
    asked: &LoginAsked<'_>,
    vouched: &[SignedBytes<'_>],
) -> Result<Decision, AuditError>
    ensures { AnswersLogin file.now (login_asked asked.entry.now) (map signed_of vouched.now) result }
{
    if !is_short(asked.session) || !is_short(asked.user) {
        return Err(AuditError::Memory);
    }
    let zone = TimeZone::UTC;
    let vouched = match copy_all(alloc, vouched) {
        Ok(vouched) => vouched,
        Err(AllocError) => return Err(AuditError::Memory),
    };
    let query = LoginQuery {
        offered: asked.offered,
        signature: asked.signature,
        algorithm: asked.algorithm,
        session: asked.session,
        user: asked.user,
        host: host_name(asked),
        address: asked.address,
        now: asked.now,
        zone: &zone,
        empty_principals: empty_principals(asked.empty_principals_never),
        rsa_minimum: asked.rsa_minimum,
    };
    login(alloc, file, &query, vouched.as_slice())
}

/// The decision on a login by the bytes of an authorized_keys file, as `login` of `ssh_trust`
/// decides, where the caller vouches for these signatures. A session or a user of 2^32 bytes or
/// more is answered as out of memory. Each of the last three buffers is filled from its front, if
/// it is long enough for all that goes into it; else it stays as it is.
#[unsafe(no_mangle)]
pub extern "C" fn ssh_audit_login(
    alloc: Global,
    file: &[u8],
    asked: &LoginAsked<'_>,
    vouched: &[SignedBytes<'_>],
    reasons: &mut [LineReason],
    carried: &mut [CarriedText],
    texts: &mut [u8],
) -> LoginDecided
    // The defined answer, or the fault of memory, with all its reasons and rights.
    ensures answer { (answer : Result DecisionValue Fault)
        × AnswersLogin file.now (login_asked asked.entry.now) (map signed_of vouched.entry.now) answer
        × TellsLogin answer result reasons.old reasons.new carried.old carried.new texts.old texts.new }
    // Granted names the first line that admits the offer, with all its conditions, and its rights;
    ensures granted { (claim : LoginClaim) → IsLoginClaim (login_asked asked.entry.now) claim
        → result.decision.kind ≡ 0
        → TellsGrant file.now claim (map signed_of vouched.entry.now) result carried.old carried.new texts.old texts.new }
    // denied means that there is no such line, for the first cause that holds.
    ensures denied { (claim : LoginClaim) → IsLoginClaim (login_asked asked.entry.now) claim
        → result.decision.kind ≡ 1
        → TellsDenial AuthEntry (IsGrant file.now claim (map signed_of vouched.entry.now))
        (LoginCause file.now claim (map signed_of vouched.entry.now)) result.decision }
    // The reasons of both are those of the lines that were passed over.
    ensures passed_over { (claim : LoginClaim) → IsLoginClaim (login_asked asked.entry.now) claim
        → result.decision.kind < 2
        → TellsReasons (AreLoginReasons file.now claim) result.decision reasons.old reasons.new }
{
    let telling = tell(alloc, decide_login(alloc, file, asked, vouched));
    lend(telling.reasons.as_slice(), reasons);
    lend(telling.rights.carried.as_slice(), carried);
    lend(telling.rights.texts.as_slice(), texts);
    LoginDecided {
        decision: telling.decision,
        rights: telling.rights.numbers,
    }
}
