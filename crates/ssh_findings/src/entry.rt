//! The findings of one authorized_keys entry, in the order of their codes.

ghost use Rattle.std.specs.Prelude.{◌≡◌, ◌++◌, [], List, IfOk, IsOk, OnOk};
ghost use Rattle.ssh_findings.specs.Asking.{asking_of};
ghost use Rattle.ssh_findings.specs.Earlier.{Held};
ghost use Rattle.ssh_findings.specs.Keeping.{RemembersEntries};
ghost use Rattle.ssh_findings.specs.EntryFindings.{may_let_in, condition_findings, entry_findings, forces_but_forwards, ground_finding, ground_findings, has_empty_in, has_name_in, has_short_address_in, is_security_key, moment_asked, permits_bad, permits_any, policy_findings, reading_findings, refuses_all_in, unreadable_findings};

use crate::code::ReviewOptions;
use crate::earlier::Earlier;
use crate::facts::{Facts, is_past};
use crate::finding::{Finding, report_if, report_some};
use crate::openssh::{Ground, has_ground};
use crate::sources::{Pieces, has_short_address, is_bad_list, refuses_all};
use ssh_keys::KeyKind;
use ssh_options::LineCause;
use ssh_rights::Rights;
use ssh_text::Bytes;
use std::alloc::{AllocError, Global};

/// How many seconds after an expiry time in local time OpenSSH may still admit: an hour, in zones
/// with daylight saving time (misc.c, parse_absolute_time).
const LATE: u64 = 3600;

/// Whether there is a `from` list that permits nobody here.
fn permits_bad(list: &Option<Bytes>) -> bool
    ensures { result ≡ permits_bad list.now }
{
    match list {
        Some(list) => is_bad_list(list.as_slice()),
        None => false,
    }
}

/// Whether there is a `from` list by which OpenSSH permits nobody either.
fn refuses_all_in(list: &Option<Bytes>) -> bool
    ensures { result ≡ refuses_all_in list.now }
{
    match list {
        Some(list) => refuses_all(list.as_slice()),
        None => false,
    }
}

/// Whether an item of the `from` list is an address for OpenSSH, but not here.
fn has_short_address_in(list: &Option<Bytes>) -> bool
    ensures { result ≡ has_short_address_in list.now }
{
    match list {
        Some(list) => has_short_address(list.as_slice()),
        None => false,
    }
}

/// The time before which an expiry time has to be, so that it is past in OpenSSH too: `now`, or an
/// hour earlier for local time.
fn moment_asked(now: u64, facts: &Facts) -> u64
    ensures { result ≡ moment_asked now facts.now }
{
    if facts.has_local_time {
        now.saturating_sub(LATE)
    } else {
        now
    }
}

/// Whether a `principals` list has a name that is not empty, and whether it has an empty one.
fn names_of(list: &Option<Bytes>) -> (bool, bool)
    ensures name { result.0 ≡ has_name_in list.now }
    ensures empty { result.1 ≡ has_empty_in list.now }
{
    match list {
        Some(list) => {
            let pieces = Pieces::of(list.as_slice());
            (pieces.has_name, pieces.has_empty)
        }
        None => (false, false),
    }
}

/// Whether an entry may let its key in at the moment asked about, where no earlier line decides: it has
/// not expired, in OpenSSH either, and its lists permit somebody.
pub fn may_let_in(asked: &ReviewOptions<'_>, facts: &Facts) -> bool
    ensures { result ≡ may_let_in (asking_of asked.entry.now) facts.now }
{
    let (has_name, _) = names_of(&facts.principals);
    let nobody = facts.is_authority && facts.principals.is_some() && !has_name;
    let refuses = permits_bad(&facts.from) && refuses_all_in(&facts.from);
    !is_past(moment_asked(asked.now, facts), facts.until) && !refuses && !nobody
}

/// F5 to F7: a short RSA key, an expiry time that is past, and lists that permit nobody.
#[tactic(auto, using(crate::proofs::SpareLemmas::none_in_front, crate::proofs::SpareLemmas::none_behind))]
fn report_conditions(
    found: &mut Vec<Finding>,
    asked: &ReviewOptions<'_>,
    facts: &Facts,
) -> Result<(), AllocError>
    ensures value { OnOk result (found.new.items ≡ found.old.items
        ++ condition_findings (asking_of asked.entry.now) facts.now) }
    ensures spare { condition_findings (asking_of asked.entry.now) facts.now ≡ [] → IsOk result }
{
    let (has_name, _) = names_of(&facts.principals);
    let nobody = facts.is_authority && facts.principals.is_some() && !has_name;
    let short = asked.short_size(facts.bits).map(Finding::ShortKey);
    report_some(found, asked, short)?;
    let is_past = is_past(moment_asked(asked.now, facts), facts.until);
    let bad = permits_bad(&facts.from);
    let refused = refuses_all_in(&facts.from);
    report_if(found, asked, is_past, Finding::Expired)?;
    report_if(found, asked, bad && refused, Finding::BadSources)?;
    report_if(found, asked, bad && !refused, Finding::SourcesHere)?;
    report_if(found, asked, nobody, Finding::NoPrincipal)?;
    Ok(())
}

fn is_security_key(kind: KeyKind) -> bool
    ensures { result ≡ is_security_key kind }
{
    matches!(kind, KeyKind::SkP256 | KeyKind::SkEd25519)
}

/// F8: what OpenSSH reads differently.
#[tactic(auto, using(crate::proofs::SpareLemmas::none_in_front, crate::proofs::SpareLemmas::none_behind))]
fn report_readings(
    found: &mut Vec<Finding>,
    asked: &ReviewOptions<'_>,
    facts: &Facts,
) -> Result<(), AllocError>
    ensures value { OnOk result (found.new.items ≡ found.old.items
        ++ reading_findings (asking_of asked.entry.now) facts.now) }
    ensures spare { reading_findings (asking_of asked.entry.now) facts.now ≡ [] → IsOk result }
{
    let (has_name, has_empty) = names_of(&facts.principals);
    let plain = !facts.is_authority && facts.principals.is_some();
    // Without any name the list permits nobody, which is F7.
    let empty = facts.is_authority && has_empty && has_name;
    let other = has_short_address_in(&facts.from) && !refuses_all_in(&facts.from);
    let ignored = !facts.is_authority && facts.verify_required && !is_security_key(facts.kind);
    let local = facts.has_local_time && !asked.is_zone_given;
    report_if(found, asked, plain, Finding::PlainPrincipals)?;
    report_if(found, asked, empty, Finding::EmptyPrincipal)?;
    report_if(found, asked, ignored, Finding::VerifyIgnored)?;
    report_if(found, asked, local, Finding::LocalTime)?;
    report_if(found, asked, other, Finding::ShortAddress)?;
    Ok(())
}

/// Whether the line forces a command but still permits forwarding of TCP ports, the agent or X11.
fn forces_but_forwards(rights: &Rights) -> bool
    ensures { result ≡ forces_but_forwards rights.now }
{
    rights.command.is_some() && (rights.port || rights.agent || rights.x11)
}

/// Whether a login may come from any address: there is no `from` list, or one that permits any.
fn permits_any(list: &Option<Bytes>) -> bool
    ensures { result ≡ permits_any list.now }
{
    match list {
        Some(list) => {
            let pieces = Pieces::of(list.as_slice());
            pieces.has_stars && !pieces.has_bang
        }
        None => true,
    }
}

/// F15 to F19: what only a stricter policy objects to.
#[tactic(auto, using(crate::proofs::SpareLemmas::none_in_front, crate::proofs::SpareLemmas::none_behind))]
fn report_policy(
    found: &mut Vec<Finding>,
    asked: &ReviewOptions<'_>,
    facts: &Facts,
) -> Result<(), AllocError>
    ensures value { OnOk result (found.new.items ≡ found.old.items
        ++ policy_findings (asking_of asked.entry.now) facts.now) }
    ensures spare { policy_findings (asking_of asked.entry.now) facts.now ≡ [] → IsOk result }
{
    let plain = !facts.is_authority;
    let any_command = plain && facts.rights.command.is_none();
    let any_principal = facts.is_authority && facts.principals.is_none();
    report_if(
        found,
        asked,
        plain && permits_any(&facts.from),
        Finding::AnyAddress,
    )?;
    report_if(found, asked, any_command, Finding::AnyCommand)?;
    report_if(found, asked, plain && !facts.has_expiry, Finding::NoExpiry)?;
    report_if(found, asked, any_principal, Finding::AnyPrincipal)?;
    report_if(
        found,
        asked,
        facts.comment.as_slice().is_empty(),
        Finding::NoComment,
    )?;
    Ok(())
}

/// F22: one reason for which OpenSSH may refuse the entry.
fn report_ground(
    found: &mut Vec<Finding>,
    asked: &ReviewOptions<'_>,
    facts: &Facts,
    which: Ground,
) -> Result<(), AllocError>
    ensures value { OnOk result (found.new.items ≡ found.old.items
        ++ ground_finding (asking_of asked.entry.now) facts.now which) }
    ensures spare { ground_finding (asking_of asked.entry.now) facts.now which ≡ [] → IsOk result }
{
    let holds = has_ground(facts, which);
    report_if(found, asked, holds, Finding::MayRefuse(which))?;
    Ok(())
}

/// F22: each reason for which OpenSSH may refuse the entry, in a fixed order.
#[tactic(auto, using(crate::proofs::SpareLemmas::none_in_front, crate::proofs::SpareLemmas::none_behind))]
fn report_grounds(
    found: &mut Vec<Finding>,
    asked: &ReviewOptions<'_>,
    facts: &Facts,
) -> Result<(), AllocError>
    ensures value { OnOk result (found.new.items ≡ found.old.items
        ++ ground_findings (asking_of asked.entry.now) facts.now) }
    ensures spare { ground_findings (asking_of asked.entry.now) facts.now ≡ [] → IsOk result }
{
    report_ground(found, asked, facts, Ground::PermitOpen)?;
    report_ground(found, asked, facts, Ground::PermitListen)?;
    report_ground(found, asked, facts, Ground::Environment)?;
    report_ground(found, asked, facts, Ground::Tunnel)?;
    report_ground(found, asked, facts, Ground::Nul)?;
    report_ground(found, asked, facts, Ground::LongItem)?;
    report_ground(found, asked, facts, Ground::Rsa)?;
    Ok(())
}

/// The findings to report for an entry with this key blob, given the entries of earlier lines, in
/// the order of the codes.
#[tactic(auto, unfolding(crate::specs::EntryFindings::entry_findings))]
pub fn entry_findings(
    alloc: Global,
    asked: &ReviewOptions<'_>,
    earlier: &Earlier,
    blob: &[u8],
    facts: &Facts,
) -> Result<Vec<Finding>, AllocError>
    ensures value { IfOk result (λ found. (held : List Held)
        → RemembersEntries earlier.now held
        → found.items ≡ entry_findings (asking_of asked.entry.now) held blob.now facts.now) }
    // Only findings that are reported allocate: where there are none, the call succeeds even when
    // allocation fails.
    ensures spare { (held : List Held)
        → RemembersEntries earlier.now held
        → entry_findings (asking_of asked.entry.now) held blob.now facts.now ≡ []
        → IsOk result }
{
    let mut found = Vec::new(alloc);
    let forces = !facts.is_authority && forces_but_forwards(&facts.rights);
    report_some(&mut found, asked, earlier.repeat(blob, facts))?;
    report_conditions(&mut found, asked, facts)?;
    report_readings(&mut found, asked, facts)?;
    report_if(&mut found, asked, forces, Finding::ForcedButForwards)?;
    report_policy(&mut found, asked, facts)?;
    report_grounds(&mut found, asked, facts)?;
    Ok(found)
}

/// The findings to report for a line that cannot be read: F1.
pub fn unreadable_findings(
    alloc: Global,
    asked: &ReviewOptions<'_>,
    cause: LineCause,
) -> Result<Vec<Finding>, AllocError>
    ensures value { IfOk result
        (λ found. found.items ≡ unreadable_findings (asking_of asked.entry.now) cause) }
    // If F1 is not reported, the call succeeds even when allocation fails.
    ensures spare { unreadable_findings (asking_of asked.entry.now) cause ≡ [] → IsOk result }
{
    let mut found = Vec::new(alloc);
    report_if(&mut found, asked, true, Finding::Unreadable(cause))?;
    Ok(found)
}
