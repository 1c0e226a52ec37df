//! Whether an entry of a known_hosts file admits a host's key, and the first reason why it does
//! not.

ghost use Rattle.std.specs.Prelude.{◌≡◌, ◌≤◌, false, IfOk, IsOk, ◌+◌, ◌*◌, length, IsTrue, None};
ghost use Rattle.ssh_entries.specs.declared.known_line.KnownLine.{KnownLine};
ghost use Rattle.ssh_entries.specs.KnownSeen.{known_seen};
ghost use Rattle.ssh_rules.specs.Spare.{owns_name, is_named};
ghost use Rattle.ssh_host_rules.specs.Turns.{host_least, host_most, host_width, names_least};
ghost use Rattle.ssh_host_rules.specs.Verdict.{host_verdict};
ghost use Rattle.ssh_certs.specs.CertificateOf.{certificate_of};
ghost use Rattle.ssh_entries.specs.Names.{names_host, names_text};
ghost use Rattle.ssh_offers.specs.Offer.{certified};
ghost use Rattle.ssh_rules.specs.Mismatches.{first_mismatch, or_later, size_row};
ghost use Rattle.ssh_host_rules.specs.HostAdmission.{host_certificate_mismatch, host_force_rows, host_line_rows, host_mismatch, host_offer_mismatch, host_row, looked_up, marks_authority};

use crate::host_matcher::HostMatcher;
use ssh_certs::CertView;
use ssh_entries::{HostNames, KnownEntryView, KnownLineView, Marker, names_host};
use ssh_offers::Offer;
use ssh_patterns::host_list_counted;
use ssh_rules::{
    LineVerdict, Mismatch, Reason, listed_reason, period_mismatch, principal_mismatch,
    role_mismatch, size_mismatch, unknown_mismatch,
};
use std::alloc::AllocError;

fn entry_verdict<'a>(
    entry: KnownEntryView<'a>,
    matcher: &HostMatcher<'_>,
) -> Result<(LineVerdict<KnownEntryView<'a>>, u128), AllocError>
    ensures value { IfOk result
        (λ checked_certificate. checked_certificate.0 ≡ host_verdict matcher.now (KnownLine.Entry entry.entry)) }
    ensures spare { owns_name (host_verdict matcher.now (KnownLine.Entry entry.entry)) ≡ false
        → IsOk result }
    ensures most { IfOk result
        (λ checked_certificate. checked_certificate.1 ≤ host_most matcher.now (KnownLine.Entry entry.entry)) }
    ensures least { IfOk result (λ checked_certificate. host_least matcher.now checked_certificate.0 ≤ checked_certificate.1) }
{
    let (mismatch, steps) = host_mismatch(&entry, matcher)?;
    match mismatch {
        None => Ok((LineVerdict::Admits(entry), steps)),
        Some(mismatch) => Ok((LineVerdict::Skips(listed_reason(mismatch)), steps)),
    }
}

/// `host_verdict`, and the matcher steps, as `matches_counted` counts them: none for a line that
/// has no entry, has another key or a hashed name; at most one more than the bytes of the line's
/// names, times one more than those of the name that the host is looked up by; and at least the
/// bytes of that name where a list of names admits the key.
pub fn host_verdict_counted<'a>(
    line: KnownLineView<'a>,
    matcher: &HostMatcher<'_>,
) -> Result<(LineVerdict<KnownEntryView<'a>>, u128), AllocError>
    ensures value { IfOk result
        (λ checked_certificate. checked_certificate.0 ≡ host_verdict matcher.now (known_seen line.entry)) }
    // Only sharing the name of a critical option may fail; all else is answered without memory.
    ensures spare { owns_name (host_verdict matcher.now (known_seen line.entry)) ≡ false
        → IsOk result }
    ensures most { IfOk result (λ checked_certificate. checked_certificate.1 ≤ host_most matcher.now (known_seen line.entry)) }
    // A matcher step moves past at most one byte of the name.
    ensures least { IfOk result (λ checked_certificate. host_least matcher.now checked_certificate.0 ≤ checked_certificate.1) }
{
    match line {
        KnownLineView::Unreadable(why) => {
            Ok((LineVerdict::Skips(Some(Reason::Unreadable(why))), 0))
        }
        KnownLineView::Entry(entry) => entry_verdict(entry, matcher),
        KnownLineView::Blank
        | KnownLineView::Comment
        | KnownLineView::Revoked(_)
        | KnownLineView::RevokedUnreadable => Ok((LineVerdict::Skips(None), 0)),
    }
}

/// The verdict of a line on a host's key. It admits it, or has the first reason in the order of
/// `G1` to `G12`, `G19`, `G13`, `G20`. It has no reason where it is blank, a comment, a revocation,
/// or about another key or another host. `Err` means that no more reasons can share the name of a
/// critical option.
pub fn host_verdict<'a>(
    line: KnownLineView<'a>,
    matcher: &HostMatcher<'_>,
) -> Result<LineVerdict<KnownEntryView<'a>>, AllocError>
    ensures value { IfOk result (λ verdict. verdict ≡ host_verdict matcher.now (known_seen line.entry)) }
    // Only sharing the name of a critical option may fail; all else is answered without memory.
    ensures spare { owns_name (host_verdict matcher.now (known_seen line.entry)) ≡ false
        → IsOk result }
{
    let (verdict, _) = host_verdict_counted(line, matcher)?;
    Ok(verdict)
}

/// The kind number of a host's certificate (PROTOCOL.certkeys).
const HOST_CERTIFICATE: u32 = 2;

/// Whether the line marks its key as a certificate authority.
fn marks_authority(marker: Marker) -> bool
    ensures { result ≡ marks_authority marker }
{
    match marker {
        Marker::Unmarked => false,
        Marker::CertAuthority => true,
    }
}

/// Whether the names of a line match the host that is looked up by this name, and the matcher steps
/// that this took. A hashed name takes none.
fn names_host_counted(names: &HostNames<'_>, name: &[u8]) -> (bool, u128)
    ensures value { result.0 ≡ names_host names.now name.now }
    ensures most { result.1 ≤ (length (names_text names.now) + 1) * (length name.now + 1) }
    ensures least { IsTrue result.0 → names_least names.now name.now ≤ result.1 }
{
    match names.list() {
        Some(list) => host_list_counted(list, name),
        None => (names_host(names, name), 0),
    }
}

/// Another host, where the names do not match.
fn name_mismatch(named: bool) -> Option<Mismatch>
    ensures { result ≡ host_row named }
{
    if named {
        None
    } else {
        Some(Mismatch::OtherHost)
    }
}

/// Why the line does not admit the key, leaving the certificate aside, and the matcher steps that
/// this took.
fn line_mismatch(entry: &KnownEntryView<'_>, matcher: &HostMatcher<'_>) -> (Option<Mismatch>, u128)
    ensures value { result.0 ≡ first_mismatch (host_line_rows entry.now matcher.now) }
    ensures most { result.1 ≤ (length (names_text entry.now.names) + 1) * host_width matcher.now.query }
    ensures least { result.0 ≡ None
        → names_least entry.now.names (looked_up matcher.now.query) ≤ result.1 }
{
    if !entry.has_blob(matcher.subject_blob()) {
        return (Some(Mismatch::OtherKey), 0);
    }
    let authority = marks_authority(entry.marker());
    if let Some(mismatch) = role_mismatch(authority, matcher.offer().is_certified()) {
        return (Some(mismatch), 0);
    }
    let (named, steps) = names_host_counted(&entry.names(), matcher.name());
    (name_mismatch(named), steps)
}

/// Why the certificate is not in force for the host: its kind, its validity period or its
/// principals.
fn force_mismatch(matcher: &HostMatcher<'_>, certificate: &CertView<'_>) -> Option<Mismatch>
    requires { certified (certificate_of certificate.now) ≡ matcher.now.offer }
    ensures { result ≡ first_mismatch
        (host_force_rows matcher.now.query (certificate_of certificate.now)) }
{
    let query = matcher.query();
    if let Some(mismatch) = period_mismatch(HOST_CERTIFICATE, query.now, certificate) {
        return Some(mismatch);
    }
    principal_mismatch(matcher.serves(), query.empty_principals, certificate)
}

/// Why the certificate does not serve for the host: it is not in force, or it has a critical
/// option.
fn certificate_mismatch(
    matcher: &HostMatcher<'_>,
    certificate: &CertView<'_>,
) -> Result<Option<Mismatch>, AllocError>
    requires { certified (certificate_of certificate.now) ≡ matcher.now.offer }
    ensures value { IfOk result
        (λ o. o ≡ host_certificate_mismatch matcher.now.query (certificate_of certificate.now)) }
    ensures spare { is_named (host_certificate_mismatch matcher.now.query (certificate_of certificate.now)) ≡ false
        → IsOk result }
{
    if let Some(mismatch) = force_mismatch(matcher, certificate) {
        return Ok(Some(mismatch));
    }
    unknown_mismatch(matcher.unknown())
}

fn offer_mismatch(matcher: &HostMatcher<'_>) -> Result<Option<Mismatch>, AllocError>
    ensures value { IfOk result
        (λ o. o ≡ host_offer_mismatch matcher.now.query matcher.now.offer) }
    ensures spare { is_named (host_offer_mismatch matcher.now.query matcher.now.offer) ≡ false
        → IsOk result }
{
    match matcher.offer() {
        Offer::Plain(_) => Ok(None),
        Offer::Certified(certificate) => certificate_mismatch(matcher, certificate),
    }
}

/// Why the offer is not admitted by any line: its certificate, or the size of an RSA key.
fn later_mismatch(matcher: &HostMatcher<'_>) -> Result<Option<Mismatch>, AllocError>
    ensures value { IfOk result
        (λ o. o ≡ or_later (host_offer_mismatch matcher.now.query matcher.now.offer)
        (size_row matcher.now.query.rsa_minimum matcher.now.offer)) }
    ensures spare { is_named (host_offer_mismatch matcher.now.query matcher.now.offer) ≡ false
        → IsOk result }
{
    if let Some(mismatch) = offer_mismatch(matcher)? {
        return Ok(Some(mismatch));
    }
    Ok(size_mismatch(matcher.query().rsa_minimum, matcher.offer()))
}

/// Why the entry does not admit the host's key: the first reason in the order of `G2` to `G12`,
/// `G19`, `G13`, `G20`; `None` where it admits. Also the matcher steps.
#[tactic(auto, unfolding(crate::specs::HostAdmission::host_mismatch))]
pub(crate) fn host_mismatch(
    entry: &KnownEntryView<'_>,
    matcher: &HostMatcher<'_>,
) -> Result<(Option<Mismatch>, u128), AllocError>
    ensures value { IfOk result (λ found. found.0 ≡ host_mismatch entry.now matcher.now) }
    ensures spare { is_named (host_mismatch entry.now matcher.now) ≡ false → IsOk result }
    ensures most { IfOk result
        (λ found. found.1 ≤ (length (names_text entry.now.names) + 1) * host_width matcher.now.query) }
    ensures least { IfOk result (λ found. found.0 ≡ None
        → names_least entry.now.names (looked_up matcher.now.query) ≤ found.1) }
{
    let (mismatch, steps) = line_mismatch(entry, matcher);
    if let Some(mismatch) = mismatch {
        return Ok((Some(mismatch), steps));
    }
    let later = later_mismatch(matcher)?;
    Ok((later, steps))
}
