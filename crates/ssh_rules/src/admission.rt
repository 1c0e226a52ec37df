//! Whether an entry of an authorized_keys file admits a login, and the first reason why it does
//! not.

ghost use Rattle.std.specs.Prelude.{◌≡◌, ◌≤◌, false, IfOk, IsOk, is_some, [], ◌∷◌, ◌&&◌, ◌||◌, Some};
ghost use Rattle.ssh_entries.specs.declared.auth_line.AuthLine.{AuthLine};
ghost use Rattle.ssh_entries.specs.LineView.{line_seen};
ghost use Rattle.ssh_rules.specs.Spare.{needs_memory, has_escaped, is_about, is_escaped, is_in_role, is_named};
ghost use Rattle.ssh_rules.specs.Turns.{login_most, source_most};
ghost use Rattle.ssh_rules.specs.Verdict.{listed_reason, login_verdict};
ghost use Rattle.ssh_options.specs.declared.option.ValueName.TheVariants.{Command, ExpiryTime, From, Principals};
ghost use Rattle.ssh_options.specs.Settings.{setting, settings};
ghost use Rattle.ssh_rules.specs.Admission.{is_authority, certificate_mismatch, is_expired, is_past, is_past_time, line_source, login_mismatch, offer_mismatch};
ghost use Rattle.std.specs.List.{list_any};
ghost use Rattle.ssh_options.specs.OptionsInPlace.{has_quote};
ghost use Rattle.ssh_rules.specs.CertificateForce.{force_rows, user_certificate};
ghost use Rattle.ssh_rules.specs.CertificateRules.{serves};
ghost use Rattle.ssh_rules.specs.declared.reason.Reason.TheVariants.{Expired, SourceBad, SourceRefused};
ghost use Rattle.ssh_rules.specs.Mismatches.{first_mismatch, permit_row, role_row, when};
ghost use Rattle.ssh_rules.specs.Judged.{judged_of};
ghost use Rattle.ssh_offers.specs.Offer.{is_certified};
ghost use Rattle.ssh_offers.specs.Query.{login_of};
ghost use Rattle.ssh_offers.specs.ClaimViews.{claim_of};

use crate::certificate::{CheckedCertificate, has_listed};
use crate::login_matcher::LoginMatcher;
use crate::options::ValueText;
use crate::reason::{
    Mismatch, Reason, period_mismatch, permit_mismatch, principal_mismatch, role_mismatch,
    size_mismatch,
};
use ssh_entries::{AuthEntryView, AuthLineView};
use ssh_offers::{LoginClaimView, LoginQuery};
use ssh_options::{LineOptions, SettingViews, ValueView, expiry};
use ssh_patterns::{Permit, source_list_counted};
use std::alloc::{AllocError, Global};
use std::marker::Model;

/// The verdict of a line on an offer, with the entry of the line if it admits.
#[derive(Debug, Drop)]
pub enum LineVerdict<E> {
    /// Its entry admits the offer.
    Admits(E),
    /// It does not, for a listed reason. Without one it is a blank line, a comment, a revocation,
    /// or about another key or another host.
    Skips(Option<Reason>),
}

/// The reason that is listed for a mismatch. An entry about another key (`G2`) or another host
/// (`G5`) has none, whatever else it holds: most lines of a file are of this kind.
pub fn listed_reason(mismatch: Mismatch) -> Option<Reason>
    ensures { result ≡ listed_reason mismatch }
{
    match mismatch {
        Mismatch::OtherKey | Mismatch::OtherHost => None,
        Mismatch::Listed(why) => Some(why),
    }
}

fn entry_verdict<'a>(
    alloc: Global,
    entry: AuthEntryView<'a>,
    matcher: &LoginMatcher<'_>,
) -> Result<(LineVerdict<AuthEntryView<'a>>, u128), AllocError>
    ensures value { IfOk result
        (λ checked_certificate. checked_certificate.0 ≡ login_verdict matcher.now (AuthLine.Entry entry.entry)) }
    ensures spare { needs_memory matcher.now (AuthLine.Entry entry.entry) ≡ false
        → IsOk result }
    ensures most { IfOk result
        (λ checked_certificate. checked_certificate.1 ≤ login_most matcher.now (AuthLine.Entry entry.entry)) }
{
    let (mismatch, steps) = login_mismatch(alloc, &entry, matcher)?;
    match mismatch {
        None => Ok((LineVerdict::Admits(entry), steps)),
        Some(mismatch) => Ok((LineVerdict::Skips(listed_reason(mismatch)), steps)),
    }
}

/// `login_verdict`, and the matcher steps, as `matches_counted` counts them: those of the line's
/// list of sources, as `source_list_counted` counts them, where the line has the key, the right
/// role and is not expired, and otherwise none. A certificate's list of sources takes none, and its
/// principals are looked up and not matched.
pub fn login_verdict_counted<'a>(
    alloc: Global,
    line: AuthLineView<'a>,
    matcher: &LoginMatcher<'_>,
) -> Result<(LineVerdict<AuthEntryView<'a>>, u128), AllocError>
    ensures value { IfOk result
        (λ checked_certificate. checked_certificate.0 ≡ login_verdict matcher.now (line_seen line.entry)) }
    // Memory is allocated only for a value of the line that has a quote, and sharing the name of a
    // critical option may fail. All else is answered without memory, as is a line about another key
    // or of another role.
    ensures spare { needs_memory matcher.now (line_seen line.entry) ≡ false
        → IsOk result }
    ensures most { IfOk result (λ checked_certificate. checked_certificate.1 ≤ login_most matcher.now (line_seen line.entry)) }
{
    match line {
        AuthLineView::Blank | AuthLineView::Comment => Ok((LineVerdict::Skips(None), 0)),
        AuthLineView::Unreadable(why) => {
            Ok((LineVerdict::Skips(Some(Reason::Unreadable(why))), 0))
        }
        AuthLineView::Entry(entry) => entry_verdict(alloc, entry, matcher),
    }
}

/// The verdict of a line on a login. It admits it, or has the first reason in the order of `G1` to
/// `G12`, `G19`, `G13` to `G18`, `G20`. It has no reason where it is blank, a comment or about
/// another key.
pub fn login_verdict<'a>(
    alloc: Global,
    line: AuthLineView<'a>,
    matcher: &LoginMatcher<'_>,
) -> Result<LineVerdict<AuthEntryView<'a>>, AllocError>
    ensures value { IfOk result
        (λ verdict. verdict ≡ login_verdict matcher.now (line_seen line.entry)) }
    // Memory is allocated only for a value of the line that has a quote, and sharing the name of a
    // critical option may fail. All else is answered without memory, as is a line about another key
    // or of another role.
    ensures spare { needs_memory matcher.now (line_seen line.entry) ≡ false
        → IsOk result }
{
    let (verdict, _) = login_verdict_counted(alloc, line, matcher)?;
    Ok(verdict)
}

/// An entry, with the options that a login asks for found once. Contracts see the entry.
#[derive(Drop)]
pub(crate) struct IndexedEntry<'a> {
    entry: &'a AuthEntryView<'a>,
    options: LineOptions<'a>,
}

impl<'a> Model for IndexedEntry<'a> {
    ghost use Rattle.std.specs.Prelude.{◌≡◌, is_some};
    ghost use Rattle.ssh_entries.specs.AuthEntry.{AuthEntry};
    ghost use Rattle.ssh_options.specs.declared.option.ValueName.TheVariants.{
      Command,
      ExpiryTime,
      From,
      Principals,
    };
    ghost use Rattle.ssh_options.specs.Settings.{setting};
    ghost use Rattle.ssh_rules.specs.Admission.{is_authority};

    ghost Value = { AuthEntry };

    ghost view = { λ s. s.entry.now };

    ghost invariant = { λ s. (s.options.authority ≡ is_authority s.entry.now)
        × (s.options.from ≡ setting From s.entry.now.options)
        × (s.options.principals ≡ setting Principals s.entry.now.options)
        × (s.options.command ≡ setting Command s.entry.now.options)
        × (s.options.expires ≡ is_some (setting ExpiryTime s.entry.now.options)) };
}

impl<'a> IndexedEntry<'a> {
    /// Finds the options in one walk.
    pub(crate) fn of(entry: &'a AuthEntryView<'a>) -> IndexedEntry<'a>
        ensures { result ≡ entry.now }
    {
        IndexedEntry {
            entry,
            options: LineOptions::of(entry.options()),
        }
    }

    /// The options that a login asks for.
    pub(crate) fn options(&self) -> &LineOptions<'a>
        ensures authority { result.now.authority ≡ is_authority self.now }
        ensures from { result.now.from ≡ setting From self.now.options }
        ensures principals { result.now.principals ≡ setting Principals self.now.options }
        ensures command { result.now.command ≡ setting Command self.now.options }
        ensures expires { result.now.expires ≡ is_some (setting ExpiryTime self.now.options) }
    {
        &self.options
    }

    /// The texts of the expiry times, in the order of the line.
    pub(crate) fn expiry_texts(&self) -> SettingViews<'a>
        ensures { result ≡ settings ExpiryTime self.now.options }
    {
        self.entry.expiry_texts()
    }
}

/// The kind number of a user's certificate (PROTOCOL.certkeys).
const USER_CERTIFICATE: u32 = 1;

/// Whether the moment, in seconds since 1970-01-01 in UTC, is past. A text without a moment counts
/// as past, so that an unreadable time admits nobody.
fn is_past(moment: Option<i64>, now: u64) -> bool
    ensures { result ≡ is_past now moment }
{
    match moment {
        Some(moment) => match u64::try_from(moment) {
            Ok(moment) => moment < now,
            // A moment before 1970 is past, because `now` counts from 1970.
            Err(_) => true,
        },
        None => true,
    }
}

/// Whether the moment of an expiry time is past, in the zone of the query.
fn is_past_time(
    alloc: Global,
    value: &ValueView<'_>,
    claim: &LoginClaimView<'_>,
) -> Result<bool, AllocError>
    ensures value { IfOk result (λ past. past ≡ is_past_time (claim_of claim.now).query value.now) }
    ensures spare { has_quote value.now ≡ false → IsOk result }
{
    let text = ValueText::new(alloc, value)?;
    let moment = expiry(alloc, text.as_slice(), claim.query.zone)?;
    Ok(is_past(moment, claim.query.now))
}

/// Whether an expiry time of the line is past. Of several times the earliest counts.
fn is_expired(
    alloc: Global,
    entry: &IndexedEntry<'_>,
    claim: &LoginClaimView<'_>,
) -> Result<bool, AllocError>
    ensures value { IfOk result (λ expired.
        expired ≡ is_expired (claim_of claim.now).query (settings ExpiryTime entry.now.options)) }
    ensures spare { list_any has_quote (settings ExpiryTime entry.now.options) ≡ false → IsOk result }
{
    if !entry.options().expires {
        return Ok(false);
    }
    for value in entry.expiry_texts() {
        if is_past_time(alloc, &value, claim)? {
            return Ok(true);
        }
    }
    Ok(false)
}

/// Whether the line's list of sources permits the client, and the matcher steps that this took.
/// Without a list every client is permitted.
fn line_source(
    alloc: Global,
    entry: &IndexedEntry<'_>,
    claim: &LoginClaimView<'_>,
) -> Result<(Permit, u128), AllocError>
    ensures value { IfOk result
        (λ found. found.0 ≡ line_source entry.now (claim_of claim.now).query) }
    ensures spare { is_escaped (setting From entry.now.options) ≡ false → IsOk result }
    ensures most { IfOk result (λ found.
        found.1 ≤ source_most (setting From entry.now.options) (claim_of claim.now).query) }
{
    let Some(value) = &entry.options().from else {
        return Ok((Permit::Yes, 0));
    };
    let list = ValueText::new(alloc, value)?;
    Ok(source_list_counted(list.as_slice(), claim.query.host, claim.query.address))
}

/// Why the line's options do not admit the login, leaving the certificate aside, and the matcher
/// steps that this took.
fn options_mismatch(
    alloc: Global,
    entry: &IndexedEntry<'_>,
    claim: &LoginClaimView<'_>,
) -> Result<(Option<Mismatch>, u128), AllocError>
    ensures value { IfOk result (λ found. found.0 ≡ first_mismatch (role_row (is_authority entry.now)
        (is_certified (claim_of claim.now).offer)
        ∷ when (is_expired (claim_of claim.now).query (settings ExpiryTime entry.now.options)) Expired
        ∷ permit_row SourceBad SourceRefused (line_source entry.now (claim_of claim.now).query) ∷ [])) }
    ensures spare { (is_in_role (is_authority entry.now) (is_certified (claim_of claim.now).offer)
        && has_escaped entry.now) ≡ false → IsOk result }
    ensures most { IfOk result (λ found.
        found.1 ≤ source_most (setting From entry.now.options) (claim_of claim.now).query) }
{
    if let Some(mismatch) = role_mismatch(entry.options().authority, claim.offer.is_certified()) {
        return Ok((Some(mismatch), 0));
    }
    if is_expired(alloc, entry, claim)? {
        return Ok((Some(Mismatch::Listed(Reason::Expired)), 0));
    }
    let (source, steps) = line_source(alloc, entry, claim)?;
    let mismatch = permit_mismatch(Reason::SourceBad, Reason::SourceRefused, source);
    Ok((mismatch, steps))
}

/// Whether a name of the line's `principals` list is a principal of the certificate.
fn has_listed_principal(
    alloc: Global,
    value: &ValueView<'_>,
    checked_certificate: &CheckedCertificate<'_>,
) -> Result<bool, AllocError>
    ensures value { IfOk result (λ served.
        served ≡ serves (Some value.now) checked_certificate.now.user checked_certificate.now.certificate) }
    ensures spare { has_quote value.now ≡ false → IsOk result }
{
    let list = ValueText::new(alloc, value)?;
    Ok(has_listed(checked_certificate.principals(), list.as_slice()))
}

/// Whether the certificate is for a principal that is asked for: one of the line's list, or the
/// user where the line has no list.
fn has_served_principal(
    alloc: Global,
    entry: &IndexedEntry<'_>,
    checked_certificate: &CheckedCertificate<'_>,
) -> Result<bool, AllocError>
    ensures value { IfOk result (λ served.
        served ≡ serves (setting Principals entry.now.options) checked_certificate.now.user
        checked_certificate.now.certificate) }
    ensures spare { is_escaped (setting Principals entry.now.options) ≡ false → IsOk result }
{
    match &entry.options().principals {
        None => Ok(checked_certificate.serves_user()),
        Some(value) => has_listed_principal(alloc, value, checked_certificate),
    }
}

/// Why the certificate is not in force: its kind, its validity period or its principals.
fn force_mismatch(
    alloc: Global,
    entry: &IndexedEntry<'_>,
    query: &LoginQuery<'_>,
    checked_certificate: &CheckedCertificate<'_>,
) -> Result<Option<Mismatch>, AllocError>
    ensures value { IfOk result (λ o.
        o ≡ first_mismatch (force_rows user_certificate query.entry.now.now query.entry.now.empty_principals
        (setting Principals entry.now.options) checked_certificate.now.user checked_certificate.now.certificate)) }
    ensures spare { is_escaped (setting Principals entry.now.options) ≡ false → IsOk result }
{
    if let Some(mismatch) = period_mismatch(
        USER_CERTIFICATE,
        query.now,
        checked_certificate.certificate(),
    ) {
        return Ok(Some(mismatch));
    }
    let serves = has_served_principal(alloc, entry, checked_certificate)?;
    Ok(principal_mismatch(
        serves,
        query.empty_principals,
        checked_certificate.certificate(),
    ))
}

/// Why the certificate does not serve for a login by this line: it is not in force, or a critical
/// option is not met.
fn certificate_mismatch(
    alloc: Global,
    entry: &IndexedEntry<'_>,
    matcher: &LoginMatcher<'_>,
    checked_certificate: &CheckedCertificate<'_>,
) -> Result<Option<Mismatch>, AllocError>
    requires { judged_of matcher.now ≡ Some checked_certificate.now }
    ensures value { IfOk result (λ o.
        o ≡ certificate_mismatch entry.now matcher.now checked_certificate.now.certificate) }
    ensures spare { is_escaped (setting Principals entry.now.options) ≡ false
        → is_named (certificate_mismatch entry.now matcher.now checked_certificate.now.certificate) ≡ false
        → IsOk result }
{
    if let Some(mismatch) = force_mismatch(
        alloc,
        entry,
        &matcher.claim().query,
        checked_certificate,
    )? {
        return Ok(Some(mismatch));
    }
    checked_certificate.critical_mismatch(entry)
}

fn offer_mismatch(
    alloc: Global,
    entry: &IndexedEntry<'_>,
    matcher: &LoginMatcher<'_>,
) -> Result<Option<Mismatch>, AllocError>
    ensures value { IfOk result (λ o. o ≡ offer_mismatch entry.now matcher.now matcher.now.offer) }
    ensures spare { is_escaped (setting Principals entry.now.options) ≡ false
        → is_named (offer_mismatch entry.now matcher.now matcher.now.offer) ≡ false
        → IsOk result }
{
    match matcher.checked_certificate() {
        None => Ok(None),
        Some(checked_certificate) => certificate_mismatch(
            alloc,
            entry,
            matcher,
            checked_certificate,
        ),
    }
}

/// Why the entry does not admit the login: the first reason in the order of `G2` to `G12`, `G19`,
/// `G13` to `G18`, `G20`; `None` where it admits. Also the matcher steps.
#[tactic(auto, unfolding(crate::specs::Admission::login_mismatch))]
pub(crate) fn login_mismatch(
    alloc: Global,
    entry: &AuthEntryView<'_>,
    matcher: &LoginMatcher<'_>,
) -> Result<(Option<Mismatch>, u128), AllocError>
    ensures value { IfOk result (λ found. found.0 ≡ login_mismatch entry.now matcher.now) }
    ensures spare { (is_about entry.now matcher.now
        && (has_escaped entry.now || is_named (login_mismatch entry.now matcher.now))) ≡ false
        → IsOk result }
    ensures most { IfOk result (λ found.
        found.1 ≤ source_most (setting From entry.now.options) matcher.now.query) }
{
    let claim = matcher.claim();
    if !entry.has_blob(claim.subject_blob()) {
        return Ok((Some(Mismatch::OtherKey), 0));
    }
    let entry = IndexedEntry::of(entry);
    let (mismatch, steps) = options_mismatch(alloc, &entry, claim)?;
    if let Some(mismatch) = mismatch {
        return Ok((Some(mismatch), steps));
    }
    if let Some(mismatch) = offer_mismatch(alloc, &entry, matcher)? {
        return Ok((Some(mismatch), steps));
    }
    let mismatch = size_mismatch(claim.query.rsa_minimum, &claim.offer);
    Ok((mismatch, steps))
}
