//! What was compared where a line was passed over: the values of the line or of the certificate,
//! and those of the query.

ghost use Rattle.std.specs.Prelude.{◌≡◌, ◌++◌, OnOk, codes, pos, take, option_copied, option_map, List, ℕ, Some};
ghost use Rattle.ssh_certs.specs.CertificateOf.{certificate_of};
ghost use Rattle.ssh_certs.specs.Left.{principals_left};
ghost use Rattle.ssh_entries.specs.AuthGrammar.{auth_line};
ghost use Rattle.ssh_offers.specs.ClaimViews.{host_claim_of};
ghost use Rattle.ssh_offers.specs.OfferView.{offer_of};
ghost use Rattle.ssh_offers.specs.Query.{login_of};
ghost use Rattle.ssh_rules.specs.declared.reason.Reason.{Reason as ReasonValue};
ghost use Rattle.ssh_print.specs.Comparisons.{certificate_source_compared, cut_mark, end_compared, entry_compared, facts_compared, first_principals, held_value, host_compared, login_compared, minimum_value, moment_or_dash, moment_value, offered_command, offered_principals, source_compared, start_compared, value_or_dash, value_text, wanted_principals};

use crate::dates::{moment_text, push_moment};
use crate::escaped::push_json_text;
use crate::text::push_number;
use sha2::{Digest, Sha256};
use ssh_certs::{CertificateOption, Principals};
use ssh_entries::{AuthLineView, KeyBuffer, read_auth_view};
use ssh_findings::{Facts, held_blob, known_held_blob};
use ssh_keys::digest_text;
use ssh_offers::{HostClaimView, LoginClaimView, LoginQuery, Offer};
use ssh_rules::{LoginMatcher, Reason};
use ssh_text::Bytes;
use std::alloc::{AllocError, Global};

/// The most bytes of a value that are printed.
const SHOWN: usize = 256;

/// The most principals of a certificate that are printed.
const LISTED: usize = 16;

/// The front of a value, as much as is printed.
fn shown(text: &[u8]) -> &[u8]
    ensures { result.now ≡ take 256 text.now }
{
    if text.len() > SHOWN {
        &text[..SHOWN]
    } else {
        text
    }
}

fn cut_mark(text: &[u8]) -> &'static [u8]
    ensures { result.now ≡ cut_mark text.now }
{
    if text.len() > SHOWN { b".." } else { b"" }
}

/// Appends a word and any bytes, between quotes.
#[tactic(auto, unfolding(crate::specs::Comparisons::value_text))]
pub(crate) fn push_value(out: &mut Vec<u8>, word: &[u8], text: &[u8]) -> Result<(), AllocError>
    ensures { OnOk result (out.new.items ≡ out.old.items ++ value_text word.now text.now) }
{
    out.extend_from_slice(b"; ")?;
    out.extend_from_slice(word)?;
    out.push(b' ')?;
    push_json_text(out, shown(text))?;
    out.extend_from_slice(cut_mark(text))?;
    Ok(())
}

fn push_value_or_dash(out: &mut Vec<u8>, word: &[u8], text: Option<&[u8]>) -> Result<(), AllocError>
    ensures { OnOk result (out.new.items
        ≡ out.old.items ++ value_or_dash word.now (option_copied text.entry)) }
{
    match text {
        Some(text) => push_value(out, word, text),
        None => {
            out.extend_from_slice(b"; ")?;
            out.extend_from_slice(word)?;
            out.extend_from_slice(b" -")?;
            Ok(())
        }
    }
}

/// The bytes of a value, if there is one.
fn bytes_of(text: &Option<Bytes>) -> Option<&[u8]>
    ensures { option_copied result ≡ text.now }
{
    match text {
        Some(text) => Some(text.as_slice()),
        None => None,
    }
}

/// Appends a word and a moment that is not before 1970.
#[tactic(auto, unfolding(crate::specs::Comparisons::moment_value))]
fn push_moment_value(
    alloc: Global,
    out: &mut Vec<u8>,
    word: &[u8],
    moment: u64,
) -> Result<(), AllocError>
    ensures { OnOk result (out.new.items ≡ out.old.items ++ moment_value word.now (pos moment)) }
{
    out.extend_from_slice(b"; ")?;
    out.extend_from_slice(word)?;
    out.push(b' ')?;
    push_moment(alloc, out, moment)?;
    Ok(())
}

/// Appends the expiry time of a line.
#[tactic(auto, unfolding(crate::specs::Comparisons::moment_value))]
fn push_expiry(
    alloc: Global,
    out: &mut Vec<u8>,
    word: &[u8],
    moment: Option<i64>,
) -> Result<(), AllocError>
    ensures { OnOk result (out.new.items ≡ out.old.items ++ moment_or_dash word.now moment) }
{
    out.extend_from_slice(b"; ")?;
    out.extend_from_slice(word)?;
    out.push(b' ')?;
    match moment {
        Some(moment) => {
            let text = moment_text(alloc, moment)?;
            out.extend_from_slice(&text)?;
            Ok(())
        }
        None => {
            out.push(b'-')?;
            Ok(())
        }
    }
}

fn push_held_key(
    alloc: Global,
    out: &mut Vec<u8>,
    held: &[u8],
    wanted: &[u8],
) -> Result<(), AllocError>
    ensures { OnOk result (out.new.items
        ≡ out.old.items ++ held_value (Some held.now) wanted.now) }
{
    if held == wanted {
        out.extend_from_slice(b"; it holds this key")?;
    } else {
        let digest = Sha256::digest(held);
        let text = digest_text(alloc, &digest)?;
        out.extend_from_slice(b"; it holds SHA256:")?;
        out.extend_from_slice(&text)?;
    }
    Ok(())
}

/// Appends whose key a line holds that cannot be read, if a key was recovered from it.
fn push_held(
    alloc: Global,
    out: &mut Vec<u8>,
    held: &Option<Vec<u8>>,
    wanted: &[u8],
) -> Result<(), AllocError>
    ensures { OnOk result (out.new.items
        ≡ out.old.items ++ held_value (option_map (λ v. v.items) held.now) wanted.now) }
{
    match held {
        None => Ok(()),
        Some(held) => push_held_key(alloc, out, held, wanted),
    }
}

/// Appends the first principals, and a mark if there are more.
fn push_first_principals(out: &mut Vec<u8>, principals: Principals<'_>) -> Result<(), AllocError>
    ensures { OnOk result (out.new.items
        ≡ out.old.items ++ first_principals 16 (principals_left principals.entry)) }
{
    let mut left = LISTED;
    for name in principals {
        if left == 0 {
            out.extend_from_slice(b"; ..")?;
            return Ok(());
        }
        push_value(out, b"principal", name)?;
        left -= 1;
    }
    Ok(())
}

fn push_principals(out: &mut Vec<u8>, offer: &Offer<'_>) -> Result<(), AllocError>
    ensures { OnOk result (out.new.items
        ≡ out.old.items ++ offered_principals (offer_of offer.now)) }
{
    match offer {
        Offer::Plain(_) => Ok(()),
        Offer::Certified(certificate) => { push_first_principals(out, certificate.principals()) }
    }
}

/// Appends an end of a certificate's validity, and the moment that is asked about.
fn push_validity(
    alloc: Global,
    out: &mut Vec<u8>,
    word: &[u8],
    end: u64,
    now: u64,
) -> Result<(), AllocError>
    ensures { OnOk result (out.new.items ≡ out.old.items
        ++ (moment_value word.now (pos end) ++ moment_value (codes "now") (pos now))) }
{
    push_moment_value(alloc, out, word, end)?;
    push_moment_value(alloc, out, b"now", now)?;
    Ok(())
}

fn push_start(
    alloc: Global,
    out: &mut Vec<u8>,
    now: u64,
    offer: &Offer<'_>,
) -> Result<(), AllocError>
    ensures { OnOk result (out.new.items
        ≡ out.old.items ++ start_compared now (offer_of offer.now)) }
{
    match offer {
        Offer::Plain(_) => Ok(()),
        Offer::Certified(certificate) => {
            push_validity(alloc, out, b"start", certificate.after(), now)
        }
    }
}

fn push_end(alloc: Global, out: &mut Vec<u8>, now: u64, offer: &Offer<'_>) -> Result<(), AllocError>
    ensures { OnOk result (out.new.items
        ≡ out.old.items ++ end_compared now (offer_of offer.now)) }
{
    match offer {
        Offer::Plain(_) => Ok(()),
        Offer::Certified(certificate) => {
            push_validity(alloc, out, b"end", certificate.before(), now)
        }
    }
}

/// Appends a list of sources, and the client's address.
fn push_address_of(out: &mut Vec<u8>, list: Option<&[u8]>, address: &[u8]) -> Result<(), AllocError>
    ensures { OnOk result (out.new.items ≡ out.old.items
        ++ (value_or_dash (codes "source-address") (option_copied list.entry)
        ++ value_text (codes "address") address.now)) }
{
    push_value_or_dash(out, b"source-address", list)?;
    push_value(out, b"address", address)?;
    Ok(())
}

/// Appends a certificate's list of sources, and the client's address.
fn push_certificate_source(
    out: &mut Vec<u8>,
    address: &[u8],
    offer: &Offer<'_>,
) -> Result<(), AllocError>
    ensures { OnOk result (out.new.items
        ≡ out.old.items ++ certificate_source_compared address.now (offer_of offer.now)) }
{
    match offer {
        Offer::Plain(_) => Ok(()),
        Offer::Certified(certificate) => {
            let list = certificate.text_of(CertificateOption::SourceAddress);
            push_address_of(out, list, address)
        }
    }
}

/// Appends the command that a certificate forces.
fn push_command(out: &mut Vec<u8>, offer: &Offer<'_>) -> Result<(), AllocError>
    ensures { OnOk result (out.new.items ≡ out.old.items ++ offered_command (offer_of offer.now)) }
{
    match offer {
        Offer::Plain(_) => Ok(()),
        Offer::Certified(certificate) => {
            let command = certificate.text_of(CertificateOption::ForceCommand);
            push_value_or_dash(out, b"force-command", command)
        }
    }
}

fn push_minimum(out: &mut Vec<u8>, bits: u32) -> Result<(), AllocError>
    ensures { OnOk result (out.new.items ≡ out.old.items ++ minimum_value bits) }
{
    out.extend_from_slice(b"; at least ")?;
    push_number(out, bits as u64)?;
    out.extend_from_slice(b" bits")?;
    Ok(())
}

/// Appends a line's list of sources, and the client.
fn push_source(
    out: &mut Vec<u8>,
    list: Option<&[u8]>,
    query: &LoginQuery<'_>,
) -> Result<(), AllocError>
    ensures { OnOk result (out.new.items ≡ out.old.items
        ++ source_compared (option_copied list.entry) (login_of query.entry.now)) }
{
    push_value_or_dash(out, b"from", list)?;
    push_value(out, b"address", query.address)?;
    push_value_or_dash(out, b"host", query.host)
}

/// Appends the principals that a line asks for, or the user where it lists none.
fn push_wanted(out: &mut Vec<u8>, list: Option<&[u8]>, user: &[u8]) -> Result<(), AllocError>
    ensures { OnOk result (out.new.items
        ≡ out.old.items ++ wanted_principals (option_copied list.entry) user.now) }
{
    match list {
        Some(list) => push_value(out, b"principals", list),
        None => push_value(out, b"user", user),
    }
}

/// Appends what was compared of an entry.
fn push_facts(
    alloc: Global,
    out: &mut Vec<u8>,
    matcher: &LoginMatcher<'_>,
    why: &Reason,
    facts: &Facts,
) -> Result<(), AllocError>
    ensures { OnOk result (out.new.items
        ≡ out.old.items ++ facts_compared matcher.now why.now facts.now) }
{
    let claim = matcher.claim();
    match why {
        Reason::Expired => {
            push_expiry(alloc, out, b"expires", facts.until)?;
            push_moment_value(alloc, out, b"now", claim.query.now)
        }
        Reason::SourceBad | Reason::SourceRefused => {
            push_source(out, bytes_of(&facts.from), &claim.query)
        }
        Reason::PrincipalRefused => {
            push_wanted(out, bytes_of(&facts.principals), claim.query.user)?;
            push_principals(out, &claim.offer)
        }
        Reason::CommandConflict => {
            push_value_or_dash(out, b"command", bytes_of(&facts.rights.command))?;
            push_command(out, &claim.offer)
        }
        _ => Ok(()),
    }
}

/// Appends what was compared of the entry on a line.
fn push_entry(
    alloc: Global,
    out: &mut Vec<u8>,
    matcher: &LoginMatcher<'_>,
    why: &Reason,
    line: &[u8],
) -> Result<(), AllocError>
    ensures { OnOk result (out.new.items
        ≡ out.old.items ++ entry_compared matcher.now why.now (auth_line line.now)) }
{
    let mut buffer = KeyBuffer::new(alloc)?;
    match read_auth_view(line, &mut buffer) {
        AuthLineView::Entry(entry) => {
            let facts = Facts::read(alloc, matcher.claim().query.zone, &entry)?;
            push_facts(alloc, out, matcher, why, &facts)
        }
        _ => Ok(()),
    }
}

/// What a login or a host's key compares with a line.
pub(crate) trait Comparing {
    /// What was compared for the reason why a line was passed over.
    ghost compared: { Self → ReasonValue → List ℕ → List ℕ };

    /// Appends it.
    fn push_compared(
        &self,
        alloc: Global,
        out: &mut Vec<u8>,
        why: &Reason,
        line: &[u8],
    ) -> Result<(), AllocError>
        ensures { OnOk result (out.new.items
            ≡ out.old.items ++ compared self.entry.now why.now line.now) };
}

impl Comparing for LoginMatcher<'_> {
    ghost compared = { login_compared };

    #[tactic(auto, unfolding(crate::specs::Comparisons::login_compared))]
    fn push_compared(
        &self,
        alloc: Global,
        out: &mut Vec<u8>,
        why: &Reason,
        line: &[u8],
    ) -> Result<(), AllocError> {
        let claim = self.claim();
        match why {
            Reason::Unreadable(_) => {
                let held = held_blob(alloc, line)?;
                push_held(alloc, out, &held, claim.subject_blob())
            }
            Reason::NotYetValid => push_start(alloc, out, claim.query.now, &claim.offer),
            Reason::NoLongerValid => push_end(alloc, out, claim.query.now, &claim.offer),
            Reason::CertSourceBad | Reason::CertSourceRefused => {
                push_certificate_source(out, claim.query.address, &claim.offer)
            }
            Reason::RsaTooSmall => push_minimum(out, claim.query.rsa_minimum),
            Reason::Expired
            | Reason::SourceBad
            | Reason::SourceRefused
            | Reason::PrincipalRefused
            | Reason::CommandConflict => push_entry(alloc, out, self, why, line),
            _ => Ok(()),
        }
    }
}

impl Comparing for HostClaimView<'_> {
    ghost compared = { λ x. host_compared (host_claim_of x) };

    #[tactic(auto, unfolding(crate::specs::Comparisons::host_compared))]
    fn push_compared(
        &self,
        alloc: Global,
        out: &mut Vec<u8>,
        why: &Reason,
        line: &[u8],
    ) -> Result<(), AllocError> {
        match why {
            Reason::Unreadable(_) => {
                let held = known_held_blob(alloc, line)?;
                push_held(alloc, out, &held, self.subject_blob())
            }
            Reason::NotYetValid => push_start(alloc, out, self.query.now, &self.offer),
            Reason::NoLongerValid => push_end(alloc, out, self.query.now, &self.offer),
            Reason::PrincipalRefused => {
                push_value(out, b"host", self.query.host)?;
                push_principals(out, &self.offer)
            }
            Reason::RsaTooSmall => push_minimum(out, self.query.rsa_minimum),
            _ => Ok(()),
        }
    }
}
