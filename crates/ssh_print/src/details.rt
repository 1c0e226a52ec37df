//! What is printed after the first lines of an answer: the reasons with what was compared, what a
//! security key has to show, and a line that has the host with another key, or the key for another host.

ghost use Rattle.std.specs.Prelude.{◌≡◌, ◌++◌, OnOk, IfOk, option_map};
ghost use Rattle.ssh_entries.specs.KnownSeen.{known_seen};
ghost use Rattle.ssh_offers.specs.ClaimViews.{host_claim_of};
ghost use Rattle.ssh_print.specs.Details.{changed_text, first_mismatch, host_details, is_mismatch, is_unmarked, login_details, mismatch_at, mismatch_front, mismatch_line, mismatch_text, mismatch_value, mismatch_words, other_text};
ghost use Rattle.ssh_text.specs.Text.{lines_of, numbered};

use crate::comparison::push_value;
use crate::otherwise::INDENT;
use crate::passed::{line_from, push_passed_text};
use crate::shown_needs::shown_needs;
use crate::text::push_number;
use sha2::{Digest, Sha256};
use ssh_entries::{
    KeyBuffer, KnownEntryView, KnownLineView, Marker, lookup_name, names_host, read_known_view,
};
use ssh_keys::{KeyKind, digest_text};
use ssh_offers::{HostClaimView, plain_blob};
use ssh_rules::LoginMatcher;
use ssh_text::Lines;
use ssh_trust::{Cause, Decision};
use std::alloc::{AllocError, Global};

fn is_unmarked(marker: Marker) -> bool
    ensures { result ≡ is_unmarked marker }
{
    match marker {
        Marker::Unmarked => true,
        Marker::CertAuthority => false,
    }
}

/// What a line has that does not go with the question, whose other half it has.
#[derive(Clone, Copy, Debug, PartialEq, Eq)]
pub(crate) enum Mismatch {
    /// The host is named with another key of this type.
    OtherKey,
    /// The key stands for other hosts, or for another port.
    OtherNames,
}

/// Whether an entry has the host that is looked up by this name, or this key, but not both.
fn is_mismatch(
    which: Mismatch,
    kind: KeyKind,
    blob: &[u8],
    name: &[u8],
    entry: &KnownEntryView<'_>,
) -> bool
    ensures { result ≡ is_mismatch which kind blob.now name.now entry.now }
{
    match which {
        Mismatch::OtherKey => {
            is_unmarked(entry.marker())
                && entry.key().kind().name() == kind.name()
                && entry.blob() != blob
                && names_host(&entry.names(), name)
        }
        Mismatch::OtherNames => {
            is_unmarked(entry.marker()) && entry.blob() == blob && !names_host(&entry.names(), name)
        }
    }
}

/// The blob of the other key, or the other names.
fn other_text<'a>(which: Mismatch, entry: &KnownEntryView<'a>) -> &'a [u8]
    ensures { result.now ≡ other_text which entry.now }
{
    match which {
        Mismatch::OtherKey => entry.blob(),
        Mismatch::OtherNames => entry.names().text(),
    }
}

/// The same of a line, if it is so.
fn mismatch_at(
    alloc: Global,
    which: Mismatch,
    kind: KeyKind,
    blob: &[u8],
    name: &[u8],
    line: KnownLineView<'_>,
) -> Result<Option<Vec<u8>>, AllocError>
    ensures { IfOk result (λ other. option_map (λ v. v.items) other
        ≡ mismatch_at which kind blob.now name.now (known_seen line.entry)) }
{
    match line {
        KnownLineView::Entry(entry) => {
            if is_mismatch(which, kind, blob, name, &entry) {
                let other = Vec::from_slice(alloc, other_text(which, &entry))?;
                Ok(Some(other))
            } else {
                Ok(None)
            }
        }
        _ => Ok(None),
    }
}

#[tactic(auto, unfolding(crate::specs::Details::mismatch_front))]
fn mismatch_front(which: Mismatch) -> &'static [u8]
    ensures { result.now ≡ mismatch_front which }
{
    match which {
        Mismatch::OtherKey => b" names the host with another key of this type, SHA256:",
        Mismatch::OtherNames => b" has this key, but not for this host and port",
    }
}

/// Appends the fingerprint of the other key, or the other names.
fn push_mismatch_value(
    alloc: Global,
    out: &mut Vec<u8>,
    which: Mismatch,
    text: &[u8],
) -> Result<(), AllocError>
    ensures { OnOk result (out.new.items ≡ out.old.items ++ mismatch_value which text.now) }
{
    match which {
        Mismatch::OtherKey => {
            let digest = Sha256::digest(text);
            let digest = digest_text(alloc, &digest)?;
            out.extend_from_slice(&digest)
        }
        Mismatch::OtherNames => push_value(out, b"names", text),
    }
}

#[tactic(auto, unfolding(crate::specs::Details::mismatch_words))]
fn push_mismatch_words(
    alloc: Global,
    out: &mut Vec<u8>,
    which: Mismatch,
    text: &[u8],
) -> Result<(), AllocError>
    ensures { OnOk result (out.new.items ≡ out.old.items ++ mismatch_words which text.now) }
{
    out.extend_from_slice(mismatch_front(which))?;
    push_mismatch_value(alloc, out, which, text)?;
    Ok(())
}

/// Appends the line of a file that has one half of the question.
fn push_mismatch(
    alloc: Global,
    out: &mut Vec<u8>,
    which: Mismatch,
    number: u64,
    text: &[u8],
) -> Result<(), AllocError>
    ensures { OnOk result (out.new.items
        ≡ out.old.items ++ mismatch_line which (Some (number, text.now))) }
{
    out.extend_from_slice(INDENT)?;
    out.extend_from_slice(b"line ")?;
    push_number(out, number)?;
    push_mismatch_words(alloc, out, which, text)?;
    out.push(b'\n')?;
    Ok(())
}

/// Appends the first line of a file that has one half of the question.
fn push_first_mismatch(
    alloc: Global,
    out: &mut Vec<u8>,
    which: Mismatch,
    kind: KeyKind,
    blob: &[u8],
    name: &[u8],
    file: &[u8],
) -> Result<(), AllocError>
    ensures { OnOk result (out.new.items ≡ out.old.items ++ mismatch_line which
        (first_mismatch which kind blob.now name.now (numbered 1 (lines_of file.now)))) }
{
    let mut buffer = KeyBuffer::new(alloc)?;
    for (number, line) in Lines::new(file) {
        let view = read_known_view(line, &mut buffer);
        if let Some(other) = mismatch_at(alloc, which, kind, blob, name, view)? {
            return push_mismatch(alloc, out, which, number, &other);
        }
    }
    Ok(())
}

#[tactic(auto, unfolding(crate::specs::Details::mismatch_text))]
fn push_mismatch_text(
    alloc: Global,
    out: &mut Vec<u8>,
    which: Mismatch,
    claim: &HostClaimView<'_>,
    file: &[u8],
) -> Result<(), AllocError>
    ensures { OnOk result (out.new.items
        ≡ out.old.items ++ mismatch_text which (host_claim_of claim.entry.now) file.now) }
{
    let blob = plain_blob(alloc, &claim.offer)?;
    let name = lookup_name(alloc, claim.query.host, claim.query.port)?;
    let kind = claim.offer.plain_key().kind();
    push_first_mismatch(alloc, out, which, kind, &blob, &name, file)
}

/// Where no line trusts the key, appends the first line with another key for the host, and the first with the
/// key for another.
fn push_changed(
    alloc: Global,
    out: &mut Vec<u8>,
    claim: &HostClaimView<'_>,
    file: &[u8],
    why: Cause,
) -> Result<(), AllocError>
    ensures { OnOk result (out.new.items
        ≡ out.old.items ++ changed_text (host_claim_of claim.entry.now) file.now why) }
{
    match why {
        Cause::NoLine => {
            push_mismatch_text(alloc, out, Mismatch::OtherKey, claim, file)?;
            push_mismatch_text(alloc, out, Mismatch::OtherNames, claim, file)?;
            Ok(())
        }
        _ => Ok(()),
    }
}

/// The details of a decision on a login by this file.
#[tactic(auto, unfolding(crate::specs::Details::login_details))]
pub(crate) fn login_details(
    alloc: Global,
    matcher: &LoginMatcher<'_>,
    file: &[u8],
    decision: &Decision,
) -> Result<Vec<u8>, AllocError>
    ensures { IfOk result (λ text. text.items ≡ login_details matcher.now file.now decision.now) }
{
    let mut out = Vec::new(alloc);
    match decision {
        Decision::Granted { line, reasons, .. } => {
            let needs = shown_needs(
                alloc,
                matcher.claim(),
                line_from(&mut Lines::new(file), *line),
            )?;
            out.extend_from_slice(needs)?;
            push_passed_text(alloc, &mut out, matcher, file, reasons.as_slice())?;
        }
        Decision::Denied { reasons, .. } => {
            push_passed_text(alloc, &mut out, matcher, file, reasons.as_slice())?;
        }
    }
    Ok(out)
}

/// The details of a decision on a host's key by this file.
#[tactic(auto, unfolding(crate::specs::Details::host_details))]
pub(crate) fn host_details(
    alloc: Global,
    claim: &HostClaimView<'_>,
    file: &[u8],
    decision: &Decision,
) -> Result<Vec<u8>, AllocError>
    ensures { IfOk result (λ text. text.items
        ≡ host_details (host_claim_of claim.entry.now) file.now decision.now) }
{
    let mut out = Vec::new(alloc);
    match decision {
        Decision::Granted { reasons, .. } => {
            push_passed_text(alloc, &mut out, claim, file, reasons.as_slice())?;
        }
        Decision::Denied { why, reasons, .. } => {
            push_passed_text(alloc, &mut out, claim, file, reasons.as_slice())?;
            push_changed(alloc, &mut out, claim, file, *why)?;
        }
    }
    Ok(out)
}
