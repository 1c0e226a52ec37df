//! The stand-in for the missing signature of a key in question, and the first line that admits the
//! key.

ghost use Rattle.std.specs.Prelude.{◌≡◌, IfOk, None};
ghost use Rattle.ssh_print.specs.StandIn.{login_algorithm, security_key, signature_algorithm, stand_in};
ghost use Rattle.ssh_text.specs.Text.{lines_of, numbered};
ghost use Rattle.ssh_print.specs.Admitting.{admitting_at, admitting_by, line_admitting, counted, first_line, or_later};

use crate::passed::line_from;
use ssh_entries::{AuthEntryView, KeyBuffer, read_auth_view};
use ssh_findings::{Facts, may_refuse};
use ssh_keys::{KeyKind, SignatureView, write_signature};
use ssh_rights::{Rights, rights_of};
use ssh_rules::{LineVerdict, LoginMatcher, login_verdict};
use ssh_text::Lines;
use std::alloc::{AllocError, Global};

/// The flags for a security key that was touched and verified its user (PROTOCOL.u2f).
const TOUCHED_AND_VERIFIED: u8 = 5;

/// The algorithm of a signature by a key of this kind; for RSA the one with SHA-512.
fn signature_algorithm(kind: KeyKind) -> &'static [u8]
    ensures { result.now ≡ signature_algorithm kind }
{
    match kind {
        KeyKind::Rsa => b"rsa-sha2-512",
        other => other.name(),
    }
}

/// The algorithm name with which a login offers a key of this kind, or a certificate of one. It is
/// the key type, but for RSA the name with SHA-512 (RFC 8332 section 3).
pub fn login_algorithm(kind: KeyKind, is_certificate: bool) -> &'static [u8]
    ensures { result.now ≡ login_algorithm kind is_certificate }
{
    match (kind, is_certificate) {
        (KeyKind::Rsa, true) => b"rsa-sha2-512-cert-v01@openssh.com",
        (other, true) => other.certificate_name(),
        (other, false) => signature_algorithm(other),
    }
}

/// The flags and the counter of the signature, if the key is a security key's.
fn security_key(kind: KeyKind) -> Option<(u8, u32)>
    ensures { result ≡ security_key kind }
{
    match kind {
        KeyKind::SkP256 | KeyKind::SkEd25519 => Some((TOUCHED_AND_VERIFIED, 1)),
        _ => None,
    }
}

/// A signature blob that takes the place of the missing signature by a key of this kind. It has the
/// right form for the key. For a security key it reports a touch and a verified user.
pub fn stand_in(alloc: Global, kind: KeyKind) -> Result<Vec<u8>, AllocError>
    ensures { IfOk result (λ blob. blob.items ≡ stand_in kind) }
{
    let signature = SignatureView {
        algorithm: signature_algorithm(kind),
        bytes: &[0],
        sk: security_key(kind),
    };
    let mut blob = Vec::new(alloc);
    write_signature(&signature, &mut blob)?;
    Ok(blob)
}

/// The facts of a line that admits a login, and the rights that it grants.
#[derive(Debug, Drop)]
pub(crate) struct Admitting {
    pub(crate) facts: Facts,
    pub(crate) rights: Option<Rights>,
}

fn admitting_by(
    alloc: Global,
    matcher: &LoginMatcher<'_>,
    verdict: LineVerdict<AuthEntryView<'_>>,
) -> Result<Option<Admitting>, AllocError>
    ensures { IfOk result (λ a. a ≡ admitting_by matcher.now verdict.entry) }
{
    match verdict {
        LineVerdict::Skips(_reason) => Ok(None),
        LineVerdict::Admits(entry) => {
            let claim = matcher.claim();
            let facts = Facts::read(alloc, claim.query.zone, &entry)?;
            let rights = rights_of(alloc, &entry, &claim.offer)?;
            Ok(Some(Admitting {
                facts,
                rights: Some(rights),
            }))
        }
    }
}

/// The facts and rights of a line, if it admits the login.
#[tactic(auto, unfolding(crate::specs::Admitting::line_admitting))]
fn line_admitting(
    alloc: Global,
    matcher: &LoginMatcher<'_>,
    line: &[u8],
    buffer: &mut KeyBuffer,
) -> Result<Option<Admitting>, AllocError>
    ensures { IfOk result (λ a. a ≡ line_admitting matcher.now line.now) }
{
    let verdict = login_verdict(alloc, read_auth_view(line, buffer), matcher)?;
    let admitting = admitting_by(alloc, matcher, verdict)?;
    Ok(admitting)
}

/// With `firm`, drops a line that OpenSSH has a known reason to refuse.
fn counted(firm: bool, line: Option<Admitting>) -> Option<Admitting>
    ensures { result ≡ counted firm line }
{
    match line {
        None => None,
        Some(line) => {
            if firm && may_refuse(&line.facts) {
                None
            } else {
                Some(line)
            }
        }
    }
}

/// The first line of a file that admits a login, with its number. With `firm`, it is the first such
/// line that OpenSSH has no known reason to refuse.
pub(crate) fn first_line(
    alloc: Global,
    matcher: &LoginMatcher<'_>,
    firm: bool,
    file: &[u8],
) -> Result<Option<(u64, Admitting)>, AllocError>
    ensures { IfOk result
        (λ first. first ≡ first_line matcher.now firm (numbered 1 (lines_of file.now))) }
{
    let mut buffer = KeyBuffer::new(alloc)?;
    for (number, line) in Lines::new(file) {
        let here = line_admitting(alloc, matcher, line, &mut buffer)?;
        if let Some(a) = counted(firm, here) {
            return Ok(Some((number, a)));
        }
    }
    Ok(None)
}

fn with_number(number: u64, line: Option<Admitting>) -> Option<(u64, Admitting)>
    ensures { result ≡ or_later number line None }
{
    match line {
        None => None,
        Some(line) => Some((number, line)),
    }
}

/// The line of a file with this number, if it admits the login.
#[tactic(auto, unfolding(crate::specs::Admitting::admitting_at))]
pub(crate) fn admitting_at(
    alloc: Global,
    matcher: &LoginMatcher<'_>,
    number: u64,
    file: &[u8],
) -> Result<Option<(u64, Admitting)>, AllocError>
    ensures { IfOk result (λ line. line ≡ admitting_at matcher.now number file.now) }
{
    let mut buffer = KeyBuffer::new(alloc)?;
    let line = line_from(&mut Lines::new(file), number);
    let here = line_admitting(alloc, matcher, line, &mut buffer)?;
    Ok(with_number(number, here))
}
