//! The first lines of the printed answer of one trust file to `admits` or `trusts`.

ghost use Rattle.std.specs.Prelude.{◌≡◌, ◌++◌, IfOk, OnOk};
ghost use Rattle.ssh_print.specs.AnswerText.{answer_text, decision_lines, denied_line, denies, fault_line, fingerprint_line, good_signatures, granted_line, grants, sentence, wanted_key, wanted_line, wanted_words, owner_word};

use crate::codes::{cause_code, cause_codes, fault_codes};
use crate::decision_text::rights_lines;
use crate::explaining::row_of;
use crate::text::{push_escaped, push_number};
use sha2::{Digest, Sha256};
use ssh_keys::digest_text;
use ssh_offers::{AuditError, Signed};
use ssh_trust::{Cause, Decision};
use std::alloc::{AllocError, Global};

/// Whose key the question is about.
#[derive(Clone, Copy, Debug, PartialEq, Eq)]
pub enum Subject {
    /// A client's key, looked for in an authorized_keys file.
    Client,
    /// A host's key, looked for in a known_hosts file.
    Host,
}

/// The indentation of all lines but the first.
const INDENT: &[u8] = b"    ";

fn grants(who: Subject) -> &'static [u8]
    ensures { result.now ≡ grants who }
{
    match who {
        Subject::Client => b"admits",
        Subject::Host => b"trusts",
    }
}

pub(crate) fn denies(who: Subject) -> &'static [u8]
    ensures { result.now ≡ denies who }
{
    match who {
        Subject::Client => b"does not admit",
        Subject::Host => b"does not trust",
    }
}

fn owner_word(who: Subject) -> &'static [u8]
    ensures { result.now ≡ owner_word who }
{
    match who {
        Subject::Client => b"client",
        Subject::Host => b"host",
    }
}

/// For a certificate the signature of its signer has to be good too.
fn good_signatures(evidence: &[Signed]) -> &'static [u8]
    ensures { result.now ≡ good_signatures evidence.now }
{
    match evidence {
        [_, _, ..] => b"'s and the signer's signatures are good",
        _ => b"'s signature is good",
    }
}

/// The sentence that the table has for a code; empty if it has none.
pub fn sentence(code: &str) -> &'static str
    ensures { result.now ≡ sentence code.now }
{
    match row_of(code) {
        Some(row) => row.sentence,
        None => "",
    }
}

/// The blob of the key that a line must hold. For a certificate it is its signer's, which comes
/// second in the evidence.
fn wanted_key(evidence: &[Signed]) -> &[u8]
    ensures { result.now ≡ wanted_key evidence.now }
{
    match evidence {
        [] => &[],
        [key] => key.key.as_slice(),
        [_, signer, ..] => signer.key.as_slice(),
    }
}

/// The words in front of its fingerprint.
fn wanted_words(evidence: &[Signed]) -> &'static [u8]
    ensures { result.now ≡ wanted_words evidence.now }
{
    match evidence {
        [_, _, ..] => b"looked for the certificate's signer SHA256:",
        _ => b"looked for SHA256:",
    }
}

/// The line with the fingerprint of the key that was looked for.
fn push_fingerprint_line(
    alloc: Global,
    out: &mut Vec<u8>,
    evidence: &[Signed],
) -> Result<(), AllocError>
    ensures { OnOk result (out.new.items ≡ out.old.items ++ fingerprint_line evidence.now) }
{
    let digest = Sha256::digest(wanted_key(evidence));
    let text = digest_text(alloc, &digest)?;
    out.extend_from_slice(INDENT)?;
    out.extend_from_slice(wanted_words(evidence))?;
    out.extend_from_slice(&text)?;
    out.push(b'\n')?;
    Ok(())
}

fn push_wanted_line(
    alloc: Global,
    out: &mut Vec<u8>,
    why: Cause,
    evidence: &[Signed],
) -> Result<(), AllocError>
    ensures { OnOk result (out.new.items ≡ out.old.items ++ wanted_line why evidence.now) }
{
    match why {
        Cause::NoLine => push_fingerprint_line(alloc, out, evidence),
        _ => Ok(()),
    }
}

fn push_granted_line(
    out: &mut Vec<u8>,
    who: Subject,
    line: u64,
    evidence: &[Signed],
) -> Result<(), AllocError>
    ensures { OnOk result (out.new.items ≡ out.old.items ++ granted_line who line evidence.now) }
{
    out.extend_from_slice(grants(who))?;
    out.extend_from_slice(b" by line ")?;
    push_number(out, line)?;
    out.extend_from_slice(b", if the ")?;
    out.extend_from_slice(owner_word(who))?;
    out.extend_from_slice(good_signatures(evidence))?;
    out.push(b'\n')?;
    Ok(())
}

fn push_denied_line(
    alloc: Global,
    out: &mut Vec<u8>,
    who: Subject,
    why: Cause,
) -> Result<(), AllocError>
    ensures { OnOk result (out.new.items ≡ out.old.items ++ denied_line who why) }
{
    out.extend_from_slice(denies(who))?;
    out.push(b':')?;
    let codes = cause_codes(alloc, why)?;
    out.extend_from_slice(&codes)?;
    out.extend_from_slice(b": ")?;
    out.extend_from_slice(sentence(cause_code(why)).as_bytes())?;
    out.push(b'\n')?;
    Ok(())
}

fn push_decision_lines(
    alloc: Global,
    out: &mut Vec<u8>,
    who: Subject,
    decision: &Decision,
) -> Result<(), AllocError>
    ensures { OnOk result (out.new.items ≡ out.old.items ++ decision_lines who decision.now) }
{
    match decision {
        Decision::Granted {
            line,
            rights,
            evidence,
            ..
        } => {
            push_granted_line(out, who, *line, evidence.as_slice())?;
            let lines = rights_lines(alloc, INDENT, rights)?;
            out.extend_from_slice(&lines)?;
        }
        Decision::Denied { why, evidence, .. } => {
            push_denied_line(alloc, out, who, *why)?;
            push_wanted_line(alloc, out, *why, evidence.as_slice())?;
        }
    }
    Ok(())
}

fn push_fault_line(alloc: Global, out: &mut Vec<u8>, error: AuditError) -> Result<(), AllocError>
    ensures { OnOk result (out.new.items ≡ out.old.items ++ fault_line error) }
{
    out.extend_from_slice(b"fault")?;
    let codes = fault_codes(alloc, error)?;
    out.extend_from_slice(&codes)?;
    out.push(b'\n')?;
    Ok(())
}

/// The first lines of the printed answer of the trust file with this name, one LF after each. They
/// have the line that admits the key and its rights, or why the key is denied and which key was
/// looked for. A fault is printed in place of an answer.
pub fn answer_text(
    alloc: Global,
    who: Subject,
    name: &[u8],
    answer: &Result<Decision, AuditError>,
) -> Result<Vec<u8>, AllocError>
    ensures { IfOk result (λ text. text.items ≡ answer_text who name.now answer.now) }
{
    let mut out = Vec::new(alloc);
    push_escaped(&mut out, name)?;
    out.extend_from_slice(b": ")?;
    match answer {
        Ok(decision) => push_decision_lines(alloc, &mut out, who, decision)?,
        Err(error) => push_fault_line(alloc, &mut out, *error)?,
    }
    Ok(out)
}
