//! What is printed beside the answer on an authorized_keys file: the lines by which OpenSSH may
//! decide differently.

ghost use Rattle.std.specs.Prelude.{◌≡◌, ◌++◌, IfOk, OnOk, take, true};
ghost use Rattle.std.specs.List.{flat_map};
ghost use Rattle.ssh_keys.specs.KeyOf.{key_of};
ghost use Rattle.ssh_keys.specs.PublicKey.{kind_of};
ghost use Rattle.ssh_findings.specs.OpenSsh.{has_plain_principals};
ghost use Rattle.ssh_print.specs.Admitting.{first_line};
ghost use Rattle.ssh_text.specs.Text.{lines_of, numbered};
ghost use Rattle.ssh_print.specs.OtherLines.{ground_text, decides_line, decides_lines, decides_words, deeper_rights, grounds_text, ignored_at, ignored_other, line_word, lines_other, may_words, more_line, nothing_other, order_word, other_both, other_cause, otherwise_seen, reported_other, possible_line, possible_other, possible_text, principals_word, refused_by, refused_lines, refused_other, then_lines, unreported_other};

use crate::admission_text::Subject;
use crate::asked_key::{Admitting, first_line};
use crate::decision_text::rights_lines;
use crate::possible::{WhyPossible, possible_lines, unreported_lines};
use crate::shown_needs::is_security_key;
use crate::text::push_number;
use ssh_findings::{Facts, Ground, has_ground, may_refuse};
use ssh_rights::Rights;
use ssh_rules::LoginMatcher;
use ssh_trust::Cause;
use std::alloc::{AllocError, Global};

/// What is printed beside the answer of a trust file.
#[derive(Drop)]
pub struct Otherwise {
    /// Whether OpenSSH may admit, by one of these lines, what is not admitted here.
    pub may_admit: bool,
    /// The printed lines, each with an LF.
    pub text: Vec<u8>,
}

/// The indentation of each line.
pub(crate) const INDENT: &[u8] = b"    ";

/// The indentation of a line of rights.
const DEEPER: &[u8] = b"        ";

/// The most lines that are listed.
const LISTED: usize = 100;

/// Nothing beside the answer.
pub fn nothing_other(alloc: Global) -> Otherwise
    ensures { otherwise_seen result ≡ nothing_other }
{
    Otherwise {
        may_admit: false,
        text: Vec::new(alloc),
    }
}

/// Lines by which nobody is let in.
pub(crate) fn reported_other(text: Vec<u8>) -> Otherwise
    ensures { otherwise_seen result ≡ reported_other text.items }
{
    Otherwise {
        may_admit: false,
        text,
    }
}

pub(crate) fn other_both(a: Otherwise, b: &Otherwise) -> Result<Otherwise, AllocError>
    ensures { IfOk result
        (λ both. otherwise_seen both ≡ other_both (otherwise_seen a) (otherwise_seen b.now)) }
{
    let mut text = a.text;
    text.extend_from_slice(&b.text)?;
    Ok(Otherwise {
        may_admit: a.may_admit || b.may_admit,
        text,
    })
}

fn order_word(first: bool) -> &'static [u8]
    ensures { result.now ≡ order_word first }
{
    if first { b" first: " } else { b": " }
}

/// The words before the number of a line that may admit the key.
fn may_words(who: Subject) -> &'static [u8]
    ensures { result.now ≡ may_words who }
{
    match who {
        Subject::Client => b"OpenSSH may let it in by line ",
        Subject::Host => b"ssh may trust it by line ",
    }
}

pub(crate) fn push_possible_line(
    out: &mut Vec<u8>,
    who: Subject,
    first: bool,
    number: u64,
    why: WhyPossible,
) -> Result<(), AllocError>
    ensures { OnOk result (out.new.items ≡ out.old.items ++ possible_line who first (number, why)) }
{
    out.extend_from_slice(INDENT)?;
    out.extend_from_slice(may_words(who))?;
    push_number(out, number)?;
    out.extend_from_slice(order_word(first))?;
    out.extend_from_slice(why.words())?;
    out.push(b'\n')?;
    Ok(())
}

fn push_possible_lines(
    out: &mut Vec<u8>,
    who: Subject,
    first: bool,
    lines: &[(u64, WhyPossible)],
) -> Result<(), AllocError>
    ensures { OnOk result (out.new.items ≡ out.old.items ++ flat_map (possible_line who first) lines.now) }
{
    for line in lines {
        push_possible_line(out, who, first, line.0, line.1)?;
    }
    Ok(())
}

/// The line that reports further lines beyond those that are listed.
fn more_line(more: bool) -> &'static [u8]
    ensures { result.now ≡ more_line more }
{
    if more { b"    .. and more\n" } else { b"" }
}

/// The first lines, as many as are listed.
fn listed(lines: &[(u64, WhyPossible)]) -> &[(u64, WhyPossible)]
    ensures { result.now ≡ take 100 lines.now }
{
    if lines.len() > LISTED {
        &lines[..LISTED]
    } else {
        lines
    }
}

pub(crate) fn push_possible_text(
    out: &mut Vec<u8>,
    who: Subject,
    first: bool,
    lines: &[(u64, WhyPossible)],
) -> Result<(), AllocError>
    ensures { OnOk result (out.new.items ≡ out.old.items ++ possible_text who first lines.now) }
{
    push_possible_lines(out, who, first, listed(lines))?;
    out.extend_from_slice(more_line(lines.len() > LISTED))?;
    Ok(())
}

/// These lines of an authorized_keys file.
pub(crate) fn lines_other(
    alloc: Global,
    first: bool,
    lines: &[(u64, WhyPossible)],
) -> Result<Otherwise, AllocError>
    ensures { IfOk result (λ other. otherwise_seen other ≡ lines_other first lines.now) }
{
    let mut text = Vec::new(alloc);
    push_possible_text(&mut text, Subject::Client, first, lines)?;
    Ok(Otherwise {
        may_admit: lines.len() > 0,
        text,
    })
}

/// The lines of a file by which OpenSSH may admit the login: all of them, or those before one.
#[tactic(auto, unfolding(crate::specs::OtherLines::possible_other))]
pub(crate) fn possible_other(
    alloc: Global,
    matcher: &LoginMatcher<'_>,
    before: Option<u64>,
    file: &[u8],
) -> Result<Otherwise, AllocError>
    ensures { IfOk result
        (λ other. otherwise_seen other ≡ possible_other matcher.now before file.now) }
{
    let lines = possible_lines(alloc, matcher, before, file)?;
    let other = lines_other(alloc, before.is_some(), &lines)?;
    Ok(other)
}

fn principals_word(has_principals: bool) -> &'static [u8]
    ensures { result.now ≡ principals_word has_principals }
{
    if has_principals { b" principals" } else { b"" }
}

fn push_ground(out: &mut Vec<u8>, facts: &Facts, why: Ground) -> Result<(), AllocError>
    ensures { OnOk result (out.new.items ≡ out.old.items ++ ground_text facts.now why) }
{
    if has_ground(facts, why) {
        out.push(b' ')?;
        out.extend_from_slice(why.word())?;
    }
    Ok(())
}

/// Whether the line has `principals` without `cert-authority`, for which sshd refuses it.
fn has_plain_principals(facts: &Facts) -> bool
    ensures { result ≡ has_plain_principals facts.now }
{
    !facts.is_authority && facts.principals.is_some()
}

/// The reasons for which OpenSSH may refuse an entry, each after a space.
#[tactic(auto, unfolding(crate::specs::OtherLines::grounds_text))]
fn push_grounds(out: &mut Vec<u8>, facts: &Facts) -> Result<(), AllocError>
    ensures { OnOk result (out.new.items ≡ out.old.items ++ grounds_text facts.now) }
{
    out.extend_from_slice(principals_word(has_plain_principals(facts)))?;
    push_ground(out, facts, Ground::PermitOpen)?;
    push_ground(out, facts, Ground::PermitListen)?;
    push_ground(out, facts, Ground::Environment)?;
    push_ground(out, facts, Ground::Tunnel)?;
    push_ground(out, facts, Ground::Nul)?;
    push_ground(out, facts, Ground::LongItem)?;
    push_ground(out, facts, Ground::Rsa)?;
    Ok(())
}

#[tactic(auto, unfolding(crate::specs::OtherLines::line_word))]
fn line_word() -> &'static [u8]
    ensures { result.now ≡ line_word }
{
    b"line "
}

#[tactic(auto, unfolding(crate::specs::OtherLines::decides_words))]
fn decides_words() -> &'static [u8]
    ensures { result.now ≡ decides_words }
{
    b" decides then"
}

/// The line that decides if OpenSSH refuses those that it may refuse.
pub(crate) fn push_decides_line(out: &mut Vec<u8>, number: u64) -> Result<(), AllocError>
    ensures { OnOk result (out.new.items ≡ out.old.items ++ decides_line number) }
{
    out.extend_from_slice(INDENT)?;
    out.extend_from_slice(line_word())?;
    push_number(out, number)?;
    out.extend_from_slice(decides_words())?;
    out.push(b'\n')?;
    Ok(())
}

#[tactic(auto, unfolding(crate::specs::OtherLines::deeper_rights))]
fn push_deeper_rights(
    alloc: Global,
    out: &mut Vec<u8>,
    rights: &Option<Rights>,
) -> Result<(), AllocError>
    ensures { OnOk result (out.new.items ≡ out.old.items ++ deeper_rights rights.now) }
{
    let lines = rights_lines(alloc, DEEPER, rights)?;
    out.extend_from_slice(&lines)?;
    Ok(())
}

/// The line that decides if OpenSSH refuses those that it may refuse, with its rights.
fn push_decides_lines(
    alloc: Global,
    out: &mut Vec<u8>,
    number: u64,
    rights: &Option<Rights>,
) -> Result<(), AllocError>
    ensures { OnOk result (out.new.items ≡ out.old.items ++ decides_lines number rights.now) }
{
    push_decides_line(out, number)?;
    push_deeper_rights(alloc, out, rights)?;
    Ok(())
}

fn push_then_lines(
    alloc: Global,
    out: &mut Vec<u8>,
    firm: &Option<(u64, Admitting)>,
) -> Result<(), AllocError>
    ensures { OnOk result (out.new.items ≡ out.old.items ++ then_lines firm.now) }
{
    match firm {
        None => {
            out.extend_from_slice(b"    no other line admits it\n")?;
            Ok(())
        }
        Some(line) => push_decides_lines(alloc, out, line.0, &line.1.rights),
    }
}

#[tactic(auto, unfolding(crate::specs::OtherLines::refused_lines))]
fn refused_lines(
    alloc: Global,
    number: u64,
    facts: &Facts,
    firm: &Option<(u64, Admitting)>,
) -> Result<Vec<u8>, AllocError>
    ensures { IfOk result (λ text. text.items ≡ refused_lines number facts.now firm.now) }
{
    let mut out = Vec::new(alloc);
    out.extend_from_slice(INDENT)?;
    out.extend_from_slice(b"OpenSSH may refuse line ")?;
    push_number(&mut out, number)?;
    out.push(b':')?;
    push_grounds(&mut out, facts)?;
    out.push(b'\n')?;
    push_then_lines(alloc, &mut out, firm)?;
    Ok(out)
}

/// What decides if OpenSSH refuses the first line that admits: it skips that line, and the next one
/// that admits decides.
pub(crate) fn refused_by(
    alloc: Global,
    matcher: &LoginMatcher<'_>,
    first: Option<(u64, Admitting)>,
    file: &[u8],
) -> Result<Otherwise, AllocError>
    ensures { IfOk result (λ other. otherwise_seen other
        ≡ refused_by first (first_line matcher.now true (numbered 1 (lines_of file.now)))) }
{
    match first {
        Some((number, line)) if may_refuse(&line.facts) => {
            let firm = first_line(alloc, matcher, true, file)?;
            let may_admit = firm.is_some();
            let text = refused_lines(alloc, number, &line.facts, &firm)?;
            Ok(Otherwise { may_admit, text })
        }
        _ => Ok(nothing_other(alloc)),
    }
}

/// The same, where the first line that admits is to be found.
#[tactic(auto, unfolding(crate::specs::OtherLines::refused_other))]
fn refused_other(
    alloc: Global,
    matcher: &LoginMatcher<'_>,
    file: &[u8],
) -> Result<Otherwise, AllocError>
    ensures { IfOk result (λ other. otherwise_seen other ≡ refused_other matcher.now file.now) }
{
    let first = first_line(alloc, matcher, false, file)?;
    let other = refused_by(alloc, matcher, first, file)?;
    Ok(other)
}

fn ignored_at(alloc: Global, first: Option<(u64, Admitting)>) -> Result<Otherwise, AllocError>
    ensures { IfOk result (λ other. otherwise_seen other ≡ ignored_at first) }
{
    match first {
        None => Ok(nothing_other(alloc)),
        Some((number, _)) => {
            let mut text = Vec::new(alloc);
            push_possible_line(
                &mut text,
                Subject::Client,
                false,
                number,
                WhyPossible::VerifyRequired,
            )?;
            Ok(Otherwise {
                may_admit: true,
                text,
            })
        }
    }
}

/// A line with `verify-required` for a key that is not a security key: OpenSSH ignores the option
/// there.
fn ignored_other(
    alloc: Global,
    matcher: &LoginMatcher<'_>,
    file: &[u8],
    why: Cause,
) -> Result<Otherwise, AllocError>
    ensures { IfOk result (λ other. otherwise_seen other ≡ ignored_other matcher.now file.now why) }
{
    match why {
        Cause::VerifyMissing => {
            if is_security_key(matcher.claim().offer.plain_key().kind()) {
                Ok(nothing_other(alloc))
            } else {
                let first = first_line(alloc, matcher, false, file)?;
                let other = ignored_at(alloc, first)?;
                Ok(other)
            }
        }
        _ => Ok(nothing_other(alloc)),
    }
}

/// For a denial although some line admits: what OpenSSH may do by that line.
pub(crate) fn other_cause(
    alloc: Global,
    matcher: &LoginMatcher<'_>,
    file: &[u8],
    why: Cause,
) -> Result<Otherwise, AllocError>
    ensures { IfOk result (λ other. otherwise_seen other ≡ other_cause matcher.now file.now why) }
{
    match why {
        Cause::NoLine => Ok(nothing_other(alloc)),
        _ => {
            let ignored = ignored_other(alloc, matcher, file, why)?;
            let refused = refused_other(alloc, matcher, file)?;
            let other = other_both(ignored, &refused)?;
            Ok(other)
        }
    }
}

/// What is printed after a denial of a key that no line of an authorized_keys file holds: the first
/// 100 lines by which OpenSSH may admit any key, since they cannot be read here and no key was
/// recovered from them.
#[tactic(auto, unfolding(crate::specs::OtherLines::unreported_other))]
pub fn other_unreported(alloc: Global, file: &[u8]) -> Result<Otherwise, AllocError>
    ensures { IfOk result (λ other. otherwise_seen other ≡ unreported_other file.now) }
{
    let lines = unreported_lines(alloc, file)?;
    let other = lines_other(alloc, false, &lines)?;
    Ok(other)
}
