//! What a review was asked, and the codes of findings that it looked for.

ghost use Rattle.std.specs.Prelude.{◌≡◌, IfOk};
ghost use Rattle.ssh_page.specs.Questions.{every_code, is_left_out, is_looked_for, is_of, left_out, looked_for, only_kind, question_seen};

use crate::file::FileKind;
use ssh_findings::Code;
use std::alloc::{AllocError, Global};

/// What a review was asked.
#[derive(Clone, Copy, Debug)]
pub struct PageQuestion<'a> {
    pub kind: FileKind,
    /// The time of the review, in seconds since 1970-01-01 UTC.
    pub now: u64,
    /// The time zone of expiry times without `Z`, as a POSIX rule.
    pub zone: &'a [u8],
    /// The minimum size of an RSA key, in bits.
    pub rsa_minimum: u32,
    /// The codes of the findings to report, in any order.
    pub reported: &'a [Code],
}

/// The kind of file that a code is reported of, if it is one alone.
fn only_kind(code: Code) -> Option<FileKind>
    ensures { result ≡ only_kind code }
{
    match code {
        Code::Unreadable => None,
        Code::SameKey => Some(FileKind::AuthorizedKeys),
        Code::NeverDecides => Some(FileKind::AuthorizedKeys),
        Code::GivesMore => Some(FileKind::AuthorizedKeys),
        Code::ShortKey => None,
        Code::Expired => Some(FileKind::AuthorizedKeys),
        Code::PermitsNobody => Some(FileKind::AuthorizedKeys),
        Code::ReadOtherwise => None,
        Code::ForcedButForwards => Some(FileKind::AuthorizedKeys),
        Code::UnreadableRevocation => Some(FileKind::KnownHosts),
        Code::OtherKey => Some(FileKind::KnownHosts),
        Code::TrustedAndRevoked => Some(FileKind::KnownHosts),
        Code::PatternHosts => Some(FileKind::KnownHosts),
        Code::EveryHost => Some(FileKind::KnownHosts),
        Code::AnyAddress => Some(FileKind::AuthorizedKeys),
        Code::AnyCommand => Some(FileKind::AuthorizedKeys),
        Code::NoExpiry => Some(FileKind::AuthorizedKeys),
        Code::AnyPrincipal => Some(FileKind::AuthorizedKeys),
        Code::NoComment => Some(FileKind::AuthorizedKeys),
        Code::NamesInClear => Some(FileKind::KnownHosts),
        Code::SameHostKey => Some(FileKind::KnownHosts),
        Code::MayRefuse => None,
    }
}

/// Whether a code may be reported of files of this kind.
fn is_of(kind: FileKind, code: Code) -> bool
    ensures { result ≡ is_of kind code }
{
    match only_kind(code) {
        None => true,
        Some(only) => only == kind,
    }
}

/// All codes, in ascending order.
#[tactic(auto, unfolding(crate::specs::Questions::every_code))]
fn every_code() -> &'static [Code]
    ensures { result.now ≡ every_code }
{
    &Code::ALL
}

fn is_looked_for(question: &PageQuestion<'_>, code: Code) -> bool
    ensures { result ≡ is_looked_for (question_seen question.entry.now) code }
{
    is_of(question.kind, code) && question.reported.contains(&code)
}

/// The codes that were asked for, of those that files of this kind may have, in ascending order.
#[tactic(auto, unfolding(crate::specs::Questions::looked_for))]
pub(crate) fn looked_for(
    alloc: Global,
    question: &PageQuestion<'_>,
) -> Result<Vec<Code>, AllocError>
    ensures { IfOk result (λ found. found.items ≡ looked_for (question_seen question.entry.now)) }
{
    every_code()
        .iter()
        .copied()
        .filter(|code| is_looked_for(question, *code))
        .collect(alloc)
}

fn is_left_out(question: &PageQuestion<'_>, code: Code) -> bool
    ensures { result ≡ is_left_out (question_seen question.entry.now) code }
{
    is_of(question.kind, code) && !question.reported.contains(&code)
}

/// The codes that were not asked for, of those that files of this kind may have, in ascending order.
#[tactic(auto, unfolding(crate::specs::Questions::left_out))]
pub(crate) fn left_out(alloc: Global, question: &PageQuestion<'_>) -> Result<Vec<Code>, AllocError>
    ensures { IfOk result (λ found. found.items ≡ left_out (question_seen question.entry.now)) }
{
    every_code()
        .iter()
        .copied()
        .filter(|code| is_left_out(question, *code))
        .collect(alloc)
}
