//! The findings of an authorized_keys line with their codes and texts, and how a finding is added if
//! its code is selected.

ghost use Rattle.ssh_findings.specs.Findings.{auth_row, code_of};
ghost use Rattle.std.specs.Prelude.{◌≡◌, ◌++◌, [], IsOk, OnErr, OnOk};
ghost use Rattle.ssh_findings.specs.declared.code.Code.{Code as CodeValue};
ghost use Rattle.ssh_findings.specs.Asking.{asking_of};
ghost use Rattle.ssh_findings.specs.Telling.{reported_if, reported_some};

use crate::code::{Code, ReviewOptions};
use crate::openssh::Ground;
use crate::row::{Printed, Row, Texts, Value, row_with};
use ssh_options::LineCause;
use std::alloc::AllocError;

// Of both formats.

pub(crate) const UNREADABLE: Texts = (
    Code::Unreadable,
    "",
    "cannot be read here, and OpenSSH may read it: ",
    "",
);

pub(crate) const SHORT_KEY: Texts = (Code::ShortKey, "", "an RSA key of ", " bits is too short");

// Of authorized_keys.

const SAME_KEY: Texts = (
    Code::SameKey,
    "",
    "line ",
    " has the same key: where that line does not let it in, this one may",
);

const NEVER_DECIDES: Texts = (
    Code::NeverDecides,
    "",
    "never decides: line ",
    " has the same key and lets it in first",
);

const GIVES_MORE: Texts = (
    Code::GivesMore,
    "",
    "never decides: line ",
    " has the same key, lets it in first and gives more",
);

const EXPIRED: Texts = (Code::Expired, "", "has expired", "");

const BAD_SOURCES: Texts = (
    Code::PermitsNobody,
    "from",
    "lets nobody in: its from= list permits nobody",
    "",
);

const SOURCES_HERE: Texts = (
    Code::PermitsNobody,
    "from-here",
    "permits nobody here, but OpenSSH may read its from= list otherwise: count it as access",
    "",
);

const NO_PRINCIPAL: Texts = (
    Code::PermitsNobody,
    "principals",
    "lets nobody in: its principals= list permits nobody",
    "",
);

const PLAIN_PRINCIPALS: Texts = (
    Code::ReadOtherwise,
    "principals",
    "OpenSSH refuses this line: principals= stands without cert-authority",
    "",
);

const EMPTY_PRINCIPAL: Texts = (
    Code::ReadOtherwise,
    "empty-principal",
    "OpenSSH reads principals= only up to its empty piece",
    "",
);

const VERIFY_IGNORED: Texts = (
    Code::ReadOtherwise,
    "verify-required",
    "OpenSSH lets this key in: it ignores verify-required of a key that is no security key",
    "",
);

const LOCAL_TIME: Texts = (
    Code::ReadOtherwise,
    "local-time",
    "an expiry time without Z is in the zone of the server: give that as --zone",
    "",
);

const SHORT_ADDRESS: Texts = (
    Code::ReadOtherwise,
    "short-address",
    "OpenSSH reads a short address in from= (127.1) as an address: count it as access",
    "",
);

const FORCED_BUT_FORWARDS: Texts = (
    Code::ForcedButForwards,
    "",
    "its command is forced, but it may still forward: add restrict",
    "",
);

const ANY_ADDRESS: Texts = (
    Code::AnyAddress,
    "",
    "good from any address: no from=, or from=\"*\"",
    "",
);

const ANY_COMMAND: Texts = (
    Code::AnyCommand,
    "",
    "any command may be run: no command=",
    "",
);

const NO_EXPIRY: Texts = (Code::NoExpiry, "", "good for ever: no expiry-time=", "");

const ANY_PRINCIPAL: Texts = (
    Code::AnyPrincipal,
    "",
    "whoever it certifies for the user's name is let in: no principals=",
    "",
);

const NO_COMMENT: Texts = (
    Code::NoComment,
    "",
    "nothing says whose key this is: no comment",
    "",
);

const MAY_REFUSE: Texts = (
    Code::MayRefuse,
    "",
    "OpenSSH may refuse this line, and a later one then decides",
    "",
);

/// A finding of an authorized_keys line. The numbers of other lines, N below, count from 1.
#[derive(Clone, Copy, Debug, PartialEq, Eq)]
pub enum Finding {
    /// F1: it cannot be read, with its first fault.
    Unreadable(LineCause),
    /// F2: line N has the same key; where line N does not admit it, this line may.
    SameKey(u64),
    /// F3: line N has the same key, admits it first, and grants no more.
    NeverDecides(u64),
    /// F4: line N has the same key, admits it first, and grants more.
    GivesMore(u64),
    /// F5: its RSA key is too short, with its size in bits.
    ShortKey(u32),
    /// F6: it has expired.
    Expired,
    /// F7: its `from` list permits nobody, in OpenSSH too.
    BadSources,
    /// F7: its `from` list permits nobody here, and OpenSSH may read it differently.
    SourcesHere,
    /// F7: its `principals` list permits nobody.
    NoPrincipal,
    /// F8: `principals` without `cert-authority`, for which sshd refuses the line.
    PlainPrincipals,
    /// F8: a `principals` list with an empty name, at which OpenSSH stops reading it.
    EmptyPrincipal,
    /// F8: `verify-required` for a key that is not a security key, where OpenSSH ignores it.
    VerifyIgnored,
    /// F8: an expiry time without `Z`, whose zone was not given.
    LocalTime,
    /// F8: an item of its `from` list is an address for OpenSSH, but not here.
    ShortAddress,
    /// F9: it forces a command but still permits forwarding.
    ForcedButForwards,
    /// F15: accepted from any address.
    AnyAddress,
    /// F16: any command may be run.
    AnyCommand,
    /// F17: it never expires.
    NoExpiry,
    /// F18: a certificate authority without a list of principals.
    AnyPrincipal,
    /// F19: no comment.
    NoComment,
    /// F22: OpenSSH may refuse the line for this reason.
    MayRefuse(Ground),
}

impl Printed for Finding {
    ghost printed = { auth_row };

    fn row(self) -> Row {
        match self {
            Finding::Unreadable(cause) => row_with(UNREADABLE, Value::Cause(cause)),
            Finding::SameKey(line) => row_with(SAME_KEY, Value::Number(line)),
            Finding::NeverDecides(line) => row_with(NEVER_DECIDES, Value::Number(line)),
            Finding::GivesMore(line) => row_with(GIVES_MORE, Value::Number(line)),
            Finding::ShortKey(bits) => row_with(SHORT_KEY, Value::Number(bits as u64)),
            Finding::Expired => row_with(EXPIRED, Value::Nothing),
            Finding::BadSources => row_with(BAD_SOURCES, Value::Nothing),
            Finding::SourcesHere => row_with(SOURCES_HERE, Value::Nothing),
            Finding::NoPrincipal => row_with(NO_PRINCIPAL, Value::Nothing),
            Finding::PlainPrincipals => row_with(PLAIN_PRINCIPALS, Value::Nothing),
            Finding::EmptyPrincipal => row_with(EMPTY_PRINCIPAL, Value::Nothing),
            Finding::VerifyIgnored => row_with(VERIFY_IGNORED, Value::Nothing),
            Finding::LocalTime => row_with(LOCAL_TIME, Value::Nothing),
            Finding::ShortAddress => row_with(SHORT_ADDRESS, Value::Nothing),
            Finding::ForcedButForwards => row_with(FORCED_BUT_FORWARDS, Value::Nothing),
            Finding::AnyAddress => row_with(ANY_ADDRESS, Value::Nothing),
            Finding::AnyCommand => row_with(ANY_COMMAND, Value::Nothing),
            Finding::NoExpiry => row_with(NO_EXPIRY, Value::Nothing),
            Finding::AnyPrincipal => row_with(ANY_PRINCIPAL, Value::Nothing),
            Finding::NoComment => row_with(NO_COMMENT, Value::Nothing),
            Finding::MayRefuse(ground) => Row {
                detail: ground.word(),
                ..row_with(MAY_REFUSE, Value::Nothing)
            },
        }
    }
}

impl Coded for Finding {
    ghost code = { code_of };

    fn code(self) -> Code {
        self.row().code
    }
}

/// A finding of a line, with the code under which it is reported.
pub trait Coded: Copy {
    /// The code under which it is reported.
    ghost code: { Self → CodeValue };

    /// The code under which it is reported.
    fn code(self) -> Code
        ensures { result ≡ code self };
}

/// Adds a finding if it holds and its code is selected. On `Err` nothing is added.
#[tactic(auto, unfolding(crate::specs::Telling::reported_if))]
pub(crate) fn report_if<F: Coded>(
    found: &mut Vec<F>,
    asked: &ReviewOptions<'_>,
    holds: bool,
    finding: F,
) -> Result<(), AllocError>
    ensures value { OnOk result (found.new.items
        ≡ found.old.items ++ reported_if F.code (asking_of asked.entry.now) holds finding) }
    ensures err { OnErr result (found.new.items ≡ found.old.items) }
    // Only a finding that is reported allocates: otherwise the call succeeds even when allocation
    // fails.
    ensures spare { reported_if F.code (asking_of asked.entry.now) holds finding ≡ [] → IsOk result }
{
    if holds && asked.reports(finding.code()) {
        found.push(finding)?;
    }
    Ok(())
}

/// Adds a finding, if there is one and its code is selected. On `Err` nothing is added.
pub(crate) fn report_some<F: Coded>(
    found: &mut Vec<F>,
    asked: &ReviewOptions<'_>,
    finding: Option<F>,
) -> Result<(), AllocError>
    ensures value { OnOk result (found.new.items
        ≡ found.old.items ++ reported_some F.code (asking_of asked.entry.now) finding) }
    ensures err { OnErr result (found.new.items ≡ found.old.items) }
    // If nothing is reported, the call succeeds even when allocation fails.
    ensures spare { reported_some F.code (asking_of asked.entry.now) finding ≡ [] → IsOk result }
{
    match finding {
        Some(finding) => report_if(found, asked, true, finding),
        None => Ok(()),
    }
}
