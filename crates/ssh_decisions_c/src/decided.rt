//! What a caller in C is answered: numbers, and rows for the buffers that it lends.

ghost use Rattle.std.specs.Prelude.{◌≡◌, length};
ghost use Rattle.ssh_decisions_c.specs.Decided.{carried_code, carried_row, cause_code, cause_number, command_bytes, fault_code, reason_code, reason_row, rights_reported, texts_in};

use ssh_offers::AuditError;
use ssh_text::Bytes;
use ssh_trust::{Carried, CarriedName, Cause, Reason, Rights};

/// A decision, or why there is none.
#[repr(C)]
#[derive(Clone, Copy)]
pub struct Decided {
    /// 0 granted, 1 denied, 2 a fault.
    pub kind: u8,
    /// Of a denial 1 to 6, for `N1` to `N6`; of a fault 1 to 8, for `A1` to `A8`; else 0.
    pub code: u8,
    /// The line of a grant; the line of `N1` and `N2`; the index of the evidence of `N6`; else 0.
    pub number: u64,
    /// How many lines were passed over for a reason, as far as they are listed: at most 100.
    pub reasons_length: usize,
}

/// What an admitted login may do (sshd(8)). Of one that is not admitted nothing is set.
#[repr(C)]
#[derive(Clone, Copy)]
pub struct LoginRights {
    /// TCP forwarding.
    pub port: bool,
    /// Authentication agent forwarding.
    pub agent: bool,
    /// X11 forwarding.
    pub x11: bool,
    /// Allocation of a terminal.
    pub pty: bool,
    /// Execution of the user's own `~/.ssh/rc`.
    pub user_rc: bool,
    /// Whether a command is forced; it may be empty.
    pub has_command: bool,
    /// The length of that command, which the texts begin with.
    pub command_length: usize,
    /// How many options are passed on.
    pub carried_length: usize,
    /// The length of the command and of the texts of these options, one behind the other.
    pub texts_length: usize,
}

/// A decision on a login, or why there is none.
#[repr(C)]
#[derive(Clone, Copy)]
pub struct LoginDecided {
    pub decision: Decided,
    pub rights: LoginRights,
}

/// Why a line was passed over.
#[repr(C)]
#[derive(Clone, Copy)]
pub struct LineReason {
    /// The number of the line, from 1.
    pub line: u64,
    /// 1 to 20, for `G1` to `G20`.
    pub code: u8,
}

/// An option of the line that is passed on to whoever starts the session.
#[repr(C)]
#[derive(Clone, Copy)]
pub struct CarriedText {
    /// 1 `environment`, 2 `permitlisten`, 3 `permitopen`, 4 `tunnel`.
    pub name: u8,
    /// The length of its text.
    pub length: usize,
}

pub(crate) fn cause_code(why: Cause) -> u8
    ensures { result ≡ cause_code why }
{
    match why {
        Cause::Revoked(_) => 1,
        Cause::RevocationUnreadable(_) => 2,
        Cause::NoLine => 3,
        Cause::TouchMissing => 4,
        Cause::VerifyMissing => 5,
        Cause::NotVouched(_) => 6,
    }
}

pub(crate) fn cause_number(why: Cause) -> u64
    ensures { result ≡ cause_number why }
{
    match why {
        Cause::Revoked(line) => line,
        Cause::RevocationUnreadable(line) => line,
        Cause::NoLine => 0,
        Cause::TouchMissing => 0,
        Cause::VerifyMissing => 0,
        Cause::NotVouched(index) => index,
    }
}

pub(crate) fn fault_code(error: AuditError) -> u8
    ensures { result ≡ fault_code error }
{
    match error {
        AuditError::Offer(_) => 1,
        AuditError::Signature(_) => 2,
        AuditError::WrongAlgorithm => 3,
        AuditError::WeakSignature => 4,
        AuditError::CertSignature => 5,
        AuditError::Address => 6,
        AuditError::FileTooLong => 7,
        AuditError::Memory => 8,
        AuditError::Read => 9,
        AuditError::Failed => 10,
        AuditError::Body(_) => 11,
        AuditError::Salts => 12,
    }
}

fn reason_code(why: &Reason) -> u8
    ensures { result ≡ reason_code why.now }
{
    match why {
        Reason::Unreadable(_) => 1,
        Reason::AuthorityOnly => 3,
        Reason::NotAuthority => 4,
        Reason::Expired => 6,
        Reason::SourceBad => 7,
        Reason::SourceRefused => 8,
        Reason::WrongCertKind => 9,
        Reason::NotYetValid => 10,
        Reason::NoLongerValid => 11,
        Reason::PrincipalRefused => 12,
        Reason::EmptyPrincipals => 19,
        Reason::CriticalUnknown(_) => 13,
        Reason::CriticalRepeated => 14,
        Reason::CriticalData => 15,
        Reason::CertSourceBad => 16,
        Reason::CertSourceRefused => 17,
        Reason::CommandConflict => 18,
        Reason::RsaTooSmall => 20,
    }
}

fn carried_code(name: CarriedName) -> u8
    ensures { result ≡ carried_code name }
{
    match name {
        CarriedName::Environment => 1,
        CarriedName::PermitListen => 2,
        CarriedName::PermitOpen => 3,
        CarriedName::Tunnel => 4,
    }
}

/// The row of a reason.
pub(crate) fn reason_row(line: u64, why: &Reason) -> LineReason
    ensures { result ≡ reason_row (line, why.now) }
{
    LineReason {
        line,
        code: reason_code(why),
    }
}

/// The row of an option that is passed on.
pub(crate) fn carried_row(carried: &Carried) -> CarriedText
    ensures { result ≡ carried_row carried.now }
{
    CarriedText {
        name: carried_code(carried.name),
        length: carried.text.as_slice().len(),
    }
}

fn command_length(command: &Option<Bytes>) -> usize
    ensures { result ≡ length (command_bytes command.now) }
{
    match command {
        None => 0,
        Some(text) => text.as_slice().len(),
    }
}

/// The rights in numbers, where these are their texts.
pub(crate) fn rights_reported(rights: &Option<Rights>, texts: &[u8]) -> LoginRights
    requires { texts.now ≡ texts_in rights.now }
    ensures { result ≡ rights_reported rights.now }
{
    match rights {
        None => LoginRights {
            port: false,
            agent: false,
            x11: false,
            pty: false,
            user_rc: false,
            has_command: false,
            command_length: 0,
            carried_length: 0,
            texts_length: 0,
        },
        Some(rights) => LoginRights {
            port: rights.port,
            agent: rights.agent,
            x11: rights.x11,
            pty: rights.pty,
            user_rc: rights.user_rc,
            has_command: rights.command.is_some(),
            command_length: command_length(&rights.command),
            carried_length: rights.carried.len(),
            texts_length: texts.len(),
        },
    }
}
