//! The names of the options of authorized_keys lines (sshd(8), AUTHORIZED_KEYS FILE FORMAT).

ghost use Rattle.std.specs.Prelude.{◌≡◌, Some, option_map, map};
ghost use Rattle.ssh_options.specs.OptionNames.{options, option_row, row_named, option_named, flag_name, flag_named, value_name, value_named, is_single, same_name};
ghost use Rattle.ssh_options.specs.OptionTexts.{table_row};

use LineOption::{Setting, Switch};
use Times::{Any, Once};

/// An option without a value (sshd(8), AUTHORIZED_KEYS FILE FORMAT).
#[derive(Debug, Clone, Copy, PartialEq, Eq)]
pub enum Flag {
    AgentForwarding,
    CertAuthority,
    NoAgentForwarding,
    NoPortForwarding,
    NoPty,
    NoUserRc,
    NoX11Forwarding,
    PortForwarding,
    Pty,
    NoTouchRequired,
    VerifyRequired,
    Restrict,
    UserRc,
    X11Forwarding,
}

/// The name of an option with a value (sshd(8), AUTHORIZED_KEYS FILE FORMAT).
#[derive(Debug, Clone, Copy, PartialEq, Eq)]
pub enum ValueName {
    Command,
    Environment,
    ExpiryTime,
    From,
    PermitListen,
    PermitOpen,
    Principals,
    Tunnel,
}

/// An option: a flag, or the name of an option with a value.
#[derive(Clone, Copy, PartialEq, Eq)]
pub(crate) enum LineOption {
    Switch(Flag),
    Setting(ValueName),
}

/// How often an option may appear on a line.
#[derive(Clone, Copy, PartialEq, Eq)]
pub(crate) enum Times {
    Once,
    Any,
}

/// A row of the list of options: a name, its option, and how often that may appear on a line.
type Row = (&'static [u8], LineOption, Times);

/// The options in the order and with the names of sshd(8). Which of them may appear only once is
/// this project's rule: two `command`, `from` or `principals` options have no meaning that all
/// readers share.
const OPTIONS: [Row; 22] = [
    (b"agent-forwarding", Switch(Flag::AgentForwarding), Any),
    (b"cert-authority", Switch(Flag::CertAuthority), Any),
    (b"no-agent-forwarding", Switch(Flag::NoAgentForwarding), Any),
    (b"no-port-forwarding", Switch(Flag::NoPortForwarding), Any),
    (b"no-pty", Switch(Flag::NoPty), Any),
    (b"no-user-rc", Switch(Flag::NoUserRc), Any),
    (b"no-X11-forwarding", Switch(Flag::NoX11Forwarding), Any),
    (b"port-forwarding", Switch(Flag::PortForwarding), Any),
    (b"pty", Switch(Flag::Pty), Any),
    (b"no-touch-required", Switch(Flag::NoTouchRequired), Any),
    (b"verify-required", Switch(Flag::VerifyRequired), Any),
    (b"restrict", Switch(Flag::Restrict), Any),
    (b"user-rc", Switch(Flag::UserRc), Any),
    (b"X11-forwarding", Switch(Flag::X11Forwarding), Any),
    (b"command", Setting(ValueName::Command), Once),
    (b"environment", Setting(ValueName::Environment), Any),
    (b"expiry-time", Setting(ValueName::ExpiryTime), Any),
    (b"from", Setting(ValueName::From), Once),
    (b"permitlisten", Setting(ValueName::PermitListen), Any),
    (b"permitopen", Setting(ValueName::PermitOpen), Any),
    (b"principals", Setting(ValueName::Principals), Once),
    (b"tunnel", Setting(ValueName::Tunnel), Any),
];

fn options() -> &'static [Row]
    ensures { map table_row result.now ≡ options }
{
    &OPTIONS
}

/// The row of an option. Every option has one.
fn row_of(option: LineOption) -> Row
    ensures { option_row option ≡ Some (table_row result) }
{
    options()
        .iter()
        .copied()
        .find(|row| row.1 == option)
        .unwrap()
}

/// The row with this name, in any ASCII case.
fn row_named(name: &[u8]) -> Option<Row>
    ensures { option_map table_row result ≡ row_named name.now }
{
    options().iter().copied().find(|row| same_name(name, row.0))
}

/// The option with this name, in any ASCII case.
pub(crate) fn option_named(name: &[u8]) -> Option<LineOption>
    ensures { result ≡ option_named name.now }
{
    let row = row_named(name)?;
    Some(row.1)
}

impl Flag {
    /// Every flag, in the order of the list of sshd(8).
    pub const ALL: [Flag; 14] = [
        Flag::AgentForwarding,
        Flag::CertAuthority,
        Flag::NoAgentForwarding,
        Flag::NoPortForwarding,
        Flag::NoPty,
        Flag::NoUserRc,
        Flag::NoX11Forwarding,
        Flag::PortForwarding,
        Flag::Pty,
        Flag::NoTouchRequired,
        Flag::VerifyRequired,
        Flag::Restrict,
        Flag::UserRc,
        Flag::X11Forwarding,
    ];

    /// The name as sshd(8) writes it.
    pub fn name(self) -> &'static [u8]
        ensures { result.now ≡ flag_name self }
    {
        row_of(LineOption::Switch(self)).0
    }

    /// The flag with this name, in any ASCII case. `None` also for the name of an option with a
    /// value.
    pub fn named(name: &[u8]) -> Option<Flag>
        ensures { result ≡ flag_named name.now }
    {
        match option_named(name)? {
            LineOption::Switch(flag) => Some(flag),
            LineOption::Setting(_) => None,
        }
    }
}

impl ValueName {
    /// Every option with a value, in the order of the list of sshd(8).
    pub const ALL: [ValueName; 8] = [
        ValueName::Command,
        ValueName::Environment,
        ValueName::ExpiryTime,
        ValueName::From,
        ValueName::PermitListen,
        ValueName::PermitOpen,
        ValueName::Principals,
        ValueName::Tunnel,
    ];

    /// The name as sshd(8) writes it.
    pub fn name(self) -> &'static [u8]
        ensures { result.now ≡ value_name self }
    {
        row_of(LineOption::Setting(self)).0
    }

    /// The option with this name, in any ASCII case. `None` also for the name of a flag.
    pub fn named(name: &[u8]) -> Option<ValueName>
        ensures { result ≡ value_named name.now }
    {
        match option_named(name)? {
            LineOption::Switch(_) => None,
            LineOption::Setting(value) => Some(value),
        }
    }

    /// Whether it may appear only once on a line (this project's rule).
    pub fn is_single(self) -> bool
        ensures { result ≡ is_single self }
    {
        row_of(LineOption::Setting(self)).2 == Times::Once
    }
}

/// The names are equal without regard to ASCII case.
pub(crate) fn same_name(a: &[u8], b: &[u8]) -> bool
    ensures { result ≡ same_name a.now b.now }
{
    a.len() == b.len() && a.eq_ignore_ascii_case(b)
}
