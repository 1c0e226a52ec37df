//! Checks of the option values that are passed on unread (`environment`, `permitopen`,
//! `permitlisten`, `tunnel`) against the forms that OpenSSH accepts.

ghost use Rattle.std.specs.Prelude.{◌≡◌, ◌-◌, ◌≤◌, length};
ghost use Rattle.ssh_findings.specs.Carried.{has_listen, has_open, is_environment, is_listen, is_open, is_tunnel};
ghost use Rattle.std.specs.List.{prefix_len};
ghost use Rattle.ssh_findings.specs.OpenSsh.{are_digits, host_len, is_colon_port, is_device, is_decimal_digit, is_host_port, is_in_brackets, is_listen_port, is_of_host, is_of_name, is_port, is_port_number, is_setting, is_within_ports};

use ssh_rights::{Carried, CarriedName};

pub(crate) fn is_environment(carried: &Carried) -> bool
    ensures { result ≡ is_environment carried.now }
{
    matches!(carried.name, CarriedName::Environment)
}

pub(crate) fn is_open(carried: &Carried) -> bool
    ensures { result ≡ is_open carried.now }
{
    matches!(carried.name, CarriedName::PermitOpen)
}

pub(crate) fn is_listen(carried: &Carried) -> bool
    ensures { result ≡ is_listen carried.now }
{
    matches!(carried.name, CarriedName::PermitListen)
}

pub(crate) fn is_tunnel(carried: &Carried) -> bool
    ensures { result ≡ is_tunnel carried.now }
{
    matches!(carried.name, CarriedName::Tunnel)
}

/// Whether the line has a `permitopen` option.
pub(crate) fn has_open(carried: &[Carried]) -> bool
    ensures { result ≡ has_open carried.now }
{
    for text in carried {
        if is_open(text) {
            return true;
        }
    }
    false
}

/// Whether the line has a `permitlisten` option.
pub(crate) fn has_listen(carried: &[Carried]) -> bool
    ensures { result ≡ has_listen carried.now }
{
    for text in carried {
        if is_listen(text) {
            return true;
        }
    }
    false
}

/// The largest TCP port.
const LAST_PORT: u32 = 65535;

/// The most bytes of a host: one fewer than `NI_MAXHOST`.
const HOST_LIMIT: usize = 1024;

pub(crate) fn is_decimal_digit(byte: u8) -> bool
    ensures { result ≡ is_decimal_digit byte }
{
    b'0' <= byte && byte <= b'9'
}

fn are_digits(text: &[u8]) -> bool
    ensures { result ≡ are_digits text.now }
{
    text.iter().all(|byte| is_decimal_digit(*byte))
}

/// The value of a decimal digit.
fn digit(byte: u8) -> u32
    ensures { result ≡ byte - 48 }
{
    u32::from(byte).saturating_sub(48)
}

/// Whether these digits are at most four, or five with a value of at most 65535.
fn is_within_ports(text: &[u8]) -> bool
    ensures { result ≡ is_within_ports text.now }
{
    match text {
        [a, b, c, d, e] => {
            let thousands = digit(*a) * 10 + digit(*b);
            let rest = (thousands * 10 + digit(*c)) * 10 + digit(*d);
            rest * 10 + digit(*e) <= LAST_PORT
        }
        _ => text.len() < 5,
    }
}

/// Whether a text is a number from 1 to 65535 without leading zeros.
fn is_port_number(text: &[u8]) -> bool
    ensures { result ≡ is_port_number text.now }
{
    !text.is_empty() && are_digits(text) && !matches!(text, [b'0', ..]) && is_within_ports(text)
}

fn is_port(text: &[u8]) -> bool
    ensures { result ≡ is_port text.now }
{
    text == b"*".as_slice() || is_port_number(text)
}

/// The number of bytes before the first `:` or `/`, or of all bytes if there is neither.
fn plain_host_len(text: &[u8]) -> usize
    ensures value { result ≡ prefix_len is_of_host text.now }
    ensures within { result ≤ length text.now }
{
    for (i, byte) in text.iter().enumerate() {
        if *byte == b':' || *byte == b'/' {
            return i;
        }
    }
    text.len()
}

/// The number of bytes before the first `]`, or of all bytes if there is none.
fn bracketed_len(text: &[u8]) -> usize
    ensures value { result ≡ prefix_len is_in_brackets text.now }
    ensures within { result ≤ length text.now }
{
    for (i, byte) in text.iter().enumerate() {
        if *byte == b']' {
            return i;
        }
    }
    text.len()
}

/// The length of the host at the front of a text: with its `]` if it begins with `[`, else up to
/// the first `:` or `/`.
#[tactic(auto, unfolding(crate::specs::OpenSsh::host_len))]
fn host_len(text: &[u8]) -> usize
    ensures value { result ≡ host_len text.now }
    ensures within { result ≤ length text.now }
{
    match text {
        [b'[', ..] => (bracketed_len(text) + 1).min(text.len()),
        _ => plain_host_len(text),
    }
}

fn is_colon_port(text: &[u8]) -> bool
    ensures { result ≡ is_colon_port text.now }
{
    match text {
        [b':', port @ ..] => is_port(port),
        _ => false,
    }
}

/// Whether a text has the form `host:port`, where the port may be `*`.
#[tactic(auto, unfolding(crate::specs::OpenSsh::is_host_port))]
pub(crate) fn is_host_port(text: &[u8]) -> bool
    ensures { result ≡ is_host_port text.now }
{
    let host = host_len(text);
    0 < host && host <= HOST_LIMIT && is_colon_port(&text[host..])
}

/// Whether a text has the form `port` or `host:port`.
pub(crate) fn is_listen_port(text: &[u8]) -> bool
    ensures { result ≡ is_listen_port text.now }
{
    is_port(text) || is_host_port(text)
}

/// Whether a byte is allowed in the name of an environment variable.
fn is_of_name(byte: u8) -> bool
    ensures { result ≡ is_of_name byte }
{
    is_decimal_digit(byte)
        || (b'A' <= byte && byte <= b'Z')
        || (b'a' <= byte && byte <= b'z')
        || byte == b'_'
}

/// The number of bytes at the front that are allowed in the name of an environment variable.
fn name_len(text: &[u8]) -> usize
    ensures value { result ≡ prefix_len is_of_name text.now }
    ensures within { result ≤ length text.now }
{
    for (i, byte) in text.iter().enumerate() {
        if !is_of_name(*byte) {
            return i;
        }
    }
    text.len()
}

/// Whether a text has the form `NAME=value`.
#[tactic(auto, unfolding(crate::specs::OpenSsh::is_setting))]
pub(crate) fn is_setting(text: &[u8]) -> bool
    ensures { result ≡ is_setting text.now }
{
    let name = name_len(text);
    0 < name && matches!(&text[name..], [b'=', ..])
}

/// Whether a text names a tunnel device: `any`, or a number of at most nine digits.
#[tactic(auto, unfolding(crate::specs::OpenSsh::is_device))]
pub(crate) fn is_device(text: &[u8]) -> bool
    ensures { result ≡ is_device text.now }
{
    text == b"any".as_slice() || (!text.is_empty() && text.len() < 10 && are_digits(text))
}
