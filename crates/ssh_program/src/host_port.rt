//! A host and its port in one word, `[h]:p` or `h:p`, as the words of `--host` and `--port`.

ghost use Rattle.std.specs.Prelude.{◌≡◌, ◌++◌, ◌<◌, ℕ, OnOk, map, option_and_then, option_map, string_bytes};
ghost use Rattle.std.specs.List.{list_all};
ghost use Rattle.ssh_files.specs.Values.{is_digit};
ghost use Rattle.ssh_program.specs.HostPorts.{behind, between, bracket_parts, cut, host_and, host_parts, host_value, parted, parts_by, parts_in, plain_parts, value_of_host};
ghost use Rattle.ssh_program.specs.HostPortsView.{pair_seen};
ghost use Rattle.ssh_program.specs.WordPlacesView.{word_seen};

use crate::defaults::push_text;
use crate::word::{Place, Word};
use std::alloc::{AllocError, Global};

/// A host and a port, or what stands before and behind a mark.
type Parts<'a> = (&'a str, &'a str);

/// What stands before and behind the first of these marks.
pub fn cut(text: &str, mark: char) -> Option<Parts<'_>>
    requires { mark < 128 }
    ensures { option_map pair_seen result ≡ cut mark text.now }
{
    text.split_once(mark)
}

fn are_digits(text: &str) -> bool
    ensures { result ≡ list_all is_digit text.now }
{
    text.as_bytes()
        .iter()
        .all(|byte| *byte >= b'0' && *byte <= b'9')
}

/// The two, if neither is empty and the port is digits alone.
fn host_and<'a>(host: &'a str, port: &'a str) -> Option<Parts<'a>>
    ensures { option_map pair_seen result ≡ host_and host.now port.now }
{
    if !host.is_empty() && !port.is_empty() && are_digits(port) {
        Some((host, port))
    } else {
        None
    }
}

/// The parts of `h:p`.
fn plain_parts(text: &str) -> Option<Parts<'_>>
    ensures { option_map pair_seen result ≡ plain_parts text.now }
{
    let (host, port) = cut(text, ':')?;
    host_and(host, port)
}

/// What stands behind a mark, if the text begins with it.
fn behind(text: &str, mark: char) -> Option<&str>
    requires { mark < 128 }
    ensures { option_map (λ rest. rest.now) result ≡ behind mark text.now }
{
    let (front, rest) = cut(text, mark)?;
    if front.is_empty() { Some(rest) } else { None }
}

/// The parts of `[h]:p`.
fn bracket_parts(text: &str) -> Option<Parts<'_>>
    ensures { option_map pair_seen result ≡ bracket_parts text.now }
{
    let (open, close) = cut(text, ']')?;
    let host = behind(open, '[')?;
    let port = behind(close, ':')?;
    host_and(host, port)
}

/// The host and the port of a text that has both.
fn host_parts(text: &str) -> Option<Parts<'_>>
    ensures { option_map pair_seen result ≡ host_parts text.now }
{
    match bracket_parts(text) {
        Some(parts) => Some(parts),
        None => plain_parts(text),
    }
}

/// The value in `--host=VALUE`.
fn open_value(text: &str) -> Option<&str>
    ensures { option_map (λ value. value.now) result
        ≡ option_and_then value_of_host (cut 61 text.now) }
{
    let (name, value) = cut(text, '=')?;
    if name == "--host" { Some(value) } else { None }
}

/// The value that a word gives to `--host`.
fn host_value<'a>(word: &Word<'a>) -> Option<&'a str>
    ensures { option_map (λ value. value.now) result
        ≡ host_value (word_seen word.now).place (word_seen word.now) }
{
    match word.place {
        Place::Open => open_value(word.text),
        Place::AfterOption if word.before == b"--host".as_slice() => Some(word.text),
        _ => None,
    }
}

/// The host and the port that a word gives to `--host`.
pub fn parts_in<'a>(word: &Word<'a>) -> Option<Parts<'a>>
    ensures { option_map pair_seen result ≡ parts_in (word_seen word.now) }
{
    host_parts(host_value(word)?)
}

/// Appends the words that stand in place of a word that gives a host and a port.
pub fn push_parted(
    alloc: Global,
    out: &mut Vec<String>,
    place: Place,
    parts: Parts<'_>,
) -> Result<(), AllocError>
    ensures { OnOk result (map string_bytes out.new.items
        ≡ map string_bytes out.old.items ++ parted place (pair_seen parts.entry)) }
{
    if place == Place::Open {
        push_text(alloc, out, "--host")?;
    }
    push_text(alloc, out, parts.0)?;
    push_text(alloc, out, "--port")?;
    push_text(alloc, out, parts.1)?;
    Ok(())
}
