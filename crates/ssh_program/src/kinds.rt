//! The format of trust files by their names.

ghost use Rattle.std.specs.Prelude.{◌≡◌, map, nat_eq, option_map};
ghost use Rattle.std.specs.List.{ends_with, list_all, list_any};
ghost use Rattle.ssh_program.specs.Defaults.{asks_known, ends_path, is_auth_name, is_hosts_name, is_known_name, says_known, suits_auth, suits_known, usual_kind};
ghost use Rattle.ssh_program.specs.WordPlacesView.{word_seen};

use crate::subcommand::Subcommand;
use crate::word::{Word, is_operand};

/// Whether a path ends with these bytes.
fn ends_as(end: &[u8], path: &str) -> bool
    ensures { result ≡ ends_with nat_eq path.now end.now }
{
    path.as_bytes().ends_with(end)
}

/// Whether the last component of a path is this one; `slashed` is the same behind a slash.
fn ends_path(component: &str, slashed: &[u8], path: &str) -> bool
    ensures { result ≡ ends_path component.now slashed.now path.now }
{
    path == component || ends_as(slashed, path)
}

fn is_auth_name(path: &str) -> bool
    ensures { result ≡ is_auth_name path.now }
{
    ends_path("authorized_keys", b"/authorized_keys", path)
        || ends_path("authorized_keys2", b"/authorized_keys2", path)
        || ends_as(b".authorized_keys", path)
}

fn is_hosts_name(path: &str) -> bool
    ensures { result ≡ is_hosts_name path.now }
{
    ends_path("known_hosts", b"/known_hosts", path)
        || ends_path("known_hosts2", b"/known_hosts2", path)
        || ends_path("ssh_known_hosts", b"/ssh_known_hosts", path)
}

fn is_known_name(path: &str) -> bool
    ensures { result ≡ is_known_name path.now }
{
    is_hosts_name(path) || ends_as(b".known_hosts", path)
}

fn suits_auth(word: &Word<'_>) -> bool
    ensures { result ≡ suits_auth (word_seen word.now) }
{
    !is_operand(word) || is_auth_name(word.text)
}

fn suits_known(word: &Word<'_>) -> bool
    ensures { result ≡ suits_known (word_seen word.now) }
{
    !is_operand(word) || is_known_name(word.text)
}

fn all_suit_auth(words: &[Word<'_>]) -> bool
    ensures { result ≡ list_all suits_auth (map word_seen words.now) }
{
    words.iter().all(|word| suits_auth(word))
}

fn all_suit_known(words: &[Word<'_>]) -> bool
    ensures { result ≡ list_all suits_known (map word_seen words.now) }
{
    words.iter().all(|word| suits_known(word))
}

/// The format that the names of all files agree on: `auth` or `known`.
pub fn usual_kind(words: &[Word<'_>]) -> Option<&'static str>
    ensures { option_map (λ kind. kind.now) result ≡ usual_kind (map word_seen words.now) }
{
    if all_suit_auth(words) {
        Some("auth")
    } else if all_suit_known(words) {
        Some("known")
    } else {
        None
    }
}

fn says_known(word: &Word<'_>) -> bool
    ensures { result ≡ says_known (word_seen word.now) }
{
    word.text == "--kind=known" || (word.before == b"--kind".as_slice() && word.text == "known")
}

fn any_says_known(words: &[Word<'_>]) -> bool
    ensures { result ≡ list_any says_known (map word_seen words.now) }
{
    words.iter().any(|word| says_known(word))
}

/// Whether a question without a file is about the user's `known_hosts`.
pub fn asks_known(command: Subcommand, words: &[Word<'_>]) -> bool
    ensures { result ≡ asks_known command (map word_seen words.now) }
{
    match command {
        Subcommand::Trusts => true,
        Subcommand::Review => any_says_known(words),
        _ => false,
    }
}
