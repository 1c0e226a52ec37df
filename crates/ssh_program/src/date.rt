//! A date and a time of day in UTC as the value of `--now`.

ghost use Rattle.std.specs.Prelude.{◌≡◌};
ghost use Rattle.jiff.specs.Words.{parse_timestamp};
ghost use Rattle.ssh_program.specs.Dates.{date_seconds, is_date_form, natural_of, seconds_in};

use jiff::Timestamp;

/// Whether a text has the form `YYYY-MM-DDTHH:MM:SSZ`, whatever stands for the digits.
fn has_form(text: &[u8]) -> bool
    ensures { result ≡ is_date_form text.now }
{
    text.len() == 20
        && text[4] == b'-'
        && text[7] == b'-'
        && text[10] == b'T'
        && text[13] == b':'
        && text[16] == b':'
        && text[19] == b'Z'
}

fn natural(seconds: i64) -> Option<u64>
    ensures { result ≡ natural_of seconds }
{
    if seconds < 0 {
        None
    } else {
        Some(seconds as u64)
    }
}

/// The seconds of an instant by its text.
fn read_seconds(text: &str) -> Option<i64>
    ensures { result ≡ seconds_in (parse_timestamp text.now) }
{
    match text.parse::<Timestamp>() {
        Ok(instant) => Some(instant.as_second()),
        Err(_) => None,
    }
}

/// The seconds since 1970-01-01 UTC of a date and a time in UTC, as `2026-11-27T15:25:08Z` (RFC
/// 3339, whole seconds); `None` of another text, and before 1970.
pub fn date_seconds(text: &str) -> Option<u64>
    ensures { result ≡ date_seconds text.now }
{
    if !has_form(text.as_bytes()) {
        return None;
    }
    natural(read_seconds(text)?)
}
