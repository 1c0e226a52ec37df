//! Reads the text of an expiry time as a moment in seconds from the start of 1970 (sshd(8),
//! expiry-time).

ghost use Rattle.std.specs.Prelude.{◌≡◌, pos, neg_ℤ, ◌-ℤ◌, ℤ, IfOk, IfSome, is_some, Ok, Some, ◌≤◌, ◌≤ℤ◌, drop, IsTrue};
ghost use Rattle.jiff.specs.Words.{plain_zone, civil_nanos, civil_seconds, ambiguous_at, compatible_offset, IsWithin, IsBetween};
ghost use Rattle.ssh_options.specs.Expiry.{IsMoment, IsShown, without_z, is_expiry_text, is_utc, offset_seconds, digits_at, year_of, has_form, is_civil_text};
ghost use Rattle.ssh_options.specs.Moment.{moment_of};
ghost use Rattle.std.specs.List.{list_all};
ghost use Rattle.std.specs.Char.{is_ascii_digit, digit_value};

use jiff::civil::{DateTime, datetime};
use jiff::tz::{AmbiguousOffset, TimeZone};
use ssh_text::{ends_with, without_last};
use std::alloc::{AllocError, Global};

/// The start of 1970, from which moments are counted, as the date and time of a clock in UTC.
pub fn epoch() -> DateTime
    ensures { civil_nanos result ≡ pos 0 }
{
    datetime(1970, 1, 1, 0, 0, 0, 0)
}

/// The seconds from the start of 1970 to this date and time, without a time zone.
fn seconds_at(shown: DateTime) -> i64
    requires { shown.time.subsec_nanosecond ≡ 0 }
    ensures value { result ≡ civil_seconds shown }
    ensures range { IsWithin 377_705_116_800 result }
{
    shown.duration_since(epoch()).as_secs()
}

/// The seconds by which a clock of the zone is ahead of UTC. A time that the clock shows twice (a
/// fold) takes the offset of the earlier instant; a time that it skips (a gap) takes the offset
/// before the gap.
fn zone_offset(zone: &TimeZone<'_>, shown: DateTime) -> i32
    ensures value { result ≡ (compatible_offset (ambiguous_at (plain_zone zone.now) shown)).seconds }
    ensures range { IsWithin 93_599 result }
{
    match zone.to_ambiguous_timestamp(shown).offset() {
        AmbiguousOffset::Unambiguous { offset } => offset.seconds(),
        AmbiguousOffset::Gap { before, .. } => before.seconds(),
        AmbiguousOffset::Fold { before, .. } => before.seconds(),
    }
}

/// The seconds by which the clock of an expiry text is ahead of UTC: 0 after a `Z` and in the year
/// 9999, else the offset of the zone.
fn offset_of(text: &[u8], zone: &TimeZone<'_>, shown: DateTime) -> i64
    requires { IsShown (without_z text.now) shown }
    ensures value { result ≡ offset_seconds (is_utc text.now) (plain_zone zone.now) shown }
    ensures range { IsWithin 93_599 result }
{
    if ends_with(b'Z', text) || shown.year() == 9999 {
        0
    } else {
        zone_offset(zone, shown) as i64
    }
}

/// The moment of an expiry text (sshd(8), expiry-time), in seconds from the start of 1970 in UTC:
/// `YYYYMMDD`, `YYYYMMDDHHMM` or `YYYYMMDDHHMMSS` and an optional `Z`, for a date and a time of day
/// that exist. With `Z` it is read in UTC, else in the zone: a fold takes the earlier instant, a
/// gap the offset before it, and in the year 9999 UTC is used. Any other text gives `None`. Nothing
/// is allocated, so `Err` is never returned.
pub fn expiry(_alloc: Global, text: &[u8], zone: &TimeZone<'_>) -> Result<Option<i64>, AllocError>
    // The moment, or `None`.
    ensures exact { result ≡ Ok (moment_of text.now (plain_zone zone.now)) }
    // A moment that is returned is that of the text.
    ensures found { IfOk result
        (λ moment. IfSome moment (IsMoment text.now (plain_zone zone.now))) }
    // The moment of the text is returned.
    ensures only { (moment : ℤ)
        → IsMoment text.now (plain_zone zone.now) moment
        → result ≡ Ok (Some moment) }
    // Each text of the form has a moment.
    ensures some { IfOk result (λ moment. is_some moment ≡ is_expiry_text text.now) }
{
    let moment = moment_of(text, zone);
    Ok(moment)
}

fn moment_of(text: &[u8], zone: &TimeZone<'_>) -> Option<i64>
    ensures { result ≡ moment_of text.now (plain_zone zone.now) }
{
    let Some(shown) = read_civil(without_last(b'Z', text)) else {
        return None;
    };
    Some(seconds_at(shown) - offset_of(text, zone, shown))
}

fn digit(byte: u8) -> u8
    requires { IsTrue (is_ascii_digit byte) }
    ensures value { result ≡ digit_value byte }
    ensures bound { result ≤ 9 }
{
    byte - b'0'
}

fn after(text: &[u8], place: usize) -> &[u8]
    ensures { result.now ≡ drop place text.now }
{
    if place < text.len() {
        &text[place..]
    } else {
        &[]
    }
}

/// The number of the two digits at a place. Digits that are missing at the end are left out, so
/// that a text without a time of day gives 0.
fn two_digits(digits: &[u8], place: usize) -> u8
    requires { IsTrue (list_all is_ascii_digit digits.now) }
    ensures value { result ≡ digits_at digits.now place 2 }
    ensures bound { result ≤ 99 }
{
    match after(digits, place) {
        [] => 0,
        [ones] => digit(*ones),
        [tens, ones, ..] => digit(*tens) * 10 + digit(*ones),
    }
}

fn are_digits(text: &[u8]) -> bool
    ensures { result ≡ list_all is_ascii_digit text.now }
{
    text.iter().all(|byte| byte.is_ascii_digit())
}

fn has_form(text: &[u8]) -> bool
    ensures { result ≡ has_form text.now }
{
    (text.len() == 8 || text.len() == 12 || text.len() == 14) && are_digits(text)
}

fn part(digits: &[u8], place: usize) -> i8
    requires { IsTrue (list_all is_ascii_digit digits.now) }
    ensures value { result ≡ pos (digits_at digits.now place 2) }
    ensures bound { result ≤ℤ pos 99 }
{
    two_digits(digits, place) as i8
}

fn year(digits: &[u8]) -> i16
    requires { IsTrue (has_form digits.now) }
    ensures value { result ≡ pos (year_of digits.now) }
    ensures bound { result ≤ℤ pos 9999 }
{
    let year = two_digits(digits, 0) as u16 * 100 + two_digits(digits, 2) as u16;
    year as i16
}

/// The date and the time of day that the digits give, if the calendar and a clock have them.
pub(crate) fn read_civil(digits: &[u8]) -> Option<DateTime>
    ensures is { is_some result ≡ is_civil_text digits.now }
    ensures shown { IfSome result (λ shown. IsShown digits.now shown) }
{
    if !has_form(digits) {
        return None;
    }
    let (month, day) = (part(digits, 4), part(digits, 6));
    let (hour, minute, second) = (part(digits, 8), part(digits, 10), part(digits, 12));
    DateTime::new(year(digits), month, day, hour, minute, second, 0).ok()
}

/// Whether the text is an expiry time (sshd(8), expiry-time): 8, 12 or 14 digits for a date and a
/// time of day that exist, and an optional `Z`.
#[tactic(auto, unfolding(crate::specs::Expiry::is_expiry_text))]
pub fn is_expiry_text(text: &[u8]) -> bool
    ensures { result ≡ is_expiry_text text.now }
{
    read_civil(without_last(b'Z', text)).is_some()
}
