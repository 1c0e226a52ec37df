//! Reads the values of arguments and of input files.

ghost use Rattle.std.specs.Prelude.{◌≡◌, option_map, IfOk, ◌≤◌, map, IsOk, false, length, Some, None, if◌then◌else◌, ◌%◌, ◌<◌, ◌^◌, nat_lt, IfSome};
ghost use Rattle.ssh_files.specs.Salts.{salts_of};
ghost use Rattle.base64.specs.Engines.{standard};
ghost use Rattle.base64.specs.GeneralPurpose.{decoded_of};
ghost use Rattle.jiff.specs.Words.{plain_zone};
ghost use Rattle.ssh_files.specs.Values.{ReadsZone, zone_text, empty_principals_of, has_pairs, hex_bytes, pair_values, is_digit, number_below, short_hex};
ghost use Rattle.std.specs.List.{position, position_or_len, list_all};
ghost use Rattle.ssh_files.specs.Words.{is_space, is_text, keeps_words, words_in};

use base64::DecodeAllocError;
use base64::engine::general_purpose::STANDARD;
use hex::FromHexError;
use jiff::tz::TimeZone;
use ssh_offers::EmptyPrincipals;
use ssh_text::LINE_LIMIT;
use std::alloc::{AllocError, Global};

/// The salts of a file of salts: 20 raw bytes each, without separators. `None` where the length is
/// not a multiple of 20; an empty file has no salts.
pub fn read_salts(bytes: &[u8]) -> Option<&[[u8; 20]]>
    ensures { option_map (λ salts. salts.now) result ≡ salts_of bytes.now }
{
    match bytes.as_chunks() {
        (salts, []) => Some(salts),
        _ => None,
    }
}

/// The bytes that the text is the canonical base64 of; `None` where it is not base64.
#[tactic(auto, unfolding(base64::specs::GeneralPurpose::decoded_of))]
pub fn decode(alloc: Global, text: &[u8]) -> Result<Option<Vec<u8>>, AllocError>
    ensures { IfOk result (λ blob. option_map (λ v. v.items) blob ≡ decoded_of standard text.now) }
{
    match STANDARD.decode(alloc, text) {
        Ok(blob) => Ok(Some(blob)),
        Err(DecodeAllocError::DecodeError(_)) => Ok(None),
        Err(DecodeAllocError::OutOfMemory) => Err(AllocError),
    }
}

/// The time zone of a POSIX TZ rule; `None` where the text is not one.
fn read_zone(text: &str) -> Option<TimeZone<'static>>
    ensures { ReadsZone text.now (option_map plain_zone result) }
{
    TimeZone::posix(text).ok()
}

/// The time zone of expiry times that name none: that of the option, otherwise UTC.
pub fn zone_of(text: Option<&str>) -> Option<TimeZone<'static>>
    ensures { ReadsZone (zone_text (option_map (λ s. s.now) text.entry))
        (option_map plain_zone result) }
{
    match text {
        Some(text) => read_zone(text),
        None => read_zone("UTC0"),
    }
}

fn find_space(text: &[u8]) -> Option<usize>
    ensures { result ≡ position is_space text.now }
{
    text.iter().position(|b| *b == b' ')
}

/// How many bytes there are before the first space.
#[tactic(auto, using(crate::proofs::WordLemmas::position_or_len_found))]
fn word_len(text: &[u8]) -> usize
    ensures value { result ≡ position_or_len is_space text.now }
    ensures bound { result ≤ length text.now }
{
    find_space(text).unwrap_or(text.len())
}

/// The argument as text, if it is UTF-8.
fn read_word(word: &[u8]) -> Option<&str>
    ensures { option_map (λ w. w.now) result ≡ (if is_text word.now then Some word.now else None) }
{
    match str::from_utf8(word) {
        Ok(text) => Some(text),
        Err(_) => None,
    }
}

/// The arguments on a line, separated by one or more spaces. There are none where the line is
/// longer than 65,536 bytes or is not UTF-8.
pub fn read_words<'a>(alloc: Global, line: &'a [u8]) -> Result<Vec<&'a str>, AllocError>
    ensures value { IfOk result (λ words. map (λ w. w.now) words.items ≡ words_in line.entry.now) }
    // Memory is allocated only for an argument that is stored.
    ensures spare { keeps_words line.entry.now ≡ false → IsOk result }
{
    let mut words = Vec::new(alloc);
    if line.len() > LINE_LIMIT {
        return Ok(words);
    }
    let mut rest = line;
    while !rest.is_empty() {
        let end = word_len(rest);
        if end == 0 {
            let (_, after) = rest.split_at(1);
            rest = after;
            continue;
        }
        let (word, following) = rest.split_at(end);
        let Some(word) = read_word(word) else {
            return Ok(Vec::new(alloc));
        };
        words.push(word)?;
        rest = following;
    }
    Ok(words)
}

/// The bytes of pairs of hexadecimal digits.
fn read_pairs(alloc: Global, text: &[u8]) -> Result<Option<Vec<u8>>, AllocError>
    ensures value { IfOk result (λ bytes. option_map (λ v. v.items) bytes ≡ pair_values text.now) }
    ensures spare { length text.now % 2 ≡ 1 → IsOk result }
{
    match hex::decode(alloc, text) {
        Ok(bytes) => Ok(Some(bytes)),
        Err(FromHexError::OutOfMemory) => Err(AllocError),
        Err(_) => Ok(None),
    }
}

/// The bytes of a hexadecimal text: two digits for each byte, in either case, or `-` for no bytes.
/// `None` for any other text, the empty one too.
pub fn read_hex(alloc: Global, text: &[u8]) -> Result<Option<Vec<u8>>, AllocError>
    ensures value { IfOk result (λ bytes. option_map (λ v. v.items) bytes ≡ hex_bytes text.now) }
    // Only pairs of digits need memory: a dash, an empty text and one of odd length never fail.
    ensures spare { has_pairs text.now ≡ false → IsOk result }
{
    if text == b"-".as_slice() {
        return Ok(Some(Vec::new(alloc)));
    }
    if text.is_empty() {
        return Ok(None);
    }
    let bytes = read_pairs(alloc, text)?;
    Ok(bytes)
}

/// Whether these bytes fit a string of the login bytes: there are fewer than 2^32 (RFC 4251 section
/// 5).
pub fn is_short(bytes: &[u8]) -> bool
    ensures { result ≡ nat_lt (length bytes.now) (2 ^ 32) }
{
    bytes.len() < 1 << 32
}

/// The bytes of a hexadecimal text, where they fit a string of the login bytes.
pub fn read_short_hex(alloc: Global, text: &[u8]) -> Result<Option<Vec<u8>>, AllocError>
    ensures value { IfOk result (λ bytes. option_map (λ v. v.items) bytes ≡ short_hex text.now) }
    ensures short { IfOk result (λ bytes. IfSome bytes (λ v. length v.items < 2 ^ 32)) }
    ensures spare { has_pairs text.now ≡ false → IsOk result }
{
    match read_hex(alloc, text)? {
        Some(bytes) if is_short(&bytes) => Ok(Some(bytes)),
        _ => Ok(None),
    }
}

fn are_digits(text: &[u8]) -> bool
    ensures { result ≡ list_all is_digit text.now }
{
    text.iter().all(|b| *b >= b'0' && *b <= b'9')
}

/// The number below 2^64 of a decimal text, without a sign; leading zeros are accepted.
pub fn read_number(text: &str) -> Option<u64>
    ensures { result ≡ number_below (2 ^ 64) text.now }
{
    if !are_digits(text.as_bytes()) {
        return None;
    }
    text.parse::<u64>().ok()
}

/// The port of a decimal text, from 0 to 65535, without a sign; leading zeros are accepted.
pub fn read_port(text: &str) -> Option<u16>
    ensures { result ≡ number_below (2 ^ 16) text.now }
{
    let number = read_number(text)?;
    u16::try_from(number).ok()
}

/// The number of bits of a decimal text, below 2^32, without a sign; leading zeros are accepted.
pub fn read_bits(text: &str) -> Option<u32>
    ensures { result ≡ number_below (2 ^ 32) text.now }
{
    let number = read_number(text)?;
    u32::try_from(number).ok()
}

/// Whom a certificate without principals is for, by the text `any` or `never`.
pub fn read_empty_principals(text: &str) -> Option<EmptyPrincipals>
    ensures { result ≡ empty_principals_of text.now }
{
    if text == "any" {
        Some(EmptyPrincipals::Any)
    } else if text == "never" {
        Some(EmptyPrincipals::Never)
    } else {
        None
    }
}
