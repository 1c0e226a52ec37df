//! The codes of findings, lists of codes, and the options of a review.

ghost use Rattle.std.specs.Prelude.{◌≡◌, ◌<◌, [], false, IfOk, IsOk, OnOk, ◌++◌, ◌∷◌, option_map};
ghost use Rattle.ssh_findings.specs.Codes.{code_named, code_place, code_text, default_codes, named_in, codes_in, listed_codes};
ghost use Rattle.ssh_patterns.specs.Lists.{pieces};
ghost use Rattle.ssh_findings.specs.Spare.{is_code_first, takes_codes};
ghost use Rattle.ssh_findings.specs.Asking.{asking_of, is_reported, short_size};

use jiff::tz::TimeZone;
use ssh_patterns::first_piece;
use std::alloc::{AllocError, Global};

/// The kind of a finding, by its printed code. A code that was once assigned keeps its meaning.
#[derive(Clone, Copy, Debug, PartialEq, Eq)]
pub enum Code {
    /// F1: the line cannot be read.
    Unreadable,
    /// F2: an earlier line has the same key; where that line does not admit it, this one may.
    SameKey,
    /// F3: the line never decides, for an earlier line admits the same key first.
    NeverDecides,
    /// F4: the same as F3, and the earlier line grants more.
    GivesMore,
    /// F5: the RSA key has fewer bits than the minimum.
    ShortKey,
    /// F6: the line has expired.
    Expired,
    /// F7: a `from` or `principals` list of the line permits nobody.
    PermitsNobody,
    /// F8: OpenSSH reads the line differently.
    ReadOtherwise,
    /// F9: the line forces a command but still permits forwarding.
    ForcedButForwards,
    /// F10: the line cannot be read and may revoke any key.
    UnreadableRevocation,
    /// F11: another line has a different key of the same type for one of the names.
    OtherKey,
    /// F12: a key that is both trusted and revoked.
    TrustedAndRevoked,
    /// F13: one key for all hosts that match a pattern.
    PatternHosts,
    /// F14: a certificate authority for every host.
    EveryHost,
    /// F15: the key is accepted from any address.
    AnyAddress,
    /// F16: the key may run any command.
    AnyCommand,
    /// F17: the key never expires.
    NoExpiry,
    /// F18: the authority's line has no `principals` list, so every certificate with the user's
    /// name is accepted.
    AnyPrincipal,
    /// F19: there is no comment.
    NoComment,
    /// F20: the host names of the line are not hashed.
    NamesInClear,
    /// F21: another line has the same host key.
    SameHostKey,
    /// F22: OpenSSH may refuse the line.
    MayRefuse,
}

impl Code {
    /// All codes, in ascending order.
    pub const ALL: [Code; 22] = [
        Code::Unreadable,
        Code::SameKey,
        Code::NeverDecides,
        Code::GivesMore,
        Code::ShortKey,
        Code::Expired,
        Code::PermitsNobody,
        Code::ReadOtherwise,
        Code::ForcedButForwards,
        Code::UnreadableRevocation,
        Code::OtherKey,
        Code::TrustedAndRevoked,
        Code::PatternHosts,
        Code::EveryHost,
        Code::AnyAddress,
        Code::AnyCommand,
        Code::NoExpiry,
        Code::AnyPrincipal,
        Code::NoComment,
        Code::NamesInClear,
        Code::SameHostKey,
        Code::MayRefuse,
    ];

    const DEFAULT: [Code; 15] = [
        Code::Unreadable,
        Code::SameKey,
        Code::NeverDecides,
        Code::GivesMore,
        Code::ShortKey,
        Code::Expired,
        Code::PermitsNobody,
        Code::ReadOtherwise,
        Code::ForcedButForwards,
        Code::UnreadableRevocation,
        Code::OtherKey,
        Code::TrustedAndRevoked,
        Code::PatternHosts,
        Code::EveryHost,
        Code::MayRefuse,
    ];

    /// The codes that are reported if no others are selected: F1 to F14 and F22, which are wrong
    /// under any policy.
    pub fn by_default() -> &'static [Code]
        ensures { result.now ≡ default_codes }
    {
        &Code::DEFAULT
    }

    /// The printed code, such as `F1`.
    pub fn name(self) -> &'static str
        ensures { result.now ≡ code_text self }
    {
        match self {
            Code::Unreadable => "F1",
            Code::SameKey => "F2",
            Code::NeverDecides => "F3",
            Code::GivesMore => "F4",
            Code::ShortKey => "F5",
            Code::Expired => "F6",
            Code::PermitsNobody => "F7",
            Code::ReadOtherwise => "F8",
            Code::ForcedButForwards => "F9",
            Code::UnreadableRevocation => "F10",
            Code::OtherKey => "F11",
            Code::TrustedAndRevoked => "F12",
            Code::PatternHosts => "F13",
            Code::EveryHost => "F14",
            Code::AnyAddress => "F15",
            Code::AnyCommand => "F16",
            Code::NoExpiry => "F17",
            Code::AnyPrincipal => "F18",
            Code::NoComment => "F19",
            Code::NamesInClear => "F20",
            Code::SameHostKey => "F21",
            Code::MayRefuse => "F22",
        }
    }

    /// The bytes of the printed code.
    pub fn text(self) -> &'static [u8]
        ensures { result.now ≡ code_text self }
    {
        self.name().as_bytes()
    }

    /// Its place among all codes: 0 for F1.
    pub(crate) fn place(self) -> usize
        ensures value { result ≡ code_place self }
        ensures few { result < 22 }
    {
        self as usize
    }

    /// The code with this printed text.
    #[tactic(auto, unfolding(crate::specs::Codes::code_named))]
    pub fn named(text: &[u8]) -> Option<Code>
        ensures { result ≡ code_named text.now }
    {
        named_in(&Code::ALL, text)
    }
}

/// The first of these codes with this printed text.
fn named_in(codes: &[Code], text: &[u8]) -> Option<Code>
    ensures { result ≡ named_in codes.now text.now }
{
    for code in codes {
        if code.text() == text {
            return Some(*code);
        }
    }
    None
}

/// Appends a code.
fn keep(found: &mut Vec<Code>, code: Code) -> Result<(), AllocError>
    ensures { OnOk result (found.new.items ≡ found.old.items ++ code ∷ []) }
{
    found.push(code)?;
    Ok(())
}

/// The codes of a comma-separated list, or `None` if any piece is not a code.
fn listed_codes(alloc: Global, text: &[u8]) -> Result<Option<Vec<Code>>, AllocError>
    ensures value { IfOk result
        (λ found. option_map (λ v. v.items) found ≡ listed_codes text.now) }
    ensures spare { is_code_first (pieces text.now) ≡ false → IsOk result }
{
    let mut found = Vec::new(alloc);
    let mut rest = Some(text);
    while let Some(pieces) = rest {
        let (piece, left) = first_piece(pieces);
        match Code::named(piece) {
            Some(code) => keep(&mut found, code)?,
            None => return Ok(None),
        }
        rest = left;
    }
    Ok(Some(found))
}

/// Reads the value of `--findings`: `all`, `none`, or codes separated by commas, in any order and
/// possibly repeated. `Ok(None)` for any other text, the empty one too.
#[tactic(auto, unfolding(crate::specs::Codes::codes_in))]
pub fn parse_codes(alloc: Global, text: &[u8]) -> Result<Option<Vec<Code>>, AllocError>
    ensures value { IfOk result (λ found. option_map (λ v. v.items) found ≡ codes_in text.now) }
    // Only the list of codes allocates: `none`, and a text whose first piece is not a code, are
    // answered even when allocation fails.
    ensures spare { takes_codes text.now ≡ false → IsOk result }
{
    if text == b"all".as_slice() {
        let found = Vec::from_slice(alloc, &Code::ALL)?;
        return Ok(Some(found));
    }
    if text == b"none".as_slice() {
        return Ok(Some(Vec::new(alloc)));
    }
    let found = listed_codes(alloc, text)?;
    Ok(found)
}

/// The options of a review.
#[derive(Clone, Copy, Debug)]
pub struct ReviewOptions<'a> {
    /// The current time in seconds since 1970-01-01 UTC. Expiry times before it are past.
    pub now: u64,
    /// The time zone of expiry times without `Z`.
    pub zone: &'a TimeZone<'a>,
    /// Whether that zone was given for these files: otherwise F8 is reported of such a time.
    pub is_zone_given: bool,
    /// The minimum size of an RSA key, in bits.
    pub rsa_minimum: u32,
    /// The codes of the findings to report.
    pub reported: &'a [Code],
}

impl ReviewOptions<'_> {
    /// Whether findings with this code are reported.
    pub fn reports(&self, code: Code) -> bool
        ensures { result ≡ is_reported (asking_of self.entry.now) code }
    {
        self.reported.contains(&code)
    }

    /// The size of an RSA key in bits, if it is below the minimum. Does not allocate.
    pub fn short_size(&self, bits: Option<u32>) -> Option<u32>
        ensures { result ≡ short_size (asking_of self.entry.now) bits }
    {
        match bits {
            Some(bits) if bits < self.rsa_minimum => Some(bits),
            _ => None,
        }
    }
}
