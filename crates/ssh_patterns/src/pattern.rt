//! Matches texts against patterns with `*` and `?` (ssh_config(5), PATTERNS), and cuts texts at a
//! mark.

ghost use Rattle.std.specs.Prelude.{◌≡◌, ◌<◌, ◌≤◌, ◌^◌, [], ◌∷◌, length, option_map, ◌↔◌, ◌+◌, ◌*◌, ◌&&◌, false, IsTrue, map};
ghost use Rattle.ssh_patterns.specs.Cut.{cut_at, cut_near};
ghost use Rattle.ssh_patterns.specs.Digits.{below, number_in_radix, decimal_of};
ghost use Rattle.ssh_patterns.specs.Matching.{Matches, is_match, after_star, after_byte, folded};

use memchr::memchr;

/// The parts before and after the first such byte. Searches with `memchr`, which suits a long text.
pub(crate) fn cut_long(text: &[u8], mark: u8) -> Option<(&[u8], &[u8])>
    ensures { option_map (λ cut. (cut.0.now, cut.1.now)) result ≡ cut_at (mark ∷ []) text.now }
{
    match memchr(mark, text) {
        Some(at) => Some((&text[..at], &text[at + 1..])),
        None => None,
    }
}

/// The parts before and after the first such byte, if fewer bytes than the limit come before it.
pub(crate) fn cut_near(text: &[u8], mark: u8, limit: usize) -> Option<(&[u8], &[u8])>
    ensures { option_map (λ cut. (cut.0.now, cut.1.now)) result
        ≡ cut_near limit (mark ∷ []) text.now }
{
    for at in 0..text.len().min(limit) {
        if text[at] == mark {
            return Some((&text[..at], &text[at + 1..]));
        }
    }
    None
}

/// The parts before and after the first such byte, in a short text.
pub(crate) fn cut(text: &[u8], mark: u8) -> Option<(&[u8], &[u8])>
    ensures { option_map (λ cut. (cut.0.now, cut.1.now)) result ≡ cut_at (mark ∷ []) text.now }
{
    cut_near(text, mark, text.len())
}

/// The parts before and after the first place where the mark begins.
pub(crate) fn split_once<'a>(text: &'a [u8], mark: &[u8]) -> Option<(&'a [u8], &'a [u8])>
    requires { 0 < length mark.now }
    ensures { option_map (λ cut. (cut.0.now, cut.1.now)) result ≡ cut_at mark.now text.entry.now }
{
    for at in 0..text.len() {
        let (front, back) = text.split_at(at);
        if let Some(after) = back.strip_prefix(mark) {
            return Some((front, after));
        }
    }
    None
}

/// The number that digits of this radix give, if it is below the limit.
pub(crate) fn number(text: &[u8], radix: u32, limit: u32) -> Option<u32>
    requires radix { 2 ≤ radix }
    requires small { radix ≤ 16 }
    requires limit { limit ≤ 2 ^ 16 }
    requires some { 0 < limit }
    ensures { result ≡ below limit (number_in_radix radix text.now) }
{
    let mut number = 0;
    for byte in text {
        number = number * radix + char::from(*byte).to_digit(radix)?;
        if number >= limit {
            return None;
        }
    }
    Some(number)
}

/// The number below 256 that decimal digits without leading zeros give.
pub(crate) fn decimal(text: &[u8]) -> Option<u8>
    ensures { result ≡ below 256 (decimal_of text.now) }
{
    match text {
        // `010` is eight to one reader and ten to another.
        [] | [b'0', _, ..] => None,
        _ => number(text, 10, 256).map(|n| n as u8),
    }
}

/// How the bytes of a pattern and of a text are compared.
#[derive(Clone, Copy, Debug)]
pub(crate) enum Case {
    Exact,
    /// Both in ASCII lower case.
    Lower,
}

impl Case {
    /// The byte as it is compared.
    fn fold(self, byte: u8) -> u8
        ensures { result ≡ folded self byte }
    {
        match self {
            Case::Exact => byte,
            Case::Lower => byte.to_ascii_lowercase(),
        }
    }
}

/// What follows a star at the front of the pattern.
fn after_star(case: Case, pattern: &[u8]) -> Option<&[u8]>
    ensures { option_map (λ rest. map (folded case) rest.now) result
        ≡ after_star (map (folded case) pattern.now) }
{
    match pattern {
        [first, rest @ ..] if case.fold(*first) == b'*' => Some(rest),
        _ => None,
    }
}

/// What follows the first bytes of the pattern and of the text, where the pattern's first byte is
/// `?` or the two are equal.
fn after_byte<'p, 't>(case: Case, pattern: &'p [u8], text: &'t [u8]) -> Option<(&'p [u8], &'t [u8])>
    ensures { option_map (λ left. (map (folded case) left.0.now, map (folded case) left.1.now))
        result
        ≡ after_byte (map (folded case) pattern.entry.now) (map (folded case) text.entry.now) }
{
    match (pattern, text) {
        ([wanted, rest @ ..], [first, others @ ..]) => {
            let wanted = case.fold(*wanted);
            if wanted == b'?' || wanted == case.fold(*first) {
                Some((rest, others))
            } else {
                None
            }
        }
        _ => None,
    }
}

/// Removes bytes that match from the ends of the pattern and of the text, up to the last star.
/// Gives `false` where two bytes at the ends differ, so that the text cannot match, and what is
/// left of the pattern and of the text.
fn without_end<'p, 't>(case: Case, pattern: &'p [u8], text: &'t [u8]) -> (bool, &'p [u8], &'t [u8])
    ensures value { is_match (map (folded case) pattern.entry.now) (map (folded case) text.entry.now)
        ≡ (result.0
        && is_match (map (folded case) result.1.now) (map (folded case) result.2.now)) }
    ensures lengths { length result.1.now + length text.entry.now
        ≡ length result.2.now + length pattern.entry.now }
    ensures shorter { length result.2.now ≤ length text.entry.now }
    ensures differ { result.0 ≡ false → 0 < length result.1.now }
{
    let mut wanted = pattern;
    let mut left = text;
    while let [front @ .., last] = wanted {
        let [others @ .., byte] = left else {
            return (true, wanted, left);
        };
        let last = case.fold(*last);
        if last == b'*' {
            return (true, wanted, left);
        }
        if last != b'?' && last != case.fold(*byte) {
            return (false, wanted, left);
        }
        wanted = front;
        left = others;
    }
    (true, wanted, left)
}

/// Whether the text matches the pattern, compared by `case`, and the steps of the two loops. The
/// ends are compared first, because the last byte mostly shows that a text does not match.
pub(crate) fn matches_in(case: Case, pattern: &[u8], text: &[u8]) -> (bool, u128)
    ensures value { result.0 ≡ is_match (map (folded case) pattern.now)
        (map (folded case) text.now) }
    ensures most { result.1 ≤ (length pattern.now + 1) * (length text.now + 1) }
    ensures least { IsTrue result.0 → length text.now ≤ result.1 }
{
    let (alike, wanted, left) = without_end(case, pattern, text);
    let passed = (text.len() - left.len()) as u128;
    if !alike {
        return (false, passed + 1);
    }
    let (matches, steps) = matches_from_front(case, wanted, left);
    (matches, passed + steps)
}

/// Whether the text matches the pattern, compared by `case`, and the steps of the loop. A star
/// matches no bytes at first. Where what follows it does not match, the last star takes one byte
/// more. No earlier star has to take more: what it could still match, the last star can match too.
fn matches_from_front(case: Case, pattern: &[u8], text: &[u8]) -> (bool, u128)
    ensures value { result.0 ≡ is_match (map (folded case) pattern.now)
        (map (folded case) text.now) }
    ensures most { result.1 ≤ (length pattern.now + 1) * (length text.now + 1) }
    ensures least { IsTrue result.0 → length text.now ≤ result.1 }
{
    let mut steps = 0;
    let mut wanted = pattern;
    let mut left = text;
    // What follows the last star, and the text after the bytes that the star matches so far.
    let mut back: Option<(&[u8], &[u8])> = None;
    loop {
        steps += 1;
        if let Some(rest) = after_star(case, wanted) {
            back = Some((rest, left));
            wanted = rest;
        } else if let Some((rest, others)) = after_byte(case, wanted, left) {
            wanted = rest;
            left = others;
        } else if left.is_empty() {
            // If the last star took more bytes, even less text would be left for the rest of the
            // pattern.
            return (wanted.is_empty(), steps);
        } else {
            let Some((rest, [_, others @ ..])) = back else {
                return (false, steps);
            };
            back = Some((rest, others));
            wanted = rest;
            left = others;
        }
    }
}

/// `matches`, and the steps of its loops. In one step the matcher passes one byte of the pattern,
/// or the last star takes one byte more of the text. There are at most `(pattern.len() + 1) *
/// (text.len() + 1)` steps, and at least the length of a text that matches.
pub fn matches_counted(pattern: &[u8], text: &[u8]) -> (bool, u128)
    ensures rule { IsTrue result.0 ↔ Matches pattern.now text.now }
    ensures value { result.0 ≡ is_match pattern.now text.now }
    ensures most { result.1 ≤ (length pattern.now + 1) * (length text.now + 1) }
    // One step passes at most one byte of the text.
    ensures least { IsTrue result.0 → length text.now ≤ result.1 }
{
    matches_in(Case::Exact, pattern, text)
}

/// Whether the whole text matches the pattern, in which `*` matches any bytes, also none, `?`
/// matches one byte, and every other byte matches itself (ssh_config(5), PATTERNS). The matcher
/// takes at most `(pattern.len() + 1) * (text.len() + 1)` steps, as `matches_counted` counts them,
/// so a hostile pattern cannot make it exponential.
pub fn matches(pattern: &[u8], text: &[u8]) -> bool
    ensures rule { IsTrue result ↔ Matches pattern.now text.now }
    ensures value { result ≡ is_match pattern.now text.now }
{
    matches_counted(pattern, text).0
}
