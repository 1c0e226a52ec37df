//! Comma-separated lists whose items a `!` may negate (ssh_config(5), PATTERNS).

ghost use Rattle.std.specs.Prelude.{◌≡◌, List, ℕ, Bool, IsTrue, Some, None, IfSome, if◌then◌else◌, ◌∷◌, ◌<◌, ◌≤◌, ◌+◌, ◌*◌, ◌^◌, length, option_copied, option_map, ◌↔◌};
ghost use Rattle.ssh_patterns.specs.Lists.{is_yes, Item, item_of, pieces, pieces_left, length_left, permit_by, MatchesInLowerCase, Permits, host_list};

use crate::pattern::{Case, cut_long, matches_in};
use std::marker::Model;

/// The answer of a list of patterns, nets or addresses.
#[derive(Clone, Copy, Debug, PartialEq, Eq)]
pub enum Permit {
    /// Some item matches, and no negated item does.
    Yes,
    /// No item matches, or a negated item does.
    No,
    /// Some item is not allowed in such a list. The list was meant to restrict, but how is not
    /// known, so it permits nothing.
    Bad,
}

impl Permit {
    /// Whether the answer is `Yes`. A bad list does not permit.
    pub fn is_yes(self) -> bool
        ensures { result ≡ is_yes self }
    {
        match self {
            Permit::Yes => true,
            Permit::No | Permit::Bad => false,
        }
    }
}

/// What is matched against the items of a list: a host name, the source of a login, or an address.
pub(crate) trait ItemMatcher {
    /// The item is not allowed in such a list.
    ghost is_bad: { Self → Item → Bool };

    /// The item matches.
    ghost is_match: { Self → List ℕ → Bool };

    /// The most steps of the matcher for each byte of an item, and for the item's end.
    ghost most_steps: { Self → ℕ };

    /// The fewest steps for an item that matches.
    ghost least_steps: { Self → ℕ };

    /// Whether an item matches, and the steps that this took; `None` where the item is not allowed
    /// in such a list.
    fn judge(&self, negated: bool, item: &[u8]) -> Option<(bool, u128)>
        ensures value { option_map (λ judged. judged.0) result
            ≡ (if is_bad self.now (record { negated = negated; text = item.now }) then
            None
            else Some (is_match self.now item.now)) }
        ensures most { IfSome result
            (λ judged. judged.1 ≤ (length item.now + 1) * most_steps self.now) }
        ensures least { IfSome result
            (λ judged. IsTrue judged.0 → least_steps self.now ≤ judged.1) };
}

/// The first piece of a list, and the rest of the list after its comma, if it has one. Blanks are
/// part of a piece.
pub fn first_piece(list: &[u8]) -> (&[u8], Option<&[u8]>)
    ensures pieces { pieces list.now ≡ result.0.now ∷ pieces_left (option_copied result.1) }
    ensures shorter { IfSome result.1 (λ left. length left.now < length list.now) }
    ensures lengths { length result.0.now + 1 + length_left (option_copied result.1)
        ≤ length list.now + 1 }
{
    match cut_long(list, b',') {
        Some((piece, left)) => (piece, Some(left)),
        None => (list, None),
    }
}

/// Whether a piece is negated, and its item: the piece without the `!`.
fn item_of(piece: &[u8]) -> (bool, &[u8])
    ensures value { record { negated = result.0; text = result.1.now } ≡ item_of piece.now }
    ensures length { length result.1.now ≤ length piece.now }
{
    match piece {
        [b'!', item @ ..] => (true, item),
        _ => (false, piece),
    }
}

/// The answer of the list in one pass over the pieces, and the steps that this took. The pass ends
/// at the first bad item.
pub(crate) fn list_permit<A: ItemMatcher>(list: &[u8], asked: &A) -> (Permit, u128)
    // Bounds the steps for one byte, so that their sum fits in 128 bits.
    requires { A.most_steps asked.now ≤ 2 ^ 64 }
    ensures value { result.0 ≡ permit_by (A.is_bad asked.now) (A.is_match asked.now) list.now }
    ensures most { result.1 ≤ (length list.now + 1) * A.most_steps asked.now }
    ensures least { IsTrue (is_yes result.0) → A.least_steps asked.now ≤ result.1 }
{
    let mut matched = false;
    let mut refused = false;
    let mut steps = 0;
    let mut rest = Some(list);
    while let Some(pieces) = rest {
        let (piece, left) = first_piece(pieces);
        let (negated, item) = item_of(piece);
        match asked.judge(negated, item) {
            None => return (Permit::Bad, steps),
            Some((matches, taken)) => {
                refused |= negated && matches;
                matched |= !negated && matches;
                steps += taken;
            }
        }
        rest = left;
    }
    if matched && !refused {
        (Permit::Yes, steps)
    } else {
        (Permit::No, steps)
    }
}

/// A name that is matched against a list of host name patterns.
#[derive(Drop)]
struct HostName<'a> {
    name: &'a [u8],
}

impl<'a> Model for HostName<'a> {
    ghost use Rattle.std.specs.Prelude.{ℕ, List};

    ghost Value = { List ℕ };

    ghost view = { λ h. h.name.now };
}

impl<'a> ItemMatcher for HostName<'a> {
    ghost use Rattle.std.specs.Prelude.{false, length, ◌+◌};
    ghost use Rattle.ssh_patterns.specs.Lists.{is_match_in_lower_case};

    ghost is_bad = { λ name item. false };

    ghost is_match = { λ name item. is_match_in_lower_case name item };

    ghost most_steps = { λ name. length name + 1 };

    ghost least_steps = { λ name. length name };

    fn judge(&self, _negated: bool, item: &[u8]) -> Option<(bool, u128)> {
        Some(matches_in(Case::Lower, item, self.name))
    }
}

/// `host_list`, and the steps of the matcher over all items, as `matches_counted` counts them: at
/// most `(list.len() + 1) * (name.len() + 1)`, and at least the length of a name that the list
/// permits.
pub fn host_list_counted(list: &[u8], name: &[u8]) -> (bool, u128)
    ensures rule { IsTrue result.0 ↔ Permits (MatchesInLowerCase name.now) list.now }
    ensures value { result.0 ≡ host_list list.now name.now }
    ensures most { result.1 ≤ (length list.now + 1) * (length name.now + 1) }
    // One step passes at most one byte of the name.
    ensures least { IsTrue result.0 → length name.now ≤ result.1 }
{
    let (permit, steps) = list_permit(list, &HostName { name });
    (permit.is_yes(), steps)
}

/// Whether a list of host name patterns permits a name: no item after a `!` matches it, and some
/// other item does. Items are the pieces between commas, and are compared in ASCII lower case
/// (ssh_config(5), PATTERNS). An empty item matches the empty name alone. The matcher takes at most
/// `(list.len() + 1) * (name.len() + 1)` steps over all items.
pub fn host_list(list: &[u8], name: &[u8]) -> bool
    ensures rule { IsTrue result ↔ Permits (MatchesInLowerCase name.now) list.now }
    ensures value { result ≡ host_list list.now name.now }
{
    host_list_counted(list, name).0
}
