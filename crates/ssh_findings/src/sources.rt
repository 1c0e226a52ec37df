//! What the lists of `from` and `principals` contain, and which `from` lists OpenSSH reads
//! differently.

ghost use Rattle.std.specs.Prelude.{◌≡◌, ◌||◌};
ghost use Rattle.ssh_findings.specs.Lists.{are_stars, begins_with_bang, has_bang, has_empty_name, has_name, has_stars, is_bad_list, is_stars, says_name, says_none};
ghost use Rattle.std.specs.List.{list_all};
ghost use Rattle.ssh_patterns.specs.Lists.{item_of};
ghost use Rattle.ssh_findings.specs.OpenSsh.{has_short_address, is_of_short_address, is_read_otherwise, is_refused_item, is_short_address, is_short_item, refuses_all, starts_with_digit};

use crate::carried::is_decimal_digit;
use crate::openssh::has_long_item;
use ssh_patterns::{PatternError, Permit, first_piece, parse_address, parse_net, source_list};

/// Any address: whether a list is bad does not depend on it.
const SOME_ADDRESS: &[u8] = b"0.0.0.0";

/// Whether a `from` list permits nobody because some item of it is not allowed there.
pub(crate) fn is_bad_list(list: &[u8]) -> bool
    ensures { result ≡ is_bad_list list.now }
{
    match source_list(list, None, SOME_ADDRESS) {
        Permit::Bad => true,
        Permit::Yes => false,
        Permit::No => false,
    }
}

/// Which kinds of pieces a comma-separated list has.
#[derive(Clone, Copy, Debug)]
pub(crate) struct Pieces {
    /// Whether some piece is not empty.
    pub(crate) has_name: bool,
    /// Whether some piece is empty.
    pub(crate) has_empty: bool,
    /// Whether some piece consists of stars alone.
    pub(crate) has_stars: bool,
    /// Whether some piece begins with `!`.
    pub(crate) has_bang: bool,
}

fn are_stars(piece: &[u8]) -> bool
    ensures { result ≡ are_stars piece.now }
{
    piece.iter().all(|byte| *byte == b'*')
}

/// Whether a piece consists of stars alone, and of at least one.
fn is_stars(piece: &[u8]) -> bool
    ensures { result ≡ is_stars piece.now }
{
    !piece.is_empty() && are_stars(piece)
}

fn begins_with_bang(piece: &[u8]) -> bool
    ensures { result ≡ begins_with_bang piece.now }
{
    match piece {
        [first, ..] => *first == b'!',
        [] => false,
    }
}

impl Pieces {
    const NONE: Pieces = Pieces {
        has_name: false,
        has_empty: false,
        has_stars: false,
        has_bang: false,
    };

    /// The same with one more piece.
    fn with(self, piece: &[u8]) -> Pieces
        ensures name { result.has_name ≡ (self.has_name || says_name piece.now) }
        ensures empty { result.has_empty ≡ (self.has_empty || says_none piece.now) }
        ensures stars { result.has_stars ≡ (self.has_stars || is_stars piece.now) }
        ensures bang { result.has_bang ≡ (self.has_bang || begins_with_bang piece.now) }
    {
        Pieces {
            has_name: self.has_name || !piece.is_empty(),
            has_empty: self.has_empty || piece.is_empty(),
            has_stars: self.has_stars || is_stars(piece),
            has_bang: self.has_bang || begins_with_bang(piece),
        }
    }

    /// The kinds of pieces of a list. Does not allocate.
    pub(crate) fn of(list: &[u8]) -> Pieces
        ensures name { result.has_name ≡ has_name list.now }
        ensures empty { result.has_empty ≡ has_empty_name list.now }
        ensures stars { result.has_stars ≡ has_stars list.now }
        ensures bang { result.has_bang ≡ has_bang list.now }
    {
        let mut kinds = Pieces::NONE;
        let mut rest = Some(list);
        while let Some(pieces) = rest {
            let (piece, left) = first_piece(pieces);
            kinds = kinds.with(piece);
            rest = left;
        }
        kinds
    }
}

/// A piece without its leading `!`, if it has one.
fn item_of(piece: &[u8]) -> &[u8]
    ensures { result.now ≡ (item_of piece.now).text }
{
    match piece {
        [b'!', item @ ..] => item,
        _ => piece,
    }
}

/// Whether an item is empty, or a net with bits set past its length.
fn is_refused_item(piece: &[u8]) -> bool
    ensures { result ≡ is_refused_item (item_of piece.now) }
{
    let item = item_of(piece);
    item.is_empty() || matches!(parse_net(item), Err(PatternError::HostBits))
}

/// Whether a list permits nobody in OpenSSH either: one bad item is enough, wherever it is in the
/// list.
#[tactic(auto, unfolding(crate::specs::OpenSsh::refuses_all))]
pub(crate) fn refuses_all(list: &[u8]) -> bool
    ensures { result ≡ refuses_all list.now }
{
    let mut rest = Some(list);
    while let Some(pieces) = rest {
        let (piece, left) = first_piece(pieces);
        if is_refused_item(piece) {
            return true;
        }
        rest = left;
    }
    false
}

fn is_of_short_address(byte: u8) -> bool
    ensures { result ≡ is_of_short_address byte }
{
    is_decimal_digit(byte)
        || (b'A' <= byte && byte <= b'F')
        || (b'a' <= byte && byte <= b'f')
        || byte == b'.'
        || byte == b'X'
        || byte == b'x'
}

fn starts_with_digit(text: &[u8]) -> bool
    ensures { result ≡ starts_with_digit text.now }
{
    match text {
        [first, ..] => is_decimal_digit(*first),
        [] => false,
    }
}

fn are_of_short_address(text: &[u8]) -> bool
    ensures { result ≡ list_all is_of_short_address text.now }
{
    text.iter().all(|byte| is_of_short_address(*byte))
}

/// Whether a text is not an address here, but may be one for OpenSSH, such as 127.1.
fn is_short_address(text: &[u8]) -> bool
    ensures { result ≡ is_short_address text.now }
{
    starts_with_digit(text) && are_of_short_address(text) && parse_address(text).is_err()
}

fn is_short_item(piece: &[u8]) -> bool
    ensures { result ≡ is_short_item (item_of piece.now) }
{
    is_short_address(item_of(piece))
}

/// Whether some item of a list is an address for OpenSSH, but not here.
#[tactic(auto, unfolding(crate::specs::OpenSsh::has_short_address))]
pub(crate) fn has_short_address(list: &[u8]) -> bool
    ensures { result ≡ has_short_address list.now }
{
    let mut rest = Some(list);
    while let Some(pieces) = rest {
        let (piece, left) = first_piece(pieces);
        if is_short_item(piece) {
            return true;
        }
        rest = left;
    }
    false
}

/// Whether OpenSSH 9.2 may read a `from` list differently. It may permit somebody by a list that
/// permits nobody here, or read an item such as 127.1 as an address. Or it matches no host name by
/// the list because an item is too long. Does not allocate.
pub fn is_read_otherwise(list: &[u8]) -> bool
    ensures { result ≡ is_read_otherwise list.now }
{
    !refuses_all(list) && (is_bad_list(list) || has_short_address(list) || has_long_item(list))
}
