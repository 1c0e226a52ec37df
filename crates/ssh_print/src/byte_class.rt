//! How many bytes at the front of a text are of a class, as the printable ones: sixteen are compared
//! together, since in most texts nearly all bytes are of one class.

ghost use Rattle.std.specs.Prelude.{◌≡◌, ℕ, Bool};
ghost use Rattle.std.specs.List.{list_all, prefix_len};
ghost use Rattle.ssh_print.specs.ByteClasses.{first_set};

/// A class of bytes.
pub trait ByteClass {
    /// Whether a byte is of the class.
    ghost test: { ℕ → Bool };

    /// Whether a byte is of the class.
    fn has(byte: u8) -> bool
        ensures { result ≡ test byte };

    /// How many bytes of the class come before the first that is not: 16 if all are.
    fn front_len(bytes: &[u8; 16]) -> usize
        ensures { result ≡ prefix_len test bytes.now };
}

/// The place of the lowest bit that is set: how many of sixteen bytes come before the first whose bit
/// is; 16 if none is.
pub fn first_set(mask: u64) -> usize
    ensures { result ≡ first_set mask }
{
    if mask == 0 {
        16
    } else {
        mask.trailing_zeros() as usize
    }
}

/// How many bytes at the front are of a class, of a text that may have fewer than sixteen.
fn short_class_len<C: ByteClass>(text: &[u8]) -> usize
    ensures { result ≡ prefix_len C.test text.now }
{
    let mut rest = text;
    let mut count = 0;
    while let [byte, more @ ..] = rest {
        if !C::has(*byte) {
            return count;
        }
        count += 1;
        rest = more;
    }
    count
}

/// How many bytes at the front of a text are of a class. The last sixteen are compared together too,
/// also where some of them were before.
#[tactic(auto, using(crate::proofs::ClassLemmas::front_stops, crate::proofs::ClassLemmas::front_goes_on, crate::proofs::ClassLemmas::front_overlaps, crate::proofs::ClassLemmas::front_within))]
pub fn class_len<C: ByteClass>(text: &[u8]) -> usize
    ensures { result ≡ prefix_len C.test text.now }
{
    let mut rest = text;
    let mut count = 0;
    while let Some((bytes, more)) = rest.split_first_chunk::<16>() {
        let len = C::front_len(bytes);
        if len < 16 {
            return count + len;
        }
        count += 16;
        rest = more;
    }
    match text.split_last_chunk::<16>() {
        Some((front, last)) => front.len() + C::front_len(last),
        None => short_class_len::<C>(text),
    }
}

/// Whether all bytes of a text are of a class.
#[tactic(auto, using(crate::proofs::ClassLemmas::all_in_front))]
pub(crate) fn are_all<C: ByteClass>(text: &[u8]) -> bool
    ensures { result ≡ list_all C.test text.now }
{
    class_len::<C>(text) == text.len()
}
