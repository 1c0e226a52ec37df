//! Searches a vouch file that is read in pieces for one signature, without storing its bytes.

ghost use Rattle.std.specs.Prelude.{◌≡◌, ◌∷◌, ◌++◌, [], false, is_some, option_and_then, IfSome, None, Option, Some, List, ℕ};
ghost use Rattle.ssh_offers.specs.declared.claim.Signed.{Signed as SignedValue};
ghost use Rattle.ssh_text.specs.Text.{lines_of};
ghost use Rattle.ssh_files.specs.declared.seeker.Digits.TheVariants.{Nothing};
ghost use Rattle.ssh_files.specs.declared.seeker.FieldName.TheVariants.{Key};
ghost use Rattle.ssh_files.specs.Seeking.{wanted_of};
ghost use Rattle.ssh_files.specs.Seekers.{in_field_rest, is_start, key_wanted, lines_rest, message_of, place_rest, rest_in_field, same_value, seeker_rest, signature_wanted, value_after, value_rest, value_with};
ghost use Rattle.ssh_files.specs.Values.{hex_value, pair_value};

use ssh_offers::Signed;

/// The hexadecimal digits of a field so far.
#[derive(Clone, Copy)]
enum Digits {
    /// No digit so far.
    Nothing,
    /// A dash, which is a field of no bytes.
    Dash,
    /// One or more whole pairs.
    Pairs,
    /// Any number of whole pairs, and then the first character of a pair, which is not checked
    /// yet.
    Half(u8),
}

/// A field of a triple.
#[derive(Clone, Copy)]
enum FieldName {
    Key,
    Message,
    Signature,
}

/// A field that is being read.
#[derive(Clone, Copy)]
struct Field<'a> {
    name: FieldName,
    digits: Digits,
    /// All that was read of the line equals the signature that is looked for.
    equal: bool,
    /// The bytes of the field that are still to be compared.
    left: &'a [u8],
}

/// How far a line was read.
#[derive(Clone, Copy)]
enum Place<'a> {
    Start,
    Comment,
    /// The line is not a triple, whatever follows.
    Broken,
    InField(Field<'a>),
}

/// A vouch file as far as it was read, searched for one signature, or only checked.
#[derive(Clone, Copy)]
pub struct Seeker<'a> {
    wanted: Option<&'a Signed>,
    /// The number of the current line, from 1.
    number: u64,
    place: Place<'a>,
    /// The first line that was not a triple.
    fault: Option<u64>,
    /// The signature was found.
    found: bool,
}

fn digit_value(digit: u8) -> Option<u8>
    ensures { result ≡ hex_value digit }
{
    match digit {
        b'0'..=b'9' => Some(digit - b'0'),
        b'A'..=b'F' => Some(digit - b'A' + 10),
        b'a'..=b'f' => Some(digit - b'a' + 10),
        _ => None,
    }
}

/// The byte of two hexadecimal digits.
fn pair_value(high: u8, low: u8) -> Option<u8>
    ensures { result ≡ pair_value (hex_value high) (hex_value low) }
{
    let high = digit_value(high)?;
    let low = digit_value(low)?;
    Some(16 * high + low)
}

/// The digits after one more character, and the byte that it completes, if any; `None` where the
/// field is not hexadecimal.
fn add_digit(digits: Digits, digit: u8) -> Option<(Digits, Option<u8>)>
    ensures { (text : List ℕ) → value_rest digits (digit ∷ text) ≡ value_after result text }
{
    match digits {
        Digits::Nothing if digit == b'-' => Some((Digits::Dash, None)),
        Digits::Nothing | Digits::Pairs => Some((Digits::Half(digit), None)),
        Digits::Dash => None,
        Digits::Half(high) => {
            let byte = pair_value(high, digit)?;
            Some((Digits::Pairs, Some(byte)))
        }
    }
}

/// The field after one of its bytes was compared.
#[tactic(auto, using(crate::proofs::SeekerLemmas::compares_first, crate::proofs::SeekerLemmas::compares_past))]
fn compare_byte(field: Field<'_>, byte: u8) -> Field<'_>
    ensures name { result.name ≡ field.entry.name }
    ensures digits { result.digits ≡ field.entry.digits }
    ensures compares { (rest : Option (List ℕ)) → same_value field.entry.equal field.entry.left.now
        (value_with (Some byte) rest) ≡ same_value result.equal result.left.now rest }
{
    match field.left {
        [first, left @ ..] => Field {
            equal: field.equal && byte == *first,
            left,
            ..field
        },
        [] => Field {
            equal: false,
            ..field
        },
    }
}

/// The field after one more character; `None` where it is not hexadecimal.
fn add_to_field(field: Field<'_>, byte: u8) -> Option<Field<'_>>
    ensures name { IfSome result (λ f. f.name ≡ field.entry.name) }
    ensures rest { (text : List ℕ) → rest_in_field field.entry (byte ∷ text)
        ≡ option_and_then (λ f. rest_in_field f text) result }
{
    let (digits, whole) = add_digit(field.digits, byte)?;
    let compared = match whole {
        None => field,
        Some(byte) => compare_byte(field, byte),
    };
    Some(Field { digits, ..compared })
}

/// Whether a field that ends here equals the one that is looked for, as all before it did; `None`
/// where it is not hexadecimal.
fn field_end(field: Field<'_>) -> Option<bool>
    ensures { result ≡ rest_in_field field.entry [] }
{
    match field.digits {
        Digits::Dash | Digits::Pairs => Some(field.equal && field.left.is_empty()),
        Digits::Nothing | Digits::Half(_) => None,
    }
}

fn key_of(wanted: Option<&Signed>) -> &[u8]
    ensures { result.now ≡ key_wanted (wanted_of wanted.entry) }
{
    match wanted {
        Some(signed) => signed.key.as_slice(),
        None => &[],
    }
}

fn message_of(wanted: Option<&Signed>) -> &[u8]
    ensures { result.now ≡ message_of (wanted_of wanted.entry) }
{
    match wanted {
        Some(signed) => signed.message.as_slice(),
        None => &[],
    }
}

fn signature_of(wanted: Option<&Signed>) -> &[u8]
    ensures { result.now ≡ signature_wanted (wanted_of wanted.entry) }
{
    match wanted {
        Some(signed) => signed.signature.as_slice(),
        None => &[],
    }
}

/// The first field of a line.
fn first_field(wanted: Option<&Signed>) -> Field<'_>
    ensures name { result.name ≡ Key }
    ensures digits { result.digits ≡ Nothing }
    ensures equal { result.equal ≡ is_some wanted.entry }
    ensures left { result.left.now ≡ key_wanted (wanted_of wanted.entry) }
{
    Field {
        name: FieldName::Key,
        digits: Digits::Nothing,
        equal: wanted.is_some(),
        left: key_of(wanted),
    }
}

/// The field after a space that ends this one; `None` where this one is not hexadecimal, or is the
/// last.
fn next_field<'a>(wanted: Option<&'a Signed>, field: Field<'a>) -> Option<Field<'a>>
    ensures { (text : List ℕ) → in_field_rest (wanted_of wanted.entry) field.entry (32 ∷ text)
        ≡ option_and_then (λ f. in_field_rest (wanted_of wanted.entry) f text) result }
{
    let equal = field_end(field)?;
    let (name, left) = match field.name {
        FieldName::Key => (FieldName::Message, message_of(wanted)),
        FieldName::Message => (FieldName::Signature, signature_of(wanted)),
        FieldName::Signature => return None,
    };
    Some(Field {
        name,
        digits: Digits::Nothing,
        equal,
        left,
    })
}

/// The field that is being read after one more character of the line.
fn next_in_field<'a>(wanted: Option<&'a Signed>, field: Field<'a>, byte: u8) -> Option<Field<'a>>
    ensures { (text : List ℕ) → in_field_rest (wanted_of wanted.entry) field.entry (byte ∷ text)
        ≡ option_and_then (λ f. in_field_rest (wanted_of wanted.entry) f text) result }
{
    if byte == b' ' {
        next_field(wanted, field)
    } else {
        add_to_field(field, byte)
    }
}

fn in_field(field: Option<Field<'_>>) -> Place<'_>
    ensures begun { is_start result ≡ false }
    ensures rest { (wanted : Option SignedValue) (text : List ℕ) → place_rest wanted result text
        ≡ option_and_then (λ f. in_field_rest wanted f text) field.entry }
{
    match field {
        Some(field) => Place::InField(field),
        None => Place::Broken,
    }
}

/// How far a line is read after one more character.
fn next_place<'a>(wanted: Option<&'a Signed>, place: Place<'a>, byte: u8) -> Place<'a>
    ensures begun { is_start result ≡ false }
    ensures rest { (text : List ℕ) → place_rest (wanted_of wanted.entry) place.entry (byte ∷ text)
        ≡ place_rest (wanted_of wanted.entry) result text }
{
    match place {
        Place::Start if byte == b'#' => Place::Comment,
        Place::Start => in_field(next_in_field(wanted, first_field(wanted), byte)),
        Place::InField(field) => in_field(next_in_field(wanted, field, byte)),
        Place::Comment => Place::Comment,
        Place::Broken => Place::Broken,
    }
}

/// Whether a line that ends here is the triple that is looked for; `None` where it is neither a
/// triple nor skipped.
fn place_end(place: Place<'_>) -> Option<bool>
    ensures { (wanted : Option SignedValue) → result ≡ place_rest wanted place.entry [] }
{
    match place {
        Place::Start | Place::Comment => Some(false),
        Place::Broken => None,
        Place::InField(field) => match field.name {
            FieldName::Key | FieldName::Message => None,
            FieldName::Signature => field_end(field),
        },
    }
}

impl<'a> Seeker<'a> {
    /// Nothing is read so far. With `None` the file is only checked.
    pub fn new(wanted: Option<&'a Signed>) -> Seeker<'a>
        ensures { (file : List ℕ) → seeker_rest result file
            ≡ lines_rest (wanted_of wanted.entry) 1 (lines_of file) }
    {
        Seeker {
            wanted,
            number: 1,
            place: Place::Start,
            fault: None,
            found: false,
        }
    }

    /// Takes the LF of a line, where no line before it had a fault.
    fn end_line(&mut self)
        ensures { self.old.fault ≡ None
            → (text : List ℕ) → seeker_rest self.old (10 ∷ text) ≡ seeker_rest self.new text }
    {
        match place_end(self.place) {
            Some(found) => {
                self.found |= found;
                self.place = Place::Start;
                self.number = self.number.saturating_add(1);
            }
            None => self.fault = Some(self.number),
        }
    }

    fn take_byte(&mut self, byte: u8)
        ensures { (text : List ℕ) → seeker_rest self.old (byte ∷ text) ≡ seeker_rest self.new text }
    {
        if self.fault.is_some() {
            return;
        }
        if byte == b'\n' {
            self.end_line();
        } else {
            self.place = next_place(self.wanted, self.place, byte);
        }
    }

    /// Takes the next piece of the file.
    pub fn take_piece(&mut self, piece: &[u8])
        ensures { (rest : List ℕ) → seeker_rest self.old (piece.now ++ rest) ≡ seeker_rest self.new rest }
    {
        for byte in piece {
            self.take_byte(*byte);
        }
    }

    /// Whether the file vouches for the signature, or the number of its first line that is not a
    /// triple.
    pub fn finish(&self) -> Result<bool, u64>
        ensures { result ≡ seeker_rest self.now [] }
    {
        if let Some(number) = self.fault {
            return Err(number);
        }
        match place_end(self.place) {
            Some(found) => Ok(self.found | found),
            None => Err(self.number),
        }
    }
}
