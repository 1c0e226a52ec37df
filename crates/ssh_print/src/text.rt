//! Small printed texts, lines of a word and a value, and texts whose long names are shared.

ghost use Rattle.std.specs.Prelude.{◌≡◌, ◌++◌, OnOk, OnErr, ◌<◌, length, take, IsOk};
ghost use Rattle.std.specs.Fmt.{decimal};
ghost use Rattle.ssh_wire.specs.Fronts.{Keeps};
ghost use Rattle.ssh_print.specs.Texts.{text_line, word_line, hex_digit, hex_text, is_plain_byte, escaped_byte, escaped_text};
ghost use Rattle.std.specs.List.{flat_map};

use crate::escaped::is_plain;
use itoa::Buffer;
use ssh_rules::SharedName;
use std::alloc::AllocError;
use std::mem::replace;

/// On `Err` a part of it may have been written.
#[tactic(auto, unfolding(crate::specs::Texts::word_line))]
fn put_word_line(out: &mut Vec<u8>, word: &[u8], shown: &[u8]) -> Result<(), AllocError>
    ensures ok { OnOk result (out.new.items ≡ out.old.items ++ word_line word.now shown.now) }
    ensures err { OnErr result (Keeps out.old.items out.new.items) }
{
    out.extend_from_slice(word)?;
    out.extend_from_slice(shown)?;
    out.push(b'\n')?;
    Ok(())
}

/// Appends a line: a word, which ends with a space, and a value as it is. On `Err` nothing is
/// changed.
pub fn push_word_line(out: &mut Vec<u8>, word: &[u8], shown: &[u8]) -> Result<(), AllocError>
    ensures ok { OnOk result (out.new.items ≡ out.old.items ++ word_line word.now shown.now) }
    ensures err { OnErr result (out.new.items ≡ out.old.items) }
{
    let len = out.len();
    let outcome = put_word_line(out, word, shown);
    all_or_nothing(out, len, outcome)
}

/// On `Err` a part of it may have been written.
#[tactic(auto, unfolding(crate::specs::Texts::word_line))]
fn put_text_line(out: &mut Vec<u8>, word: &[u8], text: &[u8]) -> Result<(), AllocError>
    ensures ok { OnOk result (out.new.items ≡ out.old.items ++ text_line word.now text.now) }
    ensures err { OnErr result (Keeps out.old.items out.new.items) }
{
    out.extend_from_slice(word)?;
    push_escaped(out, text)?;
    out.push(b'\n')?;
    Ok(())
}

/// Appends a line: a word, which ends with a space, and any bytes, escaped. On `Err` nothing is
/// changed.
pub fn push_text_line(out: &mut Vec<u8>, word: &[u8], text: &[u8]) -> Result<(), AllocError>
    ensures ok { OnOk result (out.new.items ≡ out.old.items ++ text_line word.now text.now) }
    ensures err { OnErr result (out.new.items ≡ out.old.items) }
{
    let len = out.len();
    let outcome = put_text_line(out, word, text);
    all_or_nothing(out, len, outcome)
}

/// Appends a line: a word, which ends with a space, and a decimal number. On `Err` nothing is
/// changed.
pub fn push_number_line(out: &mut Vec<u8>, word: &[u8], number: u64) -> Result<(), AllocError>
    ensures ok { OnOk result (out.new.items ≡ out.old.items ++ word_line word.now (decimal number)) }
    ensures err { OnErr result (out.new.items ≡ out.old.items) }
{
    let mut digits = Buffer::new();
    push_word_line(out, word, digits.format(number).as_bytes())
}

/// Passes on the outcome of an append after the first `len` bytes. If it failed, the bytes after
/// them are removed.
pub(crate) fn all_or_nothing(
    out: &mut Vec<u8>,
    len: usize,
    outcome: Result<(), AllocError>,
) -> Result<(), AllocError>
    ensures same { result ≡ outcome }
    ensures ok { OnOk result (out.new.items ≡ out.old.items) }
    ensures err { OnErr result (out.new.items ≡ take len out.old.items) }
{
    if outcome.is_err() {
        out.truncate(len);
    }
    outcome
}

pub(crate) fn hex_digit(digit: u8) -> u8
    requires { digit < 16 }
    ensures { result ≡ hex_digit digit }
{
    if digit < 10 {
        b'0' + digit
    } else {
        b'a' + (digit - 10)
    }
}

/// Appends lower case hexadecimal digits, or `-` for no bytes. On `Err` nothing is changed.
pub fn push_hex(out: &mut Vec<u8>, bytes: &[u8]) -> Result<(), AllocError>
    ensures ok { OnOk result (out.new.items ≡ out.old.items ++ hex_text bytes.now) }
    ensures err { OnErr result (out.new.items ≡ out.old.items) }
{
    if bytes.is_empty() {
        return out.extend_from_slice(b"-");
    }
    let text = hex::encode(*out.allocator(), bytes)?;
    out.extend_from_slice(text.as_bytes())?;
    Ok(())
}

fn push_escaped_byte(out: &mut Vec<u8>, byte: u8) -> Result<(), AllocError>
    ensures ok { OnOk result (out.new.items ≡ out.old.items ++ escaped_byte byte) }
    ensures err { OnErr result (out.new.items ≡ out.old.items) }
{
    if is_plain(byte) {
        out.push(byte)?;
    } else {
        out.extend_from_slice(&[b'\\', b'x', hex_digit(byte / 16), hex_digit(byte % 16)])?;
    }
    Ok(())
}

/// On `Err` a part of it may have been written.
fn push_escaped_bytes(out: &mut Vec<u8>, text: &[u8]) -> Result<(), AllocError>
    ensures ok { OnOk result (out.new.items ≡ out.old.items ++ escaped_text text.now) }
    ensures err { OnErr result (Keeps out.old.items out.new.items) }
    ensures spare { length text.now ≡ 0 → IsOk result }
{
    for byte in text {
        push_escaped_byte(out, *byte)?;
    }
    Ok(())
}

/// Appends a text: printable ASCII other than the backslash as it is, any other byte as `\x` and
/// two hexadecimal digits. On `Err` nothing is changed.
pub fn push_escaped(out: &mut Vec<u8>, text: &[u8]) -> Result<(), AllocError>
    ensures ok { OnOk result (out.new.items ≡ out.old.items ++ escaped_text text.now) }
    ensures err { OnErr result (out.new.items ≡ out.old.items) }
    // An empty text does not allocate.
    ensures spare { length text.now ≡ 0 → IsOk result }
{
    let len = out.len();
    let outcome = push_escaped_bytes(out, text);
    all_or_nothing(out, len, outcome)
}

/// Appends a number in decimal digits, without leading zeros. On `Err` nothing is changed.
pub fn push_number(out: &mut Vec<u8>, number: u64) -> Result<(), AllocError>
    ensures ok { OnOk result (out.new.items ≡ out.old.items ++ decimal number) }
    ensures err { OnErr result (out.new.items ≡ out.old.items) }
{
    let mut digits = Buffer::new();
    out.extend_from_slice(digits.format(number).as_bytes())?;
    Ok(())
}

/// Plain bytes, and after them the name of an option, which is printed escaped.
#[derive(Debug, Drop)]
pub struct Part {
    pub bytes: Vec<u8>,
    pub name: SharedName,
}

/// A text to print: its parts, and plain bytes after them. An option's name is shared with the
/// reason that has it, and is escaped only when it is written. So lines with a long name take no
/// memory for it.
#[derive(Debug, Drop)]
pub struct Text {
    pub parts: Vec<Part>,
    pub rest: Vec<u8>,
}

impl Text {
    ghost use Rattle.std.specs.Prelude.{◌≡◌, ◌++◌, OnErr, OnOk};
    ghost use Rattle.ssh_print.specs.TextParts.{text_bytes};
    ghost use Rattle.ssh_print.specs.Texts.{escaped_text};

    /// Appends an option's name, which is printed escaped. `Err` means that memory cannot be
    /// allocated or that the count of owners cannot grow. Then nothing is changed.
    pub(crate) fn push_name(&mut self, name: &SharedName) -> Result<(), AllocError>
        ensures ok { OnOk result (text_bytes self.new ≡ text_bytes self.old ++ escaped_text name.now) }
        ensures err { OnErr result (text_bytes self.new ≡ text_bytes self.old) }
    {
        let name = name.share()?;
        self.parts.reserve(1)?;
        let empty = Vec::new(*self.rest.allocator());
        let bytes = replace(&mut self.rest, empty);
        self.parts.push_reserved(Part { bytes, name });
        Ok(())
    }
}

/// A text of these bytes, as they are. Does not allocate.
impl From<Vec<u8>> for Text {
    ghost use Rattle.std.specs.Prelude.{◌≡◌};
    ghost use Rattle.ssh_print.specs.TextParts.{text_bytes};

    ghost from_gives = { λ bytes text. text_bytes text ≡ bytes.items };

    fn from(bytes: Vec<u8>) -> Text {
        Text {
            parts: Vec::new(*bytes.allocator()),
            rest: bytes,
        }
    }
}
