//! The key of a line: its type, base64 and comment, and `KeyBuffer`, into which it is decoded.

ghost use Rattle.std.specs.Prelude.{◌≡◌, IfSome, codes, ◌≤◌, length, Ok, Err, IfOk, IfErr, ℕ, List, true, false};
ghost use Rattle.ssh_entries.specs.declared.key_view.LineError.TheVariants.{Memory, Cause};
ghost use Rattle.ssh_keys.specs.Names.{class_of};
ghost use Rattle.ssh_text.specs.Text.{after_word, begins_with_blank, first_word, comment_of, next_field};
ghost use Rattle.base64.specs.Decode.{decoded_estimate};
ghost use Rattle.base64.specs.GeneralPurpose.{decode_of};
ghost use Rattle.base64.specs.Engines.{standard};
ghost use Rattle.ssh_entries.specs.Names.{base64};
ghost use Rattle.ssh_entries.specs.KeyLimit.{key_limit};
ghost use Rattle.ssh_wire.specs.Reading.{Gives};
ghost use Rattle.ssh_keys.specs.KeyOf.{key_of};
ghost use Rattle.ssh_keys.specs.declared.kind.NameClass.TheVariants.{Plain};
ghost use Rattle.ssh_keys.specs.KeyReading.{key_in};
ghost use Rattle.ssh_keys.specs.PublicKey.{key_blob};
ghost use Rattle.ssh_options.specs.declared.option_text.LineCause.TheVariants.{NoKey};
ghost use Rattle.ssh_entries.specs.KeyPart.{key_of_blob, key_of_kind, key_by_class, lacks_key};

use base64::DecodeError;
use base64::engine::general_purpose::{GeneralPurpose, STANDARD};
use ssh_keys::{KeyKind, KeyView, NameClass, name_class, read_key, read_kind};
use ssh_options::LineCause;
use ssh_text::{LINE_LIMIT, comment_in, skip_blanks, split_word};
use std::alloc::{AllocError, Global};
use std::marker::Model;

/// The line's first fault, or a failed allocation.
#[derive(Drop)]
pub(crate) enum LineError {
    Memory,
    Cause(LineCause),
}

impl From<AllocError> for LineError {
    ghost from_gives = { λ e fault. fault ≡ Memory };

    fn from(_: AllocError) -> LineError {
        LineError::Memory
    }
}

impl From<LineCause> for LineError {
    ghost from_gives = { λ cause fault. fault ≡ Cause cause };

    fn from(cause: LineCause) -> LineError {
        LineError::Cause(cause)
    }
}

/// The type name of an Ed25519 key (RFC 8709, section 4).
const ED25519: &[u8; 11] = b"ssh-ed25519";

/// Whether the text begins with a blank.
fn begins_with_blank(text: &[u8]) -> bool
    ensures { result ≡ begins_with_blank text.now }
{
    matches!(text, [b' ' | b'\t', ..])
}

/// What follows the type name of an Ed25519 key, if it is the first word.
fn after_ed25519(text: &[u8]) -> Option<&[u8]>
    ensures word { IfSome result (λ after. first_word text.now ≡ codes "ssh-ed25519") }
    ensures rest { IfSome result (λ after. after.now ≡ after_word text.now) }
{
    match text.strip_prefix(ED25519) {
        Some(after) if begins_with_blank(after) => Some(after),
        _ => None,
    }
}

/// The class of the first word of a text as a type name, the word, and what follows it.
/// `ssh-ed25519` is compared first, because most lines have it.
pub(crate) fn split_type(text: &[u8]) -> (NameClass, &[u8], &[u8])
    ensures class { result.0 ≡ class_of (first_word text.now) }
    ensures word { result.1.now ≡ first_word text.now }
    ensures rest { result.2.now ≡ after_word text.now }
{
    if let Some(after) = after_ed25519(text) {
        return (NameClass::Plain(KeyKind::Ed25519), ED25519, after);
    }
    let (word, after) = split_word(text);
    (name_class(word), word, after)
}

/// A decoder of base64 in the standard alphabet, with padding (RFC 4648, section 4). Its tables are
/// built once, and not for each field. Contracts see a unit value, since all decoders behave alike.
#[derive(Debug, Drop)]
pub(crate) struct Decoder {
    engine: GeneralPurpose,
}

impl Model for Decoder {
    ghost use Rattle.std.specs.Prelude.{◌≡◌, ⊤};
    ghost use Rattle.base64.specs.Engines.{standard};

    ghost Value = { ⊤ };

    ghost view = { λ decoder. tt };

    ghost invariant = { λ decoder. decoder.engine ≡ standard };
}

/// The engine of the standard alphabet, with padding.
fn standard_engine() -> GeneralPurpose
    ensures { result ≡ standard }
{
    STANDARD
}

impl Decoder {
    pub(crate) fn new() -> Decoder {
        let engine = standard_engine();
        Decoder { engine }
    }

    /// Decodes a field to the front of the buffer. Only canonical base64 is accepted, so that a
    /// blob has one text.
    pub(crate) fn decode_into<'a>(
        &self,
        field: &[u8],
        buffer: &'a mut [u8],
    ) -> Result<&'a [u8], DecodeError>
        requires { decoded_estimate (length field.now) ≤ length buffer.old }
        ensures ok { IfOk result (λ blob. decode_of standard field.now ≡ Ok blob.now) }
        ensures spelled { IfOk result (λ blob. field.now ≡ base64 blob.now) }
        ensures err { IfErr result (λ e. decode_of standard field.now ≡ Err e) }
    {
        let len = self.engine.decode_slice_unchecked(field, buffer)?;
        Ok(&buffer[..len])
    }
}

/// The most bytes that the base64 of a line can encode: three for each four characters.
const KEY_LIMIT: usize = LINE_LIMIT / 4 * 3;

/// Exactly as many bytes as the longest key of a line can have.
#[derive(Debug, Drop)]
pub(crate) struct Room {
    bytes: Vec<u8>,
    ghost size: { length bytes.items ≡ key_limit },
}

/// A buffer into which the keys of lines are decoded, one after the other, and the decoder. Its
/// content between two lines does not matter.
#[derive(Debug, Drop)]
pub struct KeyBuffer {
    pub(crate) decoder: Decoder,
    pub(crate) room: Room,
}

/// This many zero bytes.
fn zeros(alloc: Global, len: usize) -> Result<Vec<u8>, AllocError>
    ensures { IfOk result (λ zeros. length zeros.items ≡ len) }
{
    let zeros = vec![in alloc; 0u8; len]?;
    Ok(zeros)
}

impl Room {
    fn new(alloc: Global) -> Result<Room, AllocError> {
        let bytes = zeros(alloc, KEY_LIMIT)?;
        Ok(Room { bytes })
    }

    /// All of the buffer's bytes.
    pub(crate) fn as_mut_slice(&mut self) -> &mut [u8]
        ensures { length result.now ≡ key_limit }
    {
        self.bytes.as_mut_slice()
    }
}

impl KeyBuffer {
    /// Allocates a buffer of 49,152 bytes, which holds the key of any line. Fails only when memory
    /// cannot be allocated.
    pub fn new(alloc: Global) -> Result<KeyBuffer, AllocError>
        ensures { IfOk result (λ buffer. length buffer.room.bytes.items ≡ key_limit) }
    {
        let room = Room::new(alloc)?;
        Ok(KeyBuffer {
            decoder: Decoder::new(),
            room,
        })
    }
}

/// The blob of a key, and the text from its base64 on. Contracts see the key and the comment.
#[derive(Debug, Drop)]
pub(crate) struct KeyPartView<'a> {
    blob: &'a [u8],
    text: &'a [u8],
}

impl<'a> Model for KeyPartView<'a> {
    ghost use Rattle.ssh_keys.specs.Key.{key_or_none};
    ghost use Rattle.ssh_keys.specs.KeyReading.{key_in};
    ghost use Rattle.std.specs.Prelude.{◌≡◌};
    ghost use Rattle.ssh_keys.specs.PublicKey.{IsKeyBlob};
    ghost use Rattle.ssh_entries.specs.Names.{base64};
    ghost use Rattle.ssh_text.specs.Text.{after_word, comment_of, first_word};
    ghost use Rattle.ssh_entries.specs.KeyPart.{KeyPart};

    ghost Value = { KeyPart };

    ghost view = { λ v. record {
      key = key_or_none (key_in v.blob.now);
      comment = comment_of (after_word v.text.now);
    } };

    ghost invariant = { λ v. IsKeyBlob (key_or_none (key_in v.blob.now)) v.blob.now
        × (first_word v.text.now ≡ base64 v.blob.now) };
}

impl<'a> KeyPartView<'a> {
    /// The key, read again from its blob.
    pub(crate) fn key(&self) -> KeyView<'a>
        ensures { key_of result ≡ self.now.key }
    {
        match read_key(self.blob) {
            Ok(key) => key,
            Err(_) => unreachable!(),
        }
    }

    /// The key's blob, in the buffer.
    pub(crate) fn blob(&self) -> &'a [u8]
        ensures { result.now ≡ key_blob self.now.key }
    {
        self.blob
    }

    /// The comment, cut from the text when it is asked for: most callers do not need it.
    pub(crate) fn comment(&self) -> &'a [u8]
        ensures { result.now ≡ self.now.comment }
    {
        self.base64_and_comment().1
    }

    /// The base64 of the key's blob, and the comment.
    pub(crate) fn base64_and_comment(&self) -> (&'a [u8], &'a [u8])
        ensures base64 { result.0.now ≡ base64 (key_blob self.now.key) }
        ensures comment { result.1.now ≡ self.now.comment }
    {
        let (base64, rest) = split_word(self.text);
        (base64, comment_in(rest))
    }
}

/// The key of a blob, where the text begins with its base64 and the type field names this kind.
fn key_in_blob<'a>(
    kind: KeyKind,
    blob: &'a [u8],
    text: &'a [u8],
) -> Result<KeyPartView<'a>, LineCause>
    requires { first_word text.now ≡ base64 blob.now }
    ensures { Gives (λ p. p) result
        (key_of_kind kind (comment_of (after_word text.entry.now)) (key_in blob.entry.now)) }
{
    match read_kind(blob) {
        Ok(read) if read == kind => Ok(KeyPartView { blob, text }),
        Ok(_) => Err(LineCause::TypeMismatch),
        Err(e) => Err(LineCause::KeyBlob(e)),
    }
}

/// The kind of key that a type field names, if a line can have such a key.
pub(crate) fn kind_of_class(class: NameClass) -> Result<KeyKind, LineCause>
    ensures ok { IfOk result (λ kind. class ≡ Plain kind) }
    ensures err { IfErr result (λ cause. (field rest : List ℕ)
        → key_by_class class field rest ≡ Err cause) }
{
    match class {
        NameClass::Plain(kind) => Ok(kind),
        NameClass::Other => Err(LineCause::KeyType),
        NameClass::Retired => Err(LineCause::RetiredType),
        NameClass::Certificate(_) => Err(LineCause::CertificateOnLine),
    }
}

/// The key at the front of a text of base64 and comment, decoded into the buffer, where the type
/// field names this kind.
pub(crate) fn key_of_kind<'a>(
    kind: KeyKind,
    text: &'a [u8],
    decoder: &Decoder,
    buffer: &'a mut [u8],
) -> Result<KeyPartView<'a>, LineCause>
    requires { decoded_estimate (length text.now) ≤ length buffer.old }
    ensures { Gives (λ p. p) result (key_of_blob kind (comment_of (after_word text.entry.now))
        (decode_of standard (first_word text.entry.now))) }
{
    let (field, _) = split_word(text);
    match decoder.decode_into(field, buffer) {
        Ok(blob) => key_in_blob(kind, blob, text),
        Err(_) => Err(LineCause::Base64),
    }
}

/// The key at the front of a text of base64 and comment, decoded into the buffer, where the type
/// field has this class.
pub(crate) fn key_in_text<'a>(
    class: NameClass,
    text: &'a [u8],
    decoder: &Decoder,
    buffer: &'a mut [u8],
) -> Result<KeyPartView<'a>, LineCause>
    requires { decoded_estimate (length text.now) ≤ length buffer.old }
    ensures { Gives (λ p. p) result
        (key_by_class class (first_word text.entry.now) (after_word text.entry.now)) }
{
    let kind = kind_of_class(class)?;
    key_of_kind(kind, text, decoder, buffer)
}

/// The class of the type name at the front of a text, and the text from the base64 on. A missing
/// type or base64 is `NoKey`, which is tested before the type itself.
#[tactic(auto, using(crate::proofs::FieldLemmas::no_field))]
pub(crate) fn key_fields(text: &[u8]) -> Result<(NameClass, &[u8]), LineCause>
    ensures class { IfOk result (λ f. f.0 ≡ class_of (first_word text.now)) }
    ensures text { IfOk result (λ f. f.1.now ≡ next_field text.now) }
    ensures there { IfOk result (λ f. lacks_key text.now ≡ false) }
    ensures missing { IfErr result (λ cause. lacks_key text.now ≡ true) }
    ensures cause { IfErr result (λ cause. cause ≡ NoKey) }
{
    let (class, word, after) = split_type(text);
    let rest = skip_blanks(after);
    if word.is_empty() || rest.is_empty() {
        return Err(LineCause::NoKey);
    }
    Ok((class, rest))
}
