//! The key that OpenSSH reads on a line that is unreadable here, so that a person can find it by
//! its fingerprint.

ghost use Rattle.std.specs.Prelude.{◌≡◌, ◌≤◌, IfOk, IsTrue, length, option_map};
ghost use Rattle.std.specs.List.{list_any};
ghost use Rattle.ssh_wire.specs.Mpint.{number_of};
ghost use Rattle.ssh_wire.specs.Reading.{Gives, Reads};
ghost use Rattle.ssh_wire.specs.Spelling.{is_not_negative};
ghost use Rattle.ssh_keys.specs.KeyOf.{key_of};
ghost use Rattle.ssh_keys.specs.PublicKey.{IsKey, key_blob};
ghost use Rattle.ssh_keys.specs.View.{public_key};
ghost use Rattle.ssh_findings.specs.declared.recovered_key.Refused.TheVariants.{NoKey};
ghost use Rattle.ssh_findings.specs.OpenSshBlob.{c_text, c_text_at, fields_at, is_nul, key_in_blob, least_of, number_at, number_in, point_at, some_or_no_key};
ghost use Rattle.ssh_findings.specs.OpenSshNames.{blob_kind, algorithm_kind, short_kind, word_kind};
ghost use Rattle.ssh_findings.specs.HeldKey.{held_key, held_of, known_held_key};

use crate::facts::rsa_size;
use crate::recovered_words::{blob_of, key_on_known_line, key_on_line};
use ssh_keys::{
    Curve, Key, KeyError, KeyFields, KeyKind, KeyView, NameClass, fingerprint, name_class,
};
use ssh_text::without_last;
use ssh_wire::{Cursor, Mpint, WireError};
use std::alloc::{AllocError, Global};

/// OpenSSH reads no key here.
#[derive(Clone, Copy, Debug)]
pub(crate) enum Refused {
    NoKey,
}

impl From<WireError> for Refused {
    ghost from_gives = { λ e r. r ≡ NoKey };

    fn from(_e: WireError) -> Refused {
        Refused::NoKey
    }
}

impl From<KeyError> for Refused {
    ghost from_gives = { λ e r. r ≡ NoKey };

    fn from(_e: KeyError) -> Refused {
        Refused::NoKey
    }
}

pub(crate) fn has_nul(text: &[u8]) -> bool
    ensures { result ≡ list_any is_nul text.now }
{
    text.iter().any(|byte| *byte == 0)
}

/// A C string: one NUL at its end is dropped, and any other is refused.
#[tactic(auto, unfolding(crate::specs::OpenSshBlob::c_text))]
fn c_text(text: &[u8]) -> Result<&[u8], Refused>
    ensures { Gives (λ t. t.now) result (c_text text.now) }
{
    let plain = without_last(0, text);
    if has_nul(plain) {
        return Err(Refused::NoKey);
    }
    Ok(plain)
}

#[tactic(auto, unfolding(crate::specs::OpenSshBlob::c_text_at))]
pub(crate) fn take_c_text<'a>(cursor: &mut Cursor<'a>) -> Result<&'a [u8], Refused>
    ensures { Reads (λ t. t.now) c_text_at cursor.old result cursor.new }
{
    let text = cursor.take_string()?;
    let plain = c_text(text)?;
    Ok(plain)
}

/// Whether the first bit is clear, so that the number is not negative (RFC 4251 section 5).
fn is_not_negative(bytes: &[u8]) -> bool
    ensures { result ≡ is_not_negative bytes.now }
{
    match bytes {
        [] => true,
        [first, ..] => *first < 128,
    }
}

/// The bytes without the leading zero bytes that are not needed.
fn least_of(bytes: &[u8]) -> &[u8]
    ensures { result.now ≡ least_of bytes.now }
{
    let mut rest = bytes;
    while let [0, more @ ..] = rest {
        if !is_not_negative(more) {
            break;
        }
        rest = more;
    }
    rest
}

/// The number that these bytes encode; needless leading zero bytes are accepted, as OpenSSH accepts
/// them.
#[tactic(auto, unfolding(crate::specs::OpenSshBlob::number_in))]
fn number_in(bytes: &[u8]) -> Result<Mpint<'_>, Refused>
    ensures { Gives number_of result (number_in bytes.now) }
{
    if !is_not_negative(bytes) {
        return Err(Refused::NoKey);
    }
    match Mpint::new(least_of(bytes)) {
        Some(number) => Ok(number),
        None => unreachable!(),
    }
}

#[tactic(auto, unfolding(crate::specs::OpenSshBlob::number_at))]
fn take_number<'a>(cursor: &mut Cursor<'a>) -> Result<Mpint<'a>, Refused>
    ensures { Reads number_of number_at cursor.old result cursor.new }
{
    let bytes = cursor.take_string()?;
    let number = number_in(bytes)?;
    Ok(number)
}

#[tactic(auto, unfolding(crate::specs::OpenSshBlob::point_at))]
fn take_point<'a>(curve: Curve, cursor: &mut Cursor<'a>) -> Result<&'a [u8], Refused>
    ensures { Reads (λ q. q.now) (point_at curve) cursor.old result cursor.new }
{
    let name = take_c_text(cursor)?;
    if name != curve.name() {
        return Err(Refused::NoKey);
    }
    let point = cursor.take_string()?;
    Ok(point)
}

#[tactic(auto, unfolding(crate::specs::OpenSshBlob::fields_at))]
pub(crate) fn take_fields<'a>(
    kind: KeyKind,
    cursor: &mut Cursor<'a>,
) -> Result<KeyFields<'a>, Refused>
    ensures { Reads public_key (fields_at kind) cursor.old result cursor.new }
{
    match kind {
        KeyKind::Rsa => {
            let exponent = take_number(cursor)?;
            let modulus = take_number(cursor)?;
            Ok(KeyFields::Rsa { exponent, modulus })
        }
        KeyKind::P256 => {
            let point = take_point(Curve::Nistp256, cursor)?;
            Ok(KeyFields::P256 { point })
        }
        KeyKind::P384 => {
            let point = take_point(Curve::Nistp384, cursor)?;
            Ok(KeyFields::P384 { point })
        }
        KeyKind::P521 => {
            let point = take_point(Curve::Nistp521, cursor)?;
            Ok(KeyFields::P521 { point })
        }
        KeyKind::Ed25519 => {
            let public = cursor.take_string()?;
            Ok(KeyFields::Ed25519 { public })
        }
        KeyKind::SkP256 => {
            let point = take_point(Curve::Nistp256, cursor)?;
            let application = take_c_text(cursor)?;
            Ok(KeyFields::SkP256 { point, application })
        }
        KeyKind::SkEd25519 => {
            let public = cursor.take_string()?;
            let application = take_c_text(cursor)?;
            Ok(KeyFields::SkEd25519 {
                public,
                application,
            })
        }
    }
}

/// The kind of plain key that a blob's type string names.
fn kind_named(name: &[u8]) -> Result<KeyKind, Refused>
    ensures { result ≡ some_or_no_key (blob_kind name.now) }
{
    match blob_kind(name) {
        Some(kind) => Ok(kind),
        None => Err(Refused::NoKey),
    }
}

/// Reads the plain key that OpenSSH reads in a blob.
#[tactic(auto, unfolding(crate::specs::OpenSshBlob::key_in_blob))]
pub(crate) fn key_in_blob(blob: &[u8]) -> Result<KeyView<'_>, Refused>
    ensures exact { Gives key_of result (key_in_blob blob.now) }
    ensures found { IfOk result (λ view. IsKey (key_of view)) }
{
    let mut cursor = Cursor::new(blob);
    let name = take_c_text(&mut cursor)?;
    let kind = kind_named(name)?;
    let fields = take_fields(kind, &mut cursor)?;
    cursor.end()?;
    let view = KeyView::from_fields(fields)?;
    Ok(view)
}

/// The names of signature algorithms that OpenSSH also accepts as names of the key's type.
#[tactic(auto, unfolding(crate::specs::OpenSshNames::algorithm_kind))]
fn algorithm_kind(name: &[u8]) -> Option<KeyKind>
    ensures { result ≡ algorithm_kind name.now }
{
    if name == b"rsa-sha2-256".as_slice() || name == b"rsa-sha2-512".as_slice() {
        return Some(KeyKind::Rsa);
    }
    if name == b"webauthn-sk-ecdsa-sha2-nistp256@openssh.com".as_slice() {
        return Some(KeyKind::SkP256);
    }
    None
}

/// The kind of plain key that a type word names. It is compared exactly.
#[tactic(auto, unfolding(crate::specs::OpenSshNames::word_kind))]
pub(crate) fn word_kind(word: &[u8]) -> Option<KeyKind>
    ensures { result ≡ word_kind word.now }
{
    match name_class(word) {
        NameClass::Plain(kind) => Some(kind),
        NameClass::Certificate(_) | NameClass::Retired | NameClass::Other => algorithm_kind(word),
    }
}

/// The kind that a short name such as `RSA` names, without regard to case.
#[tactic(auto, unfolding(crate::specs::OpenSshNames::short_kind))]
fn short_kind(name: &[u8]) -> Option<KeyKind>
    ensures { result ≡ short_kind name.now }
{
    if name.eq_ignore_ascii_case(b"RSA") {
        return Some(KeyKind::Rsa);
    }
    if name.eq_ignore_ascii_case(b"ED25519") {
        return Some(KeyKind::Ed25519);
    }
    if name.eq_ignore_ascii_case(b"ED25519-SK") {
        return Some(KeyKind::SkEd25519);
    }
    None
}

/// The kind of plain key that a blob's type string names. OpenSSH accepts short names here, but not
/// in a type word.
#[tactic(auto, unfolding(crate::specs::OpenSshNames::blob_kind))]
pub(crate) fn blob_kind(name: &[u8]) -> Option<KeyKind>
    ensures { result ≡ blob_kind name.now }
{
    match word_kind(name) {
        Some(kind) => Some(kind),
        None => short_kind(name),
    }
}

/// A key that was recovered from a line, as a person looks it up.
#[derive(Clone, Copy, Debug)]
pub struct HeldKey {
    pub kind: KeyKind,
    /// The size of an RSA key in bits; `None` for other keys.
    pub bits: Option<u32>,
    /// The SHA-256 fingerprint in base64 without padding, as `ssh-keygen -l` prints it after
    /// `SHA256:`.
    pub fingerprint: [u8; 43],
}

fn held_of(alloc: Global, key: &KeyView<'_>) -> Result<HeldKey, AllocError>
    ensures { IfOk result (λ held. held ≡ held_of (key_of key.now)) }
{
    let fingerprint = fingerprint(alloc, key)?;
    Ok(HeldKey {
        kind: key.kind(),
        bits: rsa_size(key),
        fingerprint,
    })
}

/// What is reported of a recovered key, if there is one.
fn reported(alloc: Global, key: Option<Key>) -> Result<Option<HeldKey>, AllocError>
    ensures { IfOk result (λ held. held ≡ option_map held_of key) }
{
    match key {
        None => Ok(None),
        Some(key) => {
            let held = held_of(alloc, &key.view())?;
            Ok(Some(held))
        }
    }
}

/// The canonical blob of the key on an authorized_keys line, as `held_key` finds it.
pub fn held_blob(alloc: Global, line: &[u8]) -> Result<Option<Vec<u8>>, AllocError>
    ensures { IfOk result (λ blob. option_map (λ v. v.items) blob
        ≡ option_map key_blob (held_key line.now)) }
{
    let key = key_on_line(alloc, line)?;
    let blob = blob_of(alloc, key)?;
    Ok(blob)
}

/// The key that OpenSSH looks for on an authorized_keys line that is unreadable here. It is the one
/// at its first word, or else the one after the options, which end at the first blank outside
/// quotes. It grants nothing.
pub fn held_key(alloc: Global, line: &[u8]) -> Result<Option<HeldKey>, AllocError>
    ensures { IfOk result (λ held. held ≡ option_map held_of (held_key line.now)) }
{
    let key = key_on_line(alloc, line)?;
    let held = reported(alloc, key)?;
    Ok(held)
}

/// The canonical blob of the key on a known_hosts line, as `known_held_key` finds it.
pub fn known_held_blob(alloc: Global, line: &[u8]) -> Result<Option<Vec<u8>>, AllocError>
    ensures { IfOk result (λ blob. option_map (λ v. v.items) blob
        ≡ option_map key_blob (known_held_key line.now)) }
{
    let key = key_on_known_line(alloc, line)?;
    let blob = blob_of(alloc, key)?;
    Ok(blob)
}

/// The key that OpenSSH looks for on a known_hosts line that is unreadable here: the one after the
/// marker, if there is one, and the names. It grants nothing.
pub fn known_held_key(alloc: Global, line: &[u8]) -> Result<Option<HeldKey>, AllocError>
    ensures { IfOk result (λ held. held ≡ option_map held_of (known_held_key line.now)) }
{
    let key = key_on_known_line(alloc, line)?;
    let held = reported(alloc, key)?;
    Ok(held)
}
