//! The fields of a certificate, each with how it is written.

ghost use Rattle.std.specs.Prelude.{◌≡◌, ◌≤◌, ◌++◌, length, OnOk, OnErr, ◌<◌, Err};
ghost use Rattle.std.specs.List.{concat};
ghost use Rattle.ssh_keys.specs.KeyOf.{key_of};
ghost use Rattle.ssh_keys.specs.PublicKey.{fields_of, key_blob, longest};
ghost use Rattle.ssh_keys.specs.Signature.{IsSignature, signature_of, signature_blob};
ghost use Rattle.ssh_certs.specs.Writing.{capped};
ghost use Rattle.ssh_wire.specs.Fronts.{Keeps};
ghost use Rattle.ssh_wire.specs.Spelling.{string};

use crate::writing::{Spelled, put_len, put_packed, total_len};
use ssh_keys::{Curve, KeyFields, KeyView, SignatureView, write_key, write_signature};
use ssh_wire::{Wire, put_string};
use std::alloc::AllocError;

/// A signature that has a blob: its flags and counter are present exactly for a security key's
/// algorithm.
#[derive(Clone, Copy)]
pub(crate) struct SpelledSignature<'a> {
    pub(crate) view: SignatureView<'a>,
    ghost is_signature: { IsSignature (signature_of view) },
}

/// A field of a certificate, as it is written.
#[derive(Clone, Copy)]
pub(crate) enum Field<'a> {
    Uint32(u32),
    Uint64(u64),
    Text(&'a [u8]),
    Names(&'a [&'a [u8]]),
    Options(&'a [(&'a [u8], &'a [u8])]),
    /// The fields of a key after its type name.
    KeyFields(KeyView<'a>),
    /// The blob of a key, as a string.
    Key(KeyView<'a>),
    /// The blob of a signature, as a string.
    Signature(SpelledSignature<'a>),
}

impl<'a> Spelled for Field<'a> {
    ghost use Rattle.ssh_certs.specs.Row.{spelled_field};

    ghost spelling = { spelled_field };

    fn spelled_len(&self) -> usize {
        match self {
            Field::Uint32(_) => 4,
            Field::Uint64(_) => 8,
            Field::Text(text) => text.spelled_len(),
            Field::Names(names) => total_len(names).saturating_add(4),
            Field::Options(options) => total_len(options).saturating_add(4),
            Field::KeyFields(key) => key_fields_len(key),
            Field::Key(key) => key_len(key).saturating_add(4),
            Field::Signature(signature) => signature_len(&signature.view).saturating_add(4),
        }
    }

    fn put(&self, out: &mut Vec<u8>) -> Result<(), AllocError> {
        match *self {
            Field::Uint32(number) => number.encode(out),
            Field::Uint64(number) => number.encode(out),
            Field::Text(text) => put_string(out, text),
            Field::Names(names) => put_packed(names, out),
            Field::Options(options) => put_packed(options, out),
            Field::KeyFields(key) => put_key_fields(&key, out),
            Field::Key(key) => {
                put_len(key_len(&key), out)?;
                write_key(&key, out)
            }
            Field::Signature(signature) => {
                put_len(signature_len(&signature.view), out)?;
                write_signature(&signature.view, out)
            }
        }
    }
}

/// How many bytes the fields of a key have after its type name, or `usize::MAX` if they have more.
fn key_fields_len(key: &KeyView<'_>) -> usize
    ensures { result ≡ capped (length (concat (fields_of (key_of key.now)))) }
{
    match key.fields() {
        KeyFields::Rsa { exponent, modulus } => {
            (exponent.least_bytes(), modulus.least_bytes()).spelled_len()
        }
        KeyFields::P256 { point } => (Curve::Nistp256.name(), point).spelled_len(),
        KeyFields::P384 { point } => (Curve::Nistp384.name(), point).spelled_len(),
        KeyFields::P521 { point } => (Curve::Nistp521.name(), point).spelled_len(),
        KeyFields::Ed25519 { public } => public.spelled_len(),
        KeyFields::SkP256 { point, application } => {
            (Curve::Nistp256.name(), (point, application)).spelled_len()
        }
        KeyFields::SkEd25519 {
            public,
            application,
        } => (public, application).spelled_len(),
    }
}

/// Writes the fields of a key after its type name. After an `Err`, part of them may have been
/// written.
fn put_key_fields(key: &KeyView<'_>, out: &mut Vec<u8>) -> Result<(), AllocError>
    requires { length (concat (fields_of (key_of key.now))) ≤ longest }
    ensures ok { OnOk result
        (out.new.items ≡ out.old.items ++ concat (fields_of (key_of key.now))) }
    ensures err { OnErr result (Keeps out.old.items out.new.items) }
{
    match key.fields() {
        KeyFields::Rsa { exponent, modulus } => {
            (exponent.least_bytes(), modulus.least_bytes()).put(out)
        }
        KeyFields::P256 { point } => (Curve::Nistp256.name(), point).put(out),
        KeyFields::P384 { point } => (Curve::Nistp384.name(), point).put(out),
        KeyFields::P521 { point } => (Curve::Nistp521.name(), point).put(out),
        KeyFields::Ed25519 { public } => public.put(out),
        KeyFields::SkP256 { point, application } => {
            (Curve::Nistp256.name(), (point, application)).put(out)
        }
        KeyFields::SkEd25519 {
            public,
            application,
        } => (public, application).put(out),
    }
}

/// How many bytes the blob of a key has, or `usize::MAX` if it has more.
#[tactic(auto, unfolding(ssh_keys::specs::PublicKey::key_blob))]
fn key_len(key: &KeyView<'_>) -> usize
    ensures { result ≡ capped (length (key_blob (key_of key.now))) }
{
    let name = key.kind().name();
    name.spelled_len().saturating_add(key_fields_len(key))
}

/// How many bytes the blob of a signature has, or `usize::MAX` if it has more.
#[tactic(auto, unfolding(ssh_keys::specs::Signature::signature_blob))]
fn signature_len(signature: &SignatureView<'_>) -> usize
    ensures { result ≡ capped (length (signature_blob (signature_of signature.now))) }
{
    let flags_and_counter = if signature.sk.is_some() { 5 } else { 0 };
    (signature.algorithm, signature.bytes)
        .spelled_len()
        .saturating_add(flags_and_counter)
}
