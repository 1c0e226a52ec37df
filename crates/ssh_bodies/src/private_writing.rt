//! Writes the body of a private key, and gives its length.

ghost use Rattle.std.specs.Prelude.{◌≡◌, ◌+◌, ◌<◌, ◌^◌, length, ◌≤◌, ◌++◌, ℕ, OnOk, OnErr};
ghost use Rattle.std.specs.List.{concat};
ghost use Rattle.ssh_wire.specs.Spelling.{string};
ghost use Rattle.ssh_keys.specs.Curves.{curve_name_of};
ghost use Rattle.ssh_keys.specs.KeyOf.{key_of};
ghost use Rattle.ssh_keys.specs.PublicKey.{fields_of, key_blob, longest};
ghost use Rattle.ssh_keys.specs.View.{public_key};
ghost use Rattle.ssh_bodies.specs.PrivateFrom.{private_key};
ghost use Rattle.ssh_bodies.specs.PrivateKey.{public_of, private_fields, private_blob, section_front, IsPrivateBody, IsPrivateBlob, IsPadded, least_padding};
ghost use Rattle.ssh_bodies.specs.PrivateOf.{private_body};
ghost use Rattle.ssh_wire.specs.Fronts.{Keeps};

use crate::error::Spelled;
use crate::private::{NO_OPTIONS, NONE, PRIVATE_MAGIC};
use crate::private_fields::PrivateFields;
use crate::private_view::PrivateView;
use ssh_keys::{Curve, KeyFields, KeyView, write_key};
use std::alloc::AllocError;

/// How many bytes a body has, with the least padding.
pub(crate) fn body_len(view: &PrivateView<'_>) -> u128
    ensures { result ≡ length (private_blob (private_body view.now)) }
{
    let front = front_len(view);
    47 + key_len(&view.public) + front + (8 - front % 8) % 8
}

/// How many bytes the private section has before its padding.
pub(crate) fn front_len(view: &PrivateView<'_>) -> u128
    ensures value { result ≡ length (section_front (private_body view.now)) }
    ensures bound { result < 2 ^ 71 }
{
    let name = string_len(view.public.kind().name());
    let fields = public_len(view.fields.public_half()) + secret_len(&view.fields);
    8 + name + fields + string_len(view.comment)
}

/// How many bytes the blob of a key has.
#[tactic(auto, unfolding(ssh_keys::specs::PublicKey::key_blob))]
pub(crate) fn key_len(key: &KeyView<'_>) -> u128
    ensures value { result ≡ length (key_blob (key_of key.now)) }
    ensures bound { result < 2 ^ 68 }
{
    string_len(key.kind().name()) + public_len(key.fields())
}

/// How many bytes the fields of a public key have after its type name.
fn public_len(fields: KeyFields<'_>) -> u128
    ensures value { result ≡ length (concat (fields_of (public_key fields.entry))) }
    ensures bound { result < 2 ^ 67 }
{
    match fields {
        KeyFields::Rsa { exponent, modulus } => {
            string_len(exponent.least_bytes()) + string_len(modulus.least_bytes())
        }
        KeyFields::P256 { point } => point_len(Curve::Nistp256, point),
        KeyFields::P384 { point } => point_len(Curve::Nistp384, point),
        KeyFields::P521 { point } => point_len(Curve::Nistp521, point),
        KeyFields::Ed25519 { public } => string_len(public),
        KeyFields::SkP256 { point, application } => {
            point_len(Curve::Nistp256, point) + string_len(application)
        }
        KeyFields::SkEd25519 {
            public,
            application,
        } => string_len(public) + string_len(application),
    }
}

/// How many bytes the fields of a private key have in addition to those of its public half.
fn secret_len(fields: &PrivateFields<'_>) -> u128
    ensures value { length (concat (fields_of (public_of (private_key fields.now)))) + result
        ≡ length (concat (private_fields (private_key fields.now))) }
    ensures bound { result < 2 ^ 68 }
{
    match *fields {
        PrivateFields::Rsa {
            private_exponent,
            coefficient,
            prime1,
            prime2,
            ..
        } => {
            let exponent = string_len(private_exponent.least_bytes());
            let primes = string_len(prime1.least_bytes()) + string_len(prime2.least_bytes());
            exponent + string_len(coefficient.least_bytes()) + primes
        }
        PrivateFields::P256 { scalar, .. } => string_len(scalar.least_bytes()),
        PrivateFields::P384 { scalar, .. } => string_len(scalar.least_bytes()),
        PrivateFields::P521 { scalar, .. } => string_len(scalar.least_bytes()),
        PrivateFields::Ed25519 { secret, .. } => string_len(secret),
        PrivateFields::SkP256 {
            key_handle,
            reserved,
            ..
        } => 1 + string_len(key_handle) + string_len(reserved),
        PrivateFields::SkEd25519 {
            key_handle,
            reserved,
            ..
        } => 1 + string_len(key_handle) + string_len(reserved),
    }
}

fn point_len(curve: Curve, point: &[u8]) -> u128
    ensures value { result ≡ length (string (curve_name_of curve)) + length (string point.now) }
    ensures bound { result < 2 ^ 66 }
{
    string_len(curve.name()) + string_len(point)
}

/// How many bytes a string has, its length prefix included.
pub(crate) fn string_len(text: &[u8]) -> u128
    ensures value { result ≡ length (string text.now) }
    ensures bound { result < 2 ^ 65 }
{
    4 + text.len() as u128
}

/// Appends the body of a private key, with the least padding. The value must have a body of at most
/// 262,144 bytes, as every value has that `read_private` or `PrivateView::from_fields` gives. An
/// `Err` changes nothing.
pub fn write_private(view: &PrivateView<'_>, out: &mut Vec<u8>) -> Result<(), AllocError>
    requires { IsPrivateBody (private_body view.now) }
    ensures ok { OnOk result
        (out.new.items ≡ out.old.items ++ private_blob (private_body view.now)) }
    // The body that is written can be read back as this value.
    ensures is_body { IsPrivateBlob (private_body view.now) (private_blob (private_body view.now)) }
    // No fewer bytes of padding make the private section a multiple of 8.
    ensures least { (count : ℕ)
        → IsPadded (private_body view.now) count
        → least_padding (private_body view.now) ≤ count }
    ensures err { OnErr result (out.new.items ≡ out.old.items) }
{
    let start = out.len();
    let result = put_body(view, out);
    if result.is_err() {
        out.truncate(start);
    }
    result
}

/// Appends a body. After an `Err`, part of it may have been written.
fn put_body(view: &PrivateView<'_>, out: &mut Vec<u8>) -> Result<(), AllocError>
    requires { IsPrivateBody (private_body view.now) }
    ensures ok { OnOk result
        (out.new.items ≡ out.old.items ++ private_blob (private_body view.now)) }
    ensures err { OnErr result (Keeps out.old.items out.new.items) }
{
    let front = front_len(view) as usize;
    let padding = (8 - front % 8) % 8;
    out.extend_from_slice(PRIVATE_MAGIC)?;
    let header = (NONE, (NONE, (NO_OPTIONS, 1u32)));
    (header, key_len(&view.public) as u32).put(out)?;
    write_key(&view.public, out)?;
    ((front + padding) as u32).put(out)?;
    put_front(view, out)?;
    out.extend_from_slice(&[1, 2, 3, 4, 5, 6, 7][..padding])?;
    Ok(())
}

/// Appends the private section without its padding. After an `Err`, part of it may have been
/// written.
fn put_front(view: &PrivateView<'_>, out: &mut Vec<u8>) -> Result<(), AllocError>
    requires { length (section_front (private_body view.now)) ≤ longest }
    ensures ok { OnOk result
        (out.new.items ≡ out.old.items ++ section_front (private_body view.now)) }
    ensures err { OnErr result (Keeps out.old.items out.new.items) }
{
    let check = view.check;
    (check, (check, view.public.kind().name())).put(out)?;
    put_fields(&view.fields, out)?;
    view.comment.put(out)
}

/// Appends the fields of a private key after its type name. After an `Err`, part of them may have
/// been written.
fn put_fields(fields: &PrivateFields<'_>, out: &mut Vec<u8>) -> Result<(), AllocError>
    requires { length (concat (private_fields (private_key fields.now))) ≤ longest }
    ensures ok { OnOk result
        (out.new.items ≡ out.old.items ++ concat (private_fields (private_key fields.now))) }
    ensures err { OnErr result (Keeps out.old.items out.new.items) }
{
    match *fields {
        PrivateFields::Rsa {
            modulus,
            exponent,
            private_exponent,
            coefficient,
            prime1,
            prime2,
        } => {
            let primes = (prime1.least_bytes(), prime2.least_bytes());
            let secrets = (
                private_exponent.least_bytes(),
                (coefficient.least_bytes(), primes),
            );
            (modulus.least_bytes(), (exponent.least_bytes(), secrets)).put(out)
        }
        PrivateFields::P256 { point, scalar } => {
            (Curve::Nistp256.name(), (point, scalar.least_bytes())).put(out)
        }
        PrivateFields::P384 { point, scalar } => {
            (Curve::Nistp384.name(), (point, scalar.least_bytes())).put(out)
        }
        PrivateFields::P521 { point, scalar } => {
            (Curve::Nistp521.name(), (point, scalar.least_bytes())).put(out)
        }
        PrivateFields::Ed25519 { public, secret } => (public, secret).put(out),
        PrivateFields::SkP256 {
            point,
            application,
            flags,
            key_handle,
            reserved,
        } => {
            let handle = (application, (flags, (key_handle, reserved)));
            (Curve::Nistp256.name(), (point, handle)).put(out)
        }
        PrivateFields::SkEd25519 {
            public,
            application,
            flags,
            key_handle,
            reserved,
        } => (public, (application, (flags, (key_handle, reserved)))).put(out),
    }
}
