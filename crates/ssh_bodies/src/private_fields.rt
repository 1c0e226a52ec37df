//! The fields of a private key, and a private key from fields that were not read from a body.

ghost use Rattle.std.specs.Prelude.{◌≡◌, nat_lt, IfOk, IsOkAnd};
ghost use Rattle.ssh_wire.specs.Mpint.{number_of};
ghost use Rattle.ssh_wire.specs.Reading.{Gives};
ghost use Rattle.ssh_bodies.specs.PrivateFrom.{private_key};
ghost use Rattle.ssh_bodies.specs.PrivateKey.{IsPrivateBody, is_private_in_range, private_with};
ghost use Rattle.ssh_bodies.specs.PrivateMaking.{private_from, range_fault};
ghost use Rattle.ssh_bodies.specs.PrivateOf.{private_body};

use crate::error::BodyError;
use crate::private_section::is_secret_of;
use crate::private_view::PrivateView;
use crate::private_writing::body_len;
use ssh_keys::{KeyFields, KeyView, MAX_BLOB_LEN};
use ssh_wire::{Mpint, WireCause, WireError};
use std::fmt;

/// The fields of a private key after its type name (PROTOCOL.key). The curve's name is not a field
/// here, because the kind gives it. They are secrets, so `Debug` prints the kind alone.
#[derive(Clone, Copy)]
pub enum PrivateFields<'a> {
    Rsa {
        /// The modulus n.
        modulus: Mpint<'a>,
        /// The public exponent e.
        exponent: Mpint<'a>,
        /// The private exponent d.
        private_exponent: Mpint<'a>,
        /// The inverse of q modulo p, which OpenSSH calls iqmp.
        coefficient: Mpint<'a>,
        /// The first prime p.
        prime1: Mpint<'a>,
        /// The second prime q.
        prime2: Mpint<'a>,
    },
    /// ECDSA on the curve nistp256.
    P256 {
        /// The point Q: the byte 04 and two coordinates of 32 bytes.
        point: &'a [u8],
        /// The private scalar d.
        scalar: Mpint<'a>,
    },
    /// ECDSA on the curve nistp384.
    P384 {
        /// The point Q: the byte 04 and two coordinates of 48 bytes.
        point: &'a [u8],
        /// The private scalar d.
        scalar: Mpint<'a>,
    },
    /// ECDSA on the curve nistp521.
    P521 {
        /// The point Q: the byte 04 and two coordinates of 66 bytes.
        point: &'a [u8],
        /// The private scalar d.
        scalar: Mpint<'a>,
    },
    Ed25519 {
        /// The public key, 32 bytes.
        public: &'a [u8],
        /// 64 bytes: the seed of 32 bytes, and then the public key.
        secret: &'a [u8],
    },
    /// ECDSA on the curve nistp256, by a FIDO security key.
    SkP256 {
        /// The point Q: the byte 04 and two coordinates of 32 bytes.
        point: &'a [u8],
        /// The application that the key is for, mostly `ssh:`.
        application: &'a [u8],
        /// The flags that the key was made with (PROTOCOL.u2f).
        flags: u8,
        /// The handle by which the device finds the key (PROTOCOL.u2f).
        key_handle: &'a [u8],
        /// Reserved bytes, which have no meaning yet.
        reserved: &'a [u8],
    },
    /// Ed25519, by a FIDO security key.
    SkEd25519 {
        /// The public key, 32 bytes.
        public: &'a [u8],
        /// The application that the key is for, mostly `ssh:`.
        application: &'a [u8],
        /// The flags that the key was made with (PROTOCOL.u2f).
        flags: u8,
        /// The handle by which the device finds the key (PROTOCOL.u2f).
        key_handle: &'a [u8],
        /// Reserved bytes, which have no meaning yet.
        reserved: &'a [u8],
    },
}

impl<'a> PrivateFields<'a> {
    ghost use Rattle.std.specs.Prelude.{◌≡◌};
    ghost use Rattle.ssh_keys.specs.View.{public_key};
    ghost use Rattle.ssh_bodies.specs.PrivateFrom.{private_key};
    ghost use Rattle.ssh_bodies.specs.PrivateKey.{public_of};

    /// The fields of the public half.
    pub fn public_half(&self) -> KeyFields<'a>
        ensures { public_key result ≡ public_of (private_key self.now) }
    {
        match *self {
            PrivateFields::Rsa {
                modulus,
                exponent,
                ..
            } => KeyFields::Rsa { exponent, modulus },
            PrivateFields::P256 { point, .. } => KeyFields::P256 { point },
            PrivateFields::P384 { point, .. } => KeyFields::P384 { point },
            PrivateFields::P521 { point, .. } => KeyFields::P521 { point },
            PrivateFields::Ed25519 { public, .. } => KeyFields::Ed25519 { public },
            PrivateFields::SkP256 {
                point,
                application,
                ..
            } => KeyFields::SkP256 { point, application },
            PrivateFields::SkEd25519 {
                public,
                application,
                ..
            } => KeyFields::SkEd25519 {
                public,
                application,
            },
        }
    }
}

impl fmt::Debug for PrivateFields<'_> {
    fn fmt<W: fmt::Write>(&self, f: &mut fmt::Formatter<W>) -> fmt::Result {
        f.write_str(match self {
            PrivateFields::Rsa { .. } => "Rsa",
            PrivateFields::P256 { .. } => "P256",
            PrivateFields::P384 { .. } => "P384",
            PrivateFields::P521 { .. } => "P521",
            PrivateFields::Ed25519 { .. } => "Ed25519",
            PrivateFields::SkP256 { .. } => "SkP256",
            PrivateFields::SkEd25519 { .. } => "SkEd25519",
        })
    }
}

impl<'a> PrivateView<'a> {
    /// The private key with these fields, as `write_private` takes it. Nothing is copied.
    ///
    /// The first error is returned: B11 where the public half is not a key, as
    /// `KeyView::from_fields` finds it; B12, which is V5 at 0, for a secret number that is zero,
    /// and B7 for an Ed25519 secret that is not 64 bytes with the public key at their end; then B14
    /// where the body would have more than 262,144 bytes. Whether secret and public fields belong
    /// together is not checked otherwise.
    pub fn from_fields(
        check: u32,
        fields: PrivateFields<'a>,
        comment: &'a [u8],
    ) -> Result<Self, BodyError>
        // A key that is returned has these fields, and a body.
        ensures found { IfOk result
            (λ view. (private_body view ≡ private_with check (private_key fields.entry) comment.now)
            × IsPrivateBody (private_body view)) }
        // The fields of a body give that body.
        ensures only { IsPrivateBody (private_with check (private_key fields.entry) comment.now)
            → IsOkAnd result (λ view. private_body view
            ≡ private_with check (private_key fields.entry) comment.now) }
        // The key or the first error.
        ensures exact { Gives private_body result
            (private_from (private_with check (private_key fields.entry) comment.now)) }
    {
        match view_of(check, fields, comment) {
            Ok(view) => Ok(view),
            Err(e) => Err(e),
        }
    }
}

#[tactic(auto, unfolding(crate::specs::PrivateMaking::private_from))]
fn view_of<'a>(
    check: u32,
    fields: PrivateFields<'a>,
    comment: &'a [u8],
) -> Result<PrivateView<'a>, BodyError>
    ensures { Gives private_body result
        (private_from (private_with check (private_key fields.entry) comment.now)) }
{
    let public = KeyView::from_fields(fields.public_half())?;
    if !is_in_range(fields) {
        return Err(range_fault(&fields));
    }
    let view = PrivateView {
        check,
        public,
        fields,
        comment,
    };
    if body_len(&view) > MAX_BLOB_LEN as u128 {
        return Err(BodyError::TooLong);
    }
    Ok(view)
}

/// Whether the secret fields are in their ranges.
fn is_in_range(fields: PrivateFields<'_>) -> bool
    ensures { result ≡ is_private_in_range (private_key fields.entry) }
{
    match fields {
        PrivateFields::Rsa {
            private_exponent,
            coefficient,
            prime1,
            prime2,
            ..
        } => {
            let are_primes = is_positive(prime1) && is_positive(prime2);
            is_positive(private_exponent) && (is_positive(coefficient) && are_primes)
        }
        PrivateFields::P256 { scalar, .. } => is_positive(scalar),
        PrivateFields::P384 { scalar, .. } => is_positive(scalar),
        PrivateFields::P521 { scalar, .. } => is_positive(scalar),
        PrivateFields::Ed25519 { public, secret } => is_secret_of(public, secret),
        PrivateFields::SkP256 { flags: _flags, .. } => true,
        PrivateFields::SkEd25519 { flags: _flags, .. } => true,
    }
}

fn is_positive(number: Mpint<'_>) -> bool
    ensures { result ≡ nat_lt 0 (number_of number.entry) }
{
    !number.is_zero()
}

/// The error of secret fields that are not in their ranges. It has no place in a body, so the place
/// is 0.
fn range_fault(fields: &PrivateFields<'_>) -> BodyError
    ensures { result ≡ range_fault (private_key fields.now) }
{
    match fields {
        PrivateFields::Ed25519 { .. } => BodyError::PublicMismatch,
        _ => BodyError::Wire(WireError {
            place: 0,
            cause: WireCause::Value,
        }),
    }
}
