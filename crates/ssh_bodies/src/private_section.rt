//! Reads the private section of a body: the key's fields, whether the public ones match, the
//! comment and the padding.

ghost use Rattle.std.specs.Prelude.{◌≡◌, ◌==◌, ◌&&◌, length, drop};
ghost use Rattle.std.specs.Str.{bytes_eq};
ghost use Rattle.ssh_wire.specs.Mpint.{number_of};
ghost use Rattle.ssh_wire.specs.Reading.{Gives, Reads};
ghost use Rattle.ssh_keys.specs.Curves.{curve_name_of};
ghost use Rattle.ssh_keys.specs.KeyOf.{key_of};
ghost use Rattle.ssh_keys.specs.PublicKey.{rsa, ed25519, sk_p256, sk_ed25519};
ghost use Rattle.ssh_keys.specs.View.{public_key};
ghost use Rattle.ssh_bodies.specs.BodyReading.{body_positive_at};
ghost use Rattle.ssh_bodies.specs.PrivateFrom.{private_key};
ghost use Rattle.ssh_bodies.specs.PrivateKey.{padding};
ghost use Rattle.ssh_bodies.specs.PrivateReading.{rsa_at, curve_at, ed25519_at, handle_at, private_at, is_padding};
ghost use Rattle.ssh_bodies.specs.PrivateParts.{rsa_numbers, on_curve, handle_of, curve_key};

use crate::error::BodyError;
use crate::private_fields::PrivateFields;
use ssh_keys::{Curve, KeyFields};
use ssh_wire::{Cursor, Mpint, WireCause, WireError};

/// The numbers of an RSA key, in the order of the section.
#[derive(Clone, Copy)]
struct RsaPart<'a> {
    modulus: Mpint<'a>,
    exponent: Mpint<'a>,
    private_exponent: Mpint<'a>,
    coefficient: Mpint<'a>,
    prime1: Mpint<'a>,
    prime2: Mpint<'a>,
}

/// The fields of an ECDSA key.
#[derive(Clone, Copy)]
struct CurvePart<'a> {
    curve: &'a [u8],
    point: &'a [u8],
    scalar: Mpint<'a>,
}

/// The fields of a security key after its point or public key. The secret itself stays in the
/// device.
#[derive(Clone, Copy)]
struct HandlePart<'a> {
    application: &'a [u8],
    flags: u8,
    key_handle: &'a [u8],
    reserved: &'a [u8],
}

/// Reads a number above zero.
#[tactic(auto, unfolding(crate::specs::BodyReading::body_positive_at))]
fn take_positive<'a>(cursor: &mut Cursor<'a>) -> Result<Mpint<'a>, BodyError>
    ensures { Reads number_of body_positive_at cursor.old result cursor.new }
{
    let place = cursor.place();
    let number = cursor.take_mpint()?;
    if number.is_zero() {
        return Err(BodyError::Wire(WireError {
            place,
            cause: WireCause::Value,
        }));
    }
    Ok(number)
}

#[tactic(auto, unfolding(crate::specs::PrivateReading::rsa_at))]
fn take_rsa<'a>(cursor: &mut Cursor<'a>) -> Result<RsaPart<'a>, BodyError>
    ensures { Reads rsa_numbers rsa_at cursor.old result cursor.new }
{
    let modulus = take_positive(cursor)?;
    let exponent = take_positive(cursor)?;
    let private_exponent = take_positive(cursor)?;
    let coefficient = take_positive(cursor)?;
    let prime1 = take_positive(cursor)?;
    let prime2 = take_positive(cursor)?;
    Ok(RsaPart {
        modulus,
        exponent,
        private_exponent,
        coefficient,
        prime1,
        prime2,
    })
}

#[tactic(auto, unfolding(crate::specs::PrivateReading::curve_at))]
fn take_curve<'a>(cursor: &mut Cursor<'a>) -> Result<CurvePart<'a>, BodyError>
    ensures { Reads on_curve curve_at cursor.old result cursor.new }
{
    let curve = cursor.take_string()?;
    let point = cursor.take_string()?;
    let scalar = take_positive(cursor)?;
    Ok(CurvePart {
        curve,
        point,
        scalar,
    })
}

#[tactic(auto, unfolding(crate::specs::PrivateReading::ed25519_at))]
fn take_ed25519<'a>(cursor: &mut Cursor<'a>) -> Result<(&'a [u8], &'a [u8]), BodyError>
    ensures { Reads (λ k. (k.0.now, k.1.now)) ed25519_at cursor.old result cursor.new }
{
    let public = cursor.take_string()?;
    let secret = cursor.take_string()?;
    Ok((public, secret))
}

#[tactic(auto, unfolding(crate::specs::PrivateReading::handle_at))]
fn take_handle<'a>(cursor: &mut Cursor<'a>) -> Result<HandlePart<'a>, BodyError>
    ensures { Reads handle_of handle_at cursor.old result cursor.new }
{
    let application = cursor.take_string()?;
    let flags = cursor.take_byte()?;
    let key_handle = cursor.take_string()?;
    let reserved = cursor.take_string()?;
    Ok(HandlePart {
        application,
        flags,
        key_handle,
        reserved,
    })
}

/// Whether the curve and the point are those of the public key.
fn is_on_curve(part: &CurvePart<'_>, curve: Curve, point: &[u8]) -> bool
    ensures { result ≡ (bytes_eq part.now.curve.now (curve_name_of curve)
        && bytes_eq part.now.point.now point.now) }
{
    part.curve == curve.name() && part.point == point
}

/// Whether a secret of an Ed25519 key has 64 bytes and ends with this public key.
pub(crate) fn is_secret_of(public: &[u8], secret: &[u8]) -> bool
    ensures { result ≡ ((length secret.now == 64) && bytes_eq (drop 32 secret.now) public.now) }
{
    secret.len() == 64 && &secret[32..] == public
}

/// Reads the fields of an RSA key, and whether the public ones are these.
#[tactic(auto, unfolding(crate::specs::PrivateReading::private_at))]
fn take_rsa_key<'a>(
    wanted_exponent: Mpint<'_>,
    wanted_modulus: Mpint<'_>,
    cursor: &mut Cursor<'a>,
) -> Result<(PrivateFields<'a>, bool), BodyError>
    ensures { Reads (λ k. (private_key k.0, k.1))
        (private_at (rsa (number_of wanted_exponent.entry) (number_of wanted_modulus.entry)))
        cursor.old result cursor.new }
{
    let RsaPart {
        modulus,
        exponent,
        private_exponent,
        coefficient,
        prime1,
        prime2,
    } = take_rsa(cursor)?;
    let fields = PrivateFields::Rsa {
        modulus,
        exponent,
        private_exponent,
        coefficient,
        prime1,
        prime2,
    };
    let same = modulus == wanted_modulus && exponent == wanted_exponent;
    Ok((fields, same))
}

/// Reads the fields of an ECDSA key, and whether its curve and its point are these.
#[tactic(auto, unfolding(crate::specs::PrivateReading::private_at))]
fn take_curve_key<'a>(
    curve: Curve,
    wanted: &[u8],
    cursor: &mut Cursor<'a>,
) -> Result<(PrivateFields<'a>, bool), BodyError>
    ensures { Reads (λ k. (private_key k.0, k.1)) (private_at (curve_key curve wanted.entry.now))
        cursor.old result cursor.new }
{
    let part = take_curve(cursor)?;
    let CurvePart { point, scalar, .. } = part;
    let fields = match curve {
        Curve::Nistp256 => PrivateFields::P256 { point, scalar },
        Curve::Nistp384 => PrivateFields::P384 { point, scalar },
        Curve::Nistp521 => PrivateFields::P521 { point, scalar },
    };
    Ok((fields, is_on_curve(&part, curve, wanted)))
}

/// Reads the fields of an Ed25519 key, and whether its public key is this one.
#[tactic(auto, unfolding(crate::specs::PrivateReading::private_at))]
fn take_ed25519_key<'a>(
    wanted: &[u8],
    cursor: &mut Cursor<'a>,
) -> Result<(PrivateFields<'a>, bool), BodyError>
    ensures { Reads (λ k. (private_key k.0, k.1)) (private_at (ed25519 wanted.entry.now))
        cursor.old result cursor.new }
{
    let (public, secret) = take_ed25519(cursor)?;
    let same = public == wanted && is_secret_of(wanted, secret);
    Ok((PrivateFields::Ed25519 { public, secret }, same))
}

/// Reads the fields of a security key on nistp256, and whether curve, point and application are
/// these.
#[tactic(auto, unfolding(crate::specs::PrivateReading::private_at))]
fn take_sk_p256_key<'a>(
    wanted: &[u8],
    wanted_application: &[u8],
    cursor: &mut Cursor<'a>,
) -> Result<(PrivateFields<'a>, bool), BodyError>
    ensures { Reads (λ k. (private_key k.0, k.1))
        (private_at (sk_p256 wanted.entry.now wanted_application.entry.now))
        cursor.old result cursor.new }
{
    let curve = cursor.take_string()?;
    let point = cursor.take_string()?;
    let HandlePart {
        application,
        flags,
        key_handle,
        reserved,
    } = take_handle(cursor)?;
    let fields = PrivateFields::SkP256 {
        point,
        application,
        flags,
        key_handle,
        reserved,
    };
    let same = curve == Curve::Nistp256.name()
        && (point == wanted && application == wanted_application);
    Ok((fields, same))
}

/// Reads the fields of an Ed25519 security key, and whether public key and application are these.
#[tactic(auto, unfolding(crate::specs::PrivateReading::private_at))]
fn take_sk_ed25519_key<'a>(
    wanted: &[u8],
    wanted_application: &[u8],
    cursor: &mut Cursor<'a>,
) -> Result<(PrivateFields<'a>, bool), BodyError>
    ensures { Reads (λ k. (private_key k.0, k.1))
        (private_at (sk_ed25519 wanted.entry.now wanted_application.entry.now))
        cursor.old result cursor.new }
{
    let public = cursor.take_string()?;
    let HandlePart {
        application,
        flags,
        key_handle,
        reserved,
    } = take_handle(cursor)?;
    let fields = PrivateFields::SkEd25519 {
        public,
        application,
        flags,
        key_handle,
        reserved,
    };
    let same = public == wanted && application == wanted_application;
    Ok((fields, same))
}

/// Reads the fields of the private key that belongs to a public one, and whether their public half
/// is that one's.
pub(crate) fn take_private<'a>(
    public: KeyFields<'_>,
    cursor: &mut Cursor<'a>,
) -> Result<(PrivateFields<'a>, bool), BodyError>
    ensures { Reads (λ k. (private_key k.0, k.1)) (private_at (public_key public.entry)) cursor.old
        result cursor.new }
{
    match public {
        KeyFields::Rsa { exponent, modulus } => take_rsa_key(exponent, modulus, cursor),
        KeyFields::P256 { point } => take_curve_key(Curve::Nistp256, point, cursor),
        KeyFields::P384 { point } => take_curve_key(Curve::Nistp384, point, cursor),
        KeyFields::P521 { point } => take_curve_key(Curve::Nistp521, point, cursor),
        KeyFields::Ed25519 { public } => take_ed25519_key(public, cursor),
        KeyFields::SkP256 { point, application } => take_sk_p256_key(point, application, cursor),
        KeyFields::SkEd25519 {
            public,
            application,
        } => { take_sk_ed25519_key(public, application, cursor) }
    }
}

/// Whether the rest is padding: 1, 2, 3 and so on to the end, at most 254 bytes.
pub(crate) fn is_padding(rest: &[u8]) -> bool
    ensures { result ≡ is_padding rest.now }
{
    rest.len() <= 254 && counts_up(rest)
}

/// Whether the rest is 1, 2, 3 and so on to the end.
#[tactic(auto, using(crate::proofs::Paddings::counts_up, crate::proofs::Paddings::counts_not, crate::proofs::Paddings::count_more))]
fn counts_up(rest: &[u8]) -> bool
    ensures { result ≡ bytes_eq rest.now (padding (length rest.now)) }
{
    for (index, byte) in rest.iter().enumerate() {
        if *byte as usize != index + 1 {
            return false;
        }
    }
    true
}
