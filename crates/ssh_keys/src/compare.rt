//! How large an RSA key is, and whether two keys are the same.

ghost use Rattle.std.specs.Prelude.{◌≡◌, ◌↔◌, IsTrue, ◌≤◌, length, not};
ghost use Rattle.ssh_keys.specs.declared.kind.KeyKind.TheVariants.{Ed25519};
ghost use Rattle.ssh_keys.specs.PublicKey.{longest, key_blob};
ghost use Rattle.ssh_keys.specs.View.{public_key};
ghost use Rattle.ssh_wire.specs.Spelling.{natural, is_least};
ghost use Rattle.ssh_keys.specs.Fingerprint.{IsBitCount, IsRsaAtLeast, IsRsaSize, is_rsa_below};
ghost use Rattle.ssh_keys.specs.KeyOf.{key_of};

use crate::fields::KeyFields;
use crate::view::KeyView;

/// The size of an RSA key in bits, as `ssh-keygen -l` prints it: how many binary digits its modulus
/// has. `None` for any other key.
pub fn rsa_bits(key: &KeyView<'_>) -> Option<u32>
    ensures { IsRsaSize (key_of key.now) result }
{
    match key.fields() {
        KeyFields::Rsa { modulus, .. } => Some(bit_count(modulus.least_bytes())),
        _ => None,
    }
}

/// Whether an RSA key has at least so many bits, by `rsa_bits`. True for every other key.
pub fn rsa_at_least(key: &KeyView<'_>, bits: u32) -> bool
    ensures exact { result ≡ not (is_rsa_below bits (key_of key.now)) }
    ensures reported { IsTrue result ↔ IsRsaAtLeast bits (key_of key.now) }
{
    match rsa_bits(key) {
        Some(size) => bits <= size,
        None => true,
    }
}

/// The least number of binary digits. A leading byte 00 is only there so that the sign bit is
/// clear, and does not count.
fn bit_count(bytes: &[u8]) -> u32
    requires least { IsTrue (is_least bytes.now) }
    requires short { length bytes.now ≤ longest }
    ensures { IsBitCount (natural bytes.now) result }
{
    match bytes {
        [] => 0,
        [first, rest @ ..] => rest.len() as u32 * 8 + (8 - first.leading_zeros()),
    }
}

/// Whether two keys are equal: of one kind, and equal in each field. Keys are equal exactly where
/// their blobs are, and `==` of views gives the same answer.
pub fn same_key(a: &KeyView<'_>, b: &KeyView<'_>) -> bool
    ensures values { IsTrue result ↔ (key_of a.now ≡ key_of b.now) }
    ensures blobs { IsTrue result ↔ (key_blob (key_of a.now) ≡ key_blob (key_of b.now)) }
{
    same_fields(a.fields(), b.fields())
}

fn same_fields(a: KeyFields<'_>, b: KeyFields<'_>) -> bool
    ensures { IsTrue result ↔ (public_key a.entry ≡ public_key b.entry) }
{
    match (a, b) {
        (
            KeyFields::Rsa {
                exponent: e,
                modulus: n,
            },
            KeyFields::Rsa { exponent, modulus },
        ) => e == exponent && n == modulus,
        (KeyFields::P256 { point: q }, KeyFields::P256 { point }) => q == point,
        (KeyFields::P384 { point: q }, KeyFields::P384 { point }) => q == point,
        (KeyFields::P521 { point: q }, KeyFields::P521 { point }) => q == point,
        (KeyFields::Ed25519 { public: a }, KeyFields::Ed25519 { public }) => a == public,
        (
            KeyFields::SkP256 {
                point: q,
                application: s,
            },
            KeyFields::SkP256 { point, application },
        ) => q == point && s == application,
        (
            KeyFields::SkEd25519 {
                public: a,
                application: s,
            },
            KeyFields::SkEd25519 {
                public,
                application,
            },
        ) => a == public && s == application,
        _ => false,
    }
}
