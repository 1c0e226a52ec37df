//! A private key in its body.

ghost use Rattle.std.specs.Prelude.{◌≡◌};
ghost use Rattle.ssh_keys.specs.KeyOf.{key_of};
ghost use Rattle.ssh_bodies.specs.PrivateFrom.{private_key};
ghost use Rattle.ssh_bodies.specs.PrivateKey.{public_of};

use crate::private_fields::PrivateFields;
use ssh_keys::KeyView;
use std::fmt;

/// A private key, as slices of its body (PROTOCOL.key). It has secrets, so `Debug` prints only the
/// public half and the comment.
#[derive(Clone, Copy)]
pub struct PrivateView<'a> {
    /// The check number, which occurs twice in the body. It is random where a body was encrypted,
    /// so that a wrong passphrase shows.
    pub check: u32,
    /// The public half of the key.
    pub public: KeyView<'a>,
    /// The fields of the private key, which include the public ones.
    pub fields: PrivateFields<'a>,
    pub comment: &'a [u8],
    ghost public_half: { key_of public ≡ public_of (private_key fields) },
}

impl fmt::Debug for PrivateView<'_> {
    fn fmt<W: fmt::Write>(&self, f: &mut fmt::Formatter<W>) -> fmt::Result {
        f.debug_struct("PrivateView")
            .field("public", &self.public)
            .field("comment", &self.comment)
            .finish_non_exhaustive()
    }
}
