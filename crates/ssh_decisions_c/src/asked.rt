//! What a caller in C asks.

ghost use Rattle.std.specs.Prelude.{◌≡◌, IfOk, None, Some, if◌then◌else◌, map, option_copied};
ghost use Rattle.ssh_decisions_c.specs.Asked.{empty_principals_by, host_name_by, signed_of};

use ssh_offers::{EmptyPrincipals, Signed};
use ssh_text::Bytes;
use std::alloc::{AllocError, Global};

/// The login that is asked about. Expiry times that name no zone are in UTC.
#[repr(C)]
#[derive(Clone, Copy)]
pub struct LoginAsked<'a> {
    /// The blob of the key or the certificate that the client offers.
    pub offered: &'a [u8],
    /// The blob of the signature over the login bytes.
    pub signature: &'a [u8],
    /// The name of the public key algorithm.
    pub algorithm: &'a [u8],
    /// The session identifier.
    pub session: &'a [u8],
    /// The user's name.
    pub user: &'a [u8],
    /// The address that the client connects from, as text.
    pub address: &'a [u8],
    /// The name of the host that the client connects from, if `has_host`.
    pub host: &'a [u8],
    /// Seconds since 1970-01-01 in UTC.
    pub now: u64,
    /// The fewest bits of an RSA key; 0 allows any size.
    pub rsa_minimum: u32,
    pub has_host: bool,
    /// Whether a certificate without principals is for nobody; else it is for everybody.
    pub empty_principals_never: bool,
}

/// The host's key that is asked about.
#[repr(C)]
#[derive(Clone, Copy)]
pub struct HostAsked<'a> {
    /// The blob of the key or the certificate that the host offers.
    pub offered: &'a [u8],
    /// The blob of the signature over the exchange hash.
    pub signature: &'a [u8],
    pub exchange_hash: &'a [u8],
    /// The name or the address that the client connects to.
    pub host: &'a [u8],
    /// Seconds since 1970-01-01 in UTC.
    pub now: u64,
    /// The fewest bits of an RSA key; 0 allows any size.
    pub rsa_minimum: u32,
    /// The port that the client connects to.
    pub port: u16,
    /// Whether a certificate without principals is for no host; else it is for every host.
    pub empty_principals_never: bool,
}

/// A signature that the caller vouches for, with its key and what it is over.
#[repr(C)]
#[derive(Clone, Copy)]
pub struct SignedBytes<'a> {
    pub key: &'a [u8],
    pub message: &'a [u8],
    pub signature: &'a [u8],
}

fn copy_signed(alloc: Global, one: &SignedBytes<'_>) -> Result<Signed, AllocError>
    ensures { IfOk result (λ s. s ≡ signed_of one.now) }
{
    Ok(Signed {
        key: Bytes::new(Vec::from_slice(alloc, one.key)?),
        message: Bytes::new(Vec::from_slice(alloc, one.message)?),
        signature: Bytes::new(Vec::from_slice(alloc, one.signature)?),
    })
}

/// The signatures, copied.
pub(crate) fn copy_all(
    alloc: Global,
    vouched: &[SignedBytes<'_>],
) -> Result<Vec<Signed>, AllocError>
    ensures { IfOk result (λ v. v.items ≡ map signed_of vouched.now) }
{
    let mut copied = Vec::new(alloc);
    for one in vouched {
        copied.push(copy_signed(alloc, one)?)?;
    }
    Ok(copied)
}

/// The name of the host that the client connects from, if it is known.
pub(crate) fn host_name<'a>(asked: &LoginAsked<'a>) -> Option<&'a [u8]>
    ensures { option_copied result ≡ host_name_by asked.entry.now.has_host asked.entry.now.host.now }
{
    if asked.has_host {
        Some(asked.host)
    } else {
        None
    }
}

/// Whom a certificate without principals is for.
pub(crate) fn empty_principals(is_never: bool) -> EmptyPrincipals
    ensures { result ≡ empty_principals_by is_never }
{
    if is_never {
        EmptyPrincipals::Never
    } else {
        EmptyPrincipals::Any
    }
}
