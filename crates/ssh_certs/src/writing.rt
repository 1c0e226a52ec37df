//! Writes a certificate from its parts, field by field, and the blob of a certified key.

ghost use Rattle.std.specs.Prelude.{◌≡◌, ◌≤◌, ◌++◌, length, OnOk, OnErr, ◌<◌, ◌^◌, ℕ, List, ◌↔◌, IfOk, Err};
ghost use Rattle.std.specs.List.{flat_map};
ghost use Rattle.ssh_keys.specs.PublicKey.{key_blob, longest};
ghost use Rattle.ssh_keys.specs.Signature.{IsSignature};
ghost use Rattle.ssh_certs.specs.Writing.{capped};
ghost use Rattle.ssh_wire.specs.Fronts.{Keeps};
ghost use Rattle.ssh_wire.specs.Spelling.{string, uint32};
ghost use Rattle.ssh_certs.specs.Certificate.{IsCertificate, certificate_blob};
ghost use Rattle.ssh_certs.specs.CertificateOf.{certificate_of};
ghost use Rattle.ssh_certs.specs.Parts.{certificate_of_parts};
ghost use Rattle.ssh_certs.specs.Row.{spelled_field};

use crate::reading::WriteError;
use crate::row::{Field, SpelledSignature};
use crate::view::CertView;
use ssh_keys::{KeyFields, KeyView, MAX_BLOB_LEN, SignatureView, write_key};
use ssh_wire::{Wire, put_string};
use std::alloc::{AllocError, Global};

/// The fields of a certificate to write, with the names of PROTOCOL.certkeys.
#[derive(Clone, Copy, Debug, PartialEq, Eq)]
pub struct CertParts<'a> {
    /// Any bytes that the signer chose.
    pub nonce: &'a [u8],
    /// The certified public key.
    pub key: KeyView<'a>,
    /// The serial number: 0 where the signer does not count certificates.
    pub serial: u64,
    /// 1 for a user's certificate, 2 for a host's. Every number is written.
    pub kind_number: u32,
    /// The signer's name for the certificate: any bytes.
    pub key_id: &'a [u8],
    /// The users or hosts that the certificate is for, in the order of the blob.
    pub principals: &'a [&'a [u8]],
    /// The first second in force, counted from 1970-01-01 in UTC.
    pub after: u64,
    /// The first second no longer in force, counted from 1970-01-01 in UTC.
    pub before: u64,
    /// The options that a verifier must know: names and their data, in the order of the blob.
    pub critical: &'a [(&'a [u8], &'a [u8])],
    /// The options that a verifier may ignore: names and their data, in the order of the blob.
    pub extensions: &'a [(&'a [u8], &'a [u8])],
    /// Reserved bytes, which have no meaning yet.
    pub reserved: &'a [u8],
    /// The key that signed the certificate: the certificate authority's.
    pub signer: KeyView<'a>,
    /// The signer's signature over all fields before it.
    pub signature: SignatureView<'a>,
}

/// A value with an encoding (its spelling) whose length is known before it is written, so that
/// nothing is written past the limit.
pub(crate) trait Spelled: Sized {
    ghost spelling: { Self → List ℕ };

    /// How many bytes the spelling has, or `usize::MAX` if it has more.
    fn spelled_len(&self) -> usize
        ensures { result ≡ capped (length (spelling self.now)) };

    /// Appends the spelling. After an `Err`, part of it may have been written.
    fn put(&self, out: &mut Vec<u8>) -> Result<(), AllocError>
        requires { length (spelling self.now) ≤ longest }
        ensures ok { OnOk result (out.new.items ≡ out.old.items ++ spelling self.now) }
        ensures err { OnErr result (Keeps out.old.items out.new.items) };
}

/// A string (RFC 4251 section 5): its length in four bytes, and its bytes.
impl<'a> Spelled for &'a [u8] {
    ghost spelling = { λ text. string text.now };

    fn spelled_len(&self) -> usize {
        self.len().saturating_add(4)
    }

    fn put(&self, out: &mut Vec<u8>) -> Result<(), AllocError> {
        put_string(out, self)
    }
}

/// Two values, one after the other.
impl<A: Spelled + Drop, B: Spelled> Spelled for (A, B) {
    ghost spelling = { λ x. A.spelling x.0 ++ B.spelling x.1 };

    fn spelled_len(&self) -> usize {
        self.0.spelled_len().saturating_add(self.1.spelled_len())
    }

    fn put(&self, out: &mut Vec<u8>) -> Result<(), AllocError> {
        self.0.put(out)?;
        self.1.put(out)
    }
}

/// How many bytes the spellings have together, or `usize::MAX` if they have more.
pub(crate) fn total_len<T: Spelled>(items: &[T]) -> usize
    ensures { result ≡ capped (length (flat_map T.spelling items.now)) }
{
    let mut total: usize = 0;
    for item in items {
        total = total.saturating_add(item.spelled_len());
    }
    total
}

/// Appends the spellings one after the other. After an `Err`, part of them may have been written.
pub(crate) fn put_all<T: Spelled>(items: &[T], out: &mut Vec<u8>) -> Result<(), AllocError>
    requires { length (flat_map T.spelling items.now) ≤ longest }
    ensures ok { OnOk result (out.new.items ≡ out.old.items ++ flat_map T.spelling items.now) }
    ensures err { OnErr result (Keeps out.old.items out.new.items) }
{
    for item in items {
        item.put(out)?;
    }
    Ok(())
}

/// Appends the spellings as one string. After an `Err`, part of it may have been written.
pub(crate) fn put_packed<T: Spelled>(items: &[T], out: &mut Vec<u8>) -> Result<(), AllocError>
    requires { length (string (flat_map T.spelling items.now)) ≤ longest }
    ensures ok { OnOk result
        (out.new.items ≡ out.old.items ++ string (flat_map T.spelling items.now)) }
    ensures err { OnErr result (Keeps out.old.items out.new.items) }
{
    put_len(total_len(items), out)?;
    put_all(items, out)
}

/// Appends the length of a string that follows. An `Err` changes nothing.
pub(crate) fn put_len(len: usize, out: &mut Vec<u8>) -> Result<(), AllocError>
    requires { len < 2 ^ 32 }
    ensures ok { OnOk result (out.new.items ≡ out.old.items ++ uint32 len) }
    ensures err { OnErr result (out.new.items ≡ out.old.items) }
{
    (len as u32).encode(out)
}

/// All fields of the certificate in the order of the blob (PROTOCOL.certkeys).
fn row<'a>(parts: &CertParts<'a>) -> [Field<'a>; 14]
    requires { IsSignature (certificate_of_parts parts.now).signature }
    ensures spelled { flat_map spelled_field result
        ≡ certificate_blob (certificate_of_parts parts.now) }
    ensures is_certificate { length (certificate_blob (certificate_of_parts parts.now)) ≤ longest
        → IsCertificate (certificate_of_parts parts.now) }
{
    let (serial, kind_number) = (parts.serial, parts.kind_number);
    let (after, before) = (parts.after, parts.before);
    let signature = SpelledSignature {
        view: parts.signature,
    };
    [
        Field::Text(parts.key.kind().certificate_name()),
        Field::Text(parts.nonce),
        Field::KeyFields(parts.key),
        Field::Uint64(serial),
        Field::Uint32(kind_number),
        Field::Text(parts.key_id),
        Field::Names(parts.principals),
        Field::Uint64(after),
        Field::Uint64(before),
        Field::Options(parts.critical),
        Field::Options(parts.extensions),
        Field::Text(parts.reserved),
        Field::Key(parts.signer),
        Field::Signature(signature),
    ]
}

/// Appends the blob of a certificate (PROTOCOL.certkeys). An `Err` changes nothing.
///
/// The error is `TooLong` exactly where the blob would have more than 262,144 bytes; then nothing
/// is allocated. Else it is `Memory`. No signature is made here: it is written as given, and must
/// have flags and a counter exactly for a security key's algorithm, as every signature has that was
/// read or that `SignatureView::from_fields` gives.
pub fn write_cert(parts: &CertParts<'_>, out: &mut Vec<u8>) -> Result<(), WriteError>
    requires { IsSignature (certificate_of_parts parts.now).signature }
    ensures ok { OnOk result
        (out.new.items ≡ out.old.items ++ certificate_blob (certificate_of_parts parts.now)) }
    // The blob that is written can be read back as this certificate.
    ensures is_certificate { OnOk result (IsCertificate (certificate_of_parts parts.now)) }
    ensures too_long { (result ≡ Err WriteError.TooLong)
        ↔ (longest < length (certificate_blob (certificate_of_parts parts.now))) }
    ensures err { OnErr result (out.new.items ≡ out.old.items) }
{
    let row = row(parts);
    if total_len(&row) > MAX_BLOB_LEN {
        return Err(WriteError::TooLong);
    }
    let start = out.len();
    match put_all(&row, out) {
        Ok(()) => Ok(()),
        Err(e) => {
            out.truncate(start);
            Err(WriteError::Memory(e))
        }
    }
}

/// The blob of the certified key alone, as `write_key` writes it: at most 262,144 bytes. Fails only
/// when memory cannot be allocated.
pub fn plain_blob(alloc: Global, view: &CertView<'_>) -> Result<Vec<u8>, AllocError>
    ensures { IfOk result (λ blob. blob.items ≡ key_blob (certificate_of view.now).key) }
{
    let mut blob = Vec::new(alloc);
    write_key(&view.key(), &mut blob)?;
    Ok(blob)
}
