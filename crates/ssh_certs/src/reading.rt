//! Reads a certificate from its blob, or gives the first error (PROTOCOL.certkeys).

ghost use Rattle.std.specs.Prelude.{◌≡◌, IfOk, IfErr, IsOk, IsOkAnd};
ghost use Rattle.ssh_certs.specs.declared.reading.CertError.TheVariants.{Wire};
ghost use Rattle.ssh_certs.specs.declared.reading.WriteError.TheVariants.{Memory};
ghost use Rattle.ssh_wire.specs.Position.{start};
ghost use Rattle.ssh_wire.specs.Reading.{Gives, Reads, string_at};
ghost use Rattle.ssh_keys.specs.KeyOf.{key_of};
ghost use Rattle.ssh_keys.specs.KeyReading.{fields_at};
ghost use Rattle.ssh_keys.specs.Names.{class_of};
ghost use Rattle.ssh_keys.specs.PublicKey.{key_blob};
ghost use Rattle.ssh_keys.specs.Signature.{signature_of, signature_blob};
ghost use Rattle.ssh_keys.specs.View.{public_key};
ghost use Rattle.ssh_certs.specs.Certificate.{Certificate, IsCertificateBlob};
ghost use Rattle.ssh_certs.specs.CertificateReading.{as_fault, certified_kind_from, names_at, options_at, signer_at, cert_signature_at, items_in, cert_option_at, certificate_at, certificate_in};
ghost use Rattle.ssh_certs.specs.CertificateFault.{IsCertificateFault};
ghost use Rattle.ssh_certs.specs.CertificateParts.{certified_at, certified_from, terms_at, terms_from, certificate_by_parts};
ghost use Rattle.ssh_certs.specs.CertificateOf.{certificate_of};
ghost use Rattle.ssh_certs.specs.Packed.{names_in_packed, options_in_packed};
ghost use Rattle.ssh_certs.specs.View.{certificate_from};

use crate::fields::{CertFields, Certified, Terms};
use crate::packed::{check_options, check_principals};
use crate::view::CertView;
use ssh_keys::{
    KeyError, KeyKind, KeyView, MAX_BLOB_LEN, NameClass, SignatureView, name_class, read_key,
    read_signature, take_fields,
};
use ssh_wire::{Cursor, WireError};
use std::alloc::AllocError;
use thiserror::Error;

/// The first error of a certificate's blob. A place counts bytes from the blob's first byte, but
/// inside the signature key and the signature from the first byte of that inner blob.
#[derive(Clone, Copy, Debug, PartialEq, Eq, Error)]
pub enum CertError {
    /// C1: a field passes the end (V1), or there are bytes after the signature (V4).
    #[error("{0}")]
    Wire(WireError),
    /// C2: an error of the certified public key's fields: K1, or K5 to K7.
    #[error("public key: {0}")]
    Key(KeyError),
    /// C3: an error of the signature key: K1 to K3, or K5 to K7.
    #[error("signature key: {0}")]
    Signer(KeyError),
    /// C4: the signature key is itself a certificate. Chained certificates are not supported
    /// (PROTOCOL.certkeys).
    #[error("the signature key is a certificate")]
    ChainedSigner,
    /// C5: a principal, which begins at this place, passes the end of the principals.
    #[error("a principal at byte {0} passes the end of the principals")]
    Principals(usize),
    /// C6: the name or the data of an option, which begins at this place, passes the end of the
    /// options.
    #[error("an option at byte {0} passes the end of the options")]
    Options(usize),
    /// C7: an error of the signature: V1 or V4.
    #[error("signature: {0}")]
    Signature(WireError),
    /// C8: the type name is not a certificate's.
    #[error("the type is no certificate's")]
    UnknownType,
    /// C9: the blob has more than 262,144 bytes.
    #[error("the blob is too long")]
    TooLong,
}

impl From<WireError> for CertError {
    ghost from_gives = { λ e c. c ≡ Wire e };

    fn from(e: WireError) -> CertError {
        CertError::Wire(e)
    }
}

/// Why a certificate could not be written.
#[derive(Clone, Copy, Debug, PartialEq, Eq, Error)]
pub enum WriteError {
    /// The blob would have more than 262,144 bytes.
    #[error("the blob would be too long")]
    TooLong,
    /// Memory could not be allocated.
    #[error("out of memory")]
    Memory(AllocError),
}

impl From<AllocError> for WriteError {
    ghost from_gives = { λ e w. w ≡ Memory e };

    fn from(e: AllocError) -> WriteError {
        WriteError::Memory(e)
    }
}

/// The kind of key whose certificates have this type name.
fn kind_named(name: &[u8]) -> Result<KeyKind, CertError>
    ensures { result ≡ certified_kind_from (class_of name.now) }
{
    match name_class(name) {
        NameClass::Certificate(kind) => Ok(kind),
        NameClass::Plain(_) | NameClass::Retired | NameClass::Other => Err(CertError::UnknownType),
    }
}

/// Reads packed principals. The place of an error counts from the first byte of the whole blob.
#[tactic(auto, unfolding(crate::specs::CertificateReading::packed_at))]
fn take_principals<'a>(cursor: &mut Cursor<'a>) -> Result<&'a [u8], CertError>
    ensures exact { Reads (λ packed. names_in_packed packed.now) names_at cursor.old result cursor.new }
    ensures read { IfOk result (λ packed. IsOk (items_in string_at packed.now)) }
{
    let packed = cursor.take_string()?;
    let first = cursor.place() - packed.len();
    match check_principals(packed) {
        Ok(()) => Ok(packed),
        Err(e) => Err(CertError::Principals(first + e.place)),
    }
}

/// Reads packed options. The place of an error counts from the first byte of the whole blob.
#[tactic(auto, unfolding(crate::specs::CertificateReading::packed_at))]
fn take_options<'a>(cursor: &mut Cursor<'a>) -> Result<&'a [u8], CertError>
    ensures exact { Reads (λ packed. options_in_packed packed.now) options_at cursor.old result
        cursor.new }
    ensures read { IfOk result (λ packed. IsOk (items_in cert_option_at packed.now)) }
{
    let packed = cursor.take_string()?;
    let first = cursor.place() - packed.len();
    match check_options(packed) {
        Ok(()) => Ok(packed),
        Err(e) => Err(CertError::Options(first + e.place)),
    }
}

/// Reads the signature key, and gives its blob too. It may be a plain key of every kind, as in
/// OpenSSH; PROTOCOL.certkeys lists RSA, ECDSA and Ed25519.
#[tactic(auto, unfolding(crate::specs::CertificateReading::signer_at))]
fn take_signer<'a>(cursor: &mut Cursor<'a>) -> Result<(KeyView<'a>, &'a [u8]), CertError>
    ensures exact { Reads (λ signer. key_of signer.0) signer_at cursor.old result cursor.new }
    ensures spelled { IfOk result (λ signer. signer.1.now ≡ key_blob (key_of signer.0)) }
{
    let blob = cursor.take_string()?;
    match read_key(blob) {
        Ok(key) => Ok((key, blob)),
        Err(KeyError::IsCertificate) => Err(CertError::ChainedSigner),
        Err(e) => Err(CertError::Signer(e)),
    }
}

/// Reads the signature, and gives its blob too.
#[tactic(auto, unfolding(crate::specs::CertificateReading::cert_signature_at))]
fn take_signature<'a>(cursor: &mut Cursor<'a>) -> Result<(SignatureView<'a>, &'a [u8]), CertError>
    ensures exact { Reads (λ signature. signature_of signature.0) cert_signature_at cursor.old result
        cursor.new }
    ensures spelled { IfOk result
        (λ signature. signature.1.now ≡ signature_blob (signature_of signature.0)) }
{
    let blob = cursor.take_string()?;
    match read_signature(blob) {
        Ok(signature) => Ok((signature, blob)),
        Err(e) => Err(CertError::Signature(e)),
    }
}

/// Reads the fields up to the key id.
#[tactic(auto, unfolding(crate::specs::CertificateParts::certified_at))]
fn take_certified<'a>(cursor: &mut Cursor<'a>) -> Result<Certified<'a>, CertError>
    ensures { Reads certified_from certified_at cursor.old result cursor.new }
{
    let kind = kind_named(cursor.take_string()?)?;
    let nonce = cursor.take_string()?;
    let key = match take_fields(kind, cursor) {
        Ok(key) => key,
        Err(e) => return Err(CertError::Key(e)),
    };
    let serial = cursor.take_u64()?;
    let kind_number = cursor.take_u32()?;
    let key_id = cursor.take_string()?;
    Ok(Certified {
        nonce,
        key,
        serial,
        kind_number,
        key_id,
    })
}

/// Reads the fields from the principals to the reserved bytes.
#[tactic(auto, unfolding(crate::specs::CertificateParts::terms_at))]
fn take_terms<'a>(cursor: &mut Cursor<'a>) -> Result<Terms<'a>, CertError>
    ensures { Reads terms_from terms_at cursor.old result cursor.new }
{
    let principals = take_principals(cursor)?;
    let after = cursor.take_u64()?;
    let before = cursor.take_u64()?;
    let critical = take_options(cursor)?;
    let extensions = take_options(cursor)?;
    let reserved = cursor.take_string()?;
    Ok(Terms {
        principals,
        after,
        before,
        critical,
        extensions,
        reserved,
    })
}

/// The fields of a certificate whose blob is within the limit, read part by part.
#[tactic(auto, unfolding(crate::specs::CertificateParts::certificate_by_parts))]
fn parts_in(blob: &[u8]) -> Result<CertFields<'_>, CertError>
    ensures { Gives certificate_from result (certificate_by_parts (start blob.now)) }
{
    let mut cursor = Cursor::new(blob);
    let certified = take_certified(&mut cursor)?;
    let terms = take_terms(&mut cursor)?;
    let (signer, raw_signer) = take_signer(&mut cursor)?;
    let (signature, raw_signature) = take_signature(&mut cursor)?;
    cursor.end()?;
    Ok(CertFields {
        certified,
        terms,
        signer,
        raw_signer,
        signature,
        raw_signature,
    })
}

/// The same fields. The contract describes reading field by field.
fn fields_in(blob: &[u8]) -> Result<CertFields<'_>, CertError>
    ensures { Gives certificate_from result (certificate_at (start blob.now)) }
{
    parts_in(blob)
}

#[tactic(auto, unfolding(crate::specs::CertificateReading::certificate_in))]
fn certificate_fields(bytes: &[u8]) -> Result<CertFields<'_>, CertError>
    ensures { Gives certificate_from result (certificate_in bytes.now) }
{
    if bytes.len() > MAX_BLOB_LEN {
        return Err(CertError::TooLong);
    }
    fields_in(bytes)
}

/// Reads a certificate from all bytes of its blob (PROTOCOL.certkeys). The view borrows them and
/// copies nothing.
///
/// The first error is returned: C9 for more than 262,144 bytes, before all others; then that of the
/// first wrong field from the left: C8 for a type name that is not a certificate's, C2 for a public
/// field, C5 and C6 for a packed list, C3 and C4 for the signature key, C7 for the signature, and
/// C1 for every other field that passes the end and for bytes after the last. The values of
/// numbers, times and options are not checked here.
pub fn read_cert(bytes: &[u8]) -> Result<CertView<'_>, CertError>
    // A certificate that is returned is that of the blob.
    ensures found { IfOk result (λ view. IsCertificateBlob (certificate_of view) bytes.now) }
    // The blob of a certificate is read as that certificate.
    ensures only { (certificate : Certificate)
        → IsCertificateBlob certificate bytes.now
        → IsOkAnd result (λ view. certificate_of view ≡ certificate) }
    // The first error, stated by the fields alone.
    ensures first { IfErr result (IsCertificateFault bytes.now) }
    // The same, stated by reading from the left.
    ensures exact { Gives certificate_of result (certificate_in bytes.now) }
{
    match certificate_fields(bytes) {
        Ok(fields) => match KeyView::from_fields(fields.certified.key) {
            Ok(key) => Ok(CertView {
                blob: bytes,
                key,
                fields,
            }),
            Err(e) => Err(CertError::Key(e)),
        },
        Err(e) => Err(e),
    }
}
