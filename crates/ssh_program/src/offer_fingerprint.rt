//! The fingerprint of the key in an offer, as `ssh-keygen -l` prints it.

ghost use Rattle.std.specs.Prelude.{◌≡◌, IfOk};
ghost use Rattle.ssh_print.specs.Offering.{offer_seen};
ghost use Rattle.ssh_program.specs.OfferPrints.{blob_as_read, certified_or, offer_print, plain_blob_of};
ghost use Rattle.ssh_certs.specs.CertificateReading.{certificate_in};

use sha2::{Digest, Sha256};
use ssh_certs::{plain_blob, read_cert};
use ssh_findings::canonical_blob;
use ssh_keys::digest_text;
use ssh_print::OfferedKey;
use std::alloc::{AllocError, Global};

/// A copy of a blob.
fn copied(alloc: Global, blob: &[u8]) -> Result<Vec<u8>, AllocError>
    ensures { IfOk result (λ copy. copy.items ≡ blob.now) }
{
    let copy = blob.to_vec(alloc)?;
    Ok(copy)
}

/// The blob of the certified key.
fn certified_blob(alloc: Global, blob: &[u8]) -> Result<Vec<u8>, AllocError>
    ensures { IfOk result (λ plain. plain.items ≡ certified_or (certificate_in blob.now) blob.now) }
{
    match read_cert(blob) {
        Ok(cert) => {
            let plain = plain_blob(alloc, &cert)?;
            Ok(plain)
        }
        // An offer was read as a certificate before.
        Err(_) => copied(alloc, blob),
    }
}

/// The blob of the plain key: the offered one, or the one in the certificate.
fn plain_blob_of(alloc: Global, offer: &OfferedKey) -> Result<Vec<u8>, AllocError>
    ensures { IfOk result (λ plain. plain.items ≡ plain_blob_of (offer_seen offer.now)) }
{
    if offer.is_certificate {
        certified_blob(alloc, &offer.blob)
    } else {
        copied(alloc, &offer.blob)
    }
}

/// The canonical blob of the key that OpenSSH reads in a blob: of a security key it drops a NUL at
/// the end of the application. Where it reads none, the blob itself.
fn blob_as_read(alloc: Global, blob: Vec<u8>) -> Result<Vec<u8>, AllocError>
    ensures { IfOk result (λ read. read.items ≡ blob_as_read blob.items) }
{
    match canonical_blob(alloc, &blob)? {
        Some(read) => Ok(read),
        None => Ok(blob),
    }
}

/// The base64 that `ssh-keygen -l` prints after `SHA256:` of the file with this key or certificate;
/// of a certificate it is that of the certified key.
pub fn offer_print(alloc: Global, offer: &OfferedKey) -> Result<[u8; 43], AllocError>
    ensures { IfOk result (λ text. text ≡ offer_print (offer_seen offer.now)) }
{
    let plain = plain_blob_of(alloc, offer)?;
    let read = blob_as_read(alloc, plain)?;
    let text = digest_text(alloc, &Sha256::digest(&read))?;
    Ok(text)
}
