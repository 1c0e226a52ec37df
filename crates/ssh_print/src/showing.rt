//! The subcommand `show`: what it reads of a file of each kind, and its response.

ghost use Rattle.std.specs.Prelude.{◌≡◌, IfOk, ◌++◌, OnOk, codes, ◌≢◌, None, []};
ghost use Rattle.ssh_print.specs.Showing.{show_kind, IsFaultOfShow, blob_of_field, blob_spelled, field_fault, first_of_lines, cert_on, key_on, Shows};
ghost use Rattle.ssh_print.specs.Codes.{body_codes, cert_codes, line_codes};
ghost use Rattle.ssh_print.specs.ResponseView.{response};
ghost use Rattle.ssh_print.specs.Responses.{fault_response};
ghost use Rattle.ssh_print.specs.declared.showing.ShowError.TheVariants.{Memory};
ghost use Rattle.ssh_keys.specs.KeyOf.{key_of};
ghost use Rattle.ssh_print.specs.Texts.{word_line};
ghost use Rattle.ssh_print.specs.ShownTexts.{key_fingerprint_text};
ghost use Rattle.ssh_text.specs.Text.{lines_of};
ghost use Rattle.ssh_print.specs.ShownLines.{Finds, PrintsFile};
ghost use Rattle.ssh_entries.specs.KeyText.{base64_field};
ghost use Rattle.ssh_print.specs.Offering.{TakesNoMemory, blob_where, missing_or, shown_offer_in, offer_seen};

use crate::cert::{cert_type_fault, read_typed_cert, show_cert};
use crate::codes::{body_codes, cert_codes, line_codes};
use crate::response::{DONE, Response, fault_response};
use crate::show_key::{key_type_fault, read_typed_key, show_key, show_private, show_sshsig};
use ssh_bodies::BodyError;
use ssh_certs::CertError;
use ssh_entries::key_text;
use ssh_files::decode;
use ssh_keys::{KeyKind, KeyView, NameClass, fingerprint, name_class};
use ssh_options::LineCause;
use ssh_text::Lines;
use std::alloc::{AllocError, Global};

/// The kind of file that `show` is given.
#[derive(Clone, Copy, Debug, PartialEq, Eq)]
pub enum ShowKind {
    /// A public key, on the file's first line.
    Key,
    /// A certificate, on the file's first line.
    Cert,
    /// The body of a private key (PROTOCOL.key), the whole file. Only its public half is shown.
    Private,
    /// The body of a file signature (PROTOCOL.sshsig), the whole file.
    Sshsig,
}

/// The kind with this name on the command line, if there is one.
pub fn show_kind(word: &str) -> Option<ShowKind>
    ensures { result ≡ show_kind word.now }
{
    if word == "key" {
        Some(ShowKind::Key)
    } else if word == "cert" {
        Some(ShowKind::Cert)
    } else if word == "private" {
        Some(ShowKind::Private)
    } else if word == "sshsig" {
        Some(ShowKind::Sshsig)
    } else {
        None
    }
}

/// Why a file cannot be shown.
#[derive(Clone, Copy, Debug, PartialEq, Eq)]
pub enum ShowError {
    /// Its first line does not hold a key of the requested kind.
    Line(LineCause),
    /// The base64 of its first line is not a certificate.
    Cert(CertError),
    /// It is not a body of the requested kind.
    Body(BodyError),
    Memory,
}

impl From<AllocError> for ShowError {
    ghost from_gives = { λ x e. e ≡ Memory };

    fn from(_e: AllocError) -> ShowError {
        ShowError::Memory
    }
}

/// The response to a line with this fault.
fn line_fault(alloc: Global, cause: LineCause) -> Result<Response, AllocError>
    ensures { IfOk result (λ r. response r ≡ fault_response (line_codes cause)) }
{
    let codes = line_codes(alloc, cause)?;
    fault_response(alloc, &codes)
}

/// The response to a certificate with this fault.
fn cert_fault(alloc: Global, error: CertError) -> Result<Response, AllocError>
    ensures { IfOk result (λ r. response r ≡ fault_response (cert_codes error)) }
{
    let codes = cert_codes(alloc, error)?;
    fault_response(alloc, &codes)
}

/// The response to a body with this fault.
fn body_fault(alloc: Global, error: BodyError) -> Result<Response, AllocError>
    ensures { IfOk result (λ r. response r ≡ fault_response (body_codes error)) }
{
    let codes = body_codes(alloc, error)?;
    fault_response(alloc, &codes)
}

/// The response to a file that cannot be shown. Fails for `ShowError::Memory`.
pub fn show_fault(alloc: Global, error: ShowError) -> Result<Response, AllocError>
    ensures { IfOk result (λ r. IsFaultOfShow error (response r)) }
{
    match error {
        ShowError::Line(cause) => line_fault(alloc, cause),
        ShowError::Cert(error) => cert_fault(alloc, error),
        ShowError::Body(error) => body_fault(alloc, error),
        ShowError::Memory => Err(AllocError),
    }
}

/// Appends the fingerprint of a key, as `ssh-keygen -l` prints it.
pub fn push_fingerprint(
    alloc: Global,
    out: &mut Vec<u8>,
    key: &KeyView<'_>,
) -> Result<(), AllocError>
    ensures { OnOk result (out.new.items ≡ out.old.items ++ key_fingerprint_text (key_of key.now)) }
{
    out.extend_from_slice(b"SHA256:")?;
    let digest = fingerprint(alloc, key)?;
    out.extend_from_slice(&digest)?;
    Ok(())
}

/// Appends the line of a fingerprint.
#[tactic(auto, unfolding(crate::specs::Texts::word_line))]
pub fn push_fingerprint_line(
    alloc: Global,
    out: &mut Vec<u8>,
    key: &KeyView<'_>,
) -> Result<(), AllocError>
    ensures { OnOk result (out.new.items ≡ out.old.items ++ word_line (codes "fingerprint ")
        (key_fingerprint_text (key_of key.now))) }
{
    out.extend_from_slice(b"fingerprint ")?;
    push_fingerprint(alloc, out, key)?;
    out.push(b'\n')?;
    Ok(())
}

/// The first line of a file, of any length, without its LF; no bytes for an empty file.
pub fn first_line(file: &[u8]) -> &[u8]
    ensures { result.now ≡ first_of_lines (lines_of file.now) }
{
    match Lines::new(file).next() {
        Some((_, line)) => line,
        None => &[],
    }
}

/// The first fault of the fields of a line, given that of the type. A missing base64 field is
/// reported before it.
fn field_fault(base64: &[u8], type_fault: Option<LineCause>) -> Option<LineCause>
    ensures { result ≡ field_fault base64.now type_fault }
{
    if base64.is_empty() {
        Some(LineCause::NoKey)
    } else {
        type_fault
    }
}

/// Decodes a base64 field, unless the type before it has the fault `type_fault`.
pub fn read_blob(
    alloc: Global,
    base64: &[u8],
    type_fault: Option<LineCause>,
) -> Result<Vec<u8>, ShowError>
    ensures value { Finds (λ blob. blob.items)
        (blob_of_field (field_fault base64.now type_fault) base64.now) result }
    ensures spare { field_fault base64.now type_fault ≢ None → result ≢ Err Memory }
{
    if let Some(cause) = field_fault(base64, type_fault) {
        return Err(ShowError::Line(cause));
    }
    match decode(alloc, base64)? {
        Some(blob) => Ok(blob),
        None => Err(ShowError::Line(LineCause::Base64)),
    }
}

/// A key, or a certificate of one, by its blob.
#[derive(Debug, Drop)]
pub struct OfferedKey {
    /// The kind of the key, or of the certified key.
    pub kind: KeyKind,
    pub is_certificate: bool,
    pub blob: Vec<u8>,
}

/// The blob of the plain key on a line.
#[tactic(auto, unfolding(crate::specs::Showing::key_on))]
fn key_blob_on(alloc: Global, line: &[u8]) -> Result<Vec<u8>, ShowError>
    ensures value { Finds (λ blob. blob.items) (blob_where (key_on line.now) (base64_field line.now))
        result }
    ensures spare { base64_field line.now ≡ [] → result ≢ Err Memory }
{
    let text = key_text(line);
    let type_fault = key_type_fault(name_class(text.type_name));
    let blob = read_blob(alloc, text.base64, type_fault)?;
    read_typed_key(text.type_name, &blob)?;
    Ok(blob)
}

/// The blob of the certificate on a line.
#[tactic(auto, unfolding(crate::specs::Showing::cert_on))]
fn cert_blob_on(alloc: Global, line: &[u8]) -> Result<Vec<u8>, ShowError>
    ensures value { Finds (λ blob. blob.items) (blob_where (cert_on line.now) (base64_field line.now))
        result }
    ensures spare { base64_field line.now ≡ [] → result ≢ Err Memory }
{
    let text = key_text(line);
    let type_fault = cert_type_fault(name_class(text.type_name));
    let blob = read_blob(alloc, text.base64, type_fault)?;
    read_typed_cert(text.type_name, &blob)?;
    Ok(blob)
}

/// The fault of a type that names neither a key nor a certificate. A missing base64 field is
/// reported before it.
fn missing_or(base64: &[u8], cause: LineCause) -> ShowError
    ensures value { result ≡ missing_or base64.now cause }
    ensures spare { result ≢ Memory }
{
    if base64.is_empty() {
        ShowError::Line(LineCause::NoKey)
    } else {
        ShowError::Line(cause)
    }
}

/// Reads the key, or the certificate, on the first line of a file as `ssh-keygen` writes `.pub` and
/// `-cert.pub` files: its type, base64 and comment. The faults are those of `show`.
#[tactic(auto, unfolding(crate::specs::Offering::shown_offer_in))]
pub fn read_offer(alloc: Global, file: &[u8]) -> Result<OfferedKey, ShowError>
    ensures value { Finds offer_seen (shown_offer_in file.now) result }
    // Only the blob allocates: a fault before it is reported even when allocation fails.
    ensures spare { TakesNoMemory file.now → result ≢ Err Memory }
{
    let line = first_line(file);
    let text = key_text(line);
    match name_class(text.type_name) {
        NameClass::Plain(kind) => Ok(OfferedKey {
            kind,
            is_certificate: false,
            blob: key_blob_on(alloc, line)?,
        }),
        NameClass::Certificate(kind) => Ok(OfferedKey {
            kind,
            is_certificate: true,
            blob: cert_blob_on(alloc, line)?,
        }),
        NameClass::Retired => Err(missing_or(text.base64, LineCause::RetiredType)),
        NameClass::Other => Err(missing_or(text.base64, LineCause::KeyType)),
    }
}

/// The printed lines for a file, or why it cannot be shown.
fn shown(alloc: Global, kind: ShowKind, file: &[u8]) -> Result<Vec<u8>, ShowError>
    ensures { PrintsFile (λ text. text.items) kind file.now result }
{
    match kind {
        ShowKind::Key => show_key(alloc, first_line(file)),
        ShowKind::Cert => show_cert(alloc, first_line(file)),
        ShowKind::Private => show_private(alloc, file),
        ShowKind::Sshsig => show_sshsig(alloc, file),
    }
}

/// The response to `show` of a file with these bytes: the lines for what its first line, or the
/// whole file as a body, holds; or its fault.
pub fn show(alloc: Global, kind: ShowKind, file: &[u8]) -> Result<Response, AllocError>
    ensures { IfOk result (λ r. Shows kind file.now (response r)) }
{
    match shown(alloc, kind, file) {
        Ok(text) => Ok(Response::new(DONE, text)),
        Err(error) => show_fault(alloc, error),
    }
}
