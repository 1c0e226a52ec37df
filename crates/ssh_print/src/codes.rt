//! The printed codes of faults, reasons and causes: the outermost code first, then inner codes,
//! then a place in bytes.

ghost use Rattle.std.specs.Prelude.{◌≡◌, ◌++◌, IfOk, OnOk};
ghost use Rattle.std.specs.Fmt.{decimal};
ghost use Rattle.ssh_print.specs.Codes.{audit_code, body_code, body_codes, cause_code, cause_codes, cert_code, cert_codes, fault_codes, key_code, key_codes, line_code, line_codes, offer_codes, wire_code, wire_codes, reason_code, reason_codes};
ghost use Rattle.ssh_print.specs.Texts.{spaced};

use crate::text::{push_escaped, push_number};
use ssh_bodies::BodyError;
use ssh_certs::CertError;
use ssh_keys::KeyError;
use ssh_offers::{AuditError, OfferError};
use ssh_options::LineCause;
use ssh_rules::Reason;
use ssh_trust::Cause;
use ssh_wire::{WireCause, WireError};
use std::alloc::{AllocError, Global};

fn wire_code(cause: WireCause) -> &'static [u8]
    ensures { result.now ≡ wire_code cause }
{
    match cause {
        WireCause::Short => b" V1",
        WireCause::MpintNotMinimal => b" V2",
        WireCause::MpintNegative => b" V3",
        WireCause::Trailing => b" V4",
        WireCause::Value => b" V5",
    }
}

/// The code of a wire fault, `V1` to `V5`, and its place in bytes, each after a space.
fn push_wire_codes(out: &mut Vec<u8>, error: WireError) -> Result<(), AllocError>
    ensures { OnOk result (out.new.items ≡ out.old.items ++ wire_codes error) }
{
    out.extend_from_slice(wire_code(error.cause))?;
    out.push(b' ')?;
    push_number(out, error.place as u64)?;
    Ok(())
}

fn key_code(error: KeyError) -> &'static [u8]
    ensures { result.now ≡ key_code error }
{
    match error {
        KeyError::Wire(_) => b" K1",
        KeyError::UnknownType => b" K2",
        KeyError::RetiredType => b" K3",
        KeyError::IsCertificate => b" K4",
        KeyError::Curve => b" K5",
        KeyError::Point => b" K6",
        KeyError::Length => b" K7",
        KeyError::TooLong => b" K8",
    }
}

/// The codes of a key fault, `K1` to `K8`, followed by those of the wire fault for `K1`.
fn push_key_codes(out: &mut Vec<u8>, error: KeyError) -> Result<(), AllocError>
    ensures { OnOk result (out.new.items ≡ out.old.items ++ key_codes error) }
{
    out.extend_from_slice(key_code(error))?;
    match error {
        KeyError::Wire(e) => push_wire_codes(out, e),
        _ => Ok(()),
    }
}

/// The code of a fault on a line, `L1` to `L16`.
pub fn line_code(cause: LineCause) -> &'static str
    ensures { result.now ≡ line_code cause }
{
    match cause {
        LineCause::TooLong => "L1",
        LineCause::OptionSyntax => "L2",
        LineCause::UnknownOption => "L3",
        LineCause::OptionValue => "L4",
        LineCause::RepeatedOption => "L5",
        LineCause::ExpiryText => "L6",
        LineCause::NoKey => "L7",
        LineCause::KeyType => "L8",
        LineCause::RetiredType => "L9",
        LineCause::Base64 => "L10",
        LineCause::KeyBlob(_) => "L11",
        LineCause::TypeMismatch => "L12",
        LineCause::CertificateOnLine => "L13",
        LineCause::Marker => "L14",
        LineCause::HashedName => "L15",
        LineCause::Names => "L16",
    }
}

/// The codes of a fault on a line, followed by those of the key fault for `L11`.
fn push_line_codes(out: &mut Vec<u8>, cause: LineCause) -> Result<(), AllocError>
    ensures { OnOk result (out.new.items ≡ out.old.items ++ line_codes cause) }
{
    out.push(b' ')?;
    out.extend_from_slice(line_code(cause).as_bytes())?;
    match cause {
        LineCause::KeyBlob(e) => push_key_codes(out, e),
        _ => Ok(()),
    }
}

fn push_place(out: &mut Vec<u8>, place: usize) -> Result<(), AllocError>
    ensures { OnOk result (out.new.items ≡ out.old.items ++ spaced (decimal place)) }
{
    out.push(b' ')?;
    push_number(out, place as u64)?;
    Ok(())
}

fn cert_code(error: CertError) -> &'static [u8]
    ensures { result.now ≡ cert_code error }
{
    match error {
        CertError::Wire(_) => b" C1",
        CertError::Key(_) => b" C2",
        CertError::Signer(_) => b" C3",
        CertError::ChainedSigner => b" C4",
        CertError::Principals(_) => b" C5",
        CertError::Options(_) => b" C6",
        CertError::Signature(_) => b" C7",
        CertError::UnknownType => b" C8",
        CertError::TooLong => b" C9",
    }
}

/// The codes of a certificate's fault, `C1` to `C9`, in some cases followed by those of an inner
/// fault or by a place.
fn push_cert_codes(out: &mut Vec<u8>, error: CertError) -> Result<(), AllocError>
    ensures { OnOk result (out.new.items ≡ out.old.items ++ cert_codes error) }
{
    out.extend_from_slice(cert_code(error))?;
    match error {
        CertError::Wire(e) | CertError::Signature(e) => push_wire_codes(out, e),
        CertError::Key(e) | CertError::Signer(e) => push_key_codes(out, e),
        CertError::Principals(place) | CertError::Options(place) => push_place(out, place),
        _ => Ok(()),
    }
}

fn body_code(error: BodyError) -> &'static [u8]
    ensures { result.now ≡ body_code error }
{
    match error {
        BodyError::Magic => b" B1",
        BodyError::Encrypted => b" B2",
        BodyError::KeyCount => b" B3",
        BodyError::CheckMismatch => b" B4",
        BodyError::Padding => b" B5",
        BodyError::NotMultipleOfEight => b" B6",
        BodyError::PublicMismatch => b" B7",
        BodyError::Version => b" B8",
        BodyError::EmptyNamespace => b" B9",
        BodyError::Hash => b" B10",
        BodyError::Key(_) => b" B11",
        BodyError::Wire(_) => b" B12",
        BodyError::Trailing => b" B13",
        BodyError::TooLong => b" B14",
    }
}

/// The codes of a body's fault, `B1` to `B14`, followed by those of the inner fault for `B11` and
/// `B12`.
fn push_body_codes(out: &mut Vec<u8>, error: BodyError) -> Result<(), AllocError>
    ensures { OnOk result (out.new.items ≡ out.old.items ++ body_codes error) }
{
    out.extend_from_slice(body_code(error))?;
    match error {
        BodyError::Key(e) => push_key_codes(out, e),
        BodyError::Wire(e) => push_wire_codes(out, e),
        _ => Ok(()),
    }
}

/// The codes of a fault on a line, `L1` to `L16` and inner ones, each after a space.
pub fn line_codes(alloc: Global, cause: LineCause) -> Result<Vec<u8>, AllocError>
    ensures { IfOk result (λ v. v.items ≡ line_codes cause) }
{
    let mut codes = Vec::new(alloc);
    push_line_codes(&mut codes, cause)?;
    Ok(codes)
}

/// The codes of a certificate's fault, `C1` to `C9` and inner ones, each after a space.
pub fn cert_codes(alloc: Global, error: CertError) -> Result<Vec<u8>, AllocError>
    ensures { IfOk result (λ v. v.items ≡ cert_codes error) }
{
    let mut codes = Vec::new(alloc);
    push_cert_codes(&mut codes, error)?;
    Ok(codes)
}

/// The codes of a body's fault, `B1` to `B14` and inner ones, each after a space.
pub fn body_codes(alloc: Global, error: BodyError) -> Result<Vec<u8>, AllocError>
    ensures { IfOk result (λ v. v.items ≡ body_codes error) }
{
    let mut codes = Vec::new(alloc);
    push_body_codes(&mut codes, error)?;
    Ok(codes)
}

/// The codes of the fault for which an offered blob is refused.
fn push_offer_codes(out: &mut Vec<u8>, error: OfferError) -> Result<(), AllocError>
    ensures { OnOk result (out.new.items ≡ out.old.items ++ offer_codes error) }
{
    match error {
        OfferError::Key(e) => push_key_codes(out, e),
        OfferError::Certificate(e) => push_cert_codes(out, e),
    }
}

fn audit_code(error: AuditError) -> &'static [u8]
    ensures { result.now ≡ audit_code error }
{
    match error {
        AuditError::Offer(_) => b" A1",
        AuditError::Signature(_) => b" A2",
        AuditError::WrongAlgorithm => b" A3",
        AuditError::WeakSignature => b" A4",
        AuditError::CertSignature => b" A5",
        AuditError::Address => b" A6",
        AuditError::FileTooLong => b" A7",
        AuditError::Memory => b" A8",
        AuditError::Read => b" A9",
        AuditError::Failed => b" A10",
        AuditError::Body(_) => b" A11",
        AuditError::Salts => b" A12",
    }
}

/// The codes of an audit's fault, `A1` to `A12` and inner ones, each after a space.
pub(crate) fn push_fault_codes(out: &mut Vec<u8>, error: AuditError) -> Result<(), AllocError>
    ensures { OnOk result (out.new.items ≡ out.old.items ++ fault_codes error) }
{
    out.extend_from_slice(audit_code(error))?;
    match error {
        AuditError::Offer(e) => push_offer_codes(out, e),
        AuditError::Signature(e) => push_wire_codes(out, e),
        AuditError::Body(e) => push_body_codes(out, e),
        _ => Ok(()),
    }
}

/// The codes of an audit's fault, `A1` to `A12` and inner ones, each after a space.
pub fn fault_codes(alloc: Global, error: AuditError) -> Result<Vec<u8>, AllocError>
    ensures { IfOk result (λ v. v.items ≡ fault_codes error) }
{
    let mut codes = Vec::new(alloc);
    push_fault_codes(&mut codes, error)?;
    Ok(codes)
}

/// The code of a reason why a line does not admit an offer, `G1` to `G20`.
pub fn reason_code(reason: &Reason) -> &'static str
    ensures { result.now ≡ reason_code reason.now }
{
    match reason {
        Reason::Unreadable(_) => "G1",
        Reason::AuthorityOnly => "G3",
        Reason::NotAuthority => "G4",
        Reason::Expired => "G6",
        Reason::SourceBad => "G7",
        Reason::SourceRefused => "G8",
        Reason::WrongCertKind => "G9",
        Reason::NotYetValid => "G10",
        Reason::NoLongerValid => "G11",
        Reason::PrincipalRefused => "G12",
        Reason::EmptyPrincipals => "G19",
        Reason::CriticalUnknown(_) => "G13",
        Reason::CriticalRepeated => "G14",
        Reason::CriticalData => "G15",
        Reason::CertSourceBad => "G16",
        Reason::CertSourceRefused => "G17",
        Reason::CommandConflict => "G18",
        Reason::RsaTooSmall => "G20",
    }
}

/// The code of a reason, after a space, without its detail.
pub(crate) fn push_reason_code(out: &mut Vec<u8>, reason: &Reason) -> Result<(), AllocError>
    ensures { OnOk result (out.new.items ≡ out.old.items ++ spaced (reason_code reason.now)) }
{
    out.push(b' ')?;
    out.extend_from_slice(reason_code(reason).as_bytes())?;
    Ok(())
}

/// The codes of a reason, followed by those of the line's fault for `G1` and by the option's name
/// for `G13`.
pub(crate) fn push_reason_codes(out: &mut Vec<u8>, reason: &Reason) -> Result<(), AllocError>
    ensures { OnOk result (out.new.items ≡ out.old.items ++ reason_codes reason.now) }
{
    push_reason_code(out, reason)?;
    match reason {
        Reason::Unreadable(cause) => push_line_codes(out, *cause),
        Reason::CriticalUnknown(name) => {
            out.push(b' ')?;
            push_escaped(out, name.as_slice())
        }
        _ => Ok(()),
    }
}

/// The codes of a reason with their detail, each after a space.
pub fn reason_codes(alloc: Global, reason: &Reason) -> Result<Vec<u8>, AllocError>
    ensures { IfOk result (λ v. v.items ≡ reason_codes reason.now) }
{
    let mut codes = Vec::new(alloc);
    push_reason_codes(&mut codes, reason)?;
    Ok(codes)
}

/// The code of why an offer is denied, `N1` to `N6`.
pub fn cause_code(cause: Cause) -> &'static str
    ensures { result.now ≡ cause_code cause }
{
    match cause {
        Cause::Revoked(_) => "N1",
        Cause::RevocationUnreadable(_) => "N2",
        Cause::NoLine => "N3",
        Cause::TouchMissing => "N4",
        Cause::VerifyMissing => "N5",
        Cause::NotVouched(_) => "N6",
    }
}

/// The codes of why an offer is denied. They are followed by the line number for `N1` and `N2`, and
/// by the index of the evidence that is not vouched for, for `N6`.
pub(crate) fn push_cause_codes(out: &mut Vec<u8>, cause: Cause) -> Result<(), AllocError>
    ensures { OnOk result (out.new.items ≡ out.old.items ++ cause_codes cause) }
{
    out.push(b' ')?;
    out.extend_from_slice(cause_code(cause).as_bytes())?;
    match cause {
        Cause::Revoked(number) | Cause::RevocationUnreadable(number) | Cause::NotVouched(number) =>
            {
                out.push(b' ')?;
                push_number(out, number)
            }
        _ => Ok(()),
    }
}

/// The codes of why an offer is denied, with their detail, each after a space.
pub fn cause_codes(alloc: Global, cause: Cause) -> Result<Vec<u8>, AllocError>
    ensures { IfOk result (λ v. v.items ≡ cause_codes cause) }
{
    let mut codes = Vec::new(alloc);
    push_cause_codes(&mut codes, cause)?;
    Ok(codes)
}
