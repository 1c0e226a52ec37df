//! The lines that `show --kind cert` prints for a certificate.

ghost use Rattle.std.specs.Prelude.{◌≡◌, ◌++◌, IfOk, OnOk, codes};
ghost use Rattle.std.specs.List.{flat_map};
ghost use Rattle.ssh_keys.specs.KeyOf.{key_of};
ghost use Rattle.ssh_certs.specs.CertificateOf.{certificate_of};
ghost use Rattle.ssh_certs.specs.CertificateReading.{certificate_in};
ghost use Rattle.ssh_certs.specs.Left.{options_left, principals_left};
ghost use Rattle.ssh_print.specs.Showing.{cert_of_type, cert_on, cert_type_fault};
ghost use Rattle.ssh_print.specs.ShownLines.{Finds, Prints};
ghost use Rattle.ssh_print.specs.ShownTexts.{IsCertText, cert_holder_lines, cert_key_lines, cert_lines, cert_option_lines, cert_time_lines, kind_word, moment_line, option_line, signer_line};
ghost use Rattle.ssh_print.specs.Texts.{text_line, word_line};

use crate::show_key::utc_date;
use crate::showing::{ShowError, push_fingerprint, push_fingerprint_line, read_blob};
use crate::text::{
    push_escaped, push_hex, push_number, push_number_line, push_text_line, push_word_line,
};
use ssh_certs::{CertOptions, CertView, Principals, read_cert};
use ssh_entries::key_text;
use ssh_keys::{KeyView, NameClass, name_class};
use ssh_options::LineCause;
use std::alloc::{AllocError, Global};

/// The fault to report if a type name is not a certificate's.
pub(crate) fn cert_type_fault(class: NameClass) -> Option<LineCause>
    ensures { result ≡ cert_type_fault class }
{
    match class {
        NameClass::Certificate(_) => None,
        NameClass::Plain(_) | NameClass::Retired | NameClass::Other => Some(LineCause::KeyType),
    }
}

/// Reads the certificate in a blob, and checks that its type is the one on the line.
pub(crate) fn read_typed_cert<'a>(
    type_name: &[u8],
    blob: &'a [u8],
) -> Result<CertView<'a>, ShowError>
    ensures { Finds certificate_of (cert_of_type type_name.now (certificate_in blob.now)) result }
{
    match read_cert(blob) {
        Err(e) => Err(ShowError::Cert(e)),
        Ok(cert) if cert.key().kind().certificate_name() != type_name => {
            Err(ShowError::Line(LineCause::TypeMismatch))
        }
        Ok(cert) => Ok(cert),
    }
}

/// The line of the signer: its type and its fingerprint.
#[tactic(auto, unfolding(crate::specs::Texts::word_line))]
fn push_signer(alloc: Global, out: &mut Vec<u8>, signer: &KeyView<'_>) -> Result<(), AllocError>
    ensures { OnOk result (out.new.items ≡ out.old.items ++ signer_line (key_of signer.now)) }
{
    out.extend_from_slice(b"signer ")?;
    out.extend_from_slice(signer.kind().name())?;
    out.push(b' ')?;
    push_fingerprint(alloc, out, signer)?;
    out.push(b'\n')?;
    Ok(())
}

/// The lines of the certified key and of the signer.
#[tactic(auto, unfolding(crate::specs::ShownTexts::cert_key_lines))]
fn push_keys(alloc: Global, out: &mut Vec<u8>, cert: &CertView<'_>) -> Result<(), AllocError>
    ensures { OnOk result
        (out.new.items ≡ out.old.items ++ cert_key_lines (certificate_of cert.now)) }
{
    let key = cert.key();
    push_word_line(out, b"type ", key.kind().certificate_name())?;
    push_fingerprint_line(alloc, out, &key)?;
    push_signer(alloc, out, &cert.signer())?;
    Ok(())
}

/// The line of the kind: 1 is a user's certificate, 2 a host's (PROTOCOL.certkeys). Any other
/// number is printed as it is.
fn push_kind(out: &mut Vec<u8>, kind_number: u32) -> Result<(), AllocError>
    ensures { OnOk result
        (out.new.items ≡ out.old.items ++ word_line (codes "kind ") (kind_word kind_number)) }
{
    match kind_number {
        1 => push_word_line(out, b"kind ", b"user"),
        2 => push_word_line(out, b"kind ", b"host"),
        _ => push_number_line(out, b"kind ", kind_number as u64),
    }
}

fn push_principals(out: &mut Vec<u8>, principals: Principals<'_>) -> Result<(), AllocError>
    ensures { OnOk result (out.new.items ≡ out.old.items ++ flat_map
        (text_line (codes "principal ")) (principals_left principals.entry)) }
{
    for name in principals {
        push_text_line(out, b"principal ", name)?;
    }
    Ok(())
}

/// A time, in seconds as in the certificate and as a date.
#[tactic(auto, unfolding(crate::specs::Texts::word_line))]
fn push_moment(out: &mut Vec<u8>, word: &[u8], moment: u64, date: &[u8]) -> Result<(), AllocError>
    ensures { OnOk result (out.new.items ≡ out.old.items ++ moment_line word.now moment date.now) }
{
    out.extend_from_slice(word)?;
    push_number(out, moment)?;
    out.push(b' ')?;
    out.extend_from_slice(date)?;
    out.push(b'\n')?;
    Ok(())
}

/// The lines for whom the certificate is: kind, serial number, key id and principals.
#[tactic(auto, unfolding(crate::specs::ShownTexts::cert_holder_lines))]
fn push_holder(out: &mut Vec<u8>, cert: &CertView<'_>) -> Result<(), AllocError>
    ensures { OnOk result
        (out.new.items ≡ out.old.items ++ cert_holder_lines (certificate_of cert.now)) }
{
    push_kind(out, cert.kind_number())?;
    push_number_line(out, b"serial ", cert.serial())?;
    push_text_line(out, b"id ", cert.key_id())?;
    push_principals(out, cert.principals())?;
    Ok(())
}

/// The lines of the period of validity, given the dates of its start and its end.
#[tactic(auto, unfolding(crate::specs::ShownTexts::cert_time_lines))]
fn push_time(
    out: &mut Vec<u8>,
    cert: &CertView<'_>,
    after: &[u8],
    before: &[u8],
) -> Result<(), AllocError>
    ensures { OnOk result (out.new.items ≡ out.old.items ++ cert_time_lines
        (certificate_of cert.now) after.now before.now) }
{
    push_moment(out, b"valid-after ", cert.after(), after)?;
    push_moment(out, b"valid-before ", cert.before(), before)?;
    Ok(())
}

#[tactic(auto, unfolding(crate::specs::Texts::word_line))]
fn push_option(out: &mut Vec<u8>, word: &[u8], name: &[u8], value: &[u8]) -> Result<(), AllocError>
    ensures { OnOk result (out.new.items ≡ out.old.items ++ option_line word.now
        (record { name = name.now; value = value.now })) }
{
    out.extend_from_slice(word)?;
    push_escaped(out, name)?;
    out.push(b' ')?;
    push_hex(out, value)?;
    out.push(b'\n')?;
    Ok(())
}

fn push_options(out: &mut Vec<u8>, word: &[u8], options: CertOptions<'_>) -> Result<(), AllocError>
    ensures { OnOk result (out.new.items ≡ out.old.items ++ flat_map (option_line word.now)
        (options_left options.entry)) }
{
    for (name, value) in options {
        push_option(out, word, name, value)?;
    }
    Ok(())
}

/// The lines of the options, and the algorithm of the certificate's signature.
#[tactic(auto, unfolding(crate::specs::ShownTexts::cert_option_lines))]
fn push_cert_options(out: &mut Vec<u8>, cert: &CertView<'_>) -> Result<(), AllocError>
    ensures { OnOk result
        (out.new.items ≡ out.old.items ++ cert_option_lines (certificate_of cert.now)) }
{
    push_options(out, b"critical ", cert.critical())?;
    push_options(out, b"extension ", cert.extensions())?;
    push_text_line(out, b"signature ", cert.signature().algorithm)?;
    Ok(())
}

/// All lines of a certificate, given the dates of the start and the end of its validity.
fn push_cert(
    alloc: Global,
    out: &mut Vec<u8>,
    cert: &CertView<'_>,
    after: &[u8],
    before: &[u8],
) -> Result<(), AllocError>
    ensures { OnOk result (out.new.items ≡ out.old.items ++ cert_lines (certificate_of cert.now)
        after.now before.now) }
{
    push_keys(alloc, out, cert)?;
    push_holder(out, cert)?;
    push_time(out, cert, after, before)?;
    push_cert_options(out, cert)?;
    Ok(())
}

fn cert_text(alloc: Global, cert: &CertView<'_>) -> Result<Vec<u8>, AllocError>
    ensures { IfOk result (λ text. IsCertText (certificate_of cert.now) text.items) }
{
    let after = utc_date(alloc, cert.after())?;
    let before = utc_date(alloc, cert.before())?;
    let mut text = Vec::new(alloc);
    push_cert(alloc, &mut text, cert, &after, &before)?;
    Ok(text)
}

/// The printed lines for the certificate on a line, which is given without its LF.
#[tactic(auto, unfolding(crate::specs::Showing::cert_on))]
pub fn show_cert(alloc: Global, line: &[u8]) -> Result<Vec<u8>, ShowError>
    ensures { Prints (λ text. text.items) IsCertText (cert_on line.now) result }
{
    let text = key_text(line);
    let type_fault = cert_type_fault(name_class(text.type_name));
    let blob = read_blob(alloc, text.base64, type_fault)?;
    let cert = read_typed_cert(text.type_name, &blob)?;
    let shown = cert_text(alloc, &cert)?;
    Ok(shown)
}
