//! The entries of an `authorized_keys` file that OpenSSH has no known reason to refuse or to read
//! differently, and what is reported of the lines that are left out.

ghost use Rattle.std.specs.Prelude.{◌≡◌, ◌<◌, ◌++◌, Ok, Err, IfOk, OnOk, length};
ghost use Rattle.std.specs.List.{flat_map};
ghost use Rattle.ssh_keys.specs.KeyOf.{key_of};
ghost use Rattle.ssh_entries.specs.LineView.{line_seen};
ghost use Rattle.ssh_rewriting.specs.Answer.{rewritten};
ghost use Rattle.ssh_rewriting.specs.declared.rewrite.RewriteError.TheVariants.{TooLong};
ghost use Rattle.ssh_text.specs.Text.{file_limit};
ghost use Rattle.ssh_findings.specs.FindingRows.{row_seen};
ghost use Rattle.ssh_review.specs.Readable.{doubts, has_nul_application, is_kept, kept_entry, kept_line, left_out, left_out_entry, left_out_for, left_out_key, left_out_line, left_out_of, left_out_row, readable_file};

use crate::findings::{detail, push_detail};
use jiff::tz::TimeZone;
use ssh_entries::{AuthEntryView, AuthLineView, KeyBuffer, read_auth_view};
use ssh_findings::{
    Code, Earlier, Facts, Finding, Printed, ReviewOptions, Row, entry_findings, has_nul,
};
use ssh_keys::{KeyFields, KeyView};
use ssh_print::push_number;
use ssh_rewriting::{RewriteError, write_auth_line};
use ssh_text::{FILE_LIMIT, Lines};
use std::alloc::{AllocError, Global};

/// The codes of the findings for which an entry is left out.
const DOUBTS: [Code; 3] = [Code::PermitsNobody, Code::ReadOtherwise, Code::MayRefuse];

/// The findings for which an entry is left out.
#[tactic(auto, unfolding(crate::specs::Readable::doubts))]
fn doubts(alloc: Global, entry: &AuthEntryView<'_>) -> Result<Vec<Finding>, AllocError>
    ensures { IfOk result (λ found. found.items ≡ doubts entry.now) }
{
    let zone = TimeZone::UTC;
    let asked = ReviewOptions {
        now: 0,
        zone: &zone,
        is_zone_given: false,
        rsa_minimum: 0,
        reported: &DOUBTS,
    };
    let facts = Facts::read(alloc, &zone, entry)?;
    let earlier = Earlier::new(alloc);
    let found = entry_findings(alloc, &asked, &earlier, entry.blob(), &facts)?;
    Ok(found)
}

/// Whether it is a security key whose application has a NUL: OpenSSH drops one at the end, and
/// with any other it reads no key. Does not allocate.
fn has_nul_application(key: &KeyView<'_>) -> bool
    ensures { result ≡ has_nul_application (key_of key.now) }
{
    match key.fields() {
        KeyFields::Rsa { .. }
        | KeyFields::P256 { .. }
        | KeyFields::P384 { .. }
        | KeyFields::P521 { .. }
        | KeyFields::Ed25519 { .. } => false,
        KeyFields::SkP256 { application, .. } => has_nul(application),
        KeyFields::SkEd25519 { application, .. } => has_nul(application),
    }
}

/// Whether an entry is kept.
fn is_kept(alloc: Global, entry: &AuthEntryView<'_>) -> Result<bool, AllocError>
    ensures { IfOk result (λ kept. kept ≡ is_kept entry.now) }
{
    let found = doubts(alloc, entry)?;
    Ok(found.is_empty() && !has_nul_application(&entry.key()))
}

/// Appends the canonical line of an entry, if the entry is kept. On an `Err` a part may have been
/// appended.
fn push_entry(alloc: Global, out: &mut Vec<u8>, entry: &AuthEntryView<'_>) -> Result<(), AllocError>
    ensures { OnOk result (out.new.items ≡ out.old.items ++ kept_entry entry.now) }
{
    if is_kept(alloc, entry)? {
        write_auth_line(entry, out)?;
        out.push(b'\n')?;
    }
    Ok(())
}

/// Appends the canonical line of a line's entry, if it has one that is kept.
fn push_line(alloc: Global, out: &mut Vec<u8>, view: &AuthLineView<'_>) -> Result<(), AllocError>
    ensures { OnOk result (out.new.items ≡ out.old.items ++ kept_line (line_seen view.now)) }
{
    match view {
        AuthLineView::Entry(entry) => push_entry(alloc, out, entry),
        _ => Ok(()),
    }
}

/// The canonical lines of the entries that are kept.
fn readable_lines(alloc: Global, file: &[u8]) -> Result<Vec<u8>, AllocError>
    ensures { IfOk result (λ new. new.items ≡ readable_file file.now) }
{
    let mut new = Vec::new(alloc);
    let mut buffer = KeyBuffer::new(alloc)?;
    for (_number, line) in Lines::new(file) {
        let view = read_auth_view(line, &mut buffer);
        push_line(alloc, &mut new, &view)?;
    }
    Ok(new)
}

/// The entries of an `authorized_keys` file that OpenSSH has no known reason to refuse or to read
/// differently, each by its canonical line, in their order. Other lines are left out: comments,
/// blank lines, lines that cannot be read, entries with a finding F7, F8 or F22, and security keys
/// whose application has a NUL. `TooLong` means that the file or the new one has more than
/// 67,108,864 bytes, `Memory` that memory could not be allocated.
pub fn readable_auth(alloc: Global, file: &[u8]) -> Result<Vec<u8>, RewriteError>
    // The result is the file of these entries, where neither file is past the limit.
    ensures readable { IfOk result (λ new.
        rewritten file.now (readable_file file.now) ≡ Ok new.items) }
    // It is too long only where one of them is past the limit.
    ensures too_long { result ≡ Err TooLong →
        rewritten file.now (readable_file file.now) ≡ Err TooLong }
    // The length of the file is tested before memory is allocated.
    ensures overlong { file_limit < length file.now → result ≡ Err TooLong }
{
    if file.len() > FILE_LIMIT {
        return Err(RewriteError::TooLong);
    }
    let new = readable_lines(alloc, file)?;
    if new.len() > FILE_LIMIT {
        return Err(RewriteError::TooLong);
    }
    Ok(new)
}

/// Appends the line of a line that is left out, by a code and its detail.
fn push_left_out(
    out: &mut Vec<u8>,
    number: u64,
    code: &[u8],
    detail_text: &[u8],
) -> Result<(), AllocError>
    ensures { OnOk result
        (out.new.items ≡ out.old.items ++ left_out_line number code.now detail_text.now) }
{
    out.extend_from_slice(b"ssh_audit: line ")?;
    push_number(out, number)?;
    out.extend_from_slice(b" left out: ")?;
    out.extend_from_slice(code)?;
    push_detail(out, detail_text)?;
    out.push(b'\n')?;
    Ok(())
}

fn push_row(alloc: Global, out: &mut Vec<u8>, number: u64, row: Row) -> Result<(), AllocError>
    ensures { OnOk result
        (out.new.items ≡ out.old.items ++ left_out_row number (row_seen row)) }
{
    let detail_text = detail(alloc, row)?;
    push_left_out(out, number, row.code.text(), &detail_text)
}

fn push_findings(
    alloc: Global,
    out: &mut Vec<u8>,
    number: u64,
    found: &[Finding],
) -> Result<(), AllocError>
    ensures { OnOk result
        (out.new.items ≡ out.old.items ++ flat_map (left_out_for number) found.now) }
{
    for finding in found {
        push_row(alloc, out, number, finding.row())?;
    }
    Ok(())
}

/// Appends the line of a security key whose application has a NUL.
fn push_key(out: &mut Vec<u8>, number: u64, key: &KeyView<'_>) -> Result<(), AllocError>
    ensures { OnOk result
        (out.new.items ≡ out.old.items ++ left_out_key number (key_of key.now)) }
{
    if has_nul_application(key) {
        push_left_out(out, number, b"application", b"")?;
    }
    Ok(())
}

/// Appends a line for each reason for which an entry is left out.
fn push_left_out_entry(
    alloc: Global,
    out: &mut Vec<u8>,
    number: u64,
    entry: &AuthEntryView<'_>,
) -> Result<(), AllocError>
    ensures { OnOk result
        (out.new.items ≡ out.old.items ++ left_out_entry number entry.now) }
{
    let found = doubts(alloc, entry)?;
    push_findings(alloc, out, number, &found)?;
    push_key(out, number, &entry.key())?;
    Ok(())
}

/// Appends what is reported of a line, if it is left out.
fn push_left_out_of(
    alloc: Global,
    out: &mut Vec<u8>,
    number: u64,
    view: &AuthLineView<'_>,
) -> Result<(), AllocError>
    ensures { OnOk result
        (out.new.items ≡ out.old.items ++ left_out_of number (line_seen view.now)) }
{
    match view {
        AuthLineView::Blank | AuthLineView::Comment => Ok(()),
        AuthLineView::Entry(entry) => push_left_out_entry(alloc, out, number, entry),
        AuthLineView::Unreadable(cause) => {
            push_row(alloc, out, number, Finding::Unreadable(*cause).row())
        }
    }
}

/// The lines that `readable_auth` leaves out, as a text for standard error: a line for each reason,
/// with the number of the line, the code and the detail of a finding. Nothing is reported of blank
/// lines and comments.
pub fn left_out(alloc: Global, file: &[u8]) -> Result<Vec<u8>, AllocError>
    ensures { IfOk result (λ text. text.items ≡ left_out file.now) }
{
    let mut text = Vec::new(alloc);
    let mut buffer = KeyBuffer::new(alloc)?;
    for (number, line) in Lines::new(file) {
        let view = read_auth_view(line, &mut buffer);
        push_left_out_of(alloc, &mut text, number, &view)?;
    }
    Ok(text)
}
