//! A finding: its code and its detail, its sentence, and a link to the line that it names.

ghost use Rattle.std.specs.Prelude.{◌≡◌, ◌++◌, OnOk};
ghost use Rattle.std.specs.List.{flat_map};
ghost use Rattle.ssh_findings.specs.FindingRows.{row_seen};
ghost use Rattle.ssh_print.specs.Texts.{escaped_text};
ghost use Rattle.ssh_page.specs.Documents.{each, marks};
ghost use Rattle.ssh_page.specs.Findings.{cause_codes, cause_sentence, detail, finding_head, finding_part, has_value, line_link, link, names_a_line, value_detail, value_link, value_sentence};
ghost use Rattle.ssh_page.specs.Classes.{class_of};

use crate::classes::push_class;
use crate::marks::push_piece;
use crate::piece::Piece;
use ssh_findings::{Code, Printed, Row, Value};
use ssh_options::LineCause;
use ssh_print::{line_code, line_codes, push_number, push_shown, row_of};
use std::alloc::{AllocError, Global};

/// Appends the codes of a line's error, separated by spaces.
fn push_cause(alloc: Global, out: &mut Vec<u8>, cause: LineCause) -> Result<(), AllocError>
    ensures { OnOk result (out.new.items ≡ out.old.items ++ escaped_text (cause_codes cause)) }
{
    let codes = line_codes(alloc, cause)?;
    match codes.as_slice() {
        [_, rest @ ..] => push_shown(out, rest),
        [] => push_shown(out, &codes),
    }
}

/// Why a line cannot be read, by the table of codes.
fn cause_sentence(cause: LineCause) -> &'static [u8]
    ensures { result.now ≡ cause_sentence cause }
{
    match row_of(line_code(cause)) {
        Some(row) => row.sentence.as_bytes(),
        None => b"",
    }
}

fn push_value_detail(alloc: Global, out: &mut Vec<u8>, value: Value) -> Result<(), AllocError>
    ensures { OnOk result (out.new.items ≡ out.old.items ++ marks (value_detail value)) }
{
    match value {
        Value::Nothing => Ok(()),
        Value::Number(number) => push_number(out, number),
        Value::Cause(cause) => push_cause(alloc, out, cause),
    }
}

fn push_value_sentence(out: &mut Vec<u8>, value: Value) -> Result<(), AllocError>
    ensures { OnOk result (out.new.items ≡ out.old.items ++ marks (value_sentence value)) }
{
    match value {
        Value::Nothing => Ok(()),
        Value::Number(number) => push_number(out, number),
        Value::Cause(cause) => push_shown(out, cause_sentence(cause)),
    }
}

fn has_value(value: Value) -> bool
    ensures { result ≡ has_value value }
{
    match value {
        Value::Nothing => false,
        Value::Number(_) => true,
        Value::Cause(_) => true,
    }
}

/// Appends the detail of a finding after a space, if it has one.
#[tactic(auto, unfolding(crate::specs::Findings::detail))]
fn push_detail(alloc: Global, out: &mut Vec<u8>, row: Row) -> Result<(), AllocError>
    ensures { OnOk result (out.new.items ≡ out.old.items ++ marks (detail (row_seen row))) }
{
    if !row.detail.is_empty() || has_value(row.value) {
        push_shown(out, b" ")?;
        push_shown(out, row.detail)?;
        push_value_detail(alloc, out, row.value)?;
    }
    Ok(())
}

/// Whether a code names another line of the same file.
fn names_a_line(code: Code) -> bool
    ensures { result ≡ names_a_line code }
{
    match code {
        Code::SameKey => true,
        Code::NeverDecides => true,
        Code::GivesMore => true,
        Code::OtherKey => true,
        Code::TrustedAndRevoked => true,
        Code::SameHostKey => true,
        _ => false,
    }
}

/// Appends a link to a line of a file.
#[tactic(auto, unfolding(crate::specs::Findings::line_link))]
fn push_line_link(out: &mut Vec<u8>, file: u64, line: u64) -> Result<(), AllocError>
    ensures { OnOk result (out.new.items ≡ out.old.items ++ marks (line_link file line)) }
{
    push_piece(out, Piece::SeeFile)?;
    push_number(out, file)?;
    push_piece(out, Piece::LineId)?;
    push_number(out, line)?;
    push_piece(out, Piece::SeeLine)?;
    push_number(out, line)?;
    push_piece(out, Piece::LinkEnd)?;
    Ok(())
}

/// Appends a link to the line that a finding names, if it names one.
fn push_link(out: &mut Vec<u8>, file: u64, row: Row) -> Result<(), AllocError>
    ensures { OnOk result (out.new.items ≡ out.old.items ++ marks (link file (row_seen row))) }
{
    if names_a_line(row.code) {
        if let Value::Number(line) = row.value {
            push_line_link(out, file, line)?;
        }
    }
    Ok(())
}

/// Appends the first part of a finding: its classes, its code and its detail.
#[tactic(auto, unfolding(crate::specs::Findings::finding_head))]
fn push_head(alloc: Global, out: &mut Vec<u8>, row: Row) -> Result<(), AllocError>
    ensures { OnOk result (out.new.items ≡ out.old.items ++ marks (finding_head (row_seen row))) }
{
    push_piece(out, Piece::Finding)?;
    push_class(out, row.code)?;
    push_piece(out, Piece::FindingCode)?;
    push_shown(out, row.code.text())?;
    push_detail(alloc, out, row)?;
    push_piece(out, Piece::FindingSays)?;
    Ok(())
}

/// Appends a finding of a line.
#[tactic(auto, unfolding(crate::specs::Findings::finding_part))]
fn push_finding(alloc: Global, out: &mut Vec<u8>, file: u64, row: Row) -> Result<(), AllocError>
    ensures { OnOk result (out.new.items
        ≡ out.old.items ++ marks (finding_part file (row_seen row))) }
{
    push_head(alloc, out, row)?;
    push_shown(out, row.before)?;
    push_value_sentence(out, row.value)?;
    push_shown(out, row.after)?;
    push_link(out, file, row)?;
    push_piece(out, Piece::LimitEnd)?;
    Ok(())
}

/// Appends the findings of a line of the file with this number.
pub(crate) fn push_findings<F: Printed>(
    alloc: Global,
    out: &mut Vec<u8>,
    file: u64,
    found: &[F],
) -> Result<(), AllocError>
    ensures { OnOk result (out.new.items
        ≡ out.old.items ++ marks (each (λ f. finding_part file (F.printed f)) found.now)) }
{
    for finding in found {
        push_finding(alloc, out, file, finding.row())?;
    }
    Ok(())
}

/// Appends the classes of findings.
pub(crate) fn push_classes<F: Printed>(out: &mut Vec<u8>, found: &[F]) -> Result<(), AllocError>
    ensures { OnOk result (out.new.items
        ≡ out.old.items ++ marks (each (λ f. class_of (F.printed f).code) found.now)) }
{
    for finding in found {
        push_class(out, finding.row().code)?;
    }
    Ok(())
}
