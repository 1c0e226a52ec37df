//! What is printed of a finding: its code, its detail and its sentence, as a line, as an object or
//! in a cell.

ghost use Rattle.std.specs.Prelude.{◌≡◌, IfOk, ◌++◌, OnOk};
ghost use Rattle.std.specs.List.{flat_map};
ghost use Rattle.ssh_review.specs.Findings.{cause_detail, cause_text, cells_end, code_object, detail_part, finding_head, object_after_comma, record_end, row_detail, row_line, row_object, row_sentence, row_words, rows_end, rows_list, value_text, words_after_semicolon, words_list};
ghost use Rattle.ssh_findings.specs.FindingRows.{row_seen};

use crate::fields::push_text_field;
use crate::record_field::FieldForm;
use ssh_findings::{Printed, Row, Value};
use ssh_options::LineCause;
use ssh_print::{line_code, line_codes, push_json_text, push_number, row_of};
use std::alloc::{AllocError, Global};

/// The codes of a line's error, separated by spaces.
fn cause_detail(alloc: Global, cause: LineCause) -> Result<Vec<u8>, AllocError>
    ensures { IfOk result (λ text. text.items ≡ cause_detail cause) }
{
    let codes = line_codes(alloc, cause)?;
    match codes.as_slice() {
        [_, rest @ ..] => Vec::from_slice(alloc, rest),
        [] => Ok(codes),
    }
}

fn push_cause(alloc: Global, out: &mut Vec<u8>, cause: LineCause) -> Result<(), AllocError>
    ensures { OnOk result (out.new.items ≡ out.old.items ++ cause_detail cause) }
{
    let codes = cause_detail(alloc, cause)?;
    out.extend_from_slice(&codes)?;
    Ok(())
}

/// The detail after the code of a finding. It has no bytes where the code alone is enough.
pub(crate) fn detail(alloc: Global, row: Row) -> Result<Vec<u8>, AllocError>
    ensures { IfOk result (λ text. text.items ≡ row_detail (row_seen row)) }
{
    let mut text = Vec::from_slice(alloc, row.detail)?;
    match row.value {
        Value::Nothing => {}
        Value::Number(number) => push_number(&mut text, number)?,
        Value::Cause(cause) => push_cause(alloc, &mut text, cause)?,
    }
    Ok(text)
}

/// Why a line cannot be read, by the table of codes.
fn cause_text(cause: LineCause) -> &'static [u8]
    ensures { result.now ≡ cause_text cause }
{
    match row_of(line_code(cause)) {
        Some(row) => row.sentence.as_bytes(),
        None => b"",
    }
}

fn push_value(out: &mut Vec<u8>, value: Value) -> Result<(), AllocError>
    ensures { OnOk result (out.new.items ≡ out.old.items ++ value_text value) }
{
    match value {
        Value::Nothing => Ok(()),
        Value::Number(number) => push_number(out, number),
        Value::Cause(cause) => out.extend_from_slice(cause_text(cause)),
    }
}

fn push_sentence(out: &mut Vec<u8>, row: Row) -> Result<(), AllocError>
    ensures { OnOk result (out.new.items ≡ out.old.items ++ row_sentence (row_seen row)) }
{
    out.extend_from_slice(row.before)?;
    push_value(out, row.value)?;
    out.extend_from_slice(row.after)?;
    Ok(())
}

/// Appends the detail of a finding after a space, if it has one.
pub(crate) fn push_detail(out: &mut Vec<u8>, detail_text: &[u8]) -> Result<(), AllocError>
    ensures { OnOk result (out.new.items ≡ out.old.items ++ detail_part detail_text.now) }
{
    if !detail_text.is_empty() {
        out.push(b' ')?;
        out.extend_from_slice(detail_text)?;
    }
    Ok(())
}

/// Appends the start of a finding's line: its code and detail.
fn push_finding_head(out: &mut Vec<u8>, code: &[u8], detail_text: &[u8]) -> Result<(), AllocError>
    ensures { OnOk result (out.new.items ≡ out.old.items ++ finding_head code.now detail_text.now) }
{
    out.extend_from_slice(b"    ")?;
    out.extend_from_slice(code)?;
    push_detail(out, detail_text)?;
    out.extend_from_slice(b": ")?;
    Ok(())
}

/// Appends the line of a finding.
fn push_row(alloc: Global, out: &mut Vec<u8>, row: Row) -> Result<(), AllocError>
    ensures { OnOk result (out.new.items ≡ out.old.items ++ row_line (row_seen row)) }
{
    let detail_text = detail(alloc, row)?;
    push_finding_head(out, row.code.text(), &detail_text)?;
    push_sentence(out, row)?;
    out.push(b'\n')?;
    Ok(())
}

/// Appends the lines of findings.
pub(crate) fn push_findings<F: Printed>(
    alloc: Global,
    out: &mut Vec<u8>,
    found: &[F],
) -> Result<(), AllocError>
    ensures { OnOk result
        (out.new.items ≡ out.old.items ++ flat_map (λ f. row_line (F.printed f)) found.now) }
{
    for finding in found {
        push_row(alloc, out, finding.row())?;
    }
    Ok(())
}

/// Appends the object of a finding: its code and detail.
#[tactic(auto, unfolding(crate::specs::Findings::code_object))]
fn push_object(alloc: Global, out: &mut Vec<u8>, row: Row) -> Result<(), AllocError>
    ensures { OnOk result (out.new.items ≡ out.old.items ++ row_object (row_seen row)) }
{
    let detail_text = detail(alloc, row)?;
    out.extend_from_slice(b"{\"code\":")?;
    push_json_text(out, row.code.text())?;
    push_text_field(out, b"detail", &detail_text)?;
    out.push(b'}')?;
    Ok(())
}

/// Appends the objects of findings, each after a comma.
fn push_others<F: Printed>(alloc: Global, out: &mut Vec<u8>, found: &[F]) -> Result<(), AllocError>
    ensures { OnOk result
        (out.new.items ≡ out.old.items ++ flat_map (object_after_comma F.printed) found.now) }
{
    for finding in found {
        out.push(b',')?;
        push_object(alloc, out, finding.row())?;
    }
    Ok(())
}

/// Appends the objects of findings, separated by commas.
fn push_list<F: Printed>(alloc: Global, out: &mut Vec<u8>, found: &[F]) -> Result<(), AllocError>
    ensures { OnOk result (out.new.items ≡ out.old.items ++ rows_list F.printed found.now) }
{
    if let [first, others @ ..] = found {
        push_object(alloc, out, first.row())?;
        push_others(alloc, out, others)?;
    }
    Ok(())
}

/// Appends the last field of an object, its findings, and the end of its line.
fn push_objects_end<F: Printed>(
    alloc: Global,
    out: &mut Vec<u8>,
    found: &[F],
) -> Result<(), AllocError>
    ensures { OnOk result (out.new.items ≡ out.old.items ++ rows_end F.printed found.now) }
{
    out.extend_from_slice(b",\"findings\":[")?;
    push_list(alloc, out, found)?;
    out.extend_from_slice(b"]}\n")?;
    Ok(())
}

/// Appends the words of a finding: its code and detail.
fn push_words(alloc: Global, out: &mut Vec<u8>, row: Row) -> Result<(), AllocError>
    ensures { OnOk result (out.new.items ≡ out.old.items ++ row_words (row_seen row)) }
{
    let detail_text = detail(alloc, row)?;
    out.extend_from_slice(row.code.text())?;
    push_detail(out, &detail_text)?;
    Ok(())
}

/// Appends the words of findings, each after a semicolon.
fn push_other_words<F: Printed>(
    alloc: Global,
    out: &mut Vec<u8>,
    found: &[F],
) -> Result<(), AllocError>
    ensures { OnOk result
        (out.new.items ≡ out.old.items ++ flat_map (words_after_semicolon F.printed) found.now) }
{
    for finding in found {
        out.extend_from_slice(b"; ")?;
        push_words(alloc, out, finding.row())?;
    }
    Ok(())
}

/// Appends the words of findings, separated by semicolons.
fn push_words_list<F: Printed>(
    alloc: Global,
    out: &mut Vec<u8>,
    found: &[F],
) -> Result<(), AllocError>
    ensures { OnOk result (out.new.items ≡ out.old.items ++ words_list F.printed found.now) }
{
    if let [first, others @ ..] = found {
        push_words(alloc, out, first.row())?;
        push_other_words(alloc, out, others)?;
    }
    Ok(())
}

/// Appends the cell of a row's findings, that of a note, which is empty, and the end of the line.
fn push_cells_end<F: Printed>(
    alloc: Global,
    out: &mut Vec<u8>,
    found: &[F],
) -> Result<(), AllocError>
    ensures { OnOk result (out.new.items ≡ out.old.items ++ cells_end F.printed found.now) }
{
    out.push(b'\t')?;
    push_words_list(alloc, out, found)?;
    out.push(b'\t')?;
    out.push(b'\n')?;
    Ok(())
}

/// Appends the last fields of a record, its findings first, and the end of its line.
pub(crate) fn push_record_end<F: Printed>(
    form: FieldForm,
    alloc: Global,
    out: &mut Vec<u8>,
    found: &[F],
) -> Result<(), AllocError>
    ensures { OnOk result (out.new.items ≡ out.old.items ++ record_end form F.printed found.now) }
{
    match form {
        FieldForm::Member => push_objects_end(alloc, out, found),
        FieldForm::Cell => push_cells_end(alloc, out, found),
    }
}
