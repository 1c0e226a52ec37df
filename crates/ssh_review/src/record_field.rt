//! A field of a record: a member of a JSON object, or a cell of a table. So what is in a record, and
//! in which order, is written once for both.

ghost use Rattle.std.specs.Prelude.{◌≡◌, ◌++◌, ◌∷◌, [], OnOk, codes};
ghost use Rattle.ssh_print.specs.Texts.{escaped_text, hex_text};
ghost use Rattle.ssh_review.specs.RecordFields.{cell_text, is_cell_mark, moment_cell, moment_or_null_in, null_in, number_in, number_or_null_in, text_in, text_or_null_in, truth_in};

use crate::fields::{
    push_moment_or_null, push_null_field, push_number_field, push_text_field, push_truth,
};
use ssh_print::{push_escaped, push_hex, push_number};
use ssh_text::Bytes;
use std::alloc::{AllocError, Global};

/// How a field of a record is written.
#[derive(Clone, Copy, Debug, PartialEq, Eq)]
pub enum FieldForm {
    /// As a member of a JSON object, with its name.
    Member,
    /// As a cell of a table, behind a tab. Its name is that of its column.
    Cell,
}

/// Whether a spreadsheet takes a cell with this byte at its front for a formula or a quoted text.
fn is_cell_mark(byte: u8) -> bool
    ensures { result ≡ is_cell_mark byte }
{
    byte == b'=' || (byte == b'+' || (byte == b'-' || (byte == b'@' || byte == b'"')))
}

/// Appends a text that begins with such a byte.
fn push_marked(out: &mut Vec<u8>, mark: u8, rest: &[u8]) -> Result<(), AllocError>
    ensures { OnOk result (out.new.items
        ≡ out.old.items ++ (codes "\\x" ++ hex_text (mark ∷ []) ++ escaped_text rest.now)) }
{
    out.extend_from_slice(b"\\x")?;
    push_hex(out, &[mark])?;
    push_escaped(out, rest)?;
    Ok(())
}

/// Appends a text as it stands in a cell.
pub(crate) fn push_cell_text(out: &mut Vec<u8>, text: &[u8]) -> Result<(), AllocError>
    ensures { OnOk result (out.new.items ≡ out.old.items ++ cell_text text.now) }
{
    match text {
        [] => Ok(()),
        [mark, rest @ ..] => {
            if is_cell_mark(*mark) {
                push_marked(out, *mark, rest)
            } else {
                push_escaped(out, text)
            }
        }
    }
}

/// Appends a field without a value.
pub(crate) fn push_null_in(
    form: FieldForm,
    out: &mut Vec<u8>,
    name: &[u8],
) -> Result<(), AllocError>
    ensures { OnOk result (out.new.items ≡ out.old.items ++ null_in form name.now) }
{
    match form {
        FieldForm::Member => push_null_field(out, name),
        FieldForm::Cell => {
            out.push(b'\t')?;
            Ok(())
        }
    }
}

/// Appends a field with this text.
pub(crate) fn push_text_in(
    form: FieldForm,
    out: &mut Vec<u8>,
    name: &[u8],
    text: &[u8],
) -> Result<(), AllocError>
    ensures { OnOk result (out.new.items ≡ out.old.items ++ text_in form name.now text.now) }
{
    match form {
        FieldForm::Member => push_text_field(out, name, text),
        FieldForm::Cell => {
            out.push(b'\t')?;
            push_cell_text(out, text)
        }
    }
}

pub(crate) fn push_text_or_null_in(
    form: FieldForm,
    out: &mut Vec<u8>,
    name: &[u8],
    text: &Option<Bytes>,
) -> Result<(), AllocError>
    ensures { OnOk result (out.new.items ≡ out.old.items ++ text_or_null_in form name.now text.now) }
{
    match text {
        Some(text) => push_text_in(form, out, name, text.as_slice()),
        None => push_null_in(form, out, name),
    }
}

/// Appends a field with this number.
pub(crate) fn push_number_in(
    form: FieldForm,
    out: &mut Vec<u8>,
    name: &[u8],
    number: u64,
) -> Result<(), AllocError>
    ensures { OnOk result (out.new.items ≡ out.old.items ++ number_in form name.now number) }
{
    match form {
        FieldForm::Member => push_number_field(out, name, number),
        FieldForm::Cell => {
            out.push(b'\t')?;
            push_number(out, number)
        }
    }
}

pub(crate) fn push_number_or_null_in(
    form: FieldForm,
    out: &mut Vec<u8>,
    name: &[u8],
    number: Option<u64>,
) -> Result<(), AllocError>
    ensures { OnOk result (out.new.items ≡ out.old.items ++ number_or_null_in form name.now number) }
{
    match number {
        Some(number) => push_number_in(form, out, name, number),
        None => push_null_in(form, out, name),
    }
}

/// Appends the number of bits of an RSA key; other keys have none.
pub(crate) fn push_bits_in(
    form: FieldForm,
    out: &mut Vec<u8>,
    bits: Option<u32>,
) -> Result<(), AllocError>
    ensures { OnOk result (out.new.items ≡ out.old.items ++ number_or_null_in form (codes "bits") bits) }
{
    match bits {
        Some(bits) => push_number_in(form, out, b"bits", bits as u64),
        None => push_null_in(form, out, b"bits"),
    }
}

pub(crate) fn push_truth_in(
    form: FieldForm,
    out: &mut Vec<u8>,
    name: &[u8],
    value: bool,
) -> Result<(), AllocError>
    ensures { OnOk result (out.new.items ≡ out.old.items ++ truth_in form name.now value) }
{
    match form {
        FieldForm::Member => push_truth(out, name, value),
        FieldForm::Cell if value => out.extend_from_slice(b"\ttrue"),
        FieldForm::Cell => out.extend_from_slice(b"\tfalse"),
    }
}

/// Appends a cell with a moment, in seconds since 1970-01-01 in UTC; negative before that.
fn push_moment_cell(alloc: Global, out: &mut Vec<u8>, moment: Option<i64>) -> Result<(), AllocError>
    ensures { OnOk result (out.new.items ≡ out.old.items ++ moment_cell moment) }
{
    out.push(b'\t')?;
    if let Some(moment) = moment {
        let number = moment.to_string(alloc)?;
        out.extend_from_slice(number.as_bytes())?;
    }
    Ok(())
}

/// Appends a field with a moment.
pub(crate) fn push_moment_or_null_in(
    form: FieldForm,
    alloc: Global,
    out: &mut Vec<u8>,
    name: &[u8],
    moment: Option<i64>,
) -> Result<(), AllocError>
    ensures { OnOk result (out.new.items ≡ out.old.items ++ moment_or_null_in form name.now moment) }
{
    match form {
        FieldForm::Member => push_moment_or_null(alloc, out, name, moment),
        FieldForm::Cell => push_moment_cell(alloc, out, moment),
    }
}
