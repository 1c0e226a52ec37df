//! The name of a file, and how each of its records begins with it.

ghost use Rattle.std.specs.Prelude.{◌≡◌, ◌++◌, IfOk, None, OnOk, option_map};
ghost use Rattle.ssh_review.specs.FileNames.{both_fields, file_head, json_head, label_fields, label_shown, label_text, labels_seen, name_seen, row_head, shown_name, text_head};

use crate::end::Form;
use crate::record_field::{FieldForm, push_cell_text, push_text_in};
use ssh_print::{push_escaped, push_json_text};
use std::alloc::{AllocError, Global};

/// Whose file it is, where the list of names says so.
#[derive(Clone, Copy, Debug, PartialEq, Eq)]
pub struct Labels<'a> {
    pub host: &'a str,
    pub account: &'a str,
}

/// The name of a file, and whose it is.
#[derive(Clone, Copy, Debug, PartialEq, Eq)]
pub struct FileName<'a> {
    /// The name by which it is read.
    pub path: &'a str,
    /// Host and account, where names have them.
    pub labels: Option<Labels<'a>>,
}

impl<'a> FileName<'a> {
    /// A name without labels.
    pub fn plain(path: &'a str) -> Self
        ensures { name_seen result ≡ record { path = path.now; labels = None } }
    {
        FileName { path, labels: None }
    }
}

/// Appends account and host before the name of a file, as text.
fn push_label_text(out: &mut Vec<u8>, labels: Option<Labels<'_>>) -> Result<(), AllocError>
    ensures { OnOk result (out.new.items ≡ out.old.items ++ label_text (option_map labels_seen labels.entry)) }
{
    if let Some(labels) = labels {
        push_escaped(out, labels.account.as_bytes())?;
        out.push(b'@')?;
        push_escaped(out, labels.host.as_bytes())?;
        out.push(b':')?;
    }
    Ok(())
}

/// Appends the front of a record as text: `PATH`, or `ACCOUNT@HOST:PATH`.
fn push_text_head(out: &mut Vec<u8>, name: FileName<'_>) -> Result<(), AllocError>
    ensures { OnOk result (out.new.items ≡ out.old.items ++ text_head (name_seen name.entry)) }
{
    push_label_text(out, name.labels)?;
    push_escaped(out, name.path.as_bytes())?;
    Ok(())
}

/// Appends the fields of host and account.
#[tactic(auto, unfolding(crate::specs::FileNames::both_fields))]
fn push_both_fields(
    form: FieldForm,
    out: &mut Vec<u8>,
    labels: Labels<'_>,
) -> Result<(), AllocError>
    ensures { OnOk result (out.new.items ≡ out.old.items ++ both_fields form (labels_seen labels.entry)) }
{
    push_text_in(form, out, b"host", labels.host.as_bytes())?;
    push_text_in(form, out, b"account", labels.account.as_bytes())?;
    Ok(())
}

/// Appends the fields of host and account, where names have them; a row has their cells anyway.
fn push_label_fields(
    form: FieldForm,
    out: &mut Vec<u8>,
    labels: Option<Labels<'_>>,
) -> Result<(), AllocError>
    ensures { OnOk result (out.new.items
        ≡ out.old.items ++ label_fields form (option_map labels_seen labels.entry)) }
{
    match (labels, form) {
        (Some(labels), _) => push_both_fields(form, out, labels),
        (None, FieldForm::Member) => Ok(()),
        (None, FieldForm::Cell) => out.extend_from_slice(b"\t\t"),
    }
}

/// Appends the front of a record as JSON.
#[tactic(auto, unfolding(crate::specs::FileNames::json_head))]
fn push_json_head(out: &mut Vec<u8>, name: FileName<'_>) -> Result<(), AllocError>
    ensures { OnOk result (out.new.items ≡ out.old.items ++ json_head (name_seen name.entry)) }
{
    out.extend_from_slice(b"{\"file\":")?;
    push_json_text(out, name.path.as_bytes())?;
    push_label_fields(FieldForm::Member, out, name.labels)?;
    Ok(())
}

/// Appends the front of a record as a row of a table.
#[tactic(auto, unfolding(crate::specs::FileNames::row_head))]
fn push_row_head(out: &mut Vec<u8>, name: FileName<'_>) -> Result<(), AllocError>
    ensures { OnOk result (out.new.items ≡ out.old.items ++ row_head (name_seen name.entry)) }
{
    push_cell_text(out, name.path.as_bytes())?;
    push_label_fields(FieldForm::Cell, out, name.labels)?;
    Ok(())
}

/// How each record and the end of this file begin. It is made once for a file.
pub fn file_head(alloc: Global, form: Form, name: FileName<'_>) -> Result<Vec<u8>, AllocError>
    ensures { IfOk result (λ head. head.items ≡ file_head form (name_seen name.entry)) }
{
    let mut head = Vec::new(alloc);
    match form {
        Form::Text => push_text_head(&mut head, name)?,
        Form::Json => push_json_head(&mut head, name)?,
        Form::Line(_) => push_row_head(&mut head, name)?,
    }
    Ok(head)
}

/// Appends account and host before the name of a file, as they are.
fn push_label_bytes(out: &mut Vec<u8>, labels: Option<Labels<'_>>) -> Result<(), AllocError>
    ensures { OnOk result (out.new.items ≡ out.old.items ++ label_shown (option_map labels_seen labels.entry)) }
{
    if let Some(labels) = labels {
        out.extend_from_slice(labels.account.as_bytes())?;
        out.push(b'@')?;
        out.extend_from_slice(labels.host.as_bytes())?;
        out.push(b':')?;
    }
    Ok(())
}

/// The name of a file as the page has it, `PATH` or `ACCOUNT@HOST:PATH`, of which no byte is escaped.
pub fn shown_name(alloc: Global, name: FileName<'_>) -> Result<Vec<u8>, AllocError>
    ensures { IfOk result (λ shown. shown.items ≡ shown_name (name_seen name.entry)) }
{
    let mut shown = Vec::new(alloc);
    push_label_bytes(&mut shown, name.labels)?;
    shown.extend_from_slice(name.path.as_bytes())?;
    Ok(shown)
}
