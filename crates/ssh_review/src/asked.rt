//! How a question was asked, which the last line of its answer says.

ghost use Rattle.std.specs.Prelude.{◌≡◌, ◌++◌, OnOk, IfOk, codes, option_copied};
ghost use Rattle.ssh_print.specs.Dates.{date_of};
ghost use Rattle.ssh_review.specs.Asked.{asked_fields, asked_line, asked_of, asked_words, program_field, total_head, zone_words};
ghost use Rattle.ssh_review.specs.Fields.{text_field, text_or_null};

use crate::fields::{push_null_field, push_number_field, push_text_field};
use ssh_print::{date_text, push_escaped, push_moment, sentence};
use std::alloc::{AllocError, Global};

/// When a question was asked.
#[derive(Clone, Copy, Debug)]
pub struct AskedAt<'a> {
    /// The moment, in seconds since 1970-01-01 in UTC.
    pub now: u64,
    /// The time zone of expiry times without `Z`, as a POSIX rule; `None` for a question that reads no such
    /// time.
    pub zone: Option<&'a [u8]>,
}

fn push_zone_words(out: &mut Vec<u8>, zone: Option<&[u8]>) -> Result<(), AllocError>
    ensures { OnOk result (out.new.items ≡ out.old.items ++ zone_words (option_copied zone.entry)) }
{
    match zone {
        None => Ok(()),
        Some(rule) => {
            out.extend_from_slice(b", zone ")?;
            push_escaped(out, rule)?;
            Ok(())
        }
    }
}

/// Appends the moment and the time zone of a question.
#[tactic(auto, unfolding(crate::specs::Asked::asked_words))]
pub(crate) fn push_asked_words(
    alloc: Global,
    out: &mut Vec<u8>,
    at: &AskedAt<'_>,
) -> Result<(), AllocError>
    ensures { OnOk result (out.new.items ≡ out.old.items ++ asked_words (asked_of at.entry.now)) }
{
    out.extend_from_slice(b"asked at ")?;
    push_moment(alloc, out, at.now)?;
    push_zone_words(out, at.zone)?;
    Ok(())
}

/// The last line of a text: the moment and the time zone of the question.
#[tactic(auto, unfolding(crate::specs::Asked::asked_line))]
pub fn asked_line(alloc: Global, at: &AskedAt<'_>) -> Result<Vec<u8>, AllocError>
    ensures { IfOk result (λ text. text.items ≡ asked_line (asked_of at.entry.now)) }
{
    let mut out = Vec::new(alloc);
    push_asked_words(alloc, &mut out, at)?;
    out.push(b'\n')?;
    Ok(out)
}

fn push_date(alloc: Global, out: &mut Vec<u8>, moment: u64) -> Result<(), AllocError>
    ensures { OnOk result (out.new.items ≡ out.old.items ++ text_field (codes "at") (date_of moment)) }
{
    let date = date_text(alloc, moment)?;
    push_text_field(out, b"at", &date)
}

fn push_zone(out: &mut Vec<u8>, zone: Option<&[u8]>) -> Result<(), AllocError>
    ensures { OnOk result (out.new.items
        ≡ out.old.items ++ text_or_null (codes "zone") (option_copied zone.entry)) }
{
    match zone {
        None => push_null_field(out, b"zone"),
        Some(rule) => push_text_field(out, b"zone", rule),
    }
}

/// Appends the moment and the time zone of a question, as fields.
#[tactic(auto, unfolding(crate::specs::Asked::asked_fields))]
pub(crate) fn push_asked_fields(
    alloc: Global,
    out: &mut Vec<u8>,
    at: &AskedAt<'_>,
) -> Result<(), AllocError>
    ensures { OnOk result (out.new.items ≡ out.old.items ++ asked_fields (asked_of at.entry.now)) }
{
    push_number_field(out, b"now", at.now)?;
    push_date(alloc, out, at.now)?;
    push_zone(out, at.zone)?;
    Ok(())
}

/// Appends the program and its version.
#[tactic(auto, unfolding(crate::specs::Asked::program_field))]
fn push_program(out: &mut Vec<u8>) -> Result<(), AllocError>
    ensures { OnOk result (out.new.items ≡ out.old.items ++ program_field) }
{
    push_text_field(out, b"program", sentence("version").as_bytes())
}

/// Appends the first fields of a total: the number of the JSON format, which rises when a field is
/// added or changes, and the program with its version.
pub(crate) fn push_total_head(out: &mut Vec<u8>) -> Result<(), AllocError>
    ensures { OnOk result (out.new.items ≡ out.old.items ++ total_head) }
{
    out.extend_from_slice(b"{\"what\":\"total\"")?;
    push_number_field(out, b"format", 2)?;
    push_program(out)?;
    Ok(())
}
