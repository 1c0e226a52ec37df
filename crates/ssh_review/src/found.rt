//! How often each code was found in all files, as the total prints it.

ghost use Rattle.std.specs.Prelude.{◌≡◌, ◌++◌, OnOk, flat_map};
ghost use Rattle.ssh_review.specs.Found.{found_field, found_line, found_lines, found_object, urgent_line, urgent_lines};

use crate::fields::{push_count_field, push_object};
use ssh_findings::{Code, CodeCounts, Urgency, how_soon};
use ssh_print::{push_number, sentence};
use std::alloc::{AllocError, Global};

/// Appends the line of a code, if it was found.
fn push_found_line(out: &mut Vec<u8>, code: Code, number: u64) -> Result<(), AllocError>
    ensures { OnOk result (out.new.items ≡ out.old.items ++ found_line code number) }
{
    if number > 0 {
        out.extend_from_slice(code.text())?;
        out.extend_from_slice(b": ")?;
        push_number(out, number)?;
        out.extend_from_slice(b", ")?;
        out.extend_from_slice(sentence(code.name()).as_bytes())?;
        out.push(b'\n')?;
    }
    Ok(())
}

/// Appends the line of a code, if it is of this urgency and was found.
fn push_urgent_line(
    out: &mut Vec<u8>,
    counts: CodeCounts,
    urgency: Urgency,
    code: Code,
) -> Result<(), AllocError>
    ensures { OnOk result (out.new.items ≡ out.old.items ++ urgent_line counts urgency code) }
{
    if how_soon(code) == urgency {
        push_found_line(out, code, counts.get(code))
    } else {
        Ok(())
    }
}

/// Appends the lines of those of these codes that are of this urgency.
fn push_urgent_lines(
    out: &mut Vec<u8>,
    counts: CodeCounts,
    listed: &[Code],
    urgency: Urgency,
) -> Result<(), AllocError>
    ensures { OnOk result (out.new.items ≡ out.old.items ++ urgent_lines counts listed.now urgency) }
{
    for code in listed {
        push_urgent_line(out, counts, urgency, *code)?;
    }
    Ok(())
}

/// Appends a line for each code that was found: those of one urgency after the other.
#[tactic(auto, unfolding(crate::specs::Found::found_lines))]
pub(crate) fn push_found_lines(out: &mut Vec<u8>, counts: CodeCounts) -> Result<(), AllocError>
    ensures { OnOk result (out.new.items ≡ out.old.items ++ found_lines counts) }
{
    push_urgent_lines(out, counts, &Code::ALL, Urgency::Today)?;
    push_urgent_lines(out, counts, &Code::ALL, Urgency::Soon)?;
    push_urgent_lines(out, counts, &Code::ALL, Urgency::TidyUp)?;
    push_urgent_lines(out, counts, &Code::ALL, Urgency::Policy)?;
    Ok(())
}

fn push_found_fields(
    out: &mut Vec<u8>,
    counts: CodeCounts,
    listed: &[Code],
) -> Result<(), AllocError>
    ensures { OnOk result (out.new.items ≡ out.old.items ++ flat_map (found_field counts) listed.now) }
{
    for code in listed {
        push_count_field(out, code.text(), counts.get(*code))?;
    }
    Ok(())
}

/// Appends an object with a field for each code that was found.
#[tactic(auto, unfolding(crate::specs::Found::found_object))]
pub(crate) fn push_found_object(
    alloc: Global,
    out: &mut Vec<u8>,
    counts: CodeCounts,
) -> Result<(), AllocError>
    ensures { OnOk result (out.new.items ≡ out.old.items ++ found_object counts) }
{
    let mut fields = Vec::new(alloc);
    push_found_fields(&mut fields, counts, &Code::ALL)?;
    push_object(out, b"findings_by_code", &fields)?;
    Ok(())
}
