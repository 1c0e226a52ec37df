//! The printed lines of a file that were passed over, each with the reason and what was compared.

ghost use Rattle.std.specs.Prelude.{◌≡◌, ◌++◌, OnOk};
ghost use Rattle.ssh_text.specs.Text.{lines_of, numbered};
ghost use Rattle.ssh_print.specs.AnswerText.{reason_sentence};
ghost use Rattle.ssh_print.specs.PassedLines.{cut_line, line_from, lines_after, passed_line, passed_lines, passed_text};

use crate::admission_text::sentence;
use crate::codes::{line_code, push_reason_codes, reason_code};
use crate::comparison::Comparing;
use crate::otherwise::INDENT;
use crate::text::push_number;
use ssh_rules::Reason;
use ssh_text::Lines;
use std::alloc::{AllocError, Global};

/// The most reasons that a decision lists.
const LISTED: usize = 100;

/// The sentence for a reason. For a line that cannot be read it is that of the fault on the line.
fn reason_sentence(reason: &Reason) -> &'static str
    ensures { result.now ≡ reason_sentence reason.now }
{
    match reason {
        Reason::Unreadable(cause) => sentence(line_code(*cause)),
        other => sentence(reason_code(other)),
    }
}

/// The first line with this number among those that are left. It and those before it are taken.
pub(crate) fn line_from<'a>(lines: &mut Lines<'a>, number: u64) -> &'a [u8]
    ensures line { result.now ≡ line_from number (numbered lines.old.0 (lines_of lines.old.1)) }
    ensures rest { numbered lines.new.0 (lines_of lines.new.1)
        ≡ lines_after number (numbered lines.old.0 (lines_of lines.old.1)) }
{
    while let Some((next, line)) = lines.next() {
        if next == number {
            return line;
        }
    }
    &[]
}

fn push_passed_line<C: Comparing>(
    alloc: Global,
    out: &mut Vec<u8>,
    comparing: &C,
    number: u64,
    reason: &Reason,
    line: &[u8],
) -> Result<(), AllocError>
    ensures { OnOk result (out.new.items ≡ out.old.items
        ++ passed_line (C.compared comparing.entry.now) (number, reason.now) line.now) }
{
    out.extend_from_slice(INDENT)?;
    push_number(out, number)?;
    push_reason_codes(out, reason)?;
    out.extend_from_slice(b": ")?;
    out.extend_from_slice(reason_sentence(reason).as_bytes())?;
    comparing.push_compared(alloc, out, reason, line)?;
    out.push(b'\n')?;
    Ok(())
}

fn push_passed_lines<C: Comparing>(
    alloc: Global,
    out: &mut Vec<u8>,
    comparing: &C,
    file: &[u8],
    reasons: &[(u64, Reason)],
) -> Result<(), AllocError>
    ensures { OnOk result (out.new.items ≡ out.old.items
        ++ passed_lines (C.compared comparing.entry.now) (numbered 1 (lines_of file.now)) reasons.now) }
{
    let mut lines = Lines::new(file);
    for reason in reasons {
        let line = line_from(&mut lines, reason.0);
        push_passed_line(alloc, out, comparing, reason.0, &reason.1, line)?;
    }
    Ok(())
}

fn cut_line(reasons: &[(u64, Reason)]) -> &'static [u8]
    ensures { result.now ≡ cut_line reasons.now }
{
    if reasons.len() >= LISTED {
        b"    .. only the first 100 are listed, and there may be more\n"
    } else {
        b""
    }
}

/// Appends the lines of a file that were passed over for these reasons, which come in the order of
/// the lines.
#[tactic(auto, unfolding(crate::specs::PassedLines::passed_text))]
pub(crate) fn push_passed_text<C: Comparing>(
    alloc: Global,
    out: &mut Vec<u8>,
    comparing: &C,
    file: &[u8],
    reasons: &[(u64, Reason)],
) -> Result<(), AllocError>
    ensures { OnOk result (out.new.items ≡ out.old.items
        ++ passed_text (C.compared comparing.entry.now) file.now reasons.now) }
{
    push_passed_lines(alloc, out, comparing, file, reasons)?;
    out.extend_from_slice(cut_line(reasons))?;
    Ok(())
}
