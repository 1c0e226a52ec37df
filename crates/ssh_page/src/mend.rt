//! What has to be mended: the codes that were found, by how soon, with the lines that have them; those
//! that were looked for and not found; and those that were not looked for.

ghost use Rattle.std.specs.Prelude.{◌≡◌, ◌++◌, OnOk, IfOk, option_map};
ghost use Rattle.std.specs.List.{flat_map};
ghost use Rattle.ssh_findings.specs.Codes.{code_text};
ghost use Rattle.ssh_page.specs.Documents.{each, marks};
ghost use Rattle.ssh_page.specs.Mending.{absent, absent_code, absent_part, found_code, found_head, group, group_piece, is_clean, is_found, is_urgent, left_out_part, means, mend, remedy, urgent};
ghost use Rattle.ssh_page.specs.Places.{lines_seen};
ghost use Rattle.ssh_page.specs.Questions.{question_seen};
ghost use Rattle.ssh_print.specs.Table.{code_row, row_of};

use crate::header::{PageTotals, push_code_words};
use crate::marks::push_piece;
use crate::piece::Piece;
use crate::places::{PageLines, listed_places, push_places};
use crate::question::{PageQuestion, left_out, looked_for};
use crate::record::push_if;
use ssh_findings::{Code, Urgency, how_soon};
use ssh_print::{Row, push_number, push_shown, row_of};
use std::alloc::{AllocError, Global};

/// A code that was found, and how often.
#[derive(Clone, Copy, Debug)]
pub struct CodeCount {
    pub code: Code,
    pub count: u64,
}

/// The row of the table of codes.
fn row_in(code: Code) -> Option<Row>
    ensures { option_map code_row result ≡ row_of (code_text code) }
{
    match str::from_utf8(code.text()) {
        Ok(word) => row_of(word),
        Err(_) => None,
    }
}

/// What a code means, by the table of codes.
fn means(code: Code) -> &'static [u8]
    ensures { result.now ≡ means code }
{
    match row_in(code) {
        Some(row) => row.sentence.as_bytes(),
        None => b"",
    }
}

/// What to do about a code, by the table of codes.
fn remedy(code: Code) -> &'static [u8]
    ensures { result.now ≡ remedy code }
{
    match row_in(code) {
        Some(row) => row.remedy.as_bytes(),
        None => b"",
    }
}

/// Appends a code, how often it was found, and a bar for its share of all findings.
#[tactic(auto, unfolding(crate::specs::Mending::found_head))]
fn push_found_head(out: &mut Vec<u8>, all: u64, found: CodeCount) -> Result<(), AllocError>
    ensures { OnOk result (out.new.items ≡ out.old.items ++ marks (found_head all found)) }
{
    push_piece(out, Piece::FoundCode)?;
    push_shown(out, found.code.text())?;
    push_piece(out, Piece::FoundCount)?;
    push_number(out, found.count)?;
    push_piece(out, Piece::FoundBar)?;
    push_number(out, all)?;
    push_piece(out, Piece::FoundBarLength)?;
    push_number(out, found.count)?;
    push_piece(out, Piece::FoundMeans)?;
    Ok(())
}

/// Appends a code that was found, of so many findings in all: what it means, what to do, and the
/// lines that have it.
#[tactic(auto, unfolding(crate::specs::Mending::found_code))]
fn push_found_code(
    alloc: Global,
    out: &mut Vec<u8>,
    all: u64,
    lines: &PageLines<'_>,
    found: CodeCount,
) -> Result<(), AllocError>
    ensures { OnOk result (out.new.items
        ≡ out.old.items ++ marks (found_code all (lines_seen lines.entry.now) found)) }
{
    let places = listed_places(alloc, lines, found.code)?;
    push_found_head(out, all, found)?;
    push_shown(out, means(found.code))?;
    push_piece(out, Piece::FoundRemedy)?;
    push_shown(out, remedy(found.code))?;
    push_places(out, lines.names, &places)?;
    Ok(())
}

fn push_found_codes(
    alloc: Global,
    out: &mut Vec<u8>,
    all: u64,
    lines: &PageLines<'_>,
    found: &[CodeCount],
) -> Result<(), AllocError>
    ensures { OnOk result (out.new.items
        ≡ out.old.items ++ marks (each (found_code all (lines_seen lines.entry.now)) found.now)) }
{
    for code in found {
        push_found_code(alloc, out, all, lines, *code)?;
    }
    Ok(())
}

fn is_urgent(urgency: Urgency, found: CodeCount) -> bool
    ensures { result ≡ is_urgent urgency found }
{
    how_soon(found.code) == urgency
}

/// Those of the found codes that are this urgent.
#[tactic(auto, unfolding(crate::specs::Mending::urgent))]
fn urgent(
    alloc: Global,
    urgency: Urgency,
    found: &[CodeCount],
) -> Result<Vec<CodeCount>, AllocError>
    ensures { IfOk result (λ chosen. chosen.items ≡ urgent urgency found.now) }
{
    found
        .iter()
        .copied()
        .filter(|code| is_urgent(urgency, *code))
        .collect(alloc)
}

fn group_piece(urgency: Urgency) -> Piece
    ensures { result ≡ group_piece urgency }
{
    match urgency {
        Urgency::Today => Piece::TodayGroup,
        Urgency::Soon => Piece::SoonGroup,
        Urgency::TidyUp => Piece::TidyGroup,
        Urgency::Policy => Piece::PolicyGroup,
    }
}

/// Appends the found codes that are this urgent, below their heading, if there are any.
#[tactic(auto, unfolding(crate::specs::Mending::group))]
fn push_group(
    alloc: Global,
    out: &mut Vec<u8>,
    urgency: Urgency,
    all: u64,
    lines: &PageLines<'_>,
    found: &[CodeCount],
) -> Result<(), AllocError>
    ensures { OnOk result (out.new.items
        ≡ out.old.items ++ marks (group urgency all (lines_seen lines.entry.now) found.now)) }
{
    let chosen = urgent(alloc, urgency, found)?;
    if chosen.is_empty() {
        return Ok(());
    }
    push_piece(out, group_piece(urgency))?;
    push_found_codes(alloc, out, all, lines, &chosen)?;
    push_piece(out, Piece::GroupEnd)?;
    Ok(())
}

fn is_found(found: &[CodeCount], code: Code) -> bool
    ensures { result ≡ is_found found.now code }
{
    found.iter().any(|other| other.code == code)
}

/// The codes that were looked for and not found.
#[tactic(auto, unfolding(crate::specs::Mending::absent))]
fn absent(
    alloc: Global,
    question: &PageQuestion<'_>,
    found: &[CodeCount],
) -> Result<Vec<Code>, AllocError>
    ensures { IfOk result (λ missing. missing.items
        ≡ absent (question_seen question.entry.now) found.now) }
{
    let looked = looked_for(alloc, question)?;
    looked
        .iter()
        .copied()
        .filter(|code| !is_found(found, *code))
        .collect(alloc)
}

/// Appends a code that was not found, and what it means.
#[tactic(auto, unfolding(crate::specs::Mending::absent_code))]
fn push_absent_code(out: &mut Vec<u8>, code: Code) -> Result<(), AllocError>
    ensures { OnOk result (out.new.items ≡ out.old.items ++ marks (absent_code code)) }
{
    push_piece(out, Piece::Item)?;
    push_shown(out, code.text())?;
    push_shown(out, b": ")?;
    push_shown(out, means(code))?;
    push_piece(out, Piece::ItemEnd)?;
    Ok(())
}

fn push_absent_codes(out: &mut Vec<u8>, codes: &[Code]) -> Result<(), AllocError>
    ensures { OnOk result (out.new.items ≡ out.old.items ++ marks (each absent_code codes.now)) }
{
    for code in codes {
        push_absent_code(out, *code)?;
    }
    Ok(())
}

/// Appends the codes that were looked for and not found, if there are any.
#[tactic(auto, unfolding(crate::specs::Mending::absent_part))]
fn push_absent(out: &mut Vec<u8>, codes: &[Code]) -> Result<(), AllocError>
    ensures { OnOk result (out.new.items ≡ out.old.items ++ marks (absent_part codes.now)) }
{
    if codes.is_empty() {
        return Ok(());
    }
    push_piece(out, Piece::Absent)?;
    push_absent_codes(out, codes)?;
    push_piece(out, Piece::ListEnd)?;
    Ok(())
}

/// Appends the codes that were not looked for, if there are any.
#[tactic(auto, unfolding(crate::specs::Mending::left_out_part))]
fn push_left_out(out: &mut Vec<u8>, codes: &[Code]) -> Result<(), AllocError>
    ensures { OnOk result (out.new.items ≡ out.old.items ++ marks (left_out_part codes.now)) }
{
    if codes.is_empty() {
        return Ok(());
    }
    push_piece(out, Piece::LeftOut)?;
    push_code_words(out, codes)?;
    push_shown(out, b". What each means: ssh_audit explain")?;
    push_code_words(out, codes)?;
    push_piece(out, Piece::ParagraphEnd)?;
    Ok(())
}

fn is_clean(totals: &PageTotals, found: &[CodeCount]) -> bool
    ensures { result ≡ is_clean totals.now found.now }
{
    totals.faults == 0 && found.is_empty()
}

/// Appends what has to be mended. `found` has each code that was found once, in ascending order, and
/// `lines` those of which the places are read.
#[tactic(auto, unfolding(crate::specs::Mending::mend))]
pub fn push_mend(
    alloc: Global,
    out: &mut Vec<u8>,
    question: &PageQuestion<'_>,
    totals: &PageTotals,
    found: &[CodeCount],
    lines: &PageLines<'_>,
) -> Result<(), AllocError>
    ensures { OnOk result (out.new.items ≡ out.old.items ++ marks (mend (question_seen question.entry.now)
        totals.now found.now (lines_seen lines.entry.now))) }
{
    let not_found = absent(alloc, question, found)?;
    let not_asked = left_out(alloc, question)?;
    push_piece(out, Piece::Mend)?;
    push_group(alloc, out, Urgency::Today, totals.findings, lines, found)?;
    push_group(alloc, out, Urgency::Soon, totals.findings, lines, found)?;
    push_group(alloc, out, Urgency::TidyUp, totals.findings, lines, found)?;
    push_group(alloc, out, Urgency::Policy, totals.findings, lines, found)?;
    push_if(out, is_clean(totals, found), Piece::NothingToMend)?;
    push_absent(out, &not_found)?;
    push_left_out(out, &not_asked)?;
    push_piece(out, Piece::MendEnd)?;
    Ok(())
}
