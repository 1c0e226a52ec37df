//! The header of the page: what the review says, in a sentence and in numbers, and what it was
//! asked.

ghost use Rattle.std.specs.Prelude.{◌≡◌, ◌++◌, OnOk, codes, pos};
ghost use Rattle.std.specs.Fmt.{decimal};
ghost use Rattle.std.specs.List.{flat_map};
ghost use Rattle.ssh_page.specs.Documents.{each, marks};
ghost use Rattle.ssh_page.specs.Headers.{asked, code_list, code_word, found_part, how_many, kind_words, looked_for_part, term, tile, tiles, verdict, verdict_piece};
ghost use Rattle.ssh_page.specs.Questions.{looked_for, question_seen};
ghost use Rattle.ssh_print.specs.Dates.{moment_text};

use crate::file::FileKind;
use crate::marks::push_piece;
use crate::piece::Piece;
use crate::question::{PageQuestion, looked_for};
use ssh_findings::Code;
use ssh_print::{push_moment, push_number, push_shown, sentence};
use std::alloc::{AllocError, Global};

/// The numbers of a review.
#[derive(Clone, Copy, Debug)]
pub struct PageTotals {
    /// All files, also those that could not be reviewed.
    pub files: u64,
    /// Those that could not be reviewed.
    pub faults: u64,
    pub lines: u64,
    /// Entries, also certificate authorities.
    pub keys: u64,
    pub unreadable: u64,
    pub findings: u64,
    /// Findings that are to be mended today.
    pub today: u64,
}

/// Appends how many there are, with the words for one or for more, if there is any.
#[tactic(auto, unfolding(crate::specs::Headers::how_many))]
pub(crate) fn push_how_many(
    out: &mut Vec<u8>,
    number: u64,
    one: &[u8],
    more: &[u8],
) -> Result<(), AllocError>
    ensures { OnOk result (out.new.items
        ≡ out.old.items ++ marks (how_many number one.now more.now)) }
{
    if number == 0 {
        return Ok(());
    }
    push_number(out, number)?;
    if number == 1 {
        push_shown(out, one)
    } else {
        push_shown(out, more)
    }
}

fn verdict_piece(totals: &PageTotals) -> Piece
    ensures { result ≡ verdict_piece totals.now }
{
    if totals.faults == 0 && totals.findings == 0 {
        Piece::VerdictGood
    } else {
        Piece::VerdictBad
    }
}

/// Appends how many findings there are, or that there are none of these codes.
#[tactic(auto, unfolding(crate::specs::Headers::found_part))]
fn push_found(out: &mut Vec<u8>, looked_for: &[Code], findings: u64) -> Result<(), AllocError>
    ensures { OnOk result (out.new.items
        ≡ out.old.items ++ marks (found_part looked_for.now findings)) }
{
    if findings != 0 {
        push_how_many(out, findings, b" finding in all.", b" findings in all.")
    } else if looked_for.is_empty() {
        push_shown(out, b"No finding was asked for.")
    } else {
        push_shown(out, b"Nothing that was looked for was found.")
    }
}

/// Appends what the review says: what was not read, what has to be mended today, and how much was
/// found.
#[tactic(auto, unfolding(crate::specs::Headers::verdict))]
pub fn push_verdict(
    alloc: Global,
    out: &mut Vec<u8>,
    question: &PageQuestion<'_>,
    totals: &PageTotals,
) -> Result<(), AllocError>
    ensures { OnOk result (out.new.items
        ≡ out.old.items ++ marks (verdict (question_seen question.entry.now) totals.now)) }
{
    let looked = looked_for(alloc, question)?;
    push_piece(out, verdict_piece(totals))?;
    push_how_many(
        out,
        totals.faults,
        b" file could not be read: this review is not whole. ",
        b" files could not be read: this review is not whole. ",
    )?;
    push_how_many(
        out,
        totals.today,
        b" finding has to be mended today. ",
        b" findings have to be mended today. ",
    )?;
    push_found(out, &looked, totals.findings)?;
    push_piece(out, Piece::ParagraphEnd)?;
    Ok(())
}

/// Appends a number and what it counts.
#[tactic(auto, unfolding(crate::specs::Headers::tile))]
fn push_tile(out: &mut Vec<u8>, number: u64, words: &[u8]) -> Result<(), AllocError>
    ensures { OnOk result (out.new.items ≡ out.old.items ++ marks (tile number words.now)) }
{
    push_piece(out, Piece::Tile)?;
    push_number(out, number)?;
    push_piece(out, Piece::TileWords)?;
    push_shown(out, words)?;
    push_piece(out, Piece::ItemEnd)?;
    Ok(())
}

/// Appends the numbers of the review.
#[tactic(auto, unfolding(crate::specs::Headers::tiles))]
pub fn push_tiles(out: &mut Vec<u8>, totals: &PageTotals) -> Result<(), AllocError>
    ensures { OnOk result (out.new.items ≡ out.old.items ++ marks (tiles totals.now)) }
{
    push_piece(out, Piece::Tiles)?;
    push_tile(out, totals.files, b"files")?;
    push_tile(out, totals.faults, b"not read")?;
    push_tile(out, totals.lines, b"lines")?;
    push_tile(out, totals.keys, b"key lines")?;
    push_tile(out, totals.unreadable, b"unreadable lines")?;
    push_tile(out, totals.findings, b"findings")?;
    push_tile(out, totals.today, b"to be mended today")?;
    push_piece(out, Piece::ListEnd)?;
    Ok(())
}

/// Appends a term of the question, and what it was.
#[tactic(auto, unfolding(crate::specs::Headers::term))]
fn push_term(out: &mut Vec<u8>, word: &[u8], text: &[u8]) -> Result<(), AllocError>
    ensures { OnOk result (out.new.items ≡ out.old.items ++ marks (term word.now text.now)) }
{
    push_piece(out, Piece::Term)?;
    push_shown(out, word)?;
    push_piece(out, Piece::TermSays)?;
    push_shown(out, text)?;
    push_piece(out, Piece::TermEnd)?;
    Ok(())
}

fn kind_words(kind: FileKind) -> &'static [u8]
    ensures { result.now ≡ kind_words kind }
{
    match kind {
        FileKind::AuthorizedKeys => b"authorized_keys: who is let in",
        FileKind::KnownHosts => b"known_hosts: which hosts are trusted",
    }
}

/// Appends a code after a space.
#[tactic(auto, unfolding(crate::specs::Headers::code_word))]
fn push_code_word(out: &mut Vec<u8>, code: Code) -> Result<(), AllocError>
    ensures { OnOk result (out.new.items ≡ out.old.items ++ marks (code_word code)) }
{
    push_shown(out, b" ")?;
    push_shown(out, code.text())
}

/// Appends codes, each after a space.
pub(crate) fn push_code_words(out: &mut Vec<u8>, listed: &[Code]) -> Result<(), AllocError>
    ensures { OnOk result (out.new.items ≡ out.old.items ++ marks (each code_word listed.now)) }
{
    for code in listed {
        push_code_word(out, *code)?;
    }
    Ok(())
}

#[tactic(auto, unfolding(crate::specs::Headers::code_list))]
fn push_code_list(out: &mut Vec<u8>, looked_for: &[Code]) -> Result<(), AllocError>
    ensures { OnOk result (out.new.items ≡ out.old.items ++ marks (code_list looked_for.now)) }
{
    if looked_for.is_empty() {
        push_shown(out, b"nothing")
    } else {
        push_code_words(out, looked_for)
    }
}

/// Appends the codes that were looked for, as a term.
#[tactic(auto, unfolding(crate::specs::Headers::looked_for_part))]
fn push_looked_for(
    alloc: Global,
    out: &mut Vec<u8>,
    question: &PageQuestion<'_>,
) -> Result<(), AllocError>
    ensures { OnOk result (out.new.items
        ≡ out.old.items ++ marks (looked_for_part (looked_for (question_seen question.entry.now)))) }
{
    let looked = looked_for(alloc, question)?;
    push_piece(out, Piece::Term)?;
    push_shown(out, b"Looked for")?;
    push_piece(out, Piece::TermSays)?;
    push_code_list(out, &looked)?;
    push_piece(out, Piece::TermEnd)?;
    Ok(())
}

/// Appends the time of the review, as a term.
fn push_time(alloc: Global, out: &mut Vec<u8>, now: u64) -> Result<(), AllocError>
    ensures { OnOk result (out.new.items
        ≡ out.old.items ++ marks (term (codes "Time of the review") (moment_text (pos now)))) }
{
    let mut time = Vec::new(alloc);
    push_moment(alloc, &mut time, now)?;
    push_term(out, b"Time of the review", &time)
}

/// Appends the minimum size of an RSA key, as a term.
fn push_minimum(alloc: Global, out: &mut Vec<u8>, rsa_minimum: u32) -> Result<(), AllocError>
    ensures { OnOk result (out.new.items
        ≡ out.old.items ++ marks (term (codes "RSA keys need") (decimal rsa_minimum ++ codes " bits"))) }
{
    let mut size = Vec::new(alloc);
    push_number(&mut size, rsa_minimum as u64)?;
    size.extend_from_slice(b" bits")?;
    push_term(out, b"RSA keys need", &size)
}

/// Appends what was asked and which program answers, and the end of the header.
#[tactic(auto, unfolding(crate::specs::Headers::asked))]
pub fn push_asked(
    alloc: Global,
    out: &mut Vec<u8>,
    question: &PageQuestion<'_>,
) -> Result<(), AllocError>
    ensures { OnOk result (out.new.items
        ≡ out.old.items ++ marks (asked (question_seen question.entry.now))) }
{
    push_piece(out, Piece::Asked)?;
    push_term(out, b"Files", kind_words(question.kind))?;
    push_time(alloc, out, question.now)?;
    push_term(out, b"Zone of expiry times without one", question.zone)?;
    push_minimum(alloc, out, question.rsa_minimum)?;
    push_looked_for(alloc, out, question)?;
    push_term(out, b"Written by", sentence("version").as_bytes())?;
    push_piece(out, Piece::HeaderEnd)?;
    Ok(())
}
