//! What stands before the sections of a page: its header, what has to be mended, and where each key
//! stands, by the total of all files and by their sections.

ghost use Rattle.std.specs.Prelude.{◌≡◌, ◌++◌, IfOk, OnOk};
ghost use Rattle.ssh_findings.specs.Asking.{asking_of};
ghost use Rattle.ssh_page.specs.Documents.{marks};
ghost use Rattle.ssh_page.specs.Pages.{header};
ghost use Rattle.ssh_page.specs.Places.{lines_seen};
ghost use Rattle.ssh_page.specs.Questions.{question_seen};
ghost use Rattle.ssh_program.specs.PageFronts.{count_of, found_among, front_of, is_counted, page_front, page_question, page_totals, today_of, with_today};

use ssh_findings::{Code, CodeCounts, ReviewOptions, Urgency, how_soon};
use ssh_page::{
    CodeCount, FileKind, PageLines, PageQuestion, PageTotals, push_asked, push_keys,
    push_lines_start, push_mend, push_page_start, push_tiles, push_verdict,
};
use ssh_review::Total;
use std::alloc::{AllocError, Global};

/// What was asked, with the time zone by its rule.
fn page_question<'a>(
    kind: FileKind,
    rule: &'a [u8],
    asked: &'a ReviewOptions<'_>,
) -> PageQuestion<'a>
    ensures { question_seen result ≡ page_question kind rule.now (asking_of asked.entry.now) }
{
    PageQuestion {
        kind,
        now: asked.now,
        zone: rule,
        rsa_minimum: asked.rsa_minimum,
        reported: asked.reported,
    }
}

fn count_of(counts: CodeCounts, code: Code) -> CodeCount
    ensures { result ≡ count_of counts code }
{
    CodeCount {
        code,
        count: counts.get(code),
    }
}

fn is_counted(found: CodeCount) -> bool
    ensures { result ≡ is_counted found }
{
    found.count > 0
}

/// Those of these codes that were found, and how often.
fn found_among(
    alloc: Global,
    counts: CodeCounts,
    listed: &[Code],
) -> Result<Vec<CodeCount>, AllocError>
    ensures { IfOk result (λ found. found.items ≡ found_among counts listed.now) }
{
    listed
        .iter()
        .map(|code| count_of(counts, *code))
        .filter(|found| is_counted(*found))
        .collect(alloc)
}

/// So many and the findings of this code, if what it tells is to be mended today.
fn with_today(today: u64, found: CodeCount) -> u64
    ensures { result ≡ with_today today found }
{
    if how_soon(found.code) == Urgency::Today {
        today.saturating_add(found.count)
    } else {
        today
    }
}

/// The findings that are to be mended today.
fn today_of(found: &[CodeCount]) -> u64
    ensures { result ≡ today_of found.now }
{
    let mut today = 0;
    for code in found {
        today = with_today(today, *code);
    }
    today
}

fn page_totals(total: &Total, found: &[CodeCount]) -> PageTotals
    ensures { result ≡ page_totals total.now found.now }
{
    PageTotals {
        files: total.files,
        faults: total.faults,
        lines: total.counts.lines,
        keys: total.counts.keys,
        unreadable: total.counts.unreadable,
        findings: total.counts.findings,
        today: today_of(found),
    }
}

/// Appends the header.
fn push_header(
    alloc: Global,
    out: &mut Vec<u8>,
    question: &PageQuestion<'_>,
    totals: &PageTotals,
) -> Result<(), AllocError>
    ensures { OnOk result (out.new.items
        ≡ out.old.items ++ marks (header (question_seen question.entry.now) totals.now)) }
{
    push_verdict(alloc, out, question, totals)?;
    push_tiles(out, totals)?;
    push_asked(alloc, out, question)?;
    Ok(())
}

/// The title, the header, what has to be mended, and where each key stands. It is made in the memory of
/// `spare`.
fn page_front(
    alloc: Global,
    title: &str,
    question: &PageQuestion<'_>,
    totals: &PageTotals,
    found: &[CodeCount],
    lines: &PageLines<'_>,
    spare: Vec<u8>,
) -> Result<Vec<u8>, AllocError>
    ensures { IfOk result (λ front. front.items ≡ page_front title.now (question_seen question.entry.now)
        totals.now found.now (lines_seen lines.entry.now)) }
{
    let mut front = spare;
    front.clear();
    push_page_start(&mut front, title.as_bytes())?;
    push_header(alloc, &mut front, question, totals)?;
    push_mend(alloc, &mut front, question, totals, found, lines)?;
    push_keys(alloc, &mut front, lines)?;
    push_lines_start(&mut front, found)?;
    Ok(front)
}

/// The marked text before the first section, where these are the lines and the total of all files. It
/// is made in the memory of `spare`, whatever is in it.
#[tactic(auto, unfolding(crate::specs::PageFronts::codes_found))]
pub fn front_of(
    alloc: Global,
    title: &str,
    kind: FileKind,
    rule: &[u8],
    asked: &ReviewOptions<'_>,
    lines: &PageLines<'_>,
    total: &Total,
    spare: Vec<u8>,
) -> Result<Vec<u8>, AllocError>
    ensures { IfOk result (λ front. front.items ≡ front_of title.now kind rule.now
        (asking_of asked.entry.now) (lines_seen lines.entry.now) total.now) }
{
    let found = found_among(alloc, total.counts.by_code, &Code::ALL)?;
    let totals = page_totals(total, &found);
    let question = page_question(kind, rule, asked);
    let front = page_front(alloc, title, &question, &totals, &found, lines, spare)?;
    Ok(front)
}
