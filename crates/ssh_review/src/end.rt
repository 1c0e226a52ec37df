//! The counts of a review, and the end of a file and of the whole review, as text and as JSON.

ghost use Rattle.std.specs.Prelude.{◌≡◌, ◌++◌, OnOk};
ghost use Rattle.ssh_review.specs.Counting.{no_counts, plus_within};
ghost use Rattle.std.specs.List.{flat_map};
ghost use Rattle.ssh_findings.specs.Asking.{asking_of};
ghost use Rattle.ssh_review.specs.Asked.{asked_of};
ghost use Rattle.ssh_review.specs.Ends.{asked_by, count_text, counts_text, distinct_words, end_text, end_words, cause_words, fault_code, fault_text, fault_words, found_text, lines_text, total_text, total_words, why_text};
ghost use Rattle.ssh_review.specs.EndObjects.{code_element, counts_fields, end_head, end_object, fault_object, found_fields, line_fields, review_fields, total_counts, total_object, why_field};

use crate::asked::{AskedAt, push_asked_fields, push_asked_words, push_total_head};
use crate::fault_counts::{FaultCounts, push_faults_object};
use crate::fields::{
    push_array, push_null_field, push_number_field, push_number_or_null, push_text_field,
};
use crate::found::{push_found_lines, push_found_object};
use ssh_files::UnreadCause;
use ssh_findings::{Code, CodeCounts, ReviewOptions};
use ssh_page::FileKind;
use ssh_print::{push_hex, push_json_text, push_number};
use std::alloc::{AllocError, Global};

/// The output format of a review.
#[derive(Clone, Copy, Debug, PartialEq, Eq)]
pub enum Form {
    /// Lines of text for people.
    Text,
    /// JSON lines for programs: one object on each line.
    Json,
    /// A table for `grep`, `cut` and spreadsheets, of files of this format: one record on each line,
    /// in cells.
    Line(FileKind),
}

/// The counts of a file's lines.
#[derive(Clone, Copy, Debug, PartialEq, Eq)]
pub struct Counts {
    /// All lines, also blank ones and comments.
    pub lines: u64,
    /// Entries, also certificate authorities.
    pub keys: u64,
    /// Lines that cannot be read, unreadable revocations among them.
    pub unreadable: u64,
    /// Findings that are reported.
    pub findings: u64,
    /// How often each code is reported.
    pub by_code: CodeCounts,
}

impl Counts {
    pub const NONE: Counts = Counts {
        lines: 0,
        keys: 0,
        unreadable: 0,
        findings: 0,
        by_code: CodeCounts::NONE,
    };

    /// A line that is no key, can be read, and has no findings.
    pub(crate) const LINE_ALONE: Counts = Counts {
        lines: 1,
        keys: 0,
        unreadable: 0,
        findings: 0,
        by_code: CodeCounts::NONE,
    };

    /// The sums of both. A sum stops at 2^64 - 1, since a count that wraps around would be wrong.
    pub fn plus(self, other: Counts) -> Counts
        ensures { result ≡ plus_within self other }
    {
        Counts {
            lines: self.lines.saturating_add(other.lines),
            keys: self.keys.saturating_add(other.keys),
            unreadable: self.unreadable.saturating_add(other.unreadable),
            findings: self.findings.saturating_add(other.findings),
            by_code: self.by_code.plus(other.by_code),
        }
    }
}

/// Why a file is not reviewed.
#[derive(Clone, Copy, Debug, PartialEq, Eq)]
pub enum FileFault {
    /// A9: the file is missing, or cannot be read.
    Unread(UnreadCause),
    /// A7: it is longer than 67,108,864 bytes.
    TooLong,
}

/// The review of a file: its text and counts, or why it was not reviewed. Then the text is only the
/// file's end, and all counts are 0.
#[derive(Debug, Drop)]
pub struct Reviewed {
    pub text: Vec<u8>,
    pub counts: Counts,
    pub fault: Option<FileFault>,
}

/// The total of all files of a review.
#[derive(Clone, Copy, Debug, PartialEq, Eq)]
pub struct Total {
    pub files: u64,
    /// Files that were not reviewed.
    pub faults: u64,
    /// How many files had which fault.
    pub faults_by_code: FaultCounts,
    pub counts: Counts,
    /// How many different keys stand on the key lines of all files; `None` where that are more than
    /// 65,536.
    pub distinct_keys: Option<u64>,
}

fn push_count(out: &mut Vec<u8>, number: u64, what: &[u8]) -> Result<(), AllocError>
    ensures { OnOk result (out.new.items ≡ out.old.items ++ count_text number what.now) }
{
    push_number(out, number)?;
    out.extend_from_slice(what)?;
    Ok(())
}

fn push_lines_text(out: &mut Vec<u8>, counts: Counts) -> Result<(), AllocError>
    ensures { OnOk result (out.new.items ≡ out.old.items ++ lines_text counts) }
{
    push_count(out, counts.lines, b" lines, ")?;
    push_count(out, counts.keys, b" key lines, ")?;
    Ok(())
}

fn push_found_text(out: &mut Vec<u8>, counts: Counts) -> Result<(), AllocError>
    ensures { OnOk result (out.new.items ≡ out.old.items ++ found_text counts) }
{
    push_count(out, counts.unreadable, b" unreadable, ")?;
    push_count(out, counts.findings, b" findings")?;
    Ok(())
}

fn push_counts(out: &mut Vec<u8>, counts: Counts) -> Result<(), AllocError>
    ensures { OnOk result (out.new.items ≡ out.old.items ++ counts_text counts) }
{
    push_lines_text(out, counts)?;
    push_found_text(out, counts)?;
    Ok(())
}

/// Appends how many different keys stand on the key lines of all files.
fn push_distinct_words(out: &mut Vec<u8>, keys: Option<u64>) -> Result<(), AllocError>
    ensures { OnOk result (out.new.items ≡ out.old.items ++ distinct_words keys) }
{
    match keys {
        None => {
            out.extend_from_slice(b"more than 65536 distinct keys, ")?;
            Ok(())
        }
        Some(keys) => push_count(out, keys, b" distinct keys, "),
    }
}

/// Appends the counts of a file that was reviewed, and the SHA-256 of its bytes.
pub(crate) fn push_end_words(
    out: &mut Vec<u8>,
    counts: Counts,
    digest: &[u8],
) -> Result<(), AllocError>
    ensures { OnOk result (out.new.items ≡ out.old.items ++ end_words counts digest.now) }
{
    push_counts(out, counts)?;
    out.extend_from_slice(b", sha256 ")?;
    push_hex(out, digest)?;
    Ok(())
}

/// Appends the end of a file that was reviewed, as text.
pub(crate) fn push_end_text(
    out: &mut Vec<u8>,
    head: &[u8],
    counts: Counts,
    digest: &[u8],
) -> Result<(), AllocError>
    ensures { OnOk result
        (out.new.items ≡ out.old.items ++ end_text head.now counts digest.now) }
{
    out.extend_from_slice(head)?;
    out.extend_from_slice(b": ")?;
    push_end_words(out, counts, digest)?;
    out.push(b'\n')?;
    Ok(())
}

/// The code of a fault, as it is printed.
pub(crate) fn fault_code(fault: FileFault) -> &'static [u8]
    ensures { result.now ≡ fault_code fault }
{
    match fault {
        FileFault::Unread(_) => b"A9",
        FileFault::TooLong => b"A7",
    }
}

/// Why a file could not be read, in words.
pub(crate) fn cause_words(cause: UnreadCause) -> &'static [u8]
    ensures { result.now ≡ cause_words cause }
{
    match cause {
        UnreadCause::NotFound => b"not found",
        UnreadCause::PermissionDenied => b"no permission",
        UnreadCause::IsADirectory => b"a folder",
        UnreadCause::Other => b"not readable",
    }
}

/// Appends why a file could not be read, behind the code of its fault.
fn push_why_text(out: &mut Vec<u8>, fault: FileFault) -> Result<(), AllocError>
    ensures { OnOk result (out.new.items ≡ out.old.items ++ why_text fault) }
{
    if let FileFault::Unread(cause) = fault {
        out.extend_from_slice(b": ")?;
        out.extend_from_slice(cause_words(cause))?;
    }
    Ok(())
}

/// Appends the fault of a file in words.
pub(crate) fn push_fault_words(out: &mut Vec<u8>, fault: FileFault) -> Result<(), AllocError>
    ensures { OnOk result (out.new.items ≡ out.old.items ++ fault_words fault) }
{
    out.extend_from_slice(b"fault ")?;
    out.extend_from_slice(fault_code(fault))?;
    push_why_text(out, fault)?;
    Ok(())
}

/// Appends the end of a file with a fault, as text.
pub(crate) fn push_fault_text(
    out: &mut Vec<u8>,
    head: &[u8],
    fault: FileFault,
) -> Result<(), AllocError>
    ensures { OnOk result (out.new.items ≡ out.old.items ++ fault_text head.now fault) }
{
    out.extend_from_slice(head)?;
    out.extend_from_slice(b": ")?;
    push_fault_words(out, fault)?;
    out.push(b'\n')?;
    Ok(())
}

/// When a review was asked, in the time zone of this POSIX rule.
fn asked_by<'a>(zone: &'a [u8], asked: &ReviewOptions<'_>) -> AskedAt<'a>
    ensures { asked_of result ≡ asked_by zone.now (asking_of asked.entry.now) }
{
    AskedAt {
        now: asked.now,
        zone: Some(zone),
    }
}

/// Appends the total of all files in words, and when it was asked.
pub(crate) fn push_total_words(
    alloc: Global,
    out: &mut Vec<u8>,
    zone: &[u8],
    asked: &ReviewOptions<'_>,
    total: &Total,
) -> Result<(), AllocError>
    ensures { OnOk result (out.new.items
        ≡ out.old.items ++ total_words zone.now (asking_of asked.entry.now) total.now) }
{
    out.extend_from_slice(b"total: ")?;
    push_count(out, total.files, b" files, ")?;
    push_count(out, total.faults, b" faults, ")?;
    push_lines_text(out, total.counts)?;
    push_distinct_words(out, total.distinct_keys)?;
    push_found_text(out, total.counts)?;
    out.extend_from_slice(b", ")?;
    push_asked_words(alloc, out, &asked_by(zone, asked))?;
    Ok(())
}

/// Appends the total of all files, as text: how often each code was found, and the line of the
/// total.
pub(crate) fn push_total_text(
    alloc: Global,
    out: &mut Vec<u8>,
    zone: &[u8],
    asked: &ReviewOptions<'_>,
    total: &Total,
) -> Result<(), AllocError>
    ensures { OnOk result (out.new.items
        ≡ out.old.items ++ total_text zone.now (asking_of asked.entry.now) total.now) }
{
    push_found_lines(out, total.counts.by_code)?;
    push_total_words(alloc, out, zone, asked, total)?;
    out.push(b'\n')?;
    Ok(())
}

/// Appends the first fields of a file's end: the file's name, and that it is an end.
#[tactic(auto, unfolding(crate::specs::EndObjects::end_head))]
fn push_end_head(out: &mut Vec<u8>, head: &[u8]) -> Result<(), AllocError>
    ensures { OnOk result (out.new.items ≡ out.old.items ++ end_head head.now) }
{
    out.extend_from_slice(head)?;
    push_text_field(out, b"what", b"end")?;
    Ok(())
}

#[tactic(auto, unfolding(crate::specs::EndObjects::line_fields))]
fn push_line_fields(out: &mut Vec<u8>, counts: Counts) -> Result<(), AllocError>
    ensures { OnOk result (out.new.items ≡ out.old.items ++ line_fields counts) }
{
    push_number_field(out, b"lines", counts.lines)?;
    push_number_field(out, b"key_lines", counts.keys)?;
    Ok(())
}

#[tactic(auto, unfolding(crate::specs::EndObjects::found_fields))]
fn push_found_fields(out: &mut Vec<u8>, counts: Counts) -> Result<(), AllocError>
    ensures { OnOk result (out.new.items ≡ out.old.items ++ found_fields counts) }
{
    push_number_field(out, b"unreadable", counts.unreadable)?;
    push_number_field(out, b"findings", counts.findings)?;
    Ok(())
}

#[tactic(auto, unfolding(crate::specs::EndObjects::counts_fields))]
fn push_counts_fields(out: &mut Vec<u8>, counts: Counts) -> Result<(), AllocError>
    ensures { OnOk result (out.new.items ≡ out.old.items ++ counts_fields counts) }
{
    push_line_fields(out, counts)?;
    push_found_fields(out, counts)?;
    Ok(())
}

/// Appends the end of a file that was reviewed, as a JSON object.
#[tactic(auto, unfolding(crate::specs::EndObjects::end_object))]
pub(crate) fn push_end_object(
    alloc: Global,
    out: &mut Vec<u8>,
    head: &[u8],
    counts: Counts,
    digest: &[u8],
) -> Result<(), AllocError>
    ensures { OnOk result
        (out.new.items ≡ out.old.items ++ end_object head.now counts digest.now) }
{
    let mut hex = Vec::new(alloc);
    push_hex(&mut hex, digest)?;
    push_end_head(out, head)?;
    push_counts_fields(out, counts)?;
    push_text_field(out, b"sha256", &hex)?;
    push_null_field(out, b"fault")?;
    push_null_field(out, b"why")?;
    out.extend_from_slice(b"}\n")?;
    Ok(())
}

/// Appends the field that says why a file could not be read; `null` for another fault.
#[tactic(auto, unfolding(crate::specs::EndObjects::why_field))]
fn push_why_field(out: &mut Vec<u8>, fault: FileFault) -> Result<(), AllocError>
    ensures { OnOk result (out.new.items ≡ out.old.items ++ why_field fault) }
{
    match fault {
        FileFault::Unread(cause) => push_text_field(out, b"why", cause_words(cause)),
        FileFault::TooLong => push_null_field(out, b"why"),
    }
}

/// Appends the end of a file with a fault, as a JSON object. Its counts are 0 and its `sha256` is
/// `null`.
#[tactic(auto, unfolding(crate::specs::EndObjects::fault_object))]
pub(crate) fn push_fault_object(
    out: &mut Vec<u8>,
    head: &[u8],
    fault: FileFault,
) -> Result<(), AllocError>
    ensures { OnOk result (out.new.items ≡ out.old.items ++ fault_object head.now fault) }
{
    push_end_head(out, head)?;
    push_counts_fields(out, Counts::NONE)?;
    push_null_field(out, b"sha256")?;
    push_text_field(out, b"fault", fault_code(fault))?;
    push_why_field(out, fault)?;
    out.extend_from_slice(b"}\n")?;
    Ok(())
}

fn push_code_element(out: &mut Vec<u8>, code: Code) -> Result<(), AllocError>
    ensures { OnOk result (out.new.items ≡ out.old.items ++ code_element code) }
{
    out.push(b',')?;
    push_json_text(out, code.text())?;
    Ok(())
}

fn push_code_elements(out: &mut Vec<u8>, reported: &[Code]) -> Result<(), AllocError>
    ensures { OnOk result (out.new.items ≡ out.old.items ++ flat_map code_element reported.now) }
{
    for code in reported {
        push_code_element(out, *code)?;
    }
    Ok(())
}

/// Appends what was asked of the files.
#[tactic(auto, unfolding(crate::specs::EndObjects::review_fields))]
fn push_review_fields(
    alloc: Global,
    out: &mut Vec<u8>,
    kind: &[u8],
    asked: &ReviewOptions<'_>,
) -> Result<(), AllocError>
    ensures { OnOk result (out.new.items
        ≡ out.old.items ++ review_fields kind.now (asking_of asked.entry.now)) }
{
    let mut reported = Vec::new(alloc);
    push_code_elements(&mut reported, asked.reported)?;
    push_text_field(out, b"kind", kind)?;
    push_number_field(out, b"rsa_minimum", asked.rsa_minimum as u64)?;
    push_array(out, b"told", &reported)?;
    Ok(())
}

#[tactic(auto, unfolding(crate::specs::EndObjects::total_counts))]
fn push_total_counts(alloc: Global, out: &mut Vec<u8>, total: &Total) -> Result<(), AllocError>
    ensures { OnOk result (out.new.items ≡ out.old.items ++ total_counts total.now) }
{
    push_number_field(out, b"files", total.files)?;
    push_number_field(out, b"faults", total.faults)?;
    push_faults_object(alloc, out, total.faults_by_code)?;
    push_line_fields(out, total.counts)?;
    push_number_or_null(out, b"distinct_keys", total.distinct_keys)?;
    push_found_fields(out, total.counts)?;
    push_found_object(alloc, out, total.counts.by_code)?;
    Ok(())
}

/// Appends the total of all files, as a JSON object.
#[tactic(auto, unfolding(crate::specs::EndObjects::total_object))]
pub(crate) fn push_total_object(
    alloc: Global,
    out: &mut Vec<u8>,
    kind: &[u8],
    zone: &[u8],
    asked: &ReviewOptions<'_>,
    total: &Total,
) -> Result<(), AllocError>
    ensures { OnOk result (out.new.items ≡ out.old.items
        ++ total_object kind.now zone.now (asking_of asked.entry.now) total.now) }
{
    push_total_head(out)?;
    push_review_fields(alloc, out, kind, asked)?;
    push_asked_fields(alloc, out, &asked_by(zone, asked))?;
    push_total_counts(alloc, out, total)?;
    out.extend_from_slice(b"}\n")?;
    Ok(())
}
