//! Texts that are written while the files are read, each as it is made, and the line of their total
//! behind them.

ghost use Rattle.std.specs.Prelude.{◌≡◌, ◌++◌, List, ℕ, OnOk};
ghost use Rattle.sha2.specs.Sha256.{sha256};
ghost use Rattle.ssh_findings.specs.Asking.{asking_of};
ghost use Rattle.ssh_review.specs.declared.key_review.KeyCounts.{KeyCounts as KeyCountsValue};
ghost use Rattle.ssh_review.specs.Forms.{end_line, total_line};
ghost use Rattle.ssh_review.specs.declared.records.RecordForm.TheVariants.{AsLines};
ghost use Rattle.ssh_review.specs.Making.{HasLeft, keys_left};
ghost use Rattle.ssh_review.specs.Reviews.{fault_review};
ghost use Rattle.ssh_review.specs.ShownRecords.{shown_end};
ghost use Rattle.ssh_program.specs.declared.streaming.Stop.TheVariants.{Memory, Write};
ghost use Rattle.ssh_program.specs.Account.{NoneFailed};
ghost use Rattle.ssh_program.specs.FileReviews.{BeforePut, FailedIfStopped, TextPut, UnreadPut, review_kept, kind_name};
ghost use Rattle.ssh_program.specs.Printing.{WritesAnswer};

use crate::pieces::put_lines;
use crate::printing::{put_no_memory, put_whole};
use crate::review::{ReviewKind, kind_name};
use crate::sink::Sink;
use sha2::{Digest, Sha256};
use ssh_entries::KeyBuffer;
use ssh_files::{ReadError, UnreadCause};
use ssh_findings::ReviewOptions;
use ssh_review::{
    Counts, DistinctKeys, FileFault, Form, LineRecords, RecordForm, Records, Show, Total,
    first_lines, push_end, review_fault, total_line,
};
use std::alloc::{AllocError, Global};
use std::io::Error;

/// Why the texts of files end before their total.
#[derive(Clone, Copy, Debug, PartialEq, Eq)]
pub enum Stop {
    /// Memory could not be allocated.
    Memory,
    /// A write failed.
    Write,
}

impl From<AllocError> for Stop {
    ghost from_gives = { λ x stop. stop ≡ Memory };

    fn from(_: AllocError) -> Stop {
        Stop::Memory
    }
}

impl From<Error> for Stop {
    ghost from_gives = { λ x stop. stop ≡ Write };

    fn from(_: Error) -> Stop {
        Stop::Write
    }
}

/// What is kept of the review of a file, whose text is written: its counts, whether the key that is
/// wanted stands in it, if one is, and why there is no review.
#[derive(Clone, Copy, Debug)]
pub struct FileReported {
    pub counts: Counts,
    pub stands: bool,
    pub fault: Option<FileFault>,
}

/// Writes what stands before the first file: the header of a table.
pub(crate) fn put_first_lines<W: Sink>(form: Form, writer: &mut W) -> Result<(), Stop>
    requires { NoneFailed (W.account writer.old) }
    ensures failed { FailedIfStopped result (W.account writer.new) }
    ensures put { BeforePut form (W.account writer.old) (W.account writer.new) result }
{
    put_lines(writer, first_lines(form))?;
    Ok(())
}

/// Appends the end of a file that was reviewed, if ends are shown.
fn push_shown_end(
    alloc: Global,
    show: Show,
    form: Form,
    out: &mut Vec<u8>,
    head: &[u8],
    counts: Counts,
    file: &[u8],
) -> Result<(), AllocError>
    ensures { OnOk result (out.new.items ≡ out.old.items
        ++ shown_end show (end_line form head.now counts (sha256 file.now))) }
{
    if show.shows_end() {
        let digest = Sha256::digest(file);
        push_end(alloc, form, out, head, counts, &digest)?;
    }
    Ok(())
}

/// The room for records that is taken at once: the text of a small file fits, and is not moved while it grows.
const ROOM: usize = 4096;

/// Writes the review of a file: its records, as they are made, and its end, where they are shown.
/// Notes the keys of its lines. Where memory is refused, what was written are whole records, and the end is missing.
pub(crate) fn put_review<L: LineRecords + Drop, W: Sink>(
    alloc: Global,
    show: Show,
    form: Form,
    asked: &ReviewOptions<'_>,
    head: &[u8],
    file: &[u8],
    begun: Records<'_, L>,
    buffer: &mut KeyBuffer,
    keys: &mut DistinctKeys,
    writer: &mut W,
) -> Result<FileReported, Stop>
    requires { NoneFailed (W.account writer.old) }
    ensures failed { FailedIfStopped result (W.account writer.new) }
    ensures noted { OnOk result (keys.new ≡ keys_left L.keys_on begun.entry keys.old) }
    ensures put { (text : List ℕ) (all : KeyCountsValue)
        → HasLeft L.tells show (AsLines form) (asking_of asked.entry.now) head.now file.now text all begun.entry
        → TextPut (text ++ shown_end show (end_line form head.now all.counts (sha256 file.now)))
        (record { counts = all.counts; stands = all.stands; fault = None })
        (W.account writer.old) (W.account writer.new) result }
{
    let mut records = begun;
    let mut out = Vec::with_capacity(alloc, ROOM)?;
    while records.push_some(
        alloc,
        show,
        RecordForm::AsLines(form),
        asked,
        head,
        buffer,
        keys,
        &mut out,
    )? {
        put_lines(writer, &out)?;
        out.clear();
    }
    let reported = records.reported();
    push_shown_end(alloc, show, form, &mut out, head, reported.counts, file)?;
    put_lines(writer, &out)?;
    Ok(FileReported {
        counts: reported.counts,
        stands: reported.stands,
        fault: None,
    })
}

/// Writes the end of a file with a fault.
fn put_fault_end<W: Sink>(
    alloc: Global,
    form: Form,
    head: &[u8],
    fault: FileFault,
    writer: &mut W,
) -> Result<FileReported, Stop>
    requires { NoneFailed (W.account writer.old) }
    ensures failed { FailedIfStopped result (W.account writer.new) }
    ensures put { TextPut (fault_review form head.now fault).text
        (review_kept (fault_review form head.now fault)) (W.account writer.old) (W.account writer.new)
        result }
{
    let reviewed = review_fault(alloc, form, head, fault)?;
    put_lines(writer, &reviewed.text)?;
    Ok(FileReported {
        counts: Counts::NONE,
        stands: false,
        fault: Some(fault),
    })
}

/// Writes the end of a file whose bytes could not be had, and why the system did not give them.
pub(crate) fn put_unread<W: Sink>(
    alloc: Global,
    form: Form,
    head: &[u8],
    fault: ReadError,
    cause: UnreadCause,
    writer: &mut W,
) -> Result<FileReported, Stop>
    requires { NoneFailed (W.account writer.old) }
    ensures failed { FailedIfStopped result (W.account writer.new) }
    ensures put { UnreadPut form head.now fault cause (W.account writer.old) (W.account writer.new) result }
{
    match fault {
        ReadError::Memory => Err(Stop::Memory),
        ReadError::TooLong => put_fault_end(alloc, form, head, FileFault::TooLong, writer),
        _ => put_fault_end(alloc, form, head, FileFault::Unread(cause), writer),
    }
}

/// Writes the line of the total, and returns the status.
pub(crate) fn put_total<W: Sink>(
    alloc: Global,
    kind: ReviewKind,
    form: Form,
    rule: &[u8],
    asked: &ReviewOptions<'_>,
    total: &Total,
    status: u8,
    writer: &mut W,
) -> u8
    requires { NoneFailed (W.account writer.old) }
    ensures { WritesAnswer (λ r. r ≡ record {
      status = status;
      text = total_line form (kind_name kind) rule.now (asking_of asked.entry.now) total.now;
    }) (W.account writer.old) (W.account writer.new) result }
{
    match total_line(alloc, form, kind_name(kind), rule, asked, total) {
        Ok(line) => put_whole(writer, &line, status),
        Err(AllocError) => put_no_memory(writer),
    }
}
