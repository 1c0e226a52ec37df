//! The review of a `known_hosts` file: a record for each entry, revocation and unreadable line, and
//! the end of the file.

ghost use Rattle.std.specs.Prelude.{◌≡◌, ◌+◌, ◌++◌, [], ◌≤◌, ℕ, List, IfOk, OnOk, length};
ghost use Rattle.ssh_entries.specs.declared.known_line.KnownLine.{KnownLine};
ghost use Rattle.ssh_entries.specs.KnownSeen.{known_seen};
ghost use Rattle.ssh_text.specs.Text.{file_limit, lines_of, numbered};
ghost use Rattle.ssh_findings.specs.Asking.{Asking, asking_of};
ghost use Rattle.ssh_findings.specs.HostFacts.{host_facts_of};
ghost use Rattle.ssh_findings.specs.HostLines.{HostLine};
ghost use Rattle.ssh_findings.specs.HostFindingsMemory.{host_bytes_kept, kept_sum};
ghost use Rattle.ssh_findings.specs.StandsFor.{RemembersLines};
ghost use Rattle.ssh_review.specs.declared.records.RecordForm.{RecordForm as RecordFormValue};
ghost use Rattle.ssh_review.specs.declared.show.Show.{Show as ShowValue};
ghost use Rattle.ssh_review.specs.HostCounting.{bare_counts};
ghost use Rattle.ssh_review.specs.HostForms.{bare_record};
ghost use Rattle.ssh_page.specs.Documents.{marks};
ghost use Rattle.ssh_page.specs.HostRecords.{revoked_row};
ghost use Rattle.ssh_review.specs.HostRecords.{print_of};
ghost use Rattle.ssh_review.specs.HostLines.{host_counts_of, host_kept_of, host_line_counts, host_line_findings, host_line_record};
ghost use Rattle.ssh_review.specs.HostMemory.{host_line_bytes, host_line_sum};
ghost use Rattle.ssh_review.specs.Making.{HasLeft, KnownTells, lines_left};
ghost use Rattle.ssh_page.specs.declared.file.FileKind.TheVariants.{KnownHosts};
ghost use Rattle.ssh_review.specs.DistinctKeys.{known_line_keys, line_keys, with_keys};
ghost use Rattle.ssh_review.specs.Reviews.{review};
ghost use Rattle.ssh_review.specs.HostReviews.{known_review};
ghost use Rattle.ssh_review.specs.ShownRecords.{shown_records};
ghost use Rattle.ssh_review.specs.LineReports.{host_line_reports_of, of_all};

use crate::auth_review::review_fault;
use crate::distinct_keys::DistinctKeys;
use crate::end::{Counts, FileFault, Form, Reviewed};
use crate::fields::print_of;
use crate::host_json_record::{push_bare_in, push_entry_in, push_revoked_in};
use crate::host_record::{push_bare_text, push_entry_text, push_revoked_text};
use crate::json_record::{LineRef, row_place};
use crate::key_review::KeyCounts;
use crate::record_field::FieldForm;
use crate::records::{LineRecords, RecordForm, Records, whole_review};
use ssh_entries::{KeyBuffer, KnownEntryView, KnownLineView, read_known_view};
use ssh_findings::{
    CodeCounts, EarlierHosts, HeldKey, HostFacts, HostFinding, ReviewOptions, RevocationFacts,
    host_entry_findings, known_held_key, revocation_findings, unreadable_host_findings,
    unreadable_revocation_findings,
};
use ssh_options::LineCause;
use ssh_page::{RowPlace, push_bare_row, push_host_entry_row, push_revoked_row};
use ssh_text::FILE_LIMIT;
use std::alloc::{AllocError, Global};

/// Notes the key of the entry on a line with these facts.
#[tactic(auto, unfolding(ssh_findings::specs::HostFacts::host_facts_of))]
fn note_entry(
    line: &[u8],
    entry: &KnownEntryView<'_>,
    facts: &HostFacts,
    keys: &mut DistinctKeys,
) -> Result<(), AllocError>
    requires { facts.now ≡ host_facts_of line.now entry.now }
    ensures { OnOk result
        (keys.new ≡ with_keys keys.old (known_line_keys (KnownLine.Entry entry.now))) }
{
    keys.note(facts.fingerprint)
}

/// Appends the record of an entry, and stores what later lines need of the entry.
pub(crate) fn push_entry_line(
    alloc: Global,
    form: RecordForm,
    asked: &ReviewOptions<'_>,
    place: &LineRef<'_>,
    line: &[u8],
    entry: &KnownEntryView<'_>,
    earlier: &mut EarlierHosts,
    keys: &mut DistinctKeys,
    out: &mut Vec<u8>,
) -> Result<Counts, AllocError>
    ensures text { OnOk result ((lines : List HostLine) → RemembersLines earlier.old lines
        → out.new.items ≡ out.old.items ++ host_line_record form (asking_of asked.entry.now)
        place.entry.now.head.now lines place.entry.now.number line.now (KnownLine.Entry entry.now)) }
    ensures counts { IfOk result (λ counts. (lines : List HostLine) → RemembersLines earlier.old lines
        → counts ≡ host_line_counts (asking_of asked.entry.now) lines line.now (KnownLine.Entry entry.now)) }
    ensures kept { OnOk result ((lines : List HostLine) → RemembersLines earlier.old lines
        → RemembersLines earlier.new (lines ++ host_kept_of
        place.entry.now.number line.now (KnownLine.Entry entry.now))) }
    ensures bytes { OnOk result (host_bytes_kept earlier.new
        ≤ host_bytes_kept earlier.old + host_line_bytes line.now (KnownLine.Entry entry.now)) }
    ensures noted { OnOk result
        (keys.new ≡ with_keys keys.old (known_line_keys (KnownLine.Entry entry.now))) }
    ensures sum { OnOk result ((weight : List ℕ → ℕ) → kept_sum weight earlier.new
        ≤ kept_sum weight earlier.old + host_line_sum weight line.now (KnownLine.Entry entry.now)) }
{
    let facts = HostFacts::read(alloc, line, entry)?;
    let found = host_entry_findings(alloc, asked, earlier, entry.blob(), &facts)?;
    match form {
        RecordForm::AsLines(Form::Text) => push_entry_text(alloc, out, place, &facts, &found)?,
        RecordForm::AsLines(Form::Json) => {
            push_entry_in(FieldForm::Member, alloc, out, place, &facts, &found)?;
        }
        RecordForm::AsLines(Form::Line(_)) => {
            push_entry_in(FieldForm::Cell, alloc, out, place, &facts, &found)?;
        }
        RecordForm::AsRow(file) => {
            push_host_entry_row(alloc, out, row_place(file, place.number), &facts, &found)?;
        }
    }
    note_entry(line, entry, &facts, keys)?;
    earlier.keep_entry(alloc, place.number, entry.blob(), &facts)?;
    Ok(Counts {
        lines: 1,
        keys: 1,
        unreadable: 0,
        findings: found.len() as u64,
        by_code: CodeCounts::of(&found),
    })
}

/// Appends the row of a line that revokes these bytes.
fn push_revoked_row_of(
    alloc: Global,
    out: &mut Vec<u8>,
    place: RowPlace,
    bytes: &[u8],
    facts: &RevocationFacts,
    found: &[HostFinding],
) -> Result<(), AllocError>
    ensures { OnOk result (out.new.items ≡ out.old.items
        ++ marks (revoked_row place (print_of bytes.now) (facts.now).names found.now)) }
{
    let print = print_of(alloc, bytes)?;
    push_revoked_row(alloc, out, place, &print, facts.names.as_slice(), found)
}

/// Appends the record of a line that revokes these bytes, and stores the revocation.
pub(crate) fn push_revoked_line(
    alloc: Global,
    form: RecordForm,
    asked: &ReviewOptions<'_>,
    place: &LineRef<'_>,
    line: &[u8],
    bytes: &[u8],
    earlier: &mut EarlierHosts,
    out: &mut Vec<u8>,
) -> Result<Counts, AllocError>
    ensures text { OnOk result ((lines : List HostLine) → RemembersLines earlier.old lines
        → out.new.items ≡ out.old.items ++ host_line_record form (asking_of asked.entry.now)
        place.entry.now.head.now lines place.entry.now.number line.now (KnownLine.Revoked bytes.now)) }
    ensures counts { IfOk result (λ counts. (lines : List HostLine) → RemembersLines earlier.old lines
        → counts ≡ host_line_counts (asking_of asked.entry.now) lines line.now (KnownLine.Revoked bytes.now)) }
    ensures kept { OnOk result ((lines : List HostLine) → RemembersLines earlier.old lines
        → RemembersLines earlier.new (lines ++ host_kept_of
        place.entry.now.number line.now (KnownLine.Revoked bytes.now))) }
    ensures bytes { OnOk result (host_bytes_kept earlier.new
        ≤ host_bytes_kept earlier.old + host_line_bytes line.now (KnownLine.Revoked bytes.now)) }
    ensures sum { OnOk result ((weight : List ℕ → ℕ) → kept_sum weight earlier.new
        ≤ kept_sum weight earlier.old + host_line_sum weight line.now (KnownLine.Revoked bytes.now)) }
{
    let facts = RevocationFacts::read(alloc, line, bytes)?;
    let found = revocation_findings(alloc, asked, earlier, bytes, &facts)?;
    match form {
        RecordForm::AsLines(Form::Text) => {
            push_revoked_text(alloc, out, place, bytes, &facts, &found)?;
        }
        RecordForm::AsLines(Form::Json) => {
            push_revoked_in(FieldForm::Member, alloc, out, place, bytes, &facts, &found)?;
        }
        RecordForm::AsLines(Form::Line(_)) => {
            push_revoked_in(FieldForm::Cell, alloc, out, place, bytes, &facts, &found)?;
        }
        RecordForm::AsRow(file) => {
            push_revoked_row_of(
                alloc,
                out,
                row_place(file, place.number),
                bytes,
                &facts,
                &found,
            )?;
        }
    }
    earlier.keep_revocation(alloc, place.number, bytes, &facts)?;
    Ok(Counts {
        lines: 1,
        keys: 0,
        unreadable: 0,
        findings: found.len() as u64,
        by_code: CodeCounts::of(&found),
    })
}

/// Appends the record of a line that cannot be read: what it is, and its recovered key, if there is
/// one.
fn push_bare_line(
    alloc: Global,
    form: RecordForm,
    place: &LineRef<'_>,
    is: &[u8],
    held: Option<HeldKey>,
    found: &[HostFinding],
    out: &mut Vec<u8>,
) -> Result<Counts, AllocError>
    ensures text { OnOk result (out.new.items ≡ out.old.items
        ++ bare_record form place.entry.now.head.now place.entry.now.number is.now held found.now) }
    ensures counts { IfOk result (λ counts. counts ≡ bare_counts found.now) }
{
    match form {
        RecordForm::AsLines(Form::Text) => push_bare_text(alloc, out, place, is, held, found)?,
        RecordForm::AsLines(Form::Json) => {
            push_bare_in(FieldForm::Member, alloc, out, place, is, held, found)?;
        }
        RecordForm::AsLines(Form::Line(_)) => {
            push_bare_in(FieldForm::Cell, alloc, out, place, is, held, found)?;
        }
        RecordForm::AsRow(file) => {
            push_bare_row(alloc, out, row_place(file, place.number), is, held, found)?;
        }
    }
    Ok(Counts {
        lines: 1,
        keys: 0,
        unreadable: 1,
        findings: found.len() as u64,
        by_code: CodeCounts::of(found),
    })
}

/// Appends the record of an unreadable revocation. It may revoke any key, so here it denies every
/// host.
pub(crate) fn push_unreadable_revocation(
    alloc: Global,
    form: RecordForm,
    asked: &ReviewOptions<'_>,
    place: &LineRef<'_>,
    line: &[u8],
    out: &mut Vec<u8>,
) -> Result<Counts, AllocError>
    ensures text { OnOk result (out.new.items ≡ out.old.items ++ host_line_record form (asking_of asked.entry.now)
        place.entry.now.head.now [] place.entry.now.number line.now KnownLine.RevokedUnreadable) }
    ensures counts { IfOk result (λ counts. counts ≡ host_line_counts (asking_of asked.entry.now)
        [] line.now KnownLine.RevokedUnreadable) }
{
    let held = known_held_key(alloc, line)?;
    let found = unreadable_revocation_findings(alloc, asked, line)?;
    push_bare_line(
        alloc,
        form,
        place,
        b"revocation-unreadable",
        held,
        &found,
        out,
    )
}

/// Appends the record of a line that cannot be read.
pub(crate) fn push_unreadable_line(
    alloc: Global,
    form: RecordForm,
    asked: &ReviewOptions<'_>,
    place: &LineRef<'_>,
    line: &[u8],
    cause: LineCause,
    out: &mut Vec<u8>,
) -> Result<Counts, AllocError>
    ensures text { OnOk result (out.new.items ≡ out.old.items ++ host_line_record form (asking_of asked.entry.now)
        place.entry.now.head.now [] place.entry.now.number line.now (KnownLine.Unreadable cause)) }
    ensures counts { IfOk result (λ counts. counts ≡ host_line_counts (asking_of asked.entry.now)
        [] line.now (KnownLine.Unreadable cause)) }
{
    let held = known_held_key(alloc, line)?;
    let found = unreadable_host_findings(alloc, asked, cause)?;
    push_bare_line(alloc, form, place, b"unreadable", held, &found, out)
}

/// Appends the record of a line, if it has one, and returns the line's counts.
fn push_line(
    alloc: Global,
    form: RecordForm,
    asked: &ReviewOptions<'_>,
    place: &LineRef<'_>,
    line: &[u8],
    view: &KnownLineView<'_>,
    earlier: &mut EarlierHosts,
    keys: &mut DistinctKeys,
    out: &mut Vec<u8>,
) -> Result<Counts, AllocError>
    ensures text { OnOk result ((lines : List HostLine) → RemembersLines earlier.old lines
        → out.new.items ≡ out.old.items ++ host_line_record form (asking_of asked.entry.now)
        place.entry.now.head.now lines place.entry.now.number line.now (known_seen view.now)) }
    ensures counts { IfOk result (λ counts. (lines : List HostLine) → RemembersLines earlier.old lines
        → counts ≡ host_line_counts (asking_of asked.entry.now) lines line.now (known_seen view.now)) }
    ensures kept { OnOk result ((lines : List HostLine) → RemembersLines earlier.old lines
        → RemembersLines earlier.new (lines ++ host_kept_of
        place.entry.now.number line.now (known_seen view.now))) }
    ensures bytes { OnOk result (host_bytes_kept earlier.new
        ≤ host_bytes_kept earlier.old + host_line_bytes line.now (known_seen view.now)) }
    ensures noted { OnOk result
        (keys.new ≡ with_keys keys.old (known_line_keys (known_seen view.now))) }
    ensures sum { OnOk result ((weight : List ℕ → ℕ) → kept_sum weight earlier.new
        ≤ kept_sum weight earlier.old + host_line_sum weight line.now (known_seen view.now)) }
{
    match view {
        KnownLineView::Blank | KnownLineView::Comment => Ok(Counts::LINE_ALONE),
        KnownLineView::Entry(entry) => push_entry_line(
            alloc, form, asked, place, line, entry, earlier, keys, out,
        ),
        KnownLineView::Revoked(bytes) => {
            push_revoked_line(alloc, form, asked, place, line, bytes, earlier, out)
        }
        KnownLineView::RevokedUnreadable => push_unreadable_revocation(
            alloc, form, asked, place, line, out,
        ),
        KnownLineView::Unreadable(cause) => {
            push_unreadable_line(alloc, form, asked, place, line, *cause, out)
        }
    }
}

impl LineRecords for EarlierHosts {
    ghost tells = { KnownTells };

    ghost keys_on = { line_keys KnownHosts };

    fn push_record(
        &mut self,
        alloc: Global,
        form: RecordForm,
        asked: &ReviewOptions<'_>,
        place: &LineRef<'_>,
        line: &[u8],
        buffer: &mut KeyBuffer,
        keys: &mut DistinctKeys,
        out: &mut Vec<u8>,
    ) -> Result<KeyCounts, AllocError> {
        let view = read_known_view(line, buffer);
        let counts = push_line(alloc, form, asked, place, line, &view, self, keys, out)?;
        Ok(KeyCounts {
            counts,
            stands: false,
        })
    }

    ghost ends = { λ x form asking head file line_reports h. h.are_reports };
}

/// The review of a `known_hosts` file of these bytes, before its first record is made: a record for
/// each entry, each revocation and each line that cannot be read. The blob of each key and each plain
/// name are stored, no more bytes than the file has; the names of a line share one more copy of its
/// blob.
pub fn known_records(alloc: Global, file: &[u8]) -> Records<'_, EarlierHosts>
    requires { length file.now ≤ file_limit }
    ensures lines { lines_left result ≡ numbered 1 (lines_of file.now) }
    ensures left { (show : ShowValue) (form : RecordFormValue) (asking : Asking) (head : List ℕ)
        → HasLeft KnownTells show form asking head file.now
        (shown_records show (host_line_reports_of form asking head [] (numbered 1 (lines_of file.now))))
        (of_all (host_counts_of asking [] (numbered 1 (lines_of file.now)))) result }
{
    Records::new(file, EarlierHosts::new(alloc))
}

/// The review of a `known_hosts` file of these bytes, in which each line begins with this head
/// (`file_head`): a record for each entry, each revocation and each line that cannot be read, in their
/// order, and an end with counts and the SHA-256. A file of more than 67,108,864 bytes has the fault A7. During the review the first line
/// of each key, and of each name with a type of key, is stored. The text is made as a whole;
/// `known_records` makes it a few records at a time.
pub fn review_known(
    alloc: Global,
    form: Form,
    asked: &ReviewOptions<'_>,
    head: &[u8],
    file: &[u8],
) -> Result<Reviewed, AllocError>
    ensures { IfOk result
        (λ r. review r ≡ known_review form (asking_of asked.entry.now) head.now file.now) }
{
    if file.len() > FILE_LIMIT {
        review_fault(alloc, form, head, FileFault::TooLong)
    } else {
        let begun = known_records(alloc, file);
        let whole = whole_review(alloc, form, asked, head, file, begun)?;
        Ok(whole.review)
    }
}
