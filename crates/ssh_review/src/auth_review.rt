//! The review of an `authorized_keys` file: a record for each entry and each unreadable line, and
//! the end of the file.

ghost use Rattle.std.specs.Prelude.{◌≡◌, ◌+◌, ◌++◌, [], ◌≤◌, ℕ, List, IfOk, OnOk, length};
ghost use Rattle.ssh_entries.specs.declared.auth_line.AuthLine.{AuthLine};
ghost use Rattle.ssh_entries.specs.LineView.{line_seen};
ghost use Rattle.ssh_text.specs.Text.{file_limit, lines_of, numbered};
ghost use Rattle.ssh_findings.specs.Asking.{Asking, asking_of};
ghost use Rattle.ssh_findings.specs.Earlier.{Held};
ghost use Rattle.ssh_findings.specs.Facts.{facts_of};
ghost use Rattle.ssh_findings.specs.Keeping.{RemembersEntries};
ghost use Rattle.ssh_findings.specs.Memory.{bytes_kept, keys_kept};
ghost use Rattle.ssh_review.specs.declared.records.RecordForm.{RecordForm as RecordFormValue};
ghost use Rattle.ssh_review.specs.declared.show.Show.{Show as ShowValue};
ghost use Rattle.ssh_review.specs.Lines.{counts_of, held_by_line, lets_in, line_counts, line_findings, line_record, shadow_line};
ghost use Rattle.ssh_review.specs.Making.{AuthTells, HasLeft, lines_left};
ghost use Rattle.ssh_page.specs.declared.file.FileKind.TheVariants.{AuthorizedKeys};
ghost use Rattle.ssh_review.specs.DistinctKeys.{auth_line_keys, line_keys, with_keys};
ghost use Rattle.ssh_review.specs.Objects.{entry_in};
ghost use Rattle.ssh_review.specs.Memory.{line_bytes};
ghost use Rattle.ssh_review.specs.Ends.{total_words};
ghost use Rattle.ssh_review.specs.Forms.{end_line, file_fault_line, total_line};
ghost use Rattle.ssh_review.specs.Reviews.{auth_review, fault_review, review};
ghost use Rattle.ssh_review.specs.ShownRecords.{shown_records};
ghost use Rattle.ssh_review.specs.LineReports.{line_reports_of, of_all};

use crate::distinct_keys::DistinctKeys;
use crate::end::{
    Counts, FileFault, Form, Reviewed, Total, push_end_object, push_end_text, push_fault_object,
    push_fault_text, push_total_object, push_total_text, push_total_words,
};
use crate::json_record::{LineRef, push_entry_in, push_unreadable_in, row_place};
use crate::key_review::KeyCounts;
use crate::record::{push_entry_text, push_unreadable_text};
use crate::record_field::FieldForm;
use crate::records::{LineRecords, RecordForm, Records, whole_review};
use crate::table::{push_end_row, push_fault_row, push_total_row};
use ssh_entries::{AuthEntryView, AuthLineView, KeyBuffer, read_auth_view};
use ssh_findings::{
    CodeCounts, Earlier, Facts, Finding, ReviewOptions, entry_findings, held_key, may_let_in,
    unreadable_findings,
};
use ssh_options::LineCause;
use ssh_page::{push_entry_row, push_unreadable_row};
use ssh_text::FILE_LIMIT;
use std::alloc::{AllocError, Global};

/// Appends the record of an entry in fields. Who decides before it, and whether it lets in, do not
/// depend on which findings are asked for.
fn push_entry_fields(
    form: FieldForm,
    alloc: Global,
    asked: &ReviewOptions<'_>,
    place: &LineRef<'_>,
    entry: &AuthEntryView<'_>,
    earlier: &Earlier,
    facts: &Facts,
    found: &[Finding],
    out: &mut Vec<u8>,
) -> Result<(), AllocError>
    requires { facts.now ≡ facts_of (asking_of asked.now).zone entry.now }
    ensures { OnOk result ((held : List Held) → RemembersEntries earlier.now held
        → out.new.items ≡ out.old.items ++ entry_in form place.entry.now.head.now place.entry.now.number
        facts.now (entry.now).options (shadow_line (asking_of asked.entry.now) held entry.now)
        (lets_in (asking_of asked.entry.now) held entry.now) found.now) }
{
    let shadow = earlier.shadow_line(entry.blob(), facts);
    let lets_in = shadow.is_none() && may_let_in(asked, facts);
    push_entry_in(
        form,
        alloc,
        out,
        place,
        facts,
        entry.options(),
        shadow,
        lets_in,
        found,
    )
}

/// Notes the key of an entry with these facts.
#[tactic(auto, unfolding(ssh_findings::specs::Facts::facts_of))]
fn note_entry(
    asked: &ReviewOptions<'_>,
    entry: &AuthEntryView<'_>,
    facts: &Facts,
    keys: &mut DistinctKeys,
) -> Result<(), AllocError>
    requires { facts.now ≡ facts_of (asking_of asked.now).zone entry.now }
    ensures { OnOk result
        (keys.new ≡ with_keys keys.old (auth_line_keys (AuthLine.Entry entry.now))) }
{
    keys.note(facts.fingerprint)
}

/// Appends the record of an entry, and stores what later lines need of the entry.
pub(crate) fn push_entry_line(
    alloc: Global,
    form: RecordForm,
    asked: &ReviewOptions<'_>,
    place: &LineRef<'_>,
    entry: &AuthEntryView<'_>,
    earlier: &mut Earlier,
    keys: &mut DistinctKeys,
    out: &mut Vec<u8>,
) -> Result<Counts, AllocError>
    ensures text { OnOk result ((held : List Held) → RemembersEntries earlier.old held
        → out.new.items ≡ out.old.items ++ line_record form (asking_of asked.entry.now)
        place.entry.now.head.now held (place.entry.now.number, []) (AuthLine.Entry entry.now)) }
    ensures counts { IfOk result (λ counts. (held : List Held) → RemembersEntries earlier.old held
        → counts ≡ line_counts (asking_of asked.entry.now) held (AuthLine.Entry entry.now)) }
    ensures kept { OnOk result ((held : List Held) → RemembersEntries earlier.old held
        → RemembersEntries earlier.new (held ++ held_by_line
        (asking_of asked.entry.now) (place.entry.now.number, AuthLine.Entry entry.now))) }
    ensures bytes { OnOk result (bytes_kept earlier.new
        ≤ bytes_kept earlier.old + line_bytes (asking_of asked.entry.now) (AuthLine.Entry entry.now)) }
    ensures noted { OnOk result
        (keys.new ≡ with_keys keys.old (auth_line_keys (AuthLine.Entry entry.now))) }
    ensures keys { IfOk result
        (λ counts. keys_kept earlier.new ≤ keys_kept earlier.old + counts.keys) }
{
    let facts = Facts::read(alloc, asked.zone, entry)?;
    let found = entry_findings(alloc, asked, earlier, entry.blob(), &facts)?;
    match form {
        RecordForm::AsLines(Form::Text) => push_entry_text(alloc, out, place, &facts, &found)?,
        RecordForm::AsLines(Form::Json) => {
            let form = FieldForm::Member;
            push_entry_fields(
                form, alloc, asked, place, entry, earlier, &facts, &found, out,
            )?;
        }
        RecordForm::AsLines(Form::Line(_)) => {
            let form = FieldForm::Cell;
            push_entry_fields(
                form, alloc, asked, place, entry, earlier, &facts, &found, out,
            )?;
        }
        RecordForm::AsRow(file) => {
            push_entry_row(alloc, out, row_place(file, place.number), &facts, &found)?;
        }
    }
    note_entry(asked, entry, &facts, keys)?;
    earlier.keep(alloc, place.number, entry.blob(), facts)?;
    Ok(Counts {
        lines: 1,
        keys: 1,
        unreadable: 0,
        findings: found.len() as u64,
        by_code: CodeCounts::of(&found),
    })
}

/// Appends the record of a line that cannot be read.
pub(crate) fn push_unreadable_line(
    alloc: Global,
    form: RecordForm,
    asked: &ReviewOptions<'_>,
    place: &LineRef<'_>,
    line: &[u8],
    cause: LineCause,
    out: &mut Vec<u8>,
) -> Result<Counts, AllocError>
    ensures text { OnOk result (out.new.items ≡ out.old.items ++ line_record form (asking_of asked.entry.now)
        place.entry.now.head.now [] (place.entry.now.number, line.now) (AuthLine.Unreadable cause)) }
    ensures counts { IfOk result (λ counts. counts ≡ line_counts (asking_of asked.entry.now)
        [] (AuthLine.Unreadable cause)) }
{
    let held = held_key(alloc, line)?;
    let found = unreadable_findings(alloc, asked, cause)?;
    match form {
        RecordForm::AsLines(Form::Text) => {
            push_unreadable_text(alloc, out, place, held, &found)?;
        }
        RecordForm::AsLines(Form::Json) => {
            push_unreadable_in(FieldForm::Member, alloc, out, place, held, &found)?;
        }
        RecordForm::AsLines(Form::Line(_)) => {
            push_unreadable_in(FieldForm::Cell, alloc, out, place, held, &found)?;
        }
        RecordForm::AsRow(file) => {
            push_unreadable_row(alloc, out, row_place(file, place.number), held, &found)?;
        }
    }
    Ok(Counts {
        lines: 1,
        keys: 0,
        unreadable: 1,
        findings: found.len() as u64,
        by_code: CodeCounts::of(&found),
    })
}

/// Appends the record of a line, if it has one, and returns the line's counts.
fn push_line(
    alloc: Global,
    form: RecordForm,
    asked: &ReviewOptions<'_>,
    place: &LineRef<'_>,
    line: &[u8],
    view: &AuthLineView<'_>,
    earlier: &mut Earlier,
    keys: &mut DistinctKeys,
    out: &mut Vec<u8>,
) -> Result<Counts, AllocError>
    ensures text { OnOk result ((held : List Held) → RemembersEntries earlier.old held
        → out.new.items ≡ out.old.items ++ line_record form (asking_of asked.entry.now)
        place.entry.now.head.now held (place.entry.now.number, line.now) (line_seen view.now)) }
    ensures counts { IfOk result (λ counts. (held : List Held) → RemembersEntries earlier.old held
        → counts ≡ line_counts (asking_of asked.entry.now) held (line_seen view.now)) }
    ensures kept { OnOk result ((held : List Held) → RemembersEntries earlier.old held
        → RemembersEntries earlier.new (held ++ held_by_line
        (asking_of asked.entry.now) (place.entry.now.number, line_seen view.now))) }
    ensures bytes { OnOk result (bytes_kept earlier.new
        ≤ bytes_kept earlier.old + line_bytes (asking_of asked.entry.now) (line_seen view.now)) }
    ensures noted { OnOk result
        (keys.new ≡ with_keys keys.old (auth_line_keys (line_seen view.now))) }
    ensures keys { IfOk result
        (λ counts. keys_kept earlier.new ≤ keys_kept earlier.old + counts.keys) }
{
    match view {
        AuthLineView::Blank | AuthLineView::Comment => Ok(Counts::LINE_ALONE),
        AuthLineView::Entry(entry) => push_entry_line(
            alloc, form, asked, place, entry, earlier, keys, out,
        ),
        AuthLineView::Unreadable(cause) => {
            push_unreadable_line(alloc, form, asked, place, line, *cause, out)
        }
    }
}

impl LineRecords for Earlier {
    ghost tells = { AuthTells };

    ghost keys_on = { line_keys AuthorizedKeys };

    fn push_record(
        &mut self,
        alloc: Global,
        form: RecordForm,
        asked: &ReviewOptions<'_>,
        place: &LineRef<'_>,
        line: &[u8],
        buffer: &mut KeyBuffer,
        keys: &mut DistinctKeys,
        out: &mut Vec<u8>,
    ) -> Result<KeyCounts, AllocError> {
        let view = read_auth_view(line, buffer);
        let counts = push_line(alloc, form, asked, place, line, &view, self, keys, out)?;
        Ok(KeyCounts {
            counts,
            stands: false,
        })
    }

    ghost ends = { λ x form asking head file line_reports h. h.are_reports };
}

/// The review of an `authorized_keys` file of these bytes, before its first record is made: a record
/// for each entry and each line that cannot be read.
pub fn auth_records(alloc: Global, file: &[u8]) -> Records<'_, Earlier>
    requires { length file.now ≤ file_limit }
    ensures lines { lines_left result ≡ numbered 1 (lines_of file.now) }
    ensures left { (show : ShowValue) (form : RecordFormValue) (asking : Asking) (head : List ℕ)
        → HasLeft AuthTells show form asking head file.now
        (shown_records show (line_reports_of form asking head [] (numbered 1 (lines_of file.now))))
        (of_all (counts_of asking [] (numbered 1 (lines_of file.now)))) result }
{
    Records::new(file, Earlier::new(alloc))
}

/// Appends the end of a file that was reviewed: its counts, and the SHA-256 of its bytes.
pub fn push_end(
    alloc: Global,
    form: Form,
    out: &mut Vec<u8>,
    head: &[u8],
    counts: Counts,
    digest: &[u8],
) -> Result<(), AllocError>
    ensures { OnOk result
        (out.new.items ≡ out.old.items ++ end_line form head.now counts digest.now) }
{
    match form {
        Form::Text => push_end_text(out, head, counts, digest),
        Form::Json => push_end_object(alloc, out, head, counts, digest),
        Form::Line(kind) => push_end_row(out, kind, head, counts, digest),
    }
}

/// Appends the end of a file with a fault.
fn push_fault(
    form: Form,
    out: &mut Vec<u8>,
    head: &[u8],
    fault: FileFault,
) -> Result<(), AllocError>
    ensures { OnOk result (out.new.items ≡ out.old.items ++ file_fault_line form head.now fault) }
{
    match form {
        Form::Text => push_fault_text(out, head, fault),
        Form::Json => push_fault_object(out, head, fault),
        Form::Line(kind) => push_fault_row(out, kind, head, fault),
    }
}

/// The review of a file with a fault: only its end. No part of a list can then be taken for the
/// whole list.
pub fn review_fault(
    alloc: Global,
    form: Form,
    head: &[u8],
    fault: FileFault,
) -> Result<Reviewed, AllocError>
    ensures { IfOk result (λ r. review r ≡ fault_review form head.now fault) }
{
    let mut text = Vec::new(alloc);
    push_fault(form, &mut text, head, fault)?;
    Ok(Reviewed {
        text,
        counts: Counts::NONE,
        fault: Some(fault),
    })
}

/// The review of an `authorized_keys` file of these bytes, in which each line begins with this head
/// (`file_head`): a record for each entry and each line that cannot be read, in their order, and an
/// end with counts and the SHA-256. A file of more than 67,108,864 bytes has the fault A7. The text is
/// made as a whole; `auth_records` makes it a few records at a time.
pub fn review_auth(
    alloc: Global,
    form: Form,
    asked: &ReviewOptions<'_>,
    head: &[u8],
    file: &[u8],
) -> Result<Reviewed, AllocError>
    ensures { IfOk result
        (λ r. review r ≡ auth_review form (asking_of asked.entry.now) head.now file.now) }
{
    if file.len() > FILE_LIMIT {
        review_fault(alloc, form, head, FileFault::TooLong)
    } else {
        let begun = auth_records(alloc, file);
        let whole = whole_review(alloc, form, asked, head, file, begun)?;
        Ok(whole.review)
    }
}

/// The line with the total of all files; as text, behind a line for each code that was found. It says
/// how they were asked: of which format they are, by its name in `--kind`, the time zone as a POSIX
/// rule, and the options of the review.
pub fn total_line(
    alloc: Global,
    form: Form,
    kind: &[u8],
    zone: &[u8],
    asked: &ReviewOptions<'_>,
    total: &Total,
) -> Result<Vec<u8>, AllocError>
    ensures { IfOk result (λ line. line.items
        ≡ total_line form kind.now zone.now (asking_of asked.entry.now) total.now) }
{
    let mut line = Vec::new(alloc);
    match form {
        Form::Text => push_total_text(alloc, &mut line, zone, asked, total)?,
        Form::Json => push_total_object(alloc, &mut line, kind, zone, asked, total)?,
        Form::Line(files) => push_total_row(alloc, &mut line, files, zone, asked, total)?,
    }
    Ok(line)
}

/// The total of all files as the text format has it, without the end of the line.
pub fn total_words(
    alloc: Global,
    zone: &[u8],
    asked: &ReviewOptions<'_>,
    total: &Total,
) -> Result<Vec<u8>, AllocError>
    ensures { IfOk result
        (λ words. words.items ≡ total_words zone.now (asking_of asked.entry.now) total.now) }
{
    let mut words = Vec::new(alloc);
    push_total_words(alloc, &mut words, zone, asked, total)?;
    Ok(words)
}
