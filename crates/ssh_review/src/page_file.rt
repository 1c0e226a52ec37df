//! What a file has on the page of a review: its section, with a row for each of its records, and its
//! row in the register.

ghost use Rattle.std.specs.Prelude.{◌≡◌, ◌≤◌, ◌++◌, List, ℕ, IfOk, OnOk, length, if◌then◌else◌, ◌==◌};
ghost use Rattle.sha2.specs.Sha256.{sha256};
ghost use Rattle.ssh_text.specs.Text.{file_limit};
ghost use Rattle.ssh_findings.specs.Asking.{asking_of};
ghost use Rattle.ssh_page.specs.Documents.{marks};
ghost use Rattle.ssh_page.specs.Files.{classes_seen, file_row, seen};
ghost use Rattle.ssh_review.specs.declared.key_review.KeyCounts.{KeyCounts as KeyCountsValue};
ghost use Rattle.ssh_review.specs.declared.records.RecordForm.TheVariants.{AsRow};
ghost use Rattle.ssh_review.specs.declared.show.Show.TheVariants.{All};
ghost use Rattle.ssh_review.specs.Making.{HasLeft, keys_left};
ghost use Rattle.ssh_review.specs.DistinctKeys.{file_keys, with_keys};
ghost use Rattle.ssh_review.specs.PageFiles.{cause_means, classes_of, fault_means, file_counts, file_section, register_row, section_marks, seen_so, unread_row, unread_section};

use crate::auth_review::auth_records;
use crate::distinct_keys::DistinctKeys;
use crate::end::{Counts, FileFault, fault_code};
use crate::host_review::known_records;
use crate::records::{LineRecords, RecordForm, Records, push_all};
use sha2::{Digest, Sha256};
use ssh_files::UnreadCause;
use ssh_findings::ReviewOptions;
use ssh_page::{
    FileClasses, FileKind, FileRow, has_authority, push_empty_section, push_fault_row,
    push_fault_section, push_file_row, push_section_end, push_section_head,
};
use std::alloc::{AllocError, Global};

/// What the page says of a file with these counts.
fn row_of<'a>(name: &'a [u8], counts: Counts, digest: &'a [u8]) -> FileRow<'a>
    ensures { seen result ≡ seen_so name.now counts digest.now }
{
    FileRow {
        name,
        lines: counts.lines,
        keys: counts.keys,
        unreadable: counts.unreadable,
        findings: counts.findings,
        digest,
    }
}

/// The classes of a section with these counts and rows.
#[tactic(auto, unfolding(crate::specs::PageFiles::classes_of))]
fn classes_of(counts: Counts, rows: &[u8]) -> FileClasses
    ensures { classes_seen result ≡ classes_of counts rows.now }
{
    FileClasses {
        reported: counts.by_code,
        has_unreadable: counts.unreadable > 0,
        has_authority: has_authority(rows),
    }
}

/// Appends the section of a file with these rows.
fn push_section(
    out: &mut Vec<u8>,
    kind: FileKind,
    number: u64,
    row: &FileRow<'_>,
    counts: Counts,
    rows: &[u8],
) -> Result<(), AllocError>
    ensures { OnOk result (out.new.items ≡ out.old.items
        ++ section_marks kind number (seen row.entry.now) (classes_of counts rows.now) rows.now) }
{
    if rows.is_empty() {
        push_empty_section(out, number, row)
    } else {
        push_section_head(out, number, kind, row, &classes_of(counts, rows))?;
        out.extend_from_slice(rows)?;
        push_section_end(out)?;
        Ok(())
    }
}

/// Appends the section and the row of a file whose review begins here. Its rows are made in the memory
/// of `rows`, whatever is in it.
fn push_records<L: LineRecords + Drop>(
    alloc: Global,
    kind: FileKind,
    number: u64,
    asked: &ReviewOptions<'_>,
    name: &[u8],
    file: &[u8],
    begun: Records<'_, L>,
    keys: &mut DistinctKeys,
    rows: &mut Vec<u8>,
    sections: &mut Vec<u8>,
    register: &mut Vec<u8>,
) -> Result<Counts, AllocError>
    ensures counts { IfOk result (λ counts. (text : List ℕ) (all : KeyCountsValue)
        → HasLeft L.tells All (AsRow number) (asking_of asked.entry.now) name.now file.now text all begun.entry
        → counts ≡ all.counts) }
    ensures noted { OnOk result (keys.new ≡ keys_left L.keys_on begun.entry keys.old) }
    ensures section { OnOk result ((text : List ℕ) (all : KeyCountsValue)
        → HasLeft L.tells All (AsRow number) (asking_of asked.entry.now) name.now file.now text all begun.entry
        → sections.new.items ≡ sections.old.items
        ++ section_marks kind number (seen_so name.now all.counts (sha256 file.now)) (classes_of all.counts text) text) }
    ensures row { OnOk result ((text : List ℕ) (all : KeyCountsValue)
        → HasLeft L.tells All (AsRow number) (asking_of asked.entry.now) name.now file.now text all begun.entry
        → register.new.items ≡ register.old.items
        ++ marks (file_row number (seen_so name.now all.counts (sha256 file.now)))) }
{
    rows.clear();
    let reported = push_all(
        alloc,
        RecordForm::AsRow(number),
        asked,
        name,
        begun,
        keys,
        rows,
    )?;
    let digest = Sha256::digest(file);
    let row = row_of(name, reported.counts, &digest);
    push_section(sections, kind, number, &row, reported.counts, rows)?;
    push_file_row(alloc, register, number, &row)?;
    Ok(reported.counts)
}

/// Appends what a file of this name and these bytes has on the page: the section with this number,
/// counted from 0, and the row in the register. Notes its keys, and returns its counts. The rows of
/// the section are made in the memory of `rows`, whatever is in it, so that a caller needs it once for
/// all files.
pub fn push_page_file(
    alloc: Global,
    kind: FileKind,
    number: u64,
    asked: &ReviewOptions<'_>,
    name: &[u8],
    file: &[u8],
    keys: &mut DistinctKeys,
    rows: &mut Vec<u8>,
    sections: &mut Vec<u8>,
    register: &mut Vec<u8>,
) -> Result<Counts, AllocError>
    requires { length file.now ≤ file_limit }
    ensures counts { IfOk result
        (λ counts. counts ≡ file_counts kind (asking_of asked.entry.now) file.now) }
    ensures noted { OnOk result (keys.new ≡ with_keys keys.old (file_keys kind file.now)) }
    ensures section { OnOk result (sections.new.items ≡ sections.old.items
        ++ marks (file_section kind number (asking_of asked.entry.now) name.now file.now)) }
    ensures row { OnOk result (register.new.items ≡ register.old.items
        ++ marks (register_row kind number (asking_of asked.entry.now) name.now file.now)) }
{
    match kind {
        FileKind::AuthorizedKeys => {
            let begun = auth_records(alloc, file);
            push_records(
                alloc, kind, number, asked, name, file, begun, keys, rows, sections, register,
            )
        }
        FileKind::KnownHosts => {
            let begun = known_records(alloc, file);
            push_records(
                alloc, kind, number, asked, name, file, begun, keys, rows, sections, register,
            )
        }
    }
}

/// What it means that a file could not be read, and what to do.
fn cause_means(cause: UnreadCause) -> &'static [u8]
    ensures { result.now ≡ cause_means cause }
{
    match cause {
        UnreadCause::NotFound => b"there is no such file: look at its name",
        UnreadCause::PermissionDenied => b"it may not be read: look at its permissions",
        UnreadCause::IsADirectory => b"it is a folder: name the files in it",
        UnreadCause::Other => b"it could not be read: look at the disk",
    }
}

/// What a fault means, and what to do.
fn fault_means(fault: FileFault) -> &'static [u8]
    ensures { result.now ≡ fault_means fault }
{
    match fault {
        FileFault::TooLong => b"it has more than 67,108,864 bytes: split it, or drop comments",
        FileFault::Unread(cause) => cause_means(cause),
    }
}

/// Appends what a file with a fault has on the page: a section that tells the fault, and a row in the
/// register.
pub fn push_page_fault(
    number: u64,
    name: &[u8],
    fault: FileFault,
    sections: &mut Vec<u8>,
    register: &mut Vec<u8>,
) -> Result<(), AllocError>
    ensures section { OnOk result
        (sections.new.items ≡ sections.old.items ++ marks (unread_section number name.now fault)) }
    ensures row { OnOk result
        (register.new.items ≡ register.old.items ++ marks (unread_row number name.now fault)) }
{
    push_fault_section(
        sections,
        number,
        name,
        fault_code(fault),
        fault_means(fault),
    )?;
    push_fault_row(
        register,
        number,
        name,
        fault_code(fault),
        fault_means(fault),
    )?;
    Ok(())
}
