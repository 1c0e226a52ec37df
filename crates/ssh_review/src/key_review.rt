//! The review of an `authorized_keys` file for one key: the records of the lines that hold it, and
//! the end of the file.

ghost use Rattle.std.specs.Prelude.{◌≡◌, ◌++◌, [], ◌≤◌, ℕ, List, IfOk, OnOk, length};
ghost use Rattle.ssh_entries.specs.declared.auth_line.AuthLine.{AuthLine};
ghost use Rattle.ssh_entries.specs.LineView.{line_seen};
ghost use Rattle.ssh_text.specs.Text.{file_limit, lines_of, numbered};
ghost use Rattle.ssh_findings.specs.Asking.{Asking, asking_of};
ghost use Rattle.ssh_findings.specs.Earlier.{Held};
ghost use Rattle.ssh_findings.specs.Facts.{facts_of};
ghost use Rattle.ssh_findings.specs.Keeping.{RemembersEntries};
ghost use Rattle.ssh_review.specs.declared.records.RecordForm.{RecordForm as RecordFormValue};
ghost use Rattle.ssh_review.specs.declared.show.Show.TheVariants.{All};
ghost use Rattle.ssh_review.specs.KeyRecords.{key_counts, key_counts_of, key_record, key_records_of, lists_key, plus_key_within, recovers_key};
ghost use Rattle.ssh_review.specs.KeyReviews.{auth_key_review, key_fault_review, key_review, reviewed_by};
ghost use Rattle.ssh_review.specs.Lines.{held_by_line};
ghost use Rattle.ssh_review.specs.Making.{AuthKeyTells, HasLeft};

use crate::auth_review::{push_end, push_entry_line, push_unreadable_line, review_fault};
use crate::distinct_keys::DistinctKeys;
use crate::end::{Counts, FileFault, Form, Reviewed};
use crate::json_record::LineRef;
use crate::records::{ForKey, LineRecords, RecordForm, Records, whole_review};
use sha2::{Digest, Sha256};
use ssh_entries::{AuthEntryView, AuthLineView, KeyBuffer, read_auth_view};
use ssh_findings::{Earlier, Facts, HeldKey, ReviewOptions, held_key};
use ssh_options::LineCause;
use ssh_text::FILE_LIMIT;
use std::alloc::{AllocError, Global};

/// The counts of the records that are made, with the number of all lines, and whether some line holds
/// the key, where one is wanted.
#[derive(Clone, Copy, Debug)]
pub struct KeyCounts {
    pub counts: Counts,
    pub stands: bool,
}

impl KeyCounts {
    pub(crate) const NONE: KeyCounts = KeyCounts {
        counts: Counts::NONE,
        stands: false,
    };

    /// A line that does not hold the key.
    pub(crate) const OTHER_LINE: KeyCounts = KeyCounts {
        counts: Counts::LINE_ALONE,
        stands: false,
    };

    /// The sums of both, and whether the key stands in either part. A sum stops at 2^64 - 1.
    pub(crate) fn plus(self, other: KeyCounts) -> KeyCounts
        ensures { result ≡ plus_key_within self other }
    {
        KeyCounts {
            counts: self.counts.plus(other.counts),
            stands: self.stands || other.stands,
        }
    }
}

/// The review of a file for one key.
#[derive(Debug, Drop)]
pub struct KeyReviewed {
    /// The records of the lines that hold the key, and the end of the file. The counts are those of
    /// these records, but for `lines`, which counts all lines.
    pub review: Reviewed,
    /// Whether some line of the file holds the key.
    pub stands: bool,
}

/// Whether there is a recovered key, and it has this fingerprint.
pub(crate) fn recovers_key(held: Option<HeldKey>, wanted: &[u8; 43]) -> bool
    ensures { result ≡ recovers_key wanted.now held }
{
    match held {
        None => false,
        Some(held) => held.fingerprint.as_slice() == wanted.as_slice(),
    }
}

/// The facts of an entry, and whether its record lists this fingerprint.
#[tactic(auto, unfolding(ssh_findings::specs::Facts::facts_of))]
fn read_facts(
    alloc: Global,
    asked: &ReviewOptions<'_>,
    entry: &AuthEntryView<'_>,
    wanted: &[u8; 43],
) -> Result<(Facts, bool), AllocError>
    ensures facts { IfOk result
        (λ r. r.0 ≡ facts_of (asking_of asked.entry.now).zone entry.now) }
    ensures lists { IfOk result (λ r. r.1 ≡ lists_key wanted.now entry.now.key) }
{
    let facts = Facts::read(alloc, asked.zone, entry)?;
    let lists = facts.fingerprint.as_slice() == wanted.as_slice();
    Ok((facts, lists))
}

/// Appends the record of an entry that has the key, as the whole review does. Of any other entry
/// only what later lines need is stored.
fn push_key_entry(
    alloc: Global,
    form: RecordForm,
    asked: &ReviewOptions<'_>,
    place: &LineRef<'_>,
    entry: &AuthEntryView<'_>,
    wanted: &[u8; 43],
    earlier: &mut Earlier,
    out: &mut Vec<u8>,
) -> Result<KeyCounts, AllocError>
    ensures text { OnOk result ((held : List Held) → RemembersEntries earlier.old held
        → out.new.items ≡ out.old.items ++ key_record wanted.now form (asking_of asked.entry.now)
        place.entry.now.head.now held (place.entry.now.number, []) (AuthLine.Entry entry.now)) }
    ensures counts { IfOk result (λ reported. (held : List Held) → RemembersEntries earlier.old held
        → reported ≡ key_counts wanted.now (asking_of asked.entry.now) held []
        (AuthLine.Entry entry.now)) }
    ensures kept { OnOk result ((held : List Held) → RemembersEntries earlier.old held
        → RemembersEntries earlier.new (held ++ held_by_line
        (asking_of asked.entry.now) (place.entry.now.number, AuthLine.Entry entry.now))) }
{
    let (facts, stands) = read_facts(alloc, asked, entry, wanted)?;
    if stands {
        let mut others = DistinctKeys::new(alloc);
        let counts = push_entry_line(alloc, form, asked, place, entry, earlier, &mut others, out)?;
        Ok(KeyCounts { counts, stands })
    } else {
        earlier.keep(alloc, place.number, entry.blob(), facts)?;
        Ok(KeyCounts::OTHER_LINE)
    }
}

/// Appends the record of a line that cannot be read, if it holds the key.
fn push_key_unreadable(
    alloc: Global,
    form: RecordForm,
    asked: &ReviewOptions<'_>,
    place: &LineRef<'_>,
    line: &[u8],
    cause: LineCause,
    wanted: &[u8; 43],
    out: &mut Vec<u8>,
) -> Result<KeyCounts, AllocError>
    ensures text { OnOk result (out.new.items ≡ out.old.items ++ key_record wanted.now form
        (asking_of asked.entry.now) place.entry.now.head.now [] (place.entry.now.number, line.now)
        (AuthLine.Unreadable cause)) }
    ensures counts { IfOk result (λ reported. reported ≡ key_counts wanted.now (asking_of asked.entry.now)
        [] line.now (AuthLine.Unreadable cause)) }
{
    let held = held_key(alloc, line)?;
    let stands = recovers_key(held, wanted);
    if stands {
        let counts = push_unreadable_line(alloc, form, asked, place, line, cause, out)?;
        Ok(KeyCounts { counts, stands })
    } else {
        Ok(KeyCounts::OTHER_LINE)
    }
}

/// Appends the record of a line, if it holds the key.
fn push_key_line(
    alloc: Global,
    form: RecordForm,
    asked: &ReviewOptions<'_>,
    place: &LineRef<'_>,
    line: &[u8],
    view: &AuthLineView<'_>,
    wanted: &[u8; 43],
    earlier: &mut Earlier,
    out: &mut Vec<u8>,
) -> Result<KeyCounts, AllocError>
    ensures text { OnOk result ((held : List Held) → RemembersEntries earlier.old held
        → out.new.items ≡ out.old.items ++ key_record wanted.now form (asking_of asked.entry.now)
        place.entry.now.head.now held (place.entry.now.number, line.now) (line_seen view.now)) }
    ensures counts { IfOk result (λ reported. (held : List Held) → RemembersEntries earlier.old held
        → reported ≡ key_counts wanted.now (asking_of asked.entry.now) held line.now
        (line_seen view.now)) }
    ensures kept { OnOk result ((held : List Held) → RemembersEntries earlier.old held
        → RemembersEntries earlier.new (held ++ held_by_line
        (asking_of asked.entry.now) (place.entry.now.number, line_seen view.now))) }
{
    match view {
        AuthLineView::Blank | AuthLineView::Comment => Ok(KeyCounts::OTHER_LINE),
        AuthLineView::Entry(entry) => push_key_entry(
            alloc, form, asked, place, entry, wanted, earlier, out,
        ),
        AuthLineView::Unreadable(cause) => push_key_unreadable(
            alloc, form, asked, place, line, *cause, wanted, out,
        ),
    }
}

impl<'a> LineRecords for ForKey<'a, Earlier> {
    ghost tells = { AuthKeyTells };

    ghost keys_on = { λ line. [] };

    fn push_record(
        &mut self,
        alloc: Global,
        form: RecordForm,
        asked: &ReviewOptions<'_>,
        place: &LineRef<'_>,
        line: &[u8],
        buffer: &mut KeyBuffer,
        keys: &mut DistinctKeys,
        out: &mut Vec<u8>,
    ) -> Result<KeyCounts, AllocError> {
        let view = read_auth_view(line, buffer);
        let wanted = self.wanted;
        let reported = push_key_line(
            alloc,
            form,
            asked,
            place,
            line,
            &view,
            wanted,
            &mut self.earlier,
            out,
        )?;
        Ok(reported)
    }

    ghost ends = { λ x form asking head file line_reports h. h.are_reports };
}

/// The review of an `authorized_keys` file of these bytes for the key with this fingerprint, before
/// its first record is made.
pub fn auth_key_records<'a>(
    alloc: Global,
    file: &'a [u8],
    wanted: &'a [u8; 43],
) -> Records<'a, ForKey<'a, Earlier>>
    requires { length file.now ≤ file_limit }
    ensures { (form : RecordFormValue) (asking : Asking) (head : List ℕ)
        → HasLeft AuthKeyTells All form asking head file.now
        (key_records_of wanted.now form asking head [] (numbered 1 (lines_of file.now)))
        (key_counts_of wanted.now asking [] (numbered 1 (lines_of file.now))) result }
{
    let earlier = Earlier::new(alloc);
    Records::new(file, ForKey { wanted, earlier })
}

/// The review of a file with these records, of which these are the counts: they are followed by the
/// end of the file.
pub(crate) fn with_end(
    alloc: Global,
    form: Form,
    head: &[u8],
    file: &[u8],
    reported: KeyCounts,
    records: Vec<u8>,
) -> Result<KeyReviewed, AllocError>
    ensures { IfOk result
        (λ r. key_review r ≡ reviewed_by form head.now file.now records.items reported) }
{
    let mut text = records;
    let digest = Sha256::digest(file);
    push_end(alloc, form, &mut text, head, reported.counts, &digest)?;
    Ok(KeyReviewed {
        review: Reviewed {
            text,
            counts: reported.counts,
            fault: None,
        },
        stands: reported.stands,
    })
}

/// The review of a file with a fault, for whichever key: only its end.
pub fn review_key_fault(
    alloc: Global,
    form: Form,
    head: &[u8],
    fault: FileFault,
) -> Result<KeyReviewed, AllocError>
    ensures { IfOk result (λ r. key_review r ≡ key_fault_review form head.now fault) }
{
    let review = review_fault(alloc, form, head, fault)?;
    Ok(KeyReviewed {
        review,
        stands: false,
    })
}

/// The review of an `authorized_keys` file for the key with this fingerprint, which is the base64
/// after `SHA256:`. It has the records that `review_auth` prints of the lines that hold the key, also
/// of those that cannot be read, and the end of the file. A file of more than 67,108,864 bytes has
/// the fault A7. The text is made as a whole; `auth_key_records` makes it a few records at a time.
pub fn review_auth_key(
    alloc: Global,
    form: Form,
    asked: &ReviewOptions<'_>,
    head: &[u8],
    file: &[u8],
    wanted: &[u8; 43],
) -> Result<KeyReviewed, AllocError>
    ensures { IfOk result (λ r. key_review r
        ≡ auth_key_review wanted.now form (asking_of asked.entry.now) head.now file.now) }
{
    if file.len() > FILE_LIMIT {
        review_key_fault(alloc, form, head, FileFault::TooLong)
    } else {
        let begun = auth_key_records(alloc, file, wanted);
        let whole = whole_review(alloc, form, asked, head, file, begun)?;
        Ok(whole)
    }
}
