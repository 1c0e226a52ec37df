//! The review of a `known_hosts` file for one key: the records of the lines that hold it, and the
//! end of the file.

ghost use Rattle.std.specs.Prelude.{◌≡◌, ◌++◌, [], ◌≤◌, ℕ, List, IfOk, OnOk, length};
ghost use Rattle.ssh_entries.specs.declared.known_line.KnownLine.{KnownLine};
ghost use Rattle.ssh_entries.specs.KnownSeen.{known_seen};
ghost use Rattle.ssh_text.specs.Text.{file_limit, lines_of, numbered};
ghost use Rattle.ssh_findings.specs.Asking.{Asking, asking_of};
ghost use Rattle.ssh_findings.specs.HostFacts.{host_facts_of};
ghost use Rattle.ssh_findings.specs.HostLines.{HostLine};
ghost use Rattle.ssh_findings.specs.StandsFor.{RemembersLines};
ghost use Rattle.ssh_review.specs.declared.records.RecordForm.{RecordForm as RecordFormValue};
ghost use Rattle.ssh_review.specs.declared.show.Show.TheVariants.{All};
ghost use Rattle.ssh_review.specs.HostKeyRecords.{host_key_counts, host_key_counts_of, host_key_record, host_key_records_of};
ghost use Rattle.ssh_review.specs.HostLines.{host_kept_of};
ghost use Rattle.ssh_review.specs.KeyRecords.{lists_key};
ghost use Rattle.ssh_review.specs.KeyReviews.{key_review, known_key_review};
ghost use Rattle.ssh_review.specs.Making.{HasLeft, KnownKeyTells};

use crate::distinct_keys::DistinctKeys;
use crate::end::{FileFault, Form};
use crate::fields::print_of;
use crate::host_review::{
    push_entry_line, push_revoked_line, push_unreadable_line, push_unreadable_revocation,
};
use crate::json_record::LineRef;
use crate::key_review::{KeyCounts, KeyReviewed, recovers_key, review_key_fault};
use crate::records::{ForKey, LineRecords, RecordForm, Records, whole_review};
use ssh_entries::{KeyBuffer, KnownEntryView, KnownLineView, read_known_view};
use ssh_findings::{EarlierHosts, HostFacts, ReviewOptions, RevocationFacts, known_held_key};
use ssh_options::LineCause;
use ssh_text::FILE_LIMIT;
use std::alloc::{AllocError, Global};

/// The facts of an entry, and whether its record lists this fingerprint.
#[tactic(auto, unfolding(ssh_findings::specs::HostFacts::host_facts_of))]
fn read_facts(
    alloc: Global,
    line: &[u8],
    entry: &KnownEntryView<'_>,
    wanted: &[u8; 43],
) -> Result<(HostFacts, bool), AllocError>
    ensures facts { IfOk result (λ r. r.0 ≡ host_facts_of line.now entry.now) }
    ensures lists { IfOk result (λ r. r.1 ≡ lists_key wanted.now entry.now.key) }
{
    let facts = HostFacts::read(alloc, line, entry)?;
    let lists = facts.fingerprint.as_slice() == wanted.as_slice();
    Ok((facts, lists))
}

/// Appends the record of an entry that has the key, as the whole review does. Of any other entry
/// only what later lines need is stored.
fn push_key_entry(
    alloc: Global,
    form: RecordForm,
    asked: &ReviewOptions<'_>,
    place: &LineRef<'_>,
    line: &[u8],
    entry: &KnownEntryView<'_>,
    wanted: &[u8; 43],
    earlier: &mut EarlierHosts,
    out: &mut Vec<u8>,
) -> Result<KeyCounts, AllocError>
    ensures text { OnOk result ((lines : List HostLine) → RemembersLines earlier.old lines
        → out.new.items ≡ out.old.items ++ host_key_record wanted.now form
        (asking_of asked.entry.now) place.entry.now.head.now lines place.entry.now.number line.now
        (KnownLine.Entry entry.now)) }
    ensures counts { IfOk result (λ reported. (lines : List HostLine) → RemembersLines earlier.old lines
        → reported ≡ host_key_counts wanted.now (asking_of asked.entry.now) lines line.now
        (KnownLine.Entry entry.now)) }
    ensures kept { OnOk result ((lines : List HostLine) → RemembersLines earlier.old lines
        → RemembersLines earlier.new (lines ++ host_kept_of
        place.entry.now.number line.now (KnownLine.Entry entry.now))) }
{
    let (facts, stands) = read_facts(alloc, line, entry, wanted)?;
    if stands {
        let mut others = DistinctKeys::new(alloc);
        let counts = push_entry_line(
            alloc,
            form,
            asked,
            place,
            line,
            entry,
            earlier,
            &mut others,
            out,
        )?;
        Ok(KeyCounts { counts, stands })
    } else {
        earlier.keep_entry(alloc, place.number, entry.blob(), &facts)?;
        Ok(KeyCounts::OTHER_LINE)
    }
}

/// Appends the record of a line that revokes these bytes, if they have the fingerprint. Of any other
/// revocation only what later lines need is stored.
fn push_key_revoked(
    alloc: Global,
    form: RecordForm,
    asked: &ReviewOptions<'_>,
    place: &LineRef<'_>,
    line: &[u8],
    bytes: &[u8],
    wanted: &[u8; 43],
    earlier: &mut EarlierHosts,
    out: &mut Vec<u8>,
) -> Result<KeyCounts, AllocError>
    ensures text { OnOk result ((lines : List HostLine) → RemembersLines earlier.old lines
        → out.new.items ≡ out.old.items ++ host_key_record wanted.now form
        (asking_of asked.entry.now) place.entry.now.head.now lines place.entry.now.number line.now
        (KnownLine.Revoked bytes.now)) }
    ensures counts { IfOk result (λ reported. (lines : List HostLine) → RemembersLines earlier.old lines
        → reported ≡ host_key_counts wanted.now (asking_of asked.entry.now) lines line.now
        (KnownLine.Revoked bytes.now)) }
    ensures kept { OnOk result ((lines : List HostLine) → RemembersLines earlier.old lines
        → RemembersLines earlier.new (lines ++ host_kept_of
        place.entry.now.number line.now (KnownLine.Revoked bytes.now))) }
{
    let fingerprint = print_of(alloc, bytes)?;
    let stands = fingerprint.as_slice() == wanted.as_slice();
    if stands {
        let counts = push_revoked_line(alloc, form, asked, place, line, bytes, earlier, out)?;
        Ok(KeyCounts { counts, stands })
    } else {
        let facts = RevocationFacts::read(alloc, line, bytes)?;
        earlier.keep_revocation(alloc, place.number, bytes, &facts)?;
        Ok(KeyCounts::OTHER_LINE)
    }
}

/// Appends the record of an unreadable revocation, if it holds the key.
fn push_key_unreadable_revocation(
    alloc: Global,
    form: RecordForm,
    asked: &ReviewOptions<'_>,
    place: &LineRef<'_>,
    line: &[u8],
    wanted: &[u8; 43],
    out: &mut Vec<u8>,
) -> Result<KeyCounts, AllocError>
    ensures text { OnOk result (out.new.items ≡ out.old.items ++ host_key_record wanted.now form
        (asking_of asked.entry.now) place.entry.now.head.now [] place.entry.now.number line.now
        KnownLine.RevokedUnreadable) }
    ensures counts { IfOk result (λ reported. reported ≡ host_key_counts wanted.now
        (asking_of asked.entry.now) [] line.now KnownLine.RevokedUnreadable) }
{
    let held = known_held_key(alloc, line)?;
    let stands = recovers_key(held, wanted);
    if stands {
        let counts = push_unreadable_revocation(alloc, form, asked, place, line, out)?;
        Ok(KeyCounts { counts, stands })
    } else {
        Ok(KeyCounts::OTHER_LINE)
    }
}

/// Appends the record of a line that cannot be read, if it holds the key.
fn push_key_unreadable(
    alloc: Global,
    form: RecordForm,
    asked: &ReviewOptions<'_>,
    place: &LineRef<'_>,
    line: &[u8],
    cause: LineCause,
    wanted: &[u8; 43],
    out: &mut Vec<u8>,
) -> Result<KeyCounts, AllocError>
    ensures text { OnOk result (out.new.items ≡ out.old.items ++ host_key_record wanted.now form
        (asking_of asked.entry.now) place.entry.now.head.now [] place.entry.now.number line.now
        (KnownLine.Unreadable cause)) }
    ensures counts { IfOk result (λ reported. reported ≡ host_key_counts wanted.now
        (asking_of asked.entry.now) [] line.now (KnownLine.Unreadable cause)) }
{
    let held = known_held_key(alloc, line)?;
    let stands = recovers_key(held, wanted);
    if stands {
        let counts = push_unreadable_line(alloc, form, asked, place, line, cause, out)?;
        Ok(KeyCounts { counts, stands })
    } else {
        Ok(KeyCounts::OTHER_LINE)
    }
}

/// Appends the record of a line, if it holds the key.
fn push_key_line(
    alloc: Global,
    form: RecordForm,
    asked: &ReviewOptions<'_>,
    place: &LineRef<'_>,
    line: &[u8],
    view: &KnownLineView<'_>,
    wanted: &[u8; 43],
    earlier: &mut EarlierHosts,
    out: &mut Vec<u8>,
) -> Result<KeyCounts, AllocError>
    ensures text { OnOk result ((lines : List HostLine) → RemembersLines earlier.old lines
        → out.new.items ≡ out.old.items ++ host_key_record wanted.now form
        (asking_of asked.entry.now) place.entry.now.head.now lines place.entry.now.number line.now
        (known_seen view.now)) }
    ensures counts { IfOk result (λ reported. (lines : List HostLine) → RemembersLines earlier.old lines
        → reported ≡ host_key_counts wanted.now (asking_of asked.entry.now) lines line.now
        (known_seen view.now)) }
    ensures kept { OnOk result ((lines : List HostLine) → RemembersLines earlier.old lines
        → RemembersLines earlier.new (lines ++ host_kept_of
        place.entry.now.number line.now (known_seen view.now))) }
{
    match view {
        KnownLineView::Blank | KnownLineView::Comment => Ok(KeyCounts::OTHER_LINE),
        KnownLineView::Entry(entry) => push_key_entry(
            alloc, form, asked, place, line, entry, wanted, earlier, out,
        ),
        KnownLineView::Revoked(bytes) => push_key_revoked(
            alloc, form, asked, place, line, bytes, wanted, earlier, out,
        ),
        KnownLineView::RevokedUnreadable => {
            push_key_unreadable_revocation(alloc, form, asked, place, line, wanted, out)
        }
        KnownLineView::Unreadable(cause) => push_key_unreadable(
            alloc, form, asked, place, line, *cause, wanted, out,
        ),
    }
}

impl<'a> LineRecords for ForKey<'a, EarlierHosts> {
    ghost tells = { KnownKeyTells };

    ghost keys_on = { λ line. [] };

    fn push_record(
        &mut self,
        alloc: Global,
        form: RecordForm,
        asked: &ReviewOptions<'_>,
        place: &LineRef<'_>,
        line: &[u8],
        buffer: &mut KeyBuffer,
        keys: &mut DistinctKeys,
        out: &mut Vec<u8>,
    ) -> Result<KeyCounts, AllocError> {
        let view = read_known_view(line, buffer);
        let wanted = self.wanted;
        let reported = push_key_line(
            alloc,
            form,
            asked,
            place,
            line,
            &view,
            wanted,
            &mut self.earlier,
            out,
        )?;
        Ok(reported)
    }

    ghost ends = { λ x form asking head file line_reports h. h.are_reports };
}

/// The review of a `known_hosts` file of these bytes for the key with this fingerprint, before its
/// first record is made.
pub fn known_key_records<'a>(
    alloc: Global,
    file: &'a [u8],
    wanted: &'a [u8; 43],
) -> Records<'a, ForKey<'a, EarlierHosts>>
    requires { length file.now ≤ file_limit }
    ensures { (form : RecordFormValue) (asking : Asking) (head : List ℕ)
        → HasLeft KnownKeyTells All form asking head file.now
        (host_key_records_of wanted.now form asking head [] (numbered 1 (lines_of file.now)))
        (host_key_counts_of wanted.now asking [] (numbered 1 (lines_of file.now))) result }
{
    let earlier = EarlierHosts::new(alloc);
    Records::new(file, ForKey { wanted, earlier })
}

/// The review of a `known_hosts` file for the key with this fingerprint, which is the base64 after
/// `SHA256:`. It has the records that `review_known` prints of the lines that hold the key, also of
/// those that revoke it or cannot be read, and the end of the file. A file of more than 67,108,864
/// bytes has the fault A7. The text is made as a whole; `known_key_records` makes it a few records at
/// a time.
pub fn review_known_key(
    alloc: Global,
    form: Form,
    asked: &ReviewOptions<'_>,
    head: &[u8],
    file: &[u8],
    wanted: &[u8; 43],
) -> Result<KeyReviewed, AllocError>
    ensures { IfOk result (λ r. key_review r
        ≡ known_key_review wanted.now form (asking_of asked.entry.now) head.now file.now) }
{
    if file.len() > FILE_LIMIT {
        review_key_fault(alloc, form, head, FileFault::TooLong)
    } else {
        let begun = known_key_records(alloc, file, wanted);
        let whole = whole_review(alloc, form, asked, head, file, begun)?;
        Ok(whole)
    }
}
