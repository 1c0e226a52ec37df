//! The records of a trust file, made a few at a time, so that a caller can write them and forget
//! them: then its memory is the file and what is stored of its lines.

ghost use Rattle.std.specs.Prelude.{◌≡◌, ◌++◌, ◌∷◌, ◌<◌, [], ℕ, List, IfOk, OnOk, false, length, true};
ghost use Rattle.ssh_findings.specs.Asking.{Asking, asking_of};
ghost use Rattle.ssh_review.specs.declared.records.RecordForm.{RecordForm as RecordFormValue};
ghost use Rattle.ssh_review.specs.declared.records.RecordForm.TheVariants.{AsLines};
ghost use Rattle.ssh_review.specs.declared.key_review.KeyCounts.{KeyCounts as KeyCountsValue};
ghost use Rattle.ssh_review.specs.declared.show.Show.TheVariants.{All};
ghost use Rattle.ssh_review.specs.KeyRecords.{no_key_counts};
ghost use Rattle.ssh_review.specs.KeyReviews.{key_review, reviewed_by};
ghost use Rattle.ssh_review.specs.Making.{IsWrittenInLines, AreWholeLines, HasLeft, IsAllMade, MakesFront, keys_left, lines_left};
ghost use Rattle.ssh_review.specs.DistinctKeys.{with_keys};
ghost use Rattle.ssh_review.specs.LineReports.{LineReport, line_report};

use crate::distinct_keys::DistinctKeys;
use crate::end::Form;
use crate::json_record::LineRef;
use crate::key_review::{KeyCounts, KeyReviewed, with_end};
use crate::show::{Show, leave_shown};
use ssh_entries::KeyBuffer;
use ssh_findings::ReviewOptions;
use ssh_text::Lines;
use std::alloc::{AllocError, Global};

/// How the record of a line is written.
#[derive(Clone, Copy, Debug, PartialEq, Eq)]
pub enum RecordForm {
    /// In lines of an output format.
    AsLines(Form),
    /// As a row of the page, in the section of the file with this number, from 0.
    AsRow(u64),
}

/// What is stored of the lines of a trust file whose records were made, and how the record of the
/// next is.
pub trait LineRecords {
    /// After the lines that were stored, these lines of the file of this head, each with its number,
    /// tell this, one after the other.
    ghost tells: { Self → RecordFormValue → Asking → List ℕ → List ℕ → List (ℕ × List ℕ) → List LineReport → Type 0 };

    /// The keys of this line that are noted.
    ghost keys_on: { List ℕ → List (List ℕ) };

    /// Appends the record of a line, if it has one, stores what later lines need of the line, notes
    /// its key, and returns its counts. The line's key is decoded into the buffer.
    fn push_record(
        &mut self,
        alloc: Global,
        form: RecordForm,
        asked: &ReviewOptions<'_>,
        place: &LineRef<'_>,
        line: &[u8],
        buffer: &mut KeyBuffer,
        keys: &mut DistinctKeys,
        out: &mut Vec<u8>,
    ) -> Result<KeyCounts, AllocError>
        ensures noted { OnOk result (keys.new ≡ with_keys keys.old (keys_on line.now)) }
        ensures record { IfOk result (λ reported. (file : List ℕ) (lines : List (ℕ × List ℕ)) (line_reports : List LineReport)
            → tells self.old form (asking_of asked.entry.now) place.entry.now.head.now file
            ((place.entry.now.number, line.now) ∷ lines) line_reports
            → (own : List ℕ) × (more : List LineReport) × (line_reports ≡ line_report own reported ∷ more)
            × tells self.new form (asking_of asked.entry.now) place.entry.now.head.now file lines more
            × (out.new.items ≡ out.old.items ++ own)
            × (IsWrittenInLines form → AreWholeLines out.old.items → AreWholeLines out.new.items)) };

    /// No lines tell nothing.
    ghost ends: { (x : Self) (form : RecordFormValue) (asking : Asking) (head file : List ℕ) (line_reports : List LineReport)
        → tells x form asking head file [] line_reports → line_reports ≡ [] };
}

/// What is stored of earlier lines, where only the records of the lines that hold one key are made:
/// the base64 of its fingerprint, and what the review of all keys stores.
#[derive(Drop)]
pub struct ForKey<'a, E> {
    pub(crate) wanted: &'a [u8; 43],
    pub(crate) earlier: E,
}

/// How many bytes of records are made at a time, and some more: those of the last record.
const ENOUGH: usize = 65_536;

/// The review of a file, of which the records are made a few at a time, in the order of the lines.
#[derive(Drop)]
pub struct Records<'a, L> {
    lines: Lines<'a>,
    earlier: L,
    reported: KeyCounts,
}

impl<'a, L: LineRecords + Drop> Records<'a, L> {
    /// The review of these bytes before its first record, where this stores what later lines need.
    pub(crate) fn new(file: &'a [u8], earlier: L) -> Records<'a, L>
        ensures lines { result.lines ≡ (1, file.now) }
        ensures earlier { result.earlier ≡ earlier }
        ensures reported { result.reported ≡ no_key_counts }
    {
        Records {
            lines: Lines::new(file),
            earlier,
            reported: KeyCounts::NONE,
        }
    }

    /// The counts of the lines whose records were made.
    pub fn reported(&self) -> KeyCounts
        ensures { result ≡ self.now.reported }
    {
        self.reported
    }

    /// Appends the record of the next line, if it is shown. Returns whether there was a line.
    fn push_next(
        &mut self,
        alloc: Global,
        show: Show,
        form: RecordForm,
        asked: &ReviewOptions<'_>,
        head: &[u8],
        buffer: &mut KeyBuffer,
        keys: &mut DistinctKeys,
        out: &mut Vec<u8>,
    ) -> Result<bool, AllocError>
        ensures made { OnOk result (MakesFront L.tells show form (asking_of asked.entry.now) head.now
            self.old self.new out.old.items out.new.items) }
        ensures more { IfOk result (λ more. more ≡ true
            → length (lines_left self.new) < length (lines_left self.old)) }
        ensures over { IfOk result (λ more. more ≡ false
            → IsAllMade L.tells show form (asking_of asked.entry.now) head.now self.new) }
        ensures noted { OnOk result
            (keys_left L.keys_on self.new keys.new ≡ keys_left L.keys_on self.old keys.old) }
        ensures none { IfOk result (λ more. more ≡ false → lines_left self.new ≡ []) }
    {
        match self.lines.next() {
            None => Ok(false),
            Some((number, line)) => {
                let place = LineRef { head, number };
                let before = out.len();
                let reported = self
                    .earlier
                    .push_record(alloc, form, asked, &place, line, buffer, keys, out)?;
                leave_shown(out, before, show.shows(reported.counts));
                self.reported = self.reported.plus(reported);
                Ok(true)
            }
        }
    }

    /// Appends the records of further lines, those that are shown, until there are some 65,536 bytes
    /// of them, or no line is left. Returns whether a line may be left. What is shown, the format, the
    /// options and the name are to be the same in each call. Keys are decoded into the buffer, whatever
    /// is in it.
    pub fn push_some(
        &mut self,
        alloc: Global,
        show: Show,
        form: RecordForm,
        asked: &ReviewOptions<'_>,
        head: &[u8],
        buffer: &mut KeyBuffer,
        keys: &mut DistinctKeys,
        out: &mut Vec<u8>,
    ) -> Result<bool, AllocError>
        ensures made { OnOk result (MakesFront L.tells show form (asking_of asked.entry.now) head.now
            self.old self.new out.old.items out.new.items) }
        ensures more { IfOk result (λ more. more ≡ true
            → length (lines_left self.new) < length (lines_left self.old)) }
        ensures over { IfOk result (λ more. more ≡ false
            → IsAllMade L.tells show form (asking_of asked.entry.now) head.now self.new) }
        ensures noted { OnOk result
            (keys_left L.keys_on self.new keys.new ≡ keys_left L.keys_on self.old keys.old) }
        ensures none { IfOk result (λ more. more ≡ false → lines_left self.new ≡ []) }
    {
        while self.push_next(alloc, show, form, asked, head, buffer, keys, out)? {
            if out.len() >= ENOUGH {
                return Ok(true);
            }
        }
        Ok(false)
    }
}

/// Appends all records of a file of which none was made, and returns their counts.
pub(crate) fn push_all<L: LineRecords + Drop>(
    alloc: Global,
    form: RecordForm,
    asked: &ReviewOptions<'_>,
    head: &[u8],
    begun: Records<'_, L>,
    keys: &mut DistinctKeys,
    out: &mut Vec<u8>,
) -> Result<KeyCounts, AllocError>
    ensures noted { OnOk result (keys.new ≡ keys_left L.keys_on begun.entry keys.old) }
    ensures made { IfOk result (λ reported. (file text : List ℕ) (all : KeyCountsValue)
        → HasLeft L.tells All form (asking_of asked.entry.now) head.now file text all begun.entry
        → (out.new.items ≡ out.old.items ++ text) × (reported ≡ all)) }
{
    let mut buffer = KeyBuffer::new(alloc)?;
    let mut records = begun;
    while records.push_some(alloc, Show::All, form, asked, head, &mut buffer, keys, out)? {}
    Ok(records.reported)
}

/// The whole review of a file, of which no record was made: all records, and the end of the file.
pub(crate) fn whole_review<L: LineRecords + Drop>(
    alloc: Global,
    form: Form,
    asked: &ReviewOptions<'_>,
    head: &[u8],
    file: &[u8],
    begun: Records<'_, L>,
) -> Result<KeyReviewed, AllocError>
    ensures { IfOk result (λ r. (text : List ℕ) (all : KeyCountsValue)
        → HasLeft L.tells All (AsLines form) (asking_of asked.entry.now) head.now file.now text all begun.entry
        → key_review r ≡ reviewed_by form head.now file.now text all) }
{
    let mut text = Vec::new(alloc);
    let mut keys = DistinctKeys::new(alloc);
    let reported = push_all(
        alloc,
        RecordForm::AsLines(form),
        asked,
        head,
        begun,
        &mut keys,
        &mut text,
    )?;
    let reviewed = with_end(alloc, form, head, file, reported, text)?;
    Ok(reviewed)
}
