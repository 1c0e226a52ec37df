//! Laws about the output of a review, proved of functions without a body.

ghost use Rattle.std.specs.Prelude.{◌≡◌, ◌⊎◌, [], ℕ, Bool, true, List, Option};
ghost use Rattle.ssh_entries.specs.AuthGrammar.{auth_line};
ghost use Rattle.ssh_findings.specs.Asking.{Asking};
ghost use Rattle.ssh_findings.specs.CodeCounts.{findings_in};
ghost use Rattle.ssh_findings.specs.Earlier.{Held};
ghost use Rattle.ssh_offers.specs.FirstRefusal.{AreBytes};
ghost use Rattle.ssh_review.specs.OneLine.{is_line, HaveByteValues, IsHeldOfBytes, IsOfBytes, are_printable};
ghost use Rattle.ssh_review.specs.declared.end.Counts.{Counts};
ghost use Rattle.ssh_review.specs.declared.end.FileFault.{FileFault};
ghost use Rattle.ssh_review.specs.declared.end.Total.{Total};
ghost use Rattle.ssh_review.specs.declared.end.Form.{Form};
ghost use Rattle.ssh_review.specs.declared.end.Form.TheVariants.{Json, Line};
ghost use Rattle.ssh_review.specs.declared.record_field.FieldForm.TheVariants.{Member};
ghost use Rattle.ssh_page.specs.declared.file.FileKind.{FileKind};
ghost use Rattle.ssh_page.specs.declared.file.FileKind.TheVariants.{AuthorizedKeys, KnownHosts};
ghost use Rattle.ssh_review.specs.declared.records.RecordForm.TheVariants.{AsLines};
ghost use Rattle.ssh_review.specs.FileNames.{IsNameOfBytes, NameSeen, file_head};
ghost use Rattle.ssh_review.specs.EndObjects.{end_object, fault_object, total_object};
ghost use Rattle.ssh_review.specs.Forms.{end_line, file_fault_line, total_line};
ghost use Rattle.ssh_review.specs.Lines.{counts_of, line_record};
ghost use Rattle.ssh_review.specs.Reviews.{auth_review};
ghost use Rattle.ssh_review.specs.Shown.{are_shown_in};
ghost use Rattle.ssh_options.specs.AuthOption.{AuthOption};
ghost use Rattle.ssh_findings.specs.declared.facts.Facts.{Facts};
ghost use Rattle.ssh_findings.specs.declared.finding.Finding.{Finding};
ghost use Rattle.ssh_findings.specs.declared.recovered_key.HeldKey.{HeldKey};
ghost use Rattle.ssh_review.specs.Objects.{entry_in, unreadable_in};
ghost use Rattle.ssh_print.specs.Strings.{json_text};
ghost use Rattle.ssh_entries.specs.KnownGrammar.{known_line};
ghost use Rattle.ssh_findings.specs.HostLines.{HostLine};
ghost use Rattle.ssh_review.specs.HostLines.{host_counts_of, host_line_record};
ghost use Rattle.ssh_review.specs.HostReviews.{known_review};
ghost use Rattle.ssh_review.specs.Tables.{IsRow};

/// In JSON each record, each end and the total is one line of printable ASCII, whatever bytes are
/// in the file and in its name.
fn one_line_rule()
    ensures one { (asking : Asking) (name : NameSeen) (earlier : List Held) (n : ℕ) (line : List ℕ)
        → IsNameOfBytes name
        → AreBytes line
        → (line_record (AsLines Json) asking (file_head Json name) earlier (n, line) (auth_line line) ≡ [])
        ⊎ (is_line (line_record (AsLines Json) asking (file_head Json name) earlier (n, line) (auth_line line)) ≡ true) }
    ensures end { (name : NameSeen) (counts : Counts) (digest : List ℕ)
        → IsNameOfBytes name
        → AreBytes digest
        → is_line (end_object (file_head Json name) counts digest) ≡ true }
    ensures fault { (name : NameSeen) (fault : FileFault)
        → IsNameOfBytes name
        → is_line (fault_object (file_head Json name) fault) ≡ true }
    ensures total { (kind zone : List ℕ) (asking : Asking) (t : Total)
        → AreBytes kind
        → AreBytes zone
        → is_line (total_object kind zone asking t) ≡ true }
{}

/// In each format the output is printable ASCII and the LFs at the ends of lines, and in a table the
/// tabs between cells, whatever bytes are in the file and in its name.
fn shown_rule()
    ensures review { (form : Form) (asking : Asking) (name : NameSeen) (file : List ℕ)
        → IsNameOfBytes name
        → AreBytes file
        → are_shown_in form (auth_review form asking (file_head form name) file).text ≡ true }
    ensures fault { (form : Form) (name : NameSeen) (fault : FileFault)
        → IsNameOfBytes name
        → are_shown_in form (file_fault_line form (file_head form name) fault) ≡ true }
    ensures total { (form : Form) (kind zone : List ℕ) (asking : Asking) (t : Total)
        → AreBytes kind
        → AreBytes zone
        → are_shown_in form (total_line form kind zone asking t) ≡ true }
{}

/// Each reported finding of a file is counted under its code: the numbers of all codes together are
/// the number of findings.
fn counts_rule()
    ensures entries { (asking : Asking) (lines : List (ℕ × List ℕ))
        → findings_in (counts_of asking [] lines).by_code ≡ (counts_of asking [] lines).findings }
    ensures hosts { (asking : Asking) (lines : List (ℕ × List ℕ))
        → findings_in (host_counts_of asking [] lines).by_code
        ≡ (host_counts_of asking [] lines).findings }
{}

/// Each record is one line of printable ASCII, whatever bytes it is given: no byte of a file can
/// break a reader of lines, or a terminal.
fn json_lines_rule()
    ensures string { (text : List ℕ) → AreBytes text → are_printable (json_text text) ≡ true }
    ensures entry { (name : NameSeen) (n : ℕ) (f : Facts) (options : List AuthOption)
        (shadowed_by : Option ℕ) (lets_in : Bool) (found : List Finding)
        → IsNameOfBytes name
        → IsOfBytes f
        → HaveByteValues options
        → is_line (entry_in Member (file_head Json name) n f options shadowed_by lets_in found) ≡ true }
    ensures unreadable { (name : NameSeen) (n : ℕ) (held : Option HeldKey) (found : List Finding)
        → IsNameOfBytes name
        → IsHeldOfBytes held
        → is_line (unreadable_in Member (file_head Json name) n held found) ≡ true }
{}

/// In JSON each record of a `known_hosts` file is one line of printable ASCII, whatever bytes are
/// in the file and in its name.
fn host_one_line_rule()
    ensures { (asking : Asking) (name : NameSeen) (earlier : List HostLine) (n : ℕ) (line : List ℕ)
        → IsNameOfBytes name
        → AreBytes line
        → (host_line_record (AsLines Json) asking (file_head Json name) earlier n line (known_line line) ≡ [])
        ⊎ (is_line (host_line_record (AsLines Json) asking (file_head Json name) earlier n line (known_line line)) ≡ true) }
{}

/// For a `known_hosts` file too, in each format the output is printable ASCII and the LFs at the
/// ends of lines, and in a table tabs.
fn host_shown_rule()
    ensures { (form : Form) (asking : Asking) (name : NameSeen) (file : List ℕ)
        → IsNameOfBytes name
        → AreBytes file
        → are_shown_in form (known_review form asking (file_head form name) file).text ≡ true }
{}

/// In a table each record, each end and the total is one line with as many tabs as the header has,
/// whatever bytes are in the file and in its name: no text can begin another cell or another row.
fn table_rule()
    ensures one { (asking : Asking) (name : NameSeen) (earlier : List Held) (n : ℕ) (line : List ℕ)
        → IsNameOfBytes name
        → AreBytes line
        → (line_record (AsLines (Line AuthorizedKeys)) asking (file_head (Line AuthorizedKeys) name) earlier (n, line) (auth_line line) ≡ [])
        ⊎ IsRow AuthorizedKeys (line_record (AsLines (Line AuthorizedKeys)) asking (file_head (Line AuthorizedKeys) name) earlier (n, line) (auth_line line)) }
    ensures host { (asking : Asking) (name : NameSeen) (earlier : List HostLine) (n : ℕ) (line : List ℕ)
        → IsNameOfBytes name
        → AreBytes line
        → (host_line_record (AsLines (Line KnownHosts)) asking (file_head (Line KnownHosts) name) earlier n line (known_line line) ≡ [])
        ⊎ IsRow KnownHosts (host_line_record (AsLines (Line KnownHosts)) asking (file_head (Line KnownHosts) name) earlier n line (known_line line)) }
    ensures end { (kind : FileKind) (name : NameSeen) (counts : Counts) (digest : List ℕ)
        → IsNameOfBytes name
        → AreBytes digest
        → IsRow kind (end_line (Line kind) (file_head (Line kind) name) counts digest) }
    ensures fault { (kind : FileKind) (name : NameSeen) (fault : FileFault)
        → IsNameOfBytes name
        → IsRow kind (file_fault_line (Line kind) (file_head (Line kind) name) fault) }
    ensures total { (kind : FileKind) (word zone : List ℕ) (asking : Asking) (t : Total)
        → AreBytes zone
        → IsRow kind (total_line (Line kind) word zone asking t) }
{}
