//! Laws of the page, proved of functions without a body: no text of a file can become markup.

ghost use Rattle.std.specs.Prelude.{◌≡◌, ◌++◌, ◌∷◌, [], ℕ, true, false, not, codes, List, Option};
ghost use Rattle.std.specs.Fmt.{decimal};
ghost use Rattle.std.specs.List.{AllByRecursion, list_all};
ghost use Rattle.std.specs.List.Sorted.{IsPermutation};
ghost use Rattle.ssh_findings.specs.Codes.{code_text};
ghost use Rattle.ssh_findings.specs.Findings.{auth_row};
ghost use Rattle.ssh_findings.specs.HostFindingsFindings.{host_row};
ghost use Rattle.ssh_findings.specs.declared.code.Code.{Code};
ghost use Rattle.ssh_findings.specs.declared.facts.Facts.{Facts};
ghost use Rattle.ssh_findings.specs.declared.finding.Finding.{Finding};
ghost use Rattle.ssh_findings.specs.declared.host_facts.HostFacts.{HostFacts};
ghost use Rattle.ssh_findings.specs.declared.host_finding.HostFinding.{HostFinding};
ghost use Rattle.ssh_findings.specs.declared.recovered_key.HeldKey.{HeldKey};
ghost use Rattle.ssh_offers.specs.FirstRefusal.{AreBytes};
ghost use Rattle.ssh_page.specs.declared.file.FileKind.{FileKind};
ghost use Rattle.ssh_page.specs.declared.file.FileKind.TheVariants.{AuthorizedKeys, KnownHosts};
ghost use Rattle.ssh_page.specs.declared.header.PageTotals.{PageTotals};
ghost use Rattle.ssh_page.specs.declared.mend.CodeCount.{CodeCount};
ghost use Rattle.ssh_page.specs.declared.piece.Piece.{Piece};
ghost use Rattle.ssh_page.specs.declared.record.RowPlace.{RowPlace};
ghost use Rattle.ssh_page.specs.Choices.{choices};
ghost use Rattle.ssh_page.specs.Documents.{◌&◌, Document, IsOfBytes, after, html, marks, pieces_of, texts_of};
ghost use Rattle.ssh_page.specs.Expanding.{delimiters, page, text_html, without_text};
ghost use Rattle.ssh_page.specs.Files.{ClassesSeen, FileSeen, empty_section, fault_row, fault_section, file_row, register, section};
ghost use Rattle.ssh_page.specs.FoundRows.{AreNumbers, HasPlaces, found_place};
ghost use Rattle.ssh_page.specs.HostRecords.{bare_row, host_entry_row, revoked_row};
ghost use Rattle.ssh_page.specs.KeyGroups.{AreOfOneKey, KeyGroupSeen, by_key, groups_in, grouped_rows};
ghost use Rattle.ssh_page.specs.KeyLists.{keys, keys_texts};
ghost use Rattle.ssh_page.specs.KeyRows.{HasKeyRows, IsHeldPrint, IsPrint, KeyRowSeen, held_rows, is_unlimited, row_of};
ghost use Rattle.ssh_page.specs.Mending.{mend, mend_names};
ghost use Rattle.ssh_page.specs.Pages.{header, whole_page};
ghost use Rattle.ssh_page.specs.Pieces.{tags};
ghost use Rattle.ssh_page.specs.Places.{LinesSeen, renamed};
ghost use Rattle.ssh_page.specs.Questions.{QuestionSeen, is_of};
ghost use Rattle.ssh_page.specs.Reading.{read_text};
ghost use Rattle.ssh_page.specs.Records.{entry_row, unreadable_row};
ghost use Rattle.ssh_page.specs.Shown.{are_shown};
ghost use Rattle.ssh_page.specs.StandIns.{entry_texts, facts_stand_in, host_stand_in, if_bytes};
ghost use Rattle.ssh_page.specs.Tags.{is_sound, within};
ghost use Rattle.ssh_page.specs.Classes.{code_number};

/// Each `<`, each `>` and each quote of a page is a piece's, for every marked text: the page without
/// its texts has the same. A reader of HTML reads each text back as it is.
fn text_rule()
    ensures markup { (m : List ℕ)
        → delimiters (page m) ≡ delimiters (page (without_text m)) }
    ensures read { (text : List ℕ) → read_text (text_html text) ≡ text }
{}

/// The page of a marked text is the HTML of its pieces and texts: no text is taken for a piece, and
/// each piece is its own. In a piece no attribute has an angle bracket, and its quotes are those
/// that its place in a tag needs.
fn page_rule()
    ensures expanded { (d : Document) → IsOfBytes d → page (marks d) ≡ html d }
    ensures sound { (p : Piece) → list_all is_sound (tags p) ≡ true }
    ensures class { (c : Code) → code_text c ≡ codes "F" ++ decimal (code_number c) }
{}

/// Each byte of a page is printable ASCII or an LF, whatever bytes are in the files.
fn shown_rule()
    ensures { (d : Document) → IsOfBytes d → are_shown (page (marks d)) ≡ true }
{}

/// Each finding has a code that files of its kind may have: nothing that can be found is left out of
/// the codes that were looked for, or that were not.
fn kinds_rule()
    ensures keys { (f : Finding) → is_of AuthorizedKeys (auth_row f).code ≡ true }
    ensures hosts { (f : HostFinding) → is_of KnownHosts (host_row f).code ≡ true }
{}

/// Each row closes what it opens, whatever its texts; no text stands within a tag, and in the values
/// of attributes digits alone. (`after` is nowhere where one of these does not hold.)
fn rows_close_rule()
    ensures entry { (opened : List (List ℕ)) (place : RowPlace) (f : Facts) (found : List Finding)
        → after (within opened) (entry_row place f found) ≡ within opened }
    ensures unreadable { (opened : List (List ℕ)) (place : RowPlace) (held : Option HeldKey)
        (found : List Finding)
        → after (within opened) (unreadable_row place held found) ≡ within opened }
    ensures host_entry { (opened : List (List ℕ)) (place : RowPlace) (f : HostFacts)
        (found : List HostFinding)
        → after (within opened) (host_entry_row place f found) ≡ within opened }
    ensures revoked { (opened : List (List ℕ)) (place : RowPlace) (fingerprint names : List ℕ)
        (found : List HostFinding)
        → after (within opened) (revoked_row place fingerprint names found) ≡ within opened }
    ensures bare { (opened : List (List ℕ)) (place : RowPlace) (is : List ℕ) (held : Option HeldKey)
        (found : List HostFinding)
        → after (within opened) (bare_row place is held found) ≡ within opened }
{}

/// Each section of a file and the register close what they open, if their rows do.
fn sections_close_rule()
    ensures whole { (opened : List (List ℕ)) (file : ℕ) (kind : FileKind) (f : FileSeen)
        (classes : ClassesSeen) (rows : Document)
        → ((inner : List (List ℕ)) → after (within inner) rows ≡ within inner)
        → after (within opened) (section file kind f classes rows) ≡ within opened }
    ensures empty { (opened : List (List ℕ)) (file : ℕ) (f : FileSeen)
        → after (within opened) (empty_section file f) ≡ within opened }
    ensures fault { (opened : List (List ℕ)) (file : ℕ) (name code means : List ℕ)
        → after (within opened) (fault_section file name code means) ≡ within opened }
    ensures whole_register { (opened : List (List ℕ)) (rows : Document) (total : List ℕ)
        → ((inner : List (List ℕ)) → after (within inner) rows ≡ within inner)
        → after (within opened) (register rows total) ≡ within opened }
    ensures row_of_file { (opened : List (List ℕ)) (file : ℕ) (f : FileSeen)
        → after (within opened) (file_row file f) ≡ within opened }
    ensures row_of_fault { (opened : List (List ℕ)) (file : ℕ) (name code means : List ℕ)
        → after (within opened) (fault_row file name code means) ≡ within opened }
{}

/// The whole page closes what it opens, if its sections and rows do.
fn page_closes_rule()
    ensures { (title : List ℕ) (q : QuestionSeen) (t : PageTotals) (found : List CodeCount)
        (names : List (List ℕ)) (sections rows : Document) (total : List ℕ)
        → ((inner : List (List ℕ)) → after (within inner) sections ≡ within inner)
        → ((inner : List (List ℕ)) → after (within inner) rows ≡ within inner)
        → after (within []) (whole_page title q t found names sections rows total) ≡ within [] }
{}

/// Whoever writes the texts of a file cannot choose a tag: with one letter in place of each text, a
/// row has the same pieces in the same order. Only whether a comment has bytes is seen. With other
/// names of files, what has to be mended has the same pieces, and so has the list of keys.
fn shape_rule()
    ensures entry { (place : RowPlace) (f : Facts) (found : List Finding)
        → pieces_of (entry_row place f found) ≡ pieces_of (entry_row place (facts_stand_in f) found) }
    ensures host_entry { (place : RowPlace) (f : HostFacts) (found : List HostFinding)
        → pieces_of (host_entry_row place f found)
        ≡ pieces_of (host_entry_row place (host_stand_in f) found) }
    ensures revoked { (place : RowPlace) (fingerprint names : List ℕ) (found : List HostFinding)
        → pieces_of (revoked_row place fingerprint names found)
        ≡ pieces_of (revoked_row place fingerprint [] found) }
    ensures mend { (q : QuestionSeen) (t : PageTotals) (found : List CodeCount) (l : LinesSeen)
        (names : List (List ℕ))
        → pieces_of (mend q t found l) ≡ pieces_of (mend q t found (renamed names l)) }
    ensures keys { (l : LinesSeen) (names : List (List ℕ))
        → pieces_of (keys l) ≡ pieces_of (keys (renamed names l)) }
{}

/// Each text of a line stands in its row once, between `<code>` and `</code>`, in the order of the
/// text format, and nothing else stands so. No text of a file stands in the header or in a choice. In what has to be
/// mended the names of files stand so, one for each line that is listed, and nothing else does. In the
/// list of keys the comment of the first line of a key does too, as it stands in its row.
fn texts_rule()
    ensures entry { (place : RowPlace) (f : Facts) (found : List Finding)
        → texts_of (entry_row place f found) ≡ entry_texts f }
    ensures unreadable { (place : RowPlace) (held : Option HeldKey) (found : List Finding)
        → texts_of (unreadable_row place held found) ≡ [] }
    ensures host_entry { (place : RowPlace) (f : HostFacts) (found : List HostFinding)
        → texts_of (host_entry_row place f found) ≡ if_bytes f.comment ++ f.names ∷ [] }
    ensures revoked { (place : RowPlace) (fingerprint names : List ℕ) (found : List HostFinding)
        → texts_of (revoked_row place fingerprint names found) ≡ names ∷ [] }
    ensures bare { (place : RowPlace) (is : List ℕ) (held : Option HeldKey) (found : List HostFinding)
        → texts_of (bare_row place is held found) ≡ [] }
    ensures header { (q : QuestionSeen) (t : PageTotals) → texts_of (header q t) ≡ [] }
    ensures choices { (found : List CodeCount) → texts_of (choices found) ≡ [] }
    ensures mend { (q : QuestionSeen) (t : PageTotals) (found : List CodeCount) (l : LinesSeen)
        → texts_of (mend q t found l) ≡ mend_names l found }
    ensures keys { (l : LinesSeen) → texts_of (keys l) ≡ keys_texts l }
{}

/// Each row with a finding of a code is one place of the code, with the numbers of its file and of its
/// line, and nothing else in a section is one. So the places that a page lists of a code are these
/// rows, in their order.
fn places_rule()
    ensures entry { (c : Code) (place : RowPlace) (f : Facts) (found : List Finding)
        → AreNumbers place → IsOfBytes (entry_row place f found)
        → HasPlaces c (entry_row place f found) (found_place auth_row c place found) }
    ensures unreadable { (c : Code) (place : RowPlace) (held : Option HeldKey) (found : List Finding)
        → AreNumbers place → IsOfBytes (unreadable_row place held found)
        → HasPlaces c (unreadable_row place held found) (found_place auth_row c place found) }
    ensures host_entry { (c : Code) (place : RowPlace) (f : HostFacts) (found : List HostFinding)
        → AreNumbers place → IsOfBytes (host_entry_row place f found)
        → HasPlaces c (host_entry_row place f found) (found_place host_row c place found) }
    ensures revoked { (c : Code) (place : RowPlace) (fingerprint names : List ℕ)
        (found : List HostFinding)
        → AreNumbers place → IsOfBytes (revoked_row place fingerprint names found)
        → HasPlaces c (revoked_row place fingerprint names found) (found_place host_row c place found) }
    ensures bare { (c : Code) (place : RowPlace) (is : List ℕ) (held : Option HeldKey)
        (found : List HostFinding)
        → AreNumbers place → IsOfBytes (bare_row place is held found)
        → HasPlaces c (bare_row place is held found) (found_place host_row c place found) }
    ensures whole { (c : Code) (file : ℕ) (kind : FileKind) (f : FileSeen) (classes : ClassesSeen)
        (rows : Document) (places : List RowPlace)
        → IsOfBytes (section file kind f classes rows) → HasPlaces c rows places
        → HasPlaces c (section file kind f classes rows) places }
    ensures empty { (c : Code) (file : ℕ) (f : FileSeen)
        → IsOfBytes (empty_section file f) → HasPlaces c (empty_section file f) [] }
    ensures fault { (c : Code) (file : ℕ) (name code means : List ℕ)
        → IsOfBytes (fault_section file name code means)
        → HasPlaces c (fault_section file name code means) [] }
    ensures both { (c : Code) (a b : Document) (first second : List RowPlace)
        → HasPlaces c a first → HasPlaces c b second → HasPlaces c (a & b) (first ++ second) }
{}

/// Each line with a key is one row of those that the list of keys is made of, with the numbers of its
/// file and of itself, its comment and its key, and nothing else in a section is one. Its rights are
/// limited there unless the line has all of them and nothing limits the key. Each of these rows is in
/// the list exactly once, with all others of its key and in their order. Whatever stands in the
/// sections, what the list copies from them is printable.
fn keys_rule()
    ensures entry { (place : RowPlace) (f : Facts) (found : List Finding)
        → AreNumbers place → IsPrint f.fingerprint → IsOfBytes (entry_row place f found)
        → HasKeyRows (entry_row place f found)
        (row_of place f.comment f.fingerprint (not (is_unlimited f)) ∷ []) }
    ensures unreadable { (place : RowPlace) (held : Option HeldKey) (found : List Finding)
        → AreNumbers place → IsHeldPrint held → IsOfBytes (unreadable_row place held found)
        → HasKeyRows (unreadable_row place held found) (held_rows place held) }
    ensures host_entry { (place : RowPlace) (f : HostFacts) (found : List HostFinding)
        → AreNumbers place → IsPrint f.fingerprint → IsOfBytes (host_entry_row place f found)
        → HasKeyRows (host_entry_row place f found)
        (row_of place f.comment f.fingerprint false ∷ []) }
    ensures revoked { (place : RowPlace) (print names : List ℕ) (found : List HostFinding)
        → AreNumbers place → IsPrint print → IsOfBytes (revoked_row place print names found)
        → HasKeyRows (revoked_row place print names found) (row_of place [] print false ∷ []) }
    ensures bare { (place : RowPlace) (is : List ℕ) (held : Option HeldKey)
        (found : List HostFinding)
        → AreNumbers place → IsHeldPrint held → IsOfBytes (bare_row place is held found)
        → HasKeyRows (bare_row place is held found) (held_rows place held) }
    ensures whole { (file : ℕ) (kind : FileKind) (f : FileSeen) (classes : ClassesSeen)
        (rows : Document) (found : List KeyRowSeen)
        → IsOfBytes (section file kind f classes rows) → HasKeyRows rows found
        → HasKeyRows (section file kind f classes rows) found }
    ensures empty { (file : ℕ) (f : FileSeen)
        → IsOfBytes (empty_section file f) → HasKeyRows (empty_section file f) [] }
    ensures fault { (file : ℕ) (name code means : List ℕ)
        → IsOfBytes (fault_section file name code means)
        → HasKeyRows (fault_section file name code means) [] }
    ensures both { (a b : Document) (first second : List KeyRowSeen)
        → HasKeyRows a first → HasKeyRows b second → HasKeyRows (a & b) (first ++ second) }
    ensures once { (rows : List KeyRowSeen)
        → IsPermutation rows (grouped_rows (groups_in (by_key rows))) }
    ensures together { (rows : List KeyRowSeen)
        → AllByRecursion (λ (g : KeyGroupSeen). AreOfOneKey rows g.rows) (groups_in (by_key rows)) }
    ensures bytes { (l : LinesSeen) → AllByRecursion AreBytes l.names → IsOfBytes (keys l) }
{}
