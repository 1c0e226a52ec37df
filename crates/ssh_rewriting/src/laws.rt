//! Laws of the definitions, and worked examples: the check proves what each function ensures. No call
//! needs them.

ghost use Rattle.std.specs.Prelude.{◌≡◌, ◌<◌, ◌≤◌, ℕ, List, length};
ghost use Rattle.std.specs.List.{AllByRecursion};
ghost use Rattle.ssh_text.specs.Text.{line_limit};
ghost use Rattle.ssh_text.specs.Scan.{HasNoNewline};
ghost use Rattle.ssh_entries.specs.Names.{IsTwentyBytes, hidden};
ghost use Rattle.ssh_entries.specs.AuthEntry.{AuthEntry};
ghost use Rattle.ssh_entries.specs.AuthGrammar.{SpellsEntry, auth_line};
ghost use Rattle.ssh_entries.specs.KnownEntry.{KnownEntry};
ghost use Rattle.ssh_entries.specs.KnownGrammar.{SpellsKnown, known_line};
ghost use Rattle.ssh_rewriting.specs.Canonical.{canonical_auth, canonical_known};
ghost use Rattle.ssh_rewriting.specs.HashedFile.{hashed_facts, hashed_file, hashed_length, hashed_line, names_hidden};
ghost use Rattle.ssh_rewriting.specs.HashedNames.{AddsNoName, KeepsNames};
ghost use Rattle.ssh_rewriting.specs.Facts.{known_facts};
ghost use Rattle.ssh_rewriting.specs.Samples.{AuthFilesWritten, AuthSamplesWritten, HashedFilesWritten, KnownFilesWritten, KnownSamplesWritten};
ghost use Rattle.ssh_entries.specs.declared.auth_line.AuthLine.TheVariants as auth;
ghost use Rattle.ssh_entries.specs.declared.known_line.KnownLine.TheVariants as known;

/// The canonical line of an authorized_keys entry spells that entry and is read as it, is no longer
/// than any line that spells it, and is one line.
fn canonical_auth_rule()
    ensures spelled { (entry : AuthEntry) (line : List ℕ) →
        SpellsEntry entry line → SpellsEntry entry (canonical_auth entry) }
    ensures read { (entry : AuthEntry) (line : List ℕ) →
        SpellsEntry entry line → auth_line (canonical_auth entry) ≡ auth.Entry entry }
    ensures no_longer { (entry : AuthEntry) (line : List ℕ) →
        SpellsEntry entry line → length (canonical_auth entry) ≤ length line }
    ensures one_line { (entry : AuthEntry) (line : List ℕ) →
        SpellsEntry entry line → HasNoNewline line → HasNoNewline (canonical_auth entry) }
{}

/// The canonical line of a known_hosts entry spells that entry and is read as it, is no longer than
/// any line that spells it, and is one line.
fn canonical_known_rule()
    ensures spelled { (entry : KnownEntry) (line : List ℕ) →
        SpellsKnown entry line → SpellsKnown entry (canonical_known entry) }
    ensures read { (entry : KnownEntry) (line : List ℕ) →
        SpellsKnown entry line → known_line (canonical_known entry) ≡ known.Entry entry }
    ensures no_longer { (entry : KnownEntry) (line : List ℕ) →
        SpellsKnown entry line → length (canonical_known entry) ≤ length line }
    ensures one_line { (entry : KnownEntry) (line : List ℕ) →
        SpellsKnown entry line → HasNoNewline line → HasNoNewline (canonical_known entry) }
{}

/// The line with a hashed name of a known_hosts entry spells the entry with that name hashed and is
/// read as it, where the salt has 20 bytes and the line is within its limit. It is one line, and
/// its length does not depend on the salt and the name.
fn hashed_line_rule()
    ensures spelled { (entry : KnownEntry) (line salt name : List ℕ) → SpellsKnown entry line →
        IsTwentyBytes salt → hashed_length entry ≤ line_limit →
        SpellsKnown (record entry { names = hidden salt name }) (hashed_line entry salt name) }
    ensures read { (entry : KnownEntry) (line salt name : List ℕ) → SpellsKnown entry line →
        IsTwentyBytes salt → hashed_length entry ≤ line_limit → known_line (hashed_line entry salt name)
        ≡ known.Entry (record entry { names = hidden salt name }) }
    ensures length { (entry : KnownEntry) (salt name : List ℕ) → IsTwentyBytes salt →
        length (hashed_line entry salt name) ≡ hashed_length entry }
    ensures one_line { (entry : KnownEntry) (line salt name : List ℕ) → SpellsKnown entry line →
        HasNoNewline line → HasNoNewline (hashed_line entry salt name) }
{}

/// A file with hashed names has, line by line, the entries of the old file, with one entry for each
/// hashed name. It names each host and port that the old file names, and no other, unless two names
/// have the same hash.
fn hashed_file_rule()
    ensures facts { (file : List ℕ) (salts : List (List ℕ)) → AllByRecursion (λ c. c < 256) file →
        AllByRecursion IsTwentyBytes salts →
        known_facts (hashed_file file salts) ≡ hashed_facts (known_facts file) salts }
    ensures keeps_names { (file : List ℕ) (salts : List (List ℕ)) →
        AllByRecursion (λ c. c < 256) file → AllByRecursion IsTwentyBytes salts →
        length (names_hidden file) ≤ length salts → KeepsNames file (hashed_file file salts) }
    ensures adds_no_name { (file : List ℕ) (salts : List (List ℕ)) →
        AllByRecursion (λ c. c < 256) file → AllByRecursion IsTwentyBytes salts →
        AddsNoName file salts (hashed_file file salts) }
{}

/// Worked entries, and the lines that they are written as.
fn entries_as_written()
    ensures auth { AuthSamplesWritten }
    ensures known { KnownSamplesWritten }
{}

/// Worked files, rewritten and with their names hashed.
fn files_as_written()
    ensures auth { AuthFilesWritten }
    ensures known { KnownFilesWritten }
    ensures hashed { HashedFilesWritten }
{}
