//! Laws of the definitions, and worked examples: the check proves what each function ensures. No call
//! needs them.

ghost use Rattle.std.specs.Prelude.{◌≡◌, ◌<◌, ℕ, List, ◌≢◌, [], Ok, length};
ghost use Rattle.std.specs.List.{AllByRecursion};
ghost use Rattle.ssh_entries.specs.AuthEntry.{AuthEntry};
ghost use Rattle.ssh_entries.specs.declared.auth_line.AuthLine.TheVariants.{Entry};
ghost use Rattle.ssh_entries.specs.AuthGrammar.{SpellsEntry, auth_line};
ghost use Rattle.ssh_entries.specs.KnownEntry.{KnownEntry};
ghost use Rattle.ssh_entries.specs.KnownGrammar.{IsUnreadableRevocation, RevokesBytes, SpellsKnown, known_line};
ghost use Rattle.ssh_entries.specs.Names.{IsTwentyBytes, Names, SpellsNames, hashed_field, hidden, names_of};
ghost use Rattle.ssh_entries.specs.KnownSamples.{KnownSamplesRead, KnownFaultsRead, LongKnownLinesRead, RevocationsRead};
ghost use Rattle.ssh_entries.specs.Samples.{EntrySamplesRead, ExamplesRead, EveryOptionRead, OptionFaultsRead, KeyFaultsRead, LongLinesRead};
ghost use Rattle.ssh_entries.specs.NamesSamples.{FieldSamplesRead, HmacSamples, LookedUpNames};
ghost use Rattle.ssh_entries.specs.declared.known_line.KnownLine.TheVariants as known;

/// A line spells at most one entry, and is read as an entry exactly if it spells that entry.
fn entry_rule()
    ensures one { (a b : AuthEntry) (line : List ℕ)
        → SpellsEntry a line
        → SpellsEntry b line
        → a ≡ b }
    ensures read { (entry : AuthEntry) (line : List ℕ)
        → SpellsEntry entry line
        → auth_line line ≡ Entry entry }
    ensures spelled { (line : List ℕ) (entry : AuthEntry)
        → AllByRecursion (λ c. c < 256) line
        → auth_line line ≡ Entry entry
        → SpellsEntry entry line }
{}

/// A known_hosts line spells at most one entry, and is read as an entry exactly if it spells that
/// entry. It is read as a revocation of bytes exactly if it revokes them, and as one that may
/// revoke any key exactly if it may.
fn known_rule()
    ensures one { (a b : KnownEntry) (line : List ℕ) →
        SpellsKnown a line → SpellsKnown b line → a ≡ b }
    ensures read { (entry : KnownEntry) (line : List ℕ) →
        SpellsKnown entry line → known_line line ≡ known.Entry entry }
    ensures spelled { (line : List ℕ) (entry : KnownEntry) → AllByRecursion (λ c. c < 256) line →
        known_line line ≡ known.Entry entry → SpellsKnown entry line }
    ensures revokes { (line bytes : List ℕ) →
        RevokesBytes line bytes → known_line line ≡ known.Revoked bytes }
    ensures revoked { (line bytes : List ℕ) → AllByRecursion (λ c. c < 256) line →
        known_line line ≡ known.Revoked bytes → RevokesBytes line bytes }
    ensures unreadable_revocation { (line : List ℕ) → AllByRecursion (λ c. c < 256) line →
        IsUnreadableRevocation line → known_line line ≡ known.RevokedUnreadable }
    ensures may_revoke { (line : List ℕ) →
        known_line line ≡ known.RevokedUnreadable → IsUnreadableRevocation line }
{}

/// A field spells at most one list or hashed name, and is read as names exactly if it spells them.
/// A field that spells names is not empty.
fn names_rule()
    ensures one { (a b : Names) (field : List ℕ) →
        SpellsNames a field → SpellsNames b field → a ≡ b }
    ensures read { (names : Names) (field : List ℕ) →
        SpellsNames names field → names_of field ≡ Ok names }
    ensures spelled { (field : List ℕ) (names : Names) → AllByRecursion (λ c. c < 256) field →
        names_of field ≡ Ok names → SpellsNames names field }
    ensures some { (names : Names) (field : List ℕ) → SpellsNames names field → field ≢ [] }
{}

/// The field of a hashed name spells it, and has 60 bytes.
fn hidden_rule()
    ensures spelled { (salt name : List ℕ) → IsTwentyBytes salt →
        SpellsNames (hidden salt name) (hashed_field salt name) }
    ensures length { (salt name : List ℕ) → IsTwentyBytes salt →
        length (hashed_field salt name) ≡ 60 }
{}

/// Worked lines, as the definitions read them.
fn lines_as_read()
    ensures entries { EntrySamplesRead }
    ensures examples { ExamplesRead }
    ensures every_option { EveryOptionRead }
    ensures options { OptionFaultsRead }
    ensures keys { KeyFaultsRead }
    ensures long { LongLinesRead }
    ensures known { KnownSamplesRead }
    ensures known_faults { KnownFaultsRead }
    ensures revocations { RevocationsRead }
    ensures long_known { LongKnownLinesRead }
{}

/// Worked examples of the names that hosts are looked up by.
fn hosts_as_looked_up()
    ensures { LookedUpNames }
{}

/// Worked names fields, as the definitions read them.
fn fields_as_read()
    ensures { FieldSamplesRead }
{}

/// HMAC-SHA1 of RFC 2202's vectors, and the field of a name that was hashed by `ssh-keygen -H`.
fn names_as_hashed()
    ensures { HmacSamples }
{}
