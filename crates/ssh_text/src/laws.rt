//! Laws of the definitions, and worked examples. No caller needs these functions: the check proves
//! their `ensures`.

ghost use Rattle.std.specs.Prelude.{◌≡◌, ◌<◌, ℕ, true, false, List, [], ◌∷◌, ◌++◌, length};
ghost use Rattle.std.specs.List.{concat};
ghost use Rattle.ssh_text.specs.Text.{lines_of, numbered, AreLines};
ghost use Rattle.ssh_text.specs.Scan.{IsLastLine, has_newline, unfinished, up_to_newline, whole_lines};
ghost use Rattle.ssh_text.specs.Pieces.{ComeOutOf};
ghost use Rattle.ssh_text.specs.Samples.{FileSamplesRead, PieceSamplesRead};

/// The lines of a file are those between its LFs, and no others.
fn lines_rule()
    ensures are { (file : List ℕ) → AreLines (lines_of file) file }
    ensures only { (lines : List (List ℕ)) (file : List ℕ)
        → AreLines lines file
        → lines ≡ lines_of file }
{}

/// What each call of a scanner adds to the lines that have their LF, and what is left at the end.
fn scanned_rule()
    ensures none { whole_lines [] ≡ [] }
    ensures unready { (used piece : List ℕ)
        → has_newline piece ≡ false
        → whole_lines (used ++ piece) ≡ whole_lines used }
    ensures ready { (used piece : List ℕ) (number : ℕ) (line : List ℕ)
        → has_newline piece ≡ true
        → IsLastLine (used ++ up_to_newline piece) number line
        → numbered 1 (whole_lines (used ++ up_to_newline piece))
        ≡ numbered 1 (whole_lines used) ++ (number, line) ∷ [] }
    ensures last { (used : List ℕ) (number : ℕ) (line : List ℕ)
        → 0 < length (unfinished used)
        → IsLastLine used number line
        → numbered 1 (lines_of used) ≡ numbered 1 (whole_lines used) ++ (number, line) ∷ [] }
    ensures end { (used : List ℕ) → unfinished used ≡ [] → lines_of used ≡ whole_lines used }
{}

/// However a file is cut into pieces, the scanner returns its lines with their numbers, and no
/// others.
fn pieces_rule()
    ensures come { (pieces : List (List ℕ))
        → ComeOutOf [] pieces (numbered 1 (lines_of (concat pieces))) }
    ensures only { (pieces : List (List ℕ)) (lines : List (ℕ × List ℕ))
        → ComeOutOf [] pieces lines
        → lines ≡ numbered 1 (lines_of (concat pieces)) }
{}

/// Files and pieces, as the definitions cut them.
fn files_as_cut()
    ensures files { FileSamplesRead }
    ensures pieces { PieceSamplesRead }
{}
