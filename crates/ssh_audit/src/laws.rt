//! Laws of the colours, and worked examples: the check proves what each function ensures. No call
//! needs them.

ghost use Rattle.std.specs.Prelude.{◌≡◌, ◌++◌, ◌∷◌, false, ℕ, List, take};
ghost use Rattle.std.specs.List.{list_any};
ghost use Rattle.ssh_audit.specs.Colours.{begun_by, colour_of, ended_by, is_end, is_escape, line_at, plain, taken};
ghost use Rattle.ssh_audit.specs.ColourSamples.{CommandsColoured, LinesColoured, LinesPlain, LinesWritten};
ghost use Rattle.ssh_audit.specs.declared.colour.Place.{Place};
ghost use Rattle.ssh_audit.specs.declared.colour.Place.TheVariants.{Between};
ghost use Rattle.ssh_audit.specs.declared.colour.Printed.{Printed};

/// A line is written with the sequences of its colour around it, the second before its end. Without
/// sequences what is written of a text is what was taken of it, if the text has none itself.
fn colour_rule()
    ensures line { (printed : Printed) (line rest : List ℕ) → list_any is_end line ≡ false
        → line_at printed Between (line ++ 10 ∷ rest)
        ≡ (begun_by (colour_of printed line) ++ line) ++ ended_by (colour_of printed line) }
    ensures plain { (printed : Printed) (place : Place) (text : List ℕ)
        → list_any is_escape text ≡ false
        → plain (line_at printed place text) ≡ take (taken text) text }
{}

/// Which lines have a colour, and how they are written.
fn colours_as_reported()
    ensures coloured { LinesColoured }
    ensures uncoloured { LinesPlain }
    ensures commands { CommandsColoured }
    ensures written { LinesWritten }
{}
