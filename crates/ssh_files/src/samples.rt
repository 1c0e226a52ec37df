//! Worked examples of the definitions. No call needs these functions: the check proves what they
//! ensure.

ghost use Rattle.ssh_files.specs.Samples.{EmptyPrincipalsRead, HexRead, HexRefused, NumbersRead, NumberTextsRefused, PartsRead, SaltsRead, VouchFilesRead, VouchFilesRefused, WordsRead, ZoneTexts};

/// Worked values of arguments.
fn values_as_read()
    ensures hex { HexRead }
    ensures no_hex { HexRefused }
    ensures numbers { NumbersRead }
    ensures no_numbers { NumberTextsRefused }
    ensures zones { ZoneTexts }
    ensures empty_principals { EmptyPrincipalsRead }
    ensures salts { SaltsRead }
{}

/// Worked lines of arguments, and the parts of standard input.
fn words_as_read()
    ensures words { WordsRead }
    ensures parts { PartsRead }
{}

/// Worked vouch files.
fn vouch_files_as_read()
    ensures read { VouchFilesRead }
    ensures refused { VouchFilesRefused }
{}
