//! What is printed of a finding: its code, its detail and its sentence.

ghost use Rattle.std.specs.Prelude.{◌≡◌};
ghost use Rattle.ssh_findings.specs.FindingRows.{row_of_texts, row_seen};

use crate::code::Code;
use ssh_options::LineCause;

/// The code and the texts of a finding: the word in its detail, if there is one; its sentence before
/// the value, and after it. Contracts cite the constants of this type, so each text stands once.
pub(crate) type Texts = (Code, &'static str, &'static str, &'static str);

/// The value in the detail and the sentence of a finding.
#[derive(Clone, Copy, Debug, PartialEq, Eq)]
pub enum Value {
    Nothing,
    /// The number of another line, or of the bits of a key.
    Number(u64),
    /// Why a line cannot be read.
    Cause(LineCause),
}

/// What is printed of a finding.
#[derive(Clone, Copy, Debug)]
pub struct Row {
    pub code: Code,
    /// The detail, or its word before the value.
    pub detail: &'static [u8],
    /// The sentence before the value.
    pub before: &'static [u8],
    pub value: Value,
    /// The sentence after the value.
    pub after: &'static [u8],
}

/// The row of a finding with these texts and this value.
pub(crate) fn row_with(texts: Texts, value: Value) -> Row
    ensures { row_seen result ≡ row_of_texts texts.entry value }
{
    Row {
        code: texts.0,
        detail: texts.1.as_bytes(),
        before: texts.2.as_bytes(),
        value,
        after: texts.3.as_bytes(),
    }
}

/// A finding that is printed.
pub trait Printed: Copy {
    ghost use Rattle.ssh_findings.specs.FindingRows.{FindingRow};

    ghost printed: { Self → FindingRow };

    /// What is printed of it.
    fn row(self) -> Row
        ensures { row_seen result ≡ printed self };
}
