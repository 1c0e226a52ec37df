//! Which records of a review are shown.

ghost use Rattle.std.specs.Prelude.{◌≡◌, false, take, true};
ghost use Rattle.ssh_review.specs.ShownRecords.{is_end_shown, is_shown};

use crate::end::Counts;

/// Which parts of a review are shown. What is counted does not depend on it.
#[derive(Clone, Copy, Debug, PartialEq, Eq)]
pub enum Show {
    /// The records of all lines that have one, and the end of each file.
    All,
    /// The records of lines with a reported finding or that cannot be read, and the end of each
    /// file.
    Found,
    /// Of files with a fault their ends, and nothing of the others.
    Totals,
}

impl Show {
    /// Whether the record of a line with these counts is shown.
    pub(crate) fn shows(self, counts: Counts) -> bool
        ensures { result ≡ is_shown self counts }
    {
        match self {
            Show::All => true,
            Show::Found => counts.findings > 0 || counts.unreadable > 0,
            Show::Totals => false,
        }
    }

    /// Whether the end of a file that was reviewed is shown.
    pub fn shows_end(self) -> bool
        ensures { result ≡ is_end_shown self }
    {
        match self {
            Show::All | Show::Found => true,
            Show::Totals => false,
        }
    }
}

/// Takes back what was appended behind this many bytes, if it is not shown.
pub(crate) fn leave_shown(out: &mut Vec<u8>, before: usize, is_shown: bool)
    ensures shown { is_shown ≡ true → out.new.items ≡ out.old.items }
    ensures left_out { is_shown ≡ false → out.new.items ≡ take before out.old.items }
{
    if !is_shown {
        out.truncate(before);
    }
}
