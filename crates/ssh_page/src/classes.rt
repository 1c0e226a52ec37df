//! The class that a code has on the page: how soon to mend what it tells, and the code.

ghost use Rattle.std.specs.Prelude.{◌≡◌, ◌++◌, OnOk};
ghost use Rattle.ssh_page.specs.Documents.{marks};
ghost use Rattle.ssh_page.specs.Classes.{class_of, class_piece, code_number};

use crate::marks::push_piece;
use crate::piece::Piece;
use ssh_findings::{Code, Urgency, how_soon};
use ssh_print::push_number;
use std::alloc::AllocError;

/// The front of the class of codes that are this urgent. The number of the code follows.
fn class_piece(urgency: Urgency) -> Piece
    ensures { result ≡ class_piece urgency }
{
    match urgency {
        Urgency::Today => Piece::TodayClass,
        Urgency::Soon => Piece::SoonClass,
        Urgency::TidyUp => Piece::TidyClass,
        Urgency::Policy => Piece::PolicyClass,
    }
}

/// The number of a code: 4 for `F4`.
#[tactic(auto, unfolding(crate::specs::Classes::code_number))]
pub(crate) fn code_number(code: Code) -> u64
    ensures { result ≡ code_number code }
{
    code as u64 + 1
}

/// Appends the classes of a code: how urgent it is, and the code itself.
#[tactic(auto, unfolding(crate::specs::Classes::class_of))]
pub(crate) fn push_class(out: &mut Vec<u8>, code: Code) -> Result<(), AllocError>
    ensures { OnOk result (out.new.items ≡ out.old.items ++ marks (class_of code)) }
{
    push_piece(out, class_piece(how_soon(code)))?;
    push_number(out, code_number(code))?;
    Ok(())
}
