//! The choices of one code: on the screen one leaves the lines alone that have its code.
//!
//! Each is a radio button before the sections, and the style of the page hides what is not chosen, so
//! that the page needs no script.

ghost use Rattle.std.specs.Prelude.{◌≡◌, ◌++◌, OnOk};
ghost use Rattle.std.specs.List.{flat_map};
ghost use Rattle.ssh_page.specs.Choices.{choice, choices};
ghost use Rattle.ssh_page.specs.Documents.{each, marks};

use crate::classes::code_number;
use crate::marks::push_piece;
use crate::mend::CodeCount;
use crate::piece::Piece;
use ssh_print::{push_number, push_shown};
use std::alloc::AllocError;

/// Appends the choice of a code that was found.
#[tactic(auto, unfolding(crate::specs::Choices::choice))]
fn push_choice(out: &mut Vec<u8>, found: CodeCount) -> Result<(), AllocError>
    ensures { OnOk result (out.new.items ≡ out.old.items ++ marks (choice found)) }
{
    push_piece(out, Piece::Choice)?;
    push_number(out, code_number(found.code))?;
    push_piece(out, Piece::ChoiceLabel)?;
    push_number(out, code_number(found.code))?;
    push_piece(out, Piece::ChoiceWords)?;
    push_shown(out, found.code.text())?;
    push_shown(out, b" ")?;
    push_number(out, found.count)?;
    push_piece(out, Piece::ChoiceEnd)?;
    Ok(())
}

fn push_each_choice(out: &mut Vec<u8>, found: &[CodeCount]) -> Result<(), AllocError>
    ensures { OnOk result (out.new.items ≡ out.old.items ++ marks (each choice found.now)) }
{
    for code in found {
        push_choice(out, *code)?;
    }
    Ok(())
}

/// Appends the choice of all lines and one for each code that was found, if any was.
#[tactic(auto, unfolding(crate::specs::Choices::choices))]
pub(crate) fn push_choices(out: &mut Vec<u8>, found: &[CodeCount]) -> Result<(), AllocError>
    ensures { OnOk result (out.new.items ≡ out.old.items ++ marks (choices found.now)) }
{
    if found.is_empty() {
        return Ok(());
    }
    push_piece(out, Piece::Choices)?;
    push_each_choice(out, found)?;
    Ok(())
}
