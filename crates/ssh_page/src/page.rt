//! What stands around the sections of the files and the register: the head of the page, and its end.
//!
//! A page is `push_page_start`, the header (`push_verdict`, `push_tiles`, `push_asked`), `push_mend`,
//! `push_lines_start`, the section of each file, `push_lines_end`, the register, and
//! `push_page_end`. The sections are made first: `push_mend` reads the lines that it lists off them.

ghost use Rattle.std.specs.Prelude.{◌≡◌, ◌++◌, OnOk};
ghost use Rattle.ssh_page.specs.Documents.{marks};
ghost use Rattle.ssh_page.specs.Pages.{lines_end, lines_start, page_end, page_start};

use crate::choices::push_choices;
use crate::marks::push_piece;
use crate::mend::CodeCount;
use crate::piece::Piece;
use ssh_print::push_shown;
use std::alloc::AllocError;

/// Appends what comes before the header: the head, with the policy and the style, and the heading.
#[tactic(auto, unfolding(crate::specs::Pages::page_start))]
pub fn push_page_start(out: &mut Vec<u8>, title: &[u8]) -> Result<(), AllocError>
    ensures { OnOk result (out.new.items ≡ out.old.items ++ marks (page_start title.now)) }
{
    push_piece(out, Piece::Front)?;
    push_shown(out, title)?;
    push_piece(out, Piece::StyleStart)?;
    push_piece(out, Piece::Style)?;
    push_piece(out, Piece::StyleEnd)?;
    push_shown(out, title)?;
    push_piece(out, Piece::HeadingEnd)?;
    Ok(())
}

/// Appends what comes before the sections of the files, with a choice for each code that was found.
/// `found` has each of these once, in ascending order.
#[tactic(auto, unfolding(crate::specs::Pages::lines_start))]
pub fn push_lines_start(out: &mut Vec<u8>, found: &[CodeCount]) -> Result<(), AllocError>
    ensures { OnOk result (out.new.items ≡ out.old.items ++ marks (lines_start found.now)) }
{
    push_piece(out, Piece::Lines)?;
    push_choices(out, found)?;
    push_piece(out, Piece::Sections)?;
    Ok(())
}

/// Appends what comes after the sections of the files.
pub fn push_lines_end(out: &mut Vec<u8>) -> Result<(), AllocError>
    ensures { OnOk result (out.new.items ≡ out.old.items ++ marks lines_end) }
{
    push_piece(out, Piece::LinesEnd)
}

/// Appends what comes after the register: the table to sign, and the end of the page.
#[tactic(auto, unfolding(crate::specs::Pages::page_end))]
pub fn push_page_end(out: &mut Vec<u8>) -> Result<(), AllocError>
    ensures { OnOk result (out.new.items ≡ out.old.items ++ marks page_end) }
{
    push_piece(out, Piece::Sign)?;
    push_piece(out, Piece::PageEnd)?;
    Ok(())
}
