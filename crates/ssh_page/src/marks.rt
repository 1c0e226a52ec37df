//! Parts of a marked text: pieces, and texts of files between `<code>` and `</code>`. Other texts
//! and numbers are appended as in the text format, by `push_shown` and `push_number`.

ghost use Rattle.std.specs.Prelude.{◌≡◌, ◌++◌, OnOk};
ghost use Rattle.ssh_page.specs.Documents.{copied, marks, put, tell};

use crate::piece::Piece;
use ssh_print::push_shown;
use std::alloc::AllocError;

/// Appends a piece of markup.
pub(crate) fn push_piece(out: &mut Vec<u8>, piece: Piece) -> Result<(), AllocError>
    ensures { OnOk result (out.new.items ≡ out.old.items ++ marks (put piece)) }
{
    out.push(piece.mark())?;
    Ok(())
}

/// Appends a text of a file.
pub(crate) fn push_reported(out: &mut Vec<u8>, text: &[u8]) -> Result<(), AllocError>
    ensures { OnOk result (out.new.items ≡ out.old.items ++ marks (tell text.now)) }
{
    push_piece(out, Piece::Code)?;
    push_shown(out, text)?;
    push_piece(out, Piece::CodeEnd)?;
    Ok(())
}

/// Appends a text of a file as it was appended before, so that it is not escaped twice.
pub(crate) fn push_copied(out: &mut Vec<u8>, text: &[u8]) -> Result<(), AllocError>
    ensures { OnOk result (out.new.items ≡ out.old.items ++ marks (copied text.now)) }
{
    push_piece(out, Piece::Code)?;
    out.extend_from_slice(text)?;
    push_piece(out, Piece::CodeEnd)?;
    Ok(())
}
