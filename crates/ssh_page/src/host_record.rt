//! The row of a line of a `known_hosts` file.

ghost use Rattle.std.specs.Prelude.{◌≡◌, ◌++◌, OnOk};
ghost use Rattle.ssh_page.specs.Documents.{marks};
ghost use Rattle.ssh_page.specs.HostRecords.{bare_row, host_cells, host_entry_row, revoked_cells, revoked_row, role};

use crate::finding::{push_classes, push_findings};
use crate::marks::push_piece;
use crate::piece::Piece;
use crate::record::{
    RowPlace, push_comment, push_fingerprint, push_flag, push_held, push_if, push_key,
    push_numbers, push_value,
};
use ssh_findings::{HeldKey, HostFacts, HostFinding};
use ssh_print::push_shown;
use std::alloc::{AllocError, Global};

/// What the key of an entry is: a certificate authority, or a key.
fn role(is_authority: bool) -> &'static [u8]
    ensures { result.now ≡ role is_authority }
{
    if is_authority { b"authority" } else { b"key" }
}

/// Appends the first cells of an entry: whose key it is, which key, and what it is.
#[tactic(auto, unfolding(crate::specs::HostRecords::host_cells))]
fn push_cells(out: &mut Vec<u8>, facts: &HostFacts) -> Result<(), AllocError>
    ensures { OnOk result (out.new.items ≡ out.old.items ++ marks (host_cells facts.now)) }
{
    push_comment(out, facts.comment.as_slice())?;
    push_key(out, facts.kind, facts.bits, &facts.fingerprint)?;
    push_piece(out, Piece::RightsCell)?;
    push_shown(out, role(facts.is_authority))?;
    Ok(())
}

/// Appends the row of an entry.
#[tactic(auto, unfolding(crate::specs::HostRecords::host_entry_row))]
pub fn push_host_entry_row(
    alloc: Global,
    out: &mut Vec<u8>,
    place: RowPlace,
    facts: &HostFacts,
    found: &[HostFinding],
) -> Result<(), AllocError>
    ensures { OnOk result (out.new.items
        ≡ out.old.items ++ marks (host_entry_row place facts.now found.now)) }
{
    push_piece(out, Piece::Row)?;
    push_classes(out, found)?;
    push_if(out, facts.is_authority, Piece::AuthorityClass)?;
    push_numbers(out, place)?;
    push_cells(out, facts)?;
    push_piece(out, Piece::LimitsCell)?;
    push_value(out, b"names ", facts.names.as_slice())?;
    push_findings(alloc, out, place.file, found)?;
    push_piece(out, Piece::RowEnd)?;
    Ok(())
}

/// Appends the first cells of a revocation.
#[tactic(auto, unfolding(crate::specs::HostRecords::revoked_cells))]
fn push_revoked_cells(out: &mut Vec<u8>, fingerprint: &[u8]) -> Result<(), AllocError>
    ensures { OnOk result (out.new.items
        ≡ out.old.items ++ marks (revoked_cells fingerprint.now)) }
{
    push_shown(out, b"revoked")?;
    push_fingerprint(out, fingerprint)?;
    push_piece(out, Piece::RightsCell)?;
    push_shown(out, b"revoked")?;
    push_piece(out, Piece::LimitsCell)?;
    Ok(())
}

/// Appends the row of a line that revokes the key with this fingerprint.
#[tactic(auto, unfolding(crate::specs::HostRecords::revoked_row))]
pub fn push_revoked_row(
    alloc: Global,
    out: &mut Vec<u8>,
    place: RowPlace,
    fingerprint: &[u8],
    names: &[u8],
    found: &[HostFinding],
) -> Result<(), AllocError>
    ensures { OnOk result (out.new.items
        ≡ out.old.items ++ marks (revoked_row place fingerprint.now names.now found.now)) }
{
    push_piece(out, Piece::Row)?;
    push_classes(out, found)?;
    push_numbers(out, place)?;
    push_revoked_cells(out, fingerprint)?;
    push_value(out, b"names ", names)?;
    push_flag(out, true, b"in ssh it counts for these names alone")?;
    push_findings(alloc, out, place.file, found)?;
    push_piece(out, Piece::RowEnd)?;
    Ok(())
}

/// Appends the row of a line that cannot be read: what it is (`unreadable`, for example), and the
/// key that OpenSSH reads there, if there is one.
#[tactic(auto, unfolding(crate::specs::HostRecords::bare_row))]
pub fn push_bare_row(
    alloc: Global,
    out: &mut Vec<u8>,
    place: RowPlace,
    is: &[u8],
    held: Option<HeldKey>,
    found: &[HostFinding],
) -> Result<(), AllocError>
    ensures { OnOk result (out.new.items
        ≡ out.old.items ++ marks (bare_row place is.now held found.now)) }
{
    push_piece(out, Piece::Row)?;
    push_classes(out, found)?;
    push_piece(out, Piece::UnreadableClass)?;
    push_numbers(out, place)?;
    push_shown(out, is)?;
    push_held(out, held)?;
    push_piece(out, Piece::RightsCell)?;
    push_shown(out, is)?;
    push_piece(out, Piece::LimitsCell)?;
    push_findings(alloc, out, place.file, found)?;
    push_piece(out, Piece::RowEnd)?;
    Ok(())
}
