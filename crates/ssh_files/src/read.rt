//! Reads whole files, and the parts of standard input.

ghost use Rattle.std.specs.Prelude.{◌≤◌, length, IfOk};
ghost use Rattle.ssh_text.specs.Text.{file_limit};
ghost use Rattle.ssh_files.specs.SourceState.{bytes_at, IfTells};
ghost use Rattle.ssh_files.specs.Parts.{after_part, after_whole, part_at};
ghost use Rattle.ssh_files.specs.Loading.{KeepsOthers, Loads, LoadsLine};

use crate::files::Files;
use crate::keeper::Front;
use crate::part::{read_front, take_vouch_file};
use ssh_text::{FILE_LIMIT, LINE_LIMIT};
use std::alloc::Global;

/// Why a file is not read: it does not exist, it is longer than the limit, a read failed, or memory
/// could not be allocated.
#[derive(Clone, Copy, Debug, PartialEq, Eq)]
pub enum ReadError {
    Missing,
    TooLong,
    Failed,
    Memory,
}

/// The bytes of the file of this name, which must be within the limit.
pub fn read_whole<F: Files>(alloc: Global, files: &mut F, name: &str) -> Result<Vec<u8>, ReadError>
    ensures short { IfOk result (λ v. length v.items ≤ file_limit) }
    // A file that is missing or empty is reported whether or not memory can be allocated.
    ensures bytes { IfTells (F.source_state files.old) (λ s.
        Loads (λ v. v.items) name.now (bytes_at s name.now) (after_whole s name.now) s
        (F.source_state files.new) result) }
    // Whatever the result, the other files are unchanged.
    ensures others { IfTells (F.source_state files.old)
        (λ s. KeepsOthers name.now s (F.source_state files.new)) }
{
    read_front(alloc, files, name, FILE_LIMIT)
}

/// The bytes of a vouch file. On standard input it ends with the first empty line.
pub fn read_vouch_file<F: Files>(
    alloc: Global,
    files: &mut F,
    name: &str,
) -> Result<Vec<u8>, ReadError>
    ensures short { IfOk result (λ v. length v.items ≤ file_limit) }
    // A file that is missing or empty is reported whether or not memory can be allocated.
    ensures bytes { IfTells (F.source_state files.old) (λ s.
        Loads (λ v. v.items) name.now (part_at s name.now) (after_part s name.now) s
        (F.source_state files.new) result) }
{
    let mut front = Front::new(alloc, FILE_LIMIT);
    take_vouch_file(files, name, &mut front)?;
    Ok(front.bytes)
}

/// The first line of standard input, without its LF. A line of more than 65,536 bytes is `TooLong`.
pub fn read_first_line<F: Files>(alloc: Global, files: &mut F) -> Result<Vec<u8>, ReadError>
    // An empty line, and the end of the input, are reported whether or not memory can be allocated.
    ensures { IfTells (F.source_state files.old)
        (λ s. LoadsLine (λ v. v.items) s (F.source_state files.new) result) }
{
    if !files.choose("-") {
        return Err(ReadError::Missing);
    }
    let mut bytes = Vec::new(alloc);
    let mut piece = [0u8; 1];
    while bytes.len() <= LINE_LIMIT {
        match files.read_chosen(&mut piece) {
            Ok(0) => return Ok(bytes),
            Ok(_) => {
                let byte = piece[0];
                if byte == b'\n' {
                    return Ok(bytes);
                }
                if bytes.push(byte).is_err() {
                    return Err(ReadError::Memory);
                }
            }
            Err(_) => return Err(ReadError::Failed),
        }
    }
    Err(ReadError::TooLong)
}
