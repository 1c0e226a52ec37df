//! Reads files of which only a part, or nothing, is stored.

ghost use Rattle.std.specs.Prelude.{◌≡◌, ◌≢◌, ◌≤◌, ◌==◌, ◌&&◌, ⊤, [], false, length, take, true, Err, IfOk, List, Some, ℕ, OnOk, ◌++◌};
ghost use Rattle.ssh_text.specs.Text.{file_limit};
ghost use Rattle.ssh_files.specs.SourceState.{IfTells, bytes_at, dash};
ghost use Rattle.ssh_files.specs.Parts.{after_part, after_reading, after_whole, cut_at_empty, part_at, top_line};
ghost use Rattle.ssh_files.specs.Loading.{KeepsOthers, Loads, LoadsPart};
ghost use Rattle.ssh_files.specs.declared.read.ReadError.TheVariants.{Memory};
ghost use Rattle.ssh_files.specs.Seekers.{both, second_rest, seeker_rest};
ghost use Rattle.ssh_files.specs.Seeking.{TellsOf, wanted_of};

use crate::files::Files;
use crate::keeper::{Front, Hashing, Keeper, Nothing, TopLine};
use crate::read::ReadError;
use crate::seeker::Seeker;
use sha2::Digest;
use ssh_offers::Signed;
use ssh_text::FILE_LIMIT;
use std::alloc::{AllocError, Global};

/// How many bytes are asked for in one read.
const PIECE: usize = 4096;

/// Feeds the bytes of the file of this name, piece by piece, to a keeper that has taken none.
fn take_file<F: Files, K: Keeper>(
    files: &mut F,
    name: &str,
    keeper: &mut K,
) -> Result<(), ReadError>
    requires { K.took keeper.old keeper.old [] }
    // It took some bytes, even where the contract of the source states nothing.
    ensures kept { OnOk result ((bytes : List ℕ) × K.took keeper.old keeper.new bytes) }
    ensures bytes { IfTells (F.source_state files.old) (λ s.
        LoadsPart (λ file _. K.took keeper.old keeper.new file) name.now (bytes_at s name.now)
        (after_whole s name.now) s (F.source_state files.new) result) }
    ensures others { IfTells (F.source_state files.old)
        (λ s. KeepsOthers name.now s (F.source_state files.new)) }
    ensures spare { K.grows ≡ false → result ≢ Err Memory }
{
    if !files.choose(name) {
        return Err(ReadError::Missing);
    }
    let mut count = 0;
    let mut piece = [0u8; PIECE];
    while count <= FILE_LIMIT {
        match files.read_chosen(&mut piece) {
            Ok(0) => return Ok(()),
            Ok(n) => match keeper.take(&piece[..n]) {
                Ok(()) => count += n,
                Err(_) => return Err(ReadError::Memory),
            },
            Err(_) => return Err(ReadError::Failed),
        }
    }
    Err(ReadError::TooLong)
}

/// Whether this byte is the LF of an empty line; `fresh` means that a line begins with it.
fn ends_part(fresh: bool, byte: u8) -> bool
    ensures { result ≡ (fresh && byte == 10) }
{
    fresh && byte == b'\n'
}

/// Feeds the bytes of standard input, up to the end of its first empty line, to a keeper that has
/// taken none. They are read one by one, so that what follows is left for later reads.
fn take_part<F: Files, K: Keeper>(files: &mut F, keeper: &mut K) -> Result<(), ReadError>
    requires { K.took keeper.old keeper.old [] }
    ensures kept { OnOk result ((bytes : List ℕ) × K.took keeper.old keeper.new bytes) }
    ensures bytes { IfTells (F.source_state files.old) (λ s.
        LoadsPart (λ file _. K.took keeper.old keeper.new file) dash
        (Some (cut_at_empty true s.input).0) (after_reading s (cut_at_empty true s.input).1) s
        (F.source_state files.new) result) }
    ensures spare { K.grows ≡ false → result ≢ Err Memory }
{
    if !files.choose("-") {
        return Err(ReadError::Missing);
    }
    let mut count = 0;
    let mut fresh = true;
    let mut piece = [0u8; 1];
    while count <= FILE_LIMIT {
        match files.read_chosen(&mut piece) {
            Ok(0) => return Ok(()),
            Ok(_) => {
                if keeper.take(&piece).is_err() {
                    return Err(ReadError::Memory);
                }
                count += 1;
                if ends_part(fresh, piece[0]) {
                    break;
                }
                fresh = piece[0] == b'\n';
            }
            Err(_) => return Err(ReadError::Failed),
        }
    }
    if count > FILE_LIMIT {
        return Err(ReadError::TooLong);
    }
    Ok(())
}

/// Feeds the bytes of a vouch file to a keeper that has taken none. On standard input the vouch
/// file ends with the first empty line.
pub fn take_vouch_file<F: Files, K: Keeper>(
    files: &mut F,
    name: &str,
    keeper: &mut K,
) -> Result<(), ReadError>
    requires { K.took keeper.old keeper.old [] }
    ensures kept { OnOk result ((bytes : List ℕ) × K.took keeper.old keeper.new bytes) }
    ensures bytes { IfTells (F.source_state files.old) (λ s.
        LoadsPart (λ file _. K.took keeper.old keeper.new file) name.now (part_at s name.now)
        (after_part s name.now) s (F.source_state files.new) result) }
    ensures spare { K.grows ≡ false → result ≢ Err Memory }
{
    if name == "-" {
        take_part(files, keeper)
    } else {
        take_file(files, name, keeper)
    }
}

/// The first bytes of the file of this name, at most as many as given. The rest is read and
/// counted, because the whole file must be within the limit.
pub fn read_front<F: Files>(
    alloc: Global,
    files: &mut F,
    name: &str,
    most: usize,
) -> Result<Vec<u8>, ReadError>
    ensures short { IfOk result (λ v. length v.items ≤ most) }
    ensures bytes { IfTells (F.source_state files.old) (λ s.
        LoadsPart (λ file v. v.items ≡ take most file) name.now (bytes_at s name.now)
        (after_whole s name.now) s (F.source_state files.new) result) }
    ensures others { IfTells (F.source_state files.old)
        (λ s. KeepsOthers name.now s (F.source_state files.new)) }
{
    let mut front = Front::new(alloc, most);
    take_file(files, name, &mut front)?;
    Ok(front.bytes)
}

/// The first line of the file of this name, without its LF. The rest is read and counted, because
/// the whole file must be within the limit.
pub fn read_top_line<F: Files>(
    alloc: Global,
    files: &mut F,
    name: &str,
) -> Result<Vec<u8>, ReadError>
    ensures bytes { IfTells (F.source_state files.old) (λ s.
        LoadsPart (λ file v. v.items ≡ top_line file) name.now (bytes_at s name.now)
        (after_whole s name.now) s (F.source_state files.new) result) }
    ensures others { IfTells (F.source_state files.old)
        (λ s. KeepsOthers name.now s (F.source_state files.new)) }
{
    let mut line = TopLine::new(alloc);
    take_file(files, name, &mut line)?;
    Ok(line.bytes)
}

/// Reads through the file of this name, counts its bytes against the limit, and stores none.
pub fn read_past<F: Files>(files: &mut F, name: &str) -> Result<(), ReadError>
    ensures bytes { IfTells (F.source_state files.old) (λ s.
        LoadsPart (λ _ _. ⊤) name.now (bytes_at s name.now) (after_whole s name.now) s
        (F.source_state files.new) result) }
    ensures others { IfTells (F.source_state files.old)
        (λ s. KeepsOthers name.now s (F.source_state files.new)) }
    ensures spare { result ≢ Err Memory }
{
    let mut nothing = Nothing;
    take_file(files, name, &mut nothing)
}

/// The digest of the file of this name. No memory is allocated.
pub fn read_digest<D: Digest, F: Files>(files: &mut F, name: &str) -> Result<D::Output, ReadError>
    ensures bytes { IfTells (F.source_state files.old) (λ s.
        LoadsPart D.digest_of name.now (bytes_at s name.now) (after_whole s name.now) s
        (F.source_state files.new) result) }
    ensures others { IfTells (F.source_state files.old)
        (λ s. KeepsOthers name.now s (F.source_state files.new)) }
    ensures spare { result ≢ Err Memory }
{
    let mut hashing = Hashing { hasher: D::new() };
    take_file(files, name, &mut hashing)?;
    Ok(hashing.hasher.finalize())
}

/// Which of two signatures a vouch file vouches for.
#[derive(Clone, Copy, Debug, PartialEq, Eq)]
pub struct Found {
    pub first: bool,
    pub second: bool,
}

/// A vouch file as far as it was read, searched for two signatures or for the first alone.
#[derive(Clone, Copy)]
struct Seekers<'a> {
    first: Seeker<'a>,
    second: Option<Seeker<'a>>,
}

impl Seekers<'_> {
    /// Which of them the file vouches for, or the number of its first line that is not a triple.
    fn finish(&self) -> Result<Found, u64>
        ensures { result ≡ both (seeker_rest self.now.first []) (second_rest self.now.second []) }
    {
        let first = self.first.finish()?;
        let second = match &self.second {
            Some(seeker) => seeker.finish()?,
            None => false,
        };
        Ok(Found { first, second })
    }
}

impl Keeper for Seekers<'_> {
    ghost took = { λ start x bytes.
        ((rest : List ℕ) → seeker_rest start.first (bytes ++ rest) ≡ seeker_rest x.first rest)
        × ((rest : List ℕ) → second_rest start.second (bytes ++ rest) ≡ second_rest x.second rest) };

    ghost grows = { false };

    fn take(&mut self, piece: &[u8]) -> Result<(), AllocError> {
        self.first.take_piece(piece);
        if let Some(seeker) = &mut self.second {
            seeker.take_piece(piece);
        }
        Ok(())
    }
}

/// Which of the two signatures the vouch file of this name vouches for, or the number of its first
/// line that is not a triple. On standard input the vouch file ends with the first empty line. No
/// memory is allocated.
pub fn seek_vouched<F: Files>(
    files: &mut F,
    name: &str,
    first: Option<&Signed>,
    second: Option<&Signed>,
) -> Result<Result<Found, u64>, ReadError>
    ensures bytes { IfTells (F.source_state files.old) (λ s.
        LoadsPart (TellsOf (wanted_of first.entry) (wanted_of second.entry)) name.now
        (part_at s name.now) (after_part s name.now) s (F.source_state files.new) result) }
    ensures spare { result ≢ Err Memory }
{
    let mut seekers = Seekers {
        first: Seeker::new(first),
        second: match second {
            Some(signed) => Some(Seeker::new(Some(signed))),
            None => None,
        },
    };
    take_vouch_file(files, name, &mut seekers)?;
    Ok(seekers.finish())
}
