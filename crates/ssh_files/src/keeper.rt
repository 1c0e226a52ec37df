//! `Keeper`: what is stored of a file that is read in pieces, such as its front, its first line or
//! its digest.

ghost use Rattle.std.specs.Prelude.{◌≡◌, ◌++◌, ⊤, [], take, true, false, Bool, IsOk, List, ℕ, OnOk};
ghost use Rattle.std.specs.List.{position};
ghost use Rattle.ssh_files.specs.Parts.{is_line_end, has_line_end, top_line};

use sha2::Digest;
use std::alloc::{AllocError, Global};

/// Takes the bytes of a file, and stores a part of them or a value that is computed from them.
pub trait Keeper {
    /// Relates a keeper to itself after it has taken these bytes.
    ghost took: { Self → Self → List ℕ → Type 0 };

    /// Whether taking bytes may need memory.
    ghost grows: { Bool };

    /// Takes the next piece of the file.
    fn take(&mut self, piece: &[u8]) -> Result<(), AllocError>
        ensures taken { OnOk result ((first : Self) (bytes : List ℕ)
            → took first self.old bytes
            → took first self.new (bytes ++ piece.now)) }
        ensures spare { grows ≡ false → IsOk result };
}

/// The first bytes of a file, up to a given number.
#[derive(Drop)]
pub struct Front {
    pub bytes: Vec<u8>,
    most: usize,
}

impl Front {
    /// Stores at most `most` bytes; none so far.
    pub fn new(alloc: Global, most: usize) -> Front
        ensures bytes { result.bytes.items ≡ [] }
        ensures most { result.most ≡ most }
    {
        Front {
            bytes: Vec::new(alloc),
            most,
        }
    }
}

impl Keeper for Front {
    ghost took = { λ first x bytes. (x.most ≡ first.most) × (x.bytes.items ≡ take first.most bytes) };

    ghost grows = { true };

    #[tactic(auto, using(crate::proofs::KeptLemmas::front_more))]
    fn take(&mut self, piece: &[u8]) -> Result<(), AllocError> {
        let room = self.most.saturating_sub(self.bytes.len());
        let kept = piece.len().min(room);
        self.bytes.extend_from_slice(&piece[..kept])?;
        Ok(())
    }
}

fn find_line_end(piece: &[u8]) -> Option<usize>
    ensures { result ≡ position is_line_end piece.now }
{
    piece.iter().position(|b| *b == b'\n')
}

/// The bytes of a piece before its first LF, and whether it has an LF.
fn line_in(piece: &[u8]) -> (&[u8], bool)
    ensures line { result.0.now ≡ top_line piece.now }
    ensures ended { result.1 ≡ has_line_end piece.now }
{
    match find_line_end(piece) {
        Some(end) => (&piece[..end], true),
        None => (piece, false),
    }
}

/// The first line of a file, without its LF.
#[derive(Drop)]
pub struct TopLine {
    pub bytes: Vec<u8>,
    /// The LF was read, so that nothing more is stored.
    ended: bool,
}

impl TopLine {
    /// Nothing is stored so far.
    pub fn new(alloc: Global) -> TopLine
        ensures bytes { result.bytes.items ≡ [] }
        ensures ended { result.ended ≡ false }
    {
        TopLine {
            bytes: Vec::new(alloc),
            ended: false,
        }
    }
}

impl Keeper for TopLine {
    ghost took = { λ first x bytes. (x.bytes.items ≡ top_line bytes) × (x.ended ≡ has_line_end bytes) };

    ghost grows = { true };

    fn take(&mut self, piece: &[u8]) -> Result<(), AllocError> {
        if self.ended {
            return Ok(());
        }
        let (line, ended) = line_in(piece);
        self.bytes.extend_from_slice(line)?;
        self.ended = ended;
        Ok(())
    }
}

/// Stores nothing, for a file that is only read through.
#[derive(Clone, Copy)]
pub struct Nothing;

impl Keeper for Nothing {
    ghost took = { λ first x bytes. ⊤ };

    ghost grows = { false };

    fn take(&mut self, piece: &[u8]) -> Result<(), AllocError> {
        Ok(())
    }
}

/// Computes the digest of a file.
#[derive(Drop)]
pub struct Hashing<D> {
    pub hasher: D,
}

impl<D: Digest> Keeper for Hashing<D> {
    ghost took = { λ first x bytes. D.holds x.hasher bytes };

    ghost grows = { false };

    fn take(&mut self, piece: &[u8]) -> Result<(), AllocError> {
        self.hasher.update(piece);
        Ok(())
    }
}
