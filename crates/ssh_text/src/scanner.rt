//! Cuts a file that is read in pieces into lines, with at most one line in memory.

ghost use Rattle.std.specs.Prelude.{◌≡◌, ◌↔◌, ◌<◌, ◌≤◌, ◌+◌, ◌^◌, ◌++◌, ◌∷◌, [], length, take, true, false, List, ℕ, IsOk, IsTrue, IsSome, IfSome, None, IfOk, OnOk, OnErr};
ghost use Rattle.ssh_text.specs.Text.{line_len, line_limit};
ghost use Rattle.ssh_text.specs.Scan.{HasNoNewline, IsLastLine, IsReadyLine, StandsFor, has_newline, lines_begun, unfinished, up_to_newline};

use crate::file::line_len;
use crate::kept::KeptLine;
use std::alloc::{AllocError, Global};
use std::marker::Model;

/// Reads a file in pieces that may end anywhere. It stores the bytes of at most one line, and no
/// bytes of a line that is longer than `LINE_LIMIT`.
#[derive(Debug, Drop)]
pub struct Scanner {
    used: u64,
    lines: u64,
    kept: KeptLine,
    ended: bool,
    ready: bool,
}

impl Model for Scanner {
    ghost use Rattle.ssh_text.specs.Scan.{Scan, IsScan};

    ghost Value = { Scan };

    ghost view = { λ s.
        record
        { used = s.used; lines = s.lines; kept = s.kept; ended = s.ended; ready = s.ready } };

    ghost invariant = { λ s.
        IsScan (record
        { used = s.used; lines = s.lines; kept = s.kept; ended = s.ended; ready = s.ready }) };
}

/// A line that is complete: its bytes without the LF, or the mark that there are more than
/// `LINE_LIMIT`.
#[derive(Clone, Copy, Debug, PartialEq, Eq)]
pub enum Line<'a> {
    Whole(&'a [u8]),
    TooLong,
}

impl Scanner {
    /// A scanner that has read no bytes.
    pub fn new(alloc: Global) -> Scanner
        ensures stands_for { StandsFor result [] }
        ensures ready { result.ready ≡ false }
        ensures bounded { length result.kept.bytes ≤ line_limit }
    {
        Scanner {
            used: 0,
            lines: 0,
            kept: KeptLine::new(alloc),
            ended: false,
            ready: false,
        }
    }

    /// How many bytes of the file have been read.
    pub fn used(&self) -> u64
        ensures value { result ≡ self.now.used }
        ensures count { (bytes : List ℕ) → StandsFor self.now bytes → result ≡ length bytes }
        ensures bounded { length self.now.kept.bytes ≤ line_limit }
    {
        self.used
    }

    /// Reads the piece up to and including its first LF, or all of it. Returns how many bytes were
    /// read, and whether a line is complete. On an `Err` nothing was read.
    pub fn feed(&mut self, piece: &[u8]) -> Result<(usize, bool), AllocError>
        requires { self.old.used + length piece.now < 2 ^ 64 }
        ensures count { IfOk result (λ fed. fed.0 ≡ length (up_to_newline piece.now)) }
        ensures part { IfOk result (λ fed. take fed.0 piece.now ≡ up_to_newline piece.now) }
        ensures within { IfOk result (λ fed. fed.0 ≤ length piece.now) }
        ensures some { IfOk result (λ fed. fed.1 ≡ true → 0 < fed.0) }
        ensures all { IfOk result (λ fed. fed.1 ≡ false → fed.0 ≡ length piece.now) }
        ensures newline { IfOk result (λ fed. fed.1 ≡ has_newline piece.now) }
        ensures ready { IfOk result (λ fed. self.new.ready ≡ fed.1) }
        ensures stands_for { IfOk result (λ fed.
            (bytes : List ℕ)
            → StandsFor self.old bytes
            → StandsFor self.new (bytes ++ take fed.0 piece.now)) }
        ensures used { IfOk result (λ fed. self.new.used ≡ self.old.used + fed.0) }
        ensures bounded { length self.new.kept.bytes ≤ line_limit }
        ensures err { OnErr result (self.new ≡ self.old) }
        // Bytes that make a line too long need no memory,
        ensures spare { (bytes : List ℕ)
            → StandsFor self.old bytes
            → line_limit < length (unfinished bytes) + line_len piece.now
            → IsOk result }
        // and neither do an empty piece and a piece that begins with an LF.
        ensures nothing { line_len piece.now ≡ 0 → IsOk result }
    {
        let end = line_len(piece);
        self.take_part(&piece[..end])?;
        if end == piece.len() {
            return Ok((end, false));
        }
        self.take_newline();
        Ok((end + 1, true))
    }

    /// Reads bytes that have no LF.
    fn take_part(&mut self, part: &[u8]) -> Result<(), AllocError>
        requires { self.old.used + length part.now < 2 ^ 64 }
        ensures stands_for { OnOk result (HasNoNewline part.now
            → (bytes : List ℕ)
            → StandsFor self.old bytes
            → StandsFor self.new (bytes ++ part.now)) }
        ensures used { OnOk result (self.new.used ≡ self.old.used + length part.now) }
        ensures open { OnOk result (self.new.ended ≡ false) }
        ensures ready { OnOk result (self.new.ready ≡ false) }
        ensures bounded { length self.new.kept.bytes ≤ line_limit }
        ensures err { OnErr result (self.new ≡ self.old) }
        ensures spare { (bytes : List ℕ)
            → StandsFor self.old bytes
            → line_limit < length (unfinished bytes) + length part.now
            → IsOk result }
        ensures nothing { length part.now ≡ 0 → IsOk result }
    {
        if self.ended {
            self.kept.begin(part)?;
            self.lines += 1;
        } else {
            self.kept.append(part)?;
        }
        self.used += part.len() as u64;
        self.ended = false;
        self.ready = false;
        Ok(())
    }

    /// Reads the LF of the current line.
    fn take_newline(&mut self)
        requires open { self.old.ended ≡ false }
        requires fits { self.old.used + 1 < 2 ^ 64 }
        ensures stands_for { (bytes : List ℕ)
            → StandsFor self.old bytes
            → StandsFor self.new (bytes ++ 10 ∷ []) }
        ensures used { self.new.used ≡ self.old.used + 1 }
        ensures ready { self.new.ready ≡ true }
        ensures bounded { length self.new.kept.bytes ≤ line_limit }
    {
        self.used += 1;
        self.ended = true;
        self.ready = true;
    }

    /// The line that the piece begins with, and its number, where no line is unfinished and the
    /// piece has an LF. The line is read with its LF, whatever its length, and is a slice of the
    /// piece, so that it needs no copy. On `None` nothing was read.
    pub fn whole_line<'a>(&mut self, piece: &'a [u8]) -> Option<(u64, &'a [u8])>
        requires { self.old.used + length piece.now < 2 ^ 64 }
        ensures found { (bytes : List ℕ)
            → StandsFor self.old bytes
            → (IsSome result ↔ ((length (unfinished bytes) ≡ 0) × (has_newline piece.now ≡ true))) }
        ensures newline { IfSome result (λ line. has_newline piece.now ≡ true) }
        ensures part { IfSome result (λ line. line.1.now ++ 10 ∷ [] ≡ up_to_newline piece.now) }
        ensures line { IfSome result (λ line.
            (bytes : List ℕ)
            → StandsFor self.old bytes
            → IsLastLine (bytes ++ up_to_newline piece.now) line.0 line.1.now) }
        ensures stands_for { IfSome result (λ line.
            (bytes : List ℕ)
            → StandsFor self.old bytes
            → StandsFor self.new (bytes ++ up_to_newline piece.now)) }
        ensures used { IfSome result
            (λ line. self.new.used ≡ self.old.used + (length line.1.now + 1)) }
        ensures within { IfSome result (λ line. length line.1.now + 1 ≤ length piece.now) }
        ensures ready { IfSome result (λ line. self.new.ready ≡ false) }
        ensures bounded { IfSome result (λ line. length self.new.kept.bytes ≤ line_limit) }
        ensures none { result ≡ None → self.new ≡ self.old }
    {
        if !self.is_between() {
            return None;
        }
        let end = line_len(piece);
        if piece.len() == end {
            return None;
        }
        let number = self.pass_line(&piece[..end]);
        Some((number, &piece[..end]))
    }

    /// Whether no line is unfinished.
    fn is_between(&self) -> bool
        ensures { (bytes : List ℕ)
            → StandsFor self.now bytes
            → (IsTrue result ↔ (length (unfinished bytes) ≡ 0)) }
    {
        if self.ended {
            return true;
        }
        self.kept.is_empty()
    }

    /// How many lines are complete.
    fn lines_begun(&self) -> u64
        ensures value { result ≡ lines_begun self.now }
        ensures bound { result ≤ self.now.used }
    {
        if self.ended {
            self.lines + 1
        } else {
            self.lines
        }
    }

    /// Reads a line and its LF without storing it, and returns its number.
    fn pass_line(&mut self, line: &[u8]) -> u64
        requires { self.old.used + (length line.now + 1) < 2 ^ 64 }
        ensures line { HasNoNewline line.now
            → (bytes : List ℕ)
            → StandsFor self.old bytes
            → length (unfinished bytes) ≡ 0
            → IsLastLine (bytes ++ (line.now ++ 10 ∷ [])) result line.now }
        ensures stands_for { HasNoNewline line.now
            → (bytes : List ℕ)
            → StandsFor self.old bytes
            → length (unfinished bytes) ≡ 0
            → StandsFor self.new (bytes ++ (line.now ++ 10 ∷ [])) }
        ensures used { self.new.used ≡ self.old.used + (length line.now + 1) }
        ensures ready { self.new.ready ≡ false }
        ensures bounded { length self.new.kept.bytes ≤ line_limit }
    {
        let number = self.lines_begun() + 1;
        self.lines = number;
        self.kept.clear();
        self.used += line.len() as u64 + 1;
        self.ended = false;
        self.ready = false;
        number
    }

    /// The line that is complete, and its number.
    pub fn line(&self) -> (u64, Line<'_>)
        requires { self.now.ready ≡ true }
        ensures { (bytes : List ℕ) → StandsFor self.now bytes → IsReadyLine bytes result }
    {
        let number = self.lines + 1;
        if self.kept.is_too_long() {
            return (number, Line::TooLong);
        }
        (number, Line::Whole(self.kept.as_slice()))
    }

    /// Ends the file, and returns whether there is a last line without an LF, which `line` then
    /// returns.
    pub fn finish(&mut self) -> bool
        ensures stands_for { (bytes : List ℕ)
            → StandsFor self.old bytes
            → StandsFor self.new bytes }
        ensures last { (bytes : List ℕ)
            → StandsFor self.old bytes
            → (IsTrue result ↔ (0 < length (unfinished bytes))) }
        ensures ready { self.new.ready ≡ result }
        ensures used { self.new.used ≡ self.old.used }
        ensures bounded { length self.new.kept.bytes ≤ line_limit }
    {
        if self.ended {
            self.ready = false;
            return false;
        }
        self.ready = !self.kept.is_empty();
        self.ready
    }
}
