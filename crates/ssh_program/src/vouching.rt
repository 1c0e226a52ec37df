//! The signatures that a vouch file lists, for a file signature: from stored bytes, or from a file
//! that is read again.

ghost use Rattle.std.specs.Prelude.{◌≡◌, Some, refl, ◌≤◌, length, None, ◌∷◌, [], IfOk, Ok};
ghost use Rattle.ssh_program.specs.MemoryFiles.{held_source};
ghost use Rattle.ssh_files.specs.SourceState.{left_of, IfTells};
ghost use Rattle.ssh_text.specs.Text.{file_limit};
ghost use Rattle.ssh_files.specs.Seeking.{TellsOf, wanted_of};
ghost use Rattle.ssh_files.specs.VouchFile.{vouched_of};
ghost use Rattle.ssh_offers.specs.Vouching.{is_vouched};
ghost use Rattle.ssh_program.specs.Digests.{answer_where};
ghost use Rattle.ssh_program.specs.Responding.{SignsAgain, SignsOne};
ghost use Rattle.ssh_program.specs.Vouchings.{ByVouching};
ghost use Rattle.ssh_print.specs.ResponseView.{response};
ghost use Rattle.ssh_print.specs.SshsigText.{sshsig_response};

use crate::audit::unread;
use crate::sshsig::answer_one;
use ssh_files::{Files, Found, UnreadCause, seek_vouched};
use ssh_offers::Signed;
use ssh_print::{Response, sshsig_response, vouch_fault};
use std::alloc::{AllocError, Global};
use std::io::{self, Error, ErrorKind, Read};
use std::marker::Model;

/// The name of the file that a `MemoryFile` has.
pub const MEMORY_NAME: &str = "held";

/// The file that was chosen last.
#[derive(Clone, Copy)]
enum Place {
    Nowhere,
    Input,
    File,
}

/// A source of one file in memory, and of an empty standard input.
#[derive(Drop)]
pub struct MemoryFile<'a> {
    bytes: &'a [u8],
    /// The bytes not read since the file was chosen.
    left: &'a [u8],
    place: Place,
    choices: u64,
    failures: u64,
}

impl<'a> MemoryFile<'a> {
    /// A source whose one file has these bytes. No read of it has failed yet.
    pub fn new(bytes: &'a [u8]) -> Self
        ensures bytes { result.bytes.now ≡ bytes.now }
        ensures failures { result.failures ≡ 0 }
    {
        MemoryFile {
            bytes,
            left: &[],
            place: Place::Nowhere,
            choices: 0,
            failures: 0,
        }
    }
}

impl Read for MemoryFile<'_> {
    ghost remaining = { λ h. Some (left_of (held_source h)) };

    fn read(&mut self, buf: &mut [u8]) -> io::Result<usize> {
        self.read_chosen(buf)
    }
}

impl Files for MemoryFile<'_> {
    ghost source_state = { λ h. Some (held_source h) };

    ghost tells = { λ h. refl };

    fn choose(&mut self, name: &str) -> bool {
        self.choices = self.choices.wrapping_add(1);
        if name == "-" {
            self.place = Place::Input;
            true
        } else if name == MEMORY_NAME {
            self.left = self.bytes;
            self.place = Place::File;
            true
        } else {
            self.place = Place::Nowhere;
            false
        }
    }

    fn is_regular(&self, _name: &str) -> bool {
        true
    }

    fn unread_cause(&self, name: &str) -> UnreadCause {
        if name == "-" || name == MEMORY_NAME {
            UnreadCause::Other
        } else {
            UnreadCause::NotFound
        }
    }

    fn read_chosen(&mut self, buf: &mut [u8]) -> io::Result<usize> {
        match self.place {
            Place::Nowhere => {
                self.failures = self.failures.saturating_add(1);
                Err(Error::from(ErrorKind::NotFound))
            }
            Place::Input => Ok(0),
            Place::File => self.left.read(buf),
        }
    }
}

/// The signatures of a vouch file, as its bytes: a list of them would take much more memory.
#[derive(Drop)]
pub struct Vouches<'a> {
    bytes: &'a [u8],
}

impl<'a> Model for Vouches<'a> {
    ghost use Rattle.std.specs.Prelude.{◌≡◌, ◌≤◌, List, Ok, length};
    ghost use Rattle.ssh_text.specs.Text.{file_limit};
    ghost use Rattle.ssh_offers.specs.declared.claim.Signed.{Signed as SignedValue};
    ghost use Rattle.ssh_files.specs.VouchFile.{vouched_of};
    ghost use Rattle.ssh_program.specs.MemoryFiles.{held_vouches};

    ghost Value = { List SignedValue };

    ghost view = { λ v. held_vouches v.bytes.now };

    ghost invariant = { λ v. (length v.bytes.now ≤ file_limit)
        × (vouched_of v.bytes.now ≡ Ok (held_vouches v.bytes.now)) };
}

/// Whether a vouch file of these bytes lists a signature, or the number of its first line that is
/// not a triple of key, message and signature.
fn seek_held(bytes: &[u8], wanted: Option<&Signed>) -> Result<Found, u64>
    requires { length bytes.now ≤ file_limit }
    ensures { TellsOf (wanted_of wanted.entry) None bytes.now result }
{
    let mut file = MemoryFile::new(bytes);
    match seek_vouched(&mut file, MEMORY_NAME, wanted, None) {
        Ok(reported) => reported,
        Err(_) => unreachable!(),
    }
}

impl<'a> Vouches<'a> {
    /// The signatures of a vouch file of these bytes, or the number of its first line that is not a
    /// triple of key, message and signature.
    pub fn new(bytes: &'a [u8]) -> Result<Vouches<'a>, u64>
        requires { length bytes.now ≤ file_limit }
        ensures { result ≡ vouched_of bytes.now }
    {
        match seek_held(bytes, None) {
            Ok(_) => Ok(Vouches { bytes }),
            Err(number) => Err(number),
        }
    }

    /// Whether this signature is among them. The bytes are searched at each call.
    pub fn has(&self, signed: &Signed) -> bool
        ensures { result ≡ is_vouched self.now signed.now }
    {
        match seek_held(self.bytes, Some(signed)) {
            Ok(found) => found.first,
            Err(_) => unreachable!(),
        }
    }
}

/// The source of the signatures that are vouched for.
#[derive(Drop)]
pub enum Vouching<'a> {
    /// There is no vouch file.
    Nothing,
    /// A vouch file that cannot be read twice, as standard input and a pipe; its bytes are stored.
    Held(Vouches<'a>),
    /// The regular vouch file of this name. Nothing of it is stored: it is read again for the one
    /// signature that is looked for.
    Named(&'a str),
}

fn respond_by(alloc: Global, signed: Signed, is_vouched: bool) -> Result<Response, AllocError>
    ensures { IfOk result (λ r.
        response r ≡ sshsig_response (Ok (answer_where is_vouched (signed ∷ [])))) }
{
    let answer = answer_one(alloc, signed, is_vouched)?;
    sshsig_response(alloc, Ok(answer))
}

/// The response to a signature by the vouch file of this name, which is read again for it. A line
/// that is not a triple is reported at this reading too, since the file may have changed.
fn respond_again<F: Files>(
    alloc: Global,
    name: &str,
    signed: Signed,
    files: &mut F,
) -> Result<Response, AllocError>
    ensures { IfTells (F.source_state files.old) (λ s. IfOk result (λ r.
        SignsAgain signed name.now s (F.source_state files.new) (response r))) }
{
    match seek_vouched(files, name, Some(&signed), None) {
        Ok(Ok(found)) => respond_by(alloc, signed, found.first),
        Ok(Err(number)) => vouch_fault(alloc, number),
        Err(fault) => unread(alloc, name, fault),
    }
}

/// The response to a signature, by whether it is vouched for.
pub fn respond_signed<F: Files>(
    alloc: Global,
    vouching: &Vouching<'_>,
    signed: Signed,
    files: &mut F,
) -> Result<Response, AllocError>
    ensures { IfTells (F.source_state files.old) (λ s. IfOk result (λ r.
        ByVouching (SignsOne signed) vouching.entry.now s (F.source_state files.new)
        (response r))) }
{
    match vouching {
        Vouching::Nothing => respond_by(alloc, signed, false),
        Vouching::Held(vouches) => {
            let is_vouched = vouches.has(&signed);
            respond_by(alloc, signed, is_vouched)
        }
        Vouching::Named(name) => respond_again(alloc, name, signed, files),
    }
}
