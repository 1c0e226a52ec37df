//! The program for callers in C: one call, over words, files and a buffer for the text that the
//! caller lends. `bindings/c/ssh_audit.h` declares it and says what a caller owes.
#![tactic(auto)]

ghost use Rattle.std.specs.Prelude.{◌≡◌, ℕ, List, false, true};
ghost use Rattle.ssh_lending.specs.Lending.{Lends};
ghost use Rattle.ssh_memory.specs.MemoryFiles.{source_at_first};
ghost use Rattle.ssh_memory.specs.MemoryRuns.{Gives, RunMeans, are_texts, texts_of};
ghost use Rattle.ssh_program.specs.Requests.{words_response};
ghost use Rattle.ssh_program.specs.declared.command.WordsError.{WordsError as Fault};

use ssh_lending::lend;
use ssh_memory::{NamedBytes, Text, run_in_memory};
use ssh_program::WordsError;
use std::alloc::Global;

/// The status where there is no answer.
const FAULT: u8 = 2;

/// The status that the program ends with, and the length of the text that it prints.
#[repr(C)]
#[derive(Drop)]
pub struct Answer {
    pub status: u8,
    pub length: usize,
}

/// What the program answers to words over files and a standard input in memory: as
/// `run_in_memory` of `ssh_memory` says. The text is written to the front of `out`, if it fits.
#[unsafe(no_mangle)]
pub extern "C" fn ssh_audit_run(
    alloc: Global,
    words: &[Text<'_>],
    files: &[NamedBytes<'_>],
    input: &[u8],
    out: &mut [u8],
) -> Answer
    // Words that are UTF-8 are answered as by the program, and status and text mean what they mean
    // there.
    ensures means { are_texts words.entry.now ≡ true
        → (text : List ℕ)
        × RunMeans (texts_of words.entry.now) (source_at_first files.entry.now input.now) result.status
        (Gives text result.status)
        × Lends text out.old out.new result.length }
    // Other words are a usage fault, or that of memory.
    ensures usage { are_texts words.entry.now ≡ false
        → (fault : Fault) × Lends (words_response fault).text out.old out.new result.length
        × (result.status ≡ (words_response fault).status) }
{
    match run_in_memory(alloc, words, files, input) {
        Ok(output) => Answer {
            status: output.status,
            length: lend(&output.text, out),
        },
        Err(WordsError::Usage) => Answer {
            status: FAULT,
            length: lend(b"fault usage\n", out),
        },
        Err(WordsError::Memory) => Answer {
            status: FAULT,
            length: lend(b"fault A8\n", out),
        },
    }
}
