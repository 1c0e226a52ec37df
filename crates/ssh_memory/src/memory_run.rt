//! A run of the program over words and files in memory.

ghost use Rattle.std.specs.Prelude.{◌≡◌, Err, IfErr, IfOk, false, map, true};
ghost use Rattle.ssh_memory.specs.MemoryFiles.{source_at_first};
ghost use Rattle.ssh_memory.specs.MemoryRuns.{Gives, RunMeans, are_texts, texts_of};

use crate::file_index::FileIndex;
use crate::files::{MemoryFiles, NamedBytes};
use crate::texts::{Text, read_texts};
use crate::writer::MemoryWriter;
use ssh_program::{WordsError, run};
use std::alloc::{AllocError, Global};

/// The text that the program prints, and the status that it ends with.
#[derive(Drop)]
pub struct Output {
    pub status: u8,
    pub text: Vec<u8>,
}

/// What the program answers to these words over these files and this standard input.
fn run_words(
    alloc: Global,
    words: &[&str],
    files: &[NamedBytes<'_>],
    input: &[u8],
) -> Result<Output, WordsError>
    ensures means { IfOk result (λ output.
        RunMeans (map (λ w. w.now) words.now) (source_at_first files.now input.now) output.status
        (Gives output.text.items output.status)) }
    ensures memory { IfErr result (λ e. e ≡ WordsError.Memory) }
{
    let index = match FileIndex::new(alloc, files) {
        Ok(index) => index,
        Err(AllocError) => return Err(WordsError::Memory),
    };
    let mut source = MemoryFiles::new(index, input);
    let mut writer = MemoryWriter::new(alloc);
    let status = run(alloc, words, &mut source, &mut writer);
    // A read of memory fails only where no file was chosen, and the program reads none then. So the
    // text is lost only where memory could not be allocated for it.
    if source.failures == 0 && writer.failures == 0 {
        Ok(Output {
            status,
            text: writer.bytes,
        })
    } else {
        Err(WordsError::Memory)
    }
}

/// What the program answers to words over files in memory, if each word is UTF-8: the words after
/// its name, or where there are none those of the first line of standard input. The file `-` is the
/// standard input, and of two files with one name the first counts. `Memory` where memory could not
/// be allocated for the words, for the names of the files or for the text.
pub fn run_in_memory(
    alloc: Global,
    texts: &[Text<'_>],
    files: &[NamedBytes<'_>],
    input: &[u8],
) -> Result<Output, WordsError>
    // The text and the status are those of the program, and mean what they mean of it.
    ensures means { IfOk result (λ output.
        RunMeans (texts_of texts.now) (source_at_first files.now input.now) output.status
        (Gives output.text.items output.status)) }
    ensures text { IfOk result (λ _. are_texts texts.now ≡ true) }
    ensures usage { result ≡ Err WordsError.Usage → are_texts texts.now ≡ false }
{
    let words = read_texts(alloc, texts)?;
    let output = run_words(alloc, words.as_slice(), files, input)?;
    Ok(output)
}
