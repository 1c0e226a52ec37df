//! Words of a command line that are given as bytes.

ghost use Rattle.std.specs.Prelude.{◌≡◌, Err, IfOk, Some, None, false, true, if◌then◌else◌, map, option_map};
ghost use Rattle.ssh_files.specs.Words.{is_text};
ghost use Rattle.ssh_memory.specs.MemoryRuns.{are_texts, texts_of};

use ssh_program::WordsError;
use std::alloc::Global;

/// A word of the command line. It has to be UTF-8.
#[repr(C)]
#[derive(Clone, Copy)]
pub struct Text<'a> {
    pub bytes: &'a [u8],
}

/// The word, if it is UTF-8.
fn read_text<'a>(text: Text<'a>) -> Option<&'a str>
    ensures { option_map (λ w. w.now) result
        ≡ (if is_text text.entry.bytes.now then Some text.entry.bytes.now else None) }
{
    match str::from_utf8(text.bytes) {
        Ok(word) => Some(word),
        Err(_) => None,
    }
}

/// The words, if each is UTF-8.
pub(crate) fn read_texts<'a>(alloc: Global, texts: &[Text<'a>]) -> Result<Vec<&'a str>, WordsError>
    ensures words { IfOk result (λ words. map (λ w. w.now) words.items ≡ texts_of texts.now) }
    ensures text { IfOk result (λ _. are_texts texts.now ≡ true) }
    ensures usage { result ≡ Err WordsError.Usage → are_texts texts.now ≡ false }
{
    let mut words = Vec::new(alloc);
    for text in texts {
        let Some(word) = read_text(*text) else {
            return Err(WordsError::Usage);
        };
        if words.push(word).is_err() {
            return Err(WordsError::Memory);
        }
    }
    Ok(words)
}
