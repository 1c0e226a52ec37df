//! The program over words, files and a standard input that are in memory, with its answer in memory
//! too: what a caller needs that reads no file and starts no program.
//!
//! `run_in_memory` answers words as `run` of `ssh_program` does. No default is added to the words: a
//! caller says the time, the files and the name of the user itself.
#![tactic(auto)]

mod file_index;
mod files;
mod memory_run;
#[cfg(test)]
mod tests;
mod texts;
mod writer;

pub use files::NamedBytes;
pub use memory_run::{Output, run_in_memory};
pub use texts::Text;
