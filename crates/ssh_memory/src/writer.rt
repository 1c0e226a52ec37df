//! A writer in memory.

ghost use Rattle.std.specs.Prelude.{◌≡◌, [], Some, refl};
ghost use Rattle.ssh_memory.specs.MemoryRuns.{writer_account};

use ssh_program::Sink;
use std::alloc::Global;
use std::io::{Result, Write};

/// The bytes that were written, and how many writes failed.
#[derive(Drop)]
pub(crate) struct MemoryWriter {
    pub(crate) bytes: Vec<u8>,
    pub(crate) failures: u64,
}

impl MemoryWriter {
    /// A writer without bytes.
    pub(crate) fn new(alloc: Global) -> Self
        ensures bytes { result.bytes.items ≡ [] }
        ensures failures { result.failures ≡ 0 }
    {
        MemoryWriter {
            bytes: Vec::new(alloc),
            failures: 0,
        }
    }
}

impl Write for MemoryWriter {
    ghost contents = { λ w. Some w.bytes.items };

    fn write(&mut self, buf: &[u8]) -> Result<usize> {
        self.bytes.write(buf)
    }

    fn flush(&mut self) -> Result<()> {
        Ok(())
    }
}

impl Sink for MemoryWriter {
    ghost account = { λ w. Some (writer_account w) };

    ghost tells = { λ w. refl };

    fn put(&mut self, buf: &[u8]) -> Result<usize> {
        let result = self.bytes.write(buf);
        match &result {
            Ok(n) => {
                if *n == 0 && buf.len() > 0 {
                    self.failures += 1;
                }
            }
            Err(_) => self.failures += 1,
        }
        result
    }
}
