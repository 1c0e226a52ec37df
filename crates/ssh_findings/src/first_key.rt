//! The first key that stands for a name, and where another stands.

ghost use Rattle.std.specs.Prelude.{◌≡◌, ◌≤◌, length, ◌+◌, ℕ, List, None, Some, bytes_eq, true};
ghost use Rattle.ssh_findings.specs.Least.{lesser, leads};

use crate::host_earlier::SharedBlob;
use crate::least::lesser;
use std::alloc::AllocError;

/// For one name: the first line with a key for it, that key, and the first line with a different
/// key.
#[derive(Debug, Drop)]
pub(crate) struct FirstKey {
    line: u64,
    blob: SharedBlob,
    other: Option<u64>,
    ghost first: { leads line other ≡ true },
}

impl FirstKey {
    ghost use Rattle.std.specs.Prelude.{◌≤◌, ◌+◌, IfOk, IfSome, ℕ, List, length, not, bytes_eq};
    ghost use Rattle.std.specs.Option.{unwrap_or};
    ghost use Rattle.ssh_findings.specs.Least.{lesser, line_if};
    ghost use Rattle.ssh_findings.specs.Maps.{other_of};

    /// The key of the first line.
    pub(crate) fn new(line: u64, blob: &SharedBlob) -> Result<FirstKey, AllocError>
        ensures other { IfOk result (λ first. (b : List ℕ) → other_of first b
            ≡ line_if (not (bytes_eq blob.now b)) line) }
        ensures bytes { IfOk result (λ first. first.blob ≡ blob.now) }
    {
        let blob = blob.share()?;
        Ok(FirstKey {
            line,
            blob,
            other: None,
        })
    }

    /// The first line with a key other than this one.
    pub(crate) fn other(&self, blob: &[u8]) -> Option<u64>
        ensures { result ≡ other_of self.now blob.now }
    {
        if self.blob.as_slice() != blob {
            Some(self.line)
        } else {
            self.other
        }
    }

    /// The changed value after one more line with this key, or `None` if nothing changes.
    pub(crate) fn with(&self, line: u64, blob: &SharedBlob) -> Result<Option<FirstKey>, AllocError>
        ensures other { IfOk result (λ first. (b : List ℕ) → other_of (unwrap_or first self.now) b
            ≡ lesser (other_of self.now b) (line_if (not (bytes_eq blob.now b)) line)) }
        ensures bytes { IfOk result (λ first. IfSome first
            (λ first. length first.blob ≤ length self.now.blob + length blob.now)) }
    {
        let own = &self.blob;
        let (line, shared, other) = if own.as_slice() == blob.as_slice() {
            if self.line <= line {
                return Ok(None);
            }
            (line, blob, self.other)
        } else if self.line <= line {
            let other = lesser(self.other, Some(line));
            if other == self.other {
                return Ok(None);
            }
            (self.line, own, other)
        } else {
            (line, blob, Some(self.line))
        };
        let blob = shared.share()?;
        Ok(Some(FirstKey { line, blob, other }))
    }
}
