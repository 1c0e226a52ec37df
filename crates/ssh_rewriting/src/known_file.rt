//! What replaces a line of a known_hosts file that is rewritten.

ghost use Rattle.ssh_rewriting.specs.CanonicalFile.{known_written};

use crate::lines::write_known_line;
use crate::rewrite::Kind;
use ssh_entries::{KeyBuffer, KnownLineView, read_known_view};
use std::alloc::AllocError;

/// The kind of known_hosts files.
pub(crate) struct KnownFile;

impl Kind for KnownFile {
    ghost written = { known_written };

    fn put_line(line: &[u8], buffer: &mut KeyBuffer, out: &mut Vec<u8>) -> Result<(), AllocError> {
        match read_known_view(line, buffer) {
            KnownLineView::Entry(entry) => write_known_line(&entry, out),
            _ => out.extend_from_slice(line),
        }
    }
}
