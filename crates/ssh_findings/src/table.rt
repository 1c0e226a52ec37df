//! The hash chains below `ByteMap`, and the lowest line number that is stored for a text or for the
//! keys of a name.

ghost use Rattle.std.specs.Prelude.{◌≡◌, ◌<◌, ◌≤◌, length};
ghost use Rattle.ssh_findings.specs.Number.{number};
ghost use Rattle.ssh_findings.specs.Rows.{LeadBack, LeadToLasts, row_of};

use std::alloc::{AllocError, Global};
use std::hash::{FoldHasher, Hasher};

/// How many bytes at the end of a text are hashed: those that differ from one key to another.
const HASHED: usize = 64;

/// By which the upper half of 64 bits is divided off.
const UPPER: u64 = 0x1_0000_0000;

/// The 64-bit hash of a text.
pub(crate) fn number(text: &[u8]) -> u64
    ensures { result ≡ number text.now }
{
    let mut hasher = FoldHasher::default();
    hasher.write(&text[text.len().saturating_sub(HASHED)..]);
    hasher.finish()
}

/// A hash, and one more than the place of the previous hash in its row, or 0.
#[derive(Clone, Copy, Debug)]
struct Link {
    number: u64,
    before: usize,
}

/// The row of a hash, of so many: as far along them as the upper half of the hash is along the numbers
/// of 32 bits. A remainder would be as good, and takes a division, for which some processors need as
/// long as for reading the row.
#[tactic(auto, unfolding(crate::specs::Rows::row_of))]
fn row_of(number: u64, rows: usize) -> usize
    requires { 0 < rows }
    ensures value { result ≡ row_of number rows }
    ensures within { result < rows }
{
    let along = (number / UPPER).wrapping_mul(rows as u64) / UPPER;
    (along as usize).min(rows - 1)
}

/// A chained table of hashes: each has its place in the order of insertion, and a row.
#[derive(Debug, Drop)]
pub(crate) struct Table {
    /// For each row, one more than the place of its last hash, or 0.
    lasts: Vec<usize>,
    links: Vec<Link>,
    ghost room: { length links.items ≤ length lasts.items },
    ghost rows: { LeadToLasts lasts.items links.items },
    ghost back: { LeadBack (length lasts.items) links.items },
}

impl Table {
    ghost use Rattle.std.specs.Prelude.{◌≡◌, ◌<◌, ◌++◌, ◌∷◌, [], IfOk, OnErr, OnOk, slice_index};
    ghost use Rattle.ssh_findings.specs.Rows.{IsLast, row_of};
    ghost use Rattle.ssh_findings.specs.Tables.{numbers_of, rows_of};

    /// An empty table. Does not allocate.
    pub(crate) fn new(alloc: Global) -> Table
        ensures { numbers_of result ≡ [] }
    {
        Table {
            lasts: Vec::new(alloc),
            links: Vec::new(alloc),
        }
    }

    /// The hash at a place.
    pub(crate) fn number(&self, place: usize) -> u64
        requires { place < length (numbers_of self.now) }
        ensures { result ≡ slice_index (numbers_of self.now) place }
    {
        self.links[place].number
    }

    /// One more than the place of the last hash in the row of this hash, or 0.
    pub(crate) fn last(&self, number: u64) -> usize
        ensures { IsLast (rows_of self.now) (numbers_of self.now) (row_of number (rows_of self.now))
            (length (numbers_of self.now)) result }
    {
        if self.lasts.is_empty() {
            return 0;
        }
        self.lasts[row_of(number, self.lasts.len())]
    }

    /// One more than the place of the previous hash in the row of this place, or 0.
    pub(crate) fn before(&self, place: usize) -> usize
        requires { place < length (numbers_of self.now) }
        ensures { IsLast (rows_of self.now) (numbers_of self.now)
            (row_of (slice_index (numbers_of self.now) place) (rows_of self.now)) place result }
    {
        self.links[place].before
    }

    /// Appends a hash to a table with more rows than hashes. If allocation fails, nothing is
    /// appended.
    fn link(&mut self, number: u64) -> Result<(), AllocError>
        requires { length (numbers_of self.old) < rows_of self.old }
        ensures ok { OnOk result (numbers_of self.new ≡ numbers_of self.old ++ number ∷ []) }
        ensures rows { rows_of self.new ≡ rows_of self.old }
        ensures err { OnErr result (numbers_of self.new ≡ numbers_of self.old) }
    {
        let row = row_of(number, self.lasts.len());
        let before = self.lasts[row];
        self.links.push(Link { number, before })?;
        self.lasts[row] = self.links.len();
        Ok(())
    }

    /// An empty table with this many rows.
    fn with_rows(alloc: Global, rows: usize) -> Result<Table, AllocError>
        ensures numbers { IfOk result (λ table. numbers_of table ≡ []) }
        ensures rows { IfOk result (λ table. rows_of table ≡ rows) }
    {
        let mut lasts = Vec::new(alloc);
        lasts.resize(rows, 0)?;
        let links = Vec::new(alloc);
        Ok(Table { lasts, links })
    }

    /// A copy of the table with this many rows.
    fn in_rows(&self, alloc: Global, rows: usize) -> Result<Table, AllocError>
        requires { rows_of self.now ≤ rows }
        ensures numbers { IfOk result (λ table. numbers_of table ≡ numbers_of self.now) }
        ensures rows { IfOk result (λ table. rows_of table ≡ rows) }
    {
        let mut table = Table::with_rows(alloc, rows)?;
        for link in &self.links {
            table.link(link.number)?;
        }
        Ok(table)
    }

    /// Appends a hash. Where there are half as many hashes as rows, the rows become four times as
    /// many: each hash in a row is somewhere else in memory, and a look-up reads them all. If
    /// allocation fails, nothing is appended.
    pub(crate) fn push(&mut self, alloc: Global, number: u64) -> Result<(), AllocError>
        ensures ok { OnOk result (numbers_of self.new ≡ numbers_of self.old ++ number ∷ []) }
        ensures err { OnErr result (numbers_of self.new ≡ numbers_of self.old) }
    {
        let rows = self.lasts.len();
        if self.links.len() >= rows / 2 {
            *self = self.in_rows(alloc, rows.saturating_mul(4).max(8))?;
        }
        self.link(number)
    }
}
