//! The rows that have a key, those with one key together, and the keys in most files first.

ghost use Rattle.std.specs.Prelude.{◌≡◌, ◌≤◌, ◌<◌, ◌++◌, ◌-◌, ◌^◌, IfOk, OnOk, drop, length, map};
ghost use Rattle.ssh_page.specs.Buckets.{bucket_seen, joined};
ghost use Rattle.ssh_page.specs.KeyGroups.{files_before, files_of, group_of, group_seen, is_last, run_length, runs, with_file};
ghost use Rattle.ssh_page.specs.KeyRows.{row_seen};
ghost use Rattle.ssh_page.specs.Sorting.{in_order};

use crate::key_rows::KeyRow;
use std::alloc::{AllocError, Global};

/// The rows of a key.
#[derive(Clone, Copy, Debug)]
pub(crate) struct KeyGroup<'r, 'a> {
    pub(crate) rows: &'r [KeyRow<'a>],
    /// How many files they are in.
    pub(crate) files: u64,
}

/// How many files some rows are in, and which is the last.
#[derive(Clone, Copy, Debug)]
struct FilesSeen {
    count: u64,
    last: Option<u64>,
}

fn is_last(last: Option<u64>, file: u64) -> bool
    ensures { result ≡ is_last last file }
{
    match last {
        Some(other) => other == file,
        None => false,
    }
}

/// With a row that may be in another file.
fn with_file(seen: FilesSeen, row: &KeyRow<'_>) -> FilesSeen
    ensures { result ≡ with_file seen (row_seen row.now) }
{
    if is_last(seen.last, row.place.file) {
        seen
    } else {
        FilesSeen {
            count: seen.count.saturating_add(1),
            last: Some(row.place.file),
        }
    }
}

/// How many files these rows are in, which are in the order of files.
fn files_of(rows: &[KeyRow<'_>]) -> u64
    ensures { result ≡ files_of (map row_seen rows.now) }
{
    let mut seen = FilesSeen {
        count: 0,
        last: None,
    };
    for row in rows {
        seen = with_file(seen, row);
    }
    seen.count
}

/// How many rows at the front have the key of the first.
fn run_length(rows: &[KeyRow<'_>]) -> usize
    ensures value { result ≡ run_length (map row_seen rows.now) }
    ensures within { result ≤ length rows.now }
    ensures some { 0 < length rows.now → 0 < result }
{
    let Some((first, rest)) = rows.split_first() else {
        return 0;
    };
    let mut count = 1;
    for row in rest {
        if row.key != first.key {
            return count;
        }
        count += 1;
    }
    count
}

/// Appends the rows at the front that have one key. Returns how many these are.
fn push_run<'r, 'a>(
    groups: &mut Vec<KeyGroup<'r, 'a>>,
    rows: &'r [KeyRow<'a>],
) -> Result<usize, AllocError>
    requires { 0 < length rows.now }
    ensures pushed { IfOk result (λ count. map group_seen groups.new.items
        ++ map group_of (runs (map row_seen (drop count rows.now)))
        ≡ map group_seen groups.old.items ++ map group_of (runs (map row_seen rows.now))) }
    ensures some { IfOk result (λ count. 0 < count) }
    ensures within { IfOk result (λ count. count ≤ length rows.now) }
{
    let count = run_length(rows);
    let (own, _) = rows.split_at(count);
    groups.push(KeyGroup {
        rows: own,
        files: files_of(own),
    })?;
    Ok(count)
}

/// Appends the rows of each key, of rows in the order of keys.
fn push_runs<'r, 'a>(
    groups: &mut Vec<KeyGroup<'r, 'a>>,
    rows: &'r [KeyRow<'a>],
) -> Result<(), AllocError>
    ensures { OnOk result (map group_seen groups.new.items
        ≡ map group_seen groups.old.items ++ map group_of (runs (map row_seen rows.now))) }
{
    let mut start = 0;
    while start < rows.len() {
        start += push_run(groups, rows.split_at(start).1)?;
    }
    Ok(())
}

/// The rows of each key, of buckets with rows in the order of keys.
fn runs<'r, 'a>(
    alloc: Global,
    buckets: &'r [Vec<KeyRow<'a>>],
) -> Result<Vec<KeyGroup<'r, 'a>>, AllocError>
    ensures { IfOk result (λ groups. map group_seen groups.items
        ≡ map group_of (joined (map runs (map bucket_seen buckets.now)))) }
{
    let mut groups = Vec::new(alloc);
    for bucket in buckets {
        push_runs(&mut groups, bucket)?;
    }
    Ok(groups)
}

/// The rows of each key, of buckets with rows in the order of keys, no two of which have rows of one
/// key. Those that are in most files come first.
pub(crate) fn groups_in<'r, 'a>(
    alloc: Global,
    buckets: &'r [Vec<KeyRow<'a>>],
) -> Result<Vec<KeyGroup<'r, 'a>>, AllocError>
    ensures { IfOk result (λ groups. map group_seen groups.items
        ≡ in_order files_before (map group_of (joined (map runs (map bucket_seen buckets.now))))) }
{
    let mut groups = runs(alloc, buckets)?;
    groups.sort_by_key(
        |group: &KeyGroup<'_, '_>| -> u64
            ensures { result ≡ (2 ^ 64 - 1) - group.now.files }
        { u64::MAX - group.files },
    )?;
    Ok(groups)
}
