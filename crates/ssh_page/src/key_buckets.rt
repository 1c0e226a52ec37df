//! The rows that have a key, in the order of their keys: in buckets by the byte that a key begins
//! with, each of which is sorted. All rows together may be more than a cache holds.

ghost use Rattle.std.specs.Prelude.{◌≡◌, ◌<◌, ◌^◌, [], IfOk, OnOk, length, map, replicate};
ghost use Rattle.std.specs.Cmp.Lexicographic.{slice_cmp};
ghost use Rattle.std.specs.List.{AllByRecursion, fold};
ghost use Rattle.std.specs.Option.{option_to_list};
ghost use Rattle.std.specs.Ordering.{nat_cmp};
ghost use Rattle.ssh_page.specs.Buckets.{ArePlaced, AreSameByKey, bucket_seen, first_byte, joined, with_row};
ghost use Rattle.ssh_page.specs.KeyGroups.{by_key, key_start, runs};
ghost use Rattle.ssh_page.specs.KeyRows.{key_row, rows_in};

use crate::found_rows::after_piece;
use crate::key_rows::{KeyRow, key_row};
use crate::piece::Piece;
use std::alloc::{AllocError, Global};
use std::cmp::Ordering;

/// A bucket for each byte.
const BUCKETS: usize = 256;

/// The buckets, without rows.
fn no_rows<'a>(alloc: Global) -> Result<Vec<Vec<KeyRow<'a>>>, AllocError>
    ensures { IfOk result (λ buckets. map bucket_seen buckets.items ≡ replicate 256 []) }
{
    let mut buckets = Vec::with_capacity(alloc, BUCKETS)?;
    for _ in 0..BUCKETS {
        buckets.push(Vec::new(alloc))?;
    }
    Ok(buckets)
}

/// Appends the row whose first piece stands in front of this, if it has a key, to the bucket of the
/// first byte of the key.
fn push_row<'a>(buckets: &mut Vec<Vec<KeyRow<'a>>>, row: &'a [u8]) -> Result<(), AllocError>
    requires { length buckets.old.items ≡ 256 }
    ensures pushed { OnOk result (map bucket_seen buckets.new.items
        ≡ fold with_row (map bucket_seen buckets.old.items) (option_to_list (key_row row.now))) }
    ensures within { OnOk result (AllByRecursion (λ r. first_byte r < 256) (option_to_list (key_row row.now))) }
    ensures long { OnOk result (length buckets.new.items ≡ 256) }
{
    match key_row(row) {
        Some(row) => {
            buckets[usize::from(row.key[0])].push(row)?;
            Ok(())
        }
        None => Ok(()),
    }
}

/// The rows of sections in marked text that have a key, those of each bucket in their order.
fn rows_in(alloc: Global, sections: &[u8]) -> Result<Vec<Vec<KeyRow<'_>>>, AllocError>
    ensures same { IfOk result (λ buckets. AreSameByKey
        (joined (map bucket_seen buckets.items)) (rows_in sections.now)) }
    ensures placed { IfOk result (λ buckets. ArePlaced 0 (map bucket_seen buckets.items)) }
{
    let mut buckets = no_rows(alloc)?;
    let mut rest = sections;
    while let Some(row) = after_piece(rest, Piece::Row) {
        push_row(&mut buckets, row)?;
        rest = row;
    }
    Ok(buckets)
}

/// The first eight characters of a key, as a number.
fn key_start(key: &[u8; 43]) -> u64
    ensures { result ≡ key_start key.now }
{
    let [a, b, c, d, e, f, g, h, ..] = *key;
    u64::from_be_bytes([a, b, c, d, e, f, g, h])
}

/// Puts rows in the order of their keys. Numbers are compared and moved sooner than rows, and most
/// keys differ in their first eight characters: then the second sort finds the rows in order.
fn sort_rows(rows: &mut Vec<KeyRow<'_>>) -> Result<(), AllocError>
    ensures { OnOk result (bucket_seen rows.new ≡ by_key (bucket_seen rows.old)) }
{
    rows.sort_by_cached_key(
        |row: &KeyRow<'_>| -> u64
            ensures { result ≡ key_start row.now.key }
        { key_start(&row.key) },
    )?;
    rows.sort_by(
        |one: &KeyRow<'_>, other: &KeyRow<'_>| -> Ordering
            ensures { result ≡ slice_cmp nat_cmp one.now.key other.now.key }
        { one.key.cmp(&other.key) },
    )?;
    Ok(())
}

/// Puts the rows of each bucket in the order of their keys.
fn sort_buckets(buckets: &mut [Vec<KeyRow<'_>>]) -> Result<(), AllocError>
    ensures { OnOk result (map bucket_seen buckets.new ≡ map by_key (map bucket_seen buckets.old)) }
{
    for bucket in buckets.iter_mut() {
        sort_rows(bucket)?;
    }
    Ok(())
}

/// The rows of sections in marked text that have a key, in the order of keys. No two buckets have rows
/// of one key.
pub(crate) fn rows_by_key(
    alloc: Global,
    sections: &[u8],
) -> Result<Vec<Vec<KeyRow<'_>>>, AllocError>
    ensures in_order { IfOk result (λ buckets. joined (map bucket_seen buckets.items)
        ≡ by_key (rows_in sections.now)) }
    ensures apart { IfOk result (λ buckets. joined (map runs (map bucket_seen buckets.items))
        ≡ runs (by_key (rows_in sections.now))) }
    ensures few { IfOk result (λ buckets. length (joined (map bucket_seen buckets.items))
        < 2 ^ 64) }
{
    let mut buckets = rows_in(alloc, sections)?;
    sort_buckets(&mut buckets)?;
    Ok(buckets)
}

/// How many rows are in some buckets.
pub(crate) fn count_rows(buckets: &[Vec<KeyRow<'_>>]) -> u64
    requires { length (joined (map bucket_seen buckets.now)) < 2 ^ 64 }
    ensures { result ≡ length (joined (map bucket_seen buckets.now)) }
{
    let mut count = 0;
    let mut rest = buckets;
    while let [bucket, others @ ..] = rest {
        count += bucket.len() as u64;
        rest = others;
    }
    count
}
