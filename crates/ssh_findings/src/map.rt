//! A hash map with byte texts as keys, with an ordered map for the texts of full rows.
//!
//! The blobs of SSH keys share their first bytes, which an ordered map compares again at each step.
//! Here a text is found by a hash of 64 bits, in a row of a few texts; there are more rows as they
//! fill. A text whose row is full goes into an ordered map. So even for hostile texts a look-up
//! takes only a few steps more than in an ordered map.

ghost use Rattle.std.specs.Prelude.{◌≡◌, IfOk, map};
ghost use Rattle.ssh_findings.specs.Number.{number};
ghost use Rattle.ssh_findings.specs.Tables.{numbers_of};

use crate::table::{Table, number};
use ssh_text::Bytes;
use std::alloc::{AllocError, Global};
use std::collections::BTreeMap;

/// An owned copy of a text.
pub(crate) fn kept(alloc: Global, text: &[u8]) -> Result<Bytes, AllocError>
    ensures { IfOk result (λ copy. copy ≡ text.now) }
{
    let copy = text.to_vec(alloc)?;
    Ok(Bytes::new(copy))
}

/// The most texts in a row, so that a look-up takes few steps even for hostile texts.
const ROW_LENGTH: u32 = 16;

/// A text and its value.
#[derive(Debug, Drop)]
struct Slot<V> {
    text: Vec<u8>,
    value: V,
}

/// Where a text is in a map, or where it can be added. It stands as long as the map does not change.
#[derive(Clone, Copy, Debug)]
pub(crate) struct Spot {
    /// The hash of the text.
    hash: u64,
    place: Option<usize>,
    /// Whether the row of the hash has room for another text.
    has_room: bool,
}

/// A map from byte texts to values. It holds one copy of each text.
#[derive(Debug, Drop)]
pub(crate) struct ByteMap<V> {
    /// The hash of the text at each place.
    table: Table,
    places: Vec<Slot<V>>,
    /// Texts whose row was full when they were inserted.
    others: BTreeMap<Vec<u8>, V>,
    ghost numbered: { numbers_of table ≡ map (λ place. number place.text.items) places.items },
}

impl<V> ByteMap<V> {
    ghost use Rattle.std.specs.Prelude.{◌<◌, ℕ, get_or, bytes_eq, length, List, None, IfSome, option_copied};
    ghost use Rattle.ssh_findings.specs.Entries.{IsPlace, IsSpot, entry_of, sum_of, value_in};

    /// An empty map. Does not allocate.
    pub(crate) fn new(alloc: Global) -> ByteMap<V>
        ensures empty { (text : List ℕ) → entry_of result text ≡ None }
        ensures sum { (weight : List ℕ → V → ℕ) → sum_of weight result ≡ 0 }
    {
        ByteMap {
            table: Table::new(alloc),
            places: Vec::new(alloc),
            others: BTreeMap::new(alloc),
        }
    }

    /// Whether this text is at a place, given its hash.
    fn is_place(&self, place: usize, wanted: u64, text: &[u8]) -> bool
        requires within { place < length self.now.places.items }
        requires number { wanted ≡ number text.now }
        ensures { (d : Slot V) → result ≡ bytes_eq (get_or self.now.places.items place d).text.items text.now }
    {
        self.table.number(place) == wanted && self.places[place].text.as_slice() == text
    }

    /// The place of a text with this hash, if it has one, and whether its row has room for another.
    fn seek(&self, hash: u64, text: &[u8]) -> (Option<usize>, bool)
        requires { hash ≡ number text.now }
        ensures found { IfSome result.0 (λ place. IsPlace self.now.places.items text.now place) }
        ensures absent { result.0 ≡ None → value_in self.now.places.items text.now ≡ None }
    {
        let mut next = self.table.last(hash);
        let mut room: u32 = ROW_LENGTH;
        while next > 0 {
            let place = next - 1;
            if self.is_place(place, hash, text) {
                return (Some(place), true);
            }
            next = self.table.before(place);
            room = room.saturating_sub(1);
        }
        (None, room > 0)
    }

    /// Where a text is, or can be added.
    pub(crate) fn find(&self, text: &[u8]) -> Spot
        ensures { IsSpot self.now text.now result }
    {
        let hash = number(text);
        let (place, has_room) = self.seek(hash, text);
        Spot {
            hash,
            place,
            has_room,
        }
    }

    /// The value of a text that was found here, if it has one.
    pub(crate) fn get_at(&self, text: &[u8], spot: Spot) -> Option<&V>
        requires { IsSpot self.now text.now spot }
        ensures { option_copied result ≡ entry_of self.now text.now }
    {
        match spot.place {
            Some(place) => Some(&self.places[place].value),
            None => self.others.get(text),
        }
    }

    /// The value of a text, if it has one.
    pub(crate) fn get(&self, text: &[u8]) -> Option<&V>
        ensures { option_copied result ≡ entry_of self.now text.now }
    {
        self.get_at(text, self.find(text))
    }
}

impl<V: Drop> ByteMap<V> {
    ghost use Rattle.std.specs.Prelude.{◌+◌, ℕ, if◌then◌else◌, bytes_eq, List, None, Some, IsOk, IsSome, OnErr, OnOk};
    ghost use Rattle.ssh_findings.specs.Entries.{IsPlace, IsSpot, IsUnchanged, entry_of, sum_of, value_in, weight_at};

    /// Replaces the value at the place of a text.
    fn replace(&mut self, text: &[u8], place: usize, value: V)
        requires { IsPlace self.old.places.items text.now place }
        ensures entry { (other : List ℕ) → entry_of self.new other
            ≡ if bytes_eq text.now other then Some value else entry_of self.old other }
        ensures sum { (weight : List ℕ → V → ℕ)
            → sum_of weight self.new + weight_at weight text.now (entry_of self.old text.now)
            ≡ sum_of weight self.old + weight text.now value }
    {
        if let Some(kept) = self.places.get_mut(place) {
            kept.value = value;
        }
    }

    /// Adds a text of this hash that is not in the map, with its value, at a new place.
    fn add(&mut self, alloc: Global, hash: u64, text: &[u8], value: V) -> Result<(), AllocError>
        requires hash { hash ≡ number text.now }
        requires absent { entry_of self.old text.now ≡ None }
        ensures ok { OnOk result ((other : List ℕ) → entry_of self.new other
            ≡ if bytes_eq text.now other then Some value else entry_of self.old other) }
        ensures sum { OnOk result ((weight : List ℕ → V → ℕ)
            → sum_of weight self.new + weight_at weight text.now (entry_of self.old text.now)
            ≡ sum_of weight self.old + weight text.now value) }
        ensures err { OnErr result (IsUnchanged self.old self.new) }
    {
        let text = Vec::from_slice(alloc, text)?;
        self.places.reserve(1)?;
        self.table.push(alloc, hash)?;
        self.places.push_reserved(Slot { text, value });
        Ok(())
    }

    /// Sets the value of a text that has no place, in the ordered map.
    fn insert_other(&mut self, alloc: Global, text: &[u8], value: V) -> Result<(), AllocError>
        requires { value_in self.old.places.items text.now ≡ None }
        ensures ok { OnOk result ((other : List ℕ) → entry_of self.new other
            ≡ if bytes_eq text.now other then Some value else entry_of self.old other) }
        ensures sum { OnOk result ((weight : List ℕ → V → ℕ)
            → sum_of weight self.new + weight_at weight text.now (entry_of self.old text.now)
            ≡ sum_of weight self.old + weight text.now value) }
        ensures err { OnErr result (IsUnchanged self.old self.new) }
        ensures spare { IsSome (entry_of self.old text.now) → IsOk result }
    {
        if let Some(kept) = self.others.get_mut(text) {
            *kept = value;
            return Ok(());
        }
        let key = Vec::from_slice(alloc, text)?;
        self.others.insert(key, value)?;
        Ok(())
    }

    /// Inserts a text that was found here with a value, or replaces its value, which does not
    /// allocate. On `Err` nothing is changed.
    pub(crate) fn insert(
        &mut self,
        alloc: Global,
        text: &[u8],
        spot: Spot,
        value: V,
    ) -> Result<(), AllocError>
        requires { IsSpot self.old text.now spot }
        ensures ok { OnOk result ((other : List ℕ) → entry_of self.new other
            ≡ if bytes_eq text.now other then Some value else entry_of self.old other) }
        // For any measure of the entries, such as the bytes that they hold: the sum over all
        // entries changes by the measure of this entry, less that of its old value.
        ensures sum { OnOk result ((weight : List ℕ → V → ℕ)
            → sum_of weight self.new + weight_at weight text.now (entry_of self.old text.now)
            ≡ sum_of weight self.old + weight text.now value) }
        ensures err { OnErr result (IsUnchanged self.old self.new) }
        ensures spare { IsSome (entry_of self.old text.now) → IsOk result }
    {
        match spot.place {
            Some(place) => {
                self.replace(text, place, value);
                Ok(())
            }
            // A text in `others` stays there, even if its row has room again after there were more
            // rows.
            None if spot.has_room && self.others.get(text).is_none() => {
                self.add(alloc, spot.hash, text, value)
            }
            None => self.insert_other(alloc, text, value),
        }
    }
}
