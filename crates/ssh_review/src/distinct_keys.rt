//! How many different keys stand on the key lines of files.

ghost use Rattle.std.specs.Prelude.{◌≡◌, [], OnOk};
ghost use Rattle.ssh_review.specs.DistinctKeys.{key_count, keys_seen, with_key};

use std::alloc::{AllocError, Global};
use std::collections::HashSet;
use std::marker::Model;

/// The most keys that are counted.
const MOST_KEYS: usize = 65_536;

/// The different keys on the key lines of files, by their fingerprints. Where there are more than
/// 65,536 no further key is stored, so that memory does not grow with the number of files, and keys
/// that were made to have one hash slow a review only up to there.
#[derive(Drop)]
pub struct DistinctKeys {
    prints: HashSet<[u8; 43]>,
}

impl Model for DistinctKeys {
    ghost use Rattle.std.specs.Prelude.{◌≡◌, length};
    ghost use Rattle.std.specs.Coded.{coded_list, coded_option, coded_ℕ};
    ghost use Rattle.std.specs.FinSet as set;
    ghost use Rattle.ssh_review.specs.DistinctKeys.{KeySet, keys_seen, print_order};

    ghost Value = { KeySet };

    ghost coded = { coded_option (set.code (coded_list coded_ℕ)) };

    ghost view = { λ k. keys_seen k.prints.keys };

    ghost invariant = { λ k. set.len (set.from_list {R = print_order} k.prints.keys) ≡ length k.prints.keys };
}

impl DistinctKeys {
    /// No keys. Does not allocate.
    pub fn new(alloc: Global) -> DistinctKeys
        ensures { result ≡ keys_seen [] }
    {
        DistinctKeys {
            prints: HashSet::new(alloc),
        }
    }

    /// How many different keys were noted; `None` where that are more than 65,536.
    pub fn count(&self) -> Option<u64>
        ensures { result ≡ key_count self.now }
    {
        let count = self.prints.len();
        if count > MOST_KEYS {
            None
        } else {
            Some(count as u64)
        }
    }

    /// Notes the key with this fingerprint.
    pub(crate) fn note(&mut self, print: [u8; 43]) -> Result<(), AllocError>
        ensures { OnOk result (self.new ≡ with_key self.old print) }
    {
        if self.prints.len() <= MOST_KEYS {
            self.prints.insert(print)?;
        }
        Ok(())
    }
}
