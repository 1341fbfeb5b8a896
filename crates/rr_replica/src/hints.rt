//! Where keys are likely to be, by their hashes.
ghost use Rattle.std.specs.Prelude.{◌≡◌, Some, IfSome, slice_get};

use rr_key::SeriesKey;
use std::alloc::{AllocError, Global};
use std::hash::{FoldHasher, Hasher};

/// How many buckets of the table may hold the index of a key.
const MAX_PROBES: usize = 8;

/// How many buckets the table has at first: a power of two, as at all times.
const FIRST_BUCKETS: usize = 16;

/// What a bucket without an index holds.
const EMPTY: u32 = u32::MAX;

/// A table of the indices of keys, each near the bucket given by the hash of its key.
///
/// It may lack keys, and an index in it may be of another key: keys are compared, and those not
/// found are looked up elsewhere. So keys chosen for their hashes are only slower to find, and none
/// is ever mistaken for another.
#[derive(Drop)]
pub(crate) struct Hints {
    alloc: Global,
    buckets: Vec<u32>,
}

impl Hints {
    /// A table without buckets. Takes no memory.
    pub(crate) fn new(alloc: Global) -> Hints {
        Hints {
            alloc,
            buckets: Vec::new(alloc),
        }
    }

    /// The index of a key among `keys`, if the table has it. The cost is one pass over the key, and
    /// comparing at most eight keys with it.
    pub(crate) fn find(&self, keys: &[SeriesKey], key: &SeriesKey) -> Option<usize>
        ensures { IfSome result (λ i. slice_get keys.now i ≡ Some key.now) }
    {
        let first = hash_of(key);
        for i in 0..MAX_PROBES {
            let index = self.index_at(first.wrapping_add(i))?;
            if keys.get(index)? == key {
                return Some(index);
            }
        }
        None
    }

    /// Adds the last of the keys. Without memory for more buckets, some keys stay without one.
    pub(crate) fn add(&mut self, keys: &[SeriesKey]) {
        if self.buckets.len() / 2 < keys.len() && self.grow(keys).is_ok() {
            return;
        }
        if let Some(last) = keys.last() {
            self.insert(last, keys.len() - 1);
        }
    }

    /// Doubles the number of buckets, for all of the keys.
    fn grow(&mut self, keys: &[SeriesKey]) -> Result<(), AllocError> {
        let count = self.buckets.len().saturating_mul(2).max(FIRST_BUCKETS);
        self.buckets = vec![in self.alloc; EMPTY; count]?;
        for i in 0..keys.len() {
            self.insert(&keys[i], i);
        }
        Ok(())
    }

    /// Writes the index of a key into its first empty bucket, if there is one.
    fn insert(&mut self, key: &SeriesKey, index: usize) {
        let Ok(index) = u32::try_from(index) else {
            return;
        };
        let first = hash_of(key);
        for i in 0..MAX_PROBES {
            let at = self.wrapped(first.wrapping_add(i));
            if self.buckets.get(at) == Some(&EMPTY) {
                self.buckets[at] = index;
                return;
            }
        }
    }

    /// What a bucket has, an index or `EMPTY`; none if there are no buckets.
    fn index_at(&self, bucket: usize) -> Option<usize> {
        match self.buckets.get(self.wrapped(bucket)) {
            Some(index) => Some(*index as usize),
            None => None,
        }
    }

    /// A bucket of the table, wrapping around after the last.
    fn wrapped(&self, bucket: usize) -> usize {
        bucket & self.buckets.len().wrapping_sub(1)
    }
}

/// The hash of a key.
fn hash_of(key: &SeriesKey) -> usize {
    let mut hasher = FoldHasher::default();
    hasher.write(key.text());
    hasher.finish() as usize
}
