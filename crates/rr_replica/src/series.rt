//! The archives of all keys, found by key.
ghost use Rattle.std.specs.Prelude.{◌≡◌, ◌∷◌, ◌++◌, ℕ, List, [], None, Some, Option, cond, IfOk, IfSome, OnOk, OnErr, slice_get};
ghost use Rattle.std.specs.Option.{option_map};
ghost use Rattle.std.specs.BTreeMap.{is_at};
ghost use Rattle.rr_text.specs.Bytes.{bytes_cmp};
ghost use Rattle.rr_replica.specs.InMemory.{archives_of};
ghost use Rattle.rr_replica.specs.Indexed.{index_of, items_of, IsIndexed};
ghost use Rattle.std.proofs.Props.{props};

use crate::hint::Hint;
use crate::hints::Hints;
use rr_key::SeriesKey;
use std::alloc::{AllocError, Global};
use std::collections::BTreeMap;

/// The archives of all keys. Each key has an index, by which its archives are found once it is
/// known.
///
/// A tree has the indices in order of the keys, and hints are tried before it: a key is usually
/// found by its hash, and at worst at the cost of the tree.
#[derive(Drop)]
pub(crate) struct SeriesMap<A> {
    pub(crate) keys: Vec<SeriesKey>,
    pub(crate) archives: Vec<Vec<A>>,
    pub(crate) indices: BTreeMap<SeriesKey, usize>,
    hints: Hints,
    ghost indexed: { IsIndexed keys.items indices.entries archives.items } by { Prim.hlevel props },
}

impl<A: Drop> SeriesMap<A> {
    ghost use Rattle.rr_replica.specs.SeriesMap.{entries_of};

    /// No key yet. Takes no memory.
    pub(crate) fn new(alloc: Global) -> SeriesMap<A>
        ensures none { entries_of result ≡ [] }
        ensures no_keys { result.keys.items ≡ [] }
        ensures no_archives { result.archives.items ≡ [] }
    {
        SeriesMap {
            keys: Vec::new(alloc),
            archives: Vec::new(alloc),
            indices: BTreeMap::new(alloc),
            hints: Hints::new(alloc),
        }
    }

    /// The index of a key, if it is known.
    pub(crate) fn find(&self, key: &SeriesKey) -> Option<usize>
        ensures { result ≡ index_of self.now.indices.entries key.now }
    {
        match self.hints.find(&self.keys, key) {
            Some(index) => Some(index),
            None => self.indices.get(key).copied(),
        }
    }

    /// The index of a hint, if the key is the one there.
    fn index_near(&self, hint: Hint, key: &SeriesKey) -> Option<usize>
        ensures { IfSome result (λ i. slice_get self.now.keys.items i ≡ Some key.now) }
    {
        let near = self.keys.get(hint.index)?;
        if near == key {
            return Some(hint.index);
        }
        None
    }

    /// The index of a key, if it is known. The hint is tried first.
    #[inline(always)]
    pub(crate) fn find_near(&self, hint: Hint, key: &SeriesKey) -> Option<usize>
        ensures { result ≡ index_of self.now.indices.entries key.now }
    {
        match self.index_near(hint, key) {
            Some(index) => Some(index),
            None => self.find(key),
        }
    }

    /// The key as it is known, with its index; one that isn't known is given as it is, with the
    /// index it gets if added next. The hint is tried first.
    pub(crate) fn known_key<'a>(&'a self, hint: Hint, key: &'a SeriesKey) -> (&'a SeriesKey, usize)
        ensures { result.0.now ≡ key.now }
    {
        match self.find_near(hint, key) {
            Some(index) => (&self.keys[index], index),
            None => (key, self.keys.len()),
        }
    }

    /// The archives of a key, if it is known.
    pub(crate) fn get(&self, key: &SeriesKey) -> Option<&Vec<A>>
        ensures { option_map (λ archives. archives.now) result
            ≡ archives_of (entries_of self.now) key.now }
    {
        self.get_near(Hint::none(), key)
    }

    /// The archives of a key, if it is known. The hint is tried first.
    pub(crate) fn get_near(&self, hint: Hint, key: &SeriesKey) -> Option<&Vec<A>>
        ensures { option_map (λ archives. archives.now) result
            ≡ archives_of (entries_of self.now) key.now }
    {
        match self.find_near(hint, key) {
            Some(index) => self.archives.get(index),
            None => None,
        }
    }

    /// A key as it is known, and its archives, if it is known.
    pub(crate) fn known(&self, key: &SeriesKey) -> Option<(&SeriesKey, &Vec<A>)>
        ensures key { IfSome result (λ known. known.0.now ≡ key.now) }
        ensures archives { IfSome result (λ known. archives_of (entries_of self.now) key.now
            ≡ Some known.1.now) }
    {
        match self.find(key) {
            Some(index) => {
                let known = &self.keys[index];
                let archives = &self.archives[index];
                Some((known, archives))
            }
            None => None,
        }
    }

    /// The archives at an index; none past the last.
    pub(crate) fn at(&self, index: usize) -> &[A]
        ensures { result.now ≡ items_of (slice_get self.now.archives.items index) }
    {
        match self.archives.get(index) {
            Some(archives) => archives,
            None => &[],
        }
    }

    /// Adds a key that isn't known yet, with its archives. After an error nothing has changed.
    pub(crate) fn insert(&mut self, key: &SeriesKey, archives: Vec<A>) -> Result<(), AllocError>
        requires { index_of self.old.indices.entries key.now ≡ None }
        ensures keys { OnOk result (self.new.keys.items ≡ self.old.keys.items ++ key.now ∷ []) }
        ensures archives { OnOk result (self.new.archives.items ≡ self.old.archives.items
            ++ archives ∷ []) }
        ensures sets { OnOk result ((q : List ℕ) → archives_of (entries_of self.new) q
            ≡ cond (is_at (bytes_cmp key.now) q) (Some archives)
            (archives_of (entries_of self.old) q)) }
        ensures unchanged { OnErr result (entries_of self.new ≡ entries_of self.old) }
        ensures same_keys { OnErr result (self.new.keys.items ≡ self.old.keys.items) }
    {
        self.keys.reserve(1)?;
        self.archives.reserve(1)?;
        let key = key.copy()?;
        self.indices.insert(key.copy()?, self.keys.len())?;
        self.keys.push_reserved(key);
        self.archives.push_reserved(archives);
        self.hints.add(&self.keys);
        Ok(())
    }
}
