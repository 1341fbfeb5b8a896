//! The entries of one row, for archives that keep many: most rows are of one origin, and take no
//! memory of their own.
ghost use Rattle.std.specs.Prelude.{◌≡◌, [], ◌∷◌, is_none, IsTrue, IsOk, OnOk, OnErr, IfOk};
ghost use Rattle.rr_archive.specs.Row.{entry_at, with_entry};
ghost use Rattle.rr_archive.specs.Changes.{Fits, entry_after};
ghost use Rattle.rr_archive.specs.Entries.{items_of, has_room};
ghost use Rattle.rr_archive.specs.Stored.{MakesRoom};

use crate::change::{Change, contribution_after};
use crate::entry::Entry;
use crate::row::change_entry;
use rr_schema::Origin;
use std::alloc::{AllocError, Global};
use std::slice;

/// The entries of a row, ascending by origin.
#[derive(Drop)]
pub enum Entries {
    Empty,
    One(Entry),
    Many(Vec<Entry>),
}

/// The entry of an origin that had none, after a change.
pub fn first_entry(origin: Origin, change: &Change) -> Entry
    ensures { result ≡ entry_after [] origin change.now }
{
    Entry {
        origin,
        contribution: contribution_after(None, change),
    }
}

/// The list of one entry, after a change to that of an origin.
fn two_entries(
    alloc: Global,
    old: Entry,
    origin: Origin,
    change: &Change,
) -> Result<Vec<Entry>, AllocError>
    requires { Fits (entry_at (old ∷ []) origin) change.now }
    ensures { IfOk result (λ two. two.items
        ≡ with_entry (old ∷ []) (entry_after (old ∷ []) origin change.now)) }
{
    let mut two = Vec::with_capacity(alloc, 2)?;
    two.push(old)?;
    change_entry(&mut two, origin, change)?;
    Ok(two)
}

impl Entries {
    /// The entries, in order.
    pub fn as_slice(&self) -> &[Entry]
        ensures { result.now ≡ items_of self.now }
    {
        match self {
            Entries::Empty => &[],
            Entries::One(entry) => slice::from_ref(entry),
            Entries::Many(entries) => entries.as_slice(),
        }
    }

    /// Changes the entry of an origin, and returns whether it is new.
    pub fn change(
        &mut self,
        alloc: Global,
        origin: Origin,
        change: &Change,
    ) -> Result<bool, AllocError>
        requires { Fits (entry_at (items_of self.old) origin) change.now }
        ensures changed { OnOk result (items_of self.new
            ≡ with_entry (items_of self.old) (entry_after (items_of self.old) origin change.now)) }
        ensures is_new { IfOk result (λ is_new. is_new
            ≡ is_none (entry_at (items_of self.old) origin)) }
        ensures unchanged { OnErr result (items_of self.new ≡ items_of self.old) }
        ensures room { IsTrue (has_room self.old origin) → IsOk result }
    {
        match self {
            Entries::Empty => {
                *self = Entries::One(first_entry(origin, change));
                Ok(true)
            }
            Entries::One(old) => {
                if old.origin == origin {
                    old.contribution = contribution_after(Some(old.contribution), change);
                    return Ok(false);
                }
                let two = two_entries(alloc, *old, origin, change)?;
                *self = Entries::Many(two);
                Ok(true)
            }
            Entries::Many(entries) => change_entry(entries, origin, change),
        }
    }

    /// Replaces all entries with the one that a change makes for an origin, in the same memory.
    pub fn restart(&mut self, origin: Origin, change: &Change)
        requires { Fits (entry_at [] origin) change.now }
        ensures { items_of self.new ≡ entry_after [] origin change.now ∷ [] }
    {
        let entry = first_entry(origin, change);
        match self {
            Entries::Many(entries) => {
                entries.clear();
                if let Err(failed) = entries.push(entry) {
                    *self = Entries::One(failed.value);
                }
            }
            _ => *self = Entries::One(entry),
        }
    }

    /// Makes room for an entry of an origin, so that the next `change` of it can't fail.
    pub fn make_room(&mut self, alloc: Global, origin: Origin) -> Result<(), AllocError>
        ensures { MakesRoom (has_room self.old origin) (has_room self.new origin)
            (items_of self.old) (items_of self.new) result }
    {
        match self {
            Entries::Empty => Ok(()),
            Entries::One(old) => {
                if old.origin == origin {
                    return Ok(());
                }
                let mut room = Vec::with_capacity(alloc, 2)?;
                room.push(*old)?;
                *self = Entries::Many(room);
                Ok(())
            }
            Entries::Many(entries) => entries.reserve(1),
        }
    }

    /// The same entries.
    pub fn copy(&self, alloc: Global) -> Result<Entries, AllocError>
        ensures { IfOk result (λ new. items_of new ≡ items_of self.now) }
    {
        match self {
            Entries::Empty => Ok(Entries::Empty),
            Entries::One(entry) => Ok(Entries::One(*entry)),
            Entries::Many(entries) => {
                let entries = Vec::from_slice(alloc, entries)?;
                Ok(Entries::Many(entries))
            }
        }
    }
}
