//! Items for some of 64 numbers.
ghost use Rattle.std.specs.Prelude.{◌≡◌, ◌<◌, ◌≤◌, ◌+◌, ℕ, insert, vec_capacity, slice_range, None, Some, IfSome, is_none, IsOk, OnOk, OnErr, count_ones, vec_len};

use crate::mask::ones_on;
use crate::row_number::{RowNumber, RowRange};
use std::alloc::{AllocError, Global};

/// Items for some of the numbers from 0 to 63, in order: the mask has a bit for each number that
/// has one.
#[derive(Drop)]
pub(crate) struct Sparse<T> {
    pub(crate) mask: u64,
    pub(crate) items: Vec<T>,
    ghost counted: { count_ones mask ≡ vec_len items },
}

/// Inserts an item into a list. Usually it goes last, where no other has to move.
#[inline(always)]
fn insert_at<T: Drop>(items: &mut Vec<T>, at: usize, item: T) -> Result<(), AllocError>
    requires { at ≤ vec_len items.old }
    ensures items { OnOk result (items.new.items ≡ insert items.old.items at item) }
    ensures len { OnOk result (vec_len items.new ≡ vec_len items.old + 1) }
    ensures unchanged { OnErr result (items.new.items ≡ items.old.items) }
    ensures same_len { OnErr result (vec_len items.new ≡ vec_len items.old) }
    ensures room { vec_len items.old < vec_capacity items.old → IsOk result }
{
    if at == items.len() {
        items.push(item)?;
        return Ok(());
    }
    items.insert(at, item)?;
    Ok(())
}

impl<T: Drop> Sparse<T> {
    ghost use Rattle.std.specs.Option.{option_copied};
    ghost use Rattle.rr_archive.specs.Stored.{ChangesStored, MakesRoom};
    ghost use Rattle.rr_packed.specs.Sparse.{rank, place_at, item_in, has_room, IsItemSet};

    /// No items. It takes no memory yet.
    pub(crate) fn new(alloc: Global) -> Sparse<T>
        ensures { (number : ℕ) → item_in result number ≡ None }
    {
        Sparse {
            mask: 0,
            items: Vec::new(alloc),
        }
    }

    /// How many items belong to numbers before this one.
    fn rank(&self, number: RowNumber) -> usize
        ensures rank { result ≡ rank self.now.mask number.value }
        ensures at_most { result ≤ vec_len self.now.items }
    {
        (self.mask & ((1 << number.value) - 1)).count_ones() as usize
    }

    /// Whether a number has no item.
    #[inline(always)]
    pub(crate) fn lacks(&self, number: RowNumber) -> bool
        ensures { result ≡ is_none (place_at self.now.mask number.value) }
    {
        self.mask >> number.value & 1 == 0
    }

    /// Where in the list the item of a number is, if it has one.
    #[inline(always)]
    pub(crate) fn find(&self, number: RowNumber) -> Option<usize>
        ensures place { result ≡ place_at self.now.mask number.value }
        ensures within { IfSome result (λ at. at < vec_len self.now.items) }
    {
        if self.mask >> number.value & 1 == 0 {
            return None;
        }
        Some(self.rank(number))
    }

    /// The item of a number, if it has one.
    pub(crate) fn get(&self, number: RowNumber) -> Option<&T>
        ensures value { option_copied result ≡ item_in self.now number.value }
    {
        match self.find(number) {
            Some(at) => Some(&self.items[at]),
            None => None,
        }
    }

    /// The items of some rows.
    pub(crate) fn items_on(&self, rows: RowRange) -> &[T]
        ensures { result.now ≡ slice_range self.now.items.items
            (rank self.now.mask rows.first.value)
            (rank self.now.mask (rows.first.value + rows.count)) }
    {
        let from = self.rank(rows.first);
        let to = from + ones_on(self.mask, rows);
        &self.items[from..to]
    }

    /// Whether one more item takes no memory.
    pub(crate) fn has_room(&self) -> bool
        ensures { result ≡ has_room self.now }
    {
        self.items.len() < self.items.capacity()
    }

    /// Makes room for one more item. The list takes memory for 1, 4, 16, 64 items, since most
    /// series have few rows.
    #[inline(always)]
    pub(crate) fn make_room(&mut self) -> Result<(), AllocError>
        ensures mask { self.new.mask ≡ self.old.mask }
        ensures items { self.new.items.items ≡ self.old.items.items }
        ensures made { MakesRoom (has_room self.old) (has_room self.new) (item_in self.old)
            (item_in self.new) result }
    {
        if self.has_room() {
            return Ok(());
        }
        self.items
            .reserve_exact(self.items.len().saturating_mul(3).max(1))
    }

    /// Gives back the memory that its items don't need.
    pub(crate) fn shrink(&mut self)
        ensures { item_in self.new ≡ item_in self.old }
    {
        self.items.shrink_to_fit();
    }

    /// Adds the item of a number that has none.
    #[inline(always)]
    pub(crate) fn insert(&mut self, number: RowNumber, item: T) -> Result<(), AllocError>
        requires { place_at self.old.mask number.value ≡ None }
        ensures { ChangesStored (IsItemSet number.value (Some item)) (has_room self.old)
            (item_in self.old) (item_in self.new) result }
    {
        let at = self.rank(number);
        let mask = self.mask | 1 << number.value;
        self.make_room()?;
        insert_at(&mut self.items, at, item)?;
        self.mask = mask;
        Ok(())
    }

    /// Removes the item of a number, if it has one.
    pub(crate) fn remove(&mut self, number: RowNumber)
        ensures removed { IsItemSet number.value None (item_in self.old) (item_in self.new) }
        ensures free { place_at self.new.mask number.value ≡ None }
        ensures absent { place_at self.old.mask number.value ≡ None → self.new ≡ self.old }
    {
        let Some(at) = self.find(number) else {
            return;
        };
        let mask = self.mask & !(1 << number.value);
        self.items.remove(at);
        self.mask = mask;
    }
}
