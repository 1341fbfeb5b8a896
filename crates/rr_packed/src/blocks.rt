//! The blocks of an archive, in order of their numbers.
ghost use Rattle.std.specs.Prelude.{◌≡◌, ◌<◌, ◌⊎◌, ◌↔◌, ◌++◌, ℤ, None, [], drop, length, int_lt, slice_index_or, IfOk, IfErr, IfSome, IsSome, IsTrue, false, IsOk, OnOk, OnErr, is_some};
ghost use Rattle.std.proofs.Props.{props};
ghost use Rattle.std.specs.List.Sorted.{IsStrictlySortedBy};
ghost use Rattle.std.specs.Map.{keys_of};
ghost use Rattle.std.specs.Option.{option_copied, option_to_list};
ghost use Rattle.std.specs.Ordering.{int_cmp};
ghost use Rattle.std.specs.VecDeque.{deque_len, deque_capacity};
ghost use Rattle.rr_packed.specs.Slots.{block_of, row_of, begins_before};

use crate::held_block::HeldBlock;
use crate::row_number::RowNumber;
use rr_archive::change::Change;
use rr_schema::Origin;
use std::alloc::{AllocError, Global};
use std::cmp::Ordering;
use std::collections::VecDeque;

/// Blocks with their numbers, ascending by these: that of a slot is a 64th of it, rounded down.
///
/// The newest block, which most samples go to, is held in place: it is found without looking at the
/// list of the older ones, and a series with few rows needs no list. The list takes memory for 1,
/// 2, 4, 8 .. blocks.
///
/// `dropped` is the number before which blocks were last dropped, or that of an earlier block added
/// since. No block is before it, so that the first block is looked at again only when a later
/// number is asked for: once in 64 slots.
#[derive(Drop)]
pub(crate) struct Blocks {
    pub(crate) alloc: Global,
    pub(crate) older: VecDeque<(i64, HeldBlock)>,
    pub(crate) newest: Option<(i64, HeldBlock)>,
    pub(crate) dropped: i64,
    ghost ordered: { IsStrictlySortedBy int_cmp
        (keys_of (older.items ++ option_to_list newest)) } by { Prim.hlevel props },
    ghost none_before: { begins_before dropped (keys_of (older.items ++ option_to_list newest))
        ≡ false },
}

/// The number of the block of a slot.
pub(crate) fn block_of(slot: i64) -> i64
    ensures { result ≡ block_of slot }
{
    slot.div_euclid(64)
}

/// The number of the row of a slot in its block.
pub(crate) fn row_of(slot: i64) -> RowNumber
    ensures { result.value ≡ row_of slot }
{
    RowNumber {
        value: slot.rem_euclid(64) as u32,
    }
}

impl Blocks {
    ghost use Rattle.rr_archive.specs.Row.{entry_at};
    ghost use Rattle.rr_archive.specs.Changes.{Fits, entry_after};
    ghost use Rattle.rr_archive.specs.Stored.{ChangesStored, MakesRoom};
    ghost use Rattle.rr_packed.specs.Blocks.{all_blocks, block_at, count_before, row_at, has_room_at, starts_before, IsPlaceOf, IsGapFor, IsBlockSet, IsSlotSet};

    /// No blocks. It takes no memory yet.
    pub(crate) fn new(alloc: Global) -> Blocks
        ensures { all_blocks result ≡ [] }
    {
        Blocks {
            alloc,
            older: VecDeque::new(alloc),
            newest: None,
            dropped: i64::MIN,
        }
    }

    /// The block at a place, with its number: the older ones come first, then the newest.
    pub(crate) fn nth(&self, at: usize) -> Option<&(i64, HeldBlock)>
        ensures variant { IsSome result ↔ (at < length (all_blocks self.now)) }
        ensures lookup { IfSome result
            (λ x. x.now ≡ slice_index_or (all_blocks self.now) at x.now) }
    {
        match at.cmp(&self.older.len()) {
            Ordering::Less => self.older.get(at),
            Ordering::Equal => self.newest.as_ref(),
            Ordering::Greater => None,
        }
    }

    /// Whether the newest block comes before a number.
    fn ends_before(&self, number: i64) -> bool
        ensures { result ≡ starts_before number (option_to_list self.now.newest) }
    {
        match &self.newest {
            Some((newest, _)) => *newest < number,
            None => false,
        }
    }

    /// How many blocks come before a number. The newest is looked at first.
    fn count_before(&self, number: i64) -> usize
        ensures { result ≡ count_before number (all_blocks self.now) }
    {
        if self.ends_before(number) {
            self.older.len() + 1
        } else {
            self.older.partition_point(|(other, _)| *other < number)
        }
    }

    /// Where the block with a number is; if there is none, where it belongs. Usually it is the
    /// newest.
    #[inline(always)]
    fn find(&self, number: i64) -> Result<usize, usize>
        ensures found { IfOk result (IsPlaceOf number (all_blocks self.now)) }
        ensures missing { IfErr result (IsGapFor number (all_blocks self.now)) }
    {
        if let Some((newest, _)) = &self.newest {
            if *newest == number {
                return Ok(self.older.len());
            }
        }
        let at = self.count_before(number);
        if let Some((other, _)) = self.nth(at) {
            if *other == number {
                return Ok(at);
            }
        }
        Err(at)
    }

    /// The block with a number, if there is one.
    pub(crate) fn get(&self, number: i64) -> Option<&HeldBlock>
        ensures value { option_copied result ≡ block_at (all_blocks self.now) number }
    {
        match self.find(number) {
            Ok(at) => {
                let (_, block) = self.nth(at)?;
                Some(block)
            }
            Err(_) => None,
        }
    }

    /// Makes room for one more older block.
    fn make_place(&mut self) -> Result<(), AllocError>
        ensures older { self.new.older.items ≡ self.old.older.items }
        ensures newest { self.new.newest ≡ self.old.newest }
        ensures place { OnOk result (deque_len self.new.older < deque_capacity self.new.older) }
    {
        let count = self.older.len();
        let is_full = count == self.older.capacity();
        let more = if is_full { count.max(1) } else { 0 };
        self.older.reserve_exact(more)
    }

    /// Moves the newest block, if there is one, to the end of the older ones.
    fn retire(&mut self) -> Result<(), AllocError>
        ensures same { all_blocks self.new ≡ all_blocks self.old }
        ensures none { OnOk result (self.new.newest ≡ None) }
    {
        if self.newest.is_none() {
            return Ok(());
        }
        self.make_place()?;
        match self.newest.take() {
            Some(newest) => Ok(self.older.push_back(newest)?),
            None => Ok(()),
        }
    }

    /// Adds a block under a number that has none, where it belongs.
    fn insert(&mut self, at: usize, number: i64, block: HeldBlock) -> Result<(), AllocError>
        requires { IsGapFor number (all_blocks self.old) at }
        ensures added { OnOk result (IsBlockSet number block (all_blocks self.old)
            (all_blocks self.new)) }
        ensures place { OnOk result (IsPlaceOf number (all_blocks self.new) at) }
        ensures unchanged { OnErr result (all_blocks self.new ≡ all_blocks self.old) }
    {
        if self.nth(at).is_some() {
            self.make_place()?;
            self.dropped = self.dropped.min(number);
            Ok(self.older.insert(at, (number, block))?)
        } else {
            self.retire()?;
            self.dropped = self.dropped.min(number);
            self.newest = Some((number, block));
            Ok(())
        }
    }

    /// Where the block of a slot is. If there is none, one without entries is added.
    #[inline(always)]
    fn place_of(&mut self, slot: i64) -> Result<usize, AllocError>
        ensures same { row_at self.new ≡ row_at self.old }
        ensures place { IfOk result (IsPlaceOf (block_of slot) (all_blocks self.new)) }
        ensures was_there { IsTrue (is_some (block_at (all_blocks self.old) (block_of slot)))
            → IsOk result }
        ensures stays { IsTrue (is_some (block_at (all_blocks self.old) (block_of slot)))
            → self.new ≡ self.old }
    {
        let number = block_of(slot);
        match self.find(number) {
            Ok(at) => Ok(at),
            Err(at) => {
                let block = HeldBlock::new(self.alloc)?;
                self.insert(at, number, block)?;
                Ok(at)
            }
        }
    }

    /// Makes room for an entry of an origin in a slot.
    #[inline(always)]
    pub(crate) fn make_room(&mut self, slot: i64, origin: Origin) -> Result<(), AllocError>
        ensures { MakesRoom (has_room_at self.old slot origin) (has_room_at self.new slot origin)
            (row_at self.old) (row_at self.new) result }
    {
        let at = self.place_of(slot)?;
        let row = row_of(slot);
        if at < self.older.len() {
            return self.older[at].1.make_room(self.alloc, row, origin);
        }
        match &mut self.newest {
            Some((_, block)) => block.make_room(self.alloc, row, origin),
            None => Ok(()),
        }
    }

    /// Changes the entry of an origin in a slot.
    #[inline(always)]
    pub(crate) fn change(
        &mut self,
        slot: i64,
        origin: Origin,
        change: &Change,
    ) -> Result<(), AllocError>
        requires { Fits (entry_at (row_at self.old slot) origin) change.now }
        ensures { ChangesStored
            (IsSlotSet slot (entry_after (row_at self.old slot) origin change.now))
            (has_room_at self.old slot origin) (row_at self.old) (row_at self.new) result }
    {
        let at = self.place_of(slot)?;
        let row = row_of(slot);
        if at < self.older.len() {
            return self.older[at].1.change(self.alloc, row, origin, change);
        }
        match &mut self.newest {
            Some((_, block)) => block.change(self.alloc, row, origin, change),
            None => Ok(()),
        }
    }

    /// Whether the first block comes before a number.
    fn starts_before(&self, number: i64) -> bool
        ensures { result ≡ starts_before number (all_blocks self.now) }
    {
        match self.nth(0) {
            Some((first, _)) => *first < number,
            None => false,
        }
    }

    /// Removes the first block.
    fn drop_first(&mut self)
        ensures { all_blocks self.new ≡ drop 1 (all_blocks self.old) }
    {
        match self.older.pop_front() {
            Some(_block) => (),
            None => self.newest = None,
        }
    }

    /// Removes the blocks whose slots are all before this one.
    #[inline(always)]
    pub(crate) fn drop_before(&mut self, slot: i64)
        ensures left { (s : ℤ) → (row_at self.new s ≡ row_at self.old s)
            ⊎ ((row_at self.new s ≡ []) × IsTrue (int_lt s slot)) }
        ensures none_before { starts_before (block_of slot) (all_blocks self.new) ≡ false }
    {
        let number = block_of(slot);
        if number <= self.dropped {
            return;
        }
        while self.starts_before(number) {
            self.drop_first();
        }
        self.dropped = number;
    }
}
