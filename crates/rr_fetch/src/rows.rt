//! The rows of an archive, one after another.
ghost use Rattle.std.specs.Prelude.{◌≡◌, ◌+◌, ◌≤◌, ◌≤ℤ◌, pos, map, drop, slice_range, length, vec_len, [], IfOk, OnErr, OnOk};
ghost use Rattle.std.specs.List.{prefix_len};
ghost use Rattle.std.specs.Ordering.{int_eq};
ghost use Rattle.rr_text.specs.declared.limits.TheConstants.{MAX_FETCH_ROWS, MAX_SECOND};
ghost use Rattle.rr_archive.specs.Cells.{cells_on, row_of};
ghost use Rattle.rr_fetch.specs.LentRows.{lent_cells};

use rr_archive::{Cells, Entry};
use std::alloc::{AllocError, Global};

/// The rows of an archive. The cells of a run of slots are read at once, so rows cost least in slot
/// order. Without an archive, no row has an entry.
#[derive(Drop)]
pub(crate) struct Rows<'a, A: Cells> {
    archive: Option<&'a A>,
    /// The cells of the run read last.
    run: Vec<(i64, Entry)>,
    /// Where the row read last begins in it.
    from: usize,
    /// Where that row ends: what follows is of the slots from `next` on.
    at: usize,
    /// The slot after the one asked for last.
    next: i64,
    /// How many slots of the run remain, from `next` on.
    left: u32,
    ghost ends: { from ≤ at },
    ghost within: { at ≤ vec_len run },
    ghost to_come: { drop at run.items
        ≡ cells_on (lent_cells (λ a. A.cells a.now) archive) next left },
}

/// How many leading cells are of a slot.
fn leading(cells: &[(i64, Entry)], slot: i64) -> usize
    ensures count { result ≡ prefix_len (λ c. int_eq c.0 slot) cells.now }
    ensures at_most { result ≤ length cells.now }
{
    let mut count = 0;
    while count < cells.len() && cells[count].0 == slot {
        count += 1;
    }
    count
}

/// Replaces the contents of a list with the cells of an archive's run from a slot on, and returns
/// how many slots the run has. After an error the list is empty.
fn run_into<A: Cells>(
    archive: Option<&A>,
    slot: i64,
    run: &mut Vec<(i64, Entry)>,
) -> Result<u32, AllocError>
    ensures some { IfOk result (λ slots. 1 ≤ slots) }
    ensures written { IfOk result (λ slots. run.new.items
        ≡ cells_on (lent_cells (λ a. A.cells a.now) archive.entry) slot slots) }
    ensures emptied { OnErr result (run.new.items ≡ []) }
{
    let Some(archive) = archive else {
        run.clear();
        return Ok(1);
    };
    let read = archive.cells_into(slot, run);
    if read.is_err() {
        run.clear();
    }
    read
}

impl<'a, A: Cells> Rows<'a, A> {
    /// The rows of an archive. No memory is taken yet.
    pub(crate) fn new(alloc: Global, archive: Option<&'a A>) -> Rows<'a, A>
        ensures { result.archive ≡ archive.entry }
    {
        Rows {
            archive,
            run: Vec::new(alloc),
            from: 0,
            at: 0,
            next: 0,
            left: 0,
        }
    }

    /// Reads the run from a slot on, unless that slot is the next of the run read last.
    fn seek(&mut self, slot: i64) -> Result<(), AllocError>
        ensures archive { self.new.archive ≡ self.old.archive }
        ensures next { OnOk result (self.new.next ≡ slot) }
        ensures some { OnOk result (1 ≤ self.new.left) }
    {
        if self.left > 0 && self.next == slot {
            return Ok(());
        }
        let read = run_into(self.archive, slot, &mut self.run);
        self.from = 0;
        self.at = 0;
        self.next = slot;
        self.left = read.unwrap_or(0);
        read?;
        Ok(())
    }

    /// Takes the next row of the run.
    fn take_row(&mut self)
        requires near { self.old.next ≤ℤ pos (MAX_SECOND + MAX_FETCH_ROWS) }
        requires some { 1 ≤ self.old.left }
        ensures archive { self.new.archive ≡ self.old.archive }
        ensures row { slice_range self.new.run.items self.new.from self.new.at
            ≡ map (λ e. (self.old.next, e))
            (row_of (lent_cells (λ a. A.cells a.now) self.old.archive) self.old.next) }
    {
        let count = leading(&self.run[self.at..], self.next);
        self.from = self.at;
        self.at += count;
        self.next += 1;
        self.left -= 1;
    }

    /// Reads the row of a slot.
    pub(crate) fn read(&mut self, slot: i64) -> Result<(), AllocError>
        requires { slot ≤ℤ pos (MAX_SECOND + MAX_FETCH_ROWS) }
        ensures archive { self.new.archive ≡ self.old.archive }
        ensures row { OnOk result (slice_range self.new.run.items self.new.from self.new.at
            ≡ map (λ e. (slot, e))
            (row_of (lent_cells (λ a. A.cells a.now) self.old.archive) slot)) }
    {
        self.seek(slot)?;
        self.take_row();
        Ok(())
    }

    /// The cells of the row read last.
    pub(crate) fn cells(&self) -> &[(i64, Entry)]
        ensures { result.now ≡ slice_range self.now.run.items self.now.from self.now.at }
    {
        &self.run[self.from..self.at]
    }
}
