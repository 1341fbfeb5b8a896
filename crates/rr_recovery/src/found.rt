//! What a journal holds besides cells.
ghost use Rattle.std.specs.Prelude.{◌≡◌, ◌↔◌, nat_eq, IsTrue, OnOk, Some};
ghost use Rattle.std.specs.Cmp.Lexicographic.{pointwise};
ghost use Rattle.std.specs.List.{position};
ghost use Rattle.rr_recovery.specs.Found.{found_state, nothing_found, one_record, with_cursor};

use rr_journal::Cursor;
use rr_schema::Origin;
use std::alloc::{AllocError, Global};

/// What was found in the files of a journal besides cells, carried from file to file.
#[derive(Debug, Drop)]
pub struct Found {
    /// The origin of the last record that names one: the last samples were written under it.
    pub origin: Option<Origin>,
    /// For each journal that was joined, how far.
    pub cursors: Vec<Cursor>,
    /// How many cells the checkpoint has, if the last record is its end.
    pub end: Option<u64>,
    /// How many records were read. It saturates.
    pub records: u64,
    /// How many cells were read. It saturates.
    pub cells: u64,
}

impl Found {
    /// Nothing found yet. Takes no memory.
    pub fn new(alloc: Global) -> Found
        ensures { found_state result ≡ nothing_found }
    {
        Found {
            origin: None,
            cursors: Vec::new(alloc),
            end: None,
            records: 0,
            cells: 0,
        }
    }

    /// Counts a record. An end before it no longer counts.
    pub(crate) fn count_record(&mut self)
        ensures { found_state self.new ≡ one_record (found_state self.old) }
    {
        self.end = None;
        self.records = self.records.saturating_add(1);
    }

    /// Whether a checkpoint is whole, if only its file was read: its last record is an end, which
    /// states as many cells as were read.
    pub fn is_whole(&self) -> bool
        ensures { IsTrue result ↔ (self.now.end ≡ Some self.now.cells) }
    {
        self.end == Some(self.cells)
    }
}

/// The index of the cursor of the same journal, if there is one.
fn place_of(cursors: &[Cursor], cursor: &Cursor) -> Option<usize>
    ensures { result ≡ position (λ c. pointwise nat_eq c.id cursor.now.id) cursors.now }
{
    cursors
        .iter()
        .position(|known: &Cursor| known.id == cursor.id)
}

/// Replaces the cursor of the same journal, or appends this one. The cost is linear in the cursors.
pub fn put_cursor(cursors: &mut Vec<Cursor>, cursor: Cursor) -> Result<(), AllocError>
    ensures { OnOk result (cursors.new.items ≡ with_cursor cursors.old.items cursor) }
{
    match place_of(cursors, &cursor) {
        Some(place) => cursors[place] = cursor,
        None => cursors.push(cursor)?,
    }
    Ok(())
}
