//! The cells of packed rows, read one after the other.
ghost use Rattle.std.specs.Prelude.{◌≡◌, [], ◌∷◌, pos, IsTrue, MatchOption};
ghost use Rattle.rr_packed.specs.PackedRows.{ArePackedRows, are_in_order, cells_packed, entries_at, left_of};

use crate::row_number::RowNumber;
use rr_archive::Entry;
use rr_codec::Decoder;

/// A cell of a block: an entry, and the number of its row.
#[derive(Clone, Copy)]
pub(crate) struct RowCell {
    pub(crate) number: RowNumber,
    pub(crate) entry: Entry,
}

/// The cells of packed rows that are left to read, in order of their rows.
#[derive(Drop)]
pub(crate) struct CellsLeft<'a> {
    decoder: Decoder<'a>,
    ghost in_order: { IsTrue (are_in_order decoder.cells) },
}

impl<'a> CellsLeft<'a> {
    /// All cells of packed rows. The cost is constant.
    pub(crate) fn of(bytes: &'a [u8]) -> CellsLeft<'a>
        requires { ArePackedRows bytes.now }
        ensures { left_of result.decoder.cells ≡ cells_packed bytes.now }
    {
        match Decoder::new(bytes) {
            Ok(decoder) => CellsLeft { decoder },
            Err(_) => unreachable!(),
        }
    }

    /// The next cell, if one is left. The cost is that of reading it.
    pub(crate) fn next(&mut self) -> Option<RowCell>
        ensures { MatchOption result (left_of self.old.decoder.cells ≡ [])
            (λ cell. left_of self.old.decoder.cells
            ≡ (pos cell.number.value, cell.entry) ∷ left_of self.new.decoder.cells) }
    {
        match self.decoder.next() {
            Ok(Some(cell)) => Some(RowCell {
                number: RowNumber {
                    value: cell.0 as u32,
                },
                entry: cell.1,
            }),
            Ok(None) => None,
            Err(_) => unreachable!(),
        }
    }

    /// The next entry of a row, if one is left. The cells before it are skipped, and so is one of a
    /// later row if there is none. The cost is that of reading these.
    pub(crate) fn next_of(&mut self, number: RowNumber) -> Option<Entry>
        ensures { MatchOption result
            (entries_at (left_of self.old.decoder.cells) (pos number.value) ≡ [])
            (λ entry. entries_at (left_of self.old.decoder.cells) (pos number.value)
            ≡ entry ∷ entries_at (left_of self.new.decoder.cells) (pos number.value)) }
    {
        while let Some(cell) = self.next() {
            if cell.number.value == number.value {
                return Some(cell.entry);
            }
            if cell.number.value > number.value {
                return None;
            }
        }
        None
    }
}
