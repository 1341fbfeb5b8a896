//! Writing and digesting the pieces of a snapshot.
ghost use Rattle.std.specs.Prelude.{◌++◌, List, ℕ};
ghost use Rattle.sha2.specs.Hashers.{Holds256};
ghost use Rattle.rr_io.specs.Stream.{Writes};
ghost use Rattle.rr_page.specs.CellText.{cell_text};
ghost use Rattle.rr_page.specs.Version.{latest};
ghost use Rattle.rr_cells.specs.Listing.{seen_cell};
ghost use Rattle.rr_snapshot.specs.Saving.{SavesPart};

use crate::fault::SaveFault;
use rr_cells::CellRef;
use rr_io::Counted;
use rr_io::stream::{WriteFailed, write_all};
use rr_page::cell_bytes;
use sha2::{Digest, Sha256};
use std::alloc::Global;
use std::io::Write;

/// Writes a piece, and adds it to what is digested.
pub(crate) fn write_piece<W: Write>(
    output: &mut Counted<W>,
    hasher: &mut Sha256,
    piece: &[u8],
) -> Result<(), WriteFailed>
    ensures writes { Writes W.contents output.old output.new piece.now result }
    ensures digest { (m : List ℕ) → Holds256 hasher.old m → Holds256 hasher.new (m ++ piece.now) }
{
    hasher.update(piece);
    write_all(output, piece)
}

/// Writes a cell, and adds its bytes to what is digested.
pub(crate) fn write_cell<W: Write>(
    alloc: Global,
    cell: &CellRef<'_>,
    output: &mut Counted<W>,
    hasher: &mut Sha256,
) -> Result<(), SaveFault>
    ensures { SavesPart W.contents output.old output.new hasher.old hasher.new
        (cell_text latest (seen_cell cell.now)) result }
{
    let cell = CellRef {
        key: cell.key,
        archive: cell.archive,
        slot: cell.slot,
        origin: cell.origin,
        contribution: cell.contribution,
    };
    let bytes = cell_bytes(alloc, cell)?;
    write_piece(output, hasher, &bytes)?;
    Ok(())
}
