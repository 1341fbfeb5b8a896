//! A cell from a stream, in one buffer.
ghost use Rattle.std.specs.Prelude.{◌≡◌, ◌≤◌, IfOk, Err, length, take};
ghost use Rattle.std.specs.Io.KnownBytes.{Consumes};
ghost use Rattle.rr_io.specs.Counted.{inner_of};
ghost use Rattle.rr_io.specs.Stream.{ReadsUpTo};
ghost use Rattle.rr_page.specs.Reading.{cell_at};
ghost use Rattle.rr_page.specs.Version.{fields_len};
ghost use Rattle.rr_page.specs.declared.writing.TheConstants.{FIELDS_LEN};
ghost use Rattle.rr_cells.specs.CellBounds.{IsCellOf};
ghost use Rattle.rr_cells.specs.Listing.{owned_cell};
ghost use Rattle.rr_snapshot.specs.SnapshotReading.{as_in_page};
ghost use Rattle.rr_snapshot.specs.Stream.{FillsUpTo, HasRead, LoadsFrom, StreamGives, whole_len};

use crate::fault::LoadFault;
use rr_cells::Cell;
use rr_io::Counted;
use rr_io::stream::{ReadFailed, fill};
use rr_page::fields::u16_at;
use rr_page::{FIELDS_LEN, Version, read_cell_in};
use rr_schema::Schema;
use rr_text::limits::MAX_KEY_TEXT;
use std::alloc::Global;
use std::io::Read;

/// How many bytes the longest cell takes.
pub(crate) const MAX_CELL_LEN: usize = FIELDS_LEN + MAX_KEY_TEXT;

/// How many bytes a cell takes besides its key text.
fn fields_len(version: Version) -> usize
    ensures value { result ≡ fields_len version }
    ensures at_least { 2 ≤ result }
    ensures at_most { result ≤ FIELDS_LEN }
{
    match version {
        Version::One => FIELDS_LEN - 8, // of the sixteen bytes of a mask
        Version::Two => FIELDS_LEN,
    }
}

/// The size in bytes of the cell with this prefix; if no cell begins with it, that of the prefix.
fn cell_len(prefix: &[u8], version: Version) -> usize
    ensures value { result ≡ whole_len version prefix.now }
    ensures more { length prefix.now ≤ 2 → length prefix.now ≤ result }
    ensures fits { length prefix.now ≤ 2 → result ≤ MAX_CELL_LEN }
{
    match u16_at(prefix) {
        Ok((len, _)) => {
            let len = len as usize;
            if len == 0 || len > MAX_KEY_TEXT {
                return prefix.len();
            }
            fields_len(version) + len
        }
        Err(_) => prefix.len(),
    }
}

/// Reads into a buffer after its first `filled` bytes, up to `len` or the end of the input, and
/// returns how many bytes are then filled.
pub(crate) fn fill_up_to<R: Read>(
    input: &mut Counted<R>,
    buffer: &mut [u8],
    filled: usize,
    len: usize,
) -> Result<usize, ReadFailed>
    requires filled_before { filled ≤ len }
    requires room { len ≤ length buffer.old }
    ensures { FillsUpTo filled len R.remaining input.old input.new buffer.old buffer.new result }
{
    let more = fill(input, &mut buffer[filled..len])?;
    Ok(filled + more)
}

/// The cell at the start of the remaining input, and the length of its bytes, which are a prefix of
/// the buffer. The input is read in two pieces, and no byte after the cell is taken. `Memory` comes
/// only if a cell is there.
pub(crate) fn cell_from<R: Read>(
    alloc: Global,
    input: &mut Counted<R>,
    buffer: &mut [u8],
    schema: &Schema,
    version: Version,
) -> Result<(Cell, usize), LoadFault>
    requires room { MAX_CELL_LEN ≤ length buffer.old }
    ensures read { StreamGives (λ x. owned_cell x.0) result (R.remaining (inner_of input.old))
        (R.remaining (inner_of input.new)) (λ all. as_in_page (cell_at version schema.now all)) }
    ensures bytes { IfOk result (λ x. Consumes (R.remaining (inner_of input.old))
        (R.remaining (inner_of input.new)) (take x.1 buffer.new)) }
    ensures fits { IfOk result (λ x. x.1 ≤ MAX_CELL_LEN) }
    ensures cell { IfOk result (λ x. IsCellOf schema.now (owned_cell x.0)) }
    ensures buffer_len { length buffer.new ≡ length buffer.old }
    ensures stream { LoadsFrom R.remaining input.old input.new result }
    ensures most { ReadsUpTo MAX_CELL_LEN R.remaining input.old input.new }
    ensures memory { result ≡ Err LoadFault.Memory → HasRead (R.remaining (inner_of input.old))
        (R.remaining (inner_of input.new)) (cell_at version schema.now) }
{
    let head = fill_up_to(input, buffer, 0, 2)?;
    let len = cell_len(&buffer[..head], version);
    let got = fill_up_to(input, buffer, head, len)?;
    let (cell, _) = read_cell_in(alloc, &buffer[..got], schema, version)?;
    Ok((cell, got))
}
