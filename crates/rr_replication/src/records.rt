//! What a peer makes of a part.
ghost use Rattle.std.specs.Prelude.{◌≡◌, ◌<◌, ◌^◌, All, IfErr, IfOk, IfSome, Ok, OnErr, OnOk};
ghost use Rattle.rr_cells.specs.CellBounds.{IsCellOf};
ghost use Rattle.rr_cells.specs.Listing.{owned_cell};
ghost use Rattle.rr_io.specs.Counted.{inner_of};
ghost use Rattle.rr_journal.specs.Stream.{MovesBy, StepsTo};
ghost use Rattle.rr_replication.specs.Reading.{Keeps, ends_part, part_end, peer_state, after_part};
ghost use Rattle.rr_text.specs.Results.{Gives, GivesUnless};

use crate::cells::push_record;
use crate::fault::PartFault;
use rr_cells::Cell;
use rr_io::Counted;
use rr_journal::{Cursor, Step, Stop, read_record};
use rr_schema::Schema;
use std::alloc::Global;
use std::io::Read;

/// Reads the record at a place of an input that never fails, and moves the place past it.
fn step_from<R: Read>(
    alloc: Global,
    input: &mut Counted<R>,
    place: &mut Cursor,
) -> Result<Step, PartFault>
    ensures read { StepsTo place.old.digest (R.remaining (inner_of input.old))
        (R.remaining (inner_of input.new)) result }
    ensures moves { MovesBy place.old place.new result }
    ensures fits { place.new.offset < 2 ^ 64 }
    ensures faults { IfErr result (λ fault. fault ≡ PartFault.Memory) }
{
    let step = read_record(alloc, input, place);
    // The proof needs the offset to be one of 64 bits.
    let _offset = place.offset;
    match step {
        Ok(step) => Ok(step),
        // Reading a slice can't fail, so memory ran out.
        Err(_) => Err(PartFault::Memory),
    }
}

/// Refuses what is left after the last whole record, unless it may be a record that the part's end
/// cuts, and not the part's first.
fn check_end(stop: Stop, is_first: bool) -> Result<(), PartFault>
    ensures { Gives (λ x. x) result (ends_part stop is_first) }
{
    match stop {
        Stop::End => Ok(()),
        Stop::Torn if !is_first => Ok(()),
        Stop::Torn | Stop::Damaged(_) => Err(PartFault::Damaged),
    }
}

/// Appends the cells of the records at a place, and moves the place past the last of these records.
/// `end` is then the number that this one states if it is an end.
fn read_records<R: Read>(
    alloc: Global,
    input: &mut Counted<R>,
    place: &mut Cursor,
    schema: &Schema,
    cells: &mut Vec<Cell>,
    end: &mut Option<u64>,
) -> Result<(), PartFault>
    ensures read { IfSome (R.remaining (inner_of input.old)) (λ bytes.
        GivesUnless PartFault.Memory (λ _. peer_state place.new cells.new.items) result
        (after_part schema.now (peer_state place.old cells.old.items) bytes)) }
    ensures kept { Keeps schema.now cells.old.items cells.new.items }
    ensures end { IfSome (R.remaining (inner_of input.old)) (λ bytes. OnOk result
        (part_end schema.now end.old place.old bytes ≡ Ok end.new)) }
{
    let mut is_first = true;
    for _ in 0..u64::MAX {
        match step_from(alloc, input, place)? {
            Step::Whole(raw) => {
                *end = push_record(alloc, &raw, schema, cells)?;
                is_first = false;
            }
            Step::Stopped(stop) => return check_end(stop, is_first),
        }
    }
    // No slice has that many records.
    Err(PartFault::Memory)
}

/// Reads a part like [`read_part`]. `end` is then the number that the last whole record of all parts
/// states if it is an end: after a part without a whole record it stays.
pub(crate) fn read_to_end(
    alloc: Global,
    bytes: &[u8],
    place: &mut Cursor,
    schema: &Schema,
    cells: &mut Vec<Cell>,
    end: &mut Option<u64>,
) -> Result<(), PartFault>
    ensures read { GivesUnless PartFault.Memory (λ _. peer_state place.new cells.new.items) result
        (after_part schema.now (peer_state place.old cells.old.items) bytes.now) }
    ensures of_schema { OnOk result (All (λ c. IsCellOf schema.now (owned_cell c)) cells.old.items
        → All (λ c. IsCellOf schema.now (owned_cell c)) cells.new.items) }
    ensures end { OnOk result (part_end schema.now end.old place.old bytes.now ≡ Ok end.new) }
    ensures place { OnErr result (place.new ≡ place.old) }
    ensures cells { OnErr result (cells.new.items ≡ cells.old.items) }
{
    let had = cells.len();
    let mut next = *place;
    match read_records(
        alloc,
        &mut Counted::new(bytes),
        &mut next,
        schema,
        cells,
        end,
    ) {
        Ok(()) => {
            *place = next;
            Ok(())
        }
        Err(fault) => {
            cells.truncate(had);
            Err(fault)
        }
    }
}

/// Reads the whole records at the beginning of a part that was given from `place` on, and appends
/// their cells to `cells`, in order. `place` is then just past the last of these records. Records
/// of origins, cursors and ends give no cells.
///
/// A record that the part's end cuts is left out, to be asked for again from `place` on. A part of
/// no bytes changes nothing. Each added cell is one of the schema.
///
/// The first record that means nothing is refused as `BadRecord`. If there is none, the part is
/// refused as `Damaged` if it has bytes but no whole record, or if more than
/// [`MAX_RECORD_LEN`](rr_journal::MAX_RECORD_LEN) bytes are left after the last one. Refused as
/// `Memory` if memory runs out. After a refusal `place` and `cells` are as they were. Besides the
/// cells, where those of a group share their key, one record is in memory at a time; at the end
/// 1 MiB is taken and given back. The cost is linear in the bytes and the cells.
pub fn read_part(
    alloc: Global,
    bytes: &[u8],
    place: &mut Cursor,
    schema: &Schema,
    cells: &mut Vec<Cell>,
) -> Result<(), PartFault>
    ensures read { GivesUnless PartFault.Memory (λ _. peer_state place.new cells.new.items) result
        (after_part schema.now (peer_state place.old cells.old.items) bytes.now) }
    ensures of_schema { OnOk result (All (λ c. IsCellOf schema.now (owned_cell c)) cells.old.items
        → All (λ c. IsCellOf schema.now (owned_cell c)) cells.new.items) }
    ensures place { OnErr result (place.new ≡ place.old) }
    ensures cells { OnErr result (cells.new.items ≡ cells.old.items) }
{
    let mut end = None;
    read_to_end(alloc, bytes, place, schema, cells, &mut end)
}
