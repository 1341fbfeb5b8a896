//! The cells of a page, from its bytes.
ghost use Rattle.std.specs.Prelude.{◌≡◌, List, All, IfOk, IsOk, OnOk, Ok, None, Some, map, option_map};
ghost use Rattle.rr_schema.specs.Schema.{IsLayout};
ghost use Rattle.rr_text.specs.Results.{GivesUnless};
ghost use Rattle.rr_page.specs.Page.{IsPage, IsPageText};
ghost use Rattle.rr_page.specs.PageReading.{is_after, last_name, cells_at, page_at};
ghost use Rattle.rr_page.specs.Found.{ReadsPage, Refuses, found_cell};
ghost use Rattle.rr_cells.specs.CellBounds.{NamedCell, IsCellOf};
ghost use Rattle.rr_cells.specs.Listing.{owned_cell};

use crate::cells::{FoundCell, find_cell, read_cell_in};
use crate::fault::PageFault;
use crate::heading::head_of;
use crate::version::Version;
use rr_cells::Cell;
use rr_schema::Schema;
use std::alloc::Global;

/// Whether the name of a cell is greater than another's, so that it may follow it.
pub fn follows(before: &Cell, cell: &Cell) -> bool
    ensures { result ≡ is_after (Some (owned_cell before.now).0) (owned_cell cell.now).0 }
{
    let cell_slot = before
        .slot
        .cmp(&cell.slot)
        .then(before.origin.cmp(&cell.origin));
    let name = before
        .key
        .cmp(&cell.key)
        .then(before.archive.cmp(&cell.archive).then(cell_slot));
    name.is_lt()
}

/// Whether the name of a cell is greater than that of the last of the cells before it.
fn is_next(cells: &[Cell], cell: &Cell) -> bool
    ensures { result ≡ is_after (last_name (map owned_cell cells.now)) (owned_cell cell.now).0 }
{
    match cells.last() {
        None => true,
        Some(before) => follows(before, cell),
    }
}

/// `count` cells, and what follows them.
fn cells_of<'a>(
    alloc: Global,
    version: Version,
    count: u16,
    bytes: &'a [u8],
    schema: &Schema,
) -> Result<(Vec<Cell>, &'a [u8]), PageFault>
    ensures { GivesUnless PageFault.Memory (λ x. (map owned_cell x.0.items, x.1.now)) result
        (cells_at version schema.now None count bytes.now) }
{
    let mut cells = Vec::new(alloc);
    let mut rest = bytes;
    for _ in 0..count {
        let (cell, after) = read_cell_in(alloc, rest, schema, version)?;
        if !is_next(&cells, &cell) {
            return Err(PageFault::OutOfOrder);
        }
        cells.push(cell)?;
        rest = after;
    }
    Ok((cells, rest))
}

/// The cells of a page, given exactly its bytes, each copied as it is read.
#[tactic(auto, unfolding(crate::specs::PageReading::page_at, crate::specs::PageReading::prefix_page_at))]
fn copied_page(alloc: Global, bytes: &[u8], schema: &Schema) -> Result<Vec<Cell>, PageFault>
    ensures { GivesUnless PageFault.Memory (λ cells. map owned_cell cells.items) result
        (page_at schema.now bytes.now) }
{
    let (version, count, rest) = head_of(bytes, schema)?;
    let (cells, rest) = cells_of(alloc, version, count, rest, schema)?;
    if !rest.is_empty() {
        return Err(PageFault::TrailingBytes);
    }
    Ok(cells)
}

/// Whether the name of a cell is greater than that of the one before it, if there is one.
fn may_follow(before: &Option<FoundCell>, cell: &FoundCell) -> bool
    ensures { result ≡ is_after (option_map (λ c. (found_cell c).0) before.now)
        (found_cell cell.now).0 }
{
    match before {
        None => true,
        Some(before) => cell.is_after(before),
    }
}

/// What follows `count` cells. No memory is taken.
fn after_cells<'a>(
    version: Version,
    count: u16,
    bytes: &'a [u8],
    schema: &Schema,
) -> Result<&'a [u8], PageFault>
    ensures read { IfOk result (λ rest. (es : List NamedCell)
        × (cells_at version schema.now None count bytes.now ≡ Ok (es, rest.now))) }
    ensures checks { Refuses result (cells_at version schema.now None count bytes.now) }
{
    let mut before = None;
    let mut rest = bytes;
    for _ in 0..count {
        let (cell, after) = match find_cell(rest, schema, version) {
            Ok(found) => found,
            Err(fault) => return Err(fault),
        };
        if !may_follow(&before, &cell) {
            return Err(PageFault::OutOfOrder);
        }
        before = Some(cell);
        rest = after;
    }
    Ok(rest)
}

/// Refuses bytes that are not a page, as [`decode`] does. No memory is taken.
#[tactic(auto, unfolding(crate::specs::PageReading::page_at, crate::specs::PageReading::prefix_page_at))]
fn check_page(bytes: &[u8], schema: &Schema) -> Result<(), PageFault>
    ensures good { OnOk result (IsOk (page_at schema.now bytes.now)) }
    ensures checks { Refuses result (page_at schema.now bytes.now) }
{
    let (version, count, rest) = head_of(bytes, schema)?;
    let rest = after_cells(version, count, rest, schema)?;
    if !rest.is_empty() {
        return Err(PageFault::TrailingBytes);
    }
    Ok(())
}

/// The cells of a page, given exactly its bytes. If memory runs out, the page is still checked to
/// its end, so that `Memory` hides no other fault.
fn page_of(alloc: Global, bytes: &[u8], schema: &Schema) -> Result<Vec<Cell>, PageFault>
    ensures { ReadsPage schema.now bytes.now result }
{
    match copied_page(alloc, bytes, schema) {
        Ok(cells) => Ok(cells),
        Err(fault) => {
            if fault == PageFault::Memory {
                check_page(bytes, schema)?;
            }
            Err(fault)
        }
    }
}

/// The cells of a page, given exactly its bytes: each valid in the schema, ascending by name.
///
/// Refusals are those of the first bad field: `Short` if fewer bytes are left than the field has;
/// `BadMagic`; `BadVersion`; `SchemaDiffers`, once as many bytes are read as the schema has;
/// `TooManyCells` above 256; for each cell those of [`read_cell`](crate::read_cell), and then
/// `OutOfOrder` if its name is not greater than the one before; and last `TrailingBytes`. `Memory`
/// comes only if the bytes are a page: if memory runs out, the page is still checked to its end.
/// The cost is linear in the bytes.
pub fn decode(alloc: Global, bytes: &[u8], schema: &Schema) -> Result<Vec<Cell>, PageFault>
    // What is found is a page of the schema, and the bytes are its text.
    ensures found { IfOk result (λ cells. IsPage schema.now (map owned_cell cells.items)
        × IsPageText schema.now (map owned_cell cells.items) bytes.now) }
    // If the bytes are the text of a page, its cells are found, unless memory ran out.
    ensures only { (es : List NamedCell)
        → IsPage schema.now es → IsPageText schema.now es bytes.now
        → GivesUnless PageFault.Memory (λ cells. map owned_cell cells.items) result (Ok es) }
    // Which fault is returned.
    ensures reads { ReadsPage schema.now bytes.now result }
    ensures cells { IfOk result (λ cells. All (λ c. IsCellOf schema.now (owned_cell c))
        cells.items) }
{
    let _archives = schema.archives(); // their contract says that the schema is within its limits
    page_of(alloc, bytes, schema)
}
