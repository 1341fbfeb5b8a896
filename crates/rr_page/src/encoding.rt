//! The bytes of a page, from its cells.
ghost use Rattle.std.specs.Prelude.{◌≡◌, ◌≤◌, ◌++◌, IfOk, OnOk, length, map};
ghost use Rattle.rr_page.specs.CellText.{cell_text};
ghost use Rattle.rr_page.specs.Page.{IsPage, page_text};
ghost use Rattle.rr_page.specs.Version.{latest};
ghost use Rattle.rr_cells.specs.Listing.{owned_cell};

use crate::heading::push_head;
use crate::writing::push_cell;
use rr_cells::Cell;
use rr_schema::Schema;
use std::alloc::{AllocError, Global};

/// Adds a cell.
fn push_owned(bytes: &mut Vec<u8>, cell: &Cell) -> Result<(), AllocError>
    ensures { OnOk result
        (bytes.new.items ≡ bytes.old.items ++ cell_text latest (owned_cell cell.now)) }
{
    push_cell(
        bytes,
        &cell.key,
        cell.archive,
        cell.slot,
        cell.origin,
        &cell.contribution,
    )
}

/// The page of these cells as bytes, in the latest version: at most 256 cells of the schema,
/// strictly ascending by name. The cost is linear in the bytes.
#[tactic(auto, unfolding(crate::specs::Page::page_text))]
pub fn encode(alloc: Global, schema: &Schema, cells: &[Cell]) -> Result<Vec<u8>, AllocError>
    requires { IsPage schema.now (map owned_cell cells.now) }
    ensures { IfOk result (λ bytes.
        bytes.items ≡ page_text latest schema.now (map owned_cell cells.now)) }
{
    let mut bytes = Vec::new(alloc);
    push_head(alloc, &mut bytes, schema, cells.len() as u16)?;
    for cell in cells {
        push_owned(&mut bytes, cell)?;
    }
    Ok(bytes)
}
