//! The pages of a difference, one after another.
ghost use Rattle.std.specs.Prelude.{◌≡◌, ◌<◌, All, IsTrue, IfOk, IfSome, OnOk, map, length};
ghost use Rattle.std.specs.FinMap.{is_sorted};
ghost use Rattle.std.specs.Option.{option_map};
ghost use Rattle.rr_cells.specs.CellNames.{cell_name_cmp};
ghost use Rattle.rr_cells.specs.CellBounds.{IsCellOf};
ghost use Rattle.rr_cells.specs.Listing.{owned_cell};
ghost use Rattle.rr_gossip.specs.declared.frame.TheConstants.{MAX_FRAME_LEN};
ghost use Rattle.rr_gossip.specs.Pages.{AreLeft, next_page, after_page};

use rr_cells::Cell;
use rr_delta::part;
use rr_page::encode;
use rr_schema::Schema;
use rr_text::limits::MAX_PAGE_CELLS;
use std::alloc::{AllocError, Global};
use std::marker::Model;

/// Cells of a schema, ascending by name, some of which have been sent.
#[derive(Drop)]
pub(crate) struct Pages {
    schema: Schema,
    cells: Vec<Cell>,
    sent: usize,
}

impl Model for Pages {
    ghost use Rattle.std.specs.Prelude.{map, drop};
    ghost use Rattle.rr_cells.specs.Listing.{owned_cell};
    ghost use Rattle.rr_gossip.specs.Codes.{coded_pages};
    ghost use Rattle.rr_gossip.specs.Pages.{CellsLeft, AreLeft};

    ghost Value = { CellsLeft };

    ghost coded = { coded_pages };

    ghost view = { λ p. (p.schema, drop p.sent (map owned_cell p.cells.items)) };

    ghost invariant = { λ p. AreLeft (p.schema, drop p.sent (map owned_cell p.cells.items)) };
}

impl Pages {
    /// All of these cells, before the first page.
    pub(crate) fn new(schema: Schema, cells: Vec<Cell>) -> Pages
        requires of_schema { All (λ c. IsCellOf schema (owned_cell c)) cells.items }
        requires ascending { IsTrue (is_sorted cell_name_cmp (map owned_cell cells.items)) }
        ensures all { result ≡ (schema, map owned_cell cells.items) }
        ensures fits { AreLeft result }
    {
        Pages {
            schema,
            cells,
            sent: 0,
        }
    }

    /// The bytes of the next page, if a cell is left. After an error nothing has changed.
    pub(crate) fn next_page(&mut self, alloc: Global) -> Result<Option<Vec<u8>>, AllocError>
        ensures page { IfOk result (λ page. option_map (λ bytes. bytes.items) page
            ≡ next_page self.old) }
        ensures left { OnOk result (self.new ≡ after_page self.old) }
        ensures fits { IfOk result (λ page. IfSome page
            (λ bytes. length bytes.items < MAX_FRAME_LEN)) }
    {
        let _archives = self.schema.archives(); // their contract says that the schema is within its limits
        let cells = part(&self.cells, self.sent, MAX_PAGE_CELLS);
        if cells.is_empty() {
            return Ok(None);
        }
        let page = encode(alloc, &self.schema, cells)?;
        self.sent += cells.len();
        Ok(Some(page))
    }
}
