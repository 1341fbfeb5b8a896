//! The laws of the bytes of cells and pages: functions with empty bodies, whose contracts state
//! them.
ghost use Rattle.rr_page.specs.Laws.{CellsAreTheirText, PagesAreTheirText, NoPageBeginsAnother, PagePrefixesAreShort};

/// A cell is read exactly when the bytes begin with the text of a cell of the schema, and what
/// follows it is left.
pub fn cells_are_their_text()
    ensures { CellsAreTheirText }
{}

/// A page is read exactly when the bytes are the text of a page of the schema.
pub fn pages_are_their_text()
    ensures { PagesAreTheirText }
{}

/// No page's bytes are a prefix of another's.
pub fn no_page_begins_another()
    ensures { NoPageBeginsAnother }
{}

/// The bytes of a page that is cut short are refused as `Short`, wherever it is cut.
pub fn prefixes_are_short()
    ensures { PagePrefixesAreShort }
{}
