//! A schema with one more archive: what was stored under the schema without it.
//!
//! If the added archive has number i, the numbers of the archives from i on rise by one, in names
//! of cells and in marks.
ghost use Rattle.rr_cells.specs.RaisingLaws.{RaisedIsClosed, RaisedMakesRaisedCells, RaisedIsLive, NoneInTheAdded, RaisedIsCell, TrimmedIsRaised, JoinIsRaised, JoinCellsIsRaised, OrderIsKept, UpgradeAdds};

/// What is known without gaps has none once its numbers are raised; the same marks are live, and
/// none is in the added archive.
pub fn raised_knowledge_is_closed()
    ensures closed { RaisedIsClosed }
    ensures live { RaisedIsLive }
    ensures none { NoneInTheAdded }
{}

/// The cells that it then makes are those that it made before, with their numbers raised.
pub fn raised_cells_are_made()
    ensures { RaisedMakesRaisedCells }
{}

/// A raised cell is one of the schema with one more archive; cells are trimmed and joined as
/// before, and keep their order.
pub fn raised_cells_are_joined()
    ensures cell { RaisedIsCell }
    ensures trimmed { TrimmedIsRaised }
    ensures join { JoinIsRaised }
    ensures cells { JoinCellsIsRaised }
    ensures order { OrderIsKept }
{}

/// Placing another archive before the first that has more steps adds one archive to the schema.
pub fn an_upgrade_adds_an_archive()
    ensures { UpgradeAdds }
{}
