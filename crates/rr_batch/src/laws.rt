//! The laws of answers, counts and peers' cells: functions with empty bodies, whose contracts state
//! them.
ghost use Rattle.rr_batch.specs.Peers.{CellsOfTheSchemaAreJoined};
ghost use Rattle.rr_batch.specs.Refusals.{RefusalsAreCounted};

/// A text of refusals has a line for each, and as many lines of a name as refusals by that name.
pub fn refusals_are_counted()
    ensures { RefusalsAreCounted }
{}

/// If all cells of a peer are of the keeper's schema, all of them are joined, in order.
pub fn cells_of_the_schema_are_joined()
    ensures { CellsOfTheSchemaAreJoined }
{}
