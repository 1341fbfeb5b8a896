//! The laws of directories: functions with empty bodies, whose contracts state them.
ghost use Rattle.rr_directory.specs.Raising.{RaisedAreTheCells};

/// A replica that held no cell, to which the cells of another one were joined under a schema with
/// one more archive, has exactly these cells, with the numbers of their archives raised.
pub fn raised_are_the_cells()
    ensures { RaisedAreTheCells }
{}
