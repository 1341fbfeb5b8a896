//! The save of a round.

ghost use Rattle.std.specs.Prelude.{◌≡◌, List, is_ok};
ghost use Rattle.rr_host.specs.Calls.{Grows};
ghost use Rattle.rr_node.specs.Shelf.{ShelfCall};
ghost use Rattle.rr_node.specs.Saving.{EndsSave, sufficed, reported_of_save};

use crate::shelf::{Opening, Shelf};
use rr_archive::Cells;
use rr_desk::Keeper;
use rr_snapshot::SaveFault;
use std::alloc::{AllocError, Global};

/// Tells the shelf that a save failed, unless memory ran out.
fn tell<S: Shelf>(shelf: &mut S, saved: Result<(), SaveFault>) -> Result<(), AllocError>
    ensures reported { Grows (S.calls shelf.old) (S.calls shelf.new) (reported_of_save saved) }
    ensures memory { is_ok result ≡ sufficed saved }
{
    match saved {
        Ok(()) => Ok(()),
        Err(SaveFault::Memory) => Err(AllocError),
        Err(fault) => {
            shelf.save_failed(fault);
            Ok(())
        }
    }
}

/// Saves a snapshot of the keeper's replica, if the shelf wants one. The shelf is told of a fault
/// other than `Memory`.
pub(crate) fn save_to<A: Cells, S: Shelf>(
    alloc: Global,
    shelf: &mut S,
    keeper: &Keeper<A>,
) -> Result<(), AllocError>
    ensures { (shelved : List ShelfCall) × Grows (S.calls shelf.old) (S.calls shelf.new) shelved
        × EndsSave (is_ok result) keeper.now shelved }
{
    let mut output = match shelf.open() {
        Opening::Writer(output) => output,
        Opening::Unwanted => return Ok(()),
        Opening::Failed => {
            shelf.save_failed(SaveFault::WriteFailed);
            return Ok(());
        }
    };
    let saved = keeper.save(alloc, &mut output);
    shelf.take_back(output, saved.is_ok());
    tell(shelf, saved)
}
