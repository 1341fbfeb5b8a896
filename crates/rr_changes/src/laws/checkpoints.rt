//! Checkpoints that are read while a node goes on.
ghost use Rattle.rr_changes.specs.CheckpointLaws.{CheckpointsBringAll, CheckpointsBringWhatWasHeld, CheckpointsMakeTheLast, WalksBringAll, WalksBringWhatWasHeld, WalksMakeTheLast, ReadsAreAWalk};

/// A checkpoint, each of whose keys was read at a moment of its own, joined with all that was
/// written since its first moment, makes the cells of the last write, in any order and any number
/// of times. If the last writes are lost, the result still holds all that the rest tells of, and
/// nothing that the node never held.
pub fn checkpoints_make_the_last()
    ensures all { CheckpointsBringAll }
    ensures held { CheckpointsBringWhatWasHeld }
    ensures last { CheckpointsMakeTheLast }
{}

/// So does a checkpoint read in order, up to a limit of cells at a time, even one below what a key
/// has, each batch at a moment of its own, until fewer cells came.
pub fn walks_make_the_last()
    ensures all { WalksBringAll }
    ensures held { WalksBringWhatWasHeld }
    ensures last { WalksMakeTheLast }
    ensures reads { ReadsAreAWalk }
{}
