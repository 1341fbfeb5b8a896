//! The laws of checkpoints that are written: functions with empty bodies, whose contracts state
//! them.
ghost use Rattle.rr_checkpoint.specs.Laws.{CheckpointsAreRead, CheckpointsAreTaken, CheckpointsAreWhole, CheckpointsBringAll, CheckpointsMakeTheLast, ReadsGoForward};

/// What a reader has seen at each read of a walk holds all that it had seen before, and what the
/// keeper holds in the end holds all of it.
pub fn reads_go_forward()
    ensures { ReadsGoForward }
{}

/// The cells of a walk, joined with all that was written since its beginning in any order and any
/// number of times, make the cells of the last write: so the journal before a checkpoint is
/// needless.
pub fn checkpoints_make_the_last()
    ensures all { CheckpointsBringAll }
    ensures last { CheckpointsMakeTheLast }
{}

/// A checkpoint is read as its records and its end, and a start that takes it holds their cells and
/// continues in the journal where the checkpoint begins.
pub fn checkpoints_are_read()
    ensures read { CheckpointsAreRead }
    ensures taken { CheckpointsAreTaken }
    ensures whole { CheckpointsAreWhole }
{}
