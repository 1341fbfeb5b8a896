//! The laws of scripts: functions with empty bodies, whose contracts state them.
ghost use Rattle.rr_cluster.specs.Agreement.{CommandsAgree, ScriptsAgree};
ghost use Rattle.rr_cluster.specs.Soundness.{CommandsKeepSound, FirstStatesAreSound, ScriptsAreSound};

/// Each state that a script reaches is sound: each sample written is within the limits and of a key
/// text, each node knows all that was written under its origin and has a greater next number, and
/// what a node knows has no gaps.
pub fn states_are_sound()
    ensures start { FirstStatesAreSound }
    ensures commands { CommandsKeepSound }
    ensures scripts { ScriptsAreSound }
{}

/// The cell model and the sample model agree: if the nodes of one hold the cells of the samples
/// that those of the other know, each command does the same in both and prints the same, and so
/// does each script.
pub fn cells_and_samples_agree()
    ensures commands { CommandsAgree }
    ensures scripts { ScriptsAgree }
{}
