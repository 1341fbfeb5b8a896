//! The laws of what is replayed: functions with empty bodies, whose contracts state them.
ghost use Rattle.rr_recovery.specs.Laws.{PrefixesMakeTheirMap, RecordsAreTaken, ReplaysAreRepeatable, ReplaysJoin, SyncedIsThere};

/// Records that are taken each have a meaning, none of them names the replica's own origin, and
/// their cells are joined into what it held, in order. The number of an end is found only if that
/// is the last of them.
pub fn replays_join()
    ensures taken { RecordsAreTaken }
    ensures joined { ReplaysJoin }
{}

/// If each record's cells lead from one map to the next, any prefix of the records' text makes the
/// map after the last record that is whole in it, wherever a crash cut it.
pub fn prefixes_make_their_map()
    ensures { PrefixesMakeTheirMap }
{}

/// Replaying again, from any place on, changes nothing.
pub fn replays_are_repeatable()
    ensures { ReplaysAreRepeatable }
{}

/// What is synced is there, whatever a crash made of what follows it.
pub fn synced_is_there()
    ensures { SyncedIsThere }
{}
