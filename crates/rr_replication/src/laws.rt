//! The laws of parts: functions with empty bodies, whose contracts state them.
ghost use Rattle.rr_replication.specs.Files.{PartsAreWithin, PartsComeToTheEnd};
ghost use Rattle.rr_replication.specs.Laws.{OnlyTheLastEnds, PartsAreTaken, PartsBringTheRecords, PartsEndAsOne, PeersCatchUp, WhatIsJoinedIsHeld};

/// A part with a whole record is taken, if each of its whole records means something. Whoever reads
/// parts in succession has the cells of all records up to its place, wherever the parts end.
pub fn parts_bring_the_records()
    ensures taken { PartsAreTaken }
    ensures brought { PartsBringTheRecords }
{}

/// A part has at least one byte, and lies in one file. Parts asked for in succession are the
/// journal's bytes up to its end, without gap or overlap.
pub fn parts_come_to_the_end()
    ensures within { PartsAreWithin }
    ensures end { PartsComeToTheEnd }
{}

/// A peer that keeps asking a node is refused no part, and in the end has the cells of all its
/// records.
pub fn peers_catch_up()
    ensures { PeersCatchUp }
{}

/// A map that the cells of records are joined to holds all that these records say.
pub fn what_is_joined_is_held()
    ensures { WhatIsJoinedIsHeld }
{}

/// A checkpoint ends with an end only if that is its last record, and whoever reads it part by part
/// is told the same as who reads it at once.
pub fn only_a_last_end_counts()
    ensures last { OnlyTheLastEnds }
    ensures parts { PartsEndAsOne }
{}
