//! The laws of the texts of snapshots and of what was saved: functions with empty bodies, whose
//! contracts state them.
ghost use Rattle.rr_snapshot.specs.TextLaws.{SnapshotsAreTheirText, NoSnapshotBeginsAnother, SnapshotPrefixesAreShort};
ghost use Rattle.rr_snapshot.specs.Laws.{SavedIsLoaded, SavedIsRaised, OtherSchemasDiffer};

/// A snapshot is read exactly if the bytes are the text of a snapshot of the schema.
pub fn snapshots_are_their_text()
    ensures { SnapshotsAreTheirText }
{}

/// No snapshot's bytes are a prefix of another snapshot's.
pub fn no_snapshot_begins_another()
    ensures { NoSnapshotBeginsAnother }
{}

/// The bytes of a snapshot that is cut short are refused as `Short`, wherever it is cut.
pub fn prefixes_are_short()
    ensures { SnapshotPrefixesAreShort }
{}

/// A saved replica is loaded, under its schema and an origin that is neither its own nor that of
/// one of its cells, as a replica of that origin with the same cells, whose next number is 1.
pub fn saved_is_loaded()
    ensures { SavedIsLoaded }
{}

/// Under a schema with one more archive, it is loaded with the same cells, the numbers of their
/// archives raised; under any other schema it is refused.
pub fn saved_is_raised()
    ensures raised { SavedIsRaised }
    ensures differs { OtherSchemasDiffer }
{}
