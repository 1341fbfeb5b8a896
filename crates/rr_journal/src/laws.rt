//! The laws of the texts of journals: functions with empty bodies, whose contracts state them.
ghost use Rattle.rr_journal.specs.Laws.{BodiesAreRead, CommittedIsRead, DigestsTellHistories, HeadersAreRead, WitnessesAreFound, PrefixesAreRead, RecordsAreReadInTurn, RecordsAreTheirText, RecordsGoOn, SyncedIsRead, TextsAreRead, TextsGoOn};

/// Bytes are read as records exactly if they are the text of these, each chained to the one before,
/// up to where none is whole.
pub fn records_are_their_text()
    ensures { RecordsAreTheirText }
{}

/// Records are read one by one, as [`read_record`](crate::read_record) reads them, up to where none
/// is whole, and there the reason is given.
pub fn records_are_read_in_turn()
    ensures { RecordsAreReadInTurn }
{}

/// A text is read as its records, and those appended to it are read after them.
pub fn records_go_on()
    ensures read { RecordsGoOn }
    ensures texts { TextsGoOn }
    ensures alone { TextsAreRead }
{}

/// A prefix of a text, wherever it is cut, is read as its whole records.
pub fn prefixes_are_read()
    ensures { PrefixesAreRead }
{}

/// What is synced is read, whatever a crash made of what follows it; so is what is then committed,
/// as [`commit`](crate::commit) appends and syncs it.
pub fn synced_is_read()
    ensures synced { SyncedIsRead }
    ensures committed { CommittedIsRead }
{}

/// A witness is found behind bytes that aren't read, as [`was_synced`](crate::was_synced) looks for it.
pub fn witnesses_are_found()
    ensures { WitnessesAreFound }
{}

/// A header that was written is read.
pub fn headers_are_read()
    ensures { HeadersAreRead }
{}

/// A record means what was written.
pub fn bodies_are_read()
    ensures { BodiesAreRead }
{}

/// Two histories of equally many records that end at the same digest are the same and began at the
/// same digest, unless two texts have the same digest.
pub fn digests_tell_histories()
    ensures { DigestsTellHistories }
{}
