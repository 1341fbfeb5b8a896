//! What reading a journal gives, one record at a time.
ghost use Rattle.std.specs.Prelude.{◌≡◌};
ghost use Rattle.rr_journal.specs.Reading.{stop_at};

use crate::fault::JournalFault;
use crate::raw::RawRecord;

/// The most bytes that a writer leaves unsynced, and so the most that a crash tears. If more follow
/// the last whole record, synced bytes are damaged.
pub const MAX_UNSYNCED: usize = 1_048_576;

const _: () = prove!(MAX_UNSYNCED == 1_048_576);

/// Why no whole record follows.
#[derive(Clone, Copy, Debug, PartialEq, Eq)]
pub enum Stop {
    /// Nothing follows.
    End,
    /// A crash tore what follows: it must be cut off.
    Torn,
    /// More follows than a crash tears: what was synced is damaged. The next record states too
    /// great a length (`TooLong`), or its digest doesn't match (`BadDigest`).
    Damaged(JournalFault),
}

/// What was read at a place of a journal.
#[derive(Debug, Drop)]
pub enum Step {
    /// A whole record, whose digest chains.
    Whole(RawRecord),
    /// No whole record.
    Stopped(Stop),
}

/// Why reading stopped with this many bytes left; `fault` tells the damage if a crash tears fewer.
pub(crate) fn stop_at(fault: JournalFault, left: usize) -> Stop
    ensures { result ≡ stop_at fault left }
{
    if left == 0 {
        Stop::End
    } else if left <= MAX_UNSYNCED {
        Stop::Torn
    } else {
        Stop::Damaged(fault)
    }
}
