//! Places in a journal.
ghost use Rattle.std.specs.Prelude.{◌≡◌};
ghost use Rattle.rr_journal.specs.Cursor.{start};

use crate::digest::DIGEST_LEN;

/// The size of a journal's id in bytes.
pub const ID_LEN: usize = 16;

const _: () = prove!(ID_LEN == 16);

/// A place in a journal: between two of its records, or at one of its ends.
///
/// Reading a journal can resume at a cursor, in whichever file that is; another history under the
/// same id has a different digest there.
#[derive(Clone, Copy, Debug, PartialEq, Eq)]
pub struct Cursor {
    /// Which journal it is: random bytes, the same in all its files.
    pub id: [u8; ID_LEN],
    /// How many bytes of records the journal has before this place. It saturates.
    pub offset: u64,
    /// The digest of the last of these records; zeros if there is none.
    pub digest: [u8; DIGEST_LEN],
}

impl Cursor {
    /// The beginning of the journal with this id.
    pub fn start(id: [u8; ID_LEN]) -> Cursor
        ensures { result ≡ start id }
    {
        Cursor {
            id,
            offset: 0,
            digest: [0; DIGEST_LEN],
        }
    }
}
