//! Cells of one key and archive, packed.
ghost use Rattle.std.specs.Prelude.{◌≡◌, ◌<◌, ◌^◌, [], IfOk, Ok, length};
ghost use Rattle.rr_codec.specs.Reading.{packed_at};

use rr_archive::Entry;
use rr_key::SeriesKey;
use std::alloc::{AllocError, Global};

/// Cells of one key and archive, as the bytes of `rr_codec`.
#[derive(Debug, Drop)]
pub struct Group {
    /// Whose cells they are.
    pub key: SeriesKey,
    /// The number of the archive.
    pub archive: u8,
    /// The cells.
    pub packed: Vec<u8>,
}

impl Group {
    /// These cells of a key and archive, packed: fewer than 2^32, each with its slot. They must
    /// ascend by slot and origin, or the group can't be read. The cost is that of
    /// [`rr_codec::encode`].
    pub fn new(
        alloc: Global,
        key: SeriesKey,
        archive: u8,
        cells: &[(i64, Entry)],
    ) -> Result<Group, AllocError>
        requires { length cells.now < 2 ^ 32 }
        ensures key { IfOk result (λ g. g.key ≡ key) }
        ensures archive { IfOk result (λ g. g.archive ≡ archive) }
        ensures cells { IfOk result (λ g. packed_at g.packed.items ≡ Ok (cells.now, [])) }
    {
        let packed = rr_codec::encode(alloc, cells)?;
        Ok(Group {
            key,
            archive,
            packed,
        })
    }
}
