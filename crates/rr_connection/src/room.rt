//! How much a connection keeps.

ghost use Rattle.std.specs.Prelude.{◌≡◌};

use bytes::BytesMut;
use std::alloc::Global;

/// While more bytes than this wait to be sent, nothing more is asked of those who answer.
pub const MAX_UNSENT: usize = 64 * 1024;

const _: () = prove!(MAX_UNSENT == 65_536);

/// While this many bytes wait to be read, no more are received.
pub(crate) const MAX_UNREAD: usize = 64 * 1024;

const _: () = prove!(MAX_UNREAD == 65_536);

/// A buffer that holds at most this many bytes but has more room than this gives its room back.
const KEPT_ROOM: usize = 4 * 1024;

/// Gives back the room of a buffer that holds little in a large block. If there is no memory for
/// another block, it keeps the one that it has.
pub(crate) fn release(alloc: Global, buffer: &mut BytesMut)
    ensures { buffer.new.items ≡ buffer.old.items }
{
    // The bytes that were consumed count as room only once those after them are moved there.
    if buffer.len() > KEPT_ROOM || !buffer.try_reclaim(KEPT_ROOM + 1) {
        return;
    }
    if let Ok(small) = BytesMut::copy_from_slice(alloc, buffer.as_slice()) {
        *buffer = small;
    }
}
