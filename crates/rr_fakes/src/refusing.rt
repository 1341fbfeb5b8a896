//! Refused growths.
//!
//! What a call takes comes from the C library's heap, and a test can't hand in an allocator of its
//! own. So what refuses stands between the built program and the C library (`tools/refuse.c`), and
//! is asked by blocks of 2^62 bytes and more, which are never there. If nothing stands there, these
//! calls do nothing, and no growth is refused.

use std::alloc::Global;

/// From this size on, the size of a block says which growth to refuse.
const REFUSE: usize = 1 << 62;

/// The size of a block that asks whether one was refused.
const HAS_REFUSED: usize = REFUSE + (1 << 61);

/// Asks for a block that is never there.
fn ask(alloc: Global, size: usize) {
    let _refused = Vec::<u8>::with_capacity(alloc, size);
}

/// Asks that the growth after the next `growths` ones be refused.
pub fn refuse_after(alloc: Global, growths: u32) {
    ask(alloc, REFUSE + 1 + growths as usize);
}

/// Asks that no growth be refused from here on.
pub fn refuse_none(alloc: Global) {
    ask(alloc, REFUSE);
}

/// Whether a growth was refused since this was last asked. From here on none is.
pub fn has_refused(alloc: Global) -> bool {
    ask(alloc, HAS_REFUSED);
    Vec::<u8>::with_capacity(alloc, 1).is_err()
}
