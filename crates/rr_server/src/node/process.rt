//! What the system says of the process of a node.

use libc::{_SC_PAGESIZE, sysconf};
use rr_host::Clock;
use rr_web::resident_bytes;
use std::fs;
use std::io::Read;
use std::rt::Files;

/// The nanoseconds of a second.
const SECOND: u64 = 1_000_000_000;

/// The second since 1970 that a clock has now, if it could be read.
pub(crate) fn second_of(clock: &mut impl Clock) -> Option<u64> {
    let now = u64::try_from(clock.now()).ok()?;
    Some(now / SECOND)
}

/// The bytes of memory that the process holds, if the system says. Reading that takes a file
/// descriptor, and no memory.
pub(crate) fn resident(rt: &impl Files) -> Option<u64> {
    let page = u64::try_from(sysconf(_SC_PAGESIZE)).ok()?;
    let mut file = fs::open(rt, "/proc/self/statm").ok()?;
    let mut text = [0u8; 256];
    let len = file.read(&mut text).ok()?;
    resident_bytes(text.get(..len)?, page)
}
