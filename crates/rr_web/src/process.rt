//! The numbers of the process that a node is.

ghost use Rattle.std.specs.Prelude.{◌≡◌, ◌++◌, OnOk, map};
ghost use Rattle.rr_web.specs.NodeMetrics.{process_families};
ghost use Rattle.rr_web.specs.Numbers.{numbers_in};
ghost use Rattle.rr_web.specs.Process.{resident_bytes};

use crate::family::Family;
use crate::node_metrics::push_optional;
use crate::samples::whole;
use rr_text::bytes::SPACE;
use rr_text::text::{cut, number};
use std::alloc::{AllocError, Global};

/// What the system says of a process.
#[derive(Clone, Copy, Debug)]
pub struct ProcessNumbers {
    /// The second since 1970 in which it started, if the clock could be read.
    pub started: Option<u64>,
    /// The bytes of memory that it holds, if the system says.
    pub resident: Option<u64>,
}

/// The bytes of memory that a process holds, by the text of its `/proc/self/statm`, where the
/// second number counts pages, and by the bytes of a page.
pub fn resident_bytes(statm: &[u8], page: u64) -> Option<u64>
    ensures { result ≡ resident_bytes page statm.now }
{
    let (_, rest) = cut(SPACE, statm)?;
    let (pages, _) = cut(SPACE, rest)?;
    Some(number(pages)?.saturating_mul(page))
}

/// Adds what the system says of its process.
pub(crate) fn push_process(
    alloc: Global,
    families: &mut Vec<Family>,
    process: ProcessNumbers,
) -> Result<(), AllocError>
    ensures { OnOk result (map numbers_in families.new.items
        ≡ map numbers_in families.old.items ++ process_families process) }
{
    let help = b"The second since 1970 in which the process started.";
    let started = whole(process.started);
    push_optional(
        alloc,
        families,
        b"process_start_time_seconds",
        help,
        started,
    )?;
    let help = b"The memory that the process holds.";
    let resident = whole(process.resident);
    push_optional(
        alloc,
        families,
        b"process_resident_memory_bytes",
        help,
        resident,
    )
}
