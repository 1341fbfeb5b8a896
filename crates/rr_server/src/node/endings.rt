//! Why a node doesn't start, as its operator is told.

use crate::files::tell;
use crate::server::OUT_OF_MEMORY;
use rr_directory::{DirectoryFault, FileFault, Refusal};
use rr_process::Ending;
use std::io;
use std::io::ErrorKind;

/// The ending after a failed system call, which is reported.
pub(crate) fn failed(rt: &impl Eprint, path: &str, error: &io::Error) -> Ending {
    if error.kind() == ErrorKind::OutOfMemory {
        return OUT_OF_MEMORY;
    }
    tell(rt, path, error);
    Ending::Stopped
}

/// The ending when a directory can't be read.
pub(crate) fn directory_ending(rt: &impl Eprint, path: &str, fault: DirectoryFault) -> Ending {
    match fault {
        DirectoryFault::Memory => OUT_OF_MEMORY,
        DirectoryFault::ReadFailed => {
            tell(rt, path, fault);
            Ending::Stopped
        }
    }
}

/// The ending when a file is refused, which is reported with its name and the reason.
pub(crate) fn refusal_ending(
    rt: &(impl AllocGlobal + Eprint),
    path: &str,
    refusal: &Refusal,
) -> Ending {
    if refusal.fault == FileFault::Memory {
        return OUT_OF_MEMORY;
    }
    let Ok(name) = refusal.file.bytes(rt.alloc()) else {
        return OUT_OF_MEMORY;
    };
    let file = name.escape_ascii();
    let (reason, fault) = (refusal.fault.name(), refusal.fault);
    // If this can't be printed, the ending still says that the node didn't start.
    let _printed = match fault {
        FileFault::Damaged { at, .. } => {
            eprintln!(rt; "rr: {path}/{file}: {reason} at byte {at}: {fault}")
        }
        _ => eprintln!(rt; "rr: {path}/{file}: {reason}: {fault}"),
    };
    Ending::Stopped
}
