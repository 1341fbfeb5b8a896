//! The streams of a process.

use crate::ending::Ending;
use crate::fault::ToolFault;
use crate::orders::obey_order;
use crate::words::read_order;
use rr_io::Counted;
use rr_words::Order;
use std::env::Env;
use std::io::ErrorKind;
use std::rt::Files;
use std::{fs, io};

/// The fault of a file that can't be opened or read: out of memory, or the file is named on
/// standard error.
pub fn file_fault(rt: &impl Eprint, file: &str, error: &io::Error) -> ToolFault {
    match error.kind() {
        ErrorKind::OutOfMemory => ToolFault::Memory,
        _ => {
            // If this can't be printed, the status still says that reading failed.
            let _printed = eprintln!(rt; "rr: {file}: {error}");
            ToolFault::ReadFailed
        }
    }
}

/// Obeys an order over the streams of the process.
fn obey_over_streams(
    rt: &(impl AllocGlobal + Files + Input + Print + Eprint),
    order: &Order,
) -> Result<Ending, ToolFault> {
    let alloc = rt.alloc();
    let mut output = Counted::new(io::writer(rt));
    let Order::Sim { file: Some(file) } = order else {
        return obey_order(alloc, order, &mut Counted::new(rt.reader()), &mut output);
    };
    match fs::open(rt, file.as_str()) {
        Ok(script) => obey_order(alloc, order, &mut Counted::new(script), &mut output),
        Err(error) => Err(file_fault(rt, file.as_str(), &error)),
    }
}

/// Obeys an order that has streams, and returns how that ended. The output goes to standard output,
/// and the input comes from standard input, or from the script's file if one is named. A file that
/// can't be opened is named on standard error.
pub fn obey(rt: &(impl AllocGlobal + Files + Input + Print + Eprint), order: &Order) -> Ending {
    match obey_over_streams(rt, order) {
        Ok(ending) => ending,
        Err(fault) => Ending::Failed(fault),
    }
}

/// Obeys the order given by the process's own words, if it has streams, and returns how that ended.
/// For any other order nothing is done.
pub fn run(rt: &(impl AllocGlobal + Env + Files + Input + Print + Eprint)) -> Ending {
    match read_order(rt) {
        Ok(order) => obey(rt, &order),
        Err(fault) => Ending::from(fault),
    }
}
