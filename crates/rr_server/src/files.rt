//! The files that a node begins with.

use rr_config::{Config, ConfigFault, NodeConfig, node_remarks, remarks};
use rr_io::Counted;
use rr_packed::PackedArchive;
use rr_process::{Ending, ToolFault, file_fault};
use rr_replica::Replica;
use rr_schema::{Origin, Schema};
use rr_snapshot::{LoadFault, load};
use std::fmt::Display;
use std::fs;
use std::io::{BufReader, ErrorKind};
use std::rt::Files;

/// Tells the operator something about a file. If it can't be printed, the node goes on all the
/// same.
pub(crate) fn tell(rt: &impl Eprint, file: &str, text: impl Display + Drop) {
    let _printed = eprintln!(rt; "rr: {file}: {text}");
}

/// Reports the remarks on a configuration's text: why it is refused, or what is ignored.
fn tell_remarks(rt: &(impl AllocGlobal + Eprint), file: &str, text: &[u8]) {
    // If there is no memory for them, they are left out.
    let Ok(lines) = remarks(rt.alloc(), text) else {
        return;
    };
    for line in &lines {
        tell(rt, file, line.as_str());
    }
}

/// The configuration in a file, or the ending that says why there is none. Remarks on its text are
/// reported.
pub(crate) fn read_config(
    rt: &(impl AllocGlobal + Files + Eprint),
    file: &str,
) -> Result<Config, Ending> {
    let text = match fs::read(rt, file) {
        Ok(text) => text,
        Err(error) => return Err(Ending::Failed(file_fault(rt, file, &error))),
    };
    tell_remarks(rt, file, &text);
    match Config::from_toml(rt.alloc(), &text) {
        Ok(config) => Ok(config),
        Err(ConfigFault::Memory) => Err(Ending::Failed(ToolFault::Memory)),
        Err(fault) => Err(Ending::ConfigRefused(fault.name())),
    }
}

/// The configuration of a node with a directory, from a file, or the ending that says why there is
/// none. Remarks on its text are reported.
pub(crate) fn read_node_config(
    rt: &(impl AllocGlobal + Files + Eprint),
    file: &str,
) -> Result<NodeConfig, Ending> {
    let text = match fs::read(rt, file) {
        Ok(text) => text,
        Err(error) => return Err(Ending::Failed(file_fault(rt, file, &error))),
    };
    // If there is no memory for them, they are left out.
    if let Ok(lines) = node_remarks(rt.alloc(), &text) {
        for line in &lines {
            tell(rt, file, line.as_str());
        }
    }
    match NodeConfig::from_toml(rt.alloc(), &text) {
        Ok(config) => Ok(config),
        Err(ConfigFault::Memory) => Err(Ending::Failed(ToolFault::Memory)),
        Err(fault) => Err(Ending::ConfigRefused(fault.name())),
    }
}

/// The replica loaded from a snapshot in a file, with its rows ready to be shared by the copies of
/// a desk.
pub(crate) fn load_replica(
    rt: &(impl AllocGlobal + Files + Eprint),
    file: &str,
    schema: &Schema,
    origin: Origin,
) -> Result<Replica<PackedArchive>, Ending> {
    let alloc = rt.alloc();
    let input = match fs::open(rt, file) {
        Ok(input) => input,
        Err(error) => return Err(Ending::Failed(file_fault(rt, file, &error))),
    };
    let Ok(input) = BufReader::new(alloc, input) else {
        return Err(Ending::Failed(ToolFault::Memory));
    };
    match load(alloc, &mut Counted::new(input), schema, origin) {
        Ok(mut replica) => {
            replica.finish_all_rows();
            Ok(replica)
        }
        Err(LoadFault::Memory) => Err(Ending::Failed(ToolFault::Memory)),
        Err(fault) => {
            tell(rt, file, fault);
            Err(match fault {
                LoadFault::ReadFailed => Ending::Failed(ToolFault::ReadFailed),
                _ => Ending::LoadRefused(fault.name()),
            })
        }
    }
}

/// The replica that a node begins with: loaded from a snapshot in a file, or empty if no file is
/// named. The ending says why there is none.
pub(crate) fn first_replica(
    rt: &(impl AllocGlobal + Files + Eprint),
    schema: &Schema,
    origin: Origin,
    file: Option<&str>,
) -> Result<Replica<PackedArchive>, Ending> {
    match file {
        Some(file) => load_replica(rt, file, schema, origin),
        None => match Replica::new(rt.alloc(), schema, origin) {
            Ok(replica) => Ok(replica),
            Err(_) => Err(Ending::Failed(ToolFault::Memory)),
        },
    }
}

/// Checks the folder of a file, so that a node that couldn't save to it doesn't serve. If it can't
/// be opened, that is reported.
pub(crate) fn check_folder(
    rt: &(impl AllocGlobal + Files + Eprint),
    file: &str,
) -> Result<(), Ending> {
    let (folder, _) = file.rsplit_once('/').unwrap_or((".", file));
    let Ok(inside) = format!(in rt.alloc(); "{folder}/.") else {
        return Err(Ending::Failed(ToolFault::Memory));
    };
    match fs::open(rt, inside.as_str()) {
        Ok(_) => Ok(()),
        Err(error) if error.kind() == ErrorKind::OutOfMemory => {
            Err(Ending::Failed(ToolFault::Memory))
        }
        Err(error) => {
            tell(rt, folder, error);
            Err(Ending::Failed(ToolFault::WriteFailed))
        }
    }
}

/// Warns that a file, if there is one, will be replaced by a node that didn't load it.
pub(crate) fn tell_replaced(rt: &(impl Files + Eprint), file: &str) {
    if fs::metadata(rt, file).is_ok_and(|found| found.is_file()) {
        tell(rt, file, "will be replaced: no --load");
    }
}
