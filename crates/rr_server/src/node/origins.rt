//! The origins of a node.

use crate::files::tell;
use crate::node::endings::{failed, refusal_ending};
use rr_batch::{NotNamed, OriginNames, TakenOrigin};
use rr_config::NodeConfig;
use rr_directory::{
    FileName, Refusal, Start, greatest_origin, last_origin, own_refusal, schema_in,
};
use rr_files::DataDirectory;
use rr_process::Ending;
use rr_schema::{Origin, Schema};
use std::alloc::Global;
use std::rt::Files;

/// The origin that a journal file recorded last, whatever its schema.
fn origin_in<R: AllocGlobal + Files>(
    rt: &R,
    directory: &DataDirectory<'_, R>,
    name: FileName,
) -> Result<Option<Origin>, Refusal> {
    match schema_in(rt.alloc(), directory, name) {
        Ok(Some(schema)) => last_origin(rt.alloc(), directory, &[name], &schema),
        Ok(None) => Ok(None),
        Err(fault) => Err(Refusal { file: name, fault }),
    }
}

/// The greater of two origins, or the only one.
fn greater(one: Option<Origin>, other: Option<Origin>) -> Option<Origin> {
    match (one, other) {
        (Some(one), Some(other)) => Some(one.max(other)),
        (Some(one), None) => Some(one),
        (None, other) => other,
    }
}

/// The greatest origin recorded in files that a start doesn't read.
///
/// Only they have it after a crash between the first checkpoint of another schema and its journal.
fn origin_in_needless<R: AllocGlobal + Files>(
    rt: &R,
    directory: &DataDirectory<'_, R>,
    needless: &[FileName],
) -> Result<Option<Origin>, Refusal> {
    let mut greatest = None;
    for name in needless {
        if let FileName::Journal(_) = name {
            greatest = greater(greatest, origin_in(rt, directory, *name)?);
        }
    }
    Ok(greatest)
}

/// The origin that the files of a directory recorded last.
fn last_recorded<R: AllocGlobal + Files>(
    rt: &R,
    directory: &DataDirectory<'_, R>,
    files: &Start,
    schema: &Schema,
) -> Result<Option<Origin>, Refusal> {
    match last_origin(rt.alloc(), directory, &files.files, schema)? {
        Some(origin) => Ok(Some(origin)),
        None => origin_in_needless(rt, directory, &files.needless),
    }
}

/// The origins that starts of a directory have taken, and the one that this start takes once a
/// sample is to be put.
#[derive(Clone, Copy)]
pub(crate) struct OwnOrigins {
    /// The greatest that an earlier start has taken.
    pub(crate) last: Option<Origin>,
    /// The one of this start.
    pub(crate) next: Origin,
    /// The same, once it is taken.
    pub(crate) taken: Option<TakenOrigin>,
}

impl OwnOrigins {
    /// The greatest that is taken.
    pub(crate) fn greatest(&self) -> Option<Origin> {
        match self.taken {
            Some(taken) => Some(taken.get()),
            None => self.last,
        }
    }
}

/// Where a node names its origins: its directory.
#[derive(Drop)]
pub(crate) struct DirectoryNames<'a, R> {
    pub(crate) rt: &'a R,
    pub(crate) alloc: Global,
    pub(crate) path: &'a str,
}

impl<R: Files> OriginNames for DirectoryNames<'_, R> {
    ghost use Rattle.std.specs.Prelude.{None};

    ghost named = { λ _. None };

    fn name_origin(&mut self, origin: Origin) -> Result<(), NotNamed> {
        match DataDirectory::at(self.rt, self.path).name_origin(self.alloc, origin) {
            Ok(()) => Ok(()),
            Err(_) => Err(NotNamed),
        }
    }
}

/// The greatest origin that the names and the files of a directory have.
fn last_taken<R: AllocGlobal + Files + Eprint>(
    rt: &R,
    directory: &DataDirectory<'_, R>,
    files: &Start,
    schema: &Schema,
) -> Result<Option<Origin>, Ending> {
    let path = directory.path();
    let named = match directory.origins(rt.alloc()) {
        Ok(named) => named,
        Err(error) => return Err(failed(rt, path, &error)),
    };
    match last_recorded(rt, directory, files, schema) {
        Ok(recorded) => Ok(greatest_origin(&named, recorded)),
        Err(refusal) => {
            let refusal = own_refusal(rt.alloc(), directory, refusal);
            Err(refusal_ending(rt, path, &refusal))
        }
    }
}

/// The origins of a directory, whose next one is the least in the range above all that are taken.
/// The files that are read are of this schema.
pub(crate) fn own_origins<R: AllocGlobal + Files + Eprint>(
    rt: &R,
    directory: &DataDirectory<'_, R>,
    files: &Start,
    schema: &Schema,
    config: &NodeConfig,
) -> Result<OwnOrigins, Ending> {
    let last = last_taken(rt, directory, files, schema)?;
    let next = match &last {
        Some(last) => config.origins.next_after(Some(*last)),
        None => config.origins.next_after(None),
    };
    match next {
        Some(next) => Ok(OwnOrigins {
            last,
            next,
            taken: None,
        }),
        None => {
            let text = "the range of origins is spent: give the node a new one";
            tell(rt, directory.path(), text);
            Err(Ending::ConfigRefused("OriginsSpent"))
        }
    }
}
