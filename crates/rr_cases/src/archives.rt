//! Replicas by the archives that a text names.

use anyhow::{Context, Result};
use rr_archive::Cells;
use rr_base::{ArchiveSpec, Origin, Schema};
use rr_replica::Replica;
use std::alloc::Global;

const ARCHIVES: [ArchiveSpec; 2] = [
    ArchiveSpec {
        steps: 1,
        rows: 3,
        num: 0,
        den: 1,
    },
    ArchiveSpec {
        steps: 5,
        rows: 2,
        num: 1,
        den: 2,
    },
];

/// Archives, the last two of which have more steps than a mask of version 1 has bits.
const WIDE: [ArchiveSpec; 3] = [
    ArchiveSpec {
        steps: 1,
        rows: 3,
        num: 0,
        den: 1,
    },
    ArchiveSpec {
        steps: 65,
        rows: 3,
        num: 0,
        den: 1,
    },
    ArchiveSpec {
        steps: 128,
        rows: 3,
        num: 0,
        den: 1,
    },
];

/// The archives that a text names.
fn archives_of(name: &str) -> Option<&'static [ArchiveSpec]> {
    match name {
        "1" => ARCHIVES.get(..1),
        "2" => ARCHIVES.get(..2),
        "steps 1 65" => WIDE.get(..2),
        "steps 65" => WIDE.get(1..2),
        "steps 65 128" => WIDE.get(1..3),
        _ => None,
    }
}

/// A replica with the archives that a text names.
pub(crate) fn replica_of<A: Cells>(alloc: Global, name: &str) -> Result<Replica<A>> {
    let archives = archives_of(name).context("no such archives")?;
    let schema = Schema::new(alloc, 60, archives)?;
    Ok(Replica::new(alloc, &schema, Origin::new(1)?)?)
}
