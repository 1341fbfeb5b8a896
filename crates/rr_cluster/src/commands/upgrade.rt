//! `upgrade S:R:N/D`: adds an archive to the schema.

ghost use Rattle.std.specs.Prelude.{◌≡◌, ◌≤◌, length, IfOk};
ghost use Rattle.rr_cells.specs.Cells.{Cells};
ghost use Rattle.rr_schema.specs.Schema.{IsLayout};
ghost use Rattle.rr_cells.specs.Raising.{place_for, with_archive};
ghost use Rattle.rr_cluster.specs.Commands.Upgrade.{after_upgrade, layout_with};
ghost use Rattle.rr_cluster.specs.Meaning.{Leaves, Represents};
ghost use Rattle.rr_cluster.specs.State.{State};
ghost use Rattle.rr_cluster.specs.Stop.{Gives};

use crate::cluster::Cluster;
use crate::fault::CommandFault;
use crate::stop::Stop;
use crate::words::archive_of;
use rr_archive::Cells;
use rr_schema::{ArchiveSpec, Schema};
use std::alloc::{AllocError, Global};
use std::collections::BTreeMap;

/// Adds an archive to the schema. All nodes and pages are then gone, and their names free;
/// snapshots stay, and origins stay used.
pub(crate) fn upgrade<A: Cells>(cluster: &mut Cluster<A>, archive: &[u8]) -> Result<(), Stop>
    ensures { (m : State Cells) → Represents cluster.old m
        → Leaves cluster.new m result (after_upgrade m archive.now) }
{
    let Some(archive) = archive_of(archive) else {
        return Err(Stop::Refused(CommandFault::BadNumber));
    };
    cluster.schema = schema_with(cluster.alloc, &cluster.schema, &archive)?;
    cluster.nodes = BTreeMap::new(cluster.alloc);
    cluster.pages = BTreeMap::new(cluster.alloc);
    Ok(())
}

/// The schema with one more archive.
fn schema_with(alloc: Global, schema: &Schema, archive: &ArchiveSpec) -> Result<Schema, Stop>
    ensures value { Gives (λ s. s) result (layout_with schema.now archive.now) }
    ensures layout { IfOk result IsLayout }
{
    let archives = archives_with(alloc, schema.archives(), archive)?;
    Ok(Schema::new(alloc, schema.step(), &archives)?)
}

/// The archives with one more, before the first that has more steps.
fn archives_with(
    alloc: Global,
    archives: &[ArchiveSpec],
    archive: &ArchiveSpec,
) -> Result<Vec<ArchiveSpec>, AllocError>
    ensures { IfOk result (λ more. more.items ≡ with_archive archive.now archives.now) }
{
    let (before, after) = archives.split_at(place_for(archive, archives));
    let mut more = Vec::new(alloc);
    more.extend_from_slice(before)?;
    more.push(*archive)?;
    more.extend_from_slice(after)?;
    Ok(more)
}

/// How many archives come before the first that has more steps than this one.
fn place_for(archive: &ArchiveSpec, archives: &[ArchiveSpec]) -> usize
    ensures value { result ≡ place_for archive.now archives.now }
    ensures within { result ≤ length archives.now }
{
    let mut place = 0;
    for other in archives {
        if archive.steps < other.steps {
            return place;
        }
        place += 1;
    }
    place
}
