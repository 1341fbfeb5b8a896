//! Opening a desk.
ghost use Rattle.std.specs.Prelude.{◌≡◌, ◌↔◌, All, [], length, IfErr, IfOk, OnOk};
ghost use Rattle.left_right.specs.Sides.{view};
ghost use Rattle.rr_cells.specs.Operations.{joins_of};
ghost use Rattle.rr_replica.specs.ReplicaWithRoom.{replica_state};
ghost use Rattle.rr_desk.specs.Editions.{flat};
ghost use Rattle.rr_desk.specs.Rule.{keeper_of};
ghost use Rattle.rr_desk.specs.KeeperState.{keeper_at_opening};
ghost use Rattle.rr_desk.specs.ReaderState.{HasSeen, IsOfDesk};
ghost use Rattle.rr_desk.specs.Writers.{IsReaderCount, IsSameWriter, ShowsCopy};
ghost use Rattle.rr_desk.specs.declared.fault.OpenFault.TheVariants.{BadCount};

use crate::book::Editions;
use crate::copies::Copies;
use crate::fault::OpenFault;
use crate::keeper::Keeper;
use crate::order::Order;
use crate::read_handle::{JoinedHandle, look};
use crate::reader::Reader;
use crate::reader_count::ReaderCount;
use crate::started::{discard, started_writer};
use crate::writing::{DeskWriter, introduce};
use rr_archive::Cells;
use rr_replica::Replica;
use rr_schema::Schema;
use rr_text::limits::MAX_READERS;
use std::alloc::{AllocError, Global};
use std::sync::Wait;

/// A reader that has seen what is published.
fn joined_reader<A: Cells>(
    writer: &mut DeskWriter<A>,
    alloc: Global,
    schema: &Schema,
) -> Result<Reader<A>, AllocError>
    requires { IsOfDesk (view writer.old.desk.place) schema.now }
    ensures same { IsSameWriter writer.old writer.new }
    ensures seen { IfOk result (HasSeen (view writer.old.desk.place).desk schema.now
        (view writer.old.desk.place).seen) }
{
    let schema = schema.copy(alloc)?;
    let mut inner = writer.factory().reader()?;
    introduce(writer, &mut inner);
    match look(inner) {
        Ok(inner) => Ok(Reader {
            schema,
            handle: Some(JoinedHandle { inner }),
        }),
        Err(_) => Err(AllocError),
    }
}

/// `readers` such readers.
fn joined_readers<A: Cells>(
    writer: &mut DeskWriter<A>,
    alloc: Global,
    schema: &Schema,
    readers: usize,
) -> Result<Vec<Reader<A>>, AllocError>
    requires { IsOfDesk (view writer.old.desk.place) schema.now }
    ensures same { IsSameWriter writer.old writer.new }
    ensures count { IfOk result (λ all. length all.items ≡ readers) }
    ensures seen { IfOk result (λ all. All (HasSeen (view writer.old.desk.place).desk schema.now
        (view writer.old.desk.place).seen) all.items) }
{
    let mut all = Vec::new(alloc);
    for n in 0..readers {
        all.push(joined_reader(writer, alloc, schema)?)?;
    }
    Ok(all)
}

/// The two copies of a replica with all else that a keeper needs, and their readers.
fn begin<A: Cells, R: Wait>(
    alloc: Global,
    rt: &R,
    replica: &Replica<A>,
    readers: ReaderCount,
) -> Result<(DeskWriter<A>, Editions, Vec<Reader<A>>), AllocError>
    ensures view { IfOk result (λ r. view r.0.desk.place
        ≡ keeper_of (replica_state replica.now) r.1.desk) }
    ensures copy { IfOk result (λ r. ShowsCopy replica.now [] r.0) }
    ensures prefix { IfOk result (λ r. r.0.desk.shown.value.prefix ≡ r.1) }
    ensures book { IfOk result (λ r. flat r.1.editions ≡ joins_of replica.now.cells) }
    ensures count { IfOk result (λ r. length r.2.items ≡ readers.value) }
    ensures seen { IfOk result (λ r.
        All (HasSeen r.1.desk replica.now.schema (joins_of replica.now.cells)) r.2.items) }
{
    let mut book = Editions::open();
    let mut writer = started_writer(alloc, rt, replica, readers, &mut book)?;
    match joined_readers(&mut writer, alloc, replica.schema(), readers.value) {
        Ok(all) => Ok((writer, book, all)),
        Err(_) => Err(discard(writer, rt)),
    }
}

/// Opens a desk of a replica, with 1 to 16 readers. The keeper has the replica, and each reader has
/// seen one join for each of its cells.
///
/// Refused as `BadCount` for any other number of readers, or as `Memory`; a refusal hands back the
/// replica unchanged. The cost is that of copying the replica twice.
pub fn open<A: Cells, R: Wait>(
    alloc: Global,
    rt: &R,
    replica: Replica<A>,
    readers: usize,
) -> Result<(Keeper<A>, Vec<Reader<A>>), (OpenFault, Replica<A>)>
    ensures keeper { IfOk result (λ r. r.0 ≡ keeper_at_opening (replica_state replica) r.0.desk) }
    ensures count { IfOk result (λ r. length r.1.items ≡ readers) }
    ensures seen { IfOk result (λ r. All (HasSeen r.0.desk replica.schema r.0.published)
        r.1.items) }
    ensures accepted { OnOk result (IsReaderCount readers) }
    ensures refused { IfErr result (λ e. e.0 ≡ BadCount ↔ ¬ (IsReaderCount readers)) }
    ensures unchanged { IfErr result (λ e. e.1 ≡ replica) }
{
    if readers == 0 || readers > MAX_READERS {
        return Err((OpenFault::BadCount, replica));
    }
    let readers = ReaderCount { value: readers };
    // The proof needs the replica's invariant, which `schema` ensures.
    let _schema = replica.schema();
    match begin(alloc, rt, &replica, readers) {
        Ok((writer, book, all)) => {
            let keeper = Keeper {
                alloc,
                copies: Copies::new(alloc, writer, replica, book),
                text: Vec::new(alloc),
                order: Order::new(alloc),
                past: 0,
            };
            Ok((keeper, all))
        }
        Err(_) => Err((OpenFault::Memory, replica)),
    }
}
