//! Pulls over streams, and the answers to them.

use rr_base::{Counted, Schema};
use rr_cells::Cell;
use rr_delta::Name;
use rr_fakes::replicas::filled;
use rr_gossip::{GossipFault, Target, give, pull};
use rr_packed::PackedArchive;
use rr_replica::Replica;
use std::alloc::{AllocError, Global};
use std::cell;
use std::test::Fail;

/// What a target that gets no answer asks for.
fn asked(alloc: Global, target: &mut Replica<PackedArchive>) -> Vec<u8> {
    let mut output = Counted::new(Vec::new(alloc));
    // The pull fails, since no answer comes.
    let _ended = pull(alloc, &mut Counted::new([].as_slice()), &mut output, target);
    output.into_inner()
}

/// A source's answer to what a target asks for.
fn given(
    alloc: Global,
    asked: &[u8],
    source: &mut Replica<PackedArchive>,
) -> Result<Vec<u8>, GossipFault> {
    let mut output = Counted::new(Vec::new(alloc));
    give(alloc, &mut Counted::new(asked), &mut output, source)?;
    Ok(output.into_inner())
}

/// Has a target take an answer.
fn take(
    alloc: Global,
    answer: &[u8],
    target: &mut Replica<PackedArchive>,
) -> Result<(), GossipFault> {
    let mut output = Counted::new(Vec::new(alloc));
    pull(alloc, &mut Counted::new(answer), &mut output, target)
}

/// Whether an answer has two pages of 256 cells and one of 88. A cell takes 96 bytes, and a frame
/// 26 more, its head, which ends with the number of its cells.
fn are_pages(reply: &[u8]) -> bool {
    reply.get(24..26) == Some([1, 0].as_slice())
        && reply.get(24_626..24_628) == Some([1, 0].as_slice())
        && reply.get(49_228..49_230) == Some([0, 88].as_slice())
}

/// A source's answer to a target, which takes it.
fn passed(
    alloc: Global,
    source: &mut Replica<PackedArchive>,
    target: &mut Replica<PackedArchive>,
) -> Result<Vec<u8>, GossipFault> {
    let reply = given(alloc, &asked(alloc, target), source)?;
    take(alloc, &reply, target)?;
    Ok(reply)
}

/// The answer of a source of 600 cells to an empty target, and how many cells the target then has.
fn exchanged(alloc: Global) -> Option<(Vec<u8>, usize)> {
    let mut source = filled(alloc, 1, 600, 600).ok()?;
    let mut target = filled(alloc, 2, 600, 0).ok()?;
    let reply = passed(alloc, &mut source, &mut target).ok()?;
    Some((reply, target.cell_count()))
}

#[test]
fn a_long_answer_comes_in_pages(rt: HostRuntime) -> Result<(), Fail> {
    let (reply, count) = exchanged(rt.alloc()).expect(&rt, "an exchange");
    assert_eq!(rt;
        (reply.len(), count, are_pages(&reply)),
        (57_683, 600, true)
    );
    Ok(())
}

/// A target that counts the names it has given.
#[derive(Drop)]
struct Watched {
    replica: Replica<PackedArchive>,
    given: cell::Cell<usize>,
}

impl Target for Watched {
    ghost use Rattle.std.specs.Prelude.{refl};
    ghost use Rattle.rr_delta.specs.Joining.{HasJoined, map_joined, then_joined};
    ghost use Rattle.rr_replica.specs.ReplicaWithRoom.{replica_state};

    ghost layout = { λ w. w.replica.schema };

    ghost cells = { λ w. w.replica.cells };

    ghost has_joined = { λ w x. HasJoined (replica_state w.replica) (replica_state x.replica) };

    ghost joins_none = { λ w. refl };

    ghost joins_then = { λ w x y. then_joined (replica_state w.replica) (replica_state x.replica) (replica_state y.replica) };

    ghost joins_in_map = { λ w x. map_joined (replica_state w.replica) (replica_state x.replica) };

    fn schema(&self) -> &Schema {
        Target::schema(&self.replica)
    }

    fn names(&self, alloc: Global, from: usize, count: usize) -> Result<Vec<Name>, AllocError> {
        let names = self.replica.names(alloc, from, count)?;
        self.given.set(self.given.get().saturating_add(names.len()));
        Ok(names)
    }

    fn names_after(
        &self,
        alloc: Global,
        after: Option<&Name>,
        count: usize,
    ) -> Result<Vec<Name>, AllocError> {
        let names = self.replica.names_after(alloc, after, count)?;
        self.given.set(self.given.get().saturating_add(names.len()));
        Ok(names)
    }

    fn join_cell(&mut self, cell: &Cell) -> Result<(), AllocError> {
        self.replica.join_cell(cell)
    }
}

#[test]
fn names_are_asked_for_as_they_are_written(rt: HostRuntime) -> Result<(), Fail> {
    let mut target = Watched {
        replica: filled(rt.alloc(), 2, 600, 600)?,
        given: cell::Cell::new(0),
    };
    // Room for the schema's frame only.
    let mut room = [0u8; 19];
    let fault = pull(
        rt.alloc(),
        &mut Counted::new([].as_slice()),
        &mut Counted::new(room.as_mut_slice()),
        &mut target,
    )
    .err();
    assert_eq!(rt;
        (fault, target.given.get()),
        (Some(GossipFault::WriteFailed), 256)
    );
    Ok(())
}
