//! Opening and closing a desk.

use super::{SEVEN, answers};
use rr_desk::{FetchFault, Gate, OpenFault, Reader, open};
use rr_fakes::replicas::one_sample;
use rr_fetch::parse_request;
use rr_packed::PackedArchive;
use std::alloc::Global;
use std::sync::Wait;
use std::test::Fail;

/// The number of readers of a desk that is opened for `readers` of them; if that is refused, the
/// fault and the number of cells of the replica that comes back.
fn opened_for<R: Wait>(
    alloc: Global,
    rt: &R,
    readers: usize,
) -> Option<Result<usize, (OpenFault, usize)>> {
    let replica = one_sample::<PackedArchive>(alloc, 1).ok()?;
    Some(match open(alloc, rt, replica, readers) {
        Ok((keeper, all)) => {
            keeper.close(rt);
            Ok(all.len())
        }
        Err((fault, left)) => Err((fault, left.cell_count())),
    })
}

#[test]
fn a_desk_has_from_1_to_16_readers(rt: HostRuntime) -> Result<(), Fail> {
    let refused = Err((OpenFault::BadCount, 1));
    for (readers, want) in [(0, refused), (1, Ok(1)), (16, Ok(16)), (17, refused)] {
        assert!(rt; opened_for(rt.alloc(), &rt, readers) == Some(want));
    }
    Ok(())
}

/// A gate that is always shut.
#[derive(Drop)]
struct Shut;

impl Gate for Shut {
    ghost use Rattle.std.specs.Prelude.{None};

    ghost calls = { λ _. None };

    fn before(&mut self) -> bool {
        false
    }

    fn after(&mut self) {}
}

/// Why a reader doesn't answer through a shut gate.
fn refused(alloc: Global, reader: &mut Reader<PackedArchive>) -> Option<FetchFault> {
    let request = parse_request(alloc, b"LAST 60 0 120 m v", reader.schema()).ok()?;
    reader.fetch_through(alloc, &request, &mut Shut).err()
}

// A shut gate shuts out one fetch, and the end of the keeper all later ones.
#[test]
fn readers_have_seen_what_was_there(rt: HostRuntime) -> Result<(), Fail> {
    let replica = one_sample::<PackedArchive>(rt.alloc(), 1)?;
    let Ok((keeper, mut readers)) = open(rt.alloc(), &rt, replica, 1) else {
        panic!(&rt; "no desk");
    };
    let fault = refused(rt.alloc(), &mut readers[0]);
    let is_seen = answers(rt.alloc(), &mut readers[0], SEVEN);
    let cells = keeper.close(&rt).cell_count();
    let is_open = answers(rt.alloc(), &mut readers[0], SEVEN);
    assert_eq!(rt;
        (fault, is_seen, cells, is_open),
        (Some(FetchFault::GateShut), true, 1, false)
    );
    Ok(())
}

#[test]
fn faults_are_named(rt: HostRuntime) {
    let names = [
        OpenFault::BadCount.name(),
        OpenFault::Memory.name(),
        FetchFault::GateShut.name(),
        FetchFault::Memory.name(),
    ];
    assert!(rt; names == ["BadCount", "Memory", "GateShut", "Memory"]);
}
