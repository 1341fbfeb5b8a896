//! Signals: they end no save, load, pull or connection.

use rr_base::{Counted, Origin};
use rr_desk::{Keeper, Reader, open};
use rr_fakes::clock::Moments;
use rr_fakes::failing::{FailingFirst, failing_first};
use rr_fakes::replicas::{minutes, one_sample};
use rr_fakes::sessions::{REPLY, SENT};
use rr_gossip::{give, pull};
use rr_line::Precision;
use rr_node::{NodeFault, OpenGate, Report, serve_lines, serve_reader};
use rr_packed::PackedArchive;
use rr_replica::Replica;
use rr_snapshot::{load, save};
use std::alloc::Global;
use std::io::ErrorKind;
use std::sync::Wait;
use std::test::Fail;

/// A stream whose first three calls a signal interrupts.
fn signalled<S>(stream: S) -> Counted<FailingFirst<S>> {
    failing_first(3, ErrorKind::Interrupted, stream)
}

/// Whether a replica of one sample is saved.
fn is_saved(alloc: Global) -> Option<bool> {
    let replica = one_sample::<PackedArchive>(alloc, 1).ok()?;
    Some(save(alloc, &replica, &mut signalled(Vec::new(alloc))).is_ok())
}

/// How many cells are loaded from the snapshot of such a replica.
fn loaded(alloc: Global) -> Option<usize> {
    let replica = one_sample::<PackedArchive>(alloc, 1).ok()?;
    let mut output = Counted::new(Vec::new(alloc));
    save(alloc, &replica, &mut output).ok()?;
    let bytes = output.into_inner();
    let mut input = signalled(bytes.as_slice());
    let origin = Origin::new(9).ok()?;
    let copy: Replica<PackedArchive> = load(alloc, &mut input, replica.schema(), origin).ok()?;
    Some(copy.cell_count())
}

#[test]
fn a_signal_ends_no_save_and_no_load(rt: HostRuntime) {
    assert_eq!(rt;
        (is_saved(rt.alloc()), loaded(rt.alloc())),
        (Some(true), Some(1))
    );
}

/// How many cells an empty replica pulls.
fn pulled(alloc: Global) -> Option<usize> {
    let mut replica = minutes::<PackedArchive>(alloc, 2, 3).ok()?;
    let mut output = signalled(Vec::new(alloc));
    pull(
        alloc,
        &mut signalled(REPLY.as_slice()),
        &mut output,
        &mut replica,
    )
    .ok()?;
    Some(replica.cell_count())
}

/// Whether a replica of one sample gives what such a pull asks for.
fn is_given(alloc: Global) -> Option<bool> {
    let mut replica = one_sample::<PackedArchive>(alloc, 1).ok()?;
    let mut output = signalled(Vec::new(alloc));
    Some(give(
        alloc,
        &mut signalled(SENT.as_slice()),
        &mut output,
        &mut replica,
    )
    .is_ok())
}

#[test]
fn a_signal_ends_no_session(rt: HostRuntime) {
    assert_eq!(rt;
        (pulled(rt.alloc()), is_given(rt.alloc())),
        (Some(1), Some(true))
    );
}

/// What a connection with one line reports.
fn reported(
    alloc: Global,
    rt: &impl Wait,
    keeper: &mut Keeper<PackedArchive>,
) -> Result<Report, NodeFault> {
    serve_lines(
        alloc,
        &mut signalled(b"m v=7i 60000000000\n".as_slice()),
        &mut signalled(Vec::new(alloc)),
        keeper,
        &mut Moments::new(Vec::new(alloc)),
        Precision::Ns,
        None,
        rt,
    )
}

/// Whether a connection with one fetch is served to its end.
fn is_served(alloc: Global, reader: &mut Reader<PackedArchive>) -> bool {
    serve_reader(
        alloc,
        &mut signalled(b"fetch LAST 60 0 120 m v\n".as_slice()),
        &mut signalled(Vec::new(alloc)),
        reader,
        &mut OpenGate::new(),
    )
    .is_ok()
}

#[test]
fn a_signal_ends_no_connection(rt: HostRuntime) -> Result<(), Fail> {
    let replica = minutes::<PackedArchive>(rt.alloc(), 1, 3)?;
    let Ok((mut keeper, mut readers)) = open(rt.alloc(), &rt, replica, 1) else {
        panic!(&rt; "no desk");
    };
    let samples = reported(rt.alloc(), &rt, &mut keeper).map(|report| report.samples);
    let served = match readers.get_mut(0) {
        Some(reader) => is_served(rt.alloc(), reader),
        None => false,
    };
    keeper.close(&rt);
    assert_eq!(rt; (samples, served), (Ok(1), true));
    Ok(())
}
