//! Two readers, each on its own thread: one answers while the other is in its copy.

use super::super::gates::{Raises, Signal, WaitsFor};
use rr_desk::{Gate, Reader, open};
use rr_fakes::replicas::minutes;
use rr_fetch::parse_request;
use rr_packed::PackedArchive;
use std::alloc::Global;
use std::sync::Wait;
use std::test::Fail;
use std::thread::{Threads, join};

/// Whether a reader, through a gate, answers that nothing is known of two minutes.
fn answers_unknown<G: Gate>(
    alloc: Global,
    reader: &mut Reader<PackedArchive>,
    gate: &mut G,
) -> bool {
    let Ok(request) = parse_request(alloc, b"LAST 60 0 120 m v", reader.schema()) else {
        return false;
    };
    match reader.fetch_through(alloc, &request, gate) {
        Ok(text) => text.as_slice() == b"m v,0,U\nm v,60,U\n".as_slice(),
        Err(_) => false,
    }
}

/// Whether each of two readers answers when the first is kept in its copy until the second has
/// answered.
fn answer_both<R: Threads>(
    rt: &R,
    alloc: Global,
    signals: (Signal, Signal),
    first: &mut Reader<PackedArchive>,
    second: &mut Reader<PackedArchive>,
) -> (bool, bool) {
    let mut waiting = WaitsFor { signal: signals.0 };
    let mut raising = Raises { signal: signals.1 };
    let (held, other) = (&mut waiting, &mut raising);
    join(
        rt,
        move || answers_unknown(alloc, first, held),
        move || answers_unknown(alloc, second, other),
    )
}

/// Whether both readers of a new desk answer.
fn answers_of_both<R: Threads + Wait>(
    rt: &R,
    alloc: Global,
    signals: (Signal, Signal),
) -> Option<(bool, bool)> {
    let replica = minutes::<PackedArchive>(alloc, 1, 3).ok()?;
    let (keeper, mut readers) = open(alloc, rt, replica, 2).ok()?;
    let both = match (readers.pop(), readers.pop()) {
        (Some(mut one), Some(mut two)) => answer_both(rt, alloc, signals, &mut one, &mut two),
        _ => (false, false),
    };
    keeper.close(rt);
    Some(both)
}

#[test]
fn a_reader_answers_while_another_is_in_its_copy(rt: HostRuntime) -> Result<(), Fail> {
    let signal = Signal::new(&rt, rt.alloc())?;
    let same = signal.share()?;
    let both = answers_of_both(&rt, rt.alloc(), (signal, same));
    assert_eq!(rt; both, Some((true, true)));
    Ok(())
}
