//! Connections of readers.

use rr_desk::{Reader, open};
use rr_fakes::replicas::minutes;
use rr_fakes::sessions::SENT;
use rr_fakes::visits::Prepared;
use rr_node::{OpenGate, Seat, serve_seat};
use rr_packed::PackedArchive;
use std::alloc::Global;
use std::test::Fail;

/// A request for two minutes, and one for a function that doesn't exist.
const REQUESTS: &[u8] = b"fetch LAST 60 0 120 m v\nfetch MEDIAN 60 0 60 m v";

/// The answers if nothing is known.
const ANSWERS: &[u8] = b"m v,0,U\nm v,60,U\n\nerror BadCf\n\n";

/// The first frame of a side that pulls, and the length of a frame of 4 GB.
const HUGE: [u8; 23] = [
    0, 0, 0, 0x0f, 1, 0, 0, 0, 0x3c, 1, 1, 0, 0, 0, 3, 0, 0, 0, 1, 0xff, 0xff, 0xff, 0xff,
];

/// Random bytes that begin like a session.
const NOISE: [u8; 12] = [0, 0, 0, 6, 0x9c, 0x41, 0xe3, 0x0a, 0x77, 0xd2, 0x18, 0xb5];

/// What a seat writes to the last of six connections. The first five fail, close at once, or send
/// half a frame, a frame of 4 GB, or random bytes.
fn last_answer(alloc: Global, reader: Reader<PackedArchive>) -> Option<Vec<u8>> {
    let inputs = [
        None,
        Some(b"".as_slice()),
        Some(&SENT[..7]),
        Some(HUGE.as_slice()),
        Some(NOISE.as_slice()),
        Some(REQUESTS),
    ];
    let visits = Prepared::new(alloc, &inputs).ok()?;
    let gate = OpenGate::new();
    let mut seat = Seat {
        reader,
        visits,
        gate,
    };
    serve_seat(alloc, &mut seat, 6).ok()?;
    let Seat {
        reader: _,
        visits,
        gate: _,
    } = seat;
    visits.into_last()
}

#[test]
fn a_seat_goes_on_after_hostile_connections(rt: HostRuntime) -> Result<(), Fail> {
    let replica = minutes::<PackedArchive>(rt.alloc(), 1, 3)?;
    let Ok((keeper, mut readers)) = open(rt.alloc(), &rt, replica, 1) else {
        panic!(&rt; "no desk");
    };
    let answer = match readers.pop() {
        Some(reader) => last_answer(rt.alloc(), reader),
        None => None,
    };
    keeper.close(&rt);
    assert!(rt; answer.is_some_and(|text| text.as_slice() == ANSWERS));
    Ok(())
}
