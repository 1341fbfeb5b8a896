//! Which of the connections that wait for memory get on first.

use super::{Prepared, admit_client, upload};
use rr_reactor::{Connections, Limits};
use std::alloc::{AllocError, Global};
use std::test::Fail;

/// Limits of memory.
fn limits(held: usize) -> Limits {
    Limits {
        held,
        received: held,
        ..Limits::usual()
    }
}

/// Accepts a connection that sends this many bytes of a body whose size its head gives.
fn admit_upload(
    alloc: Global,
    connections: &mut Connections<Prepared>,
    head: &[u8],
    count: usize,
    now: u64,
) -> Result<(), AllocError> {
    let text = upload(alloc, head, count)?;
    let _client = admit_client(alloc, connections, text, 0, now)?;
    Ok(())
}

/// The key of the next item to be written.
fn next_key(connections: &mut Connections<Prepared>) -> Option<usize> {
    let item = connections.asked().writes.pop_front()?;
    Some(item.key)
}

/// What clients send that wait for memory, in the order in which they come: the smallest comes
/// last.
const WAITING: [(&[u8], usize); 3] = [
    (
        b"POST /write HTTP/1.1\r\nHost: a\r\nContent-Length: 50000\r\n\r\n",
        50_000,
    ),
    (
        b"POST /write HTTP/1.1\r\nHost: a\r\nContent-Length: 40000\r\n\r\n",
        40_000,
    ),
    (
        b"POST /write HTTP/1.1\r\nHost: a\r\nContent-Length: 30000\r\n\r\n",
        30_000,
    ),
];

#[test]
fn who_needs_least_gets_on_first(rt: HostRuntime) -> Result<(), Fail> {
    let alloc = rt.alloc();
    let mut connections = Connections::new(alloc, limits(200_000))?;
    for _ in 0..3 {
        let head = b"POST /write HTTP/1.1\r\nHost: a\r\nContent-Length: 60001\r\n\r\n";
        admit_upload(alloc, &mut connections, head, 60_000, 0)?;
    }
    for (head, count) in WAITING {
        admit_upload(alloc, &mut connections, head, count, 1_500)?;
    }
    assert!(rt; (connections.len(), connections.asked().writes.len()) == (6, 0));
    connections.sweep(2_000);
    let first = next_key(&mut connections);
    let second = next_key(&mut connections);
    assert!(rt; (first, second) == (Some(5), Some(4)));
    Ok(())
}

#[test]
fn larger_bodies_leave_room_for_a_small_one(rt: HostRuntime) -> Result<(), Fail> {
    let alloc = rt.alloc();
    let mut connections = Connections::new(alloc, limits(640_000))?;
    // There is no room for the last of them, which waits.
    for _ in 0..11 {
        let head = b"POST /write HTTP/1.1\r\nHost: a\r\nContent-Length: 60001\r\n\r\n";
        admit_upload(alloc, &mut connections, head, 60_000, 0)?;
    }
    let head = b"POST /write HTTP/1.1\r\nHost: a\r\nContent-Length: 12000\r\n\r\n";
    admit_upload(alloc, &mut connections, head, 12_000, 0)?;
    assert!(rt; next_key(&mut connections) == Some(11));
    Ok(())
}
