//! Connections of a reactor over sockets in memory: which are let go, and when, and what is
//! answered if a queue is behind or there is no room.

mod waiting;

use rr_connection::{HttpConnection, Reply};
use rr_reactor::{Connections, Limits, Outcome, Protocol, Socket};
use std::alloc::{AllocError, Global};
use std::io;
use std::io::{ErrorKind, Read, Write};
use std::sync::Arc;
use std::sync::atomic::{AtomicU64, Ordering};
use std::test::Fail;

/// A number of three digits.
fn number(text: &[u8]) -> u64 {
    let mut number = 0u64;
    for byte in text {
        number = number
            .wrapping_mul(10)
            .wrapping_add(u64::from(byte.wrapping_sub(b'0')));
    }
    number
}

/// What a socket shares with its test.
#[derive(Drop)]
struct Client {
    /// The status of the first response.
    status: Arc<AtomicU64>,
    /// How many more bytes it takes.
    room: Arc<AtomicU64>,
}

impl Client {
    /// The status of the first response, or 0.
    fn status(&self) -> u64 {
        let status: &AtomicU64 = &self.status;
        status.load(Ordering::SeqCst)
    }

    /// Notes the status at the beginning of the first response.
    fn note(&self, response: &[u8]) {
        let status: &AtomicU64 = &self.status;
        if status.load(Ordering::SeqCst) == 0
            && let Some(digits) = response.get(9..12)
        {
            status.store(number(digits), Ordering::SeqCst);
        }
    }

    /// Lets it take this many bytes from now on.
    fn take(&self, count: u64) {
        let room: &AtomicU64 = &self.room;
        room.store(count, Ordering::SeqCst);
    }

    /// Takes as many of `count` bytes as it has room for, and returns how many.
    fn taken(&self, count: usize) -> usize {
        let room: &AtomicU64 = &self.room;
        let left = usize::try_from(room.load(Ordering::SeqCst)).unwrap_or(usize::MAX);
        let count = count.min(left);
        room.store(left.saturating_sub(count) as u64, Ordering::SeqCst);
        count
    }
}

/// A socket that brings some bytes and then waits. What is written to it is dropped, except for the
/// status of the first response.
#[derive(Drop)]
struct Prepared {
    text: Vec<u8>,
    read: usize,
    client: Client,
}

impl Read for Prepared {
    ghost use Rattle.std.specs.Prelude.{None};

    ghost remaining = { λ _. None };

    fn read(&mut self, buf: &mut [u8]) -> io::Result<usize> {
        match self.text.as_slice().get(self.read..) {
            Some(mut rest) if !rest.is_empty() => {
                let count = rest.read(buf)?;
                self.read = self.read.saturating_add(count);
                Ok(count)
            }
            _ => Err(ErrorKind::WouldBlock.into()),
        }
    }
}

impl Write for Prepared {
    ghost use Rattle.std.specs.Prelude.{None};

    ghost contents = { λ _. None };

    fn write(&mut self, buf: &[u8]) -> io::Result<usize> {
        let count = self.client.taken(buf.len()).min(buf.len());
        if count == 0 {
            return Err(ErrorKind::WouldBlock.into());
        }
        self.client.note(buf);
        Ok(count)
    }

    fn flush(&mut self) -> io::Result<()> {
        Ok(())
    }
}

impl Socket for Prepared {
    fn end(&mut self) {}
}

/// Limits with room for two connections.
fn limits() -> Limits {
    Limits {
        connections: 2,
        ..Limits::usual()
    }
}

/// Accepts a connection that brings this text and takes this many bytes, and advances it.
fn admit_client(
    alloc: Global,
    connections: &mut Connections<Prepared>,
    text: Vec<u8>,
    room: u64,
    now: u64,
) -> Result<Client, AllocError> {
    let client = Client {
        status: Arc::new(alloc, AtomicU64::new(0))?,
        room: Arc::new(alloc, AtomicU64::new(room))?,
    };
    let socket = Prepared {
        text,
        read: 0,
        client: Client {
            status: Arc::try_clone(&client.status)?,
            room: Arc::try_clone(&client.room)?,
        },
    };
    let key = connections.next_key();
    let http = HttpConnection::new(alloc, http1::Limits::default(), limits().body);
    connections.admit(socket, Protocol::Http(http), now);
    connections.ready(key, true, true, false, now);
    Ok(client)
}

/// Accepts a connection that brings this text and takes all that it is sent, and advances it.
fn admit(
    alloc: Global,
    connections: &mut Connections<Prepared>,
    text: &[u8],
    now: u64,
) -> Result<Client, AllocError> {
    let text = Vec::from_slice(alloc, text)?;
    admit_client(alloc, connections, text, u64::MAX, now)
}

#[test]
fn a_slow_head_is_let_go_in_time(rt: HostRuntime) -> Result<(), Fail> {
    let mut connections = Connections::new(rt.alloc(), limits())?;
    let _client = admit(rt.alloc(), &mut connections, b"GET / HT", 5)?;
    connections.sweep(10_004);
    assert!(rt; connections.len() == 1);
    connections.sweep(10_005);
    assert!(rt; connections.len() == 0);
    Ok(())
}

#[test]
fn one_that_is_answered_is_not_let_go(rt: HostRuntime) -> Result<(), Fail> {
    let mut connections = Connections::new(rt.alloc(), limits())?;
    let request = b"GET / HTTP/1.1\r\nHost: a\r\n\r\n";
    let _client = admit(rt.alloc(), &mut connections, request, 5)?;
    connections.sweep(1_000_000);
    assert!(rt; connections.len() == 1 && connections.asked().fetches.len() == 1);
    Ok(())
}

#[test]
fn the_one_idle_longest_goes_for_a_new_one(rt: HostRuntime) -> Result<(), Fail> {
    let mut connections = Connections::new(rt.alloc(), limits())?;
    let _first = admit(rt.alloc(), &mut connections, b"", 20)?;
    let _second = admit(rt.alloc(), &mut connections, b"", 10)?;
    assert!(rt; connections.make_room(30) && connections.len() == 1);
    // The free key is that of the second.
    assert!(rt; connections.next_key() == 1);
    Ok(())
}

#[test]
fn a_write_is_answered_503_where_its_queue_is_behind(rt: HostRuntime) -> Result<(), Fail> {
    let mut connections = Connections::new(rt.alloc(), limits())?;
    connections.set_behind(true, false);
    let request = b"POST /write HTTP/1.1\r\nHost: a\r\nContent-Length: 5\r\n\r\nm v=1";
    let client = admit(rt.alloc(), &mut connections, request, 0)?;
    connections.go_on(0);
    assert!(rt; client.status() == 503);
    assert!(rt; connections.asked().writes.is_empty());
    Ok(())
}

/// Accepts a connection that sends a request and takes this many bytes of the answer.
fn admit_reader(
    alloc: Global,
    connections: &mut Connections<Prepared>,
    room: u64,
) -> Result<Client, AllocError> {
    let request = Vec::from_slice(alloc, b"GET / HTTP/1.1\r\nHost: a\r\n\r\n")?;
    admit_client(alloc, connections, request, room, 0)
}

/// Answers a connection with 40,000 bytes.
fn answer(
    alloc: Global,
    connections: &mut Connections<Prepared>,
    key: usize,
    now: u64,
) -> Result<(), AllocError> {
    let reply = Reply {
        status: 200,
        fields: Vec::new(alloc),
        body: Vec::from_elem(alloc, 0, 40_000)?,
        closes: false,
    };
    connections.answer(key, Outcome::Reply(reply), now);
    Ok(())
}

/// Limits with room for two such answers, but not for three.
fn narrow() -> Limits {
    Limits {
        held: 100_000,
        received: 100_000,
        ..Limits::usual()
    }
}

#[test]
fn one_that_takes_no_answer_goes_for_another_answer(rt: HostRuntime) -> Result<(), Fail> {
    let alloc = rt.alloc();
    let mut connections = Connections::new(alloc, narrow())?;
    let _stalled = admit_reader(alloc, &mut connections, 100)?;
    let steady = admit_reader(alloc, &mut connections, 100)?;
    let third = admit_reader(alloc, &mut connections, u64::MAX)?;
    answer(alloc, &mut connections, 0, 0)?;
    answer(alloc, &mut connections, 1, 0)?;
    steady.take(4_000);
    connections.ready(1, false, true, false, 1_000);
    answer(alloc, &mut connections, 2, 2_000)?;
    connections.sweep(2_000);
    // The third has no room and stays, as the second does, and the key of the first is free.
    assert!(rt; (third.status(), connections.len(), connections.next_key()) == (503, 2, 0));
    Ok(())
}

#[test]
fn one_that_takes_an_answer_a_byte_at_a_time_goes_too(rt: HostRuntime) -> Result<(), Fail> {
    let alloc = rt.alloc();
    let mut connections = Connections::new(alloc, narrow())?;
    let slow = admit_reader(alloc, &mut connections, 100)?;
    let _second = admit_reader(alloc, &mut connections, 100)?;
    answer(alloc, &mut connections, 0, 0)?;
    slow.take(1);
    connections.ready(0, false, true, false, 1_900);
    // Nobody needs its room yet.
    connections.sweep(2_000);
    let before = connections.len();
    answer(alloc, &mut connections, 1, 2_000)?;
    let _third = admit_reader(alloc, &mut connections, 100)?;
    answer(alloc, &mut connections, 2, 2_000)?;
    connections.sweep(2_000);
    assert!(rt; (before, connections.len(), connections.next_key()) == (2, 2, 0));
    Ok(())
}

/// What a client sends: a head, and this many bytes of a body.
fn upload(alloc: Global, head: &[u8], count: usize) -> Result<Vec<u8>, AllocError> {
    let mut text = Vec::from_slice(alloc, head)?;
    text.resize(text.len().saturating_add(count), b'#')?;
    Ok(text)
}

/// How many bytes each stalled upload sends, of 640,000 that may be held.
const STALLED: [usize; 10] = [
    60_000, 60_000, 60_000, 60_000, 60_000, 60_000, 60_000, 50_000, 40_000, 30_000,
];

#[test]
fn stalled_uploads_make_room_for_a_body(rt: HostRuntime) -> Result<(), Fail> {
    let alloc = rt.alloc();
    let limits = Limits {
        held: 640_000,
        received: 640_000,
        ..Limits::usual()
    };
    let mut connections = Connections::new(alloc, limits)?;
    for count in STALLED {
        let head = b"POST /write HTTP/1.1\r\nHost: a\r\nContent-Length: 100000\r\n\r\n";
        let text = upload(alloc, head, count)?;
        let _client = admit_client(alloc, &mut connections, text, 0, 0)?;
    }
    let head = b"POST /write HTTP/1.1\r\nHost: a\r\nContent-Length: 150000\r\n\r\n";
    let text = upload(alloc, head, 150_000)?;
    let _client = admit_client(alloc, &mut connections, text, 0, 1_500)?;
    connections.sweep(1_999);
    let before = (connections.len(), connections.asked().writes.len());
    connections.sweep(2_000);
    connections.go_on(2_000);
    let after = (connections.len(), connections.asked().writes.len());
    assert!(rt; (before, after) == ((11, 0), (7, 1)));
    Ok(())
}
