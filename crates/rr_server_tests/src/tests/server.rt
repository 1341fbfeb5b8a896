//! A node run by its words, over TCP and files: its configuration, the snapshot that it begins
//! with, its peers and what it saves.

use super::process::{Given, Process};
use super::program::{are_written, is_end, remove, snapshot};
use rr_fakes::sessions::{REPLY, SENT};
use rr_server::run;
use std::alloc::Global;
use std::io::{Read, Write};
use std::net::{Net, Shutdown, SocketAddr, TcpListener, TcpStream};
use std::test::Fail;
use std::thread::join;
use std::time::Duration;

/// A node of three one-minute rows with two readers. Its first peer can't be reached, and the
/// second is at port 4. A connection may be silent for three seconds.
const FIRST: &[u8] = b"step = 60\nlines = \"127.0.0.1:1\"\n\
    fetch = [\"127.0.0.1:2\", \"127.0.0.1:3\"]\npeers = [\"127.0.0.1:9\", \"127.0.0.1:4\"]\n\
    rounds = 1\nvisits = 2\nidle = 3\nlead = 300000000000\nprecision = \"s\"\n\
    [[archive]]\nsteps = 1\nrows = 3\nxff_num = 0\nxff_den = 1\n";

/// The same with one reader and one peer, at port 3, with no line ahead of the clock, and with
/// three-minute rows too, of which the first node's snapshot has none.
const SECOND: &[u8] = b"step = 60\nlines = \"127.0.0.1:1\"\nfetch = [\"127.0.0.1:2\"]\n\
    peers = [\"127.0.0.1:3\"]\nrounds = 1\nvisits = 1\nidle = 3\nlead = 0\nquiet = true\n\
    [[archive]]\nsteps = 1\nrows = 3\nxff_num = 0\nxff_den = 1\n\
    [[archive]]\nsteps = 3\nrows = 2\nxff_num = 2\nxff_den = 3\n";

/// A request for three minutes.
const REQUEST: &[u8] = b"fetch LAST 60 0 180 m v\n";

/// The same, and one for the row of all three.
const REQUESTS: &[u8] = b"fetch LAST 60 0 180 m v\nfetch LAST 180 0 180 m v\n";

/// Listens on four ports of this machine.
fn listen(
    host: &impl Net<Listener = TcpListener, Stream = TcpStream>,
    alloc: Global,
) -> Option<Vec<TcpListener>> {
    let mut ports = Vec::new(alloc);
    for _ in 0..4 {
        ports
            .push(TcpListener::bind(host, "127.0.0.1:0").ok()?)
            .ok()?;
    }
    Some(ports)
}

/// The address of a port, the first of which is port 1.
fn address(ports: &[TcpListener], port: usize) -> Option<SocketAddr> {
    ports.get(port.wrapping_sub(1))?.local_addr().ok()
}

/// The answer to a text on a connection of its own, on which no read waits for longer than 20
/// seconds.
fn answer<R: Net<Stream = TcpStream>>(
    rt: &R,
    alloc: Global,
    address: SocketAddr,
    text: &[u8],
) -> Option<Vec<u8>> {
    let mut stream = TcpStream::connect(rt, address).ok()?;
    stream.set_read_timeout(Some(Duration::from_secs(20))).ok()?;
    stream.write_all(text).ok()?;
    stream.shutdown(Shutdown::Write).ok()?;
    let mut answer = Vec::new(alloc);
    stream.read_to_end(&mut answer).ok()?;
    Some(answer)
}

/// Whether the answer to a text is `wanted`.
fn answers<R: Net<Stream = TcpStream>>(
    rt: &R,
    alloc: Global,
    address: SocketAddr,
    text: &[u8],
    wanted: &[u8],
) -> bool {
    answer(rt, alloc, address, text).is_some_and(|answer| answer.as_slice() == wanted)
}

/// Gives the next side that pulls at a port what a peer holds: 7, one minute after the epoch.
/// Returns, once that side is done, whether it began like one that pulls by this schema.
fn gives(ports: &[TcpListener], port: usize, alloc: Global) -> Option<bool> {
    let (mut stream, _) = ports.get(port.wrapping_sub(1))?.accept().ok()?;
    stream.write_all(&REPLY).ok()?;
    let mut sent = Vec::new(alloc);
    stream.read_to_end(&mut sent).ok()?;
    Some(sent.starts_with(SENT.split_at(19).0))
}

/// Whether the first node takes lines, pulls, and answers with all that it then has: a line without
/// a time gets the clock's moment. The second reader answers while the first waits for a silent
/// connection, which ends.
fn uses_first<R: Net<Stream = TcpStream>>(
    host: &R,
    alloc: Global,
    ports: &[TcpListener],
) -> Option<bool> {
    let lines = address(ports, 1)?;
    let one = address(ports, 2)?;
    let two = address(ports, 3)?;
    let report = b"points 2 samples 2 refused 0\n";
    let held = b"m v,0,7\nm v,60,7\nm v,120,4\n\n";
    let silent = TcpStream::connect(host, one).ok()?;
    let is_taken = answers(host, alloc, lines, b"m v=3i\nm v=4i 121\n", report);
    let is_given = gives(ports, 4, alloc)?;
    let second = answers(host, alloc, two, REQUEST, held)
        && answers(host, alloc, two, REQUEST, held);
    let first = answers(host, alloc, one, REQUEST, held);
    drop(silent);
    Some(is_taken && is_given && second && first)
}

/// Whether the second node takes a line at the epoch, since its clock can't be read, and no later
/// one. Only that line's sample is in the archive that the snapshot lacked.
fn uses_second<R: Net<Stream = TcpStream>>(
    host: &R,
    alloc: Global,
    ports: &[TcpListener],
) -> Option<bool> {
    let lines = address(ports, 1)?;
    let one = address(ports, 2)?;
    let report = b"line 2: AheadOfClock\npoints 1 samples 1 refused 1\n";
    let held = b"m v,0,9\nm v,60,7\nm v,120,4\n\nm v,0,9\n\n";
    let is_taken = answers(host, alloc, lines, b"m v=9i\nm v=8i 1\n", report);
    Some(is_taken && answers(host, alloc, one, REQUESTS, held))
}

/// What each of two nodes that serve one after the other is given. The first loads a snapshot, and
/// saves one. The second loads that one, and can't save: a folder has the name.
fn given(place: usize, ports: &[TcpListener]) -> Given<'_> {
    let (words, moment) = if place == 0 {
        let words = "rr serve first.toml --origin 2 --load first.snapshot --save left.snapshot";
        (words, Some(120))
    } else {
        let words = "rr serve second.toml --save . --load left.snapshot --origin 4";
        (words, None)
    };
    Given {
        words: words.as_bytes(),
        input: b"",
        ports,
        moment,
    }
}

/// How what such a node prints on standard error begins and ends. The first says what it starts
/// with; the second, which is quiet, has a silent peer.
fn complaint(place: usize) -> (&'static [u8], &'static [u8]) {
    if place == 0 {
        (
            b"rr: version 2 origin 2 lines 127.0.0.1:1 fetch 127.0.0.1:2 127.0.0.1:3 series 1 cells 1\n",
            b"peer 1: BadAddress",
        )
    } else {
        (b"peer 1: ReadFailed\nrr: ..new: ", b"save: WriteFailed")
    }
}

/// The configurations of the nodes.
const FILES: [(&str, &[u8]); 2] = [("first.toml", FIRST), ("second.toml", SECOND)];

/// Whether such a node does what it should.
fn uses<R: Net<Stream = TcpStream>>(
    host: &R,
    alloc: Global,
    ports: &[TcpListener],
    place: usize,
) -> Option<bool> {
    if place == 0 {
        uses_first(host, alloc, ports)
    } else {
        uses_second(host, alloc, ports)
    }
}

#[test]
fn a_node_serves_by_its_words(rt: HostRuntime) -> Result<(), Fail> {
    let alloc = rt.alloc();
    let ports = listen(&rt, alloc).expect(&rt, "ports");
    let held = snapshot(alloc).expect(&rt, "a snapshot");
    let snapshots = [("first.snapshot", held.as_slice()), ("left.snapshot", b"")];
    assert!(rt; are_written(&rt, &FILES) && are_written(&rt, &snapshots));
    let mut are_right = true;
    for place in 0..2 {
        let process = Process::new(&rt, given(place, &ports));
        let (used, ending) = join(&rt, || uses(&rt, alloc, &ports, place), || run(&process));
        let (first, last) = complaint(place);
        if used != Some(true) || !is_end(process, &ending, (b"", first, last, 0)) {
            are_right = false;
        }
    }
    remove(&rt, &FILES);
    remove(&rt, &snapshots);
    assert!(rt; are_right);
    Ok(())
}
