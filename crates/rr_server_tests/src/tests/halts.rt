//! A node that runs without end, but ends if memory runs out on one of its threads, whatever the
//! others wait for, and if one of them doesn't begin. A keeper that runs out of memory halts it,
//! which raises the same flag.

use rr_desk::{Keeper, Reader, open};
use rr_fakes::clock::Moments;
use rr_fakes::replicas::minutes;
use rr_node::{Config, Halt, OpenGate, Seat, serve_node};
use rr_packed::PackedArchive;
use rr_server::{Calling, FileShelf, HaltFlag, Listening, StartBarrier, TcpSeats, Waiting};
use std::alloc::Global;
use std::io::Write;
use std::net::{Net, SocketAddr, TcpListener, TcpStream};
use std::rt::Files;
use std::sync::Wait;
use std::test::Fail;
use std::thread::Threads;
use std::time::Instant;

/// The configuration of a node that runs without end, with two readers. Its connections may be
/// silent forever.
const CONFIG: &[u8] = b"step = 60\nlines = \"l\"\nfetch = [\"f\", \"g\"]\n\
    [[archive]]\nsteps = 1\nrows = 3\nxff_num = 0\nxff_den = 1\n";

/// What is sent: a request that takes a reader memory.
const REQUEST: &[u8] = b"fetch LAST 60 0 60 m v\n";

/// Where each of two readers is reached.
type Addresses = (SocketAddr, SocketAddr);

/// The connections to a free port of this machine, and its address.
fn listening<R: Net<Listener = TcpListener, Stream = TcpStream>>(
    rt: &R,
    alloc: Global,
    config: &Config,
    halt: &HaltFlag,
) -> Option<(Listening, SocketAddr)> {
    let listener = TcpListener::bind(rt, "127.0.0.1:0").ok()?;
    let address = listener.local_addr().ok()?;
    let waiting = Waiting::new(halt.share().ok()?);
    let listening = Listening::new(alloc, listener, config.idle, waiting).ok()?;
    Some((listening, address))
}

/// The connections to free ports of this machine: for lines, and for two readers.
fn listen_on_all<R: Net<Listener = TcpListener, Stream = TcpStream>>(
    rt: &R,
    alloc: Global,
    config: &Config,
    halt: &HaltFlag,
) -> Option<(Listening, Vec<Listening>, Addresses)> {
    let (lines, _) = listening(rt, alloc, config, halt)?;
    let (one, first) = listening(rt, alloc, config, halt)?;
    let (two, second) = listening(rt, alloc, config, halt)?;
    let fetch = Vec::from_array(alloc, [one, two]).ok()?;
    Some((lines, fetch, (first, second)))
}

/// The seats of two readers.
fn seats(
    alloc: Global,
    readers: Vec<Reader<PackedArchive>>,
    fetch: Vec<Listening>,
    halt: &HaltFlag,
) -> Option<TcpSeats> {
    let mut seats = Vec::new(alloc);
    for (reader, visits) in readers.into_iter().zip(fetch) {
        let gate = OpenGate::new();
        let seat = Seat {
            reader,
            visits,
            gate,
        };
        seats.push(seat).ok()?;
    }
    let halt = halt.share().ok()?;
    Some(TcpSeats { seats, halt })
}

/// Serves as a node until it ends, and returns whether that was without a fault.
fn serve<R>(
    rt: &R,
    alloc: Global,
    keeper: &mut Keeper<PackedArchive>,
    lines: &mut Listening,
    seats: &mut TcpSeats,
    config: &Config,
) -> Option<bool>
where
    R: Files + Eprint + Net<Listener = TcpListener, Stream = TcpStream> + Threads + Wait + Sync,
{
    let mut halt = seats.halt.share().ok()?;
    let mut shelf = FileShelf::new(rt, alloc, None).ok()?;
    let mut dial = Calling::new(rt, alloc, config.idle, seats.halt.share().ok()?);
    let mut clock = Moments::new(Vec::new(alloc));
    let served = serve_node(
        alloc, keeper, lines, &mut dial, &mut shelf, seats, &mut halt, &mut clock, config, rt,
    );
    Some(served.is_ok())
}

/// Two readers whose keeper has closed, so that they answer as if memory ran out.
fn readers<R: Wait>(rt: &R, alloc: Global) -> Option<Vec<Reader<PackedArchive>>> {
    let replica = minutes::<PackedArchive>(alloc, 1, 3).ok()?;
    let (keeper, readers) = open(alloc, rt, replica, 2).ok()?;
    keeper.close(rt);
    Some(readers)
}

/// Two senders: one that is silent, and one that has sent the request.
fn senders<R: Net<Stream = TcpStream>>(
    rt: &R,
    silent: SocketAddr,
    sending: SocketAddr,
) -> Option<(TcpStream, TcpStream)> {
    let silent = TcpStream::connect(rt, silent).ok()?;
    let mut sender = TcpStream::connect(rt, sending).ok()?;
    sender.write_all(REQUEST).ok()?;
    Some((silent, sender))
}

/// Whether a node ends as out of memory.
fn is_starved<R>(
    rt: &R,
    alloc: Global,
    lines: &mut Listening,
    seats: &mut TcpSeats,
    config: &Config,
) -> Option<bool>
where
    R: Files + Eprint + Net<Listener = TcpListener, Stream = TcpStream> + Threads + Wait + Sync,
{
    let replica = minutes::<PackedArchive>(alloc, 2, 3).ok()?;
    let (mut keeper, _readers) = open(alloc, rt, replica, 1).ok()?;
    let served = serve(rt, alloc, &mut keeper, lines, seats, config);
    keeper.close(rt);
    Some(!served?)
}

/// Whether a node ends when its second reader runs out of memory over the request. Meanwhile the
/// keeper waits for a connection, and the first reader for a sender that is silent.
fn is_ended<R>(rt: &R, alloc: Global) -> Option<bool>
where
    R: Files + Eprint + Net<Listener = TcpListener, Stream = TcpStream> + Threads + Wait + Sync,
{
    let config = Config::from_toml(alloc, CONFIG).ok()?;
    let halt = HaltFlag::new(alloc).ok()?;
    let readers = readers(rt, alloc)?;
    let (mut lines, fetch, (first, second)) = listen_on_all(rt, alloc, &config, &halt)?;
    let mut seats = seats(alloc, readers, fetch, &halt)?;
    let senders = senders(rt, first, second)?;
    let is_starved = is_starved(rt, alloc, &mut lines, &mut seats, &config);
    drop(senders);
    is_starved
}

#[test]
fn want_of_memory_ends_a_node(rt: HostRuntime) -> Result<(), Fail> {
    assert!(rt; is_ended(&rt, rt.alloc()) == Some(true));
    Ok(())
}

#[test]
fn a_halt_raises_the_flag(rt: HostRuntime) -> Result<(), Fail> {
    let mut flag = HaltFlag::new(rt.alloc())?;
    let shared = flag.share()?;
    flag.halt();
    assert!(rt; shared.is_raised());
    Ok(())
}

// One of the node's two threads never begins.
#[test]
fn a_node_whose_threads_do_not_begin_is_over(rt: HostRuntime) -> Result<(), Fail> {
    let start = StartBarrier::new(rt.alloc(), 2)?;
    let mut waiting = Waiting::new(HaltFlag::new(rt.alloc())?).after_start(start);
    let began = Instant::now(&rt)?;
    let has_started = waiting.has_started();
    let is_soon = began.elapsed(&rt)?.as_secs() < 5;
    assert!(rt; (has_started, waiting.is_over(), is_soon) == (false, true, true));
    Ok(())
}
