//! Lines without a time, which get the moment at which they come.

use rr_base::Counted;
use rr_desk::open;
use rr_fakes::replicas::minutes;
use rr_line::Precision;
use rr_node::serve_lines;
use rr_packed::PackedArchive;
use rr_server::SystemClock;
use std::alloc::Global;
use std::cell::Cell;
use std::io;
use std::io::ErrorKind;
use std::sync::Wait;
use std::test::Fail;
use std::time::{Clock, Duration};

/// Two samples of a series, without times.
const LINES: &[u8] = b"m v=1i\nm v=2i\n";

/// A clock that is a minute later at each reading.
#[derive(Drop)]
struct Later {
    minutes: Cell<u32>,
}

impl Clock for Later {
    fn monotonic(&self) -> io::Result<Duration> {
        Err(io::Error::from(ErrorKind::Unsupported))
    }

    fn since_1970(&self) -> io::Result<Duration> {
        let minutes = self.minutes.get();
        self.minutes.set(minutes.wrapping_add(1));
        Ok(Duration::from_secs(u64::from(minutes) * 60))
    }
}

/// A clock that is set before 1970.
#[derive(Drop)]
struct Early;

impl Clock for Early {
    fn monotonic(&self) -> io::Result<Duration> {
        Err(io::Error::from(ErrorKind::Unsupported))
    }

    fn since_1970(&self) -> io::Result<Duration> {
        Err(io::Error::from(ErrorKind::InvalidData))
    }
}

/// How many one-minute cells there are after this many connections, each with the lines.
fn cells_after<R: Wait>(rt: &R, alloc: Global, connections: usize) -> Option<usize> {
    let replica = minutes::<PackedArchive>(alloc, 1, 3).ok()?;
    let (mut keeper, _readers) = open(alloc, rt, replica, 1).ok()?;
    let mut clock = SystemClock::new(Later {
        minutes: Cell::new(0),
    });
    for _ in 0..connections {
        let mut input = Counted::new(LINES);
        let mut output = Counted::new(Vec::new(alloc));
        let served = serve_lines(
            alloc,
            &mut input,
            &mut output,
            &mut keeper,
            &mut clock,
            Precision::Ns,
            None,
            rt,
        );
        if served.is_err() {
            break;
        }
    }
    let cells = keeper.cell_count();
    keeper.close(rt);
    Some(cells)
}

#[test]
fn lines_have_the_moment_of_their_piece(rt: HostRuntime) -> Result<(), Fail> {
    assert!(rt; cells_after(&rt, rt.alloc(), 1) == Some(1));
    assert!(rt; cells_after(&rt, rt.alloc(), 2) == Some(2));
    Ok(())
}

/// How many lines are refused of one whose time is that of 1970, a second ahead of which points may
/// be, under a clock that is set before that.
fn refused_early<R: Wait>(rt: &R, alloc: Global) -> Option<u64> {
    let replica = minutes::<PackedArchive>(alloc, 1, 3).ok()?;
    let (mut keeper, _readers) = open(alloc, rt, replica, 1).ok()?;
    let mut input = Counted::new(b"m v=1i 0\n".as_slice());
    let mut output = Counted::new(Vec::new(alloc));
    let served = serve_lines(
        alloc,
        &mut input,
        &mut output,
        &mut keeper,
        &mut SystemClock::behind(Early),
        Precision::Ns,
        Some(1_000_000_000),
        rt,
    );
    keeper.close(rt);
    Some(served.ok()?.refused)
}

#[test]
fn a_clock_before_1970_is_behind_every_point(rt: HostRuntime) {
    assert_eq!(rt; refused_early(&rt, rt.alloc()), Some(1));
}
