//! Counted streams: reads and writes that are short or interrupted.

use rr_base::Counted;
use rr_base::stream::{
    MAX_INTERRUPTS, ReadFailed, ReadFault, WriteFailed, flush, read_some, read_to_end,
    read_to_end_within, write_all,
};
use rr_fakes::failing::failing_first;
use rr_fakes::pieces::in_pieces;
use std::alloc::Global;
use std::io;
use std::io::{ErrorKind, Read};
use std::test::Fail;

#[test]
fn an_input_is_read_to_its_end(rt: HostRuntime) -> Result<(), Fail> {
    let mut bytes = Vec::from_slice(rt.alloc(), b"0")?;
    let mut input = Counted::new(b"ab".as_slice().chain(io::repeat(7).take(10_000)));
    let read = read_to_end(&mut input, &mut bytes);
    let ends = (bytes.starts_with(b"0ab"), bytes.ends_with(&[7, 7]));
    assert_eq!(rt; (read, bytes.len(), ends), (Ok(()), 10_003, (true, true)));
    Ok(())
}

#[test]
fn a_limit_of_reads_counts_each_call(rt: HostRuntime) {
    // Three pieces and the end; then the same after two interrupted calls.
    for (interrupts, reads, want) in [
        (0, 3, Err(ReadFault::TooManyReads)),
        (0, 4, Ok(())),
        (2, 5, Err(ReadFault::TooManyReads)),
        (2, 6, Ok(())),
    ] {
        let mut bytes = Vec::new(rt.alloc());
        let mut input = failing_first(interrupts, ErrorKind::Interrupted, in_pieces(b"abc", 1));
        let read = read_to_end_within(&mut input, &mut bytes, reads);
        assert_eq!(rt; (read, input.reads()), (want, u64::from(reads)));
    }
}

#[test]
fn an_interrupted_read_is_made_again(rt: HostRuntime) {
    for (calls, kind, want) in [
        (0, ErrorKind::Interrupted, Ok(2)),
        (MAX_INTERRUPTS - 1, ErrorKind::Interrupted, Ok(2)),
        (MAX_INTERRUPTS, ErrorKind::Interrupted, Err(ReadFailed)),
        (1, ErrorKind::ConnectionReset, Err(ReadFailed)),
    ] {
        let mut buf = [0u8; 4];
        let mut input = failing_first(calls, kind, b"ab".as_slice());
        let read = read_some(&mut input, &mut buf);
        assert_eq!(rt; (read, input.failures()), (want, u64::from(calls)));
    }
}

/// How a text is written to a writer whose first calls fail, how such a writer is flushed, and how
/// many calls of each failed.
fn written(
    alloc: Global,
    calls: u32,
    kind: ErrorKind,
) -> ([Result<(), WriteFailed>; 2], (u64, u64)) {
    let mut output = failing_first(calls, kind, Vec::new(alloc));
    let mut held = failing_first(calls, kind, Vec::new(alloc));
    let done = [write_all(&mut output, b"ab"), flush(&mut held)];
    (done, (output.failures(), held.failures()))
}

#[test]
fn an_interrupted_write_is_made_again(rt: HostRuntime) {
    for (calls, kind, want) in [
        (0, ErrorKind::Interrupted, Ok(())),
        (MAX_INTERRUPTS - 1, ErrorKind::Interrupted, Ok(())),
        (MAX_INTERRUPTS, ErrorKind::Interrupted, Err(WriteFailed)),
        (1, ErrorKind::ConnectionReset, Err(WriteFailed)),
    ] {
        let (done, failures) = written(rt.alloc(), calls, kind);
        let calls = u64::from(calls);
        assert!(rt; done == [want, want] && failures == (calls, calls));
    }
}
