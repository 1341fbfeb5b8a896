//! Packed cells: bytes that another program made, and what is read from them.

ghost use Rattle.rr_contrib.specs.Contributions.{IsNumbered};

use rr_archive::Entry;
use rr_base::{ArchiveSpec, Origin, Schema};
use rr_codec::{CodecFault, Decoder, check, decode, encode};
use rr_contrib::Contribution;
use rr_fakes::replicas::MINUTE;
use std::alloc::Global;
use std::test::Fail;

/// The cells of three minutes, in each of which two hosts wrote a sample.
const TWO_HOSTS: [u8; 32] = [
    0x06, 0x80, 0xb0, 0x9d, 0xc2, 0xdf, 0x01, 0x83, 0x0a, 0xc8, 0x01, 0x14, 0x01, 0x02, 0x87, 0x0e,
    0x09, 0xe8, 0x07, 0x02, 0x01, 0x02, 0x0e, 0x03, 0x02, 0x11, 0x02, 0xe1, 0x07, 0x01, 0x02, 0x00,
];

/// A cell of one sample, `after` nanoseconds after its one-minute slot begins.
fn cell(slot: i64, origin: Origin, number: u64, after: i64, value: i64) -> (i64, Entry)
    requires { IsNumbered number 0 }
{
    let time = MINUTE.saturating_mul(slot).saturating_add(after);
    let contribution = Contribution::first(number, 0, time, value);
    (
        slot,
        Entry {
            origin,
            contribution,
        },
    )
}

/// These cells.
fn six_cells(alloc: Global) -> Result<Vec<(i64, Entry)>, Fail> {
    let (one, seven) = (Origin::new(1)?, Origin::new(7)?);
    let cells = [
        cell(0, one, 10, 0, 100),
        cell(0, seven, 500, 1, -5),
        cell(1, one, 11, 0, 101),
        cell(1, seven, 503, 1, -5),
        cell(2, one, 12, 0, 102),
        cell(2, seven, 506, 1, -5),
    ];
    Ok(Vec::from_array(alloc, cells)?)
}

/// The packed cells, if there are at most six.
fn packed(alloc: Global, cells: &[(i64, Entry)]) -> Option<Vec<u8>> {
    if cells.len() > 6 {
        return None;
    }
    encode(alloc, cells).ok()
}

#[test]
fn cells_of_two_hosts_are_packed(rt: HostRuntime) -> Result<(), Fail> {
    let cells = six_cells(rt.alloc())?;
    let bytes = packed(rt.alloc(), &cells);
    let read = decode(rt.alloc(), &TWO_HOSTS)?;
    let are_theirs = bytes.is_some_and(|bytes| bytes.as_slice() == TWO_HOSTS.as_slice());
    assert!(rt; are_theirs && read == cells);
    Ok(())
}

/// How many cells a walk finds.
fn walked(bytes: &[u8]) -> Option<usize> {
    let mut decoder = Decoder::new(bytes).ok()?;
    for count in 0..bytes.len() {
        if decoder.next().ok()?.is_none() {
            return Some(count);
        }
    }
    None
}

/// The schema of an archive of one-minute rows.
fn schema(alloc: Global) -> Result<Schema, Fail> {
    let archive = ArchiveSpec {
        steps: 1,
        rows: 3,
        num: 0,
        den: 1,
    };
    Ok(Schema::new(alloc, 60, &[archive])?)
}

#[test]
fn packed_cells_are_walked_and_checked(rt: HostRuntime) -> Result<(), Fail> {
    let schema = schema(rt.alloc())?;
    let mut short = 0usize;
    for len in 0..TWO_HOSTS.len() {
        if let Some(beginning) = TWO_HOSTS.get(..len)
            && check(beginning, &schema, 0) == Err(CodecFault::Short)
        {
            short = short.saturating_add(1);
        }
    }
    let whole = (check(&TWO_HOSTS, &schema, 0), walked(&TWO_HOSTS));
    assert!(rt; (whole, short) == ((Ok(6), Some(6)), TWO_HOSTS.len()));
    Ok(())
}

/// Bytes that are refused, each with the name of its fault: a number with a byte too many, a place
/// that the archive lacks, one cell twice, origin 0, and a byte after the last cell.
const REFUSED: [(&[u8], &str); 5] = [
    (
        &[0x81, 0x00, 0x00, 0x83, 0x0a, 0x0e, 0x02, 0x01, 0x02],
        "BadNumber",
    ),
    (
        &[0x01, 0x00, 0x83, 0x0b, 0x0e, 0x02, 0x02, 0x01, 0x02],
        "BadContribution",
    ),
    (
        &[
            0x02, 0x80, 0xb0, 0x9d, 0xc2, 0xdf, 0x01, 0x83, 0x08, 0x12, 0x04, 0x02, 0x82, 0x02,
            0x03, 0x01,
        ],
        "OutOfOrder",
    ),
    (&[0x01, 0x00, 0x83, 0x02, 0x0e, 0x02, 0x01], "BadOrigin"),
    (
        &[0x01, 0x00, 0x83, 0x0a, 0x0e, 0x02, 0x01, 0x02, 0x00],
        "TrailingBytes",
    ),
];

#[test]
fn bad_packed_cells_are_refused_by_name(rt: HostRuntime) -> Result<(), Fail> {
    let schema = schema(rt.alloc())?;
    for (bytes, name) in REFUSED {
        let is_named = check(bytes, &schema, 0).is_err_and(|fault| fault.name() == name);
        assert!(rt; is_named);
    }
    Ok(())
}
