//! What a node says over HTTP: why it refuses a query, and the numbers of refused bodies and of its
//! process.

use rr_connection::Request;
use rr_desk::{Reader, open};
use rr_fakes::replicas::minutes;
use rr_line::Precision;
use rr_packed::PackedArchive;
use rr_web::{
    RefusedBodies, Reply, put_off_write, read_reply, refused_write, resident_bytes, response_of,
};
use std::alloc::{AllocError, Global};
use std::test::Fail;

/// A request without a body.
fn request(
    alloc: Global,
    method: &[u8],
    target: &[u8],
    is_encoded: bool,
) -> Result<Request, AllocError> {
    Ok(Request {
        method: Vec::from_slice(alloc, method)?,
        target: Vec::from_slice(alloc, target)?,
        is_encoded,
        body: Vec::new(alloc),
    })
}

/// The refusal of a write.
fn refusal(alloc: Global, target: &[u8], is_encoded: bool) -> Option<Reply> {
    let request = request(alloc, b"POST", target, is_encoded).ok()?;
    refused_write(alloc, &request, Precision::Ns).ok()?
}

/// The counts of a body with a coding, of two with another precision, of one to a path that takes
/// no lines, and of one that came while there was no origin.
fn counted(alloc: Global) -> Option<RefusedBodies> {
    let mut bodies = RefusedBodies::new();
    bodies.count(&refusal(alloc, b"/write", true)?);
    bodies.count(&refusal(alloc, b"/write?precision=ms", false)?);
    bodies.count(&refusal(alloc, b"/api/v2/write?precision=s", false)?);
    bodies.count(&refusal(alloc, b"/ping", false)?);
    bodies.count(&put_off_write(alloc).ok()?);
    Some(bodies)
}

#[test]
fn a_refused_body_counts_by_its_fault(rt: HostRuntime) {
    let bodies = RefusedBodies {
        coding: 1,
        precision: 2,
        origin: 1,
    };
    assert_eq!(rt; counted(rt.alloc()), Some(bodies));
}

#[test]
fn a_process_holds_the_pages_of_its_second_number(rt: HostRuntime) {
    let found = (
        resident_bytes(b"36912 12508 1210 1 0 9410 0\n", 4_096),
        resident_bytes(b"36912", 4_096),
        resident_bytes(b"36912 x 1210", 4_096),
        resident_bytes(b"1 5000000000000000 1", 65_536),
    );
    assert_eq!(rt; found, (Some(51_232_768), None, None, Some(u64::MAX)));
}

/// The body of the answer to a query.
fn answer(
    alloc: Global,
    reader: &mut Reader<PackedArchive>,
    target: &[u8],
) -> Result<Vec<u8>, AllocError> {
    let request = request(alloc, b"GET", target, false)?;
    let reply = read_reply(alloc, &request, 60, reader, b"", None)?;
    Ok(response_of(alloc, reply, "rr-2")?.body)
}

/// The answers to queries, one after another.
fn answers(
    alloc: Global,
    reader: &mut Reader<PackedArchive>,
    targets: &[&[u8]],
) -> Result<Vec<u8>, AllocError> {
    let mut answers = Vec::new(alloc);
    for target in targets {
        answers.extend_from_slice(&answer(alloc, reader, target)?)?;
    }
    Ok(answers)
}

/// What queries are told that are refused.
const REFUSALS: &[u8] = b"error BadCommand: no parameter cf\n\
    error BadCommand: no parameter start\n\
    error BadKey: key must be a key text, its tags in order\n\
    error BadCount: count must be from 1 to 10,000\n";

#[test]
fn a_refused_query_is_told_what_helps(rt: HostRuntime) -> Result<(), Fail> {
    let alloc = rt.alloc();
    let replica = minutes::<PackedArchive>(alloc, 1, 3)?;
    let Ok((keeper, mut readers)) = open(alloc, &rt, replica, 1) else {
        panic!(&rt; "no desk");
    };
    let targets = [
        b"/fetch".as_slice(),
        b"/fetch?cf=LAST&resolution=60&end=60&key=m+v".as_slice(),
        b"/fetch?cf=LAST&resolution=60&last=60&key=m,b=1,a=1+v".as_slice(),
        b"/series?count=0".as_slice(),
    ];
    let told = match readers.pop() {
        Some(mut reader) => answers(alloc, &mut reader, targets.as_slice()).ok(),
        None => None,
    };
    keeper.close(&rt);
    assert!(rt; told.is_some_and(|text| text.as_slice() == REFUSALS));
    Ok(())
}
