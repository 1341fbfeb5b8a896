//! Connections without sockets: requests cut anywhere, refusals, and pieces of lines. The texts are
//! those of RFC 9112.

use rr_connection::{Found, HttpConnection, LineConnection, Reply, Request};
use std::alloc::{AllocError, Global};
use std::test::Fail;

/// Three requests, one after another: without a body, with a length, and in chunks.
const REQUESTS: &[u8] = b"GET /fetch?a=1 HTTP/1.1\r\nHost: a\r\n\r\n\
    POST /write HTTP/1.1\r\nHost: a\r\nContent-Length: 5\r\nContent-Encoding: gzip\r\n\r\nm v=1\
    POST /write HTTP/1.1\r\nHost: a\r\nTransfer-Encoding: chunked\r\n\r\n2\r\nm \r\n3;x=y\r\nv=1\r\n0\r\n\r\n";

/// What a connection gives of them.
const GIVEN: &[u8] = b"GET /fetch?a=1 false ;POST /write true m v=1;POST /write false m v=1;";

/// The answers to them, each with the request's body.
const ANSWERS: &[u8] = b"HTTP/1.1 200 OK\r\ncontent-length: 0\r\n\r\n\
    HTTP/1.1 200 OK\r\ncontent-length: 5\r\n\r\nm v=1\
    HTTP/1.1 200 OK\r\ncontent-length: 5\r\n\r\nm v=1";

/// A connection whose bodies have at most 8 bytes.
fn connection(alloc: Global) -> HttpConnection {
    HttpConnection::new(alloc, http1::Limits::default(), 8)
}

/// Adds what a connection gives of a request.
fn push_request(text: &mut Vec<u8>, request: &Request) -> Result<(), AllocError> {
    text.extend_from_slice(&request.method)?;
    text.push(b' ')?;
    text.extend_from_slice(&request.target)?;
    text.extend_from_slice(if request.is_encoded {
        b" true "
    } else {
        b" false "
    })?;
    text.extend_from_slice(&request.body)?;
    text.push(b';')?;
    Ok(())
}

/// Answers all requests that are there, each with its body, and adds what is given of them.
fn answer_all(
    alloc: Global,
    connection: &mut HttpConnection,
    given: &mut Vec<u8>,
) -> Result<(), AllocError> {
    for _ in 0..u64::MAX {
        let Found::Request(request) = connection.next() else {
            return Ok(());
        };
        push_request(given, &request)?;
        let reply = Reply {
            status: 200,
            fields: Vec::new(alloc),
            body: request.body,
            closes: false,
        };
        let _answered = connection.answer(&reply);
    }
    Ok(())
}

/// Whether the requests are given and answered if they come cut in two here.
fn is_same_cut_at(alloc: Global, cut: usize) -> Result<bool, AllocError> {
    let mut connection = connection(alloc);
    let mut given = Vec::new(alloc);
    let (first, second) = match REQUESTS.split_at_checked(cut) {
        Some(pieces) => pieces,
        None => (REQUESTS, b"".as_slice()),
    };
    connection.receive(first)?;
    answer_all(alloc, &mut connection, &mut given)?;
    connection.receive(second)?;
    answer_all(alloc, &mut connection, &mut given)?;
    Ok(given.as_slice() == GIVEN && connection.unsent() == ANSWERS)
}

#[test]
fn requests_are_given_and_answered_however_they_are_cut(rt: HostRuntime) -> Result<(), Fail> {
    for cut in 0..REQUESTS.len() {
        assert!(rt; is_same_cut_at(rt.alloc(), cut)?);
    }
    Ok(())
}

/// The status with which a connection is over that received this, and then its end if `ends`.
fn status_of(alloc: Global, text: &[u8], ends: bool) -> Result<Vec<u8>, AllocError> {
    let mut connection = connection(alloc);
    connection.receive(text)?;
    if ends {
        connection.end();
    }
    let mut given = Vec::new(alloc);
    answer_all(alloc, &mut connection, &mut given)?;
    let status = match connection.unsent().get(9..12) {
        Some(status) if connection.is_over() => status,
        _ => b"none",
    };
    Vec::from_slice(alloc, status)
}

#[test]
fn a_refusal_has_the_status_of_its_reason(rt: HostRuntime) -> Result<(), Fail> {
    let alloc = rt.alloc();
    let mut long = Vec::from_slice(alloc, b"GET /")?;
    long.resize(17_000, b'a')?;
    let mut many = Vec::from_slice(alloc, b"GET / HTTP/1.1\r\nHost: a\r\n")?;
    for _ in 0..64 {
        many.extend_from_slice(b"a: b\r\n")?;
    }
    many.extend_from_slice(b"\r\n")?;
    let cases: [(&[u8], bool, &[u8]); 8] = [
        (&long, false, b"414"),
        (&many, false, b"431"),
        (b"GET / HTTP/1.1\r\n\r\n", false, b"400"),
        (
            b"POST / HTTP/1.1\r\nHost: a\r\nContent-Length: 9\r\n\r\n",
            false,
            b"413",
        ),
        (
            b"POST / HTTP/1.1\r\nHost: a\r\nTransfer-Encoding: gzip, chunked\r\n\r\n",
            false,
            b"501",
        ),
        (
            b"POST / HTTP/1.1\r\nHost: a\r\nContent-Length: 5\r\n\r\nm v",
            true,
            b"400",
        ),
        (b"GET / HTTP/1.1\r\nHost: a\r\n\r\n", true, b"200"),
        (b"GET / HTTP/1.1\r\nHost: a\r\n\r\n", false, b"none"),
    ];
    for (text, ends, want) in cases {
        assert!(rt; status_of(alloc, text, ends)?.as_slice() == want);
    }
    Ok(())
}

/// The pieces of lines that come cut in these two, each after a bar, the last one after two.
fn pieces_of(alloc: Global, first: &[u8], second: &[u8]) -> Result<Vec<u8>, AllocError> {
    let mut connection = LineConnection::new(alloc);
    let mut pieces = Vec::new(alloc);
    for text in [first, second] {
        connection.receive(text)?;
        if text.is_empty() {
            connection.end();
        }
        for _ in 0..3 {
            if let Some(piece) = connection.next()? {
                pieces.extend_from_slice(if piece.is_last { b"||" } else { b"|" })?;
                pieces.extend_from_slice(&piece.text)?;
                connection.answer(b"")?;
            }
        }
    }
    Ok(pieces)
}

#[test]
fn pieces_are_whole_lines(rt: HostRuntime) -> Result<(), Fail> {
    let alloc = rt.alloc();
    assert!(rt;
        pieces_of(alloc, b"m v=1\nm v=2", b"\nm")?.as_slice() == b"|m v=1\n|m v=2\n".as_slice()
    );
    assert!(rt;
        pieces_of(alloc, b"m v=1\nm v=2", b"")?.as_slice() == b"|m v=1\n||m v=2".as_slice()
    );
    assert!(rt; pieces_of(alloc, b"m v=1\n", b"")?.as_slice() == b"|m v=1\n||".as_slice());
    Ok(())
}
