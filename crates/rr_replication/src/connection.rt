//! One connection to a peer, over which it is asked.

use crate::answer::PeerAnswer;
use crate::part::MAX_PART;
use crate::peer_fault::PeerFault;
use bytes::BytesMut;
use http1::{BodySize, Client, Event, Header, Limits, WriteError};
use httparse::spans::{EMPTY_HEADER_SPAN, Span};
use std::alloc::Global;
use std::io::{Read, Write};

/// A head has at most this many fields.
const MAX_FIELDS: usize = 64;

/// The most bytes that are read at a time.
const PIECE: usize = 65_536;

/// What is known after one event of the input.
enum Step {
    /// There may be more events.
    On,
    /// More is to be read.
    NeedsMore,
    /// The answer is whole.
    Whole,
}

/// A connection to a peer, over which it is asked by HTTP/1.1, one request after another.
#[derive(Drop)]
pub struct PeerConnection<I, O> {
    alloc: Global,
    input: I,
    output: O,
    http: Client,
    unread: BytesMut,
}

/// Why a request isn't written.
fn request_fault(error: WriteError) -> PeerFault {
    match error {
        WriteError::OutOfMemory => PeerFault::Memory,
        _ => PeerFault::BadAddress,
    }
}

/// Whether a body is declared to be longer than a part may be.
fn is_too_long(size: BodySize) -> bool {
    match size {
        BodySize::Known(len) => len > MAX_PART,
        BodySize::Empty | BodySize::Unknown => false,
    }
}

/// Appends a piece to the body of an answer, which may be no longer than a part.
fn push_body(answer: &mut Option<PeerAnswer>, piece: &[u8]) -> Result<(), PeerFault> {
    let Some(answer) = answer else {
        return Err(PeerFault::BadAnswer);
    };
    let room = (MAX_PART as usize).saturating_sub(answer.body.len());
    if piece.len() > room {
        return Err(PeerFault::BadAnswer);
    }
    answer.body.extend_from_slice(piece)?;
    Ok(())
}

impl<I: Read, O: Write> PeerConnection<I, O> {
    /// A connection over two streams: what the peer sends, and what is sent to it.
    pub fn new(alloc: Global, input: I, output: O) -> PeerConnection<I, O> {
        PeerConnection {
            alloc,
            input,
            output,
            http: Client::new(Limits::default()),
            unread: BytesMut::new(alloc),
        }
    }

    /// Sends a request.
    fn send(&mut self, host: &[u8], target: &[u8]) -> Result<(), PeerFault> {
        let mut request = Vec::new(self.alloc);
        let fields = [Header {
            name: b"host",
            value: host,
        }];
        let written = self
            .http
            .write_request(&mut request, b"GET", target, &fields, BodySize::Empty);
        if let Err(error) = written {
            return Err(request_fault(error));
        }
        if let Err(error) = self.http.write_end(&mut request, &[]) {
            return Err(request_fault(error));
        }
        match self.output.write_all(&request) {
            Ok(()) => Ok(()),
            Err(_) => Err(PeerFault::WriteFailed),
        }
    }

    /// Reads more of what the peer sends.
    fn fill(&mut self) -> Result<(), PeerFault> {
        self.unread.reserve(PIECE)?;
        match self.unread.read_from(&mut self.input) {
            Ok(0) => Err(PeerFault::Ended),
            Ok(_) => Ok(()),
            Err(_) => Err(PeerFault::ReadFailed),
        }
    }

    /// Advances an answer by one event.
    fn step(&mut self, answer: &mut Option<PeerAnswer>) -> Result<Step, PeerFault> {
        let mut headers = [EMPTY_HEADER_SPAN; MAX_FIELDS];
        let Ok(read) = self.http.read(self.unread.as_slice(), &mut headers) else {
            return Err(PeerFault::BadAnswer);
        };
        let step = match read.event {
            Event::NeedMore => Step::NeedsMore,
            Event::Informational(_) => Step::On,
            Event::Head(head) => {
                if is_too_long(self.http.unread_size()) {
                    return Err(PeerFault::BadAnswer);
                }
                let fields = &headers[..head.headers];
                let input = self.unread.as_slice();
                *answer = Some(PeerAnswer::begin(self.alloc, input, fields, head.code));
                Step::On
            }
            Event::Data(piece) => {
                push_body(answer, piece.of(self.unread.as_slice()))?;
                Step::On
            }
            Event::End(_) => Step::Whole,
            Event::Paused | Event::Upgraded | Event::Closed => return Err(PeerFault::BadAnswer),
        };
        self.unread.advance(read.consumed);
        Ok(step)
    }

    /// Receives the answer to a request.
    fn receive(&mut self) -> Result<PeerAnswer, PeerFault> {
        let mut answer = None;
        for _ in 0..u64::MAX {
            match self.step(&mut answer)? {
                Step::On => {}
                Step::NeedsMore => self.fill()?,
                Step::Whole => break,
            }
        }
        match answer {
            Some(answer) => Ok(answer),
            None => Err(PeerFault::BadAnswer),
        }
    }

    /// Asks the peer for a target, and returns its answer, with a body of at most [`MAX_PART`]
    /// bytes.
    ///
    /// Refused as `WriteFailed`, `ReadFailed` and `Ended` by what the streams do; as `BadAnswer` if
    /// what comes isn't an HTTP/1.1 answer, or has a longer body; as `BadAddress` if the host or
    /// the target can't stand in a request; and as `Memory`. After a refusal the connection is of
    /// no further use.
    pub fn ask(&mut self, host: &[u8], target: &[u8]) -> Result<PeerAnswer, PeerFault> {
        self.send(host, target)?;
        self.receive()
    }
}
