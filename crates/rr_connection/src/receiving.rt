//! The next request of a connection.

ghost use Rattle.std.specs.Prelude.{◌≡◌, ◌≤◌, List, ℕ, length};
ghost use Rattle.std.specs.Bool.{OnFalse, OnTrue};
ghost use Rattle.http1.specs.declared.conn.Event.TheVariants.{Head, Data, End};
ghost use Rattle.httparse.specs.Spans.{IsRequestWithin};
ghost use Rattle.httparse.specs.declared.spans.HeaderSpan.{HeaderSpan};

use crate::http::{HttpConnection, MAX_HEADERS, Phase};
use crate::refusal::Refusal;
use crate::request::Request;
use crate::room::release;
use http1::{BodySize, Event};
use httparse::spans::{EMPTY_HEADER_SPAN, HeaderSpan, RequestSpans, Span};

const CONTINUE: &[u8] = b"HTTP/1.1 100 Continue\r\n\r\n";

/// What was found in the received bytes.
#[derive(Debug, Drop)]
pub enum Found {
    /// The next request, whole. None follows until it is answered.
    Request(Request),
    /// No whole request yet.
    Nothing,
    /// What was received is refused, and the connection ends once that is sent.
    Refused(Refusal),
    /// The input ended after a whole request, and the connection with it.
    Ended,
}

/// What is known after one event of the input.
#[derive(Drop)]
pub(crate) enum Step {
    /// There may be more events.
    On,
    /// There are no more for now.
    Stop(Found),
}

impl HttpConnection {
    ghost use Rattle.rr_connection.specs.declared.http.Phase.TheVariants as Phase;
    ghost use Rattle.rr_connection.specs.declared.receiving.Found.TheVariants as Found;
    ghost use Rattle.rr_connection.specs.Refused.{IsRefused};
    ghost use Rattle.rr_connection.specs.Stands.{is_ready};
    ghost use Rattle.rr_connection.specs.Receiving.{AfterRead, Finds, IsReceiving, IsStarved, Leads};
    ghost use Rattle.rr_connection.specs.Receiving.{Reached, Sends, StepsOn, found_text, step_text};

    /// Refuses what comes, and reads nothing more. If there is no memory for the response, the
    /// refusal becomes that of memory.
    fn refuse(&mut self, refusal: Refusal) -> Found
        ensures found { Leads (IsRefused self.old.max_body refusal)
            (Finds self.old.max_body result self.new) }
        ensures text { Sends (found_text result) self.old self.new }
        ensures limit { self.new.max_body ≡ self.old.max_body }
    {
        self.phase = Phase::Over;
        match self.unsent.extend_from_slice(refusal.text()) {
            Ok(()) => Found::Refused(refusal),
            Err(_) => Found::Refused(Refusal::Memory),
        }
    }

    /// Waits for more, if more can come.
    fn wait(&mut self) -> Step
        ensures found { Leads (IsStarved self.old) (Reached self.old.max_body result self.new) }
        ensures text { Sends (step_text result) self.old self.new }
        ensures limit { self.new.max_body ≡ self.old.max_body }
        ensures phase { StepsOn result (self.new.phase ≡ self.old.phase) }
    {
        if !self.has_ended {
            return Step::Stop(Found::Nothing);
        }
        if self.part.is_some() || !self.unread.is_empty() {
            return Step::Stop(self.refuse(Refusal::CutShort));
        }
        self.phase = Phase::Over;
        Step::Stop(Found::Ended)
    }

    /// Lets the client send a body, if it waits for that.
    fn invite(&mut self) -> Step
        ensures found { Leads (IsReceiving self.old) (Reached self.old.max_body result self.new) }
        ensures text { Sends (step_text result) self.old self.new }
        ensures limit { self.new.max_body ≡ self.old.max_body }
        ensures phase { StepsOn result (self.new.phase ≡ self.old.phase) }
    {
        if !self.server.expects_continue() {
            return Step::On;
        }
        match self.unsent.extend_from_slice(CONTINUE) {
            Ok(()) => Step::On,
            Err(_) => Step::Stop(self.refuse(Refusal::Memory)),
        }
    }

    /// Begins a request whose head was read.
    fn begin(&mut self, spans: &[HeaderSpan], head: &RequestSpans, consumed: usize) -> Step
        requires phase { self.old.phase ≡ Phase.Receives }
        requires within { IsRequestWithin (self.old.unread.items) spans.now head.now }
        requires consumed { consumed ≤ length self.old.unread.items }
        ensures found { Leads
            (AfterRead self.old spans.now (record { consumed = consumed; event = Head head.now }))
            (Reached self.old.max_body result self.new) }
        ensures text { Sends (step_text result) self.old self.new }
        ensures limit { self.new.max_body ≡ self.old.max_body }
        ensures phase { StepsOn result (self.new.phase ≡ self.old.phase) }
    {
        let Ok(part) = Request::begin(self.alloc, self.unread.as_slice(), spans, head) else {
            return Step::Stop(self.refuse(Refusal::Memory));
        };
        self.part = Some(part);
        self.unread.advance(consumed);
        if self.server.has_codings() {
            return Step::Stop(self.refuse(Refusal::UnknownCoding));
        }
        if let BodySize::Known(len) = self.server.unread_size()
            && len > self.max_body as u64
        {
            return Step::Stop(self.refuse(Refusal::BodyTooLong));
        }
        self.invite()
    }

    /// Takes in a piece of a body.
    fn take(&mut self, piece: Span, consumed: usize) -> Step
        requires phase { self.old.phase ≡ Phase.Receives }
        requires piece { (piece.start ≤ piece.end) × (piece.end ≤ length self.old.unread.items) }
        requires consumed { consumed ≤ length self.old.unread.items }
        ensures found { (spans : List HeaderSpan) → Leads
            (AfterRead self.old spans (record { consumed = consumed; event = Data piece }))
            (Reached self.old.max_body result self.new) }
        ensures text { Sends (step_text result) self.old self.new }
        ensures limit { self.new.max_body ≡ self.old.max_body }
        ensures phase { StepsOn result (self.new.phase ≡ self.old.phase) }
    {
        let Some(mut part) = self.part.take() else {
            return Step::Stop(self.refuse(Refusal::Memory));
        };
        if piece.end - piece.start > self.max_body.saturating_sub(part.body.len()) {
            return Step::Stop(self.refuse(Refusal::BodyTooLong));
        }
        let bytes = piece.of(self.unread.as_slice());
        if part.body.extend_from_slice(bytes).is_err() {
            return Step::Stop(self.refuse(Refusal::Memory));
        }
        self.part = Some(part);
        self.unread.advance(consumed);
        Step::On
    }

    /// Gives the whole request.
    fn give(&mut self, consumed: usize) -> Step
        requires phase { self.old.phase ≡ Phase.Receives }
        requires consumed { consumed ≤ length self.old.unread.items }
        ensures found { (spans : List HeaderSpan) (count : ℕ) → Leads
            (AfterRead self.old spans (record { consumed = consumed; event = End count }))
            (Reached self.old.max_body result self.new) }
        ensures text { Sends (step_text result) self.old self.new }
        ensures limit { self.new.max_body ≡ self.old.max_body }
        ensures phase { StepsOn result (self.new.phase ≡ self.old.phase) }
    {
        let Some(part) = self.part.take() else {
            return Step::Stop(self.refuse(Refusal::Memory));
        };
        self.unread.advance(consumed);
        release(self.alloc, &mut self.unread);
        self.is_head = part.method.as_slice() == b"HEAD".as_slice();
        self.phase = Phase::Waits;
        Step::Stop(Found::Request(part))
    }

    /// Reads one event of the input.
    fn step(&mut self, spans: &mut [HeaderSpan]) -> Step
        requires phase { self.old.phase ≡ Phase.Receives }
        requires room { length spans.old ≡ MAX_HEADERS }
        ensures found { Leads (IsReceiving self.old) (Reached self.old.max_body result self.new) }
        ensures text { Sends (step_text result) self.old self.new }
        ensures limit { self.new.max_body ≡ self.old.max_body }
        ensures phase { StepsOn result (self.new.phase ≡ self.old.phase) }
    {
        let read = match self.server.read(self.unread.as_slice(), spans) {
            Ok(read) => read,
            Err(error) => return Step::Stop(self.refuse(Refusal::Malformed(error))),
        };
        match read.event {
            Event::Head(head) => self.begin(spans, &head, read.consumed),
            Event::Data(piece) => self.take(piece, read.consumed),
            Event::End(_trailers) => self.give(read.consumed),
            _ => {
                self.unread.advance(read.consumed);
                release(self.alloc, &mut self.unread);
                self.wait()
            }
        }
    }

    /// The next request, if it is whole, none is out, and not too many bytes wait to be sent.
    ///
    /// The cost is linear in the bytes received since the last call, except that a head which isn't
    /// whole yet is read again.
    pub fn next(&mut self) -> Found
        ensures found { OnTrue (is_ready self.old)
            (Leads (IsReceiving self.old) (Finds self.old.max_body result self.new)) }
        ensures paused { OnFalse (is_ready self.old) ((result ≡ Found.Nothing) × (self.new ≡ self.old)) }
        ensures text { Sends (found_text result) self.old self.new }
        ensures limit { self.new.max_body ≡ self.old.max_body }
    {
        if !self.is_ready() {
            return Found::Nothing;
        }
        let mut spans = [EMPTY_HEADER_SPAN; MAX_HEADERS];
        for _ in 0..u64::MAX {
            match self.step(&mut spans) {
                Step::On => {}
                Step::Stop(found) => return found,
            }
        }
        self.refuse(Refusal::Memory)
    }
}
