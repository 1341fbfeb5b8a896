//! The pieces of a connection for lines.

ghost use Rattle.std.specs.Prelude.{◌≡◌, ◌≤◌, ◌++◌, ◌||◌, ◌==◌, [], drop, length, false, min, not, take, true, IfOk, OnErr, OnOk, MatchOption};

use crate::room::{MAX_UNSENT, release};
use bytes::BytesMut;
use memchr::memrchr;
use rr_text::bytes::LINE_FEED;
use std::alloc::{AllocError, Global};

/// A piece has at most this many bytes, and no more are received while that many are unread.
pub const PIECE: usize = 128 * 1024;

const _: () = prove!(PIECE == 131_072);

/// Consecutive bytes of a connection for lines: whole lines, unless the input ended within a line
/// or [`PIECE`] bytes hold no line feed.
#[derive(Debug, Drop)]
pub struct Piece {
    /// The bytes.
    pub text: Vec<u8>,
    /// Whether no piece came before it.
    pub is_first: bool,
    /// Whether the input ended after it.
    pub is_last: bool,
}

/// Where a connection for lines stands.
#[derive(Clone, Copy, Debug, PartialEq, Eq)]
enum Phase {
    /// No piece is out.
    Receives,
    /// A piece is out, and isn't answered yet.
    Waits,
    /// The last piece is out.
    WaitsLast,
    /// The last piece was answered.
    Over,
}

/// A connection for lines, with what was received but not yet read, and what is not yet sent.
#[derive(Drop)]
pub struct LineConnection {
    alloc: Global,
    phase: Phase,
    /// Whether a piece has been given.
    has_given: bool,
    has_ended: bool,
    unread: BytesMut,
    unsent: BytesMut,
}

impl LineConnection {
    ghost use Rattle.rr_connection.specs.declared.lines.Phase.TheVariants as Phase;
    ghost use Rattle.rr_connection.specs.Pieces.{AwaitsMore, IsNextLen, IsPiece};
    ghost use Rattle.rr_connection.specs.Pieces.{after_answer, allocated, has_ended, has_given, is_over};
    ghost use Rattle.rr_connection.specs.Pieces.{is_ready, unread_of, unsent_of, wants_read};

    /// A connection that has received nothing.
    pub fn new(alloc: Global) -> LineConnection
        ensures given { has_given result ≡ false }
        ensures unread { unread_of result ≡ [] }
        ensures unsent { unsent_of result ≡ [] }
    {
        LineConnection {
            alloc,
            phase: Phase::Receives,
            has_given: false,
            has_ended: false,
            unread: BytesMut::new(alloc),
            unsent: BytesMut::new(alloc),
        }
    }

    /// Takes in what was received.
    pub fn receive(&mut self, bytes: &[u8]) -> Result<(), AllocError>
        ensures ok { OnOk result (unread_of self.new ≡ unread_of self.old ++ bytes.now) }
        ensures err { OnErr result (unread_of self.new ≡ unread_of self.old) }
        ensures unsent { unsent_of self.new ≡ unsent_of self.old }
    {
        self.unread.extend_from_slice(bytes)
    }

    /// Notes that nothing more will be received.
    pub fn end(&mut self)
        ensures ended { has_ended self.new ≡ true }
        ensures unread { unread_of self.new ≡ unread_of self.old }
        ensures unsent { unsent_of self.new ≡ unsent_of self.old }
    {
        self.has_ended = true;
    }

    /// Whether more is to be received.
    pub fn wants_read(&self) -> bool
        ensures { result ≡ wants_read self.now }
    {
        !self.has_ended && self.unread.len() < PIECE && self.unsent.len() <= MAX_UNSENT
    }

    /// Whether bytes are to be sent.
    pub fn wants_write(&self) -> bool
        ensures { result ≡ not (length (unsent_of self.now) == 0) }
    {
        !self.unsent.is_empty()
    }

    /// Whether the last piece was answered, whether or not all is sent.
    pub fn is_over(&self) -> bool
        ensures { result ≡ is_over self.now.phase }
    {
        self.phase == Phase::Over
    }

    /// How many bytes of memory are held for it, counted as allocated and not as filled.
    pub fn held(&self) -> usize
        ensures { result ≡ min (allocated self.now) usize.MAX }
    {
        self.unread
            .capacity()
            .saturating_add(self.unsent.capacity())
    }

    /// What is to be sent.
    pub fn unsent(&self) -> &[u8]
        ensures { result.now ≡ unsent_of self.now }
    {
        self.unsent.as_slice()
    }

    /// Notes that this many bytes of it were sent.
    pub fn sent(&mut self, count: usize)
        ensures unsent { unsent_of self.new ≡ drop count (unsent_of self.old) }
        ensures unread { unread_of self.new ≡ unread_of self.old }
    {
        self.unsent.advance(count.min(self.unsent.len()));
        release(self.alloc, &mut self.unsent);
    }

    /// Whether the next piece may be given: none is out, and not too many bytes wait to be sent.
    fn is_ready(&self) -> bool
        ensures { result ≡ is_ready self.now }
    {
        self.phase == Phase::Receives && self.unsent.len() <= MAX_UNSENT
    }

    /// Whether the next piece is these `len` bytes, which hold no line feed: no more will come, or
    /// there are as many as it may have.
    fn is_cut(&self, len: usize) -> bool
        ensures { result ≡ (has_ended self.now || len == PIECE) }
    {
        self.has_ended || len == PIECE
    }

    /// The length of the next piece, if it is there.
    fn next_len(&self) -> Option<usize>
        ensures { IsNextLen (unread_of self.now) (has_ended self.now) result }
    {
        let len = self.unread.len().min(PIECE);
        match memrchr(LINE_FEED, &self.unread.as_slice()[..len]) {
            Some(last) => Some(last + 1),
            None if self.is_cut(len) => Some(len),
            None => None,
        }
    }

    /// Removes and returns the first `len` bytes.
    fn take(&mut self, len: usize) -> Result<Vec<u8>, AllocError>
        requires { len ≤ length (unread_of self.old) }
        ensures text { IfOk result (λ text. text.items ≡ take len (unread_of self.old)) }
        ensures rest { OnOk result (unread_of self.new ≡ drop len (unread_of self.old)) }
        ensures other { self.new ≡ record self.old { unread = self.new.unread } }
        ensures failed { OnErr result (self.new ≡ self.old) }
    {
        let text = Vec::from_slice(self.alloc, &self.unread.as_slice()[..len])?;
        self.unread.advance(len);
        release(self.alloc, &mut self.unread);
        Ok(text)
    }

    /// The next piece, if it is there, none is out, and not too many bytes wait to be sent. If
    /// memory runs out, nothing changes. The cost is linear in the unread bytes.
    pub fn next(&mut self) -> Result<Option<Piece>, AllocError>
        ensures found { IfOk result (λ found. MatchOption found
            (AwaitsMore self.old × (self.new ≡ self.old)) (IsPiece self.old self.new)) }
        ensures failed { OnErr result (self.new ≡ self.old) }
        ensures unsent { unsent_of self.new ≡ unsent_of self.old }
    {
        if !self.is_ready() {
            return Ok(None);
        }
        let Some(len) = self.next_len() else {
            return Ok(None);
        };
        let text = self.take(len)?;
        let is_last = self.has_ended && self.unread.is_empty();
        self.phase = if is_last {
            Phase::WaitsLast
        } else {
            Phase::Waits
        };
        let is_first = !self.has_given;
        self.has_given = true;
        Ok(Some(Piece {
            text,
            is_first,
            is_last,
        }))
    }

    /// Answers the piece that is out. If memory runs out, nothing changes.
    pub fn answer(&mut self, text: &[u8]) -> Result<(), AllocError>
        ensures ok { OnOk result (unsent_of self.new ≡ unsent_of self.old ++ text.now) }
        ensures next { OnOk result (self.new.phase ≡ after_answer self.old.phase) }
        ensures failed { OnErr result (self.new.phase ≡ self.old.phase) }
        ensures kept { OnErr result (unsent_of self.new ≡ unsent_of self.old) }
        ensures unread { unread_of self.new ≡ unread_of self.old }
    {
        self.unsent.extend_from_slice(text)?;
        self.phase = match self.phase {
            Phase::Waits => Phase::Receives,
            Phase::WaitsLast => Phase::Over,
            phase => phase,
        };
        Ok(())
    }
}
