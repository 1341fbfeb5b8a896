//! The feed.

ghost use Rattle.std.specs.Prelude.{◌≡◌, ◌++◌, ◌↔◌, true, IsTrue, OnOk, OnErr, option_map};
ghost use Rattle.std.specs.Io.BufRead.{Rests};
ghost use Rattle.std.specs.Borrow.{sem};
ghost use Rattle.rr_feed.specs.Items.{item_view};
ghost use Rattle.rr_feed.specs.Feed.{FeedState, HandsOut, empty_feed};
ghost use Rattle.rr_feed.specs.contracts.feed.Feed.{the_row};

use crate::fault::FeedFault;
use crate::left::Left;
use crate::line::FeedLine;
use crate::next::next_item;
use std::alloc::Global;
use std::marker::Model;

/// Bytes that come in pieces and go out as lines.
///
/// A feed holds the bytes that are left: what was pushed and neither handed out nor skipped. Once
/// [`Feed::next_line`] has returned `None`, these are at most
/// [`MAX_LINE`](rr_text::limits::MAX_LINE), so what a feed holds is bounded by one line and the
/// pieces pushed since. Bytes that were handed out stay in memory until a push finds at least as
/// many of them as are left.
///
/// However a stream is cut, each of its bytes is searched once, and no more bytes are moved than
/// were handed out or skipped.
#[derive(Drop)]
pub struct Feed {
    bytes: Vec<u8>,
    /// How many of the bytes were handed out or skipped. The others are left.
    start: usize,
    /// How many of the bytes that are left are known to hold no line feed.
    searched: usize,
    /// Whether the bytes that are left begin within a line already reported as too long.
    skipping: bool,
    ended: bool,
}

impl Model for Feed {
    ghost use Rattle.std.specs.Prelude.{◌≤◌, drop, vec_len};
    ghost use Rattle.rr_feed.specs.Feed.{FeedState, state};
    ghost use Rattle.rr_feed.specs.Next.{IsSearched};

    ghost Value = { FeedState };

    ghost view = { λ f. state (drop f.start f.bytes.items) f.skipping f.ended };

    ghost invariant = { λ f. (f.start ≤ vec_len f.bytes)
        × IsSearched (drop f.start f.bytes.items) f.searched };
}

impl Feed {
    /// A feed into which nothing was pushed. It takes no memory yet.
    pub fn new(alloc: Global) -> Feed
        ensures { result ≡ empty_feed }
    {
        Feed {
            bytes: Vec::new(alloc),
            start: 0,
            searched: 0,
            skipping: false,
            ended: false,
        }
    }

    /// Takes the next piece of the stream, of any size.
    ///
    /// Refused as `Ended` after [`Feed::end`], and as `Memory` if memory runs out; the feed is then
    /// unchanged. The cost is linear in the piece, amortized over all pushes.
    pub fn push(&mut self, piece: &[u8]) -> Result<(), FeedFault>
        ensures ok { OnOk result
            (self.new ≡ record self.old { left = self.old.left ++ piece.now }) }
        ensures ended { (result ≡ Err FeedFault.Ended) ↔ IsTrue self.old.ended }
        ensures err { OnErr result (self.new ≡ self.old) }
    {
        if self.ended {
            return Err(FeedFault::Ended);
        }
        self.move_to_front();
        self.bytes.extend_from_slice(piece)?;
        Ok(())
    }

    /// Drops the bytes that were handed out or skipped, unless more than these are left: so no more
    /// bytes are ever moved than were dropped.
    fn move_to_front(&mut self)
        ensures { self.new ≡ self.old }
    {
        if self.bytes.len() - self.start <= self.start {
            self.bytes.drain(..self.start);
            self.start = 0;
        }
    }

    /// Ends the stream: a last line without a line feed is then whole.
    pub fn end(&mut self)
        ensures { self.new ≡ record self.old { ended = true } }
    {
        self.ended = true;
    }

    /// Hands out the next line, or reports that it is too long, once enough of it has come.
    ///
    /// The cost is linear in the bytes searched for its line feed, each of them once. No memory is
    /// taken.
    pub fn next_line(&mut self) -> Option<FeedLine<'_>>
        ensures* item { sem 𝓛 (Rests the_row self.entry
            (λ new. HandsOut self.old (option_map item_view result) new)) }
    {
        let left = Left {
            bytes: &self.bytes[self.start..],
            searched: self.searched,
        };
        let next = next_item(left, self.skipping, self.ended);
        self.start = self.bytes.len() - next.rest.bytes.len();
        self.searched = next.rest.searched;
        self.skipping = next.skipping;
        next.item
    }
}
