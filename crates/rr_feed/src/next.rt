//! The next item of the bytes that are left.

ghost use Rattle.std.specs.Prelude.{◌≡◌, ◌==◌, ◌&&◌, nat_lt, not, false, length, MatchOption};
ghost use Rattle.rr_text.specs.Bytes.{HasNoLineFeed};
ghost use Rattle.rr_feed.specs.Items.{item_of, item_view};
ghost use Rattle.rr_feed.specs.Next.{IsCut};
ghost use Rattle.rr_feed.specs.Handing.{GivesNext};

use crate::left::Left;
use crate::line::FeedLine;
use memchr::memchr;
use rr_text::bytes::LINE_FEED;
use rr_text::limits::MAX_LINE;

/// An item, and what is left after it.
#[derive(Clone, Copy)]
pub(crate) struct Next<'a> {
    pub(crate) item: Option<FeedLine<'a>>,
    pub(crate) rest: Left<'a>,
    pub(crate) skipping: bool,
}

/// The bytes before the first line feed, and those after it. What was searched isn't searched
/// again.
fn cut_line(left: Left<'_>) -> Option<(&[u8], &[u8])>
    ensures { MatchOption result (HasNoLineFeed left.entry.bytes.now)
        (λ cut. IsCut left.entry.bytes.now cut.0.now cut.1.now) }
{
    match memchr(LINE_FEED, &left.bytes[left.searched..]) {
        Some(found) => {
            let at = left.searched + found;
            Some((&left.bytes[..at], &left.bytes[at + 1..]))
        }
        None => None,
    }
}

/// Whether these are more bytes than a line may have.
fn is_too_long(bytes: &[u8]) -> bool
    ensures { result ≡ nat_lt MAX_LINE (length bytes.now) }
{
    bytes.len() > MAX_LINE
}

/// The item that a line feed ends.
fn whole_line(line: &[u8]) -> FeedLine<'_>
    ensures { item_view result ≡ item_of line.now }
{
    if is_too_long(line) {
        FeedLine::TooLong
    } else {
        FeedLine::Line(line)
    }
}

/// The next item of bytes that begin a line.
fn next_of_line(left: Left<'_>, ended: bool) -> Next<'_>
    ensures { GivesNext left.entry.bytes.now false ended result }
{
    match cut_line(left) {
        Some((line, rest)) => Next {
            item: Some(whole_line(line)),
            rest: Left {
                bytes: rest,
                searched: 0,
            },
            skipping: false,
        },
        None => next_of_last(left.bytes, ended),
    }
}

/// Whether bytes without a line feed are a line.
fn is_last_line(left: &[u8], ended: bool) -> bool
    ensures { result ≡ (ended && not (length left.now == 0)) }
{
    ended && !left.is_empty()
}

/// The next item of bytes without a line feed.
fn next_of_last(left: &[u8], ended: bool) -> Next<'_>
    requires { HasNoLineFeed left.now }
    ensures { GivesNext left.now false ended result }
{
    if is_too_long(left) {
        return Next {
            item: Some(FeedLine::TooLong),
            rest: Left {
                bytes: &[],
                searched: 0,
            },
            skipping: true,
        };
    }
    if is_last_line(left, ended) {
        return Next {
            item: Some(FeedLine::Line(left)),
            rest: Left {
                bytes: &[],
                searched: 0,
            },
            skipping: false,
        };
    }
    Next {
        item: None,
        rest: Left {
            bytes: left,
            searched: left.len(),
        },
        skipping: false,
    }
}

/// The next item of the bytes that are left.
///
/// The cost is linear in the bytes not searched yet, up to the line feed that ends the item or the
/// line being skipped.
pub(crate) fn next_item(left: Left<'_>, skipping: bool, ended: bool) -> Next<'_>
    ensures { GivesNext left.entry.bytes.now skipping ended result }
{
    if !skipping {
        return next_of_line(left, ended);
    }
    match cut_line(left) {
        Some((_, rest)) => next_of_line(
            Left {
                bytes: rest,
                searched: 0,
            },
            ended,
        ),
        None => Next {
            item: None,
            rest: Left {
                bytes: &[],
                searched: 0,
            },
            skipping: true,
        },
    }
}
