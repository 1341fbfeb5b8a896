//! What a feed hands out.

/// How [`FeedLine::TooLong`] is printed.
pub const LINE_TOO_LONG: &str = "LineTooLong";

/// A line, or the report of one that is too long.
#[derive(Clone, Copy, Debug, PartialEq, Eq)]
pub enum FeedLine<'a> {
    /// The bytes of a line, without its line feed.
    Line(&'a [u8]),
    /// A line has more than [`MAX_LINE`](rr_text::limits::MAX_LINE) bytes. The rest of it, up to
    /// its line feed, is skipped.
    TooLong,
}
