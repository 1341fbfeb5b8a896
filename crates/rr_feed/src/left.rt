//! The bytes that are left.

ghost use Rattle.rr_feed.specs.Next.{IsSearched};

/// The bytes that are left, the first `searched` of which are known to hold no line feed.
#[derive(Clone, Copy)]
pub(crate) struct Left<'a> {
    pub(crate) bytes: &'a [u8],
    pub(crate) searched: usize,
    ghost is_searched: { IsSearched bytes.now searched },
}
