//! How the lines of a connection are taken.

use rr_line::Precision;

/// After how many lines everything is published.
pub(crate) const LINES_TO_PUBLISH: u64 = 1_000;

const _: () = prove!(LINES_TO_PUBLISH == 1_000);

/// How the lines of a connection are taken.
#[derive(Clone, Copy)]
pub(crate) struct Rules {
    /// The unit of their times.
    pub(crate) precision: Precision,
    /// How far ahead of the clock a point's own time may be, in nanoseconds; unlimited if absent.
    pub(crate) lead: Option<u64>,
}
