//! What a line says.

use rr_point::Point;

/// What a line says.
#[derive(Debug, Drop)]
pub enum Line<'a> {
    /// Nothing: the line is empty, of spaces alone, or a comment.
    Nothing,
    /// The samples of one moment.
    Point(Point<'a>),
}
