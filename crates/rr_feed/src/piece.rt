//! How much of a stream of lines is read at a time.

/// How many bytes of lines one read asks for.
pub const PIECE: usize = 65_536;

const _: () = prove!(PIECE == 65_536);
