//! The kinds of records, as their bytes.

/// Cells, in groups of one key and archive.
pub(crate) const CELLS: u8 = 1;

/// The origin of the samples from here on.
pub(crate) const ORIGIN: u8 = 2;

/// How far another journal had been joined.
pub(crate) const CURSOR: u8 = 3;

/// The end of a checkpoint.
pub(crate) const END: u8 = 4;

/// A witness: what comes before it was synced when it was written.
pub(crate) const WITNESS: u8 = 5;

const _: () = prove!(CELLS == 1);

const _: () = prove!(ORIGIN == 2);

const _: () = prove!(CURSOR == 3);

const _: () = prove!(END == 4);

const _: () = prove!(WITNESS == 5);
