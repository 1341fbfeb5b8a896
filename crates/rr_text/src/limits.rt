//! The limits of the store, each named only here. The numbers are pinned at the end, so that an
//! edit in one place changes none.

/// The greatest number that a sample of one origin can have: 2^40.
pub const MAX_NUMBER: u64 = 1_099_511_627_776;

/// The greatest origin; 0 is none.
pub const MAX_ORIGIN: u16 = 65_535;

/// The greatest step of a schema, in seconds: one day.
pub const MAX_STEP: u32 = 86_400;

/// The most archives of a schema.
pub const MAX_ARCHIVES: usize = 8;

/// The most steps of one row of an archive, and so the least width of a mask that has a bit for
/// each of them.
pub const MAX_STEPS: u32 = 128;

/// The most rows of an archive.
pub const MAX_ROWS: u32 = 100_000;

/// The greatest denominator of an xff.
pub const MAX_XFF_DEN: u32 = 1_000;

/// The most bytes of a line, without its LF.
pub const MAX_LINE: usize = 65_536;

/// The most tags of a key, and so of a line.
pub const MAX_TAGS: usize = 32;

/// The most fields of a line.
pub const MAX_FIELDS: usize = 256;

/// The most bytes of the text of a series key.
pub const MAX_KEY_TEXT: usize = 1_024;

/// The most cells of a page.
pub const MAX_PAGE_CELLS: usize = 256;

/// The most rows of one fetch.
pub const MAX_FETCH_ROWS: u32 = 100_000;

/// The most reads of one connection or input.
pub const MAX_READS: u32 = 4_294_967_295;

/// The most readers of a node, each with its own address.
pub const MAX_READERS: usize = 16;

/// The most seconds for which a connection may move no byte: one day.
pub const MAX_IDLE: u64 = 86_400;

/// The last second, either side of the Unix epoch, that a fetch may name: the first one past the
/// time of every sample.
pub const MAX_SECOND: u64 = 9_223_372_037;

/// The nanoseconds of a second.
pub const NANOSECONDS: i64 = 1_000_000_000;

const _: () = prove!(MAX_NUMBER == 1_099_511_627_776);

const _: () = prove!(MAX_ORIGIN == 65_535);

const _: () = prove!(MAX_STEP == 86_400);

const _: () = prove!(MAX_ARCHIVES == 8);

const _: () = prove!(MAX_STEPS == 128);

const _: () = prove!(MAX_ROWS == 100_000);

const _: () = prove!(MAX_XFF_DEN == 1_000);

const _: () = prove!(MAX_LINE == 65_536);

const _: () = prove!(MAX_TAGS == 32);

const _: () = prove!(MAX_FIELDS == 256);

const _: () = prove!(MAX_KEY_TEXT == 1_024);

const _: () = prove!(MAX_PAGE_CELLS == 256);

const _: () = prove!(MAX_FETCH_ROWS == 100_000);

const _: () = prove!(MAX_READS == 4_294_967_295);

const _: () = prove!(MAX_SECOND == 9_223_372_037);

const _: () = prove!(NANOSECONDS == 1_000_000_000);

const _: () = prove!(MAX_READERS == 16);

const _: () = prove!(MAX_IDLE == 86_400);
