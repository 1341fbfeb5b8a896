//! The bytes of both sides of a session.

/// What a side that holds nothing and pulls sends.
pub const SENT: [u8; 24] = [
    0, 0, 0, 0x0f, 1, 0, 0, 0, 0x3c, 1, 1, 0, 0, 0, 3, 0, 0, 0, 1, 0, 0, 0, 1, 3,
];

/// The answer of a peer that holds one sample, 7 at one minute after the epoch, of the key `m v`
/// and origin 1.
pub const REPLY: [u8; 119] = [
    0, 0, 0, 0x6e, 4, 0x52, 0x52, 0x50, 0x47, 1, 0, 0, 0, 0x3c, 1, 1, 0, 0, 0, 3, 0, 0, 0, 1, 0, 1,
    0, 3, 0x6d, 0x20, 0x76, 0, 0, 0, 0, 0, 0, 0, 0, 1, 0, 1, 0, 0, 0, 0, 0, 0, 0, 1, 0, 0, 0, 0, 0,
    0, 0, 1, 0, 0, 0, 0, 0, 0, 0, 0, 0, 0, 0, 0, 0, 0, 0, 7, 0, 0, 0, 0, 0, 0, 0, 7, 0, 0, 0, 0, 0,
    0, 0, 7, 0, 0, 0, 0x0d, 0xf8, 0x47, 0x58, 0, 0, 0, 0, 0, 0, 0, 0, 7, 0, 0, 0, 0, 0, 0, 0, 1, 0,
    0, 0, 1, 5,
];
