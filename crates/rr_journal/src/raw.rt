//! A record of a journal, as its kind and its bytes.
use crate::digest::DIGEST_LEN;

/// The most bytes a record may have: with a witness before it, it fits between two syncs.
pub const MAX_RECORD_LEN: usize = 1_048_555;

/// How many bytes precede a record's body: its length and its kind.
pub(crate) const HEAD_LEN: usize = 5;

/// How many bytes a record has besides its body.
pub(crate) const BESIDES_LEN: usize = 13;

/// The most bytes the body of a record may have.
pub const MAX_BODY_LEN: usize = 1_048_542;

/// What is added to the kind of the first record after a sync.
pub(crate) const FIRST: u8 = 128;

const _: () = prove!(MAX_RECORD_LEN == 1_048_555);

const _: () = prove!(HEAD_LEN == 5);

const _: () = prove!(BESIDES_LEN == 13);

const _: () = prove!(BESIDES_LEN == HEAD_LEN + DIGEST_LEN);

const _: () = prove!(MAX_BODY_LEN == 1_048_542);

const _: () = prove!(MAX_BODY_LEN + BESIDES_LEN == MAX_RECORD_LEN);

const _: () = prove!(FIRST == 128);

/// A record without its digest.
#[derive(Debug, Drop)]
pub struct RawRecord {
    /// What the body is; 128 more in the first record after a sync.
    pub kind: u8,
    /// The body.
    pub body: Vec<u8>,
}
