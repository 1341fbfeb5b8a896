//! Witnesses, by which damage is told from a torn tail.
//!
//! Between two syncs a writer first writes a witness: a digest of the offset at which it stands, under
//! a random key that no answer tells. Nobody else can make one. So a witness in bytes that aren't read
//! as records proves that what comes before it was synced: it is damaged, and no crash tore it.
ghost use Rattle.std.specs.Prelude.{◌≡◌};
ghost use Rattle.rr_journal.specs.Witness.{has_witness, is_witness_at, witness_of, was_synced};

use crate::digest::{DIGEST_LEN, cut};
use crate::kind::WITNESS;
use crate::raw::{BESIDES_LEN, FIRST, HEAD_LEN};
use sha2::{Digest, Sha256};

/// The size of a key in bytes.
pub const KEY_LEN: usize = 16;

/// How many bytes the record of a witness has.
pub const WITNESS_LEN: usize = 21;

/// The bytes of a witness's record before the witness: the length of the body, and the kind.
const WITNESS_HEAD: [u8; HEAD_LEN] = [0, 0, 0, 8, 133];

const _: () = prove!(KEY_LEN == 16);

const _: () = prove!(WITNESS_LEN == 21);

const _: () = prove!(WITNESS_LEN == BESIDES_LEN + DIGEST_LEN);

const _: () = prove!(WITNESS + FIRST == 133);

/// A directory's key, under which its witnesses are made: random bytes, the same for all its files.
#[derive(Clone, Copy, PartialEq, Eq)]
pub struct Key {
    /// The bytes.
    pub bytes: [u8; KEY_LEN],
}

/// The witness of an offset.
#[tactic(auto, unfolding(crate::specs::Digest::cut_digest))]
pub(crate) fn witness_of(key: &Key, offset: u64) -> [u8; DIGEST_LEN]
    ensures { result ≡ witness_of key.now.bytes offset }
{
    let mut hasher = Sha256::new();
    hasher.update(&key.bytes);
    hasher.update(&offset.to_be_bytes());
    cut(&hasher.finalize())
}

/// Whether bytes from an offset on begin with its witness.
#[tactic(auto, unfolding(crate::specs::Witness::is_witness_at))]
fn is_witness_at(key: &Key, offset: u64, bytes: &[u8]) -> bool
    ensures { result ≡ is_witness_at key.now.bytes offset bytes.now }
{
    if !bytes.starts_with(&WITNESS_HEAD) {
        return false;
    }
    bytes[HEAD_LEN..].starts_with(&witness_of(key, offset))
}

/// Whether bytes from an offset on have a witness somewhere.
fn has_witness(key: &Key, offset: u64, bytes: &[u8]) -> bool
    ensures { result ≡ has_witness key.now.bytes offset bytes.now }
{
    let mut at = offset;
    for index in 0..bytes.len() {
        if is_witness_at(key, at, &bytes[index..]) {
            return true;
        }
        at = at.saturating_add(1);
    }
    false
}

/// Whether bytes that aren't read as records, from the offset behind the last record on, were
/// synced at least in part: a witness follows in them, which is written only once all before it is
/// synced. Of bytes that a crash tore it is false, since only the first of them may be a witness.
///
/// The cost is linear in the bytes, and a digest wherever bytes look like a witness.
pub fn was_synced(key: &Key, offset: u64, bytes: &[u8]) -> bool
    ensures { result ≡ was_synced key.now.bytes offset bytes.now }
{
    match bytes {
        [_, rest @ ..] => has_witness(key, offset.saturating_add(1), rest),
        [] => false,
    }
}
