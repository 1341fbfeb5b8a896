//! The digests that chain records.
ghost use Rattle.std.specs.Prelude.{◌≡◌, ◌^◌, ◌<◌, length, take};
ghost use Rattle.rr_journal.specs.Digest.{cut_digest, link};

use sha2::{Digest, Sha256};

/// The size of a digest in bytes.
pub const DIGEST_LEN: usize = 8;

const _: () = prove!(DIGEST_LEN == 8);

/// The first bytes of a SHA-256 digest.
pub(crate) fn cut(digest: &[u8; 32]) -> [u8; DIGEST_LEN]
    ensures { result ≡ take DIGEST_LEN digest.now }
{
    match digest.first_chunk() {
        Some(prefix) => *prefix,
        None => [0; DIGEST_LEN],
    }
}

/// The digest of a text. The cost is linear in it.
#[tactic(auto, unfolding(crate::specs::Digest::cut_digest))]
pub(crate) fn cut_digest(text: &[u8]) -> [u8; DIGEST_LEN]
    ensures { result ≡ cut_digest text.now }
{
    let mut hasher = Sha256::new();
    hasher.update(text);
    cut(&hasher.finalize())
}

/// The digest of a record, given that of the record before it. The cost is linear in the body.
#[tactic(auto, unfolding(crate::specs::Digest::cut_digest))]
pub(crate) fn link(before: &[u8; DIGEST_LEN], kind: u8, body: &[u8]) -> [u8; DIGEST_LEN]
    requires { length body.now < 2 ^ 32 }
    ensures { result ≡ link before.now kind body.now }
{
    let len = body.len() as u32;
    let mut hasher = Sha256::new();
    hasher.update(before);
    hasher.update(&len.to_be_bytes());
    hasher.update(&[kind]);
    hasher.update(body);
    cut(&hasher.finalize())
}
