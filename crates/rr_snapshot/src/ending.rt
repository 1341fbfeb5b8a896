//! What a snapshot has after its cells.
ghost use Rattle.std.specs.Prelude.{OnOk};
ghost use Rattle.rr_io.specs.Counted.{inner_of};
ghost use Rattle.rr_io.specs.Stream.{IsReadOut};
ghost use Rattle.rr_snapshot.specs.SnapshotReading.{digest_at, end_at};
ghost use Rattle.rr_snapshot.specs.Stream.{LoadsPiece, StreamGives};

use crate::fault::LoadFault;
use rr_io::Counted;
use rr_io::stream::fill;
use rr_page::fields::bytes_at;
use std::io::Read;

/// The size of a digest in bytes.
const DIGEST_LEN: usize = 32;

const _: () = prove!(DIGEST_LEN == 32);

/// Reads the digest at the start of the remaining input, which must be this one.
pub(crate) fn digest_from<R: Read>(
    input: &mut Counted<R>,
    digest: &[u8; DIGEST_LEN],
) -> Result<(), LoadFault>
    ensures read { StreamGives (λ x. x) result (R.remaining (inner_of input.old))
        (R.remaining (inner_of input.new)) (digest_at digest.now) }
    ensures piece { LoadsPiece DIGEST_LEN R.remaining input.old input.new result }
{
    let mut buffer = [0u8; DIGEST_LEN];
    let got = fill(input, &mut buffer)?;
    let (field, _) = bytes_at(&buffer[..got], DIGEST_LEN)?;
    if field != digest.as_slice() {
        return Err(LoadFault::BadDigest);
    }
    Ok(())
}

/// Reads one byte, which must not be there.
pub(crate) fn end_from<R: Read>(input: &mut Counted<R>) -> Result<(), LoadFault>
    ensures read { StreamGives (λ x. x) result (R.remaining (inner_of input.old))
        (R.remaining (inner_of input.new)) end_at }
    ensures end { OnOk result (IsReadOut R.remaining input.new) }
    ensures piece { LoadsPiece 1 R.remaining input.old input.new result }
{
    let mut byte = [0u8; 1];
    let got = fill(input, &mut byte)?;
    if got > 0 {
        return Err(LoadFault::TrailingBytes);
    }
    Ok(())
}
