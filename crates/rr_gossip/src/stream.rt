//! Frames from a reader.
ghost use Rattle.std.specs.Prelude.{◌≡◌, ◌≤◌, Ok, IfErr, OnOk, List, ℕ, [], drop, length};
ghost use Rattle.std.specs.Int.{w32};
ghost use Rattle.rr_io.specs.Counted.{inner_of};
ghost use Rattle.rr_page.specs.Reading.{number_at};
ghost use Rattle.rr_gossip.specs.Calls.{ReadsBytes};
ghost use Rattle.rr_gossip.specs.Stream.{BreaksOff, Grows, IsFrame, ReadsFewer};

use crate::fault::GossipFault;
use crate::frame::MAX_FRAME_LEN;
use rr_io::Counted;
use rr_io::stream::{PIECE, read_some};
use rr_page::fields::u32_at;
use std::io::Read;

/// How many bytes the length of a frame has.
const LENGTH_LEN: usize = 4;

/// Reads until there are `len` bytes. Memory is taken for those that have arrived, not for those
/// still to come.
fn read_until<R: Read>(
    input: &mut Counted<R>,
    bytes: &mut Vec<u8>,
    len: usize,
) -> Result<(), GossipFault>
    requires { length bytes.old.items ≤ len }
    ensures reads { ReadsBytes R.remaining input.old input.new bytes.old.items bytes.new.items
        result }
    ensures whole { OnOk result (length bytes.new.items ≡ len) }
    ensures stopped { IfErr result (λ fault. (read : List ℕ)
        × Grows (R.remaining (inner_of input.old)) (R.remaining (inner_of input.new))
        bytes.old.items read
        × (length read ≤ len)
        × ReadsFewer fault (length read) len) }
{
    let mut piece = [0u8; PIECE];
    while bytes.len() < len {
        let most = PIECE.min(len - bytes.len());
        let given = read_some(input, &mut piece[..most])?;
        if given == 0 {
            return Err(GossipFault::Ended);
        }
        bytes.extend_from_slice(&piece[..given])?;
    }
    Ok(())
}

/// How many bytes follow the length of a frame.
fn content_len(frame: &[u8]) -> usize
    requires { length frame.now ≡ LENGTH_LEN }
    ensures { number_at w32 frame.now ≡ Ok (result, []) }
{
    match u32_at(frame) {
        Ok((len, _)) => len as usize,
        Err(_) => 0,
    }
}

/// Reads the next frame whole, by its length alone; `frame` has what was already read of the
/// length. No byte after it is taken.
///
/// Refused as `ReadFailed`; as `Ended` if the input ends inside the frame; as `FrameTooLong` if the
/// length is above 300,000, and then nothing after it is read; and as `Memory`. Memory is taken for
/// the bytes that have arrived.
pub(crate) fn read_frame<R: Read>(
    input: &mut Counted<R>,
    frame: &mut Vec<u8>,
) -> Result<(), GossipFault>
    requires { length frame.old.items ≤ LENGTH_LEN }
    ensures reads { ReadsBytes R.remaining input.old input.new frame.old.items frame.new.items
        result }
    ensures whole { OnOk result (IsFrame frame.new.items) }
    ensures long { OnOk result (LENGTH_LEN ≤ length frame.new.items) }
    ensures stopped { IfErr result (λ fault. (read : List ℕ)
        × Grows (R.remaining (inner_of input.old)) (R.remaining (inner_of input.new))
        frame.old.items read
        × BreaksOff read fault) }
{
    read_until(input, frame, LENGTH_LEN)?;
    let len = content_len(frame);
    if len > MAX_FRAME_LEN {
        return Err(GossipFault::FrameTooLong);
    }
    read_until(input, frame, LENGTH_LEN + len)
}

/// What follows the length of a frame.
pub(crate) fn content(frame: &[u8]) -> &[u8]
    requires { LENGTH_LEN ≤ length frame.now }
    ensures { result.now ≡ drop LENGTH_LEN frame.now }
{
    &frame[LENGTH_LEN..]
}
