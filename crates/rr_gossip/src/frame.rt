//! Frames as bytes.
ghost use Rattle.std.specs.Prelude.{◌≡◌, ◌≢◌, Err, ◌≤◌, ◌<◌, ◌+◌, ◌^◌, length, IfOk};
ghost use Rattle.std.specs.Option.{option_map};
ghost use Rattle.rr_text.specs.Results.{Gives};
ghost use Rattle.rr_gossip.specs.Frame.{kind_byte, kind_at, frame_text, content_at};

use crate::fault::GossipFault;
use std::alloc::{AllocError, Global};

/// How many bytes may follow the length of a frame.
pub const MAX_FRAME_LEN: usize = 300_000;

const _: () = prove!(MAX_FRAME_LEN == 300_000);

/// How many frames a session may have, each way.
pub const MAX_FRAMES: u32 = 16_777_216;

const _: () = prove!(MAX_FRAMES == 16_777_216);

/// The kind of a frame.
#[derive(Clone, Copy, Debug, PartialEq, Eq)]
pub enum Kind {
    /// The schema of the side that pulls.
    Hello,
    /// Names and versions of its cells.
    Summary,
    /// That there are no more of them.
    SummaryEnd,
    /// Cells that these lack.
    Page,
    /// That there are no more of them.
    PageEnd,
}

impl Kind {
    /// Its byte in a frame.
    pub fn byte(self) -> u8
        ensures { result ≡ kind_byte self }
    {
        match self {
            Kind::Hello => 1,
            Kind::Summary => 2,
            Kind::SummaryEnd => 3,
            Kind::Page => 4,
            Kind::PageEnd => 5,
        }
    }

    /// The kind of a byte, if it is one.
    pub fn of(byte: u8) -> Option<Kind>
        ensures { result ≡ kind_at byte }
    {
        match byte {
            1 => Some(Kind::Hello),
            2 => Some(Kind::Summary),
            3 => Some(Kind::SummaryEnd),
            4 => Some(Kind::Page),
            5 => Some(Kind::PageEnd),
            _ => None,
        }
    }
}

/// A frame of a kind with a body: its length in four bytes, the kind in one, and the body. The cost
/// is linear in the body.
#[tactic(auto, unfolding(crate::specs::Frame::frame_text))]
pub fn frame_bytes(alloc: Global, kind: Kind, body: &[u8]) -> Result<Vec<u8>, AllocError>
    requires { length body.now < MAX_FRAME_LEN }
    ensures { IfOk result (λ bytes. bytes.items ≡ frame_text kind body.now) }
{
    let len = 1 + body.len() as u32;
    let mut bytes = Vec::new(alloc);
    bytes.extend_from_slice(&len.to_be_bytes())?;
    bytes.push(kind.byte())?;
    bytes.extend_from_slice(body)?;
    Ok(bytes)
}

/// The kind and the body of a frame, from what follows its length. Refused as `FrameTooLong` above
/// 300,000 bytes, and then as `BadFrame` if there is no byte, or the first is of no kind.
#[tactic(auto, unfolding(crate::specs::Frame::content_at))]
pub fn content_of(content: &[u8]) -> Result<(Kind, &[u8]), GossipFault>
    ensures read { Gives (λ x. (x.0, x.1.now)) result (content_at content.now) }
    ensures no_memory { result ≢ Err GossipFault.Memory }
{
    if content.len() > MAX_FRAME_LEN {
        return Err(GossipFault::FrameTooLong);
    }
    let [byte, body @ ..] = content else {
        return Err(GossipFault::BadFrame);
    };
    match Kind::of(*byte) {
        Some(kind) => Ok((kind, body)),
        None => Err(GossipFault::BadFrame),
    }
}
