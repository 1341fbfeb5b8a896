//! Why a line is refused, as text.

ghost use Rattle.std.specs.Prelude.{◌≡◌, ◌++◌, OnOk};
ghost use Rattle.rr_text.specs.Refusal.{refusal_text};

use itoa::Buffer;
use std::alloc::AllocError;

/// Adds the line `line N: NAME`, which says that the line with this number is refused. After an
/// `Err` some of it may have been added.
pub fn push_refusal(text: &mut Vec<u8>, number: u64, name: &str) -> Result<(), AllocError>
    ensures { OnOk result (text.new.items ≡ text.old.items ++ refusal_text number name.now) }
{
    let mut buffer = Buffer::new();
    text.extend_from_slice(b"line ")?;
    text.extend_from_slice(buffer.format(number).as_bytes())?;
    text.extend_from_slice(b": ")?;
    text.extend_from_slice(name.as_bytes())?;
    text.extend_from_slice(b"\n")
}
