//! The time of the previous line.

ghost use Rattle.std.specs.Prelude.{◌≡◌, Ok};
ghost use Rattle.rr_line.specs.Part.{skip_spaces};
ghost use Rattle.rr_line.specs.Reading.{ending_at};

use crate::precision::Precision;
use crate::time::read_ending;
use arrayvec::ArrayVec;

/// The most bytes kept: a space, a minus and the digits of an `i64`, and some more.
const MAX_KEPT: usize = 24;

/// The time read last, with the bytes that wrote it: a line that ends in the same bytes has the
/// same time, which isn't read again.
///
/// It takes no memory. An ending longer than a time needs is read each time.
#[derive(Debug, Drop)]
pub struct LastTime {
    precision: Precision,
    ending: ArrayVec<u8, MAX_KEPT>,
    time: Option<i64>,
    ghost read: { ending_at precision (skip_spaces ending.items) ≡ Ok time },
}

impl Default for LastTime {
    fn default() -> LastTime {
        LastTime::new()
    }
}

impl LastTime {
    ghost use Rattle.std.specs.Prelude.{IfSome};

    /// Before the first line: no bytes, and no time.
    pub fn new() -> LastTime {
        LastTime {
            precision: Precision::Ns,
            ending: ArrayVec::new(),
            time: None,
        }
    }

    /// The time in what follows a line's fields, if that is a time or nothing.
    pub(crate) fn read(&mut self, precision: Precision, ending: &[u8]) -> Option<Option<i64>>
        ensures { IfSome result (λ time. ending_at precision (skip_spaces ending.now) ≡ Ok time) }
    {
        if self.precision == precision && self.ending.as_slice() == ending {
            return Some(self.time);
        }
        let time = read_ending(precision, ending).ok()?;
        if let Ok(ending) = ArrayVec::try_from(ending) {
            *self = LastTime {
                precision,
                ending,
                time,
            };
        }
        Some(time)
    }
}
