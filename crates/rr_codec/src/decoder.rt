//! Packed cells, one after the other.
ghost use Rattle.std.specs.Prelude.{◌≡◌, ◌≢◌, Err, MatchResult};
ghost use Rattle.rr_codec.specs.Decoding.{TakesNext};
ghost use Rattle.rr_codec.specs.Reading.{cells_left, packed_at};

use crate::decoding::{cell_at, head_at};
use crate::fault::CodecFault;
use crate::recent::Known;
use rr_archive::Entry;
use std::marker::Model;

/// Packed cells, read one after the other without memory. Contracts see it as the cells that are
/// left, or the first fault; what follows the last cell isn't looked at.
#[derive(Drop)]
pub struct Decoder<'a> {
    known: Known,
    left: u32,
    rest: &'a [u8],
}

impl<'a> Model for Decoder<'a> {
    ghost use Rattle.rr_codec.specs.Decoding.{LeftState};
    ghost use Rattle.rr_codec.specs.Reading.{cells_at, cells_left};

    ghost Value = { LeftState };

    ghost view = { λ d. record { cells = cells_left (cells_at d.known d.left d.rest.now) } };
}

impl<'a> Decoder<'a> {
    /// The cells at the beginning of the bytes. The cost is constant.
    pub fn new(bytes: &'a [u8]) -> Result<Decoder<'a>, CodecFault>
        ensures { MatchResult result (λ d. d.cells ≡ cells_left (packed_at bytes.now))
            (λ fault. (packed_at bytes.now ≡ Err fault) × (fault ≢ CodecFault.Memory)) }
    {
        let (left, span, rest) = head_at(bytes)?;
        Ok(Decoder {
            known: Known::new(span),
            left,
            rest,
        })
    }

    /// The next cell with its slot, if one is left. A fault comes again at each further call. The
    /// cost is that of its bytes and of at most 16 origins before it.
    pub fn next(&mut self) -> Result<Option<(i64, Entry)>, CodecFault>
        ensures { TakesNext self.old self.new result }
    {
        if self.left == 0 {
            return Ok(None);
        }
        match cell_at(&mut self.known, self.rest) {
            Ok((cell, rest)) => {
                self.left -= 1;
                self.rest = rest;
                Ok(Some(cell))
            }
            Err(fault) => Err(fault),
        }
    }
}
