//! Numbers at the end of a buffer: those of a record are written back to front, and added at once.

ghost use Rattle.std.specs.Prelude.{◌≡◌, ◌≤◌, ◌+◌, ◌∷◌, length, drop};
ghost use Rattle.std.specs.Fmt.{signed_decimal};
ghost use Rattle.rr_fetch.specs.Digits.{HasNumberRoom, WritesBefore};

use itoa::write_digits;
use rr_text::bytes::MINUS;

/// The most bytes of a number in decimal.
pub const MAX_NUMBER_TEXT: usize = 20;

const _: () = prove!(MAX_NUMBER_TEXT == 20);

/// Writes a byte just before `end`, and returns where it stands.
pub fn write_byte(text: &mut [u8], end: usize, byte: u8) -> usize
    requires room { 1 ≤ end }
    requires within { end ≤ length text.old }
    ensures start { result + 1 ≡ end }
    ensures written { drop result text.new ≡ byte ∷ drop end text.old }
{
    let start = end - 1;
    text[start] = byte;
    start
}

/// Writes a number in decimal just before `end`, and returns where it begins.
pub fn write_number(text: &mut [u8], end: usize, number: i64) -> usize
    requires { HasNumberRoom end text.old }
    ensures { WritesBefore end (signed_decimal number) text.old text.new result }
{
    let start = write_digits(number.unsigned_abs(), text, end);
    if number < 0 {
        return write_byte(text, start, MINUS);
    }
    start
}
