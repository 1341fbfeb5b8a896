//! The precision that a write names.

ghost use Rattle.std.specs.Prelude.{◌≡◌};
ghost use Rattle.rr_web.specs.Precision.{is_precision, short_name};

use rr_line::Precision;

/// The name of a precision in InfluxDB's first version.
fn short_name(precision: Precision) -> &'static [u8]
    ensures { result.now ≡ short_name precision }
{
    match precision {
        Precision::Ns => b"n",
        Precision::Us => b"u",
        Precision::Ms => b"ms",
        Precision::S => b"s",
    }
}

/// Whether a text names this precision, as writes over HTTP name one: `n` or `ns`, `u` or `us`,
/// `ms`, `s`.
pub(crate) fn is_precision(text: &[u8], precision: Precision) -> bool
    ensures { result ≡ is_precision text.now precision }
{
    text == precision.name().as_bytes() || text == short_name(precision)
}
