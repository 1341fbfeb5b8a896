//! The unit of a line's time.

ghost use Rattle.std.specs.Prelude.{◌≡◌, pos};
ghost use Rattle.rr_line.specs.Precision.{precision_name, precision_named};
ghost use Rattle.rr_line.specs.Time.{unit};

/// The unit in which a line writes its time, since the Unix epoch.
#[derive(Clone, Copy, Debug, PartialEq, Eq)]
pub enum Precision {
    /// Nanoseconds, the protocol's default.
    Ns,
    /// Microseconds.
    Us,
    /// Milliseconds.
    Ms,
    /// Seconds.
    S,
}

impl Precision {
    /// The precision of a name: `ns`, `us`, `ms` or `s`.
    pub fn named(name: &str) -> Option<Precision>
        ensures { result ≡ precision_named name.now }
    {
        match name {
            "ns" => Some(Precision::Ns),
            "us" => Some(Precision::Us),
            "ms" => Some(Precision::Ms),
            "s" => Some(Precision::S),
            _ => None,
        }
    }

    /// Its name.
    pub fn name(self) -> &'static str
        ensures { result.now ≡ precision_name self }
    {
        match self {
            Precision::Ns => "ns",
            Precision::Us => "us",
            Precision::Ms => "ms",
            Precision::S => "s",
        }
    }

    /// The nanoseconds of one unit.
    pub(crate) fn nanoseconds(self) -> i64
        ensures { result ≡ pos (unit self) }
    {
        match self {
            Precision::Ns => 1,
            Precision::Us => 1_000,
            Precision::Ms => 1_000_000,
            Precision::S => 1_000_000_000,
        }
    }
}
