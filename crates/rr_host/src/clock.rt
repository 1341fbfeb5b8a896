//! Clocks, which lines ask for the moment at which their points arrive.

ghost use Rattle.std.specs.Prelude.{◌≡◌};

/// A source of moments.
///
/// It is seen as the list of the moments that it gave, if that is known, and as the number of its
/// renewals.
pub trait Clock {
    ghost use Rattle.std.specs.Prelude.{ℕ, ℤ, List, [], ◌∷◌, Option};
    ghost use Rattle.rr_host.specs.Clock.{HasGiven};
    ghost use Rattle.rr_io.specs.Counted.{one_more};

    ghost given: { Self → Option (List ℤ) };

    ghost renewals: { Self → ℕ };

    /// The moment, in nanoseconds since the Unix epoch.
    fn now(&mut self) -> i64
        ensures given { HasGiven (given self.old) (given self.new) (result ∷ []) }
        ensures renewals { renewals self.new ≡ renewals self.old };

    /// Moments asked for from here on come later than those asked for before. Between two of these
    /// calls a clock may give the same moment each time, so that one that is costly to read is read
    /// once. The number of renewals saturates at 64 bits.
    fn renew(&mut self)
        ensures given { given self.new ≡ given self.old }
        ensures renewals { renewals self.new ≡ one_more (renewals self.old) };
}
