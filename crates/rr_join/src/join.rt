//! Values that can be joined.
ghost use Rattle.std.specs.Prelude.{◌≡◌};

/// Values that can be merged in any order, in any grouping and any number of times, with the same
/// result.
pub trait Join {
    ghost join_of: { Self → Self → Self };

    /// Makes this value the join of itself and another.
    fn join(&mut self, other: &Self)
        ensures { self.new ≡ join_of self.old other.now };

    ghost commutative: { (a b : Self) → join_of a b ≡ join_of b a };

    ghost associative: { (a b c : Self) → join_of (join_of a b) c ≡ join_of a (join_of b c) };

    ghost idempotent: { (a : Self) → join_of a a ≡ a };
}
