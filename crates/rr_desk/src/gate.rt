//! Gates, which a reader asks while it holds its copy.

/// A call of a gate.
#[derive(Clone, Copy, Debug, PartialEq, Eq)]
pub enum GateCall {
    /// It was asked whether an answer may be made, and returned this.
    Before(bool),
    /// It was told that the answer was made.
    After,
}

/// Decides whether an answer is made.
///
/// Contracts see it as the list of its calls, where that is known.
pub trait Gate {
    ghost use Rattle.std.specs.Prelude.{true, List, [], ◌∷◌, Option};
    ghost use Rattle.rr_desk.specs.Gate.{WasAsked, WasAskedLast};
    ghost use Rattle.rr_desk.specs.declared.gate.GateCall.{GateCall};
    ghost use Rattle.rr_desk.specs.declared.gate.GateCall.TheVariants.{After, Before};

    ghost calls: { Self → Option (List GateCall) };

    /// Whether the answer may be made. Called while the reader holds its copy.
    fn before(&mut self) -> bool
        ensures { WasAsked (calls self.old) (calls self.new) (Before result ∷ []) };

    /// Called when the answer was made, which happens only if `before` returned true.
    fn after(&mut self)
        requires { WasAskedLast (calls self.old) (Before true) }
        ensures { WasAsked (calls self.old) (calls self.new) (After ∷ []) };
}
