//! The early end of a node.

/// Ends a node early, when memory ran out on one of its threads, or for one of them: the others
/// then no longer wait for a connection, or for a byte of one.
///
/// It is seen as the list of its calls, if that is known.
pub trait Halt {
    ghost use Rattle.std.specs.Prelude.{List, [], ◌∷◌, Option};
    ghost use Rattle.rr_host.specs.Calls.{Grows};
    ghost use Rattle.rr_host.specs.Halt.{HaltCall, Halted};

    ghost calls: { Self → Option (List HaltCall) };

    /// Ends the node.
    fn halt(&mut self)
        ensures { Grows (calls self.old) (calls self.new) (Halted ∷ []) };
}
