//! Gates of a node.

use rr_desk::Gate;

/// A gate that is always open. Nothing is known of its calls.
#[derive(Debug, Drop)]
pub struct OpenGate;

impl OpenGate {
    /// A gate that hasn't been asked yet.
    pub fn new() -> OpenGate {
        OpenGate
    }
}

impl Gate for OpenGate {
    ghost use Rattle.std.specs.Prelude.{None};

    ghost calls = { λ _. None };

    fn before(&mut self) -> bool {
        true
    }

    fn after(&mut self) {}
}
