//! The end of a node.

use rr_host::Halt;

/// A node's end that ends nothing.
#[derive(Drop)]
pub struct NoHalt;

impl Halt for NoHalt {
    ghost use Rattle.std.specs.Prelude.{None};

    ghost calls = { λ _. None };

    fn halt(&mut self) {}
}
