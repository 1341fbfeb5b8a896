//! Dials, by which peers are reached.

ghost use Rattle.std.specs.Prelude.{◌≡◌, IfSome, None, false, true};
ghost use Rattle.rr_host.specs.Faults.{is_without_fault};

use rr_io::Counted;
use std::io::{Read, Write};

/// A way to reach peers by their addresses.
///
/// It is seen as the list of its calls, if that is known.
pub trait Dial {
    ghost use Rattle.std.specs.Prelude.{List, [], ◌∷◌, Option};
    ghost use Rattle.rr_host.specs.Calls.{DialCall, Grows, due, handed_back, passed_over, reached, unreached};
    ghost use Rattle.rr_host.specs.Streams.{stream_of};

    /// What peers send.
    type Input: Read;

    /// What is sent to peers.
    type Output: Write;

    ghost calls: { Self → Option (List DialCall) };

    /// Whether the peer at an address is to be called now; if not, it is passed over.
    fn is_due(&mut self, address: &str) -> bool
        ensures due { result ≡ true → Grows (calls self.old) (calls self.new)
            (due address.now ∷ []) }
        ensures passed { result ≡ false → Grows (calls self.old) (calls self.new)
            (passed_over address.now ∷ []) };

    /// A stream to the peer at an address; none if it can't be reached.
    fn open(&mut self, address: &str) -> Option<(Counted<Self::Input>, Counted<Self::Output>)>
        ensures reached { IfSome result (λ s. Grows (calls self.old) (calls self.new)
            (reached address.now (stream_of Self.Input.remaining Self.Output.contents s.0 s.1) ∷
            [])) }
        ensures unreached { result ≡ None → Grows (calls self.old) (calls self.new)
            (unreached address.now ∷ []) };

    /// Takes back a stream that is done with.
    fn take_back(&mut self, input: Counted<Self::Input>, output: Counted<Self::Output>)
        ensures { Grows (calls self.old) (calls self.new)
            (handed_back (stream_of Self.Input.remaining Self.Output.contents input output) ∷ []) };
}

/// Whether a peer did nothing wrong, by the counts of its streams: no call failed, and it didn't
/// end the input before that was handed back.
pub fn is_without_fault<R, W>(input: &Counted<R>, output: &Counted<W>) -> bool
    ensures { result ≡ is_without_fault input.now output.now }
{
    input.failures() == 0 && input.ends() == 0 && output.failures() == 0
}
