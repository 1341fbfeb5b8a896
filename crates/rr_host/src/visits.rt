//! Where the connections of a listener come from.

use rr_io::Counted;
use std::io::{Read, Write};

/// What comes of waiting for a connection.
pub enum Visit<R, W> {
    /// A connection: its input and its output.
    Stream(Counted<R>, Counted<W>),
    /// It failed.
    Failed,
    /// No more will come.
    Over,
}

/// Gives connections, one after the other, and is handed each of them back.
///
/// It is seen as the list of its calls, if that is known.
pub trait Visits {
    ghost use Rattle.std.specs.Prelude.{[], ◌∷◌, List, Option};
    ghost use Rattle.rr_host.specs.Streams.{stream_of};
    ghost use Rattle.rr_host.specs.Visits.{Call, Differs, HasCalled, TookBack, call_of};

    /// What a connection's bytes come from.
    type Input: Read;

    /// What a connection's answers go to.
    type Output: Write;

    ghost calls: { Self → Option (List Call) };

    /// Waits for the next connection.
    fn next(&mut self) -> Visit<Self::Input, Self::Output>
        ensures { HasCalled (calls self.old) (calls self.new)
            (call_of Self.Input.remaining Self.Output.contents result ∷ []) };

    /// Is told that the peer pulling on the last connection given has another schema, before the
    /// connection is handed back.
    fn schema_differs(&mut self)
        ensures { HasCalled (calls self.old) (calls self.new) (Differs ∷ []) };

    /// Takes back a connection that was given.
    fn take_back(&mut self, input: Counted<Self::Input>, output: Counted<Self::Output>)
        ensures { HasCalled (calls self.old) (calls self.new)
            (TookBack (stream_of Self.Input.remaining Self.Output.contents input output) ∷ []) };
}
