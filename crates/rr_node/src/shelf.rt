//! Shelves, to which snapshots are saved.

ghost use Rattle.std.specs.Prelude.{◌≡◌};

use crate::fault::NodeFault;
use crate::report::Report;
use rr_io::Counted;
use rr_snapshot::SaveFault;
use std::io::Write;

/// What a shelf opens for a snapshot.
pub enum Opening<W> {
    /// A writer for it.
    Writer(Counted<W>),
    /// Nothing: no snapshot is wanted.
    Unwanted,
    /// Nothing: its writer can't be opened.
    Failed,
}

/// Takes the snapshots of a node, and is told what its rounds did and what failed.
///
/// It is seen as the list of its calls, if that is known.
pub trait Shelf {
    ghost use Rattle.std.specs.Prelude.{List, [], ◌∷◌, Option};
    ghost use Rattle.rr_host.specs.Calls.{Grows};
    ghost use Rattle.rr_host.specs.Streams.{output_of};
    ghost use Rattle.rr_node.specs.Shelf.{ShelfCall, counts, opened, own_origin, past_horizon, peer_failed, pulled, put_back, save_failed, taken, unopened, unwanted};
    ghost use Rattle.rr_node.specs.declared.shelf.Opening.TheVariants as opening;

    /// Where a snapshot is written.
    type Output: Write;

    ghost calls: { Self → Option (List ShelfCall) };

    /// Is told what became of the lines of a round's connection, before its pulls: the report, if
    /// they were served to the end.
    fn lines_taken(&mut self, report: Option<Report>)
        ensures { Grows (calls self.old) (calls self.new) (taken report ∷ []) };

    /// Is told that a peer, by its number from 1, brought cells of the keeper's own origin that the
    /// keeper never wrote: their versions are at or past its next number. So this origin was used
    /// twice.
    fn own_origin(&mut self, number: usize)
        ensures { Grows (calls self.old) (calls self.new) (own_origin number ∷ []) };

    /// Is told that the pull from a peer failed, by its number from 1.
    fn peer_failed(&mut self, number: usize, fault: NodeFault)
        ensures { Grows (calls self.old) (calls self.new) (peer_failed number fault ∷ []) };

    /// Whether it wants to be told how many cells the node has after this round's pulls, which are
    /// counted series by series for it.
    fn counts_cells(&mut self) -> bool
        ensures { Grows (calls self.old) (calls self.new) (counts result ∷ []) };

    /// Is told that a round's pulls are over, and how many cells the node then has, if it wants
    /// that.
    fn pulls_ended(&mut self, cells: Option<usize>)
        ensures { Grows (calls self.old) (calls self.new) (pulled cells ∷ []) };

    /// Is told how many samples given to the keeper since it began were kept by no archive.
    fn past_horizon(&mut self, samples: u64)
        ensures { Grows (calls self.old) (calls self.new) (past_horizon samples ∷ []) };

    /// Opens a writer for a snapshot, if one is wanted.
    fn open(&mut self) -> Opening<Self::Output>
        ensures opened { (writer : _) → result ≡ opening.Writer writer
            → Grows (calls self.old) (calls self.new)
            (opened (output_of Self.Output.contents writer) ∷ []) }
        ensures unwanted { result ≡ opening.Unwanted
            → Grows (calls self.old) (calls self.new) (unwanted ∷ []) }
        ensures failed { result ≡ opening.Failed
            → Grows (calls self.old) (calls self.new) (unopened ∷ []) };

    /// Takes back the writer of a snapshot, and whether that is written whole.
    fn take_back(&mut self, output: Counted<Self::Output>, whole: bool)
        ensures { Grows (calls self.old) (calls self.new)
            (put_back (output_of Self.Output.contents output) whole ∷ []) };

    /// Is told that a save failed.
    fn save_failed(&mut self, fault: SaveFault)
        ensures { Grows (calls self.old) (calls self.new) (save_failed fault ∷ []) };
}
