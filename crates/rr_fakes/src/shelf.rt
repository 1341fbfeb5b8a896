//! A shelf in memory.

ghost use Rattle.std.specs.Prelude.{◌≡◌, ◌+◌, Some, [], IfOk, map, option_map};
ghost use Rattle.rr_fakes.specs.Shelf.{noted_call, opening_call, Notes};

use crate::log::CallLog;
use rr_io::Counted;
use rr_node::{NodeFault, Opening, Report, Shelf};
use rr_snapshot::SaveFault;
use std::alloc::{AllocError, Global};
use std::marker::Model;

/// What a prepared shelf opens for a snapshot.
#[derive(Clone, Copy, PartialEq, Eq)]
pub enum PreparedOpening {
    /// A writer to memory.
    Writer,
    /// Nothing, as no snapshot is wanted.
    Unwanted,
    /// Nothing, as a writer can't be opened.
    Failed,
}

/// A call of a prepared shelf.
#[derive(Drop)]
pub enum ShelfNote {
    /// It was told the report of a connection, or that there is none.
    LinesTaken(Option<Report>),
    /// It was told that the peer with this number has cells of the keeper's origin.
    OwnOrigin(usize),
    /// It was told that the pull of the peer with this number failed.
    PeerFailed(usize, NodeFault),
    /// It was told how many samples no archive kept.
    PastHorizon(u64),
    /// It said whether it wants the number of cells.
    CountsCells(bool),
    /// It was told that the pulls are over, and how many cells there are, if it wants that.
    PullsEnded(Option<usize>),
    /// It was asked for a writer, and opened this.
    Opened(PreparedOpening),
    /// A writer was handed back, with a whole snapshot or not.
    TookBack(Counted<Vec<u8>>, bool),
    /// It was told that a save failed.
    SaveFailed(SaveFault),
}

/// Keeps snapshots in memory: for each save it opens what is prepared, and once all of that is used
/// it wants none. It always wants the number of cells.
///
/// Its calls are known as long as there is memory to note them; [`PreparedShelf::new`] makes room
/// for some.
#[derive(Drop)]
pub struct PreparedShelf<'a> {
    alloc: Global,
    openings: &'a [PreparedOpening],
    /// Which of them comes next.
    place: usize,
    log: CallLog<ShelfNote>,
}

impl<'a> Model for PreparedShelf<'a> {
    ghost use Rattle.rr_fakes.specs.Log.{map_log};
    ghost use Rattle.rr_fakes.specs.Shelf.{ShelfState, noted_call};

    ghost Value = { ShelfState };

    ghost view = { λ s. record {
      openings = s.openings.now;
      place = s.place;
      log = map_log noted_call s.log;
    } };
}

impl<'a> PreparedShelf<'a> {
    /// A shelf that opens these in order, with room for this many calls.
    pub fn new(
        alloc: Global,
        openings: &'a [PreparedOpening],
        room: usize,
    ) -> Result<PreparedShelf<'a>, AllocError>
        ensures { IfOk result (λ s. s ≡ record {
          openings = openings.now;
          place = 0;
          log = record { calls = Some []; room = room };
        }) }
    {
        Ok(PreparedShelf {
            alloc,
            openings,
            place: 0,
            log: CallLog::new(alloc, room)?,
        })
    }

    /// Its calls in order, if all are known.
    pub fn calls(&self) -> Option<&[ShelfNote]>
        ensures { option_map (λ notes. map noted_call notes.now) result ≡ self.now.log.calls }
    {
        self.log.calls()
    }

    /// The snapshot that was handed back last, if that was the last call and it is whole.
    pub fn into_last(self) -> Option<Vec<u8>> {
        match self.log.into_last()? {
            ShelfNote::TookBack(output, true) => Some(output.into_inner()),
            _ => None,
        }
    }

    /// Notes a call.
    fn note(&mut self, call: ShelfNote)
        ensures { Notes (noted_call call) self.old self.new }
    {
        self.log.note(call);
    }
}

impl<'a> Shelf for PreparedShelf<'a> {
    ghost use Rattle.std.specs.Prelude.{◌≡◌, ◌+◌, [], ◌∷◌, true, Some};
    ghost use Rattle.rr_host.specs.Calls.{Grows};
    ghost use Rattle.rr_fakes.specs.Log.{HasNoted};
    ghost use Rattle.rr_host.specs.Streams.{output_of};
    ghost use Rattle.rr_node.specs.Shelf.{counts, opened, own_origin, past_horizon, peer_failed, pulled, put_back, save_failed, taken, unopened, unwanted};
    ghost use Rattle.rr_fakes.specs.Shelf.{next_call, next_place, opening_call, Notes};
    ghost use Rattle.rr_node.specs.declared.shelf.Opening.TheVariants as opening;

    type Output = Vec<u8>;

    ghost calls = { λ s. s.log.calls };

    fn lines_taken(&mut self, report: Option<Report>)
        ensures { Notes (taken report) self.old self.new }
    {
        self.note(ShelfNote::LinesTaken(report));
    }

    fn own_origin(&mut self, number: usize)
        ensures { Notes (own_origin number) self.old self.new }
    {
        self.note(ShelfNote::OwnOrigin(number));
    }

    fn peer_failed(&mut self, number: usize, fault: NodeFault)
        ensures { Notes (peer_failed number fault) self.old self.new }
    {
        self.note(ShelfNote::PeerFailed(number, fault));
    }

    fn past_horizon(&mut self, samples: u64)
        ensures { Notes (past_horizon samples) self.old self.new }
    {
        self.note(ShelfNote::PastHorizon(samples));
    }

    fn counts_cells(&mut self) -> bool
        ensures wanted { result ≡ true }
        ensures noted { Notes (counts result) self.old self.new }
    {
        self.note(ShelfNote::CountsCells(true));
        true
    }

    fn pulls_ended(&mut self, cells: Option<usize>)
        ensures { Notes (pulled cells) self.old self.new }
    {
        self.note(ShelfNote::PullsEnded(cells));
    }

    fn open(&mut self) -> Opening<Vec<u8>>
        ensures opened { (writer : _) → result ≡ opening.Writer writer
            → Grows self.old.log.calls self.new.log.calls
            (opened (output_of (λ w. Some w.items) writer) ∷ []) }
        ensures unwanted { result ≡ opening.Unwanted
            → Grows self.old.log.calls self.new.log.calls (unwanted ∷ []) }
        ensures failed { result ≡ opening.Failed
            → Grows self.old.log.calls self.new.log.calls (unopened ∷ []) }
        ensures given { opening_call (output_of (λ w. Some w.items)) result ≡ next_call self.old }
        ensures noted { HasNoted (next_call self.old) self.old.log self.new.log }
        ensures openings { self.new.openings ≡ self.old.openings }
        ensures place { self.new.place ≡ next_place self.old }
    {
        let Some(opening) = self.openings.get(self.place).copied() else {
            self.note(ShelfNote::Opened(PreparedOpening::Unwanted));
            return Opening::Unwanted;
        };
        self.place += 1;
        self.note(ShelfNote::Opened(opening));
        match opening {
            PreparedOpening::Writer => Opening::Writer(Counted::new(Vec::new(self.alloc))),
            PreparedOpening::Unwanted => Opening::Unwanted,
            PreparedOpening::Failed => Opening::Failed,
        }
    }

    fn take_back(&mut self, output: Counted<Vec<u8>>, whole: bool)
        ensures { Notes (put_back (output_of (λ w. Some w.items) output) whole) self.old self.new }
    {
        self.note(ShelfNote::TookBack(output, whole));
    }

    fn save_failed(&mut self, fault: SaveFault)
        ensures { Notes (save_failed fault) self.old self.new }
    {
        self.note(ShelfNote::SaveFailed(fault));
    }
}
