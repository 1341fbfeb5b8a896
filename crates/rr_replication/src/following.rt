//! How a node follows the journal of a peer.

ghost use Rattle.std.specs.Prelude.{◌≡◌, ◌==◌, ◌||◌, [], true, nat_eq, All, Err, IfOk, IfSome, None, OnErr, OnOk, Some};
ghost use Rattle.std.specs.Cmp.Lexicographic.{pointwise};
ghost use Rattle.std.specs.List.{find};
ghost use Rattle.rr_cells.specs.CellBounds.{IsCellOf};
ghost use Rattle.rr_cells.specs.Listing.{owned_cell};
ghost use Rattle.rr_replication.specs.Following.{IsReadUpTo, ReadsOn};
ghost use Rattle.rr_replication.specs.Reading.{peer_state};

use crate::answer::PeerAnswer;
use crate::fault::PartFault;
use crate::pace::Reached;
use crate::peer_fault::{PeerFault, header_fault, status_fault};
use crate::position::{Position, greeting_target};
use crate::records::read_part;
use crate::tally::{Tally, read_tallied};
use rr_cells::Cell;
use rr_io::Counted;
use rr_journal::{Cursor, ID_LEN, header_from, header_len};
use rr_recovery::put_cursor;
use rr_schema::Schema;
use std::alloc::{AllocError, Global};

/// What came of an answer.
#[derive(Clone, Copy, Debug, PartialEq, Eq)]
pub enum Next {
    /// There is more: the peer is to be asked again at once. Cells may have come.
    More {
        /// How far the peer's journal is read once what came is joined: worth a record if cells
        /// came. None while a checkpoint is read.
        read: Option<Cursor>,
    },
    /// There is nothing new.
    UpToDate,
}

/// How far a node has read the store of a peer: its journal, after its newest checkpoint if need
/// be.
#[derive(Drop)]
pub struct Following {
    alloc: Global,
    /// How far the journals of peers were read before, by their ids.
    known: Vec<Cursor>,
    /// Where the node is, once the peer has been greeted.
    position: Option<Position>,
    /// The id of the peer's journal, as last told.
    id: [u8; ID_LEN],
    /// Whether the peer was greeted over this connection.
    is_greeted: bool,
    /// Whether a checkpoint was begun, and the journal hasn't been continued since.
    is_beginning: bool,
}

/// Reads a part from a place on.
fn read_on(
    alloc: Global,
    bytes: &[u8],
    place: Cursor,
    schema: &Schema,
    cells: &mut Vec<Cell>,
) -> Result<Cursor, PartFault>
    ensures read { ReadsOn schema.now (peer_state place cells.old.items) cells.new.items bytes.now
        result }
    ensures of_schema { OnOk result (All (λ c. IsCellOf schema.now (owned_cell c)) cells.old.items
        → All (λ c. IsCellOf schema.now (owned_cell c)) cells.new.items) }
    ensures refused { OnErr result (cells.new.items ≡ cells.old.items) }
{
    let mut end = place;
    read_part(alloc, bytes, &mut end, schema, cells)?;
    Ok(end)
}

/// The first of these cursors that is of the journal with this id.
fn cursor_of(cursors: &[Cursor], id: [u8; ID_LEN]) -> Option<Cursor>
    ensures { result ≡ find (λ c. pointwise nat_eq c.id id) cursors.now }
{
    cursors.iter().find(|cursor| cursor.id == id).copied()
}

impl Following {
    ghost use Rattle.rr_replication.specs.declared.position.Position.TheVariants.{Journal, Newest};
    ghost use Rattle.rr_replication.specs.declared.following.Next.TheVariants.{More};
    ghost use Rattle.rr_replication.specs.declared.peer_fault.PeerFault.TheVariants.{BadAnswer, Gone};
    ghost use Rattle.rr_replication.specs.Following.{GreetsAnew, IsAtEnd, IsBegun, IsGone, IsGreeted, IsNew, IsReadOn, after_journal, asked_checkpoint, asked_place, asked_position, asked_target, asks_newest, beginning_after, is_in_checkpoint, known_place, places_of, reached_by};

    /// Follows a peer from where the journal with its id was read up to, if that is among `known`,
    /// else from the beginning.
    pub fn new(alloc: Global, known: Vec<Cursor>) -> Following
        ensures { IsNew result known.items }
    {
        Following {
            alloc,
            known,
            position: None,
            id: [0; ID_LEN],
            is_greeted: false,
            is_beginning: false,
        }
    }

    /// Notes that a new connection is begun, over which the peer is to be greeted first.
    pub fn reconnect(&mut self)
        ensures { GreetsAnew self.old self.new }
    {
        self.is_greeted = false;
    }

    /// Whether a checkpoint is being read.
    pub fn is_in_checkpoint(&self) -> bool
        ensures { result ≡ is_in_checkpoint self.now.position }
    {
        matches!(
            self.position,
            Some(Position::Newest) | Some(Position::Checkpoint { .. })
        )
    }

    /// Where the node is in the store of the peer, once that was greeted.
    pub fn reached(&self) -> Option<Reached>
        ensures { result ≡ reached_by self.now.position }
    {
        match self.position {
            None => None,
            Some(Position::Journal(place)) => Some(Reached::Journal(place.offset)),
            Some(Position::Newest) => Some(Reached::Checkpoint(0)),
            Some(Position::Checkpoint { place, .. }) => Some(Reached::Checkpoint(place.offset)),
        }
    }

    /// What the next request asks for.
    pub fn target(&self, schema: &Schema) -> Result<Vec<u8>, AllocError>
        ensures { IfOk result (λ text. text.items ≡ asked_target schema.now self.now) }
    {
        match &self.position {
            Some(position) if self.is_greeted => position.target(self.alloc, schema),
            _ => greeting_target(self.alloc, schema),
        }
    }

    /// Where the journal with this id was read up to, or where it begins.
    fn known_place(&self, id: [u8; ID_LEN]) -> Cursor
        ensures { result ≡ known_place self.now.known.items id }
    {
        match cursor_of(&self.known, id) {
            Some(known) => known,
            None => Cursor::start(id),
        }
    }

    /// Replaces what was known of the journal that the node is in by how far it is read.
    fn keep_place(&mut self) -> Result<(), AllocError>
        ensures known { OnOk result (self.new.known.items ≡ places_of self.old) }
        ensures position { self.new.position ≡ self.old.position }
        ensures id { self.new.id ≡ self.old.id }
        ensures beginning { self.new.is_beginning ≡ self.old.is_beginning }
    {
        let Some(Position::Journal(place)) = self.position else {
            return Ok(());
        };
        put_cursor(&mut self.known, place)
    }

    /// Takes the answer to a greeting: where the peer's journal is. A journal other than before is
    /// continued from where it was read up to.
    fn take_greeting(&mut self, answer: &PeerAnswer) -> Result<Next, PeerFault>
        ensures greeted { IfOk result (IsGreeted self.old answer.now self.new) }
        ensures beginning { self.new.is_beginning ≡ self.old.is_beginning }
    {
        if answer.status != 204 {
            return Err(status_fault(answer.status));
        }
        let Some(id) = answer.id else {
            return Err(PeerFault::BadAnswer);
        };
        if self.position.is_none() || self.id != id {
            self.keep_place()?;
            self.position = Some(Position::Journal(self.known_place(id)));
            self.id = id;
        }
        self.is_greeted = true;
        Ok(Next::More { read: None })
    }

    /// Begins with the newest checkpoint, since the peer no longer has the bytes that were asked
    /// for. A peer for which this recurs isn't followed at once.
    fn begin_again(&mut self) -> Result<Next, PeerFault>
        ensures next { IfOk result (λ next. next ≡ More None) }
        ensures position { self.new.position ≡ Some Newest }
        ensures peer { self.new.id ≡ self.old.id }
        ensures beginning { IfOk result (λ next. self.new.is_beginning ≡ true) }
        ensures recurs { self.old.is_beginning ≡ true → result ≡ Err Gone }
    {
        self.position = Some(Position::Newest);
        if self.is_beginning {
            self.is_beginning = false;
            return Err(PeerFault::Gone);
        }
        self.is_beginning = true;
        Ok(Next::More { read: None })
    }

    /// Takes an answer to a request for the journal. A part that doesn't continue from here is of
    /// another history, whose newest checkpoint is asked for next.
    fn take_journal(
        &mut self,
        place: Cursor,
        answer: &PeerAnswer,
        schema: &Schema,
        cells: &mut Vec<Cell>,
    ) -> Result<Next, PeerFault>
        requires { self.old.position ≡ Some (Journal place) }
        ensures read { IfOk result (IsReadUpTo schema.now place cells.old.items answer.now.body.items
            cells.new.items) }
        ensures position { IfOk result (λ next. self.new.position ≡ Some (after_journal place next)) }
        ensures peer { self.new.id ≡ self.old.id }
        ensures beginning { IfOk result (λ next. self.new.is_beginning ≡ (answer.now.status == 410)) }
        ensures recurs { self.old.is_beginning ≡ true → answer.now.status ≡ 410 → result ≡ Err Gone }
        ensures of_schema { OnOk result (All (λ c. IsCellOf schema.now (owned_cell c)) cells.old.items
            → All (λ c. IsCellOf schema.now (owned_cell c)) cells.new.items) }
        ensures refused { OnErr result (cells.new.items ≡ cells.old.items) }
    {
        match answer.status {
            200 => {}
            204 => {
                self.is_beginning = false;
                return Ok(Next::UpToDate);
            }
            410 => return self.begin_again(),
            status => return Err(status_fault(status)),
        }
        match read_on(self.alloc, &answer.body, place, schema, cells) {
            Ok(end) => {
                self.is_beginning = false;
                self.position = Some(Position::Journal(end));
                Ok(Next::More { read: Some(end) })
            }
            Err(PartFault::Memory) => Err(PeerFault::Memory),
            Err(fault) => {
                self.position = Some(Position::Newest);
                Err(PeerFault::Part(fault))
            }
        }
    }

    /// Takes the beginning of the newest checkpoint.
    fn take_newest(
        &mut self,
        answer: &PeerAnswer,
        schema: &Schema,
        cells: &mut Vec<Cell>,
    ) -> Result<Next, PeerFault>
        ensures begun { IfOk result (IsBegun schema.now self.old.id cells.old.items
            answer.now.body.items cells.new.items self.new.position) }
        ensures peer { self.new.id ≡ self.old.id }
        ensures beginning { self.new.is_beginning ≡ self.old.is_beginning }
        ensures of_schema { OnOk result (All (λ c. IsCellOf schema.now (owned_cell c)) cells.old.items
            → All (λ c. IsCellOf schema.now (owned_cell c)) cells.new.items) }
        ensures refused { OnErr result (cells.new.items ≡ cells.old.items) }
    {
        match answer.status {
            200 => {}
            410 => {
                // There is no checkpoint, so the journal may be there from its beginning.
                self.position = Some(Position::Journal(Cursor::start(self.id)));
                return Err(PeerFault::Gone);
            }
            status => return Err(status_fault(status)),
        }
        let mut input = Counted::new(answer.body.as_slice());
        let begins = match header_from(self.alloc, &mut input, schema) {
            Ok(begins) => begins,
            Err(fault) => return Err(header_fault(fault)),
        };
        if begins.id != self.id {
            return Err(PeerFault::BadAnswer);
        }
        let records = &answer.body[header_len(schema).min(answer.body.len())..];
        let before = Tally::new();
        let (place, tally) = read_tallied(self.alloc, records, begins, before, schema, cells)?;
        self.position = Some(Position::Checkpoint {
            begins,
            place,
            tally,
        });
        Ok(Next::More { read: None })
    }

    /// Takes an answer to a request for a checkpoint, after which the journal is continued if all of
    /// it was read.
    fn take_checkpoint(
        &mut self,
        begins: Cursor,
        place: Cursor,
        tally: Tally,
        answer: &PeerAnswer,
        schema: &Schema,
        cells: &mut Vec<Cell>,
    ) -> Result<Next, PeerFault>
        ensures part { answer.now.status ≡ 200 → IfOk result (IsReadOn schema.now
            (begins, place, tally) cells.old.items answer.now.body.items cells.new.items self.new.position) }
        ensures end { answer.now.status ≡ 204 → IsAtEnd (begins, place, tally) cells.old.items
            cells.new.items self.new.position result }
        ensures peer { self.new.id ≡ self.old.id }
        ensures beginning { IfOk result (λ next. self.new.is_beginning
            ≡ (self.old.is_beginning || answer.now.status == 410)) }
        ensures recurs { self.old.is_beginning ≡ true → answer.now.status ≡ 410 → result ≡ Err Gone }
        ensures of_schema { OnOk result (All (λ c. IsCellOf schema.now (owned_cell c)) cells.old.items
            → All (λ c. IsCellOf schema.now (owned_cell c)) cells.new.items) }
        ensures refused { OnErr result (cells.new.items ≡ cells.old.items) }
    {
        match answer.status {
            200 => {}
            204 if tally.is_whole() => {
                self.position = Some(Position::Journal(begins));
                return Ok(Next::More { read: Some(begins) });
            }
            204 => {
                self.position = Some(Position::Newest);
                return Err(PeerFault::NotWhole);
            }
            410 => return self.begin_again(),
            status => return Err(status_fault(status)),
        }
        match read_tallied(self.alloc, &answer.body, place, tally, schema, cells) {
            Ok((place, tally)) => {
                self.position = Some(Position::Checkpoint {
                    begins,
                    place,
                    tally,
                });
                Ok(Next::More { read: None })
            }
            Err(fault) => {
                self.position = Some(Position::Newest);
                Err(PeerFault::Part(fault))
            }
        }
    }

    /// Takes the answer to the last request, which [`Following::target`] gave, and appends its
    /// cells to `cells`. If bytes of the journal were asked for, they are those of a part that was
    /// given from its place on, as [`read_part`] reads one. So are those of a checkpoint, from
    /// where it begins on, after the header of its file; once all of it was read, the journal is
    /// continued from there.
    ///
    /// Refused as `SchemaDiffers` by the peer; as `Gone` if it has neither the journal from here on
    /// nor a checkpoint, or loses what is asked for again after a checkpoint was begun and before
    /// the journal was continued; as `NotWhole` if a checkpoint's last record isn't its end, or states
    /// another number of cells than came; as [`PartFault`] says if its bytes don't continue from here
    /// or mean nothing; as `BadAnswer` if no node answers so, as with 200 and no byte; and as
    /// `Memory`. After `NotWhole` or a `PartFault` the newest checkpoint is asked for next. After a
    /// refusal no cells are added.
    pub fn take(
        &mut self,
        answer: &PeerAnswer,
        schema: &Schema,
        cells: &mut Vec<Cell>,
    ) -> Result<Next, PeerFault>
        ensures read { IfSome (asked_place self.old) (λ place. IfOk result (IsReadUpTo schema.now
            place cells.old.items answer.now.body.items cells.new.items)) }
        ensures journal { IfSome (asked_place self.old) (λ place. IfOk result (λ next.
            self.new.position ≡ Some (after_journal place next))) }
        ensures newest { asks_newest self.old ≡ true → IfOk result (IsBegun schema.now self.old.id
            cells.old.items answer.now.body.items cells.new.items self.new.position) }
        ensures part { IfSome (asked_checkpoint self.old) (λ at. answer.now.status ≡ 200
            → IfOk result (IsReadOn schema.now at cells.old.items answer.now.body.items cells.new.items
            self.new.position)) }
        ensures end { IfSome (asked_checkpoint self.old) (λ at. answer.now.status ≡ 204
            → IsAtEnd at cells.old.items cells.new.items self.new.position result) }
        ensures greeting { asked_position self.old ≡ None → IfOk result (IsGreeted self.old answer.now
            self.new) }
        ensures peer { IfSome (asked_position self.old) (λ position. self.new.id ≡ self.old.id) }
        ensures beginning { IfOk result (λ next. self.new.is_beginning
            ≡ beginning_after self.old answer.now) }
        ensures recurs { self.old.is_beginning ≡ true → IsGone self.old answer.now
            → result ≡ Err Gone }
        ensures of_schema { OnOk result (All (λ c. IsCellOf schema.now (owned_cell c)) cells.old.items
            → All (λ c. IsCellOf schema.now (owned_cell c)) cells.new.items) }
        ensures refused { OnErr result (cells.new.items ≡ cells.old.items) }
        ensures empty { answer.now.status ≡ 200 → answer.now.body.items ≡ [] → result ≡ Err BadAnswer }
    {
        if answer.status == 200 && answer.body.is_empty() {
            return Err(PeerFault::BadAnswer);
        }
        match self.position {
            Some(position) if self.is_greeted => match position {
                Position::Journal(place) => self.take_journal(place, answer, schema, cells),
                Position::Newest => self.take_newest(answer, schema, cells),
                Position::Checkpoint {
                    begins,
                    place,
                    tally,
                } => self.take_checkpoint(begins, place, tally, answer, schema, cells),
            },
            _ => self.take_greeting(answer),
        }
    }
}
