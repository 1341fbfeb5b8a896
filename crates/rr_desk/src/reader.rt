//! The readers of a desk, which never wait.
ghost use Rattle.std.specs.Prelude.{◌≡◌, IfOk, map};
ghost use Rattle.std.specs.FinMap.{entries};
ghost use mathlib.Core.List.{IsPrefix};
ghost use Rattle.rr_schema.specs.Schema.{IsLayout};
ghost use Rattle.rr_replica.specs.Keys.{keys_after, lent_key};
ghost use Rattle.rr_changes.specs.Changes.{name_in, next_of};
ghost use Rattle.rr_delta.specs.Names.{owned_name};
ghost use Rattle.rr_delta.specs.Difference.{IsSummary, newer_cells};
ghost use Rattle.rr_delta.specs.Listed.{ListsCells};
ghost use Rattle.rr_fetch.specs.Answers.{cells_text};
ghost use Rattle.rr_fetch.specs.Requests.{request_view, IsFetchable};
ghost use Rattle.rr_desk.specs.ReaderState.{cells_seen, AnswersSeen};
ghost use Rattle.rr_desk.specs.Gate.{LetsPass};

use crate::answers::{answer, lacking, listed, walked};
use crate::fault::FetchFault;
use crate::gate::Gate;
use crate::note::Note;
use crate::read_handle::{JoinedHandle, look_for};
use rr_archive::Cells;
use rr_cells::Cell;
use rr_delta::Name;
use rr_fetch::Request;
use rr_key::SeriesKey;
use rr_schema::Schema;
use std::alloc::{AllocError, Global};
use std::marker::Model;

/// A reader of a desk. It answers from what the keeper has published, on any thread, and never
/// waits.
#[derive(Drop)]
pub struct Reader<A: Cells> {
    pub(crate) schema: Schema,
    pub(crate) handle: Option<JoinedHandle<A>>,
}

impl<A: Cells> Model for Reader<A> {
    ghost use Rattle.rr_desk.specs.ReaderState.{ReaderState, IsOfDesk, view_in};

    ghost Value = { ReaderState };

    ghost use Rattle.left_right.specs.Sides.{view as handle_view};

    ghost view = { λ r. record {
      desk = (view_in (λ s. handle_view s.inner.place) r.handle).desk;
      schema = r.schema;
      list = (view_in (λ s. handle_view s.inner.place) r.handle).seen;
    } };

    ghost invariant = { λ r. IsOfDesk (view_in (λ s. handle_view s.inner.place) r.handle) r.schema };
}

/// A gate that is always open.
#[derive(Drop)]
struct Open;

impl Gate for Open {
    ghost use Rattle.std.specs.Prelude.{None};

    ghost calls = { λ _. None };

    fn before(&mut self) -> bool {
        true
    }

    fn after(&mut self) {}
}

impl<A: Cells> Reader<A> {
    /// The schema of all cells.
    pub fn schema(&self) -> &Schema
        ensures value { result.now ≡ self.now.schema }
        ensures within { IsLayout self.now.schema }
    {
        // The proof needs that the schema is within its limits, which `archives` ensures.
        let _archives = self.schema.archives();
        &self.schema
    }

    /// Learns a note of the same desk. What the reader has seen then begins with what the note is
    /// of, and with what it had seen before.
    pub fn learn(&mut self, note: Note) -> Result<(), AllocError>
        requires { note.desk ≡ self.old.desk }
        ensures { AnswersSeen self.old self.new
            (IfOk result (λ _. IsPrefix note.list self.new.list)) }
    {
        let Some(handle) = self.handle.take() else {
            unreachable!();
        };
        let (handle, learned) = look_for(handle, &note.prefix);
        self.handle = Some(handle);
        learned
    }

    /// The answer to a request, as of the operations that the reader has seen when the call
    /// returns. They begin with those it had seen before, even if no answer is made. The cost is
    /// that of [`rr_fetch::answer_text`], here and through a gate.
    pub fn fetch(&mut self, alloc: Global, request: &Request) -> Result<Vec<u8>, AllocError>
        requires { IsFetchable self.old.schema (request_view request.now) }
        ensures { AnswersSeen self.old self.new (IfOk result (λ text. text.items
            ≡ cells_text self.new.schema (cells_seen self.new) (request_view request.now))) }
    {
        let mut gate = Open;
        match self.fetch_through(alloc, request, &mut gate) {
            Ok(text) => Ok(text),
            Err(_) => Err(AllocError),
        }
    }

    /// The same through a gate, which is asked while the copy is held. If `before` is true, the
    /// answer is made and then `after` is called; if it is false, the call is refused as
    /// `GateShut`.
    pub fn fetch_through<G: Gate>(
        &mut self,
        alloc: Global,
        request: &Request,
        gate: &mut G,
    ) -> Result<Vec<u8>, FetchFault>
        requires { IsFetchable self.old.schema (request_view request.now) }
        ensures read { AnswersSeen self.old self.new (IfOk result (λ text. text.items
            ≡ cells_text self.new.schema (cells_seen self.new) (request_view request.now))) }
        ensures gate { LetsPass result (G.calls gate.old) (G.calls gate.new) }
    {
        let Some(handle) = self.handle.take() else {
            unreachable!();
        };
        let (handle, text) = answer(handle, alloc, request, gate);
        self.handle = Some(handle);
        text
    }

    /// The cells whose name a summary lacks, or has with a smaller version, in the order of their
    /// names, as of the operations that the reader has seen when the call returns. The names of the
    /// summary strictly ascend. The cost is that of [`rr_delta::difference`]; the keeper may wait
    /// for it only if keys have fewer than eight cells on average, or memory is short.
    pub fn difference(&mut self, alloc: Global, summary: &[Name]) -> Result<Vec<Cell>, AllocError>
        requires { IsSummary (map owned_name summary.now) }
        ensures { AnswersSeen self.old self.new (ListsCells self.new.schema
            (newer_cells (map owned_name summary.now) (entries (cells_seen self.new))) result) }
    {
        let Some(handle) = self.handle.take() else {
            unreachable!();
        };
        let (handle, cells) = lacking(handle, alloc, summary);
        self.handle = Some(handle);
        cells
    }

    /// The next cells: the first ones after a cell in the order of names, or the first of all; as
    /// many as `limit`, and fewer only if there are no more. They are as of the operations that the
    /// reader has seen when the call returns. So a checkpoint is written call by call, each after
    /// the last cell of the one before, while the keeper goes on: the cost is that of
    /// [`rr_changes::next_cells`], and the keeper may wait only for that.
    pub fn cells_after(
        &mut self,
        alloc: Global,
        after: Option<&Cell>,
        limit: usize,
    ) -> Result<Vec<Cell>, AllocError>
        ensures { AnswersSeen self.old self.new (ListsCells self.new.schema
            (next_of limit (name_in after.entry) (entries (cells_seen self.new))) result) }
    {
        let Some(handle) = self.handle.take() else {
            unreachable!();
        };
        let (handle, cells) = walked(handle, alloc, after, limit);
        self.handle = Some(handle);
        cells
    }

    /// The next `count` keys that have a cell, in order, from the first one after a key on, or from
    /// the first of all; fewer if there are fewer. They are as of the operations that the reader
    /// has seen when the call returns. The cost is that of [`rr_replica::Replica::keys_after`].
    pub fn keys_after(
        &mut self,
        alloc: Global,
        after: Option<&SeriesKey>,
        count: usize,
    ) -> Result<Vec<SeriesKey>, AllocError>
        ensures { AnswersSeen self.old self.new (IfOk result (λ keys. keys.items
            ≡ keys_after (lent_key after.entry) count (entries (cells_seen self.new)))) }
    {
        let Some(handle) = self.handle.take() else {
            unreachable!();
        };
        let (handle, keys) = listed(handle, alloc, after, count);
        self.handle = Some(handle);
        keys
    }
}
