//! Items that come while no origin is taken.

ghost use Rattle.std.specs.Prelude.{◌≡◌, ◌↔◌, ◌≢◌, [], IfOk, IsTrue};
ghost use Rattle.rr_batch.specs.Answers.{pending_view};
ghost use Rattle.rr_batch.specs.Taken.{no_lines, piece_put_off, put_off, request_put_off, text_of};
ghost use Rattle.rr_connection.specs.Requests.{request_view};
ghost use Rattle.rr_web.specs.Refusals.{refused_write};

use crate::pending::{Pending, Waiting};
use crate::writer::NONE;
use rr_connection::{Piece, Request};
use rr_line::Precision;
use rr_node::TakenText;
use rr_reactor::{Item, Work};
use rr_web::{put_off_write, refused_write};
use std::alloc::{AllocError, Global};

/// Whether an item may bring a sample: it has bytes.
pub fn brings_lines(work: &Work) -> bool
    ensures { IsTrue result ↔ (text_of work.now ≢ []) }
{
    match work {
        Work::Request(request) => !request.body.is_empty(),
        Work::Piece(piece) => !piece.text.is_empty(),
    }
}

/// What becomes of a request.
fn request_put_off(
    alloc: Global,
    request: &Request,
    precision: Precision,
) -> Result<Pending, AllocError>
    ensures { IfOk result (λ p. pending_view p ≡ request_put_off
        (refused_write precision (request_view request.now)) request.now.body.items) }
{
    if let Some(reply) = refused_write(alloc, request, precision)? {
        return Ok(Pending::Decided(reply));
    }
    if !request.body.is_empty() {
        return Ok(Pending::Decided(put_off_write(alloc)?));
    }
    Ok(Pending::Body(TakenText {
        refusals: Vec::new(alloc),
        report: NONE,
    }))
}

/// What becomes of a piece of a connection.
fn piece_put_off(alloc: Global, piece: &Piece) -> Pending
    ensures { pending_view result ≡ piece_put_off piece.now.is_last piece.now.text.items }
{
    if !piece.text.is_empty() {
        return Pending::Closed;
    }
    let report = if piece.is_last { Some(NONE) } else { None };
    Pending::Lines {
        refusals: Vec::new(alloc),
        report,
    }
}

/// What becomes of an item while no origin is taken.
pub(crate) fn put_off(
    alloc: Global,
    item: &Item,
    precision: Precision,
) -> Result<Waiting, AllocError>
    ensures key { IfOk result (λ w. w.key ≡ item.now.key) }
    ensures pending { IfOk result (λ w. pending_view w.pending ≡ put_off precision item.now.work) }
{
    let pending = match &item.work {
        Work::Request(request) => request_put_off(alloc, request, precision)?,
        Work::Piece(piece) => piece_put_off(alloc, piece),
    };
    Ok(Waiting {
        key: item.key,
        pending,
    })
}
