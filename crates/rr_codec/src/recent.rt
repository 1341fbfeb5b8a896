//! What is known before a cell.
ghost use Rattle.std.specs.Prelude.{◌≡◌, IfSome, Ok};
ghost use Rattle.std.specs.List.{position_from};
ghost use Rattle.rr_codec.specs.Fault.{Finds};
ghost use Rattle.rr_codec.specs.Recent.{before_at, fields_at, is_of, known_after, known_fields, known_fields_at, known_steps, nothing_known, others, place_of};
ghost use Rattle.rr_codec.specs.Regular.{all_steps, IsLast};

use crate::expecting::Before;
use crate::fault::CodecFault;
use crate::fields::Fields;
use crate::regular::{RegularSteps, regular_at};
use crate::step::{step_from, step_to};
use crate::steps::{Steps, steps_at};
use arrayvec::ArrayVec;
use std::marker::Model;

/// The number of origins whose last cell is known.
const MAX_ORIGINS: usize = 16;

const _: () = prove!(MAX_ORIGINS == 16);

/// The last cells of the origins seen last, the latest first.
type Recent = ArrayVec<Before, MAX_ORIGINS>;

/// What is known before a cell.
#[derive(Drop)]
pub(crate) struct Known {
    /// The nanoseconds of a row.
    span: u128,
    recent: Recent,
    /// Where in the list the origin of the previous cell was.
    place: usize,
}

impl Model for Known {
    ghost use Rattle.std.specs.Prelude.{◌≤◌, length};
    ghost use Rattle.rr_codec.specs.Recent.{KnownState};

    ghost Value = { KnownState };

    ghost view = { λ k. record { span = k.span; recent = k.recent.items; place = k.place } };

    ghost invariant = { λ k. length k.recent.items ≤ 16 };
}

/// Where an origin is among those seen last, if it is there.
fn found(recent: &[Before], origin: u128) -> Option<usize>
    ensures { result ≡ position_from (is_of origin) 0 recent.now }
{
    recent
        .iter()
        .position(|before| before.cell.origin == origin)
}

/// Where an origin is among those seen last; past the end, if it isn't there.
fn place_of(recent: &[Before], origin: u128) -> usize
    ensures { result ≡ place_of recent.now origin }
{
    found(recent, origin).unwrap_or(recent.len())
}

/// What a cell of the origin at a place is expected from.
fn before_at(recent: &[Before], place: usize) -> Before
    ensures { result ≡ before_at recent.now place }
{
    match recent.get(place) {
        Some(before) => *before,
        None => Before::start(),
    }
}

/// Removes what is at a place or, if nothing is, the last if the list is full.
fn take_out(recent: &mut Recent, place: usize)
    ensures { recent.new.items ≡ others recent.old.items place }
{
    if place < recent.len() {
        recent.remove(place);
    } else if recent.is_full() {
        recent.pop();
    }
}

/// The steps to the fields of the first cell, in rows of `span` nanoseconds.
#[tactic(auto, unfolding(crate::specs::Recent::known_steps))]
pub(crate) fn first_steps(span: u128, cell: &Fields) -> Steps
    ensures { result ≡ known_steps (nothing_known span) cell.now }
{
    Steps {
        place: step_to(0, 0),
        fields: Before::start().steps_to(span, cell),
    }
}

impl Known {
    /// What is known before the first cell, in rows of `span` nanoseconds.
    pub(crate) fn new(span: u128) -> Known
        ensures { result ≡ nothing_known span }
    {
        Known {
            span,
            recent: ArrayVec::new(),
            place: 0,
        }
    }

    /// The steps to the fields of a cell.
    #[tactic(auto, unfolding(crate::specs::Recent::known_steps))]
    pub(crate) fn steps_to(&self, cell: &Fields) -> Steps
        ensures { result ≡ known_steps self.now cell.now }
    {
        let place = place_of(&self.recent, cell.origin);
        let fields = match self.recent.get(place) {
            Some(before) => before.steps_to(self.span, cell),
            None => Before::start().steps_to(self.span, cell),
        };
        Steps {
            place: step_to(self.place as u128, place as u128),
            fields,
        }
    }

    /// What the next cell is expected from, if it is expected to be of the last one's origin.
    fn regular(&self) -> Option<&Before>
        ensures { IfSome result (λ before. IsLast self.now before.now) }
    {
        if self.place != 0 {
            return None;
        }
        self.recent.first()
    }

    /// The steps to a regular cell; none to any other.
    #[inline(always)]
    pub(crate) fn regular_steps_to(&self, cell: &Fields) -> Option<RegularSteps>
        ensures { IfSome result (λ steps. known_steps self.now cell.now ≡ all_steps steps) }
    {
        let before = self.regular()?;
        let steps = before.regular_steps_to(self.span, cell)?;
        Some(steps)
    }

    /// The fields of a regular cell, and what follows it; none for any other, or at a fault.
    #[inline(always)]
    fn regular_fields_at<'a>(&self, bytes: &'a [u8]) -> Option<(Fields, &'a [u8])>
        ensures { IfSome result (λ x. known_fields_at self.now bytes.now ≡ Ok (x.0, x.1.now)) }
    {
        let before = self.regular()?;
        let (steps, rest) = regular_at(bytes)?;
        Some((before.fields_from(self.span, &steps.fields()), rest))
    }

    /// The fields of a cell, and what follows it, from all that is known.
    #[tactic(auto, unfolding(crate::specs::Recent::known_fields_at))]
    fn any_fields_at<'a>(&self, bytes: &'a [u8]) -> Result<(Fields, &'a [u8]), CodecFault>
        ensures { Finds (λ x. (x.0, x.1.now)) result (known_fields_at self.now bytes.now) }
    {
        let (steps, rest) = steps_at(bytes)?;
        let fields = self.fields_from(&steps)?;
        Ok((fields, rest))
    }

    /// The fields of a cell, and what follows it.
    #[inline(always)]
    pub(crate) fn fields_at<'a>(&self, bytes: &'a [u8]) -> Result<(Fields, &'a [u8]), CodecFault>
        ensures { Finds (λ x. (x.0, x.1.now)) result (known_fields_at self.now bytes.now) }
    {
        match self.regular_fields_at(bytes) {
            Some(found) => Ok(found),
            None => self.any_fields_at(bytes),
        }
    }

    /// The fields that steps lead to from what is expected at a place, which must be that of their
    /// origin.
    fn fields_from_place(&self, place: usize, steps: &Fields) -> Result<Fields, CodecFault>
        ensures { Finds (λ f. f) result (fields_at self.now place steps.now) }
    {
        let cell = before_at(&self.recent, place).fields_from(self.span, steps);
        if place_of(&self.recent, cell.origin) != place {
            return Err(CodecFault::BadNumber);
        }
        Ok(cell)
    }

    /// The fields that steps lead to.
    #[tactic(auto, unfolding(crate::specs::Recent::known_fields))]
    fn fields_from(&self, steps: &Steps) -> Result<Fields, CodecFault>
        ensures { Finds (λ f. f) result (known_fields self.now steps.now) }
    {
        match usize::try_from(step_from(self.place as u128, steps.place)) {
            Ok(place) => self.fields_from_place(place, &steps.fields),
            // No origin is that far back.
            Err(_) => Err(CodecFault::BadNumber),
        }
    }

    /// Adds a cell of a different origin than the one before it.
    #[tactic(auto, unfolding(crate::specs::Recent::known_after))]
    fn add_other(&mut self, cell: &Fields)
        ensures { self.new ≡ known_after self.old cell.now }
    {
        let place = place_of(&self.recent, cell.origin);
        let next = before_at(&self.recent, place).after(cell);
        take_out(&mut self.recent, place);
        self.recent.insert(0, next);
        self.place = place;
    }

    /// Adds a cell.
    #[inline(always)]
    pub(crate) fn add(&mut self, cell: &Fields)
        ensures { self.new ≡ known_after self.old cell.now }
    {
        if let Some(last) = self.recent.first_mut() {
            if last.cell.origin == cell.origin {
                *last = last.after(cell);
                self.place = 0;
                return;
            }
        }
        self.add_other(cell);
    }
}
