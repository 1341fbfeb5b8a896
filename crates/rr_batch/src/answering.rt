//! The answers to items, once it is known whether the batch is saved.

ghost use Rattle.std.specs.Prelude.{◌≡◌, IfOk, map};
ghost use Rattle.rr_batch.specs.Answers.{answer_to, answer_view, body_outcome, lines_outcome, outcome_of};
ghost use Rattle.rr_batch.specs.Answers.{outcome_view, pending_view};

use crate::pending::{Pending, Waiting};
use rr_node::{Report, TakenText, push_report, push_report_line};
use rr_reactor::{Answer, Outcome};
use rr_web::{response_of, write_reply};
use std::alloc::{AllocError, Global};

/// The answer to a body.
fn body_outcome(
    alloc: Global,
    taken: &TakenText,
    is_saved: bool,
    product: &'static str,
) -> Result<Outcome, AllocError>
    ensures { IfOk result (λ outcome. outcome_view outcome
        ≡ body_outcome product.now is_saved taken.now.refusals.items taken.now.report) }
{
    let mut report = Vec::new(alloc);
    push_report_line(&mut report, &taken.report)?;
    let reply = write_reply(alloc, &taken.refusals, Some(&report), !is_saved)?;
    Ok(Outcome::Reply(response_of(alloc, reply, product)?))
}

/// The answer to a piece: the report of a connection only if all its lines are saved; otherwise the
/// connection closes without one.
fn lines_outcome(
    refusals: Vec<u8>,
    report: Option<Report>,
    is_saved: bool,
) -> Result<Outcome, AllocError>
    ensures { IfOk result (λ outcome. outcome_view outcome
        ≡ lines_outcome is_saved refusals.items report) }
{
    let Some(report) = report else {
        return Ok(Outcome::Text(refusals));
    };
    if !is_saved {
        return Ok(Outcome::Nothing);
    }
    let mut text = refusals;
    push_report(&mut text, &report)?;
    Ok(Outcome::Text(text))
}

/// The answer to an item, by whether its batch is saved.
pub(crate) fn outcome_of(
    alloc: Global,
    pending: Pending,
    is_saved: bool,
    product: &'static str,
) -> Result<Outcome, AllocError>
    ensures { IfOk result (λ outcome. outcome_view outcome
        ≡ outcome_of product.now is_saved (pending_view pending)) }
{
    match pending {
        Pending::Decided(reply) => Ok(Outcome::Reply(response_of(alloc, reply, product)?)),
        Pending::Body(taken) => body_outcome(alloc, &taken, is_saved, product),
        Pending::Lines { refusals, report } => lines_outcome(refusals, report, is_saved),
        Pending::Closed => Ok(Outcome::Nothing),
    }
}

/// The answers to the items of a batch, in order.
pub(crate) fn answers_of(
    alloc: Global,
    batch: Vec<Waiting>,
    is_saved: bool,
    product: &'static str,
) -> Result<Vec<Answer>, AllocError>
    ensures { IfOk result (λ answers. map answer_view answers.items
        ≡ map (answer_to product.now is_saved) batch.items) }
{
    let mut answers = Vec::with_capacity(alloc, batch.len())?;
    for waiting in batch {
        let Waiting { key, pending } = waiting;
        let outcome = outcome_of(alloc, pending, is_saved, product)?;
        answers.push(Answer { key, outcome })?;
    }
    Ok(answers)
}
