//! The reply to a write, by the answers to its lines.

ghost use Rattle.std.specs.Prelude.{◌≡◌, ◌++◌, IfOk, OnOk};
ghost use Rattle.std.specs.List.{flat_map};
ghost use Rattle.rr_web.specs.Reply.{inside, lent_text, partial_text, reply_of, reply_view, write_reply_of};

use crate::reply::{Kind, Reply, Status};
use rr_text::bytes::LINE_FEED;
use std::alloc::{AllocError, Global};

/// Adds lines to a JSON text, with `; ` for the end of each. Their bytes are those of names and
/// numbers, which JSON writes as they are.
fn push_inside(text: &mut Vec<u8>, lines: &[u8]) -> Result<(), AllocError>
    ensures { OnOk result (text.new.items ≡ text.old.items ++ flat_map inside lines.now) }
{
    for byte in lines {
        if *byte == LINE_FEED {
            text.extend_from_slice(b"; ")?;
        } else {
            text.push(*byte)?;
        }
    }
    Ok(())
}

/// What a sender for InfluxDB takes for a refusal of some lines: it doesn't send the others again.
fn partial_text(alloc: Global, refusals: &[u8], report: &[u8]) -> Result<Vec<u8>, AllocError>
    ensures { IfOk result (λ text. text.items ≡ partial_text refusals.now report.now) }
{
    let mut text = Vec::from_slice(alloc, b"{\"error\":\"partial write: ")?;
    push_inside(&mut text, refusals)?;
    text.extend_from_slice(report)?;
    text.extend_from_slice(b"\"}\n")?;
    Ok(text)
}

/// The reply to a request that failed, with the reason, as JSON.
fn failed(alloc: Global, text: &[u8]) -> Result<Reply, AllocError>
    ensures { IfOk result (λ reply. reply_view reply
        ≡ reply_of Status.Failed Kind.Json text.now) }
{
    Ok(Reply {
        status: Status::Failed,
        kind: Kind::Json,
        text: Vec::from_slice(alloc, text)?,
    })
}

/// The reply to a write whose lines were answered by these refusals and this report, which lacks
/// its line feed; there is no report if memory ran out before the end. The write `is_unsaved` if it
/// was to be answered once saved, and the save failed. It is answered 204 exactly if its lines are
/// saved as asked and none was refused.
pub fn write_reply(
    alloc: Global,
    refusals: &[u8],
    report: Option<&[u8]>,
    is_unsaved: bool,
) -> Result<Reply, AllocError>
    ensures { IfOk result (λ reply. reply_view reply
        ≡ write_reply_of is_unsaved refusals.now (lent_text report.entry)) }
{
    let Some(report) = report else {
        return failed(alloc, b"{\"error\":\"the node ran out of memory\"}\n");
    };
    if is_unsaved {
        return failed(
            alloc,
            b"{\"error\":\"the lines are taken, but not saved\"}\n",
        );
    }
    if refusals.is_empty() {
        return Ok(Reply {
            status: Status::NoContent,
            kind: Kind::Json,
            text: Vec::new(alloc),
        });
    }
    Ok(Reply {
        status: Status::BadRequest,
        kind: Kind::Json,
        text: partial_text(alloc, refusals, report)?,
    })
}
