//! Replies that give what was asked for.

ghost use Rattle.std.specs.Prelude.{◌≡◌, IfOk};
ghost use Rattle.rr_web.specs.Ask.{page_kind};
ghost use Rattle.rr_web.specs.Reply.{IsFound, reply_of, reply_view};

use crate::ask::Ask;
use crate::page::PAGE;
use crate::reply::{Kind, Reply, Status};
use crate::script::SCRIPT;
use crate::style::STYLE;
use std::alloc::{AllocError, Global};

/// A text of this kind, which was asked for.
pub(crate) fn found(alloc: Global, kind: Kind, text: &str) -> Result<Reply, AllocError>
    ensures { IfOk result (λ reply. reply_view reply ≡ reply_of Status.Ok kind text.now) }
{
    Ok(Reply {
        status: Status::Ok,
        kind,
        text: Vec::from_slice(alloc, text.as_bytes())?,
    })
}

/// The page, its script or its style; the page for any other ask.
pub(crate) fn page_reply(alloc: Global, ask: Ask) -> Result<Reply, AllocError>
    ensures { IfOk result (λ reply. IsFound (page_kind ask) (reply_view reply)) }
{
    match ask {
        Ask::Script => found(alloc, Kind::Script, SCRIPT),
        Ask::Style => found(alloc, Kind::Style, STYLE),
        _ => found(alloc, Kind::Html, PAGE),
    }
}
