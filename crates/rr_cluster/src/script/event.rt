//! The lines of a script.

use crate::script::fault::SyntaxFault;
use rr_fetch::RequestWords;

/// A command, with its words as the bytes of the script.
#[derive(Clone, Copy)]
pub enum Event<'a> {
    /// `schema STEP S:R:N/D ..`: sets the schema, once.
    Schema {
        step: &'a [u8],
        /// The words after the step, separated by single spaces, if there are any.
        archives: Option<&'a [u8]>,
    },
    /// `upgrade S:R:N/D`: adds an archive to the schema; nodes and pages are gone, snapshots stay.
    Upgrade {
        archive: &'a [u8],
    },
    /// `node NAME ORIGIN`: makes an empty replica.
    Node {
        name: &'a [u8],
        origin: &'a [u8],
    },
    /// `now T [LEAD]`: sets the clock, and how far ahead of it a point's own time may be.
    Now {
        time: &'a [u8],
        lead: Option<&'a [u8]>,
    },
    /// `write NODE LINE`: the rest of the line is a line of the line protocol.
    Write {
        node: &'a [u8],
        line: &'a [u8],
    },
    /// `page NAME NODE FROM COUNT`: makes a page of a node's cells.
    Page {
        name: &'a [u8],
        node: &'a [u8],
        from: &'a [u8],
        count: &'a [u8],
    },
    /// `delta NAME GIVER TAKER FROM COUNT`: makes a page of what one node has and another lacks.
    Delta {
        name: &'a [u8],
        giver: &'a [u8],
        taker: &'a [u8],
        from: &'a [u8],
        count: &'a [u8],
    },
    /// `deliver NAME NODE`: joins the cells of a page into a node.
    Deliver {
        name: &'a [u8],
        node: &'a [u8],
    },
    /// `bytes NAME`: prints the bytes of a page.
    Bytes {
        name: &'a [u8],
    },
    /// `save NAME NODE`: makes a snapshot of a node.
    Save {
        name: &'a [u8],
        node: &'a [u8],
    },
    /// `load NAME NODE ORIGIN`: makes a node from a snapshot, under a new origin.
    Load {
        name: &'a [u8],
        node: &'a [u8],
        origin: &'a [u8],
    },
    /// `fetch NODE CF RESOLUTION START END KEY`: prints rows of a series.
    Fetch {
        node: &'a [u8],
        /// The words after the node.
        request: RequestWords<'a>,
    },
}

/// A line of a script that isn't skipped.
#[derive(Clone, Copy)]
pub struct ScriptLine<'a> {
    /// Its number, from 1. Skipped lines count.
    pub number: u64,
    /// Its command, or why it has none.
    pub parsed: Result<Event<'a>, SyntaxFault>,
}
