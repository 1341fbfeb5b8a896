//! Batches of writes: the answers to their items if the journal is written, and if it isn't.

use super::journal::start;
use rr_base::Origin;
use rr_batch::{NotNamed, OriginNames, TakenOrigin, Writer, commit_batch, take_origin};
use rr_connection::{Piece, Request};
use rr_desk::{Keeper, open};
use rr_fakes::clock::Moments;
use rr_fakes::journals::KEY;
use rr_fakes::replicas::minutes;
use rr_journal::MemoryJournal;
use rr_line::Precision;
use rr_packed::PackedArchive;
use rr_reactor::{Answer, Item, Outcome, Work};
use std::alloc::{AllocError, Global};
use std::sync::Wait;

/// Where origins are named, or can't be.
#[derive(Drop)]
struct Names {
    is_full: bool,
}

impl OriginNames for Names {
    ghost use Rattle.std.specs.Prelude.{None};

    ghost named = { λ _. None };

    fn name_origin(&mut self, _origin: Origin) -> Result<(), NotNamed> {
        if self.is_full { Err(NotNamed) } else { Ok(()) }
    }
}

/// The origin 1, taken over a journal whose call after this many others fails, unless that fails;
/// and how many bytes the journal has then.
fn taken(alloc: Global, is_full: bool, calls: u64) -> (Option<TakenOrigin>, usize) {
    let mut journal = MemoryJournal::new(Vec::new(alloc), KEY).failing(calls);
    let Ok(origin) = Origin::new(1) else {
        return (None, 0);
    };
    let (mut names, mut cursor) = (Names { is_full }, start());
    let taken = take_origin(alloc, origin, &mut names, &mut journal, &mut cursor);
    (taken.ok(), journal.synced())
}

/// A request to write two lines, one of which is refused.
fn body(alloc: Global) -> Result<Work, AllocError> {
    Ok(Work::Request(Request {
        method: Vec::from_slice(alloc, b"POST")?,
        target: Vec::from_slice(alloc, b"/write?db=x")?,
        is_encoded: false,
        body: Vec::from_slice(alloc, b"m v=1i 0\nm v=1\n")?,
    }))
}

/// A piece of a line connection; whether it is the first, and whether it is the last.
fn piece(alloc: Global, text: &[u8], is_first: bool, is_last: bool) -> Result<Work, AllocError> {
    Ok(Work::Piece(Piece {
        text: Vec::from_slice(alloc, text)?,
        is_first,
        is_last,
    }))
}

/// The items of a body, of a line connection, and of a later one under the same key.
fn items(alloc: Global) -> Result<Vec<Item>, AllocError> {
    let mut items = Vec::new(alloc);
    for (key, work) in [
        (1, body(alloc)?),
        (2, piece(alloc, b"a v=1i 0\n", true, false)?),
        (2, piece(alloc, b"a v=x 0\n", false, false)?),
        (2, piece(alloc, b"a v=2i 1\nb", true, true)?),
    ] {
        items.push(Item { key, came: 0, work })?;
    }
    Ok(items)
}

/// Adds an answer, followed by a bar.
fn push_answer(alloc: Global, text: &mut Vec<u8>, answer: &Answer) -> Result<(), AllocError> {
    match &answer.outcome {
        Outcome::Reply(reply) => {
            let status = format!(in alloc; "{} ", reply.status)?;
            text.extend_from_slice(status.as_bytes())?;
            text.extend_from_slice(&reply.body)?;
        }
        Outcome::Text(bytes) => text.extend_from_slice(bytes)?,
        Outcome::Nothing => text.extend_from_slice(b"closed")?,
    }
    text.push(b'|')?;
    Ok(())
}

/// The answers to the items under an origin, if it is taken, with a journal whose call after this
/// many others fails.
fn answers_of<R: Wait>(
    rt: &R,
    alloc: Global,
    keeper: &mut Keeper<PackedArchive>,
    taken: &Option<TakenOrigin>,
    calls: u64,
) -> Result<Vec<u8>, AllocError> {
    let mut writer = Writer::new(alloc, Precision::Ns, None);
    let mut clock = Moments::new(Vec::new(alloc));
    let mut batch = Vec::new(alloc);
    for item in items(alloc)? {
        let waiting = match taken {
            Some(taken) => writer.take(*taken, item, keeper, &mut clock, rt),
            None => Ok(writer.put_off(&item)?),
        };
        match waiting {
            Ok(waiting) => batch.push(waiting)?,
            Err(_) => return Err(AllocError),
        }
    }
    let mut journal = MemoryJournal::new(Vec::new(alloc), KEY).failing(calls);
    let mut cursor = start();
    let Ok(answers) = commit_batch(alloc, batch, "rr-2", keeper, &mut journal, &mut cursor, rt)
    else {
        return Err(AllocError);
    };
    let mut text = Vec::new(alloc);
    for answer in &answers.answers {
        push_answer(alloc, &mut text, answer)?;
    }
    Ok(text)
}

/// The answers of a keeper that was just opened, under such an origin and with such a journal.
fn answered<R: Wait>(
    rt: &R,
    alloc: Global,
    taken: &Option<TakenOrigin>,
    calls: u64,
) -> Option<Vec<u8>> {
    let (mut keeper, _readers) = open(alloc, rt, minutes(alloc, 1, 3).ok()?, 1).ok()?;
    let text = answers_of(rt, alloc, &mut keeper, taken, calls);
    keeper.close(rt);
    text.ok()
}

/// The answers if the journal is written.
const SAVED: &[u8] =
    b"400 {\"error\":\"partial write: line 2: FloatField; points 1 samples 1 refused 1\"}\n|\
    |line 2: BadField\n|line 2: NoFields\npoints 1 samples 1 refused 1\n|";

/// And if it isn't.
const UNSAVED: &[u8] =
    b"500 {\"error\":\"the lines are taken, but not saved\"}\n||line 2: BadField\n|closed|";

#[test]
fn lines_are_acknowledged_only_once_they_are_synced(rt: HostRuntime) {
    let (taken, _) = taken(rt.alloc(), false, u64::MAX);
    let saved = answered(&rt, rt.alloc(), &taken, u64::MAX);
    let unsaved = answered(&rt, rt.alloc(), &taken, 0);
    assert_eq!(rt;
        (saved.as_deref(), unsaved.as_deref()),
        (Some(SAVED), Some(UNSAVED))
    );
}

/// The answers if no origin is taken.
const PUT_OFF: &[u8] =
    b"503 {\"error\":\"the origin can't be recorded: nothing is taken\"}\n|closed|closed|closed|";

#[test]
fn lines_are_put_off_until_the_origin_is_taken(rt: HostRuntime) {
    let (unnamed, none) = taken(rt.alloc(), true, u64::MAX);
    let (unrecorded, rest) = taken(rt.alloc(), false, 0);
    let answers = answered(&rt, rt.alloc(), &unnamed, u64::MAX);
    assert_eq!(rt;
        (none, unrecorded.is_none(), rest, answers.as_deref()),
        (0, true, 0, Some(PUT_OFF))
    );
}
