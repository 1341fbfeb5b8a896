//! Following a peer by its answers.
use super::journal::{schema, start};
use rr_cells::Cell;
use rr_fakes::journals::{HEADER, RECORDS};
use rr_replication::{
    Following, Next, Pace, PartFault, PeerAnswer, PeerConnection, PeerFault, Reached,
};
use std::alloc::Global;

/// What becomes of an answer with a status and a body: what was asked for, up to which offset the
/// journal is read, if that is told, and how many cells came.
fn step(
    alloc: Global,
    following: &mut Following,
    status: u16,
    body: &[u8],
) -> Option<(Vec<u8>, Result<Option<u64>, PeerFault>, usize)> {
    let schema = schema(alloc)?;
    let asked = following.target(&schema).ok()?;
    let answer = PeerAnswer {
        status,
        id: Some(start().id),
        end: Some(167),
        body: Vec::from_slice(alloc, body).ok()?,
    };
    let mut cells: Vec<Cell> = Vec::new(alloc);
    let read = match following.take(&answer, &schema, &mut cells) {
        Ok(Next::More { read: Some(read) }) => Ok(Some(read.offset)),
        Ok(_) => Ok(None),
        Err(fault) => Err(fault),
    };
    Some((asked, read, cells.len()))
}

/// The same, without what was asked for.
fn came(
    alloc: Global,
    following: &mut Following,
    status: u16,
    body: &[u8],
) -> Option<(Result<Option<u64>, PeerFault>, usize)> {
    let (_, read, cells) = step(alloc, following, status, body)?;
    Some((read, cells))
}

/// What is asked for.
fn asked(alloc: Global, following: &Following) -> Option<Vec<u8>> {
    following.target(&schema(alloc)?).ok()
}

/// A text.
fn text(alloc: Global, text: &[u8]) -> Option<Vec<u8>> {
    Vec::from_slice(alloc, text).ok()
}

#[test]
fn a_peer_is_greeted_and_then_read_from_the_beginning(rt: HostRuntime) {
    let alloc = rt.alloc();
    let mut following = Following::new(alloc, Vec::new(alloc));
    let greeting = b"/journal?decimals=0&schema=0000003c01010000000300000001";
    let journal = b"/journal?id=000102030405060708090a0b0c0d0e0f&from=0";
    let first = step(alloc, &mut following, 204, &[]);
    let second = step(alloc, &mut following, 200, &RECORDS);
    let third = came(alloc, &mut following, 204, &[]);
    let greeted = text(alloc, greeting).map(|asked| (asked, Ok(None), 0));
    let read = text(alloc, journal).map(|asked| (asked, Ok(Some(167)), 6));
    assert_eq!(rt;
        (first, second, third),
        (greeted, read, Some((Ok(None), 0)))
    );
}

#[test]
fn a_journal_that_was_read_before_is_gone_on_with(rt: HostRuntime) {
    let alloc = rt.alloc();
    let mut following = Following::new(alloc, Vec::new(alloc));
    came(alloc, &mut following, 204, &[]);
    came(alloc, &mut following, 200, &RECORDS[..20]);
    following.reconnect();
    came(alloc, &mut following, 204, &[]);
    let journal = b"/journal?id=000102030405060708090a0b0c0d0e0f&from=15";
    let before = asked(alloc, &following);
    let other = came(alloc, &mut following, 200, &RECORDS[16..]);
    let after = asked(alloc, &following);
    let damaged = Some((Err(PeerFault::Part(PartFault::Damaged)), 0));
    assert_eq!(rt; (before, other), (text(alloc, journal), damaged));
    assert_eq!(rt; after, text(alloc, b"/checkpoint?from=0"));
}

/// The beginning of a checkpoint's file: its header, and bytes of records.
fn checkpoint(alloc: Global, records: &[u8]) -> Vec<u8> {
    let mut bytes = Vec::new(alloc);
    let _header = bytes.extend_from_slice(&HEADER);
    let _records = bytes.extend_from_slice(records);
    bytes
}

#[test]
fn what_the_journal_lacks_is_taken_from_the_checkpoint(rt: HostRuntime) {
    let alloc = rt.alloc();
    let mut following = Following::new(alloc, Vec::new(alloc));
    came(alloc, &mut following, 204, &[]);
    let gone = came(alloc, &mut following, 410, &[]);
    let begun = came(
        alloc,
        &mut following,
        200,
        &checkpoint(alloc, &RECORDS[..58]),
    );
    let next = asked(alloc, &following);
    let all = came(alloc, &mut following, 200, &RECORDS[15..]);
    let end = came(alloc, &mut following, 204, &[]);
    let again = came(alloc, &mut following, 410, &[]);
    assert_eq!(rt; (gone, begun), (Some((Ok(None), 0)), Some((Ok(None), 0))));
    assert_eq!(rt; next, text(alloc, b"/checkpoint?begins=0&from=77"));
    assert_eq!(rt; (all, end), (Some((Ok(None), 6)), Some((Ok(Some(0)), 0))));
    assert_eq!(rt; again, Some((Err(PeerFault::Gone), 0)));
}

/// A record behind the four: the origin 1002.
const BEHIND_END: [u8; 15] = [
    0x00, 0x00, 0x00, 0x02, 0x82, 0x03, 0xea, 0x9c, 0x47, 0x37, 0x86, 0xe5, 0x51, 0x1f, 0x69,
];

/// What becomes of a checkpoint with these records once the peer has no more of it, and what is
/// asked for then.
fn ended(
    alloc: Global,
    records: &[u8],
) -> Option<(Result<Option<u64>, PeerFault>, Option<Vec<u8>>)> {
    let mut following = Following::new(alloc, Vec::new(alloc));
    came(alloc, &mut following, 204, &[]);
    came(alloc, &mut following, 410, &[]);
    came(alloc, &mut following, 200, &checkpoint(alloc, records));
    let (ended, _) = came(alloc, &mut following, 204, &[])?;
    Some((ended, asked(alloc, &following)))
}

#[test]
fn a_checkpoint_is_taken_if_its_end_is_its_last_record(rt: HostRuntime) {
    let alloc = rt.alloc();
    let journal = text(
        alloc,
        b"/journal?id=000102030405060708090a0b0c0d0e0f&from=0",
    );
    assert_eq!(rt; ended(alloc, &RECORDS), Some((Ok(Some(0)), journal)));
    let refused = ended(alloc, &RECORDS[..146]);
    let newest = text(alloc, b"/checkpoint?from=0");
    assert_eq!(rt; refused, Some((Err(PeerFault::NotWhole), newest)));
    let mut longer = Vec::new(alloc);
    let _four = longer.extend_from_slice(&RECORDS);
    let _more = longer.extend_from_slice(&BEHIND_END);
    let newest = text(alloc, b"/checkpoint?from=0");
    assert_eq!(rt;
        ended(alloc, &longer),
        Some((Err(PeerFault::NotWhole), newest))
    );
}

/// The pause after an answer that is refused.
fn pause_after(
    alloc: Global,
    following: &mut Following,
    pace: &mut Pace,
    status: u16,
    body: &[u8],
) -> Option<u64> {
    let asked = following.reached();
    let (read, _) = came(alloc, following, status, body)?;
    if read.is_err() {
        return Some(pace.fail(asked));
    }
    pace.reach(following.reached()?);
    None
}

/// The pauses after a peer refuses the journal's second record, and after it then has no
/// checkpoint.
fn two_pauses(
    alloc: Global,
    following: &mut Following,
    pace: &mut Pace,
) -> (Option<u64>, Option<u64>) {
    pause_after(alloc, following, pace, 204, &[]);
    pause_after(alloc, following, pace, 200, &RECORDS[..15]);
    let record = pause_after(alloc, following, pace, 200, &RECORDS[16..]);
    following.reconnect();
    pause_after(alloc, following, pace, 204, &[]);
    let checkpoint = pause_after(alloc, following, pace, 410, &[]);
    following.reconnect();
    (record, checkpoint)
}

#[test]
fn a_peer_that_fails_in_two_ways_is_left_alone_for_longer(rt: HostRuntime) {
    let alloc = rt.alloc();
    let mut following = Following::new(alloc, Vec::new(alloc));
    let mut pace = Pace::new();
    for pauses in [(1, 2), (4, 8), (16, 32), (64, 64), (64, 64)] {
        let (record, checkpoint) = pauses;
        let found = two_pauses(alloc, &mut following, &mut pace);
        assert_eq!(rt; found, (Some(record), Some(checkpoint)));
    }
}

#[test]
fn all_of_a_journal_is_unread_while_a_checkpoint_is_read(rt: HostRuntime) {
    let lags = (
        Reached::Journal(15).lag(167),
        Reached::Journal(167).lag(100),
        Reached::Checkpoint(167).lag(167),
        Reached::Checkpoint(0).lag(0),
    );
    assert_eq!(rt; lags, (152, 0, 167, 1));
}

/// The status, the end and the length of the body when these bytes answer a request.
fn answered(alloc: Global, input: &[u8]) -> Result<(u16, Option<u64>, usize), PeerFault> {
    let mut connection = PeerConnection::new(alloc, input, Vec::new(alloc));
    let answer = connection.ask(b"a:1", b"/journal?from=0")?;
    Ok((answer.status, answer.end, answer.body.len()))
}

#[test]
fn an_answer_is_received_whole_or_refused(rt: HostRuntime) {
    let alloc = rt.alloc();
    let whole = b"HTTP/1.1 200 OK\r\nRR-Journal-End: 7\r\nContent-Length: 2\r\n\r\nhi";
    let empty = b"HTTP/1.1 204 No Content\r\n\r\n";
    let long = b"HTTP/1.1 200 OK\r\ncontent-length: 4194305\r\n\r\n";
    let answers = (answered(alloc, whole), answered(alloc, empty));
    assert_eq!(rt; answers, (Ok((200, Some(7), 2)), Ok((204, None, 0))));
    let cut = (answered(alloc, &whole[..58]), answered(alloc, long));
    assert_eq!(rt; cut, (Err(PeerFault::Ended), Err(PeerFault::BadAnswer)));
    assert_eq!(rt; answered(alloc, b"SSH-2.0\r\n"), Err(PeerFault::BadAnswer));
}
