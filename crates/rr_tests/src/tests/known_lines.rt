//! Lines read by the key texts of their series.

use rr_key::SeriesKey;
use rr_line::{KnownLine, LastTime, Precision, read_known};
use std::alloc::Global;
use std::test::Fail;

/// Up to four numbers read one after another, the last one at the end.
type Numbers = [i64; 4];

/// Adds a number at the end.
fn push(numbers: &mut Numbers, number: i64) {
    let [_, second, third, last] = *numbers;
    *numbers = [second, third, last, number];
}

/// What a text says is to be read, if it does: numbers, or nothing if it is `-`.
fn wanted_of(text: &str) -> Option<Option<Numbers>> {
    if text == "-" {
        return Some(None);
    }
    let mut numbers = [0; 4];
    for word in text.split(' ') {
        push(&mut numbers, word.parse().ok()?);
    }
    Some(Some(numbers))
}

/// What is read from a line by a key.
fn known(line: &str, key: &SeriesKey, last: &mut LastTime) -> Option<Numbers> {
    let (value, time) = read_known(line.as_bytes(), key, Precision::S, last)?;
    Some([0, 0, value, time.unwrap_or(-1)])
}

/// Lines, each with the expected key text and what is read: the value and the time, -1 if there is
/// none, or `-`. The three have `|` between them.
const LINES: &str = "m,a=1 v=5i 7|m,a=1 v|5 7000000000
m,a=1 v=-6i 7|m,a=1 v|-6 7000000000
  m,a=1 v=007i  7 |m,a=1 v|7 7000000000
m,a=1 v=8i|m,a=1 v|8 -1
m,a=1 v=9i -1\r|m,a=1 v|9 -1000000000
m,a=1 v=9223372036854775807i 0|m,a=1 v|9223372036854775807 0
m,a=1 v=-9223372036854775808i 0|m,a=1 v|-9223372036854775808 0
m\\ x,a=\\=\\, v\\ w=1i 2|m\\ x,a=\\=\\, v\\ w|1 2000000000
m,a=1 v=9223372036854775808i 0|m,a=1 v|-
m,a=1 v=5i 7|m,a=1 w|-
m,a=1 v=5i 7|m,a=2 v|-
m,a=1 v=5i 7|m v|-
m,a=1 v=5i,w=6i 7|m,a=1 v|-
m,a=1 v=5i7 7|m,a=1 v|-
m,a=1 v=i 7|m,a=1 v|-
m,a=1 v=-i 7|m,a=1 v|-
m,a=1 v=5 7|m,a=1 v|-
m,a=1 v=5i x|m,a=1 v|-
m,a=1 v=5i 7 7|m,a=1 v|-
m,a=1 v=5i 9223372037|m,a=1 v|-
#m v=5i 7|#m v|-
m v|m v|-
|m v|-";

/// Whether what a line of these says is read.
fn is_known(alloc: Global, case: &str, last: &mut LastTime) -> Option<bool> {
    let (line, rest) = case.split_once('|')?;
    let (key, wanted) = rest.split_once('|')?;
    let key = SeriesKey::parse_text(alloc, key.as_bytes()).ok()?;
    Some(known(line, &key, last) == wanted_of(wanted)?)
}

#[test]
fn lines_are_known_by_their_key_texts(rt: HostRuntime) -> Result<(), Fail> {
    let mut last = LastTime::new();
    for case in LINES.split('\n') {
        assert!(rt; is_known(rt.alloc(), case, &mut last) == Some(true));
    }
    Ok(())
}

/// The keys of texts with `|` between them.
fn keys_of(alloc: Global, texts: &str) -> Option<Vec<SeriesKey>> {
    let mut keys = Vec::new(alloc);
    for text in texts.split('|') {
        let key = SeriesKey::parse_text(alloc, text.as_bytes()).ok()?;
        keys.push(key).ok()?;
    }
    Some(keys)
}

/// What is read from a line by some keys, one for each field.
fn known_fields(line: &str, keys: &[SeriesKey], last: &mut LastTime) -> Option<Numbers> {
    let [first, others @ ..] = keys else {
        return None;
    };
    let (value, read) = KnownLine::first_field(line.as_bytes(), first)?;
    let mut numbers = [0, 0, 0, value];
    let mut read = read;
    for key in others {
        let (value, next) = read.next_field(key)?;
        push(&mut numbers, value);
        read = next;
    }
    let time = read.time(Precision::S, last)?;
    push(&mut numbers, time.unwrap_or(-1));
    Some(numbers)
}

/// Lines, each with the expected key texts and what is read: the values and the time, or `-`.
const MANY: &str = "m,a=1 u=1i,v=2i,w=-3i 7|m,a=1 u|m,a=1 v|m,a=1 w|1 2 -3 7000000000
m,a=1 u=1i,v=2i|m,a=1 u|m,a=1 v|1 2 -1
m,a=1 u=1i 7|m,a=1 u|1 7000000000
m\\ x,a=\\=\\,\\ b u=1i,v\\,w=2i 7|m\\ x,a=\\=\\,\\ b u|m\\ x,a=\\=\\,\\ b v\\,w|1 2 7000000000
m,a=1 u=1i,v=2i,w=-3i 7|m,a=1 u|m,a=1 v|-
m,a=1 u=1i,v=2i 7|m,a=1 u|m,a=1 v|m,a=1 w|-
m,a=1 u=1i,v=2i 7|m,a=1 u|m,a=2 v|-
m,a=1 u=1i,v=2i 7|m,a=1 u|m,a=1 w|-
m,a=1 v=1i,u=2i 7|m,a=1 v|m,a=1 u|-
m,a=1 u=1i,u=2i 7|m,a=1 u|m,a=1 u|-
m,a=1 u=1i,v\\ w=2i 7|m,a=1 u|m,a=1 v\\ w|-
m,a=1 u=1i,v=2 7|m,a=1 u|m,a=1 v|-
m,a=1 u=1i, v=2i 7|m,a=1 u|m,a=1 v|-";

/// Whether what a line of these says is read.
fn are_known(alloc: Global, case: &str, last: &mut LastTime) -> Option<bool> {
    let (line, rest) = case.split_once('|')?;
    let (texts, wanted) = rest.rsplit_once('|')?;
    let keys = keys_of(alloc, texts)?;
    Some(known_fields(line, &keys, last) == wanted_of(wanted)?)
}

#[test]
fn fields_are_known_by_their_key_texts(rt: HostRuntime) -> Result<(), Fail> {
    let mut last = LastTime::new();
    for case in MANY.split('\n') {
        assert!(rt; are_known(rt.alloc(), case, &mut last) == Some(true));
    }
    Ok(())
}
