//! Keys made from names, and names with their escapes.

use rr_key::{Class, KeyFault, SeriesKey, escape, unescape};
use rr_text::limits::MAX_KEY_TEXT;
use std::alloc::{AllocError, Global};
use std::test::Fail;

/// The tags in a list of names: the key and the value of each.
fn tags_of<'a>(alloc: Global, names: &[&'a str]) -> Result<Vec<(&'a [u8], &'a [u8])>, AllocError> {
    let mut tags: Vec<(&'a [u8], &'a [u8])> = Vec::new(alloc);
    for tag in names.chunks(2) {
        if let [key, value] = tag {
            tags.push((key.as_bytes(), value.as_bytes()))?;
        }
    }
    Ok(tags)
}

/// The text of a key, or the name of the fault.
fn text_of(alloc: Global, made: Result<SeriesKey, KeyFault>) -> Result<Vec<u8>, AllocError> {
    match made {
        Ok(key) => Vec::from_slice(alloc, key.text()),
        Err(fault) => Vec::from_slice(alloc, fault.name().as_bytes()),
    }
}

/// The text of the key of these names, a measurement, the key and the value of each tag, and a
/// field; or the name of the fault.
fn text_of_names(alloc: Global, names: &[&str]) -> Result<Vec<u8>, AllocError> {
    let [measurement, rest @ .., field] = names else {
        return Ok(Vec::new(alloc));
    };
    let tags = tags_of(alloc, rest)?;
    let made = SeriesKey::new(alloc, measurement.as_bytes(), &tags, field.as_bytes());
    text_of(alloc, made)
}

/// The same for names with `|` between them.
fn spelled(alloc: Global, names: &str) -> Result<Vec<u8>, AllocError> {
    let names: Vec<&str> = names.split('|').collect(alloc)?;
    text_of_names(alloc, &names)
}

/// Names and the text of their key, or why they make none, with ` -> ` between the two, and `;`
/// between such pairs.
const TEXTS: &str = "m|b|2|a|1|v -> m,a=1,b=2 v;\
    a b\\,c|v -> a\\ b\\\\,c v;\
    a,b|k=|=x y|f, -> a\\,b,k\\==\\=x\\ y f\\,;\
    a=b|v -> a=b v;\
    #m|v\r -> #m v\r;\
    m|a!|1|a b|2|v -> m,a\\ b=2,a!=1 v;\
    |a\n|1|v -> EmptyName;\
    m|a||v -> EmptyName;\
    \\|v -> BadName;\
    m|a|1\n2|v -> BadName;\
    m|v\\ -> BadName;\
    m|a|1|a|2|v -> DuplicateTag;\
    m|b|1|a|1|b|1|v -> DuplicateTag;\
    m|A|1|B|1|C|1|D|1|E|1|F|1|G|1|H|1|I|1|J|1|K|1|L|1|M|1|N|1|O|1|P|1|Q|1|R|1|S|1|T|1|U|1|V|1|\
    W|1|X|1|Y|1|Z|1|a|1|b|1|c|1|d|1|e|1|f|1|v -> m,A=1,B=1,C=1,D=1,E=1,F=1,G=1,H=1,I=1,J=1,K=1\
    ,L=1,M=1,N=1,O=1,P=1,Q=1,R=1,S=1,T=1,U=1,V=1,W=1,X=1,Y=1,Z=1,a=1,b=1,c=1,d=1,e=1,f=1 \
    v;\
    m|A|1|B|1|C|1|D|1|E|1|F|1|G|1|H|1|I|1|J|1|K|1|L|1|M|1|N|1|O|1|P|1|Q|1|R|1|S|1|T|1|U|1|V|1|\
    W|1|X|1|Y|1|Z|1|a|1|b|1|c|1|d|1|e|1|f|1|g|1|v -> TooManyTags;\
    m|A|1|B|1|C|1|D|1|E|1|F|1|G|1|H|1|I|1|J|1|K|1|L|1|M|1|N|1|O|1|P|1|Q|1|R|1|S|1|T|1|U|1|V|1|\
    W|1|X|1|Y|1|Z|1|a|1|b|1|c|1|d|1|e|1|f|1|g|1|A|1|v -> DuplicateTag";

// The tags of a text are ordered by the bytes of the names, not of their escapes: a space is below
// '!'.
#[test]
fn names_make_one_text(rt: HostRuntime) -> Result<(), Fail> {
    for line in TEXTS.split(';') {
        let (names, want) = line.split_once(" -> ").expect(&rt, "a text in two");
        assert!(rt; spelled(rt.alloc(), names)?.as_slice() == want.as_bytes());
    }
    Ok(())
}

/// How many bytes the key text of a measurement and a field has.
fn text_len(alloc: Global, measurement: &[u8], field: &[u8]) -> Result<usize, KeyFault> {
    Ok(SeriesKey::new(alloc, measurement, &[], field)?.text().len())
}

#[test]
fn a_key_text_has_at_most_1024_bytes(rt: HostRuntime) {
    let measurement = [b'm'; MAX_KEY_TEXT - 2];
    let longest = text_len(rt.alloc(), &measurement, b"v");
    let longer = text_len(rt.alloc(), &measurement, b"vw");
    assert_eq!(rt; (longest, longer), (Ok(1_024), Err(KeyFault::KeyTooLong)));
}

#[test]
fn a_key_text_has_no_line_feed(rt: HostRuntime) {
    let fault = SeriesKey::parse_text(rt.alloc(), b"m v\n").err();
    assert!(rt; fault == Some(KeyFault::BadKey));
}

#[test]
fn escapes_are_undone_by_class(rt: HostRuntime) -> Result<(), Fail> {
    let alloc = rt.alloc();
    let raw_names: [(Class, &[u8], &[u8]); 5] = [
        (Class::Measurement, b"a\\ b\\\\,c", b"a b\\,c"),
        (Class::Measurement, b"a\\=b", b"a\\=b"),
        (Class::Other, b"a\\=b", b"a=b"),
        (Class::Other, b"\\\\x", b"\\\\x"),
        (Class::Other, b"a,b\\", b"a,b\\"),
    ];
    for (class, raw, name) in raw_names {
        assert!(rt; unescape(alloc, class, raw)?.as_slice() == name);
    }
    Ok(())
}

#[test]
fn a_name_is_escaped(rt: HostRuntime) -> Result<(), Fail> {
    let escaped = escape(rt.alloc(), Class::Other, b"a=,")?;
    assert!(rt; escaped.as_slice() == b"a\\=\\,".as_slice());
    Ok(())
}

/// Takes a value that several threads may hold.
fn shared<T: Send + Sync>(value: T) -> T {
    value
}

#[test]
fn a_copy_of_a_key_is_equal(rt: HostRuntime) -> Result<(), Fail> {
    let key = shared(SeriesKey::parse_text(rt.alloc(), b"m v")?);
    let other = SeriesKey::parse_text(rt.alloc(), b"m w")?;
    let copy = key.copy()?;
    assert!(rt; copy == key && copy < other);
    Ok(())
}
