//! What readers see, told or not.
ghost use Rattle.std.specs.Prelude.{◌≡◌};

use super::{NOTHING, SEVEN, answers, key};
use rr_desk::{Keeper, Note, Reader, open};
use rr_fakes::replicas::{MINUTE, minutes};
use rr_key::SeriesKey;
use rr_packed::PackedArchive;
use std::alloc::Global;
use std::sync::Wait;
use std::test::Fail;

/// Whether a reader learns a note and then answers with this text.
fn learns(alloc: Global, reader: &mut Reader<PackedArchive>, note: Note, text: &[u8]) -> bool
    requires { note.desk ≡ reader.old.desk }
    ensures { reader.new.desk ≡ reader.old.desk }
{
    reader.learn(note).is_ok() && answers(alloc, reader, text)
}

/// Whether a reader sees the 7 that a keeper puts one minute after the epoch once it is published,
/// and not while it is pending; and whether an old note takes nothing back. The second of the two
/// publications has nothing to publish.
fn sees_in_turn<R: Wait>(
    alloc: Global,
    rt: &R,
    keeper: &mut Keeper<PackedArchive>,
    reader: &mut Reader<PackedArchive>,
    key: &SeriesKey,
) -> [bool; 6]
    requires { reader.old.desk ≡ keeper.old.desk }
{
    let old = keeper.tell();
    let put = keeper.put(key, MINUTE, 7) == Ok(1);
    let pending = learns(alloc, reader, keeper.tell(), NOTHING);
    let first = keeper.publish(rt).is_ok();
    let second = keeper.publish(rt).is_ok();
    let told = learns(alloc, reader, keeper.tell(), SEVEN);
    let late = learns(alloc, reader, old, SEVEN);
    [put, pending, first, second, told, late]
}

// The second reader isn't told.
#[test]
fn readers_see_what_was_published(rt: HostRuntime) -> Result<(), Fail> {
    let replica = minutes::<PackedArchive>(rt.alloc(), 1, 3)?;
    let Ok((mut keeper, mut readers)) = open(rt.alloc(), &rt, replica, 2) else {
        panic!(&rt; "no desk");
    };
    let Some(key) = key(rt.alloc()) else {
        panic!(&rt; "no key");
    };
    let seen = sees_in_turn(rt.alloc(), &rt, &mut keeper, &mut readers[0], &key);
    let untold = answers(rt.alloc(), &mut readers[1], SEVEN);
    let next = keeper.close(&rt).next_number();
    assert!(rt; (seen, untold, next) == ([true; 6], true, 2));
    Ok(())
}

#[test]
fn after_close_nothing_is_learned(rt: HostRuntime) -> Result<(), Fail> {
    let replica = minutes::<PackedArchive>(rt.alloc(), 1, 3)?;
    let Ok((keeper, mut readers)) = open(rt.alloc(), &rt, replica, 1) else {
        panic!(&rt; "no desk");
    };
    let note = keeper.tell();
    keeper.close(&rt);
    assert!(rt; readers[0].learn(note).is_err());
    Ok(())
}
