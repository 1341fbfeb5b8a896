//! CSV records, and refusals.

use rr_fetch::prefix_of;
use rr_text::refusal::push_refusal;
use std::alloc::{AllocError, Global};
use std::test::Fail;

/// The records of these names, each with the numbers 1 and -2, and a refusal.
fn text_of(alloc: Global, names: &[&[u8]]) -> Result<Vec<u8>, AllocError> {
    let mut text = Vec::new(alloc);
    for name in names {
        text.extend_from_slice(&prefix_of(alloc, name)?)?;
        text.extend_from_slice(b"1,-2\n")?;
    }
    push_refusal(&mut text, 18_446_744_073_709_551_615, "NoFields")?;
    Ok(text)
}

#[test]
fn names_are_quoted_where_they_have_to_be(rt: HostRuntime) -> Result<(), Fail> {
    let names: [&[u8]; 6] = [b"a,b", b"say \"hi\"", b"c\rd", b"e\nf", b"g h", b""];
    let text = text_of(rt.alloc(), &names)?;
    let want = b"\"a,b\",1,-2\n\"say \"\"hi\"\"\",1,-2\n\"c\rd\",1,-2\n\"e\nf\",1,-2\n\
        g h,1,-2\n,1,-2\nline 18446744073709551615: NoFields\n"
        .as_slice();
    assert!(rt; text.as_slice() == want);
    Ok(())
}
