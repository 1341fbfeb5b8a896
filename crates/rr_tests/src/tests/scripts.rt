//! Scripts: a line that is too long.

use rr_cluster::run;
use std::alloc::Global;
use std::test::Fail;

/// What a script prints that has a line of `length` `x`s after two skipped lines.
fn printed(alloc: Global, length: usize) -> Result<Vec<u8>, Fail> {
    let mut script = Vec::from_slice(alloc, b"#x\n\n")?;
    script.extend_from_slice(vec![in alloc; b'x'; length]?.as_slice())?;
    script.extend_from_slice(b"\nnow 5")?;
    Ok(run(alloc, &script)?)
}

#[test]
fn a_line_of_65537_bytes_is_too_long(rt: HostRuntime) -> Result<(), Fail> {
    let longest = printed(rt.alloc(), 65_536)?;
    let longer = printed(rt.alloc(), 65_537)?;
    let are_refused = (
        longest.as_slice() == b"line 3: BadCommand\nline 4: NoSchema\n".as_slice(),
        longer.as_slice() == b"line 3: LineTooLong\nline 4: NoSchema\n".as_slice(),
    );
    assert_eq!(rt; are_refused, (true, true));
    Ok(())
}
