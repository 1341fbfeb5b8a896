//! The whole program, by its words: what it prints, and the status that it ends with.
//!
//! Each test calls [`run`] itself, since no function that is generic in the host can pass the
//! host's threads on.

use super::process::{Given, Process};
use rr_base::Counted;
use rr_fakes::replicas::filled;
use rr_packed::PackedArchive;
use rr_process::Ending;
use rr_server::run;
use rr_snapshot::save;
use std::alloc::Global;
use std::fs;
use std::net::TcpListener;
use std::rt::Files;
use std::sync::Wait;
use std::test::Fail;

/// How a process ends: the line on standard output, how the lines on standard error begin and end,
/// and the status. Nothing is on standard error if they begin with nothing.
pub(crate) type End<'a> = (&'a [u8], &'a [u8], &'a [u8], u8);

/// Whether a process ends like this.
pub(crate) fn is_end<R: Wait + Alloc<A = Global>>(
    process: Process<'_, R>,
    ending: &Ending,
    want: End<'_>,
) -> bool {
    let told = ending.print(&process);
    let (printed, complained) = process.into_texts();
    told.is_ok()
        && printed.trim_ascii_end() == want.0
        && complained.is_empty() == want.1.is_empty()
        && complained.ends_with(b"\n") != want.1.is_empty()
        && complained.starts_with(want.1)
        && complained.trim_ascii_end().ends_with(want.2)
        && ending.status() == want.3
}

/// Writes files, by their names and texts. Returns whether all could be written.
pub(crate) fn are_written(host: &impl Files, files: &[(&str, &[u8])]) -> bool {
    let mut are_written = true;
    for (name, text) in files {
        if fs::write(host, name, *text).is_err() {
            are_written = false;
        }
    }
    are_written
}

/// Removes these files.
pub(crate) fn remove(host: &impl Files, files: &[(&str, &[u8])]) {
    for (name, _) in files {
        // A file that is left is in no test's way.
        let _removed = fs::remove_file(host, name);
    }
}

/// The snapshot of a replica of origin 3 that holds 7 at the epoch.
pub(crate) fn snapshot(alloc: Global) -> Option<Vec<u8>> {
    let replica = filled::<PackedArchive>(alloc, 3, 3, 1).ok()?;
    let mut output = Counted::new(Vec::new(alloc));
    save(alloc, &replica, &mut output).ok()?;
    Some(output.into_inner())
}

/// The files that the words name, except `held.snapshot`, which is of origin 3.
const FILES: [(&str, &[u8]); 5] = [
    ("script.rr", SCRIPT),
    ("short.toml", b"step = 60\n"),
    ("far.toml", FAR),
    ("none.toml", NONE),
    ("cut.snapshot", b"RRSN"),
];

const SCRIPT: &[u8] =
    b"schema 60 1:3:0/1\nnode a 1\nwrite a m v=7i 60000000000\nfetch a AVERAGE 60 60 120 m v\n";

/// A configuration that takes lines on port 1, which is there, and fetches on port 2, which isn't.
const FAR: &[u8] = b"step = 60\nlines = \"127.0.0.1:1\"\nfetch = [\"127.0.0.1:2\"]\nlead = 0\n\
    [[archive]]\nsteps = 1\nrows = 3\nxff_num = 0\nxff_den = 1\n";

/// One that takes lines on port 3, which isn't there.
const NONE: &[u8] = b"step = 60\nlines = \"127.0.0.1:3\"\nfetch = [\"127.0.0.1:1\"]\nlead = 0\n\
    [[archive]]\nsteps = 1\nrows = 3\nxff_num = 0\nxff_den = 1\n";

/// Words; the input, which is the script if absent; and the end: the status, the line on standard
/// output, and how the lines on standard error begin and end.
const ENDS: &str = "rr | | 0 | m v,60,7 | |
rr sim | | 0 | m v,60,7 | |
rr sim script.rr | m | 0 | m v,60,7 | |
rr sim no.rr | | 3 | | rr: no.rr: No such file | rr: read failed
rr sim -- -f | | 3 | | rr: -f: No such file | rr: read failed
rr sim f g | | 2 | | error: unexpected argument 'g' | '--help'.
rr sim --now=1 | | 2 | | error: unexpected argument '--now' | '--help'.
rr sim --help | | 2 | | Runs a script of several nodes | Print help
rr check-lines --precision s --now=-7 | m v=1i 5 | 0 | m v,1,5000000000 | |
rr check-lines --precision s --now=-7 | m v=1i | 0 | m v,1,-7 | |
rr check-lines | m v=1 | 1 | line 1: FloatField | |
rr check-lines | m v=1i | 0 | m v,1,0 | |
rr check-lines --precision s | m v=1i 5 | 0 | m v,1,5000000000 | |
rr check-lines --precision=ms | m v=1i 5 | 0 | m v,1,5000000 | |
rr check-lines --precision us | m v=1i 5 | 0 | m v,1,5000 | |
rr check-lines --precision ns | m v=1i 5 | 0 | m v,1,5 | |
rr check-lines --now 5 | m v=1i | 0 | m v,1,5 | |
rr check-lines --now=007 --precision s | m v=1i | 0 | m v,1,7 | |
rr check-lines --now=-9223372036854775808 | m v=1i | 0 | m v,1,-9223372036854775808 | |
rr check-lines --now -5 | | 2 | | error: unexpected argument '-5' | '--help'.
rr check-lines --now=+5 | | 2 | | error: invalid value for '--now <T>' | '--help'.
rr check-lines --now= | | 2 | | error: invalid value for '--now <T>' | '--help'.
rr check-lines --now=9223372036854775808 | | 2 | | error: invalid value for '--now <T>' | '--help'.
rr check-lines --now | | 2 | | error: a value is required for '--now <T>' | '--help'.
rr check-lines --now=1 --now=1 | | 2 | | error: the argument '--now <T>' cannot be used | '--help'.
rr check-lines --precision h | | 2 | | error: invalid value for '--precision <P>' | '--help'.
rr check-lines --precision NS | | 2 | | error: invalid value for '--precision <P>' | '--help'.
rr check-lines f | | 2 | | error: unexpected argument 'f' | '--help'.
rr check-lines -h | | 2 | | Checks lines on standard input | Print help
rr frob | | 2 | | error: unrecognized subcommand 'frob' | '--help'.
rr --frob | | 2 | | error: unexpected argument '--frob' | '--help'.
rr help | | 2 | | A replicated round-robin store | Print version
rr --help | | 2 | | A replicated round-robin store | Print version
rr --version | | 2 | | rr 2 | rr 2
rr no-text | | 2 | | error: invalid UTF-8 | '--help'.
rr serve far.toml | | 2 | | error: the following required arguments | '--help'.
rr serve far.toml --origin 0 | | 2 | | error: invalid value for '--origin <N>' | '--help'.
rr serve no.toml --origin 1 | | 3 | | rr: no.toml: No such file | rr: read failed
rr serve short.toml --origin 1 | | 2 | | rr: short.toml: archive | config: MissingField
rr serve short.toml --origin 1 --load no.snapshot | | 2 | | rr: short.toml: archive | config: MissingField
rr serve far.toml --origin 1 --load no.snapshot | | 3 | | rr: no.snapshot: No such file | rr: read failed
rr serve far.toml --origin 1 --load . | | 3 | | rr: .: | rr: read failed
rr serve far.toml --origin 1 --load cut.snapshot | | 2 | | rr: cut.snapshot: | load: Short
rr serve far.toml --origin 3 --load held.snapshot | | 2 | | rr: held.snapshot: | load: OriginUsed
rr serve far.toml --origin 1 --load held.snapshot | | 3 | | rr: 127.0.0.1:2: | rr: bad address
rr serve far.toml --origin 1 | | 3 | | rr: 127.0.0.1:2: | rr: bad address
rr serve far.toml --origin 1 --save held.snapshot | | 3 | | rr: held.snapshot: will be replaced: no --load | rr: bad address
rr serve far.toml --origin 1 --save no/folder | | 3 | | rr: no: No such file | rr: write failed
rr serve none.toml --origin 1 | | 3 | | rr: 127.0.0.1:3: | rr: bad address";

/// A column of a line of `ENDS`.
fn column(line: &str, place: usize) -> &[u8] {
    match line.split('|').nth(place) {
        Some(text) => text.as_bytes().trim_ascii(),
        None => b"",
    }
}

/// What the process of a line is given. `no-text` stands for a word that isn't UTF-8, which no line
/// can hold.
fn given<'a>(line: &'a str, ports: &'a [TcpListener]) -> Given<'a> {
    let words = match column(line, 0) {
        b"rr no-text" => b"rr \xff",
        words => words,
    };
    let input = match column(line, 1) {
        b"" => SCRIPT,
        input => input,
    };
    Given {
        words,
        input,
        ports,
        moment: None,
    }
}

/// Whether a process ends as a line says.
fn is_told<R: Wait + Alloc<A = Global>>(
    process: Process<'_, R>,
    ending: &Ending,
    line: &str,
) -> bool {
    let status = match column(line, 2) {
        b"0" => 0,
        b"1" => 1,
        b"2" => 2,
        _ => 3,
    };
    let want = (column(line, 3), column(line, 4), column(line, 5), status);
    is_end(process, ending, want)
}

/// Writes all files that the words name.
fn are_ready(host: &(impl Alloc<A = Global> + Files)) -> bool {
    match snapshot(host.alloc()) {
        Some(held) => {
            are_written(host, &FILES) && fs::write(host, "held.snapshot", &held).is_ok()
        }
        None => false,
    }
}

#[test]
fn words_choose_what_is_done(rt: HostRuntime) -> Result<(), Fail> {
    let ports = [TcpListener::bind(&rt, "127.0.0.1:0")?];
    assert!(rt; are_ready(&rt));
    for line in ENDS.lines() {
        let process = Process::new(&rt, given(line, &ports));
        let ending = run(&process);
        assert!(rt; is_told(process, &ending, line));
        // Without what serves a node, other words end the same way.
        if !line.starts_with("rr serve") {
            let process = Process::new(&rt, given(line, &ports));
            let ending = rr_process::run(&process);
            assert!(rt; is_told(process, &ending, line));
        }
    }
    remove(&rt, &FILES);
    remove(&rt, &[("held.snapshot", b"")]);
    Ok(())
}
