//! Which bytes of a journal are given from an offset on.
ghost use Rattle.std.specs.Prelude.{◌≡◌, ◌<◌, ◌≤◌, IfSome};
ghost use Rattle.rr_replication.specs.Part.{begins_at, ends_at, later, part_from, sooner};

/// The most bytes of a part.
pub const MAX_PART: u64 = 4_194_304;

const _: () = prove!(MAX_PART == 4_194_304);

/// What is given of a journal from an offset on.
#[derive(Clone, Copy, Debug, PartialEq, Eq)]
pub enum Part {
    /// Bytes of records in one of the journal's files.
    Bytes {
        /// The offset at which the file begins, as in its name.
        file: u64,
        /// How many bytes of the file's records come before them.
        skip: u64,
        /// How many there are: at least one, and at most [`MAX_PART`].
        len: u64,
    },
    /// No bytes yet: the journal ends there.
    Nothing,
    /// No such bytes: they are no longer in any file, or the journal doesn't reach that far.
    Gone,
}

/// The later of two files' beginnings; the second counts only if it isn't above `from`.
fn later(begin: Option<u64>, file: u64, from: u64) -> Option<u64>
    ensures { result ≡ later begin file from }
{
    if from < file {
        return begin;
    }
    match begin {
        Some(before) => Some(before.max(file)),
        None => Some(file),
    }
}

/// Where the file with the bytes from an offset on begins: at the greatest of these beginnings that
/// isn't above it.
fn begins_at(files: &[u64], from: u64) -> Option<u64>
    ensures begin { result ≡ begins_at files.now from }
    ensures within { IfSome result (λ begin. begin ≤ from) }
{
    let mut begin = None;
    for file in files {
        begin = later(begin, *file, from);
    }
    begin
}

/// The lesser of an end and a file's beginning, which counts only if it is above `from`.
fn sooner(end: u64, file: u64, from: u64) -> u64
    ensures { result ≡ sooner end file from }
{
    if from < file { end.min(file) } else { end }
}

/// Where that file ends: at the least of these beginnings that is above the offset, or at the end.
fn ends_at(files: &[u64], end: u64, from: u64) -> u64
    requires { from < end }
    ensures end { result ≡ ends_at files.now end from }
    ensures behind { from < result }
{
    let mut until = end;
    for file in files {
        until = sooner(until, *file, from);
    }
    until
}

/// Which bytes of a journal are given from the offset `from` on, if its files begin at the offsets
/// `files`, in any order, and are synced up to the offset `end`.
///
/// They are in the last file that begins at or before `from`, and reach to the next file's
/// beginning, to `end`, or over [`MAX_PART`] bytes, whichever is least. `Gone` if no file begins at
/// or before `from`, or `from` is above `end`; otherwise `Nothing` if `from` is `end`. No memory is
/// taken. The cost is linear in the files.
pub fn part_from(files: &[u64], end: u64, from: u64) -> Part
    ensures { result ≡ part_from files.now end from }
{
    let Some(file) = begins_at(files, from) else {
        return Part::Gone;
    };
    if end < from {
        return Part::Gone;
    }
    if end == from {
        return Part::Nothing;
    }
    let until = ends_at(files, end, from);
    Part::Bytes {
        file,
        skip: from - file,
        len: (until - from).min(MAX_PART),
    }
}
