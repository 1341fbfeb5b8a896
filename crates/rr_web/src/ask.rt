//! What a request asks for.

ghost use Rattle.std.specs.Prelude.{◌≡◌};
ghost use Rattle.rr_web.specs.Ask.{ask_of, is_get, is_of_lines, read_at};

/// What a request asks for, by its method and its path.
#[derive(Clone, Copy, Debug, PartialEq, Eq)]
pub enum Ask {
    /// The lines of its body are to be taken.
    Write,
    /// A fetch.
    Fetch,
    /// The keys of series.
    Series,
    /// The numbers of the node.
    Metrics,
    /// Where the journal is, or bytes of it, as a peer asks.
    Journal,
    /// Bytes of a checkpoint, as a peer asks.
    Checkpoint,
    /// The page.
    Page,
    /// The page's script.
    Script,
    /// The page's style.
    Style,
    /// Whether the node can acknowledge what it is sent.
    Health,
    /// Whether the node is there, as InfluxDB's clients ask.
    Ping,
    /// What only `POST` may ask for, by another method.
    OnlyPost,
    /// What only `GET` and `HEAD` may ask for, by another method.
    OnlyGet,
    /// Nothing that exists.
    Nothing,
}

/// What is read at a path, or `Nothing`.
fn read_at(path: &[u8]) -> Ask
    ensures { result ≡ read_at path.now }
{
    if path == b"/fetch".as_slice() {
        Ask::Fetch
    } else if path == b"/series".as_slice() {
        Ask::Series
    } else if path == b"/metrics".as_slice() {
        Ask::Metrics
    } else if path == b"/journal".as_slice() {
        Ask::Journal
    } else if path == b"/checkpoint".as_slice() {
        Ask::Checkpoint
    } else if path == b"/".as_slice() {
        Ask::Page
    } else if path == b"/rr.js".as_slice() {
        Ask::Script
    } else if path == b"/rr.css".as_slice() {
        Ask::Style
    } else if path == b"/health".as_slice() {
        Ask::Health
    } else if path == b"/ping".as_slice() {
        Ask::Ping
    } else {
        Ask::Nothing
    }
}

/// Whether a method reads.
fn is_get(method: &[u8]) -> bool
    ensures { result ≡ is_get method.now }
{
    method == b"GET".as_slice() || method == b"HEAD".as_slice()
}

/// Whether lines are taken at a path.
fn is_of_lines(path: &[u8]) -> bool
    ensures { result ≡ is_of_lines path.now }
{
    path == b"/write".as_slice() || path == b"/api/v2/write".as_slice()
}

/// What a request with this method and this path asks for. Both are compared byte by byte: methods
/// and paths are case-sensitive.
#[tactic(auto, unfolding(crate::specs::Ask::ask_of))]
pub fn asked_by(method: &[u8], path: &[u8]) -> Ask
    ensures { result ≡ ask_of method.now path.now }
{
    if is_of_lines(path) {
        return if method == b"POST".as_slice() {
            Ask::Write
        } else {
            Ask::OnlyPost
        };
    }
    match read_at(path) {
        Ask::Nothing => Ask::Nothing,
        read if is_get(method) => read,
        _ => Ask::OnlyGet,
    }
}
