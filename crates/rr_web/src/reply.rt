//! Replies, before they become HTTP responses.

/// How a request ended.
#[derive(Clone, Copy, Debug, PartialEq, Eq)]
pub(crate) enum Status {
    /// 200: here is what was asked for.
    Ok,
    /// 204: all lines were taken, or the node is there.
    NoContent,
    /// 400: something in the request is refused.
    BadRequest,
    /// 404: there is no such thing.
    NotFound,
    /// 405: only `POST` may ask for it.
    OnlyPost,
    /// 405: only `GET` and `HEAD` may ask for it.
    OnlyGet,
    /// 500: it isn't known what became of the request.
    Failed,
    /// 415: the body has a content coding, and none is undone here.
    UnknownCoding,
    /// 503: the node is behind, or can acknowledge nothing. Nothing was done, so try again.
    Busy,
}

/// What a reply's text is.
#[derive(Clone, Copy, Debug, PartialEq, Eq)]
pub(crate) enum Kind {
    /// CSV records.
    Csv,
    /// JSON.
    Json,
    /// Lines of text.
    Plain,
    /// Numbers, in the text form of Prometheus.
    Metrics,
    /// A page.
    Html,
    /// The script of a page.
    Script,
    /// The style of a page.
    Style,
}

/// The reply to a request.
#[derive(Debug, Drop)]
pub struct Reply {
    /// How it ended.
    pub(crate) status: Status,
    /// What the text is.
    pub(crate) kind: Kind,
    /// The text.
    pub(crate) text: Vec<u8>,
}
