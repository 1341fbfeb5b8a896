//! The target of a request.

ghost use Rattle.std.specs.Prelude.{◌≡◌, option_map};
ghost use Rattle.rr_web.specs.Target.{asked_at, behind_authority, ends_authority, is_http, or_root};
ghost use Rattle.rr_web.specs.Target.{behind_scheme, parts_at, target_parts};

use rr_text::bytes::{begins, strip};
use rr_text::text::cut;

/// Separates the parts of a path.
const SLASH: u8 = b'/';

/// Ends a scheme.
const COLON: u8 = b':';

/// Begins a query.
const QUESTION_MARK: u8 = b'?';

const _: () = prove!(SLASH == 47);

const _: () = prove!(COLON == 58);

const _: () = prove!(QUESTION_MARK == 63);

/// Whether a scheme is that of HTTP, ignoring case.
fn is_http(scheme: &[u8]) -> bool
    ensures { result ≡ is_http scheme.now }
{
    scheme.eq_ignore_ascii_case(b"http") || scheme.eq_ignore_ascii_case(b"https")
}

/// What follows an HTTP scheme and two slashes, if a target begins with these.
fn behind_scheme(target: &[u8]) -> Option<&[u8]>
    ensures { option_map (λ rest. rest.now) result ≡ behind_scheme target.now }
{
    match cut(COLON, target) {
        Some((scheme, rest)) if is_http(scheme) => strip(SLASH, strip(SLASH, rest)?),
        _ => None,
    }
}

/// Whether a byte ends an authority.
fn ends_authority(byte: u8) -> bool
    ensures { result ≡ ends_authority byte }
{
    byte == SLASH || byte == QUESTION_MARK
}

/// What follows an authority.
fn behind_authority(text: &[u8]) -> &[u8]
    ensures { result.now ≡ behind_authority text.now }
{
    let mut left = text;
    while let [byte, rest @ ..] = left {
        if ends_authority(*byte) {
            return left;
        }
        left = rest;
    }
    left
}

/// What is asked of a node: a target without its scheme and its authority.
fn asked_at(target: &[u8]) -> &[u8]
    ensures { result.now ≡ asked_at target.now }
{
    if begins(SLASH, target) {
        return target;
    }
    match behind_scheme(target) {
        Some(rest) => behind_authority(rest),
        None => target,
    }
}

/// A path, or that of the root if it is empty.
fn or_root(path: &[u8]) -> &[u8]
    ensures { result.now ≡ or_root path.now }
{
    match path {
        [] => b"/",
        _ => path,
    }
}

/// What comes before the first question mark, and what after it.
fn parts_at(text: &[u8]) -> (&[u8], &[u8])
    ensures { (result.0.now, result.1.now) ≡ parts_at text.now }
{
    match cut(QUESTION_MARK, text) {
        Some(parts) => parts,
        None => (text, &[]),
    }
}

/// The path and the query of a request's target (RFC 9112, section 3.2): what comes before its
/// first question mark, and what after it, which is nothing if there is none. A target in absolute
/// form, such as `http://host:8086/fetch?cf=MAX`, stands for what follows its authority; if no path
/// does, the path is `/`. The cost is linear in the target.
#[tactic(auto, unfolding(crate::specs::Target::target_parts))]
pub fn target_parts(target: &[u8]) -> (&[u8], &[u8])
    ensures { (result.0.now, result.1.now) ≡ target_parts target.now }
{
    let (path, query) = parts_at(asked_at(target));
    (or_root(path), query)
}
