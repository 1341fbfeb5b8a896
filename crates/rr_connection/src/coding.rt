//! Content codings.

ghost use Rattle.std.specs.Prelude.{◌≡◌, map, length, All};
ghost use Rattle.std.specs.List.{list_any};
ghost use Rattle.httparse.specs.Spans.{IsHeaderWithin, header_bytes};
ghost use Rattle.rr_connection.specs.Requests.{is_coding};

use httparse::spans::HeaderSpan;

/// Whether a field is a content coding other than `identity`.
fn is_coding(name: &[u8], value: &[u8]) -> bool
    ensures { result ≡ is_coding (name.now, value.now) }
{
    name.eq_ignore_ascii_case(b"content-encoding") && !value.eq_ignore_ascii_case(b"identity")
}

/// Whether a head with these fields of the input has such a field.
pub(crate) fn has_coding(input: &[u8], headers: &[HeaderSpan]) -> bool
    requires { All (IsHeaderWithin (length input.now)) headers.now }
    ensures { result ≡ list_any is_coding (map (header_bytes input.now) headers.now) }
{
    let mut found = false;
    for header in headers {
        found |= is_coding(header.name.of(input), header.value.of(input));
    }
    found
}
