// From the head of a response to its version (RFC 2616, section 13.5.4; RFC 7233, section 4.1).
ghost use Rattle.std.specs.Prelude.{◌≡◌};
ghost use Rattle.std.specs.List.{list_all};
ghost use Rattle.pp_text.specs.Numbers.{number_of};
ghost use Rattle.pp_valid.specs.Versions.{body_length, can_share, complete_length, is_for_everybody, is_number, is_telling, length_in, total_of, version_of};

use crate::codings::is_coded;
use crate::content_range::{ContentRange, read_content_range};
use crate::end_to_end::{hides_freshness, is_dropped};
use crate::kept::has_room_for;
use crate::tag_state::{TagState, tag_of};
use crate::version::Version;
use pp_fresh::may_store;
use pp_text::{FieldValues, Fields, read_u64};

/// The most bytes of a body that has a version.
const MAX_LENGTH: u64 = 1 << 30;

/// The version of a response with these fields. None where one of these does not hold. A field that
/// Connection names counts as absent, but for what forbids storing, which holds all the same:
///
/// - there is one ETag, and it is strong, not empty, and of at most 1,024 bytes;
/// - the status is 200 with a Content-Length, or 206 with a Content-Range `a-b/n` and the
///   Content-Length `b - a + 1`; there is no Transfer-Encoding, and equal lengths count as one;
/// - the whole body has at most 2^30 bytes;
/// - the lines of Date, Expires and Cache-Control have at most 2,048 bytes, a Date that is missing
///   or unreadable counting as a line of 37, and the other lines that are kept at most 16,384;
/// - `pp_fresh::may_store` holds of the fields;
/// - the request accepts only `identity`, or there is no other content coding;
/// - Connection names none of Cache-Control, Expires, Date, Age and Last-Modified.
pub fn version_of(
    head: &Fields<'_, '_>,
    status: u16,
    accepts_only_identity: bool,
) -> Option<Version>
    ensures { result ≡ version_of head.now status accepts_only_identity }
{
    let TagState::Strong(tag) = tag_of(head) else {
        return None;
    };
    let length = total_of(head, status)?;
    let can_keep = length <= MAX_LENGTH && has_room_for(head);
    if is_telling(tag.as_slice()) && (can_keep && can_share(head, accepts_only_identity)) {
        Some(Version { tag, length })
    } else {
        None
    }
}

/// The tag is not the empty one, `""`.
fn is_telling(tag: &[u8]) -> bool
    ensures { result ≡ is_telling tag.now }
{
    tag.len() > 2
}

fn can_share(fields: &Fields<'_, '_>, accepts_only_identity: bool) -> bool
    ensures { result ≡ can_share fields.now accepts_only_identity }
{
    may_store(fields)
        && (is_for_everybody(fields, accepts_only_identity) && !hides_freshness(fields))
}

fn is_for_everybody(fields: &Fields<'_, '_>, accepts_only_identity: bool) -> bool
    ensures { result ≡ is_for_everybody fields.now accepts_only_identity }
{
    accepts_only_identity || !is_coded(fields)
}

fn total_of(fields: &Fields<'_, '_>, status: u16) -> Option<u64>
    ensures { result ≡ total_of fields.now status }
{
    let len = body_length(fields)?;
    match status {
        200 => Some(len),
        206 => complete_length(read_content_range(fields), len),
        _ => None,
    }
}

fn complete_length(range: Option<ContentRange>, len: u64) -> Option<u64>
    ensures { result ≡ complete_length range len }
{
    match range {
        Some(ContentRange::Span(first, last, n)) => {
            if len > 0 && len - 1 == last.saturating_sub(first) {
                Some(n)
            } else {
                None
            }
        }
        Some(ContentRange::Unsatisfied(_)) | None => None,
    }
}

/// The length that a response tells of its body. None beside a Transfer-Encoding, where Connection
/// names the Content-Length, and where there is none, or a second one that is another.
pub fn body_length(fields: &Fields<'_, '_>) -> Option<u64>
    ensures { result ≡ body_length fields.now }
{
    if fields.has(b"transfer-encoding") || is_dropped(fields, b"content-length") {
        return None;
    }
    length_in(fields.values(b"content-length"))
}

fn length_in(mut values: FieldValues<'_, '_, '_>) -> Option<u64>
    ensures { result ≡ length_in values.entry }
{
    let length = read_u64(values.next()?)?;
    if are_number(values, length) {
        Some(length)
    } else {
        None
    }
}

fn are_number(mut values: FieldValues<'_, '_, '_>, n: u64) -> bool
    ensures { result ≡ list_all (λ value. is_number n (number_of value)) values.entry }
{
    values.all(|value| is_number(value, n))
}

fn is_number(value: &[u8], n: u64) -> bool
    ensures { result ≡ is_number n (number_of value.now) }
{
    match read_u64(value) {
        Some(m) => m == n,
        None => false,
    }
}
