// From a head block to what it says.
ghost use Rattle.std.specs.Prelude.{◌≡◌, ◌≤◌, ◌^◌, All, IfSome, length, map, take, option_map};
ghost use Rattle.pp_text.specs.Fields.{field_in, IsFieldWithin};
ghost use Rattle.pp_entry.specs.Entries.{is_spelled, kept_in, row_among, row_at, row_of, shown_entry, shown_own, PlacedIfSome};
ghost use Rattle.pp_entry.specs.Texts.{body_at};

use crate::allowed::are_allowed;
use crate::entry::{Entry, Scratch};
use crate::lines::HEAD_LEN;
use crate::own::{OwnLines, own_in};
use crate::places::place;
use crate::text::{MAX_KEPT, body_at, put_head};
use crate::write::padded;
use arrayvec::ArrayVec;
use pp_head::{HeadState, read_response};
use pp_text::{FieldSpan, Fields};
use pp_valid::{TagState, Version, tag_of};

/// What this head block says: None where it is not the spelling of an entry.
pub fn read_head<'a, 's>(
    block: &'a [u8; HEAD_LEN],
    scratch: &'s mut Scratch,
) -> Option<Entry<'a, 's>>
    ensures row { option_map shown_entry result ≡ row_at block.now }
    ensures body { IfSome result (λ entry. entry.body_at ≡ body_at entry.version.length) }
{
    let own = locate(block, &mut scratch.head, &mut scratch.spans)?;
    show(block, &scratch.spans[..own.count], own)
}

/// What the lines of this proxy's own say, and into `spans` where the kept fields stand.
fn locate<'a>(
    block: &'a [u8; HEAD_LEN],
    scratch: &mut pp_head::Scratch,
    spans: &mut [FieldSpan; MAX_KEPT],
) -> Option<OwnLines<'a>>
    ensures placed { PlacedIfSome (row_at block.now) block.now spans.new result }
    ensures few { IfSome result (λ own. own.count ≤ 95) }
    ensures sized { IfSome result (λ own. own.length ≤ 2 ^ 26) }
{
    match read_response(block, scratch) {
        HeadState::Whole(head) => locate_in(block, &head.fields, spans),
        HeadState::TooLong => None,
        HeadState::Bad => None,
        HeadState::More => None,
    }
}

/// The same of a block that begins with a head of these fields.
fn locate_in<'a>(
    block: &[u8; HEAD_LEN],
    fields: &Fields<'a, '_>,
    spans: &mut [FieldSpan; MAX_KEPT],
) -> Option<OwnLines<'a>>
    ensures placed { PlacedIfSome (row_among block.now fields.now) block.now spans.new result }
    ensures few { IfSome result (λ own. own.count ≤ 95) }
    ensures sized { IfSome result (λ own. own.length ≤ 2 ^ 26) }
{
    let own = own_in(fields)?;
    if !is_spelled(block, &own, fields) {
        return None;
    }
    place(fields, own.count, spans);
    Some(own)
}

/// Whether the block is how an entry with these lines is written.
fn is_spelled(block: &[u8; HEAD_LEN], own: &OwnLines<'_>, fields: &Fields<'_, '_>) -> bool
    requires within { own.now.count ≤ length fields.now }
    requires sized { own.now.length ≤ 2 ^ 26 }
    ensures { result ≡ is_spelled block.now (shown_own own.now) (kept_in (shown_own own.now) fields.now) }
{
    let mut text = ArrayVec::new();
    if put_head(
        own.key, own.length, fields, own.count, &own.times, &mut text,
    )
    .is_err()
    {
        return false;
    }
    let spelling = padded(&text);
    spelling.as_slice() == block.as_slice()
}

/// The entry whose kept fields stand at these spans.
fn show<'a, 's>(
    block: &'a [u8; HEAD_LEN],
    spans: &'s [FieldSpan],
    own: OwnLines<'a>,
) -> Option<Entry<'a, 's>>
    requires within { All (IsFieldWithin (length block.now)) spans.now }
    requires sized { own.length ≤ 2 ^ 26 }
    ensures row { option_map shown_entry result ≡ row_of (shown_own own.entry) (map (field_in block.now) spans.now) }
    ensures body { IfSome result (λ entry. entry.body_at ≡ body_at entry.version.length) }
{
    let fields = Fields::new(block, spans);
    if !are_allowed(&fields, own.times.response) {
        return None;
    }
    let TagState::Strong(tag) = tag_of(&fields) else {
        return None;
    };
    Some(Entry {
        key: own.key,
        version: Version {
            tag,
            length: own.length,
        },
        fields,
        times: own.times,
        body_at: body_at(own.length),
    })
}
