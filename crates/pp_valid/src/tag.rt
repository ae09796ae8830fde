// Strong entity tags (RFC 7232, section 2.3).
ghost use Rattle.std.specs.Prelude.{◌≡◌, ◌≤◌, ◌-◌, ◌++◌, IsTrue, length, replicate};
ghost use Rattle.std.specs.List.{list_all};
ghost use Rattle.pp_valid.specs.Tags.{is_tag_byte, is_opaque_tag, is_strong_tag, is_weak_tag, opaque_part, strong_tag};

use std::marker::Model;

const ROOM: usize = 1024;

/// A strong entity tag with its quotation marks, of at most 1,024 bytes. Contracts see the list of
/// its bytes.
#[derive(Clone, Copy, Debug, PartialEq, Eq)]
pub struct Tag {
    room: [u8; ROOM],
    len: usize,
}

impl Model for Tag {
    ghost use Rattle.std.specs.Prelude.{ℕ, ◌-◌, ◌++◌, List, length, take, replicate};
    ghost use Rattle.pp_valid.specs.TagText.{IsTagIn, len_back, room_back};

    ghost Value = { List ℕ };

    ghost view = { λ t. take t.len t.room };

    ghost invariant = { λ t. IsTagIn t.room t.len };

    ghost inverse = { λ text. record { room = text ++ replicate (1024 - length text) 0; len = length text } };

    ghost inverse_ok = { λ t is i. record { room = room_back t.room t.len is i; len = len_back t.room t.len is i } };
}

impl Tag {
    /// The strong tag that this text is: None where it is weak, no tag, or above 1,024 bytes.
    pub fn read(text: &[u8]) -> Option<Tag>
        ensures { result ≡ strong_tag text.now }
    {
        if text.len() > ROOM || !is_opaque_tag(text) {
            return None;
        }
        Some(Tag {
            room: padded(text),
            len: text.len(),
        })
    }

    /// The tag with its quotation marks.
    pub fn as_slice(&self) -> &[u8]
        ensures text { result.now ≡ self.now }
        ensures strong { IsTrue (is_strong_tag self.now) }
    {
        &self.room[..self.len]
    }
}

fn padded(text: &[u8]) -> [u8; ROOM]
    requires { length text.now ≤ 1024 }
    ensures { result ≡ text.now ++ replicate (1024 - length text.now) 0 }
{
    let mut room = [0; ROOM];
    room[..text.len()].copy_from_slice(text);
    room
}

pub(crate) fn is_opaque_tag(text: &[u8]) -> bool
    ensures { result ≡ is_opaque_tag text.now }
{
    text.len() >= 2
        && text[0] == b'"'
        && text[text.len() - 1] == b'"'
        && are_tag_bytes(&text[1..text.len() - 1])
}

fn are_tag_bytes(text: &[u8]) -> bool
    ensures { result ≡ list_all is_tag_byte text.now }
{
    text.iter().all(|b| *b == b'!' || (*b >= b'#' && *b != 127))
}

pub(crate) fn is_weak_tag(text: &[u8]) -> bool
    ensures { result ≡ is_weak_tag text.now }
{
    text.starts_with(b"W/") && is_opaque_tag(&text[2..])
}

/// The text without the mark of a weak tag.
pub(crate) fn opaque_part(text: &[u8]) -> &[u8]
    ensures { result.now ≡ opaque_part text.now }
{
    if text.starts_with(b"W/") {
        &text[2..]
    } else {
        text
    }
}
