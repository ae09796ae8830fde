// Whether an entry can be written of a row.
ghost use Rattle.std.specs.Prelude.{◌≡◌, ◌↔◌, true};
ghost use Rattle.std.specs.List.{list_all};
ghost use Rattle.httparse.specs.Grammar.{is_uri_byte};
ghost use Rattle.pp_entry.specs.Entries.{is_sized};
ghost use Rattle.pp_entry.specs.Spelling.{CanBeWritten};
ghost use Rattle.pp_store.specs.Changes.{entry_with};
ghost use Rattle.pp_shelf.specs.Texts.{has_tag, is_text, is_trimmed, is_writable};

use httparse::{is_header_value, is_token, is_uri_token};
use pp_entry::are_allowed;
use pp_fresh::Times;
use pp_text::{Fields, trim};
use pp_valid::{TagState, Version, tag_of};

/// The longest body of an entry.
const BODY_LEN: u64 = 1 << 26;

/// Whether an entry can be written of this row. What is kept of heads mostly can: it may have more fields that are renewed
/// than there is room for, or a longer body.
pub fn can_be_written(key: &[u8], version: &Version, fields: &Fields<'_, '_>, times: &Times) -> bool
    ensures { (result ≡ true) ↔ CanBeWritten (entry_with key.now version.now fields.now times.now) }
{
    let _response = times.response;
    let _initial = times.initial;
    is_writable(key, version, fields, times)
}

fn is_writable(key: &[u8], version: &Version, fields: &Fields<'_, '_>, times: &Times) -> bool
    ensures { result ≡ is_writable key.now version.now fields.now times.now }
{
    let is_placed = is_target(key) && is_sized(version.length);
    let is_kept = are_texts(fields) && are_allowed(fields, times.response);
    is_placed && is_kept && has_tag(version, fields)
}

/// A key has the bytes of a target.
fn is_target(key: &[u8]) -> bool
    ensures { result ≡ list_all is_uri_byte key.now }
{
    key.iter().all(|byte| is_uri_token(*byte))
}

fn is_sized(length: u64) -> bool
    ensures { result ≡ is_sized length }
{
    1 <= length && length <= BODY_LEN
}

/// The tag of the version is that of the fields.
fn has_tag(version: &Version, fields: &Fields<'_, '_>) -> bool
    ensures { result ≡ has_tag version.now fields.now }
{
    match tag_of(fields) {
        TagState::Strong(tag) => tag.as_slice() == version.tag.as_slice(),
        TagState::None | TagState::Weak | TagState::Several | TagState::Bad => false,
    }
}

// ---- as heads have them

/// Each name is a token, and each value has no control byte but the tab, and no blanks at its ends.
fn are_texts(fields: &Fields<'_, '_>) -> bool
    ensures { result ≡ list_all is_text fields.now }
{
    for index in 0..fields.len() {
        if !is_text(fields.name(index), fields.value(index)) {
            return false;
        }
    }
    true
}

fn is_text(name: &[u8], value: &[u8]) -> bool
    ensures { result ≡ is_text (name.now, value.now) }
{
    is_token(name) && is_trimmed(value)
}

fn is_trimmed(value: &[u8]) -> bool
    ensures { result ≡ is_trimmed value.now }
{
    is_header_value(value) && trim(value) == value
}
