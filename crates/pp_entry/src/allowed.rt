// Which fields an entry may have.
ghost use Rattle.std.specs.Prelude.{◌≡◌, ◌<◌, [], filter, length, nat_le};
ghost use Rattle.std.specs.List.{list_all};
ghost use Rattle.pp_text.specs.Fields.{field_at};
ghost use Rattle.pp_text.specs.Lines.{lines_of};
ghost use Rattle.pp_entry.specs.Fields.{are_allowed, are_in_order, is_dated, is_passing, may_be_kept, may_follow, place_of};

use httpdate::HttpDate;
use pp_text::{Fields, is_forwarded, same};
use pp_valid::{is_of_one_message, is_renewed, line_len};

/// The bytes that another response of the version may renew.
const RENEWED_ROOM: usize = 2048;

/// The first second of the year 10000.
const YEAR_10000: u64 = 253_402_300_800;

/// Whether an entry may have these fields: as they are kept of a response that came then, and with room for what is renewed.
pub fn are_allowed(fields: &Fields<'_, '_>, came: u64) -> bool
    ensures { result ≡ are_allowed fields.now came }
{
    let fits = may_all_be_kept(fields) && has_room(fields);
    fits && (are_in_order(fields) && is_dated(fields, came))
}

fn may_all_be_kept(fields: &Fields<'_, '_>) -> bool
    ensures { result ≡ list_all (may_be_kept fields.now) fields.now }
{
    for index in 0..fields.len() {
        if !may_be_kept(fields, index) {
            return false;
        }
    }
    true
}

fn may_be_kept(fields: &Fields<'_, '_>, index: usize) -> bool
    requires { index < length fields.now }
    ensures { result ≡ may_be_kept fields.now (field_at fields.now index) }
{
    let name = fields.name(index);
    is_forwarded(fields, index) && (same(b"date", name) || !is_of_one_message(name))
}

/// Whether the lines of the fields that may be renewed fit the room for them.
fn has_room(fields: &Fields<'_, '_>) -> bool
    ensures { result ≡ nat_le (length (lines_of (filter is_passing fields.now))) 2048 }
{
    let mut left = RENEWED_ROOM;
    for index in 0..fields.len() {
        if is_passing(fields.name(index)) {
            let len = line_len(fields, index);
            if len > left {
                return false;
            }
            left -= len;
        }
    }
    true
}

fn is_passing(name: &[u8]) -> bool
    ensures { result ≡ is_passing (name.now, []) }
{
    same(b"date", name) || is_renewed(name)
}

/// Whether those that last stand first, and behind them one Date, Expires and Cache-Control.
fn are_in_order(fields: &Fields<'_, '_>) -> bool
    ensures { result ≡ are_in_order 0 fields.now }
{
    let mut before = 0;
    for index in 0..fields.len() {
        let place = place_of(fields.name(index));
        if !may_follow(before, place) {
            return false;
        }
        before = place;
    }
    true
}

/// Where a field of this name stands: those that last come first.
fn place_of(name: &[u8]) -> u8
    ensures { result ≡ place_of (name.now, []) }
{
    if same(b"date", name) {
        1
    } else if same(b"expires", name) {
        2
    } else if same(b"cache-control", name) {
        3
    } else {
        0
    }
}

fn may_follow(before: u8, place: u8) -> bool
    ensures { result ≡ may_follow before place }
{
    before < place || (before == place && place != 1)
}

/// Whether the date is one (RFC 7231, section 7.1.1.2), or there is none since the response came after the year 9999.
fn is_dated(fields: &Fields<'_, '_>, came: u64) -> bool
    ensures { result ≡ is_dated fields.now came }
{
    match fields.first(b"date") {
        Some(value) => HttpDate::parse_ascii(value).is_ok(),
        None => YEAR_10000 <= came,
    }
}
