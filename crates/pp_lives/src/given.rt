// What a life is given to keep: a key, a version, its fields and times, and a front of its body.
ghost use Rattle.std.specs.Prelude.{◌≡◌, ◌≤◌, ◌^◌, true, IfOk, IfSome, drop, length};
ghost use Rattle.std.specs.List.{list_all};
ghost use Rattle.httparse.specs.Grammar.{is_uri_byte};
ghost use Rattle.pp_entry.specs.Spelling.{CanBeWritten};
ghost use Rattle.pp_entry.specs.Texts.{body_at};
ghost use Rattle.pp_world.specs.Log.{Told};
ghost use Rattle.pp_store.specs.Held.{Holds};
ghost use Rattle.pp_lives.specs.Lives.{IsAnyFront, any_byte, given_fields, given_row, given_version, is_front_of};

use pp_entry::body_at;
use pp_fresh::Times;
use pp_store::{KeepFault, KeptView, Store};
use pp_target::file_name;
use pp_text::{FieldSpan, Fields, OutOfMemory};
use pp_valid::{Tag, Version};
use pp_world::Disk;
use std::alloc::Global;

/// The kept fields of a response, one behind the other, and where they stand.
const TEXT: &[u8] = b"etag\"x\"dateSun, 06 Nov 1994 08:49:37 GMTcache-controlmax-age=60";

const SPANS: [FieldSpan; 3] = [
    FieldSpan {
        name_from: 0,
        name_to: 4,
        value_from: 4,
        value_to: 7,
    },
    FieldSpan {
        name_from: 7,
        name_to: 11,
        value_from: 11,
        value_to: 40,
    },
    FieldSpan {
        name_from: 40,
        name_to: 53,
        value_from: 53,
        value_to: 63,
    },
];

/// The longest body that is kept, in bytes.
const MOST: u64 = 67_108_864;

pub const TIMES: Times = Times {
    request: 784_111_776,
    response: 784_111_777,
    initial: 0,
    may_guess: true,
};

/// What a later life reads of them: the request was made when the response came, and no lifetime is
/// guessed.
pub const TIMES_READ: Times = Times {
    request: 784_111_777,
    response: 784_111_777,
    initial: 0,
    may_guess: false,
};

pub fn fields() -> Fields<'static, 'static>
    ensures { result ≡ given_fields }
{
    Fields::new(TEXT, &SPANS)
}

/// The version `"x"` of a body of so many bytes.
pub fn version(length: u64) -> Option<Version>
    ensures { IfSome result (λ version. version ≡ given_version length) }
{
    let tag = Tag::read(b"\"x\"")?;
    Some(Version { tag, length })
}

/// Whether the entry of a key may be kept with these first bytes of a body of so many: none of it, chunks
/// of 4,096 bytes, or all of it.
#[tactic(auto, using(crate::proofs::GivenLemmas::row_written, crate::proofs::GivenLemmas::any_front))]
pub fn may_be_asked(key: &[u8], length: u64, front: &[u8]) -> bool
    ensures written { result ≡ true → CanBeWritten (given_row key.now length) }
    ensures sized { result ≡ true → length ≤ 2 ^ 26 }
    ensures front { result ≡ true → IsAnyFront length front.now }
{
    is_key(key) && 1 <= length && length <= MOST && is_front(length, front.len())
}

fn is_key(key: &[u8]) -> bool
    ensures { result ≡ list_all is_uri_byte key.now }
{
    key.iter().all(|byte| is_uri_byte(*byte))
}

fn is_uri_byte(byte: u8) -> bool
    ensures { result ≡ is_uri_byte byte }
{
    b' ' < byte && byte != 0x7f
}

fn is_front(length: u64, count: usize) -> bool
    requires { length ≤ 2 ^ 26 }
    ensures { result ≡ is_front_of length count }
{
    let count = count as u64;
    count <= length && length.min((count + 4095) / 4096 * 4096) == count
}

/// Room to lay out the file of an entry, and these first bytes of the body behind it.
pub fn room_with(alloc: Global, n: u64, front: &[u8]) -> Result<Vec<u8>, OutOfMemory>
    requires { n ≤ 2 ^ 26 }
    ensures room { IfOk result (λ room. body_at n ≤ length room.items) }
    ensures front { IfOk result (λ room. drop (body_at n) room.items ≡ front.now) }
{
    let mut room = vec![in alloc; 0; body_at(n) as usize]?;
    room.extend_from_slice(front)?;
    Ok(room)
}

/// Keeps the entry of a key with these first bytes of a body of so many. `None` where it may not be asked
/// for.
pub fn keep_in<D: Disk>(
    store: &mut Store,
    alloc: Global,
    disk: &mut D,
    key: &[u8],
    length: u64,
    front: &[u8],
) -> Option<Result<(), KeepFault>>
    requires { Told (D.log disk.old) (Holds any_byte store.old) }
    ensures { Told (D.log disk.new) (Holds any_byte store.new) }
{
    let version = version(length)?;
    if !may_be_asked(key, length, front) || store.under(&file_name(key)).is_some() {
        return None;
    }
    let Ok(mut room) = room_with(alloc, length, front) else {
        return Some(Err(KeepFault::OutOfMemory));
    };
    Some(store.keep(alloc, disk, key, &version, &fields(), &TIMES, &mut room))
}

/// Whether the response of a key is told of with a body of so many bytes, as it was given but for these
/// times.
pub fn is_as_given(row: &KeptView<'_>, key: &[u8], length: u64, times: &Times) -> bool {
    row.key == key
        && row.version.tag.as_slice() == b"\"x\"".as_slice()
        && row.version.length == length
        && row.times == *times
        && are_fields(&row.fields)
}

fn are_fields(fields: &Fields<'_, '_>) -> bool {
    fields.len() == 3
        && fields.first(b"etag") == Some(b"\"x\"".as_slice())
        && fields.first(b"date") == Some(b"Sun, 06 Nov 1994 08:49:37 GMT".as_slice())
        && fields.first(b"cache-control") == Some(b"max-age=60".as_slice())
}
