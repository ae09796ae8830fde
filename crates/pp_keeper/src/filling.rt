// Entries are kept.
ghost use Rattle.std.specs.Prelude.{◌≡◌, ◌≤◌, ◌<◌, ◌⊎◌, length};
ghost use Rattle.pp_world.specs.Log.{Told};
ghost use Rattle.pp_store.specs.Held.{Holds};
ghost use Rattle.pp_keeper.specs.Anything.{anything};

use crate::body::{BODY_LEN, CHUNK_LEN, key_of, put_body};
use crate::stop::Stop;
use pp_entry::body_at;
use pp_fresh::Times;
use pp_head::{HeadState, Scratch, read_response};
use pp_store::Store;
use pp_target::file_name;
use pp_valid::{TagState, Version, tag_of};
use pp_world::Disk;
use std::alloc::Global;

/// The chunks that are sealed at once at most.
pub(crate) const RUN_CHUNKS: u64 = 64;

/// The bytes of so many chunks, behind the longest head block and gates that stand before so few.
pub(crate) const ROOM_LEN: usize = 274_432;

/// The response that each entry keeps.
const RESPONSE: &[u8] =
    b"HTTP/1.1 200 OK\r\netag: \"x\"\r\ndate: Thu, 01 Jan 1970 00:00:00 GMT\r\n\r\n";

/// How much of a body is published with its entry: all of it, where it is no longer than a seal of more chunks than one, or
/// none.
fn published(length: u64, chunks: u64) -> u64
    ensures whole { (result ≡ 0) ⊎ (result ≡ length) }
    ensures few { result ≤ 262144 }
{
    if chunks > 1 && length <= CHUNK_LEN * chunks.min(RUN_CHUNKS) {
        length
    } else {
        0
    }
}

/// Keeps the entry with this number, where it is not kept, with none of its body or all of it. Answers how many bytes of it
/// that are. Its file is laid out in `room`.
pub(crate) fn keep<D: Disk>(
    alloc: Global,
    store: &mut Store,
    disk: &mut D,
    number: u64,
    length: u64,
    chunks: u64,
    room: &mut [u8; ROOM_LEN],
) -> Result<u64, Stop>
    requires holds { Told (D.log disk.old) (Holds anything store.old) }
    ensures holds { Told (D.log disk.new) (Holds anything store.new) }
{
    if length == 0 {
        return Err(Stop::Empty);
    }
    if length > BODY_LEN {
        return Err(Stop::TooLong);
    }
    let key = key_of(number);
    if store.kept(&key).is_some() {
        return Ok(0);
    }
    if store.under(&file_name(&key)).is_some() {
        return Err(Stop::Taken);
    }
    let mut scratch = Scratch::new();
    let HeadState::Whole(head) = read_response(RESPONSE, &mut scratch) else {
        return Err(Stop::TooLong);
    };
    let TagState::Strong(tag) = tag_of(&head.fields) else {
        return Err(Stop::TooLong);
    };
    let version = Version { tag, length };
    let times = Times {
        request: 0,
        response: 0,
        initial: 0,
        may_guess: false,
    };
    let (at, kept) = (body_at(length), published(length, chunks));
    let file = &mut room[..(at + kept) as usize];
    // What stands before the body is written over.
    put_body(number, 0_u64.wrapping_sub(at), file);
    store.keep(alloc, disk, &key, &version, &head.fields, &times, file)?;
    Ok(kept)
}

/// Keeps up to so many chunks more, from 1 to 64, of the entry with this number. Answers how many of its bytes are kept
/// then, and `None` where all are, or none may be.
pub(crate) fn extend<D: Disk>(
    store: &mut Store,
    disk: &mut D,
    number: u64,
    chunks: u64,
    room: &mut [u8; ROOM_LEN],
) -> Result<Option<u64>, Stop>
    requires holds { Told (D.log disk.old) (Holds anything store.old) }
    ensures holds { Told (D.log disk.new) (Holds anything store.new) }
{
    let key = key_of(number);
    let Some(view) = store.kept(&key) else {
        return Ok(None);
    };
    let extent = view.extent;
    let left = view.version.length - extent;
    if left == 0 {
        return Ok(None);
    }
    let bytes = &mut room[..left.min(CHUNK_LEN * chunks.max(1).min(RUN_CHUNKS)) as usize];
    put_body(number, extent, bytes);
    match store.extend(disk, &key, bytes) {
        Ok(extent) => Ok(Some(extent)),
        Err(_) => Err(Stop::Disk),
    }
}
