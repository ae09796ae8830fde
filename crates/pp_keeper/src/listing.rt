// Entries are looked at.
ghost use Rattle.std.specs.Prelude.{◌≡◌, ◌≤◌};
ghost use Rattle.pp_world.specs.Log.{Told};
ghost use Rattle.pp_store.specs.Held.{Holds};
ghost use Rattle.pp_keeper.specs.Anything.{anything};

use crate::body::{CHUNK_LEN, is_body, key_of};
use crate::stop::Stop;
use pp_store::Store;
use pp_world::Disk;

/// How many bytes are kept of the entry with this number. `None` where it is not kept.
pub(crate) fn extent_of(store: &Store, number: u64) -> Option<u64> {
    match store.kept(&key_of(number)) {
        Some(view) => Some(view.extent),
        None => None,
    }
}

/// Whether this chunk of the entry with this number holds its body, as far as it is kept.
pub(crate) fn is_right<D: Disk>(
    store: &mut Store,
    disk: &mut D,
    number: u64,
    index: u32,
    room: &mut [u8; 4096],
) -> Result<bool, Stop>
    requires holds { Told (D.log disk.old) (Holds anything store.old) }
    ensures holds { Told (D.log disk.new) (Holds anything store.new) }
{
    let key = key_of(number);
    let Some(view) = store.kept(&key) else {
        return Ok(true);
    };
    let at = CHUNK_LEN * u64::from(index);
    if at >= view.extent {
        return Ok(true);
    }
    match store.load(disk, &key, index, room) {
        Ok(count) => Ok(is_body(number, at, &room[..count])),
        Err(_) => Err(Stop::Disk),
    }
}
