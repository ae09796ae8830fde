// How far each instance is kept on the disk, by its slot.
ghost use Rattle.std.specs.Prelude.{◌≡◌, IfOk, cond, length, replicate, slice_get};
ghost use Rattle.pp_cache.specs.OnDisk.{bytes_of, kept_to, nowhere};
ghost use Rattle.pp_objects.specs.Instances.{is_same_id};

use pp_objects::ObjectId;
use pp_text::OutOfMemory;
use std::alloc::Global;

/// Slots of instances.
const INSTANCES: usize = 1345;

/// So many bytes of an instance are kept, from the first on.
#[derive(Clone, Copy)]
pub(crate) struct Extent {
    pub(crate) id: ObjectId,
    pub(crate) bytes: u64,
}

const NOWHERE: Extent = Extent {
    id: ObjectId { slot: 0, life: 0 },
    bytes: 0,
};

/// Of each slot: nothing is kept.
pub(crate) fn no_extents(alloc: Global) -> Result<Vec<Extent>, OutOfMemory>
    ensures none { IfOk result (λ extents. extents.items ≡ replicate 1345 nowhere) }
    ensures count { IfOk result (λ extents. length extents.items ≡ 1345) }
{
    let mut extents = Vec::with_capacity(alloc, INSTANCES)?;
    for _slot in 0..INSTANCES {
        extents.push_reserved(NOWHERE);
    }
    Ok(extents)
}

/// How many bytes are kept of the instance.
pub(crate) fn bytes_of(extents: &[Extent], id: ObjectId) -> u64
    ensures { result ≡ bytes_of id (slice_get extents.now id.slot) }
{
    match extents.get(id.slot as usize) {
        Some(extent) => bytes_in(extent, id),
        None => 0,
    }
}

fn bytes_in(extent: &Extent, id: ObjectId) -> u64
    ensures { result ≡ cond (is_same_id extent.now.id id) extent.now.bytes 0 }
{
    if extent.id.slot == id.slot && extent.id.life == id.life {
        extent.bytes
    } else {
        0
    }
}

/// So many bytes of the instance are kept.
pub(crate) fn keep_to(extents: &mut Vec<Extent>, id: ObjectId, bytes: u64)
    ensures kept { extents.new.items ≡ kept_to id bytes extents.old.items }
    ensures count { length extents.new.items ≡ length extents.old.items }
{
    let slot = id.slot as usize;
    if slot < extents.len() {
        extents[slot] = Extent { id, bytes };
    }
}
