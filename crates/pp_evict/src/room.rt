// One victim.
ghost use Rattle.std.specs.Prelude.{◌≡◌, ◌≤◌, ◌⊎◌, length, None, Some, IfSome, IfNone, OnSome, true, option_map};
ghost use Rattle.std.specs.List.{list_all};
ghost use Rattle.pp_pool.specs.Chunks.{is_pinned};
ghost use Rattle.pp_holes.specs.Places.{shown, without};
ghost use Rattle.pp_objects.specs.Instances.{id_of, in_slot, is_there};
ghost use Rattle.pp_objects.specs.Changes.{faces};
ghost use Rattle.pp_objects.specs.Agreement.{AllAgree};
ghost use Rattle.pp_evict.specs.Victims.{victim_in};

use pp_objects::{ObjectId, Objects};
use pp_pool::{Pins, Pool};

/// A chunk that was evicted.
#[derive(Clone, Copy, Debug, PartialEq, Eq)]
pub struct Victim {
    /// The instance whose chunk it was.
    pub id: ObjectId,
    /// Which chunk of it.
    pub index: u32,
}

/// Evicts the least recently used chunk that is not pinned, where more than `floor` chunks are used. `None`
/// exactly where no more are used, or every used chunk is pinned.
pub fn make_room(objects: &mut Objects, pool: &mut Pool, pins: &Pins, floor: u32) -> Option<Victim>
    requires agrees { AllAgree objects.old.instances pool.old.used }
    ensures agrees { AllAgree objects.new.instances pool.new.used }
    ensures victim { option_map (λ v. (v.id.slot, v.index)) result ≡ victim_in pins.now.items floor pool.old.used }
    ensures none { IfNone result ((length pool.old.used ≤ floor) ⊎ (list_all (is_pinned pins.now.items) pool.old.used ≡ true)) }
    ensures unchanged { IfNone result (pool.new ≡ pool.old) }
    ensures same { IfNone result (objects.new ≡ objects.old) }
    ensures id { IfSome result (λ v. Some v.id ≡ option_map id_of (in_slot v.id.slot objects.old.instances)) }
    ensures lives { OnSome result (objects.new.lives ≡ objects.old.lives) }
    ensures faces { OnSome result (faces objects.new.instances ≡ faces objects.old.instances) }
    ensures size { pool.new.size ≡ pool.old.size }
    ensures evicted { IfSome result (λ v. shown pool.new.used ≡ without (v.id.slot, v.index) (shown pool.old.used)) }
{
    if pool.used() <= floor {
        return None;
    }
    let Some((owner, index)) = pool.oldest(pins) else {
        return None;
    };
    let Some(id) = objects.owner(owner) else {
        return None;
    };
    objects.drop_chunk(pool, id, index);
    Some(Victim { id, index })
}
