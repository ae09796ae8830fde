// The instances to which bytes joined in a turn.
ghost use Rattle.std.specs.Prelude.{◌≡◌};
ghost use Rattle.std.specs.List.{list_any};
ghost use Rattle.pp_cache.specs.OnDisk.{grown_by};
ghost use Rattle.pp_objects.specs.Instances.{is_same_id};

use arrayvec::ArrayVec;
use pp_objects::ObjectId;

/// Instances to which bytes joined in one turn: a read brings at most 8 responses, behind one that goes on.
const MOST_GROWN: usize = 16;

/// Each once.
pub(crate) type Grown = ArrayVec<ObjectId, MOST_GROWN>;

/// Bytes joined to this one.
pub(crate) fn note_grown(grown: &mut Grown, id: ObjectId)
    ensures { grown.new.items ≡ grown_by id grown.old.items }
{
    if !has_grown(grown, id) && !grown.is_full() {
        grown.push(id);
    }
}

fn has_grown(grown: &Grown, id: ObjectId) -> bool
    ensures { result ≡ list_any (is_same_id id) grown.now.items }
{
    grown
        .iter()
        .any(|other| id.slot == other.slot && id.life == other.life)
}
