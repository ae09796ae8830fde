// What is known of an instance that is there.
ghost use Rattle.std.specs.Prelude.{◌≡◌, IfSome, true};
ghost use Rattle.pp_objects.specs.Instances.{followers_of, in_slot, is_there, total_at};

use pp_objects::{ObjectId, Objects};

/// How many follow it. None where it is gone.
pub fn followers(objects: &Objects, id: ObjectId) -> Option<u32>
    ensures there { IfSome result (λ n. is_there id objects.now.instances ≡ true) }
    ensures followers { IfSome result (λ n. n ≡ followers_of (in_slot id.slot objects.now.instances)) }
{
    Some(objects.row(id)?.followers)
}

/// How many bytes it has. None where it is gone.
pub fn total(objects: &Objects, id: ObjectId) -> Option<u64>
    ensures there { IfSome result (λ n. is_there id objects.now.instances ≡ true) }
    ensures total { IfSome result (λ n. n ≡ total_at id.slot objects.now.instances) }
{
    Some(objects.row(id)?.version.length)
}
