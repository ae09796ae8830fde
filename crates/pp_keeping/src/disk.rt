// Calls of the disk in a turn: they open and close no connection.
ghost use Rattle.std.specs.Prelude.{◌≡◌, ◌≤◌, drop, length};
ghost use Rattle.pp_desk.specs.Anything.{anything};
ghost use Rattle.pp_entry.specs.Texts.{body_at};
ghost use Rattle.pp_keeping.specs.Kept.{outside, Withdraws};
ghost use Rattle.pp_keeping.specs.Runs.{entry_in, Drafts, Seals};
ghost use Rattle.pp_links.specs.Links.{IsLinked};
ghost use Rattle.pp_shelf.specs.Steady.{GrowsSteadily};
ghost use Rattle.pp_store.specs.Held.{Holds};
ghost use Rattle.pp_world.specs.Log.{Told};

use pp_links::Links;
use pp_objects::RowView;
use pp_shelf::Shelf;
use pp_store::KeepFault;
use pp_world::{DiskFault, World};
use std::alloc::Global;

/// Puts the entry of a row on the disk, as it is laid out in `room`. None exactly where an entry is kept under the name, none
/// can be written of the row, or what stands in the room is neither nothing nor all of the body.
pub(crate) fn draft<W: World>(
    alloc: Global,
    _links: &Links,
    shelf: &mut Shelf,
    world: &mut W,
    row: &RowView<'_>,
    room: &mut [u8],
) -> Option<Result<(), KeepFault>>
    requires long { body_at row.now.version.now.length ≤ length room.old }
    requires linked { IsLinked (W.log world.old) (W.top world.old) _links.now }
    requires holds { Told (W.log world.old) (Holds anything shelf.old) }
    ensures linked { IsLinked (W.log world.new) (W.top world.new) _links.now }
    ensures holds { Told (W.log world.new) (Holds anything shelf.new) }
    ensures steady { GrowsSteadily (W.log world.old) (W.log world.new) }
    ensures is { Drafts (entry_in row.now) (drop (body_at row.now.version.now.length) room.old) result (outside shelf.old (W.log world.old) (W.faults world.old)) (outside shelf.new (W.log world.new) (W.faults world.new)) }
    ensures top { W.top world.new ≡ W.top world.old }
{
    shelf.draft(
        alloc,
        world,
        row.key,
        row.version,
        &row.fields,
        &row.times,
        room,
    )
}

/// Keeps more of the body of a row. None exactly where its key is not kept, or these are not whole chunks behind what is.
pub(crate) fn seal<W: World>(
    _links: &Links,
    shelf: &mut Shelf,
    world: &mut W,
    row: &RowView<'_>,
    bytes: &[u8],
) -> Option<Result<u64, DiskFault>>
    requires linked { IsLinked (W.log world.old) (W.top world.old) _links.now }
    requires holds { Told (W.log world.old) (Holds anything shelf.old) }
    ensures linked { IsLinked (W.log world.new) (W.top world.new) _links.now }
    ensures holds { Told (W.log world.new) (Holds anything shelf.new) }
    ensures steady { GrowsSteadily (W.log world.old) (W.log world.new) }
    ensures is { Seals row.now.key.now bytes.now result (outside shelf.old (W.log world.old) (W.faults world.old)) (outside shelf.new (W.log world.new) (W.faults world.new)) }
    ensures top { W.top world.new ≡ W.top world.old }
{
    shelf.seal(world, row.key, bytes)
}

/// Takes the entry of a key away. None exactly where the key is not kept.
pub(crate) fn withdraw<W: World>(
    _links: &Links,
    shelf: &mut Shelf,
    world: &mut W,
    key: &[u8],
) -> Option<Result<(), DiskFault>>
    requires linked { IsLinked (W.log world.old) (W.top world.old) _links.now }
    requires holds { Told (W.log world.old) (Holds anything shelf.old) }
    ensures linked { IsLinked (W.log world.new) (W.top world.new) _links.now }
    ensures holds { Told (W.log world.new) (Holds anything shelf.new) }
    ensures steady { GrowsSteadily (W.log world.old) (W.log world.new) }
    ensures is { Withdraws key.now result (outside shelf.old (W.log world.old) (W.faults world.old)) (outside shelf.new (W.log world.new) (W.faults world.new)) }
    ensures top { W.top world.new ≡ W.top world.old }
{
    shelf.withdraw(world, key)
}
