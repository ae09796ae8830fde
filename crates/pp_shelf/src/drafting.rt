// A new entry.
ghost use Rattle.std.specs.Prelude.{◌≡◌, ◌≤◌, ◌-◌, ◌^◌, ◌↔◌, IfNone, IfSome, IsSome, drop, length, true};
ghost use Rattle.pp_world.specs.Log.{Told};
ghost use Rattle.pp_shelf.specs.Steady.{GrowsOnDisk};
ghost use Rattle.pp_entry.specs.Texts.{body_at};
ghost use Rattle.pp_gate.specs.Files.{Sent};
ghost use Rattle.pp_gate.specs.Runs.{EachMoment};
ghost use Rattle.pp_store.specs.Answers.{Answers, KeepCause, RunsKeep, refusal_of};
ghost use Rattle.pp_store.specs.Changes.{entry_with, kept_after};
ghost use Rattle.pp_store.specs.Held.{Covers, Holds, StaysBacked};
ghost use Rattle.pp_store.specs.Kept.{block_of};
ghost use Rattle.pp_shelf.specs.Given.{IsWhole, MayBeDrafted, WereSent};

use crate::shelf::Shelf;
use crate::writable::can_be_written;
use pp_entry::body_at;
use pp_fresh::Times;
use pp_store::KeepFault;
use pp_target::file_name;
use pp_text::Fields;
use pp_valid::Version;
use pp_world::Disk;
use std::alloc::Global;

impl Shelf {
    /// Puts the entry of a key on the disk, with none of its body or all of it. Its file is laid out in `room`: the bytes
    /// from where the body stands on are those that the entry keeps. None exactly where an entry is kept under the name, none
    /// can be written of this, or what stands in the room is neither nothing nor all of the body.
    #[tactic(auto, using(crate::proofs::GrowthLemmas::keep_on_disk, crate::proofs::GivenLemmas::front_of_room, crate::proofs::GivenLemmas::room_reaches, pp_store::proofs::Backing::quiet_backed, crate::proofs::SteadyLemmas::on_disk_none))]
    pub fn draft<D: Disk>(
        &mut self,
        alloc: Global,
        disk: &mut D,
        key: &[u8],
        version: &Version,
        fields: &Fields<'_, '_>,
        times: &Times,
        room: &mut [u8],
    ) -> Option<Result<(), KeepFault>>
        ghost sent: { Sent }
        requires sent { WereSent sent (block_of (entry_with key.now version.now fields.now times.now)) 0 (drop (body_at version.now.length) room.old) }
        requires holds { Told (D.log disk.old) (Holds sent self.old) }
        ensures answered { IsSome result ↔ MayBeDrafted self.old (entry_with key.now version.now fields.now times.now) (length room.old) }
        ensures none { IfNone result (self.new ≡ self.old) }
        ensures still { IfNone result (D.log disk.new ≡ D.log disk.old) }
        ensures answer { IfSome result (λ r. Answers (refusal_of (entry_with key.now version.now fields.now times.now) self.old) r) }
        ensures map { IfSome result (λ r. self.new ≡ kept_after r (entry_with key.now version.now fields.now times.now) (length room.old - body_at version.now.length) self.old) }
        ensures ops { IfSome result (λ r. RunsKeep (D.log disk.old) (D.log disk.new) (entry_with key.now version.now fields.now times.now) (drop (body_at version.now.length) room.old) r) }
        ensures holds { Told (D.log disk.new) (Holds sent self.new) }
        ensures covers { Told (D.log disk.old) (Covers self.old) → Told (D.log disk.new) (Covers self.new) }
        ensures backed { EachMoment (D.log disk.old) (D.log disk.new) (StaysBacked sent) }
        ensures grows { GrowsOnDisk (D.log disk.old) (D.log disk.new) }
        ensures faults { D.faults disk.old ≤ D.faults disk.new }
        ensures cause { IfSome result (λ r. KeepCause (D.log disk.new) (D.faults disk.old) (D.faults disk.new) r) }
        ensures top { D.top disk.new ≡ D.top disk.old }
    {
        if self.store.under(&file_name(key)).is_some() {
            return None;
        }
        if !can_be_written(key, version, fields, times) {
            return None;
        }
        if !has_body(version.length, room.len()) {
            return None;
        }
        Some(
            self.store
                .keep(alloc, disk, key, version, fields, times, room),
        )
    }
}

/// What stands behind the front of so much room is none of a body of `n` bytes, or all of it.
fn has_body(n: u64, room: usize) -> bool
    requires { n ≤ 2 ^ 26 }
    ensures { (result ≡ true) ↔ IsWhole n room }
{
    let front = body_at(n);
    let room = room as u64;
    room == front || room == front + n
}
