// A new entry.
ghost use Rattle.std.specs.Prelude.{◌≡◌, ◌≤◌, ◌-◌, ◌^◌, None, Some, drop, false, length};
ghost use Rattle.pp_world.specs.Log.{Told};
ghost use Rattle.pp_target.specs.Name.{name_of};
ghost use Rattle.pp_entry.specs.Spelling.{CanBeWritten};
ghost use Rattle.pp_entry.specs.Texts.{body_at};
ghost use Rattle.pp_gate.specs.Files.{Sent};
ghost use Rattle.pp_gate.specs.Gate.{OldOr, OthersSame};
ghost use Rattle.pp_gate.specs.Runs.{EachMoment};
ghost use Rattle.pp_gate.specs.Seal.{IsFront, OldOrHonest};
ghost use Rattle.pp_store.specs.Answers.{Answers, IsDue, IsLate, KeepCause, RunsKeep, file_with, is_full, refusal_of};
ghost use Rattle.pp_store.specs.Changes.{entry_with, kept_after};
ghost use Rattle.pp_store.specs.Held.{Covers, Holds, IsReadable, StaysBacked};
ghost use Rattle.pp_store.specs.Kept.{block_of, is_closed, kept_under, name_at};

use crate::faults::KeepFault;
use crate::row::KeptRow;
use crate::store::Store;
use pp_entry::{HEAD_LEN, body_at, write_head};
use pp_fresh::Times;
use pp_gate::{PublishFault, publish};
use pp_target::file_name;
use pp_text::Fields;
use pp_valid::Version;
use pp_world::{Disk, Name};
use std::alloc::Global;

impl Store {
    /// Puts the entry of a key on the disk, with none of its body or all of it. What stands in the way is
    /// told before memory is asked for, and that before the disk is touched. Where the disk fails once the
    /// entry is given its name, the name is closed.
    ///
    /// The file is laid out in `room`: the first bytes, up to where the body stands, are written over, and
    /// those behind are the bytes of the body that the entry keeps.
    pub fn keep<D: Disk>(
        &mut self,
        alloc: Global,
        disk: &mut D,
        key: &[u8],
        version: &Version,
        fields: &Fields<'_, '_>,
        times: &Times,
        room: &mut [u8],
    ) -> Result<(), KeepFault>
        ghost sent: { Sent }
        requires written { CanBeWritten (entry_with key.now version.now fields.now times.now) }
        requires room { body_at version.now.length ≤ length room.old }
        requires front { IsFront sent (block_of (entry_with key.now version.now fields.now times.now)) version.now.length (drop (body_at version.now.length) room.old) }
        requires absent { kept_under (name_of key.now) self.old ≡ None }
        requires holds { Told (D.log disk.old) (Holds sent self.old) }
        ensures answer { Answers (refusal_of (entry_with key.now version.now fields.now times.now) self.old) result }
        ensures map { self.new ≡ kept_after result (entry_with key.now version.now fields.now times.now) (length room.old - body_at version.now.length) self.old }
        ensures holds { Told (D.log disk.new) (Holds sent self.new) }
        ensures covers { Told (D.log disk.old) (Covers self.old) → Told (D.log disk.new) (Covers self.new) }
        ensures ops { RunsKeep (D.log disk.old) (D.log disk.new) (entry_with key.now version.now fields.now times.now) (drop (body_at version.now.length) room.old) result }
        ensures old_or_new { EachMoment (D.log disk.old) (D.log disk.new) (OldOr (name_of key.now) (Some (file_with (entry_with key.now version.now fields.now times.now) (drop (body_at version.now.length) room.old)))) }
        ensures any_moment { EachMoment (D.log disk.old) (D.log disk.new) (OldOrHonest sent (name_of key.now) (block_of (entry_with key.now version.now fields.now times.now)) version.now.length (length room.old - body_at version.now.length)) }
        ensures others { EachMoment (D.log disk.old) (D.log disk.new) (OthersSame (name_of key.now)) }
        ensures backed { EachMoment (D.log disk.old) (D.log disk.new) (StaysBacked sent) }
        ensures faults { D.faults disk.old ≤ D.faults disk.new }
        ensures cause { KeepCause (D.log disk.new) (D.faults disk.old) (D.faults disk.new) result }
        ensures top { D.top disk.new ≡ D.top disk.old }
    {
        let name = file_name(key);
        let block = self.block_for(&name, key, version, fields, times)?;
        let extent = room.len() as u64 - body_at(version.length);
        let row = KeptRow::new(alloc, &name, key, version, fields, times, extent)?;
        self.publish_row(disk, &block, row, room)
    }
}

impl Store {
    /// The head block of the entry of a key, if nothing stands in the way of it.
    fn block_for(
        &self,
        name: &Name,
        key: &[u8],
        version: &Version,
        fields: &Fields<'_, '_>,
        times: &Times,
    ) -> Result<[u8; HEAD_LEN], KeepFault>
        requires sized { version.now.length ≤ 2 ^ 26 }
        requires named { name.now ≡ name_of key.now }
        ensures { IsDue (entry_with key.now version.now fields.now times.now) self.now result }
    {
        if self.is_closed(name) {
            return Err(KeepFault::Closed);
        }
        if self.is_full() {
            return Err(KeepFault::Full);
        }
        let mut block = [0; HEAD_LEN];
        write_head(key, version, fields, times, &mut block)?;
        Ok(block)
    }

    /// Publishes a row, and keeps it. All memory is taken before the disk is touched.
    fn publish_row<D: Disk>(
        &mut self,
        disk: &mut D,
        block: &[u8; HEAD_LEN],
        row: KeptRow,
        room: &mut [u8],
    ) -> Result<(), KeepFault>
        ghost sent: { Sent }
        requires block { block.now ≡ block_of row.entry }
        requires reads { IsReadable row.entry }
        requires room { body_at row.entry.version.length ≤ length room.old }
        requires front { IsFront sent (block_of row.entry) row.entry.version.length (drop (body_at row.entry.version.length) room.old) }
        requires extent { row.extent ≡ length room.old - body_at row.entry.version.length }
        requires absent { kept_under (name_at row) self.old ≡ None }
        requires free { is_closed (name_at row) self.old ≡ false }
        requires few { is_full self.old ≡ false }
        requires holds { Told (D.log disk.old) (Holds sent self.old) }
        ensures answer { IsLate result }
        ensures map { self.new ≡ kept_after result row.entry row.extent self.old }
        ensures holds { Told (D.log disk.new) (Holds sent self.new) }
        ensures covers { Told (D.log disk.old) (Covers self.old) → Told (D.log disk.new) (Covers self.new) }
        ensures ops { RunsKeep (D.log disk.old) (D.log disk.new) row.entry (drop (body_at row.entry.version.length) room.old) result }
        ensures old_or_new { EachMoment (D.log disk.old) (D.log disk.new) (OldOr (name_at row) (Some (file_with row.entry (drop (body_at row.entry.version.length) room.old)))) }
        ensures any_moment { EachMoment (D.log disk.old) (D.log disk.new) (OldOrHonest sent (name_at row) (block_of row.entry) row.entry.version.length row.extent) }
        ensures others { EachMoment (D.log disk.old) (D.log disk.new) (OthersSame (name_at row)) }
        ensures backed { EachMoment (D.log disk.old) (D.log disk.new) (StaysBacked sent) }
        ensures faults { D.faults disk.old ≤ D.faults disk.new }
        ensures cause { KeepCause (D.log disk.new) (D.faults disk.old) (D.faults disk.new) result }
        ensures top { D.top disk.new ≡ D.top disk.old }
    {
        let site = row.site();
        self.rows.push(row)?;
        match publish(disk, &site.name, block, site.length, room) {
            Ok(()) => Ok(()),
            Err(PublishFault::NoDraft) => {
                self.rows.pop();
                Err(KeepFault::NoDraft)
            }
            Err(PublishFault::DiskFault) => {
                self.rows.pop();
                self.closed.push_reserved(site.name);
                Err(KeepFault::DiskFault)
            }
        }
    }
}
