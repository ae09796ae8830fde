// More of a body.
ghost use Rattle.std.specs.Prelude.{◌≡◌, ◌+◌, ◌≤◌, IsSome, IfOk, OnOk, OnErr, is_ok, length};
ghost use Rattle.pp_world.specs.Log.{Rises, Told};
ghost use Rattle.pp_target.specs.Name.{name_of};
ghost use Rattle.pp_gate.specs.Gate.{OthersSame};
ghost use Rattle.pp_gate.specs.Runs.{EachMoment, RunsOps};
ghost use Rattle.pp_gate.specs.Seal.{Claim, StaysHonest};
ghost use Rattle.pp_store.specs.Answers.{extend_ops};
ghost use Rattle.pp_store.specs.Changes.{extended_after, extended_to};
ghost use Rattle.pp_gate.specs.Files.{Sent};
ghost use Rattle.pp_store.specs.Held.{Covers, Holds, IsOnDisk, IsMore, StaysBacked};
ghost use Rattle.pp_store.specs.Kept.{HasOwnNames, block_of, kept_of, row_of};

use crate::store::Store;
use pp_gate::seal;
use pp_world::{Disk, DiskFault};

/// The bytes of a chunk of a body.
const CHUNK_LEN: u64 = 4096;

impl Store {
    /// Keeps one to 64 whole chunks of a body behind those that are kept, and answers how many of its
    /// bytes are kept now. Where the disk fails, the name is closed and the key is not kept.
    pub fn extend<D: Disk>(
        &mut self,
        disk: &mut D,
        key: &[u8],
        bytes: &[u8],
    ) -> Result<u64, DiskFault>
        ghost sent: { Sent }
        requires kept { IsSome (kept_of key.now self.old) }
        requires more { IsMore sent (row_of key.now self.old) bytes.now }
        requires holds { Told (D.log disk.old) (Holds sent self.old) }
        ensures extent { IfOk result (λ extent. extent ≡ (row_of key.now self.old).extent + length bytes.now) }
        ensures map { self.new ≡ extended_after result key.now self.old }
        ensures holds { Told (D.log disk.new) (Holds sent self.new) }
        ensures covers { Told (D.log disk.old) (Covers self.old) → Told (D.log disk.new) (Covers self.new) }
        ensures ops { RunsOps (D.log disk.old) (D.log disk.new) (extend_ops (row_of key.now self.old) bytes.now) (is_ok result) }
        ensures any_moment { EachMoment (D.log disk.old) (D.log disk.new) (StaysHonest sent (name_of key.now) (block_of (row_of key.now self.old).entry) (row_of key.now self.old).entry.version.length (row_of key.now self.old).extent) }
        ensures others { EachMoment (D.log disk.old) (D.log disk.new) (OthersSame (name_of key.now)) }
        ensures backed { EachMoment (D.log disk.old) (D.log disk.new) (StaysBacked sent) }
        ensures faults { D.faults disk.old ≤ D.faults disk.new }
        ensures cause { OnErr result (Rises (D.log disk.new) (D.faults disk.old) (D.faults disk.new)) }
        ensures top { D.top disk.new ≡ D.top disk.old }
    {
        match self.seal_behind(disk, key, bytes) {
            Ok(extent) => {
                self.extend_to(key, extent);
                Ok(extent)
            }
            Err(fault) => {
                self.lose(key);
                Err(fault)
            }
        }
    }

    /// Writes the chunks into the file of the entry.
    fn seal_behind<D: Disk>(&self, disk: &mut D, key: &[u8], bytes: &[u8]) -> Result<u64, DiskFault>
        ghost claim: { Claim }
        requires kept { IsSome (kept_of key.now self.now) }
        requires block { claim.block ≡ block_of (row_of key.now self.now).entry }
        requires more { IsMore claim.sent (row_of key.now self.now) bytes.now }
        requires holds { Told (D.log disk.old) (Holds claim.sent self.now) }
        ensures extent { IfOk result (λ extent. extent ≡ (row_of key.now self.now).extent + length bytes.now) }
        ensures done { OnOk result (Told (D.log disk.new) (IsOnDisk claim.sent (extended_to ((row_of key.now self.now).extent + length bytes.now) (row_of key.now self.now)))) }
        ensures names { HasOwnNames self.now }
        ensures ops { RunsOps (D.log disk.old) (D.log disk.new) (extend_ops (row_of key.now self.now) bytes.now) (is_ok result) }
        ensures any_moment { EachMoment (D.log disk.old) (D.log disk.new) (StaysHonest claim.sent (name_of key.now) (block_of (row_of key.now self.now).entry) (row_of key.now self.now).entry.version.length (row_of key.now self.now).extent) }
        ensures others { EachMoment (D.log disk.old) (D.log disk.new) (OthersSame (name_of key.now)) }
        ensures faults { D.faults disk.old ≤ D.faults disk.new }
        ensures cause { OnErr result (Rises (D.log disk.new) (D.faults disk.old) (D.faults disk.new)) }
        ensures top { D.top disk.new ≡ D.top disk.old }
    {
        let site = self.site(key);
        let first = (site.extent / CHUNK_LEN) as u32;
        seal(disk, &site.name, site.length, first, bytes)
    }
}
