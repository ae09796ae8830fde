// More of a body.
ghost use Rattle.std.specs.Prelude.{◌≡◌, ◌≤◌, ◌^◌, ◌+◌, IfNone, IfOk, IfSome, OnErr, is_ok, is_some, length};
ghost use Rattle.pp_world.specs.Log.{Rises, Told};
ghost use Rattle.pp_shelf.specs.Steady.{GrowsOnDisk};
ghost use Rattle.pp_gate.specs.Files.{Sent};
ghost use Rattle.pp_gate.specs.Runs.{EachMoment, RunsOps};
ghost use Rattle.pp_store.specs.Answers.{extend_ops};
ghost use Rattle.pp_store.specs.Changes.{extended_after};
ghost use Rattle.pp_store.specs.Held.{Covers, Holds, StaysBacked};
ghost use Rattle.pp_store.specs.Kept.{IsExtent, block_of, kept_of, row_of};
ghost use Rattle.pp_shelf.specs.Given.{WereSent, is_extent, is_more, is_more_of};

use crate::shelf::Shelf;
use pp_world::{Disk, DiskFault};

/// The bytes of a chunk of a body.
const CHUNK_LEN: u64 = 4096;

/// The bytes of a run at most: 64 chunks.
const RUN_LEN: usize = 262_144;

impl Shelf {
    /// Keeps one to 64 whole chunks of a body behind those that are kept, and answers how many of its bytes are kept now.
    /// Where the disk fails, the name is closed and the key is not kept. None exactly where the key is not kept, or these bytes
    /// are no such chunks.
    #[tactic(auto, using(crate::proofs::GrowthLemmas::runs_on_disk, pp_store::proofs::Backing::quiet_backed, crate::proofs::SteadyLemmas::on_disk_none))]
    pub fn seal<D: Disk>(
        &mut self,
        disk: &mut D,
        key: &[u8],
        bytes: &[u8],
    ) -> Option<Result<u64, DiskFault>>
        ghost sent: { Sent }
        requires sent { WereSent sent (block_of (row_of key.now self.old).entry) (row_of key.now self.old).extent bytes.now }
        requires holds { Told (D.log disk.old) (Holds sent self.old) }
        ensures answered { is_some result ≡ is_more_of (length bytes.now) (kept_of key.now self.old) }
        ensures none { IfNone result (self.new ≡ self.old) }
        ensures still { IfNone result (D.log disk.new ≡ D.log disk.old) }
        ensures extent { IfSome result (λ r. IfOk r (λ extent. extent ≡ (row_of key.now self.old).extent + length bytes.now)) }
        ensures map { IfSome result (λ r. self.new ≡ extended_after r key.now self.old) }
        ensures ops { IfSome result (λ r. RunsOps (D.log disk.old) (D.log disk.new) (extend_ops (row_of key.now self.old) bytes.now) (is_ok r)) }
        ensures holds { Told (D.log disk.new) (Holds sent self.new) }
        ensures covers { Told (D.log disk.old) (Covers self.old) → Told (D.log disk.new) (Covers self.new) }
        ensures backed { EachMoment (D.log disk.old) (D.log disk.new) (StaysBacked sent) }
        ensures grows { GrowsOnDisk (D.log disk.old) (D.log disk.new) }
        ensures faults { D.faults disk.old ≤ D.faults disk.new }
        ensures cause { IfSome result (λ r. OnErr r (Rises (D.log disk.new) (D.faults disk.old) (D.faults disk.new))) }
        ensures top { D.top disk.new ≡ D.top disk.old }
    {
        let Some(view) = self.store.kept(key) else {
            return None;
        };
        if !is_run(view.version.length, view.extent, bytes.len()) {
            return None;
        }
        Some(self.store.extend(disk, key, bytes))
    }
}

/// So many bytes behind an extent are one to 64 whole chunks of a body of `n` bytes.
fn is_run(n: u64, extent: u64, len: usize) -> bool
    requires sized { n ≤ 2 ^ 26 }
    requires whole { IsExtent n extent }
    ensures { result ≡ is_more n extent len }
{
    0 < len && len <= RUN_LEN && is_extent(n, extent + len as u64)
}

/// So many bytes are whole chunks of a body of `n` bytes.
fn is_extent(n: u64, extent: u64) -> bool
    requires { extent ≤ 2 ^ 27 }
    ensures { result ≡ is_extent n extent }
{
    let chunks = (extent + 4095) / CHUNK_LEN;
    n.min(CHUNK_LEN * chunks) == extent
}
