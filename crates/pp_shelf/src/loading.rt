// A chunk is read back.
ghost use Rattle.std.specs.Prelude.{◌≡◌, ◌≤◌, ◌*◌, IfNone, IfOk, IfSome, is_some};
ghost use Rattle.pp_world.specs.Log.{AppendsAll, Told};
ghost use Rattle.pp_target.specs.Name.{name_of};
ghost use Rattle.pp_shelf.specs.Steady.{GrowsOnDisk};
ghost use Rattle.pp_gate.specs.Files.{Sent};
ghost use Rattle.pp_gate.specs.Runs.{EachMoment};
ghost use Rattle.pp_store.specs.Changes.{loaded_after};
ghost use Rattle.pp_store.specs.Held.{Covers, Holds, StaysBacked};
ghost use Rattle.pp_shelf.specs.Given.{keeps_byte};
ghost use Rattle.pp_store.specs.Kept.{kept_of, row_of};
ghost use Rattle.pp_store.specs.Loads.{GivesChunk, GivesSent, LoadCause, chunk_len, load_happenings};

use crate::shelf::Shelf;
use pp_store::LoadFault;
use pp_world::Disk;

/// The bytes of a chunk of a body.
const CHUNK_LEN: u64 = 4096;

impl Shelf {
    /// Reads a chunk that is kept into the front of `out`, and answers how many bytes it has. Where the disk fails, or has
    /// fewer bytes, the name is closed and the key is not kept. None exactly where the chunk is not kept.
    #[tactic(auto, using(crate::proofs::GrowthLemmas::load_on_disk, pp_store::proofs::Backing::quiet_backed, crate::proofs::SteadyLemmas::on_disk_none))]
    pub fn load<D: Disk>(
        &mut self,
        disk: &mut D,
        key: &[u8],
        index: u32,
        out: &mut [u8; 4096],
    ) -> Option<Result<usize, LoadFault>>
        ghost sent: { Sent }
        requires { Told (D.log disk.old) (Holds sent self.old) }
        ensures answered { is_some result ≡ keeps_byte (4096 * index) (kept_of key.now self.old) }
        ensures none { IfNone result (self.new ≡ self.old) }
        ensures still { IfNone result (D.log disk.new ≡ D.log disk.old) }
        ensures map { IfSome result (λ r. self.new ≡ loaded_after r key.now self.old) }
        ensures bytes { IfSome result (λ r. Told (D.log disk.old) (GivesChunk (row_of key.now self.old) index out.new r)) }
        ensures sent { IfSome result (λ r. Told (D.log disk.old) (λ l. GivesSent sent (row_of key.now self.old) index out.new r)) }
        ensures within { IfSome result (λ r. IfOk r (λ n. n ≤ 4096)) }
        ensures told { IfSome result (λ r. AppendsAll (D.log disk.old) (D.log disk.new) (λ l. load_happenings (name_of key.now) r)) }
        ensures holds { Told (D.log disk.new) (Holds sent self.new) }
        ensures covers { Told (D.log disk.old) (Covers self.old) → Told (D.log disk.new) (Covers self.new) }
        ensures backed { EachMoment (D.log disk.old) (D.log disk.new) (StaysBacked sent) }
        ensures grows { GrowsOnDisk (D.log disk.old) (D.log disk.new) }
        ensures faults { D.faults disk.old ≤ D.faults disk.new }
        ensures cause { IfSome result (λ r. LoadCause (D.log disk.new) (D.faults disk.old) (D.faults disk.new) (chunk_len (row_of key.now self.old).entry.version.length index) r) }
        ensures top { D.top disk.new ≡ D.top disk.old }
    {
        let Some(view) = self.store.kept(key) else {
            return None;
        };
        if CHUNK_LEN * u64::from(index) >= view.extent {
            return None;
        }
        Some(self.store.load(disk, key, index, out))
    }
}
