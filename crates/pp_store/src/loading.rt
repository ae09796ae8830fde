// A chunk of a body.
ghost use Rattle.std.specs.Prelude.{◌≡◌, ◌<◌, ◌≤◌, ◌+◌, ◌*◌, ◌^◌, IsSome};
ghost use Rattle.pp_world.specs.Log.{AppendsAll, Told};
ghost use Rattle.pp_target.specs.Name.{name_of};
ghost use Rattle.pp_entry.specs.Texts.{body_at};
ghost use Rattle.pp_store.specs.Changes.{loaded_after};
ghost use Rattle.pp_gate.specs.Files.{Sent};
ghost use Rattle.pp_gate.specs.Runs.{EachMoment};
ghost use Rattle.pp_store.specs.Held.{Covers, Holds, StaysBacked};
ghost use Rattle.pp_store.specs.Kept.{kept_of, row_of};
ghost use Rattle.pp_store.specs.Loads.{GivesChunk, GivesRead, GivesSent, LoadCause, ReadCause, chunk_len, load_happenings};

use crate::faults::LoadFault;
use crate::row::Site;
use crate::store::Store;
use pp_entry::body_at;
use pp_world::{Disk, DiskFault};

/// The bytes of a chunk of a body.
const CHUNK_LEN: u64 = 4096;

impl Store {
    /// Reads a chunk that is kept into the front of `out`, and answers how many bytes it has: 4,096, or
    /// those up to the end of the body. What stands behind them may change too. Where the disk fails, or
    /// has fewer bytes, the name is closed and the key is not kept.
    pub fn load<D: Disk>(
        &mut self,
        disk: &mut D,
        key: &[u8],
        index: u32,
        out: &mut [u8; 4096],
    ) -> Result<usize, LoadFault>
        ghost sent: { Sent }
        requires kept { IsSome (kept_of key.now self.old) }
        requires below { 4096 * index < (row_of key.now self.old).extent }
        requires holds { Told (D.log disk.old) (Holds sent self.old) }
        ensures map { self.new ≡ loaded_after result key.now self.old }
        ensures holds { Told (D.log disk.new) (Holds sent self.new) }
        ensures covers { Told (D.log disk.old) (Covers self.old) → Told (D.log disk.new) (Covers self.new) }
        ensures bytes { Told (D.log disk.old) (GivesChunk (row_of key.now self.old) index out.new result) }
        ensures sent { Told (D.log disk.old) (λ l. GivesSent sent (row_of key.now self.old) index out.new result) }
        ensures told { AppendsAll (D.log disk.old) (D.log disk.new) (λ l. load_happenings (name_of key.now) result) }
        ensures backed { EachMoment (D.log disk.old) (D.log disk.new) (StaysBacked sent) }
        ensures faults { D.faults disk.old ≤ D.faults disk.new }
        ensures cause { LoadCause (D.log disk.new) (D.faults disk.old) (D.faults disk.new) (chunk_len (row_of key.now self.old).entry.version.length index) result }
        ensures top { D.top disk.new ≡ D.top disk.old }
    {
        let site = self.site(key);
        match read_chunk(disk, &site, index, out) {
            Ok(count) => Ok(count),
            Err(fault) => {
                self.lose(key);
                Err(fault)
            }
        }
    }
}

/// Reads a chunk of the body that stands there.
fn read_chunk<D: Disk>(
    disk: &mut D,
    site: &Site,
    index: u32,
    out: &mut [u8; 4096],
) -> Result<usize, LoadFault>
    requires sized { site.now.length ≤ 2 ^ 26 }
    requires below { 4096 * index < site.now.length }
    ensures bytes { Told (D.log disk.old) (GivesRead site.now.name (body_at site.now.length + 4096 * index) (chunk_len site.now.length index) out.new result) }
    ensures told { AppendsAll (D.log disk.old) (D.log disk.new) (λ l. load_happenings site.now.name result) }
    ensures faults { D.faults disk.old ≤ D.faults disk.new }
    ensures cause { ReadCause (D.log disk.new) (D.faults disk.old) (D.faults disk.new) (chunk_len site.now.length index) result }
    ensures top { D.top disk.new ≡ D.top disk.old }
{
    let at = CHUNK_LEN * u64::from(index);
    let wanted = CHUNK_LEN.min(site.length - at);
    let front = &mut out[..wanted as usize];
    match disk.read(&site.name, body_at(site.length) + at, front) {
        Ok(got) if got as u64 == wanted => Ok(got),
        Ok(got) => Err(LoadFault::Short {
            wanted,
            got: got as u64,
        }),
        Err(DiskFault) => Err(LoadFault::DiskFault),
    }
}
