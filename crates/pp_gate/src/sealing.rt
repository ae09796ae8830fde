// Chunks behind those that are kept.
ghost use Rattle.std.specs.Prelude.{◌≡◌, ◌+◌, ◌*◌, ◌≤◌, ◌^◌, IfOk, OnErr, OnOk, is_ok, length, min, replicate};
ghost use Rattle.pp_world.specs.Log.{Rises, Told};
ghost use Rattle.pp_entry.specs.Texts.{chunks_of};
ghost use Rattle.pp_gate.specs.Gate.{OthersSame};
ghost use Rattle.pp_gate.specs.Runs.{EachMoment, RunsOps};
ghost use Rattle.pp_gate.specs.Seal.{Claim, IsRun, Keeps, StaysHonest, seal_ops};

use pp_entry::body_at;
use pp_world::{Disk, DiskFault, Name};

/// The gates of as many chunks as are sealed at once.
const OPEN: [u8; 64] = [1; 64];

fn open_gates(count: usize) -> &'static [u8]
    requires { count ≤ 64 }
    ensures { result.now ≡ replicate count 1 }
{
    &OPEN[..count]
}

/// Writes chunks of a body of `n` bytes behind those that are kept, from the chunk `first` on, and then
/// opens their gates; answers how many bytes of the body are kept now.
pub fn seal<D: Disk>(
    disk: &mut D,
    name: &Name,
    n: u64,
    first: u32,
    bytes: &[u8],
) -> Result<u64, DiskFault>
    ghost claim: { Claim }
    requires sized { n ≤ 2 ^ 26 }
    requires kept { Told (D.log disk.old) (Keeps claim.sent name.now claim.block n first) }
    requires run { IsRun claim.sent claim.block n first (chunks_of (length bytes.now)) bytes.now }
    ensures ops { RunsOps (D.log disk.old) (D.log disk.new) (seal_ops name.now n first (chunks_of (length bytes.now)) bytes.now) (is_ok result) }
    ensures any_moment { EachMoment (D.log disk.old) (D.log disk.new) (StaysHonest claim.sent name.now claim.block n (min n (4096 * first))) }
    ensures others { EachMoment (D.log disk.old) (D.log disk.new) (OthersSame name.now) }
    ensures done { OnOk result (Told (D.log disk.new) (Keeps claim.sent name.now claim.block n (first + chunks_of (length bytes.now)))) }
    ensures extent { IfOk result (λ extent. extent ≡ 4096 * first + length bytes.now) }
    ensures faults { D.faults disk.old ≤ D.faults disk.new }
    ensures cause { OnErr result (Rises (D.log disk.new) (D.faults disk.old) (D.faults disk.new)) }
    ensures top { D.top disk.new ≡ D.top disk.old }
{
    let count = (bytes.len() + 4095) / 4096;
    match seal_run(disk, name, n, u64::from(first), count, bytes) {
        Ok(()) => Ok(4096 * u64::from(first) + bytes.len() as u64),
        Err(fault) => Err(fault),
    }
}

fn seal_run<D: Disk>(
    disk: &mut D,
    name: &Name,
    n: u64,
    first: u64,
    count: usize,
    bytes: &[u8],
) -> Result<(), DiskFault>
    ghost claim: { Claim }
    requires sized { n ≤ 2 ^ 26 }
    requires kept { Told (D.log disk.old) (Keeps claim.sent name.now claim.block n first) }
    requires run { IsRun claim.sent claim.block n first count bytes.now }
    ensures ops { RunsOps (D.log disk.old) (D.log disk.new) (seal_ops name.now n first count bytes.now) (is_ok result) }
    ensures any_moment { EachMoment (D.log disk.old) (D.log disk.new) (StaysHonest claim.sent name.now claim.block n (min n (4096 * first))) }
    ensures others { EachMoment (D.log disk.old) (D.log disk.new) (OthersSame name.now) }
    ensures done { OnOk result (Told (D.log disk.new) (Keeps claim.sent name.now claim.block n (first + count))) }
    ensures faults { D.faults disk.old ≤ D.faults disk.new }
    ensures cause { OnErr result (Rises (D.log disk.new) (D.faults disk.old) (D.faults disk.new)) }
    ensures top { D.top disk.new ≡ D.top disk.old }
{
    seal_steps(disk, name, n, first, count, bytes)
}

fn seal_steps<D: Disk>(
    disk: &mut D,
    name: &Name,
    n: u64,
    first: u64,
    count: usize,
    bytes: &[u8],
) -> Result<(), DiskFault>
    ghost claim: { Claim }
    requires sized { n ≤ 2 ^ 26 }
    requires kept { Told (D.log disk.old) (Keeps claim.sent name.now claim.block n first) }
    requires run { IsRun claim.sent claim.block n first count bytes.now }
    ensures ops { RunsOps (D.log disk.old) (D.log disk.new) (seal_ops name.now n first count bytes.now) (is_ok result) }
    ensures faults { D.faults disk.old ≤ D.faults disk.new }
    ensures cause { OnErr result (Rises (D.log disk.new) (D.faults disk.old) (D.faults disk.new)) }
    ensures top { D.top disk.new ≡ D.top disk.old }
{
    disk.write(name, body_at(n) + 4096 * first, bytes)?;
    disk.sync(name)?;
    // The gates come after the sync: a torn gate would vouch for bytes that were lost.
    disk.write(name, 8192 + first, open_gates(count))?;
    disk.sync(name)
}
