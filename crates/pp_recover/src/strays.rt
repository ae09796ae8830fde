// Gates that are open behind one that is not.
ghost use Rattle.std.specs.Prelude.{◌≡◌, ◌+◌, ◌<◌, ◌≤◌, [], ◌∷◌, OnErr, OnOk, is_ok, length, replicate};
ghost use Rattle.pp_entry.specs.Gates.{leading_open};
ghost use Rattle.pp_world.specs.Log.{Rises, Told};
ghost use Rattle.pp_gate.specs.Runs.{RunsOps};
ghost use Rattle.pp_recover.specs.Closing.{RestsTo, begins, close_from, closing, has_strays, open_from, writes_over};

use pp_world::{Disk, DiskFault, Name};

/// The gates of the longest body that is kept.
pub(crate) const MAX_GATES: usize = 16_384;

/// The gate of a chunk that is kept.
const OPEN: u8 = 0x01;

/// Closed gates.
const CLOSED: [u8; MAX_GATES] = [0; MAX_GATES];

/// Closes the gates of a file that are open behind one that is not: all of them, and then syncs once.
pub(crate) fn close_strays<D: Disk>(
    disk: &mut D,
    name: &Name,
    gates: &[u8],
) -> Result<(), DiskFault>
    requires few { length gates.now ≤ 16384 }
    requires stands { Told (D.log disk.old) (RestsTo name.now (8192 + length gates.now)) }
    ensures ops { RunsOps (D.log disk.old) (D.log disk.new) (closing name.now gates.now) (is_ok result) }
    ensures faults { D.faults disk.old ≤ D.faults disk.new }
    ensures cause { OnErr result (Rises (D.log disk.new) (D.faults disk.old) (D.faults disk.new)) }
    ensures top { D.top disk.new ≡ D.top disk.old }
{
    if !has_strays(gates) {
        return Ok(());
    }
    close_each(disk, name, gates)?;
    // Until then a crash may bring a stray gate back, and the entry is the same with it.
    disk.sync(name)
}

fn has_strays(gates: &[u8]) -> bool
    ensures { result ≡ has_strays gates.now }
{
    for i in 0..gates.len() {
        if begins(gates, i) {
            return true;
        }
    }
    false
}

/// Writes over the stray gates, run by run.
fn close_each<D: Disk>(disk: &mut D, name: &Name, gates: &[u8]) -> Result<(), DiskFault>
    requires few { length gates.now ≤ 16384 }
    requires stands { Told (D.log disk.old) (RestsTo name.now (8192 + length gates.now)) }
    ensures ops { RunsOps (D.log disk.old) (D.log disk.new) (writes_over name.now gates.now) (is_ok result) }
    ensures faults { D.faults disk.old ≤ D.faults disk.new }
    ensures cause { OnErr result (Rises (D.log disk.new) (D.faults disk.old) (D.faults disk.new)) }
    ensures top { D.top disk.new ≡ D.top disk.old }
{
    for i in 0..gates.len() {
        if begins(gates, i) {
            close_from(disk, name, gates, i)?;
        }
    }
    Ok(())
}

/// Whether open gates begin here, behind one that is not.
fn begins(gates: &[u8], i: usize) -> bool
    requires { i < length gates.now }
    ensures { result ≡ begins gates.now i }
{
    i > 0 && gates[i] == OPEN && gates[i - 1] != OPEN
}

/// Closes the gates that are open from here on.
fn close_from<D: Disk>(disk: &mut D, name: &Name, gates: &[u8], i: usize) -> Result<(), DiskFault>
    requires few { length gates.now ≤ 16384 }
    requires within { i < length gates.now }
    requires stands { Told (D.log disk.old) (RestsTo name.now (8192 + length gates.now)) }
    ensures ops { RunsOps (D.log disk.old) (D.log disk.new) (close_from name.now gates.now i ∷ []) (is_ok result) }
    ensures stands { OnOk result (Told (D.log disk.new) (RestsTo name.now (8192 + length gates.now))) }
    ensures faults { D.faults disk.old ≤ D.faults disk.new }
    ensures cause { OnErr result (Rises (D.log disk.new) (D.faults disk.old) (D.faults disk.new)) }
    ensures top { D.top disk.new ≡ D.top disk.old }
{
    disk.write(name, 8192 + i as u64, closed(open_from(gates, i)))
}

/// How many gates stand open from here on.
fn open_from(gates: &[u8], i: usize) -> usize
    requires { i < length gates.now }
    ensures count { result ≡ open_from gates.now i }
    ensures within { i + result ≤ length gates.now }
{
    leading_open(&gates[i..])
}

fn leading_open(gates: &[u8]) -> usize
    ensures count { result ≡ leading_open gates.now }
    ensures within { result ≤ length gates.now }
{
    gates.iter().take_while(|gate| **gate == OPEN).count()
}

/// So many closed gates.
fn closed(count: usize) -> &'static [u8]
    requires { count ≤ 16384 }
    ensures { result.now ≡ replicate count 0 }
{
    &CLOSED[..count]
}
