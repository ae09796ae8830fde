// The file of one name.
ghost use Rattle.std.specs.Prelude.{◌≡◌, ◌≤◌, ◌^◌, IfOk, IfSome, OnErr, Option, is_ok, option_map};
ghost use Rattle.std.specs.Option.{option_and_then};
ghost use Rattle.pp_world.specs.Disk.{Bytes, Stands, at_rest};
ghost use Rattle.pp_world.specs.Log.{Rises, Told};
ghost use Rattle.pp_entry.specs.Entries.{row_at, shown_entry};
ghost use Rattle.pp_store.specs.Kept.{IsExtent};
ghost use Rattle.pp_recover.specs.Image.{IsRowOf, named_for};
ghost use Rattle.pp_recover.specs.Looks.{Examines, Extends, GivesFront, GivesGates, GivesHead, Looks, front_in};
ghost use Rattle.pp_recover.specs.Shown.{shown_found};

use crate::strays::{MAX_GATES, close_strays};
use pp_entry::{Entry, HEAD_LEN, Scratch, extent, has_extent, read_head};
use pp_target::file_name;
use pp_world::{Disk, DiskFault, Name};

/// An entry, and how many bytes of its body are kept.
#[derive(Drop)]
pub(crate) struct Found<'a, 's> {
    pub(crate) entry: Entry<'a, 's>,
    pub(crate) extent: u64,
}

/// The gates of an entry that were read, and how many bytes of its body they keep.
#[derive(Clone, Copy)]
pub(crate) struct Front {
    pub(crate) gates: usize,
    pub(crate) extent: u64,
}

/// The entry that the file of this name is, once its stray gates are closed.
pub(crate) fn examine<'a, 's, D: Disk>(
    disk: &mut D,
    name: &Name,
    block: &'a mut [u8; HEAD_LEN],
    gates: &mut [u8; MAX_GATES],
    scratch: &'s mut Scratch,
) -> Result<Option<Found<'a, 's>>, DiskFault>
    requires stands { Told (D.log disk.old) (λ l. (file : Option Bytes) × Stands name.now l (at_rest file)) }
    ensures entry { Extends (D.log disk.old) (D.log disk.new) (Examines shown_found name.now result) }
    ensures row { IfOk result (λ found. IfSome found (λ f. IsRowOf name.now (shown_entry f.entry) × IsExtent (shown_entry f.entry).version.length f.extent)) }
    ensures faults { D.faults disk.old ≤ D.faults disk.new }
    ensures cause { OnErr result (Rises (D.log disk.new) (D.faults disk.old) (D.faults disk.new)) }
    ensures top { D.top disk.new ≡ D.top disk.old }
{
    let entry = match head_of(disk, name, block, scratch) {
        Ok(Some(entry)) => entry,
        Ok(None) => return Ok(None),
        Err(fault) => return Err(fault),
    };
    match front_of(disk, name, entry.version.length, gates) {
        Ok(Some(front)) => {
            close_strays(disk, name, &gates[..front.gates])?;
            Ok(Some(Found {
                entry,
                extent: front.extent,
            }))
        }
        Ok(None) => Ok(None),
        Err(fault) => Err(fault),
    }
}

/// The entry whose head block the file begins with, if it is named for its key.
fn head_of<'a, 's, D: Disk>(
    disk: &mut D,
    name: &Name,
    block: &'a mut [u8; HEAD_LEN],
    scratch: &'s mut Scratch,
) -> Result<Option<Entry<'a, 's>>, DiskFault>
    ensures head { Extends (D.log disk.old) (D.log disk.new) (Looks name.now (is_ok result) (GivesHead shown_entry name.now result)) }
    ensures row { IfOk result (λ entry. IfSome entry (λ e. IsRowOf name.now (shown_entry e))) }
    ensures faults { D.faults disk.old ≤ D.faults disk.new }
    ensures cause { OnErr result (Rises (D.log disk.new) (D.faults disk.old) (D.faults disk.new)) }
    ensures top { D.top disk.new ≡ D.top disk.old }
{
    if disk.read(name, 0, block)? < HEAD_LEN {
        return Ok(None);
    }
    Ok(head_in(name, block, scratch))
}

/// The entry of this head block, if this is the name of its key.
fn head_in<'a, 's>(
    name: &Name,
    block: &'a [u8; HEAD_LEN],
    scratch: &'s mut Scratch,
) -> Option<Entry<'a, 's>>
    ensures row { option_map shown_entry result ≡ option_and_then (named_for name.now) (row_at block.now) }
{
    let entry = read_head(block, scratch)?;
    if file_name(entry.key) == *name {
        Some(entry)
    } else {
        None
    }
}

/// How much of a body of `n` bytes the file keeps, if it has all of it. Its gates are read into the
/// front of the buffer.
fn front_of<D: Disk>(
    disk: &mut D,
    name: &Name,
    n: u64,
    gates: &mut [u8; MAX_GATES],
) -> Result<Option<Front>, DiskFault>
    requires sized { n ≤ 2 ^ 26 }
    ensures front { Extends (D.log disk.old) (D.log disk.new) (Looks name.now (is_ok result) (GivesFront n gates.new result)) }
    ensures few { IfOk result (λ front. IfSome front (λ f. (f.gates ≤ 16384) × IsExtent n f.extent)) }
    ensures faults { D.faults disk.old ≤ D.faults disk.new }
    ensures cause { OnErr result (Rises (D.log disk.new) (D.faults disk.old) (D.faults disk.new)) }
    ensures top { D.top disk.new ≡ D.top disk.old }
{
    let length = disk.length(name)?;
    let count = read_gates(disk, name, n, gates)?;
    Ok(front_in(length, n, &gates[..count]))
}

/// The same of a file of this length with these gates.
fn front_in(length: u64, n: u64, gates: &[u8]) -> Option<Front>
    requires sized { n ≤ 2 ^ 26 }
    ensures { result ≡ front_in length n gates.now }
{
    let extent = extent(gates, n);
    if !has_extent(n, extent, length) {
        return None;
    }
    Some(Front {
        gates: gates.len(),
        extent,
    })
}

/// Reads the gates of a body of `n` bytes, and answers how many came.
fn read_gates<D: Disk>(
    disk: &mut D,
    name: &Name,
    n: u64,
    gates: &mut [u8; MAX_GATES],
) -> Result<usize, DiskFault>
    requires sized { n ≤ 2 ^ 26 }
    ensures gates { Extends (D.log disk.old) (D.log disk.new) (Looks name.now (is_ok result) (GivesGates n gates.new result)) }
    ensures few { IfOk result (λ count. count ≤ 16384) }
    ensures faults { D.faults disk.old ≤ D.faults disk.new }
    ensures cause { OnErr result (Rises (D.log disk.new) (D.faults disk.old) (D.faults disk.new)) }
    ensures top { D.top disk.new ≡ D.top disk.old }
{
    let chunks = (n + 4095) / 4096;
    let front = &mut gates[..chunks as usize];
    disk.read(name, 8192, front)
}
