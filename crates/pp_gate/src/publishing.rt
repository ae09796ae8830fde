// A new entry under a name.
ghost use Rattle.std.specs.Prelude.{◌≡◌, ◌≤◌, ◌+◌, ◌-◌, ◌^◌, ◌++◌, OnErr, OnOk, Some, drop, is_ok, length, replicate, take};
ghost use Rattle.pp_world.specs.Log.{Rises, Told};
ghost use Rattle.pp_entry.specs.Texts.{body_at, chunks_of};
ghost use Rattle.pp_gate.specs.Files.{Sent, whole_file};
ghost use Rattle.pp_gate.specs.Gate.{HoldsJust, IsUnfailed, OldOr, OthersSame, RunsPublish, draft_ops};
ghost use Rattle.pp_gate.specs.Runs.{EachMoment, RunsOps};
ghost use Rattle.pp_gate.specs.Seal.{IsFront, IsKept, Keeps, OldOrHonest};

use pp_entry::{HEAD_LEN, body_at};
use pp_world::{Disk, DiskFault, Name};
use thiserror::Error;

/// The gate of a chunk that is kept.
const OPEN: u8 = 0x01;

/// The gate of one that is not.
const CLOSED: u8 = 0x00;

/// Why an entry was not published.
#[derive(Clone, Copy, Debug, PartialEq, Eq, Error)]
pub enum PublishFault {
    /// The draft was not written, or not synced: no name was touched.
    #[error("an entry was not written")]
    NoDraft,
    /// The draft was not named: the old file stands under the name, or the new one.
    #[error("an entry was not named")]
    DiskFault,
}

/// Puts an entry with this head block, of a body of `n` bytes, under a name: at each moment a crash
/// leaves there the file from before, or this one whole.
///
/// The file is laid out in `room`: the head block and the gates over its front, up to where the body
/// stands. The bytes behind are those of the body that the entry keeps, none or all of them.
pub fn publish<D: Disk>(
    disk: &mut D,
    name: &Name,
    block: &[u8; HEAD_LEN],
    n: u64,
    room: &mut [u8],
) -> Result<(), PublishFault>
    ghost sent: { Sent }
    requires sized { n ≤ 2 ^ 26 }
    requires room { body_at n ≤ length room.old }
    requires front { IsFront sent block.now n (drop (body_at n) room.old) }
    requires sound { Told (D.log disk.old) (IsUnfailed name.now) }
    ensures laid { room.new ≡ whole_file block.now n (drop (body_at n) room.old) }
    ensures kept { IsKept block.now n (chunks_of (length room.old - body_at n)) room.new }
    ensures ops { RunsPublish (D.log disk.old) (D.log disk.new) name.now room.new result }
    ensures old_or_new { EachMoment (D.log disk.old) (D.log disk.new) (OldOr name.now (Some room.new)) }
    ensures any_moment { EachMoment (D.log disk.old) (D.log disk.new) (OldOrHonest sent name.now block.now n (length room.old - body_at n)) }
    ensures others { EachMoment (D.log disk.old) (D.log disk.new) (OthersSame name.now) }
    ensures done { OnOk result (Told (D.log disk.new) (Keeps sent name.now block.now n (chunks_of (length room.old - body_at n)))) }
    ensures faults { D.faults disk.old ≤ D.faults disk.new }
    ensures cause { OnErr result (Rises (D.log disk.new) (D.faults disk.old) (D.faults disk.new)) }
    ensures top { D.top disk.new ≡ D.top disk.old }
{
    lay(block, body_at(n) as usize, room);
    publish_file(disk, name, room)
}

/// Lays the head block, open gates for the chunks that stand from `at` on, and closed gates.
fn lay(block: &[u8; HEAD_LEN], at: usize, room: &mut [u8])
    requires room { at ≤ length room.old }
    requires gates { 8192 + chunks_of (length room.old - at) ≤ at }
    ensures { room.new ≡ block.now ++ (replicate (chunks_of (length room.old - at)) 1 ++ (replicate (at - 8192 - chunks_of (length room.old - at)) 0 ++ drop at room.old)) }
{
    let gates_end = HEAD_LEN + (room.len() - at + 4095) / 4096;
    put(block, room);
    fill(room, HEAD_LEN, gates_end, OPEN);
    fill(room, gates_end, at, CLOSED);
}

fn put(block: &[u8; HEAD_LEN], room: &mut [u8])
    requires { 8192 ≤ length room.old }
    ensures { room.new ≡ block.now ++ drop 8192 room.old }
{
    let front = &mut room[..HEAD_LEN];
    front.copy_from_slice(block);
}

fn fill(room: &mut [u8], from: usize, to: usize, gate: u8)
    requires order { from ≤ to }
    requires within { to ≤ length room.old }
    ensures { room.new ≡ take from room.old ++ (replicate (to - from) gate ++ drop to room.old) }
{
    room[from..to].fill(gate);
}

/// The same of any file.
fn publish_file<D: Disk>(disk: &mut D, name: &Name, file: &[u8]) -> Result<(), PublishFault>
    ensures ops { RunsPublish (D.log disk.old) (D.log disk.new) name.now file.now result }
    ensures old_or_new { EachMoment (D.log disk.old) (D.log disk.new) (OldOr name.now (Some file.now)) }
    ensures others { EachMoment (D.log disk.old) (D.log disk.new) (OthersSame name.now) }
    ensures done { OnOk result (Told (D.log disk.new) (HoldsJust name.now file.now)) }
    ensures faults { D.faults disk.old ≤ D.faults disk.new }
    ensures cause { OnErr result (Rises (D.log disk.new) (D.faults disk.old) (D.faults disk.new)) }
    ensures top { D.top disk.new ≡ D.top disk.old }
{
    publish_steps(disk, name, file)
}

fn publish_steps<D: Disk>(disk: &mut D, name: &Name, file: &[u8]) -> Result<(), PublishFault>
    ensures ops { RunsPublish (D.log disk.old) (D.log disk.new) name.now file.now result }
    ensures faults { D.faults disk.old ≤ D.faults disk.new }
    ensures cause { OnErr result (Rises (D.log disk.new) (D.faults disk.old) (D.faults disk.new)) }
    ensures top { D.top disk.new ≡ D.top disk.old }
{
    if draft(disk, file).is_err() {
        return Err(PublishFault::NoDraft);
    }
    match disk.publish(name) {
        Ok(()) => Ok(()),
        Err(DiskFault) => Err(PublishFault::DiskFault),
    }
}

/// A draft that stands through a crash.
fn draft<D: Disk>(disk: &mut D, file: &[u8]) -> Result<(), DiskFault>
    ensures ops { RunsOps (D.log disk.old) (D.log disk.new) (draft_ops file.now) (is_ok result) }
    ensures faults { D.faults disk.old ≤ D.faults disk.new }
    ensures cause { OnErr result (Rises (D.log disk.new) (D.faults disk.old) (D.faults disk.new)) }
    ensures top { D.top disk.new ≡ D.top disk.old }
{
    disk.draft(file)?;
    disk.sync_draft()
}
