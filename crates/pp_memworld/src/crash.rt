// A crash, and the life that follows it.
ghost use Rattle.std.specs.Prelude.{◌≡◌, IsTrue, IfOk, IfSome};
ghost use Rattle.std.specs.List.{list_all};
ghost use Rattle.pp_world.specs.Connections.{top_of, top_with};
ghost use Rattle.pp_world.specs.Disk.{IsLeftBehind};
ghost use Rattle.pp_memworld.specs.Crash.{Continues, Crashes};
ghost use Rattle.pp_memworld.specs.Folder.{Follows, is_sound};
ghost use Rattle.pp_memworld.specs.MemWorld.{HasNoEnds, configuration, told_log};
ghost use Rattle.pp_memworld.specs.Slots.{AreListed};

use crate::choice::Choice;
use crate::copies::log_again;
use crate::folder::Folder;
use crate::record::Record;
use crate::{MemWorld, Script};
use pp_text::{Octets, OutOfMemory};
use pp_world::{Happening, Image};
use std::alloc::Global;

impl MemWorld {
    /// The world of the next life, where this one crashes after its first `at` happenings: its log
    /// goes on from there. None where there are not so many, or the log is told no more.
    ///
    /// By the choice 0 a crash leaves the old file under each name in doubt, and of a file what is
    /// synced, with the old bytes where it was written since; by 1 the new file, whole, with the new
    /// bytes. By a choice below 2^63 each loose byte, and each name in doubt, is settled by the next
    /// value of a generator that begins with it, in the order of names: first whether the new file
    /// stands, by an odd value, and then each loose byte of that file, by the low 8 bits.
    ///
    /// By a choice from 2^63 on a crash tears. The next value settles which of the files stands, where
    /// a name is in doubt; the next after it where the file ends, from the synced length to the greatest
    /// end; and then each of its loose bytes is the new one by an odd value, and the old one by an even.
    ///
    /// The configuration file stays, the calls are numbered from 1 again, and no fault is counted.
    pub fn crash(
        &self,
        alloc: Global,
        at: usize,
        choice: u64,
        script: Script,
        failing: Vec<u64>,
    ) -> Result<Option<MemWorld>, OutOfMemory>
        ensures life { IfOk result (Crashes at (told_log self.now)) }
        ensures failing { IfOk result (λ next. IfSome next (λ w. w.calls.failing.items ≡ failing.items)) }
        ensures calls { IfOk result (λ next. IfSome next (λ w. w.calls.made ≡ 0)) }
        ensures configuration { IfOk result (λ next. IfSome next (λ w. configuration w ≡ configuration self.now)) }
        ensures ends { IfOk result (λ next. IfSome next HasNoEnds) }
    {
        let Some(log) = self.record.log() else {
            return Ok(None);
        };
        if at > log.len() {
            return Ok(None);
        }
        let life = next_life(alloc, &log[..at], choice)?;
        let config = Octets::copy(alloc, self.config.as_slice())?;
        Ok(Some(MemWorld::begin(alloc, life, script, failing, config)))
    }
}

/// The record of the life after a crash at the end of this log.
fn next_life(alloc: Global, log: &[Happening], choice: u64) -> Result<Record, OutOfMemory>
    requires { IsTrue (list_all is_sound log.now) }
    ensures { IfOk result (Continues log.now) }
{
    let image = left_behind(alloc, log, choice)?;
    let again = log_again(alloc, log)?;
    Record::new(alloc, again, top_of(log), image)
}

/// The files that a crash at the end of this log leaves.
fn left_behind(alloc: Global, log: &[Happening], choice: u64) -> Result<Image, OutOfMemory>
    requires { IsTrue (list_all is_sound log.now) }
    ensures left { IfOk result (IsLeftBehind log.now) }
    ensures listed { IfOk result (λ image. AreListed image) }
{
    let folder = replayed(alloc, log)?;
    folder.left(alloc, &mut Choice::of(choice))
}

/// The folder as this log leaves it.
fn replayed(alloc: Global, log: &[Happening]) -> Result<Folder, OutOfMemory>
    requires { IsTrue (list_all is_sound log.now) }
    ensures { IfOk result (Follows log.now) }
{
    let mut folder = Folder::new(alloc);
    for happening in log {
        folder.hear(alloc, happening)?;
    }
    Ok(folder)
}

/// The greatest number that a connection was given.
#[tactic(auto, unfolding(pp_world::specs::Connections::top_of))]
fn top_of(log: &[Happening]) -> u64
    ensures { result ≡ top_of log.now }
{
    let mut top = 0;
    for happening in log {
        top = top_after(top, happening);
    }
    top
}

fn top_after(top: u64, happening: &Happening) -> u64
    ensures { result ≡ top_with top happening.now }
{
    match happening {
        Happening::Opened(id) | Happening::Dialled(id, _, _) => top.max(*id),
        _ => top,
    }
}
