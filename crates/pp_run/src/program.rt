// From words to exit.
ghost use Rattle.std.specs.Prelude.{◌≡◌, ◌∷◌, [], true, Some, map, string_bytes};
ghost use Rattle.pp_world.specs.declared.happening.Happening.TheVariants.{Printed};
ghost use Rattle.pp_world.specs.Files.{Files};
ghost use Rattle.pp_world.specs.Log.{AppendsAll, Told};
ghost use Rattle.pp_recover.specs.Opening.{IsFresh};
ghost use Rattle.pp_conf.specs.Shown.{shown_text};
ghost use Rattle.pp_conf.specs.Words.{file_of, has_reading};
ghost use Rattle.pp_demo.specs.Summary.{summary_text};
ghost use Rattle.pp_run.specs.Breaks.{BreaksWith};
ghost use Rattle.pp_run.specs.Lines.{fault_line};
ghost use Rattle.pp_run.specs.Exits.{exit_of, JudgesWords, ShowsAs, StartsAs};
ghost use Rattle.pp_run.specs.Lives.{HasRead, ServingBy, outside};
ghost use Rattle.pp_run.specs.Runs.{RunsAs};

use crate::Exit;
use crate::lines::{NO_MEMORY_LINE, UNREAD_LINE, fault_line};
use crate::serving::open;
use crate::showing::demo;
use pp_conf::{Command, Conf, ConfFault, config_name};
use pp_demo::Summary;
use pp_world::{ConfigFault, World};
use std::alloc::Global;

/// Reads words, the file that they name, and the settings of both, and serves with them until the world
/// stops it, or for the most turns that they allow. Words with a seed have the demo shown: it serves in a world of its own, and
/// this one is only printed to. `words` are those after the program's name. The world is as its life
/// began: nothing was done in its folder yet.
pub fn run<W: World>(alloc: Global, words: &[String], world: &mut W) -> Exit
    requires { Told (W.log world.old) (λ l. (files : Files) × IsFresh files l) }
    ensures { RunsAs (map string_bytes words.now) result (outside (W.log world.old) (W.top world.old) (W.faults world.old)) (outside (W.log world.new) (W.top world.new) (W.faults world.new)) }
{
    match config_name(alloc, words) {
        Ok(None) => start(alloc, words, None, world),
        Ok(Some(name)) => read_file(alloc, words, name.as_str(), world),
        Err(fault) => refuse(fault, world),
    }
}

/// Reads the file that the words name, and starts with its text.
fn read_file<W: World>(alloc: Global, words: &[String], name: &str, world: &mut W) -> Exit
    requires reads { has_reading (map string_bytes words.now) ≡ true }
    requires named { file_of (map string_bytes words.now) ≡ Some name.now }
    requires fresh { Told (W.log world.old) (λ l. (files : Files) × IsFresh files l) }
    ensures { RunsAs (map string_bytes words.now) result (outside (W.log world.old) (W.top world.old) (W.faults world.old)) (outside (W.log world.new) (W.top world.new) (W.faults world.new)) }
{
    match world.config(alloc, name) {
        Ok(text) => start(alloc, words, Some(text.as_slice()), world),
        Err(ConfigFault::Unreadable) => {
            world.print(UNREAD_LINE.as_bytes());
            Exit::NoConfig
        }
        Err(ConfigFault::OutOfMemory) => {
            world.print(NO_MEMORY_LINE.as_bytes());
            Exit::NoMemory
        }
    }
}

/// Reads the settings of words and text, and starts with them.
fn start<W: World>(alloc: Global, words: &[String], text: Option<&[u8]>, world: &mut W) -> Exit
    requires { Told (W.log world.old) (λ l. (files : Files) × IsFresh files l) }
    ensures words { JudgesWords (map string_bytes words.now) result }
    ensures told { StartsAs [] (map string_bytes words.now) (shown_text text.entry) result (W.log world.old) (W.log world.new) (W.faults world.old) (W.faults world.new) }
    ensures read { ServingBy (map string_bytes words.now) result (HasRead (map string_bytes words.now) (shown_text text.entry) result (outside (W.log world.old) (W.top world.old) (W.faults world.old)) (outside (W.log world.new) (W.top world.new) (W.faults world.new))) }
    ensures breaks { BreaksWith (map string_bytes words.now) (shown_text text.entry) result (outside (W.log world.old) (W.top world.old) (W.faults world.old)) (outside (W.log world.new) (W.top world.new) (W.faults world.new)) }
{
    match Conf::read(alloc, words, text) {
        Ok(Command::Serve(conf)) => open(alloc, &conf, world),
        Ok(Command::Demo(seed)) => show(alloc, seed, world),
        Err(fault) => refuse(fault, world),
    }
}

/// Prints what the lives of the demo of this seed come to, in numbers.
fn show<W: World>(alloc: Global, seed: u64, world: &mut W) -> Exit
    ensures { ShowsAs result (W.log world.old) (W.log world.new) }
{
    match demo(alloc, seed) {
        Ok(shown) => {
            tell(&shown.summary, world);
            Exit::Served
        }
        Err(_) => refuse(ConfFault::OutOfMemory, world),
    }
}

fn tell<W: World>(summary: &Summary, world: &mut W)
    ensures { AppendsAll (W.log world.old) (W.log world.new) (λ l. Printed (summary_text summary.now) ∷ []) }
{
    world.print(summary.text().as_slice());
}

/// Prints why there are no settings.
fn refuse<W: World>(fault: ConfFault, world: &mut W) -> Exit
    ensures exit { result ≡ exit_of fault }
    ensures told { AppendsAll (W.log world.old) (W.log world.new) (λ l. Printed (fault_line fault) ∷ []) }
{
    world.print(fault_line(fault).as_slice());
    match fault {
        ConfFault::Usage => Exit::Usage,
        ConfFault::TooLong | ConfFault::BadLine(_) | ConfFault::BadValue(_) => Exit::NoConfig,
        ConfFault::OutOfMemory => Exit::NoMemory,
    }
}
