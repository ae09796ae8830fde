// `run` beside the law.
ghost use Rattle.std.specs.Prelude.{map, string_bytes};
ghost use Rattle.pp_recover.specs.Opening.{IsFresh};
ghost use Rattle.pp_run.specs.Lives.{outside};
ghost use Rattle.pp_run.specs.Runs.{RunsAs};
ghost use Rattle.pp_turn_law.specs.Running.{RunsBesideTheLaw};
ghost use Rattle.pp_world.specs.Files.{Files};
ghost use Rattle.pp_world.specs.Log.{Told};

use crate::{served_lives_are_lawful, served_lives_have_the_headline};
use pp_run::{Exit, run};
use pp_world::World;
use std::alloc::Global;

/// `run` of `pp_run`, with all that it says, and beside that what it means: where the log before it is told and obeys the law, the log that it leaves as
/// it says that it served, or why it does not, obeys the law too, and may end there; and all that the laws say of such a log holds.
pub fn run_beside_the_law<W: World>(alloc: Global, words: &[String], world: &mut W) -> Exit
    requires { Told (W.log world.old) (λ l. (files : Files) × IsFresh files l) }
    ensures runs { RunsAs (map string_bytes words.now) result (outside (W.log world.old) (W.top world.old) (W.faults world.old)) (outside (W.log world.new) (W.top world.new) (W.faults world.new)) }
    ensures beside { RunsBesideTheLaw words.now result (outside (W.log world.old) (W.top world.old) (W.faults world.old)) (outside (W.log world.new) (W.top world.new) (W.faults world.new)) }
{
    served_lives_are_lawful();
    served_lives_have_the_headline();
    run(alloc, words, world)
}
