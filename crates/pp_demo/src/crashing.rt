// Where and how a life crashes.
ghost use Rattle.std.specs.Prelude.{◌≡◌, ◌≤◌, ◌-◌, min, length};
ghost use Rattle.pp_demo.specs.Generator.{next_state};
ghost use Rattle.pp_demo.specs.Script.{begin_of, crash_in, crash_of, past_woke};

use crate::asking::skip_clients;
use crate::generator::Generator;
use crate::pages::draw_lengths;
use crate::summary::is_woke;
use pp_world::Happening;

/// A crash comes fewer than so many happenings before the end.
const MOST_LOST: u32 = 64;

/// How this life crashes: so many happenings before the end, and what is left of what is loose or in doubt.
pub fn demo_crash(seed: u64, life: u32) -> (u64, u64)
    ensures { result ≡ crash_of seed life }
{
    let mut generator = Generator { state: seed };
    let _ = draw_lengths(&mut generator);
    begin_life(&mut generator, life);
    skip_clients(&mut generator);
    draw_crash(&mut generator)
}

/// Leaves the values of the lives before this one.
#[tactic(auto, using(crate::proofs::Steps::lives))]
pub(crate) fn begin_life(generator: &mut Generator, life: u32)
    ensures { generator.new.state ≡ begin_of life generator.old.state }
{
    for _life in 0..life {
        skip_clients(generator);
        let _ = draw_crash(generator);
    }
}

fn draw_crash(generator: &mut Generator) -> (u64, u64)
    ensures state { generator.new.state ≡ next_state (next_state generator.old.state) }
    ensures crash { result ≡ crash_in generator.old.state }
{
    let lost = generator.draw_below(MOST_LOST);
    let choice = generator.draw();
    (u64::from(lost), u64::from(choice))
}

/// How many happenings a crash leaves that comes so many before the end of this log: all to the last `Woke` at least.
pub fn crash_place(log: &[Happening], lost: u64) -> usize
    ensures { result ≡ length log.now - min lost (past_woke log.now) }
{
    log.len() - past_woke(log).min(lost as usize)
}

/// How many happenings stand behind the last `Woke`.
fn past_woke(log: &[Happening]) -> usize
    ensures past { result ≡ past_woke log.now }
    ensures within { result ≤ length log.now }
{
    log.iter()
        .rev()
        .position(|happening| is_woke(happening))
        .unwrap_or(log.len())
}
