// A life's cues and pages.
ghost use Rattle.std.specs.Prelude.{◌≡◌, IfOk};
ghost use Rattle.pp_demo.specs.Script.{cues_of, site_of};

use crate::asking::put_clients;
use crate::crashing::begin_life;
use crate::generator::Generator;
use crate::pages::{draw_lengths, site_of};
use pp_memworld::{Cue, Script};
use pp_text::OutOfMemory;
use std::alloc::{AllocError, Global};

/// The first life begins then: Sun, 06 Nov 1994 08:49:37 GMT.
const FIRST_SECOND: u64 = 784_111_777;

/// Each life begins so many seconds behind the one before.
const SECONDS_BETWEEN: u64 = 100;

/// The script of this life, from 0.
pub fn demo_script(alloc: Global, seed: u64, life: u32) -> Result<Script, OutOfMemory>
    ensures cues { IfOk result (λ script. script.cues.items ≡ cues_of seed life) }
    ensures site { IfOk result (λ script. script.site.items ≡ site_of seed) }
{
    let mut generator = Generator { state: seed };
    let last_offsets = draw_lengths(&mut generator);
    begin_life(&mut generator, life);
    let mut cues = Vec::new(alloc);
    let begin = FIRST_SECOND + SECONDS_BETWEEN * u64::from(life);
    cues.push(Cue::Tick(begin)).map_err(AllocError::from)?;
    put_clients(alloc, &mut generator, &last_offsets, &mut cues)?;
    let site = site_of(alloc, &last_offsets)?;
    Ok(Script { cues, site })
}
