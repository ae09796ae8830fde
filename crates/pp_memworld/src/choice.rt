// What a crash leaves where it may leave one thing or another.
ghost use Rattle.std.specs.Prelude.{◌<◌, ◌≤◌};

/// From this choice on, a crash tears.
const FIRST_TORN: u64 = 1 << 63;

/// How a crash settles what is loose or in doubt.
#[derive(Clone, Copy)]
pub(crate) enum Choice {
    /// What stood before.
    Old,
    /// What was to stand.
    New,
    /// Each by the next value of a generator in this state.
    Any(u64),
    /// Each of what stood before and what was to stand, by the next value of a generator in this state.
    Torn(u64),
}

impl Choice {
    pub(crate) fn of(choice: u64) -> Choice {
        match choice {
            0 => Choice::Old,
            1 => Choice::New,
            seed if seed < FIRST_TORN => Choice::Any(seed),
            seed => Choice::Torn(seed),
        }
    }

    /// How many of so many files under a name in doubt, of which each took the place of the one before,
    /// came to stand there after the first.
    pub(crate) fn standing(&mut self, doubts: usize) -> usize
        ensures { result ≤ doubts }
    {
        match self {
            Choice::Old => 0,
            Choice::New => doubts,
            Choice::Any(state) => {
                if next_value(state) % 2 == 1 {
                    doubts
                } else {
                    0
                }
            }
            Choice::Torn(state) => up_to(state, doubts),
        }
    }

    /// Where a file ends that is synced to one length, and was to have the other.
    pub(crate) fn length(&mut self, synced: usize, end: usize) -> usize
        requires { synced ≤ end }
        ensures no_shorter { synced ≤ result }
        ensures no_longer { result ≤ end }
    {
        match self {
            Choice::Old => synced,
            Choice::New | Choice::Any(_) => end,
            Choice::Torn(state) => synced + up_to(state, end - synced),
        }
    }

    /// A loose byte.
    pub(crate) fn byte(&mut self, old: u8, new: u8) -> u8 {
        match self {
            Choice::Old => old,
            Choice::New => new,
            Choice::Any(state) => next_value(state).to_le_bytes()[0],
            Choice::Torn(state) => { if next_value(state) % 2 == 1 { new } else { old } }
        }
    }
}

/// A number from 0 to this one, both in.
fn up_to(state: &mut u64, most: usize) -> usize
    ensures { result ≤ most }
{
    let value = next_value(state) as usize;
    match most.checked_add(1) {
        Some(count) => value % count,
        None => value,
    }
}

/// The next value of the generator.
fn next_value(state: &mut u64) -> u64 {
    *state = state
        .wrapping_mul(6_364_136_223_846_793_005)
        .wrapping_add(1_442_695_040_888_963_407);
    *state >> 33
}
