// The seconds that are told. Somebody may set the system's clock.
//
// By what is told it is seen how old a response is and who is idle, and both are about time that passed. So where the
// system's clock was set back, the seconds go on from where they stood, and are ahead of it from then on. Where it was set
// forth they follow it, as far as they are not there already.
ghost use Rattle.std.specs.Prelude.{◌≤◌, ◌<◌, ◌+◌, IfSome};

/// Where the clock is found so many seconds off, it was set. What is less is waited out.
pub const STEP_SECONDS: u64 = 120;

/// What was told, and how far it is ahead of the system's clock.
#[derive(Clone, Copy, Debug)]
pub struct Seconds {
    /// How far it is ahead.
    pub ahead: u64,
    /// The latest that was told.
    pub latest: Option<u64>,
}

impl Seconds {
    /// Nothing was told yet.
    pub const START: Seconds = Seconds {
        ahead: 0,
        latest: None,
    };

    /// The second that is told where the system's clock shows this one: no earlier one, nor two minutes before the latest.
    pub fn tell(&mut self, shown: u64) -> u64
        ensures shown { shown ≤ result }
        ensures latest { IfSome self.old.latest (λ latest. latest < result + STEP_SECONDS) }
    {
        let latest = self.latest.unwrap_or(shown);
        if shown.saturating_add(self.ahead).abs_diff(latest) >= STEP_SECONDS {
            self.ahead = latest.saturating_sub(shown);
        }
        let told = shown.saturating_add(self.ahead);
        self.latest = Some(latest.max(told));
        told
    }
}
