// The numbers of a seed: Knuth's linear congruential generator (The Art of Computer Programming, volume 2, section 3.3.4).
ghost use Rattle.std.specs.Prelude.{◌≡◌, ◌%◌, ◌<◌};
ghost use Rattle.pp_demo.specs.Generator.{next_state, value_in};

const MULTIPLIER: u64 = 6_364_136_223_846_793_005;

const INCREMENT: u64 = 1_442_695_040_888_963_407;

/// A source of values below 2^31.
#[derive(Clone, Copy, Debug)]
pub(crate) struct Generator {
    pub(crate) state: u64,
}

impl Generator {
    /// The next value: the low bits of such a state repeat soon, so they are left out.
    #[tactic(auto, using(crate::proofs::Steps::next_by), unfolding(crate::specs::Generator::value_in))]
    pub(crate) fn draw(&mut self) -> u32
        ensures state { self.new.state ≡ next_state self.old.state }
        ensures value { result ≡ value_in self.new.state }
    {
        self.state = self.state.wrapping_mul(MULTIPLIER).wrapping_add(INCREMENT);
        (self.state >> 33) as u32
    }

    /// The next value, modulo this number.
    pub(crate) fn draw_below(&mut self, count: u32) -> u32
        requires { 0 < count }
        ensures state { self.new.state ≡ next_state self.old.state }
        ensures value { result ≡ value_in self.new.state % count }
    {
        self.draw() % count
    }
}
