//! The draws that a sample is made by.
ghost use Rattle.std.specs.Prelude.{◌≡◌, ◌<◌};
ghost use Rattle.sample_record.specs.Draws.{after, draw};

const MULTIPLIER: u64 = 6_364_136_223_846_793_005;

const INCREMENT: u64 = 1_442_695_040_888_963_407;

/// The number that the next draw goes on from.
#[derive(Drop)]
pub(crate) struct Draws {
    pub(crate) x: u64,
}

impl Draws {
    /// A number below `bound`.
    pub(crate) fn below(&mut self, bound: u32) -> u32
        requires { 0 < bound }
        ensures next { self.new.x ≡ after self.old.x }
        ensures value { result ≡ draw self.old.x 1 bound }
        ensures below { result < bound }
    {
        self.x = self.x.wrapping_mul(MULTIPLIER).wrapping_add(INCREMENT);
        (self.x >> 33) as u32 % bound
    }
}
