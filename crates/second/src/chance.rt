// Numbers drawn by chance, the same ones in every run.
ghost use Rattle.std.specs.Prelude.{◌<◌};

// A linear congruential generator. Its low bits repeat soon, so only the high ones are used.
#[derive(Drop)]
pub struct Dice {
    seed: u64,
}

impl Dice {
    pub fn new(seed: u64) -> Dice {
        Dice { seed }
    }

    // A number below the bound. Each caller knows that its bound is not 0: a literal, a number of states or labels, or a count that
    // was tested.
    pub(crate) fn below(&mut self, bound: usize) -> usize
        requires { 0 < bound }
        ensures { result < bound }
    {
        self.seed = self
            .seed
            .wrapping_mul(6_364_136_223_846_793_005)
            .wrapping_add(1_442_695_040_888_963_407);
        (self.seed >> 33) as usize % bound
    }
}
