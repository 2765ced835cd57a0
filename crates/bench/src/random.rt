ghost use Rattle.std.specs.Prelude.{◌<◌};

/// Numbers that look random and are the same in every run.
#[derive(Drop)]
pub struct Random {
    state: u64,
}

impl Random {
    pub(crate) fn new(seed: u64) -> Random {
        Random { state: seed }
    }

    /// A number below `n`, or 0 where there is none.
    pub(crate) fn below(&mut self, n: u32) -> u32
        ensures { 0 < n → result < n }
    {
        if n == 0 {
            return 0;
        }
        self.state = self
            .state
            .wrapping_mul(6364136223846793005)
            .wrapping_add(1442695040888963407);
        (self.state >> 33u32) as u32 % n
    }
}
